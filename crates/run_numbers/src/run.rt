//! The numbers of a whole run.
ghost use Rattle.std.specs.Prelude.{◌≡◌, ◌<◌, ◌≤◌, ◌+◌, ◌-◌, ◌*◌, ◌^◌, [], ℕ, Ok, IfOk, OnErr, OnOk, length, map, min, All};
ghost use Rattle.std.specs.Option.{ForSome};
ghost use Rattle.std.specs.Vec.{vec_capacity, vec_len};
ghost use Rattle.bench_types.specs.Limits.{max_steps};
ghost use Rattle.bench_types.specs.Step.{settings_of, step_check};
ghost use Rattle.bench_model.specs.Control.{current};
ghost use Rattle.bench_model.specs.Equal.{StandsFor};
ghost use Rattle.bench_model.specs.Session.{step_of};
ghost use Rattle.bench_model.specs.Table.{Table};
ghost use Rattle.list_orders.specs.Search.{numbers};
ghost use Rattle.smp_kernel.specs.Counting.{meter_after, CountsUpTo};
ghost use Rattle.smp_kernel.specs.Kernel.{StandsForSome};
ghost use Rattle.run_numbers.specs.AfterStep.{known_before, left_by};
ghost use Rattle.run_numbers.specs.Counters.{took, HasRoom};
ghost use Rattle.run_numbers.specs.Looks.{IsRow};
ghost use Rattle.run_numbers.specs.Past.{past, places_after, ticks_after};
ghost use Rattle.run_numbers.specs.Progress.{counter_in, first, measured_at, measured_in, reading_in, work_in};
ghost use Rattle.run_numbers.specs.Readings.{calls_of, measured, only, run_number, IsSubjectOf};
ghost use Rattle.run_numbers.specs.Responses.{all_responses_of};
ghost use Rattle.run_numbers.specs.Counted.{AreCounted, AreCrowded, AreTold, AreWorked, HaveRoom, IsUntouched, IsWorkOf};
ghost use Rattle.run_numbers.specs.Taking.{AreLooked, AreTaken, AreTakers, AreTimesKept, AreTurned, IsPlanOf};
ghost use Rattle.run_numbers.specs.Turns.{turn_by};
ghost use Rattle.task_jobs.specs.Works.{HasRoom as HasRoomForWork};

use crate::counter::{Counter, Made};
use crate::event::before_step;
use crate::forget::forget_concerned;
use crate::look::Look;
use crate::rows::spans_of;
use crate::state::holds;
use crate::taking::{Plan, take_all};
use crate::work::{first_crowds, first_works, job_number};
use crate::{Measured, Reading, Subject, Whole};
use bench_types::{CheckedSession, Step};
use settled_runs::WaitingCall;
use smp_kernel::{Kernel, Meter};
use std::alloc::{AllocError, Global};
use step_times::time_of;
use task_jobs::{Crowd, Histogram, Work};

// Before any step.
fn initial_counter(kernel: &Kernel, subject: Subject) -> Counter
    requires known { IsSubjectOf kernel.now.settings subject }
    requires sound { StandsForSome kernel.now }
    ensures { result ≡ first kernel.now subject }
{
    match subject {
        Subject::Time(condition) => Counter::new(0, holds(kernel, condition)),
        Subject::TopPriority { task } => Counter::new(kernel.in_use(task), false),
        Subject::MostMessages { queue } => Counter::new(kernel.queue(queue).messages, false),
        _ => Counter::new(0, false),
    }
}

fn all_initial(
    alloc: Global,
    kernel: &Kernel,
    subjects: &[Subject],
) -> Result<Vec<Counter>, AllocError>
    requires known { All (IsSubjectOf kernel.now.settings) subjects.now }
    requires sound { StandsForSome kernel.now }
    ensures { IfOk result (λ counters. counters.items ≡ map (first kernel.now) subjects.now) }
{
    let mut counters = Vec::with_capacity(alloc, subjects.len())?;
    for subject in subjects {
        counters.push(initial_counter(kernel, *subject))?;
    }
    Ok(counters)
}

// The current tasks, core 0 first.
fn first_row(alloc: Global, kernel: &Kernel) -> Result<Vec<u32>, AllocError>
    ensures { IfOk result (λ row. IsRow row.items kernel.now) }
{
    let cores = kernel.settings().cores;
    let mut row = Vec::with_capacity(alloc, cores as usize)?;
    for core in 0..cores {
        row.push_reserved(kernel.running(core));
    }
    Ok(row)
}

// The time of a run so far.
#[derive(Drop)]
struct Clock {
    /// The units of time so far.
    elapsed: u64,
    /// The places of the steps that took some of it.
    places: Vec<u32>,
    /// The time after each tick.
    ticks: Vec<u64>,
}

// The step at the place takes this time.
fn note_time(clock: &mut Clock, time: u32, place: u32)
    requires room { vec_len clock.old.places < vec_capacity clock.old.places }
    requires little { clock.old.elapsed + time < 2 ^ 64 }
    ensures elapsed { clock.new.elapsed ≡ clock.old.elapsed + time }
    ensures places { clock.new.places.items ≡ places_after time place clock.old.places.items }
    ensures room { vec_capacity clock.new.places ≡ vec_capacity clock.old.places }
    ensures ticks { clock.new.ticks.items ≡ clock.old.ticks.items }
    ensures ticks_room { vec_capacity clock.new.ticks ≡ vec_capacity clock.old.ticks }
{
    clock.elapsed += u64::from(time);
    if time != 0 {
        clock.places.push_reserved(place);
    }
}

// The step is made, and is a tick or none.
fn note_tick(clock: &mut Clock, step: &Step)
    requires { vec_len clock.old.ticks < vec_capacity clock.old.ticks }
    ensures elapsed { clock.new.elapsed ≡ clock.old.elapsed }
    ensures places { clock.new.places.items ≡ clock.old.places.items }
    ensures places_room { vec_capacity clock.new.places ≡ vec_capacity clock.old.places }
    ensures ticks { clock.new.ticks.items
        ≡ ticks_after step.now clock.old.elapsed clock.old.ticks.items }
    ensures room { vec_capacity clock.new.ticks ≡ vec_capacity clock.old.ticks }
{
    if matches!(*step, Step::Tick) {
        clock.ticks.push_reserved(clock.elapsed);
    }
}

// Where a step stands. Times are in units, from the start of the run on.
#[derive(Clone, Copy)]
struct Times<'a> {
    /// The place after the step.
    place: u32,
    /// The time before it.
    began: u64,
    /// The time after it.
    elapsed: u64,
    /// The places of all steps so far that took some time.
    places: &'a [u32],
    /// The times after all ticks so far.
    ticks: &'a [u64],
}

// Makes the step, and counts it.
fn step_all(
    counters: &mut [Counter],
    looks: &mut [Option<Look>],
    works: &mut [Work],
    crowds: &mut [Crowd],
    row: &mut [u32],
    times: &Times<'_>,
    plan: &Plan<'_>,
    kernel: &mut Kernel,
    meter: &mut Meter,
    step: &Step,
)
    requires checked { step_check kernel.old.settings step.now ≡ Ok tt }
    requires plan { IsPlanOf kernel.old.settings plan.now }
    requires sound { StandsForSome kernel.old }
    requires size { length counters.old ≡ length plan.now.subjects.now }
    requires looks { length looks.old ≡ plan.now.tasks }
    requires row { IsRow row.old kernel.old }
    requires works { length works.old ≡ plan.now.tasks }
    requires few { plan.now.tasks < 2 ^ 32 }
    requires room { HaveRoom (past times.now.elapsed times.now.places.now) plan.now.subjects.now
        counters.old }
    requires work_room { (task : ℕ) → task < plan.now.tasks
        → HasRoomForWork (work_in works.old task) }
    requires takers { AreTakers works.old crowds.old }
    ensures state { (table : Table) → StandsFor kernel.old table
        → StandsFor kernel.new (step_of step.now table).1 }
    ensures shape { kernel.new.settings ≡ kernel.old.settings }
    ensures meter { meter.new ≡ min (meter.old + 1) (2 ^ 64 - 1) }
    ensures core { ForSome (left_by kernel.old.control step.now)
        (λ left. left.0 < kernel.old.settings.cores) }
    ensures row { IsRow row.new kernel.new }
    ensures looked { AreLooked kernel.new looks.new }
    ensures taken { (table : Table) → StandsFor kernel.old table
        → let before = known_before kernel.old step.now in
        AreTaken
        (took before step.now (step_of step.now table).0 kernel.new
        (past times.now.elapsed times.now.places.now))
        (IsUntouched looks.old row.old before step.now kernel.new) plan.now counters.old
        counters.new }
    ensures worked { (table : Table) → StandsFor kernel.old table
        → AreTurned
        (turn_by step.now (step_of step.now table).0 times.now.place times.now.began
        times.now.elapsed times.now.ticks.now kernel.new)
        (IsUntouched looks.old row.old (known_before kernel.old step.now) step.now kernel.new)
        plan.now.tasks works.old works.new }
    ensures takers { AreTakers works.new crowds.new }
    ensures times { AreTimesKept times.now.elapsed crowds.old crowds.new }
{
    let before = before_step(kernel, step);
    let reply = kernel.step(meter, step);
    forget_concerned(looks, row, before, step, kernel);
    let made = Made {
        before,
        step,
        reply,
        after: kernel,
        elapsed: times.elapsed,
        places: times.places,
        place: times.place,
        began: times.began,
        ticks: times.ticks,
    };
    take_all(counters, looks, works, crowds, plan, &made);
}

// Makes the steps of the session, and counts them. There is room for the place of each.
fn run_all(
    counters: &mut [Counter],
    looks: &mut [Option<Look>],
    works: &mut [Work],
    crowds: &mut [Crowd],
    row: &mut [u32],
    clock: &mut Clock,
    plan: &Plan<'_>,
    kernel: &mut Kernel,
    meter: &mut Meter,
    session: &CheckedSession,
)
    requires plan { IsPlanOf (settings_of session.now.header) plan.now }
    requires few { plan.now.tasks < 2 ^ 32 }
    requires begun { AreCounted session.now 0 kernel.old plan.now counters.old looks.old row.old
        (past clock.old.elapsed clock.old.places.items) }
    requires worked { AreWorked session.now 0 works.old clock.old.ticks.items }
    requires crowded { AreCrowded session.now 0 crowds.old }
    requires room { length session.now.steps ≤ vec_capacity clock.old.places }
    requires ticks { length session.now.steps ≤ vec_capacity clock.old.ticks }
    ensures worked { AreWorked session.now (length session.now.steps) works.new
        clock.new.ticks.items }
    ensures crowded { AreCrowded session.now (length session.now.steps) crowds.new }
    ensures counted { AreTold session.now plan.now.subjects.now
        (past clock.new.elapsed clock.new.places.items) counters.new }
    ensures meter { meter.new ≡ meter_after (length session.now.steps) meter.old }
{
    let units = session.header().config.units;
    let steps = session.steps();
    for place in 0..steps.len() {
        let step = &steps[place];
        let began = clock.elapsed;
        note_time(clock, time_of(units, step), place as u32);
        note_tick(clock, step);
        let places = clock.places.as_slice();
        let ticks = clock.ticks.as_slice();
        let times = Times {
            place: place as u32 + 1,
            began,
            elapsed: clock.elapsed,
            places,
            ticks,
        };
        step_all(
            counters, looks, works, crowds, row, &times, plan, kernel, meter, step,
        );
    }
}

// The counters, the work of the tasks and the waits for mutexes after the last step, and the time
// of the run.
#[derive(Drop)]
struct Counted {
    counters: Vec<Counter>,
    works: Vec<Work>,
    crowds: Vec<Crowd>,
    clock: Clock,
}

// The meter counts each step once.
fn count_all(
    alloc: Global,
    meter: &mut Meter,
    session: &CheckedSession,
    subjects: &[Subject],
) -> Result<Counted, AllocError>
    requires { All (IsSubjectOf (settings_of session.now.header)) subjects.now }
    ensures told { IfOk result
        (λ counted. AreTold session.now subjects.now
        (past counted.clock.elapsed counted.clock.places.items) counted.counters.items) }
    ensures worked { IfOk result
        (λ counted. AreWorked session.now (length session.now.steps) counted.works.items
        counted.clock.ticks.items) }
    ensures crowded { IfOk result
        (λ counted. AreCrowded session.now (length session.now.steps) counted.crowds.items) }
    ensures meter { OnOk result (meter.new ≡ meter_after (length session.now.steps) meter.old) }
    ensures uncounted { OnErr result (meter.new ≡ meter.old) }
{
    let mut kernel = match Kernel::start(alloc, session.header()) {
        Ok(kernel) => kernel,
        Err(_) => return Err(AllocError),
    };
    let tasks = kernel.settings().tasks;
    let spans = spans_of(alloc, tasks, subjects)?;
    let mut counters = all_initial(alloc, &kernel, subjects)?;
    let mut looks = vec![in alloc; None; tasks as usize]?;
    let mut row = first_row(alloc, &kernel)?;
    let mut works = first_works(alloc, &kernel)?;
    let mut crowds = first_crowds(alloc, kernel.settings().mutexes, works.as_slice())?;
    let mut clock = Clock {
        elapsed: 0,
        places: Vec::with_capacity(alloc, session.steps().len())?,
        ticks: Vec::with_capacity(alloc, session.steps().len())?,
    };
    let plan = Plan {
        tasks,
        subjects,
        spans: spans.as_slice(),
    };
    run_all(
        &mut counters,
        &mut looks,
        &mut works,
        &mut crowds,
        &mut row,
        &mut clock,
        &plan,
        &mut kernel,
        meter,
        session,
    );
    Ok(Counted {
        counters,
        works,
        crowds,
        clock,
    })
}

// The calls of the task among those that were not made.
fn calls_of(task: u32, left: &[WaitingCall]) -> u32
    requires { length left.now < 2 ^ 32 }
    ensures { result ≡ calls_of task left.now }
{
    left.iter().filter(|call| call.task == task).count() as u32
}

// A number that has no stretch.
fn only(total: u64) -> Reading
    ensures { result ≡ only total }
{
    Reading {
        total,
        longest: 0,
        from: 0,
    }
}

// The number of a run that takes so much time and has so many steps.
fn run_number(time: u64, steps: usize, left: &[WaitingCall], number: Whole) -> u64
    ensures { result ≡ run_number time steps left.now number }
{
    match number {
        Whole::Time => time,
        Whole::Steps => steps as u64,
        Whole::NotMade => left.len() as u64,
    }
}

fn reading(
    counted: &Counted,
    counter: &Counter,
    steps: usize,
    left: &[WaitingCall],
    subject: Subject,
) -> Reading
    requires room { HasRoom (past counted.now.clock.elapsed counted.now.clock.places.items)
        counter.now }
    requires work { IsWorkOf counted.now.works.items counted.now.crowds.items subject }
    requires left { length left.now < 2 ^ 32 }
    ensures { result
        ≡ reading_in steps (past counted.now.clock.elapsed counted.now.clock.places.items)
        counted.now.works.items counted.now.crowds.items counter.now left.now subject }
{
    let Counted {
        works,
        crowds,
        clock,
        ..
    } = counted;
    match subject {
        Subject::NotMade { task } => only(u64::from(calls_of(task, left))),
        Subject::Job { task, number } => {
            job_number(clock.elapsed, &works[task as usize], number)
        }
        Subject::Migrations { task } => only(u64::from(works[task as usize].moves.count)),
        Subject::RanOut { task } => only(u64::from(works[task as usize].waits.run_out)),
        Subject::Unfinished { task } => only(u64::from(works[task as usize].in_call)),
        Subject::MutexWait { mutex } => only(crowds[mutex as usize].told(clock.elapsed)),
        Subject::Run(number) => only(run_number(clock.elapsed, steps, left, number)),
        _ => counter.told(clock.elapsed, clock.places.as_slice()),
    }
}

fn all_measured(
    alloc: Global,
    counted: &Counted,
    steps: usize,
    left: &[WaitingCall],
    subjects: &[Subject],
) -> Result<Vec<Measured>, AllocError>
    requires size { length counted.now.counters.items ≡ length subjects.now }
    requires room { (k : ℕ) → k < length subjects.now
        → HasRoom (past counted.now.clock.elapsed counted.now.clock.places.items)
        (counter_in counted.now.counters.items k) }
    requires works { All (IsWorkOf counted.now.works.items counted.now.crowds.items) subjects.now }
    requires left { length left.now < 2 ^ 32 }
    ensures { IfOk result
        (λ measured. measured.items
        ≡ map (measured_at steps (past counted.now.clock.elapsed counted.now.clock.places.items)
        counted.now.works.items counted.now.crowds.items counted.now.counters.items left.now
        subjects.now)
        (numbers (length subjects.now))) }
{
    let mut all = Vec::with_capacity(alloc, subjects.len())?;
    for k in 0..subjects.len() {
        let subject = subjects[k];
        let reading = reading(counted, &counted.counters[k], steps, left, subject);
        all.push(Measured { subject, reading })?;
    }
    Ok(all)
}

// How many answers of each task take how long.
fn all_histograms(alloc: Global, works: &[Work]) -> Result<Vec<Histogram>, AllocError>
    ensures { IfOk result
        (λ found. found.items ≡ map (λ work. work.histogram) works.now) }
{
    let mut all = Vec::with_capacity(alloc, works.len())?;
    for work in works {
        all.push(work.histogram)?;
    }
    Ok(all)
}

/// What is measured in a run.
#[derive(Drop)]
pub struct RunNumbers {
    /// The numbers of each subject.
    pub measured: Vec<Measured>,
    /// Of each task, how many of its jobs that ended took how long, from their release on.
    pub responses: Vec<Histogram>,
}

/// The numbers of each subject in the run of the session's steps, of which these calls were not
/// made, and the answers of all tasks. The meter counts each step once.
pub fn measure_all(
    alloc: Global,
    meter: &mut Meter,
    session: &CheckedSession,
    left: &[WaitingCall],
    subjects: &[Subject],
) -> Result<RunNumbers, AllocError>
    requires left { length left.now < 2 ^ 32 }
    requires known { All (IsSubjectOf (settings_of session.now.header)) subjects.now }
    ensures numbers { IfOk result
        (λ found. found.measured.items
        ≡ map (measured session.now.header session.now.steps left.now) subjects.now) }
    ensures responses { IfOk result
        (λ found. found.responses.items
        ≡ all_responses_of session.now.header session.now.steps) }
    ensures meter { OnOk result (meter.new ≡ meter_after (length session.now.steps) meter.old) }
    ensures some { OnErr result
        (CountsUpTo (length session.now.steps) meter.old meter.new) }
{
    let counted = count_all(alloc, meter, session, subjects)?;
    let responses = all_histograms(alloc, counted.works.as_slice())?;
    let measured = all_measured(alloc, &counted, session.steps().len(), left, subjects)?;
    Ok(RunNumbers {
        measured,
        responses,
    })
}

/// The numbers of each subject in the run of the session's steps, of which these calls were not
/// made. The meter counts each step once.
pub fn measure(
    alloc: Global,
    meter: &mut Meter,
    session: &CheckedSession,
    left: &[WaitingCall],
    subjects: &[Subject],
) -> Result<Vec<Measured>, AllocError>
    requires left { length left.now < 2 ^ 32 }
    requires known { All (IsSubjectOf (settings_of session.now.header)) subjects.now }
    ensures numbers { IfOk result
        (λ found. found.items
        ≡ map (measured session.now.header session.now.steps left.now) subjects.now) }
    ensures meter { OnOk result (meter.new ≡ meter_after (length session.now.steps) meter.old) }
    ensures some { OnErr result
        (CountsUpTo (length session.now.steps) meter.old meter.new) }
{
    let numbers = measure_all(alloc, meter, session, left, subjects)?;
    Ok(numbers.measured)
}
