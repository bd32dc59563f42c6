//! What the run of a workload keeps beside the kernel.
ghost use Rattle.std.specs.Prelude.{[], ◌≡◌, ◌<◌, ◌≤◌, ◌+◌, ◌-◌, ◌^◌, ◌==◌, IfOk, IfSome, OnOk, length, map, option_and_then, slice_get, slice_index_or, if◌then◌else◌};
ghost use Rattle.bench_model.specs.Equal.{StandsFor};
ghost use Rattle.bench_model.specs.Table.{Table};
ghost use Rattle.task_programs.specs.Workloads.{is_interrupt};
ghost use Rattle.workload_runs.specs.Courses.{first_course};
ghost use Rattle.workload_runs.specs.Ends.{is_at_end};
ghost use Rattle.workload_runs.specs.Situations.{before_end, has_come, is_working, next_arrival, span_of, ticks_after};
ghost use Rattle.simulating.specs.Progress.{arrived, courses_worked, due_at, ends_at, IsAnswered, IsAtStart, IsGone, MayGoBy};

use bench_types::{Call, Reply, Step};
use smp_kernel::Kernel;
use std::alloc::{AllocError, Global};
use step_times::time_of;
use task_courses::Course;
use task_programs::{CheckedWorkload, Interrupt, Program};

/// How far tasks, time and interrupts have come. Times are in units.
#[derive(Debug, Drop)]
pub(crate) struct Progress {
    /// How far each user task has come.
    pub(crate) courses: Vec<Course>,
    /// The time since the start.
    pub(crate) time: u64,
    /// The ticks since the start.
    pub(crate) ticks: u32,
    /// Of each interrupt when it comes next; none where it comes no more.
    pub(crate) arrivals: Vec<Option<u64>>,
}

// The units of time that the run takes.
fn span_of(workload: &CheckedWorkload) -> u64
    ensures { result ≡ span_of workload.now }
{
    u64::from(workload.ticks()) * u64::from(workload.header().config.units)
}

// An interrupt that would come at or behind the end doesn't come.
fn before_end(end: u64, time: u64) -> Option<u64>
    ensures { result ≡ before_end end time }
{
    if time < end { Some(time) } else { None }
}

fn first_courses(alloc: Global, tick: u32, programs: &[Program]) -> Result<Vec<Course>, AllocError>
    ensures { IfOk result (λ courses. courses.items ≡ map (first_course tick) programs.now) }
{
    let mut courses = Vec::with_capacity(alloc, programs.len())?;
    for program in programs {
        courses.push(Course::start(alloc, tick, program.as_slice())?)?;
    }
    Ok(courses)
}

fn first_arrivals(
    alloc: Global,
    end: u64,
    interrupts: &[Interrupt],
) -> Result<Vec<Option<u64>>, AllocError>
    ensures { IfOk result
        (λ arrivals. arrivals.items
        ≡ map (λ interrupt. before_end end interrupt.at) interrupts.now) }
{
    let mut arrivals = Vec::with_capacity(alloc, interrupts.len())?;
    for interrupt in interrupts {
        arrivals.push(before_end(end, interrupt.at))?;
    }
    Ok(arrivals)
}

// Whether the user task is at the end of its program.
fn end_of(programs: &[Program], course: &Course, user: usize) -> bool
    ensures { result ≡ is_at_end (slice_index_or programs.now user []) course.now }
{
    match programs.get(user) {
        Some(program) => course.is_at_end(program.as_slice()),
        None => true,
    }
}

/// Of each user task whether it is at the end of its program.
pub(crate) fn ends_at(
    alloc: Global,
    programs: &[Program],
    courses: &[Course],
) -> Result<Vec<bool>, AllocError>
    ensures { IfOk result (λ ends. ends.items ≡ ends_at programs.now courses.now) }
{
    let mut ends = Vec::with_capacity(alloc, courses.len())?;
    for user in 0..courses.len() {
        ends.push(end_of(programs, &courses[user], user))?;
    }
    Ok(ends)
}

/// Whether the task is on a core and has no unfinished call.
pub(crate) fn is_working(kernel: &Kernel, task: u32) -> bool
    requires { task < kernel.now.settings.tasks }
    ensures { (table : Table) → StandsFor kernel.now table → result ≡ is_working table task }
{
    kernel.is_current(task) && kernel.unfinished(task).is_none()
}

// So many units of time go by for the user tasks that work.
fn work(
    kernel: &Kernel,
    programs: &[Program],
    courses: &mut [Course],
    units: u32,
) -> Result<(), AllocError>
    requires tasks { kernel.now.settings.cores + length courses.old ≡ kernel.now.settings.tasks }
    requires programs { length programs.now ≡ length courses.old }
    ensures done { OnOk result ((table : Table) → StandsFor kernel.now table
        → courses.new ≡ courses_worked table programs.now units courses.old) }
    ensures many { length courses.new ≡ length courses.old }
{
    let settings = kernel.settings();
    for user in 0..settings.tasks - settings.cores {
        if is_working(kernel, settings.cores + user) {
            let program = programs[user as usize].as_slice();
            courses[user as usize].work(program, units)?;
        }
    }
    Ok(())
}

// The interrupt is to come by now.
fn has_come(arrival: Option<u64>, time: u64) -> bool
    ensures { result ≡ has_come time arrival }
{
    match arrival {
        Some(at) => at <= time,
        None => false,
    }
}

/// The index of the first interrupt that is to come by now.
pub(crate) fn due_interrupt(arrivals: &[Option<u64>], time: u64) -> Option<usize>
    ensures due { result ≡ due_at time arrivals.now }
    ensures below { IfSome result (λ index. index < length arrivals.now) }
{
    for index in 0..arrivals.len() {
        if has_come(arrivals[index], time) {
            return Some(index);
        }
    }
    None
}

// When the interrupt comes next that comes now.
fn next_arrival(end: u64, time: u64, interrupt: &Interrupt) -> Option<u64>
    ensures { result ≡ next_arrival end time interrupt.now }
{
    match time.checked_add(interrupt.every?) {
        Some(next) => before_end(end, next),
        None => None,
    }
}

// Whether the step is an interrupt.
fn is_interrupt(step: &Step) -> bool
    ensures { result ≡ is_interrupt step.now }
{
    matches!(
        step,
        Step::Interrupt { .. } | Step::QueueInterrupt { .. } | Step::ResumeInterrupt { .. }
    )
}

// When the interrupt at the index comes next that comes now.
fn again(interrupts: &[Interrupt], index: usize, end: u64, time: u64) -> Option<u64>
    ensures { result ≡ option_and_then (next_arrival end time) (slice_get interrupts.now index) }
{
    match interrupts.get(index) {
        Some(interrupt) => next_arrival(end, time, interrupt),
        None => None,
    }
}

// The interrupt that is to come by now comes.
fn arrive(arrivals: &mut [Option<u64>], interrupts: &[Interrupt], end: u64, time: u64)
    ensures many { length arrivals.new ≡ length arrivals.old }
    ensures done { arrivals.new ≡ arrived end time interrupts.now arrivals.old }
{
    match due_interrupt(arrivals, time) {
        Some(index) => arrivals[index] = again(interrupts, index, end, time),
        None => {}
    }
}

// So many units of time go by, or none.
fn pass(
    kernel: &Kernel,
    programs: &[Program],
    courses: &mut [Course],
    units: u32,
) -> Result<(), AllocError>
    requires tasks { kernel.now.settings.cores + length courses.old ≡ kernel.now.settings.tasks }
    requires programs { length programs.now ≡ length courses.old }
    ensures many { length courses.new ≡ length courses.old }
    ensures done { OnOk result ((table : Table) → StandsFor kernel.now table → courses.new
        ≡ (if units == 0 then courses.old
        else courses_worked table programs.now units courses.old)) }
{
    if units == 0 {
        return Ok(());
    }
    work(kernel, programs, courses, units)
}

// The step comes where it is an interrupt.
fn come(arrivals: &mut [Option<u64>], interrupts: &[Interrupt], end: u64, time: u64, step: &Step)
    ensures many { length arrivals.new ≡ length arrivals.old }
    ensures done { arrivals.new
        ≡ (if is_interrupt step.now then arrived end time interrupts.now arrivals.old
        else arrivals.old) }
{
    if is_interrupt(step) {
        arrive(arrivals, interrupts, end, time);
    }
}

// The ticks since the start, behind the step.
fn ticks_after(step: &Step, ticks: u32) -> u32
    requires { ticks < 2 ^ 31 }
    ensures { result ≡ ticks_after step.now ticks }
{
    match *step {
        Step::Tick => ticks + 1,
        _ => ticks,
    }
}

impl Progress {
    /// Before the first step.
    #[tactic(auto, unfolding(workload_runs::specs::Situations::first_situation))]
    pub(crate) fn start(alloc: Global, workload: &CheckedWorkload) -> Result<Self, AllocError>
        ensures { IfOk result (λ progress. IsAtStart workload.now progress) }
    {
        let tick = workload.header().config.tick;
        Ok(Progress {
            courses: first_courses(alloc, tick, workload.programs())?,
            time: 0,
            ticks: 0,
            arrivals: first_arrivals(alloc, span_of(workload), workload.interrupts())?,
        })
    }

    /// A call of the user task, or its `finish`, was answered.
    pub(crate) fn answer(
        &mut self,
        workload: &CheckedWorkload,
        user: usize,
        call: Call,
        reply: Reply,
    ) -> Result<(), AllocError>
        requires user { user < length self.old.courses.items }
        requires programs { length workload.now.programs ≡ length self.old.courses.items }
        ensures { OnOk result (IsAnswered workload.now user call reply self.old self.new) }
    {
        let program = workload.programs()[user].as_slice();
        self.courses[user].answer(program, call, reply)
    }

    /// A step that is no call: time goes by, a tick ends, or an interrupt comes. The kernel has not
    /// made it yet.
    pub(crate) fn go_by(
        &mut self,
        workload: &CheckedWorkload,
        kernel: &Kernel,
        step: &Step,
    ) -> Result<(), AllocError>
        requires { MayGoBy workload.now kernel.now self.old }
        ensures { OnOk result (IsGone workload.now kernel.now step.now self.old self.new) }
    {
        let units = time_of(workload.header().config.units, step);
        pass(kernel, workload.programs(), &mut self.courses, units)?;
        let end = span_of(workload);
        come(
            &mut self.arrivals,
            workload.interrupts(),
            end,
            self.time,
            step,
        );
        self.time += u64::from(units);
        self.ticks = ticks_after(step, self.ticks);
        Ok(())
    }
}
