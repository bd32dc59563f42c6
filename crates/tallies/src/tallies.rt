//! How the tasks of a session fare.
ghost use Rattle.std.specs.Prelude.{◌≡◌, ℕ, suc, ◌+◌, ◌-◌, ◌<◌, ◌^◌, All, Ok, length, min, true, string_bytes, IfOk, IfSome};
ghost use Rattle.bench_types.specs.Step.{step_check};
ghost use Rattle.bench_types.specs.declared.step.Step.TheVariants.{Tick};
ghost use Rattle.bench_model.specs.Equal.{StandsFor};
ghost use Rattle.bench_model.specs.Lists.{list_queues};
ghost use Rattle.bench_model.specs.Session.{step_of};
ghost use Rattle.bench_model.specs.Table.{Table};
ghost use Rattle.bench_model.specs.Tallied.{added, first_tallies, run_at, shape, shape_of, tallied, tally_at, AllCountsBelow};
ghost use Rattle.ready_core.specs.Fields.{has_priority};
ghost use Rattle.smp_kernel.specs.Kernel.{StandsForSome};
ghost use Rattle.tallies.specs.Counting.{found, inverted, inverted_in, ran, topped, waited, with_event, HasEventRoom, HasWaitRoom};
ghost use Rattle.tallies.specs.Lines.{tally_lines};
ghost use Rattle.tallies.specs.Tops.{HasTops, HasOtherTops};

use crate::counts::CountTable;
use crate::event::{Event, event_of, left_by};
use crate::found::{is_inverted, lowest_current};
use crate::lines::push_tallies;
use bench_types::{Header, Reply, Step, Tally};
use smp_kernel::{Kernel, Meter};
use std::alloc::{AllocError, Global};
use std::marker::Model;

/// The numbers of each task, idle tasks too, in number order: for each core the ticks that found
/// the task on it, and its [`Tally`].
#[derive(Debug, Drop)]
pub struct Tallies {
    tasks: CountTable,
}

impl Model for Tallies {
    ghost use Rattle.std.specs.Prelude.{List};
    ghost use Rattle.bench_model.specs.Tally.{TaskTally};

    ghost Value = { List TaskTally };

    ghost view = { λ tallies. tallies.tasks };
}

impl Tallies {
    /// Before any step of the kernel: zeros, and each task's priority in use.
    pub fn begin(alloc: Global, kernel: &Kernel) -> Result<Tallies, AllocError>
        ensures tallies { IfOk result
            (λ tallies. tallies ≡ first_tallies kernel.now.settings kernel.now.control) }
        ensures shape { IfOk result (λ tallies. shape tallies ≡ shape_of kernel.now.settings) }
        ensures room { IfOk result (AllCountsBelow 1) }
        ensures tops { IfOk result (HasTops kernel.now.control) }
    {
        Ok(Tallies {
            tasks: CountTable::begin(alloc, kernel)?,
        })
    }

    /// These become those before any step of the kernel, which has as many tasks and as many cores.
    /// No memory is taken.
    pub fn reset(&mut self, kernel: &Kernel)
        requires { shape self.old ≡ shape_of kernel.now.settings }
        ensures tallies { self.new ≡ first_tallies kernel.now.settings kernel.now.control }
        ensures shape { shape self.new ≡ shape_of kernel.now.settings }
        ensures room { AllCountsBelow 1 self.new }
        ensures tops { HasTops kernel.now.control self.new }
    {
        self.tasks.reset(kernel);
    }

    /// Counts a step, which the kernel `before` answered with this reply, and after which it is
    /// `after`. The two have as many cores and as many tasks.
    pub fn step(&mut self, before: &Kernel, step: &Step, reply: Reply, after: &Kernel)
        requires shape { shape self.old ≡ shape_of before.now.settings }
        requires cores { after.now.settings.cores ≡ before.now.settings.cores }
        requires tasks { after.now.settings.tasks ≡ before.now.settings.tasks }
        requires room { AllCountsBelow (2 ^ 32 - 1) self.old }
        ensures counted { self.new ≡ tallied list_queues (record {
          before = before.now;
          step = step.now;
          reply = reply;
          after = after.now;
        }) self.old }
        ensures kept { shape self.new ≡ shape self.old }
        ensures grown { (bound : ℕ) → AllCountsBelow bound self.old
            → AllCountsBelow (suc bound) self.new }
    {
        let left = left_by(before, step);
        self.find(before, step);
        self.leave(event_of(left, step, reply, after), after);
    }

    /// Makes a step of the kernel and counts it as [`Tallies::step`] does. Each task's greatest
    /// priority in use so far has to be no less than the one that it has in use, as it is after
    /// [`Tallies::begin`] and after this function. So only the task that the step may raise is
    /// looked at.
    pub fn make_next(&mut self, kernel: &mut Kernel, meter: &mut Meter, step: &Step) -> Reply
        requires checked { step_check kernel.old.settings step.now ≡ Ok tt }
        requires shape { shape self.old ≡ shape_of kernel.old.settings }
        requires room { AllCountsBelow (2 ^ 32 - 1) self.old }
        requires tops { HasTops kernel.old.control self.old }
        ensures reply { (table : Table) → StandsFor kernel.old table
            → result ≡ (step_of step.now table).0 }
        ensures state { (table : Table) → StandsFor kernel.old table
            → StandsFor kernel.new (step_of step.now table).1 }
        ensures meter { meter.new ≡ min (meter.old + 1) (2 ^ 64 - 1) }
        ensures shape { kernel.new.settings ≡ kernel.old.settings }
        ensures counted { self.new ≡ tallied list_queues (record {
          before = kernel.old;
          step = step.now;
          reply = result;
          after = kernel.new;
        }) self.old }
        ensures kept { shape self.new ≡ shape self.old }
        ensures grown { (bound : ℕ) → AllCountsBelow bound self.old
            → AllCountsBelow (suc bound) self.new }
        ensures tops { HasTops kernel.new.control self.new }
    {
        let left = left_by(kernel, step);
        let raised = kernel.raised_by(step);
        self.find(kernel, step);
        let reply = kernel.step(meter, step);
        self.leave_next(event_of(left, step, reply, kernel), raised, kernel);
        reply
    }

    /// Adds the numbers of another part of the session; each task's priority in use is the greater
    /// one.
    pub fn add(&mut self, other: &Tallies)
        requires shapes { shape self.old ≡ shape other.now }
        requires sums { AllCountsBelow (2 ^ 32) (added self.old other.now) }
        ensures added { self.new ≡ added self.old other.now }
        ensures kept { shape self.new ≡ shape self.old }
    {
        self.tasks.add(&other.tasks);
    }

    /// A second value of the same numbers.
    pub fn copy(&self, alloc: Global) -> Result<Tallies, AllocError>
        ensures { IfOk result (λ copy. copy ≡ self.now) }
    {
        Ok(Tallies {
            tasks: self.tasks.copy(alloc)?,
        })
    }

    /// How many tasks there are.
    pub fn len(&self) -> usize
        ensures { result ≡ length self.now }
    {
        self.tasks.len() as usize
    }

    /// For how many cores the task has a number of ticks.
    pub fn cores(&self, task: u32) -> usize
        requires { task < length self.now }
        ensures { result ≡ length (tally_at self.now task).run }
    {
        self.tasks.run(task).len()
    }

    /// The counts of the task beside the ticks that it ran.
    pub fn get(&self, task: u32) -> Tally
        requires { task < length self.now }
        ensures { result ≡ (tally_at self.now task).counts }
    {
        self.tasks.counts(task)
    }

    /// How many ticks found the task on the core.
    pub fn run_on(&self, task: u32, core: u32) -> u32
        requires task { task < length self.now }
        requires core { core < length (tally_at self.now task).run }
        ensures { result ≡ run_at (tally_at self.now task) core }
    {
        self.tasks.run_on(task, core)
    }

    /// The line of each task, by the names of the header.
    pub fn text(&self, alloc: Global, header: &Header) -> Result<String, AllocError>
        ensures { IfOk result (λ text. string_bytes text ≡ tally_lines header.now 0 self.now) }
    {
        let mut text = String::new(alloc);
        push_tallies(&mut text, header, &self.tasks)?;
        Ok(text)
    }

    // Adds what the step finds, which is nothing unless it is a tick.
    fn find(&mut self, kernel: &Kernel, step: &Step)
        requires shape { shape self.old ≡ shape_of kernel.now.settings }
        requires room { AllCountsBelow (2 ^ 32 - 1) self.old }
        ensures { self.new ≡ found kernel.now step.now self.old }
    {
        if let Step::Tick = step {
            self.find_tick(kernel);
        }
    }

    fn find_tick(&mut self, kernel: &Kernel)
        requires shape { shape self.old ≡ shape_of kernel.now.settings }
        requires room { AllCountsBelow (2 ^ 32 - 1) self.old }
        ensures { self.new ≡ found kernel.now Tick self.old }
    {
        add_tick(&mut self.tasks, kernel);
    }

    // Adds the event of a step, and the priorities in use after it.
    fn leave(&mut self, event: Option<Event>, after: &Kernel)
        requires tasks { length self.old ≡ after.now.settings.tasks }
        requires room { All HasEventRoom self.old }
        ensures left { self.new ≡ topped after.now.control (with_event event self.old) }
        ensures sound { StandsForSome after.now }
    {
        add_event(&mut self.tasks, event);
        raise_tops(&mut self.tasks, after);
    }

    // The same where only this task's priority in use may be greater than the greatest so far.
    fn leave_next(&mut self, event: Option<Event>, raised: Option<u32>, after: &Kernel)
        requires tasks { length self.old ≡ after.now.settings.tasks }
        requires room { All HasEventRoom self.old }
        requires raised { IfSome raised (λ task. task < after.now.settings.tasks) }
        requires tops { HasOtherTops raised after.now.control self.old }
        ensures { self.new ≡ topped after.now.control (with_event event self.old) }
    {
        add_event(&mut self.tasks, event);
        raise_top_of(&mut self.tasks, raised, after);
    }
}

// Adds a tick.
fn add_tick(tasks: &mut CountTable, kernel: &Kernel)
    requires shape { shape tasks.old ≡ shape_of kernel.now.settings }
    requires room { AllCountsBelow (2 ^ 32 - 1) tasks.old }
    ensures { tasks.new ≡ found kernel.now Tick tasks.old }
{
    add_runs(tasks, kernel);
    add_waits(tasks, kernel);
    add_inversions(tasks, kernel);
}

// Each core's task ran for one tick more.
#[tactic(auto, unfolding(crate::specs::Counting::ran))]
fn add_runs(tasks: &mut CountTable, kernel: &Kernel)
    requires shape { shape tasks.old ≡ shape_of kernel.now.settings }
    requires room { AllCountsBelow (2 ^ 32 - 1) tasks.old }
    ensures { tasks.new ≡ ran kernel.now.control tasks.old }
{
    for core in 0..kernel.settings().cores {
        tasks.add_run(kernel.running(core), core);
    }
}

// Each ready task that is on no core waited for one tick more.
#[tactic(auto, unfolding(crate::specs::Counting::waited))]
fn add_waits(tasks: &mut CountTable, kernel: &Kernel)
    requires tasks { length tasks.old ≡ kernel.now.settings.tasks }
    requires room { All HasWaitRoom tasks.old }
    ensures { tasks.new ≡ waited kernel.now tasks.old }
{
    let wanting = kernel.wants_core();
    for task in 0..tasks.len() {
        tasks.add_wait(task, wanting[task as usize]);
    }
}

// Each task whose wait is inverted was so for one tick more. A task whose priority in use is below
// the lowest effective priority of a current task stands above none.
fn add_inversions(tasks: &mut CountTable, kernel: &Kernel)
    requires tasks { length tasks.old ≡ kernel.now.settings.tasks }
    requires room { (task : ℕ) → task < length tasks.old
        → (tally_at tasks.old task).counts.inverted < 2 ^ 32 - 1 }
    ensures { tasks.new ≡ inverted kernel.now tasks.old }
{
    let priorities = kernel.settings().priorities;
    let lowest = lowest_current(kernel).min(u64::from(priorities)) as u32;
    for priority in lowest..priorities {
        add_inversions_in(tasks, kernel, priority);
    }
}

// The same for the tasks of one priority.
fn add_inversions_in(tasks: &mut CountTable, kernel: &Kernel, priority: u32)
    requires tasks { length tasks.old ≡ kernel.now.settings.tasks }
    requires priority { priority < kernel.now.settings.priorities }
    requires room { (task : ℕ) → task < length tasks.old
        → has_priority kernel.now.control priority task ≡ true
        → (tally_at tasks.old task).counts.inverted < 2 ^ 32 - 1 }
    ensures { tasks.new ≡ inverted_in kernel.now priority tasks.old }
{
    let mut next = kernel.first_ready(priority);
    for _place in 0..kernel.settings().tasks {
        match next {
            Some(task) => {
                tasks.add_inversion(task, is_inverted(kernel, task));
                next = kernel.next_ready(task);
            }
            None => return,
        }
    }
}

// Adds an event to the tally of its task, if there is one.
fn add_event(tasks: &mut CountTable, event: Option<Event>)
    requires { All HasEventRoom tasks.old }
    ensures { tasks.new ≡ with_event event tasks.old }
{
    if let Some(event) = event {
        if event.task() < tasks.len() {
            tasks.add_event(event);
        }
    }
}

// Each task's priority in use, where it is the greatest so far.
#[tactic(auto, unfolding(crate::specs::Counting::topped))]
fn raise_tops(tasks: &mut CountTable, kernel: &Kernel)
    requires { length tasks.old ≡ kernel.now.settings.tasks }
    ensures topped { tasks.new ≡ topped kernel.now.control tasks.old }
    ensures sound { StandsForSome kernel.now }
{
    for task in 0..kernel.settings().tasks {
        tasks.raise_top(kernel, task);
    }
}

// The priority in use of the task, if there is one, where it is the greatest so far.
fn raise_top_of(tasks: &mut CountTable, raised: Option<u32>, kernel: &Kernel)
    requires tasks { length tasks.old ≡ kernel.now.settings.tasks }
    requires raised { IfSome raised (λ task. task < kernel.now.settings.tasks) }
    requires tops { HasOtherTops raised kernel.now.control tasks.old }
    ensures { tasks.new ≡ topped kernel.now.control tasks.old }
{
    if let Some(task) = raised {
        tasks.raise_top(kernel, task);
    }
}
