//! The numbers of all tasks.
ghost use Rattle.std.specs.Prelude.{◌≡◌, ◌<◌, ◌≤◌, ◌+◌, ◌-◌, ◌*◌, ◌^◌, [], Some, drop, length, map, slice_set, take, All, IfOk};
ghost use Rattle.list_orders.specs.Search.{numbers};
ghost use Rattle.bench_model.specs.Control.{task_at};
ghost use Rattle.bench_model.specs.Tallied.{added, first_tallies, no_counts, run_at, shape, shape_of, tally_at, AllCountsBelow};
ghost use Rattle.tallies.specs.Counting.{event_tally, task_of, top_tally, with_inversion, with_wait, HasEventRoom};
ghost use Rattle.tallies.specs.Sums.{added_counts, all_added_counts, sums_of, CountsFit};
ghost use Rattle.tallies.specs.Tables.{counts_of};

use crate::event::Event;
use bench_types::Tally;
use smp_kernel::Kernel;
use std::alloc::{AllocError, Global};
use std::marker::Model;

/// The numbers of each task, in number order.
#[derive(Debug, Drop)]
pub(crate) struct CountTable {
    /// For how many cores each task has a number of ticks.
    cores: u32,
    /// The ticks of all tasks: those that a task ran on each core, core 0 first, stand after those
    /// of the task before it.
    runs: Vec<u32>,
    /// For each task the other numbers.
    counts: Vec<Tally>,
}

impl Model for CountTable {
    ghost use Rattle.std.specs.Prelude.{List};
    ghost use Rattle.bench_model.specs.Tally.{TaskTally};
    ghost use Rattle.tallies.specs.Tables.{tallies_in, IsTable};

    ghost Value = { List TaskTally };

    ghost view = { λ table. tallies_in table.cores table.runs.items table.counts.items };

    ghost invariant = { λ table. IsTable table.cores table.runs.items table.counts.items };
}

impl CountTable {
    /// Before any step of the kernel: zeros, and each task's priority in use.
    pub(crate) fn begin(alloc: Global, kernel: &Kernel) -> Result<Self, AllocError>
        ensures { IfOk result
            (λ table. table ≡ first_tallies kernel.now.settings kernel.now.control) }
    {
        let settings = kernel.settings();
        let ticks = place_of(settings.cores, settings.tasks, 0);
        let runs = vec![in alloc; 0; ticks]?;
        let counts = first_counts(alloc, kernel)?;
        Ok(CountTable {
            cores: settings.cores,
            runs,
            counts,
        })
    }

    /// The numbers become those before any step of the kernel. No memory is taken.
    pub(crate) fn reset(&mut self, kernel: &Kernel)
        requires { shape self.old ≡ shape_of kernel.now.settings }
        ensures { self.new ≡ first_tallies kernel.now.settings kernel.now.control }
    {
        self.runs.fill(0);
        begin_counts(&mut self.counts, kernel);
    }

    /// A second value of the same numbers.
    pub(crate) fn copy(&self, alloc: Global) -> Result<Self, AllocError>
        ensures { IfOk result (λ copy. copy ≡ self.now) }
    {
        Ok(CountTable {
            cores: self.cores,
            runs: self.runs.to_vec(alloc)?,
            counts: self.counts.to_vec(alloc)?,
        })
    }

    /// How many tasks there are.
    pub(crate) fn len(&self) -> u32
        ensures { result ≡ length self.now }
    {
        self.counts.len() as u32
    }

    /// The counts of the task beside the ticks that it ran.
    pub(crate) fn counts(&self, task: u32) -> Tally
        requires { task < length self.now }
        ensures { result ≡ (tally_at self.now task).counts }
    {
        self.counts[task as usize]
    }

    /// The ticks that the task ran on each core.
    pub(crate) fn run(&self, task: u32) -> &[u32]
        requires { task < length self.now }
        ensures { result.now ≡ (tally_at self.now task).run }
    {
        part(&self.runs, place_of(self.cores, task, 0), self.cores)
    }

    /// How many ticks found the task on the core.
    pub(crate) fn run_on(&self, task: u32, core: u32) -> u32
        requires task { task < length self.now }
        requires core { core < length (tally_at self.now task).run }
        ensures { result ≡ run_at (tally_at self.now task) core }
    {
        self.runs[place_of(self.cores, task, core)]
    }

    /// Adds a tick that found the task on the core.
    pub(crate) fn add_run(&mut self, task: u32, core: u32)
        requires task { task < length self.old }
        requires core { core < length (tally_at self.old task).run }
        requires room { run_at (tally_at self.old task) core < 2 ^ 32 - 1 }
        ensures { self.new ≡ slice_set self.old task (record (tally_at self.old task) {
          run = slice_set (tally_at self.old task).run core
              (run_at (tally_at self.old task) core + 1);
        }) }
    {
        let place = place_of(self.cores, task, core);
        self.runs[place] += 1;
    }

    /// Adds a tick in which the task waited, where it did.
    pub(crate) fn add_wait(&mut self, task: u32, waits: bool)
        requires task { task < length self.old }
        requires room { (tally_at self.old task).counts.wait < 2 ^ 32 - 1 }
        ensures { self.new ≡ slice_set self.old task (with_wait waits (tally_at self.old task)) }
    {
        self.counts[task as usize].wait += u32::from(waits);
    }

    /// Adds a tick of an inverted wait, where it was one.
    pub(crate) fn add_inversion(&mut self, task: u32, inverted: bool)
        requires task { task < length self.old }
        requires room { (tally_at self.old task).counts.inverted < 2 ^ 32 - 1 }
        ensures { self.new
            ≡ slice_set self.old task (with_inversion inverted (tally_at self.old task)) }
    {
        self.counts[task as usize].inverted += u32::from(inverted);
    }

    /// Adds an event to the counts of its task.
    pub(crate) fn add_event(&mut self, event: Event)
        requires task { task_of event < length self.old }
        requires room { HasEventRoom (tally_at self.old (task_of event)) }
        ensures { self.new ≡ slice_set self.old (task_of event)
            (event_tally (Some event) (task_of event) (tally_at self.old (task_of event))) }
    {
        count_event(&mut self.counts[event.task() as usize], event);
    }

    /// The priority that the task has in use, where it is the greatest so far.
    pub(crate) fn raise_top(&mut self, kernel: &Kernel, task: u32)
        requires task { task < length self.old }
        requires kernel { task < kernel.now.settings.tasks }
        ensures { self.new
            ≡ slice_set self.old task (top_tally kernel.now.control task (tally_at self.old task)) }
    {
        let counts = &mut self.counts[task as usize];
        counts.top = counts.top.max(kernel.in_use(task));
    }

    /// Adds the numbers of another part of the session; each task's priority in use is the greater
    /// one.
    pub(crate) fn add(&mut self, other: &CountTable)
        requires shapes { shape self.old ≡ shape other.now }
        requires sums { AllCountsBelow (2 ^ 32) (added self.old other.now) }
        ensures { self.new ≡ added self.old other.now }
    {
        add_ticks(&mut self.runs, &other.runs);
        add_counts(&mut self.counts, &other.counts);
    }
}

// Where the ticks of the task on the core stand among those of all tasks.
fn place_of(cores: u32, task: u32, core: u32) -> usize
    ensures { result ≡ task * cores + core }
{
    task as usize * cores as usize + core as usize
}

// The ticks from a place on, one number for each core.
fn part(runs: &[u32], from: usize, cores: u32) -> &[u32]
    requires { from + cores ≤ length runs.now }
    ensures { result.now ≡ take cores (drop from runs.now) }
{
    &runs[from..from + cores as usize]
}

// Zeros, and this priority in use.
fn no_counts(top: u32) -> Tally
    ensures { result ≡ no_counts top }
{
    Tally {
        wait: 0,
        inverted: 0,
        switched: 0,
        displaced: 0,
        timeouts: 0,
        top,
    }
}

// The counts of each task before any step of the kernel.
fn first_counts(alloc: Global, kernel: &Kernel) -> Result<Vec<Tally>, AllocError>
    ensures { IfOk result (λ counts. counts.items
        ≡ map (λ task. no_counts (task_at kernel.now.control task).in_use)
        (numbers kernel.now.settings.tasks)) }
{
    let tasks = kernel.settings().tasks;
    let mut counts = Vec::with_capacity(alloc, tasks as usize)?;
    for task in 0..tasks {
        counts.push_reserved(no_counts(kernel.in_use(task)));
    }
    Ok(counts)
}

// The counts become those before any step of the kernel.
fn begin_counts(counts: &mut [Tally], kernel: &Kernel)
    requires { length counts.old ≡ kernel.now.settings.tasks }
    ensures { counts.new ≡ map (λ task. no_counts (task_at kernel.now.control task).in_use)
        (numbers kernel.now.settings.tasks) }
{
    for task in 0..kernel.settings().tasks {
        counts[task as usize] = no_counts(kernel.in_use(task));
    }
}

// Adds an event to the counts of its task.
#[tactic(auto, unfolding(crate::specs::Counting::event_tally))]
fn count_event(counts: &mut Tally, event: Event)
    requires { HasEventRoom (record { run = []; counts = counts.old }) }
    ensures { counts.new ≡ (event_tally (Some event) (task_of event)
        (record { run = []; counts = counts.old })).counts }
{
    match event {
        Event::SwitchedIn(_) => counts.switched += 1,
        Event::Displaced(_) => counts.displaced += 1,
        Event::RanOut(_) => counts.timeouts += 1,
    }
}

// Adds so many ticks at each place.
fn add_ticks(runs: &mut [u32], more: &[u32])
    requires places { length runs.old ≡ length more.now }
    requires sums { All (λ ticks. ticks < 2 ^ 32) (sums_of runs.old more.now) }
    ensures { runs.new ≡ sums_of runs.old more.now }
{
    for place in 0..runs.len() {
        runs[place] += more[place];
    }
}

// Adds the counts of each task in another part of the session.
fn add_counts(counts: &mut [Tally], more: &[Tally])
    requires tasks { length counts.old ≡ length more.now }
    requires sums { All CountsFit (all_added_counts counts.old more.now) }
    ensures { counts.new ≡ all_added_counts counts.old more.now }
{
    for task in 0..counts.len() {
        add_task_counts(&mut counts[task], more[task]);
    }
}

// The same for one task; the priority in use is the greater one.
fn add_task_counts(counts: &mut Tally, more: Tally)
    requires { CountsFit (added_counts counts.old more) }
    ensures { counts.new ≡ added_counts counts.old more }
{
    counts.wait += more.wait;
    counts.inverted += more.inverted;
    counts.switched += more.switched;
    counts.displaced += more.displaced;
    counts.timeouts += more.timeouts;
    counts.top = counts.top.max(more.top);
}
