//! Which steps a trace tells.
ghost use Rattle.std.specs.Prelude.{◌≡◌, ◌==◌, Option, false};
ghost use Rattle.std.specs.List.{list_any};
ghost use Rattle.run_views.specs.Interest.{call_task, change_concerns, core_change_concerns, hold_concerns, holder_concerns, is_one_of, names_core, names_nobody, names_task, some_task_concerns, step_concerns, tells};

use crate::{Change, CoreChange, MutexChange};
use bench_types::{Call, Hold, Items, Step};

/// The tasks and cores of whose steps a trace tells: where it names none, of all steps.
#[derive(Debug, Drop)]
pub struct Interest {
    pub tasks: Items<u32>,
    pub cores: Items<u32>,
}

fn is_one_of(numbers: &[u32], number: u32) -> bool
    ensures { result ≡ is_one_of numbers.now number }
{
    numbers.iter().any(|one| *one == number)
}

// The task that a call names beside the one that makes it.
fn call_task(call: Call) -> Option<u32>
    ensures { result ≡ call_task call }
{
    match call {
        Call::PrioritySet { task, .. }
        | Call::AffinitySet { task, .. }
        | Call::PreemptOff(task)
        | Call::PreemptOn(task)
        | Call::Suspend(task)
        | Call::Resume(task)
        | Call::StateClear { task, .. }
        | Call::ValueClear { task, .. } => Some(task),
        Call::Notify(note) => Some(note.task),
        _ => None,
    }
}

impl Interest {
    fn names_task(&self, task: u32) -> bool
        ensures { result ≡ names_task self.now task }
    {
        is_one_of(self.tasks.as_slice(), task)
    }

    fn names_core(&self, core: u32) -> bool
        ensures { result ≡ names_core self.now core }
    {
        is_one_of(self.cores.as_slice(), core)
    }

    fn names_nobody(&self) -> bool
        ensures { result ≡ names_nobody self.now }
    {
        self.tasks.as_slice().is_empty() && self.cores.as_slice().is_empty()
    }

    fn concerns_task(&self, task: Option<u32>) -> bool
        ensures { result ≡ some_task_concerns self.now task }
    {
        match task {
            Some(task) => self.names_task(task),
            None => false,
        }
    }

    fn concerns_step(&self, step: Step) -> bool
        ensures { result ≡ step_concerns self.now step }
    {
        match step {
            Step::Tick | Step::Pass { .. } => false,
            Step::Switch { core } => self.names_core(core),
            Step::Call { core, task, call } => {
                self.names_core(core)
                    || self.names_task(task)
                    || self.concerns_task(call_task(call))
            }
            Step::Interrupt { core, note } => self.names_core(core) || self.names_task(note.task),
            Step::QueueInterrupt { core, .. } => self.names_core(core),
            Step::ResumeInterrupt { core, task } => self.names_core(core) || self.names_task(task),
        }
    }

    fn concerns_hold(&self, hold: Option<Hold>) -> bool
        ensures { result ≡ hold_concerns self.now hold }
    {
        match hold {
            Some(hold) => self.names_core(hold.core),
            None => false,
        }
    }

    fn concerns_core_change(&self, change: CoreChange) -> bool
        ensures { result ≡ core_change_concerns self.now change }
    {
        match change {
            CoreChange::Current { from, to } => self.names_task(from) || self.names_task(to),
            CoreChange::Pend(_) | CoreChange::Asked(_) => false,
        }
    }

    fn concerns_holder(&self, change: MutexChange) -> bool
        ensures { result ≡ holder_concerns self.now change }
    {
        let MutexChange::Holder { from, to } = change;
        self.concerns_task(from) || self.concerns_task(to)
    }

    fn concerns_change(&self, change: Change) -> bool
        ensures { result ≡ change_concerns self.now change }
    {
        match change {
            Change::Tick { .. } | Change::Queue { .. } => false,
            Change::Hold { from, to } => self.concerns_hold(from) || self.concerns_hold(to),
            Change::Core { core, change } => {
                self.names_core(core) || self.concerns_core_change(change)
            }
            Change::Task { task, .. } | Change::Further { task, .. } => self.names_task(task),
            Change::Mutex { mutex: _, change } => self.concerns_holder(change),
        }
    }

    fn concerns_some(&self, changes: &[Change]) -> bool
        ensures { result ≡ list_any (change_concerns self.now) changes.now }
    {
        changes.iter().any(|change| self.concerns_change(*change))
    }

    /// Whether a step that made these changes is told.
    pub fn tells(&self, step: Step, changes: &[Change]) -> bool
        ensures { result ≡ tells self.now step changes.now }
    {
        self.names_nobody() || self.concerns_step(step) || self.concerns_some(changes)
    }
}
