//! Whose priority in use a step may raise.
ghost use Rattle.std.specs.Prelude.{◌≡◌, ◌<◌, IfSome, Ok};
ghost use Rattle.bench_types.specs.Step.{call_check, step_check};
ghost use Rattle.bench_model.specs.State.{call_at};
ghost use Rattle.smp_kernel.specs.Kernel.{HasCheckedCalls};
ghost use Rattle.smp_kernel.specs.Raised.{raised_by, raised_by_call, raised_by_end};

use super::Scheduler;
use bench_types::{Call, Step, Unfinished};

impl Scheduler {
    /// The task whose priority in use the step may raise, if there is one.
    pub fn raised_by(&self, step: &Step) -> Option<u32>
        requires checked { step_check self.now.settings step.now ≡ Ok tt }
        requires calls { HasCheckedCalls self.now }
        ensures raised { result ≡ raised_by self.now step.now }
        ensures task { IfSome result (λ task. task < self.now.settings.tasks) }
    {
        match step {
            Step::Call { task, call, .. } => self.raised_by_call(*task, *call),
            _ => None,
        }
    }

    fn raised_by_call(&self, task: u32, call: Call) -> Option<u32>
        requires task { task < self.now.settings.tasks }
        requires checked { call_check self.now.settings call ≡ Ok tt }
        requires calls { HasCheckedCalls self.now }
        ensures raised { result ≡ raised_by_call self.now task call }
        ensures task { IfSome result (λ task. task < self.now.settings.tasks) }
    {
        match call {
            Call::PrioritySet { task, .. } => Some(task),
            Call::MutexTake { mutex, .. } => self.mutexes.holder(mutex),
            Call::MutexGive(_) => Some(task),
            Call::Finish => self.raised_by_finish(task),
            _ => None,
        }
    }

    // A wait for a mutex raises its holder, or gives up what that inherited.
    fn raised_by_finish(&self, task: u32) -> Option<u32>
        requires task { task < self.now.settings.tasks }
        requires calls { HasCheckedCalls self.now }
        ensures raised { result ≡ raised_by_end self.now.holders (call_at self.now.calls task) }
        ensures task { IfSome result (λ task. task < self.now.settings.tasks) }
    {
        match self.calls[task as usize] {
            Some(Unfinished::Take { mutex, .. }) => self.mutexes.holder(mutex),
            _ => None,
        }
    }
}
