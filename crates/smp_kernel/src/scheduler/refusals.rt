//! Why a step is refused.
ghost use Rattle.std.specs.Prelude.{◌≡◌, ◌<◌, Ok};
ghost use Rattle.bench_types.specs.Step.{call_check, step_check};
ghost use Rattle.bench_types.specs.declared.step.Step.TheVariants.{Switch};
ghost use Rattle.bench_types.specs.declared.step.Step.TheVariants as steps;
ghost use Rattle.bench_model.specs.Control.{is_due};
ghost use Rattle.bench_model.specs.Lists.{list_queues};
ghost use Rattle.bench_model.specs.Refusals.{call_refusal, give_refusal, would_block, hold_refusal, own_refusal, refusal};

use super::Scheduler;
use bench_model::notes::is_received;
use bench_model::until::{is_ahead, next_wake};
use bench_types::{Call, Direction, MAX_DEPTH, Refusal, Step, Unfinished};

impl Scheduler {
    // A tick, an interrupt and a pass never are.
    #[tactic(auto, unfolding(bench_model::specs::Refusals::refusal))]
    pub(crate) fn refusal(&self, step: &Step) -> Option<Refusal>
        requires { step_check self.now.settings step.now ≡ Ok tt }
        ensures { result ≡ refusal list_queues step.now self.now }
    {
        match *step {
            Step::Tick
            | Step::Interrupt { .. }
            | Step::QueueInterrupt { .. }
            | Step::ResumeInterrupt { .. }
            | Step::Pass { .. } => None,
            Step::Switch { core } => self.switch_refusal(core),
            Step::Call { core, task, call } => self.call_refusal(core, task, call),
        }
    }

    // A core that holds the kernel keeps out the calls of others.
    #[inline(always)]
    #[tactic(auto, unfolding(bench_model::specs::Refusals::refusal))]
    pub(super) fn call_refusal(&self, core: u32, task: u32, call: Call) -> Option<Refusal>
        requires { step_check self.now.settings (steps.Call core task call) ≡ Ok tt }
        ensures { result ≡ refusal list_queues (steps.Call core task call) self.now }
    {
        if self.is_held_elsewhere(core) {
            Some(Refusal::Held)
        } else {
            self.own_refusal(core, task, call)
        }
    }

    // A core that holds the kernel keeps out switches, and one that nobody asked doesn't switch.
    #[tactic(auto, unfolding(bench_model::specs::Refusals::refusal))]
    pub(super) fn switch_refusal(&self, core: u32) -> Option<Refusal>
        requires { core < self.now.settings.cores }
        ensures { result ≡ refusal list_queues (Switch core) self.now }
    {
        if self.is_held() {
            Some(Refusal::Held)
        } else if self.is_due(core) {
            None
        } else {
            Some(Refusal::NotDue)
        }
    }

    // Why a call of a core's task is refused that no other core keeps out.
    fn own_refusal(&self, core: u32, task: u32, call: Call) -> Option<Refusal>
        requires core { core < self.now.settings.cores }
        requires task { task < self.now.settings.tasks }
        requires checked { call_check self.now.settings call ≡ Ok tt }
        ensures { result ≡ own_refusal list_queues core task call self.now }
    {
        if self.cores.running(core) != task {
            return Some(Refusal::Displaced);
        }
        if self.is_due(core) && !self.is_held_by(core) {
            return Some(Refusal::SwitchDue);
        }
        // One after another, so that most calls are asked few questions.
        let unfinished = unfinished_refusal(self.calls[task as usize], call);
        if unfinished.is_some() {
            return unfinished;
        }
        let held = self.hold_refusal(core, task, call);
        if held.is_some() {
            return held;
        }
        self.give_refusal(task, call)
    }

    // Whether the core was asked to switch, by itself or by another.
    fn is_due(&self, core: u32) -> bool
        requires { core < self.now.settings.cores }
        ensures { result ≡ is_due self.now.control core }
    {
        let look = self.core_look(core);
        look.pend || look.asked
    }

    // A core that holds the kernel lets no task wait and holds it at most `MAX_DEPTH` times over,
    // and one that doesn't can't free it.
    #[tactic(auto, unfolding(bench_model::specs::Refusals::would_block))]
    fn hold_refusal(&self, core: u32, task: u32, call: Call) -> Option<Refusal>
        requires task { task < self.now.settings.tasks }
        requires checked { call_check self.now.settings call ≡ Ok tt }
        ensures { result ≡ hold_refusal list_queues core task call self.now }
    {
        if !self.is_held_by(core) {
            return matches!(call, Call::HoldClose).then_some(Refusal::NoHold);
        }
        match call {
            Call::HoldOpen if self.depth() == MAX_DEPTH => Some(Refusal::HoldDeep),
            _ if self.would_block(task, call) => Some(Refusal::HoldBlock),
            _ => None,
        }
    }

    // Whether the call would make its task wait: for some ticks, or for what is not there.
    #[tactic(auto, unfolding(bench_model::specs::Refusals::would_block, bench_model::specs::Notes::wait_entered, bench_model::specs::Notes::take_entered))]
    fn would_block(&self, task: u32, call: Call) -> bool
        requires task { task < self.now.settings.tasks }
        requires checked { call_check self.now.settings call ≡ Ok tt }
        ensures { result ≡ would_block list_queues task call self.now }
    {
        match call {
            Call::Delay(ticks) => ticks > 0,
            Call::DelayUntil { prev, inc } => {
                is_ahead(self.tick_count(), prev, next_wake(prev, inc))
            }
            Call::NotifyWait { ticks, index, .. } => {
                !is_received(self.notes.state(task, index)) && ticks > 0
            }
            Call::NotifyTake { ticks, index, .. } => {
                self.notes.value(task, index) == 0 && ticks > 0
            }
            Call::MutexTake { mutex, ticks } => self.mutexes.holder(mutex).is_some() && ticks > 0,
            Call::QueueSend { queue, ticks } => {
                !self.queues.can_pass(Direction::Send, queue) && ticks > 0
            }
            Call::QueueReceive { queue, ticks } => {
                !self.queues.can_pass(Direction::Receive, queue) && ticks > 0
            }
            Call::Suspend(other) => other == task,
            _ => false,
        }
    }

    // A task can't give a mutex that another task holds.
    fn give_refusal(&self, task: u32, call: Call) -> Option<Refusal>
        requires { call_check self.now.settings call ≡ Ok tt }
        ensures { result ≡ give_refusal self.now.holders task call }
    {
        let Call::MutexGive(mutex) = call else {
            return None;
        };
        match self.mutexes.holder(mutex) {
            Some(holder) if holder != task => Some(Refusal::NotHolder),
            _ => None,
        }
    }
}

// A task with an unfinished call can only finish it, and without one it can't finish.
fn unfinished_refusal(unfinished: Option<Unfinished>, call: Call) -> Option<Refusal>
    ensures { result ≡ call_refusal unfinished call }
{
    let is_finish = matches!(call, Call::Finish);
    match unfinished {
        None if is_finish => Some(Refusal::NotInCall),
        Some(_) if !is_finish => Some(Refusal::InCall),
        _ => None,
    }
}
