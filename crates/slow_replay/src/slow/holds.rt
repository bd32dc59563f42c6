//! Holds of the kernel and what is refused, each as it is defined.
ghost use Rattle.std.specs.Prelude.{◌≡◌, ◌<◌, ◌+◌, ◌^◌, Ok, length};
ghost use Rattle.bench_types.specs.Step.{call_check, step_check};
ghost use Rattle.bench_model.specs.Control.{is_due};
ghost use Rattle.bench_model.specs.Holds.{is_held_by, is_held_elsewhere, depth_of, hold_opened, hold_closed};
ghost use Rattle.bench_model.specs.Refusals.{call_refusal, give_refusal, would_block, hold_refusal, own_refusal, refusal};
ghost use Rattle.bench_model.specs.Table.{stamp_queues, tick_count};

use super::{SlowTable, notes};
use bench_model::until::{is_ahead, next_wake};
use bench_types::{Call, Direction, Hold, MAX_DEPTH, Refusal, Step, Unfinished};

impl SlowTable {
    pub(super) fn tick_count(&self) -> u32
        ensures { result ≡ tick_count self.now.orders }
    {
        (self.tick % (1 << 32)) as u32
    }

    fn is_held_by(&self, core: u32) -> bool
        ensures { result ≡ is_held_by core self.now.hold }
    {
        match self.hold {
            Some(hold) => hold.core == core,
            None => false,
        }
    }

    fn is_held_elsewhere(&self, core: u32) -> bool
        ensures { result ≡ is_held_elsewhere core self.now.hold }
    {
        match self.hold {
            Some(hold) => hold.core != core,
            None => false,
        }
    }

    fn depth(&self) -> u32
        ensures { result ≡ depth_of self.now.hold }
    {
        match self.hold {
            Some(hold) => hold.depth,
            None => 0,
        }
    }

    #[tactic(auto, unfolding(bench_model::specs::Holds::hold_opened))]
    pub(super) fn open_hold(&mut self, core: u32)
        requires { depth_of self.old.hold + 1 < 2 ^ 32 }
        ensures { self.new ≡ hold_opened core self.old }
    {
        let depth = self.depth() + 1;
        self.hold = Some(Hold { core, depth });
    }

    #[tactic(auto, unfolding(bench_model::specs::Holds::hold_closed))]
    pub(super) fn close_hold(&mut self, core: u32)
        ensures { self.new ≡ hold_closed core self.old }
    {
        let depth = self.depth().saturating_sub(1);
        self.hold = (depth != 0).then_some(Hold { core, depth });
    }

    pub(super) fn is_due(&self, core: u32) -> bool
        requires { core < length self.now.control.cores }
        ensures { result ≡ is_due self.now.control core }
    {
        let look = &self.cores[core as usize];
        look.pend || look.asked
    }

    #[tactic(auto, unfolding(bench_model::specs::Refusals::would_block))]
    fn would_block(&self, task: u32, call: Call) -> bool
        requires task { task < length self.now.orders.rows }
        requires checked { call_check self.now.settings call ≡ Ok tt }
        ensures { result ≡ would_block stamp_queues task call self.now }
    {
        match call {
            Call::Delay(ticks) => 0 < ticks,
            Call::DelayUntil { prev, inc } => {
                is_ahead(self.tick_count(), prev, next_wake(prev, inc))
            }
            Call::NotifyWait {
                entry,
                ticks,
                index,
                ..
            } => { notes::wait_entered(entry, self.note(task, index)).0 && 0 < ticks }
            Call::NotifyTake { ticks, index, .. } => {
                notes::take_entered(self.note(task, index)).0 && 0 < ticks
            }
            Call::MutexTake { mutex, ticks } => self.holder(mutex).is_some() && 0 < ticks,
            Call::QueueSend { queue, ticks } => {
                !self.can_pass(Direction::Send, queue) && 0 < ticks
            }
            Call::QueueReceive { queue, ticks } => {
                !self.can_pass(Direction::Receive, queue) && 0 < ticks
            }
            Call::Suspend(other) => other == task,
            _ => false,
        }
    }

    fn hold_refusal(&self, core: u32, task: u32, call: Call) -> Option<Refusal>
        requires task { task < length self.now.orders.rows }
        requires checked { call_check self.now.settings call ≡ Ok tt }
        ensures { result ≡ hold_refusal stamp_queues core task call self.now }
    {
        if !self.is_held_by(core) {
            return matches!(call, Call::HoldClose).then_some(Refusal::NoHold);
        }
        if self.would_block(task, call) {
            return Some(Refusal::HoldBlock);
        }
        let is_deep = matches!(call, Call::HoldOpen) && self.depth() == MAX_DEPTH;
        is_deep.then_some(Refusal::HoldDeep)
    }

    fn give_refusal(&self, task: u32, call: Call) -> Option<Refusal>
        requires { call_check self.now.settings call ≡ Ok tt }
        ensures { result ≡ give_refusal self.now.holders task call }
    {
        match call {
            Call::MutexGive(mutex) => match self.holder(mutex) {
                Some(holder) if holder != task => Some(Refusal::NotHolder),
                _ => None,
            },
            _ => None,
        }
    }

    fn own_refusal(&self, core: u32, task: u32, call: Call) -> Option<Refusal>
        requires core { core < length self.now.control.cores }
        requires task { task < length self.now.orders.rows }
        requires checked { call_check self.now.settings call ≡ Ok tt }
        ensures { result ≡ own_refusal stamp_queues core task call self.now }
    {
        if !self.runs_on(core, task) {
            return Some(Refusal::Displaced);
        }
        if self.is_due(core) && !self.is_held_by(core) {
            return Some(Refusal::SwitchDue);
        }
        let last = self
            .hold_refusal(core, task, call)
            .or(self.give_refusal(task, call));
        call_refusal(self.calls[task as usize], call).or(last)
    }

    #[tactic(auto, unfolding(bench_model::specs::Refusals::refusal))]
    pub(super) fn refusal(&self, step: &Step) -> Option<Refusal>
        requires { step_check self.now.settings step.now ≡ Ok tt }
        ensures { result ≡ refusal stamp_queues step.now self.now }
    {
        match *step {
            Step::Tick
            | Step::Interrupt { .. }
            | Step::QueueInterrupt { .. }
            | Step::ResumeInterrupt { .. }
            | Step::Pass { .. } => None,
            Step::Switch { .. } if self.hold.is_some() => Some(Refusal::Held),
            Step::Switch { core } => (!self.is_due(core)).then_some(Refusal::NotDue),
            Step::Call { core, .. } if self.is_held_elsewhere(core) => Some(Refusal::Held),
            Step::Call { core, task, call } => self.own_refusal(core, task, call),
        }
    }
}

fn call_refusal(unfinished: Option<Unfinished>, call: Call) -> Option<Refusal>
    ensures { result ≡ call_refusal unfinished call }
{
    match (unfinished, call) {
        (None, Call::Finish) => Some(Refusal::NotInCall),
        (None, _) | (Some(_), Call::Finish) => None,
        (Some(_), _) => Some(Refusal::InCall),
    }
}
