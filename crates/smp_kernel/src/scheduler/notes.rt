//! Notifying a task, and the calls that wait for a notification.
ghost use Rattle.std.specs.Prelude.{◌≡◌, ◌<◌, true, Ok};
ghost use Rattle.list_orders.specs.Search.{has};
ghost use Rattle.bench_types.specs.declared.step.BlockingCall.TheVariants.{NotifyTake, NotifyWait};
ghost use Rattle.bench_types.specs.Step.{as_call, call_check};
ghost use Rattle.bench_model.specs.Notes.{of_slot, slot_of, wait_entered, take_entered};
ghost use Rattle.bench_model.specs.Notifying.{notify, is_passed, interrupted, state_forgotten, bits_cleared, completed, awaited, timeout_of};
ghost use Rattle.bench_model.specs.Lists.{list_queues};

use super::Scheduler;
use bench_types::{BlockingCall, Note, Reply};

impl Scheduler {
    // Notifies a task, by the acting core; one that waits for it is woken. Returns whether the
    // notification passed.
    #[tactic(auto, unfolding(bench_model::specs::Notifying::notify, bench_model::specs::Seek::wake))]
    pub(super) fn notify(&mut self, acting: u32, note: Note) -> bool
        requires task { note.task < self.old.settings.tasks }
        requires index { note.index < self.old.settings.notes }
        ensures passed { result ≡ is_passed note self.old }
        ensures notified { self.new ≡ notify list_queues acting note self.old }
        ensures settings { self.new.settings ≡ self.old.settings }
    {
        let (passes, waits) = self.notes.notify(note.task, note.index, note.action);
        if waits {
            self.wake(acting, note.task);
        }
        passes
    }

    // An interrupt of the core notifies a task.
    #[tactic(auto, unfolding(bench_model::specs::Notifying::interrupted))]
    pub(super) fn interrupt(&mut self, core: u32, note: Note) -> Reply
        requires core { core < self.old.settings.cores }
        requires task { note.task < self.old.settings.tasks }
        requires index { note.index < self.old.settings.notes }
        ensures { (result, self.new) ≡ interrupted list_queues core note self.old }
    {
        let pass = self.notify(core, note);
        let pend = self.core_look(core).pend;
        Reply::Isr { pass, pend }
    }

    // Forgets that a notification has come to the task. Returns whether one had.
    #[tactic(auto, unfolding(bench_model::specs::Notifying::state_forgotten))]
    pub(super) fn clear_state(&mut self, task: u32, index: u32) -> Reply
        requires task { task < self.old.settings.tasks }
        requires index { index < self.old.settings.notes }
        ensures { (result, self.new) ≡ state_forgotten task index self.old }
    {
        Reply::Flag(self.notes.clear_state(task, index))
    }

    // Clears the bits of the task's value. Returns the value before.
    #[tactic(auto, unfolding(bench_model::specs::Notifying::bits_cleared))]
    pub(super) fn clear_value(&mut self, task: u32, bits: u32, index: u32) -> Reply
        requires task { task < self.old.settings.tasks }
        requires index { index < self.old.settings.notes }
        ensures { (result, self.new) ≡ bits_cleared task bits index self.old }
    {
        Reply::Value(self.notes.clear_value(task, index, bits))
    }

    // A call completes: one that waited for a notification answers with that, a delay is done.
    #[tactic(auto, unfolding(bench_model::specs::Notifying::completed))]
    pub(super) fn complete(&mut self, task: u32, call: BlockingCall) -> Reply
        requires task { task < self.old.settings.tasks }
        requires checked { call_check self.old.settings (as_call call) ≡ Ok tt }
        ensures { (result, self.new) ≡ completed task call self.old }
    {
        match call {
            BlockingCall::NotifyWait { exit, index, .. } => {
                let (ok, value) = self.notes.end_wait(task, index, exit);
                Reply::Waited { ok, value }
            }
            BlockingCall::NotifyTake { clear, index, .. } => {
                Reply::Value(self.notes.end_take(task, index, clear))
            }
            BlockingCall::Delay(_) | BlockingCall::DelayUntil { .. } => Reply::Done,
        }
    }

    // The task waits for a notification, or for a value that is not 0, in a call that has begun:
    // where that found nothing to complete with and there are some ticks to wait, the task is
    // blocked, else the call completes at once.
    #[tactic(auto, unfolding(bench_model::specs::Notifying::awaited))]
    fn await_note(
        &mut self,
        core: u32,
        task: u32,
        call: BlockingCall,
        ticks: u32,
        entered: bool,
    ) -> Reply
        requires core { core < self.old.settings.cores }
        requires task { task < self.old.settings.tasks }
        requires ready { has task self.old.orders.ready ≡ true }
        requires checked { call_check self.old.settings (as_call call) ≡ Ok tt }
        ensures { (result, self.new)
            ≡ awaited list_queues core task call ticks (entered, self.old.notes) self.old }
    {
        if entered && ticks > 0 {
            self.block(core, task, call, timeout_of(ticks));
            return Reply::Blocked;
        }
        self.complete(task, call)
    }

    // A call that waits for a notification of the index.
    #[tactic(auto, unfolding(bench_model::specs::Notifying::awaited))]
    pub(super) fn wait(
        &mut self,
        core: u32,
        task: u32,
        entry: u32,
        exit: u32,
        ticks: u32,
        index: u32,
    ) -> Reply
        requires core { core < self.old.settings.cores }
        requires task { task < self.old.settings.tasks }
        requires index { index < self.old.settings.notes }
        requires ready { has task self.old.orders.ready ≡ true }
        ensures { (result, self.new)
            ≡ awaited list_queues core task (NotifyWait entry exit ticks index) ticks
            (of_slot (slot_of self.old.settings task index) (wait_entered entry) self.old.notes)
            self.old }
    {
        let entered = self.notes.begin_wait(task, index, entry);
        let call = BlockingCall::NotifyWait {
            entry,
            exit,
            ticks,
            index,
        };
        self.await_note(core, task, call, ticks, entered)
    }

    // A call that takes the value of the index.
    #[tactic(auto, unfolding(bench_model::specs::Notifying::awaited))]
    pub(super) fn take(
        &mut self,
        core: u32,
        task: u32,
        clear: bool,
        ticks: u32,
        index: u32,
    ) -> Reply
        requires core { core < self.old.settings.cores }
        requires task { task < self.old.settings.tasks }
        requires index { index < self.old.settings.notes }
        requires ready { has task self.old.orders.ready ≡ true }
        ensures { (result, self.new)
            ≡ awaited list_queues core task (NotifyTake clear ticks index) ticks
            (of_slot (slot_of self.old.settings task index) take_entered self.old.notes) self.old }
    {
        let entered = self.notes.begin_take(task, index);
        let call = BlockingCall::NotifyTake {
            clear,
            ticks,
            index,
        };
        self.await_note(core, task, call, ticks, entered)
    }
}

// A notification or a mutex is awaited for so many ticks; the greatest number is without end
// (FreeRTOS Reference Manual, portMAX_DELAY).
pub(super) fn timeout_of(ticks: u32) -> Option<u32>
    ensures { result ≡ timeout_of ticks }
{
    (ticks != u32::MAX).then_some(ticks)
}
