//! Notifying a task and waiting for that, each as it is defined.
ghost use Rattle.std.specs.Prelude.{◌≡◌, ◌<◌, ◌+◌, ◌^◌, length, slice_set, Ok};
ghost use Rattle.bench_types.specs.declared.step.BlockingCall.TheVariants.{NotifyTake, NotifyWait};
ghost use Rattle.bench_types.specs.Step.{as_call, call_check};
ghost use Rattle.bench_model.specs.Control.{core_at};
ghost use Rattle.bench_model.specs.Notes.{note_at, is_received, is_waiting, without_bits, passes, acted, notified, wait_entered, wait_ended, take_entered, take_ended, state_cleared, value_cleared, of_slot, slot_of};
ghost use Rattle.bench_model.specs.Notifying.{timeout_of, is_passed, state_forgotten, bits_cleared, completed, notify, interrupted, awaited};
ghost use Rattle.bench_model.specs.Table.{stamp_queues};

use super::SlowTable;
use bench_model::notes::{is_received, is_waiting, notified, passes, without_bits};
use bench_types::{BlockingCall, Note, NoteState, Notification, NotifyAction, Reply, Unfinished};

impl SlowTable {
    // Where the notification stands.
    #[tactic(auto, unfolding(bench_model::specs::Notes::slot_in))]
    fn slot(&self, task: u32, index: u32) -> usize
        requires task { task < length self.now.orders.rows }
        requires index { index < self.now.settings.notes }
        ensures slot { result ≡ slot_of self.now.settings task index }
        ensures below { result < length self.now.notes }
    {
        (task * self.settings.notes + index) as usize
    }

    pub(super) fn note(&self, task: u32, index: u32) -> Notification
        requires task { task < length self.now.orders.rows }
        requires index { index < self.now.settings.notes }
        ensures { result ≡ note_at self.now.notes (slot_of self.now.settings task index) }
    {
        self.notes[self.slot(task, index)]
    }

    pub(super) fn set_note(&mut self, task: u32, index: u32, note: Notification)
        requires task { task < length self.old.orders.rows }
        requires index { index < self.old.settings.notes }
        ensures { self.new ≡ record self.old {
          notes
              = slice_set self.old.notes (slot_of self.old.settings task index) note;
        } }
    {
        let slot = self.slot(task, index);
        self.notes[slot] = note;
    }

    // Returns whether the notification passed.
    #[tactic(auto, unfolding(bench_model::specs::Notifying::notify))]
    pub(super) fn notify(&mut self, acting: u32, note: Note) -> bool
        requires task { note.task < length self.old.orders.rows }
        requires index { note.index < self.old.settings.notes }
        requires room { self.old.orders.next + 1 < 2 ^ 128 }
        ensures passed { result ≡ is_passed note self.old }
        ensures known { self.new ≡ notify stamp_queues acting note self.old }
        ensures settings { self.new.settings ≡ self.old.settings }
    {
        let before = self.note(note.task, note.index);
        self.set_note(note.task, note.index, notified(note.action, before));
        if is_waiting(before.state) {
            self.wake(acting, note.task);
        }
        passes(note.action, before.state)
    }

    pub(super) fn has_asked_itself(&self, core: u32) -> bool
        requires { core < self.now.settings.cores }
        ensures { result ≡ (core_at self.now.control core).pend }
    {
        self.cores[core as usize].pend
    }

    #[tactic(auto, unfolding(bench_model::specs::Notifying::interrupted))]
    pub(super) fn interrupt(&mut self, core: u32, note: Note) -> Reply
        requires core { core < self.old.settings.cores }
        requires task { note.task < length self.old.orders.rows }
        requires index { note.index < self.old.settings.notes }
        requires room { self.old.orders.next + 1 < 2 ^ 128 }
        ensures { (result, self.new) ≡ interrupted stamp_queues core note self.old }
    {
        let pass = self.notify(core, note);
        Reply::Isr {
            pass,
            pend: self.has_asked_itself(core),
        }
    }

    #[tactic(auto, unfolding(bench_model::specs::Notifying::state_forgotten))]
    pub(super) fn clear_state(&mut self, task: u32, index: u32) -> Reply
        requires task { task < length self.old.orders.rows }
        requires index { index < self.old.settings.notes }
        ensures { (result, self.new) ≡ state_forgotten task index self.old }
    {
        let (had, note) = state_cleared(self.note(task, index));
        self.set_note(task, index, note);
        Reply::Flag(had)
    }

    #[tactic(auto, unfolding(bench_model::specs::Notifying::bits_cleared))]
    pub(super) fn clear_value(&mut self, task: u32, bits: u32, index: u32) -> Reply
        requires task { task < length self.old.orders.rows }
        requires index { index < self.old.settings.notes }
        ensures { (result, self.new) ≡ bits_cleared task bits index self.old }
    {
        let (value, note) = value_cleared(bits, self.note(task, index));
        self.set_note(task, index, note);
        Reply::Value(value)
    }

    // A call that waited for a notification answers with that.
    #[tactic(auto, unfolding(bench_model::specs::Notifying::completed))]
    pub(super) fn complete(&mut self, task: u32, call: BlockingCall) -> Reply
        requires task { task < length self.old.orders.rows }
        requires checked { call_check self.old.settings (as_call call) ≡ Ok tt }
        ensures { (result, self.new) ≡ completed task call self.old }
    {
        match call {
            BlockingCall::NotifyWait { exit, index, .. } => {
                let ((ok, value), note) = wait_ended(exit, self.note(task, index));
                self.set_note(task, index, note);
                Reply::Waited { ok, value }
            }
            BlockingCall::NotifyTake { clear, index, .. } => {
                let (value, note) = take_ended(clear, self.note(task, index));
                self.set_note(task, index, note);
                Reply::Value(value)
            }
            BlockingCall::Delay(_) | BlockingCall::DelayUntil { .. } => Reply::Done,
        }
    }

    // Blocks a call that has nothing to complete with and some ticks to wait.
    #[tactic(auto, unfolding(bench_model::specs::Notifying::awaited))]
    fn await_note(
        &mut self,
        core: u32,
        task: u32,
        call: BlockingCall,
        ticks: u32,
        waits: bool,
    ) -> Reply
        requires core { core < length self.old.control.cores }
        requires task { task < length self.old.orders.rows }
        requires checked { call_check self.old.settings (as_call call) ≡ Ok tt }
        requires room { self.old.orders.next + 1 < 2 ^ 128 }
        requires time { self.old.orders.tick + 2 ^ 32 < 2 ^ 128 }
        ensures { (result, self.new)
            ≡ awaited stamp_queues core task call ticks (waits, self.old.notes) self.old }
    {
        if waits && 0 < ticks {
            self.block(core, task, Unfinished::Made(call), timeout_of(ticks));
            return Reply::Blocked;
        }
        self.complete(task, call)
    }

    #[tactic(auto, unfolding(bench_model::specs::Notifying::awaited))]
    pub(super) fn wait(
        &mut self,
        core: u32,
        task: u32,
        entry: u32,
        exit: u32,
        ticks: u32,
        index: u32,
    ) -> Reply
        requires core { core < length self.old.control.cores }
        requires task { task < length self.old.orders.rows }
        requires index { index < self.old.settings.notes }
        requires room { self.old.orders.next + 1 < 2 ^ 128 }
        requires time { self.old.orders.tick + 2 ^ 32 < 2 ^ 128 }
        ensures { (result, self.new)
            ≡ awaited stamp_queues core task (NotifyWait entry exit ticks index) ticks
            (of_slot (slot_of self.old.settings task index) (wait_entered entry) self.old.notes)
            self.old }
    {
        let (waits, note) = wait_entered(entry, self.note(task, index));
        self.set_note(task, index, note);
        let call = BlockingCall::NotifyWait {
            entry,
            exit,
            ticks,
            index,
        };
        self.await_note(core, task, call, ticks, waits)
    }

    #[tactic(auto, unfolding(bench_model::specs::Notifying::awaited))]
    pub(super) fn take_note(
        &mut self,
        core: u32,
        task: u32,
        clear: bool,
        ticks: u32,
        index: u32,
    ) -> Reply
        requires core { core < length self.old.control.cores }
        requires task { task < length self.old.orders.rows }
        requires index { index < self.old.settings.notes }
        requires room { self.old.orders.next + 1 < 2 ^ 128 }
        requires time { self.old.orders.tick + 2 ^ 32 < 2 ^ 128 }
        ensures { (result, self.new)
            ≡ awaited stamp_queues core task (NotifyTake clear ticks index) ticks
            (of_slot (slot_of self.old.settings task index) take_entered self.old.notes) self.old }
    {
        let (waits, note) = take_entered(self.note(task, index));
        self.set_note(task, index, note);
        let call = BlockingCall::NotifyTake {
            clear,
            ticks,
            index,
        };
        self.await_note(core, task, call, ticks, waits)
    }
}

pub(super) fn timeout_of(ticks: u32) -> Option<u32>
    ensures { result ≡ timeout_of ticks }
{
    (ticks != u32::MAX).then_some(ticks)
}

#[tactic(auto, unfolding(bench_model::specs::Notes::wait_entered))]
pub(super) fn wait_entered(entry: u32, note: Notification) -> (bool, Notification)
    ensures { result ≡ wait_entered entry note }
{
    if is_received(note.state) {
        return (false, note);
    }
    let value = without_bits(entry, note.value);
    let state = NoteState::Waiting;
    (true, Notification { value, state })
}

#[tactic(auto, unfolding(bench_model::specs::Notes::wait_ended))]
fn wait_ended(exit: u32, note: Notification) -> ((bool, u32), Notification)
    ensures { result ≡ wait_ended exit note }
{
    let come = is_received(note.state);
    let value = if come {
        without_bits(exit, note.value)
    } else {
        note.value
    };
    let state = NoteState::NotWaiting;
    ((come, note.value), Notification { value, state })
}

#[tactic(auto, unfolding(bench_model::specs::Notes::take_entered))]
pub(super) fn take_entered(note: Notification) -> (bool, Notification)
    ensures { result ≡ take_entered note }
{
    if note.value != 0 {
        return (false, note);
    }
    let state = NoteState::Waiting;
    (true, Notification { state, ..note })
}

#[tactic(auto, unfolding(bench_model::specs::Notes::take_ended))]
fn take_ended(clear: bool, note: Notification) -> (u32, Notification)
    ensures { result ≡ take_ended clear note }
{
    let value = if clear {
        0
    } else {
        note.value.saturating_sub(1)
    };
    let state = NoteState::NotWaiting;
    (note.value, Notification { value, state })
}

#[tactic(auto, unfolding(bench_model::specs::Notes::state_cleared))]
fn state_cleared(note: Notification) -> (bool, Notification)
    ensures { result ≡ state_cleared note }
{
    if !is_received(note.state) {
        return (false, note);
    }
    let state = NoteState::NotWaiting;
    (true, Notification { state, ..note })
}

#[tactic(auto, unfolding(bench_model::specs::Notes::value_cleared))]
fn value_cleared(bits: u32, note: Notification) -> (u32, Notification)
    ensures { result ≡ value_cleared bits note }
{
    let value = without_bits(bits, note.value);
    (note.value, Notification { value, ..note })
}
