//! Notifications of tasks, and the parts of their rules.
ghost use Rattle.std.specs.Prelude.{◌≡◌, ◌<◌};

use crate::expected::{expect_is, expect_same};
use bench_model::notes::{acted, is_received, is_waiting, notified, passes, without_bits};
use bench_types::{NoteState, Notification, NotifyAction};
use notify_core::Notes;
use std::process::Abort;
use std::test::Fail;

// The task waits at the index, and the notification ends its wait.
fn notify(rt: &impl Abort, notes: &mut Notes, task: u32, index: u32, action: NotifyAction)
    requires task { task < notes.old.tasks }
    requires index { index < notes.old.entries }
    ensures tasks { notes.new.tasks ≡ notes.old.tasks }
    ensures entries { notes.new.entries ≡ notes.old.entries }
{
    let state = notes.state(task, index);
    assert!(rt; is_waiting(state));
    let (passed, waited) = notes.notify(task, index, action);
    expect_same(rt, (passed, waited), (true, true));
}

// A take waits, until a notification comes. Then it clears the value, or takes one from it.
fn take(rt: &impl Abort, notes: &mut Notes, task: u32, index: u32, clear: bool)
    requires task { task < notes.old.tasks }
    requires index { index < notes.old.entries }
    ensures tasks { notes.new.tasks ≡ notes.old.tasks }
    ensures entries { notes.new.entries ≡ notes.old.entries }
{
    expect_is(rt, notes.begin_take(task, index));
    notify(rt, notes, task, index, NotifyAction::Set(7));
    expect_same(rt, notes.end_take(task, index, clear), 7);
}

// A wait ends with a notification. It clears the bits 2 at its entry, and the bits 1 at its exit.
// Returns what the wait does.
fn wait(rt: &impl Abort, notes: &mut Notes, task: u32, index: u32) -> (bool, u32)
    requires task { task < notes.old.tasks }
    requires index { index < notes.old.entries }
    ensures tasks { notes.new.tasks ≡ notes.old.tasks }
    ensures entries { notes.new.entries ≡ notes.old.entries }
{
    expect_is(rt, notes.begin_wait(task, index, 2));
    notify(rt, notes, task, index, NotifyAction::SetBits(5));
    notes.end_wait(task, index, 1)
}

// A wait that begins with the value 6.
fn check_wait(rt: &impl Abort, notes: &mut Notes, task: u32, index: u32)
    requires task { task < notes.old.tasks }
    requires index { index < notes.old.entries }
    ensures tasks { notes.new.tasks ≡ notes.old.tasks }
    ensures entries { notes.new.entries ≡ notes.old.entries }
{
    expect_same(rt, notes.clear_value(task, index, 4), 6);
    let (come, value) = wait(rt, notes, task, index);
    expect_same(rt, (come, value), (true, 5));
    expect_is(rt, !notes.clear_state(task, index));
}

fn expect_note(rt: &impl Abort, notes: &Notes, task: u32, index: u32, value: u32, state: NoteState)
    requires task { task < notes.now.tasks }
    requires index { index < notes.now.entries }
{
    expect_same(rt, notes.value(task, index), value);
    expect_same(rt, notes.state(task, index), state);
}

#[test]
fn notes(rt: HostRuntime) -> Result<(), Fail> {
    let mut notes = Notes::new(rt.alloc(), 2, 1)?;
    take(&rt, &mut notes, 1, 0, false);
    let mut copy = notes.copy(rt.alloc())?;
    expect_is(&rt, copy.same(&notes));
    check_wait(&rt, &mut notes, 1, 0);
    expect_same(&rt, notes.value(1, 0), 4);
    expect_is(&rt, !copy.same(&notes));
    copy.copy_from(&notes);
    expect_is(&rt, copy.same(&notes));
    Ok(())
}

// A notification that no call waits for.
fn pass(rt: &impl Abort, notes: &mut Notes, task: u32, index: u32)
    requires task { task < notes.old.tasks }
    requires index { index < notes.old.entries }
    ensures tasks { notes.new.tasks ≡ notes.old.tasks }
    ensures entries { notes.new.entries ≡ notes.old.entries }
{
    let (passed, waited) = notes.notify(task, index, NotifyAction::Increment);
    expect_same(rt, (passed, waited), (true, false));
}

// The last task waits at its last index. A notification of any other leaves that, and the task is
// not said to wait.
fn notify_others(rt: &impl Abort, notes: &mut Notes)
    requires tasks { notes.old.tasks ≡ 2 }
    requires entries { notes.old.entries ≡ 3 }
    ensures tasks { notes.new.tasks ≡ 2 }
    ensures entries { notes.new.entries ≡ 3 }
{
    expect_is(rt, notes.begin_wait(1, 2, 0));
    pass(rt, notes, 1, 0);
    pass(rt, notes, 1, 1);
    expect_note(rt, notes, 1, 2, 0, NoteState::Waiting);
}

fn check_others(rt: &impl Abort, notes: &Notes)
    requires tasks { notes.now.tasks ≡ 2 }
    requires entries { notes.now.entries ≡ 3 }
{
    expect_note(rt, notes, 1, 0, 1, NoteState::Received);
    expect_note(rt, notes, 1, 1, 1, NoteState::Received);
    expect_note(rt, notes, 1, 2, 9, NoteState::Received);
    expect_note(rt, notes, 0, 2, 0, NoteState::NotWaiting);
}

#[test]
fn notification_leaves_those_of_other_indexes(rt: HostRuntime) -> Result<(), Fail> {
    let mut notes = Notes::new(rt.alloc(), 2, 3)?;
    notify_others(&rt, &mut notes);
    notify(&rt, &mut notes, 1, 2, NotifyAction::Set(9));
    check_others(&rt, &notes);
    Ok(())
}

// Notifies the task at the index. The copy differs from then on, until it is made equal again.
fn expect_compared(rt: &impl Abort, notes: &mut Notes, copy: &mut Notes, task: u32, index: u32)
    requires task { task < notes.old.tasks }
    requires index { index < notes.old.entries }
    requires tasks { copy.old.tasks ≡ notes.old.tasks }
    requires entries { copy.old.entries ≡ notes.old.entries }
    ensures tasks { notes.new.tasks ≡ notes.old.tasks }
    ensures entries { notes.new.entries ≡ notes.old.entries }
    ensures copied { copy.new ≡ notes.new }
{
    pass(rt, notes, task, index);
    expect_is(rt, !copy.same(notes) && !notes.same(copy));
    copy.copy_from(notes);
    expect_is(rt, copy.same(notes));
}

// Each notification of each of two tasks in turn.
fn compare_all(rt: &impl Abort, notes: &mut Notes, copy: &mut Notes)
    requires tasks { notes.old.tasks ≡ 2 }
    requires entries { notes.old.entries ≡ 3 }
    requires copied { copy.old ≡ notes.old }
{
    expect_compared(rt, notes, copy, 0, 0);
    expect_compared(rt, notes, copy, 0, 1);
    expect_compared(rt, notes, copy, 0, 2);
    expect_compared(rt, notes, copy, 1, 0);
    expect_compared(rt, notes, copy, 1, 1);
    expect_compared(rt, notes, copy, 1, 2);
}

#[test]
fn all_notifications_are_copied_and_compared(rt: HostRuntime) -> Result<(), Fail> {
    let mut notes = Notes::new(rt.alloc(), 2, 3)?;
    let mut copy = notes.copy(rt.alloc())?;
    compare_all(&rt, &mut notes, &mut copy);
    Ok(())
}

#[test]
fn same_compares_the_numbers(rt: HostRuntime) -> Result<(), Fail> {
    let notes = Notes::new(rt.alloc(), 2, 3)?;
    let others = Notes::new(rt.alloc(), 3, 2)?;
    expect_is(&rt, !notes.same(&others) && !others.same(&notes));
    Ok(())
}

#[test]
fn parts_of_a_notification(rt: HostRuntime) {
    let state = NoteState::Waiting;
    expect_same(&rt, (is_waiting(state), is_received(state)), (true, false));
    expect_is(&rt, passes(NotifyAction::SetNew(7), state));
    expect_same(&rt, acted(NotifyAction::Increment, 4_294_967_295), 0);
    expect_same(&rt, without_bits(5, 7), 2);
    let note = notified(NotifyAction::SetBits(6), Notification { value: 5, state });
    expect_same(&rt, note.value, 7);
    expect_is(&rt, is_received(note.state));
}
