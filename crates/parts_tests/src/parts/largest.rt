//! The kernel's parts, each of the most tasks on the most cores, with the most mutexes and
//! notifications.
ghost use Rattle.std.specs.Prelude.{◌≡◌, ◌<◌, Ok, length};
ghost use Rattle.bench_types.specs.Header.{header_check};

use crate::expected::{expect_is, expect_same};
use crate::parts::ready::{expect_mask, expect_priorities};
use crate::parts::started::is_checked;
use bench_samples::{LARGEST, crowd};
use bench_types::{
    Header, MAX_CORES, MAX_MUTEXES, MAX_NOTES, MAX_PRIORITIES, MAX_QUEUES, MAX_TASKS, NoteState,
    NotifyAction,
};
use mutex_inherit::Mutexes;
use notify_core::Notes;
use ready_core::Cores;
use std::alloc::Global;
use std::process::Abort;
use std::test::Fail;
use tick_delay::Delays;

// The tasks with the idle tasks, of which the last has the number before.
const TASKS: u32 = MAX_CORES + MAX_TASKS;

const LAST: u32 = TASKS - 1;

// The event lists of all mutexes and all queues.
const LISTS: u32 = MAX_MUTEXES + 2 * MAX_QUEUES;

// The copy is the same as the cores of the largest header.
fn check_cores(rt: &impl Abort, cores: &Cores, copy: &Cores) {
    expect_is(rt, copy.same(cores));
    expect_is(
        rt,
        copy.has_core(MAX_CORES - 1) && !copy.has_core(MAX_CORES),
    );
    expect_is(
        rt,
        copy.has_priority(MAX_PRIORITIES - 1) && !copy.has_priority(MAX_PRIORITIES),
    );
    expect_same(
        rt,
        (copy.has_task(LAST), copy.has_task(TASKS)),
        (true, false),
    );
    expect_priorities(rt, copy, LAST, 1, 1);
    expect_mask(rt, copy, LAST, 3);
}

fn copy_cores(rt: &impl Abort, alloc: Global, header: &Header) -> Result<(), Fail>
    requires { header_check header.now ≡ Ok tt }
{
    let cores = Cores::new(alloc, header)?;
    let copy = cores.copy(alloc)?;
    check_cores(rt, &cores, &copy);
    Ok(())
}

#[test]
fn cores(rt: HostRuntime) -> Result<(), Fail> {
    let header = crowd(rt.alloc(), LARGEST, MAX_TASKS as usize)?;
    assert!(&rt; is_checked(&header));
    copy_cores(&rt, rt.alloc(), &header)
}

// The last task, at its last index.
fn notify(rt: &impl Abort, notes: &mut Notes, action: NotifyAction)
    requires tasks { notes.old.tasks ≡ TASKS }
    requires entries { notes.old.entries ≡ MAX_NOTES }
    ensures tasks { notes.new.tasks ≡ TASKS }
    ensures entries { notes.new.entries ≡ MAX_NOTES }
{
    let (passed, waited) = notes.notify(LAST, MAX_NOTES - 1, action);
    expect_same(rt, (passed, waited), (true, false));
}

fn expect_note(rt: &impl Abort, notes: &Notes, task: u32, index: u32, value: u32, state: NoteState)
    requires task { task < notes.now.tasks }
    requires index { index < notes.now.entries }
{
    expect_same(rt, notes.value(task, index), value);
    expect_same(rt, notes.state(task, index), state);
}

fn check_notes(rt: &impl Abort, notes: &Notes, copy: &Notes)
    requires tasks { copy.now.tasks ≡ TASKS }
    requires entries { copy.now.entries ≡ MAX_NOTES }
{
    expect_is(rt, copy.same(notes));
    expect_note(rt, copy, LAST, MAX_NOTES - 1, 7, NoteState::Received);
    expect_note(rt, copy, LAST, MAX_NOTES - 2, 0, NoteState::NotWaiting);
    expect_note(rt, copy, 0, MAX_NOTES - 1, 0, NoteState::NotWaiting);
}

#[test]
fn notes(rt: HostRuntime) -> Result<(), Fail> {
    let mut notes = Notes::new(rt.alloc(), TASKS, MAX_NOTES)?;
    notify(&rt, &mut notes, NotifyAction::Set(7));
    let copy = notes.copy(rt.alloc())?;
    check_notes(&rt, &notes, &copy);
    Ok(())
}

// The task holds the mutex alone, and nobody holds the first one.
fn check_mutexes(rt: &impl Abort, mutexes: &Mutexes, copy: &Mutexes, task: u32, mutex: u32)
    requires { mutex < length copy.now.holders }
{
    expect_is(rt, copy.same(mutexes));
    expect_same(rt, copy.holder(mutex), Some(task));
    expect_same(rt, copy.holder(0), None);
    expect_same(rt, copy.held(task), 1);
}

fn take(rt: &impl Abort, mutexes: &mut Mutexes, task: u32, mutex: u32)
    requires task { task < mutexes.old.tasks }
    requires mutex { mutex < length mutexes.old.holders }
    ensures tasks { mutexes.new.tasks ≡ mutexes.old.tasks }
    ensures mutexes { length mutexes.new.holders ≡ length mutexes.old.holders }
{
    expect_is(rt, mutexes.try_take(task, mutex));
}

#[test]
fn mutexes(rt: HostRuntime) -> Result<(), Fail> {
    let mut mutexes = Mutexes::new(
        rt.alloc(),
        TASKS,
        MAX_PRIORITIES,
        MAX_MUTEXES,
        LISTS,
        Vec::new(rt.alloc()),
    )?;
    take(&rt, &mut mutexes, LAST, MAX_MUTEXES - 1);
    let copy = mutexes.copy(rt.alloc())?;
    check_mutexes(&rt, &mutexes, &copy, LAST, MAX_MUTEXES - 1);
    Ok(())
}

// The task waits for so many ticks from the last tick, and the first task does not.
fn check_delays(rt: &impl Abort, delays: &Delays, copy: &Delays, task: u32, ticks: u32)
    requires { task < copy.now.tasks }
{
    expect_is(rt, copy.same(delays));
    expect_same(rt, copy.tick(), u32::MAX);
    expect_same(rt, copy.left(task), Some(ticks));
    expect_same(rt, copy.left(0), None);
}

#[test]
fn delays(rt: HostRuntime) -> Result<(), Fail> {
    let mut delays = Delays::new(rt.alloc(), u32::MAX, TASKS)?;
    delays.delay(LAST, u32::MAX - 1);
    let copy = delays.copy(rt.alloc())?;
    check_delays(&rt, &delays, &copy, LAST, u32::MAX - 1);
    Ok(())
}
