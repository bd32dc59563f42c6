//! What edits that are tried are answered, by themselves and side by side, and that the store stays
//! as it is.
use crate::reports::{SHARED, YIELDED_TALLIES};
use crate::samples::{Opened, assert_at, assert_row, assert_same, assert_text, between, ticks};
use crate::store_edits::{A_YIELDS, insert, replace};
use bench_samples::{LARGEST, crowd};
use bench_types::{Edit, EditFault, MAX_TASKS, Step};
use session_store::{Outcome, Store, StoreFault};
use std::alloc::{AllocError, Global};
use std::process::Abort;
use std::test::Fail;
use std::thread::Threads;
use tallies::Tallies;
use what_if::try_all;

/// What the trial of the edit tells, with the tallies as text.
pub(crate) fn tried(
    alloc: Global,
    opened: &mut Opened,
    edit: Edit,
) -> Result<(Outcome, String), Fail> {
    let (outcome, tallies) = opened.store.trial(alloc, edit, &mut opened.meter)?;
    let text = tallies.text(alloc, opened.store.header())?;
    Ok((outcome, text))
}

#[test]
fn a_trial_leaves_the_store(rt: HostRuntime) -> Result<(), Fail> {
    let mut opened = Opened::by_span(&rt, true, &SHARED, 64)?;
    check_yield(&rt, rt.alloc(), &mut opened)?;
    check_no_place(&rt, rt.alloc(), &mut opened);
    assert_row(&rt, &opened.store, 8, [2, 4]);
    Ok(())
}

/// A yields in place of its delay: all is replayed, and counted.
fn check_yield(rt: &impl Abort, alloc: Global, opened: &mut Opened) -> Result<(), Fail> {
    let (outcome, text) = tried(alloc, opened, replace(0, A_YIELDS))?;
    let made = (outcome, opened.meter.count());
    assert_same(rt, "outcome and count", &made, &(between(0, 8), 16));
    assert_text(rt, &text, YIELDED_TALLIES);
    Ok(())
}

/// A place after the end is refused, and nothing counted.
fn check_no_place(rt: &impl Abort, alloc: Global, opened: &mut Opened) {
    let count = opened.meter.count();
    let trial = opened
        .store
        .trial(alloc, insert(9, Step::Tick), &mut opened.meter);
    let no_place = StoreFault::Edit(EditFault::NoPlace);
    assert_same(rt, "fault", &trial.err(), &Some(no_place));
    assert_same(rt, "count", &opened.meter.count(), &count);
}

/// How many edits are tried side by side.
const MANY: u32 = 2_000;

/// Each tick of a session of the most tasks is replaced by a tick, so that the session goes on as
/// it did from the next checkpoint.
#[test]
fn two_thousand_edits_are_tried(rt: HostRuntime) -> Result<(), Fail> {
    let header = crowd(rt.alloc(), LARGEST, MAX_TASKS as usize)?;
    let opened = Opened::of(&rt, header, ticks(rt.alloc(), MANY)?, 4)?;
    check_many(&rt, &rt, &opened.store)
}

fn check_many<R: Threads + Abort + Sync>(
    rt: &R,
    host: &HostRuntime,
    store: &Store,
) -> Result<(), Fail> {
    let edits = ticks_again(host.alloc())?;
    assert_all(rt, &try_all(rt, host, host.alloc(), store, &edits)?);
    Ok(())
}

fn ticks_again(alloc: Global) -> Result<Vec<Edit>, AllocError> {
    let mut edits = Vec::new(alloc);
    for at in 0..MANY {
        edits.push(replace(at, Step::Tick))?;
    }
    Ok(edits)
}

fn assert_all(rt: &impl Abort, trials: &[Result<(Outcome, Tallies), StoreFault>]) {
    assert_same(rt, "trials", &trials.len(), &(MANY as usize));
    for (at, trial) in (0..MANY).zip(trials) {
        let outcome = trial.as_ref().map(|tried| tried.0).ok();
        let from = at / 4 * 4;
        let wanted = between(from, from.saturating_add(4));
        assert_at(rt, "trial", at, &outcome, &Some(wanted));
    }
}
