//! Trials of edits, which leave a store as it was.
use crate::call_result::CallResult;
use crate::stores::{Opened, edits, is_same, open_twins};
use bench_types::Edit;
use session_store::{Outcome as Replayed, Store, StoreFault};
use std::alloc::{AllocError, Global};
use std::thread::Threads;
use tallies::Tallies;
use what_if::try_all;

/// How each task fared in the session where A finds nothing to clear in place of its yield.
const TALLIES: &str = "\
task IDLE0 run 0 0 wait 4 inverted 0 in 0 displaced 0 timeouts 0 top 0
task IDLE1 run 0 0 wait 4 inverted 0 in 0 displaced 0 timeouts 0 top 0
task A run 4 0 wait 0 inverted 0 in 0 displaced 0 timeouts 0 top 2
task B run 0 4 wait 0 inverted 0 in 0 displaced 0 timeouts 0 top 1
task C run 0 0 wait 4 inverted 0 in 0 displaced 0 timeouts 0 top 1
";

pub(crate) fn trial(rt: &HostRuntime) -> Option<CallResult> {
    let mut twins = open_twins(rt)?;
    tried(rt.alloc(), &mut twins.one, &twins.two)
}

fn tried(alloc: Global, one: &mut Opened, twin: &Opened) -> Option<CallResult> {
    let [(edit, wanted), ..] = edits();
    let most = one.meter.count().saturating_add(u64::from(wanted.replayed));
    match one.store.trial(alloc, edit, &mut one.meter) {
        Ok((call_result, tallies)) => {
            let is_right = call_result == wanted && one.meter.count() == most;
            answered(alloc, &one.store, is_right, &tallies)
        }
        Err(fault) => {
            let is_right = fault == StoreFault::NoMemory && one.meter.count() <= most;
            refused(alloc, one, twin, is_right)
        }
    }
}

fn answered(alloc: Global, store: &Store, is_right: bool, tallies: &Tallies) -> Option<CallResult> {
    let text = tallies.text(alloc, store.header()).ok()?;
    Some(CallResult::answered(is_right && text.as_str() == TALLIES))
}

fn refused(alloc: Global, one: &mut Opened, twin: &Opened, is_right: bool) -> Option<CallResult> {
    let stays = is_same(alloc, &one.store, &twin.store).ok()?;
    Some(CallResult::refused(is_right && stays && is_tried(alloc, one)))
}

fn is_tried(alloc: Global, one: &mut Opened) -> bool {
    let [(edit, wanted), ..] = edits();
    match one.store.trial(alloc, edit, &mut one.meter) {
        Ok((call_result, _)) => call_result == wanted,
        Err(_) => false,
    }
}

/// Two edits: one that is tried, and one that has no place.
fn candidates() -> [Edit; 2] {
    let [(edit, _), ..] = edits();
    [edit, Edit::Remove { at: 6 }]
}

pub(crate) fn all<R: Threads + Sync>(rt: &R, host: &HostRuntime) -> Option<CallResult> {
    let twins = open_twins(host)?;
    all_beside_twin(rt, host, &twins.one.store, &twins.two.store)
}

/// Where memory is refused to one trial, its entry says so, and else the call.
fn all_beside_twin<R: Threads + Sync>(
    rt: &R,
    host: &HostRuntime,
    store: &Store,
    twin: &Store,
) -> Option<CallResult> {
    let first = tried_all(rt, host, store);
    if first == CallResult::Answered {
        return Some(first);
    }
    let stays = is_same(host.alloc(), store, twin).ok()?;
    let retried = tried_all(rt, host, store);
    Some(CallResult::refused(
        stays && first == CallResult::Refused && retried == CallResult::Answered,
    ))
}

fn tried_all<R: Threads + Sync>(rt: &R, host: &HostRuntime, store: &Store) -> CallResult {
    match try_all(rt, host, host.alloc(), store, &candidates()) {
        Ok(tried) => outcome_of(&tried),
        Err(AllocError) => CallResult::Refused,
    }
}

fn outcome_of(tried: &[Result<(Replayed, Tallies), StoreFault>]) -> CallResult {
    let [(_, wanted), ..] = edits();
    match tried {
        [Ok((call_result, _)), Err(StoreFault::Edit(_))] => CallResult::answered(
            *call_result == wanted,
        ),
        [Err(StoreFault::NoMemory), Err(_)] => CallResult::Refused,
        [Ok((call_result, _)), Err(StoreFault::NoMemory)] => CallResult::refused(
            *call_result == wanted,
        ),
        _ => CallResult::Wrong,
    }
}
