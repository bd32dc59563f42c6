//! Calls that make a lock pair or a rig, or copy what was recorded.
ghost use Rattle.std.specs.Prelude.{◌≡◌, [], IfSome};

use crate::call_result::CallResult;
use crate::worked::{STEPS, header};
use arrayvec::ArrayVec;
use bench_types::{Entry, Header, Items, Reply, Step};
use core_rig::{Recorded, Rig, RigFault};
use port_locks::LockPair;
use recordings::Recording;
use smp_kernel::Meter;
use std::alloc::{AllocError, Global};

/// How many entries there is room for.
const LIMIT: u32 = 10;

/// A recording of no entries, which a lock pair keeps.
fn recording(rt: &HostRuntime, header: &Header) -> Option<Recording>
    ensures { IfSome result (λ recording. recording.entries ≡ []) }
{
    Recording::new(rt.alloc(), Meter::new(rt), header, LIMIT).ok()
}

pub(crate) fn lock_pair(rt: &HostRuntime) -> Option<CallResult> {
    let header = header(rt.alloc())?;
    let (first, second) = (recording(rt, &header)?, recording(rt, &header)?);
    Some(match seats_of_pair(rt.alloc(), first) {
        Ok(seats) => CallResult::answered(seats == 2),
        Err(AllocError) => CallResult::refused(seats_of_pair(rt.alloc(), second) == Ok(2)),
    })
}

/// How many seats the pair has that is made for two cores.
fn seats_of_pair(alloc: Global, recording: Recording) -> Result<usize, AllocError>
    requires { recording.entries ≡ [] }
{
    let (_pair, seats) = LockPair::new(alloc, 2, recording)?;
    Ok(seats.len())
}

pub(crate) fn rig(rt: &HostRuntime) -> Option<CallResult> {
    let header = header(rt.alloc())?;
    Some(match seats_of_rig(rt, &header) {
        Ok(seats) => CallResult::answered(seats == 2),
        Err(fault) => {
            let retried = seats_of_rig(rt, &header);
            CallResult::refused(fault == RigFault::NoMemory && retried == Ok(2))
        }
    })
}

fn seats_of_rig(rt: &HostRuntime, header: &Header) -> Result<usize, RigFault> {
    let (_rig, seats) = Rig::new(rt, rt.alloc(), header, LIMIT)?;
    Ok(seats.len())
}

/// What core 0 is taken to have recorded: the steps of the worked session.
fn recorded(alloc: Global) -> Option<Recorded> {
    let header = header(alloc)?;
    let entries = STEPS.iter().map(|step| entry_of(*step)).collect(alloc);
    Some(Recorded {
        header,
        entries: Items::new(entries.ok()?),
        made: ArrayVec::new(),
    })
}

fn entry_of(step: Step) -> Entry {
    Entry {
        core: 0,
        step,
        reply: Reply::Done,
    }
}

pub(crate) fn steps(rt: &HostRuntime) -> Option<CallResult> {
    let recorded = recorded(rt.alloc())?;
    Some(match recorded.steps(rt.alloc()) {
        Ok(steps) => CallResult::answered(steps.as_slice() == STEPS.as_slice()),
        Err(AllocError) => CallResult::refused(gives_steps(rt.alloc(), &recorded)),
    })
}

fn gives_steps(alloc: Global, recorded: &Recorded) -> bool {
    match recorded.steps(alloc) {
        Ok(steps) => {
            let entries = recorded.entries.as_slice();
            steps.as_slice() == STEPS.as_slice() && entries.len() == STEPS.len()
        }
        Err(AllocError) => false,
    }
}
