//! What errors say in words.
use bench_samples::three_tasks;
use bench_types::{EditFault, Fault, Items};
use core_rig::{RigFault, RigRefusal};
use port_locks::{Deep, TryFault};
use recordings::RecordRefusal;
use session_store::{OpenFault, OpenRefusal, StoreFault};
use smp_kernel::StartFault;
use std::alloc::Global;
use std::fmt::Display;
use std::process::Abort;
use std::test::Fail;

const NO_MEMORY: &str = "out of memory";

const BAD_HEADER: &str = "a number of the header is outside its limits, or a name is repeated";

const NO_CORE: &str = "there is no such core";

const IDLE: &str = "an idle task runs on the core";

const FULL: &str = "the recording is full";

/// The error says this.
fn says(rt: &impl Abort, alloc: Global, error: &impl Display, words: &str) -> Result<(), Fail> {
    let said = format!(in alloc; "{error}")?;
    assert_eq!(rt; said.as_str(), words);
    Ok(())
}

/// Each of the errors says its words.
fn each_says<T: Display>(rt: &impl Abort, alloc: Global, errors: &[(T, &str)]) -> Result<(), Fail> {
    for (error, words) in errors {
        says(rt, alloc, error, words)?;
    }
    Ok(())
}

#[test]
fn what_refused_starts_say(rt: HostRuntime) -> Result<(), Fail> {
    let errors = [
        (StartFault::BadHeader, BAD_HEADER),
        (StartFault::NoMemory, NO_MEMORY),
    ];
    each_says(&rt, rt.alloc(), &errors)
}

const OPENINGS: [(OpenRefusal, &str); 4] = [
    (OpenRefusal::Bench(Fault::BadCore), NO_CORE),
    (
        OpenRefusal::BadSpan,
        "the span of checkpoints is outside its limits",
    ),
    (OpenRefusal::TooLong, "the session has too many steps"),
    (OpenRefusal::NoMemory, NO_MEMORY),
];

#[test]
fn what_refused_openings_say(rt: HostRuntime) -> Result<(), Fail> {
    each_says(&rt, rt.alloc(), &OPENINGS)?;
    let why = OpenRefusal::Bench(Fault::BadCore);
    open_says(&rt, &rt, Some(7), why, "step 7: there is no such core")?;
    open_says(
        &rt,
        &rt,
        None,
        OpenRefusal::Bench(Fault::BadHeader),
        BAD_HEADER,
    )
}

/// A session that was not opened, at that step and for that reason, says this.
fn open_says(
    rt: &impl Abort,
    host: &HostRuntime,
    at: Option<u32>,
    why: OpenRefusal,
    words: &str,
) -> Result<(), Fail> {
    let header = three_tasks(host.alloc(), false)?;
    let steps = Items::new(Vec::new(host.alloc()));
    let fault = OpenFault {
        header,
        steps,
        at,
        why,
    };
    says(rt, host.alloc(), &fault, words)
}

#[test]
fn what_refused_edits_say(rt: HostRuntime) -> Result<(), Fail> {
    let no_core = EditFault::Bench(Fault::BadCore);
    let errors = [
        (StoreFault::Edit(no_core), NO_CORE),
        (
            StoreFault::Edit(EditFault::NoPlace),
            "the session has no such place",
        ),
        (
            StoreFault::Edit(EditFault::TooLong),
            "the session would have too many steps",
        ),
        (StoreFault::NoMemory, NO_MEMORY),
    ];
    each_says(&rt, rt.alloc(), &errors)
}

#[test]
fn what_refused_recordings_say(rt: HostRuntime) -> Result<(), Fail> {
    let errors = [(RecordRefusal::IdleHere, IDLE), (RecordRefusal::Full, FULL)];
    each_says(&rt, rt.alloc(), &errors)
}

const RIGS: [(RigFault, &str); 3] = [
    (RigFault::BadHeader, BAD_HEADER),
    (RigFault::BadLimit, "the limit is over 1000000 entries"),
    (RigFault::NoMemory, NO_MEMORY),
];

const CALLS: [(RigRefusal, &str); 5] = [
    (RigRefusal::Fault(Fault::BadCore), NO_CORE),
    (RigRefusal::Full, FULL),
    (RigRefusal::IdleHere, IDLE),
    (RigRefusal::Busy, "another core calls the kernel"),
    (RigRefusal::Holding, "the core holds the kernel"),
];

const CLOSES: [(core_rig::CloseFault, &str); 2] = [
    (
        core_rig::CloseFault::WrongSeats,
        "the seats are not those of all cores",
    ),
    (core_rig::CloseFault::HoldOpen, "a core holds the kernel"),
];

#[test]
fn what_refused_rigs_and_calls_say(rt: HostRuntime) -> Result<(), Fail> {
    each_says(&rt, rt.alloc(), &RIGS)?;
    each_says(&rt, rt.alloc(), &CALLS)?;
    each_says(&rt, rt.alloc(), &CLOSES)
}

/// L1 to L4.
#[test]
fn what_a_refused_lock_says(rt: HostRuntime) -> Result<(), Fail> {
    let tries = [(TryFault::Busy, "L1"), (TryFault::Deep, "L2")];
    let closes = [
        (port_locks::CloseFault::Owned, "L3"),
        (port_locks::CloseFault::WrongSeats, "L4"),
    ];
    says(&rt, rt.alloc(), &Deep, "L2")?;
    each_says(&rt, rt.alloc(), &tries)?;
    each_says(&rt, rt.alloc(), &closes)
}
