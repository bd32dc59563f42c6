//! The run of a session: its replies, the tasks that run, and how the tasks fared, which were
//! worked out by hand.
use crate::checked::{TICK, call, session_of_three, switch};
use bench_types::{Call, Reply, Step};
use session_runs::{Run, RunWalk};
use smp_kernel::Meter;
use std::alloc::{AllocError, Global};
use std::process::Abort;
use std::test::Fail;

/// A delays itself on core 0 for two ticks, of which one comes, and C has the core meanwhile.
fn away() -> [Step; 5] {
    [
        call(0, 2, Call::Delay(2)),
        switch(0),
        TICK,
        call(0, 4, Call::Yield),
        switch(0),
    ]
}

/// The replies of the steps, and none past the last.
const REPLIES: [(u32, Option<Reply>); 6] = [
    (0, Some(Reply::Blocked)),
    (1, Some(Reply::Done)),
    (2, Some(Reply::Done)),
    (3, Some(Reply::Done)),
    (4, Some(Reply::Done)),
    (5, None),
];

/// The tasks that run at places, in the order in which these are asked for: at the start A and B,
/// and from place 2 on C and B.
const ROWS: [(u32, Option<&[u32]>); 9] = [
    (0, Some(&[2, 3])),
    (1, Some(&[2, 3])),
    (2, Some(&[4, 3])),
    (3, Some(&[4, 3])),
    (5, Some(&[4, 3])),
    (6, None),
    (5, Some(&[4, 3])),
    (2, Some(&[4, 3])),
    (1, Some(&[2, 3])),
];

/// The tick finds C on core 0 and B on core 1.
const FARED: &str = "\
task IDLE0 run 0 0 wait 1 inverted 0 in 0 displaced 0 timeouts 0 top 0
task IDLE1 run 0 0 wait 1 inverted 0 in 0 displaced 0 timeouts 0 top 0
task A run 0 0 wait 0 inverted 0 in 0 displaced 0 timeouts 0 top 2
task B run 0 1 wait 0 inverted 0 in 0 displaced 0 timeouts 0 top 1
task C run 1 0 wait 0 inverted 0 in 1 displaced 0 timeouts 0 top 1
";

// The run of these steps of A, B and C as they stand; the meter counts each step.
fn run_of(rt: &impl Abort, host: &HostRuntime, steps: &[Step]) -> Result<Run, Fail> {
    let session = session_of_three(rt, host.alloc(), steps)?;
    let mut meter = Meter::new(host);
    let run = Run::of_session(host.alloc(), session, &mut meter)?;
    assert_eq!(rt; meter.count(), steps.len() as u64);
    Ok(run)
}

#[test]
fn a_run_as_it_stands(rt: HostRuntime) -> Result<(), Fail> {
    let run = run_of(&rt, &rt, &away())?;
    assert_replies(&rt, &run);
    check_walk(&rt, rt.alloc(), &run)?;
    assert_fared(&rt, rt.alloc(), &run, FARED)?;
    Ok(())
}

fn assert_replies(rt: &impl Abort, run: &Run) {
    for (place, wanted) in &REPLIES {
        assert_eq!(rt; run.reply(*place), *wanted);
    }
    assert_eq!(rt; run.left().len(), 0);
}

fn check_walk(rt: &impl Abort, alloc: Global, run: &Run) -> Result<(), AllocError> {
    let mut walk = run.walk(alloc)?;
    for (place, wanted) in &ROWS {
        assert_row(rt, alloc, &mut walk, *place, *wanted)?;
    }
    Ok(())
}

fn assert_row(
    rt: &impl Abort,
    alloc: Global,
    walk: &mut RunWalk<'_>,
    place: u32,
    wanted: Option<&[u32]>,
) -> Result<(), AllocError> {
    match walk.row_at(alloc, place)? {
        Some(row) => assert_eq!(rt; Some(row.as_slice()), wanted),
        None => assert_eq!(rt; wanted, None),
    }
    Ok(())
}

fn assert_fared(rt: &impl Abort, alloc: Global, run: &Run, wanted: &str) -> Result<(), AllocError> {
    let text = fared(alloc, run)?;
    assert_eq!(rt; text.as_str(), wanted);
    Ok(())
}

fn fared(alloc: Global, run: &Run) -> Result<String, AllocError> {
    run.tallies().text(alloc, run.session().header())
}
