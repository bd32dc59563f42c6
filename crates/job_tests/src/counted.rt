//! A task step by step.
use std::test::Fail;
use task_jobs::{Crowd, Moves, Waits, Wake};

/// It has core 1, none, core 1 again, and then core 0: it moves once.
#[test]
fn moves_between_cores(rt: HostRuntime) -> Result<(), Fail> {
    let first = Moves::start(None).with_core(Some(1));
    assert_eq!(&rt; (first.core, first.count), (Some(1), 0));
    let last = first.with_core(None).with_core(Some(1)).with_core(Some(0));
    assert_eq!(&rt; (last.core, last.count), (Some(0), 1));
    Ok(())
}

const fn wake(ready: bool, tick: bool, in_vain: bool) -> Wake {
    Wake {
        ready,
        tick,
        in_vain,
    }
}

/// A tick wakes it, and it has nothing; then another task does, and it has nothing either.
#[test]
fn a_wait_that_runs_out(rt: HostRuntime) -> Result<(), Fail> {
    let waits = Waits::start(true)
        .with_wake(wake(false, false, false))
        .with_wake(wake(true, true, false))
        .with_wake(wake(true, false, true));
    assert_eq!(&rt; waits.run_out, 1);
    let woken = waits
        .with_wake(wake(false, false, false))
        .with_wake(wake(true, false, false))
        .with_wake(wake(true, false, true));
    assert_eq!(&rt; woken.run_out, 1);
    Ok(())
}

/// One waits from 3 on, another from 5 to 9.
#[test]
fn waits_of_two(rt: HostRuntime) -> Result<(), Fail> {
    let crowd = Crowd::start(0).joined(3).joined(5).left(9);
    assert_eq!(&rt; (crowd.tasks, crowd.told(9), crowd.told(10)), (1, 10, 11));
    Ok(())
}
