//! Which actions of a script are passed over, and what a thread closes at its end.
use crate::checks::assert_made;
use crate::scripts::gates::Open;
use crate::scripts::played::{THREE, check_steps, document, played};
use bench_types::{Call, Step};
use core_rig::Recorded;
use std::process::Abort;
use std::sync::Wait;
use std::test::Fail;
use std::thread::Threads;

const OPEN: Step = Step::Call {
    core: 0,
    task: 2,
    call: Call::HoldOpen,
};

const CLOSE: Step = Step::Call {
    core: 0,
    task: 2,
    call: Call::HoldClose,
};

/// What is recorded of the scripts, with so much room.
fn check<R: Threads + Wait + Abort + Sync>(
    rt: &R,
    host: &HostRuntime,
    tasks: &str,
    limit: u32,
    scripts: &str,
    steps: &[Step],
) -> Result<(), Fail> {
    let text = document(host.alloc(), tasks, limit, scripts)?;
    let recorded = played(rt, host, text.as_str(), &Open)?;
    check_steps(rt, &recorded, steps);
    Ok(())
}

#[test]
fn an_open_hold_is_closed_at_the_end(rt: HostRuntime) -> Result<(), Fail> {
    check(
        &rt,
        &rt,
        THREE,
        10,
        "[[{\"do\":\"hold_open\"}],[]]",
        &[OPEN, CLOSE],
    )
}

#[test]
fn a_switch_in_an_own_hold_is_passed_over(rt: HostRuntime) -> Result<(), Fail> {
    let scripts = "[[{\"do\":\"hold_open\"},{\"do\":\"switch\"}],[]]";
    check(&rt, &rt, THREE, 10, scripts, &[OPEN, CLOSE])
}

#[test]
fn a_hold_that_fills_the_room_is_closed(rt: HostRuntime) -> Result<(), Fail> {
    let scripts = "[[{\"do\":\"hold_open\"},{\"do\":\"tick\"}],[]]";
    check(&rt, &rt, THREE, 2, scripts, &[OPEN, CLOSE])
}

#[test]
fn a_hold_for_which_there_is_no_room_is_passed_over(rt: HostRuntime) -> Result<(), Fail> {
    let scripts = "[[{\"do\":\"hold_open\"},{\"do\":\"tick\"}],[]]";
    check(&rt, &rt, THREE, 1, scripts, &[Step::Tick])
}

#[test]
fn the_greatest_limit_leaves_room(rt: HostRuntime) -> Result<(), Fail> {
    let scripts = "[[{\"do\":\"tick\"}],[]]";
    check(&rt, &rt, THREE, 1_000_000, scripts, &[Step::Tick])
}

/// There is one tick more than there is room for.
#[test]
fn a_tick_past_the_limit_is_passed_over(rt: HostRuntime) -> Result<(), Fail> {
    let recorded = too_many_ticks(&rt, &rt)?;
    assert_made(&rt, &recorded, &[100_000, 0]);
    Ok(())
}

fn too_many_ticks<R: Threads + Wait + Abort + Sync>(
    rt: &R,
    host: &HostRuntime,
) -> Result<Recorded, Fail> {
    let ticks = "{\"do\":\"tick\"},".repeat(host.alloc(), 100_000)?;
    let scripts = format!(in host.alloc(); "[[{ticks}{{\"do\":\"tick\"}}],[]]")?;
    let text = document(host.alloc(), THREE, 100_000, scripts.as_str())?;
    played(rt, host, text.as_str(), &Open)
}

#[test]
fn calls_of_an_idle_task_are_passed_over(rt: HostRuntime) -> Result<(), Fail> {
    let scripts =
        "[[{\"do\":\"delay\",\"ticks\":1},{\"do\":\"switch\"},{\"do\":\"yield\"},{\"do\":\"tick\"},{\"do\":\"switch\"},{\"do\":\"finish\"}],[]]";
    let delay = Step::Call {
        core: 0,
        task: 2,
        call: Call::Delay(1),
    };
    let finish = Step::Call {
        core: 0,
        task: 2,
        call: Call::Finish,
    };
    let switch = Step::Switch { core: 0 };
    let steps = [delay, switch, Step::Tick, switch, finish];
    check(
        &rt,
        &rt,
        "{\"name\":\"A\",\"priority\":2,\"mask\":1}",
        10,
        scripts,
        &steps,
    )
}
