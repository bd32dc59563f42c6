//! Threads that play their scripts at one time.
use crate::checks::{assert_made, assert_reply, assert_same};
use crate::scripts::gates::{InTurn, Together};
use crate::scripts::played::{THREE, document, played};
use bench_types::Reply;
use core_rig::Recorded;
use std::process::Abort;
use std::test::Fail;

const YIELDS: &str = "[[{\"do\":\"yield\"}],[{\"do\":\"yield\"}]]";

#[test]
fn both_cores_yield_at_one_time(rt: HostRuntime) -> Result<(), Fail> {
    let gate = Together::of(2);
    let text = document(rt.alloc(), THREE, 10, YIELDS)?;
    let recorded = played(&rt, &rt, text.as_str(), &gate)?;
    assert_same(&rt, "late", &gate.is_late(), &false);
    assert_same(&rt, "entries", &recorded.entries.as_slice().len(), &2);
    assert_made(&rt, &recorded, &[1, 1]);
    Ok(())
}

/// A rig of the most cores, up to the script of core 0, which is a tick.
const MOST: &str =
    "{\"session\":{\"format\":1,\"cores\":32,\"priorities\":5,\"slicing\":false,\"tick\":0,\"mutexes\":0,\"tasks\":[{\"name\":\"A\",\"priority\":1,\"mask\":4294967295}],\"steps\":[]},\"limit\":32,\"scripts\":[[{\"do\":\"tick\"}]";

/// The script of one core more, which is an interrupt.
const INTERRUPT: &str = ",[{\"do\":\"isr_notify\",\"to\":\"A\",\"action\":\"increment\"}]";

#[test]
fn the_most_scripts_are_played_at_one_time(rt: HostRuntime) -> Result<(), Fail> {
    let gate = Together::of(32);
    let others = INTERRUPT.repeat(rt.alloc(), 31)?;
    let text = format!(in rt.alloc(); "{MOST}{others}]}}")?;
    let recorded = played(&rt, &rt, text.as_str(), &gate)?;
    assert_same(&rt, "late", &gate.is_late(), &false);
    assert_made(&rt, &recorded, &[1; 32]);
    Ok(())
}

/// Three actions of core 0 and two of core 1.
const FIVE: &str =
    "[[{\"do\":\"tick\"},{\"do\":\"tick\"},{\"do\":\"tick\"}],[{\"do\":\"yield\"},{\"do\":\"yield\"}]]";

/// Core 1 is held up before its first action until core 0 comes to its third, and core 0 before its
/// first until core 1 has come: so two ticks are made before anything of core 1.
#[test]
fn each_action_passes_the_gate_first(rt: HostRuntime) -> Result<(), Fail> {
    let gate = InTurn::new();
    let text = document(rt.alloc(), THREE, 10, FIVE)?;
    let recorded = played(&rt, &rt, text.as_str(), &gate)?;
    assert_same(&rt, "told", &gate.heard(), &(123, 12));
    assert_same(&rt, "late", &gate.is_late(), &false);
    check_two_ticks(&rt, &recorded);
    Ok(())
}

fn check_two_ticks(rt: &impl Abort, recorded: &Recorded) {
    assert_made(rt, recorded, &[3, 2]);
    assert_reply(rt, recorded.entries.as_slice(), 0, 0, Reply::Done);
    assert_reply(rt, recorded.entries.as_slice(), 1, 0, Reply::Done);
}
