//! The room that an open hold keeps.

use crate::checks::assert_same;
use crate::recording::samples::{assert_answer, at, call, recording};
use bench_types::{Call, Reply};
use recordings::{RecordRefusal, Recording};
use std::process::Abort;
use std::test::Fail;

#[test]
fn an_open_hold_can_be_closed(rt: HostRuntime) -> Result<(), Fail> {
    check_hold(&rt, &mut recording(&rt, 2)?);
    Ok(())
}

fn check_hold(rt: &impl Abort, recording: &mut Recording) {
    let open = call(rt, recording, 0, Call::HoldOpen);
    assert_answer(rt, "opened", open, at(0, Reply::Done));
    check_held(rt, recording, Some(0), 1);
    assert_same(rt, "limit", &recording.limit(), &2);
    assert_same(rt, "room", &recording.room(), &0);
    assert_answer(rt, "tick", recording.tick(), Err(RecordRefusal::Full));
    let other = call(rt, recording, 0, Call::Yield);
    assert_answer(rt, "yield", other, Err(RecordRefusal::Full));
    let close = call(rt, recording, 0, Call::HoldClose);
    assert_answer(rt, "closed", close, at(1, Reply::Done));
    check_held(rt, recording, None, 0);
}

fn check_held(rt: &impl Abort, recording: &Recording, holder: Option<u32>, depth: u32) {
    assert!(rt; recording.holder() == holder);
    assert_same(rt, "depth", &recording.depth(), &depth);
}

#[test]
fn a_hold_needs_two_places(rt: HostRuntime) -> Result<(), Fail> {
    check_one_place(&rt, &mut recording(&rt, 1)?);
    Ok(())
}

fn check_one_place(rt: &impl Abort, recording: &mut Recording) {
    let open = call(rt, recording, 0, Call::HoldOpen);
    assert_answer(rt, "opened", open, Err(RecordRefusal::Full));
    assert_answer(rt, "tick 1", recording.tick(), at(0, Reply::Done));
    assert_answer(rt, "tick 2", recording.tick(), Err(RecordRefusal::Full));
}
