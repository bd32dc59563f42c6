//! What is recorded of the steps, and which headers and calls are refused.

use crate::checks::assert_same;
use crate::recording::samples::{
    assert_answer, at, call, interrupt, recording, recording_of, running, switch,
};
use bench_samples::{PLAIN, header_of};
use bench_types::{Call, Config, Entry, Header, Note, NotifyAction, Reply, Step};
use recordings::{RecordRefusal, Recording};
use smp_kernel::{Meter, StartFault};
use std::process::Abort;
use std::test::Fail;

#[test]
fn each_step_is_recorded(rt: HostRuntime) -> Result<(), Fail> {
    let mut recording = recording(&rt, 5)?;
    check_steps(&rt, &mut recording);
    check_entries(&rt, recording);
    Ok(())
}

fn check_steps(rt: &impl Abort, recording: &mut Recording) {
    assert_same(rt, "cores", &recording.settings().cores, &2);
    assert_same(rt, "tasks", &recording.settings().tasks, &5);
    let isr = Reply::Isr {
        pass: true,
        pend: false,
    };
    let note_to_a = Note {
        task: 2,
        action: NotifyAction::Increment,
        index: 0,
    };
    let noted = interrupt(rt, recording, 1, note_to_a);
    assert_answer(rt, "interrupt", noted, at(0, isr));
    assert_answer(rt, "tick", recording.tick(), at(1, Reply::Done));
    assert_same(rt, "before the switch", &running(rt, recording, 0), &2);
    let late = call(rt, recording, 0, Call::Delay(1));
    assert_answer(rt, "delay", late, at(2, Reply::Blocked));
    check_switch(rt, recording);
    check_room(rt, recording, &Step::Tick);
}

fn check_switch(rt: &impl Abort, recording: &mut Recording) {
    assert_same(rt, "depth", &recording.depth(), &0);
    let switched = switch(rt, recording, 0);
    assert_answer(rt, "switch", switched, at(3, Reply::Done));
    assert_same(rt, "after the switch", &running(rt, recording, 0), &4);
}

/// There is room for the step and no more.
fn check_room(rt: &impl Abort, recording: &Recording, step: &Step) {
    assert_same(rt, "room", &recording.places(step), &recording.room());
}

fn check_entries(rt: &impl Abort, recording: Recording) {
    assert_same(rt, "config", &recording.header().config, &PLAIN);
    let (header, entries) = recording.into_parts();
    check_parts(rt, &header, &entries);
}

fn check_parts(rt: &impl Abort, header: &Header, entries: &[Entry]) {
    assert_same(rt, "config", &header.config, &PLAIN);
    let late = Step::Call {
        core: 0,
        task: 2,
        call: Call::Delay(1),
    };
    assert_same(rt, "entries", &entries.len(), &4);
    let entry = Entry {
        core: 0,
        step: late,
        reply: Reply::Blocked,
    };
    assert!(rt; entries.get(2).copied() == Some(entry));
}

/// A header of A alone, which may run on both cores.
fn one_task(rt: &HostRuntime, config: Config) -> Result<Header, Fail> {
    Ok(header_of(rt.alloc(), config, &[("A", 1, 3)])?)
}

#[test]
fn an_idle_task_makes_no_call(rt: HostRuntime) -> Result<(), Fail> {
    check_idle(&rt, &mut recording_of_one(&rt)?);
    Ok(())
}

fn recording_of_one(rt: &HostRuntime) -> Result<Recording, Fail> {
    let header = one_task(rt, PLAIN)?;
    recording_of(rt, &header, 2)
}

fn check_idle(rt: &impl Abort, recording: &mut Recording) {
    let idle = call(rt, recording, 1, Call::Yield);
    assert_answer(rt, "idle", idle, Err(RecordRefusal::IdleHere));
    assert_same(rt, "entries", &recording.entries().len(), &0);
}

#[test]
fn a_bad_header_is_refused(rt: HostRuntime) -> Result<(), Fail> {
    let config = Config { cores: 1, ..PLAIN };
    let refused = is_bad_header(&rt, &one_task(&rt, config)?);
    assert!(&rt; refused);
    Ok(())
}

fn is_bad_header(rt: &HostRuntime, header: &Header) -> bool {
    let refused = Recording::new(rt.alloc(), Meter::new(rt), header, 2);
    matches!(refused, Err(StartFault::BadHeader))
}
