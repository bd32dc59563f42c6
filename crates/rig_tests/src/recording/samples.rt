//! Recordings of tests, and calls of them.

use crate::checks::assert_same;
use bench_samples::three_tasks;
use bench_types::{Call, CoreAction, Header, Note, Reply, Step};
use recordings::{Answer, RecordRefusal, Recording};
use smp_kernel::Meter;
use std::process::Abort;
use std::test::Fail;

/// A recording of A (of priority 2), B and C (of priority 1) on two cores, which are tasks 2, 3 and
/// 4. A begins on core 0 and B on core 1.
pub fn recording(rt: &HostRuntime, limit: u32) -> Result<Recording, Fail> {
    recording_of(rt, &three_tasks(rt.alloc(), false)?, limit)
}

/// A recording of the tasks of the header.
pub fn recording_of(rt: &HostRuntime, header: &Header, limit: u32) -> Result<Recording, Fail> {
    Ok(Recording::new(rt.alloc(), Meter::new(rt), header, limit)?)
}

/// A call of the core, which no hold of the other one keeps out.
pub fn call(
    rt: &impl Abort,
    recording: &mut Recording,
    core: u32,
    call: Call,
) -> Result<Answer, RecordRefusal> {
    assert!(rt; core < recording.settings().cores);
    let Ok(()) = call.check(recording.header()) else {
        panic!(rt; "the call is at fault");
    };
    let step = Step::Call {
        core,
        task: 0,
        call,
    };
    assert!(rt; !recording.is_kept_out(&step));
    recording.call(core, call)
}

/// An interrupt of the core, whose handler notifies a user task.
pub fn interrupt(
    rt: &impl Abort,
    recording: &mut Recording,
    core: u32,
    note: Note,
) -> Result<Answer, RecordRefusal> {
    let settings = recording.settings();
    assert!(rt; core < settings.cores);
    assert!(rt; settings.cores <= note.task && note.task < settings.tasks);
    assert!(rt; note.index < settings.notes);
    let Ok(()) = CoreAction::Interrupt(note).check(core, recording.header()) else {
        panic!(rt; "the interrupt is at fault");
    };
    recording.interrupt(core, note)
}

/// A switch of the core, while no hold is open.
pub fn switch(
    rt: &impl Abort,
    recording: &mut Recording,
    core: u32,
) -> Result<Answer, RecordRefusal> {
    assert!(rt; core < recording.settings().cores);
    assert!(rt; !recording.is_kept_out(&Step::Switch { core }));
    recording.switch(core)
}

/// The current task of the core.
pub fn running(rt: &impl Abort, recording: &Recording, core: u32) -> u32 {
    assert!(rt; core < recording.settings().cores);
    recording.running(core)
}

/// What is answered to a step at the place.
pub fn at(place: u32, reply: Reply) -> Result<Answer, RecordRefusal> {
    Ok(Answer { place, reply })
}

/// The step is answered so.
pub fn assert_answer(
    rt: &impl Abort,
    what: &str,
    given: Result<Answer, RecordRefusal>,
    wanted: Result<Answer, RecordRefusal>,
) {
    assert_same(rt, what, &given, &wanted);
}
