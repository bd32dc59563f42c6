//! Steps that suspend and resume tasks, as texts: how they are read and written in format 3, and
//! that they are unknown in formats 1 and 2. What is expected was worked out by hand from the
//! formats' description.
ghost use Rattle.std.specs.Prelude.{◌≡◌, Ok};
ghost use Rattle.bench_types.specs.Header.{header_check};

use crate::expected::expect_same;
use crate::texts::queue_steps::{check_line, check_refused_rig, check_unknown, rig_of};
use crate::texts::refused::{check_edit, check_session};
use crate::texts::sessions::{header_with, session_of, with_notes, with_two_queues};
use bench_types::{Call, CoreAction, Edit, Fault, Header, Step, StepFlaw};
use session_text::{RigScript, Why, read_edit, read_rig};
use std::alloc::Global;
use std::process::Abort;
use std::test::Fail;

/// Steps, each as it may stand in a text and as it is written.
const STEPS: &str = r#"
{"do":"suspend","core":0,"by":"A","to":"A"} | {"by":"A","core":0,"do":"suspend","to":"A"}
{"to":"B","by":"A","core":1,"do":"suspend"} | {"by":"A","core":1,"do":"suspend","to":"B"}
{"do":"resume","core":1,"by":"B","to":"A"} | {"by":"B","core":1,"do":"resume","to":"A"}
{"to":"A","do":"resume","by":"A","core":0} | {"by":"A","core":0,"do":"resume","to":"A"}
{"do":"isr_resume","core":1,"to":"B"} | {"core":1,"do":"isr_resume","to":"B"}
{"to":"A","core":0,"do":"isr_resume"} | {"core":0,"do":"isr_resume","to":"A"}
"#;

// The same steps.
const READ: &[Step] = &[
    Step::Call {
        core: 0,
        task: 2,
        call: Call::Suspend(2),
    },
    Step::Call {
        core: 1,
        task: 2,
        call: Call::Suspend(3),
    },
    Step::Call {
        core: 1,
        task: 3,
        call: Call::Resume(2),
    },
    Step::Call {
        core: 0,
        task: 2,
        call: Call::Resume(2),
    },
    Step::ResumeInterrupt { core: 1, task: 3 },
    Step::ResumeInterrupt { core: 0, task: 2 },
];

#[test]
fn steps_of_format_3(rt: HostRuntime) -> Result<(), Fail> {
    assert_eq!(&rt; STEPS.trim().lines().count(), READ.len());
    for (line, step) in STEPS.trim().lines().zip(READ) {
        check_line(&rt, rt.alloc(), line, *step)?;
    }
    Ok(())
}

/// Steps of a session of two queues, and why and where it is refused.
const REFUSED: &[(&str, Why, &str)] = &[
    (
        "{\"do\":\"suspend\",\"core\":0,\"by\":\"A\",\"to\":\"C\"}",
        Why::Bench(Fault::BadTask),
        "steps[0]",
    ),
    (
        "{\"do\":\"tick\"},{\"do\":\"isr_resume\",\"core\":1,\"to\":\"IDLE0\"}",
        Why::Bench(Fault::BadTask),
        "steps[1]",
    ),
    (
        "{\"do\":\"isr_resume\",\"core\":2,\"to\":\"C\"}",
        Why::Bench(Fault::BadCore),
        "steps[0]",
    ),
    (
        "{\"do\":\"resume\",\"core\":0,\"by\":\"A\"}",
        Why::BadShape,
        "steps[0].to",
    ),
    (
        "{\"do\":\"isr_resume\",\"core\":null,\"to\":null}",
        Why::BadShape,
        "steps[0].core",
    ),
    (
        "{\"do\":\"isr_resume\",\"core\":0,\"to\":2}",
        Why::BadShape,
        "steps[0].to",
    ),
    (
        "{\"do\":\"isr_resume\",\"core\":0,\"by\":\"A\",\"to\":\"A\"}",
        Why::BadShape,
        "steps[0]",
    ),
    (
        "{\"do\":\"suspend\",\"core\":0,\"by\":\"A\",\"to\":\"A\",\"ticks\":0}",
        Why::BadShape,
        "steps[0]",
    ),
    ("{\"do\":\"isr_suspend\"}", Why::BadShape, "steps[0].do"),
];

fn check_refused(rt: &impl Abort, alloc: Global, row: &(&str, Why, &str)) -> Result<(), Fail> {
    let (steps, why, path) = *row;
    let text = with_two_queues(alloc, steps)?;
    check_session(rt, alloc, text.as_bytes(), why, path);
    Ok(())
}

#[test]
fn steps_that_are_refused(rt: HostRuntime) -> Result<(), Fail> {
    for row in REFUSED {
        check_refused(&rt, rt.alloc(), row)?;
    }
    Ok(())
}

#[test]
fn steps_of_formats_1_and_2(rt: HostRuntime) -> Result<(), Fail> {
    for line in STEPS.trim().lines() {
        let (step, _) = line.split_once(" | ").ok_or("a row has two parts")?;
        check_unknown(&rt, rt.alloc(), step)?;
    }
    Ok(())
}

/// An edit that brings a step of format 3.
const EDIT: &str =
    "{\"edit\":\"replace\",\"at\":1,\"step\":{\"do\":\"suspend\",\"core\":1,\"by\":\"B\",\"to\":\"A\"}}";

fn check_edit_without_queues(rt: &impl Abort, alloc: Global, header: &Header)
    requires { header_check header.now ≡ Ok tt }
{
    check_edit(rt, alloc, EDIT, header, Why::BadShape, "step.do");
}

fn check_edit_of_queues(rt: &impl Abort, alloc: Global, header: &Header)
    requires { header_check header.now ≡ Ok tt }
{
    let edit = Edit::Replace {
        at: 1,
        step: Step::Call {
            core: 1,
            task: 3,
            call: Call::Suspend(2),
        },
    };
    let read = read_edit(alloc, EDIT.as_bytes(), header).ok();
    expect_same(rt, &read, &Some(edit));
}

#[test]
fn edits_that_stand_alone(rt: HostRuntime) -> Result<(), Fail> {
    let alloc = rt.alloc();
    check_edit_without_queues(&rt, alloc, &header_with(alloc, 0)?);
    let session = with_two_queues(alloc, "")?;
    let (header, _) = session_of(alloc, session.as_str())?;
    check_edit_of_queues(&rt, alloc, &header);
    Ok(())
}

fn check_flaws(rt: &impl Abort, header: &Header, steps: &[Step], want: Option<StepFlaw>) {
    for step in steps {
        expect_same(rt, &step.flaw(header), &want);
    }
}

// A header that says nothing of queues is one of format 1 or 2.
#[test]
fn steps_of_headers_without_queues(rt: HostRuntime) -> Result<(), Fail> {
    let alloc = rt.alloc();
    let header = header_with(alloc, 0)?;
    check_flaws(&rt, &header, READ, Some(StepFlaw::Suspending));
    let session = with_two_queues(alloc, "")?;
    let (header, _) = session_of(alloc, session.as_str())?;
    check_flaws(&rt, &header, READ, None);
    Ok(())
}

/// Actions of a script, and what they are.
const ACTIONS: &str =
    "{\"do\":\"suspend\",\"to\":\"A\"},{\"to\":\"B\",\"do\":\"resume\"},{\"do\":\"isr_resume\",\"to\":\"A\"}";

const CORE_ACTIONS: &[CoreAction] = &[
    CoreAction::Call(Call::Suspend(2)),
    CoreAction::Call(Call::Resume(3)),
    CoreAction::ResumeInterrupt { task: 2 },
];

fn check_scripts(rt: &impl Abort, rig: &RigScript) {
    let scripts = rig.scripts.as_slice();
    assert_eq!(rt; scripts.len(), 2);
    expect_same(rt, &scripts[0].as_slice(), &CORE_ACTIONS);
}

#[test]
fn actions_of_scripts(rt: HostRuntime) -> Result<(), Fail> {
    let session = with_two_queues(rt.alloc(), "")?;
    let text = rig_of(rt.alloc(), session.as_str(), ACTIONS)?;
    match read_rig(rt.alloc(), text.as_bytes()) {
        Ok(rig) => check_scripts(&rt, &rig),
        Err(_) => return Err(Fail::from("the text is a rig")),
    }
    Ok(())
}

#[test]
fn actions_that_are_refused(rt: HostRuntime) -> Result<(), Fail> {
    let alloc = rt.alloc();
    let third = with_two_queues(alloc, "")?;
    let none = "{\"do\":\"isr_resume\",\"to\":\"C\"}";
    let bad_task = Why::Bench(Fault::BadTask);
    check_refused_rig(&rt, alloc, third.as_str(), none, bad_task, "scripts[0][0]")?;
    let more = "{\"do\":\"suspend\",\"to\":\"A\",\"by\":\"A\"}";
    check_refused_rig(
        &rt,
        alloc,
        third.as_str(),
        more,
        Why::BadShape,
        "scripts[0][0]",
    )?;
    let second = with_notes(alloc, 2, "")?;
    check_refused_rig(
        &rt,
        alloc,
        second.as_str(),
        ACTIONS,
        Why::BadShape,
        "scripts[0][0].do",
    )
}
