//! Steps that are for queues, as texts: how they are read and written in format 3, and that they
//! are unknown in formats 1 and 2. What is expected was worked out by hand from the formats'
//! description.
ghost use Rattle.std.specs.Prelude.{◌≡◌, Ok};
ghost use Rattle.bench_types.specs.Header.{header_check};

use crate::expected::expect_same;
use crate::texts::refused::{check_edit, check_fault, check_session};
use crate::texts::sessions::{header_with, session_of, with_notes, with_steps, with_two_queues};
use crate::texts::values::check_steps;
use bench_types::{Call, CoreAction, Direction, Edit, Fault, Header, Step};
use session_text::{RigScript, Why, read_bench, read_edit, read_rig};
use session_write::write_session;
use std::alloc::Global;
use std::process::Abort;
use std::test::Fail;

/// Steps, each as it may stand in a text and as it is written.
const STEPS: &str = r#"
{"do":"queue_send","core":0,"by":"A","queue":1,"ticks":5} | {"by":"A","core":0,"do":"queue_send","queue":1,"ticks":5}
{"ticks":4294967295,"queue":0,"by":"B","core":1,"do":"queue_send"} | {"by":"B","core":1,"do":"queue_send","queue":0,"ticks":4294967295}
{"do":"queue_receive","core":1,"by":"B","queue":0,"ticks":0} | {"by":"B","core":1,"do":"queue_receive","queue":0,"ticks":0}
{"queue":1,"by":"A","core":0,"ticks":7,"do":"queue_receive"} | {"by":"A","core":0,"do":"queue_receive","queue":1,"ticks":7}
{"do":"isr_send","core":1,"queue":0} | {"core":1,"do":"isr_send","queue":0}
{"queue":1,"core":0,"do":"isr_receive"} | {"core":0,"do":"isr_receive","queue":1}
"#;

// The same steps.
const READ: &[Step] = &[
    Step::Call {
        core: 0,
        task: 2,
        call: Call::QueueSend { queue: 1, ticks: 5 },
    },
    Step::Call {
        core: 1,
        task: 3,
        call: Call::QueueSend {
            queue: 0,
            ticks: 4_294_967_295,
        },
    },
    Step::Call {
        core: 1,
        task: 3,
        call: Call::QueueReceive { queue: 0, ticks: 0 },
    },
    Step::Call {
        core: 0,
        task: 2,
        call: Call::QueueReceive { queue: 1, ticks: 7 },
    },
    Step::QueueInterrupt {
        core: 1,
        queue: 0,
        direction: Direction::Send,
    },
    Step::QueueInterrupt {
        core: 0,
        queue: 1,
        direction: Direction::Receive,
    },
];

/// What is written for a session of two queues, where this is written for its step.
fn check_written(rt: &impl Abort, alloc: Global, text: &str, written: &str) -> Result<(), Fail> {
    let want = format!(in alloc;
        "{{\"cores\":2,\"format\":3,\"mutexes\":0,\"notes\":1,\"priorities\":5,\"queues\":[{{\"length\":2,\"messages\":1}},{{\"length\":1,\"messages\":0}}],\"slicing\":false,\"steps\":[{written}],\"tasks\":[{{\"mask\":3,\"name\":\"A\",\"priority\":2}},{{\"mask\":3,\"name\":\"B\",\"priority\":1}}],\"tick\":0}}"
    )?;
    let (header, steps) = session_of(alloc, text)?;
    let text = write_session(alloc, &header, steps.as_slice())?;
    assert_eq!(rt; text.as_slice(), want.as_str().as_bytes(), "{written}");
    Ok(())
}

/// The line's first text is read as the step in a session of two queues, which is then written as
/// its second.
pub fn check_line(rt: &impl Abort, alloc: Global, line: &str, step: Step) -> Result<(), Fail> {
    let (given, written) = line.split_once(" | ").ok_or("a row has two parts")?;
    let text = with_two_queues(alloc, given)?;
    check_steps(rt, alloc, text.as_str(), &[step])?;
    check_written(rt, alloc, text.as_str(), written)
}

#[test]
fn steps_of_format_3(rt: HostRuntime) -> Result<(), Fail> {
    assert_eq!(&rt; STEPS.trim().lines().count(), READ.len());
    for (line, step) in STEPS.trim().lines().zip(READ) {
        check_line(&rt, rt.alloc(), line, *step)?;
    }
    Ok(())
}

/// Steps of a session of two queues, and why and where it is refused.
const REFUSED: &[(&str, Why, &str)] = &[
    (
        "{\"do\":\"queue_send\",\"core\":0,\"by\":\"A\",\"queue\":2,\"ticks\":0}",
        Why::Bench(Fault::BadMutex),
        "steps[0]",
    ),
    (
        "{\"do\":\"tick\"},{\"do\":\"isr_receive\",\"core\":1,\"queue\":2}",
        Why::Bench(Fault::BadMutex),
        "steps[1]",
    ),
    (
        "{\"do\":\"isr_send\",\"core\":2,\"queue\":2}",
        Why::Bench(Fault::BadCore),
        "steps[0]",
    ),
    (
        "{\"do\":\"queue_receive\",\"core\":0,\"by\":\"C\",\"queue\":2,\"ticks\":0}",
        Why::Bench(Fault::BadTask),
        "steps[0]",
    ),
    (
        "{\"do\":\"queue_send\",\"core\":0,\"by\":\"A\",\"ticks\":null}",
        Why::BadShape,
        "steps[0].queue",
    ),
    (
        "{\"do\":\"queue_receive\",\"core\":0,\"by\":\"A\",\"queue\":0}",
        Why::BadShape,
        "steps[0].ticks",
    ),
    (
        "{\"do\":\"isr_send\",\"core\":null,\"queue\":null}",
        Why::BadShape,
        "steps[0].core",
    ),
    (
        "{\"do\":\"isr_receive\",\"core\":0,\"queue\":0,\"ticks\":0}",
        Why::BadShape,
        "steps[0]",
    ),
    (
        "{\"do\":\"isr_send\",\"core\":0,\"by\":\"A\",\"queue\":0}",
        Why::BadShape,
        "steps[0]",
    ),
    (
        "{\"do\":\"queue_send\",\"core\":0,\"by\":\"A\",\"queue\":0,\"ticks\":0,\"index\":0}",
        Why::BadShape,
        "steps[0]",
    ),
    ("{\"do\":\"queue\"}", Why::BadShape, "steps[0].do"),
];

fn check_refused(rt: &impl Abort, alloc: Global, row: &(&str, Why, &str)) -> Result<(), Fail> {
    let (steps, why, path) = *row;
    let text = with_two_queues(alloc, steps)?;
    check_session(rt, alloc, text.as_bytes(), why, path);
    Ok(())
}

#[test]
fn steps_that_are_refused(rt: HostRuntime) -> Result<(), Fail> {
    for row in REFUSED {
        check_refused(&rt, rt.alloc(), row)?;
    }
    Ok(())
}

/// In formats 1 and 2 the step is unknown.
pub fn check_unknown(rt: &impl Abort, alloc: Global, step: &str) -> Result<(), Fail> {
    let first = with_steps(alloc, 0, step)?;
    check_session(rt, alloc, first.as_bytes(), Why::BadShape, "steps[0].do");
    let second = with_notes(alloc, 2, step)?;
    check_session(rt, alloc, second.as_bytes(), Why::BadShape, "steps[0].do");
    let session = with_notes(alloc, 2, "")?;
    let bench = format!(in alloc;
        "{{\"session\":{session},\"edits\":[{{\"edit\":\"insert\",\"at\":0,\"step\":{step}}}]}}"
    )?;
    let fault = read_bench(alloc, bench.as_bytes()).err();
    check_fault(rt, fault.as_ref(), Why::BadShape, "edits[0].step.do");
    Ok(())
}

#[test]
fn steps_of_formats_1_and_2(rt: HostRuntime) -> Result<(), Fail> {
    for line in STEPS.trim().lines() {
        let (step, _) = line.split_once(" | ").ok_or("a row has two parts")?;
        check_unknown(&rt, rt.alloc(), step)?;
    }
    Ok(())
}

/// An edit that brings a step of format 3.
const EDIT: &str =
    "{\"edit\":\"insert\",\"at\":3,\"step\":{\"do\":\"isr_send\",\"core\":1,\"queue\":1}}";

fn check_edit_without_queues(rt: &impl Abort, alloc: Global, header: &Header)
    requires { header_check header.now ≡ Ok tt }
{
    check_edit(rt, alloc, EDIT, header, Why::BadShape, "step.do");
}

fn check_edit_of_queues(rt: &impl Abort, alloc: Global, header: &Header)
    requires { header_check header.now ≡ Ok tt }
{
    let edit = Edit::Insert {
        at: 3,
        step: Step::QueueInterrupt {
            core: 1,
            queue: 1,
            direction: Direction::Send,
        },
    };
    let read = read_edit(alloc, EDIT.as_bytes(), header).ok();
    expect_same(rt, &read, &Some(edit));
}

#[test]
fn edits_that_stand_alone(rt: HostRuntime) -> Result<(), Fail> {
    let alloc = rt.alloc();
    check_edit_without_queues(&rt, alloc, &header_with(alloc, 0)?);
    let session = with_two_queues(alloc, "")?;
    let (header, _) = session_of(alloc, session.as_str())?;
    check_edit_of_queues(&rt, alloc, &header);
    Ok(())
}

/// Actions of a script, and what they are.
const ACTIONS: &str =
    "{\"do\":\"queue_send\",\"queue\":0,\"ticks\":5},{\"ticks\":0,\"queue\":1,\"do\":\"queue_receive\"},{\"do\":\"isr_send\",\"queue\":0},{\"queue\":1,\"do\":\"isr_receive\"}";

const CORE_ACTIONS: &[CoreAction] = &[
    CoreAction::Call(Call::QueueSend { queue: 0, ticks: 5 }),
    CoreAction::Call(Call::QueueReceive { queue: 1, ticks: 0 }),
    CoreAction::QueueInterrupt {
        queue: 0,
        direction: Direction::Send,
    },
    CoreAction::QueueInterrupt {
        queue: 1,
        direction: Direction::Receive,
    },
];

fn check_scripts(rt: &impl Abort, rig: &RigScript) {
    let scripts = rig.scripts.as_slice();
    assert_eq!(rt; scripts.len(), 2);
    expect_same(rt, &scripts[0].as_slice(), &CORE_ACTIONS);
}

/// The document of a rig with this session, whose first core makes these actions.
pub fn rig_of(alloc: Global, session: &str, actions: &str) -> Result<String, Fail> {
    Ok(format!(in alloc; "{{\"session\":{session},\"limit\":5,\"scripts\":[[{actions}],[]]}}")?)
}

#[test]
fn actions_of_scripts(rt: HostRuntime) -> Result<(), Fail> {
    let session = with_two_queues(rt.alloc(), "")?;
    let text = rig_of(rt.alloc(), session.as_str(), ACTIONS)?;
    match read_rig(rt.alloc(), text.as_bytes()) {
        Ok(rig) => check_scripts(&rt, &rig),
        Err(_) => return Err(Fail::from("the text is a rig")),
    }
    Ok(())
}

/// The rig with this session, whose first core makes these actions, is refused for this, at this
/// path.
pub fn check_refused_rig(
    rt: &impl Abort,
    alloc: Global,
    session: &str,
    actions: &str,
    why: Why,
    path: &str,
) -> Result<(), Fail> {
    let text = rig_of(alloc, session, actions)?;
    let fault = read_rig(alloc, text.as_bytes()).err();
    check_fault(rt, fault.as_ref(), why, path);
    Ok(())
}

#[test]
fn actions_that_are_refused(rt: HostRuntime) -> Result<(), Fail> {
    let alloc = rt.alloc();
    let third = with_two_queues(alloc, "")?;
    let none = "{\"do\":\"isr_send\",\"queue\":2}";
    let bad_queue = Why::Bench(Fault::BadMutex);
    check_refused_rig(&rt, alloc, third.as_str(), none, bad_queue, "scripts[0][0]")?;
    let more = "{\"do\":\"isr_send\",\"queue\":0,\"core\":0}";
    check_refused_rig(
        &rt,
        alloc,
        third.as_str(),
        more,
        Why::BadShape,
        "scripts[0][0]",
    )?;
    let second = with_notes(alloc, 2, "")?;
    check_refused_rig(
        &rt,
        alloc,
        second.as_str(),
        ACTIONS,
        Why::BadShape,
        "scripts[0][0].do",
    )
}
