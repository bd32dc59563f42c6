//! Texts of the two formats: which has an index of a notification, and what is written. What is
//! expected was worked out by hand from the formats' description.
ghost use Rattle.std.specs.Prelude.{◌≡◌, Ok};
ghost use Rattle.bench_types.specs.Header.{header_check};

use crate::expected::expect_same;
use crate::texts::refused::{check_edit, check_fault, check_session};
use crate::texts::sessions::{session_of, with_notes, with_steps};
use crate::texts::values::check_steps;
use bench_types::{Call, Edit, Fault, Header, Note, NotifyAction, Step};
use session_text::{Why, read_bench, read_edit, read_rig};
use session_write::write_session;
use std::alloc::Global;
use std::process::Abort;
use std::test::Fail;

/// Steps of a session of two notifications a task, each as it may stand in a text and as it is
/// written.
const STEPS: &str = r#"
{"do":"isr_notify","core":1,"to":"A","action":"none","index":1} | {"action":"none","core":1,"do":"isr_notify","index":1,"to":"A"}
{"index":0,"do":"isr_notify","core":0,"to":"B","action":"set","value":7} | {"action":"set","core":0,"do":"isr_notify","index":0,"to":"B","value":7}
{"do":"isr_notify","core":0,"to":"B","action":"increment"} | {"action":"increment","core":0,"do":"isr_notify","index":0,"to":"B"}
{"do":"notify","core":0,"by":"A","to":"B","action":"set_bits","value":5,"index":1} | {"action":"set_bits","by":"A","core":0,"do":"notify","index":1,"to":"B","value":5}
{"do":"notify","core":1,"by":"B","to":"A","action":"increment"} | {"action":"increment","by":"B","core":1,"do":"notify","index":0,"to":"A"}
{"do":"notify_wait","core":1,"by":"B","entry":1,"exit":2,"ticks":3,"index":1} | {"by":"B","core":1,"do":"notify_wait","entry":1,"exit":2,"index":1,"ticks":3}
{"do":"notify_take","core":0,"by":"A","clear":true,"ticks":9,"index":1} | {"by":"A","clear":true,"core":0,"do":"notify_take","index":1,"ticks":9}
{"do":"state_clear","core":0,"by":"A","to":"B","index":1} | {"by":"A","core":0,"do":"state_clear","index":1,"to":"B"}
{"do":"value_clear","core":0,"by":"A","to":"B","bits":6,"index":1} | {"bits":6,"by":"A","core":0,"do":"value_clear","index":1,"to":"B"}
{"do":"yield","core":0,"by":"A"} | {"by":"A","core":0,"do":"yield"}
"#;

// The same steps.
const READ: &[Step] = &[
    Step::Interrupt {
        core: 1,
        note: Note {
            task: 2,
            action: NotifyAction::Nothing,
            index: 1,
        },
    },
    Step::Interrupt {
        core: 0,
        note: Note {
            task: 3,
            action: NotifyAction::Set(7),
            index: 0,
        },
    },
    Step::Interrupt {
        core: 0,
        note: Note {
            task: 3,
            action: NotifyAction::Increment,
            index: 0,
        },
    },
    Step::Call {
        core: 0,
        task: 2,
        call: Call::Notify(Note {
            task: 3,
            action: NotifyAction::SetBits(5),
            index: 1,
        }),
    },
    Step::Call {
        core: 1,
        task: 3,
        call: Call::Notify(Note {
            task: 2,
            action: NotifyAction::Increment,
            index: 0,
        }),
    },
    Step::Call {
        core: 1,
        task: 3,
        call: Call::NotifyWait {
            entry: 1,
            exit: 2,
            ticks: 3,
            index: 1,
        },
    },
    Step::Call {
        core: 0,
        task: 2,
        call: Call::NotifyTake {
            clear: true,
            ticks: 9,
            index: 1,
        },
    },
    Step::Call {
        core: 0,
        task: 2,
        call: Call::StateClear { task: 3, index: 1 },
    },
    Step::Call {
        core: 0,
        task: 2,
        call: Call::ValueClear {
            task: 3,
            bits: 6,
            index: 1,
        },
    },
    Step::Call {
        core: 0,
        task: 2,
        call: Call::Yield,
    },
];

fn check_line(rt: &impl Abort, alloc: Global, line: &str, step: Step) -> Result<(), Fail> {
    let (given, written) = line.split_once(" | ").ok_or("a row has two parts")?;
    let text = with_notes(alloc, 2, given)?;
    check_steps(rt, alloc, text.as_str(), &[step])?;
    check_written(rt, alloc, text.as_str(), written)
}

/// What is written for a session of two notifications a task, where this is written for its step.
fn check_written(rt: &impl Abort, alloc: Global, text: &str, written: &str) -> Result<(), Fail> {
    let want = format!(in alloc;
        "{{\"cores\":2,\"format\":2,\"mutexes\":0,\"notes\":2,\"priorities\":5,\"slicing\":false,\"steps\":[{written}],\"tasks\":[{{\"mask\":3,\"name\":\"A\",\"priority\":2}},{{\"mask\":3,\"name\":\"B\",\"priority\":1}}],\"tick\":0}}"
    )?;
    let (header, steps) = session_of(alloc, text)?;
    let text = write_session(alloc, &header, steps.as_slice())?;
    assert_eq!(rt; text.as_slice(), want.as_str().as_bytes(), "{written}");
    Ok(())
}

#[test]
fn steps_with_an_index(rt: HostRuntime) -> Result<(), Fail> {
    assert_eq!(&rt; STEPS.trim().lines().count(), READ.len());
    for (line, step) in STEPS.trim().lines().zip(READ) {
        check_line(&rt, rt.alloc(), line, *step)?;
    }
    Ok(())
}

/// Sessions that are refused, and why and where.
const REFUSED: &[(&str, Why, &str)] = &[
    // A wrong format hides the other faults.
    ("{\"format\":4,\"cores\":\"2\"}", Why::BadShape, "format"),
    ("{\"format\":0}", Why::BadShape, "format"),
    ("{\"format\":2.0}", Why::BadShape, "format"),
    (
        "{\"format\":1,\"cores\":2,\"priorities\":5,\"slicing\":false,\"tick\":0,\"mutexes\":0,\"notes\":1,\"tasks\":[],\"steps\":[]}",
        Why::BadShape,
        "top",
    ),
    (
        "{\"format\":2,\"cores\":2,\"priorities\":5,\"slicing\":false,\"tick\":0,\"mutexes\":0,\"tasks\":7,\"steps\":[]}",
        Why::BadShape,
        "notes",
    ),
    (
        "{\"format\":2,\"cores\":2,\"priorities\":5,\"slicing\":false,\"tick\":0,\"mutexes\":null,\"notes\":null,\"tasks\":[],\"steps\":[]}",
        Why::BadShape,
        "mutexes",
    ),
];

#[test]
fn sessions_that_are_refused(rt: HostRuntime) -> Result<(), Fail> {
    for (text, why, path) in REFUSED {
        check_session(&rt, rt.alloc(), text.as_bytes(), *why, path);
    }
    Ok(())
}

/// A number of notifications, the steps of a session of so many, and why and where it is refused.
const REFUSED_STEPS: &[(u32, &str, Why, &str)] = &[
    (0, "", Why::Bench(Fault::BadHeader), ""),
    (9, "", Why::Bench(Fault::BadHeader), ""),
    (
        2,
        "{\"do\":\"isr_notify\",\"core\":0,\"to\":\"A\",\"action\":\"none\",\"index\":2}",
        Why::Bench(Fault::BadArgument),
        "steps[0]",
    ),
    (
        1,
        "{\"do\":\"tick\"},{\"do\":\"state_clear\",\"core\":0,\"by\":\"A\",\"to\":\"A\",\"index\":1}",
        Why::Bench(Fault::BadArgument),
        "steps[1]",
    ),
    (
        2,
        "{\"do\":\"notify\",\"core\":0,\"by\":\"A\",\"to\":\"C\",\"action\":\"none\",\"index\":2}",
        Why::Bench(Fault::BadTask),
        "steps[0]",
    ),
    // A null is of another type, and not left out.
    (
        2,
        "{\"do\":\"notify_take\",\"core\":0,\"by\":\"A\",\"clear\":true,\"ticks\":0,\"index\":null}",
        Why::BadShape,
        "steps[0].index",
    ),
    // The index comes after the other members, and before the unknown ones.
    (
        2,
        "{\"do\":\"notify_wait\",\"core\":0,\"by\":\"A\",\"entry\":0,\"exit\":0,\"index\":null}",
        Why::BadShape,
        "steps[0].ticks",
    ),
    (
        2,
        "{\"do\":\"isr_notify\",\"core\":0,\"to\":\"A\",\"action\":\"increment\",\"value\":1,\"index\":-1}",
        Why::BadShape,
        "steps[0].index",
    ),
    (
        2,
        "{\"do\":\"isr_notify\",\"core\":0,\"to\":\"A\",\"action\":\"increment\",\"value\":1,\"index\":1}",
        Why::BadShape,
        "steps[0]",
    ),
    // A call that is for no notification.
    (
        2,
        "{\"do\":\"preempt_off\",\"core\":0,\"by\":\"A\",\"to\":\"A\",\"index\":0}",
        Why::BadShape,
        "steps[0]",
    ),
];

fn check_noted(rt: &impl Abort, alloc: Global, row: &(u32, &str, Why, &str)) -> Result<(), Fail> {
    let (notes, steps, why, path) = *row;
    let text = with_notes(alloc, notes, steps)?;
    check_session(rt, alloc, text.as_bytes(), why, path);
    Ok(())
}

#[test]
fn steps_that_are_refused(rt: HostRuntime) -> Result<(), Fail> {
    for row in REFUSED_STEPS {
        check_noted(&rt, rt.alloc(), row)?;
    }
    Ok(())
}

/// Each kind of step that is for a notification, with its index.
const INDEXED: &[&str] = &[
    "{\"do\":\"isr_notify\",\"core\":0,\"to\":\"A\",\"action\":\"none\",\"index\":0}",
    "{\"do\":\"notify\",\"core\":0,\"by\":\"A\",\"to\":\"A\",\"action\":\"set\",\"value\":1,\"index\":0}",
    "{\"do\":\"notify_wait\",\"core\":0,\"by\":\"A\",\"entry\":0,\"exit\":0,\"ticks\":0,\"index\":0}",
    "{\"do\":\"notify_take\",\"core\":0,\"by\":\"A\",\"clear\":true,\"ticks\":0,\"index\":0}",
    "{\"do\":\"state_clear\",\"core\":0,\"by\":\"A\",\"to\":\"A\",\"index\":0}",
    "{\"do\":\"value_clear\",\"core\":0,\"by\":\"A\",\"to\":\"A\",\"bits\":0,\"index\":0}",
];

/// In format 1 the index is unknown, in steps and in edits.
fn check_unknown(rt: &impl Abort, alloc: Global, step: &str) -> Result<(), Fail> {
    let text = with_steps(alloc, 0, step)?;
    check_session(rt, alloc, text.as_bytes(), Why::BadShape, "steps[0]");
    let session = with_steps(alloc, 0, "")?;
    let bench = format!(in alloc;
        "{{\"session\":{session},\"edits\":[{{\"edit\":\"insert\",\"at\":0,\"step\":{step}}}]}}"
    )?;
    let fault = read_bench(alloc, bench.as_bytes()).err();
    check_fault(rt, fault.as_ref(), Why::BadShape, "edits[0].step");
    Ok(())
}

#[test]
fn an_index_in_format_1(rt: HostRuntime) -> Result<(), Fail> {
    for step in INDEXED {
        check_unknown(&rt, rt.alloc(), step)?;
    }
    Ok(())
}

/// A rig document of this session, whose first core makes this action.
fn check_rig(
    rt: &impl Abort,
    alloc: Global,
    session: &str,
    want: Option<(Why, &str)>,
) -> Result<(), Fail> {
    let text = format!(in alloc;
        "{{\"session\":{session},\"limit\":5,\"scripts\":[[{{\"do\":\"state_clear\",\"to\":\"A\",\"index\":1}}],[]]}}"
    )?;
    let fault = read_rig(alloc, text.as_bytes()).err();
    let printed = fault.as_ref().map(|fault| (fault.why, fault.path.as_str()));
    assert_eq!(rt; printed, want, "{session}");
    Ok(())
}

#[test]
fn an_index_in_scripts(rt: HostRuntime) -> Result<(), Fail> {
    let first = with_steps(rt.alloc(), 0, "")?;
    let unknown = (Why::BadShape, "scripts[0][0]");
    check_rig(&rt, rt.alloc(), first.as_str(), Some(unknown))?;
    let one = with_notes(rt.alloc(), 1, "")?;
    let too_large = (Why::Bench(Fault::BadArgument), "scripts[0][0]");
    check_rig(&rt, rt.alloc(), one.as_str(), Some(too_large))?;
    let two = with_notes(rt.alloc(), 2, "")?;
    check_rig(&rt, rt.alloc(), two.as_str(), None)
}

/// An edit with an index, which is read in any case.
const EDIT: &str =
    "{\"edit\":\"insert\",\"at\":0,\"step\":{\"do\":\"state_clear\",\"core\":0,\"by\":\"A\",\"to\":\"B\",\"index\":1}}";

fn check_edit_of_one(rt: &impl Abort, alloc: Global, header: &Header)
    requires { header_check header.now ≡ Ok tt }
{
    let too_large = Why::Bench(Fault::BadArgument);
    check_edit(rt, alloc, EDIT, header, too_large, "top");
}

fn check_edit_of_two(rt: &impl Abort, alloc: Global, header: &Header)
    requires { header_check header.now ≡ Ok tt }
{
    let edit = Edit::Insert {
        at: 0,
        step: Step::Call {
            core: 0,
            task: 2,
            call: Call::StateClear { task: 3, index: 1 },
        },
    };
    let read = read_edit(alloc, EDIT.as_bytes(), header).ok();
    expect_same(rt, &read, &Some(edit));
}

#[test]
fn edits_with_an_index(rt: HostRuntime) -> Result<(), Fail> {
    let text = with_steps(rt.alloc(), 0, "")?;
    let (one, _) = session_of(rt.alloc(), text.as_str())?;
    check_edit_of_one(&rt, rt.alloc(), &one);
    let text = with_notes(rt.alloc(), 2, "")?;
    let (two, _) = session_of(rt.alloc(), text.as_str())?;
    check_edit_of_two(&rt, rt.alloc(), &two);
    Ok(())
}

/// One notification a task is written in format 1, whatever the format that was read.
#[test]
fn one_notification_in_format_2(rt: HostRuntime) -> Result<(), Fail> {
    let step = "{\"do\":\"state_clear\",\"core\":0,\"by\":\"A\",\"to\":\"B\",\"index\":0}";
    let text = with_notes(rt.alloc(), 1, step)?;
    let (header, steps) = session_of(rt.alloc(), text.as_str())?;
    let written = write_session(rt.alloc(), &header, steps.as_slice())?;
    let want =
        "{\"cores\":2,\"format\":1,\"mutexes\":0,\"priorities\":5,\"slicing\":false,\"steps\":[{\"by\":\"A\",\"core\":0,\"do\":\"state_clear\",\"to\":\"B\"}],\"tasks\":[{\"mask\":3,\"name\":\"A\",\"priority\":2},{\"mask\":3,\"name\":\"B\",\"priority\":1}],\"tick\":0}";
    assert_eq!(&rt; written.as_slice(), want.as_bytes());
    Ok(())
}
