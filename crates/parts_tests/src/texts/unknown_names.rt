//! Names that no user task has: which one is told of a step, an edit or an action, and the name of
//! a user task that is nearest to it. The nearest names were counted by hand.

use crate::expected::expect_same;
use crate::texts::details::{text_of, word_of};
use session_text::{Detail, TextFault, read_bench, read_edit, read_rig, read_session};
use std::alloc::{AllocError, Global};
use std::process::Abort;
use std::test::Fail;

/// A session of the tasks `control`, `logger` and `net` with these steps.
fn session_of(alloc: Global, steps: &str) -> Result<String, AllocError> {
    format!(in alloc;
        "{{\"format\":1,\"cores\":2,\"priorities\":5,\"slicing\":false,\"tick\":0,\"mutexes\":0,\"tasks\":[{{\"name\":\"control\",\"priority\":2,\"mask\":3}},{{\"name\":\"logger\",\"priority\":1,\"mask\":3}},{{\"name\":\"net\",\"priority\":1,\"mask\":3}}],\"steps\":[{steps}]}}"
    )
}

/// The name, and the nearest one; none for a long name.
type Printed = (Option<&'static str>, Option<&'static str>);

fn check_printed(rt: &impl Abort, fault: Option<TextFault>, printed: &Printed) -> Result<(), Fail> {
    match fault.map(|fault| fault.detail) {
        Some(Detail::NoTask { name, nearest }) => {
            let (text, near) = *printed;
            expect_same(rt, &text_of(&name), &text);
            expect_same(rt, &word_of(&nearest), &near);
            Ok(())
        }
        _ => Err(Fail::from("a name is told")),
    }
}

/// Steps that name a task which is none.
const STEPS: &[(&str, Printed)] = &[
    (
        "{\"do\":\"yield\",\"core\":0,\"by\":\"contrl\"}",
        (Some("contrl"), Some("control")),
    ),
    (
        "{\"do\":\"preempt_off\",\"core\":0,\"by\":\"control\",\"to\":\"loger\"}",
        (Some("loger"), Some("logger")),
    ),
    (
        "{\"do\":\"isr_notify\",\"core\":0,\"to\":\"Logger\",\"action\":\"none\"}",
        (Some("Logger"), Some("logger")),
    ),
    // Of two such names that of `by` is told, in whatever order the members stand.
    (
        "{\"to\":\"loger\",\"by\":\"nit\",\"core\":0,\"do\":\"preempt_off\"}",
        (Some("nit"), Some("net")),
    ),
    // The last of a member that is twice there counts.
    (
        "{\"do\":\"yield\",\"core\":0,\"by\":\"control\",\"by\":\"control2\"}",
        (Some("control2"), Some("control")),
    ),
    // An idle task is no user task. From 5 characters to 7, 6 and 3 others.
    (
        "{\"do\":\"yield\",\"core\":0,\"by\":\"IDLE0\"}",
        (Some("IDLE0"), Some("net")),
    ),
    (
        "{\"do\":\"yield\",\"core\":0,\"by\":\"\"}",
        (Some(""), Some("net")),
    ),
    (
        "{\"do\":\"yield\",\"core\":0,\"by\":\"n\\u00e9t\"}",
        (Some("n??t"), Some("net")),
    ),
    // A name of 64 bytes, equally far from all tasks, and one of 65.
    (
        "{\"do\":\"yield\",\"core\":0,\"by\":\"aaaaaaaaaaaaaaaaaaaaaaaaaaaaaaaaaaaaaaaaaaaaaaaaaaaaaaaaaaaaaaaa\"}",
        (
            Some("aaaaaaaaaaaaaaaaaaaaaaaaaaaaaaaaaaaaaaaaaaaaaaaaaaaaaaaaaaaaaaaa"),
            Some("control"),
        ),
    ),
    (
        "{\"do\":\"yield\",\"core\":0,\"by\":\"aaaaaaaaaaaaaaaaaaaaaaaaaaaaaaaaaaaaaaaaaaaaaaaaaaaaaaaaaaaaaaaaa\"}",
        (None, None),
    ),
];

/// The step stands first in a session, and behind two others; both are told the same.
fn check_step(rt: &impl Abort, alloc: Global, step: &str, printed: &Printed) -> Result<(), Fail> {
    let first = session_of(alloc, step)?;
    check_printed(rt, read_session(alloc, first.as_bytes()).err(), printed)?;
    let steps = format!(in alloc;
        "{{\"do\":\"tick\"}},{{\"do\":\"yield\",\"core\":0,\"by\":\"net\"}},{step}"
    )?;
    let third = session_of(alloc, steps.as_str())?;
    check_printed(rt, read_session(alloc, third.as_bytes()).err(), printed)?;
    check_session_of_a_bench(rt, alloc, third.as_str(), printed)
}

fn check_session_of_a_bench(
    rt: &impl Abort,
    alloc: Global,
    session: &str,
    printed: &Printed,
) -> Result<(), Fail> {
    let bench = format!(in alloc; "{{\"session\":{session},\"edits\":[]}}")?;
    check_printed(rt, read_bench(alloc, bench.as_bytes()).err(), printed)
}

#[test]
fn names_in_steps(rt: HostRuntime) -> Result<(), Fail> {
    for (step, printed) in STEPS {
        check_step(&rt, rt.alloc(), step, printed)?;
    }
    Ok(())
}

/// Edits that name a task which is none.
const EDITS: &[(&str, Printed)] = &[
    (
        "{\"edit\":\"change\",\"task\":\"nets\",\"priority\":1,\"mask\":1}",
        (Some("nets"), Some("net")),
    ),
    (
        "{\"edit\":\"insert\",\"at\":0,\"step\":{\"do\":\"yield\",\"core\":0,\"by\":\"lager\"}}",
        (Some("lager"), Some("logger")),
    ),
    (
        "{\"edit\":\"replace\",\"at\":0,\"step\":{\"do\":\"preempt_on\",\"core\":0,\"by\":\"net\",\"to\":\"ctrl\"}}",
        (Some("ctrl"), Some("control")),
    ),
];

/// The edit stands behind another in a bench document, and by itself.
fn check_edit(rt: &impl Abort, alloc: Global, edit: &str, printed: &Printed) -> Result<(), Fail> {
    let session = session_of(alloc, "{\"do\":\"tick\"}")?;
    let bench = format!(in alloc;
        "{{\"session\":{session},\"edits\":[{{\"edit\":\"remove\",\"at\":0}},{edit}]}}"
    )?;
    check_printed(rt, read_bench(alloc, bench.as_bytes()).err(), printed)?;
    match read_session(alloc, session.as_bytes()) {
        Ok((header, _steps)) => {
            check_printed(
                rt,
                read_edit(alloc, edit.as_bytes(), &header).err(),
                printed,
            )
        }
        Err(_) => Err(Fail::from("the text is a session")),
    }
}

#[test]
fn names_in_edits(rt: HostRuntime) -> Result<(), Fail> {
    for (edit, printed) in EDITS {
        check_edit(&rt, rt.alloc(), edit, printed)?;
    }
    Ok(())
}

/// An action of the second core, behind another.
#[test]
fn names_in_actions(rt: HostRuntime) -> Result<(), Fail> {
    let alloc = rt.alloc();
    let session = session_of(alloc, "")?;
    for (action, printed) in [
        (
            "{\"do\":\"priority_set\",\"to\":\"logged\",\"priority\":1}",
            (Some("logged"), Some("logger")),
        ),
        (
            "{\"do\":\"isr_notify\",\"to\":\"nat\",\"action\":\"none\"}",
            (Some("nat"), Some("net")),
        ),
    ] {
        let rig = format!(in alloc;
            "{{\"session\":{session},\"limit\":10,\"scripts\":[[{{\"do\":\"tick\"}}],[{{\"do\":\"switch\"}},{action}]]}}"
        )?;
        check_printed(&rt, read_rig(alloc, rig.as_bytes()).err(), &printed)?;
    }
    Ok(())
}
