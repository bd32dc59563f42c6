//! What texts are read as.
ghost use Rattle.std.specs.Prelude.{◌≡◌, Ok};
ghost use Rattle.bench_types.specs.Header.{header_check};

use crate::texts::answers::check_task;
use crate::texts::sessions::{SESSION, header_with, session_of, with_steps};
use crate::texts::{holds, mutexes, notes, sets};
use bench_types::{Call, Config, Edit, Header, Step};
use session_text::{Bench, read_bench, read_edit};
use std::alloc::Global;
use std::process::Abort;
use std::test::Fail;

/// Steps that a session has, each with its members in two orders.
pub struct Orders {
    /// How many mutexes the session has.
    pub mutexes: u32,
    /// On each line the texts of a step.
    pub rows: &'static str,
    pub steps: &'static [Step],
}

/// An edit of a session.
pub struct Edited {
    /// How many mutexes the session has.
    pub mutexes: u32,
    pub text: &'static str,
    pub edit: Edit,
}

/// A bench document of the session, with an edit of each kind.
const BENCH: &str =
    "{\"session\":{\"format\":1,\"cores\":2,\"priorities\":5,\"slicing\":false,\"tick\":0,\"mutexes\":0,\"tasks\":[{\"name\":\"A\",\"priority\":2,\"mask\":3},{\"name\":\"B\",\"priority\":1,\"mask\":3}],\"steps\":[{\"do\":\"tick\"},{\"do\":\"switch\",\"core\":1},{\"do\":\"yield\",\"core\":0,\"by\":\"A\"},{\"do\":\"delay\",\"core\":0,\"by\":\"A\",\"ticks\":7},{\"do\":\"finish\",\"core\":1,\"by\":\"B\"}]},\"edits\":[{\"edit\":\"replace\",\"at\":0,\"step\":{\"do\":\"yield\",\"core\":0,\"by\":\"A\"}},{\"edit\":\"insert\",\"at\":5,\"step\":{\"do\":\"delay\",\"core\":1,\"by\":\"B\",\"ticks\":3}},{\"edit\":\"remove\",\"at\":2},{\"edit\":\"change\",\"task\":\"B\",\"priority\":3,\"mask\":1}]}";

const CONFIG: Config = Config {
    cores: 2,
    priorities: 5,
    slicing: false,
    tick: 0,
    mutexes: 0,
    notes: 1,
    units: 1,
};

// Each task's name, priority and mask.
const TASKS: &[(&str, u32, u32)] = &[("A", 2, 3), ("B", 1, 3)];

// The steps of the session.
const SESSION_STEPS: &[Step] = &[
    Step::Tick,
    Step::Switch { core: 1 },
    Step::Call {
        core: 0,
        task: 2,
        call: Call::Yield,
    },
    Step::Call {
        core: 0,
        task: 2,
        call: Call::Delay(7),
    },
    Step::Call {
        core: 1,
        task: 3,
        call: Call::Finish,
    },
];

// The edits of the bench document.
const BENCH_EDITS: &[Edit] = &[
    Edit::Replace {
        at: 0,
        step: Step::Call {
            core: 0,
            task: 2,
            call: Call::Yield,
        },
    },
    Edit::Insert {
        at: 5,
        step: Step::Call {
            core: 1,
            task: 3,
            call: Call::Delay(3),
        },
    },
    Edit::Remove { at: 2 },
    Edit::ChangeTask {
        task: 3,
        priority: 3,
        mask: 1,
    },
];

const REPLACED_BY_A_YIELD: Edited = Edited {
    mutexes: 0,
    text: "{\"edit\":\"replace\",\"at\":0,\"step\":{\"do\":\"yield\",\"core\":0,\"by\":\"A\"}}",
    edit: Edit::Replace {
        at: 0,
        step: Step::Call {
            core: 0,
            task: 2,
            call: Call::Yield,
        },
    },
};

const EDITS: &[&Edited] = &[
    &REPLACED_BY_A_YIELD,
    &sets::EDITED,
    &notes::EDITED,
    &mutexes::EDITED,
    &holds::EDITED,
];

/// The text is a session of these steps.
pub fn check_steps(rt: &impl Abort, alloc: Global, text: &str, steps: &[Step]) -> Result<(), Fail> {
    let (_, read) = session_of(alloc, text)?;
    assert_eq!(rt; read.as_slice(), steps, "{text}");
    Ok(())
}

fn check_given(
    rt: &impl Abort,
    alloc: Global,
    mutexes: u32,
    given: &str,
    step: Step,
) -> Result<(), Fail> {
    let text = with_steps(alloc, mutexes, given)?;
    check_steps(rt, alloc, text.as_str(), &[step])
}

fn check_order(
    rt: &impl Abort,
    alloc: Global,
    mutexes: u32,
    line: &str,
    step: Step,
) -> Result<(), Fail> {
    let (one, other) = line.split_once(" | ").ok_or("a row has two orders")?;
    check_given(rt, alloc, mutexes, one, step)?;
    check_given(rt, alloc, mutexes, other, step)
}

fn check_orders(rt: &impl Abort, alloc: Global, orders: &Orders) -> Result<(), Fail> {
    assert_eq!(rt; orders.rows.trim().lines().count(), orders.steps.len());
    for (line, step) in orders.rows.trim().lines().zip(orders.steps) {
        check_order(rt, alloc, orders.mutexes, line, *step)?;
    }
    Ok(())
}

const ORDERS: &[&Orders] = &[&notes::ORDERS, &mutexes::ORDERS, &holds::ORDERS];

fn check_sessions(rt: &impl Abort, alloc: Global) -> Result<(), Fail> {
    for text in sets::SESSIONS {
        check_steps(rt, alloc, text, sets::SESSION_STEPS)?;
    }
    check_steps(rt, alloc, SESSION, SESSION_STEPS)
}

#[test]
fn steps(rt: HostRuntime) -> Result<(), Fail> {
    for orders in ORDERS {
        check_orders(&rt, rt.alloc(), orders)?;
    }
    check_sessions(&rt, rt.alloc())
}

/// Read under this header, the text is this edit.
fn check_edit(rt: &impl Abort, alloc: Global, edited: &Edited, header: &Header)
    requires { header_check header.now ≡ Ok tt }
{
    let read = read_edit(alloc, edited.text.as_bytes(), header).ok();
    assert_eq!(rt; read, Some(edited.edit), "{}", edited.text);
}

fn check_edited(rt: &impl Abort, alloc: Global, edited: &Edited) -> Result<(), Fail> {
    let header = header_with(alloc, edited.mutexes)?;
    check_edit(rt, alloc, edited, &header);
    Ok(())
}

#[test]
fn edits(rt: HostRuntime) -> Result<(), Fail> {
    for edited in EDITS {
        check_edited(&rt, rt.alloc(), edited)?;
    }
    Ok(())
}

fn check_header(rt: &impl Abort, header: &Header) {
    assert_eq!(rt; header.config, CONFIG);
    assert_eq!(rt; header.tasks.as_slice().len(), TASKS.len());
    for (task, (name, priority, mask)) in header.tasks.as_slice().iter().zip(TASKS) {
        check_task(rt, task, name, *priority, *mask);
    }
}

#[test]
fn header(rt: HostRuntime) -> Result<(), Fail> {
    let (header, _) = session_of(rt.alloc(), SESSION)?;
    check_header(&rt, &header);
    Ok(())
}

/// The document is of that session, with these edits.
fn check_bench(rt: &impl Abort, bench: &Bench, edits: &[Edit]) {
    assert_eq!(rt; bench.edits.as_slice(), edits);
    assert_eq!(rt; bench.steps.as_slice(), SESSION_STEPS);
    check_header(rt, &bench.header);
}

fn check_document(rt: &impl Abort, alloc: Global, text: &str, edits: &[Edit]) -> Result<(), Fail> {
    match read_bench(alloc, text.as_bytes()) {
        Ok(bench) => check_bench(rt, &bench, edits),
        Err(_) => return Err(Fail::from("the text is a bench document")),
    }
    Ok(())
}

#[test]
fn benches(rt: HostRuntime) -> Result<(), Fail> {
    check_document(&rt, rt.alloc(), BENCH, BENCH_EDITS)?;
    check_document(&rt, rt.alloc(), SESSION, &[])
}
