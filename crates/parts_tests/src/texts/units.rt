//! Time within ticks, as texts: the units of a tick, and steps by which time goes by. They are read
//! and written in format 3, and unknown in formats 1 and 2. What is expected was worked out by hand
//! from the formats' description.
ghost use Rattle.std.specs.Prelude.{◌≡◌, Ok};
ghost use Rattle.bench_types.specs.Header.{header_check};

use crate::expected::expect_same;
use crate::texts::queue_steps::{check_refused_rig, check_unknown, rig_of};
use crate::texts::refused::{check_edit, check_fault, check_session};
use crate::texts::sessions::{session_of, with_further, with_notes, with_steps, with_two_queues};
use crate::texts::values::check_steps;
use bench_types::{Edit, Fault, Header, HeaderFlaw, Step};
use session_text::{Detail, Why, read_edit, read_rig};
use session_write::write_session;
use std::alloc::{AllocError, Global};
use std::process::Abort;
use std::test::Fail;

/// A session of format 3 of no queues, of so many units a tick, and of these steps.
fn with_units(alloc: Global, units: u32, steps: &str) -> Result<String, AllocError> {
    let further = format!(in alloc; "\"queues\":[],\"units\":{units}")?;
    with_further(alloc, 3, further.as_str(), steps)
}

// ---- the units of a tick

/// What stands for them in a session of format 3, how many they are, and how they are written.
const UNITS: &[(&str, u32, &str)] = &[
    ("\"queues\":[]", 1, ""),
    ("\"queues\":[],\"units\":1", 1, ""),
    ("\"units\":2,\"queues\":[]", 2, ",\"units\":2"),
    (
        "\"queues\":[],\"units\":1000000",
        1_000_000,
        ",\"units\":1000000",
    ),
];

fn check_written(
    rt: &impl Abort,
    alloc: Global,
    text: &str,
    steps: &str,
    units: &str,
) -> Result<(), Fail> {
    let want = format!(in alloc;
        "{{\"cores\":2,\"format\":3,\"mutexes\":0,\"notes\":1,\"priorities\":5,\"queues\":[],\"slicing\":false,\"steps\":[{steps}],\"tasks\":[{{\"mask\":3,\"name\":\"A\",\"priority\":2}},{{\"mask\":3,\"name\":\"B\",\"priority\":1}}],\"tick\":0{units}}}"
    )?;
    let (header, steps) = session_of(alloc, text)?;
    let text = write_session(alloc, &header, steps.as_slice())?;
    assert_eq!(rt; text.as_slice(), want.as_str().as_bytes());
    Ok(())
}

fn check_units(rt: &impl Abort, alloc: Global, row: &(&str, u32, &str)) -> Result<(), Fail> {
    let (further, units, written) = *row;
    let text = with_further(alloc, 3, further, "")?;
    let (header, _) = session_of(alloc, text.as_str())?;
    assert_eq!(rt; header.config.units, units);
    check_written(rt, alloc, text.as_str(), "", written)
}

#[test]
fn units_of_ticks(rt: HostRuntime) -> Result<(), Fail> {
    for row in UNITS {
        check_units(&rt, rt.alloc(), row)?;
    }
    Ok(())
}

/// Members of a session of a format beside those of format 1, and why and where it is refused.
const REFUSED: &[(u32, &str, Why, &str)] = &[
    (
        3,
        "\"queues\":[],\"units\":0",
        Why::Bench(Fault::BadHeader),
        "",
    ),
    (
        3,
        "\"queues\":[],\"units\":1000001",
        Why::Bench(Fault::BadHeader),
        "",
    ),
    (3, "\"queues\":[],\"units\":null", Why::BadShape, "units"),
    (3, "\"queues\":[],\"units\":\"1\"", Why::BadShape, "units"),
    (3, "\"queues\":7,\"units\":7.5", Why::BadShape, "queues"),
    (2, "\"units\":1", Why::BadShape, "top"),
    (2, "\"units\":2", Why::BadShape, "top"),
];

fn check_refused(rt: &impl Abort, alloc: Global, row: &(u32, &str, Why, &str)) -> Result<(), Fail> {
    let (format, further, why, path) = *row;
    let text = with_further(alloc, format, further, "")?;
    check_session(rt, alloc, text.as_bytes(), why, path);
    Ok(())
}

#[test]
fn units_that_are_refused(rt: HostRuntime) -> Result<(), Fail> {
    for row in REFUSED {
        check_refused(&rt, rt.alloc(), row)?;
    }
    Ok(())
}

// The units come before the number of tasks, whose own fault is found at a missing member first.
#[test]
fn units_that_come_first(rt: HostRuntime) -> Result<(), Fail> {
    let text =
        b"{\"format\":3,\"cores\":2,\"priorities\":5,\"slicing\":false,\"tick\":0,\"mutexes\":0,\"notes\":1,\"queues\":[],\"units\":[]}";
    check_session(&rt, rt.alloc(), text, Why::BadShape, "units");
    let none =
        b"{\"format\":3,\"cores\":2,\"priorities\":5,\"slicing\":false,\"tick\":0,\"mutexes\":0,\"notes\":1,\"queues\":[]}";
    check_session(&rt, rt.alloc(), none, Why::BadShape, "tasks");
    Ok(())
}

/// The session of one unit that the text is has as many units as these, and this is its first flaw.
fn check_flaw(
    rt: &impl Abort,
    alloc: Global,
    text: &str,
    units: u32,
    want: Option<HeaderFlaw>,
) -> Result<(), Fail> {
    let (mut header, _) = session_of(alloc, text)?;
    header.config.units = units;
    expect_same(rt, &header.flaw(), &want);
    Ok(())
}

// A header that says nothing of queues is one of format 1 or 2.
#[test]
fn units_of_headers(rt: HostRuntime) -> Result<(), Fail> {
    let alloc = rt.alloc();
    let second = with_notes(alloc, 2, "")?;
    check_flaw(&rt, alloc, second.as_str(), 1, None)?;
    check_flaw(&rt, alloc, second.as_str(), 2, Some(HeaderFlaw::Units(2)))?;
    let third = with_two_queues(alloc, "")?;
    check_flaw(&rt, alloc, third.as_str(), 2, None)?;
    check_flaw(&rt, alloc, third.as_str(), 0, Some(HeaderFlaw::Units(0)))
}

// ---- steps by which time goes by

/// Steps, each as it may stand in a text and as it is written.
const STEPS: &str = r#"
{"do":"pass","units":1} | {"do":"pass","units":1}
{"units":4294967295,"do":"pass"} | {"do":"pass","units":4294967295}
"#;

// The same steps.
const READ: &[Step] = &[
    Step::Pass { units: 1 },
    Step::Pass {
        units: 4_294_967_295,
    },
];

fn check_line(rt: &impl Abort, alloc: Global, line: &str, step: Step) -> Result<(), Fail> {
    let (given, written) = line.split_once(" | ").ok_or("a row has two parts")?;
    let text = with_units(alloc, 1000, given)?;
    check_steps(rt, alloc, text.as_str(), &[step])?;
    check_written(rt, alloc, text.as_str(), written, ",\"units\":1000")
}

#[test]
fn steps_of_format_3(rt: HostRuntime) -> Result<(), Fail> {
    assert_eq!(&rt; STEPS.trim().lines().count(), READ.len());
    for (line, step) in STEPS.trim().lines().zip(READ) {
        check_line(&rt, rt.alloc(), line, *step)?;
    }
    Ok(())
}

/// How many units a tick has, steps of such a session, and why and where it is refused.
const REFUSED_STEPS: &[(u32, &str, Why, &str)] = &[
    (
        2,
        "{\"do\":\"pass\",\"units\":0}",
        Why::Bench(Fault::BadArgument),
        "steps[0]",
    ),
    (
        1,
        "{\"do\":\"tick\"},{\"do\":\"pass\",\"units\":1}",
        Why::Bench(Fault::BadArgument),
        "steps[1]",
    ),
    (2, "{\"do\":\"pass\"}", Why::BadShape, "steps[0].units"),
    (
        2,
        "{\"do\":\"pass\",\"units\":4294967296}",
        Why::BadShape,
        "steps[0].units",
    ),
    (
        2,
        "{\"do\":\"pass\",\"units\":1,\"core\":0}",
        Why::BadShape,
        "steps[0]",
    ),
    (
        2,
        "{\"do\":\"pass\",\"units\":1,\"by\":\"A\"}",
        Why::BadShape,
        "steps[0]",
    ),
];

fn check_refused_step(
    rt: &impl Abort,
    alloc: Global,
    row: &(u32, &str, Why, &str),
) -> Result<(), Fail> {
    let (units, steps, why, path) = *row;
    let text = with_units(alloc, units, steps)?;
    check_session(rt, alloc, text.as_bytes(), why, path);
    Ok(())
}

#[test]
fn steps_that_are_refused(rt: HostRuntime) -> Result<(), Fail> {
    for row in REFUSED_STEPS {
        check_refused_step(&rt, rt.alloc(), row)?;
    }
    Ok(())
}

#[test]
fn steps_of_formats_1_and_2(rt: HostRuntime) -> Result<(), Fail> {
    for line in STEPS.trim().lines() {
        let (step, _) = line.split_once(" | ").ok_or("a row has two parts")?;
        check_unknown(&rt, rt.alloc(), step)?;
    }
    Ok(())
}

/// An edit by which time goes by.
const EDIT: &str = "{\"edit\":\"insert\",\"at\":0,\"step\":{\"do\":\"pass\",\"units\":7}}";

fn check_good_edit(rt: &impl Abort, alloc: Global, header: &Header)
    requires { header_check header.now ≡ Ok tt }
{
    let edit = Edit::Insert {
        at: 0,
        step: Step::Pass { units: 7 },
    };
    let read = read_edit(alloc, EDIT.as_bytes(), header).ok();
    expect_same(rt, &read, &Some(edit));
}

fn check_bad_edit(rt: &impl Abort, alloc: Global, header: &Header, why: Why, path: &str)
    requires { header_check header.now ≡ Ok tt }
{
    check_edit(rt, alloc, EDIT, header, why, path);
}

#[test]
fn edits_that_stand_alone(rt: HostRuntime) -> Result<(), Fail> {
    let alloc = rt.alloc();
    let timed = with_units(alloc, 10, "")?;
    let (header, _) = session_of(alloc, timed.as_str())?;
    check_good_edit(&rt, alloc, &header);
    let third = with_two_queues(alloc, "")?;
    let (header, _) = session_of(alloc, third.as_str())?;
    let bad = Why::Bench(Fault::BadArgument);
    check_bad_edit(&rt, alloc, &header, bad, "top");
    let first = with_steps(alloc, 0, "")?;
    let (header, _) = session_of(alloc, first.as_str())?;
    check_bad_edit(&rt, alloc, &header, Why::BadShape, "step.do");
    Ok(())
}

// ---- rigs

/// The units of a rig's session, if there are too many.
fn units_told(detail: &Detail) -> Option<u32> {
    match detail {
        Detail::Header {
            flaw: HeaderFlaw::Units(units),
            ..
        } => Some(*units),
        _ => None,
    }
}

#[test]
fn units_of_rigs(rt: HostRuntime) -> Result<(), Fail> {
    let alloc = rt.alloc();
    let one = with_units(alloc, 1, "")?;
    let text = rig_of(alloc, one.as_str(), "{\"do\":\"tick\"}")?;
    assert!(&rt; read_rig(alloc, text.as_bytes()).is_ok());
    let two = with_units(alloc, 2, "")?;
    let text = rig_of(alloc, two.as_str(), "{\"do\":\"tick\"}")?;
    let fault = read_rig(alloc, text.as_bytes()).err();
    check_fault(&rt, fault.as_ref(), Why::Bench(Fault::BadHeader), "");
    let told = fault.as_ref().and_then(|fault| units_told(&fault.detail));
    assert_eq!(&rt; told, Some(2));
    Ok(())
}

// No time goes by in a script: the word is unknown there, whatever the units of a tick are.
#[test]
fn scripts_have_no_time(rt: HostRuntime) -> Result<(), Fail> {
    let pass = "{\"do\":\"pass\",\"units\":1}";
    let one = with_units(rt.alloc(), 1, "")?;
    let path = "scripts[0][0].do";
    check_refused_rig(&rt, rt.alloc(), one.as_str(), pass, Why::BadShape, path)?;
    let two = with_units(rt.alloc(), 2, "")?;
    check_refused_rig(&rt, rt.alloc(), two.as_str(), pass, Why::BadShape, path)
}
