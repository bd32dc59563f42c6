//! What errors say in words.

use crate::expected::expect_text;
use crate::texts::sessions::with_steps;
use bench_types::{EditFault, Fault};
use json_data::Refused;
use session_text::{Detail, Path, TextFault, Why, read_session};
use std::alloc::Global;
use std::fmt::Display;
use std::process::Abort;
use std::test::Fail;

/// The error says this.
fn says(rt: &impl Abort, alloc: Global, error: &impl Display, words: &str) -> Result<(), Fail> {
    let said = format!(in alloc; "{error}")?;
    expect_text(rt, said.as_str(), words);
    Ok(())
}

/// Each of the errors says its words.
fn each_says<T: Display>(rt: &impl Abort, alloc: Global, errors: &[(T, &str)]) -> Result<(), Fail> {
    for (error, words) in errors {
        says(rt, alloc, error, words)?;
    }
    Ok(())
}

const BAD_HEADER: &str = "a number of the header is outside its limits, or a name is repeated";

const NO_CORE: &str = "there is no such core";

const FAULTS: [(Fault, &str); 5] = [
    (Fault::BadHeader, BAD_HEADER),
    (Fault::BadCore, NO_CORE),
    (Fault::BadTask, "there is no such user task"),
    (Fault::BadMutex, "there is no such mutex"),
    (Fault::BadArgument, "an argument is outside its limits"),
];

const EDIT_FAULTS: [(EditFault, &str); 3] = [
    (EditFault::Bench(Fault::BadCore), NO_CORE),
    (EditFault::NoPlace, "the session has no such place"),
    (EditFault::TooLong, "the session would have too many steps"),
];

#[test]
fn what_faults_say(rt: HostRuntime) -> Result<(), Fail> {
    each_says(&rt, rt.alloc(), &FAULTS)?;
    each_says(&rt, rt.alloc(), &EDIT_FAULTS)
}

const DOCUMENTS: [(Refused, &str); 2] = [
    (Refused::NotJson, "no JSON"),
    (Refused::NoMemory, "out of memory"),
];

const WHYS: [(Why, &str); 4] = [
    (Why::NotJson, "the text is no JSON"),
    (
        Why::BadShape,
        "a member is missing, of another type or unknown",
    ),
    (Why::Bench(Fault::BadCore), NO_CORE),
    (Why::NoMemory, "out of memory"),
];

#[test]
fn what_refused_texts_say(rt: HostRuntime) -> Result<(), Fail> {
    each_says(&rt, rt.alloc(), &DOCUMENTS)?;
    each_says(&rt, rt.alloc(), &WHYS)
}

/// Texts of the second step, and what is said of the session.
const STEPS: [(&str, &str); 3] = [
    (
        "{\"do\":\"switch\"}",
        "steps[1].core: a member is missing, of another type or unknown",
    ),
    (
        "{\"do\":\"switch\",\"core\":2}",
        "steps[1]: there is no such core",
    ),
    ("{", "the text is no JSON"),
];

#[test]
fn what_refused_sessions_say(rt: HostRuntime) -> Result<(), Fail> {
    for (step, words) in &STEPS {
        session_says(&rt, rt.alloc(), step, words)?;
    }
    let no_memory = TextFault {
        why: Why::NoMemory,
        path: Path::empty(),
        detail: Detail::None,
    };
    says(&rt, rt.alloc(), &no_memory, "out of memory")
}

/// A session of a tick and that step is refused with these words.
fn session_says(rt: &impl Abort, alloc: Global, step: &str, words: &str) -> Result<(), Fail> {
    let steps = format!(in alloc; "{{\"do\":\"tick\"}},{step}")?;
    let text = with_steps(alloc, 0, steps.as_str())?;
    match read_session(alloc, text.as_bytes()) {
        Ok(_) => Err(Fail::from("the text is a session")),
        Err(fault) => says(rt, alloc, &fault, words),
    }
}
