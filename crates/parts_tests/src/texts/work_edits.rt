//! Edits of work, which format 3 has: how texts write them, and what is told of those that are
//! refused. The nearest words were counted by hand.

use crate::expected::{expect_is, expect_same, expect_text};
use crate::texts::details::{Printed, check_stray};
use crate::texts::refused::check_fault;
use crate::texts::sessions::{SESSION, with_notes, with_steps, with_two_queues};
use bench_types::{Edit, Fault, Step};
use kept_edits::{KeptEdit, WorkChange};
use session_text::{Bench, Detail, TextFault, Why, read_bench, read_kept_bench_noted};
use std::alloc::{AllocError, Global};
use std::process::Abort;
use std::test::Fail;

/// A bench document of a session and these edits.
fn with_edits(alloc: Global, session: &str, edits: &str) -> Result<String, AllocError> {
    format!(in alloc; "{{\"session\":{session},\"edits\":[{edits}]}}")
}

/// Edits of a session of format 3.
const EDITS: &str = "{\"edit\":\"work\",\"at\":7,\"by\":300},\
    {\"edit\":\"insert\",\"at\":2,\"step\":{\"do\":\"tick\"}},\
    {\"less\":4294967295,\"at\":0,\"edit\":\"work\"}";

const MORE: KeptEdit = KeptEdit::Work {
    at: 7,
    change: WorkChange::More(300),
};

const READ: &[KeptEdit] = &[
    MORE,
    KeptEdit::Plain(Edit::Insert {
        at: 2,
        step: Step::Tick,
    }),
    KeptEdit::Work {
        at: 0,
        change: WorkChange::Fewer(4294967295),
    },
];

fn check_edits(rt: &impl Abort, bench: &Bench<KeptEdit>, wanted: &[KeptEdit]) {
    expect_same(rt, &bench.edits.as_slice(), &wanted);
}

#[test]
fn edits_of_work(rt: HostRuntime) -> Result<(), Fail> {
    let alloc = rt.alloc();
    let session = with_two_queues(alloc, "{\"do\":\"tick\"}")?;
    let text = with_edits(alloc, session.as_str(), EDITS)?;
    match read_kept_bench_noted(alloc, text.as_bytes()) {
        Ok(noted) => {
            check_edits(&rt, &noted.document, READ);
            expect_same(&rt, noted.document.steps.as_slice().len(), 1);
            expect_is(&rt, noted.doubled.is_none());
        }
        Err(_) => return Err(Fail::from("the text is a bench document")),
    }
    Ok(())
}

/// The last of a member that stands twice counts, and the member is told.
#[test]
fn a_member_that_stands_twice(rt: HostRuntime) -> Result<(), Fail> {
    let alloc = rt.alloc();
    let session = with_two_queues(alloc, "")?;
    let edit = "{\"edit\":\"work\",\"at\":7,\"by\":1,\"by\":300}";
    let text = with_edits(alloc, session.as_str(), edit)?;
    match read_kept_bench_noted(alloc, text.as_bytes()) {
        Ok(noted) => {
            check_edits(&rt, &noted.document, &[MORE]);
            match &noted.doubled {
                Some(member) => expect_text(&rt, member.name.as_str(), "by"),
                None => expect_is(&rt, false),
            }
        }
        Err(_) => return Err(Fail::from("the text is a bench document")),
    }
    Ok(())
}

/// A session alone has no edits.
#[test]
fn a_session_alone(rt: HostRuntime) -> Result<(), Fail> {
    match read_kept_bench_noted(rt.alloc(), SESSION.as_bytes()) {
        Ok(noted) => {
            expect_same(&rt, noted.document.edits.as_slice().len(), 0);
            expect_same(&rt, noted.document.steps.as_slice().len(), 5);
        }
        Err(_) => return Err(Fail::from("the text is a session")),
    }
    Ok(())
}

/// Edits that are refused behind another, and why and where each is.
const REFUSED: &[(&str, Why, &str)] = &[
    ("{\"edit\":\"work\",\"at\":7}", Why::BadShape, "edits[1].by"),
    (
        "{\"edit\":\"work\",\"at\":7,\"by\":1,\"less\":1}",
        Why::BadShape,
        "edits[1]",
    ),
    ("{\"edit\":\"work\",\"by\":1}", Why::BadShape, "edits[1].at"),
    (
        "{\"edit\":\"work\",\"at\":7,\"by\":4294967296}",
        Why::BadShape,
        "edits[1].by",
    ),
    (
        "{\"edit\":\"work\",\"at\":7,\"less\":-1}",
        Why::BadShape,
        "edits[1].less",
    ),
    (
        "{\"edit\":\"work\",\"at\":7,\"less\":1,\"step\":{\"do\":\"tick\"}}",
        Why::BadShape,
        "edits[1]",
    ),
    (
        "{\"edit\":\"remove\",\"at\":7,\"by\":1}",
        Why::BadShape,
        "edits[1]",
    ),
    (
        "{\"edit\":\"insert\",\"at\":0,\"step\":{\"do\":\"switch\",\"core\":2}}",
        Why::Bench(Fault::BadCore),
        "edits[1]",
    ),
];

fn check_refused(
    rt: &impl Abort,
    alloc: Global,
    edit: &str,
    why: Why,
    path: &str,
) -> Result<(), Fail> {
    let session = with_two_queues(alloc, "")?;
    let edits = format!(in alloc; "{{\"edit\":\"work\",\"at\":0,\"by\":1}},{edit}")?;
    let text = with_edits(alloc, session.as_str(), edits.as_str())?;
    let fault = read_kept_bench_noted(alloc, text.as_bytes()).err();
    check_fault(rt, fault.as_ref(), why, path);
    Ok(())
}

#[test]
fn edits_that_are_refused(rt: HostRuntime) -> Result<(), Fail> {
    for (edit, why, path) in REFUSED {
        check_refused(&rt, rt.alloc(), edit, *why, path)?;
    }
    Ok(())
}

/// What is told of a word where there are edits of work, and where there are none.
const WORKS: Printed = (
    Some("works"),
    Some("work"),
    "insert, remove, replace, change, work",
);

const NO_WORK: Printed = (
    Some("work"),
    Some("insert"),
    "insert, remove, replace, change",
);

fn check_word(rt: &impl Abort, fault: Option<TextFault>, printed: &Printed) -> Result<(), Fail> {
    match fault.map(|fault| fault.detail) {
        Some(Detail::NoWord(stray)) => {
            check_stray(rt, &stray, printed);
            Ok(())
        }
        _ => Err(Fail::from("the text is no word")),
    }
}

/// The session with an edit of this word, read with edits of work.
fn check_kept(
    rt: &impl Abort,
    alloc: Global,
    session: &str,
    word: &str,
    printed: &Printed,
) -> Result<(), Fail> {
    let edit = format!(in alloc; "{{\"edit\":\"{word}\",\"at\":0,\"by\":1}}")?;
    let text = with_edits(alloc, session, edit.as_str())?;
    check_word(
        rt,
        read_kept_bench_noted(alloc, text.as_bytes()).err(),
        printed,
    )
}

#[test]
fn words_of_each_format(rt: HostRuntime) -> Result<(), Fail> {
    let alloc = rt.alloc();
    let first = with_steps(alloc, 0, "")?;
    check_kept(&rt, alloc, first.as_str(), "work", &NO_WORK)?;
    let second = with_notes(alloc, 1, "")?;
    check_kept(&rt, alloc, second.as_str(), "work", &NO_WORK)?;
    let third = with_two_queues(alloc, "")?;
    check_kept(&rt, alloc, third.as_str(), "works", &WORKS)
}

/// Read without edits of work, no format knows the word.
#[test]
fn word_of_no_plain_edit(rt: HostRuntime) -> Result<(), Fail> {
    let alloc = rt.alloc();
    let session = with_two_queues(alloc, "")?;
    let edit = "{\"edit\":\"work\",\"at\":7,\"by\":300}";
    let text = with_edits(alloc, session.as_str(), edit)?;
    check_word(&rt, read_bench(alloc, text.as_bytes()).err(), &NO_WORK)
}
