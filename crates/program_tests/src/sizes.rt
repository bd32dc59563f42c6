//! Trials of more edits than small examples have: the whole of what is written, against lines that
//! are made here.
use crate::devices::{expect, expect_same};
use bench_commands::carry_out;
use program_io::{Counted, Ending};
use std::alloc::{AllocError, Global};
use std::process::Abort;
use std::sync::Wait;
use std::test::Fail;
use std::thread::Threads;

/// More than two hundred.
const EDITS: u32 = 250;

/// The members of a header: A runs on core 0 and B on core 1, and C waits.
const HEADER: &str = r#""format":1,"cores":2,"priorities":5,"slicing":false,"tick":0,"mutexes":0,
"tasks":[{"name":"A","priority":2,"mask":3},{"name":"B","priority":1,"mask":3},
{"name":"C","priority":1,"mask":3}]"#;

const TICK: &str = r#"{"do":"tick"}"#;

/// A session of so many ticks.
fn session_of(alloc: Global, ticks: u32) -> Result<String, AllocError> {
    let mut text = format!(in alloc; "{{{HEADER},\"steps\":[{TICK}")?;
    for _ in 1..ticks {
        write!(text, ",{TICK}")?;
    }
    text.push_str("]}")?;
    Ok(text)
}

/// A bench document of a session and edits.
fn document_of(alloc: Global, session: &str, edits: &str) -> Result<String, AllocError> {
    format!(in alloc; "{{\"session\":{session},\"edits\":[{edits}]}}")
}

/// So many edits of a session of one tick: in turn it is removed, a tick is put after it, and one
/// where there is no place.
fn edits_of(alloc: Global, edits: u32) -> Result<String, AllocError> {
    let mut text = String::new(alloc);
    for index in 0..edits {
        if index > 0 {
            text.push_str(",")?;
        }
        push_edit(&mut text, index)?;
    }
    Ok(text)
}

fn push_edit(text: &mut String, index: u32) -> Result<(), AllocError> {
    match index % 3 {
        0 => text.push_str(r#"{"edit":"remove","at":0}"#),
        1 => write!(text, r#"{{"edit":"insert","at":1,"step":{TICK}}}"#),
        _ => write!(text, r#"{{"edit":"insert","at":3,"step":{TICK}}}"#),
    }
}

/// The lines of these trials.
fn trial_lines(alloc: Global, edits: u32) -> Result<String, AllocError> {
    let mut text = String::new(alloc);
    for index in 0..edits {
        push_trial(&mut text, index)?;
    }
    Ok(text)
}

fn push_trial(text: &mut String, index: u32) -> Result<(), AllocError> {
    match index % 3 {
        0 => {
            write!(text, "edit {index} from 0 met 0 replayed 0\n")?;
            push_fares(text, 0)
        }
        1 => {
            write!(text, "edit {index} from 0 met 2 replayed 2\n")?;
            push_fares(text, 2)
        }
        _ => write!(text, "edit {index} refused J1\n"),
    }
}

/// How each task fares over so many ticks.
fn push_fares(text: &mut String, ticks: u32) -> Result<(), AllocError> {
    let rest = "inverted 0 in 0 displaced 0 timeouts 0 top";
    write!(text, "task IDLE0 run 0 0 wait {ticks} {rest} 0\n")?;
    write!(text, "task IDLE1 run 0 0 wait {ticks} {rest} 0\n")?;
    write!(text, "task A run {ticks} 0 wait 0 {rest} 2\n")?;
    write!(text, "task B run 0 {ticks} wait 0 {rest} 1\n")?;
    write!(text, "task C run 0 0 wait {ticks} {rest} 1\n")
}

/// A session of one tick, and so many edits.
fn tried_document(alloc: Global, edits: u32) -> Result<String, AllocError> {
    let session = session_of(alloc, 1)?;
    let edits = edits_of(alloc, edits)?;
    document_of(alloc, &session, &edits)
}

#[test]
fn trials_of_many_edits(rt: HostRuntime) -> Result<(), Fail> {
    let document = tried_document(rt.alloc(), EDITS)?;
    let lines = trial_lines(rt.alloc(), EDITS)?;
    check_trials(&rt, &rt, &document, &lines);
    Ok(())
}

/// What the program writes of trials.
fn check_trials<R: Threads + Wait + Abort + Sync>(
    rt: &R,
    host: &HostRuntime,
    document: &str,
    wanted: &str,
) {
    let mut written = Vec::new(host.alloc());
    let ending = tried(rt, host, document, &mut written);
    expect_same(rt, "status", ending.code(), 0);
    expect_same(rt, "bytes", written.len(), wanted.len());
    expect(
        rt,
        "the whole text",
        written.as_slice() == wanted.as_bytes(),
    );
}

fn tried<R: Threads + Wait + Sync>(
    rt: &R,
    host: &HostRuntime,
    document: &str,
    written: &mut Vec<u8>,
) -> Ending {
    let mut reader = Counted::new(document.as_bytes());
    let mut writer = Counted::new(written);
    let words: Option<&[&str]> = Some(&["smp_bench", "whatif"]);
    carry_out(rt, host, host.alloc(), words, &mut reader, &mut writer)
}
