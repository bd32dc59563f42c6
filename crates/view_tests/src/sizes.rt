//! Views of more steps than small examples have: the whole of what is written, against lines that
//! are made here.
use crate::devices::{expect, expect_same};
use program_io::Counted;
use ranked_changes::Silent;
use run_views::Places;
use shown_runs::{Ask, Selection};
use std::alloc::{AllocError, Global};
use std::process::Abort;
use std::test::Fail;
use std::thread::Threads;
use view_commands::{Command, Documents, Job, SessionRuns};

/// More than a thousand.
const TICKS: u32 = 1_500;

/// Where a tick is put in.
const AT: u32 = 1_234;

/// The members of a header: A runs on core 0 and B on core 1, and C waits.
const HEADER: &str = r#""format":1,"cores":2,"priorities":5,"slicing":false,"tick":0,"mutexes":0,
"tasks":[{"name":"A","priority":2,"mask":3},{"name":"B","priority":1,"mask":3},
{"name":"C","priority":1,"mask":3}]"#;

const TICK: &str = r#"{"do":"tick"}"#;

/// A session of so many ticks.
fn session_of(alloc: Global, ticks: u32) -> Result<String, AllocError> {
    let mut text = format!(in alloc; "{{{HEADER},\"steps\":[{TICK}")?;
    for _ in 1..ticks {
        write!(text, ",{TICK}")?;
    }
    text.push_str("]}")?;
    Ok(text)
}

/// A bench document of a session and edits.
fn document_of(alloc: Global, session: &str, edits: &str) -> Result<String, AllocError> {
    format!(in alloc; "{{\"session\":{session},\"edits\":[{edits}]}}")
}

/// What the job shows of a document.
fn check_view<R: Threads + Abort + Sync>(
    rt: &R,
    host: &HostRuntime,
    job: &Job,
    document: &str,
    wanted: &str,
) {
    let mut shown = Vec::new(host.alloc());
    let mut reader = Counted::new(document.as_bytes());
    let mut writer = Counted::new(&mut shown);
    let (progress, alloc) = (&mut Silent, host.alloc());
    let ending = view_commands::run(rt, host, progress, alloc, &mut reader, &mut writer, job);
    expect_same(rt, "status", ending.code(), 0);
    expect_same(rt, "bytes", shown.len(), wanted.len());
    expect(rt, "the whole text", shown.as_slice() == wanted.as_bytes());
}

/// The trace of so many ticks.
fn trace_lines(alloc: Global, ticks: u32) -> Result<String, AllocError> {
    let mut text = String::new(alloc);
    for at in 0..ticks {
        push_tick(&mut text, at)?;
    }
    write!(text, "place {ticks}, tick {ticks}; core 0 A; core 1 B\n")?;
    Ok(text)
}

fn push_tick(text: &mut String, at: u32) -> Result<(), AllocError> {
    let next = at.saturating_add(1);
    write!(
        text,
        "place {at}, tick {at}; core 0 A; core 1 B\nstep {at}: tick\n"
    )?;
    write!(text, "  done: the step was made\n  tick {at} to {next}\n")
}

/// This of the runs as their steps stand, where refusals do not count.
fn lenient(asked: Ask) -> Job {
    Job {
        command: Command::Show(asked),
        sessions: SessionRuns::AsWritten,
        documents: Documents::All,
        strict: false,
    }
}

fn whole_trace(alloc: Global) -> Job {
    lenient(Ask::Trace(Selection {
        places: Places {
            from: 0,
            to: u32::MAX,
        },
        tasks: Vec::new(alloc),
        cores: Vec::new(alloc),
    }))
}

#[test]
fn a_trace_of_many_steps(rt: HostRuntime) -> Result<(), Fail> {
    let session = session_of(rt.alloc(), TICKS)?;
    let lines = trace_lines(rt.alloc(), TICKS)?;
    check_view(&rt, &rt, &whole_trace(rt.alloc()), &session, &lines);
    Ok(())
}

/// The comparison of so many ticks with one tick more, which is put in there.
fn comparison_lines(alloc: Global, ticks: u32, at: u32) -> Result<String, AllocError> {
    let mut text = String::new(alloc);
    for before in 0..ticks {
        push_row(&mut text, before, at)?;
    }
    write!(text, "the runs differ first at - {at} and last at - {at}\n")?;
    text.push_str(GAINED)?;
    Ok(text)
}

/// What each task gains by one tick more.
const GAINED: &str = "\
task IDLE0 wait +1
task IDLE1 wait +1
task A run on core 0 +1
task B run on core 1 +1
task C wait +1
";

/// The row of a step, and before it that of the step that is put in there.
fn push_row(text: &mut String, before: u32, at: u32) -> Result<(), AllocError> {
    if before < at {
        return write!(text, "  {before} {before} tick: done; A B\n");
    }
    if before == at {
        write!(text, "+ - {at} tick: done; A B\n")?;
    }
    let after = before.saturating_add(1);
    write!(text, "  {before} {after} tick: done; A B\n")
}

/// A session of so many ticks, and an edit that puts a tick in there.
fn compared_document(alloc: Global, ticks: u32, at: u32) -> Result<String, AllocError> {
    let session = session_of(alloc, ticks)?;
    let edit = format!(in alloc; r#"{{"edit":"insert","at":{at},"step":{TICK}}}"#)?;
    document_of(alloc, &session, &edit)
}

#[test]
fn a_comparison_of_many_steps(rt: HostRuntime) -> Result<(), Fail> {
    let document = compared_document(rt.alloc(), TICKS, AT)?;
    let lines = comparison_lines(rt.alloc(), TICKS, AT)?;
    check_view(&rt, &rt, &lenient(Ask::Compare), &document, &lines);
    Ok(())
}
