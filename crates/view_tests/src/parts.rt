//! Which part of a long command begins, as a screen is told of it, and a file not.
use crate::devices::Sink;
use crate::progress::Device;
use crate::words::args_of;
use program_io::Counted;
use shown_runs::PartProgress;
use std::alloc::{AllocError, Global};
use std::process::Abort;
use std::test::Fail;
use std::thread::Threads;
use view_commands::{DocumentSource, Telling, run_program};

/// A session of so many ticks is long.
const LONG: u32 = 100_000;

/// A command on a long session, and what a screen is told.
const PARTS: [(&str, &str); 8] = [
    ("smp_view session --strict", "part 1 of 1: refusals\n"),
    ("smp_view settle", "part 1 of 1: settling\n"),
    ("smp_view trace --to 1", "part 1 of 1: tracing\n"),
    (
        "smp_view compare --settle",
        "part 1 of 2: settling\npart 2 of 2: comparing\n",
    ),
    ("smp_view timeline --to 1", "part 1 of 1: drawing\n"),
    (
        "smp_view report --settle",
        "part 1 of 2: settling\npart 2 of 2: measuring\n",
    ),
    (
        "smp_view check --settle --at-least T0.run=1",
        "part 1 of 2: settling\npart 2 of 2: measuring\n",
    ),
    (
        "smp_view page --settle --to 1 --strict",
        "part 1 of 5: settling\npart 2 of 5: drawing\npart 3 of 5: measuring\n\
        part 4 of 5: tracing\npart 5 of 5: refusals\n",
    ),
];

/// The same of one with an edit.
const EDITED_PARTS: [(&str, &str); 4] = [
    ("smp_view compare", "part 1 of 1: comparing\n"),
    (
        "smp_view timeline --settle --to 1",
        "part 1 of 2: settling\npart 2 of 2: drawing\n",
    ),
    (
        "smp_view page --to 1",
        "part 1 of 4: drawing\npart 2 of 4: comparing\npart 3 of 4: measuring\n\
        part 4 of 4: tracing\n",
    ),
    (
        "smp_view page --settle --to 1",
        "part 1 of 5: settling\npart 2 of 5: drawing\npart 3 of 5: comparing\n\
        part 4 of 5: measuring\npart 5 of 5: tracing\n",
    ),
];

/// The same of a workload of so many ticks, with an edit.
const SIMULATED_PARTS: [(&str, &str); 4] = [
    ("smp_view simulate", "part 1 of 1: simulating\n"),
    (
        "smp_view compare --settle",
        "part 1 of 2: simulating\npart 2 of 2: comparing\n",
    ),
    (
        "smp_view check --strict --at-least A.run=1",
        "part 1 of 3: simulating\npart 2 of 3: measuring\npart 3 of 3: refusals\n",
    ),
    ("smp_view simulate --ticks 1", ""),
];

/// A workload that goes on for so many ticks is long. A works for half a tick, or for a whole one.
const LONG_WORKLOAD: &str =
    r#"{"workload":{"format":3,"cores":2,"priorities":2,"slicing":false,"tick":0,"mutexes":0,"notes":1,"queues":[],"units":2,"tasks":[{"name":"A","priority":1,"mask":1,"program":[{"work":1}]}],"ticks":10000},"edits":[{"edit":"set","task":"A","item":[0],"work":2}]}"#;

const REPORT: &str = "smp_view report --settle";

#[test]
fn parts_of_a_long_session_are_told(rt: HostRuntime) -> Result<(), Fail> {
    let document = session_of(rt.alloc(), LONG)?;
    for (line, told) in &PARTS {
        check(&rt, &rt, line, document.as_str(), true, told)?;
    }
    Ok(())
}

#[test]
fn parts_of_a_long_session_with_an_edit_are_told(rt: HostRuntime) -> Result<(), Fail> {
    let document = edited_of(rt.alloc(), LONG)?;
    for (line, told) in &EDITED_PARTS {
        check(&rt, &rt, line, document.as_str(), true, told)?;
    }
    Ok(())
}

#[test]
fn parts_of_a_long_workload_are_told(rt: HostRuntime) -> Result<(), Fail> {
    for (line, told) in &SIMULATED_PARTS {
        check(&rt, &rt, line, LONG_WORKLOAD, true, told)?;
    }
    Ok(())
}

#[test]
fn a_file_is_told_no_part(rt: HostRuntime) -> Result<(), Fail> {
    let document = session_of(rt.alloc(), LONG)?;
    check(&rt, &rt, REPORT, document.as_str(), false, "")?;
    Ok(())
}

#[test]
fn no_part_of_a_short_session_is_told(rt: HostRuntime) -> Result<(), Fail> {
    let document = session_of(rt.alloc(), LONG - 1)?;
    check(&rt, &rt, REPORT, document.as_str(), true, "")?;
    Ok(())
}

/// What a device is told of a command on a document.
fn check<R: Threads + Abort + Sync>(
    rt: &R,
    host: &HostRuntime,
    line: &str,
    document: &str,
    is_screen: bool,
    told: &str,
) -> Result<(), AllocError> {
    let mut sink = Sink::wide();
    let device = Device {
        sink: &mut sink,
        is_screen,
    };
    let mut progress = Telling::of(device);
    show(rt, host, &mut progress, line, document.as_bytes())?;
    drop(progress);
    sink.expect(rt, told);
    Ok(())
}

/// What is printed has no room here, and its writes fail once all parts are done.
fn show<R: Threads + Sync, P: PartProgress>(
    rt: &R,
    host: &HostRuntime,
    progress: &mut P,
    line: &str,
    document: &[u8],
) -> Result<(), AllocError> {
    let words = Ok(args_of(host.alloc(), line)?);
    let mut output = Sink::new(0, 0, None);
    let mut errors = Sink::wide();
    let _status = run_program(
        rt,
        host,
        progress,
        words,
        &mut DocumentSource::new(document, host),
        &mut Counted::new(&mut output),
        &mut Counted::new(&mut errors),
    );
    Ok(())
}

/// So many ticks of one task.
fn session_of(alloc: Global, ticks: u32) -> Result<String, AllocError> {
    let mut text = String::from_str(
        alloc,
        r#"{"format":1,"cores":2,"priorities":5,"slicing":false,"tick":0,"mutexes":0,"tasks":["#,
    )?;
    text.push_str(r#"{"name":"T0","priority":1,"mask":1}],"steps":["#)?;
    for tick in 0..ticks {
        let before = if tick == 0 { "" } else { "," };
        write!(text, r#"{before}{{"do":"tick"}}"#)?;
    }
    text.push_str("]}")?;
    Ok(text)
}

/// The same, and an edit that removes a tick.
fn edited_of(alloc: Global, ticks: u32) -> Result<String, AllocError> {
    let session = session_of(alloc, ticks)?;
    format!(in alloc; r#"{{"session":{session},"edits":[{{"edit":"remove","at":7}}]}}"#)
}
