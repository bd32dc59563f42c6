//! Edits that are each tried alone: what is written for them, and by which span.
use crate::devices::{Sink, Source, expect_at, expect_same, ran_in};
use bench_commands::{DEFAULT_SPAN, Mode, Status};
use bench_types::MAX_STEPS;
use program_io::RunFault;
use std::io::ErrorKind;
use std::process::Abort;
use std::test::Fail;
use std::thread::Threads;

/// The members of a header.
const HEADER: &str = r#""format":1,"cores":2,"priorities":5,"slicing":true,"tick":0,
"mutexes":0,"tasks":[{"name":"A","priority":2,"mask":3},{"name":"B","priority":1,"mask":3},
{"name":"C","priority":1,"mask":3}]"#;

/// Asks that trials over this input write this output, and end by their status as refused where the
/// output says so.
fn expect<T: Threads + Abort + Sync>(rt: &T, host: &HostRuntime, input: &str, output: &str) {
    let mode = Mode::WhatIf { span: DEFAULT_SPAN };
    let mut sink = Sink::wide();
    let status = if output.starts_with("refused") {
        Status::Refused
    } else {
        Status::Fine
    };
    let ended = ran_in(rt, host, &mut input.as_bytes(), &mut sink, &mode);
    expect_same(rt, output, ended, (status, 0, 0));
    sink.expect(rt, output);
}

#[test]
fn too_many_steps(rt: HostRuntime) -> Result<(), Fail> {
    let steps = r#"{"do":"tick"},"#.repeat(rt.alloc(), MAX_STEPS as usize)?;
    let input = format!(in rt.alloc();
        r#"{{"session":{{{HEADER},"steps":[{steps}{{"do":"tick"}}]}},"edits":[]}}"#
    )?;
    expect(&rt, &rt, input.as_str(), "refused J2\n");
    Ok(())
}

/// What is written of the session alone, with one edit, by a device that takes little.
const REMOVED: &str =
    r#"{"session":{"format":1,"cores":2,"priorities":1,"slicing":false,"tick":0,"mutexes":0,"tasks":[{"name":"A","priority":0,"mask":1}],"steps":[{"do":"tick"}]},"edits":[{"edit":"remove","at":0}]}"#;

const REMOVED_LINES: &str = "\
edit 0 from 0 met 0 replayed 0
task IDLE0 run 0 0 wait 0 inverted 0 in 0 displaced 0 timeouts 0 top 0
task IDLE1 run 0 0 wait 0 inverted 0 in 0 displaced 0 timeouts 0 top 0
task A run 0 0 wait 0 inverted 0 in 0 displaced 0 timeouts 0 top 0
";

fn check_devices<T: Threads + Abort + Sync>(rt: &T, host: &HostRuntime, reads: usize, room: usize) {
    let mode = Mode::WhatIf { span: DEFAULT_SPAN };
    let mut source = Source {
        text: REMOVED.as_bytes(),
        piece: 100,
        reads,
    };
    let mut sink = Sink::new(7, room, Some(ErrorKind::BrokenPipe));
    let ended = ran_in(rt, host, &mut source, &mut sink, &mode);
    let (wanted, written) = if reads < 3 {
        ((Status::Fault(RunFault::Read), 1, 0), 0)
    } else if room < REMOVED_LINES.len() {
        ((Status::Gone, 0, 1), room)
    } else {
        ((Status::Fine, 0, 0), REMOVED_LINES.len())
    };
    expect_at(rt, "room for", room, ended, wanted);
    expect_same(
        rt,
        "written",
        sink.taken(),
        &REMOVED_LINES.as_bytes()[..written],
    );
}

#[test]
fn devices_that_fail(rt: HostRuntime) {
    for reads in 0..=3 {
        check_devices(&rt, &rt, reads, REMOVED_LINES.len());
    }
    for room in [0, 1, 40, REMOVED_LINES.len() - 1] {
        check_devices(&rt, &rt, 3, room);
    }
}

/// Ends as one of two; which of them, `rt try --test --fail-alloc N` decides.
#[test]
fn memory_that_is_refused(rt: HostRuntime) -> Result<(), Fail> {
    let mode = Mode::WhatIf { span: DEFAULT_SPAN };
    let mut sink = Sink::wide();
    let (status, failed_reads, failed_writes) = ran_in(
        &rt,
        &rt,
        &mut REMOVED.as_bytes(),
        &mut sink,
        &mode,
    );
    expect_same(&rt, "faults", (failed_reads, failed_writes), (0, 0));
    let written = match status {
        Status::Fault(RunFault::Memory) => "",
        _ => REMOVED_LINES,
    };
    sink.expect(&rt, written);
    Ok(())
}
