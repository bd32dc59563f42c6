//! Runs over the largest documents: what each writes, and whether it is refused.
use crate::devices::{Sink, expect_same, ran};
use bench_commands::Status;
use bench_types::{MAX_INPUT, MAX_STEPS};
use std::alloc::{AllocError, Global};
use std::io::{self, Read};
use std::process::Abort;
use std::test::Fail;
use std::thread::Threads;

/// The members of a header.
const ABC: &str = r#""format":1,"cores":2,"priorities":5,"slicing":false,"tick":0,"mutexes":0,
"tasks":[{"name":"A","priority":2,"mask":3},{"name":"B","priority":1,"mask":3},
{"name":"C","priority":1,"mask":3}]"#;

const BAD_EDIT: &str = r#"{"edit":"insert","at":0,"step":{"do":"switch","core":2}}"#;

/// Asks that a run over this input writes this output, and ends by its status as refused where
/// the output says so.
fn expect<T: Threads + Abort + Sync, R: Read>(
    rt: &T,
    host: &HostRuntime,
    reader: &mut R,
    output: &str,
) {
    let mut sink = Sink::wide();
    let status = if output.starts_with("refused") {
        Status::Refused
    } else {
        Status::Fine
    };
    let ended = ran(rt, host, reader, &mut sink);
    expect_same(rt, output, ended, (status, 0, 0));
    sink.expect(rt, output);
}

/// A document with one step over and over, some number of times and then once more.
fn repeated(alloc: Global, times: usize, step: &str, edits: &str) -> Result<String, AllocError> {
    let steps = format!(in alloc; "{step},")?.repeat(alloc, times)?;
    format!(in alloc; r#"{{"session":{{{ABC},"steps":[{steps}{step}]}},"edits":[{edits}]}}"#)
}

#[test]
fn many_steps(rt: HostRuntime) -> Result<(), Fail> {
    let mut held = String::from_str(rt.alloc(), "start A B\n")?;
    for index in 0..255 {
        write!(held, "{index} done A B\n")?;
    }
    held.push_str("255 refused E8 A B\n")?;
    let tick = r#"{"do":"tick"}"#;
    let hold = r#"{"do":"hold_open","core":0,"by":"A"}"#;
    let most = MAX_STEPS as usize;
    let table = [
        (most, tick, "", "refused J2\n"),
        (most, tick, BAD_EDIT, "refused F2 edits[0]\n"),
        (255, hold, "", held.as_str()),
    ];
    for (times, step, edits, output) in &table {
        let input = repeated(rt.alloc(), *times, step, edits)?;
        expect(&rt, &rt, &mut input.as_bytes(), output);
    }
    Ok(())
}

#[test]
fn long_inputs(rt: HostRuntime) -> Result<(), Fail> {
    let most = MAX_INPUT as u64;
    let table = [
        (most, "refused H1\n"),
        (most + 1, "refused H3\n"),
        (u64::MAX, "refused H3\n"),
    ];
    for (count, output) in &table {
        expect(&rt, &rt, &mut io::repeat(b' ').take(*count), output);
    }
    Ok(())
}
