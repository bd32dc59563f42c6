//! The whole program: words, standard output and error, and the exit status.
use crate::devices::{Sink, expect, expect_same};
use bench_commands::{DEFAULT_SPAN, run_program};
use bench_types::MAX_SPAN;
use program_io::Counted;
use std::alloc::{AllocError, Global};
use std::env::Args;
use std::io::{self, ErrorKind, Write};
use std::process::{Abort, ExitCode};
use std::sync::Wait;
use std::test::Fail;
use std::thread::Threads;

/// How a process ends: its exit status, and how its standard output and standard error begin. Where
/// nothing is wanted of one, it is empty.
#[derive(Clone, Copy)]
struct End<'a> {
    code: u8,
    output: &'a str,
    message: &'a str,
}

/// The words of the line, as the system hands them over.
pub(crate) fn args_of(alloc: Global, line: &str) -> Result<Args, AllocError> {
    let mut words = Vec::new(alloc);
    for word in line.split(' ') {
        words.push(String::from_str(alloc, word)?)?;
    }
    Ok(words.into_iter())
}

/// The exit status of the program with these words and an empty input.
fn status_of<R: Threads + Wait + Sync>(
    rt: &R,
    host: &HostRuntime,
    words: io::Result<Args>,
    output: &mut Sink,
    errors: &mut Sink,
) -> ExitCode {
    let mut reader = Counted::new("".as_bytes());
    let mut writer = Counted::new(output);
    run_program(
        rt,
        host,
        words,
        &mut reader,
        &mut writer,
        &mut Counted::new(errors),
    )
}

fn begins(text: &[u8], start: &str) -> bool {
    text.starts_with(start.as_bytes()) && text.is_empty() == start.is_empty()
}

fn check_end<R: Threads + Wait + Abort + Sync>(
    rt: &R,
    host: &HostRuntime,
    words: io::Result<Args>,
    end: &End<'_>,
) {
    let mut output = Sink::wide();
    let mut errors = Sink::wide();
    let status = status_of(rt, host, words, &mut output, &mut errors);
    expect_same(rt, end.message, status, ExitCode::from(end.code));
    expect(rt, end.output, begins(output.taken(), end.output));
    expect(rt, end.message, begins(errors.taken(), end.message));
}

#[test]
fn exit_statuses(rt: HostRuntime) -> Result<(), Fail> {
    for (line, code, output, message) in [
        ("smp_bench --help", 0, "Records and replays", ""),
        ("smp_bench replay", 1, "refused H1\n", "not JSON: line 1"),
        ("smp_bench whatif", 1, "refused H1\n", "not JSON: line 1"),
        ("smp_bench record", 1, "refused H1\n", "not JSON: line 1"),
        ("smp_bench", 2, "", "error: "),
    ] {
        let end = End {
            code,
            output,
            message,
        };
        check_end(&rt, &rt, Ok(args_of(rt.alloc(), line)?), &end);
    }
    Ok(())
}

#[test]
fn words_that_are_not_handed_over(rt: HostRuntime) {
    for (kind, code, message) in [
        (ErrorKind::InvalidData, 2, "error: invalid UTF-8"),
        (ErrorKind::OutOfMemory, 3, "fault memory\n"),
    ] {
        let end = End {
            code,
            output: "",
            message,
        };
        check_end(&rt, &rt, Err(io::Error::from(kind)), &end);
    }
}

#[test]
fn standard_error_that_takes_nothing(rt: HostRuntime) -> Result<(), Fail> {
    let mut output = Sink::wide();
    let mut errors = Sink::new(9, 0, Some(ErrorKind::BrokenPipe));
    let words = Ok(args_of(rt.alloc(), "smp_bench")?);
    let status = status_of(&rt, &rt, words, &mut output, &mut errors);
    expect_same(&rt, "status", status, ExitCode::from(2));
    Ok(())
}

/// Where the reader of standard output has gone, nothing is told of it.
#[test]
fn standard_output_that_takes_nothing(rt: HostRuntime) -> Result<(), Fail> {
    for (failure, code, message) in [
        (Some(ErrorKind::BrokenPipe), 141, ""),
        (Some(ErrorKind::Other), 3, "fault write\n"),
        (None, 3, "fault write\n"),
    ] {
        for line in ["smp_bench --help", "smp_bench replay", "smp_bench record"] {
            let mut output = Sink::new(9, 0, failure);
            let mut errors = Sink::wide();
            let words = Ok(args_of(rt.alloc(), line)?);
            let status = status_of(&rt, &rt, words, &mut output, &mut errors);
            expect_same(&rt, line, status, ExitCode::from(code));
            errors.expect(&rt, message);
        }
    }
    Ok(())
}

/// The help of `--span` spells its limit, and what holds where it is left out.
#[test]
fn spans_in_the_help(rt: HostRuntime) -> Result<(), Fail> {
    let mut output = Sink::wide();
    let mut errors = Sink::wide();
    let words = Ok(args_of(rt.alloc(), "smp_bench replay --help")?);
    status_of(&rt, &rt, words, &mut output, &mut errors);
    let spans = format!(in rt.alloc(); "1 to {MAX_SPAN}, or {DEFAULT_SPAN} if left out")?;
    let text = std::str::from_utf8(output.taken()).unwrap_or("");
    expect(&rt, text, text.contains(spans.as_str()));
    Ok(())
}

/// A device that takes all, and fails where it is flushed.
#[derive(Drop)]
struct Stuck;

impl Write for Stuck {
    fn write(&mut self, buf: &[u8]) -> io::Result<usize> {
        Ok(buf.len())
    }

    fn flush(&mut self) -> io::Result<()> {
        Err(io::Error::from(ErrorKind::BrokenPipe))
    }
}

#[test]
fn a_flush_reaches_the_device(rt: HostRuntime) {
    let mut writer = Counted::new(Stuck);
    let is_refused = writer.flush().is_err();
    expect(&rt, "a failed flush", is_refused);
    expect_same(&rt, "failed writes", writer.count(), 0);
}

/// A device whose writes all fail, and whose flushes fail otherwise.
#[derive(Drop)]
struct Broken;

impl Write for Broken {
    fn write(&mut self, _buf: &[u8]) -> io::Result<usize> {
        Err(io::Error::from(ErrorKind::Other))
    }

    fn flush(&mut self) -> io::Result<()> {
        Err(io::Error::from(ErrorKind::BrokenPipe))
    }
}

/// So does a flush after a write that failed, with the device's own error, and it is no write.
#[test]
fn a_flush_after_a_failed_write(rt: HostRuntime) {
    let mut writer = Counted::new(Broken);
    for _ in 0..2 {
        let _ = writer.write(b"a");
    }
    let kind = match writer.flush() {
        Ok(()) => None,
        Err(error) => Some(error.kind()),
    };
    expect_same(&rt, "flushed", kind, Some(ErrorKind::BrokenPipe));
    expect_same(&rt, "failed writes", writer.count(), 2);
}
