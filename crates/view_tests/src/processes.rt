//! The whole program: words, standard input or a file in its place, standard output and error, and
//! the exit status.
use crate::devices::{Sink, expect_same};
use crate::files::Shelf;
use crate::samples::FIRST_RUN;
use crate::traces::WHOLE;
use crate::words::args_of;
use program_io::Counted;
use ranked_changes::Silent;
use std::env::Args;
use std::io::{self, ErrorKind};
use std::process::{Abort, ExitCode};
use std::test::Fail;
use std::thread::Threads;
use view_commands::{DocumentSource, run_program};

/// A trace of the first run, which standard input or a file has.
#[test]
fn a_trace_by_the_program(rt: HostRuntime) -> Result<(), Fail> {
    for (line, standard, file) in [
        ("smp_view trace", FIRST_RUN, ""),
        ("smp_view trace -", FIRST_RUN, ""),
        ("smp_view trace run.json", "", FIRST_RUN),
    ] {
        let words = Ok(args_of(rt.alloc(), line)?);
        let wanted = Wanted {
            code: 0,
            output: WHOLE,
            errors: "",
        };
        check_program(&rt, &rt, words, standard, file, wanted);
    }
    Ok(())
}

/// The version, and what a command lacks, are told in full; nothing is read.
#[test]
fn texts_that_are_told_in_full(rt: HostRuntime) -> Result<(), Fail> {
    for (line, code, output, errors) in [
        ("smp_view --version", 0, "smp_view 0.1.0\n", ""),
        ("smp_view -V trace", 0, "smp_view 0.1.0\n", ""),
        (
            "smp_view timeline --axis core",
            2,
            "",
            "error: --axis takes place, tick or time\n\nFor more information, try '--help'.\n",
        ),
        (
            "smp_view advise --task A --less run --over masks",
            2,
            "",
            "error: --over takes priority, mask, pin and order, with commas between them\n\n\
            For more information, try '--help'.\n",
        ),
        (
            "smp_view check",
            2,
            "",
            "error: check takes limits, each a name and a whole number: \
            --at-most control.blocked.mutex=3\n\nFor more information, try '--help'.\n",
        ),
    ] {
        let words = Ok(args_of(rt.alloc(), line)?);
        let wanted = Wanted {
            code,
            output,
            errors,
        };
        check_program(&rt, &rt, words, "", "", wanted);
    }
    Ok(())
}

/// Where the reader of standard output has gone, nothing is told of it.
#[test]
fn standard_output_that_takes_nothing(rt: HostRuntime) -> Result<(), Fail> {
    for (failure, code, message) in [
        (Some(ErrorKind::BrokenPipe), 141, ""),
        (Some(ErrorKind::Other), 3, "fault write\n"),
        (None, 3, "fault write\n"),
    ] {
        for line in ["smp_view --help", "smp_view --version", "smp_view trace"] {
            let shelf = Shelf {
                name: "run.json",
                text: b"",
            };
            let mut reader = DocumentSource::new(FIRST_RUN.as_bytes(), &shelf);
            let mut output = Sink::new(9, 0, failure);
            let mut errors = Sink::wide();
            let words = Ok(args_of(rt.alloc(), line)?);
            let status = status_of(&rt, &rt, words, &mut reader, &mut output, &mut errors);
            expect_same(&rt, line, status, ExitCode::from(code));
            errors.expect(&rt, message);
        }
    }
    Ok(())
}

/// How the program is to end, and what it is to write.
#[derive(Clone, Copy)]
pub(crate) struct Wanted<'a> {
    pub(crate) code: u8,
    pub(crate) output: &'a str,
    pub(crate) errors: &'a str,
}

/// What the program does with the words, with a document on standard input or in a file.
pub(crate) fn check_program<R: Threads + Abort + Sync>(
    rt: &R,
    host: &HostRuntime,
    words: io::Result<Args>,
    standard: &str,
    file: &str,
    wanted: Wanted<'_>,
) {
    let mut output = Sink::wide();
    let mut errors = Sink::wide();
    let shelf = Shelf {
        name: "run.json",
        text: file.as_bytes(),
    };
    let mut reader = DocumentSource::new(standard.as_bytes(), &shelf);
    let status = status_of(rt, host, words, &mut reader, &mut output, &mut errors);
    expect_same(rt, file, status, ExitCode::from(wanted.code));
    output.expect(rt, wanted.output);
    errors.expect(rt, wanted.errors);
}

/// The exit status of the program with these words.
pub(crate) fn status_of<T: Threads + Sync>(
    rt: &T,
    host: &HostRuntime,
    words: io::Result<Args>,
    reader: &mut DocumentSource<'_, &[u8], Shelf<'_>>,
    output: &mut Sink,
    errors: &mut Sink,
) -> ExitCode {
    run_program(
        rt,
        host,
        &mut Silent,
        words,
        reader,
        &mut Counted::new(output),
        &mut Counted::new(errors),
    )
}
