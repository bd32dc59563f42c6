//! Checks of limits, and why nothing is shown of a document.
use crate::processes::{Wanted, check_program};
use crate::samples::{NO_NINTH, SHARED_MUTEX};
use crate::words::args_of;
use std::alloc::AllocError;
use std::process::Abort;
use std::test::Fail;
use std::thread::Threads;

/// Of the settled run after the edits, where `logger` has given its mutex before `control` takes
/// it.
const LOW_RUN: &str = "control.run is 1, at least 2; the longest stretch begins at place 3
mutex.0.held.longest is 1, at least 7; the longest stretch begins at place 3
";

#[test]
fn limits_that_are_kept(rt: HostRuntime) -> Result<(), Fail> {
    for line in [
        "smp_view check --settle --at-most control.blocked.mutex=0",
        "smp_view check --settle --at-least control.run=1 --at-most mutex.0.waits=0",
    ] {
        expect(&rt, &rt, line, SHARED_MUTEX, 0, "", NO_NINTH)?;
    }
    Ok(())
}

#[test]
fn limits_that_are_not_kept(rt: HostRuntime) -> Result<(), Fail> {
    let line = "smp_view check --settle --at-least control.run=2 --at-most logger.run=1 \
    --at-least mutex.0.held.longest=7";
    expect(&rt, &rt, line, SHARED_MUTEX, 1, LOW_RUN, NO_NINTH)?;
    Ok(())
}

#[test]
fn documents_that_are_refused(rt: HostRuntime) -> Result<(), Fail> {
    for (line, document, errors) in [
        (
            "smp_view check --at-most A.run=1",
            "[]",
            "refused H2 top\ntop: expected an object, found an array (line 1, column 1)\n",
        ),
        (
            "smp_view timeline",
            "{\"x\":",
            "refused H1\nnot JSON: line 1, column 5\n",
        ),
    ] {
        expect(&rt, &rt, line, document, 1, "", errors)?;
    }
    Ok(())
}

// How the program ends with the words of the line and the document on standard input.
fn expect<R: Threads + Abort + Sync>(
    rt: &R,
    host: &HostRuntime,
    line: &str,
    document: &str,
    code: u8,
    output: &str,
    errors: &str,
) -> Result<(), AllocError> {
    let words = Ok(args_of(host.alloc(), line)?);
    let wanted = Wanted {
        code,
        output,
        errors,
    };
    check_program(rt, host, words, document, "", wanted);
    Ok(())
}
