//! Refusals that count, and what is told of them.
use crate::processes::{Wanted, check_program};
use crate::samples::{FIRST_RUN, LEFT_CALLS, NO_NINTH, SHARED_MUTEX};
use crate::words::args_of;
use std::alloc::AllocError;
use std::process::Abort;
use std::test::Fail;
use std::thread::Threads;

/// A switch that is not due, which a settled run leaves out. No edit is made.
const NOT_DUE: &str = "{\"format\": 1, \"cores\": 2, \"priorities\": 2, \"slicing\": false, \
    \"tick\": 0, \"mutexes\": 1, \"tasks\": [{\"name\": \"A\", \"priority\": 1, \"mask\": 1}], \
    \"steps\": [{\"do\": \"switch\", \"core\": 0}]}";

/// A hold is closed that is not open, in a settled run too.
const NOT_OPEN: &str = "{\"format\": 1, \"cores\": 2, \"priorities\": 2, \"slicing\": false, \
    \"tick\": 0, \"mutexes\": 1, \"tasks\": [{\"name\": \"A\", \"priority\": 1, \"mask\": 1}], \
    \"steps\": [{\"do\": \"hold_close\", \"core\": 0, \"by\": \"A\"}]}";

/// Statuses of commands that show nothing where all goes well.
#[test]
fn statuses(rt: HostRuntime) -> Result<(), Fail> {
    for (line, document, code, errors) in [
        ("smp_view check --at-least A.run=0", NOT_DUE, 0, ""),
        ("smp_view check --strict --at-least A.run=0", NOT_DUE, 1, ""),
        (
            "smp_view check --strict --settle --at-least A.run=0",
            NOT_DUE,
            0,
            "",
        ),
        (
            "smp_view check --strict --settle --at-least A.run=0",
            NOT_OPEN,
            1,
            "",
        ),
        (
            "smp_view check --strict --at-least A.run=0",
            FIRST_RUN,
            0,
            "",
        ),
        (
            "smp_view check --settle --at-least control.run=0",
            SHARED_MUTEX,
            0,
            NO_NINTH,
        ),
        (
            "smp_view check --strict --settle --at-least control.run=0",
            SHARED_MUTEX,
            1,
            NO_NINTH,
        ),
    ] {
        check(&rt, &rt, line, document, code, "", errors)?;
    }
    Ok(())
}

/// The last place of the settled run of `LEFT_CALLS`, told beside the calls that are not made.
#[test]
fn all_is_printed_as_without(rt: HostRuntime) -> Result<(), Fail> {
    let last = "place 6, tick 1; core 0 spare; core 1 IDLE0\n";
    let errors = "edit 1 refused J1: the session has 7 steps\nnot made: control 2, logger 1\n";
    let line = "smp_view trace --strict --settle --from 6";
    check(&rt, &rt, line, LEFT_CALLS, 1, last, errors)?;
    Ok(())
}

fn check<R: Threads + Abort + Sync>(
    rt: &R,
    host: &HostRuntime,
    line: &str,
    document: &str,
    code: u8,
    output: &str,
    errors: &str,
) -> Result<(), AllocError> {
    let words = Ok(args_of(host.alloc(), line)?);
    let wanted = Wanted {
        code,
        output,
        errors,
    };
    check_program(rt, host, words, document, "", wanted);
    Ok(())
}
