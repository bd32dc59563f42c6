//! Documents in which a member stands twice, whatever is shown of them.
use crate::processes::{Wanted, check_program};
use crate::words::args_of;
use std::alloc::AllocError;
use std::process::Abort;
use std::test::Fail;
use std::thread::Threads;

/// A task has its priority twice, in the second line; the edit has no place.
const BENCH: &str = "{\"session\": {\"format\": 1, \"cores\": 2, \"priorities\": 5, \
    \"slicing\": false, \"tick\": 0, \"mutexes\": 0, \"tasks\": [
{\"name\": \"A\", \"priority\": 9, \"mask\": 3, \"priority\": 2}], \
    \"steps\": [{\"do\": \"tick\"}]}, \"edits\": [{\"edit\": \"remove\", \"at\": 7}]}";

const PRINTED: &str =
    "the member \"priority\" stands twice, and the last one counts: line 2, column 41
edit 0 refused J1: the session has 1 step
";

/// A member stands twice, and one is missing.
const REFUSED: &str = "{\"format\": 1, \"format\": 1}";

const REFUSED_TOLD: &str =
    "the member \"format\" stands twice, and the last one counts: line 1, column 15
refused H2 cores
cores: this member is missing (line 1, column 1)
";

/// The same, but it is no JSON.
const NO_JSON: &str = "{\"format\": 1, \"format\": 1";

/// Statuses and notes, where standard output is told what it is without.
#[test]
fn statuses(rt: HostRuntime) -> Result<(), Fail> {
    for (line, document, code, output, errors) in [
        (
            "smp_view trace --from 1 --to 1",
            BENCH,
            0,
            "place 1, tick 1; core 0 A; core 1 IDLE0\n",
            PRINTED,
        ),
        ("smp_view check --at-least A.run=0", BENCH, 0, "", PRINTED),
        (
            "smp_view check --strict --at-least A.run=0",
            BENCH,
            1,
            "",
            PRINTED,
        ),
        ("smp_view trace", REFUSED, 1, "", REFUSED_TOLD),
        (
            "smp_view check --strict --at-least A.run=0",
            REFUSED,
            1,
            "",
            REFUSED_TOLD,
        ),
        (
            "smp_view trace",
            NO_JSON,
            1,
            "",
            "refused H1\nnot JSON: line 1, column 25\n",
        ),
    ] {
        check(&rt, &rt, line, document, code, output, errors)?;
    }
    Ok(())
}

fn check<R: Threads + Abort + Sync>(
    rt: &R,
    host: &HostRuntime,
    line: &str,
    document: &str,
    code: u8,
    output: &str,
    errors: &str,
) -> Result<(), AllocError> {
    let words = Ok(args_of(host.alloc(), line)?);
    let wanted = Wanted {
        code,
        output,
        errors,
    };
    check_program(rt, host, words, document, "", wanted);
    Ok(())
}
