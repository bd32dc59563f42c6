//! Settled runs, as documents and as traces. What is wanted of a document is what
//! `scripts/settle.py` makes of it.
use crate::processes::{Wanted, check_program};
use crate::samples::{FIRST_RUN, LEFT_CALLS, LEFT_REFUSED, NO_NINTH, SHARED_MUTEX};
use crate::traces::WHOLE;
use crate::words::args_of;
use std::alloc::AllocError;
use std::process::Abort;
use std::test::Fail;
use std::thread::Threads;

/// The settled run of `LEFT_CALLS`.
const SETTLED: &str = "\
    {\"cores\":2,\"format\":1,\"mutexes\":1,\"priorities\":4,\"slicing\":false,\
    \"steps\":[{\"by\":\"logger\",\"core\":1,\"do\":\"mutex_take\",\"mutex\":0,\"ticks\":0},\
    {\"by\":\"control\",\"core\":0,\"do\":\"mutex_take\",\"mutex\":0,\"ticks\":5},{\"core\":0,\
    \"do\":\"switch\"},{\"do\":\"tick\"},{\"by\":\"logger\",\"core\":1,\"do\":\"delay\",\
    \"ticks\":9},{\"core\":1,\"do\":\"switch\"}],\"tasks\":[{\"mask\":1,\"name\":\"control\",\
    \"priority\":3},{\"mask\":2,\"name\":\"logger\",\"priority\":1},{\"mask\":3,\
    \"name\":\"spare\",\"priority\":0}],\"tick\":0}\n";

/// That of `SHARED_MUTEX`, of which each call is made.
const GIVEN_FIRST: &str = "\
    {\"cores\":2,\"format\":1,\"mutexes\":1,\"priorities\":4,\"slicing\":false,\
    \"steps\":[{\"by\":\"logger\",\"core\":1,\"do\":\"mutex_take\",\"mutex\":0,\"ticks\":0},\
    {\"by\":\"logger\",\"core\":1,\"do\":\"mutex_give\",\"mutex\":0},{\"by\":\"control\",\
    \"core\":0,\"do\":\"mutex_take\",\"mutex\":0,\"ticks\":5},{\"do\":\"tick\"},\
    {\"by\":\"logger\",\"core\":1,\"do\":\"yield\"},{\"core\":1,\"do\":\"switch\"}],\
    \"tasks\":[{\"mask\":1,\"name\":\"control\",\"priority\":3},{\"mask\":2,\"name\":\"logger\",\
    \"priority\":1}],\"tick\":0}\n";

/// What is told of the refused edit of `LEFT_CALLS`, and of the calls that are not made.
const NOTE: &str = "edit 1 refused J1: the session has 7 steps\nnot made: control 2, logger 1\n";

/// The last place of the settled run of `LEFT_CALLS`.
const LAST: &str = "place 6, tick 1; core 0 spare; core 1 IDLE0\n";

/// Both settled runs of `LEFT_CALLS`.
const COMPARED: &str =
    "  0 0 mutex_take core 1 by logger mutex 0 ticks 0: true: the mutex was taken; control logger
  1 1 mutex_take core 0 by control mutex 0 ticks 5: blocked; control logger
  2 2 switch core 0: done; spare logger
- 3 - yield core 0 by spare: done; spare logger
- 4 - switch core 0: done; IDLE0 logger
| 5 3 tick: done; IDLE0 logger -> done; spare logger
| 6 4 delay core 1 by logger ticks 9: blocked; IDLE0 logger -> blocked; spare logger
| 7 5 switch core 1: done; IDLE0 IDLE1 -> done; spare IDLE0
the runs differ first at 3 - and last at 7 5
task IDLE0 run on core 0 -1 wait +1
task IDLE1 in -1
task spare run on core 0 +1 wait -1 inverted -1
not made before: control 2, logger 1
not made after: control 2, logger 1
";

#[test]
fn settled_documents(rt: HostRuntime) -> Result<(), Fail> {
    check(&rt, &rt, "smp_view settle", LEFT_CALLS, 0, SETTLED, NOTE)?;
    check(
        &rt,
        &rt,
        "smp_view settle",
        SHARED_MUTEX,
        0,
        GIVEN_FIRST,
        NO_NINTH,
    )?;
    Ok(())
}

#[test]
fn settled_runs_beside_each_other(rt: HostRuntime) -> Result<(), Fail> {
    let line = "smp_view compare --settle";
    check(&rt, &rt, line, LEFT_CALLS, 0, COMPARED, LEFT_REFUSED)?;
    Ok(())
}

#[test]
fn traces_of_settled_runs(rt: HostRuntime) -> Result<(), Fail> {
    for (line, document, code, output, errors) in [
        ("smp_view trace --settle", FIRST_RUN, 0, WHOLE, ""),
        (
            "smp_view trace --settle --from 6",
            LEFT_CALLS,
            0,
            LAST,
            NOTE,
        ),
        (
            "smp_view trace --settle --task nobody",
            LEFT_CALLS,
            1,
            "",
            "edit 1 refused J1: the session has 7 steps\nrefused task nobody\n",
        ),
    ] {
        check(&rt, &rt, line, document, code, output, errors)?;
    }
    Ok(())
}

/// What the program does with the words of the line and the document on standard input.
fn check<R: Threads + Abort + Sync>(
    rt: &R,
    host: &HostRuntime,
    line: &str,
    document: &str,
    code: u8,
    output: &str,
    errors: &str,
) -> Result<(), AllocError> {
    let words = Ok(args_of(host.alloc(), line)?);
    let wanted = Wanted {
        code,
        output,
        errors,
    };
    check_program(rt, host, words, document, "", wanted);
    Ok(())
}
