//! Runs that keep work, as documents. What is wanted of them is what `scripts/kept.py` makes.
use crate::processes::{Wanted, check_program};
use crate::words::args_of;
use std::alloc::AllocError;
use std::process::Abort;
use std::test::Fail;
use std::thread::Threads;

/// A works for 4 units before each delay, and B for 8 before its own. The first edit leaves 2 of
/// these, and no call begins where the second is.
const LESS_WORK: &str = "\
    {\"session\": {\"format\": 3, \"cores\": 2, \"priorities\": 3, \"slicing\": false, \
    \"tick\": 0, \"units\": 10, \"mutexes\": 0, \"notes\": 1, \"queues\": [], \
    \"tasks\": [{\"name\": \"A\", \"priority\": 2, \"mask\": 1}, {\"name\": \"B\", \
    \"priority\": 1, \"mask\": 1}], \"steps\": [{\"do\": \"pass\", \"units\": 4}, \
    {\"do\": \"delay\", \"core\": 0, \"by\": \"A\", \"ticks\": 1}, {\"do\": \"pass\", \
    \"units\": 6}, {\"do\": \"tick\"}, {\"do\": \"pass\", \"units\": 4}, {\"do\": \"delay\", \
    \"core\": 0, \"by\": \"A\", \"ticks\": 1}, {\"do\": \"pass\", \"units\": 2}, \
    {\"do\": \"delay\", \"core\": 0, \"by\": \"B\", \"ticks\": 1}, {\"do\": \"pass\", \
    \"units\": 4}, {\"do\": \"tick\"}]}, \"edits\": [{\"edit\": \"work\", \"at\": 7, \
    \"less\": 6}, {\"edit\": \"work\", \"at\": 8, \"by\": 1}]}";

/// The run that keeps work of `LESS_WORK`.
const KEPT: &str = "\
    {\"cores\":2,\"format\":3,\"mutexes\":0,\"notes\":1,\"priorities\":3,\"queues\":[],\
    \"slicing\":false,\"steps\":[{\"do\":\"pass\",\"units\":4},{\"by\":\"A\",\"core\":0,\
    \"do\":\"delay\",\"ticks\":1},{\"core\":0,\"do\":\"switch\"},{\"do\":\"pass\",\"units\":2},\
    {\"by\":\"B\",\"core\":0,\"do\":\"delay\",\"ticks\":1},{\"core\":0,\"do\":\"switch\"},\
    {\"do\":\"pass\",\"units\":4},{\"do\":\"tick\"},{\"core\":0,\"do\":\"switch\"},{\"by\":\"A\",\
    \"core\":0,\"do\":\"finish\"},{\"do\":\"pass\",\"units\":4},{\"by\":\"A\",\"core\":0,\
    \"do\":\"delay\",\"ticks\":1},{\"core\":0,\"do\":\"switch\"},{\"by\":\"B\",\"core\":0,\
    \"do\":\"finish\"},{\"do\":\"pass\",\"units\":2},{\"do\":\"pass\",\"units\":4},\
    {\"do\":\"tick\"},{\"core\":0,\"do\":\"switch\"},{\"by\":\"A\",\"core\":0,\
    \"do\":\"finish\"}],\"tasks\":[{\"mask\":1,\"name\":\"A\",\"priority\":2},{\"mask\":1,\
    \"name\":\"B\",\"priority\":1}],\"tick\":0,\"units\":10}\n";

/// What is told of the edit that is refused, and of how far the run is known.
const NOTE: &str = "edit 1 refused J1: no call begins at step 8
known until place 14: B has made its last call
";

/// Both runs. That after the edits is known up to the step behind the last call of B.
const COMPARED: &str = "  0 0 pass units 4: done; A IDLE0
  1 1 delay core 0 by A ticks 1: blocked; A IDLE0
  2 2 switch core 0: done; B IDLE0
- 3 - pass units 6: done; B IDLE0
+ - 3 pass units 2: done; B IDLE0
+ - 4 delay core 0 by B ticks 1: blocked; B IDLE0
+ - 5 switch core 0: done; IDLE1 IDLE0
+ - 6 pass units 4: done; IDLE1 IDLE0
| 4 7 tick: done; B IDLE0 -> done; IDLE1 IDLE0
  5 8 switch core 0: done; A IDLE0
  6 9 finish core 0 by A: done; A IDLE0
  7 10 pass units 4: done; A IDLE0
  8 11 delay core 0 by A ticks 1: blocked; A IDLE0
  9 12 switch core 0: done; B IDLE0
+ - 13 finish core 0 by B: done; B IDLE0
known until place 14: B has made its last call
  10 14 pass units 2: done; B IDLE0
- 11 - delay core 0 by B ticks 1: blocked; B IDLE0
- 12 - switch core 0: done; IDLE1 IDLE0
| 13 15 pass units 4: done; IDLE1 IDLE0 -> done; B IDLE0
| 14 16 tick: done; IDLE1 IDLE0 -> done; B IDLE0
  15 17 switch core 0: done; A IDLE0
  16 18 finish core 0 by A: done; A IDLE0
the runs differ first at 3 - and last at 14 16
";

const REFUSED: &str = "refused H2 edits[0].edit
edits[0].edit: a change of work is shown by --keep-work alone
";

#[test]
fn runs_that_keep_work(rt: HostRuntime) -> Result<(), Fail> {
    check(&rt, &rt, "smp_view settle --keep-work", 0, KEPT, NOTE)?;
    check(
        &rt,
        &rt,
        "smp_view settle --keep-work --strict",
        1,
        KEPT,
        NOTE,
    )?;
    Ok(())
}

#[test]
fn runs_that_keep_work_beside_each_other(rt: HostRuntime) -> Result<(), Fail> {
    check(&rt, &rt, "smp_view compare --keep-work", 0, COMPARED, NOTE)?;
    Ok(())
}

#[test]
fn changes_of_work_in_other_runs(rt: HostRuntime) -> Result<(), Fail> {
    for line in ["smp_view settle", "smp_view session", "smp_view compare"] {
        check(&rt, &rt, line, 1, "", REFUSED)?;
    }
    Ok(())
}

/// What the program does with the words of the line and `LESS_WORK` on standard input.
fn check<R: Threads + Abort + Sync>(
    rt: &R,
    host: &HostRuntime,
    line: &str,
    code: u8,
    output: &str,
    errors: &str,
) -> Result<(), AllocError> {
    let words = Ok(args_of(host.alloc(), line)?);
    let wanted = Wanted {
        code,
        output,
        errors,
    };
    check_program(rt, host, words, LESS_WORK, "", wanted);
    Ok(())
}
