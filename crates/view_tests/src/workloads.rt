//! Workloads, which stand for the sessions that are their runs.
use crate::devices::{Sink, expect_same};
use crate::files::Shelf;
use crate::processes::{Wanted, check_program, status_of};
use crate::samples::{FIRST_RUN, SHARED_MUTEX};
use crate::words::args_of;
use std::alloc::AllocError;
use std::process::Abort;
use std::test::Fail;
use std::thread::Threads;
use view_commands::DocumentSource;

/// A works for half a tick.
const WORKLOAD: &str =
    r#"{"format":3,"cores":2,"priorities":2,"slicing":false,"tick":0,"mutexes":0,"notes":1,"queues":[],"units":2,"tasks":[{"name":"A","priority":1,"mask":1,"program":[{"work":1}]}],"ticks":1}"#;

/// The same as the only member of an object.
const HELD: &str =
    r#"{"workload":{"format":3,"cores":2,"priorities":2,"slicing":false,"tick":0,"mutexes":0,"notes":1,"queues":[],"units":2,"tasks":[{"name":"A","priority":1,"mask":1,"program":[{"work":1}]}],"ticks":1}}"#;

/// Behind its work A suspends itself; the other half of the tick goes by.
const RUN: &str =
    "{\"cores\":2,\"format\":3,\"mutexes\":0,\"notes\":1,\"priorities\":2,\"queues\":[],\
    \"slicing\":false,\"steps\":[{\"do\":\"pass\",\"units\":1},\
    {\"by\":\"A\",\"core\":0,\"do\":\"suspend\",\"to\":\"A\"},{\"core\":0,\"do\":\"switch\"},\
    {\"do\":\"pass\",\"units\":1},{\"do\":\"tick\"}],\
    \"tasks\":[{\"mask\":1,\"name\":\"A\",\"priority\":1}],\"tick\":0,\"units\":2}\n";

/// The run of no ticks is over before its first step.
const NO_RUN: &str =
    "{\"cores\":2,\"format\":3,\"mutexes\":0,\"notes\":1,\"priorities\":2,\"queues\":[],\
    \"slicing\":false,\"steps\":[],\
    \"tasks\":[{\"mask\":1,\"name\":\"A\",\"priority\":1}],\"tick\":0,\"units\":2}\n";

/// The workload with no edits.
const UNEDITED: &str =
    r#"{"workload":{"format":3,"cores":2,"priorities":2,"slicing":false,"tick":0,"mutexes":0,"notes":1,"queues":[],"units":2,"tasks":[{"name":"A","priority":1,"mask":1,"program":[{"work":1}]}],"ticks":1},"edits":[]}"#;

/// An edit, by which A works for the whole tick.
pub(crate) const EDITED: &str =
    r#"{"workload":{"format":3,"cores":2,"priorities":2,"slicing":false,"tick":0,"mutexes":0,"notes":1,"queues":[],"units":2,"tasks":[{"name":"A","priority":1,"mask":1,"program":[{"work":1}]}],"ticks":1},"edits":[{"edit":"set","task":"A","item":[0],"work":2}]}"#;

/// Its run after the edit. The tick comes before A ends its program, which is at the same time.
const EDITED_RUN: &str =
    "{\"cores\":2,\"format\":3,\"mutexes\":0,\"notes\":1,\"priorities\":2,\"queues\":[],\
    \"slicing\":false,\"steps\":[{\"do\":\"pass\",\"units\":2},{\"do\":\"tick\"},\
    {\"by\":\"A\",\"core\":0,\"do\":\"suspend\",\"to\":\"A\"},{\"core\":0,\"do\":\"switch\"}],\
    \"tasks\":[{\"mask\":1,\"name\":\"A\",\"priority\":1}],\"tick\":0,\"units\":2}\n";

/// Both runs. The one tick stands beside the other.
const COMPARED: &str = "- 0 - pass units 1: done; A IDLE0
- 1 - suspend core 0 by A to A: done; A IDLE0
- 2 - switch core 0: done; IDLE1 IDLE0
- 3 - pass units 1: done; IDLE1 IDLE0
+ - 0 pass units 2: done; A IDLE0
| 4 1 tick: done; IDLE1 IDLE0 -> done; A IDLE0
+ - 2 suspend core 0 by A to A: done; A IDLE0
+ - 3 switch core 0: done; IDLE1 IDLE0
the runs differ first at 0 - and last at - 3
task IDLE1 run on core 0 -1 wait +1
task A run on core 0 +1
";

/// The numbers of both.
const REPORTED: &str = "time in units, 2 a tick
    before      after     change number
         1          2         +1 A.run
         1          2         +1 A.run.longest
         1          2         +1 A.run.0
         1          2         +1 A.run.0.longest
         1          0         -1 A.suspended
         1          0         -1 A.suspended.longest
         1          1          0 A.top_priority
         1          1          0 A.jobs
         1          2         +1 A.response.total
         1          2         +1 A.response.longest
         1          2         +1 A.response.shortest
         1          2         +1 core.0.user
         1          2         +1 core.0.user.longest
         1          0         -1 core.0.idle
         1          0         -1 core.0.idle.longest
         1          1          0 core.0.switches
         2          2          0 core.1.idle
         2          2          0 core.1.idle.longest
         2          2          0 run.time
         5          4         -1 run.steps

    core 0     core 1        all load before
     50.0%       0.0%      50.0% A
     50.0%     100.0%     150.0% idle

    core 0     core 1        all load after
    100.0%       0.0%     100.0% A
      0.0%     100.0%     100.0% idle
";

/// Of the edited workload with A pinned to the other core.
const PINNED: &str = "A.run is 2 units; 1 changes tried
1. mask of A 2, was 1: 2 (0)
";

/// An edit, by which A makes calls for ever, so no time goes by.
const EDITED_ENDLESS: &str =
    r#"{"workload":{"format":3,"cores":2,"priorities":2,"slicing":false,"tick":0,"mutexes":0,"notes":1,"queues":[],"tasks":[{"name":"A","priority":1,"mask":1,"program":[{"work":1}]}],"ticks":1},"edits":[{"edit":"set","task":"A","item":[0],"forever":[{"do":"hold_close"}]}]}"#;

/// An edit, by which it does so no more.
const ENDED: &str =
    r#"{"workload":{"format":3,"cores":2,"priorities":2,"slicing":false,"tick":0,"mutexes":0,"notes":1,"queues":[],"tasks":[{"name":"A","priority":1,"mask":1,"program":[{"forever":[{"do":"hold_close"}]}]}],"ticks":1},"edits":[{"edit":"set","task":"A","item":[0],"work":1}]}"#;

/// Of one item, the one with index 1 is to be another.
const NO_ITEM: &str =
    r#"{"workload":{"format":3,"cores":2,"priorities":2,"slicing":false,"tick":0,"mutexes":0,"notes":1,"queues":[],"units":2,"tasks":[{"name":"A","priority":1,"mask":1,"program":[{"work":1}]}],"ticks":1},"edits":[{"edit":"set","task":"A","item":[1],"work":2}]}"#;

/// A work of no units.
const NO_WORK: &str =
    r#"{"format":3,"cores":2,"priorities":2,"slicing":false,"tick":0,"mutexes":0,"notes":1,"queues":[],"tasks":[{"name":"A","priority":1,"mask":1,"program":[{"work":0}]}],"ticks":1}"#;

/// A yields for ever, so no time goes by.
const ENDLESS: &str =
    r#"{"format":3,"cores":2,"priorities":2,"slicing":false,"tick":0,"mutexes":0,"notes":1,"queues":[],"tasks":[{"name":"A","priority":1,"mask":1,"program":[{"forever":[{"do":"hold_close"}]}]}],"ticks":1}"#;

const TOO_LONG: &str = "refused J2\nthe run of the workload has more than 1000000 steps; \
    A made each of its last 1000 calls\n";

const NONE: &str = "refused H2 top\ntop: expected a workload, an object with ticks and with \
    neither session nor steps\n";

/// What the program writes of the document, with this line.
fn written<R: Threads + Abort + Sync>(
    rt: &R,
    host: &HostRuntime,
    line: &str,
    document: &str,
    output: &mut Sink,
    errors: &mut Sink,
) -> Result<(), AllocError> {
    let words = Ok(args_of(host.alloc(), line)?);
    let shelf = Shelf {
        name: "run.json",
        text: "".as_bytes(),
    };
    let mut reader = DocumentSource::new(document.as_bytes(), &shelf);
    let _status = status_of(rt, host, words, &mut reader, output, errors);
    Ok(())
}

/// A command tells the same of the workload and of its run.
fn check_same<R: Threads + Abort + Sync>(
    rt: &R,
    host: &HostRuntime,
    line: &str,
    workload: &str,
    run: &str,
) -> Result<(), AllocError> {
    let (mut output, mut errors) = (Sink::wide(), Sink::wide());
    written(rt, host, line, workload, &mut output, &mut errors)?;
    let (mut wanted, mut no_errors) = (Sink::wide(), Sink::wide());
    written(rt, host, line, run, &mut wanted, &mut no_errors)?;
    expect_same(rt, line, output.taken(), wanted.taken());
    expect_same(rt, line, errors.taken(), no_errors.taken());
    Ok(())
}

#[test]
fn each_command_shows_the_run(rt: HostRuntime) -> Result<(), Fail> {
    for line in [
        "smp_view trace",
        "smp_view trace --settle --task A",
        "smp_view session",
        "smp_view settle",
        "smp_view compare",
        "smp_view timeline --axis time",
        "smp_view report",
        "smp_view check --at-most A.run=0",
    ] {
        check_same(&rt, &rt, line, WORKLOAD, RUN)?;
    }
    Ok(())
}

/// These commands show the run after the edit alone.
#[test]
fn each_of_these_shows_the_run_after_the_edit(rt: HostRuntime) -> Result<(), Fail> {
    for line in [
        "smp_view trace",
        "smp_view trace --settle --task A",
        "smp_view session",
        "smp_view settle",
        "smp_view check --at-most A.run=1",
        "smp_view check --settle --strict --at-most A.run=2",
    ] {
        check_same(&rt, &rt, line, EDITED, EDITED_RUN)?;
    }
    Ok(())
}

fn check<R: Threads + Abort + Sync>(
    rt: &R,
    host: &HostRuntime,
    line: &str,
    document: &str,
    wanted: Wanted<'_>,
) -> Result<(), AllocError> {
    let words = Ok(args_of(host.alloc(), line)?);
    check_program(rt, host, words, document, "", wanted);
    Ok(())
}

fn shown(output: &str) -> Wanted<'_> {
    Wanted {
        code: 0,
        output,
        errors: "",
    }
}

fn simulated<'w>(output: &'w str, errors: &'w str) -> Wanted<'w> {
    Wanted {
        code: 0,
        output,
        errors,
    }
}

fn refused(errors: &str) -> Wanted<'_> {
    Wanted {
        code: 1,
        output: "",
        errors,
    }
}

#[test]
fn runs_of_workloads(rt: HostRuntime) -> Result<(), Fail> {
    check(&rt, &rt, "smp_view session", WORKLOAD, shown(RUN))?;
    let ended = simulated(RUN, "at the end of its program: A\n");
    check(&rt, &rt, "smp_view simulate", WORKLOAD, ended)?;
    check(&rt, &rt, "smp_view simulate --ticks 1", HELD, ended)?;
    let begun = simulated(NO_RUN, "not at the end of its program: A\n");
    check(&rt, &rt, "smp_view simulate --ticks 0", HELD, begun)?;
    check(&rt, &rt, "smp_view simulate", ENDLESS, refused(TOO_LONG))?;
    Ok(())
}

#[test]
fn documents_that_are_no_workloads(rt: HostRuntime) -> Result<(), Fail> {
    check(&rt, &rt, "smp_view simulate", FIRST_RUN, refused(NONE))?;
    check(&rt, &rt, "smp_view simulate", SHARED_MUTEX, refused(NONE))?;
    check(&rt, &rt, "smp_view simulate", "{}", refused(NONE))?;
    let at_work = "refused F5 tasks[0].program[0]\n\
        tasks[0].program[0]: work has to be 1 or more (line 1, column 151)\n";
    check(&rt, &rt, "smp_view trace", NO_WORK, refused(at_work))?;
    Ok(())
}

#[test]
fn runs_of_edited_workloads(rt: HostRuntime) -> Result<(), Fail> {
    let ended = simulated(EDITED_RUN, "at the end of its program: A\n");
    check(&rt, &rt, "smp_view simulate", EDITED, ended)?;
    let begun = simulated(NO_RUN, "not at the end of its program: A\n");
    check(&rt, &rt, "smp_view simulate --ticks 0", EDITED, begun)?;
    check(&rt, &rt, "smp_view session", UNEDITED, shown(RUN))?;
    check(&rt, &rt, "smp_view compare", EDITED, shown(COMPARED))?;
    check(
        &rt,
        &rt,
        "smp_view compare --settle --strict",
        EDITED,
        shown(COMPARED),
    )?;
    check(&rt, &rt, "smp_view report", EDITED, shown(REPORTED))?;
    Ok(())
}

#[test]
fn advice_on_a_workload(rt: HostRuntime) -> Result<(), Fail> {
    let line = "smp_view advise --task A --less run --over pin";
    check(&rt, &rt, line, EDITED, shown(PINNED))?;
    Ok(())
}

#[test]
fn edited_workloads_that_are_refused(rt: HostRuntime) -> Result<(), Fail> {
    let at_item = "refused F4 edits[0].item\n\
        edits[0].item: no item of the program stands at this path (line 1, column 239)\n";
    check(&rt, &rt, "smp_view trace", NO_ITEM, refused(at_item))?;
    check(
        &rt,
        &rt,
        "smp_view trace",
        EDITED_ENDLESS,
        refused(TOO_LONG),
    )?;
    check(&rt, &rt, "smp_view compare", ENDED, refused(TOO_LONG))?;
    Ok(())
}
