//! What each command shows of a document.

use crate::samples::{FIRST_RUN, NO_NINTH, SHARED_MUTEX, TWO_NOTES};
use program_io::Counted;
use ranked_changes::Silent;
use run_views::Places;
use shown_runs::{Ask, Selection};
use std::alloc::{AllocError, Global};
use std::process::Abort;
use std::test::Fail;
use std::thread::Threads;
use view_commands::{Command, Documents, Job, SessionRuns, run};

const COMPARED: &str =
    "  0 0 mutex_take core 1 by logger mutex 0 ticks 0: true: the mutex was taken; control logger
+ - 1 mutex_give core 1 by logger mutex 0: true: the mutex was given; control logger
| 1 2 mutex_take core 0 by control mutex 0 ticks 5: blocked; control logger \
    -> true: the mutex was taken; control logger
- 2 - switch core 0: done; IDLE0 logger
| 3 3 tick: done; IDLE0 logger -> done; control logger
| 4 4 mutex_give core 1 by logger mutex 0: true: the mutex was given; IDLE0 logger \
    -> yield core 1 by logger: done; control logger
the runs differ first at - 1 and last at 4 4
task IDLE0 run on core 0 -1 wait +1 in -1
task control run on core 0 +1
task logger top -2
";

const UNEDITED: &str = "  0 0 delay core 0 by A ticks 2: blocked; A B
  1 1 switch core 0: done; C B
  2 2 tick: done; C B
  3 3 yield core 0 by C: done; C B
  4 4 switch core 0: done; C B
no step differs
";

const INDEXED: &str = "  0 0 notify_wait core 0 by A entry 0 exit 0 ticks 10 index 1: blocked; A B
  1 1 isr_notify core 1 to A action increment index 0: \
    isr true false: the notification passed; A B
  2 2 isr_notify core 1 to A action set value 9 index 1: \
    isr true false: the notification passed; A B
  3 3 switch core 0: done; A B
  4 4 finish core 0 by A: waited true 9: a notification had come; A B
no step differs
";

/// `TWO_NOTES`, written.
const INDEXED_KEPT: &str =
    "{\"cores\":2,\"format\":2,\"mutexes\":0,\"notes\":2,\"priorities\":5,\"slicing\":false,\
    \"steps\":[{\"by\":\"A\",\"core\":0,\"do\":\"notify_wait\",\"entry\":0,\"exit\":0,\"index\":1,\
    \"ticks\":10},{\"action\":\"increment\",\"core\":1,\"do\":\"isr_notify\",\"index\":0,\
    \"to\":\"A\"},{\"action\":\"set\",\"core\":1,\"do\":\"isr_notify\",\"index\":1,\"to\":\"A\",\
    \"value\":9},{\"core\":0,\"do\":\"switch\"},{\"by\":\"A\",\"core\":0,\"do\":\"finish\"}],\
    \"tasks\":[{\"mask\":3,\"name\":\"A\",\"priority\":2},{\"mask\":3,\"name\":\"B\",\
    \"priority\":1},{\"mask\":3,\"name\":\"C\",\"priority\":1}],\"tick\":0}\n";

/// The session of `SHARED_MUTEX` with its edits made.
pub(crate) const KEPT: &str =
    "{\"cores\":2,\"format\":1,\"mutexes\":1,\"priorities\":4,\"slicing\":false,\"steps\":[\
    {\"by\":\"logger\",\"core\":1,\"do\":\"mutex_take\",\"mutex\":0,\"ticks\":0},\
    {\"by\":\"logger\",\"core\":1,\"do\":\"mutex_give\",\"mutex\":0},\
    {\"by\":\"control\",\"core\":0,\"do\":\"mutex_take\",\"mutex\":0,\"ticks\":5},\
    {\"do\":\"tick\"},{\"by\":\"logger\",\"core\":1,\"do\":\"yield\"}],\
    \"tasks\":[{\"mask\":1,\"name\":\"control\",\"priority\":3},\
    {\"mask\":2,\"name\":\"logger\",\"priority\":1}],\"tick\":0}\n";

#[test]
fn views(rt: HostRuntime) -> Result<(), Fail> {
    expect(&rt, &rt, Ask::Compare, SHARED_MUTEX, COMPARED, NO_NINTH);
    expect(&rt, &rt, Ask::Compare, FIRST_RUN, UNEDITED, "");
    expect(&rt, &rt, Ask::Session, SHARED_MUTEX, KEPT, NO_NINTH);
    expect_traces(&rt, &rt)?;
    Ok(())
}

#[test]
fn views_of_two_notifications(rt: HostRuntime) -> Result<(), Fail> {
    expect(&rt, &rt, Ask::Compare, TWO_NOTES, INDEXED, "");
    expect(&rt, &rt, Ask::Session, TWO_NOTES, INDEXED_KEPT, "");
    Ok(())
}

fn expect<R: Threads + Abort + Sync>(
    rt: &R,
    host: &HostRuntime,
    asked: Ask,
    document: &str,
    wanted: &str,
    note: &str,
) {
    let job = Job {
        command: Command::Show(asked),
        sessions: SessionRuns::AsWritten,
        documents: Documents::All,
        strict: false,
    };
    let mut shown = Vec::new(host.alloc());
    let mut reader = Counted::new(document.as_bytes());
    let mut writer = Counted::new(&mut shown);
    let progress = &mut Silent;
    let alloc = host.alloc();
    let ending = run(rt, host, progress, alloc, &mut reader, &mut writer, &job);
    assert_eq!(rt; ending.code(), 0);
    assert!(rt; ending.message() == note.as_bytes());
    assert!(rt; shown.as_slice() == wanted.as_bytes());
}

// The steps of task B and core 1, of which there are none, and then those of task C.
const OF_C: &str = "place 1, tick 0; core 0 A, due by pend; core 1 B
step 1: switch core 0
  done: the step was made
  core 0 current A to C
  core 0 pend cleared
place 3, tick 1; core 0 C; core 1 B
step 3: yield core 0 by C
  done: the step was made
  core 0 pend set
place 5, tick 1; core 0 C; core 1 B
";

fn expect_traces<R: Threads + Abort + Sync>(rt: &R, host: &HostRuntime) -> Result<(), AllocError> {
    let alloc = host.alloc();
    expect(rt, host, trace_of(alloc, "C", None)?, FIRST_RUN, OF_C, "");
    let last = "place 5, tick 1; core 0 C; core 1 B\n";
    expect(
        rt,
        host,
        trace_of(alloc, "B", Some(1))?,
        FIRST_RUN,
        last,
        "",
    );
    Ok(())
}

fn trace_of(alloc: Global, task: &str, core: Option<u32>) -> Result<Ask, AllocError> {
    let mut tasks = Vec::new(alloc);
    tasks.push(String::from_str(alloc, task)?)?;
    let mut cores = Vec::new(alloc);
    if let Some(core) = core {
        cores.push(core)?;
    }
    Ok(Ask::Trace(Selection {
        places: Places {
            from: 0,
            to: u32::MAX,
        },
        tasks,
        cores,
    }))
}
