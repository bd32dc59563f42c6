//! Command lines: what is asked for by each, and how the program ends with it.
use crate::devices::Sink;
use bench_commands::{Mode, Request, carry_out, request_of};
use program_io::{Counted, Ending};
use std::alloc::{AllocError, Global};
use std::process::Abort;
use std::sync::Wait;
use std::test::Fail;
use std::thread::Threads;

/// Command lines, and what each asks for: a replay with this span, and tallies or not, trials with
/// this span, a recording, help that begins so, or nothing that the program does.
const COMMAND_LINES: &str = "\
smp_bench replay => 64
smp_bench replay -- => 64
smp_bench replay --span 1 => 1
smp_bench replay --span 5 => 5
smp_bench replay --span 64 => 64
smp_bench replay --span 1000 => 1000
smp_bench replay --span 007 => 7
smp_bench replay --span +5 => 5
smp_bench replay --span 5 -- => 5
smp_bench replay --span=5 => 5
smp_bench replay --span=+0005 -- => 5
smp_bench replay --tally => 64 tally
smp_bench replay --tally -- => 64 tally
smp_bench replay --tally --span 7 => 7 tally
smp_bench replay --span 7 --tally => 7 tally
smp_bench replay --span=7 --tally -- => 7 tally
smp_bench replay --tally --span=7 => 7 tally
smp_bench whatif => 64 trials
smp_bench whatif -- => 64 trials
smp_bench whatif --span 7 => 7 trials
smp_bench whatif --span=+0005 -- => 5 trials
smp_bench record => a recording
smp_bench record -- => a recording
smp_bench --help => Records and replays
smp_bench -hx => Records and replays
smp_bench replay -h again => Replays the session
smp_bench replay --span 5 --help => Replays the session
smp_bench replay --span=5 -hx => Replays the session
smp_bench replay --help --span 0 => Replays the session
smp_bench replay --tally --help => Replays the session
smp_bench replay --span 5 --tally -h => Replays the session
smp_bench whatif --help => Tries each edit
smp_bench whatif --span 5 -h again => Tries each edit
smp_bench record --help => Plays the scripts
smp_bench record -hx again => Plays the scripts
smp_bench => a mistake
smp_bench help => a mistake
smp_bench -- replay => a mistake
smp_bench replay again => a mistake
smp_bench replay -- again => a mistake
smp_bench --help=1 => a mistake
smp_bench replay --span => a mistake
smp_bench replay --span= => a mistake
smp_bench replay --span 0 => a mistake
smp_bench replay --span 1001 => a mistake
smp_bench replay --span 4294967297 => a mistake
smp_bench replay --span -1 => a mistake
smp_bench replay --span=-1 => a mistake
smp_bench replay --span x => a mistake
smp_bench replay --span - => a mistake
smp_bench replay --span -- => a mistake
smp_bench replay --span -- 5 => a mistake
smp_bench replay --span -h => a mistake
smp_bench replay --span 0 --help => a mistake
smp_bench replay --span=0 --help => a mistake
smp_bench replay --span 5 6 => a mistake
smp_bench replay --span 5 -- 6 => a mistake
smp_bench replay --span 5 --span 5 => a mistake
smp_bench replay --span 5 --span=5 => a mistake
smp_bench replay --span=5 --span => a mistake
smp_bench replay --span 5 --span --help => a mistake
smp_bench replay --spam 5 => a mistake
smp_bench replay --spa 5 => a mistake
smp_bench replay --span=5=6 => a mistake
smp_bench replay  --span 5 => a mistake
smp_bench --span 5 replay => a mistake
smp_bench replay --tally --tally => a mistake
smp_bench replay --tally --span 5 --tally => a mistake
smp_bench replay --span 5 --tally --span 5 => a mistake
smp_bench replay --tally=true => a mistake
smp_bench replay --tally= => a mistake
smp_bench replay --tally true => a mistake
smp_bench replay --span --tally => a mistake
smp_bench replay --span 0 --tally => a mistake
smp_bench replay --tally --span 0 => a mistake
smp_bench replay --tally again => a mistake
smp_bench replay -- --tally => a mistake
smp_bench replay -t => a mistake
smp_bench replay --tall => a mistake
smp_bench --tally replay => a mistake
smp_bench whatif again => a mistake
smp_bench whatif --tally => a mistake
smp_bench whatif --span => a mistake
smp_bench whatif --span 0 => a mistake
smp_bench whatif --span 1001 => a mistake
smp_bench whatif --span 5 --span 5 => a mistake
smp_bench whatif --span 5 --tally => a mistake
smp_bench whatif replay => a mistake
smp_bench replay whatif => a mistake
smp_bench what-if => a mistake
smp_bench what => a mistake
smp_bench record again => a mistake
smp_bench record -- again => a mistake
smp_bench record --tally => a mistake
smp_bench record --span 5 => a mistake
smp_bench record --span=5 => a mistake
smp_bench record -t => a mistake
smp_bench record replay => a mistake
smp_bench replay record => a mistake
smp_bench recor => a mistake
smp_bench records => a mistake
";

/// What the program is to do with its input.
#[derive(Clone, Copy, Debug, PartialEq, Eq)]
enum Task {
    Replay(u32, bool),
    Trials(u32),
    Recording,
    Nothing,
}

/// What a command line asks for, how the program ends, and how what it writes begins.
#[derive(Clone, Copy)]
struct Wanted<'a> {
    task: Task,
    code: u8,
    output: &'a str,
    message: &'a str,
}

fn task_in(mode: Mode) -> Task {
    match mode {
        Mode::Replay { tally, .. } => Task::Replay(mode.span(), tally),
        Mode::WhatIf { .. } => Task::Trials(mode.span()),
    }
}

fn task_of(request: &Request) -> Task {
    match request {
        Request::Run(mode) => task_in(*mode),
        Request::Record => Task::Recording,
        _ => Task::Nothing,
    }
}

fn task_asked(alloc: Global, words: &[&str]) -> Result<Task, AllocError> {
    Ok(task_of(&request_of(alloc, Some(words))?))
}

/// Whether a text begins so, and is empty where nothing is wanted.
fn begins(text: &[u8], start: &str) -> bool {
    text.starts_with(start.as_bytes()) && text.is_empty() == start.is_empty()
}

fn ends(ending: &Ending, output: &[u8], wanted: &Wanted<'_>) -> bool {
    ending.code() == wanted.code
        && begins(ending.message(), wanted.message)
        && begins(output, wanted.output)
}

fn expect_task(rt: &impl Abort, words: &[&str], asked: Result<Task, AllocError>, wanted: Task) {
    assert_eq!(rt; asked, Ok(wanted), "{words:?}");
}

fn expect_end(rt: &impl Abort, words: &[&str], ending: &Ending, is_wanted: bool) {
    assert!(rt; is_wanted, "{words:?}: {ending:?}");
}

/// The input is empty, so that a replay is refused, and a recording too.
fn check_words<R: Threads + Wait + Abort + Sync>(
    rt: &R,
    host: &HostRuntime,
    words: &[&str],
    wanted: &Wanted<'_>,
) {
    expect_task(rt, words, task_asked(host.alloc(), words), wanted.task);
    let mut sink = Sink::wide();
    let mut reader = Counted::new("".as_bytes());
    let mut writer = Counted::new(&mut sink);
    let ending = carry_out(
        rt,
        host,
        host.alloc(),
        Some(words),
        &mut reader,
        &mut writer,
    );
    expect_end(rt, words, &ending, ends(&ending, sink.taken(), wanted));
}

fn check_line<R: Threads + Wait + Abort + Sync>(
    rt: &R,
    host: &HostRuntime,
    line: &str,
    wanted: &Wanted<'_>,
) -> Result<(), AllocError> {
    let words: Vec<&str> = line.split(' ').collect(host.alloc())?;
    check_words(rt, host, words.as_slice(), wanted);
    Ok(())
}

/// What a row names: a replay by its span, and by `tally` after it, and trials by `trials`.
fn task_named(asked: &str) -> Task {
    if asked == "a recording" {
        return Task::Recording;
    }
    let (span, what) = asked.split_once(' ').unwrap_or((asked, ""));
    match (span.parse(), what) {
        (Ok(span), "trials") => Task::Trials(span),
        (Ok(span), _) => Task::Replay(span, what == "tally"),
        (Err(_), _) => Task::Nothing,
    }
}

fn wanted_of(asked: &str) -> Wanted<'_> {
    let (task, is_mistake) = (task_named(asked), asked == "a mistake");
    if task != Task::Nothing {
        return Wanted {
            task,
            code: 1,
            output: "refused H1\n",
            message: "not JSON: line 1",
        };
    }
    Wanted {
        task,
        code: if is_mistake { 2 } else { 0 },
        output: if is_mistake { "" } else { asked },
        message: if is_mistake { "error: " } else { "" },
    }
}

#[test]
fn command_lines(rt: HostRuntime) -> Result<(), Fail> {
    for row in COMMAND_LINES.lines() {
        let (line, asked) = row.split_once(" => ").unwrap_or((row, ""));
        check_line(&rt, &rt, line, &wanted_of(asked))?;
    }
    Ok(())
}
