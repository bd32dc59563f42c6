//! The help of `smp_bench` and of each of its commands, whole.
use crate::devices::expect_same;
use bench_commands::{Request, request_of};
use std::alloc::{AllocError, Global};
use std::process::Abort;
use std::test::Fail;

const HELP: &str = "Records and replays FreeRTOS SMP scheduling sessions

Usage: smp_bench <COMMAND>

Commands:
  replay  Replays the session on standard input, and prints the tasks that run after each step
  whatif  Tries each edit of the document on standard input alone, and prints what it would change
  record  Plays the scripts of the rig on standard input, one thread a core, and prints the session

Options:
  -h, --help  Print help

Documents, each a JSON text on standard input:
  session         the cores, priorities and tasks, and the steps of a run
  bench document  a session, and edits of it
  rig             a session without steps, and a script of actions for each core

Exit status:
  0  all went well
  1  the input is refused: standard output has the code, standard error says why
  2  a bad command line
  3  memory was refused, or a read or a write failed

Example: smp_bench replay < examples/first-run.json
";

const REPLAY: &str =
    r#"Replays the session on standard input, and prints the tasks that run after each step

Usage: smp_bench replay [OPTIONS]

Options:
      --span <STEPS>  Steps from one checkpoint to the next, 1 to 1000, or 64 if left out
      --tally         Prints how each task fared, after the steps
  -h, --help          Print help

It reads a session, or a bench document: {"session": SESSION, "edits": [EDIT, ..]}
The edits are made one after another, before the replay:
  {"edit": "insert", "at": INDEX, "step": STEP}
  {"edit": "remove", "at": INDEX}
  {"edit": "replace", "at": INDEX, "step": STEP}
  {"edit": "change", "task": NAME, "priority": NUMBER, "mask": NUMBER}

Example: smp_bench replay --tally < examples/another-call.json
"#;

const WHAT_IF: &str =
    r#"Tries each edit of the document on standard input alone, and prints what it would change

Usage: smp_bench whatif [OPTIONS]

Options:
      --span <STEPS>  Steps from one checkpoint to the next, 1 to 1000, or 64 if left out
  -h, --help          Print help

It reads a bench document: {"session": SESSION, "edits": [EDIT, ..]}
Each edit is made alone, of the session as it is read:
  {"edit": "insert", "at": INDEX, "step": STEP}
  {"edit": "remove", "at": INDEX}
  {"edit": "replace", "at": INDEX, "step": STEP}
  {"edit": "change", "task": NAME, "priority": NUMBER, "mask": NUMBER}

Example: smp_bench whatif < examples/what-if/ends-an-inversion.json
"#;

const RECORD: &str =
    r#"Plays the scripts of the rig on standard input, one thread a core, and prints the session

Usage: smp_bench record

Options:
  -h, --help  Print help

It reads a rig: {"session": SESSION, "limit": ENTRIES, "scripts": [[ACTION, ..], ..]}
The session has no steps, and each core has a script. An action is a step without core and task.

Example: smp_bench record < examples/rigs/interrupt-driven-driver.json
"#;

/// Command lines, and the whole text of each.
const HELPS: [(&str, &str); 4] = [
    ("smp_bench --help", HELP),
    ("smp_bench replay --help", REPLAY),
    ("smp_bench whatif --help", WHAT_IF),
    ("smp_bench record --help", RECORD),
];

#[test]
fn whole_helps(rt: HostRuntime) -> Result<(), Fail> {
    for (line, wanted) in &HELPS {
        check_help(&rt, rt.alloc(), line, wanted)?;
    }
    Ok(())
}

// The words of the line ask for this text.
fn check_help(rt: &impl Abort, alloc: Global, line: &str, wanted: &str) -> Result<(), AllocError> {
    let words = words_of(alloc, line)?;
    let request = request_of(alloc, Some(words.as_slice()))?;
    expect_same(rt, line, text_of(&request), wanted);
    Ok(())
}

fn words_of(alloc: Global, line: &str) -> Result<Vec<String>, AllocError> {
    let mut words = Vec::new(alloc);
    for word in line.split(' ') {
        words.push(String::from_str(alloc, word)?)?;
    }
    Ok(words)
}

fn text_of(request: &Request) -> &str {
    match request {
        Request::Help(text) => text.as_str(),
        _ => "",
    }
}
