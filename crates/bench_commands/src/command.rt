//! What a command line asks for.
ghost use Rattle.std.specs.Prelude.{◌≡◌, IfOk, IfSome, map, option_map, false, true};
ghost use Rattle.std.specs.Option.{IsSomeAnd};
ghost use Rattle.clap.specs.Words.{app_of, found_of, rows_of, rule_of, subcommand_rows_of};
ghost use Rattle.command_words.specs.Answered.{said};
ghost use Rattle.command_words.specs.Said.{SaysMistake, class_in};
ghost use Rattle.command_words.specs.Printed.{IsPrinted};
ghost use Rattle.bench_commands.specs.Command.{AreTaken, TellsMistake, asked, asked_by, asked_in, asked_for, bench_app, can_run, record_app, replay_app, span_in, span_rule, tally_in, tally_rule, text_of_saying, text_told, what_if_app};

use crate::execution::Mode;
use bench_types::MAX_SPAN;
use clap::{Arg, ArgMatches, Command, value_parser};
use command_words::{Parsed, Saying, flag, option, parse_line, program};
use std::alloc::{AllocError, Global};
use std::convert::AsStr;

/// The span of checkpoints where the command line gives none.
pub const DEFAULT_SPAN: u32 = 64;

/// Why there is no version. No words ask for one.
const NO_VERSION: &str = "error: smp_bench tells no version\n";

/// What a command line asks for.
#[derive(Debug, Drop)]
pub enum Request {
    /// A run over standard input.
    Run(Mode),
    /// A recording of the rig document on standard input.
    Record,
    /// This help.
    Help(String),
    /// Nothing that the program does; the text says why, and begins with `error: `.
    Bad(String),
}

// What stands below the commands in the program's help.
const DOCUMENTS: &str = r#"Documents, each a JSON text on standard input:
  session         the cores, priorities and tasks, and the steps of a run
  bench document  a session, and edits of it
  rig             a session without steps, and a script of actions for each core

Exit status:
  0  all went well
  1  the input is refused: standard output has the code, standard error says why
  2  a bad command line
  3  memory was refused, or a read or a write failed

Example: smp_bench replay < examples/first-run.json"#;

// Below the options of a replay.
const REPLAY_DOCUMENTS: &str =
    r#"It reads a session, or a bench document: {"session": SESSION, "edits": [EDIT, ..]}
The edits are made one after another, before the replay:
  {"edit": "insert", "at": INDEX, "step": STEP}
  {"edit": "remove", "at": INDEX}
  {"edit": "replace", "at": INDEX, "step": STEP}
  {"edit": "change", "task": NAME, "priority": NUMBER, "mask": NUMBER}

Example: smp_bench replay --tally < examples/another-call.json"#;

// Below the options of trials.
const WHAT_IF_DOCUMENTS: &str =
    r#"It reads a bench document: {"session": SESSION, "edits": [EDIT, ..]}
Each edit is made alone, of the session as it is read:
  {"edit": "insert", "at": INDEX, "step": STEP}
  {"edit": "remove", "at": INDEX}
  {"edit": "replace", "at": INDEX, "step": STEP}
  {"edit": "change", "task": NAME, "priority": NUMBER, "mask": NUMBER}

Example: smp_bench whatif < examples/what-if/ends-an-inversion.json"#;

// Below the options of a recording.
const RIG_DOCUMENTS: &str =
    r#"It reads a rig: {"session": SESSION, "limit": ENTRIES, "scripts": [[ACTION, ..], ..]}
The session has no steps, and each core has a script. An action is a step without core and task.

Example: smp_bench record < examples/rigs/interrupt-driven-driver.json"#;

fn span_option<'a>(alloc: Global) -> Arg<'a>
    ensures { rule_of result ≡ span_rule }
{
    option(alloc, "span", "STEPS")
        .help("Steps from one checkpoint to the next, 1 to 1000, or 64 if left out")
        .value_parser(value_parser!(u32).range(1..=i64::from(MAX_SPAN)))
}

fn tally_flag<'a>(alloc: Global) -> Arg<'a>
    ensures { rule_of result ≡ tally_rule }
{
    flag(alloc, "tally").help("Prints how each task fared, after the steps")
}

fn replay_command<'a>(alloc: Global) -> Result<Command<'a>, AllocError>
    ensures { IfOk result (λ command. IsPrinted command replay_app) }
{
    Command::new(alloc, "replay")
        .about(
            "Replays the session on standard input, and prints the tasks that run after each step",
        )
        .after_help(REPLAY_DOCUMENTS)
        .arg(span_option(alloc))?
        .arg(tally_flag(alloc))
}

fn what_if_command<'a>(alloc: Global) -> Result<Command<'a>, AllocError>
    ensures { IfOk result (λ command. IsPrinted command what_if_app) }
{
    Command::new(alloc, "whatif")
        .about(
            "Tries each edit of the document on standard input alone, and prints what it would change",
        )
        .after_help(WHAT_IF_DOCUMENTS)
        .arg(span_option(alloc))
}

fn record_command<'a>(alloc: Global) -> Command<'a>
    ensures { IsPrinted result record_app }
{
    Command::new(alloc, "record")
        .about(
            "Plays the scripts of the rig on standard input, one thread a core, and prints the session",
        )
        .after_help(RIG_DOCUMENTS)
}

// The program with its commands.
fn bench_program<'a>(alloc: Global) -> Result<Command<'a>, AllocError>
    ensures { IfOk result (λ program. app_of program ≡ bench_app) }
{
    let replay = replay_command(alloc)?;
    let what_if = what_if_command(alloc)?;
    program(alloc, "smp_bench")
        .about("Records and replays FreeRTOS SMP scheduling sessions")
        .after_help(DOCUMENTS)
        .subcommand(replay)?
        .subcommand(what_if)?
        .subcommand(record_command(alloc))
}

// What clap says asks for this; there is no version that the program tells.
fn said(alloc: Global, saying: Saying) -> Result<Request, AllocError>
    requires { SaysMistake saying }
    ensures span { IfOk result (λ request. can_run request ≡ true) }
    ensures asked { IfOk result
        (λ request. asked_in request ≡ asked_by (said (class_in saying))) }
    ensures text { IfOk result (λ request. text_told request ≡ text_of_saying saying) }
    ensures mark { IfOk result TellsMistake }
{
    match saying {
        Saying::Help(text) => Ok(Request::Help(text)),
        Saying::Version => Ok(Request::Bad(String::from_str(alloc, NO_VERSION)?)),
        Saying::Mistake(text) => Ok(Request::Bad(text)),
    }
}

fn span_in(options: &ArgMatches) -> u32
    requires { AreTaken (rows_of (found_of options.now)) }
    ensures { result ≡ span_in (rows_of (found_of options.now)) }
{
    options.get_one::<u32>("span").unwrap_or(DEFAULT_SPAN)
}

fn tally_in(options: &ArgMatches) -> bool
    requires { AreTaken (rows_of (found_of options.now)) }
    ensures { result ≡ tally_in (rows_of (found_of options.now)) }
{
    options.get_flag("tally")
}

// What the command that was met asks for.
fn asked_for(matches: &ArgMatches) -> Request
    requires { IsSomeAnd (subcommand_rows_of matches.now) (λ met. AreTaken met.1) }
    ensures { IfSome (subcommand_rows_of matches.now)
        (λ met. asked_in result ≡ asked_for met.0 met.1) }
{
    let (name, options) = matches.subcommand().unwrap();
    if name == "record" {
        return Request::Record;
    }
    if name == "whatif" {
        return Request::Run(Mode::WhatIf {
            span: span_in(options),
        });
    }
    Request::Run(Mode::Replay {
        span: span_in(options),
        tally: tally_in(options),
    })
}

/// Reads a command line: its words, the program's name first, or `None` where one of them is no
/// text. The texts are clap's.
pub fn request_of<S: AsStr>(alloc: Global, words: Option<&[S]>) -> Result<Request, AllocError>
    ensures span { IfOk result (λ request. can_run request ≡ true) }
    ensures asked { IfOk result
        (λ request. asked_in request ≡ asked (option_map (λ all. map S.text all.now) words.entry)) }
    ensures mark { IfOk result TellsMistake }
{
    match parse_line(alloc, bench_program(alloc)?, words)? {
        Parsed::Met(matches) => Ok(asked_for(&matches)),
        Parsed::Said(saying) => said(alloc, saying),
    }
}
