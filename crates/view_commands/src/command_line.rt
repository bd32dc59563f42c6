//! What a command line asks for.
ghost use Rattle.std.specs.Prelude.{◌≡◌, IfOk, map, option_map};
ghost use Rattle.clap.specs.Words.{app_of, rule_of};
ghost use Rattle.command_words.specs.Answered.{said};
ghost use Rattle.command_words.specs.Said.{SaysMistake, class_in, text_in};
ghost use Rattle.command_words.specs.Printed.{IsPrinted};
ghost use Rattle.view_commands.specs.CommandLine.{advise_app, asked, asked_by, asked_in, at_least_rule, at_most_rule, axis_rule, best_rule, check_app, compare_app, core_rule, file_rule, from_rule, json_rule, judged_rule, keep_work_rule, less_rule, over_rule, page_app, report_app, session_app, settle_app, settle_rule, showing_app, simulate_app, strict_rule, task_rule, TellsMistake, text_told, ticks_rule, ties_rule, timeline_app, to_rule, trace_app, view_app};

use crate::options::asked_for;
use crate::request::Request;
use clap::{Arg, ArgAction, Command, value_parser};
use command_words::{Parsed, Saying, flag, option, parse_line, program};
use std::alloc::{AllocError, Global};
use std::convert::AsStr;
use task_programs::MAX_TICKS;

/// What `--version` prints behind the program's name.
pub(crate) const VERSION: &str = "0.1.0";

// What stands below the commands in the program's help.
const DOCUMENTS: &str = r#"Documents, each a JSON text, in FILE or on standard input:
  session         the cores, priorities and tasks, and the steps of a run
  bench document  a session, and edits of it: they are made one after another, and those that are
                  refused are passed over
  workload        what each task does, and the interrupts that come; edits of it may stand beside
                  it: its run is shown, or those before and after the edits

Exit status:
  0  it was shown
  1  the document or a run made of it is refused, or has no such task or core, or its picture has
     more than 4000 places, or a limit is not kept; with --strict also where an edit is refused,
     or a step of the run after the edits
  2  a bad command line, or a number that has no such name
  3  memory was refused, a read or a write failed, or the file can't be opened

Standard error says why nothing is shown, and which edits are refused.

Example: smp_view trace --from 2 --to 3 examples/first-run.json"#;

// Below the options of a trace.
const TRACES: &str = "Without a task or a core that is named, each step is shown.
A name that begins with a hyphen stands behind an equals sign: --task=-x

Example: smp_view trace --from 2 --to 3 examples/first-run.json";

// Below the arguments of a session.
const SESSIONS: &str =
    "The edits are made one after another, and those that are refused are passed over.

Example: smp_view session examples/another-call.json";

// Below the arguments of a settled run.
const SETTLED_RUNS: &str =
    "A settled run is what a target makes of the calls, ticks and interrupts of a session: each switch
and each return from a call is made by itself. Standard error says how many calls of which tasks
were not made. With --keep-work the run that keeps work is printed in its place.

Example: smp_view settle examples/held-kernel.json";

// Below the options of a comparison.
const COMPARISONS: &str = "With --settle or --keep-work it also says which calls were not made.

Example: smp_view compare --settle examples/settled/shorter-timeout.json";

// Below the options of a picture.
const PICTURES: &str =
    "A picture shows at most 4000 places. With --axis tick each tick is ruled, and has as many columns
as the run with more places in it needs, so that two runs stand tick by tick. With --axis time a
place is as wide as the time until the next one, and one column at least.

Example: smp_view timeline examples/questions/shared-mutex.json";

// Below the options of a page.
const PAGES: &str =
    "The page has the picture and the trace of the run, with edits the comparison, and the report. It
needs nothing from elsewhere, and shows at most 4000 places. Its picture is that of `timeline`.

Example: smp_view page examples/questions/shared-mutex.json > page.html";

// Below the options of a report.
const REPORTS: &str =
    "Time in each condition with the longest stretch of it, switches, refusals and the like, of
each task, core and mutex. The table leaves out what is 0; the JSON object has everything.

Example: smp_view report --settle examples/settled/shorter-timeout.json";

// Below the options of a check.
const CHECKS: &str =
    "The names are those that `report` prints. Each limit that is not kept is printed, a line each. The
exit status is 0 where all are kept, 1 where not, and 2 where a name is none.

Example: smp_view check --settle --at-most control.blocked.mutex=3 \
    examples/settled/shorter-timeout.json";

// Below the options of advice.
const ADVICE: &str =
    "It tries each change of one task's priority (priority) and mask (mask: of at most 4 cores all masks, of
more each core alone and all cores; pin: each core alone), and of a session each exchange of two
neighbouring calls of different tasks (order), each alone, and prints the best: the least number
first, of equals the smaller change, with what it costs the other tasks. A workload is simulated
with each change.

Example: smp_view advise --settle --task control --less blocked.mutex --over priority \
    examples/settled/mutex-events.json";

// Below the options of a simulation.
const SIMULATIONS: &str =
    "A workload says what each task does, which interrupts come, and for how many ticks. Its run is
settled. With edits it is the run after them. Every other command shows a workload by its run, too.

Example: smp_view simulate --ticks 100 examples/workloads/two-periods.json";

fn settle_flag<'a>(alloc: Global) -> Arg<'a>
    ensures { rule_of result ≡ settle_rule }
{
    flag(alloc, "settle").help(
        "Shows settled runs: what a target makes of the calls, ticks and interrupts",
    )
}

fn keep_work_flag<'a>(alloc: Global) -> Arg<'a>
    ensures { rule_of result ≡ keep_work_rule }
{
    flag(alloc, "keep-work").help(
        "Shows runs that keep work: a call comes when its task worked as long as before",
    )
}

fn ties_option<'a>(alloc: Global) -> Arg<'a>
    ensures { rule_of result ≡ ties_rule }
{
    option(alloc, "ties", "WHICH").help(
        "Which of several calls at one time is first: oldest, also if left out, or core",
    )
}

fn strict_flag<'a>(alloc: Global) -> Arg<'a>
    ensures { rule_of result ≡ strict_rule }
{
    flag(alloc, "strict").help("Ends with status 1 where an edit or a step of the run is refused")
}

fn json_flag<'a>(alloc: Global) -> Arg<'a>
    ensures { rule_of result ≡ json_rule }
{
    flag(alloc, "json").help("Prints one JSON object")
}

fn from_option<'a>(alloc: Global) -> Arg<'a>
    ensures { rule_of result ≡ from_rule }
{
    option(alloc, "from", "PLACE")
        .help("The first place that is shown, or 0 if left out")
        .value_parser(value_parser!(u32))
}

fn to_option<'a>(alloc: Global) -> Arg<'a>
    ensures { rule_of result ≡ to_rule }
{
    option(alloc, "to", "PLACE")
        .help("The last place that is shown, or the last of the run if left out")
        .value_parser(value_parser!(u32))
}

fn task_option<'a>(alloc: Global) -> Arg<'a>
    ensures { rule_of result ≡ task_rule }
{
    option(alloc, "task", "NAME")
        .help("Shows the steps that concern this task; may stand several times")
        .action(ArgAction::Append)
}

fn core_option<'a>(alloc: Global) -> Arg<'a>
    ensures { rule_of result ≡ core_rule }
{
    option(alloc, "core", "CORE")
        .help("Shows the steps that concern this core; may stand several times")
        .action(ArgAction::Append)
        .value_parser(value_parser!(u32))
}

fn axis_option<'a>(alloc: Global) -> Arg<'a>
    ensures { rule_of result ≡ axis_rule }
{
    option(alloc, "axis", "AXIS").help("What a column is of: place, also if left out, tick or time")
}

fn at_most_option<'a>(alloc: Global) -> Arg<'a>
    ensures { rule_of result ≡ at_most_rule }
{
    option(alloc, "at-most", "NAME=N")
        .help("The number of this name is to be N or less; may stand several times")
        .action(ArgAction::Append)
}

fn at_least_option<'a>(alloc: Global) -> Arg<'a>
    ensures { rule_of result ≡ at_least_rule }
{
    option(alloc, "at-least", "NAME=N")
        .help("The number of this name is to be N or more; may stand several times")
        .action(ArgAction::Append)
}

fn judged_option<'a>(alloc: Global) -> Arg<'a>
    ensures { rule_of result ≡ judged_rule }
{
    Arg::new(alloc, "judged")
        .long("task")
        .value_name("NAME")
        .help("The task that is to have less of a number")
        .required(true)
}

fn less_option<'a>(alloc: Global) -> Arg<'a>
    ensures { rule_of result ≡ less_rule }
{
    option(alloc, "less", "NUMBER")
        .help("The number of the task, as `report` names it: blocked.mutex, ready.longest, ..")
        .required(true)
}

fn over_option<'a>(alloc: Global) -> Arg<'a>
    ensures { rule_of result ≡ over_rule }
{
    option(alloc, "over", "CHANGES").help(
        "Which changes are tried, with commas between them, or priority,mask,order if left out",
    )
}

fn best_option<'a>(alloc: Global) -> Arg<'a>
    ensures { rule_of result ≡ best_rule }
{
    option(alloc, "best", "COUNT")
        .help("How many of the best are printed, or 10 if left out")
        .value_parser(value_parser!(u32))
}

fn ticks_option<'a>(alloc: Global) -> Arg<'a>
    ensures { rule_of result ≡ ticks_rule }
{
    option(alloc, "ticks", "TICKS")
        .help("How many ticks the workload goes on for, 0 to 1000000, or as it says if left out")
        .value_parser(value_parser!(u32).range(0..=i64::from(MAX_TICKS)))
}

fn file_argument<'a>(alloc: Global) -> Arg<'a>
    ensures { rule_of result ≡ file_rule }
{
    Arg::new(alloc, "file").value_name("FILE").help(
        "The file of the document; standard input if it is - or left out",
    )
}

fn trace_command<'a>(alloc: Global) -> Result<Command<'a>, AllocError>
    ensures { IfOk result (λ command. IsPrinted command trace_app) }
{
    Command::new(alloc, "trace")
        .after_help(TRACES)
        .about("Prints each place of a run, and each step with all that it changed")
        .arg(settle_flag(alloc))?
        .arg(keep_work_flag(alloc))?
        .arg(ties_option(alloc))?
        .arg(from_option(alloc))?
        .arg(to_option(alloc))?
        .arg(task_option(alloc))?
        .arg(core_option(alloc))?
        .arg(strict_flag(alloc))?
        .arg(file_argument(alloc))
}

fn session_command<'a>(alloc: Global) -> Result<Command<'a>, AllocError>
    ensures { IfOk result (λ command. IsPrinted command session_app) }
{
    Command::new(alloc, "session")
        .after_help(SESSIONS)
        .about("Prints the session with its edits made, as a document")
        .arg(strict_flag(alloc))?
        .arg(file_argument(alloc))
}

fn settle_command<'a>(alloc: Global) -> Result<Command<'a>, AllocError>
    ensures { IfOk result (λ command. IsPrinted command settle_app) }
{
    Command::new(alloc, "settle")
        .after_help(SETTLED_RUNS)
        .about("Prints the settled run of the session with its edits made, as a document")
        .arg(keep_work_flag(alloc))?
        .arg(ties_option(alloc))?
        .arg(strict_flag(alloc))?
        .arg(file_argument(alloc))
}

fn compare_command<'a>(alloc: Global) -> Result<Command<'a>, AllocError>
    ensures { IfOk result (λ command. IsPrinted command compare_app) }
{
    Command::new(alloc, "compare")
        .after_help(COMPARISONS)
        .about("Shows the runs before and after the edits, and what each task gained and lost")
        .arg(settle_flag(alloc))?
        .arg(keep_work_flag(alloc))?
        .arg(ties_option(alloc))?
        .arg(strict_flag(alloc))?
        .arg(file_argument(alloc))
}

fn timeline_command<'a>(alloc: Global) -> Result<Command<'a>, AllocError>
    ensures { IfOk result (λ command. IsPrinted command timeline_app) }
{
    Command::new(alloc, "timeline")
        .after_help(PICTURES)
        .about("Draws the runs before and after the edits, as an SVG picture")
        .arg(settle_flag(alloc))?
        .arg(keep_work_flag(alloc))?
        .arg(ties_option(alloc))?
        .arg(axis_option(alloc))?
        .arg(from_option(alloc))?
        .arg(to_option(alloc))?
        .arg(strict_flag(alloc))?
        .arg(file_argument(alloc))
}

fn page_command<'a>(alloc: Global) -> Result<Command<'a>, AllocError>
    ensures { IfOk result (λ command. IsPrinted command page_app) }
{
    Command::new(alloc, "page")
        .after_help(PAGES)
        .about("Writes one HTML file of the runs: picture, trace, comparison and report")
        .arg(settle_flag(alloc))?
        .arg(keep_work_flag(alloc))?
        .arg(ties_option(alloc))?
        .arg(axis_option(alloc))?
        .arg(from_option(alloc))?
        .arg(to_option(alloc))?
        .arg(strict_flag(alloc))?
        .arg(file_argument(alloc))
}

fn report_command<'a>(alloc: Global) -> Result<Command<'a>, AllocError>
    ensures { IfOk result (λ command. IsPrinted command report_app) }
{
    Command::new(alloc, "report")
        .after_help(REPORTS)
        .about("Prints the numbers of the run, or of the runs before and after the edits")
        .arg(settle_flag(alloc))?
        .arg(keep_work_flag(alloc))?
        .arg(ties_option(alloc))?
        .arg(json_flag(alloc))?
        .arg(strict_flag(alloc))?
        .arg(file_argument(alloc))
}

fn check_command<'a>(alloc: Global) -> Result<Command<'a>, AllocError>
    ensures { IfOk result (λ command. IsPrinted command check_app) }
{
    Command::new(alloc, "check")
        .after_help(CHECKS)
        .about("Says whether numbers of the run after the edits keep limits")
        .arg(settle_flag(alloc))?
        .arg(keep_work_flag(alloc))?
        .arg(ties_option(alloc))?
        .arg(at_most_option(alloc))?
        .arg(at_least_option(alloc))?
        .arg(strict_flag(alloc))?
        .arg(file_argument(alloc))
}

fn advise_command<'a>(alloc: Global) -> Result<Command<'a>, AllocError>
    ensures { IfOk result (λ command. IsPrinted command advise_app) }
{
    Command::new(alloc, "advise")
        .after_help(ADVICE)
        .about("Tries changes of the tasks, and prints those that make a number lowest")
        .arg(settle_flag(alloc))?
        .arg(keep_work_flag(alloc))?
        .arg(ties_option(alloc))?
        .arg(judged_option(alloc))?
        .arg(less_option(alloc))?
        .arg(over_option(alloc))?
        .arg(best_option(alloc))?
        .arg(strict_flag(alloc))?
        .arg(file_argument(alloc))
}

fn simulate_command<'a>(alloc: Global) -> Result<Command<'a>, AllocError>
    ensures { IfOk result (λ command. IsPrinted command simulate_app) }
{
    Command::new(alloc, "simulate")
        .after_help(SIMULATIONS)
        .about("Prints the run of a workload, as the document of a session")
        .arg(ticks_option(alloc))?
        .arg(strict_flag(alloc))?
        .arg(file_argument(alloc))
}

// The program with the commands that show runs step by step.
fn showing_command<'a>(alloc: Global) -> Result<Command<'a>, AllocError>
    ensures { IfOk result (λ command. app_of command ≡ showing_app) }
{
    let trace = trace_command(alloc)?;
    let session = session_command(alloc)?;
    let settle = settle_command(alloc)?;
    let compare = compare_command(alloc)?;
    let timeline = timeline_command(alloc)?;
    program(alloc, "smp_view")
        .version(VERSION)
        .about("Shows what a run of a scheduling session does, and why")
        .after_help(DOCUMENTS)
        .subcommand(trace)?
        .subcommand(session)?
        .subcommand(settle)?
        .subcommand(compare)?
        .subcommand(timeline)
}

// The program with its commands.
fn program_command<'a>(alloc: Global) -> Result<Command<'a>, AllocError>
    ensures { IfOk result (λ command. app_of command ≡ view_app) }
{
    let report = report_command(alloc)?;
    let check = check_command(alloc)?;
    let advise = advise_command(alloc)?;
    let page = page_command(alloc)?;
    let simulate = simulate_command(alloc)?;
    showing_command(alloc)?
        .subcommand(report)?
        .subcommand(check)?
        .subcommand(advise)?
        .subcommand(page)?
        .subcommand(simulate)
}

// What clap says asks for this.
fn said(saying: Saying) -> Request
    requires { SaysMistake saying }
    ensures asked { asked_in result ≡ asked_by (said (class_in saying)) }
    ensures text { text_told result ≡ text_in saying }
    ensures mark { TellsMistake result }
{
    match saying {
        Saying::Help(text) => Request::Help(text),
        Saying::Version => Request::Version,
        Saying::Mistake(text) => Request::Bad(text),
    }
}

/// Reads a command line: its words, the program's name first, or `None` where one of them is no
/// text. The texts of help and of mistakes are clap's.
pub fn request_of<S: AsStr>(alloc: Global, words: Option<&[S]>) -> Result<Request, AllocError>
    ensures asked { IfOk result
        (λ request. asked_in request ≡ asked (option_map (λ all. map S.text all.now) words.entry)) }
    ensures mark { IfOk result TellsMistake }
{
    match parse_line(alloc, program_command(alloc)?, words)? {
        Parsed::Met(matches) => asked_for(alloc, &matches),
        Parsed::Said(saying) => Ok(said(saying)),
    }
}
