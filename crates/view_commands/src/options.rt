//! What the options of a command say.
ghost use Rattle.std.specs.Prelude.{◌≡◌, codes, IfOk, IfSome, map, option_map, string_bytes};
ghost use Rattle.std.specs.Option.{IsSomeAnd};
ghost use Rattle.clap.specs.Words.{found_of, rows_of, subcommand_rows_of};
ghost use Rattle.command_words.specs.Asking.{number_in};
ghost use Rattle.view_commands.specs.CommandLine.{TellsMistake, asked_for, asked_in, asked_of, job_of, lacking_text};
ghost use Rattle.view_commands.specs.Options.{AreTaken, advice_of, advice_with, ask_of, axis_in, axis_of, check_of, command_of, cores_in, documents_in, extent_by, family_in, file_in, json_in, number_name, page_of, picture_of, places_in, report_of, selection_in, strict_in, tasks_in, texts_in, ticks_in, usual_best, view_of};

use crate::families::family_of;
use crate::limits::{are_limits, limits_in};
use crate::request::{Command, Documents, FileName, Job, Request, SessionRuns};
use crate::run_options::runs_in;
use bench_types::Items;
use clap::ArgMatches;
use ranked_changes::Family;
use report_figures::push_told;
use run_pictures::{Axis, Extent};
use run_views::Places;
use session_advice::Question;
use session_reports::Form;
use shown_runs::{Ask, Selection};
use std::alloc::{AllocError, Global};

// What is told where a check has no limits, or one that is not written as such.
const NO_LIMITS: &str = "error: check takes limits, each a name and a whole number: --at-most \
control.blocked.mutex=3

For more information, try '--help'.
";

// What is told where a word names no changes.
const NO_FAMILIES: &str =
    "error: --over takes priority, mask, pin and order, with commas between them

For more information, try '--help'.
";

// What is told where a word names no axis.
const NO_AXIS: &str = "error: --axis takes place, tick or time

For more information, try '--help'.
";

// The changes that are tried where the command line names none: pinning a task is among those of
// masks, or a few of them.
const USUAL_FAMILIES: Family = Family {
    priority: true,
    mask: true,
    pin: false,
    order: true,
};

/// How many of the best changes are told, where the command line has no number.
const USUAL_BEST: u32 = 10;

fn strict_in(options: &ArgMatches) -> bool
    requires { AreTaken (rows_of (found_of options.now)) }
    ensures { result ≡ strict_in (rows_of (found_of options.now)) }
{
    options.get_flag("strict")
}

fn json_in(options: &ArgMatches) -> bool
    requires { AreTaken (rows_of (found_of options.now)) }
    ensures { result ≡ json_in (rows_of (found_of options.now)) }
{
    options.get_flag("json")
}

fn places_in(options: &ArgMatches) -> Places
    requires { AreTaken (rows_of (found_of options.now)) }
    ensures { result ≡ places_in (rows_of (found_of options.now)) }
{
    Places {
        from: options.get_one::<u32>("from").unwrap_or(0),
        to: options.get_one::<u32>("to").unwrap_or(u32::MAX),
    }
}

// What stands behind the option of this id, each time.
fn texts_in<'a>(
    alloc: Global,
    options: &ArgMatches<'a>,
    id: &str,
) -> Result<Vec<&'a str>, AllocError>
    ensures { IfOk result
        (λ texts. map (λ text. text.now) texts.items
        ≡ texts_in id.now (rows_of (found_of options.now))) }
{
    let mut texts = Vec::new(alloc);
    let Some(given) = options.get_strs(id) else {
        return Ok(texts);
    };
    texts.extend_from_slice(given)?;
    Ok(texts)
}

fn strings_of(alloc: Global, texts: &[&str]) -> Result<Vec<String>, AllocError>
    ensures { IfOk result
        (λ strings. map string_bytes strings.items ≡ map (λ text. text.now) texts.now) }
{
    let mut strings = Vec::new(alloc);
    for text in texts {
        strings.push(String::from_str(alloc, text)?)?;
    }
    Ok(strings)
}

fn tasks_in(alloc: Global, options: &ArgMatches) -> Result<Vec<String>, AllocError>
    ensures { IfOk result
        (λ tasks. map string_bytes tasks.items ≡ tasks_in (rows_of (found_of options.now))) }
{
    let texts = texts_in(alloc, options, "task")?;
    let tasks = strings_of(alloc, texts.as_slice())?;
    Ok(tasks)
}

fn cores_in(alloc: Global, options: &ArgMatches) -> Result<Vec<u32>, AllocError>
    requires { AreTaken (rows_of (found_of options.now)) }
    ensures { IfOk result (λ cores. cores.items ≡ cores_in (rows_of (found_of options.now))) }
{
    let mut cores = Vec::new(alloc);
    let Some(numbers) = options.get_many::<u32>("core") else {
        return Ok(cores);
    };
    for number in numbers {
        if let Ok(core) = number {
            cores.push(core)?;
        }
    }
    Ok(cores)
}

fn file_in(alloc: Global, options: &ArgMatches) -> Result<Option<FileName>, AllocError>
    ensures { IfOk result (λ file. file ≡ file_in (rows_of (found_of options.now))) }
{
    let Some(name) = options.get_str("file") else {
        return Ok(None);
    };
    if name == "-" {
        return Ok(None);
    }
    let text = String::from_str(alloc, name)?;
    Ok(Some(FileName { text }))
}

fn ticks_in(options: &ArgMatches) -> Option<u32>
    requires { AreTaken (rows_of (found_of options.now)) }
    ensures { result ≡ ticks_in (rows_of (found_of options.now)) }
{
    options.get_one::<u32>("ticks")
}

// Which documents the command of this name reads.
fn documents_in(name: &str, options: &ArgMatches) -> Documents
    requires { AreTaken (rows_of (found_of options.now)) }
    ensures { result ≡ documents_in name.now (rows_of (found_of options.now)) }
{
    if name == "simulate" {
        return Documents::Workloads(ticks_in(options));
    }
    Documents::All
}

fn selection_in(alloc: Global, options: &ArgMatches) -> Result<Selection, AllocError>
    requires { AreTaken (rows_of (found_of options.now)) }
    ensures { IfOk result
        (λ selection. selection ≡ selection_in (rows_of (found_of options.now))) }
{
    Ok(Selection {
        places: places_in(options),
        tasks: tasks_in(alloc, options)?,
        cores: cores_in(alloc, options)?,
    })
}

fn axis_of(word: &str) -> Option<Axis>
    ensures { result ≡ axis_of word.now }
{
    if word == "place" {
        return Some(Axis::Places);
    }
    if word == "tick" {
        return Some(Axis::Ticks);
    }
    if word == "time" {
        return Some(Axis::Time);
    }
    None
}

fn axis_in(options: &ArgMatches) -> Option<Axis>
    ensures { result ≡ axis_in (rows_of (found_of options.now)) }
{
    match options.get_str("axis") {
        Some(word) => axis_of(word),
        None => Some(Axis::Places),
    }
}

fn extent_by(options: &ArgMatches, axis: Axis) -> Extent
    requires { AreTaken (rows_of (found_of options.now)) }
    ensures { result ≡ extent_by (rows_of (found_of options.now)) axis }
{
    let places = places_in(options);
    Extent { places, axis }
}

// A picture, if an axis is named.
fn picture_of(options: &ArgMatches) -> Option<Ask>
    requires { AreTaken (rows_of (found_of options.now)) }
    ensures { result ≡ picture_of (rows_of (found_of options.now)) }
{
    match axis_in(options) {
        Some(axis) => Some(Ask::Timeline(extent_by(options, axis))),
        None => None,
    }
}

// A page, if an axis is named.
fn page_of(options: &ArgMatches) -> Option<Ask>
    requires { AreTaken (rows_of (found_of options.now)) }
    ensures { result ≡ page_of (rows_of (found_of options.now)) }
{
    match axis_in(options) {
        Some(axis) => Some(Ask::Page(extent_by(options, axis))),
        None => None,
    }
}

fn report_of(options: &ArgMatches) -> Ask
    requires { AreTaken (rows_of (found_of options.now)) }
    ensures { result ≡ report_of (rows_of (found_of options.now)) }
{
    Ask::Report(if json_in(options) {
        Form::Json
    } else {
        Form::Table
    })
}

// A check, if there are limits and all are written as such.
fn check_of(alloc: Global, options: &ArgMatches) -> Result<Option<Ask>, AllocError>
    ensures { IfOk result (λ asked. asked ≡ check_of (rows_of (found_of options.now))) }
{
    let most = texts_in(alloc, options, "at-most")?;
    let least = texts_in(alloc, options, "at-least")?;
    let (most, least) = (most.as_slice(), least.as_slice());
    if !are_limits(most, least) {
        return Ok(None);
    }
    Ok(Some(Ask::Check(Items::new(limits_in(alloc, most, least)?))))
}

// What is asked of runs by a command that lacks nothing.
fn view_of(alloc: Global, name: &str, options: &ArgMatches) -> Result<Ask, AllocError>
    requires { AreTaken (rows_of (found_of options.now)) }
    ensures { IfOk result (λ asked. asked ≡ view_of name.now (rows_of (found_of options.now))) }
{
    if name == "trace" {
        return Ok(Ask::Trace(selection_in(alloc, options)?));
    }
    if name == "compare" {
        return Ok(Ask::Compare);
    }
    if name == "report" {
        return Ok(report_of(options));
    }
    Ok(Ask::Session)
}

// What is asked of runs, if the command lacks nothing.
fn ask_of(alloc: Global, name: &str, options: &ArgMatches) -> Result<Option<Ask>, AllocError>
    requires { AreTaken (rows_of (found_of options.now)) }
    ensures { IfOk result (λ asked. asked ≡ ask_of name.now (rows_of (found_of options.now))) }
{
    if name == "check" {
        return check_of(alloc, options);
    }
    if name == "timeline" {
        return Ok(picture_of(options));
    }
    if name == "page" {
        return Ok(page_of(options));
    }
    Ok(Some(view_of(alloc, name, options)?))
}

fn family_in(alloc: Global, options: &ArgMatches) -> Result<Option<Family>, AllocError>
    ensures { IfOk result (λ family. family ≡ family_in (rows_of (found_of options.now))) }
{
    match options.get_str("over") {
        Some(words) => family_of(alloc, words),
        None => Ok(Some(USUAL_FAMILIES)),
    }
}

fn best_in(options: &ArgMatches) -> u32
    requires { AreTaken (rows_of (found_of options.now)) }
    ensures { result ≡ number_in (codes "best") (rows_of (found_of options.now)) usual_best }
{
    options.get_one::<u32>("best").unwrap_or(USUAL_BEST)
}

// The number of a task's.
fn number_name(alloc: Global, task: &str, rest: &str) -> Result<String, AllocError>
    ensures { IfOk result (λ name. string_bytes name ≡ number_name task.now rest.now) }
{
    let mut name = String::new(alloc);
    push_told(&mut name, task)?;
    name.push_str(".")?;
    name.push_str(rest)?;
    Ok(name)
}

// Advice, if there is a task, a number of it and changes to try.
fn advice_with(
    alloc: Global,
    options: &ArgMatches,
    task: Option<&str>,
    rest: Option<&str>,
    family: Option<Family>,
) -> Result<Option<Command>, AllocError>
    requires { AreTaken (rows_of (found_of options.now)) }
    ensures { IfOk result
        (λ command. command
        ≡ advice_with (option_map (λ text. text.now) task.entry)
        (option_map (λ text. text.now) rest.entry) family (rows_of (found_of options.now))) }
{
    let (Some(task), Some(rest), Some(family)) = (task, rest, family) else {
        return Ok(None);
    };
    Ok(Some(Command::Advise(Question {
        name: number_name(alloc, task, rest)?,
        family,
        best: best_in(options),
    })))
}

fn advice_of(alloc: Global, options: &ArgMatches) -> Result<Option<Command>, AllocError>
    requires { AreTaken (rows_of (found_of options.now)) }
    ensures { IfOk result (λ command. command ≡ advice_of (rows_of (found_of options.now))) }
{
    let family = family_in(alloc, options)?;
    let (task, rest) = (options.get_str("judged"), options.get_str("less"));
    advice_with(alloc, options, task, rest, family)
}

fn command_of(
    alloc: Global,
    name: &str,
    options: &ArgMatches,
) -> Result<Option<Command>, AllocError>
    requires { AreTaken (rows_of (found_of options.now)) }
    ensures { IfOk result
        (λ command. command ≡ command_of name.now (rows_of (found_of options.now))) }
{
    if name == "advise" {
        return advice_of(alloc, options);
    }
    match ask_of(alloc, name, options)? {
        Some(asked) => Ok(Some(Command::Show(asked))),
        None => Ok(None),
    }
}

// What a command is about, if it lacks nothing.
fn job_of(
    alloc: Global,
    name: &str,
    options: &ArgMatches,
    sessions: SessionRuns,
) -> Result<Option<Job>, AllocError>
    requires { AreTaken (rows_of (found_of options.now)) }
    ensures { IfOk result
        (λ job. job ≡ job_of name.now (rows_of (found_of options.now)) sessions) }
{
    let Some(command) = command_of(alloc, name, options)? else {
        return Ok(None);
    };
    Ok(Some(Job {
        command,
        sessions,
        documents: documents_in(name, options),
        strict: strict_in(options),
    }))
}

// What is told of a command that lacks what clap does not ask for.
fn lacking(name: &str) -> &'static str
    ensures { result.now ≡ lacking_text name.now }
{
    if name == "check" {
        NO_LIMITS
    } else if name == "timeline" || name == "page" {
        NO_AXIS
    } else {
        NO_FAMILIES
    }
}

// What a command asks for, by how the runs of sessions are made.
fn asked_of(
    alloc: Global,
    name: &str,
    options: &ArgMatches,
    sessions: SessionRuns,
) -> Result<Request, AllocError>
    requires { AreTaken (rows_of (found_of options.now)) }
    ensures asked { IfOk result
        (λ request. asked_in request
        ≡ asked_of name.now (rows_of (found_of options.now)) sessions) }
    ensures mark { IfOk result TellsMistake }
{
    let Some(job) = job_of(alloc, name, options, sessions)? else {
        return Ok(Request::Lacking(String::from_str(alloc, lacking(name))?));
    };
    let file = file_in(alloc, options)?;
    Ok(Request::Show(job, file))
}

/// What the command that was met asks for.
pub(crate) fn asked_for(alloc: Global, matches: &ArgMatches) -> Result<Request, AllocError>
    requires { IsSomeAnd (subcommand_rows_of matches.now) (λ met. AreTaken met.1) }
    ensures asked { IfOk result
        (λ request. IfSome (subcommand_rows_of matches.now)
        (λ met. asked_in request ≡ asked_for met.0 met.1)) }
    ensures mark { IfOk result TellsMistake }
{
    let (name, options) = matches.subcommand().unwrap();
    match runs_in(name, options) {
        Ok(sessions) => asked_of(alloc, name, options, sessions),
        Err(fault) => Ok(Request::Lacking(String::from_str(alloc, fault.text())?)),
    }
}
