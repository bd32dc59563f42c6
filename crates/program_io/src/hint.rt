//! What people are told of a refused input, beside its refusal line.
ghost use Rattle.std.specs.Prelude.{◌≡◌, ◌++◌, None, IfOk, IsErr, OnOk, string_bytes, true};
ghost use Rattle.serde_json.specs.Errors.{IsMemory};
ghost use Rattle.serde_json.specs.Read.{read};
ghost use Rattle.bench_types.specs.declared.step_flaw.StepFlaw.TheVariants.{NewPriority};
ghost use Rattle.session_text.specs.declared.detail.Detail.TheVariants.{Limit, NoTask, OnePerCore};
ghost use Rattle.session_text.specs.declared.fault.Why.TheVariants.{NoMemory};
ghost use Rattle.program_io.specs.Hint.{bad_name_text, header_line, IsFaultHint, IsNotJsonHint, IsShortTextHint, TellsLocation, expected_text, fault_line, flaw_text, found_text, limits_text, line_at, mask_text, member_text, mutex_text, nearest_name_text, nearest_text, no_name_text, no_queue_text, no_word_text, none_of_text, number_text, queue_text, quoted, shape_text, step_flaw_text, task_limit_text, task_text, too_long_line, too_many_steps_line, units_text, unknown_text, whole_text, word_text, words_text, wrong_text};

use crate::placed::{fault_location, flaw_path, push_location};
use crate::rule::push_rule;
use bench_types::{
    HeaderFlaw, MAX_CORES, MAX_INPUT, MAX_MUTEXES, MAX_NAME, MAX_NOTES, MAX_PRIORITIES, MAX_QUEUES,
    MAX_STEPS, MAX_TASKS, MAX_UNITS, MIN_CORES, StepFlaw,
};
use serde_json::{Error, Value};
use session_text::{Detail, Expected, Found, Shown, Stray, TextFault, Why, Words};
use std::alloc::{AllocError, Global};

/// The most bytes that serde_json reads for the location of what is no JSON: its tree of them takes
/// up to 130 times as many.
const MAX_PLACED: usize = 8_388_608;

// Want of memory has no location.
fn location_hint(alloc: Global, error: &Error) -> Result<String, AllocError>
    requires { ¬ IsMemory error.now }
    ensures { IfOk result (λ hint. TellsLocation (string_bytes hint)) }
{
    let line = error.line();
    let column = error.column();
    let mut hint = String::new(alloc);
    write!(hint, "not JSON: line {line}, column {column}\n")?;
    Ok(hint)
}

// The line of a text that serde_json doesn't read: it is read again for the location.
fn no_value_hint(alloc: Global, text: &str) -> Result<String, AllocError>
    ensures { IfOk result (λ hint. read text.now ≡ None → TellsLocation (string_bytes hint)) }
{
    match Value::from_str(alloc, text) {
        Ok(_) => Ok(String::new(alloc)),
        Err(error) => {
            if error.is_memory() {
                return Err(AllocError);
            }
            location_hint(alloc, &error)
        }
    }
}

fn short_text_hint(alloc: Global, input: &[u8]) -> Result<String, AllocError>
    ensures { IfOk result (λ hint. IsShortTextHint input.now (string_bytes hint)) }
{
    match std::str::from_utf8(input) {
        Ok(text) => no_value_hint(alloc, text),
        Err(_) => String::from_str(alloc, "not JSON: not UTF-8\n"),
    }
}

fn not_json_hint(alloc: Global, input: &[u8]) -> Result<String, AllocError>
    ensures { IfOk result (λ hint. IsNotJsonHint input.now (string_bytes hint)) }
{
    if input.starts_with(b"\xEF\xBB\xBF") {
        return String::from_str(
            alloc,
            "not JSON: the text begins with a byte order mark; save it without one\n",
        );
    }
    if input.len() > MAX_PLACED {
        return String::from_str(alloc, "not JSON\n");
    }
    short_text_hint(alloc, input)
}

fn push_limits(
    text: &mut String,
    member: &str,
    number: usize,
    least: u32,
    most: u32,
) -> Result<(), AllocError>
    ensures { OnOk result
        (string_bytes text.new
        ≡ string_bytes text.old ++ limits_text member.now number least most) }
{
    write!(
        text,
        "header: {member} is {number}, and may be {least} to {most}"
    )
}

fn push_task(text: &mut String, task: usize, wrong: &str) -> Result<(), AllocError>
    ensures { OnOk result
        (string_bytes text.new ≡ string_bytes text.old ++ task_text task wrong.now) }
{
    write!(text, "header: tasks[{task}]{wrong}")
}

// The same with a number at the end.
fn push_task_limit(
    text: &mut String,
    task: usize,
    wrong: &str,
    number: u32,
) -> Result<(), AllocError>
    ensures { OnOk result
        (string_bytes text.new
        ≡ string_bytes text.old ++ task_limit_text task wrong.now number) }
{
    write!(text, "header: tasks[{task}]{wrong}{number}")
}

fn push_bad_name(text: &mut String, task: usize, most: u32) -> Result<(), AllocError>
    ensures { OnOk result
        (string_bytes text.new ≡ string_bytes text.old ++ bad_name_text task most) }
{
    push_task_limit(text, task, ".name has to be 1 to ", most)?;
    text.push_str(" characters from ! to ~, and not begin with IDLE")
}

fn push_queue(text: &mut String, queue: usize, wrong: &str) -> Result<(), AllocError>
    ensures { OnOk result
        (string_bytes text.new ≡ string_bytes text.old ++ queue_text queue wrong.now) }
{
    write!(text, "header: queues[{queue}]{wrong}")
}

// The units of time that a tick may not have. Where another session may, this is that of a rig.
fn push_units(text: &mut String, units: u32) -> Result<(), AllocError>
    ensures { OnOk result (string_bytes text.new ≡ string_bytes text.old ++ units_text units) }
{
    if 1 <= units && units <= MAX_UNITS {
        write!(
            text,
            "header: units is {units}, and has to be 1 in a rig: its recordings have no time"
        )
    } else {
        push_limits(text, "units", units as usize, 1, MAX_UNITS)
    }
}

fn push_flaw(text: &mut String, flaw: HeaderFlaw) -> Result<(), AllocError>
    ensures { OnOk result (string_bytes text.new ≡ string_bytes text.old ++ flaw_text flaw) }
{
    match flaw {
        HeaderFlaw::Cores(n) => push_limits(text, "cores", n as usize, MIN_CORES, MAX_CORES),
        HeaderFlaw::Priorities(n) => push_limits(text, "priorities", n as usize, 1, MAX_PRIORITIES),
        HeaderFlaw::Mutexes(n) => push_limits(text, "mutexes", n as usize, 0, MAX_MUTEXES),
        HeaderFlaw::Notes(n) => push_limits(text, "notes", n as usize, 1, MAX_NOTES),
        HeaderFlaw::Queues(n) => push_limits(text, "the number of queues", n, 0, MAX_QUEUES),
        HeaderFlaw::QueueLength(queue) => push_queue(text, queue, ".length has to be 1 or more"),
        HeaderFlaw::QueueMessages(queue) => {
            push_queue(text, queue, ".messages has to be at most its length")
        }
        HeaderFlaw::Units(n) => push_units(text, n),
        HeaderFlaw::TaskCount(n) => push_limits(text, "the number of tasks", n, 1, MAX_TASKS),
        HeaderFlaw::NoName(task) => push_bad_name(text, task, MAX_NAME as u32),
        HeaderFlaw::Priority { task, priorities } => {
            push_task_limit(text, task, ".priority has to be below ", priorities)
        }
        HeaderFlaw::Mask { task, cores } => {
            push_task_limit(text, task, ".mask has to have a bit below bit ", cores)
        }
        HeaderFlaw::SharedName(task) => push_task(text, task, ".name is that of another task too"),
    }
}

// F1 of the header of the session at the path.
fn header_hint(
    alloc: Global,
    input: &[u8],
    session: &str,
    flaw: HeaderFlaw,
) -> Result<String, AllocError>
    ensures { IfOk result
        (λ hint. string_bytes hint ≡ header_line input.now session.now flaw) }
{
    let path = flaw_path(alloc, session, flaw)?;
    let location = fault_location(alloc, input, path.as_str())?;
    let mut hint = String::new(alloc);
    push_flaw(&mut hint, flaw)?;
    push_location(&mut hint, location)?;
    hint.push_str("\n")?;
    Ok(hint)
}

fn expected_text(expected: Expected) -> &'static str
    ensures { result.now ≡ expected_text expected }
{
    match expected {
        Expected::Number => "a whole number from 0 to 4294967295",
        Expected::Text => "a text",
        Expected::Flag => "true or false",
        Expected::Array => "an array",
        Expected::Object => "an object",
    }
}

fn whole_text(expected: Expected) -> &'static str
    ensures { result.now ≡ whole_text expected }
{
    match expected {
        Expected::Number => "a greater one",
        Expected::Text | Expected::Flag | Expected::Array | Expected::Object => "a whole number",
    }
}

fn number_text(expected: Expected) -> &'static str
    ensures { result.now ≡ number_text expected }
{
    match expected {
        Expected::Number => {
            "a number that is negative, too large, or written with a point or an exponent"
        }
        Expected::Text | Expected::Flag | Expected::Array | Expected::Object => "a number",
    }
}

fn found_text(expected: Expected, found: Found) -> &'static str
    ensures { result.now ≡ found_text expected found }
{
    match found {
        Found::Whole => whole_text(expected),
        Found::Other => number_text(expected),
        Found::Null => "null",
        Found::Text => "a text",
        Found::Flag => "true or false",
        Found::Array => "an array",
        Found::Object => "an object",
    }
}

fn push_wrong(text: &mut String, expected: Expected, found: Found) -> Result<(), AllocError>
    ensures { OnOk result
        (string_bytes text.new ≡ string_bytes text.old ++ wrong_text expected found) }
{
    text.push_str("expected ")?;
    text.push_str(expected_text(expected))?;
    text.push_str(", found ")?;
    text.push_str(found_text(expected, found))
}

fn push_quoted(text: &mut String, word: &str) -> Result<(), AllocError>
    ensures { OnOk result (string_bytes text.new ≡ string_bytes text.old ++ quoted word.now) }
{
    text.push_str("\"")?;
    text.push_str(word)?;
    text.push_str("\"")
}

fn push_nearest(text: &mut String, nearest: &Option<Words>) -> Result<(), AllocError>
    ensures { OnOk result
        (string_bytes text.new ≡ string_bytes text.old ++ nearest_text nearest.now) }
{
    match nearest {
        Some(word) => {
            text.push_str("; the nearest is ")?;
            push_quoted(text, word.as_str())
        }
        None => Ok(()),
    }
}

// The nearest word, and then all of them after what they are.
fn push_words(text: &mut String, stray: &Stray, meaning: &str) -> Result<(), AllocError>
    ensures { OnOk result
        (string_bytes text.new ≡ string_bytes text.old ++ words_text stray.now meaning.now) }
{
    push_nearest(text, &stray.nearest)?;
    text.push_str(meaning)?;
    text.push_str(stray.words.as_str())
}

fn push_member(text: &mut String, member: &Shown) -> Result<(), AllocError>
    ensures { OnOk result
        (string_bytes text.new ≡ string_bytes text.old ++ member_text member.now) }
{
    match member {
        Shown::Long => text.push_str("there is a member with a long name"),
        Shown::Text(name) => {
            text.push_str("there is no member ")?;
            push_quoted(text, name.as_str())
        }
    }
}

fn push_unknown(text: &mut String, stray: &Stray) -> Result<(), AllocError>
    ensures { OnOk result
        (string_bytes text.new ≡ string_bytes text.old ++ unknown_text stray.now) }
{
    push_member(text, &stray.text)?;
    push_words(text, stray, "; these may stand here: ")
}

fn push_word(text: &mut String, word: &Shown) -> Result<(), AllocError>
    ensures { OnOk result (string_bytes text.new ≡ string_bytes text.old ++ word_text word.now) }
{
    match word {
        Shown::Long => text.push_str("a long text is no word that stands here"),
        Shown::Text(word) => {
            push_quoted(text, word.as_str())?;
            text.push_str(" is no word that stands here")
        }
    }
}

fn push_no_word(text: &mut String, stray: &Stray) -> Result<(), AllocError>
    ensures { OnOk result
        (string_bytes text.new ≡ string_bytes text.old ++ no_word_text stray.now) }
{
    push_word(text, &stray.text)?;
    push_words(text, stray, "; these are: ")
}

fn push_per_core(text: &mut String, cores: u32) -> Result<(), AllocError>
    ensures { OnOk result
        (string_bytes text.new ≡ string_bytes text.old ++ shape_text (OnePerCore cores)) }
{
    write!(text, "expected an array for each core, {cores} of them")
}

fn push_none_of(
    text: &mut String,
    word: &str,
    number: u32,
    words: &str,
    count: usize,
) -> Result<(), AllocError>
    ensures { OnOk result
        (string_bytes text.new
        ≡ string_bytes text.old ++ none_of_text word.now number words.now count) }
{
    let last = count.saturating_sub(1);
    write!(text, "{word} {number} is none of the {words} 0 to {last}")
}

fn push_mutex(text: &mut String, mutex: u32, mutexes: u32) -> Result<(), AllocError>
    ensures { OnOk result
        (string_bytes text.new ≡ string_bytes text.old ++ mutex_text mutex mutexes) }
{
    if mutexes == 0 {
        write!(text, "mutex {mutex} is none: the session has no mutexes")
    } else {
        push_none_of(text, "mutex", mutex, "mutexes", mutexes as usize)
    }
}

fn push_no_queue(text: &mut String, queue: u32, queues: usize) -> Result<(), AllocError>
    ensures { OnOk result
        (string_bytes text.new ≡ string_bytes text.old ++ no_queue_text queue queues) }
{
    if queues == 0 {
        write!(text, "queue {queue} is none: the session has no queues")
    } else {
        push_none_of(text, "queue", queue, "queues", queues)
    }
}

fn push_mask(text: &mut String, mask: u32, cores: u32) -> Result<(), AllocError>
    ensures { OnOk result (string_bytes text.new ≡ string_bytes text.old ++ mask_text mask cores) }
{
    write!(text, "mask {mask} has no bit below bit {cores}")
}

fn push_priority(text: &mut String, priority: u32, priorities: u32) -> Result<(), AllocError>
    ensures { OnOk result
        (string_bytes text.new
        ≡ string_bytes text.old ++ step_flaw_text (NewPriority priority priorities)) }
{
    write!(text, "priority {priority} has to be below {priorities}")
}

fn push_step_flaw(text: &mut String, flaw: StepFlaw) -> Result<(), AllocError>
    ensures { OnOk result (string_bytes text.new ≡ string_bytes text.old ++ step_flaw_text flaw) }
{
    match flaw {
        StepFlaw::Core { core, cores } => {
            push_none_of(text, "core", core, "cores", cores as usize)
        }
        StepFlaw::TickCore(_) => text.push_str("only core 0 has ticks"),
        StepFlaw::Task(_) => text.push_str("no user task has such a name"),
        StepFlaw::Mutex { mutex, mutexes } => push_mutex(text, mutex, mutexes),
        StepFlaw::Queue { queue, queues } => push_no_queue(text, queue, queues),
        StepFlaw::Mask { mask, cores } | StepFlaw::NewMask { mask, cores } => {
            push_mask(text, mask, cores)
        }
        StepFlaw::Increment => text.push_str("inc has to be 1 or more"),
        StepFlaw::Suspending => text.push_str("only a session of format 3 suspends tasks"),
        StepFlaw::NoUnits => {
            text.push_str("a tick has one unit of time: units of the session has to be 2 or more")
        }
        StepFlaw::NoTime => text.push_str("units has to be 1 or more"),
        StepFlaw::Index { index, notes } => {
            push_none_of(text, "index", index, "notifications", notes as usize)
        }
        StepFlaw::NewPriority {
            priority,
            priorities,
        } => push_priority(text, priority, priorities),
    }
}

fn push_no_name(text: &mut String, name: &Shown) -> Result<(), AllocError>
    ensures { OnOk result
        (string_bytes text.new ≡ string_bytes text.old ++ no_name_text name.now) }
{
    match name {
        Shown::Long => text.push_str("no user task has that long name"),
        Shown::Text(name) => {
            text.push_str("no user task is named ")?;
            push_quoted(text, name.as_str())
        }
    }
}

fn push_nearest_name(text: &mut String, nearest: &Option<Words>) -> Result<(), AllocError>
    ensures { OnOk result
        (string_bytes text.new ≡ string_bytes text.old ++ nearest_name_text nearest.now) }
{
    match nearest {
        Some(name) => {
            text.push_str("; the nearest name is ")?;
            push_quoted(text, name.as_str())
        }
        None => Ok(()),
    }
}

// A name that no user task has, and the nearest name.
fn push_no_task(text: &mut String, name: &Shown, nearest: &Option<Words>) -> Result<(), AllocError>
    ensures { OnOk result
        (string_bytes text.new
        ≡ string_bytes text.old ++ shape_text (NoTask name.now nearest.now)) }
{
    push_no_name(text, name)?;
    push_nearest_name(text, nearest)
}

fn push_limit(text: &mut String, limit: u32) -> Result<(), AllocError>
    ensures { OnOk result
        (string_bytes text.new ≡ string_bytes text.old ++ shape_text (Limit limit)) }
{
    write!(text, "limit is {limit}, and may be 0 to {MAX_STEPS}")
}

fn push_shape(text: &mut String, detail: &Detail) -> Result<(), AllocError>
    ensures { OnOk result
        (string_bytes text.new ≡ string_bytes text.old ++ shape_text detail.now) }
{
    match detail {
        Detail::None => text.push_str("a member is missing, ill-typed or unknown"),
        Detail::Missing => text.push_str("this member is missing"),
        Detail::Unknown(stray) => push_unknown(text, stray),
        Detail::Wrong { expected, found } => push_wrong(text, *expected, *found),
        Detail::NoWord(stray) => push_no_word(text, stray),
        Detail::NoFormat => text.push_str("expected 1, 2 or 3"),
        Detail::HasSteps => text.push_str("the session of a rig has no steps"),
        Detail::OnePerCore(cores) => push_per_core(text, *cores),
        Detail::Header { .. } => text.push_str("this header is not accepted"),
        Detail::Step(flaw) => push_step_flaw(text, *flaw),
        Detail::NoTask { name, nearest } => push_no_task(text, name, nearest),
        Detail::Limit(limit) => push_limit(text, *limit),
        Detail::Rule(rule) => push_rule(text, *rule),
    }
}

// What is wrong at the path.
fn shape_hint(
    alloc: Global,
    input: &[u8],
    path: &str,
    detail: &Detail,
) -> Result<String, AllocError>
    ensures { IfOk result
        (λ hint. string_bytes hint ≡ line_at input.now path.now (shape_text detail.now)) }
{
    let location = fault_location(alloc, input, path)?;
    let mut hint = String::from_str(alloc, path)?;
    hint.push_str(": ")?;
    push_shape(&mut hint, detail)?;
    push_location(&mut hint, location)?;
    hint.push_str("\n")?;
    Ok(hint)
}

// F1 to F5 at the path.
fn bench_fault_hint(
    alloc: Global,
    input: &[u8],
    path: &str,
    detail: &Detail,
) -> Result<String, AllocError>
    ensures { IfOk result
        (λ hint. string_bytes hint ≡ fault_line input.now path.now detail.now) }
{
    match detail {
        Detail::Header { flaw, session } => header_hint(alloc, input, session.as_str(), *flaw),
        Detail::None
        | Detail::Missing
        | Detail::Unknown(_)
        | Detail::Wrong { .. }
        | Detail::NoWord(_)
        | Detail::NoFormat
        | Detail::HasSteps
        | Detail::OnePerCore(_)
        | Detail::Step(_)
        | Detail::NoTask { .. }
        | Detail::Limit(_)
        | Detail::Rule(_) => shape_hint(alloc, input, path, detail),
    }
}

/// What people are told of a text that was not read, a line. Want of memory has none. The text is
/// read again for the location of its fault.
pub fn fault_hint(alloc: Global, input: &[u8], fault: &TextFault) -> Result<String, AllocError>
    ensures line { IfOk result
        (λ hint. IsFaultHint input.now fault.now.why fault.now.path fault.now.detail
        (string_bytes hint)) }
    ensures memory { fault.now.why ≡ NoMemory → IsErr result }
{
    let path = fault.path.as_str();
    match fault.why {
        Why::NotJson => not_json_hint(alloc, input),
        Why::BadShape => shape_hint(alloc, input, path, &fault.detail),
        Why::Bench(_) => bench_fault_hint(alloc, input, path, &fault.detail),
        Why::NoMemory => Err(AllocError),
    }
}

/// The same of an input that is too long to be read.
pub fn too_long_hint(alloc: Global) -> Result<String, AllocError>
    ensures { IfOk result (λ hint. string_bytes hint ≡ too_long_line) }
{
    let mut hint = String::new(alloc);
    write!(hint, "the input has more than {MAX_INPUT} bytes\n")?;
    Ok(hint)
}

/// What people are told of a session that has too many steps, a line.
pub fn too_many_steps_hint(alloc: Global) -> Result<String, AllocError>
    ensures { IfOk result (λ hint. string_bytes hint ≡ too_many_steps_line) }
{
    let mut hint = String::new(alloc);
    write!(hint, "the session has more than {MAX_STEPS} steps\n")?;
    Ok(hint)
}
