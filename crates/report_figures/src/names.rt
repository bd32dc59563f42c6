//! The names of figures.
ghost use Rattle.std.specs.Prelude.{◌≡◌, ◌++◌, OnOk, codes, decimal, string_bytes};
ghost use Rattle.bench_types.specs.Header.{name_of};
ghost use Rattle.report_figures.specs.Names.{cause_name, condition_name, direction_name, event_name, figure_name, is_reserved, is_time, job_name, part_name, subject_name, told_name, told_text, unit_text, units_line, whole_name};

use crate::figures::Part;
use bench_types::{Direction, Header};
use run_numbers::{Cause, Condition, Event, JobNumber, Subject, Whole};
use std::alloc::AllocError;

/// Writes the name of a figure after the text: the name of its subject, and of the longest stretch
/// that it is.
pub fn push_name(
    text: &mut String,
    header: &Header,
    subject: Subject,
    part: Part,
) -> Result<(), AllocError>
    ensures { OnOk result
        (string_bytes text.new ≡ string_bytes text.old ++ figure_name header.now subject part) }
{
    push_subject(text, header, subject)?;
    text.push_str(part_name(subject, part))
}

/// Writes the unit of a number of time after the text, where a tick has more than one.
pub(crate) fn push_unit(
    text: &mut String,
    header: &Header,
    subject: Subject,
) -> Result<(), AllocError>
    ensures { OnOk result
        (string_bytes text.new ≡ string_bytes text.old ++ unit_text header.now subject) }
{
    if is_time(subject) && header.config.units != 1 {
        text.push_str(" units")
    } else {
        Ok(())
    }
}

fn is_time(subject: Subject) -> bool
    ensures { result ≡ is_time subject }
{
    match subject {
        Subject::Time(_) | Subject::MutexWait { .. } | Subject::Run(Whole::Time) => true,
        Subject::Job { number, .. } => !matches!(number, JobNumber::Count),
        _ => false,
    }
}

/// Writes after the text how many units of time a tick has, where it has more than one.
pub(crate) fn push_units(text: &mut String, header: &Header) -> Result<(), AllocError>
    ensures { OnOk result
        (string_bytes text.new ≡ string_bytes text.old ++ units_line header.now) }
{
    match header.config.units {
        1 => Ok(()),
        units => write!(text, "time in units, {units} a tick\n"),
    }
}

fn job_name(number: JobNumber) -> &'static str
    ensures { result.now ≡ job_name number }
{
    match number {
        JobNumber::Count => ".jobs",
        JobNumber::Response => ".response",
        JobNumber::ShortestResponse => ".response.shortest",
        JobNumber::Latency => ".latency",
        JobNumber::Period => ".period",
        JobNumber::ShortestPeriod => ".period.shortest",
    }
}

fn whole_name(number: Whole) -> &'static str
    ensures { result.now ≡ whole_name number }
{
    match number {
        Whole::Time => "run.time",
        Whole::Steps => "run.steps",
        Whole::NotMade => "run.not_made",
    }
}

fn part_name(subject: Subject, part: Part) -> &'static str
    ensures { result.now ≡ part_name subject part }
{
    match (subject, part) {
        (Subject::Time(Condition::InCall { .. }), Part::Total) => ".total",
        (
            Subject::Job {
                number: JobNumber::Response,
                ..
            },
            Part::Total,
        ) => ".total",
        (_, Part::Total) => "",
        (_, Part::Longest) => ".longest",
    }
}

#[tactic(auto, unfolding(crate::specs::Names::subject_name))]
fn push_subject(text: &mut String, header: &Header, subject: Subject) -> Result<(), AllocError>
    ensures { OnOk result
        (string_bytes text.new ≡ string_bytes text.old ++ subject_name header.now subject) }
{
    match subject {
        Subject::Time(condition) => push_condition(text, header, condition),
        Subject::Steps(event) => push_event(text, header, event),
        Subject::TopPriority { task } => push_of_task(text, header, task, ".top_priority"),
        Subject::MostMessages { queue } => push_numbered(text, "queue.", queue, ".messages"),
        Subject::NotMade { task } => push_of_task(text, header, task, ".not_made"),
        Subject::Job { task, number } => push_of_task(text, header, task, job_name(number)),
        Subject::Migrations { task } => push_of_task(text, header, task, ".migrations"),
        Subject::RanOut { task } => push_of_task(text, header, task, ".ran_out"),
        Subject::Unfinished { task } => push_of_task(text, header, task, ".unfinished"),
        Subject::MutexWait { mutex } => push_numbered(text, "mutex.", mutex, ".wait"),
        Subject::Run(number) => text.push_str(whole_name(number)),
    }
}

#[tactic(auto, unfolding(crate::specs::Names::condition_name))]
fn push_condition(
    text: &mut String,
    header: &Header,
    condition: Condition,
) -> Result<(), AllocError>
    ensures { OnOk result
        (string_bytes text.new ≡ string_bytes text.old ++ condition_name header.now condition) }
{
    match condition {
        Condition::Running { task } => push_of_task(text, header, task, ".run"),
        Condition::RunningOn { task, core } => {
            push_of_task(text, header, task, ".run.")?;
            write!(text, "{core}")
        }
        Condition::WantsCore { task } => push_of_task(text, header, task, ".ready"),
        Condition::Inverted { task } => push_of_task(text, header, task, ".ready.inverted"),
        Condition::Blocked { task, cause } => {
            push_of_task(text, header, task, ".blocked.")?;
            push_cause(text, cause)
        }
        Condition::HeldUp { task } => push_of_task(text, header, task, ".blocked.mutex.held_up"),
        Condition::Suspended { task } => push_of_task(text, header, task, ".suspended"),
        Condition::InCall { task, cause } => push_calls(text, header, task, cause),
        Condition::Raised { task } => push_of_task(text, header, task, ".inherited"),
        Condition::PreemptionOff { task } => { push_of_task(text, header, task, ".preemption_off") }
        Condition::Busy { core } => push_numbered(text, "core.", core, ".user"),
        Condition::Idle { core } => push_numbered(text, "core.", core, ".idle"),
        Condition::Due { core } => push_numbered(text, "core.", core, ".due"),
        Condition::Holding { core } => push_numbered(text, "core.", core, ".held"),
        Condition::Held { mutex } => push_numbered(text, "mutex.", mutex, ".held"),
        Condition::Empty { queue } => push_numbered(text, "queue.", queue, ".empty"),
        Condition::Full { queue } => push_numbered(text, "queue.", queue, ".full"),
    }
}

// The calls of the task that may wait for the cause.
fn push_calls(text: &mut String, header: &Header, task: u32, cause: Cause) -> Result<(), AllocError>
    ensures { OnOk result
        (string_bytes text.new
        ≡ string_bytes text.old
        ++ told_name header.now task ++ codes ".calls." ++ cause_name cause) }
{
    push_of_task(text, header, task, ".calls.")?;
    push_cause(text, cause)
}

fn push_cause(text: &mut String, cause: Cause) -> Result<(), AllocError>
    ensures { OnOk result (string_bytes text.new ≡ string_bytes text.old ++ cause_name cause) }
{
    match cause {
        Cause::Delay => text.push_str("delay"),
        Cause::Notification => text.push_str("notification"),
        Cause::AnyMutex => text.push_str("mutex"),
        Cause::Mutex(mutex) => push_numbered(text, "mutex.", mutex, ""),
        Cause::AnyQueue => text.push_str("queue"),
        Cause::Queue { queue, direction } => {
            push_numbered(text, "queue.", queue, ".")?;
            text.push_str(direction_name(direction))
        }
    }
}

fn direction_name(direction: Direction) -> &'static str
    ensures { result.now ≡ direction_name direction }
{
    match direction {
        Direction::Send => "send",
        Direction::Receive => "receive",
    }
}

#[tactic(auto, unfolding(crate::specs::Names::event_name))]
fn push_event(text: &mut String, header: &Header, event: Event) -> Result<(), AllocError>
    ensures { OnOk result
        (string_bytes text.new ≡ string_bytes text.old ++ event_name header.now event) }
{
    match event {
        Event::SwitchedIn { task } => push_of_task(text, header, task, ".switches"),
        Event::Inherits { task } => push_of_task(text, header, task, ".inheritances"),
        Event::TimesOut { task } => push_of_task(text, header, task, ".timeouts"),
        Event::Refused { task, why } => {
            push_of_task(text, header, task, ".refused.")?;
            text.push_str(why.code())
        }
        Event::Late { task } => push_of_task(text, header, task, ".late"),
        Event::Called { task, cause } => push_calls(text, header, task, cause),
        Event::SwitchedOn { core } => push_numbered(text, "core.", core, ".switches"),
        Event::PutOff { task } => push_of_task(text, header, task, ".preempted"),
        Event::Loses { task } => push_of_task(text, header, task, ".notifications.lost"),
        Event::Interrupted { core } => push_numbered(text, "core.", core, ".interrupts"),
        Event::NotTaken { mutex } => push_numbered(text, "mutex.", mutex, ".refused"),
        Event::Awaited { mutex } => push_numbered(text, "mutex.", mutex, ".waits"),
        Event::QueueAwaited { queue } => push_numbered(text, "queue.", queue, ".waits"),
    }
}

fn push_of_task(text: &mut String, header: &Header, task: u32, what: &str) -> Result<(), AllocError>
    ensures { OnOk result
        (string_bytes text.new ≡ string_bytes text.old ++ told_name header.now task ++ what.now) }
{
    push_task(text, header, task)?;
    text.push_str(what)
}

// What the names of the numbers of the task begin with.
#[tactic(auto, unfolding(crate::specs::Names::told_name))]
fn push_task(text: &mut String, header: &Header, task: u32) -> Result<(), AllocError>
    ensures { OnOk result
        (string_bytes text.new ≡ string_bytes text.old ++ told_name header.now task) }
{
    let cores = header.config.cores;
    if task < cores {
        return header.push_name(text, task);
    }
    match header.tasks.as_slice().get((task - cores) as usize) {
        Some(args) => push_told(text, args.name.as_str()),
        None => Ok(()),
    }
}

/// Writes after the text what the names of the numbers of a task of this name begin with: the name,
/// behind `task.` where it begins as the names of other numbers do.
pub fn push_told(text: &mut String, name: &str) -> Result<(), AllocError>
    ensures { OnOk result (string_bytes text.new ≡ string_bytes text.old ++ told_text name.now) }
{
    if is_reserved(name) {
        text.push_str("task.")?;
    }
    text.push_str(name)
}

// Whether the name of a task begins as the names of other numbers do.
fn is_reserved(name: &str) -> bool
    ensures { result ≡ is_reserved name.now }
{
    name == "run"
        || name.starts_with("core.")
        || name.starts_with("mutex.")
        || name.starts_with("queue.")
        || name.starts_with("task.")
}

fn push_numbered(text: &mut String, kind: &str, number: u32, what: &str) -> Result<(), AllocError>
    ensures { OnOk result
        (string_bytes text.new
        ≡ string_bytes text.old ++ kind.now ++ decimal number ++ what.now) }
{
    write!(text, "{kind}{number}{what}")
}
