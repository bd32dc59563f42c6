//! What a change costs the tasks.
ghost use Rattle.std.specs.Prelude.{◌≡◌, ◌++◌, IfOk, OnOk, string_bytes};
ghost use Rattle.ranked_changes.specs.Changed.{changed, IsChangeOf};
ghost use Rattle.ranked_changes.specs.Verdicts.{IsVerdict};
ghost use Rattle.run_sources.specs.Sources.{IsRunOfSource, IsSourceTooLong};
ghost use Rattle.session_advice.specs.Advice.{AddsCosts};
ghost use Rattle.session_advice.specs.Basis.{basis_of, judge_of, IsBasis};
ghost use Rattle.session_advice.specs.Costs.{are_same, bearer, cost_line, cost_lines, is_changed_at, is_cost, is_cost_at, is_judged, is_total};

use crate::basis::Base;
use crate::words::push_number;
use ranked_changes::{Change, Verdict, changed_source};
use report_figures::{Figure, Part, push_name_at, value_at};
use run_numbers::{Cause, Condition, Event, Subject};
use run_sources::{RunFault, Source, make_run};
use session_reports::figures_of_run;
use session_runs::Run;
use smp_kernel::Meter;
use std::alloc::{AllocError, Global};

// The task that bears what the subject tells.
fn bearer(subject: Subject) -> Option<u32>
    ensures { result ≡ bearer subject }
{
    match subject {
        Subject::Time(Condition::Running { task })
        | Subject::Time(Condition::WantsCore { task })
        | Subject::Time(Condition::Inverted { task })
        | Subject::Time(
            Condition::Blocked {
                task,
                cause: Cause::AnyMutex | Cause::AnyQueue,
            },
        )
        | Subject::Steps(Event::TimesOut { task })
        | Subject::NotMade { task } => Some(task),
        _ => None,
    }
}

fn is_total(part: Part) -> bool
    ensures { result ≡ is_total part }
{
    matches!(part, Part::Total)
}

// Whether both tell the same of the same task.
fn are_same(subject: Subject, other: Subject) -> bool
    ensures { result ≡ are_same subject other }
{
    match (subject, other) {
        (Subject::Time(condition), Subject::Time(other)) => are_same_times(condition, other),
        (Subject::Steps(Event::TimesOut { task }), Subject::Steps(Event::TimesOut { task: other }))
        | (Subject::NotMade { task }, Subject::NotMade { task: other }) => task == other,
        _ => false,
    }
}

// The same of two conditions.
fn are_same_times(condition: Condition, other: Condition) -> bool
    ensures { result ≡ are_same (Subject.Time condition) (Subject.Time other) }
{
    match (condition, other) {
        (Condition::Running { task }, Condition::Running { task: other })
        | (Condition::WantsCore { task }, Condition::WantsCore { task: other })
        | (Condition::Inverted { task }, Condition::Inverted { task: other }) => task == other,
        (
            Condition::Blocked {
                task,
                cause: Cause::AnyMutex,
            },
            Condition::Blocked {
                task: other,
                cause: Cause::AnyMutex,
            },
        )
        | (
            Condition::Blocked {
                task,
                cause: Cause::AnyQueue,
            },
            Condition::Blocked {
                task: other,
                cause: Cause::AnyQueue,
            },
        ) => task == other,
        _ => false,
    }
}

fn is_judged(judged: &Figure, subject: Subject) -> bool
    ensures { result ≡ is_judged judged.now subject }
{
    is_total(judged.part) && are_same(judged.subject, subject)
}

fn is_cost(judged: &Figure, subject: Subject, part: Part) -> bool
    ensures { result ≡ is_cost judged.now subject part }
{
    is_total(part) && bearer(subject).is_some() && !is_judged(judged, subject)
}

fn is_cost_at(judged: &Figure, figures: &[Figure], index: usize) -> bool
    ensures { result ≡ is_cost_at judged.now figures.now index }
{
    match figures.get(index) {
        Some(figure) => is_cost(judged, figure.subject, figure.part),
        None => false,
    }
}

fn is_changed_at(before: &[Figure], after: &[Figure], index: usize) -> bool
    ensures { result ≡ is_changed_at before.now after.now index }
{
    value_at(before, index) != value_at(after, index)
}

#[tactic(auto, unfolding(crate::specs::Costs::cost_line))]
fn push_cost_line(
    alloc: Global,
    text: &mut String,
    base: &Base<'_>,
    after: &[Figure],
    index: usize,
) -> Result<(), AllocError>
    ensures { OnOk result
        (string_bytes text.new
        ≡ string_bytes text.old ++ cost_line (basis_of base.now) after.now index) }
{
    let before = base.figures;
    if !is_cost_at(&base.judged, before, index) || !is_changed_at(before, after, index) {
        return Ok(());
    }
    text.push_str("   ")?;
    push_name_at(text, base.source.header(), before, index)?;
    text.push_str(" ")?;
    push_number(alloc, text, value_at(before, index), value_at(after, index))?;
    text.push_str("\n")
}

fn push_cost_lines(
    alloc: Global,
    text: &mut String,
    base: &Base<'_>,
    after: &[Figure],
) -> Result<(), AllocError>
    ensures { OnOk result
        (string_bytes text.new
        ≡ string_bytes text.old ++ cost_lines (basis_of base.now) after.now) }
{
    for index in 0..base.figures.len() {
        push_cost_line(alloc, text, base, after, index)?;
    }
    Ok(())
}

// The run of a source that is known not to be too long.
fn short_run(alloc: Global, meter: &mut Meter, source: &Source) -> Result<Run, AllocError>
    requires { ¬ (IsSourceTooLong source.now) }
    ensures { IfOk result (IsRunOfSource source.now) }
{
    match make_run(alloc, source, meter) {
        Ok(run) => Ok(run),
        Err(RunFault::NoMemory) => Err(AllocError),
        Err(_) => unreachable!(),
    }
}

/// Writes after the text what the change costs the tasks, of which the verdict was said.
pub(crate) fn push_costs(
    alloc: Global,
    meter: &mut Meter,
    text: &mut String,
    base: &Base<'_>,
    change: Change,
    verdict: Verdict,
) -> Result<(), AllocError>
    requires basis { IsBasis (basis_of base.now) }
    requires allowed { IsChangeOf (basis_of base.now).source change }
    requires said { IsVerdict (judge_of (basis_of base.now))
        (changed (basis_of base.now).source change) verdict }
    ensures { OnOk result
        (AddsCosts (basis_of base.now) change verdict (string_bytes text.old)
        (string_bytes text.new)) }
{
    match verdict {
        Verdict::Number(_) => {
            let made = changed_source(alloc, base.source, change)?;
            let run = short_run(alloc, meter, &made)?;
            let after = figures_of_run(alloc, meter, &run)?;
            push_cost_lines(alloc, text, base, after.as_slice())?;
            Ok(())
        }
        Verdict::TooLong => Ok(()),
    }
}
