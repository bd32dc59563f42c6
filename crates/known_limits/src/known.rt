//! Up to where a run that keeps work is known.
ghost use Rattle.std.specs.Prelude.{◌≡◌, ◌≤◌, ◌+◌, List, None, All, IfOk, OnErr, OnOk, fold, length, map, true};
ghost use Rattle.bench_types.specs.declared.step.Step.{Step};
ghost use Rattle.bench_types.specs.Limits.{max_steps};
ghost use Rattle.bench_types.specs.Session.{Session};
ghost use Rattle.bench_types.specs.Step.{settings_of};
ghost use Rattle.keeping.specs.Ends.{first_end};
ghost use Rattle.kept_edits.specs.declared.edit.KeptEdit.{KeptEdit};
ghost use Rattle.kept_runs.specs.Items.{edited_items, edited_session};
ghost use Rattle.kept_runs.specs.Known.{earlier, known_until};
ghost use Rattle.kept_runs.specs.Rule.{first_progress};
ghost use Rattle.kept_edits.specs.Edits.{IsKeptEdit};
ghost use Rattle.list_orders.specs.Search.{numbers};
ghost use Rattle.run_answers.specs.Answers.{answer_at};
ghost use Rattle.session_runs.specs.Run.{IsRunOf};
ghost use Rattle.smp_kernel.specs.Counting.{meter_after, CountsUpTo};
ghost use Rattle.known_limits.specs.Before.{AreRows};
ghost use Rattle.known_limits.specs.Calls.{BeginsBelow};
ghost use Rattle.known_limits.specs.Limits.{answer_limits};

use crate::calls::begun_task;
use crate::limit::{limit_by, sooner};
use crate::rows::{AnswerRow, answers_in_rows};
use bench_types::{CheckedSession, Step};
use keeping::Kept;
use kept_edits::KeptEdit;
use kept_runs::{CallOrder, KnownLimit};
use kept_works::{edited_items, settled_places};
use run_answers::{Answer, run_answers};
use session_runs::Run;
use smp_kernel::Meter;
use std::alloc::{AllocError, Global};

// The answers before the edits to the calls of the edited list, in a row for each task.
fn answers_before(
    alloc: Global,
    session: &CheckedSession,
    edits: &[KeptEdit],
    settled: &CheckedSession,
    meter: &mut Meter,
) -> Result<Vec<AnswerRow>, AllocError>
    requires edits { All (IsKeptEdit session.now.header) edits.now }
    requires header { settled.now.header ≡ session.now.header }
    ensures rows { IfOk result
        (λ rows. AreRows session.now settled.now.steps (settings_of session.now.header).tasks
        (edited_items session.now edits.now) rows.items) }
    ensures counted { OnOk result
        (meter.new ≡ meter_after (length settled.now.steps) meter.old) }
    ensures some { OnErr result (CountsUpTo (length settled.now.steps) meter.old meter.new) }
{
    let header = session.header();
    let tasks = header.config.cores + header.tasks.as_slice().len() as u32;
    let items = edited_items(alloc, session, edits)?;
    let places = settled_places(alloc, tasks, session.steps(), settled.steps())?;
    let answers = run_answers(alloc, settled, meter)?;
    answers_in_rows(
        alloc,
        session.steps(),
        places.as_slice(),
        answers.as_slice(),
        items.as_slice(),
        tasks,
    )
}

// The first limit that an answer sets to the run of the edited session, by its answers and by those
// before the edits: of each task's row they come as its calls do.
fn first_answer_limit(
    alloc: Global,
    run: &[Step],
    answers: &[Option<Answer>],
    rows: &[AnswerRow],
) -> Result<Option<KnownLimit>, AllocError>
    requires tasks { All (BeginsBelow (length rows.now)) run.now }
    requires many { length answers.now ≡ length run.now }
    requires few { length run.now ≤ max_steps }
    ensures { IfOk result (λ limit.
        (session : Session) (edits : List KeptEdit) (settled : List Step)
        → AreRows session settled (length rows.now) (edited_items session edits) rows.now
        → answers.now ≡ map (answer_at (edited_session session edits).header run.now)
        (numbers (length run.now))
        → limit ≡ fold earlier None
        (answer_limits session edits settled run.now (length run.now))) }
{
    let mut come = vec![in alloc; 0; rows.len()]?;
    let mut first = None;
    for (place, step) in run.iter().enumerate() {
        if let Some(task) = begun_task(step) {
            let row = task as usize;
            let before = rows[row].next(&mut come[row]);
            first = sooner(first, limit_by(task, before, answers[place]));
        }
    }
    Ok(first)
}

/// Up to where a run that keeps work is known; none where all of it is. The meter counts the steps
/// of the settled run, and of this one.
pub fn known_until(
    alloc: Global,
    order: CallOrder,
    session: &CheckedSession,
    edits: &[KeptEdit],
    settled: &Run,
    kept: &Kept,
    meter: &mut Meter,
) -> Result<Option<KnownLimit>, AllocError>
    requires edits { All (IsKeptEdit session.now.header) edits.now }
    requires settled { IsRunOf true session.now settled.now }
    requires header { kept.now.run.session.header
        ≡ (edited_session session.now edits.now).header }
    requires end { kept.now.end
        ≡ first_end (first_progress order session.now edits.now settled.now.session.steps)
        kept.now.run.session.steps }
    ensures limit { IfOk result
        (λ limit. limit ≡ known_until order session.now edits.now settled.now.session.steps
        kept.now.run.session.steps) }
    ensures counted { OnOk result
        (meter.new ≡ meter_after
        (length settled.now.session.steps + length kept.now.run.session.steps) meter.old) }
    ensures some { OnErr result
        (CountsUpTo (length settled.now.session.steps + length kept.now.run.session.steps)
        meter.old meter.new) }
{
    let rows = answers_before(alloc, session, edits, settled.session(), meter)?;
    let run = kept.run.session();
    let answers = run_answers(alloc, run, meter)?;
    let first = first_answer_limit(alloc, run.steps(), answers.as_slice(), rows.as_slice())?;
    Ok(sooner(first, kept.end))
}
