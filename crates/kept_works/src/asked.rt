//! Clocks of tasks at places of a run, in any order.
ghost use Rattle.std.specs.Prelude.{◌≡◌, ◌<◌, ◌^◌, ℕ, All, IfOk, OnErr, OnOk, length, map, if◌then◌else◌};
ghost use Rattle.bench_types.specs.Limits.{max_steps};
ghost use Rattle.list_orders.specs.Search.{has};
ghost use Rattle.smp_kernel.specs.Counting.{meter_after};
ghost use Rattle.kept_works.specs.Asked.{clock_of, task_at, AreSorted, IsAsked};
ghost use Rattle.keeping.specs.Works.{clock_at};
ghost use Rattle.kept_works.specs.Walk.{IsShort};

use crate::rows::{Row, empty_rows, push_to};
use crate::walk::{NO_WORK, Walk};
use bench_types::CheckedSession;
use kept_runs::Clock;
use smp_kernel::Meter;
use std::alloc::{AllocError, Global};

/// The clock of the task at the place is asked for.
#[derive(Clone, Copy, Debug, PartialEq, Eq)]
pub(crate) struct Asked {
    pub(crate) task: u32,
    pub(crate) place: u32,
}

// For each place what is asked there, by its index.
fn sorted(alloc: Global, places: usize, asked: &[Asked]) -> Result<Vec<Row>, AllocError>
    requires places { All (λ (one : Asked). one.place < places) asked.now }
    requires few { length asked.now < 2 ^ 32 }
    ensures { IfOk result (λ rows. AreSorted places asked.now rows.items) }
{
    let mut rows = empty_rows(alloc, places)?;
    for (index, one) in asked.iter().enumerate() {
        push_to(&mut rows, one.place as usize, index as u32)?;
    }
    Ok(rows)
}

// Answers what is asked at a place, where these are the clocks.
fn answer(asked: &[Asked], row: &[u32], clocks: &[Clock], answers: &mut [Clock])
    requires many { length answers.old ≡ length asked.now }
    requires row { All (λ index. index < length asked.now) row.now }
    requires tasks { All (λ (one : Asked). one.task < length clocks.now) asked.now }
    ensures many { length answers.new ≡ length answers.old }
    ensures answers { (index : ℕ) → index < length asked.now → clock_at answers.new index
        ≡ (if has index row.now then clock_at clocks.now (task_at asked.now index)
        else clock_at answers.old index) }
{
    for index in row {
        let task = asked[*index as usize].task;
        answers[*index as usize] = clocks[task as usize];
    }
}

/// The clocks that are asked for. The meter counts the steps of the run.
pub(crate) fn asked_clocks(
    alloc: Global,
    run: &CheckedSession,
    asked: &[Asked],
    meter: &mut Meter,
) -> Result<Vec<Clock>, AllocError>
    requires asked { All (IsAsked run.now) asked.now }
    requires few { length asked.now < 2 ^ 32 }
    ensures clocks { IfOk result (λ clocks. clocks.items ≡ map (clock_of run.now) asked.now) }
    ensures short { IfOk result (λ clocks. All (IsShort max_steps) clocks.items) }
    ensures counted { OnOk result (meter.new ≡ meter_after (length run.now.steps) meter.old) }
    ensures uncounted { OnErr result (meter.new ≡ meter.old) }
{
    let steps = run.steps();
    let rows = sorted(alloc, steps.len() + 1, asked)?;
    let mut answers = vec![in alloc; NO_WORK; asked.len()]?;
    let mut walk = Walk::start(alloc, run.header())?;
    for (place, step) in steps.iter().enumerate() {
        answer(asked, rows[place].numbers(), &walk.worked, &mut answers);
        walk.go_on(step, meter);
    }
    answer(
        asked,
        rows[steps.len()].numbers(),
        &walk.worked,
        &mut answers,
    );
    Ok(answers)
}
