//! The run of a session with edits that keeps work.
ghost use Rattle.std.specs.Prelude.{◌≡◌, ◌≤◌, ◌+◌, ◌*◌, Err, IfOk, None, OnErr, length, false, true};
ghost use Rattle.bench_types.specs.Limits.{max_steps};
ghost use Rattle.bench_types.specs.Session.{Session};
ghost use Rattle.session_runs.specs.Run.{IsRunOf};
ghost use Rattle.settled_runs.specs.Runs.{IsSettledTooLong};
ghost use Rattle.smp_kernel.specs.Counting.{meter_after, CountsUpTo};
ghost use Rattle.kept_sessions.specs.Runs.{is_settled_one, steps_known, steps_made, AreRunsOf, IsCountBy, IsKeptCount, IsKeptRunOf, IsKeptTooLong, IsKnownCount, IsKnownRunOf};

use crate::session::KeptSession;
use bench_types::CheckedSession;
use keeping::{KeepFault, Kept, keep_run};
use kept_runs::{CallOrder, KnownLimit};
use kept_works::kept_works;
use known_limits::known_until;
use session_runs::Run;
use settling::{SettleFault, settle};
use smp_kernel::Meter;
use std::alloc::Global;

// The settled run of the session before the edits.
fn settled_run(alloc: Global, session: &CheckedSession, meter: &mut Meter) -> Result<Run, KeepFault>
    ensures run { IfOk result (λ run. IsRunOf true session.now run) }
    ensures room { IfOk result (λ run. length run.session.steps ≤ max_steps) }
    ensures long { result ≡ Err KeepFault.TooManySteps → IsSettledTooLong session.now }
    ensures counted { IfOk result
        (λ run. meter.new ≡ meter_after (length run.session.steps) meter.old) }
    ensures some { OnErr result (CountsUpTo max_steps meter.old meter.new) }
{
    match settle(alloc, session, meter) {
        Ok(run) => Ok(run),
        Err(SettleFault::TooManySteps) => Err(KeepFault::TooManySteps),
        Err(SettleFault::NoMemory) => Err(KeepFault::NoMemory),
    }
}

/// A run that keeps work, and up to where it is known.
#[derive(Debug, Drop)]
pub struct KnownRun {
    pub run: Run,
    /// None where all of it is known.
    pub limit: Option<KnownLimit>,
}

// The settled run of the session before the edits, and the run that keeps work.
#[derive(Drop)]
struct MadeRuns {
    settled: Run,
    kept: Kept,
}

// Both runs. The meter counts the steps of the settled run twice, as they are made and as time goes
// by in them, and then those of the run.
fn made_runs(
    alloc: Global,
    made: &KeptSession,
    order: CallOrder,
    meter: &mut Meter,
) -> Result<MadeRuns, KeepFault>
    ensures runs { IfOk result (λ runs. AreRunsOf order made.now runs.settled runs.kept) }
    ensures room { IfOk result (λ runs. length runs.kept.run.session.steps ≤ max_steps) }
    ensures long { result ≡ Err KeepFault.TooManySteps → IsKeptTooLong order made.now }
    ensures counted { IfOk result
        (λ runs. meter.new
        ≡ meter_after
        (length runs.settled.session.steps + length runs.settled.session.steps
        + length runs.kept.run.session.steps) meter.old) }
    ensures some { OnErr result (CountsUpTo (3 * max_steps) meter.old meter.new) }
{
    let settled = settled_run(alloc, made.session(), meter)?;
    let works = kept_works(alloc, made.session(), made.edits(), &settled, meter)?;
    let header = made.edited().header();
    let kept = keep_run(alloc, order, header, works.unmade, works.outside, meter)?;
    Ok(MadeRuns { settled, kept })
}

// The run by the works of calls.
fn worked_run(
    alloc: Global,
    made: &KeptSession,
    order: CallOrder,
    meter: &mut Meter,
) -> Result<Run, KeepFault>
    ensures run { IfOk result (λ run. IsKeptRunOf order made.now run) }
    ensures room { IfOk result (λ run. length run.session.steps ≤ max_steps) }
    ensures long { result ≡ Err KeepFault.TooManySteps → IsKeptTooLong order made.now }
    ensures counted { IfOk result
        (λ run. IsCountBy (steps_made false) made.now run meter.old meter.new) }
    ensures some { OnErr result (CountsUpTo (3 * max_steps) meter.old meter.new) }
{
    let runs = made_runs(alloc, made, order, meter)?;
    Ok(runs.kept.run)
}

// The same, and up to where it is known.
fn worked_known_run(
    alloc: Global,
    made: &KeptSession,
    order: CallOrder,
    meter: &mut Meter,
) -> Result<KnownRun, KeepFault>
    ensures run { IfOk result (λ known. IsKnownRunOf order made.now known.run known.limit) }
    ensures room { IfOk result (λ known. length known.run.session.steps ≤ max_steps) }
    ensures long { result ≡ Err KeepFault.TooManySteps → IsKeptTooLong order made.now }
    ensures counted { IfOk result
        (λ known. IsCountBy (steps_known false) made.now known.run meter.old meter.new) }
    ensures some { OnErr result (CountsUpTo (5 * max_steps) meter.old meter.new) }
{
    let MadeRuns { settled, kept } = made_runs(alloc, made, order, meter)?;
    let limit = known_until(
        alloc,
        order,
        made.session(),
        made.edits(),
        &settled,
        &kept,
        meter,
    )?;
    Ok(KnownRun {
        run: kept.run,
        limit,
    })
}

// Whether there are no edits, and the oldest call comes first: then the run is the settled one.
fn is_settled_one(made: &KeptSession, order: CallOrder) -> bool
    ensures { result ≡ is_settled_one order made.now }
{
    match order {
        CallOrder::Oldest => made.edits().is_empty(),
        CallOrder::LeastCore => false,
    }
}

// The settled run where it is the run that keeps work. All of it is known.
fn unedited_run(
    alloc: Global,
    made: &KeptSession,
    order: CallOrder,
    meter: &mut Meter,
) -> Result<Run, KeepFault>
    requires unedited { is_settled_one order made.now ≡ true }
    ensures run { IfOk result (λ run. IsKnownRunOf order made.now run None) }
    ensures room { IfOk result (λ run. length run.session.steps ≤ max_steps) }
    ensures long { result ≡ Err KeepFault.TooManySteps → IsKeptTooLong order made.now }
    ensures counted { IfOk result
        (λ run. IsCountBy (steps_made true) made.now run meter.old meter.new) }
    ensures some { OnErr result (CountsUpTo max_steps meter.old meter.new) }
{
    let session = made.session();
    // A session that was checked is one that a run starts from.
    let _steps = session.steps();
    let run = settled_run(alloc, session, meter)?;
    Ok(run)
}

/// The run of the session with its edits that keeps work. The meter counts the steps of the settled
/// run of the session before the edits twice, and those of the run. Without edits, where the oldest
/// call comes first, the run is the settled one, and is made once.
pub fn kept_run(
    alloc: Global,
    made: &KeptSession,
    order: CallOrder,
    meter: &mut Meter,
) -> Result<Run, KeepFault>
    ensures run { IfOk result (λ run. IsKeptRunOf order made.now run) }
    ensures room { IfOk result (λ run. length run.session.steps ≤ max_steps) }
    ensures long { result ≡ Err KeepFault.TooManySteps → IsKeptTooLong order made.now }
    ensures counted { IfOk result (λ run. IsKeptCount order made.now run meter.old meter.new) }
    ensures some { OnErr result (CountsUpTo (3 * max_steps) meter.old meter.new) }
{
    if is_settled_one(made, order) {
        return unedited_run(alloc, made, order, meter);
    }
    worked_run(alloc, made, order, meter)
}

/// The same, and up to where the run is known. For that the meter counts the steps of the settled
/// run and those of the run once more, but where the run is the settled one.
pub fn known_run(
    alloc: Global,
    made: &KeptSession,
    order: CallOrder,
    meter: &mut Meter,
) -> Result<KnownRun, KeepFault>
    ensures run { IfOk result (λ known. IsKnownRunOf order made.now known.run known.limit) }
    ensures room { IfOk result (λ known. length known.run.session.steps ≤ max_steps) }
    ensures long { result ≡ Err KeepFault.TooManySteps → IsKeptTooLong order made.now }
    ensures counted { IfOk result
        (λ known. IsKnownCount order made.now known.run meter.old meter.new) }
    ensures some { OnErr result (CountsUpTo (5 * max_steps) meter.old meter.new) }
{
    if is_settled_one(made, order) {
        let run = unedited_run(alloc, made, order, meter)?;
        return Ok(KnownRun { run, limit: None });
    }
    worked_known_run(alloc, made, order, meter)
}
