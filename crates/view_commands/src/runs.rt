//! The runs that are shown, made.
ghost use Rattle.std.specs.Prelude.{◌≡◌, ◌++◌, All, false, IfErr, IfOk, None, OnOk, true, string_bytes};
ghost use Rattle.kept_sessions.specs.Runs.{IsKnownRunOf};
ghost use Rattle.run_sources.specs.declared.source.Source.TheVariants as source;
ghost use Rattle.run_sources.specs.Sources.{IsRunOfSource, IsSourceTooLong};
ghost use Rattle.shown_runs.specs.Runs.{last_of};
ghost use Rattle.view_commands.specs.Answers.{ends_by, AreEnds};
ghost use Rattle.view_commands.specs.EditedSources.{after_of, before_of};
ghost use Rattle.view_commands.specs.Known.{IsKnownTo, IsToldKnown};
ghost use Rattle.view_commands.specs.ShownRuns.{sources_of, IsPair, IsShown};
ghost use Rattle.view_commands.specs.TooLong.{IsFaultOf, IsFaultOfFirst};

use crate::edited::{EditedSource, last_workload};
use crate::fault::ShowFault;
use crate::kept::{kept_pair, known_run_of, run_without_edits};
use crate::known::known_text;
use crate::refusals::{settled_too_long, simulated_too_long};
use crate::request::Documents;
use bench_types::CheckedSession;
use kept_runs::{CallOrder, KnownLimit};
use kept_sessions::KeptSession;
use run_comparisons::RunPair;
use session_runs::Run;
use settling::{SettleFault, settle};
use shown_runs::Shown;
use simulating::{SimulateFault, Simulated, push_ends, simulate};
use smp_kernel::Meter;
use std::alloc::{AllocError, Global};
use task_programs::CheckedWorkload;

/// A run, up to where it is known, and the lines of who is at the end of its program.
#[derive(Drop)]
pub(crate) struct MadeRun {
    pub(crate) run: Run,
    pub(crate) known: Option<KnownLimit>,
    pub(crate) ends: String,
}

/// Runs that are shown, and the lines of who is at the end of its program.
#[derive(Drop)]
pub(crate) struct MadeRuns {
    pub(crate) shown: Shown,
    pub(crate) ends: String,
}

// The run of a session as its steps stand.
fn plain_run(alloc: Global, meter: &mut Meter, session: &CheckedSession) -> Result<Run, AllocError>
    ensures { IfOk result (IsRunOfSource (source.Session session.now)) }
{
    Run::of_session(alloc, session.copy(alloc)?, meter)
}

// The settled run of a session.
#[tactic(auto, using(crate::proofs::ShownSources::settled_short))]
fn settled_run(alloc: Global, meter: &mut Meter, session: &CheckedSession) -> Result<Run, ShowFault>
    ensures run { IfOk result (IsRunOfSource (source.Settled session.now)) }
    ensures short { OnOk result (¬ IsSourceTooLong (source.Settled session.now)) }
    ensures fault { IfErr result (IsFaultOf (source.Settled session.now)) }
{
    match settle(alloc, session, meter) {
        Ok(run) => Ok(run),
        Err(SettleFault::TooManySteps) => Err(ShowFault::TooLong(settled_too_long(alloc)?)),
        Err(SettleFault::NoMemory) => Err(ShowFault::NoMemory),
    }
}

// Where workloads alone are read, which tasks are at the end of their programs, and which are not.
fn ends_told(
    alloc: Global,
    documents: Documents,
    workload: &CheckedWorkload,
    at_end: &[bool],
) -> Result<String, AllocError>
    ensures { IfOk result (λ ends. string_bytes ends ≡ ends_by documents workload.now at_end.now) }
{
    let mut ends = String::new(alloc);
    if let Documents::Workloads(_) = documents {
        push_ends(alloc, &mut ends, workload, at_end)?;
    }
    Ok(ends)
}

// The run of a workload.
#[tactic(auto, using(crate::proofs::ShownSources::simulated_so, crate::proofs::ShownSources::simulated_short))]
fn simulated_run(
    alloc: Global,
    meter: &mut Meter,
    documents: Documents,
    workload: &CheckedWorkload,
) -> Result<MadeRun, ShowFault>
    ensures run { IfOk result (λ made. IsRunOfSource (source.Workload workload.now) made.run) }
    ensures known { IfOk result (λ made. made.known ≡ None) }
    ensures ends { IfOk result
        (λ made. AreEnds documents (source.Workload workload.now) made.run
        (string_bytes made.ends)) }
    ensures short { OnOk result (¬ IsSourceTooLong (source.Workload workload.now)) }
    ensures fault { IfErr result (IsFaultOf (source.Workload workload.now)) }
{
    match simulate(alloc, workload, meter) {
        Ok(Simulated { session, at_end }) => {
            // A session that was checked has no more steps than it may have.
            let _steps = session.steps();
            let ends = ends_told(alloc, documents, workload, at_end.as_slice())?;
            let run = Run::of_session(alloc, session, meter)?;
            Ok(MadeRun {
                run,
                known: None,
                ends,
            })
        }
        Err(SimulateFault::TooManySteps { caller }) => {
            let refusal = simulated_too_long(alloc, workload.header(), caller)?;
            Err(ShowFault::TooLong(refusal))
        }
        Err(SimulateFault::NoMemory) => Err(ShowFault::NoMemory),
    }
}

// The run that keeps work, and up to where it is known.
fn kept_run(
    alloc: Global,
    meter: &mut Meter,
    made: &KeptSession,
    order: CallOrder,
) -> Result<MadeRun, ShowFault>
    ensures run { IfOk result (λ shown. IsRunOfSource (source.Kept made.now order) shown.run) }
    ensures known { IfOk result
        (λ shown. IsKnownRunOf order made.now shown.run shown.known) }
    ensures ends { IfOk result
        (λ shown. IsToldKnown order made.now shown.run (string_bytes shown.ends)) }
    ensures short { OnOk result (¬ IsSourceTooLong (source.Kept made.now order)) }
    ensures fault { IfErr result (IsFaultOf (source.Kept made.now order)) }
{
    let known = known_run_of(alloc, meter, made, order)?;
    let ends = known_text(alloc, known.run.session().header(), known.limit)?;
    Ok(MadeRun {
        run: known.run,
        known: known.limit,
        ends,
    })
}

/// The run before the edits.
pub(crate) fn run_before(
    alloc: Global,
    meter: &mut Meter,
    source: &EditedSource,
) -> Result<Run, ShowFault>
    ensures run { IfOk result (IsRunOfSource (before_of source.now)) }
    ensures short { OnOk result (¬ IsSourceTooLong (before_of source.now)) }
    ensures fault { IfErr result (IsFaultOf (before_of source.now)) }
{
    match source {
        EditedSource::Session(edited) => Ok(plain_run(alloc, meter, edited.session())?),
        EditedSource::Settled(edited) => settled_run(alloc, meter, edited.session()),
        EditedSource::Workload(edited) => {
            Ok(simulated_run(alloc, meter, Documents::All, &edited.workload)?.run)
        }
        EditedSource::Kept(made, order) => run_without_edits(alloc, meter, made, *order),
    }
}

/// The run of what the edits leave.
pub(crate) fn run_after(
    alloc: Global,
    meter: &mut Meter,
    documents: Documents,
    source: &EditedSource,
) -> Result<MadeRun, ShowFault>
    ensures run { IfOk result (λ made. IsRunOfSource (after_of source.now) made.run) }
    ensures known { IfOk result
        (λ made. IsKnownTo (after_of source.now) made.run made.known) }
    ensures ends { IfOk result
        (λ made. AreEnds documents (after_of source.now) made.run (string_bytes made.ends)) }
    ensures short { OnOk result (¬ IsSourceTooLong (after_of source.now)) }
    ensures fault { IfErr result (IsFaultOf (after_of source.now)) }
{
    let ends = String::new(alloc);
    match source {
        EditedSource::Session(edited) => {
            let run = plain_run(alloc, meter, edited.edited())?;
            Ok(MadeRun {
                run,
                known: None,
                ends,
            })
        }
        EditedSource::Settled(edited) => {
            let run = settled_run(alloc, meter, edited.edited())?;
            Ok(MadeRun {
                run,
                known: None,
                ends,
            })
        }
        EditedSource::Workload(edited) => {
            simulated_run(alloc, meter, documents, last_workload(edited))
        }
        EditedSource::Kept(made, order) => kept_run(alloc, meter, made, *order),
    }
}

// Both runs of the source, beside each other. So far the second is known.
fn pair_of(
    alloc: Global,
    source: &EditedSource,
    before: Run,
    after: Run,
    known: Option<KnownLimit>,
) -> Result<RunPair, AllocError>
    requires before { IsRunOfSource (before_of source.now) before }
    requires after { IsRunOfSource (after_of source.now) after }
    requires known { IsKnownTo (after_of source.now) after known }
    ensures pair { IfOk result (IsPair source.now) }
    ensures after { IfOk result (λ pair. pair.after ≡ after) }
{
    match source {
        EditedSource::Session(edited) => RunPair::of_edited(alloc, edited, before, after),
        EditedSource::Settled(edited) => RunPair::of_settled(alloc, edited, before, after),
        EditedSource::Workload(_) => RunPair::of_simulated(alloc, before, after),
        EditedSource::Kept(made, _) => kept_pair(alloc, made, before, after, known),
    }
}

// The run of what the edits leave, as the one that is shown.
#[tactic(auto, using(crate::proofs::ShownSources::fault_of_one))]
fn shown_run(
    alloc: Global,
    meter: &mut Meter,
    documents: Documents,
    source: &EditedSource,
) -> Result<MadeRuns, ShowFault>
    ensures shown { IfOk result (λ made. IsShown false source.now made.shown) }
    ensures ends { IfOk result
        (λ made. AreEnds documents (after_of source.now) (last_of made.shown)
        (string_bytes made.ends)) }
    ensures short { OnOk result (All (λ one. ¬ IsSourceTooLong one) (sources_of false source.now)) }
    ensures fault { IfErr result (IsFaultOfFirst (sources_of false source.now)) }
{
    let made = run_after(alloc, meter, documents, source)?;
    Ok(MadeRuns {
        shown: Shown::One(made.run),
        ends: made.ends,
    })
}

// Both runs.
#[tactic(auto, using(crate::proofs::ShownSources::fault_of_first, crate::proofs::ShownSources::fault_of_second))]
fn shown_pair(
    alloc: Global,
    meter: &mut Meter,
    documents: Documents,
    source: &EditedSource,
) -> Result<MadeRuns, ShowFault>
    ensures shown { IfOk result (λ made. IsShown true source.now made.shown) }
    ensures ends { IfOk result
        (λ made. AreEnds documents (after_of source.now) (last_of made.shown)
        (string_bytes made.ends)) }
    ensures short { OnOk result (All (λ one. ¬ IsSourceTooLong one) (sources_of true source.now)) }
    ensures fault { IfErr result (IsFaultOfFirst (sources_of true source.now)) }
{
    let before = run_before(alloc, meter, source)?;
    let made = run_after(alloc, meter, documents, source)?;
    let pair = pair_of(alloc, source, before, made.run, made.known)?;
    Ok(MadeRuns {
        shown: Shown::Two(pair),
        ends: made.ends,
    })
}

/// Both runs, or that of what the edits leave.
pub(crate) fn runs_shown(
    alloc: Global,
    meter: &mut Meter,
    documents: Documents,
    source: &EditedSource,
    both: bool,
) -> Result<MadeRuns, ShowFault>
    ensures shown { IfOk result (λ made. IsShown both source.now made.shown) }
    ensures ends { IfOk result
        (λ made. AreEnds documents (after_of source.now) (last_of made.shown)
        (string_bytes made.ends)) }
    ensures short { OnOk result (All (λ one. ¬ IsSourceTooLong one) (sources_of both source.now)) }
    ensures fault { IfErr result (IsFaultOfFirst (sources_of both source.now)) }
{
    if both {
        shown_pair(alloc, meter, documents, source)
    } else {
        shown_run(alloc, meter, documents, source)
    }
}
