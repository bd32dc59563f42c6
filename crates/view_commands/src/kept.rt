//! Sessions whose runs keep work.
ghost use Rattle.std.specs.Prelude.{◌≡◌, IfErr, IfOk, OnOk, string_bytes};
ghost use Rattle.kept_edits.specs.Edits.{plain_edits};
ghost use Rattle.kept_notes.specs.Notes.{kept_notes};
ghost use Rattle.kept_notes.specs.Refused.{places_of, refused_kept};
ghost use Rattle.kept_runs.specs.Items.{edited_session};
ghost use Rattle.kept_sessions.specs.Runs.{IsKnownRunOf};
ghost use Rattle.kept_sessions.specs.Sessions.{without_edits};
ghost use Rattle.run_comparisons.specs.Pairs.{IsKeptPair};
ghost use Rattle.run_comparisons.specs.Shared.{AreMomentsOf};
ghost use Rattle.run_sources.specs.declared.source.Source.TheVariants as source;
ghost use Rattle.run_sources.specs.Sources.{IsRunOfSource, IsSourceTooLong};
ghost use Rattle.view_commands.specs.TooLong.{IsFaultOf};

use crate::fault::ShowFault;
use crate::refusals::kept_too_long;
use keeping::KeepFault;
use kept_notes::{RefusedKept, kept_notes, refused_kept, refused_places};
use kept_runs::{CallOrder, KnownLimit};
use kept_sessions::{KeptSession, KnownRun, kept_run, known_run};
use run_comparisons::RunPair;
use session_runs::Run;
use smp_kernel::Meter;
use std::alloc::{AllocError, Global};

// The edits that are refused.
fn refused_edits(alloc: Global, made: &KeptSession) -> Result<Vec<RefusedKept>, AllocError>
    ensures { IfOk result
        (λ refused. refused.items ≡ refused_kept made.now.session made.now.edits) }
{
    refused_kept(alloc, made.session(), made.edits())
}

/// Their places.
pub(crate) fn places_refused(alloc: Global, made: &KeptSession) -> Result<Vec<usize>, AllocError>
    ensures { IfOk result
        (λ places. places.items
        ≡ places_of (refused_kept made.now.session made.now.edits)) }
{
    let refused = refused_edits(alloc, made)?;
    refused_places(alloc, refused.as_slice())
}

/// A line for each of them.
pub(crate) fn notes_of(alloc: Global, made: &KeptSession) -> Result<String, AllocError>
    ensures { IfOk result
        (λ lines. string_bytes lines ≡ kept_notes made.now.session made.now.edits) }
{
    let refused = refused_edits(alloc, made)?;
    kept_notes(alloc, refused.as_slice())
}

/// The run that keeps work, and up to where it is known.
#[tactic(auto, using(crate::proofs::ShownSources::known_short))]
pub(crate) fn known_run_of(
    alloc: Global,
    meter: &mut Meter,
    made: &KeptSession,
    order: CallOrder,
) -> Result<KnownRun, ShowFault>
    ensures run { IfOk result (λ known. IsKnownRunOf order made.now known.run known.limit) }
    ensures short { OnOk result (¬ IsSourceTooLong (source.Kept made.now order)) }
    ensures fault { IfErr result (IsFaultOf (source.Kept made.now order)) }
{
    match known_run(alloc, made, order, meter) {
        Ok(known) => Ok(known),
        Err(KeepFault::TooManySteps) => Err(ShowFault::TooLong(kept_too_long(alloc)?)),
        Err(KeepFault::NoMemory) => Err(ShowFault::NoMemory),
    }
}

// The run that keeps work.
#[tactic(auto, using(crate::proofs::ShownSources::kept_short))]
fn kept_run_of(
    alloc: Global,
    meter: &mut Meter,
    made: &KeptSession,
    order: CallOrder,
) -> Result<Run, ShowFault>
    ensures run { IfOk result (IsRunOfSource (source.Kept made.now order)) }
    ensures short { OnOk result (¬ IsSourceTooLong (source.Kept made.now order)) }
    ensures fault { IfErr result (IsFaultOf (source.Kept made.now order)) }
{
    match kept_run(alloc, made, order, meter) {
        Ok(run) => Ok(run),
        Err(KeepFault::TooManySteps) => Err(ShowFault::TooLong(kept_too_long(alloc)?)),
        Err(KeepFault::NoMemory) => Err(ShowFault::NoMemory),
    }
}

/// The run that keeps work of the session without its edits.
pub(crate) fn run_without_edits(
    alloc: Global,
    meter: &mut Meter,
    made: &KeptSession,
    order: CallOrder,
) -> Result<Run, ShowFault>
    ensures run { IfOk result (IsRunOfSource (source.Kept (without_edits made.now) order)) }
    ensures short { OnOk result
        (¬ IsSourceTooLong (source.Kept (without_edits made.now) order)) }
    ensures fault { IfErr result (IsFaultOf (source.Kept (without_edits made.now) order)) }
{
    let before = made.without_edits(alloc)?;
    kept_run_of(alloc, meter, &before, order)
}

/// Both runs beside each other. Of all edits some are refused, and so far the second run is known.
pub(crate) fn kept_pair(
    alloc: Global,
    made: &KeptSession,
    before: Run,
    after: Run,
    known: Option<KnownLimit>,
) -> Result<RunPair, AllocError>
    requires before { AreMomentsOf made.now.session.steps before.session.steps }
    requires after { AreMomentsOf (edited_session made.now.session made.now.edits).steps
        after.session.steps }
    ensures { IfOk result
        (λ pair. IsKeptPair made.now.session (plain_edits made.now.edits)
        (places_of (refused_kept made.now.session made.now.edits)) known before after pair) }
{
    let refused = places_refused(alloc, made)?;
    RunPair::of_kept(alloc, made.plain(), before, after, refused, known)
}
