//! Edits that are refused, and steps of the run after them.
ghost use Rattle.std.specs.Prelude.{◌≡◌, ◌↔◌, false, IfOk, IsTrue};
ghost use Rattle.std.specs.Option.{option_map_or};
ghost use Rattle.session_edits.specs.Refused.{refused_places};
ghost use Rattle.run_views.specs.RefusedSteps.{is_refusal, HasRefusedStep};
ghost use Rattle.run_comparisons.specs.Refusals.{HasRefusal};

use bench_types::Reply;
use session_edits::EditedSession;
use session_runs::Run;
use std::alloc::{AllocError, Global};

/// The places of the edits that are refused.
pub fn refused_places(alloc: Global, edited: &EditedSession) -> Result<Vec<usize>, AllocError>
    ensures { IfOk result
        (λ places. places.items ≡ refused_places edited.now.session edited.now.edits) }
{
    let refused = edited.refused();
    refused.iter().map(|one| one.index).collect(alloc)
}

// There is a reply, and it says that the step is refused.
fn is_refused(reply: Option<Reply>) -> bool
    ensures { result ≡ option_map_or is_refusal reply false }
{
    matches!(reply, Some(Reply::Refused(_)))
}

// Whether the kernel refused a step of the run.
fn was_step_refused(run: &Run) -> bool
    ensures { IsTrue result ↔ HasRefusedStep run.now.session.header run.now.session.steps }
{
    for place in 0..run.session().steps().len() as u32 {
        if is_refused(run.reply(place)) {
            return true;
        }
    }
    false
}

/// Whether edits are refused, of which these are the places, or the kernel refused a step of the
/// run.
pub fn has_refusal(run: &Run, refused: &[usize]) -> bool
    ensures { IsTrue result ↔ HasRefusal run.now refused.now }
{
    !refused.is_empty() || was_step_refused(run)
}
