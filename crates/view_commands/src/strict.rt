//! A status that tells of refusals.
ghost use Rattle.std.specs.Prelude.{◌≡◌, IfOk};
ghost use Rattle.run_sources.specs.Sources.{IsRunOfSource};
ghost use Rattle.view_commands.specs.EditedSources.{after_of};
ghost use Rattle.view_commands.specs.Strict.{IsRefusing, IsStrict};

use crate::edited::EditedSource;
use program_io::{Output, OutputStatus};
use run_comparisons::has_refusal;
use session_runs::Run;
use shown_runs::{Course, Part, PartProgress};
use std::alloc::{AllocError, Global};

// The same with the status of a failure.
fn failed(output: Output) -> Output
    ensures { result ≡ record output { status = OutputStatus.Failed } }
{
    Output {
        status: OutputStatus::Failed,
        text: output.text,
        note: output.note,
    }
}

// The same, which fails where an edit is refused, or a step of the run of what the edits leave.
fn failed_if_refusing(
    alloc: Global,
    run: &Run,
    source: &EditedSource,
    output: Output,
) -> Result<Output, AllocError>
    requires { IsRunOfSource (after_of source.now) run.now }
    ensures { IfOk result (IsStrict (IsRefusing source.now) OutputStatus.Fine output) }
{
    let refused = source.refused(alloc)?;
    if has_refusal(run, refused.as_slice()) {
        return Ok(failed(output));
    }
    Ok(output)
}

/// What is told where refusals count: the status fails where it was fine and an edit is refused, or
/// a step of the run of what the edits leave.
pub(crate) fn judged_strictly<P: PartProgress>(
    course: &mut Course<P>,
    alloc: Global,
    run: &Run,
    source: &EditedSource,
    output: Output,
) -> Result<Output, AllocError>
    requires { IsRunOfSource (after_of source.now) run.now }
    ensures { IfOk result (IsStrict (IsRefusing source.now) output.status output) }
{
    match output.status {
        OutputStatus::Fine => {
            course.begin(Part::Refusals);
            failed_if_refusing(alloc, run, source, output)
        }
        OutputStatus::Failed | OutputStatus::Unknown => Ok(output),
    }
}
