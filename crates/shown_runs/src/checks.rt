//! What is told of the limits of a run.
ghost use Rattle.std.specs.Prelude.{◌≡◌, IfOk, string_bytes};
ghost use Rattle.shown_runs.specs.Checks.{check_printed, printed_of_check};

use crate::parts::{Course, Part, PartProgress};
use program_io::{Output, OutputStatus};
use session_reports::{CheckStatus, Checked, Wanted, check};
use session_runs::Run;
use smp_kernel::Meter;
use std::alloc::{AllocError, Global};

// The limits that are not kept go to standard output, and the names that there are to standard
// error.
fn printed_of_check(alloc: Global, status: CheckStatus, text: String) -> Output
    ensures { result ≡ printed_of_check status (string_bytes text) }
{
    let (none, text) = (Vec::new(alloc), text.into_bytes());
    match status {
        CheckStatus::Kept => Output {
            status: OutputStatus::Fine,
            text,
            note: none,
        },
        CheckStatus::NotKept => Output {
            status: OutputStatus::Failed,
            text,
            note: none,
        },
        CheckStatus::Unknown => Output {
            status: OutputStatus::Unknown,
            text: none,
            note: text,
        },
    }
}

/// Whether the run keeps the limits.
pub(crate) fn check_printed<P: PartProgress>(
    course: &mut Course<P>,
    alloc: Global,
    meter: &mut Meter,
    run: &Run,
    wanted: &[Wanted],
) -> Result<Output, AllocError>
    ensures { IfOk result (λ output. output ≡ check_printed run.now wanted.now) }
{
    course.begin(Part::Measuring);
    let Checked { status, text } = check(alloc, meter, run, wanted)?;
    Ok(printed_of_check(alloc, status, text))
}
