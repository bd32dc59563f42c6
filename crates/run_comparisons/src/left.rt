//! The calls that were not made.
ghost use Rattle.std.specs.Prelude.{◌≡◌, ◌++◌, OnOk, string_bytes};
ghost use Rattle.run_comparisons.specs.Pairs.{left_line, left_lines};

use bench_types::Header;
use session_runs::Run;
use settled_runs::WaitingCall;
use settling::push_left;
use std::alloc::AllocError;

// A line of the calls that were not made in the run; none where all were made.
fn push_left_line(
    text: &mut String,
    run: &str,
    header: &Header,
    left: &[WaitingCall],
) -> Result<(), AllocError>
    ensures { OnOk result
        (string_bytes text.new
        ≡ string_bytes text.old ++ left_line run.now header.now left.now) }
{
    if left.is_empty() {
        return Ok(());
    }
    write!(text, "not made {run}: ")?;
    push_left(text, header, left)?;
    text.push_str("\n")
}

/// Writes a line of the calls that were not made in the run before the edits, where there are such
/// calls, and a line of those in the run after them.
#[tactic(auto, unfolding(crate::specs::Pairs::left_lines))]
pub fn push_left_lines(text: &mut String, before: &Run, after: &Run) -> Result<(), AllocError>
    ensures { OnOk result
        (string_bytes text.new
        ≡ string_bytes text.old ++ left_lines before.now after.now) }
{
    push_left_line(text, "before", before.session().header(), before.left())?;
    push_left_line(text, "after", after.session().header(), after.left())
}
