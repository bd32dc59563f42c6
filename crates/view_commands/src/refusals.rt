//! Why nothing is told of an input.
ghost use Rattle.std.specs.Prelude.{◌≡◌, IfOk, string_bytes};
ghost use Rattle.program_io.specs.Twice.{twice_note_of_refused, warned};
ghost use Rattle.view_commands.specs.Refusals.{kept_too_long, no_kept, no_workload, settled_too_long, simulated_too_long, too_many_steps, too_many_ticks, work_path};

use bench_types::{EditFault, Fault, Header, MAX_STEPS};
use program_io::{Output, Refusal, refusal_line, too_many_steps, twice_note_of_refused, warned};
use simulating::push_too_long;
use std::alloc::{AllocError, Global};
use task_programs::MAX_TICKS;

/// The answer where a settled run has too many steps.
pub(crate) fn settled_too_long(alloc: Global) -> Result<Output, AllocError>
    ensures { IfOk result (λ refusal. refusal ≡ settled_too_long) }
{
    let mut hint = String::new(alloc);
    write!(hint, "the settled run has more than {MAX_STEPS} steps\n")?;
    Refusal::of_code(alloc, EditFault::TooLong.code(), hint)?.on_error(alloc)
}

/// The answer where a run that keeps work, or the settled run before the edits, has too many steps.
pub(crate) fn kept_too_long(alloc: Global) -> Result<Output, AllocError>
    ensures { IfOk result (λ refusal. refusal ≡ kept_too_long) }
{
    let mut hint = String::new(alloc);
    hint.push_str("the run that keeps work, or the settled run before the edits, has more than ")?;
    write!(hint, "{MAX_STEPS} steps\n")?;
    Refusal::of_code(alloc, EditFault::TooLong.code(), hint)?.on_error(alloc)
}

/// The answer where the run of a workload has too many steps, of which this task alone made the
/// last calls.
pub(crate) fn simulated_too_long(
    alloc: Global,
    header: &Header,
    caller: Option<u32>,
) -> Result<Output, AllocError>
    ensures { IfOk result (λ refusal. refusal ≡ simulated_too_long header.now caller) }
{
    let mut hint = String::new(alloc);
    push_too_long(&mut hint, header, caller)?;
    hint.push_str("\n")?;
    Refusal::of_code(alloc, EditFault::TooLong.code(), hint)?.on_error(alloc)
}

/// What is told after these lines of a session that is too long.
pub(crate) fn refused_length(alloc: Global, lines: String) -> Result<Output, AllocError>
    ensures { IfOk result (λ printed. printed ≡ warned (string_bytes lines) too_many_steps) }
{
    let refused = too_many_steps(alloc)?.on_error(alloc)?;
    warned(refused, lines)
}

// Where an edit stands, the one of this place, and what it does.
fn work_path(alloc: Global, place: usize) -> Result<String, AllocError>
    ensures { IfOk result (λ path. string_bytes path ≡ work_path place) }
{
    format!(in alloc; "edits[{place}].edit")
}

// The answer where the edit at this place is a change of work, and the runs do not keep work.
fn no_kept(alloc: Global, place: usize) -> Result<Output, AllocError>
    ensures { IfOk result (λ refusal. refusal ≡ no_kept place) }
{
    let mut hint = work_path(alloc, place)?;
    let line = refusal_line(alloc, "H2", hint.as_str())?;
    hint.push_str(": a change of work is shown by --keep-work alone\n")?;
    Refusal { line, hint }.on_error(alloc)
}

/// The same after these lines.
pub(crate) fn refused_work(alloc: Global, lines: String, place: usize) -> Result<Output, AllocError>
    ensures { IfOk result (λ printed. printed ≡ warned (string_bytes lines) (no_kept place)) }
{
    warned(no_kept(alloc, place)?, lines)
}

// The answer where there are more ticks than a workload may have.
fn too_many_ticks(alloc: Global) -> Result<Output, AllocError>
    ensures { IfOk result (λ refusal. refusal ≡ too_many_ticks) }
{
    let line = refusal_line(alloc, Fault::BadArgument.code(), "ticks")?;
    let mut hint = String::new(alloc);
    write!(
        hint,
        "ticks: a workload goes on for {MAX_TICKS} ticks at most\n"
    )?;
    Refusal { line, hint }.on_error(alloc)
}

/// The same after these lines.
pub(crate) fn refused_ticks(alloc: Global, lines: String) -> Result<Output, AllocError>
    ensures { IfOk result (λ printed. printed ≡ warned (string_bytes lines) too_many_ticks) }
{
    warned(too_many_ticks(alloc)?, lines)
}

// The answer where a workload is wanted, and a document is none.
fn no_workload(alloc: Global) -> Result<Output, AllocError>
    ensures { IfOk result (λ refusal. refusal ≡ no_workload) }
{
    let hint = String::from_str(
        alloc,
        "top: expected a workload, an object with ticks and with neither session nor steps\n",
    )?;
    Refusal {
        line: refusal_line(alloc, "H2", "top")?,
        hint,
    }
    .on_error(alloc)
}

/// The same of a document, first where a member of it stands twice.
pub(crate) fn refused_document(alloc: Global, input: &[u8]) -> Result<Output, AllocError>
    ensures { IfOk result
        (λ printed. printed ≡ warned (twice_note_of_refused input.now) no_workload) }
{
    let lines = twice_note_of_refused(alloc, input)?;
    warned(no_workload(alloc)?, lines)
}
