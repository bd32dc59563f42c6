//! What is told of the calls that were not made.
ghost use Rattle.std.specs.Prelude.{◌≡◌, ◌++◌, OnOk, string_bytes};
ghost use Rattle.settling.specs.Notes.{count_of, entry_if_left, entry_of, is_first, left_text};

use bench_types::{Header, MAX_CORES, MAX_TASKS};
use settled_runs::WaitingCall;
use std::alloc::AllocError;

// How many of the calls are the task's.
fn count_of(left: &[WaitingCall], task: u32) -> usize
    ensures { result ≡ count_of left.now task }
{
    left.iter().filter(|waits| waits.task == task).count()
}

// Whether no call is that of a task with a smaller number.
fn is_first(left: &[WaitingCall], task: u32) -> bool
    ensures { result ≡ is_first left.now task }
{
    left.iter().all(|waits| task <= waits.task)
}

// The task and how many of its calls were left, behind a comma where another task comes first.
fn push_entry(
    text: &mut String,
    header: &Header,
    left: &[WaitingCall],
    task: u32,
) -> Result<(), AllocError>
    ensures { OnOk result
        (string_bytes text.new ≡ string_bytes text.old ++ entry_of header.now left.now task) }
{
    if !is_first(left, task) {
        text.push_str(", ")?;
    }
    header.push_name(text, task)?;
    write!(text, " {}", count_of(left, task))
}

fn push_entry_if_left(
    text: &mut String,
    header: &Header,
    left: &[WaitingCall],
    task: u32,
) -> Result<(), AllocError>
    ensures { OnOk result
        (string_bytes text.new
        ≡ string_bytes text.old ++ entry_if_left header.now left.now task) }
{
    if count_of(left, task) == 0 {
        return Ok(());
    }
    push_entry(text, header, left, task)
}

/// Writes after the text how many calls of each task were not made, as `control 2, logger 1`: the
/// tasks of which there are such calls, in the order of their numbers.
pub fn push_left(text: &mut String, header: &Header, left: &[WaitingCall]) -> Result<(), AllocError>
    ensures { OnOk result
        (string_bytes text.new ≡ string_bytes text.old ++ left_text header.now left.now) }
{
    for task in 0..MAX_CORES + MAX_TASKS {
        push_entry_if_left(text, header, left, task)?;
    }
    Ok(())
}
