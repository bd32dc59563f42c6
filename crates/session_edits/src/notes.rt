//! The lines of edits that are refused.
ghost use Rattle.std.specs.Prelude.{◌≡◌, ◌++◌, IfOk, OnOk, flat_map, string_bytes};
ghost use Rattle.bench_types.specs.Session.{Session};
ghost use Rattle.session_edits.specs.Notes.{count_text, edit_notes, plural, reason_text, refused_line, trial_notes};
ghost use Rattle.session_edits.specs.Refused.{IsCounted};

use crate::refused::{RefusedEdit, refused_alone, refused_in_turn};
use bench_types::{Edit, EditFault};
use std::alloc::{AllocError, Global};

// What follows a word of which there are so many.
fn plural(count: u32) -> &'static str
    ensures { result.now ≡ plural count }
{
    if count == 1 { "" } else { "s" }
}

// How many steps the session has.
#[tactic(auto, unfolding(crate::specs::Notes::count_text))]
fn push_count(text: &mut String, steps: u32) -> Result<(), AllocError>
    ensures { OnOk result (string_bytes text.new ≡ string_bytes text.old ++ count_text steps) }
{
    write!(text, ": the session has {steps} step")?;
    text.push_str(plural(steps))
}

// What of a session of so many steps speaks against the edit.
fn push_reason(text: &mut String, steps: u32, why: EditFault) -> Result<(), AllocError>
    ensures { OnOk result
        (string_bytes text.new ≡ string_bytes text.old ++ reason_text steps why) }
{
    match why {
        EditFault::Bench(_) => Ok(()),
        EditFault::NoPlace => push_count(text, steps),
        EditFault::TooLong => {
            push_count(text, steps)?;
            text.push_str(", the most that it may have")
        }
    }
}

/// Adds the line of an edit that is refused.
#[tactic(auto, unfolding(crate::specs::Notes::refused_line))]
pub fn push_refused(text: &mut String, refused: &RefusedEdit) -> Result<(), AllocError>
    ensures { OnOk result
        (string_bytes text.new ≡ string_bytes text.old ++ refused_line refused.now) }
{
    let RefusedEdit { index, steps, why } = *refused;
    write!(text, "edit {index} refused {}", why.code())?;
    push_reason(text, steps, why)?;
    text.push_str("\n")
}

/// A line for each of the edits, which are refused.
pub(crate) fn lines_of(alloc: Global, refused: &[RefusedEdit]) -> Result<String, AllocError>
    ensures { IfOk result (λ text. string_bytes text ≡ flat_map refused_line refused.now) }
{
    let mut text = String::new(alloc);
    for one in refused {
        push_refused(&mut text, one)?;
    }
    Ok(text)
}

/// A line for each edit that is refused, of edits that are made one after another of a session of
/// so many steps.
#[tactic(auto, unfolding(crate::specs::Notes::edit_notes))]
pub fn refused_edits(alloc: Global, steps: u32, edits: &[Edit]) -> Result<String, AllocError>
    ensures { IfOk result
        (λ text. (session : Session) → IsCounted steps edits.now session
        → string_bytes text ≡ edit_notes session edits.now) }
{
    lines_of(alloc, refused_in_turn(alloc, steps, edits)?.as_slice())
}

/// A line for each edit that is refused, of edits that are each tried alone on a session of so many
/// steps. Where there are no edits, a line tells that.
#[tactic(auto, unfolding(crate::specs::Notes::trial_notes))]
pub fn refused_trials(alloc: Global, steps: u32, edits: &[Edit]) -> Result<String, AllocError>
    ensures { IfOk result
        (λ text. (session : Session) → IsCounted steps edits.now session
        → string_bytes text ≡ trial_notes session edits.now) }
{
    match edits {
        [] => String::from_str(alloc, "no edits: nothing was tried\n"),
        [_, ..] => lines_of(alloc, refused_alone(alloc, steps, edits)?.as_slice()),
    }
}
