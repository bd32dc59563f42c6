//! The lines of edits that are refused.
ghost use Rattle.std.specs.Prelude.{◌≡◌, ◌++◌, IfOk, OnOk, flat_map, string_bytes};
ghost use Rattle.kept_notes.specs.Notes.{kept_line, no_call_line};

use crate::RefusedKept;
use session_edits::push_refused;
use std::alloc::{AllocError, Global};

// The line of a change of work where no call begins.
fn push_no_call(text: &mut String, index: usize, at: u32) -> Result<(), AllocError>
    ensures { OnOk result
        (string_bytes text.new ≡ string_bytes text.old ++ no_call_line index at) }
{
    write!(
        text,
        "edit {index} refused J1: no call begins at step {at}\n"
    )
}

// The line of an edit that is refused.
fn push_line(text: &mut String, refused: &RefusedKept) -> Result<(), AllocError>
    ensures { OnOk result
        (string_bytes text.new ≡ string_bytes text.old ++ kept_line refused.now) }
{
    match *refused {
        RefusedKept::Plain(refused) => push_refused(text, &refused),
        RefusedKept::Work { index, at } => push_no_call(text, index, at),
    }
}

/// A line for each of the edits, which are refused.
pub fn kept_notes(alloc: Global, refused: &[RefusedKept]) -> Result<String, AllocError>
    ensures { IfOk result (λ text. string_bytes text ≡ flat_map kept_line refused.now) }
{
    let mut text = String::new(alloc);
    for one in refused {
        push_line(&mut text, one)?;
    }
    Ok(text)
}
