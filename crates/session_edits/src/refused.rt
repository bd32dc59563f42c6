//! Edits that are refused.
ghost use Rattle.std.specs.Prelude.{◌≡◌, ◌++◌, Ok, IfOk, OnOk, length};
ghost use Rattle.bench_types.specs.Edit.{edit_check};
ghost use Rattle.bench_types.specs.Session.{Session};
ghost use Rattle.bench_model.specs.Edits.{after_edit};
ghost use Rattle.session_edits.specs.Refused.{refused_at, refused_edits, untried_from, IsAnswer, IsCounted};

use bench_types::{Edit, EditFault, MAX_STEPS};
use std::alloc::{AllocError, Global};

/// An edit that is refused.
#[derive(Clone, Copy, Debug, PartialEq, Eq, Hash)]
pub struct RefusedEdit {
    /// Its place among the edits.
    pub index: usize,
    /// How many steps the session has then.
    pub steps: u32,
    pub why: EditFault,
}

/// How many steps there are after the edit, or why that is refused.
pub fn steps_after(steps: u32, edit: &Edit) -> Result<u32, EditFault>
    ensures { (session : Session) → length session.steps ≡ steps
        → edit_check session.header edit.now ≡ Ok tt → IsAnswer session edit.now result }
{
    match *edit {
        Edit::Insert { at, .. } if at > steps => Err(EditFault::NoPlace),
        Edit::Insert { .. } if steps >= MAX_STEPS => Err(EditFault::TooLong),
        Edit::Insert { .. } => Ok(steps + 1),
        Edit::Remove { at } | Edit::Replace { at, .. } if at >= steps => Err(EditFault::NoPlace),
        Edit::Remove { .. } => Ok(steps - 1),
        Edit::Replace { .. } | Edit::ChangeTask { .. } => Ok(steps),
    }
}

// Adds the edit, where it is refused, and says how many steps there are after it.
fn push_if_refused(
    refused: &mut Vec<RefusedEdit>,
    index: usize,
    steps: u32,
    edit: &Edit,
) -> Result<u32, AllocError>
    ensures steps { IfOk result
        (λ after. (session : Session) → length session.steps ≡ steps
        → edit_check session.header edit.now ≡ Ok tt
        → length (after_edit session edit.now).steps ≡ after) }
    ensures refused { OnOk result
        ((session : Session) → length session.steps ≡ steps
        → edit_check session.header edit.now ≡ Ok tt
        → refused.new.items ≡ refused.old.items ++ refused_at index session edit.now) }
{
    match steps_after(steps, edit) {
        Ok(after) => Ok(after),
        Err(why) => {
            refused.push(RefusedEdit { index, steps, why })?;
            Ok(steps)
        }
    }
}

/// Those that are refused of edits that are made one after another of a session of so many steps.
pub(crate) fn refused_in_turn(
    alloc: Global,
    steps: u32,
    edits: &[Edit],
) -> Result<Vec<RefusedEdit>, AllocError>
    ensures { IfOk result
        (λ refused. (session : Session) → IsCounted steps edits.now session
        → refused.items ≡ refused_edits session edits.now) }
{
    let mut refused = Vec::new(alloc);
    let mut count = steps;
    for (index, edit) in edits.iter().enumerate() {
        count = push_if_refused(&mut refused, index, count, edit)?;
    }
    Ok(refused)
}

/// Those that are refused of edits that are each tried alone on a session of so many steps.
pub(crate) fn refused_alone(
    alloc: Global,
    steps: u32,
    edits: &[Edit],
) -> Result<Vec<RefusedEdit>, AllocError>
    ensures { IfOk result
        (λ refused. (session : Session) → IsCounted steps edits.now session
        → refused.items ≡ untried_from 0 session edits.now) }
{
    let mut refused = Vec::new(alloc);
    for (index, edit) in edits.iter().enumerate() {
        push_if_refused(&mut refused, index, steps, edit)?;
    }
    Ok(refused)
}
