//! Edits that are refused.
ghost use Rattle.std.specs.Prelude.{◌≡◌, ◌++◌, All, IfOk, OnOk, map};
ghost use Rattle.bench_types.specs.Edit.{IsCheckedEdit};
ghost use Rattle.bench_model.specs.Edits.{after_edit};
ghost use Rattle.kept_edits.specs.Edits.{plain_edits};
ghost use Rattle.kept_runs.specs.Items.{is_call, passes_at};
ghost use Rattle.session_edits.specs.Refused.{refused_at};
ghost use Rattle.kept_notes.specs.Refused.{after_kept, index_of, plain_one, places_of, refused_kept, refused_kept_at, IsCheckedKept};

use bench_types::{Call, CheckedSession, Edit, Step};
use kept_edits::KeptEdit;
use session_edits::{RefusedEdit, session_after, steps_after};
use std::alloc::{AllocError, Global};

/// An edit that is refused.
#[derive(Clone, Copy, Debug, PartialEq, Eq, Hash)]
pub enum RefusedKept {
    /// An edit of the session.
    Plain(RefusedEdit),
    /// A change of work at a place at which no call begins.
    Work {
        /// Its place among the edits.
        index: usize,
        /// The place among the steps.
        at: u32,
    },
}

impl RefusedKept {
    /// Its place among the edits.
    pub fn index(&self) -> usize
        ensures { result ≡ index_of self.now }
    {
        match *self {
            RefusedKept::Plain(refused) => refused.index,
            RefusedKept::Work { index, .. } => index,
        }
    }
}

// Whether a call, but no `finish`, stands at the place.
fn begins_call(steps: &[Step], at: u32) -> bool
    ensures { result ≡ passes_at is_call steps.now at }
{
    match steps.get(at as usize).copied() {
        Some(Step::Call { call, .. }) => !matches!(call, Call::Finish),
        _ => false,
    }
}

// Makes an edit of the session. One that is refused is added, and passed over.
fn make_plain(
    refused: &mut Vec<RefusedKept>,
    index: usize,
    now: CheckedSession,
    edit: &Edit,
) -> Result<CheckedSession, AllocError>
    requires { IsCheckedEdit now.header edit.now }
    ensures after { IfOk result (λ next. next ≡ after_edit now edit.now) }
    ensures refused { OnOk result
        (refused.new.items ≡ refused.old.items ++ map plain_one (refused_at index now edit.now)) }
{
    let steps = now.steps().len() as u32;
    match steps_after(steps, edit) {
        Ok(_) => session_after(now, edit),
        Err(why) => {
            refused.push(RefusedKept::Plain(RefusedEdit { index, steps, why }))?;
            Ok(now)
        }
    }
}

// Makes an edit; changes of work leave the session. One that is refused is added, and passed over.
fn make_edit(
    refused: &mut Vec<RefusedKept>,
    index: usize,
    now: CheckedSession,
    edit: &KeptEdit,
) -> Result<CheckedSession, AllocError>
    requires { IsCheckedKept now.header edit.now }
    ensures after { IfOk result (λ next. next ≡ after_kept now edit.now) }
    ensures refused { OnOk result
        (refused.new.items ≡ refused.old.items ++ refused_kept_at index now edit.now) }
{
    match *edit {
        KeptEdit::Plain(edit) => make_plain(refused, index, now, &edit),
        KeptEdit::Work { at, .. } => {
            if !begins_call(now.steps(), at) {
                refused.push(RefusedKept::Work { index, at })?;
            }
            Ok(now)
        }
    }
}

/// Those that are refused of edits that are made one after another, of which those of the session
/// were checked under its header.
pub fn refused_kept(
    alloc: Global,
    session: &CheckedSession,
    edits: &[KeptEdit],
) -> Result<Vec<RefusedKept>, AllocError>
    requires { All (IsCheckedEdit session.now.header) (plain_edits edits.now) }
    ensures { IfOk result (λ refused. refused.items ≡ refused_kept session.now edits.now) }
{
    let mut refused = Vec::new(alloc);
    let mut now = session.copy(alloc)?;
    for (index, edit) in edits.iter().enumerate() {
        now = make_edit(&mut refused, index, now, edit)?;
    }
    Ok(refused)
}

/// Their places among the edits.
pub fn refused_places(alloc: Global, refused: &[RefusedKept]) -> Result<Vec<usize>, AllocError>
    ensures { IfOk result (λ places. places.items ≡ places_of refused.now) }
{
    let mut places = Vec::with_capacity(alloc, refused.len())?;
    for one in refused {
        places.push(one.index())?;
    }
    Ok(places)
}
