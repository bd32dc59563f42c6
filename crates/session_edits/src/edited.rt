//! A session and edits of it.
ghost use Rattle.std.specs.Prelude.{◌≡◌, All, IfOk, length, string_bytes};
ghost use Rattle.bench_types.specs.Edit.{IsCheckedEdit};
ghost use Rattle.bench_model.specs.Edits.{after_edits};
ghost use Rattle.session_edits.specs.Notes.{edit_notes};
ghost use Rattle.session_edits.specs.Origins.{all_kept, origins_of};
ghost use Rattle.session_edits.specs.Refused.{refused_edits};

use crate::making::make_edits;
use crate::notes::lines_of;
use crate::origins::all_kept;
use crate::refused::{RefusedEdit, refused_in_turn};
use bench_types::{CheckedSession, Edit};
use std::alloc::{AllocError, Global};
use std::marker::Model;

/// A session, edits of it that are made one after another, and what they lead to. An edit that is
/// refused is passed over.
#[derive(Debug, Drop)]
pub struct EditedSession {
    before: CheckedSession,
    edits: Vec<Edit>,
    // None where there are no edits.
    after: Option<CheckedSession>,
    origins: Vec<Option<u32>>,
    refused: Vec<RefusedEdit>,
}

impl Model for EditedSession {
    ghost use Rattle.session_edits.specs.Edited.{AreMade, EditedView};

    ghost Value = { EditedView };

    ghost view = { λ it. record { session = it.before; edits = it.edits.items } };

    ghost invariant = { λ it.
        AreMade it.before it.edits.items it.after it.origins.items it.refused.items };
}

impl EditedSession {
    /// Makes the edits, which were checked under the header of the session.
    pub fn make(
        alloc: Global,
        session: CheckedSession,
        edits: Vec<Edit>,
    ) -> Result<EditedSession, AllocError>
        requires { All (IsCheckedEdit session.header) edits.items }
        ensures { IfOk result
            (λ made. made ≡ record { session = session; edits = edits.items }) }
    {
        let count = session.steps().len() as u32;
        let origins = all_kept(alloc, count)?;
        let refused = refused_in_turn(alloc, count, edits.as_slice())?;
        if edits.is_empty() {
            return Ok(EditedSession {
                before: session,
                edits,
                after: None,
                origins,
                refused,
            });
        }
        let made = make_edits(session.copy(alloc)?, origins, edits.as_slice())?;
        Ok(EditedSession {
            before: session,
            edits,
            after: Some(made.session),
            origins: made.origins,
            refused,
        })
    }

    /// The session before the edits.
    pub fn session(&self) -> &CheckedSession
        ensures { result.now ≡ self.now.session }
    {
        &self.before
    }

    /// The session after them.
    pub fn edited(&self) -> &CheckedSession
        ensures { result.now ≡ after_edits self.now.session self.now.edits }
    {
        match &self.after {
            Some(after) => after,
            None => &self.before,
        }
    }

    /// The edits, in the order in which they are made.
    pub fn edits(&self) -> &[Edit]
        ensures { result.now ≡ self.now.edits }
    {
        self.edits.as_slice()
    }

    /// Of each step after the edits the place where it stands before them; none of one that was
    /// inserted.
    pub fn origins(&self) -> &[Option<u32>]
        ensures places { result.now
            ≡ origins_of self.now.session self.now.edits
            (all_kept (length self.now.session.steps)) }
        // There are as many of them as steps after the edits.
        ensures many { length result.now
            ≡ length (after_edits self.now.session self.now.edits).steps }
    {
        self.origins.as_slice()
    }

    /// The edits that are refused, in their order.
    pub fn refused(&self) -> &[RefusedEdit]
        ensures { result.now ≡ refused_edits self.now.session self.now.edits }
    {
        self.refused.as_slice()
    }

    /// A line for each edit that is refused.
    #[tactic(auto, unfolding(crate::specs::Notes::edit_notes))]
    pub fn notes(&self, alloc: Global) -> Result<String, AllocError>
        ensures { IfOk result
            (λ text. string_bytes text ≡ edit_notes self.now.session self.now.edits) }
    {
        lines_of(alloc, self.refused())
    }
}
