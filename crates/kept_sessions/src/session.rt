//! A session and edits of it, of works too.
ghost use Rattle.std.specs.Prelude.{◌≡◌, All, IfOk};
ghost use Rattle.kept_runs.specs.Items.{edited_session};
ghost use Rattle.kept_edits.specs.Edits.{plain_edits, IsKeptEdit};
ghost use Rattle.kept_sessions.specs.Sessions.{without_edits, AreKeptEdits};

use bench_types::{CheckedSession, Header};
use kept_edits::{KeptEdit, plain_edits};
use session_edits::EditedSession;
use std::alloc::{AllocError, Global};
use std::marker::Model;

/// A session and edits of it that are made one after another, of works too. An edit that is refused
/// is passed over.
#[derive(Debug, Drop)]
pub struct KeptSession {
    edited: EditedSession,
    edits: Vec<KeptEdit>,
}

impl Model for KeptSession {
    ghost use Rattle.kept_sessions.specs.Sessions.{AreKeptEdits, KeptView};

    ghost Value = { KeptView };

    ghost view = { λ it. record { session = it.edited.session; edits = it.edits.items } };

    ghost invariant = { λ it. AreKeptEdits it.edited it.edits.items };
}

impl KeptSession {
    /// Makes the edits, which were checked under the header of the session.
    pub fn make(
        alloc: Global,
        session: CheckedSession,
        edits: Vec<KeptEdit>,
    ) -> Result<KeptSession, AllocError>
        requires { All (IsKeptEdit session.header) edits.items }
        ensures { IfOk result
            (λ made. made ≡ record { session = session; edits = edits.items }) }
    {
        let plain = plain_edits(alloc, edits.as_slice())?;
        let edited = EditedSession::make(alloc, session, plain)?;
        Ok(KeptSession { edited, edits })
    }

    /// The session before the edits.
    pub fn session(&self) -> &CheckedSession
        ensures { result.now ≡ self.now.session }
    {
        self.edited.session()
    }

    /// The session after them, of which changes of work change nothing.
    pub fn edited(&self) -> &CheckedSession
        ensures { result.now ≡ edited_session self.now.session self.now.edits }
    {
        self.edited.edited()
    }

    /// The session and its edits without those of works.
    pub fn plain(&self) -> &EditedSession
        ensures { result.now
            ≡ record { session = self.now.session; edits = plain_edits self.now.edits } }
    {
        &self.edited
    }

    /// The same by value.
    pub fn into_plain(self) -> EditedSession
        ensures { result ≡ record { session = self.session; edits = plain_edits self.edits } }
    {
        self.edited
    }

    /// The edits, in the order in which they are made.
    pub fn edits(&self) -> &[KeptEdit]
        ensures edits { result.now ≡ self.now.edits }
        ensures checked { All (IsKeptEdit self.now.session.header) result.now }
    {
        self.edits.as_slice()
    }

    /// The same session, and no edit of it.
    pub fn without_edits(&self, alloc: Global) -> Result<KeptSession, AllocError>
        ensures { IfOk result (λ made. made ≡ without_edits self.now) }
    {
        let session = self.session().copy(alloc)?;
        KeptSession::make(alloc, session, Vec::new(alloc))
    }

    /// A second value of the same session with the same edits.
    pub fn copy(&self, alloc: Global) -> Result<KeptSession, AllocError>
        ensures { IfOk result (λ copy. copy ≡ self.now) }
    {
        let session = self.session().copy(alloc)?;
        let edits = Vec::from_slice(alloc, self.edits())?;
        KeptSession::make(alloc, session, edits)
    }
}
