//! What a document says, with its edits: a session or a workload.
ghost use Rattle.std.specs.Prelude.{◌≡◌, ◌++◌, IfOk, OnOk, string_bytes};
ghost use Rattle.view_commands.specs.EditedSources.{after_of, edit_lines, has_edits, last_workload, making_of, refused_of, session_source};
ghost use Rattle.view_commands.specs.Parts.{is_long};

use crate::kept::{notes_of, places_refused};
use crate::request::SessionRuns;
use edited_workloads::EditedWorkload;
use kept_runs::CallOrder;
use kept_sessions::KeptSession;
use run_comparisons::refused_places;
use run_sources::Source;
use session_edits::EditedSession;
use shown_runs::Making;
use std::alloc::{AllocError, Global};
use task_programs::CheckedWorkload;

// A session of so many steps is long: a pass over fewer takes less than half a second.
const LONG_SESSION: usize = 100_000;

// A workload that goes on for so many ticks is long.
const LONG_WORKLOAD: u32 = 10_000;

/// What a document says, with its edits.
#[derive(Drop)]
pub(crate) enum EditedSource {
    /// A session, whose steps are made as they stand.
    Session(EditedSession),
    /// A session, which is settled.
    Settled(EditedSession),
    /// A workload.
    Workload(EditedWorkload),
    /// A session whose runs keep work.
    Kept(KeptSession, CallOrder),
}

/// The workload that the edits leave.
pub(crate) fn last_workload(edited: &EditedWorkload) -> &CheckedWorkload
    ensures { result.now ≡ last_workload edited.now }
{
    match &edited.edited {
        Some(edited) => edited,
        None => &edited.workload,
    }
}

impl EditedSource {
    /// A session with its edits, whose runs are made so. Changes of work are passed over where they
    /// do not keep work.
    pub(crate) fn of_session(made: KeptSession, sessions: SessionRuns) -> Self
        ensures { result ≡ session_source sessions made.session made.edits }
    {
        match sessions {
            SessionRuns::AsWritten => EditedSource::Session(made.into_plain()),
            SessionRuns::Settled => EditedSource::Settled(made.into_plain()),
            SessionRuns::Kept(order) => EditedSource::Kept(made, order),
        }
    }

    pub(crate) fn has_edits(&self) -> bool
        ensures { result ≡ has_edits self.now }
    {
        match self {
            EditedSource::Session(edited) | EditedSource::Settled(edited) => {
                edited.edits().len() > 0
            }
            EditedSource::Workload(edited) => edited.edited.is_some(),
            EditedSource::Kept(made, _) => made.edits().len() > 0,
        }
    }

    /// Whether work on it takes long.
    pub(crate) fn is_long(&self) -> bool
        ensures { result ≡ is_long self.now }
    {
        match self {
            EditedSource::Session(edited) | EditedSource::Settled(edited) => {
                edited.session().steps().len() >= LONG_SESSION
            }
            EditedSource::Workload(edited) => edited.workload.ticks() >= LONG_WORKLOAD,
            EditedSource::Kept(made, _) => made.session().steps().len() >= LONG_SESSION,
        }
    }

    /// How its runs are made.
    pub(crate) fn making(&self) -> Making
        ensures { result ≡ making_of self.now }
    {
        match self {
            EditedSource::Session(_) => Making::AsWritten,
            EditedSource::Settled(_) => Making::Settled,
            EditedSource::Workload(_) => Making::Simulated,
            EditedSource::Kept(_, _) => Making::Kept,
        }
    }

    /// What the edits leave.
    pub(crate) fn after(&self, alloc: Global) -> Result<Source, AllocError>
        ensures { IfOk result (λ source. source ≡ after_of self.now) }
    {
        match self {
            EditedSource::Session(edited) => Ok(Source::Session(edited.edited().copy(alloc)?)),
            EditedSource::Settled(edited) => Ok(Source::Settled(edited.edited().copy(alloc)?)),
            EditedSource::Workload(edited) => {
                Ok(Source::Workload(last_workload(edited).copy(alloc)?))
            }
            EditedSource::Kept(made, order) => Ok(Source::Kept(made.copy(alloc)?, *order)),
        }
    }

    /// The places of the edits that are refused.
    pub(crate) fn refused(&self, alloc: Global) -> Result<Vec<usize>, AllocError>
        ensures { IfOk result (λ places. places.items ≡ refused_of self.now) }
    {
        match self {
            EditedSource::Session(edited) | EditedSource::Settled(edited) => {
                refused_places(alloc, edited)
            }
            EditedSource::Workload(_) => Ok(Vec::new(alloc)),
            EditedSource::Kept(made, _) => places_refused(alloc, made),
        }
    }

    /// A line for each edit that is refused.
    pub(crate) fn edit_lines(&self, alloc: Global) -> Result<String, AllocError>
        ensures { IfOk result (λ lines. string_bytes lines ≡ edit_lines self.now) }
    {
        match self {
            EditedSource::Session(edited) | EditedSource::Settled(edited) => edited.notes(alloc),
            EditedSource::Workload(_) => Ok(String::new(alloc)),
            EditedSource::Kept(made, _) => notes_of(alloc, made),
        }
    }
}
