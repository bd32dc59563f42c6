//! What a run is made of.
ghost use Rattle.std.specs.Prelude.{◌≡◌, ◌≤◌, IfOk, length};
ghost use Rattle.bench_types.specs.Limits.{max_steps};
ghost use Rattle.bench_types.specs.Session.{IsCheckedSession};
ghost use Rattle.kept_runs.specs.Items.{edited_session};
ghost use Rattle.run_sources.specs.Sources.{header_of, steps_of, IsCheckedSource};

use bench_types::{CheckedSession, Header, Step};
use kept_runs::CallOrder;
use kept_sessions::KeptSession;
use std::alloc::{AllocError, Global};
use task_programs::CheckedWorkload;

/// What a run is made of.
#[derive(Debug, Drop)]
pub enum Source {
    /// The session, whose steps are made as they stand.
    Session(CheckedSession),
    /// The session, which is settled.
    Settled(CheckedSession),
    /// The workload, which is simulated.
    Workload(CheckedWorkload),
    /// The session with edits, whose run keeps the work of tasks.
    Kept(KeptSession, CallOrder),
}

// The header that the edits leave.
fn edited_header(made: &KeptSession) -> &Header
    ensures header { result.now ≡ (edited_session made.now.session made.now.edits).header }
    ensures before { IsCheckedSession made.now.session }
    ensures after { IsCheckedSession (edited_session made.now.session made.now.edits) }
{
    // A session that was checked has no more steps than it may have.
    let _steps = made.session().steps();
    made.edited().header()
}

impl Source {
    /// What the run starts from.
    pub fn header(&self) -> &Header
        ensures header { result.now ≡ header_of self.now }
        ensures checked { IsCheckedSource self.now }
    {
        match self {
            Source::Session(session) | Source::Settled(session) => session.header(),
            Source::Workload(workload) => workload.header(),
            Source::Kept(made, _) => edited_header(made),
        }
    }

    /// The steps whose order counts: those of a session. Calls of a workload, and of a run that
    /// keeps work, come when their tasks have worked for them.
    pub fn steps(&self) -> &[Step]
        ensures steps { result.now ≡ steps_of self.now }
        ensures few { length result.now ≤ max_steps }
    {
        match self {
            Source::Session(session) | Source::Settled(session) => session.steps(),
            Source::Workload(_) | Source::Kept(_, _) => &[],
        }
    }

    /// A second value of the same source.
    pub fn copy(&self, alloc: Global) -> Result<Source, AllocError>
        ensures { IfOk result (λ copy. copy ≡ self.now) }
    {
        match self {
            Source::Session(session) => Ok(Source::Session(session.copy(alloc)?)),
            Source::Settled(session) => Ok(Source::Settled(session.copy(alloc)?)),
            Source::Workload(workload) => Ok(Source::Workload(workload.copy(alloc)?)),
            Source::Kept(made, order) => Ok(Source::Kept(made.copy(alloc)?, *order)),
        }
    }
}
