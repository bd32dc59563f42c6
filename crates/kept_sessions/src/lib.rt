//! Sessions with edits of them, and their runs that keep work.
#![tactic(auto)]

mod run;
mod session;

pub use run::{KnownRun, kept_run, known_run};
pub use session::KeptSession;
