//! Sessions, written as JSON texts that are read back as themselves.
#![tactic(auto)]

mod caller;
pub mod laws;
mod notes;
mod scribe;
mod session;
mod step;

pub use session::write_session;
