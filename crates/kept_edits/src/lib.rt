//! Edits of a session whose run keeps work: those of the session, and of how long tasks work.
#![tactic(auto)]

mod edit;

pub use edit::{KeptEdit, WorkChange, plain_edits};
