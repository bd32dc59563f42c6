//! What people are told of edits that are refused, where the run of the edited session keeps work.
#![tactic(auto)]

pub mod laws;
mod notes;
mod refused;

pub use notes::kept_notes;
pub use refused::{RefusedKept, refused_kept, refused_places};
