//! Edits of a session: the session after them, where its steps stood before, and what people are
//! told of those that are refused.
#![tactic(auto)]

mod edited;
pub mod laws;
mod making;
mod notes;
mod origins;
mod refused;

pub use edited::EditedSession;
pub use making::session_after;
pub use notes::{push_refused, refused_edits, refused_trials};
pub use origins::{all_kept, edit_origins};
pub use refused::{RefusedEdit, steps_after};
