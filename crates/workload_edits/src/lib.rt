//! What an edit makes of a workload, on its JSON data.
#![tactic(auto)]

mod edit;
mod nesting;
mod parts;
mod program;
mod task;

pub use edit::{Branch, Change, PathPart, TaskEdit};
pub use nesting::nests_within;
pub use task::edited;
