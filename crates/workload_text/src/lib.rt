//! Workloads and their edits, read from JSON texts, with the first fault and its place.
#![tactic(auto)]

mod documents;
mod edit;
mod head;
mod interrupt;
mod item;
mod place;
mod workload;

pub use documents::is_workload_text;
pub use edit::EditReader;
pub use workload::{Shapes, accepted_under, document_at, read_workload, shapes_at, workload_at};
