//! Workloads with edits, read from JSON texts, with the first fault and its place.
#![tactic(auto)]

mod document;

pub use document::{EditedWorkload, read_edited_workload};
