//! The definitions of the kernel: a flat table whose choices are searches, and the same rules over
//! lists. The laws between them stand in the crates above.
#![tactic(auto)]

pub mod notes;
pub mod queues;
mod row;
pub mod until;

pub use row::{TaskRow, TaskState};
