//! How far a task has come in its program.
#![tactic(auto)]

mod course;
mod position;

pub use course::Course;
