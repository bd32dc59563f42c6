//! The cores, the tasks' control blocks and the ready lists: which core is asked for a task, and
//! which task a core selects.
#![tactic(auto)]

mod cores;
mod first;

pub use cores::Cores;
