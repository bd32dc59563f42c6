//! Task notifications: the value and the state of each task at each index.
#![tactic(auto)]

mod notes;

pub use notes::Notes;
