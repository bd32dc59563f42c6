//! Up to where a run that keeps work is known.
#![tactic(auto)]

mod before;
mod calls;
mod known;
mod limit;
mod rows;

pub use known::known_until;
