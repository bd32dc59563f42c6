//! How the tasks of a session fared: the ticks that each ran on each core, and what else is
//! counted.
#![tactic(auto)]

mod counts;
mod event;
mod found;
mod lines;
mod tallies;

pub use tallies::Tallies;
