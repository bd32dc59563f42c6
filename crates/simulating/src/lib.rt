//! Simulating a workload: the run of its programs and interrupts.
#![tactic(auto)]

mod callers;
mod next;
mod notes;
mod progress;
mod run;
mod simulated;
mod simulation;

pub use notes::{push_ends, push_too_long};
pub use run::{SimulateFault, simulate};
pub use simulated::Simulated;
