//! Settling a session: the run that a target makes of its calls, ticks and interrupts.
#![tactic(auto)]

mod notes;
mod queues;
mod run;
mod searches;

pub use notes::push_left;
pub use run::{SettleFault, settle};
pub use searches::{is_timely, quiet_work};
