//! Making the run of an edited session that keeps work.
#![tactic(auto)]

mod comings;
mod elapsing;
mod keeping;
mod queues;
mod run;
mod works;

pub use elapsing::elapse;
pub use run::{KeepFault, Kept, keep_run};
