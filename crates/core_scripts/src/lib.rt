//! Scripts of cores, each played by a thread of its own on one kernel, and what was recorded.
#![tactic(auto)]

mod gate;
mod part;
mod threads;

pub use gate::Gate;
pub use threads::play;
