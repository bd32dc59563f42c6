//! How much time steps take.
#![tactic(auto)]

mod time;

pub use time::time_of;
