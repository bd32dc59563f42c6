//! Delays: the tick count, and the tasks that wait for some ticks, each a number of ticks or until
//! a tick count.
#![tactic(auto)]

mod delays;

pub use delays::Delays;
