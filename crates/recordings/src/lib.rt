//! A kernel with the history of the steps that were made on it, and with room for more of them.
#![tactic(auto)]

mod kept;
mod recording;

pub use recording::{Answer, RecordRefusal, Recording};
