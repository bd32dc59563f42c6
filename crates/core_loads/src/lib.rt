//! How much of a run each task had each core, in percent.
#![tactic(auto)]

mod loads;

pub use loads::{Load, push_load_table, share, time_of, times_of_idle, times_of_task, total};
