//! The numbers of a run: how long its tasks, cores, mutexes and queues were in each condition, how
//! often something happened to them, and the longest stretch of time.
#![tactic(auto)]

mod counter;
mod event;
mod forget;
mod laws;
mod look;
mod rows;
mod run;
mod state;
mod subject;
mod taking;
mod work;

pub use laws::{law_of_responses, law_of_stretches, law_of_tallies};
pub use run::{RunNumbers, measure, measure_all};
pub use subject::{Cause, Condition, Event, JobNumber, Measured, Reading, Subject, Whole};
