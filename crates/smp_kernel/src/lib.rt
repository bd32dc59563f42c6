//! The kernel, step by step: what it starts from, what each step answers and does, and what can be
//! seen of it.
#![tactic(auto)]

mod deadlines;
mod kernel;
mod meter;
mod scheduler;

pub use kernel::{Kernel, StartFault};
pub use meter::Meter;
