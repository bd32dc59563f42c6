//! The calls of an edited list, each with its work, and its steps from outside.
use crate::clocks::Clock;
use bench_types::{Call, Step};

/// A call that is not made yet, or the end of a task.
#[derive(Clone, Copy, Debug, PartialEq, Eq)]
pub struct Unmade {
    pub task: u32,
    /// The end has none.
    pub call: Option<Call>,
    /// How long the task has to work for it behind its call before.
    pub work: Clock,
}

/// A step from outside.
#[derive(Clone, Copy, Debug, PartialEq, Eq)]
pub struct Outside {
    pub step: Step,
    /// A tick of which the last unit went by right before it in the settled run.
    pub joined: bool,
}
