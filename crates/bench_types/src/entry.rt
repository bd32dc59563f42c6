//! An entry of a recording.
use crate::{Reply, Step};

/// One event that a core recorded, with the reply that it was given.
#[derive(Clone, Copy, Debug, PartialEq, Eq, Hash)]
pub struct Entry {
    /// The core that made the step. A tick is made by core 0.
    pub core: u32,
    pub step: Step,
    pub reply: Reply,
}
