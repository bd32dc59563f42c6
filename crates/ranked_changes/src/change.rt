//! Changes of a session or a workload.

/// A change that is tried.
#[derive(Clone, Copy, Debug, PartialEq, Eq)]
pub enum Change {
    /// The user task is created with this priority.
    Priority { task: u32, priority: u32 },
    /// The user task is created with this core affinity mask.
    Mask { task: u32, mask: u32 },
    /// Two calls of a session are exchanged: the step at place `first` stands at place `second`,
    /// and that at `second` at `first`.
    Order { first: u32, second: u32 },
}

/// Which changes are tried.
#[derive(Clone, Copy, Debug, PartialEq, Eq)]
pub struct Family {
    /// Each user task with each other priority.
    pub priority: bool,
    /// Each user task with each other core affinity mask: of at most 4 cores each mask of some
    /// core, of more cores that of each core alone and that of all.
    pub mask: bool,
    /// Each user task pinned to each core alone, where its own mask does not allow just that core.
    pub pin: bool,
    /// Each two calls of different tasks of a session between which there is no step but switches
    /// and returns of calls, exchanged.
    pub order: bool,
}
