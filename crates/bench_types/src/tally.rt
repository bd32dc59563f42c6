//! How a task fared.

/// How a task fared in a session, beside the ticks that it ran on each core.
#[derive(Clone, Copy, Debug, PartialEq, Eq, Hash)]
pub struct Tally {
    /// The ticks that found it ready and on no core.
    pub wait: u32,
    /// Of those, the ticks that found a core that it may run on with a task of lower effective
    /// priority.
    pub inverted: u32,
    /// The switches that put it on a core that had another task.
    pub switched: u32,
    /// Its calls that were refused since it was not the current task of the core (E2).
    pub displaced: u32,
    /// The waits that it finished without what it had waited for.
    pub timeouts: u32,
    /// The greatest priority in use that it had.
    pub top: u32,
}
