//! How long tasks work.

/// How long a task worked.
#[derive(Clone, Copy, Debug, PartialEq, Eq)]
pub struct Clock {
    /// The units of time that found it at work.
    pub units: u64,
    /// The steps from outside without time that found it so since the last of these units.
    pub later: u64,
}
