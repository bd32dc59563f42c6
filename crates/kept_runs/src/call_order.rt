//! Which of several calls that could come at one time comes first.

/// Whose call comes first where several tasks have worked for theirs.
#[derive(Clone, Copy, Debug, PartialEq, Eq)]
pub enum CallOrder {
    /// The one that stands first in the list of steps.
    Oldest,
    /// The one of the least core.
    LeastCore,
}
