//! Up to where a run that keeps work is known.

/// Why it is not known what a task does.
#[derive(Clone, Copy, Debug, PartialEq, Eq)]
pub enum LimitReason {
    /// The task is at the end of what it did before the edits.
    End,
    /// A call of the task is answered otherwise than before the edits.
    Answer {
        /// Whether the call did what it was to do, and did not before; or the other way round.
        affirmative: bool,
    },
}

/// Up to where a run that keeps work is known.
#[derive(Clone, Copy, Debug, PartialEq, Eq)]
pub struct KnownLimit {
    /// How many of its steps are known.
    pub place: usize,
    /// The task of which it is not known what it does next.
    pub task: u32,
    pub reason: LimitReason,
}
