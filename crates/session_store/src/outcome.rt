//! What an edit led to.

/// What an accepted edit led to. All three are numbers of steps.
#[derive(Clone, Copy, Debug, PartialEq, Eq, Hash)]
pub struct Outcome {
    /// The place of the checkpoint that the replay began at.
    pub from: u32,
    /// The place, in the edited session, where the replay ended: the first checkpoint from which
    /// the edited session goes on as the session did, or the end.
    pub met: u32,
    /// How many steps were replayed.
    pub replayed: u32,
}
