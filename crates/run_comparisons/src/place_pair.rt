//! A place in each of two runs.

/// A place in the run before the edits, and one in the run after them.
#[derive(Clone, Copy)]
pub(crate) struct PlacePair {
    pub(crate) before: u32,
    pub(crate) after: u32,
}
