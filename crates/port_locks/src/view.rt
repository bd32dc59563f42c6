//! What a lock pair and its seats know of the recording.
use bench_types::{Entry, Header};
use std::collections::LinkedList;
use std::snapshot::Snapshot;

/// What a value records under: the header that it started from, and how many entries it takes. No
/// value of it is made.
pub struct Terms {
    pub header: Header,
    pub limit: u64,
}

/// What a seat that was joined hands over. No value of it is made.
pub struct Handover {
    pub number: u32,
    pub seen: LinkedList<Entry>,
    pub made: LinkedList<Entry>,
}

/// What a seat at the table knows. No value of it is made.
pub struct View {
    /// It was joined into another.
    pub spent: bool,
    pub terms: Terms,
    pub number: u32,
    /// How many numbers the first seat has given out.
    pub given: u32,
    pub owns_interrupt: bool,
    /// The value is out of its slot with this seat.
    pub holds: bool,
    pub owns_task: bool,
    /// The history as it was when this seat last saw it.
    pub seen: LinkedList<Entry>,
    /// The seat's own entries.
    pub made: LinkedList<Entry>,
    pub heard: LinkedList<Handover>,
}

/// What a table is told when it is made: the first value, and the number of cores.
#[derive(Drop)]
pub struct About<V> {
    pub(crate) first: Snapshot<V>,
    pub(crate) cores: u32,
}
