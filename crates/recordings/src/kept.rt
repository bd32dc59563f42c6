//! A recording as the value that a lock pair keeps.
use crate::Recording;
use port_locks::Kept;

impl Kept for Recording {
    ghost terms = { λ recording. record { header = recording.header; limit = recording.limit } };

    ghost list = { λ recording. recording.entries };

    fn entries(&self) -> u64 {
        Recording::entries(self).len() as u64
    }

    fn holder(&self) -> Option<u32> {
        Recording::holder(self)
    }
}
