//! What the cores of a rig did.
ghost use Rattle.std.specs.Prelude.{◌≡◌, IfOk};
ghost use Rattle.bench_model.specs.History.{steps_of};

use arrayvec::ArrayVec;
use bench_types::{Entry, Header, Items, MAX_CORES, Step};
use std::alloc::{AllocError, Global};

/// For how many cores there is room.
pub(crate) const ROOM: usize = MAX_CORES as usize;

/// What the cores of a rig did, once it was closed.
#[derive(Drop)]
pub struct Recorded {
    /// The settings and tasks that the kernel started with.
    pub header: Header,
    /// What the cores did, in the order in which the kernel did it.
    pub entries: Items<Entry>,
    /// How many of the entries each core made, core by core.
    pub made: ArrayVec<u64, ROOM>,
}

impl Recorded {
    /// The steps of the session that was recorded.
    pub fn steps(&self, alloc: Global) -> Result<Vec<Step>, AllocError>
        ensures { IfOk result (λ steps. steps.items ≡ steps_of self.now.entries) }
    {
        let entries = self.entries.as_slice();
        entries.iter().map(|entry| entry.step).collect(alloc)
    }
}
