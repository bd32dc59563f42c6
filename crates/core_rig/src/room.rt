//! Room for the seats of a rig.
ghost use Rattle.std.specs.Prelude.{◌≡◌, ◌≤◌, [], vec_capacity, IfOk};
ghost use Rattle.bench_types.specs.Limits.{max_cores};

use bench_types::MAX_CORES;
use port_locks::Seat;
use recordings::Recording;
use std::alloc::{AllocError, Global};

/// Room for the seats of a lock pair of any number of cores.
#[derive(Drop)]
pub(crate) struct SeatRoom {
    seats: Vec<Seat<Recording>>,
    ghost none: { seats.items ≡ [] },
    ghost room: { max_cores ≤ vec_capacity seats },
}

impl SeatRoom {
    pub(crate) fn new(alloc: Global) -> Result<SeatRoom, AllocError> {
        let seats = Vec::with_capacity(alloc, MAX_CORES as usize)?;
        Ok(SeatRoom { seats })
    }

    pub(crate) fn into_list(self) -> Vec<Seat<Recording>>
        ensures none { result.items ≡ [] }
        ensures room { max_cores ≤ vec_capacity result }
    {
        self.seats
    }
}
