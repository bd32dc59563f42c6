//! Why a run was not made.
use std::alloc::AllocError;
use thiserror::Error;

/// Why a run was not made.
#[derive(Clone, Copy, Debug, PartialEq, Eq, Error)]
pub enum RunFault {
    /// J2: the settled run has more than [`MAX_STEPS`](bench_types::MAX_STEPS) steps.
    #[error("the settled run is too long")]
    SettledTooLong,
    /// J2: the run of the workload has more than [`MAX_STEPS`](bench_types::MAX_STEPS) steps.
    #[error("the run of the workload is too long")]
    SimulatedTooLong {
        /// The task that makes each of the last 1000 calls of so many steps, if it is one alone.
        caller: Option<u32>,
    },
    /// J2: the run that keeps work, or the settled run of the session before the edits, has more
    /// than [`MAX_STEPS`](bench_types::MAX_STEPS) steps.
    #[error("the run that keeps work is too long")]
    KeptTooLong,
    /// The allocator had no memory left.
    #[error("out of memory")]
    NoMemory,
}

impl From<AllocError> for RunFault {
    ghost use Rattle.std.specs.Prelude.{◌≡◌};
    ghost use Rattle.run_sources.specs.declared.fault.RunFault.TheVariants.{NoMemory};

    ghost from_gives = { λ _ fault. fault ≡ NoMemory };

    fn from(_error: AllocError) -> Self {
        RunFault::NoMemory
    }
}
