//! Why a rig or a core's call is refused.
ghost use Rattle.std.specs.Prelude.{◌≡◌};
ghost use Rattle.core_rig.specs.CoreActions.{refusal_of};

use bench_types::{Fault, MAX_STEPS};
use recordings::RecordRefusal;
use std::alloc::AllocError;
use thiserror::Error;

/// Why a rig was not made, with the code that the texts give it.
#[derive(Clone, Copy, Debug, PartialEq, Eq, Hash, Error)]
pub enum RigFault {
    /// F1: a number of the header is outside its limits, or a name is repeated.
    #[error("{}", Fault::BadHeader)]
    BadHeader,
    /// F5: the limit is over [`MAX_STEPS`] entries.
    #[error("the limit is over {} entries", MAX_STEPS)]
    BadLimit,
    /// The allocator had no memory left.
    #[error("out of memory")]
    NoMemory,
}

impl From<AllocError> for RigFault {
    ghost use Rattle.std.specs.Prelude.{◌≡◌};
    ghost use Rattle.core_rig.specs.declared.fault.RigFault.TheVariants.{NoMemory};

    ghost from_gives = { λ _ fault. fault ≡ NoMemory };

    fn from(_error: AllocError) -> Self {
        RigFault::NoMemory
    }
}

/// Why a core's call was not recorded, with the code that the texts give it.
#[derive(Clone, Copy, Debug, PartialEq, Eq, Hash, Error)]
pub enum RigRefusal {
    /// F2: a core other than 0 makes no ticks; F3 to F5: an argument is at fault.
    #[error("{0}")]
    Fault(Fault),
    /// G1: there is no room for the step.
    #[error("the recording is full")]
    Full,
    /// G2: the current task of the core is an idle task, which makes no calls.
    #[error("an idle task runs on the core")]
    IdleHere,
    /// G3: another core was calling the kernel.
    #[error("another core calls the kernel")]
    Busy,
    /// G4: the core holds the kernel, and so it switches no task.
    #[error("the core holds the kernel")]
    Holding,
}

impl RigRefusal {
    pub(crate) fn of(why: RecordRefusal) -> Self
        ensures { result ≡ refusal_of why }
    {
        match why {
            RecordRefusal::IdleHere => RigRefusal::IdleHere,
            RecordRefusal::Full => RigRefusal::Full,
        }
    }
}

/// Why a rig was not closed, with the code that the texts give it.
#[derive(Clone, Copy, Debug, PartialEq, Eq, Hash, Error)]
pub enum CloseFault {
    /// G6: the seats' cores are not those of the rig, each once.
    #[error("the seats are not those of all cores")]
    WrongSeats,
    /// G5: a core holds the kernel.
    #[error("a core holds the kernel")]
    HoldOpen,
}
