//! Why a test got no header.
use bench_types::Fault;
use std::alloc::AllocError;
use thiserror::Error;

/// Why there is no header of what a test gave.
#[derive(Clone, Copy, Debug, PartialEq, Eq, Hash, Error)]
pub enum SampleFault {
    /// A text is no name of a user task.
    #[error("a text is no name of a task")]
    BadName,
    /// Memory was refused.
    #[error("out of memory")]
    NoMemory,
}

impl From<Fault> for SampleFault {
    ghost use Rattle.std.specs.Prelude.{◌≡◌};
    ghost use Rattle.bench_samples.specs.declared.fault.SampleFault.TheVariants.{BadName};

    ghost from_gives = { λ _ fault. fault ≡ BadName };

    fn from(_fault: Fault) -> Self {
        SampleFault::BadName
    }
}

impl From<AllocError> for SampleFault {
    ghost use Rattle.std.specs.Prelude.{◌≡◌};
    ghost use Rattle.bench_samples.specs.declared.fault.SampleFault.TheVariants.{NoMemory};

    ghost from_gives = { λ _ fault. fault ≡ NoMemory };

    fn from(_error: AllocError) -> Self {
        SampleFault::NoMemory
    }
}
