//! Why no run is shown.
use program_io::Output;
use std::alloc::AllocError;

/// Why no run is shown.
#[derive(Drop)]
pub(crate) enum ShowFault {
    /// It is too long. This is told.
    TooLong(Output),
    /// The allocator had no memory left.
    NoMemory,
}

impl From<AllocError> for ShowFault {
    ghost use Rattle.std.specs.Prelude.{◌≡◌};
    ghost use Rattle.view_commands.specs.declared.fault.ShowFault.TheVariants.{NoMemory};

    ghost from_gives = { λ _ fault. fault ≡ NoMemory };

    fn from(_error: AllocError) -> Self {
        ShowFault::NoMemory
    }
}
