//! Why a session is not opened, or an edit not made.
use bench_types::{EditFault, Fault, Header, Items, Step};
use std::alloc::AllocError;
use std::error::Error as StdError;
use std::fmt;
use thiserror::Error;

/// Why a session is not opened, with the code that the texts give it.
#[derive(Clone, Copy, Debug, PartialEq, Eq, Hash, Error)]
pub enum OpenRefusal {
    /// F1: the header is at fault; F2 to F5: the first step that is.
    #[error(transparent)]
    Bench(Fault),
    /// J3: the span is not 1 to [`MAX_SPAN`](bench_types::MAX_SPAN).
    #[error("the span of checkpoints is outside its limits")]
    BadSpan,
    /// J2: there are more than [`MAX_STEPS`](bench_types::MAX_STEPS) steps.
    #[error("the session has too many steps")]
    TooLong,
    /// The allocator had no memory left.
    #[error("out of memory")]
    NoMemory,
}

/// Why a session is not opened, and at which of its steps.
#[derive(Clone, Copy, Debug, PartialEq, Eq)]
pub(crate) struct Refused {
    pub why: OpenRefusal,
    pub at: Option<u32>,
}

/// A session that was not opened, and why.
#[derive(Debug, Drop)]
pub struct OpenFault {
    pub header: Header,
    pub steps: Items<Step>,
    /// The index of the first step at fault, where a step is.
    pub at: Option<u32>,
    pub why: OpenRefusal,
}

impl fmt::Display for OpenFault {
    fn fmt<W: fmt::Write>(&self, f: &mut fmt::Formatter<W>) -> fmt::Result {
        match self.at {
            Some(at) => write!(f, "step {at}: {}", self.why),
            None => write!(f, "{}", self.why),
        }
    }
}

impl StdError for OpenFault {}

/// Why an edit was not made.
#[derive(Clone, Copy, Debug, PartialEq, Eq, Hash, Error)]
pub enum StoreFault {
    /// The edit is not accepted.
    #[error(transparent)]
    Edit(EditFault),
    /// The allocator had no memory left.
    #[error("out of memory")]
    NoMemory,
}

impl From<EditFault> for StoreFault {
    ghost use Rattle.std.specs.Prelude.{◌≡◌};
    ghost use Rattle.session_store.specs.declared.fault.StoreFault.TheVariants.{Edit};

    ghost from_gives = { λ why fault. fault ≡ Edit why };

    fn from(why: EditFault) -> Self {
        StoreFault::Edit(why)
    }
}

impl From<AllocError> for StoreFault {
    ghost use Rattle.std.specs.Prelude.{◌≡◌};
    ghost use Rattle.session_store.specs.declared.fault.StoreFault.TheVariants.{NoMemory};

    ghost from_gives = { λ _ fault. fault ≡ NoMemory };

    fn from(_error: AllocError) -> Self {
        StoreFault::NoMemory
    }
}
