//! Faults of headers and steps.
use thiserror::Error;

/// Why a header or a step is not accepted, with the code that the texts give it.
#[derive(Clone, Copy, Debug, PartialEq, Eq, Hash, Error)]
pub enum Fault {
    /// F1: a number of the header is outside its limits, or a name is none or is repeated.
    #[error("a number of the header is outside its limits, or a name is repeated")]
    BadHeader,
    /// F2: the header has no such core.
    #[error("there is no such core")]
    BadCore,
    /// F3: the header has no such user task.
    #[error("there is no such user task")]
    BadTask,
    /// F4: the header has no such mutex.
    #[error("there is no such mutex")]
    BadMutex,
    /// F5: an argument is outside its limits.
    #[error("an argument is outside its limits")]
    BadArgument,
}
