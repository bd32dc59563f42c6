//! Why a word is not taken, or a pair not closed.

/// L2: the word is taken [`MAX_TAKES`](bench_types::MAX_TAKES) times over already.
#[derive(Clone, Copy, Debug, Drop, PartialEq, Eq, thiserror::Error)]
#[error("L2")]
pub struct Deep;

/// Why a single try at the interrupt word did not take it.
#[derive(Clone, Copy, Debug, Drop, PartialEq, Eq, thiserror::Error)]
pub enum TryFault {
    /// L1: another seat owned it.
    #[error("L1")]
    Busy,
    /// L2: this seat has taken it [`MAX_TAKES`](bench_types::MAX_TAKES) times over already.
    #[error("L2")]
    Deep,
}

/// Why a pair was not closed.
#[derive(Clone, Copy, Debug, Drop, PartialEq, Eq, thiserror::Error)]
pub enum CloseFault {
    /// L4: the seats' numbers are not those below the number of cores, each once.
    #[error("L4")]
    WrongSeats,
    /// L3: a seat owns a word.
    #[error("L3")]
    Owned,
}
