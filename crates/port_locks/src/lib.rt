//! A recursive lock pair: a word that tasks own, a word that interrupts own, and a value that the
//! owner of the interrupt word takes out and puts back.
#![tactic(auto)]

mod closing;
mod fault;
mod kept;
mod making;
mod pair;
mod rule;
mod seat;
mod view;

pub use closing::PairRefused;
pub use fault::{CloseFault, Deep, TryFault};
pub use kept::Kept;
pub use pair::LockPair;
pub use seat::Seat;
