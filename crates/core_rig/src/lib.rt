//! Threads of cores that call one kernel. What they do is recorded, and is a session of its own.
#![tactic(auto)]

mod fault;
mod recorded;
mod rig;
mod room;
mod seat;
mod stretch;

pub use fault::{CloseFault, RigFault, RigRefusal};
pub use recorded::Recorded;
pub use recordings::Answer;
pub use rig::{CloseRefused, Rig};
pub use seat::CoreSeat;
