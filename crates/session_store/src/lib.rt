//! A session that is kept with the replies and the running tasks of its replay, in segments that
//! begin with a kernel, and is changed by edits that replay what they change.
#![tactic(auto)]

mod checks;
mod edit;
mod edited;
mod edited_segment;
mod fault;
mod laws;
mod opening;
mod outcome;
mod replay;
mod store;
mod sums;
mod tallying;
mod trial;

pub use fault::{OpenFault, OpenRefusal, StoreFault};
pub use laws::laws_of_recordings;
pub use outcome::Outcome;
pub use session_segments::{KeptResults, NoResults, Results};
pub use store::Store;
pub use sums::Sums;
