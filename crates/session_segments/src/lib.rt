//! Segments of a replay: the kernel at a checkpoint, the steps up to the next one, and what they
//! led to.
#![tactic(auto)]

mod checkpoint;
mod kept_results;
mod meeting;
mod replay;
mod segment;
mod segments;

pub use kept_results::{KeptResults, NoResults, Results};
pub use meeting::met_by;
pub use replay::{advance, tally_steps};
pub use segment::Segment;
pub use segments::Segments;
