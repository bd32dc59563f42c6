//! The jobs of a task, what it does between two waits for work, its moves and its waits.
#![tactic(auto)]

mod crowd;
mod durations;
mod histogram;
mod moves;
mod waits;
mod work;

pub use crowd::{Crowd, law_of_crowds};
pub use durations::Durations;
pub use histogram::{Histogram, INTERVALS, law_of_histograms, least_time};
pub use moves::Moves;
pub use waits::{Waits, Wake};
pub use work::{First, Turn, Work, law_of_work};
