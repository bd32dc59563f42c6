//! Advice: each change of a family is tried in a source and judged by one number of its whole
//! run, and all are ranked.
#![tactic(auto)]

mod candidate;
mod change;
mod changed;
mod changes;
mod judge;
mod laws;
mod masks;
mod progress;
mod rank;
mod trying;

pub use candidate::judge_change;
pub use change::{Change, Family};
pub use changed::{args_of, changed_source, header_with, steps_with};
pub use changes::changes_of;
pub use judge::{Judge, Measure, Verdict, verdict_of};
pub use laws::{laws_of_changes, laws_of_rankings};
pub use progress::{Progress, Silent};
pub use rank::{Ranked, Size, size_of};
pub use trying::{Advice, rank_changes};
