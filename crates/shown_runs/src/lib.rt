//! What commands tell of runs that are made: of one run, or of the one before edits and the one
//! after them.
#![tactic(auto)]

mod answer;
mod ask;
mod checks;
mod comparisons;
mod interest;
mod pages;
mod parts;
mod pictures;
mod reports;
mod shown;
mod traces;

pub use answer::told;
pub use ask::{Ask, Making, Selection};
pub use parts::{Course, Part, PartProgress};
pub use pictures::law_of_texts;
pub use shown::Shown;
