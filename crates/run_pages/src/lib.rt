//! A run as one page of HTML: its picture, its trace, its comparison and its report.
#![tactic(auto)]

mod laws;
mod parts;
mod script;
mod style;

pub use laws::laws_of_pieces;
pub use parts::{Parts, page};
