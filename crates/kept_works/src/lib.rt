//! The calls of an edited session, each with how long its task works for it, and its steps from
//! outside: what a run that keeps work is made of.
#![tactic(auto)]

mod asked;
mod items;
mod places;
mod rows;
mod steps;
mod walk;
mod works;

pub use items::{Item, edited_items};
pub use places::settled_places;
pub use works::{KeptWorks, kept_works};
