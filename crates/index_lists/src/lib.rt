//! Linked lists by index: a fixed number of items in a fixed number of lists, each item in at most
//! one list. Nothing but making and copying takes memory.
#![tactic(auto)]

mod links;
mod lists;

pub use lists::Lists;
