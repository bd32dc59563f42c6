//! Mutexes with priority inheritance, and event lists: who holds each mutex, who waits in each
//! list, and what a wait for a mutex does to the priority of its holder.
#![tactic(auto)]

mod inheritance;
mod mutexes;

pub use mutexes::Mutexes;
