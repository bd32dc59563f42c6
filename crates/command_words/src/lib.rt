//! What clap is told of a program, and what it answers to the words of a command line.
#![tactic(auto)]

mod options;
mod parsed;
mod saying;

pub use options::{flag, option, program};
pub use parsed::{Parsed, parse_line};
pub use saying::Saying;
