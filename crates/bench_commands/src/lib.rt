//! The commands of the bench over any words, reader and writer.
#![tactic(auto)]

mod answer;
mod command;
mod examples;
mod execution;
mod gate;
mod labels;
mod lines;
mod output;
mod program;
mod recording;
mod shown_row;
mod store_edit;
mod trials;

pub use command::{DEFAULT_SPAN, Request, request_of};
pub use core_scripts::Gate;
pub use examples::examples_of_command_lines;
pub use execution::{Mode, Status, run};
pub use program::{carry_out, run_program};
pub use recording::record;
pub use trials::laws_of_trials;
