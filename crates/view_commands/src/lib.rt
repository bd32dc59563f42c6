//! What the program `smp_view` does, over any reader and writer.
#![tactic(auto)]

mod advice;
mod answer;
mod command_line;
mod edited;
mod examples;
mod execution;
mod families;
mod fault;
mod input;
mod kept;
mod known;
mod limits;
mod options;
mod parts;
mod program;
mod progress;
mod refusals;
mod request;
mod run_options;
mod runs;
mod source;
mod strict;
mod ticks;

pub use command_line::request_of;
pub use examples::examples_of_command_lines;
pub use execution::run;
pub use input::law_of_views;
pub use program::{carry_out, run_program};
pub use progress::Telling;
pub use request::{Command, Documents, FileName, Job, Request, SessionRuns};
pub use source::{DocumentSource, Folder, Source};
