//! Replays the worked sessions of a folder, by the kernel and by the definitions, and makes the
//! worked runs of the bench that stand in it.
//!
//! Each reply, the tasks that run and, where a session asks for it, all that can be seen of the
//! kernel are compared with the lines that stand below the session in its file; and so is what the
//! bench writes and tells in a run. A folder's name asks for nothing that the bench does, so this
//! program ends at last as the bench does with such a command line: its exit status is 2.
#![tactic(auto)]

mod block;
mod check;
mod folder;
mod lines;
mod replay;
mod rows;
mod run;
mod state;

use bench_commands::run_program;
use program_io::Counted;
use std::process::ExitCode;

fn main(rt: HostRuntime) -> ExitCode {
    if folder::check_folder(&rt, &rt).is_err() {
        return ExitCode::FAILURE;
    }
    run_program(
        &rt,
        &rt,
        std::env::args(&rt),
        &mut Counted::new(rt.stdin()),
        &mut Counted::new(rt.stdout()),
        &mut Counted::new(rt.stderr()),
    )
}
