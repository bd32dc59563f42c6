//! What a run shows, as a program: a command line and bytes in, bytes and an exit status out.
#![tactic(auto)]

use program_io::Counted;
use std::process::ExitCode;
use view_commands::{DocumentSource, Telling, run_program};

fn main(rt: HostRuntime) -> ExitCode {
    run_program(
        &rt,
        &rt,
        &mut Telling::of(rt.stderr()),
        std::env::args(&rt),
        &mut DocumentSource::new(rt.stdin(), &rt),
        &mut Counted::new(rt.stdout()),
        &mut Counted::new(rt.stderr()),
    )
}
