//! The bench as a program: a command line and bytes in, bytes and an exit status out.
#![tactic(auto)]

use bench_commands::run_program;
use program_io::{Counted, Prompting};
use std::io::IsTerminal;
use std::process::ExitCode;

fn main(rt: HostRuntime) -> ExitCode {
    let stdin = rt.stdin();
    let is_terminal = stdin.is_terminal();
    run_program(
        &rt,
        &rt,
        std::env::args(&rt),
        &mut Counted::new(Prompting::new(stdin, rt.stderr(), is_terminal)),
        &mut Counted::new(rt.stdout()),
        &mut Counted::new(rt.stderr()),
    )
}
