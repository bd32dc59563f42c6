//! Settled runs of more steps than a session may have.
use crate::processes::{Wanted, check_program};
use crate::words::args_of;
use std::alloc::{AllocError, Global};
use std::process::Abort;
use std::test::Fail;
use std::thread::Threads;

/// Two cores and time slices. A has core 0, and B and C take turns on core 1.
const HEADER: &str =
    r#""format":1,"cores":2,"priorities":5,"slicing":true,"tick":0,"mutexes":0,"tasks":[{"name":"A","priority":2,"mask":3},{"name":"B","priority":1,"mask":3},{"name":"C","priority":1,"mask":3}]"#;

/// So many ticks settle to 1,000,002 steps: at each tick B and C take turns.
const TICKS: usize = 500_001;

const TOO_LONG: &str = "refused J2\nthe settled run has more than 1000000 steps\n";

#[test]
fn a_check_of_a_run_that_is_too_long(rt: HostRuntime) -> Result<(), Fail> {
    let line = "smp_view check --settle --at-most A.run=1";
    check(&rt, &rt, line, TOO_LONG)?;
    Ok(())
}

// The program refuses the ticks with these words.
fn check<R: Threads + Abort + Sync>(
    rt: &R,
    host: &HostRuntime,
    line: &str,
    errors: &str,
) -> Result<(), AllocError> {
    let document = ticks(host.alloc(), TICKS)?;
    let words = Ok(args_of(host.alloc(), line)?);
    let wanted = Wanted {
        code: 1,
        output: "",
        errors,
    };
    check_program(rt, host, words, document.as_str(), "", wanted);
    Ok(())
}

fn ticks(alloc: Global, count: usize) -> Result<String, AllocError> {
    let tick = r#"{"do":"tick"}"#;
    let more = format!(in alloc; ",{tick}")?.repeat(alloc, count.saturating_sub(1))?;
    format!(in alloc; r#"{{{HEADER},"steps":[{tick}{more}]}}"#)
}
