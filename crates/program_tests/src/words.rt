//! What the faults of runs say in words.
use crate::devices::expect_same;
use program_io::RunFault;
use std::alloc::{AllocError, Global};
use std::process::Abort;
use std::test::Fail;

#[test]
fn what_faults_of_runs_say(rt: HostRuntime) -> Result<(), Fail> {
    for (fault, words) in [
        (RunFault::Memory, "out of memory"),
        (RunFault::Read, "the input can't be read"),
        (RunFault::Write, "the output can't be written"),
    ] {
        check_words(&rt, rt.alloc(), fault, words)?;
    }
    Ok(())
}

fn check_words(
    rt: &impl Abort,
    alloc: Global,
    fault: RunFault,
    words: &str,
) -> Result<(), AllocError> {
    let said = format!(in alloc; "{fault}")?;
    expect_same(rt, words, said.as_str(), words);
    Ok(())
}
