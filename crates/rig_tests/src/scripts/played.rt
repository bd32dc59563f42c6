//! Rig documents whose scripts are played.
use crate::checks::assert_same;
use bench_types::Step;
use core_rig::Recorded;
use core_scripts::{Gate, play};
use session_text::read_rig;
use std::alloc::{AllocError, Global};
use std::process::Abort;
use std::string::String;
use std::sync::Wait;
use std::test::Fail;
use std::thread::Threads;

const HEAD: &str =
    "{\"session\":{\"format\":1,\"cores\":2,\"priorities\":5,\"slicing\":false,\"tick\":0,\"mutexes\":0,\"tasks\":[";

const MIDDLE: &str = "],\"steps\":[]},\"limit\":";

/// A begins on core 0 and B on core 1; C is ready.
pub const THREE: &str =
    "{\"name\":\"A\",\"priority\":2,\"mask\":3},{\"name\":\"B\",\"priority\":1,\"mask\":3},{\"name\":\"C\",\"priority\":1,\"mask\":3}";

/// A rig document of two cores.
pub fn document(
    alloc: Global,
    tasks: &str,
    limit: u32,
    scripts: &str,
) -> Result<String, AllocError> {
    format!(in alloc;
        "{}{}{}{},\"scripts\":{}}}",
        HEAD, tasks, MIDDLE, limit, scripts
    )
}

/// What is recorded of the rig document.
pub fn played<R: Threads + Wait + Abort + Sync, G: Gate>(
    rt: &R,
    host: &HostRuntime,
    text: &str,
    gate: &G,
) -> Result<Recorded, Fail> {
    let alloc = host.alloc();
    let Ok(rig) = read_rig(alloc, text.as_bytes()) else {
        panic!(rt; "it is no rig document");
    };
    let scripts = rig.scripts.as_slice();
    let recorded = play(rt, host, alloc, &rig.header, rig.limit, scripts, gate)?;
    Ok(recorded)
}

/// Checks that these are the steps, and no others.
pub fn check_steps(rt: &impl Abort, recorded: &Recorded, steps: &[Step]) {
    assert_same(
        rt,
        "steps",
        &recorded.entries.as_slice().len(),
        &steps.len(),
    );
    for (entry, step) in recorded.entries.as_slice().iter().zip(steps) {
        assert_same(rt, "step", &entry.step, step);
    }
}
