//! What is told of runs of workloads, worked out by hand.
use crate::texts::workload;
use simulating::{push_ends, push_too_long, simulate};
use smp_kernel::Meter;
use std::alloc::Global;
use std::process::Abort;
use std::test::Fail;
use workload_text::read_workload;

/// Where the first task has this program, that is told of its run of one tick of 1000 units.
fn check_ends(
    rt: &impl Abort,
    alloc: Global,
    meter: &mut Meter,
    items: &str,
    told: &str,
) -> Result<(), Fail> {
    let text = workload(alloc, items, "", "1")?;
    match read_workload(alloc, text.as_bytes()) {
        Ok(workload) => {
            let simulated = simulate(alloc, &workload, meter)?;
            let mut note = String::new(alloc);
            push_ends(alloc, &mut note, &workload, &simulated.at_end)?;
            assert_eq!(rt; note.as_str(), told);
        }
        Err(_) => assert!(rt; false),
    }
    Ok(())
}

#[test]
fn programs_at_their_ends(rt: HostRuntime) -> Result<(), Fail> {
    check_ends(
        &rt,
        rt.alloc(),
        &mut Meter::new(&rt),
        "{\"work\":[300,200]}",
        "at the end of its program: control, idler\n",
    )
}

#[test]
fn programs_not_at_their_ends(rt: HostRuntime) -> Result<(), Fail> {
    check_ends(
        &rt,
        rt.alloc(),
        &mut Meter::new(&rt),
        "{\"repeat\":2,\"of\":[{\"work\":600}]}",
        "at the end of its program: idler\nnot at the end of its program: control\n",
    )
}

#[test]
fn programs_without_an_end(rt: HostRuntime) -> Result<(), Fail> {
    check_ends(
        &rt,
        rt.alloc(),
        &mut Meter::new(&rt),
        "{\"forever\":[{\"work\":600}]}",
        "at the end of its program: idler\n",
    )
}

/// A `break` may leave the loop, so the program has an end.
#[test]
fn programs_with_a_way_out(rt: HostRuntime) -> Result<(), Fail> {
    check_ends(
        &rt,
        rt.alloc(),
        &mut Meter::new(&rt),
        "{\"forever\":[{\"work\":600},{\"do\":\"queue_receive\",\"queue\":0,\"ticks\":0,\"then\":[\"break\"]}]}",
        "at the end of its program: idler\nnot at the end of its program: control\n",
    )
}

/// That is told of a run that is too long, where this task makes its last calls.
fn check_too_long(
    rt: &impl Abort,
    alloc: Global,
    caller: Option<u32>,
    told: &str,
) -> Result<(), Fail> {
    let text = workload(alloc, "", "", "1")?;
    match read_workload(alloc, text.as_bytes()) {
        Ok(workload) => {
            let mut note = String::new(alloc);
            push_too_long(&mut note, workload.header(), caller)?;
            assert_eq!(rt; note.as_str(), told);
        }
        Err(_) => assert!(rt; false),
    }
    Ok(())
}

#[test]
fn runs_that_are_too_long(rt: HostRuntime) -> Result<(), Fail> {
    check_too_long(
        &rt,
        rt.alloc(),
        None,
        "the run of the workload has more than 1000000 steps",
    )?;
    check_too_long(
        &rt,
        rt.alloc(),
        Some(2),
        "the run of the workload has more than 1000000 steps; control made each of its last 1000 calls",
    )
}
