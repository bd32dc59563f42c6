//! Texts that are no workloads, and why and where: worked out by hand from the format's
//! description.

use crate::texts::{nested, workload};
use bench_types::Fault;
use session_text::Why;
use std::alloc::Global;
use std::process::Abort;
use std::test::Fail;
use workload_text::read_workload;

const ARGUMENT: Why = Why::Bench(Fault::BadArgument);

/// Programs, and why and where they are refused, below the program.
const PROGRAMS: &[(&str, Why, &str)] = &[
    ("7", Why::BadShape, "[0]"),
    ("\"brake\"", Why::BadShape, "[0]"),
    ("{}", Why::BadShape, "[0].do"),
    ("{\"do\":\"finish\"}", Why::BadShape, "[0].do"),
    ("{\"do\":\"tick\"}", Why::BadShape, "[0].do"),
    ("{\"do\":\"yield\",\"ticks\":1}", Why::BadShape, "[0]"),
    ("{\"do\":\"yield\",\"then\":{}}", Why::BadShape, "[0].then"),
    ("{\"do\":\"delay_until\"}", Why::BadShape, "[0].inc"),
    (
        "{\"do\":\"delay_until\",\"prev\":null,\"inc\":1}",
        Why::BadShape,
        "[0].prev",
    ),
    ("{\"work\":\"x\"}", Why::BadShape, "[0].work"),
    ("{\"work\":[]}", Why::BadShape, "[0].work"),
    ("{\"work\":[1,null]}", Why::BadShape, "[0].work[1]"),
    ("{\"work\":1,\"do\":\"yield\"}", Why::BadShape, "[0]"),
    ("{\"repeat\":2}", Why::BadShape, "[0].of"),
    ("{\"forever\":[8]}", Why::BadShape, "[0].forever[0]"),
    ("{\"work\":0}", ARGUMENT, "[0]"),
    ("{\"work\":[3,0]}", ARGUMENT, "[0]"),
    ("{\"repeat\":0,\"of\":[{\"work\":1}]}", ARGUMENT, "[0]"),
    ("{\"repeat\":1,\"of\":[]}", ARGUMENT, "[0]"),
    ("{\"work\":1},{\"forever\":[\"break\"]}", ARGUMENT, "[1]"),
    ("{\"work\":1},\"break\"", ARGUMENT, "[1]"),
    ("{\"forever\":[{\"work\":1}]},{\"work\":2}", ARGUMENT, "[1]"),
    (
        "{\"forever\":[{\"work\":1},\"break\",{\"work\":2}]}",
        ARGUMENT,
        "[0].forever[2]",
    ),
    ("{\"do\":\"delay_until\",\"inc\":0}", ARGUMENT, "[0]"),
    (
        "{\"work\":[1,2]},{\"repeat\":3,\"of\":[{\"do\":\"yield\",\"then\":[{\"work\":4}],\"else\":[{\"work\":5},{\"do\":\"resume\",\"to\":\"nobody\"}]}]}",
        Why::Bench(Fault::BadTask),
        "[1].of[0].else[1]",
    ),
    (
        "{\"do\":\"yield\",\"then\":[{\"do\":\"mutex_give\",\"mutex\":1}]}",
        Why::Bench(Fault::BadMutex),
        "[0].then[0]",
    ),
];

/// Interrupts, and why and where they are refused, below the interrupts.
const INTERRUPTS: &[(&str, Why, &str)] = &[
    ("{\"at\":-1}", Why::BadShape, "[0].at"),
    ("{\"at\":1}", Why::BadShape, "[0].do"),
    ("{\"at\":1,\"do\":\"tick\"}", Why::BadShape, "[0].do"),
    (
        "{\"at\":1,\"every\":0,\"do\":\"isr_send\",\"core\":0,\"queue\":0}",
        ARGUMENT,
        "[0]",
    ),
    (
        "{\"at\":1,\"do\":\"isr_send\",\"core\":2,\"queue\":0}",
        Why::Bench(Fault::BadCore),
        "[0]",
    ),
    (
        "{\"at\":1,\"do\":\"isr_receive\",\"core\":1,\"queue\":1}",
        Why::Bench(Fault::BadMutex),
        "[0]",
    ),
    (
        "{\"at\":1,\"do\":\"isr_send\",\"core\":1,\"queue\":0,\"by\":\"control\"}",
        Why::BadShape,
        "[0]",
    ),
];

/// The text is refused for this, at the path that ends so.
fn check_refused(rt: &impl Abort, alloc: Global, text: &str, why: Why, front: &str, path: &str) {
    match read_workload(alloc, text.as_bytes()) {
        Ok(_) => assert!(rt; false, "{text}"),
        Err(fault) => {
            assert_eq!(rt; fault.why, why, "{text}");
            let found = fault.path.as_str().strip_prefix(front);
            assert_eq!(rt; found, Some(path), "{text}");
        }
    }
}

fn check_program(rt: &impl Abort, alloc: Global, case: &(&str, Why, &str)) -> Result<(), Fail> {
    let (items, why, path) = *case;
    let text = workload(alloc, items, "", "1")?;
    check_refused(rt, alloc, text.as_str(), why, "tasks[0].program", path);
    Ok(())
}

#[test]
fn programs_that_are_refused(rt: HostRuntime) -> Result<(), Fail> {
    for case in PROGRAMS {
        check_program(&rt, rt.alloc(), case)?;
    }
    Ok(())
}

fn check_interrupt(rt: &impl Abort, alloc: Global, case: &(&str, Why, &str)) -> Result<(), Fail> {
    let (interrupts, why, path) = *case;
    let text = workload(alloc, "", interrupts, "1")?;
    check_refused(rt, alloc, text.as_str(), why, "interrupts", path);
    Ok(())
}

#[test]
fn interrupts_that_are_refused(rt: HostRuntime) -> Result<(), Fail> {
    for case in INTERRUPTS {
        check_interrupt(&rt, rt.alloc(), case)?;
    }
    Ok(())
}

#[test]
fn loops_in_loops(rt: HostRuntime) -> Result<(), Fail> {
    let few = workload(rt.alloc(), nested(rt.alloc(), 16)?.as_str(), "", "1")?;
    assert!(&rt; read_workload(rt.alloc(), few.as_bytes()).is_ok());
    let many = workload(rt.alloc(), nested(rt.alloc(), 17)?.as_str(), "", "1")?;
    let path =
        "[0].of[0].of[0].of[0].of[0].of[0].of[0].of[0].of[0].of[0].of[0].of[0].of[0].of[0].of[0].of[0].of[0]";
    check_refused(
        &rt,
        rt.alloc(),
        many.as_str(),
        ARGUMENT,
        "tasks[0].program",
        path,
    );
    Ok(())
}

#[test]
fn ticks(rt: HostRuntime) -> Result<(), Fail> {
    let most = workload(rt.alloc(), "", "", "1000000")?;
    assert!(&rt; read_workload(rt.alloc(), most.as_bytes()).is_ok());
    let more = workload(rt.alloc(), "", "", "1000001")?;
    check_refused(&rt, rt.alloc(), more.as_str(), ARGUMENT, "ticks", "");
    let none = workload(rt.alloc(), "", "", "null")?;
    check_refused(&rt, rt.alloc(), none.as_str(), Why::BadShape, "ticks", "");
    Ok(())
}

#[test]
fn formats(rt: HostRuntime) -> Result<(), Fail> {
    check_refused(
        &rt,
        rt.alloc(),
        "{\"format\":2}",
        Why::BadShape,
        "format",
        "",
    );
    check_refused(&rt, rt.alloc(), "[]", Why::BadShape, "top", "");
    check_refused(&rt, rt.alloc(), "{", Why::NotJson, "", "");
    Ok(())
}
