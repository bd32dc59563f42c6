//! Workloads with edits, and what they are read as: worked out by hand from the format's
//! description.

use crate::texts::{nested, workload};
use bench_types::Fault;
use edited_workloads::{EditedWorkload, read_edited_workload};
use session_text::Why;
use std::alloc::Global;
use std::process::Abort;
use std::test::Fail;
use task_programs::CheckedWorkload;
use workload_text::read_workload;

const TASK: Why = Why::Bench(Fault::BadTask);

const NO_ITEM: Why = Why::Bench(Fault::BadMutex);

const HEADER: Why = Why::Bench(Fault::BadHeader);

const ARGUMENT: Why = Why::Bench(Fault::BadArgument);

/// The program of the first task. That of the second one is left out.
const ITEMS: &str =
    "{\"work\":5},{\"forever\":[{\"work\":[1,2]},{\"do\":\"mutex_take\",\"mutex\":0,\"ticks\":5,\"then\":[{\"work\":3},{\"repeat\":2,\"of\":[{\"work\":4}]}],\"else\":[{\"work\":6}]},\"break\"]}";

/// Edits of the program, and the program that they leave.
const SETS: &[(&str, &str)] = &[
    // The least index, and the greatest one.
    (
        "{\"edit\":\"set\",\"task\":\"control\",\"item\":[0],\"work\":7}",
        "{\"work\":7},{\"forever\":[{\"work\":[1,2]},{\"do\":\"mutex_take\",\"mutex\":0,\"ticks\":5,\"then\":[{\"work\":3},{\"repeat\":2,\"of\":[{\"work\":4}]}],\"else\":[{\"work\":6}]},\"break\"]}",
    ),
    (
        "{\"edit\":\"set\",\"task\":\"control\",\"item\":[1],\"do\":\"yield\"}",
        "{\"work\":5},{\"do\":\"yield\"}",
    ),
    // In a loop for ever: a list of works for a list of works, a call with a branch for `break`.
    (
        "{\"edit\":\"set\",\"task\":\"control\",\"item\":[1,0],\"work\":[8,9,10]}",
        "{\"work\":5},{\"forever\":[{\"work\":[8,9,10]},{\"do\":\"mutex_take\",\"mutex\":0,\"ticks\":5,\"then\":[{\"work\":3},{\"repeat\":2,\"of\":[{\"work\":4}]}],\"else\":[{\"work\":6}]},\"break\"]}",
    ),
    (
        "{\"task\":\"control\",\"item\":[1,2],\"edit\":\"set\",\"do\":\"delay\",\"ticks\":1,\"then\":[\"break\"]}",
        "{\"work\":5},{\"forever\":[{\"work\":[1,2]},{\"do\":\"mutex_take\",\"mutex\":0,\"ticks\":5,\"then\":[{\"work\":3},{\"repeat\":2,\"of\":[{\"work\":4}]}],\"else\":[{\"work\":6}]},{\"do\":\"delay\",\"ticks\":1,\"then\":[\"break\"]}]}",
    ),
    // In branches, and in a loop in one.
    (
        "{\"edit\":\"set\",\"task\":\"control\",\"item\":[1,1,\"then\",0],\"work\":7}",
        "{\"work\":5},{\"forever\":[{\"work\":[1,2]},{\"do\":\"mutex_take\",\"mutex\":0,\"ticks\":5,\"then\":[{\"work\":7},{\"repeat\":2,\"of\":[{\"work\":4}]}],\"else\":[{\"work\":6}]},\"break\"]}",
    ),
    (
        "{\"edit\":\"set\",\"task\":\"control\",\"item\":[1,1,\"else\",0],\"repeat\":3,\"of\":[{\"work\":7}]}",
        "{\"work\":5},{\"forever\":[{\"work\":[1,2]},{\"do\":\"mutex_take\",\"mutex\":0,\"ticks\":5,\"then\":[{\"work\":3},{\"repeat\":2,\"of\":[{\"work\":4}]}],\"else\":[{\"repeat\":3,\"of\":[{\"work\":7}]}]},\"break\"]}",
    ),
    (
        "{\"edit\":\"set\",\"task\":\"control\",\"item\":[1,1,\"then\",1,0],\"work\":7}",
        "{\"work\":5},{\"forever\":[{\"work\":[1,2]},{\"do\":\"mutex_take\",\"mutex\":0,\"ticks\":5,\"then\":[{\"work\":3},{\"repeat\":2,\"of\":[{\"work\":7}]}],\"else\":[{\"work\":6}]},\"break\"]}",
    ),
    // Two in a row: the second one's path is that of an item of the first one.
    (
        "{\"edit\":\"set\",\"task\":\"control\",\"item\":[1],\"forever\":[{\"work\":1},{\"work\":2}]},{\"edit\":\"set\",\"task\":\"control\",\"item\":[1,1],\"work\":7}",
        "{\"work\":5},{\"forever\":[{\"work\":1},{\"work\":7}]}",
    ),
    // Two of one item: the last one counts.
    (
        "{\"edit\":\"set\",\"task\":\"control\",\"item\":[1],\"work\":1},{\"edit\":\"set\",\"task\":\"control\",\"item\":[1],\"work\":2}",
        "{\"work\":5},{\"work\":2}",
    ),
];

/// Edits that are refused, and why and where.
const REFUSED: &[(&str, Why, &str)] = &[
    // Shapes, in the order of the members.
    ("7", Why::BadShape, "edits[0]"),
    ("{}", Why::BadShape, "edits[0].edit"),
    (
        "{\"edit\":\"insert\",\"at\":0}",
        Why::BadShape,
        "edits[0].edit",
    ),
    ("{\"edit\":\"set\"}", Why::BadShape, "edits[0].task"),
    (
        "{\"edit\":\"change\",\"task\":1}",
        Why::BadShape,
        "edits[0].task",
    ),
    (
        "{\"edit\":\"change\",\"task\":\"control\"}",
        Why::BadShape,
        "edits[0].priority",
    ),
    (
        "{\"edit\":\"change\",\"task\":\"control\",\"priority\":1}",
        Why::BadShape,
        "edits[0].mask",
    ),
    (
        "{\"edit\":\"change\",\"task\":\"control\",\"priority\":1,\"mask\":1,\"work\":1}",
        Why::BadShape,
        "edits[0]",
    ),
    (
        "{\"edit\":\"set\",\"task\":\"control\"}",
        Why::BadShape,
        "edits[0].item",
    ),
    (
        "{\"edit\":\"set\",\"task\":\"control\",\"item\":0}",
        Why::BadShape,
        "edits[0].item",
    ),
    (
        "{\"edit\":\"set\",\"task\":\"control\",\"item\":[0,\"of\"]}",
        Why::BadShape,
        "edits[0].item[1]",
    ),
    (
        "{\"edit\":\"set\",\"task\":\"control\",\"item\":[0,-1]}",
        Why::BadShape,
        "edits[0].item[1]",
    ),
    (
        "{\"edit\":\"set\",\"task\":\"control\",\"item\":[0]}",
        Why::BadShape,
        "edits[0].do",
    ),
    (
        "{\"edit\":\"set\",\"task\":\"control\",\"item\":[0],\"work\":\"x\"}",
        Why::BadShape,
        "edits[0].work",
    ),
    (
        "{\"edit\":\"set\",\"task\":\"control\",\"item\":[0],\"forever\":[{\"work\":null}]}",
        Why::BadShape,
        "edits[0].forever[0].work",
    ),
    (
        "{\"edit\":\"set\",\"task\":\"control\",\"item\":[0],\"work\":1,\"mask\":1}",
        Why::BadShape,
        "edits[0]",
    ),
    // Shapes of all edits come before what the first one makes.
    (
        "{\"edit\":\"change\",\"task\":\"nobody\",\"priority\":1,\"mask\":1},{}",
        Why::BadShape,
        "edits[1].edit",
    ),
    // No such task, and no such item.
    (
        "{\"edit\":\"change\",\"task\":\"nobody\",\"priority\":9,\"mask\":1}",
        TASK,
        "edits[0]",
    ),
    (
        "{\"edit\":\"set\",\"task\":\"IDLE0\",\"item\":[9],\"work\":1}",
        TASK,
        "edits[0]",
    ),
    (
        "{\"edit\":\"set\",\"task\":\"control\",\"item\":[],\"work\":1}",
        NO_ITEM,
        "edits[0].item",
    ),
    (
        "{\"edit\":\"set\",\"task\":\"control\",\"item\":[2],\"work\":1}",
        NO_ITEM,
        "edits[0].item",
    ),
    (
        "{\"edit\":\"set\",\"task\":\"idler\",\"item\":[0],\"work\":1}",
        NO_ITEM,
        "edits[0].item",
    ),
    (
        "{\"edit\":\"set\",\"task\":\"control\",\"item\":[0,0],\"work\":1}",
        NO_ITEM,
        "edits[0].item",
    ),
    (
        "{\"edit\":\"set\",\"task\":\"control\",\"item\":[1,1,0],\"work\":1}",
        NO_ITEM,
        "edits[0].item",
    ),
    (
        "{\"edit\":\"set\",\"task\":\"control\",\"item\":[1,1,\"else\"],\"work\":1}",
        NO_ITEM,
        "edits[0].item",
    ),
    (
        "{\"edit\":\"set\",\"task\":\"control\",\"item\":[\"then\",0],\"work\":1}",
        NO_ITEM,
        "edits[0].item",
    ),
    (
        "{\"edit\":\"set\",\"task\":\"control\",\"item\":[1,2,0],\"work\":1}",
        NO_ITEM,
        "edits[0].item",
    ),
    // What the edit leaves is not accepted.
    (
        "{\"edit\":\"change\",\"task\":\"control\",\"priority\":5,\"mask\":1}",
        HEADER,
        "edits[0]",
    ),
    (
        "{\"edit\":\"change\",\"task\":\"control\",\"priority\":1,\"mask\":4}",
        HEADER,
        "edits[0]",
    ),
    (
        "{\"edit\":\"set\",\"task\":\"control\",\"item\":[0],\"work\":0}",
        ARGUMENT,
        "edits[0]",
    ),
    (
        "{\"edit\":\"set\",\"task\":\"control\",\"item\":[0],\"do\":\"resume\",\"to\":\"nobody\"}",
        TASK,
        "edits[0]",
    ),
    (
        "{\"edit\":\"change\",\"task\":\"control\",\"priority\":1,\"mask\":1},{\"edit\":\"set\",\"task\":\"control\",\"item\":[0],\"forever\":[{\"work\":1}]},{\"edit\":\"change\",\"task\":\"nobody\",\"priority\":1,\"mask\":1}",
        ARGUMENT,
        "edits[1]",
    ),
];

/// A document with the workload and the edits.
fn document(alloc: Global, items: &str, edits: &str) -> Result<String, Fail> {
    let workload = workload(alloc, items, "", "200")?;
    Ok(format!(in alloc; "{{\"edits\":[{edits}],\"workload\":{workload}}}")?)
}

fn read(alloc: Global, edits: &str) -> Result<EditedWorkload, Fail> {
    let text = document(alloc, ITEMS, edits)?;
    match read_edited_workload(alloc, text.as_bytes()) {
        Ok(read) => Ok(read),
        Err(_) => Err(Fail::from("the text is a workload with edits")),
    }
}

/// The workload whose first program is these items.
fn plain(alloc: Global, items: &str) -> Result<CheckedWorkload, Fail> {
    let text = workload(alloc, items, "", "200")?;
    match read_workload(alloc, text.as_bytes()) {
        Ok(read) => Ok(read),
        Err(_) => Err(Fail::from("the text is a workload")),
    }
}

/// Each program is the same.
fn check_programs(rt: &impl Abort, found: &CheckedWorkload, wanted: &CheckedWorkload) {
    assert_eq!(rt; found.programs().len(), wanted.programs().len());
    for (one, other) in found.programs().iter().zip(wanted.programs()) {
        assert_eq!(rt; one.as_slice(), other.as_slice());
    }
}

/// The edits leave these items.
fn check_set(rt: &impl Abort, alloc: Global, edits: &str, items: &str) -> Result<(), Fail> {
    let read = read(alloc, edits)?;
    check_programs(rt, &read.workload, &plain(alloc, ITEMS)?);
    match &read.edited {
        Some(edited) => check_programs(rt, edited, &plain(alloc, items)?),
        None => return Err(Fail::from("there are edits")),
    }
    Ok(())
}

#[test]
fn items_that_are_set(rt: HostRuntime) -> Result<(), Fail> {
    for (edits, items) in SETS {
        check_set(&rt, rt.alloc(), edits, items)?;
    }
    Ok(())
}

/// The first and the second task have these priorities and masks.
fn check_numbers(rt: &impl Abort, workload: &CheckedWorkload, numbers: &[(u32, u32)]) {
    let tasks = workload.header().tasks.as_slice();
    assert_eq!(rt; tasks.len(), numbers.len());
    for (task, (priority, mask)) in tasks.iter().zip(numbers) {
        assert_eq!(rt; task.priority, *priority);
        assert_eq!(rt; task.mask, *mask);
    }
}

#[test]
fn tasks_that_are_changed(rt: HostRuntime) -> Result<(), Fail> {
    let edits =
        "{\"edit\":\"change\",\"task\":\"idler\",\"priority\":4,\"mask\":1},{\"edit\":\"change\",\"task\":\"control\",\"priority\":2,\"mask\":2},{\"edit\":\"change\",\"task\":\"idler\",\"priority\":0,\"mask\":3}";
    let read = read(rt.alloc(), edits)?;
    check_numbers(&rt, &read.workload, &[(3, 3), (1, 3)]);
    match &read.edited {
        Some(edited) => {
            check_numbers(&rt, edited, &[(2, 2), (0, 3)]);
            check_programs(&rt, edited, &read.workload);
        }
        None => return Err(Fail::from("there are edits")),
    }
    Ok(())
}

fn check_refused(rt: &impl Abort, alloc: Global, text: &str, why: Why, path: &str) {
    match read_edited_workload(alloc, text.as_bytes()) {
        Ok(_) => assert!(rt; false, "{text}"),
        Err(fault) => {
            assert_eq!(rt; fault.why, why, "{text}");
            assert_eq!(rt; fault.path.as_str(), path, "{text}");
        }
    }
}

#[test]
fn edits_that_are_refused(rt: HostRuntime) -> Result<(), Fail> {
    for (edits, why, path) in REFUSED {
        let text = document(rt.alloc(), ITEMS, edits)?;
        check_refused(&rt, rt.alloc(), text.as_str(), *why, path);
    }
    Ok(())
}

#[test]
fn workloads_that_are_refused(rt: HostRuntime) -> Result<(), Fail> {
    // The workload's faults come before those of its edits, shapes first.
    let edits = "{\"edit\":\"change\",\"task\":\"nobody\",\"priority\":1,\"mask\":1}";
    let text = document(rt.alloc(), "{\"work\":0}", edits)?;
    check_refused(
        &rt,
        rt.alloc(),
        text.as_str(),
        ARGUMENT,
        "workload.tasks[0].program[0]",
    );
    let text = document(rt.alloc(), "{\"work\":0}", "{}")?;
    check_refused(
        &rt,
        rt.alloc(),
        text.as_str(),
        Why::BadShape,
        "edits[0].edit",
    );
    let text = document(rt.alloc(), "{\"work\":{}}", "{}")?;
    check_refused(
        &rt,
        rt.alloc(),
        text.as_str(),
        Why::BadShape,
        "workload.tasks[0].program[0].work",
    );
    let inner = workload(rt.alloc(), ITEMS, "", "200")?;
    let text = format!(in rt.alloc(); "{{\"workload\":{inner},\"edits\":[],\"note\":1}}")?;
    check_refused(&rt, rt.alloc(), text.as_str(), Why::BadShape, "top");
    let text = format!(in rt.alloc(); "{{\"workload\":{inner},\"edits\":{{}}}}")?;
    check_refused(&rt, rt.alloc(), text.as_str(), Why::BadShape, "edits");
    Ok(())
}

/// An edit that sets the item at the path to a work in one loop more than so many.
fn set_loops(alloc: Global, path: &str, loops: usize) -> Result<String, Fail> {
    let inner = nested(alloc, loops)?;
    let edit = format!(in alloc;
        "{{\"edit\":\"set\",\"task\":\"control\",\"item\":[{path}],\"repeat\":1,\"of\":[{inner}]}}"
    )?;
    document(alloc, ITEMS, edit.as_str())
}

#[test]
fn loops_in_new_items(rt: HostRuntime) -> Result<(), Fail> {
    let few = set_loops(rt.alloc(), "0", 15)?;
    assert!(&rt; read_edited_workload(rt.alloc(), few.as_bytes()).is_ok());
    // The new item alone has too many, and then together with the loop around it.
    let many = set_loops(rt.alloc(), "0", 16)?;
    let path =
        "edits[0].of[0].of[0].of[0].of[0].of[0].of[0].of[0].of[0].of[0].of[0].of[0].of[0].of[0].of[0].of[0].of[0]";
    check_refused(&rt, rt.alloc(), many.as_str(), ARGUMENT, path);
    let many = set_loops(rt.alloc(), "1,0", 15)?;
    check_refused(&rt, rt.alloc(), many.as_str(), ARGUMENT, "edits[0]");
    Ok(())
}

/// So many edits that change nothing.
fn changes(alloc: Global, count: usize) -> Result<String, Fail> {
    let mut edits = String::new(alloc);
    for index in 0..count {
        if index > 0 {
            edits.push_str(",")?;
        }
        edits.push_str("{\"edit\":\"change\",\"task\":\"control\",\"priority\":3,\"mask\":3}")?;
    }
    Ok(edits)
}

#[test]
fn many_edits(rt: HostRuntime) -> Result<(), Fail> {
    let text = document(rt.alloc(), "", changes(rt.alloc(), 1000)?.as_str())?;
    assert!(&rt; read_edited_workload(rt.alloc(), text.as_bytes()).is_ok());
    let text = document(rt.alloc(), "", changes(rt.alloc(), 1001)?.as_str())?;
    check_refused(&rt, rt.alloc(), text.as_str(), ARGUMENT, "edits");
    Ok(())
}

/// The text is a workload without edits.
fn check_unedited(rt: &impl Abort, alloc: Global, text: &str) -> Result<(), Fail> {
    match read_edited_workload(alloc, text.as_bytes()) {
        Ok(read) => {
            check_programs(rt, &read.workload, &plain(alloc, ITEMS)?);
            assert!(rt; read.edited.is_none());
        }
        Err(_) => return Err(Fail::from("the text is a workload")),
    }
    Ok(())
}

#[test]
fn workloads_without_edits(rt: HostRuntime) -> Result<(), Fail> {
    let inner = workload(rt.alloc(), ITEMS, "", "200")?;
    check_unedited(&rt, rt.alloc(), inner.as_str())?;
    let text = format!(in rt.alloc(); "{{\"workload\":{inner}}}")?;
    check_unedited(&rt, rt.alloc(), text.as_str())?;
    check_unedited(&rt, rt.alloc(), document(rt.alloc(), ITEMS, "")?.as_str())
}
