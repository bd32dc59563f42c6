//! Texts of more than a million bytes, and an edit under a header of the most tasks.
ghost use Rattle.std.specs.Prelude.{◌≡◌, IsTrue, Ok};
ghost use Rattle.bench_types.specs.Header.{header_check};

use crate::expected::{expect_is, expect_same};
use crate::texts::sessions::with_steps;
use crate::texts::writing::{MANY, many_ticks};
use bench_samples::{LARGEST, crowd};
use bench_types::{Edit, Header, MAX_CORES, MAX_PRIORITIES, MAX_TASKS, Step};
use session_text::{Bench, read_bench, read_edit};
use std::alloc::{AllocError, Global};
use std::process::Abort;
use std::test::Fail;

/// The last task of the most on the last of the most cores.
const CHANGE: &str = r#"{"edit":"change","task":"T511","priority":31,"mask":2147483648}"#;

/// The text of an edit after more than a million spaces.
fn long_edit(alloc: Global) -> Result<String, AllocError> {
    let mut text = String::new(alloc);
    for _ten in 0..110_000 {
        text.push_str("          ")?;
    }
    text.push_str(CHANGE)?;
    Ok(text)
}

fn check_long_edit(rt: &impl Abort, alloc: Global, header: &Header) -> Result<(), Fail>
    requires { header_check header.now ≡ Ok tt }
{
    let text = long_edit(alloc)?;
    let edit = Edit::ChangeTask {
        task: MAX_CORES + MAX_TASKS - 1,
        priority: MAX_PRIORITIES - 1,
        mask: 1 << (MAX_CORES - 1),
    };
    let read = read_edit(alloc, text.as_bytes(), header).ok();
    expect_same(rt, &read, &Some(edit));
    Ok(())
}

fn is_checked(header: &Header) -> bool
    ensures { IsTrue result → header_check header.now ≡ Ok tt }
{
    header.check().is_ok()
}

#[test]
fn an_edit_of_the_most_tasks(rt: HostRuntime) -> Result<(), Fail> {
    let header = crowd(rt.alloc(), LARGEST, MAX_TASKS as usize)?;
    assert!(&rt; is_checked(&header));
    check_long_edit(&rt, rt.alloc(), &header)
}

/// A session of many ticks, and an edit that removes the last.
fn long_bench(alloc: Global) -> Result<String, AllocError> {
    let steps = many_ticks(alloc)?;
    let session = with_steps(alloc, 2, steps.as_str())?;
    let last = MANY - 1;
    format!(in alloc; "{{\"session\":{session},\"edits\":[{{\"edit\":\"remove\",\"at\":{last}}}]}}")
}

fn check_long_bench(rt: &impl Abort, bench: &Bench) {
    let steps = bench.steps.as_slice();
    expect_same(rt, &steps.len(), &(MANY as usize));
    expect_is(rt, steps.iter().all(|step| *step == Step::Tick));
    let removal = Edit::Remove { at: MANY - 1 };
    expect_same(rt, &bench.edits.as_slice(), &[removal].as_slice());
}

#[test]
fn a_bench_of_many_steps(rt: HostRuntime) -> Result<(), Fail> {
    let text = long_bench(rt.alloc())?;
    match read_bench(rt.alloc(), text.as_bytes()) {
        Ok(bench) => check_long_bench(&rt, &bench),
        Err(_) => return Err(Fail::from("the text is a bench document")),
    }
    Ok(())
}
