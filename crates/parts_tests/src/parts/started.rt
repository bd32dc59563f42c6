//! Cores at the start of a session.
ghost use Rattle.std.specs.Prelude.{◌≡◌, ◌<◌, length, Ok, IsTrue};
ghost use Rattle.bench_types.specs.Header.{header_check};

use bench_samples::{PLAIN, numbered_header};
use bench_types::{Config, Header};
use ready_core::Cores;
use std::alloc::Global;
use std::process::Abort;
use std::test::Fail;

pub(crate) fn is_checked(header: &Header) -> bool
    ensures { IsTrue result → header_check header.now ≡ Ok tt }
{
    header.check().is_ok()
}

/// The cores have this core, or the test fails.
pub(crate) fn need_core(rt: &impl Abort, cores: &Cores, core: u32)
    ensures { core < length cores.now.control.cores }
{
    assert!(rt; cores.has_core(core));
}

/// The cores have the task, or the test fails.
pub(crate) fn need_task(rt: &impl Abort, cores: &Cores, task: u32)
    ensures { task < length cores.now.control.tasks }
{
    assert!(rt; cores.has_task(task));
}

/// The cores have the priority, or the test fails.
pub(crate) fn need_priority(rt: &impl Abort, cores: &Cores, priority: u32)
    ensures { priority < cores.now.priorities }
{
    assert!(rt; cores.has_priority(priority));
}

pub(crate) fn select(rt: &impl Abort, cores: &mut Cores, core: u32) {
    need_core(rt, cores, core);
    cores.select(core);
}

/// Task 2 and so on with these priorities and masks, after the choice of each of two cores.
pub(crate) fn started(
    rt: &impl Abort,
    alloc: Global,
    slicing: bool,
    args: &[(u32, u32)],
) -> Result<Cores, Fail> {
    let config = Config { slicing, ..PLAIN };
    let header = numbered_header(alloc, config, args)?;
    assert!(rt; is_checked(&header));
    let mut cores = Cores::new(alloc, &header)?;
    select(rt, &mut cores, 0);
    select(rt, &mut cores, 1);
    Ok(cores)
}
