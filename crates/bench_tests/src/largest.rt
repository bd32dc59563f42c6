//! The calls that take memory, each at its largest size: the most tasks, notifications, cores and
//! mutexes, and the most steps.

use crate::replays::check_store;
use crate::samples::{
    Opened, SWITCH_0, Started, assert_is, assert_same, assert_tallies, assert_text, between,
    make_edit, three_tasks, tick_at, ticks,
};
use crate::store_edits::{change, insert};
use crate::trials::tried;
use bench_samples::{LARGEST, crowd};
use bench_types::{
    Edit, Header, MAX_CORES, MAX_MUTEXES, MAX_NOTES, MAX_SPAN, MAX_STEPS, MAX_TASKS, Step,
};
use session_store::Store;
use smp_kernel::Kernel;
use std::alloc::{AllocError, Global};
use std::process::Abort;
use std::test::Fail;

fn check_header(rt: &impl Abort, copy: &Header, header: &Header) {
    let tasks = header.tasks.as_slice();
    assert_same(rt, "config", &copy.config, &header.config);
    assert_same(rt, "tasks", &copy.tasks.as_slice().len(), &tasks.len());
    for (copied, task) in copy.tasks.as_slice().iter().zip(tasks) {
        assert_text(rt, copied.name.as_str(), task.name.as_str());
        let (given, wanted) = ((copied.priority, copied.mask), (task.priority, task.mask));
        assert_same(rt, "priority and mask", &given, &wanted);
    }
}

fn check_copy(rt: &impl Abort, alloc: Global, kernel: &Kernel) -> Result<(), Fail> {
    let settings = kernel.settings();
    let shown = (settings.tasks, settings.mutexes, settings.notes);
    let most = (MAX_CORES + MAX_TASKS, MAX_MUTEXES, MAX_NOTES);
    assert_same(rt, "tasks, mutexes and notifications", &shown, &most);
    let copy = kernel.copy(alloc)?;
    assert_is(rt, "the same", copy.same(kernel));
    Ok(())
}

fn check_started(rt: &impl Abort, host: &HostRuntime, header: Header) -> Result<(), Fail> {
    let started = Started::of(host, header)?;
    check_copy(rt, host.alloc(), &started.kernel)
}

fn check_copied(rt: &impl Abort, host: &HostRuntime, header: &Header) -> Result<(), Fail> {
    let copy = header.copy(host.alloc())?;
    check_header(rt, &copy, header);
    check_started(rt, host, copy)
}

#[test]
fn a_kernel_of_the_most_tasks(rt: HostRuntime) -> Result<(), Fail> {
    let header = crowd(rt.alloc(), LARGEST, MAX_TASKS as usize)?;
    check_copied(&rt, &rt, &header)
}

/// The store of the most ticks.
fn opened_with(host: &HostRuntime, header: Header) -> Result<Opened, Fail> {
    let steps = ticks(host.alloc(), MAX_STEPS)?;
    Opened::of(host, header, steps, MAX_SPAN)
}

fn opened(host: &HostRuntime) -> Result<Opened, Fail> {
    opened_with(host, crowd(host.alloc(), LARGEST, MAX_TASKS as usize)?)
}

// Twice, since the second one is of segments that the first one made.
fn replace_last(rt: &impl Abort, alloc: Global, opened: &mut Opened) {
    let at = MAX_STEPS - 1;
    let edit = Edit::Replace { at, step: SWITCH_0 };
    let from = MAX_STEPS - MAX_SPAN;
    make_edit(rt, alloc, opened, &(edit, from, MAX_STEPS));
    make_edit(rt, alloc, opened, &(edit, from, MAX_STEPS));
}

// The tick count wraps once, and the last step is no tick.
fn check_last_place(rt: &impl Abort, alloc: Global, opened: &mut Opened) -> Result<(), Fail> {
    let Opened { store, meter } = &*opened;
    assert_same(rt, "last step", &store.step(MAX_STEPS - 1), &Some(SWITCH_0));
    let counted = meter.count().saturating_add(u64::from(MAX_SPAN));
    let tick = tick_at(alloc, opened, MAX_STEPS)?;
    assert_same(rt, "last tick", &tick, &Some(MAX_STEPS - 2));
    assert_same(rt, "steps", &opened.meter.count(), &counted);
    Ok(())
}

#[test]
fn a_store_of_the_most_steps_and_tasks(rt: HostRuntime) -> Result<(), Fail> {
    let mut opened = opened(&rt)?;
    replace_last(&rt, rt.alloc(), &mut opened);
    check_last_place(&rt, rt.alloc(), &mut opened)
}

/// Ticks that the plain replay makes too, which searches all tasks for each core.
const SOME: u32 = 300;

fn check_ticks(rt: &impl Abort, host: &HostRuntime, store: &Store) -> Result<(), Fail> {
    let steps = ticks(host.alloc(), SOME)?;
    check_store(rt, host, store, &steps)
}

#[test]
fn the_most_tasks_by_the_definitions(rt: HostRuntime) -> Result<(), Fail> {
    let header = crowd(rt.alloc(), LARGEST, MAX_TASKS as usize)?;
    let opened = Opened::of(&rt, header, ticks(rt.alloc(), SOME)?, 64)?;
    check_ticks(&rt, &rt, &opened.store)
}

/// The last segment of a store, with one step fewer than would be cut in two.
const LONGEST: u32 = 2 * MAX_SPAN - 1;

#[test]
fn a_state_far_from_its_checkpoint(rt: HostRuntime) -> Result<(), Fail> {
    let steps = ticks(rt.alloc(), MAX_SPAN - 1)?;
    let mut opened = Opened::of(&rt, three_tasks(rt.alloc(), 2, false)?, steps, MAX_SPAN)?;
    check_far(&rt, rt.alloc(), &mut opened)
}

fn check_far(rt: &impl Abort, alloc: Global, opened: &mut Opened) -> Result<(), Fail> {
    for at in MAX_SPAN - 1..LONGEST {
        make_edit(rt, alloc, opened, &(insert(at, Step::Tick), 0, at + 1));
    }
    let counted = opened.meter.count().saturating_add(u64::from(LONGEST));
    let tick = tick_at(alloc, opened, LONGEST)?;
    assert_same(rt, "last tick", &tick, &Some(LONGEST));
    assert_same(rt, "steps", &opened.meter.count(), &counted);
    Ok(())
}

/// The lines of the most tasks after the most ticks, at which each core has the task that it began
/// with. The last task has the priority. A program that was written apart from this one computed
/// the numbers.
fn lines_of_crowd(alloc: Global, last: u32) -> Result<String, AllocError> {
    let mut text = String::new(alloc);
    for number in 0..MAX_CORES {
        push_line(&mut text, ("IDLE", number, 0), number + 2)?;
    }
    for number in 0..MAX_TASKS {
        let core = if number < 2 { number } else { MAX_CORES };
        let priority = if number == MAX_TASKS - 1 { last } else { 1 };
        push_line(&mut text, ("T", number, priority), core)?;
    }
    Ok(text)
}

/// The line of a task of that name and priority, which ran on the core, or waited if there is no
/// such core.
fn push_line(text: &mut String, task: (&str, u32, u32), on: u32) -> Result<(), AllocError> {
    let (name, number, priority) = task;
    write!(text, "task {name}{number} run")?;
    for core in 0..MAX_CORES {
        let run = if core == on { MAX_STEPS } else { 0 };
        write!(text, " {run}")?;
    }
    let wait = if on < MAX_CORES { 0 } else { MAX_STEPS };
    write!(
        text,
        " wait {wait} inverted 0 in 0 displaced 0 timeouts 0 top {priority}\n"
    )
}

#[test]
fn tallies_of_the_most_steps_and_tasks(rt: HostRuntime) -> Result<(), Fail> {
    let opened = opened(&rt)?;
    let lines = lines_of_crowd(rt.alloc(), 1)?;
    assert_tallies(&rt, rt.alloc(), &opened.store, lines.as_str())
}

/// The last task is created with another priority, so that all of the session is replayed.
#[test]
fn a_trial_of_the_most_steps_and_tasks(rt: HostRuntime) -> Result<(), Fail> {
    let mut opened = opened(&rt)?;
    check_trial(&rt, rt.alloc(), &mut opened)
}

fn check_trial(rt: &impl Abort, alloc: Global, opened: &mut Opened) -> Result<(), Fail> {
    let last = MAX_CORES + MAX_TASKS - 1;
    let (outcome, text) = tried(alloc, opened, change!(last, 0))?;
    assert_same(rt, "outcome", &outcome, &between(0, MAX_STEPS));
    let lines = lines_of_crowd(alloc, 0)?;
    assert_text(rt, text.as_str(), lines.as_str());
    Ok(())
}
