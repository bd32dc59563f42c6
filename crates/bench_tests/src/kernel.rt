//! A kernel beside the worked sessions: how it starts, two steps in a row, the deepest hold and a
//! copy.
ghost use Rattle.std.specs.Prelude.{◌≡◌, Ok};
ghost use Rattle.bench_types.specs.Step.{step_check};
ghost use Rattle.bench_model.specs.Table.{Table};
ghost use Rattle.bench_model.specs.Session.{step_of};
ghost use Rattle.bench_model.specs.Equal.{StandsFor};

use crate::samples::{Started, assert_at, assert_is, assert_same, three_tasks};
use bench_types::{Call, Header, Items, NoteState, Refusal, Reply, Settings, Step, TaskLook};
use smp_kernel::{Kernel, Meter, StartFault};
use std::alloc::Global;
use std::process::Abort;
use std::test::Fail;

const IDLE: TaskLook = TaskLook {
    in_use: 0,
    base: 0,
    mask: 3,
    preempt: true,
    ready: true,
    suspended: false,
    left: None,
    held: 0,
    in_call: false,
    value: 0,
    state: NoteState::NotWaiting,
};

#[test]
fn starts_from_a_good_header(rt: HostRuntime) -> Result<(), Fail> {
    check_start(&rt, &Started::new(&rt)?.kernel);
    Ok(())
}

fn check_start(rt: &impl Abort, kernel: &Kernel) {
    let settings = Settings {
        cores: 2,
        priorities: 5,
        slicing: true,
        mutexes: 0,
        notes: 1,
        queues: None,
        units: 1,
        tasks: 5,
    };
    assert_same(rt, "settings", &kernel.settings(), &settings);
    for task in 0..kernel.settings().cores {
        assert_at(rt, "idle task", task, &kernel.look(task), &IDLE);
    }
}

#[test]
fn refuses_a_bad_header(rt: HostRuntime) -> Result<(), Fail> {
    let header = three_tasks(rt.alloc(), 1, true)?;
    let why = start_fault(rt.alloc(), &header);
    assert_same(&rt, "fault", &why, &Some(StartFault::BadHeader));
    Ok(())
}

fn start_fault(alloc: Global, header: &Header) -> Option<StartFault> {
    match Kernel::start(alloc, header) {
        Ok(_) => None,
        Err(why) => Some(why),
    }
}

/// Two steps in a row: the kernel stands for the table of the second step after the first.
fn make_both(kernel: &mut Kernel, meter: &mut Meter, first: &Step, second: &Step) -> (Reply, Reply)
    requires first { step_check kernel.old.settings first.now ≡ Ok tt }
    requires second { step_check kernel.old.settings second.now ≡ Ok tt }
    ensures replies { (table : Table) → StandsFor kernel.old table → let between
        = step_of first.now table in result ≡ (between.0, (step_of second.now between.1).0) }
    ensures state { (table : Table) → StandsFor kernel.old table
        → StandsFor kernel.new (step_of second.now (step_of first.now table).1).1 }
    ensures settings { kernel.new.settings ≡ kernel.old.settings }
{
    let reply = kernel.step(meter, first);
    (reply, kernel.step(meter, second))
}

#[test]
fn two_steps(rt: HostRuntime) -> Result<(), Fail> {
    let mut started = Started::new(&rt)?;
    check_both(&rt, &mut started);
    Ok(())
}

fn check_both(rt: &impl Abort, started: &mut Started) {
    let tick = Step::Tick;
    let (first, second) = make_both(&mut started.kernel, &mut started.meter, &tick, &tick);
    let (done, counts) = (Reply::Done, (started.kernel.tick(), started.meter.count()));
    assert_same(rt, "replies", &(first, second), &(done, done));
    assert_same(rt, "tick and count", &counts, &(2, 2));
}

/// A call of A on core 0.
fn call(call: Call) -> Step {
    let (core, task) = (0, 2);
    Step::Call { core, task, call }
}

fn make(rt: &impl Abort, started: &mut Started, step: Step, reply: Reply) {
    assert_eq!(rt; started.step(rt, &step), reply, "{step:?}");
}

#[test]
fn a_hold_is_255_deep(rt: HostRuntime) -> Result<(), Fail> {
    let mut started = Started::new(&rt)?;
    check_depths(&rt, &mut started);
    Ok(())
}

fn check_depths(rt: &impl Abort, started: &mut Started) {
    assert_same(rt, "hold", &started.kernel.hold(), &None);
    for depth in 1..=255 {
        make(rt, started, call(Call::HoldOpen), Reply::Done);
        assert_same(rt, "hold", &started.kernel.hold(), &Some((0, depth)));
    }
    let too_deep = Reply::Refused(Refusal::HoldDeep);
    make(rt, started, call(Call::HoldOpen), too_deep);
    assert_same(rt, "hold", &started.kernel.hold(), &Some((0, 255)));
    assert_same(rt, "steps", &started.meter.count(), &256);
}

#[test]
fn a_copy_goes_its_own_way(rt: HostRuntime) -> Result<(), Fail> {
    let mut started = Started::new(&rt)?;
    check_copy(&rt, rt.alloc(), &mut started)
}

fn check_copy(rt: &impl Abort, alloc: Global, started: &mut Started) -> Result<(), Fail> {
    make(rt, started, call(Call::HoldOpen), Reply::Done);
    make(rt, started, call(Call::HoldOpen), Reply::Done);
    let copy = started.kernel.copy(alloc)?;
    check_ways(rt, started, &copy);
    check_return(rt, &mut started.kernel, &copy);
    Ok(())
}

fn check_ways(rt: &impl Abort, started: &mut Started, copy: &Kernel) {
    let same = (copy.same(&started.kernel), started.kernel.same(copy));
    assert_same(rt, "the same", &same, &(true, true));
    make(rt, started, call(Call::HoldClose), Reply::Done);
    make(rt, started, Step::Tick, Reply::Done);
    assert_same(rt, "hold", &copy.hold(), &Some((0, 2)));
    assert_same(rt, "tick", &copy.tick(), &0);
    let same = (copy.same(&started.kernel), started.kernel.same(copy));
    assert_same(rt, "no longer the same", &same, &(false, false));
}

fn check_return(rt: &impl Abort, kernel: &mut Kernel, copy: &Kernel)
    ensures { kernel.new.settings ≡ kernel.old.settings }
{
    assert!(rt; kernel.settings() == copy.settings());
    kernel.copy_from(copy);
    assert_is(rt, "the same again", copy.same(kernel));
}

#[test]
fn shows_ranks_and_ready_tasks(rt: HostRuntime) -> Result<(), Fail> {
    let mut started = Started::new(&rt)?;
    make(&rt, &mut started, call(Call::Delay(2)), Reply::Blocked);
    check_ranks(&rt, &started.kernel);
    Ok(())
}

fn check_ranks(rt: &impl Abort, kernel: &Kernel) {
    let settings = kernel.settings();
    assert!(rt; settings.tasks == 5 && settings.cores == 2);
    let in_use = (kernel.in_use(0), kernel.in_use(2), kernel.in_use(3));
    assert_same(rt, "priorities", &in_use, &(0, 2, 1));
    let below = (kernel.stands_below(0, 3), kernel.stands_below(3, 2));
    assert_same(rt, "below", &below, &(true, true));
    let above = (kernel.stands_below(3, 4), kernel.stands_below(2, 3));
    assert_same(rt, "not below", &above, &(false, false));
    assert_is(rt, "allowed", kernel.is_allowed(1, 2));
    let ready = (kernel.ready(0), kernel.ready(4), kernel.ready(2));
    assert_same(rt, "ready", &ready, &(true, true, false));
    let current = (
        kernel.is_current(2),
        kernel.is_current(3),
        kernel.is_current(4),
    );
    assert_same(rt, "current", &current, &(true, true, false));
}

#[test]
fn shows_suspended_tasks(rt: HostRuntime) -> Result<(), Fail> {
    let mut header = three_tasks(rt.alloc(), 2, true)?;
    header.queues = Some(Items::new(Vec::new(rt.alloc())));
    let mut started = Started::of(&rt, header)?;
    check_suspended(&rt, &mut started);
    Ok(())
}

/// A suspends C, and B while it waits; it resumes C, and suspends itself.
fn check_suspended(rt: &impl Abort, started: &mut Started) {
    let (core, task) = (1, 3);
    let wait = Step::Call {
        core,
        task,
        call: Call::Delay(2),
    };
    make(rt, started, wait, Reply::Blocked);
    make(rt, started, call(Call::Suspend(4)), Reply::Done);
    assert_suspended(rt, &started.kernel, (false, false, true));
    make(rt, started, call(Call::Suspend(3)), Reply::Done);
    assert_suspended(rt, &started.kernel, (false, true, true));
    make(rt, started, call(Call::Resume(4)), Reply::Done);
    assert_suspended(rt, &started.kernel, (false, true, false));
    make(rt, started, call(Call::Suspend(2)), Reply::Done);
    assert_suspended(rt, &started.kernel, (true, true, false));
}

/// Whether A, B and C are suspended. B is no longer ready, and waits for no tick once it is.
fn assert_suspended(rt: &impl Abort, kernel: &Kernel, wanted: (bool, bool, bool)) {
    assert!(rt; kernel.settings().tasks == 5);
    let shown = (
        kernel.suspended(2),
        kernel.suspended(3),
        kernel.suspended(4),
    );
    assert_same(rt, "suspended", &shown, &wanted);
    let looks = (
        kernel.look(2).suspended,
        kernel.look(3).suspended,
        kernel.look(4).suspended,
    );
    assert_same(rt, "looks", &looks, &wanted);
    let left = if wanted.1 { None } else { Some(2) };
    let shown = (kernel.ready(3), kernel.look(3).left);
    assert_same(rt, "ready, ticks left", &shown, &(false, left));
}
