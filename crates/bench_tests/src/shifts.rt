//! Two kernels of one header, of which one is moved in time.
ghost use Rattle.std.specs.Prelude.{◌≡◌};

use crate::samples::{A_DELAYS, SWITCH_0, SWITCH_1, Started, assert_is, assert_same};
use bench_samples::low_and_high;
use bench_types::{Call, Reply, Step};
use smp_kernel::Kernel;
use std::process::Abort;
use std::test::Fail;

fn call(core: u32, task: u32, call: Call) -> Step {
    Step::Call { core, task, call }
}

/// The task takes mutex 0, for so many ticks.
fn take(core: u32, task: u32, ticks: u32) -> Step {
    call(core, task, Call::MutexTake { mutex: 0, ticks })
}

/// Both make the step, with this reply.
fn make(rt: &impl Abort, moved: &mut Started, still: &mut Started, step: Step, reply: Reply) {
    let replies = (moved.step(rt, &step), still.step(rt, &step));
    assert_eq!(rt; replies, (reply, reply), "{step:?}");
}

fn tick_both(rt: &impl Abort, moved: &mut Started, still: &mut Started) {
    make(rt, moved, still, Step::Tick, Reply::Done);
    assert_alike(rt, &moved.kernel, &still.kernel);
}

/// The two are equal but for their tick counts.
fn assert_alike(rt: &impl Abort, moved: &Kernel, still: &Kernel) {
    let alike = (moved.same_shifted(still), still.same_shifted(moved));
    assert_same(rt, "alike", &alike, &(true, true));
    assert_is(rt, "other tick counts", !moved.same(still));
}

/// The tick counts of both.
fn assert_ticks(rt: &impl Abort, moved: &Kernel, still: &Kernel, wanted: (u32, u32)) {
    let ticks = (moved.tick(), still.tick());
    assert_same(rt, "tick counts", &ticks, &wanted);
}

#[test]
fn a_kernel_moves_round_the_tick_counts(rt: HostRuntime) -> Result<(), Fail> {
    let mut moved = Started::new(&rt)?;
    let still = moved.kernel.copy(rt.alloc())?;
    check_round(&rt, &mut moved.kernel, &still);
    Ok(())
}

fn check_round(rt: &impl Abort, moved: &mut Kernel, still: &Kernel)
    ensures { moved.new.settings ≡ moved.old.settings }
{
    moved.shift(0);
    assert_is(
        rt,
        "unmoved",
        moved.same(still) && moved.same_shifted(still),
    );
    moved.shift(4_294_967_295);
    assert_ticks(rt, moved, still, (4_294_967_295, 0));
    assert_alike(rt, moved, still);
    moved.shift(1);
    assert_ticks(rt, moved, still, (0, 0));
    assert_is(rt, "back", moved.same(still) && moved.same_shifted(still));
}

#[test]
fn delays_go_on_in_a_kernel_that_moved(rt: HostRuntime) -> Result<(), Fail> {
    let mut moved = Started::new(&rt)?;
    let mut still = Started::new(&rt)?;
    check_delays(&rt, &mut moved, &mut still);
    Ok(())
}

/// A waits 2 ticks and then B 5, and one kernel moves so that A wakes before its tick count wraps
/// and B after it has.
fn check_delays(rt: &impl Abort, moved: &mut Started, still: &mut Started) {
    make(rt, moved, still, A_DELAYS, Reply::Blocked);
    make(rt, moved, still, SWITCH_0, Reply::Done);
    let delay = call(1, 3, Call::Delay(5));
    make(rt, moved, still, delay, Reply::Blocked);
    make(rt, moved, still, SWITCH_1, Reply::Done);
    moved.kernel.shift(4_294_967_292);
    assert_alike(rt, &moved.kernel, &still.kernel);
    check_wakes(rt, moved, still);
}

fn check_wakes(rt: &impl Abort, moved: &mut Started, still: &mut Started) {
    assert_lefts(rt, &moved.kernel, (Some(2), Some(5)));
    tick_both(rt, moved, still);
    tick_both(rt, moved, still);
    assert_lefts(rt, &moved.kernel, (None, Some(3)));
    for _tick in 0..3 {
        tick_both(rt, moved, still);
    }
    assert_lefts(rt, &moved.kernel, (None, None));
    assert_ticks(rt, &moved.kernel, &still.kernel, (1, 5));
}

/// The ticks left of A and B.
fn assert_lefts(rt: &impl Abort, kernel: &Kernel, wanted: (Option<u32>, Option<u32>)) {
    assert!(rt; kernel.settings().tasks == 5);
    let lefts = (kernel.look(2).left, kernel.look(3).left);
    assert_same(rt, "ticks left", &lefts, &wanted);
}

#[test]
fn a_deadline_moves_with_its_kernel(rt: HostRuntime) -> Result<(), Fail> {
    let mut moved = Started::of(&rt, low_and_high(rt.alloc())?)?;
    let mut still = Started::of(&rt, low_and_high(rt.alloc())?)?;
    check_deadline(&rt, &mut moved, &mut still);
    Ok(())
}

/// H waits 2 ticks for the mutex of L, and gives up once they have passed.
fn check_deadline(rt: &impl Abort, moved: &mut Started, still: &mut Started) {
    make(rt, moved, still, take(1, 2, 0), Reply::Flag(true));
    make(rt, moved, still, take(0, 3, 2), Reply::Blocked);
    make(rt, moved, still, SWITCH_0, Reply::Done);
    moved.kernel.shift(4_294_967_295);
    assert_alike(rt, &moved.kernel, &still.kernel);
    tick_both(rt, moved, still);
    tick_both(rt, moved, still);
    make(rt, moved, still, SWITCH_0, Reply::Done);
    let finish = call(0, 3, Call::Finish);
    make(rt, moved, still, finish, Reply::Flag(false));
    assert_alike(rt, &moved.kernel, &still.kernel);
}

#[test]
fn kernels_of_other_ticks_left_differ(rt: HostRuntime) -> Result<(), Fail> {
    let mut kernel = Started::new(&rt)?;
    let mut other = Started::new(&rt)?;
    check_other_left(&rt, &mut kernel, &mut other);
    Ok(())
}

/// A waits 2 ticks in both, and one of them has passed in the other.
fn check_other_left(rt: &impl Abort, kernel: &mut Started, other: &mut Started) {
    make(rt, kernel, other, A_DELAYS, Reply::Blocked);
    assert_same(rt, "tick", &other.step(rt, &Step::Tick), &Reply::Done);
    let alike = kernel.kernel.same_shifted(&other.kernel);
    assert_is(rt, "another tick left", !alike);
}
