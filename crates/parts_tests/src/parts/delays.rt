//! Delays of tasks, and the parts of the rule of a delay until a tick count.
ghost use Rattle.std.specs.Prelude.{◌≡◌, ◌<◌, [], false, MatchOption, IfOk, ⊤};
ghost use Rattle.bench_model.specs.Lists.{due_tasks};
ghost use Rattle.tick_delay.specs.Parts.{is_delayed};

use crate::expected::{expect_is, expect_same};
use bench_model::until::{is_ahead, next_wake};
use std::alloc::{AllocError, Global};
use std::process::Abort;
use std::test::Fail;
use tick_delay::Delays;

fn pop_due(delays: &mut Delays) -> Option<u32>
    ensures tasks { delays.new.tasks ≡ delays.old.tasks }
    ensures none { MatchOption result (due_tasks delays.new.delayed ≡ []) (λ _. ⊤) }
{
    match delays.pop_due() {
        Some(task) => Some(task),
        None => None,
    }
}

// No task is due, and a tick passes.
#[tactic(auto, unfolding(tick_delay::specs::Parts::advanced))]
fn advance(rt: &impl Abort, delays: &mut Delays)
    ensures { delays.new.tasks ≡ delays.old.tasks }
{
    let due = pop_due(delays);
    assert!(rt; due.is_none());
    delays.advance();
}

#[tactic(auto, unfolding(tick_delay::specs::Parts::until_delayed))]
fn delay_until(delays: &mut Delays, task: u32, prev: u32, inc: u32) -> (bool, u32)
    requires task { task < delays.old.tasks }
    requires free { is_delayed task delays.old.delayed ≡ false }
    ensures { delays.new.tasks ≡ delays.old.tasks }
{
    delays.delay_until(task, prev, inc)
}

// Task 0 waits for the next tick.
fn check_delay(rt: &impl Abort, delays: &mut Delays, copy: &Delays)
    requires { delays.old.tasks ≡ 2 }
{
    expect_is(rt, copy.same(delays));
    advance(rt, delays);
    expect_same(rt, delays.tick(), 0);
    expect_same(rt, delays.left(0), Some(0));
    expect_is(rt, !copy.same(delays));
    expect_same(rt, pop_due(delays), Some(0));
    expect_same(rt, delays.left(0), None);
}

#[test]
fn delays(rt: HostRuntime) -> Result<(), Fail> {
    let mut delays = Delays::new(rt.alloc(), 4_294_967_295, 2)?;
    delays.delay(0, 1);
    let copy = delays.copy(rt.alloc())?;
    check_delay(&rt, &mut delays, &copy);
    Ok(())
}

#[test]
fn delays_become_others(rt: HostRuntime) -> Result<(), Fail> {
    let mut delays = Delays::new(rt.alloc(), 4_294_967_295, 2)?;
    delays.delay(0, 1);
    let mut others = Delays::new(rt.alloc(), 0, 2)?;
    expect_is(&rt, !others.same(&delays));
    others.copy_from(&delays);
    expect_is(&rt, others.same(&delays));
    Ok(())
}

// The keys of two tasks, in whichever list they stand.
fn keys(delays: &Delays) -> (Option<u32>, Option<u32>)
    requires { delays.now.tasks ≡ 2 }
{
    let lists = delays.lists();
    (lists.key_of(0), lists.key_of(1))
}

// The list that is this turn's, and the first task of each: of this one, and of the other.
fn firsts(delays: &Delays) -> (u32, Option<u32>, Option<u32>) {
    let turn = delays.turn();
    let lists = delays.lists();
    (turn, lists.first(turn), lists.first(1 - turn))
}

// Task 0 waits for the last tick count, and task 1 for the second one after it. Returns the turn.
fn check_before(rt: &impl Abort, delays: &Delays) -> u32
    requires { delays.now.tasks ≡ 2 }
{
    let (zero, one) = keys(delays);
    expect_same(rt, zero, Some(4_294_967_295));
    expect_same(rt, one, Some(1));
    let (turn, first, other) = firsts(delays);
    expect_same(rt, first, Some(0));
    expect_same(rt, other, Some(1));
    turn
}

// The lists have changed places, and task 1 waits for this turn.
fn check_after(rt: &impl Abort, delays: &Delays, turn: u32)
    requires { delays.now.tasks ≡ 2 }
{
    expect_same(rt, delays.left(1), Some(1));
    let (after_wrap, first, other) = firsts(delays);
    assert!(rt; turn < 2);
    expect_same(rt, after_wrap, 1 - turn);
    expect_same(rt, first, Some(1));
    expect_same(rt, other, None);
}

// Task 0 is due at the last tick count, after which the count wraps.
fn check_last_tick(rt: &impl Abort, delays: &mut Delays)
    requires { delays.old.tasks ≡ 2 }
    ensures { delays.new.tasks ≡ 2 }
{
    advance(rt, delays);
    expect_same(rt, pop_due(delays), Some(0));
    expect_same(rt, delays.left(1), Some(2));
    advance(rt, delays);
    let due = pop_due(delays);
    assert!(rt; due.is_none());
}

fn check_wrap(rt: &impl Abort, delays: &mut Delays)
    requires { delays.old.tasks ≡ 2 }
{
    let turn = check_before(rt, delays);
    check_last_tick(rt, delays);
    check_after(rt, delays, turn);
    advance(rt, delays);
    expect_same(rt, pop_due(delays), Some(1));
    expect_same(rt, delays.tick(), 1);
    expect_same(rt, delays.left(1), None);
}

#[test]
#[tactic(auto, unfolding(list_orders::specs::Search::placed))]
fn lists_change_places_where_the_tick_count_wraps(rt: HostRuntime) -> Result<(), Fail> {
    let mut delays = Delays::new(rt.alloc(), 4_294_967_294, 2)?;
    delays.delay(0, 1);
    delays.delay(1, 3);
    check_wrap(&rt, &mut delays);
    Ok(())
}

#[test]
fn delays_are_the_same_in_another_turn(rt: HostRuntime) -> Result<(), Fail> {
    let mut wrapped = Delays::new(rt.alloc(), 4_294_967_295, 2)?;
    advance(&rt, &mut wrapped);
    let started = Delays::new(rt.alloc(), 0, 2)?;
    expect_is(&rt, wrapped.same(&started));
    expect_same(&rt, (wrapped.turn(), started.turn()), (1, 0));
    Ok(())
}

fn check_until(rt: &impl Abort, delays: &mut Delays)
    requires tasks { delays.old.tasks ≡ 1 }
    requires free { is_delayed 0 delays.old.delayed ≡ false }
{
    let (is_delayed, wake) = delay_until(delays, 0, 4_294_967_290, 10);
    expect_is(rt, is_delayed);
    expect_same(rt, wake, 4);
    assert_eq!(rt; delays.left(0), Some(1));

    delays.cancel(0);
    expect_same(rt, delays.left(0), None);
}

#[test]
fn delays_until_a_tick_count(rt: HostRuntime) -> Result<(), Fail> {
    expect_same(&rt, next_wake(4_294_967_290, 10), 4);
    expect_is(
        &rt,
        is_ahead(3, 4_294_967_290, 4) && !is_ahead(4, 4_294_967_290, 4),
    );
    let mut delays = Delays::new(rt.alloc(), 3, 1)?;
    check_until(&rt, &mut delays);
    Ok(())
}

// This task of two waits for some ticks, and then the other for some.
#[tactic(auto, unfolding(list_orders::specs::Search::placed))]
fn two_waits(alloc: Global, tick: u32, first: u32, ticks: (u32, u32)) -> Result<Delays, AllocError>
    requires first { first < 2 }
    requires some { 0 < ticks.0 }
    requires others { 0 < ticks.1 }
    ensures { IfOk result (λ delays. delays.tasks ≡ 2) }
{
    let mut delays = Delays::new(alloc, tick, 2)?;
    delays.delay(first, ticks.0);
    delays.delay(1 - first, ticks.1);
    Ok(delays)
}

// Moved so many ticks, the tick count is this one, and the tasks have these wakes.
fn check_move(
    rt: &impl Abort,
    delays: &mut Delays,
    by: u32,
    tick: u32,
    wakes: (Option<u32>, Option<u32>),
)
    requires { delays.old.tasks ≡ 2 }
    ensures { delays.new.tasks ≡ 2 }
{
    delays.shift(by);
    expect_same(rt, delays.tick(), tick);
    expect_same(rt, (delays.left(0), delays.left(1)), (Some(3), Some(8)));
    expect_same(rt, keys(delays), wakes);
}

// Task 0 waits 3 ticks and task 1 waits 8, to the wakes 4,294,967,293 and 2 at first. Once moved
// they wrap both, neither, and the second alone to the tick count 0.
fn check_moves(rt: &impl Abort, delays: &mut Delays, before: &Delays)
    requires { delays.old.tasks ≡ 2 }
    ensures { delays.new.tasks ≡ 2 }
{
    check_move(rt, delays, 5, 4_294_967_295, (Some(2), Some(7)));
    expect_is(rt, delays.same_shifted(before) && !delays.same(before));
    check_move(rt, delays, 1, 0, (Some(3), Some(8)));
    let last = 4_294_967_288;
    check_move(rt, delays, last, last, (Some(4_294_967_291), Some(0)));
    expect_is(rt, before.same_shifted(delays) && !before.same(delays));
    check_move(rt, delays, 0, last, (Some(4_294_967_291), Some(0)));
    let start = 4_294_967_290;
    check_move(rt, delays, 2, start, (Some(4_294_967_293), Some(2)));
    expect_is(rt, delays.same_shifted(before) && delays.same(before));
}

// Task 0 is due 3 ticks later, and task 1 once the tick count has wrapped.
fn check_wakes(rt: &impl Abort, delays: &mut Delays)
    requires { delays.old.tasks ≡ 2 }
{
    for _tick in 0..3 {
        advance(rt, delays);
    }
    expect_same(rt, pop_due(delays), Some(0));
    for _tick in 0..5 {
        advance(rt, delays);
    }
    expect_same(rt, pop_due(delays), Some(1));
    expect_same(rt, delays.tick(), 2);
}

#[test]
fn delays_move_in_time(rt: HostRuntime) -> Result<(), Fail> {
    let mut delays = two_waits(rt.alloc(), 4_294_967_290, 0, (3, 8))?;
    let before = delays.copy(rt.alloc())?;
    check_moves(&rt, &mut delays, &before);
    check_wakes(&rt, &mut delays);
    Ok(())
}

// Whether the two are the same but for their tick counts; they are not the same with these.
fn check_same_shifted(rt: &impl Abort, delays: &Delays, others: &Delays, is_same: bool) {
    expect_is(rt, !delays.same(others));
    let both = (delays.same_shifted(others), others.same_shifted(delays));
    expect_same(rt, both, (is_same, is_same));
}

#[test]
fn delays_are_the_same_at_another_tick_count(rt: HostRuntime) -> Result<(), Fail> {
    let delays = two_waits(rt.alloc(), 4_294_967_290, 0, (3, 8))?;
    let elsewhere = two_waits(rt.alloc(), 4_294_967_285, 0, (3, 8))?;
    check_same_shifted(&rt, &delays, &elsewhere, true);
    let mut longer = two_waits(rt.alloc(), 0, 0, (3, 9))?;
    check_same_shifted(&rt, &delays, &longer, false);
    longer.cancel(1);
    check_same_shifted(&rt, &delays, &longer, false);
    let others = two_waits(rt.alloc(), 0, 1, (3, 8))?;
    check_same_shifted(&rt, &delays, &others, false);
    Ok(())
}

#[test]
fn delays_in_another_order_differ(rt: HostRuntime) -> Result<(), Fail> {
    let delays = two_waits(rt.alloc(), 4_294_967_295, 1, (5, 5))?;
    let alike = two_waits(rt.alloc(), 0, 1, (5, 5))?;
    check_same_shifted(&rt, &delays, &alike, true);
    let turned = two_waits(rt.alloc(), 0, 0, (5, 5))?;
    check_same_shifted(&rt, &delays, &turned, false);
    Ok(())
}

#[test]
fn delays_of_more_tasks_differ(rt: HostRuntime) -> Result<(), Fail> {
    let delays = Delays::new(rt.alloc(), 4_294_967_295, 2)?;
    let fewer = Delays::new(rt.alloc(), 0, 1)?;
    check_same_shifted(&rt, &delays, &fewer, false);
    Ok(())
}
