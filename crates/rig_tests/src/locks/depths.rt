//! How many times over a seat takes a word, and when a pair is closed.
ghost use Rattle.std.specs.Prelude.{All};
ghost use Rattle.rig_tests.specs.Use.{IsUsable};

use crate::checks::assert_same;
use crate::locks::calls::{
    close, free, free_task, pair_of, put_back, refused, take, take_task, taken,
};
use crate::locks::log::Log;
use port_locks::{CloseFault, Deep, LockPair, Seat, TryFault};
use std::process::Abort;
use std::sync::Wait;
use std::test::Fail;

#[test]
fn an_interrupt_word_is_taken_255_times(rt: HostRuntime) -> Result<(), Fail> {
    let (pair, mut seats) = pair_of(&rt, 2, 0)?;
    use_both(&rt, &pair, &mut seats, Use::TakeInterrupt);
    let (pair, mut seats) = refused(&rt, pair, seats, CloseFault::Owned);
    use_both(&rt, &pair, &mut seats, Use::FreeInterrupt);
    close(&rt, pair, seats, 0, 2);
    Ok(())
}

#[test]
fn a_task_word_is_taken_255_times(rt: HostRuntime) -> Result<(), Fail> {
    let (pair, mut seats) = pair_of(&rt, 2, 0)?;
    use_both(&rt, &pair, &mut seats, Use::TakeTask);
    let (pair, mut seats) = refused(&rt, pair, seats, CloseFault::Owned);
    use_both(&rt, &pair, &mut seats, Use::FreeTask);
    close(&rt, pair, seats, 0, 2);
    Ok(())
}

/// What is done with both seats.
#[derive(Clone, Copy)]
enum Use {
    TakeInterrupt,
    FreeInterrupt,
    TakeTask,
    FreeTask,
}

fn use_both(rt: &(impl Wait + Abort), pair: &LockPair<Log>, seats: &mut Vec<Seat<Log>>, how: Use)
    requires { All (IsUsable pair.now) seats.old.items }
    ensures { All (IsUsable pair.now) seats.new.items }
{
    let mut one = taken(rt, pair, seats);
    let mut zero = taken(rt, pair, seats);
    check_numbers(rt, seats, &zero, &one);
    match how {
        Use::TakeInterrupt => check_interrupt_depths(rt, pair, &mut zero, &mut one),
        Use::FreeInterrupt => check_interrupt_freed(rt, pair, &mut zero, &mut one),
        Use::TakeTask => check_task_depths(rt, pair, &mut zero),
        Use::FreeTask => check_task_freed(rt, pair, &mut zero, &mut one),
    }
    put_back(rt, pair, seats, zero);
    put_back(rt, pair, seats, one);
}

// The two are all, in their order.
fn check_numbers(rt: &impl Abort, others: &[Seat<Log>], zero: &Seat<Log>, one: &Seat<Log>) {
    assert_same(rt, "other seats", &others.len(), &0);
    assert_same(rt, "first seat", &zero.number(), &0);
    assert_same(rt, "second seat", &one.number(), &1);
}

fn check_interrupt_depths(
    rt: &(impl Wait + Abort),
    pair: &LockPair<Log>,
    zero: &mut Seat<Log>,
    one: &mut Seat<Log>,
)
    requires zero { IsUsable pair.now zero.old }
    requires one { IsUsable pair.now one.old }
    ensures zero { IsUsable pair.now zero.new }
    ensures one { IsUsable pair.now one.new }
{
    take(rt, pair, zero, 1);
    assert_tried(rt, pair, one, Err(TryFault::Busy));
    assert_same(
        rt,
        "depth and entries seen",
        &(one.interrupt_depth(), one.seen()),
        &(0, 0),
    );
    take(rt, pair, zero, 254);
    assert_same(rt, "interrupt depth", &zero.interrupt_depth(), &255);
    assert_deep(rt, pair, zero);
    assert_tried(rt, pair, zero, Err(TryFault::Deep));
    assert_same(rt, "interrupt depth", &zero.interrupt_depth(), &255);
}

/// Tries to take the interrupt word, which has to be answered so.
fn assert_tried(
    rt: &impl Abort,
    pair: &LockPair<Log>,
    seat: &mut Seat<Log>,
    wanted: Result<(), TryFault>,
)
    requires { IsUsable pair.now seat.old }
    ensures { IsUsable pair.now seat.new }
{
    let answer = pair.try_interrupt(seat);
    assert_same(rt, "answer", &answer, &wanted);
}

/// The interrupt word is taken too often to be taken again.
fn assert_deep(rt: &(impl Wait + Abort), pair: &LockPair<Log>, seat: &mut Seat<Log>)
    requires { IsUsable pair.now seat.old }
    ensures { IsUsable pair.now seat.new }
{
    let answer = pair.take_interrupt(rt, seat);
    assert_eq!(rt; answer, Err(Deep));
}

fn check_interrupt_freed(
    rt: &impl Abort,
    pair: &LockPair<Log>,
    zero: &mut Seat<Log>,
    one: &mut Seat<Log>,
)
    requires zero { IsUsable pair.now zero.old }
    requires one { IsUsable pair.now one.old }
    ensures zero { IsUsable pair.now zero.new }
    ensures one { IsUsable pair.now one.new }
{
    free(rt, pair, zero, 255);
    assert_same(rt, "interrupt depth", &zero.interrupt_depth(), &0);
    assert_tried(rt, pair, one, Ok(()));
    assert_same(rt, "interrupt depth", &one.interrupt_depth(), &1);
    free(rt, pair, one, 1);
}

fn check_task_depths(rt: &(impl Wait + Abort), pair: &LockPair<Log>, zero: &mut Seat<Log>)
    requires { IsUsable pair.now zero.old }
    ensures { IsUsable pair.now zero.new }
{
    take_task(rt, pair, zero, 255);
    assert_same(rt, "task depth", &zero.task_depth(), &255);
    assert_eq!(rt; zero.interrupt_depth(), 0);
    let deep = pair.take_task(rt, zero);
    assert_same(rt, "answer", &deep, &Err(Deep));
    assert_same(rt, "task depth", &zero.task_depth(), &255);
}

fn check_task_freed(
    rt: &(impl Wait + Abort),
    pair: &LockPair<Log>,
    zero: &mut Seat<Log>,
    one: &mut Seat<Log>,
)
    requires zero { IsUsable pair.now zero.old }
    requires one { IsUsable pair.now one.old }
    ensures zero { IsUsable pair.now zero.new }
    ensures one { IsUsable pair.now one.new }
{
    free_task(rt, pair, zero, 255);
    assert_same(rt, "task depth", &zero.task_depth(), &0);
    take_task(rt, pair, one, 1);
    free_task(rt, pair, one, 1);
}

#[test]
fn all_seats_close_a_pair(rt: HostRuntime) -> Result<(), Fail> {
    let (pair, seats) = pair_of(&rt, 2, 0)?;
    let (pair, mut seats) = one_missing(&rt, pair, seats);
    turn(&rt, &pair, &mut seats);
    close(&rt, pair, seats, 0, 2);
    Ok(())
}

/// The pair and its seats, which is not closed without the last of them.
fn one_missing(
    rt: &impl Abort,
    pair: LockPair<Log>,
    mut seats: Vec<Seat<Log>>,
) -> (LockPair<Log>, Vec<Seat<Log>>)
    requires { All (IsUsable pair) seats.items }
    ensures { All (IsUsable result.0) result.1.items }
{
    let last = taken(rt, &pair, &mut seats);
    let (pair, mut seats) = refused(rt, pair, seats, CloseFault::WrongSeats);
    assert_same(rt, "other seats", &seats.len(), &1);
    put_back(rt, &pair, &mut seats, last);
    (pair, seats)
}

/// Puts the two seats in the other order.
fn turn(rt: &impl Abort, pair: &LockPair<Log>, seats: &mut Vec<Seat<Log>>)
    requires { All (IsUsable pair.now) seats.old.items }
    ensures { All (IsUsable pair.now) seats.new.items }
{
    let one = taken(rt, pair, seats);
    let zero = taken(rt, pair, seats);
    check_numbers(rt, seats, &zero, &one);
    put_back(rt, pair, seats, one);
    put_back(rt, pair, seats, zero);
}
