//! A thread that stops in the middle of its calls, while another one makes interrupts.
ghost use Rattle.std.specs.Prelude.{All};
ghost use Rattle.core_rig.specs.Seats.{IsSeatOf};

use crate::checks::{assert_depth, assert_made, assert_same, one_more};
use crate::rigs::{closed, one_missing, put_back, refused, rig_of, taken, turn};
use bench_types::{Call, Reply};
use core_rig::{CloseFault, CoreSeat, Recorded, Rig};
use std::process::Abort;
use std::sync::Wait;
use std::test::Fail;
use std::thread::{self, Threads};

/// The calls of core 0, whose task is A.
const CALLS: [Call; 8] = [
    Call::HoldOpen,
    Call::HoldOpen,
    Call::StateClear { task: 2, index: 0 },
    Call::HoldClose,
    Call::HoldClose,
    Call::StateClear { task: 2, index: 0 },
    Call::HoldOpen,
    Call::StateClear { task: 2, index: 0 },
];

/// How deep the hold is that is open after none, one, two and more of them.
const DEPTHS: [u32; 9] = [0, 1, 2, 2, 1, 0, 0, 1, 1];

/// How many interrupts core 1 makes, which wait for no hold.
const INTERRUPTS: u32 = 8;

#[test]
fn a_thread_stops_after_some_calls(rt: HostRuntime) -> Result<(), Fail> {
    for (count, depth) in DEPTHS.iter().enumerate() {
        check_stop(&rt, &rt, count, *depth)?;
    }
    Ok(())
}

/// Without the seat of the thread that stopped the rig isn't closed, nor while its hold is open.
fn check_stop<R: Threads + Wait + Abort + Sync>(
    rt: &R,
    host: &HostRuntime,
    count: usize,
    depth: u32,
) -> Result<(), Fail> {
    assert!(rt; count <= CALLS.len());
    let recorded = recorded_until(rt, host, &CALLS[..count], depth)?;
    let calls = count as u64 + u64::from(depth);
    let interrupts = u64::from(INTERRUPTS);
    assert_made(rt, &recorded, &[calls, interrupts]);
    let entries = recorded.entries.as_slice().len() as u64;
    assert_same(rt, "entries", &entries, &(calls + interrupts));
    Ok(())
}

/// What a rig recorded whose core 0 stopped after the calls, so deep in a hold.
fn recorded_until<R: Threads + Wait + Abort + Sync>(
    rt: &R,
    host: &HostRuntime,
    calls: &[Call],
    depth: u32,
) -> Result<Recorded, Fail> {
    let (rig, mut seats) = rig_of(host, 100)?;
    act(rt, &rig, &mut seats, calls);
    turn(rt, &rig, &mut seats);
    let (rig, seats) = one_missing(rt, rig, seats);
    let (rig, seats) = freed(rt, rig, seats, depth);
    Ok(closed(rt, rig, seats))
}

/// The rig and its seats, the last of which is core 0's, once its hold of that depth is closed.
fn freed(
    rt: &(impl Wait + Abort),
    rig: Rig,
    seats: Vec<CoreSeat>,
    depth: u32,
) -> (Rig, Vec<CoreSeat>)
    requires { All (IsSeatOf rig) seats.items }
    ensures { All (IsSeatOf result.0) result.1.items }
{
    if depth == 0 {
        return (rig, seats);
    }
    let (rig, mut seats) = refused(rt, rig, seats, CloseFault::HoldOpen);
    close_last(rt, &rig, &mut seats, depth);
    (rig, seats)
}

/// The last seat closes its hold of that depth.
fn close_last(rt: &(impl Wait + Abort), rig: &Rig, seats: &mut Vec<CoreSeat>, depth: u32)
    requires { All (IsSeatOf rig.now) seats.old.items }
    ensures { All (IsSeatOf rig.now) seats.new.items }
{
    let mut zero = taken(rt, rig, seats);
    close_holds(rt, rig, &mut zero, depth);
    put_back(rt, rig, seats, zero);
}

fn close_holds(rt: &(impl Wait + Abort), rig: &Rig, zero: &mut CoreSeat, depth: u32)
    requires { IsSeatOf rig.now zero.old }
    ensures { IsSeatOf rig.now zero.new }
{
    assert_same(rt, "core", &zero.core(), &0);
    assert_depth(rt, zero, depth);
    for _ in 0..depth {
        close_hold(rt, rig, zero);
    }
    assert_depth(rt, zero, 0);
}

fn close_hold(rt: &(impl Wait + Abort), rig: &Rig, zero: &mut CoreSeat)
    requires { IsSeatOf rig.now zero.old }
    ensures { IsSeatOf rig.now zero.new }
{
    let answer = zero.call(rt, rig, Call::HoldClose);
    assert_same(
        rt,
        "reply",
        &answer.map(|answer| answer.reply),
        &Ok(Reply::Done),
    );
}

/// Core 0 makes the calls and then no more, and core 1 makes its interrupts, a thread each.
fn act<R: Threads + Wait + Abort + Sync>(rt: &R, rig: &Rig, seats: &mut [CoreSeat], calls: &[Call])
    requires { All (IsSeatOf rig.now) seats.old }
    ensures { All (IsSeatOf rig.now) seats.new }
{
    thread::for_each_mut(
        rt,
        seats,
        2,
        &|_, seat: &mut CoreSeat|
            requires { IsSeatOf rig.now seat.now }
            ensures { IsSeatOf rig.entry.now seat.new }
        {
            if seat.core() == 0 {
                make_calls(rt, rig, seat, calls);
            } else {
                make_interrupts(rt, rig, seat);
            }
        },
    );
}

fn make_calls(rt: &(impl Wait + Abort), rig: &Rig, seat: &mut CoreSeat, calls: &[Call])
    requires { IsSeatOf rig.now seat.old }
    ensures { IsSeatOf rig.now seat.new }
{
    for call in calls {
        make_call(rt, rig, seat, *call);
    }
    assert_same(rt, "made", &seat.made(), &(calls.len() as u64));
}

pub fn make_call(rt: &(impl Wait + Abort), rig: &Rig, seat: &mut CoreSeat, call: Call)
    requires { IsSeatOf rig.now seat.old }
    ensures { IsSeatOf rig.now seat.new }
{
    let answer = seat.call(rt, rig, call);
    assert!(rt; answer.is_ok());
}

fn make_interrupts(rt: &(impl Wait + Abort), rig: &Rig, seat: &mut CoreSeat)
    requires { IsSeatOf rig.now seat.old }
    ensures { IsSeatOf rig.now seat.new }
{
    for _ in 0..INTERRUPTS {
        let answer = seat.interrupt(rt, rig, one_more(2));
        assert!(rt; answer.is_ok());
    }
}
