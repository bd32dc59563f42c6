//! Rigs whose seats two threads use side by side.
ghost use Rattle.std.specs.Prelude.{All};
ghost use Rattle.core_rig.specs.Seats.{IsSeatOf};

use crate::checks::{
    ISR, assert_call, assert_interrupt, assert_made, assert_reply, assert_same, at, one_more,
};
use crate::scenes::{Scene, recorded};
use bench_types::{Call, Entry, Reply};
use core_rig::{CoreSeat, Rig};
use std::process::Abort;
use std::sync::Wait;
use std::sync::atomic::{AtomicBool, Ordering};
use std::test::Fail;
use std::thread::{self, Threads};

/// How many turns a thread waits for another at the most.
const TURNS: u32 = 1_000_000;

/// What two threads tell each other: that the hold is open, and that the interrupt was made.
#[derive(Drop)]
struct Flags {
    open: AtomicBool,
    interrupted: AtomicBool,
}

/// Whether the flag was set within so many turns.
fn is_set_in_time(flag: &AtomicBool) -> bool {
    for _ in 0..TURNS {
        if flag.load(Ordering::SeqCst) {
            return true;
        }
        thread::yield_now();
    }
    false
}

#[test]
fn an_interrupt_comes_while_a_hold_is_open(rt: HostRuntime) -> Result<(), Fail> {
    let recorded = recorded(&rt, &rt, 10, Scene::Together)?;
    assert_made(&rt, &recorded, &[2, 2]);
    check_entries(&rt, recorded.entries.as_slice());
    Ok(())
}

fn check_entries(rt: &impl Abort, entries: &[Entry]) {
    assert_same(rt, "entries", &entries.len(), &4);
    assert_reply(rt, entries, 0, 0, Reply::Done);
    assert_reply(rt, entries, 1, 1, ISR);
    assert_reply(rt, entries, 2, 0, Reply::Done);
    assert_reply(rt, entries, 3, 1, Reply::Done);
}

/// Core 1 is interrupted while core 0 holds the kernel, a thread each.
pub fn interrupt_hold<R: Threads + Wait + Abort + Sync>(rt: &R, rig: &Rig, seats: &mut [CoreSeat])
    requires { All (IsSeatOf rig.now) seats.old }
    ensures { All (IsSeatOf rig.now) seats.new }
{
    let flags = Flags {
        open: AtomicBool::new(false),
        interrupted: AtomicBool::new(false),
    };
    hold_and_interrupt(rt, rig, seats, &flags);
}

fn hold_and_interrupt<R: Threads + Wait + Abort + Sync>(
    rt: &R,
    rig: &Rig,
    seats: &mut [CoreSeat],
    flags: &Flags,
)
    requires { All (IsSeatOf rig.now) seats.old }
    ensures { All (IsSeatOf rig.now) seats.new }
{
    thread::for_each_mut(
        rt,
        seats,
        2,
        &|_, seat: &mut CoreSeat|
            requires { IsSeatOf rig.now seat.now }
            ensures { IsSeatOf rig.entry.now seat.new }
        {
            if seat.core() == 0 {
                hold(rt, rig, seat, flags);
            } else {
                interrupt(rt, rig, seat, flags);
            }
        },
    );
}

fn hold(rt: &(impl Wait + Abort), rig: &Rig, seat: &mut CoreSeat, flags: &Flags)
    requires { IsSeatOf rig.now seat.old }
    ensures { IsSeatOf rig.now seat.new }
{
    assert_call(rt, rig, seat, Call::HoldOpen, at(0, Reply::Done));
    flags.open.store(true, Ordering::SeqCst);
    let in_time = is_set_in_time(&flags.interrupted);
    assert!(rt; in_time, "the interrupt waited for the hold");
    assert_call(rt, rig, seat, Call::HoldClose, at(2, Reply::Done));
}

fn interrupt(rt: &(impl Wait + Abort), rig: &Rig, seat: &mut CoreSeat, flags: &Flags)
    requires { IsSeatOf rig.now seat.old }
    ensures { IsSeatOf rig.now seat.new }
{
    let in_time = is_set_in_time(&flags.open);
    assert!(rt; in_time, "no hold was opened");
    assert_interrupt(rt, rig, seat, one_more(2), at(1, ISR));
    flags.interrupted.store(true, Ordering::SeqCst);
    assert_call(rt, rig, seat, Call::Yield, at(3, Reply::Done));
}
