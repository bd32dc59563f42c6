//! Threads that take the interrupt word in turn.
ghost use Rattle.std.specs.Prelude.{All, ◌<◌};
ghost use Rattle.rig_tests.specs.Use.{IsUsable};

use crate::locks::calls::{close, pair_of, record, share_of};
use crate::locks::log::Log;
use bench_types::MAX_CORES;
use port_locks::{LockPair, Seat};
use std::num::NonZeroUsize;
use std::process::Abort;
use std::sync::Wait;
use std::test::Fail;
use std::thread::{self, Threads};

#[test]
fn threads_record_in_turn(rt: HostRuntime) -> Result<(), Fail> {
    let processors = thread::available_parallelism(&rt).map_or(4, NonZeroUsize::get);
    check_turns(&rt, &rt, processors.min(MAX_CORES as usize) as u32, 100_000)
}

/// Some of the seats take one turn more than the others.
#[test]
fn the_most_seats_record_in_turn(rt: HostRuntime) -> Result<(), Fail> {
    check_turns(&rt, &rt, MAX_CORES, 10_000)
}

/// So many threads take so many turns together.
fn check_turns<R: Threads + Wait + Abort + Sync>(
    rt: &R,
    host: &HostRuntime,
    threads: u32,
    turns: u32,
) -> Result<(), Fail> {
    assert!(rt; 1 <= threads && threads <= MAX_CORES);
    let (pair, mut seats) = pair_of(host, threads, turns)?;
    take_turns(rt, &pair, &mut seats, threads, turns);
    close(rt, pair, seats, turns, threads);
    Ok(())
}

fn take_turns<R: Threads + Wait + Abort + Sync>(
    rt: &R,
    pair: &LockPair<Log>,
    seats: &mut [Seat<Log>],
    threads: u32,
    turns: u32,
)
    requires some { 0 < threads }
    requires usable { All (IsUsable pair.now) seats.old }
    ensures { All (IsUsable pair.now) seats.new }
{
    thread::for_each_mut(
        rt,
        seats,
        threads as usize,
        &|_, seat: &mut Seat<Log>|
            requires { (0 < threads) × IsUsable pair.now seat.now }
            ensures { IsUsable pair.entry.now seat.new }
        { take_own_turns(rt, pair, seat, threads, turns) },
    );
}

fn take_own_turns(
    rt: &(impl Wait + Abort),
    pair: &LockPair<Log>,
    seat: &mut Seat<Log>,
    threads: u32,
    turns: u32,
)
    requires some { 0 < threads }
    requires usable { IsUsable pair.now seat.old }
    ensures { IsUsable pair.now seat.new }
{
    for _ in 0..share_of(turns, seat.number(), threads) {
        record(rt, pair, seat);
    }
    assert!(rt; share_of(turns, seat.number(), threads) <= seat.seen());
}
