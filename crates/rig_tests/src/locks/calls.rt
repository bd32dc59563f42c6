//! Pairs of tests, and calls of them that have to succeed.
ghost use Rattle.std.specs.Prelude.{◌≡◌, ◌+◌, ◌<◌, ◌≤◌, vec_len, vec_capacity, All, IfOk};
ghost use Rattle.bench_types.specs.Limits.{max_cores};
ghost use Rattle.rig_tests.specs.Use.{IsUsable};

use crate::checks::assert_same;
use crate::locks::log::Log;
use port_locks::{CloseFault, Kept, LockPair, Seat};
use std::process::Abort;
use std::sync::Wait;
use std::test::Fail;

/// A pair with so many seats, over an empty log with room for `limit` entries.
pub fn pair_of(
    rt: &HostRuntime,
    seats: u32,
    limit: u32,
) -> Result<(LockPair<Log>, Vec<Seat<Log>>), Fail>
    requires { (1 ≤ seats) × (seats ≤ max_cores) }
    ensures { IfOk result (λ made. All (IsUsable made.0) made.1.items) }
{
    let log = Log::new(rt, limit)?;
    Ok(LockPair::new(rt.alloc(), seats, log)?)
}

/// Takes the interrupt word so many times.
pub fn take(rt: &(impl Wait + Abort), pair: &LockPair<Log>, seat: &mut Seat<Log>, times: u32)
    requires { IsUsable pair.now seat.old }
    ensures { IsUsable pair.now seat.new }
{
    for _ in 0..times {
        take_once(rt, pair, seat);
    }
}

pub fn take_once(rt: &(impl Wait + Abort), pair: &LockPair<Log>, seat: &mut Seat<Log>)
    requires { IsUsable pair.now seat.old }
    ensures usable { IsUsable pair.now seat.new }
    ensures deeper { seat.new.interrupt_depth ≡ seat.old.interrupt_depth + 1 }
{
    let answer = pair.take_interrupt(rt, seat);
    assert_eq!(rt; answer, Ok(()));
}

/// Frees the interrupt word so many times.
pub fn free(rt: &impl Abort, pair: &LockPair<Log>, seat: &mut Seat<Log>, times: u32)
    requires { IsUsable pair.now seat.old }
    ensures { IsUsable pair.now seat.new }
{
    for _ in 0..times {
        assert!(rt; 0 < seat.interrupt_depth());
        free_once(pair, seat);
    }
}

pub fn free_once(pair: &LockPair<Log>, seat: &mut Seat<Log>)
    requires usable { IsUsable pair.now seat.old }
    requires taken { 0 < seat.old.interrupt_depth }
    ensures usable { IsUsable pair.now seat.new }
    ensures shallower { seat.new.interrupt_depth + 1 ≡ seat.old.interrupt_depth }
{
    pair.free_interrupt(seat);
}

/// Takes the interrupt word, records an interrupt of the seat's core, and frees the word.
pub fn record(rt: &(impl Wait + Abort), pair: &LockPair<Log>, seat: &mut Seat<Log>)
    requires { IsUsable pair.now seat.old }
    ensures { IsUsable pair.now seat.new }
{
    take_once(rt, pair, seat);
    let core = seat.number();
    seat.value().interrupt(rt, core);
    free_once(pair, seat);
}

/// Takes the task word, which the seat has to be able to, so many times.
pub fn take_task(rt: &(impl Wait + Abort), pair: &LockPair<Log>, seat: &mut Seat<Log>, times: u32)
    requires { IsUsable pair.now seat.old }
    ensures { IsUsable pair.now seat.new }
{
    for _ in 0..times {
        assert_eq!(rt; seat.interrupt_depth(), 0);
        let answer = pair.take_task(rt, seat);
        assert_eq!(rt; answer, Ok(()));
    }
}

/// Frees the task word so many times.
pub fn free_task(rt: &impl Abort, pair: &LockPair<Log>, seat: &mut Seat<Log>, times: u32)
    requires { IsUsable pair.now seat.old }
    ensures { IsUsable pair.now seat.new }
{
    for _ in 0..times {
        assert!(rt; 0 < seat.task_depth());
        assert_eq!(rt; seat.interrupt_depth(), 0);
        pair.free_task(seat);
    }
}

/// The last of the seats, which is taken out.
pub fn taken(rt: &impl Abort, pair: &LockPair<Log>, seats: &mut Vec<Seat<Log>>) -> Seat<Log>
    requires { All (IsUsable pair.now) seats.old.items }
    ensures seat { IsUsable pair.now result }
    ensures rest { All (IsUsable pair.now) seats.new.items }
{
    seats.pop().expect(rt, "a seat")
}

/// Puts a seat that was taken back, as the last.
pub fn put_back(rt: &impl Abort, pair: &LockPair<Log>, seats: &mut Vec<Seat<Log>>, seat: Seat<Log>)
    requires seat { IsUsable pair.now seat }
    requires rest { All (IsUsable pair.now) seats.old.items }
    ensures { All (IsUsable pair.now) seats.new.items }
{
    check_room(rt, seats);
    seats.push_reserved(seat);
}

// Apart from `put_back`, which would have to drop its seat.
fn check_room(rt: &impl Abort, seats: &Vec<Seat<Log>>)
    ensures { vec_len seats.now < vec_capacity seats.now }
{
    assert!(rt; seats.len() < seats.capacity());
}

/// What is handed back where the pair is not closed, for that reason.
pub fn refused(
    rt: &impl Abort,
    pair: LockPair<Log>,
    seats: Vec<Seat<Log>>,
    why: CloseFault,
) -> (LockPair<Log>, Vec<Seat<Log>>)
    requires { All (IsUsable pair) seats.items }
    ensures pair { result.0 ≡ pair }
    ensures seats { All (IsUsable pair) result.1.items }
{
    match pair.close(seats) {
        Ok(_) => panic!(rt; "the pair was closed"),
        Err(refused) => {
            assert_same(rt, "refusal", &refused.why, &why);
            (refused.pair, refused.seats.into_vec())
        }
    }
}

/// Closes the pair, whose log has so many entries then, a share of each thread.
pub fn close(rt: &impl Abort, pair: LockPair<Log>, seats: Vec<Seat<Log>>, turns: u32, threads: u32)
    requires own { All (IsUsable pair) seats.items }
    requires some { 0 < threads }
{
    match pair.close(seats) {
        Ok(log) => check_entries(rt, &log, turns, threads),
        Err(refused) => panic!(rt; "refused with {}", refused.why),
    }
}

fn check_entries(rt: &impl Abort, log: &Log, turns: u32, threads: u32)
    requires { 0 < threads }
{
    assert_same(rt, "entries", &log.entries(), &u64::from(turns));
    assert_same(rt, "holder", &log.holder(), &None);
    for thread in 0..threads {
        check_share(rt, log, thread, share_of(turns, thread, threads));
    }
}

fn check_share(rt: &impl Abort, log: &Log, thread: u32, share: u64) {
    assert_eq!(rt; log.made_by(thread) as u64, share, "of {thread}");
}

/// How many of the turns the thread takes.
pub fn share_of(turns: u32, thread: u32, threads: u32) -> u64
    requires { 0 < threads }
{
    u64::from(turns / threads) + u64::from(thread < turns % threads)
}
