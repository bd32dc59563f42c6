//! Rigs of tests, and the ends of them.
ghost use Rattle.std.specs.Prelude.{◌≡◌, ◌<◌, vec_len, vec_capacity, All, IfOk};
ghost use Rattle.core_rig.specs.Seats.{IsSeatOf};

use crate::checks::assert_same;
use bench_samples::{header_of, three_tasks};
use bench_types::{Config, Header};
use core_rig::{CloseFault, CoreSeat, Recorded, Rig};
use std::alloc::Global;
use std::process::Abort;
use std::test::Fail;

/// A header of one task, A. It is not checked.
pub fn one_task(alloc: Global, config: Config, priority: u32, mask: u32) -> Result<Header, Fail> {
    Ok(header_of(alloc, config, &[("A", priority, mask)])?)
}

/// A rig of A (of priority 2), B and C (of priority 1) on two cores, which are tasks 2, 3 and 4. A
/// begins on core 0 and B on core 1.
pub fn rig_of(rt: &HostRuntime, limit: u32) -> Result<(Rig, Vec<CoreSeat>), Fail>
    ensures { IfOk result (λ made. All (IsSeatOf made.0) made.1.items) }
{
    let header = three_tasks(rt.alloc(), false)?;
    rig_over(rt, &header, limit)
}

pub fn rig_over(rt: &HostRuntime, header: &Header, limit: u32) -> Result<(Rig, Vec<CoreSeat>), Fail>
    ensures { IfOk result (λ made. All (IsSeatOf made.0) made.1.items) }
{
    Ok(Rig::new(rt, rt.alloc(), header, limit)?)
}

/// The last of the seats, which is taken out.
pub fn taken(rt: &impl Abort, rig: &Rig, seats: &mut Vec<CoreSeat>) -> CoreSeat
    requires { All (IsSeatOf rig.now) seats.old.items }
    ensures seat { IsSeatOf rig.now result }
    ensures rest { All (IsSeatOf rig.now) seats.new.items }
{
    seats.pop().expect(rt, "a seat")
}

/// Puts a seat that was taken back, as the last.
pub fn put_back(rt: &impl Abort, rig: &Rig, seats: &mut Vec<CoreSeat>, seat: CoreSeat)
    requires seat { IsSeatOf rig.now seat }
    requires rest { All (IsSeatOf rig.now) seats.old.items }
    ensures { All (IsSeatOf rig.now) seats.new.items }
{
    check_room(rt, seats);
    seats.push_reserved(seat);
}

// Apart from `put_back`, which would have to drop its seat.
fn check_room(rt: &impl Abort, seats: &Vec<CoreSeat>)
    ensures { vec_len seats.now < vec_capacity seats.now }
{
    assert!(rt; seats.len() < seats.capacity());
}

/// Two seats in the other order.
pub fn turn(rt: &impl Abort, rig: &Rig, seats: &mut Vec<CoreSeat>)
    requires { All (IsSeatOf rig.now) seats.old.items }
    ensures { All (IsSeatOf rig.now) seats.new.items }
{
    let last = taken(rt, rig, seats);
    let first = taken(rt, rig, seats);
    put_back(rt, rig, seats, last);
    put_back(rt, rig, seats, first);
}

/// What is handed back where the rig is not closed, for that reason.
pub fn refused(
    rt: &impl Abort,
    rig: Rig,
    seats: Vec<CoreSeat>,
    why: CloseFault,
) -> (Rig, Vec<CoreSeat>)
    requires { All (IsSeatOf rig) seats.items }
    ensures rig { result.0 ≡ rig }
    ensures seats { All (IsSeatOf rig) result.1.items }
{
    match rig.close(seats) {
        Ok(_) => panic!(rt; "the rig was closed"),
        Err(refused) => {
            assert_same(rt, "refusal", &refused.why, &why);
            (refused.rig, refused.seats.into_vec())
        }
    }
}

/// The rig and its seats, which is not closed without the last of them.
pub fn one_missing(rt: &impl Abort, rig: Rig, mut seats: Vec<CoreSeat>) -> (Rig, Vec<CoreSeat>)
    requires { All (IsSeatOf rig) seats.items }
    ensures rig { result.0 ≡ rig }
    ensures seats { All (IsSeatOf rig) result.1.items }
{
    let last = taken(rt, &rig, &mut seats);
    let (rig, mut seats) = refused(rt, rig, seats, CloseFault::WrongSeats);
    put_back(rt, &rig, &mut seats, last);
    (rig, seats)
}

/// What the cores of the rig did, which is closed.
pub fn closed(rt: &impl Abort, rig: Rig, seats: Vec<CoreSeat>) -> Recorded
    requires { All (IsSeatOf rig) seats.items }
{
    match rig.close(seats) {
        Ok(recorded) => recorded,
        Err(refused) => panic!(rt; "refused with {}", refused.why),
    }
}
