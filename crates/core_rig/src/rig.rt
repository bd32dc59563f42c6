//! A kernel that core threads call side by side.
ghost use Rattle.std.specs.Prelude.{◌≡◌, ◌<◌, ◌≤◌, ◌↔◌, ℕ, length, map, sum_by, true, [], vec_len, vec_capacity, All, Ok, Err, IfOk, IfErr, OnOk, IsErr, None};
ghost use Rattle.list_orders.specs.Search.{numbers};
ghost use Rattle.bench_types.specs.Header.{header_check};
ghost use Rattle.bench_types.specs.Limits.{max_cores, max_steps};
ghost use Rattle.bench_types.specs.Session.{IsSession};
ghost use Rattle.bench_model.specs.History.{made_by, steps_of, AreByCurrent, IsLegal};
ghost use Rattle.port_locks.specs.Holds.{hold_after};
ghost use Rattle.core_rig.specs.declared.fault.RigFault.TheVariants.{BadHeader, BadLimit};
ghost use Rattle.core_rig.specs.Closing.{HasEachOnce, IsEndOf, close_check, counts, has_all_cores, has_core, hold_nothing};
ghost use Rattle.core_rig.specs.Resting.{IsOwn, at_rest};
ghost use Rattle.core_rig.specs.Seats.{IsSeatOf, depth_at, new_seat};

use crate::fault::{CloseFault, RigFault};
use crate::recorded::{ROOM, Recorded};
use crate::room::SeatRoom;
use crate::seat::CoreSeat;
use arrayvec::ArrayVec;
use bench_types::{Entry, Header, Items, MAX_STEPS};
use port_locks::{LockPair, Seat};
use recordings::Recording;
use smp_kernel::Meter;
use std::alloc::Global;
use std::marker::Model;
use std::sync::Mutex;

/// A kernel that the threads of its cores call side by side, each with its own seat, and what they
/// did with it.
pub struct Rig {
    pub(crate) pair: LockPair<Recording>,
    pub(crate) header: Header,
    /// So that to close the rig takes no memory. It is in a mutex, which is never locked, since a
    /// rig is shared and a list of seats can't be.
    room: Mutex<SeatRoom>,
}

// Written out, so that whoever drops one has one call to prove, and not one for each list in it.
impl Drop for Rig {
    fn drop(self) {
        let Rig {
            pair: _,
            header: _,
            room: _,
        } = self;
    }
}

impl Model for Rig {
    ghost use Rattle.port_locks.specs.Seats.{PairView};
    ghost use Rattle.core_rig.specs.Rigs.{IsRig};

    ghost Value = { PairView };

    ghost view = { λ rig. rig.pair };

    ghost invariant = { λ rig. IsRig rig.pair rig.header };
}

impl Rig {
    /// A rig of the header's cores, with a seat for each of them, in their order, and room for
    /// `limit` entries. It takes all the memory that it will ever have.
    ///
    /// F1 where the header is at fault, else F5 where the limit is over [`MAX_STEPS`], and else
    /// only memory can be wanting.
    #[tactic(auto, using(bench_types::proofs::Passes::checked_header))]
    pub fn new(
        rt: &HostRuntime,
        alloc: Global,
        header: &Header,
        limit: u32,
    ) -> Result<(Rig, Vec<CoreSeat>), RigFault>
        ensures bad_header { (result ≡ Err BadHeader) ↔ IsErr (header_check header.now) }
        ensures bad_limit { (result ≡ Err BadLimit)
            ↔ ((header_check header.now ≡ Ok tt) × (max_steps < limit)) }
        ensures rig { IfOk result (λ made.
            (made.0.terms ≡ record { header = header.now; limit = limit })
            × (made.0.cores ≡ header.now.config.cores)) }
        ensures seats { IfOk result (λ made.
            made.1.items ≡ map (new_seat made.0) (numbers made.0.cores)) }
    {
        header.check().map_err(|_| RigFault::BadHeader)?;
        if limit > MAX_STEPS {
            return Err(RigFault::BadLimit);
        }
        let Ok(recording) = Recording::new(alloc, Meter::new(rt), header, limit) else {
            return Err(RigFault::NoMemory);
        };
        let header = header.copy(alloc)?;
        let (pair, inner) = LockPair::new(alloc, header.config.cores, recording)?;
        let room = SeatRoom::new(alloc)?;
        let seats = CoreSeat::all(alloc, inner)?;
        Ok((
            Rig {
                pair,
                header,
                room: Mutex::new(room),
            },
            seats,
        ))
    }

    /// Ends the recording, once the seat of each core is back and no core holds the kernel: G6
    /// before G5. A refusal hands the rig and the seats back. It takes no memory.
    pub fn close(self, seats: Vec<CoreSeat>) -> Result<Recorded, CloseRefused>
        requires own { All (IsSeatOf self) seats.items }
        ensures refused { IfErr result (λ refused. (refused.rig ≡ self)
            × (refused.seats ≡ seats.items)
            × (close_check self.cores seats.items ≡ Err refused.why)) }
        ensures closed { OnOk result (close_check self.cores seats.items ≡ Ok tt) }
        ensures each_once { OnOk result (HasEachOnce self.cores seats.items) }
        ensures wrong_seats { IfErr result (λ refused. (refused.why ≡ CloseFault.WrongSeats)
            ↔ ¬ HasEachOnce self.cores seats.items) }
        ensures header { IfOk result (λ it. it.header ≡ self.terms.header) }
        // So it can be written and read, and a store opens it.
        ensures session { IfOk result (λ it.
            IsSession (record { header = it.header; steps = steps_of it.entries })) }
        ensures legal { IfOk result (λ it. IsLegal it.header it.entries) }
        ensures current { IfOk result (λ it. AreByCurrent it.header it.entries) }
        ensures few { IfOk result (λ it. length it.entries ≤ self.terms.limit) }
        ensures fits_store { IfOk result (λ it. length it.entries ≤ max_steps) }
        ensures seats { IfOk result (λ it. All (IsEndOf it.entries) seats.items) }
        ensures unheld { IfOk result (λ it. hold_after it.header it.entries ≡ None) }
        ensures made { IfOk result (λ it. it.made.items ≡ counts self.cores it.entries) }
        ensures all_made { IfOk result (λ it.
            sum_by (λ n. n) it.made.items ≡ length it.entries) }
    {
        match close_fault(self.header.config.cores, seats.as_slice()) {
            Ok(()) => Ok(self.end(seats)),
            Err(why) => Err(CloseRefused {
                rig: self,
                seats: Items::new(seats),
                why,
            }),
        }
    }

    // The end of a rig whose seats are all there, while no core holds the kernel.
    #[tactic(auto, using(bench_types::proofs::Passes::checked_header))]
    fn end(self, seats: Vec<CoreSeat>) -> Recorded
        requires own { All (IsSeatOf self) seats.items }
        requires all { close_check self.cores seats.items ≡ Ok tt }
        ensures header { result.header ≡ self.terms.header }
        ensures session { IsSession
            (record { header = result.header; steps = steps_of result.entries }) }
        ensures legal { IsLegal result.header result.entries }
        ensures current { AreByCurrent result.header result.entries }
        ensures few { length result.entries ≤ self.terms.limit }
        ensures fits_store { length result.entries ≤ max_steps }
        ensures seats { All (IsEndOf result.entries) seats.items }
        ensures unheld { hold_after result.header result.entries ≡ None }
        ensures made { result.made.items ≡ counts self.cores result.entries }
        ensures all_made { sum_by (λ n. n) result.made.items ≡ length result.entries }
    {
        let Rig {
            pair,
            header: _,
            room,
        } = self;
        let mut inner = room.into_inner().into_list();
        move_all(seats, &mut inner);
        let Ok(recording) = pair.close(inner) else {
            unreachable!()
        };
        let (header, entries) = recording.into_parts();
        let made = count_by_core(header.config.cores, entries.as_slice());
        Recorded {
            header,
            entries: Items::new(entries),
            made,
        }
    }
}

/// A rig that was not closed, with its seats.
#[derive(Drop)]
pub struct CloseRefused {
    pub rig: Rig,
    pub seats: Items<CoreSeat>,
    pub why: CloseFault,
}

// The seats at the lock pair, into the room that there is for them.
fn move_all(seats: Vec<CoreSeat>, room: &mut Vec<Seat<Recording>>)
    requires rest { All (λ seat. depth_at seat ≡ 0) seats.items }
    requires none { room.old.items ≡ [] }
    requires room { vec_len seats ≤ vec_capacity room.old }
    ensures moved { room.new.items ≡ map at_rest seats.items }
    ensures own { All IsOwn seats.items }
{
    for seat in seats {
        room.push_reserved(seat.seat);
    }
}

fn count_by_core(cores: u32, entries: &[Entry]) -> ArrayVec<u64, ROOM>
    requires { cores ≤ max_cores }
    ensures { result.items ≡ counts cores entries.now }
{
    let mut counts = ArrayVec::new();
    for core in 0..cores {
        counts.push(count_of(core, entries));
    }
    counts
}

fn count_of(core: u32, entries: &[Entry]) -> u64
    ensures { result ≡ length (made_by core entries.now) }
{
    entries.iter().filter(|entry| entry.core == core).count() as u64
}

fn has_core(seats: &[CoreSeat], core: u32) -> bool
    ensures { result ≡ has_core core seats.now }
{
    seats.iter().any(|seat| seat.core() == core)
}

fn has_all_cores(seats: &[CoreSeat], cores: u32) -> bool
    ensures { result ≡ has_all_cores cores seats.now }
{
    (0..cores).all(|core| has_core(seats, core))
}

fn hold_nothing(seats: &[CoreSeat]) -> bool
    ensures { result ≡ hold_nothing seats.now }
{
    seats.iter().all(|seat| seat.depth() == 0)
}

fn close_fault(cores: u32, seats: &[CoreSeat]) -> Result<(), CloseFault>
    ensures { result ≡ close_check cores seats.now }
{
    if seats.len() != cores as usize || !has_all_cores(seats, cores) {
        return Err(CloseFault::WrongSeats);
    }
    if !hold_nothing(seats) {
        return Err(CloseFault::HoldOpen);
    }
    Ok(())
}
