//! Closing a lock pair.
ghost use Rattle.std.specs.Prelude.{◌≡◌, ◌<◌, ◌↔◌, [], false, All, length, vec_len, Ok, Err, IfOk, IfErr, OnOk};
ghost use Rattle.bench_model.specs.History.{IsLegal};
ghost use Rattle.port_locks.specs.Holds.{hold_after};
ghost use Rattle.port_locks.specs.Seats.{IsSeatOf};
ghost use Rattle.port_locks.specs.declared.fault.CloseFault.{CloseFault};
ghost use Rattle.port_locks.specs.Closing.{IsFree, Knows, HasAllNumbers, HasEachOnce, IsEndOf, HasNoOthers, has_number, has_all_numbers, are_free, close_check};

use crate::CloseFault;
use crate::kept::Kept;
use crate::pair::LockPair;
use crate::rule::Gather;
use crate::seat::Seat;
use crate::view::View;
use bench_types::Items;

impl<V: Kept> LockPair<V> {
    // One seat of the table that was told what all of them saw and made.
    fn join_all(&self, mut seats: Vec<Seat<V>>) -> atomic_table::Seat<Option<V>, View>
        requires own { All (IsSeatOf self.now) seats.items }
        requires free { All IsFree seats.items }
        requires some { 0 < vec_len seats }
        ensures own { result.table_id ≡ self.now.pair }
        ensures free { (result.me.0.spent ≡ false) × (result.me.0.owns_interrupt ≡ false)
            × (result.me.0.owns_task ≡ false) }
        ensures all { All (λ seat. Knows result.me.0 seat.number seat.seen seat.made) seats.items }
    {
        let Some(last) = seats.pop() else {
            unreachable!()
        };
        let mut all = last.inner;
        while let Some(seat) = seats.pop() {
            let Seat { inner, .. } = seat;
            self.table.shared.join_seat::<Gather>(&mut all, inner);
        }
        all
    }

    // The value, once all seats are free.
    fn end(self, seats: Vec<Seat<V>>) -> V
        requires own { All (IsSeatOf self) seats.items }
        requires free { All IsFree seats.items }
        requires all { HasAllNumbers self.cores seats.items }
        requires some { 0 < vec_len seats }
        ensures terms { V.terms result ≡ self.terms }
        ensures legal { IsLegal self.terms.header (V.list result) }
        ensures seats { All (IsEndOf (V.list result)) seats.items }
        ensures no_hold { hold_after self.terms.header (V.list result) ≡ None }
        ensures no_others { HasNoOthers self.cores (V.list result) }
    {
        let all = self.join_all(seats);
        let mut closed = self.table.close_with(all);
        let Some(value) = closed.take(0) else {
            unreachable!()
        };
        closed.free();
        value
    }

    /// Takes the pair apart, once each of its seats is back and owns neither word: what is left is
    /// the value, with no hold open. L4 before L3; a refusal hands the pair and the seats back.
    pub fn close(self, seats: Vec<Seat<V>>) -> Result<V, PairRefused<V>>
        requires own { All (IsSeatOf self) seats.items }
        ensures refused { IfErr result (λ refused. (refused.pair ≡ self)
            × (refused.seats ≡ seats.items)
            × (close_check self.cores seats.items ≡ Err refused.why)) }
        ensures closed { OnOk result (close_check self.cores seats.items ≡ Ok tt) }
        ensures each_once { OnOk result (HasEachOnce self.cores seats.items) }
        ensures wrong_seats { IfErr result (λ refused. (refused.why ≡ CloseFault.WrongSeats)
            ↔ ¬ HasEachOnce self.cores seats.items) }
        ensures terms { IfOk result (λ value. V.terms value ≡ self.terms) }
        ensures legal { IfOk result (λ value. IsLegal self.terms.header (V.list value)) }
        ensures seats { IfOk result (λ value. All (IsEndOf (V.list value)) seats.items) }
        ensures no_hold { IfOk result
            (λ value. hold_after self.terms.header (V.list value) ≡ None) }
        ensures no_others { IfOk result (λ value. HasNoOthers self.cores (V.list value)) }
    {
        match close_fault(self.cores, seats.as_slice()) {
            Ok(()) => Ok(self.end(seats)),
            Err(why) => Err(PairRefused {
                pair: self,
                seats: Items::new(seats),
                why,
            }),
        }
    }
}

/// A pair that was not closed, with its seats.
#[derive(Drop)]
pub struct PairRefused<V: Kept> {
    pub pair: LockPair<V>,
    pub seats: Items<Seat<V>>,
    pub why: CloseFault,
}

fn is_there<V: Kept>(seats: &[Seat<V>], number: u32) -> bool
    ensures { result ≡ has_number number seats.now }
{
    seats.iter().any(|seat| seat.number() == number)
}

fn are_all_there<V: Kept>(seats: &[Seat<V>], cores: u32) -> bool
    ensures { result ≡ has_all_numbers cores seats.now }
{
    (0..cores).all(|number| is_there(seats, number))
}

fn are_all_free<V: Kept>(seats: &[Seat<V>]) -> bool
    ensures { result ≡ are_free seats.now }
{
    seats.iter().all(|seat| seat.task_depth() == 0 && seat.interrupt_depth() == 0)
}

fn close_fault<V: Kept>(cores: u32, seats: &[Seat<V>]) -> Result<(), CloseFault>
    ensures { result ≡ close_check cores seats.now }
{
    if seats.len() != cores as usize || !are_all_there(seats, cores) {
        return Err(CloseFault::WrongSeats);
    }
    if !are_all_free(seats) {
        return Err(CloseFault::Owned);
    }
    Ok(())
}
