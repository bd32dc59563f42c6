//! The task lock and the interrupt lock, and the value that they keep.
ghost use Rattle.std.specs.Prelude.{◌≡◌, ◌<◌, ◌+◌, ◌-◌, ◌↔◌, Ok, Err, IsErr, OnOk, OnErr, MatchBool};
ghost use Rattle.bench_types.specs.Limits.{max_takes};
ghost use Rattle.port_locks.specs.Seats.{IsSeatOf, HasTaken, MayReturn, HasFreed, HasNoHold};
ghost use Rattle.port_locks.specs.declared.fault.TryFault.{TryFault};

use crate::kept::Kept;
use crate::rule::{FreeInterrupt, FreeTask, LockRule, Publish, TakeInterrupt, TakeTask};
use crate::seat::Seat;
use crate::view::{About, View};
use crate::{Deep, TryFault};
use atomic_table::Table;
use std::alloc::Global;
use std::marker::Model;
use std::sync::Wait;
use std::thread;

/// Two words that seats take over and over, one for tasks and one for interrupts, and a value that
/// the owner of the interrupt word has in hand.
#[derive(Drop)]
pub struct LockPair<V: Kept> {
    pub(crate) table: Table<Option<V>, View, About<V>, LockRule, Global>,
    pub(crate) cores: u32,
}

impl<V: Kept> Model for LockPair<V> {
    ghost use Rattle.std.specs.Prelude.{◌≡◌, ◌<◌};
    ghost use Rattle.port_locks.specs.Seats.{PairView};

    ghost Value = { PairView };

    ghost view = { λ pair. record {
      pair = pair.table.shared.table_id;
      terms = V.terms pair.table.shared.key.first.value;
      cores = pair.cores;
    } };

    ghost invariant = { λ pair. (pair.table.shared.table_id.words ≡ 3)
        × (pair.table.shared.table_id.slots ≡ 1) × (pair.table.shared.key.cores ≡ pair.cores)
        × (0 < pair.cores) };
}

impl<V: Kept> LockPair<V> {
    // One try at the interrupt word of a seat that does not own it.
    #[inline(always)]
    fn enter(&self, seat: &mut Seat<V>) -> bool
        requires own { IsSeatOf self.now seat.old }
        requires outside { seat.old.interrupt_depth ≡ 0 }
        ensures { MatchBool result (HasTaken V.terms V.list seat.old seat.new)
            (seat.new ≡ seat.old) }
    {
        let mark = u64::from(seat.number) + 1;
        let shared = &self.table.shared;
        if shared.compare_exchange::<TakeInterrupt>(&mut seat.inner, 1, 0, mark) != 0 {
            return false;
        }
        let Some(value) = shared.exchange(&mut seat.inner, 0, None) else {
            unreachable!()
        };
        seat.seen = value.entries();
        seat.value = Some(value);
        seat.interrupt_depth = 1;
        true
    }
    /// Takes the interrupt word, waiting until no other seat owns it. The first time over, the seat
    /// has the value in hand from then on. L2 where the seat has taken it
    /// [`MAX_TAKES`](bench_types::MAX_TAKES) times over.
    #[inline(always)]
    pub fn take_interrupt<R: Wait>(&self, rt: &R, seat: &mut Seat<V>) -> Result<(), Deep>
        requires own { IsSeatOf self.now seat.old }
        ensures deep { IsErr result ↔ (seat.old.interrupt_depth ≡ max_takes) }
        ensures unchanged { OnErr result (seat.new ≡ seat.old) }
        ensures nested { OnOk result (0 < seat.old.interrupt_depth
            → seat.new ≡ record seat.old { interrupt_depth = seat.old.interrupt_depth + 1 }) }
        ensures outermost { OnOk result (seat.old.interrupt_depth ≡ 0
            → HasTaken V.terms V.list seat.old seat.new) }
    {
        if seat.interrupt_depth > 0 {
            return seat.enter_nested();
        }
        for _ in rt.forever() {
            if self.enter(seat) {
                return Ok(());
            }
            thread::yield_now();
        }
        unreachable!()
    }

    /// Takes the interrupt word as [`LockPair::take_interrupt`] does, by a single try. L1 where
    /// another seat owned it at that moment.
    pub fn try_interrupt(&self, seat: &mut Seat<V>) -> Result<(), TryFault>
        requires own { IsSeatOf self.now seat.old }
        ensures busy { result ≡ Err TryFault.Busy → seat.old.interrupt_depth ≡ 0 }
        ensures deep { (result ≡ Err TryFault.Deep) ↔ (seat.old.interrupt_depth ≡ max_takes) }
        ensures unchanged { OnErr result (seat.new ≡ seat.old) }
        ensures nested { OnOk result (0 < seat.old.interrupt_depth
            → seat.new ≡ record seat.old { interrupt_depth = seat.old.interrupt_depth + 1 }) }
        ensures outermost { OnOk result (seat.old.interrupt_depth ≡ 0
            → HasTaken V.terms V.list seat.old seat.new) }
    {
        if seat.interrupt_depth > 0 {
            return seat.enter_nested().map_err(|_| TryFault::Deep);
        }
        if self.enter(seat) {
            Ok(())
        } else {
            Err(TryFault::Busy)
        }
    }

    /// Gives the interrupt word up once. With the last time the value goes back, its entries are
    /// published, and the word is free, in this order.
    #[inline(always)]
    pub fn free_interrupt(&self, seat: &mut Seat<V>)
        requires own { IsSeatOf self.now seat.old }
        requires taken { 0 < seat.old.interrupt_depth }
        requires returns { seat.old.interrupt_depth ≡ 1 → MayReturn V.terms V.list seat.old }
        ensures nested { 1 < seat.old.interrupt_depth
            → seat.new ≡ record seat.old { interrupt_depth = seat.old.interrupt_depth - 1 } }
        ensures outermost { seat.old.interrupt_depth ≡ 1 → HasFreed V.list seat.old seat.new }
    {
        if seat.interrupt_depth > 1 {
            seat.interrupt_depth -= 1;
        } else {
            self.leave(seat);
        }
    }

    #[inline(always)]
    fn leave(&self, seat: &mut Seat<V>)
        requires own { IsSeatOf self.now seat.old }
        requires last { seat.old.interrupt_depth ≡ 1 }
        requires returns { MayReturn V.terms V.list seat.old }
        ensures { HasFreed V.list seat.old seat.new }
    {
        let Some(value) = seat.value.take() else {
            unreachable!()
        };
        let entries = value.entries();
        let shared = &self.table.shared;
        shared.exchange(&mut seat.inner, 0, Some(value));
        shared.store::<Publish>(&mut seat.inner, 0, entries);
        shared.store::<FreeInterrupt>(&mut seat.inner, 1, 0);
        seat.seen = entries;
        seat.interrupt_depth = 0;
    }
    // One try at the task word of a seat that owns neither word.
    #[inline(always)]
    fn enter_task(&self, seat: &mut Seat<V>) -> bool
        requires own { IsSeatOf self.now seat.old }
        requires outside { (seat.old.task_depth ≡ 0) × (seat.old.interrupt_depth ≡ 0) }
        ensures { MatchBool result (seat.new ≡ record seat.old { task_depth = 1 })
            (seat.new ≡ seat.old) }
    {
        let mark = u64::from(seat.number) + 1;
        let shared = &self.table.shared;
        if shared.compare_exchange::<TakeTask>(&mut seat.inner, 2, 0, mark) != 0 {
            return false;
        }
        seat.task_depth = 1;
        true
    }

    /// Takes the task word, waiting until no other seat owns it. L2 where the seat has taken it
    /// [`MAX_TAKES`](bench_types::MAX_TAKES) times over.
    ///
    /// A seat takes the task word before the interrupt word.
    #[inline(always)]
    pub fn take_task<R: Wait>(&self, rt: &R, seat: &mut Seat<V>) -> Result<(), Deep>
        requires own { IsSeatOf self.now seat.old }
        requires before { seat.old.task_depth ≡ 0 → seat.old.interrupt_depth ≡ 0 }
        ensures deep { IsErr result ↔ (seat.old.task_depth ≡ max_takes) }
        ensures unchanged { OnErr result (seat.new ≡ seat.old) }
        ensures deeper { OnOk result
            (seat.new ≡ record seat.old { task_depth = seat.old.task_depth + 1 }) }
    {
        if seat.task_depth > 0 {
            return seat.enter_task_nested();
        }
        for _ in rt.forever() {
            if self.enter_task(seat) {
                return Ok(());
            }
            thread::yield_now();
        }
        unreachable!()
    }

    /// Gives the task word up once, and frees it with the last time: then the seat has no hold
    /// open, and does not own the interrupt word.
    #[inline(always)]
    pub fn free_task(&self, seat: &mut Seat<V>)
        requires own { IsSeatOf self.now seat.old }
        requires taken { 0 < seat.old.task_depth }
        requires last { seat.old.task_depth ≡ 1
            → (seat.old.interrupt_depth ≡ 0) × HasNoHold seat.old }
        ensures { seat.new ≡ record seat.old { task_depth = seat.old.task_depth - 1 } }
    {
        if seat.task_depth == 1 {
            self.table.shared.store::<FreeTask>(&mut seat.inner, 2, 0);
        }
        seat.task_depth -= 1;
    }
}
