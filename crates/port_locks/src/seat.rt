//! A core's seat at a lock pair.
ghost use Rattle.std.specs.Prelude.{◌≡◌, ◌<◌, ◌+◌, ◌↔◌, length, Some, IsErr, OnOk, OnErr};
ghost use Rattle.std.specs.Borrow.{sem};
ghost use Rattle.bench_types.specs.Limits.{max_takes};
ghost use Rattle.port_locks.specs.Lent.{LendsValue};

use crate::Deep;
use crate::kept::Kept;
use crate::view::View;
use bench_types::MAX_TAKES;
use std::marker::Model;

/// A core's seat at a lock pair.
#[derive(Drop)]
pub struct Seat<V: Kept> {
    pub(crate) inner: atomic_table::Seat<Option<V>, View>,
    pub(crate) number: u32,
    pub(crate) task_depth: u8,
    pub(crate) interrupt_depth: u8,
    /// How many entries it has seen.
    pub(crate) seen: u64,
    pub(crate) value: Option<V>,
}

impl<V: Kept> Model for Seat<V> {
    ghost use Rattle.port_locks.specs.Seats.{SeatView, IsSeated};

    ghost Value = { SeatView V };

    ghost view = { λ seat. record {
      pair = seat.inner.table_id;
      terms = seat.inner.me.0.terms;
      number = seat.number;
      task_depth = seat.task_depth;
      interrupt_depth = seat.interrupt_depth;
      seen = seat.inner.me.0.seen;
      made = seat.inner.me.0.made;
      value = seat.value;
    } };

    ghost invariant = { λ seat. IsSeated seat.inner.me.0 seat.inner.me.1 seat.number
        seat.task_depth seat.interrupt_depth seat.seen seat.value };
}

impl<V: Kept> Seat<V> {
    /// The core's number.
    pub fn number(&self) -> u32
        ensures { result ≡ self.now.number }
    {
        self.number
    }

    /// How many times over it has taken the task word.
    pub fn task_depth(&self) -> u8
        ensures { result ≡ self.now.task_depth }
    {
        self.task_depth
    }

    /// How many times over it has taken the interrupt word.
    pub fn interrupt_depth(&self) -> u8
        ensures { result ≡ self.now.interrupt_depth }
    {
        self.interrupt_depth
    }

    /// How many entries it has seen.
    pub fn seen(&self) -> u64
        ensures { result ≡ length self.now.seen }
    {
        self.seen
    }

    /// The value, which the owner of the interrupt word has in hand.
    pub fn value(&mut self) -> &mut V
        requires { 0 < self.old.interrupt_depth }
        ensures* writes_back { sem 𝓛 (LendsValue V.row V.Kept self.entry result) }
        ensures value { self.old.value ≡ Some result.now }
    {
        match &mut self.value {
            Some(value) => value,
            None => unreachable!(),
        }
    }

    // The interrupt word once more, of the seat that owns it.
    pub(crate) fn enter_nested(&mut self) -> Result<(), Deep>
        requires inside { 0 < self.old.interrupt_depth }
        ensures deep { IsErr result ↔ (self.old.interrupt_depth ≡ max_takes) }
        ensures unchanged { OnErr result (self.new ≡ self.old) }
        ensures deeper { OnOk result
            (self.new ≡ record self.old { interrupt_depth = self.old.interrupt_depth + 1 }) }
    {
        if self.interrupt_depth == MAX_TAKES {
            return Err(Deep);
        }
        self.interrupt_depth += 1;
        Ok(())
    }

    // The task word once more, of the seat that owns it.
    pub(crate) fn enter_task_nested(&mut self) -> Result<(), Deep>
        requires inside { 0 < self.old.task_depth }
        ensures deep { IsErr result ↔ (self.old.task_depth ≡ max_takes) }
        ensures unchanged { OnErr result (self.new ≡ self.old) }
        ensures deeper { OnOk result
            (self.new ≡ record self.old { task_depth = self.old.task_depth + 1 }) }
    {
        if self.task_depth == MAX_TAKES {
            return Err(Deep);
        }
        self.task_depth += 1;
        Ok(())
    }
}
