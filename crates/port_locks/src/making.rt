//! Making a lock pair with its seats.
ghost use Rattle.std.specs.Prelude.{◌≡◌, ◌≤◌, ◌<◌, ℕ, [], IfOk, map, None};
ghost use Rattle.list_orders.specs.Search.{numbers};
ghost use Rattle.bench_types.specs.Limits.{max_cores};
ghost use Rattle.port_locks.specs.Made.{new_seat};
ghost use Rattle.port_locks.specs.Steps.{seated};

use crate::kept::Kept;
use crate::pair::LockPair;
use crate::rule::{LockRule, Number};
use crate::seat::Seat;
use crate::view::{About, View};
use atomic_table::Table;
use std::alloc::{AllocError, Global};
use std::snapshot::Snapshot;

fn seat_over<V: Kept>(inner: atomic_table::Seat<Option<V>, View>, number: u32) -> Seat<V>
    requires { (given : ℕ) × (inner.me ≡ (seated inner.me.0.terms number given, [])) }
    ensures { result ≡ new_seat
        (record { pair = inner.table_id; terms = inner.me.0.terms; cores = 0 }) number }
{
    Seat {
        inner,
        number,
        task_depth: 0,
        interrupt_depth: 0,
        seen: 0,
        value: None,
    }
}

fn pair_over<V: Kept>(
    table: Table<Option<V>, View, About<V>, LockRule, Global>,
    cores: u32,
) -> LockPair<V>
    requires { (table.shared.table_id.words ≡ 3) × (table.shared.table_id.slots ≡ 1)
        × (table.shared.key.cores ≡ cores) × (0 < cores) }
    ensures { result ≡ record {
      pair = table.shared.table_id;
      terms = V.terms table.shared.key.first.value;
      cores = cores;
    } }
{
    LockPair { table, cores }
}

impl<V: Kept> LockPair<V> {
    // The seats, in the order of their cores.
    fn seats(
        &self,
        alloc: Global,
        mut first: atomic_table::Seat<Option<V>, View>,
    ) -> Result<Vec<Seat<V>>, AllocError>
        requires own { first.table_id ≡ self.now.pair }
        requires new { first.me ≡ (seated self.now.terms 0 1, []) }
        requires cores { 1 ≤ self.now.cores }
        ensures { IfOk result
            (λ seats. seats.items ≡ map (new_seat self.now) (numbers self.now.cores)) }
    {
        let mut seats = Vec::new(alloc);
        for number in 1..self.cores {
            let inner = self.table.shared.split_seat::<Number>(&mut first);
            seats.push(seat_over(inner, number))?;
        }
        seats.insert(0, seat_over(first, 0))?;
        Ok(seats)
    }

    /// A pair over a value, with a seat for each core, in their order. Where memory is wanting, the
    /// value is dropped.
    pub fn new(
        alloc: Global,
        cores: u32,
        value: V,
    ) -> Result<(LockPair<V>, Vec<Seat<V>>), AllocError>
        requires cores { (1 ≤ cores) × (cores ≤ max_cores) }
        requires empty { V.list value ≡ [] }
        ensures pair { IfOk result
            (λ made. (made.0.terms ≡ V.terms value) × (made.0.cores ≡ cores)) }
        ensures seats { IfOk result
            (λ made. made.1.items ≡ map (new_seat made.0) (numbers cores)) }
    {
        let about = About {
            first: Snapshot::of(&value),
            cores,
        };
        let mut slots = Vec::new(alloc);
        slots.push(Some(value))?;
        let Ok((table, first)) = Table::new(alloc, &[0, 0, 0], slots, &about) else {
            return Err(AllocError);
        };
        let pair = pair_over(table, cores);
        let seats = pair.seats(alloc, first)?;
        Ok((pair, seats))
    }
}
