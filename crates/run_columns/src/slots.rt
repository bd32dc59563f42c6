//! Columns by slots: where a slot begins in two runs, it begins at one column.
ghost use Rattle.std.specs.Prelude.{◌≡◌, ◌+◌, ◌<◌, ◌≤◌, ◌^◌, IfOk, length, map, max, slice_index_or, suc};
ghost use Rattle.list_orders.specs.Search.{numbers};
ghost use Rattle.bench_types.specs.Limits.{max_steps};
ghost use Rattle.run_columns.specs.SlotColumns.{at_or_last, places_in, slot_column, slot_columns, AreLinedUp, AreSlots};
ghost use Rattle.run_columns.specs.TimeSlots.{tick_columns, tick_slots, time_columns, time_slots, times_of};

use crate::times::{slots_of, span_of, times_of};
use bench_types::{Items, Step};
use std::alloc::{AllocError, Global};

/// The columns at which the places of two runs begin, and behind them those of their ends.
#[derive(Debug, Drop)]
pub struct RunColumns {
    pub before: Items<u32>,
    pub after: Items<u32>,
}

// The slot of the last place.
fn last_slot(slots: &[u32]) -> usize
    requires { 0 < length slots.now }
    ensures { result ≡ at_or_last slots.now (length slots.now) }
{
    slots[slots.len() - 1] as usize
}

// How many slots there are up to the last place of either run.
fn slots_in(slots: &[u32], later: &[u32]) -> usize
    requires slots { 0 < length slots.now }
    requires later { 0 < length later.now }
    ensures { result ≡ suc (max (at_or_last slots.now (length slots.now))
        (at_or_last later.now (length later.now))) }
{
    last_slot(slots).max(last_slot(later)) + 1
}

// How many places are in each of the first slots.
fn slot_counts(alloc: Global, count: usize, slots: &[u32]) -> Result<Vec<u32>, AllocError>
    requires slots { AreSlots slots.now }
    requires low { at_or_last slots.now (length slots.now) < count }
    ensures { IfOk result
        (λ counts. counts.items ≡ map (places_in slots.now) (numbers count)) }
{
    let mut counts = vec![in alloc; 0; count]?;
    for slot in slots {
        counts[*slot as usize] += 1;
    }
    Ok(counts)
}

// The greater of both counts, and 1 where both are 0.
fn width_at(counts: &[u32], more: &[u32], slot: usize) -> u32
    requires counts { slot < length counts.now }
    requires more { slot < length more.now }
    ensures { result ≡ max 1 (max (slice_index_or counts.now slot 0)
        (slice_index_or more.now slot 0)) }
{
    counts[slot].max(more[slot]).max(1)
}

// The first column of each slot up to the last place of either run.
fn slot_starts(alloc: Global, slots: &[u32], later: &[u32]) -> Result<Vec<u32>, AllocError>
    requires slots { AreSlots slots.now }
    requires later { AreSlots later.now }
    ensures { IfOk result (λ starts. starts.items
        ≡ map (slot_column slots.now later.now)
        (numbers (suc (max (at_or_last slots.now (length slots.now))
        (at_or_last later.now (length later.now)))))) }
{
    let count = slots_in(slots, later);
    let counts = slot_counts(alloc, count, slots)?;
    let more = slot_counts(alloc, count, later)?;
    let mut starts = Vec::with_capacity(alloc, count)?;
    let mut start = 0;
    for slot in 0..count {
        starts.push(start)?;
        start += width_at(counts.as_slice(), more.as_slice(), slot);
    }
    Ok(starts)
}

// Where the places of one of the runs begin, and its end.
fn columns_of_run(
    alloc: Global,
    slots: &[u32],
    later: &[u32],
    run: &[u32],
) -> Result<Vec<u32>, AllocError>
    requires slots { AreSlots slots.now }
    requires later { AreSlots later.now }
    requires run { AreSlots run.now }
    requires low { at_or_last run.now (length run.now)
        ≤ max (at_or_last slots.now (length slots.now)) (at_or_last later.now (length later.now)) }
    ensures { IfOk result
        (λ columns. columns.items ≡ slot_columns slots.now later.now run.now) }
{
    // The column of the next place in each slot.
    let mut next = slot_starts(alloc, slots, later)?;
    let mut columns = Vec::with_capacity(alloc, run.len() + 1)?;
    for slot in run {
        columns.push(next[*slot as usize])?;
        next[*slot as usize] += 1;
    }
    columns.push(next[last_slot(run)])?;
    Ok(columns)
}

// The columns of two runs by the slots of their places.
fn columns_of_both(alloc: Global, slots: &[u32], later: &[u32]) -> Result<RunColumns, AllocError>
    requires slots { AreSlots slots.now }
    requires later { AreSlots later.now }
    ensures before { IfOk result
        (λ columns. columns.before ≡ slot_columns slots.now later.now slots.now) }
    ensures after { IfOk result
        (λ columns. columns.after ≡ slot_columns slots.now later.now later.now) }
    ensures lined_up { IfOk result (λ columns. AreLinedUp slots.now later.now) }
{
    Ok(RunColumns {
        before: Items::new(columns_of_run(alloc, slots, later, slots)?),
        after: Items::new(columns_of_run(alloc, slots, later, later)?),
    })
}

/// The columns at which the places of two runs begin by ticks. Each tick, counted from the
/// beginning of a run on, has as many columns as the run with more places in it needs.
pub fn tick_columns(
    alloc: Global,
    before: &[Step],
    after: &[Step],
) -> Result<RunColumns, AllocError>
    requires before { length before.now ≤ max_steps }
    requires after { length after.now ≤ max_steps }
    ensures before { IfOk result
        (λ columns. columns.before ≡ tick_columns before.now after.now before.now) }
    ensures after { IfOk result
        (λ columns. columns.after ≡ tick_columns before.now after.now after.now) }
    // Ticks of both runs stand below one another.
    ensures lined_up { IfOk result
        (λ columns. AreLinedUp (tick_slots before.now) (tick_slots after.now)) }
{
    let slots = slots_of(alloc, 1, times_of(alloc, 1, before)?.as_slice())?;
    let later = slots_of(alloc, 1, times_of(alloc, 1, after)?.as_slice())?;
    columns_of_both(alloc, slots.as_slice(), later.as_slice())
}

/// The columns at which the places of two runs begin by time, where a tick has so many units: as
/// wide as time, of which a column has the more the longer it is from the place `from` to the end
/// of the place `to`, and wider where more places stand in it.
pub fn time_columns(
    alloc: Global,
    units: u32,
    from: u32,
    to: u32,
    before: &[Step],
    after: &[Step],
) -> Result<RunColumns, AllocError>
    requires before { length before.now ≤ max_steps }
    requires after { length after.now ≤ max_steps }
    ensures before { IfOk result
        (λ columns. columns.before ≡ time_columns units from to before.now after.now before.now) }
    ensures after { IfOk result
        (λ columns. columns.after ≡ time_columns units from to before.now after.now after.now) }
    // Equal times of both runs stand below one another.
    ensures lined_up { IfOk result
        (λ columns. AreLinedUp (time_slots units from to before.now after.now before.now)
        (time_slots units from to before.now after.now after.now)) }
{
    let times = times_of(alloc, units, before)?;
    let more = times_of(alloc, units, after)?;
    let span = span_of(from, to, times.as_slice(), more.as_slice());
    let slots = slots_of(alloc, span, times.as_slice())?;
    let later = slots_of(alloc, span, more.as_slice())?;
    columns_of_both(alloc, slots.as_slice(), later.as_slice())
}
