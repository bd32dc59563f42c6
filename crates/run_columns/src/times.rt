//! The time before each place of a run, and the slots of places by it.
ghost use Rattle.std.specs.Prelude.{◌≡◌, ◌<◌, ◌≤◌, ◌+◌, ◌/◌, ◌^◌, IfOk, length, slice_index_or};
ghost use Rattle.bench_types.specs.Limits.{max_steps};
ghost use Rattle.run_columns.specs.SlotColumns.{at_or_last, AreSlots};
ghost use Rattle.run_columns.specs.TimeSlots.{shown_time, slots_of, span_of, times_of, whole_time, AreTimes};

use bench_types::{MAX_STEPS, Step};
use std::alloc::{AllocError, Global};
use step_times::time_of;

// Of so many slots the time is that is shown.
const SHOWN_SLOTS: u64 = 400;

/// How much time the steps before each place take, where a tick has so many units.
pub fn times_of(alloc: Global, units: u32, steps: &[Step]) -> Result<Vec<u64>, AllocError>
    requires { length steps.now ≤ max_steps }
    ensures value { IfOk result (λ times. times.items ≡ times_of units steps.now) }
    ensures times { IfOk result (λ times. AreTimes times.items) }
{
    let mut times = Vec::with_capacity(alloc, steps.len() + 1)?;
    let mut time = 0;
    for step in steps {
        times.push(time)?;
        time += u64::from(time_of(units, step));
    }
    times.push(time)?;
    Ok(times)
}

// The time before the place; behind the last one, before that one.
fn time_at(times: &[u64], place: u64) -> u64
    requires { AreTimes times.now }
    ensures { result ≡ at_or_last times.now place }
{
    let last = times.len() as u64 - 1;
    times[place.min(last) as usize]
}

fn shown_time(from: u32, to: u32, times: &[u64]) -> u64
    requires { AreTimes times.now }
    ensures { result ≡ shown_time from to times.now }
{
    let end = time_at(times, u64::from(to) + 1);
    end.saturating_sub(time_at(times, u64::from(from)))
}

fn whole_time(times: &[u64]) -> u64
    requires { AreTimes times.now }
    ensures { result ≡ whole_time times.now }
{
    time_at(times, times.len() as u64)
}

/// How long a slot is where two runs stand by time and these places are shown.
pub(crate) fn span_of(from: u32, to: u32, times: &[u64], later: &[u64]) -> u64
    requires times { AreTimes times.now }
    requires later { AreTimes later.now }
    ensures value { result ≡ span_of from to times.now later.now }
    ensures times { whole_time times.now / result ≤ max_steps }
    ensures later { whole_time later.now / result ≤ max_steps }
    ensures some { 0 < result }
{
    let shown = shown_time(from, to, times).max(shown_time(from, to, later));
    let whole = whole_time(times).max(whole_time(later));
    1 + (shown / SHOWN_SLOTS).max(whole / MAX_STEPS as u64)
}

/// The slot of each place, where a slot is a span of so much time.
pub(crate) fn slots_of(alloc: Global, span: u64, times: &[u64]) -> Result<Vec<u32>, AllocError>
    requires some { 0 < span }
    requires times { AreTimes times.now }
    requires low { whole_time times.now / span ≤ max_steps }
    ensures value { IfOk result (λ slots. slots.items ≡ slots_of span times.now) }
    ensures slots { IfOk result (λ slots. AreSlots slots.items) }
{
    let mut slots = Vec::with_capacity(alloc, times.len())?;
    for time in times {
        slots.push((*time / span) as u32)?;
    }
    Ok(slots)
}
