//! All segments of a session.
ghost use Rattle.std.specs.Prelude.{◌≡◌, ◌⊎◌, false, ◌++◌, ◌<◌, ◌≤◌, ◌+◌, ◌-◌, ◌^◌, All, Ok, Some, IfOk, IfSome, OnOk, OnErr, length, take, drop, map, slice_get, slice_index_or};
ghost use Rattle.std.specs.Vec.{vec_capacity};
ghost use Rattle.bench_model.specs.Equal.{StandsFor};
ghost use Rattle.bench_model.specs.Table.{Table};
ghost use Rattle.bench_model.specs.Shifted.{some_delays_until};
ghost use Rattle.segment_laws.specs.Segments.{all_steps, later_segments, lengths, starts, IsIndexOf};
ghost use Rattle.smp_kernel.specs.Kernel.{StandsForSome};
ghost use Rattle.session_segments.specs.Replaying.{AreReplayedFrom, HasSettings};
ghost use Rattle.session_segments.specs.Counting.{meter_after, CountsUpTo};
ghost use Rattle.session_segments.specs.Meetings.{count_delaying, IsUnreadFrom};

use crate::kept_results::{KeptResults, NoResults, Results};
use crate::meeting::met_by;
use crate::segment::Segment;
use smp_kernel::{Kernel, Meter};
use std::alloc::{AllocError, Global};
use std::marker::Model;

/// Segments one after another, with the place where each begins. There is always a first one, which
/// begins at the start.
#[derive(Debug)]
pub struct Segments<K: KeptResults = Results> {
    places: Vec<u32>,
    segments: Vec<Segment<K>>,
    /// How many of the segments have a delay until a tick count.
    delaying: usize,
}

// Written out, so that whoever drops one has one call to prove, and not one for each list in it.
impl<K: KeptResults> Drop for Segments<K> {
    fn drop(self) {
        let Segments {
            places: _,
            segments: _,
            delaying: _,
        } = self;
    }
}

impl<K: KeptResults> Model for Segments<K> {
    ghost use Rattle.std.specs.Prelude.{List};
    ghost use Rattle.segment_laws.specs.Segments.{SegmentView};

    ghost Value = { List SegmentView };

    ghost use Rattle.std.specs.Prelude.{◌≡◌};
    ghost use Rattle.session_segments.specs.Kept.{ArePlaced};
    ghost use Rattle.session_segments.specs.Meetings.{count_delaying};

    ghost view = { λ segments. segments.segments.items };

    ghost invariant = { λ segments. ArePlaced segments.places.items segments.segments.items
        × (segments.delaying ≡ count_delaying segments.segments.items) };
}

// The place after the last segment that has one.
fn end_of<K: KeptResults>(places: &[u32], segments: &[Segment<K>]) -> u32
    requires places { places.now ≡ starts 0 (lengths (take (length places.now) segments.now)) }
    requires within { length places.now ≤ length segments.now }
    requires few { length (all_steps segments.now) < 2 ^ 32 }
    ensures { result ≡ length (all_steps (take (length places.now) segments.now)) }
{
    match places.last() {
        Some(&last) => last + segments[places.len() - 1].steps().len() as u32,
        None => 0,
    }
}

// Makes the places of the segments from the index on anew. There is room for them.
fn place_from<K: KeptResults>(places: &mut Vec<u32>, from: usize, segments: &[Segment<K>])
    requires placed { take from places.old.items ≡ starts 0 (lengths (take from segments.now)) }
    requires within { from ≤ length segments.now }
    requires room { length segments.now ≤ vec_capacity places.old }
    requires few { length (all_steps segments.now) < 2 ^ 32 }
    ensures { places.new.items ≡ starts 0 (lengths segments.now) }
{
    places.truncate(from);
    let mut next = end_of(places.as_slice(), segments);
    for segment in &segments[from..] {
        places.push_reserved(next);
        next += segment.steps().len() as u32;
    }
}

// How many of the segments have a delay until a tick count.
fn count_delaying<K: KeptResults>(segments: &[Segment<K>]) -> usize
    ensures { result ≡ count_delaying segments.now }
{
    segments
        .iter()
        .filter(|segment| segment.delays_until())
        .count()
}

// The made segments take the place of those from the first index up to the second.
fn exchange<K: KeptResults>(
    segments: &mut Vec<Segment<K>>,
    from: usize,
    to: usize,
    made: Vec<Segment<K>>,
) -> Result<(), AllocError>
    requires order { from ≤ to }
    requires within { to ≤ length segments.old.items }
    ensures exchanged { OnOk result (segments.new.items
        ≡ take from segments.old.items ++ made.items ++ drop to segments.old.items) }
    ensures unchanged { OnErr result (segments.new.items ≡ segments.old.items) }
{
    segments.splice(from..to, made)?;
    Ok(())
}

impl<K: KeptResults> Segments<K> {
    /// The segments, the first of which begins at the start.
    pub fn new(alloc: Global, segments: Vec<Segment<K>>) -> Result<Segments<K>, AllocError>
        requires some { 0 < length segments.items }
        requires few { length (all_steps segments.items) < 2 ^ 32 }
        ensures { IfOk result (λ made. made ≡ segments.items) }
    {
        let mut places = Vec::with_capacity(alloc, segments.len())?;
        place_from(&mut places, 0, segments.as_slice());
        let delaying = count_delaying(segments.as_slice());
        Ok(Segments {
            places,
            segments,
            delaying,
        })
    }

    /// How many segments there are.
    pub fn len(&self) -> usize
        ensures count { result ≡ length self.now }
        ensures some { 0 < length self.now }
    {
        self.segments.len()
    }

    /// The segments.
    pub fn as_slice(&self) -> &[Segment<K>]
        ensures segments { result.now ≡ self.now }
        ensures few { length (all_steps self.now) < 2 ^ 32 }
        ensures some { 0 < length self.now }
    {
        self.segments.as_slice()
    }

    /// The place where segment `k` begins, counted from 0; `None` past the last.
    pub fn checkpoint(&self, k: u32) -> Option<u32>
        ensures { result ≡ slice_get (starts 0 (lengths self.now)) k }
    {
        self.places.get(k as usize).copied()
    }

    /// The index of the segment that the place is in, which is the last that does not begin after
    /// it, and the place where that begins.
    pub fn locate(&self, place: u32) -> (usize, u32)
        ensures index { IsIndexOf (starts 0 (lengths self.now)) place result.0 result.1 }
        ensures within { result.0 < length self.now }
    {
        let index = last_replayable(self.places.as_slice(), place);
        (index, self.places[index])
    }

    /// The made segments take the place of those from the first index up to the second.
    pub fn replace(
        &mut self,
        from: usize,
        to: usize,
        made: Vec<Segment<K>>,
    ) -> Result<(), AllocError>
        requires order { from ≤ to }
        requires within { to ≤ length self.old }
        requires some { 0 < length (take from self.old ++ made.items ++ drop to self.old) }
        requires few { length
            (all_steps (take from self.old ++ made.items ++ drop to self.old)) < 2 ^ 32 }
        ensures replaced { OnOk result
            (self.new ≡ take from self.old ++ made.items ++ drop to self.old) }
        ensures unchanged { OnErr result (self.new ≡ self.old) }
    {
        self.places.reserve(made.len())?;
        let fewer = count_delaying(&self.segments[from..to]);
        let more = count_delaying(made.as_slice());
        exchange(&mut self.segments, from, to, made)?;
        place_from(&mut self.places, from, self.segments.as_slice());
        self.delaying = self.delaying - fewer + more;
        Ok(())
    }

    /// Replays the segments from the index on, each in place of what it was, up to the first that
    /// the replay meets. Those from there on become so many ticks later. Returns the index of that
    /// one, or that after the last. No memory is taken.
    pub fn replay_from(&mut self, first: usize, kernel: &mut Kernel, meter: &mut Meter) -> usize
        requires stands { StandsForSome kernel.old }
        requires within { first ≤ length self.old }
        requires settings { All (HasSettings kernel.old.settings) (drop first self.old) }
        ensures replayed { (table : Table) → StandsFor kernel.old table
            → AreReplayedFrom table first self.old self.new result }
        ensures meter { meter.new
            ≡ meter_after (length (all_steps (take (result - first) (drop first self.old))))
            meter.old }
    {
        let known = self.unread();
        replay_each(kernel, &mut self.segments, first, known, meter)
    }

    // From the first segment on none has a delay until a tick count, where there is none at all.
    fn unread(&self) -> Option<usize>
        ensures { IfSome result (IsUnreadFrom self.now) }
    {
        if self.delaying == 0 { Some(0) } else { None }
    }
}

// The segments from the index on become so many ticks later.
fn shift_from<K: KeptResults>(segments: &mut [Segment<K>], from: usize, by: u32)
    requires within { from ≤ length segments.old }
    requires unread { (by ≡ 0)
        ⊎ (some_delays_until (all_steps (drop from segments.old)) ≡ false) }
    ensures { segments.new ≡ take from segments.old ++ later_segments by (drop from segments.old) }
{
    if by == 0 {
        return;
    }
    for index in from..segments.len() {
        segments[index].shift(by);
    }
}

// Replays the segments from the index on. What is known of their steps is the least index from
// which on none has a delay until a tick count.
fn replay_each<K: KeptResults>(
    kernel: &mut Kernel,
    segments: &mut [Segment<K>],
    first: usize,
    known: Option<usize>,
    meter: &mut Meter,
) -> usize
    requires known { IfSome known (IsUnreadFrom segments.old) }
    requires stands { StandsForSome kernel.old }
    requires within { first ≤ length segments.old }
    requires settings { All (HasSettings kernel.old.settings) (drop first segments.old) }
    ensures replayed { (table : Table) → StandsFor kernel.old table
        → AreReplayedFrom table first segments.old segments.new result }
    ensures meter { meter.new
        ≡ meter_after (length (all_steps (take (result - first) (drop first segments.old))))
        meter.old }
{
    let mut known = known;
    for index in first..segments.len() {
        if let Some(by) = met_by(&mut known, segments, index, kernel) {
            shift_from(segments, index, by);
            return index;
        }
        segments[index].replay_in_place(kernel, meter);
    }
    segments.len()
}

// The segments, each with what its steps lead to.
fn all_traced(
    alloc: Global,
    segments: Vec<Segment<NoResults>>,
    meter: &mut Meter,
) -> Result<Vec<Segment>, AllocError>
    ensures segments { IfOk result (λ with_results. with_results.items ≡ segments.items) }
    ensures meter { OnOk result
        (meter.new ≡ meter_after (length (all_steps segments.items)) meter.old) }
    ensures some { OnErr result
        (CountsUpTo (length (all_steps segments.items)) meter.old meter.new) }
{
    let mut made = Vec::with_capacity(alloc, segments.len())?;
    for segment in segments {
        let one = segment.with_results(alloc, meter)?;
        made.push(one)?;
    }
    Ok(made)
}

impl Segments<NoResults> {
    /// The same segments with what their steps lead to, which are made once more. The meter counts
    /// them.
    pub fn with_results(self, alloc: Global, meter: &mut Meter) -> Result<Segments, AllocError>
        ensures segments { IfOk result (λ with_results. with_results ≡ self) }
        ensures meter { OnOk result (meter.new ≡ meter_after (length (all_steps self)) meter.old) }
        ensures some { OnErr result (CountsUpTo (length (all_steps self)) meter.old meter.new) }
    {
        let Segments {
            places,
            segments,
            delaying,
        } = self;
        let segments = all_traced(alloc, segments, meter)?;
        Ok(Segments {
            places,
            segments,
            delaying,
        })
    }
}

// The index of the last of the ascending places that is not after the place.
fn last_replayable(places: &[u32], place: u32) -> usize
    requires { slice_get places.now 0 ≡ Some 0 }
    ensures index { IsIndexOf places.now place result (slice_index_or places.now result 0) }
    ensures within { result < length places.now }
{
    let mut found = 0;
    let mut end = places.len();
    while end - found > 1 {
        let middle = found + (end - found) / 2;
        if places[middle] <= place {
            found = middle;
        } else {
            end = middle;
        }
    }
    found
}
