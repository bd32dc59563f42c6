//! The events that two runs share, by which their steps are put beside each other.
ghost use Rattle.std.specs.Prelude.{◌≡◌, ◌<◌, ◌^◌, IfOk, drop, length, slice_get, slice_index_or, zip};
ghost use Rattle.std.specs.List.{filter_map};
ghost use Rattle.run_comparisons.specs.Shared.{event_places, is_event, is_same_event, kept_among, moments, paired_at, paired_beyond, paired_events, places_in, shared_among, shared_at};

use crate::Row;
use crate::alike::are_alike;
use crate::event_kind::EventKind;
use crate::place_pair::PlacePair;
use bench_types::Step;
use std::alloc::{AllocError, Global};

// The places of the events.
fn event_places(alloc: Global, kind: EventKind, run: &[Step]) -> Result<Vec<u32>, AllocError>
    requires { length run.now < 2 ^ 32 }
    ensures { IfOk result (λ places. places.items ≡ event_places (is_event kind) 0 run.now) }
{
    let mut places = Vec::new(alloc);
    for (place, step) in run.iter().enumerate() {
        if kind.has(step) {
            places.push(place as u32)?;
        }
    }
    Ok(places)
}

// The place that stands there; 0 past the last.
fn place_at(places: &[u32], index: usize) -> u32
    ensures { result ≡ slice_index_or places.now index 0 }
{
    if index < places.len() {
        return places[index];
    }
    0
}

// Of each place of the session, where an event that stands there stands in the run.
fn places_in(
    alloc: Global,
    kind: EventKind,
    run: &[Step],
    session: &[Step],
) -> Result<Vec<u32>, AllocError>
    requires { length run.now < 2 ^ 32 }
    ensures { IfOk result
        (λ places. places.items ≡ places_in (is_event kind) run.now session.now) }
{
    let events = event_places(alloc, kind, run)?;
    let mut places = Vec::with_capacity(alloc, session.len())?;
    let mut come = 0;
    for step in session {
        places.push(place_at(events.as_slice(), come))?;
        if kind.has(step) {
            come += 1;
        }
    }
    Ok(places)
}

/// The step at the place; none past the last.
pub(crate) fn step_at(steps: &[Step], place: u32) -> Option<Step>
    ensures { result ≡ slice_get steps.now place }
{
    steps.get(place as usize).copied()
}

// Whether there are both, and they are one event.
fn is_same_event(kind: EventKind, step: Option<Step>, other: Option<Step>) -> bool
    ensures { result ≡ is_same_event (is_event kind) step other }
{
    match (step, other) {
        (Some(step), Some(other)) => kind.has(&step) && are_alike(&step, &other),
        _ => false,
    }
}

// The places in the runs of the event of the row, where the sessions share it.
fn shared_at(
    kind: EventKind,
    session: &[Step],
    edited: &[Step],
    places: &[u32],
    later: &[u32],
    row: Row,
) -> Option<PlacePair>
    ensures { result
        ≡ shared_at (is_event kind) session.now edited.now places.now later.now row }
{
    let Row::Both { before, after } = row else {
        return None;
    };
    if !is_same_event(kind, step_at(session, before), step_at(edited, after)) {
        return None;
    }
    Some(PlacePair {
        before: place_at(places, before as usize),
        after: place_at(later, after as usize),
    })
}

fn shared_with(
    alloc: Global,
    kind: EventKind,
    session: &[Step],
    edited: &[Step],
    places: &[u32],
    later: &[u32],
    rows: &[Row],
) -> Result<Vec<PlacePair>, AllocError>
    ensures { IfOk result (λ shared. shared.items
        ≡ filter_map (shared_at (is_event kind) session.now edited.now places.now later.now)
        rows.now) }
{
    let mut shared = Vec::new(alloc);
    for row in rows {
        if let Some(event) = shared_at(kind, session, edited, places, later, *row) {
            shared.push(event)?;
        }
    }
    Ok(shared)
}

/// The places in the runs of two sessions of the events that the sessions share, by the rows of
/// both.
pub(crate) fn shared_among(
    alloc: Global,
    kind: EventKind,
    session: &[Step],
    edited: &[Step],
    before: &[Step],
    after: &[Step],
    rows: &[Row],
) -> Result<Vec<PlacePair>, AllocError>
    requires before { length before.now < 2 ^ 32 }
    requires after { length after.now < 2 ^ 32 }
    ensures { IfOk result (λ shared. shared.items
        ≡ shared_among (is_event kind) session.now edited.now before.now after.now rows.now) }
{
    let places = places_in(alloc, kind, before, session)?;
    let later = places_in(alloc, kind, after, edited)?;
    shared_with(
        alloc,
        kind,
        session,
        edited,
        places.as_slice(),
        later.as_slice(),
        rows,
    )
}

// The places of the ticks and interrupts; time that passes is none.
fn moments(alloc: Global, run: &[Step]) -> Result<Vec<u32>, AllocError>
    requires { length run.now < 2 ^ 32 }
    ensures { IfOk result (λ places. places.items ≡ moments run.now) }
{
    event_places(alloc, EventKind::Moment, run)
}

// The places in both runs, where one tick or one interrupt stands in both.
fn paired_at(before: &[Step], after: &[Step], place: u32, later: u32) -> Option<PlacePair>
    ensures { result ≡ paired_at before.now after.now (place, later) }
{
    let (step, other) = (step_at(before, place), step_at(after, later));
    if !is_same_event(EventKind::Moment, step, other) {
        return None;
    }
    Some(PlacePair {
        before: place,
        after: later,
    })
}

// The same of the places that have this number in both runs.
fn paired_number(
    before: &[Step],
    after: &[Step],
    places: &[u32],
    later: &[u32],
    number: usize,
) -> Option<PlacePair>
    requires places { number < length places.now }
    requires later { number < length later.now }
    ensures { result
        ≡ paired_at before.now after.now
        (slice_index_or places.now number 0, slice_index_or later.now number 0) }
{
    paired_at(before, after, places[number], later[number])
}

fn paired_with(
    alloc: Global,
    before: &[Step],
    after: &[Step],
    places: &[u32],
    later: &[u32],
) -> Result<Vec<PlacePair>, AllocError>
    ensures { IfOk result (λ events. events.items
        ≡ filter_map (paired_at before.now after.now) (zip places.now later.now)) }
{
    let mut events = Vec::new(alloc);
    for number in 0..places.len().min(later.len()) {
        if let Some(event) = paired_number(before, after, places, later, number) {
            events.push(event)?;
        }
    }
    Ok(events)
}

// The places behind so many; none where there are no more.
fn beyond(places: &[u32], many: usize) -> &[u32]
    ensures { result.now ≡ drop many places.now }
{
    if many <= places.len() {
        return &places[many..];
    }
    &[]
}

// Behind so many ticks and interrupts of the one run, and so many of the other: those that come as
// the first in both runs, as the second in both, and so on.
fn paired_beyond(
    alloc: Global,
    many: usize,
    others: usize,
    before: &[Step],
    after: &[Step],
) -> Result<Vec<PlacePair>, AllocError>
    requires before { length before.now < 2 ^ 32 }
    requires after { length after.now < 2 ^ 32 }
    ensures { IfOk result
        (λ events. events.items ≡ paired_beyond many others before.now after.now) }
{
    let places = moments(alloc, before)?;
    let later = moments(alloc, after)?;
    let (places, later) = (
        beyond(places.as_slice(), many),
        beyond(later.as_slice(), others),
    );
    paired_with(alloc, before, after, places, later)
}

/// The ticks and interrupts that come as the first in both runs, as the second in both, and so on.
pub(crate) fn paired_events(
    alloc: Global,
    before: &[Step],
    after: &[Step],
) -> Result<Vec<PlacePair>, AllocError>
    requires before { length before.now < 2 ^ 32 }
    requires after { length after.now < 2 ^ 32 }
    ensures { IfOk result (λ events. events.items ≡ paired_events before.now after.now) }
{
    paired_beyond(alloc, 0, 0, before, after)
}

/// The ticks and interrupts that two sessions share, by the rows of both, where they stand in runs
/// of them; and behind them further ones of both runs in their order.
pub(crate) fn kept_among(
    alloc: Global,
    session: &[Step],
    edited: &[Step],
    before: &[Step],
    after: &[Step],
    rows: &[Row],
) -> Result<Vec<PlacePair>, AllocError>
    requires session { length session.now < 2 ^ 32 }
    requires edited { length edited.now < 2 ^ 32 }
    requires before { length before.now < 2 ^ 32 }
    requires after { length after.now < 2 ^ 32 }
    ensures { IfOk result (λ events. events.items
        ≡ kept_among session.now edited.now before.now after.now rows.now) }
{
    let kind = EventKind::Moment;
    let mut events = shared_among(alloc, kind, session, edited, before, after, rows)?;
    let many = moments(alloc, session)?.len();
    let others = moments(alloc, edited)?.len();
    let further = paired_beyond(alloc, many, others, before, after)?;
    events.extend_from_slice(further.as_slice())?;
    Ok(events)
}
