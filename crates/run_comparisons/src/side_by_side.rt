//! Two runs that were made, step beside step.
ghost use Rattle.std.specs.Prelude.{◌≡◌, ◌<◌, ◌≤◌, ◌∷◌, ◌++◌, [], All, IfOk, OnOk, List, length, take, true};
ghost use Rattle.bench_types.specs.Limits.{max_steps};
ghost use Rattle.run_comparisons.specs.declared.rows.Row.{Row};
ghost use Rattle.bench_model.specs.Edits.{after_edits};
ghost use Rattle.session_runs.specs.Run.{IsRunOf};
ghost use Rattle.run_comparisons.specs.Rows.{place_after, place_before};
ghost use Rattle.run_comparisons.specs.Shared.{AreMomentsOf};
ghost use Rattle.run_comparisons.specs.SideBySide.{first_places, found_after, is_nearer, next_row, past, row_of, row_of_two, AreAligned, AreKeptRows, AreSettledRows, AreSideBySide, AreSimulatedRows, IsWithin};

use crate::Row;
use crate::alike::are_alike;
use crate::event_kind::EventKind;
use crate::place_pair::PlacePair;
use crate::rows::edited_rows;
use crate::shared::{kept_among, paired_events, shared_among, step_at};
use bench_types::Step;
use session_edits::EditedSession;
use session_runs::Run;
use std::alloc::{AllocError, Global};

// Within so many steps a step is looked for that is like another.
const LOOK_AHEAD: usize = 64;

// How far ahead of the place one stands that is like the step.
fn found_after(step: &Step, steps: &[Step], place: u32) -> Option<usize>
    requires { place < length steps.now }
    ensures { result ≡ found_after step.now steps.now place }
{
    let ahead = &steps[place as usize + 1..];
    ahead
        .iter()
        .take(LOOK_AHEAD)
        .position(|other| are_alike(step, other))
}

// There is the one, and nearer than the other.
fn is_nearer(near: Option<usize>, far: Option<usize>) -> bool
    ensures { result ≡ is_nearer near far }
{
    match (near, far) {
        (None, _) => false,
        (Some(_), None) => true,
        (Some(near), Some(far)) => near < far,
    }
}

// The row of two steps, each the one at its place.
fn row_of_two(before: &[Step], after: &[Step], at: PlacePair, old: Step, new: Step) -> Row
    requires before { at.before < length before.now }
    requires after { at.after < length after.now }
    ensures { result ≡ row_of_two before.now after.now at old new }
{
    if are_alike(&old, &new) {
        return Row::Both {
            before: at.before,
            after: at.after,
        };
    }
    let ahead = found_after(&old, after, at.after);
    if is_nearer(ahead, found_after(&new, before, at.before)) {
        return Row::Inserted(at.after);
    }
    Row::Removed(at.before)
}

// The next row, where the steps at these places and those behind them have none.
fn next_row(before: &[Step], after: &[Step], at: PlacePair) -> Option<Row>
    ensures { result ≡ next_row before.now after.now at }
{
    match (step_at(before, at.before), step_at(after, at.after)) {
        (None, None) => None,
        (Some(_), None) => Some(Row::Removed(at.before)),
        (None, Some(_)) => Some(Row::Inserted(at.after)),
        (Some(old), Some(new)) => Some(row_of_two(before, after, at, old, new)),
    }
}

// The places behind the row.
fn past(row: Row, at: PlacePair) -> PlacePair
    requires before { All (λ place. place < max_steps) (place_before row) }
    requires after { All (λ place. place < max_steps) (place_after row) }
    ensures { result ≡ past row at }
{
    match row {
        Row::Both { before, after } => PlacePair {
            before: before + 1,
            after: after + 1,
        },
        Row::Removed(before) => PlacePair {
            before: before + 1,
            after: at.after,
        },
        Row::Inserted(after) => PlacePair {
            before: at.before,
            after: after + 1,
        },
    }
}

// Adds the rows from the places on, one after another.
fn push_aligned(
    rows: &mut Vec<Row>,
    before: &[Step],
    after: &[Step],
    from: PlacePair,
) -> Result<(), AllocError>
    requires before { length before.now ≤ max_steps }
    requires after { length after.now ≤ max_steps }
    ensures { OnOk result
        ((made : List Row) × (rows.new.items ≡ rows.old.items ++ made)
        × AreAligned before.now after.now from made) }
{
    let mut at = from;
    while let Some(row) = next_row(before, after, at) {
        rows.push(row)?;
        at = past(row, at);
    }
    Ok(())
}

// The row of a shared event.
fn row_of(event: PlacePair) -> Row
    ensures { result ≡ row_of event }
{
    Row::Both {
        before: event.before,
        after: event.after,
    }
}

// Adds the rows from the places up to the shared event, and that of the event.
fn push_event(
    rows: &mut Vec<Row>,
    before: &[Step],
    after: &[Step],
    from: PlacePair,
    event: PlacePair,
) -> Result<(), AllocError>
    requires before { length before.now ≤ max_steps }
    requires after { length after.now ≤ max_steps }
    requires within { IsWithin before.now after.now event }
    ensures { OnOk result
        ((window : List Row) × (rows.new.items ≡ rows.old.items ++ window ++ row_of event ∷ [])
        × AreAligned (take event.before before.now) (take event.after after.now) from window) }
{
    let earlier = &before[..event.before as usize];
    let later = &after[..event.after as usize];
    push_aligned(rows, earlier, later, from)?;
    rows.push(row_of(event))?;
    Ok(())
}

// The rows of the two runs, with the events that they share.
fn side_by_side(
    alloc: Global,
    before: &[Step],
    after: &[Step],
    events: &[PlacePair],
) -> Result<Vec<Row>, AllocError>
    requires before { length before.now ≤ max_steps }
    requires after { length after.now ≤ max_steps }
    requires within { All (IsWithin before.now after.now) events.now }
    ensures { IfOk result
        (λ rows. AreSideBySide before.now after.now events.now first_places rows.items) }
{
    let mut rows = Vec::new(alloc);
    let mut at = PlacePair {
        before: 0,
        after: 0,
    };
    for event in events {
        push_event(&mut rows, before, after, at, *event)?;
        at = past(row_of(*event), at);
    }
    push_aligned(&mut rows, before, after, at)?;
    Ok(rows)
}

/// The rows of the settled run of a session and of that of the session after the edits. The rows of
/// both sessions tell which events they share.
pub(crate) fn settled_rows(
    alloc: Global,
    edited: &EditedSession,
    before: &Run,
    after: &Run,
) -> Result<Vec<Row>, AllocError>
    requires before { IsRunOf true edited.now.session before.now }
    requires after { IsRunOf true (after_edits edited.now.session edited.now.edits) after.now }
    ensures { IfOk result
        (λ rows. AreSettledRows edited.now.session edited.now.edits before.now.session.steps
        after.now.session.steps rows.items) }
{
    let rows = edited_rows(alloc, edited)?;
    let (session, later_session) = (edited.session().steps(), edited.edited().steps());
    let (run, later) = (before.session().steps(), after.session().steps());
    let kind = EventKind::Outside;
    let rows = rows.as_slice();
    let shared = shared_among(alloc, kind, session, later_session, run, later, rows)?;
    side_by_side(alloc, run, later, shared.as_slice())
}

/// The rows of runs that keep work of a session and of the session after the edits.
pub(crate) fn kept_rows(
    alloc: Global,
    edited: &EditedSession,
    before: &Run,
    after: &Run,
) -> Result<Vec<Row>, AllocError>
    requires before { AreMomentsOf edited.now.session.steps before.now.session.steps }
    requires after { AreMomentsOf (after_edits edited.now.session edited.now.edits).steps
        after.now.session.steps }
    ensures { IfOk result
        (λ rows. AreKeptRows edited.now.session edited.now.edits before.now.session.steps
        after.now.session.steps rows.items) }
{
    let rows = edited_rows(alloc, edited)?;
    let (session, later_session) = (edited.session().steps(), edited.edited().steps());
    let (run, later) = (before.session().steps(), after.session().steps());
    let events = kept_among(alloc, session, later_session, run, later, rows.as_slice())?;
    side_by_side(alloc, run, later, events.as_slice())
}

/// The rows of two simulated runs.
pub(crate) fn simulated_rows(
    alloc: Global,
    before: &Run,
    after: &Run,
) -> Result<Vec<Row>, AllocError>
    ensures { IfOk result
        (λ rows. AreSimulatedRows before.now.session.steps after.now.session.steps rows.items) }
{
    let (run, later) = (before.session().steps(), after.session().steps());
    let events = paired_events(alloc, run, later)?;
    side_by_side(alloc, run, later, events.as_slice())
}
