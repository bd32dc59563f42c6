//! Whether two values are the same.
ghost use Rattle.std.specs.Prelude.{◌≡◌};
ghost use Rattle.bench_model.specs.SameTest.{are_same_bools, are_same_directions, are_same_options, are_same_holds, are_same_states};
ghost use Rattle.run_views.specs.Changes.{are_same_causes, are_same_numbers, are_same_standings};

use crate::Standing;
use bench_types::{Cause, Direction, Hold, NoteState};

pub(crate) fn is_same_flag(flag: bool, other: bool) -> bool
    ensures { result ≡ are_same_bools flag other }
{
    if flag { other } else { !other }
}

pub(crate) fn is_same_number(number: Option<u32>, other: Option<u32>) -> bool
    ensures { result ≡ are_same_numbers number other }
{
    match (number, other) {
        (None, None) => true,
        (Some(number), Some(other)) => number == other,
        _ => false,
    }
}

fn is_same_direction(direction: Direction, other: Direction) -> bool
    ensures { result ≡ are_same_directions direction other }
{
    direction == other
}

/// Whether the two are the same cause of a wait, or none.
pub fn is_same_cause(cause: Option<Cause>, other: Option<Cause>) -> bool
    ensures { result ≡ are_same_options are_same_causes cause other }
{
    match (cause, other) {
        (None, None)
        | (Some(Cause::Delay), Some(Cause::Delay))
        | (Some(Cause::Notification), Some(Cause::Notification)) => true,
        (Some(Cause::Mutex(mutex)), Some(Cause::Mutex(other))) => mutex == other,
        (
            Some(Cause::Queue { queue, direction }),
            Some(
                Cause::Queue {
                    queue: other,
                    direction: way,
                },
            ),
        ) => queue == other && is_same_direction(direction, way),
        _ => false,
    }
}

pub(crate) fn is_same_hold(hold: Option<Hold>, other: Option<Hold>) -> bool
    ensures { result ≡ are_same_options are_same_holds hold other }
{
    match (hold, other) {
        (None, None) => true,
        (Some(hold), Some(other)) => hold.core == other.core && hold.depth == other.depth,
        _ => false,
    }
}

pub(crate) fn is_same_state(state: NoteState, other: NoteState) -> bool
    ensures { result ≡ are_same_states state other }
{
    match (state, other) {
        (NoteState::NotWaiting, NoteState::NotWaiting)
        | (NoteState::Waiting, NoteState::Waiting)
        | (NoteState::Received, NoteState::Received) => true,
        _ => false,
    }
}

pub(crate) fn is_same_standing(standing: Standing, other: Standing) -> bool
    ensures { result ≡ are_same_standings standing other }
{
    match (standing, other) {
        (Standing::Ready, Standing::Ready) => true,
        (Standing::Blocked(wake), Standing::Blocked(other)) => is_same_number(wake, other),
        (Standing::Suspended, Standing::Suspended) => true,
        _ => false,
    }
}
