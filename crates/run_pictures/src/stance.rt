//! How a task stands at a place.
ghost use Rattle.std.specs.Prelude.{◌≡◌};
ghost use Rattle.run_views.specs.Changes.{are_same_numbers};
ghost use Rattle.run_pictures.specs.Same.{are_same_stances};
ghost use Rattle.run_pictures.specs.Stances.{core_of, stance_in, stance_with, status_in};

use crate::shown::is_same_number;
use crate::stretch::StretchValue;
use bench_types::{Cause, NoteState};
use run_views::{Look, Standing, TaskStatus, is_same_cause};

/// How a task stands at a place.
#[derive(Clone, Copy, Debug, PartialEq, Eq)]
pub enum Stance {
    /// It is ready, and the current task of the core.
    Runs {
        core: usize,
    },
    /// It is ready, and the current task of no core.
    Ready,
    /// It waits until this tick count, or without end, for what its unfinished call waits for.
    Blocked {
        wake: Option<u32>,
        cause: Option<Cause>,
    },
    /// It is suspended.
    Suspended,
}

impl StretchValue for Stance {
    ghost use Rattle.run_pictures.specs.StretchValues.{stances_decided};

    ghost same = { are_same_stances };

    ghost tells = { stances_decided };

    fn is_same(&self, other: &Self) -> bool {
        is_same_stance(*self, *other)
    }
}

/// Whether the two are the same.
pub(crate) fn is_same_stance(stance: Stance, other: Stance) -> bool
    ensures { result ≡ are_same_stances stance other }
{
    match (stance, other) {
        (Stance::Runs { core }, Stance::Runs { core: other }) => core == other,
        (Stance::Ready, Stance::Ready) | (Stance::Suspended, Stance::Suspended) => true,
        (
            Stance::Blocked { wake, cause },
            Stance::Blocked {
                wake: other,
                cause: reason,
            },
        ) => is_same_number(wake, other) && is_same_cause(cause, reason),
        _ => false,
    }
}

/// What a look shows of a task.
pub(crate) fn status_in(look: &Look, task: u32) -> TaskStatus
    ensures { result ≡ status_in task look.now }
{
    match look.tasks.as_slice().get(task as usize) {
        Some(status) => *status,
        None => TaskStatus {
            standing: Standing::Ready,
            in_use: 0,
            base: 0,
            mask: 0,
            preempt: false,
            cause: None,
            value: 0,
            state: NoteState::NotWaiting,
        },
    }
}

// The first core of which the task is the current one.
fn core_of(look: &Look, task: u32) -> Option<usize>
    ensures { result ≡ core_of task look.now.cores }
{
    let cores = look.cores.as_slice();
    cores.iter().position(|core| core.current == task)
}

/// How a task stands of which a look shows this, and of which this core is the first that runs it.
pub(crate) fn stance_with(status: TaskStatus, core: Option<usize>) -> Stance
    ensures { result ≡ stance_with status.standing status.cause core }
{
    match (status.standing, core) {
        (Standing::Blocked(wake), _) => Stance::Blocked {
            wake,
            cause: status.cause,
        },
        (Standing::Suspended, _) => Stance::Suspended,
        (Standing::Ready, Some(core)) => Stance::Runs { core },
        (Standing::Ready, None) => Stance::Ready,
    }
}

/// How the task stands.
pub(crate) fn stance_in(look: &Look, task: u32) -> Stance
    ensures { result ≡ stance_in task look.now }
{
    let status = status_in(look, task);
    match status.standing {
        Standing::Blocked(_) | Standing::Suspended => stance_with(status, None),
        Standing::Ready => stance_with(status, core_of(look, task)),
    }
}
