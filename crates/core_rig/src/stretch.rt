//! What a core does while it owns the interrupt word.
ghost use Rattle.std.specs.Prelude.{◌≡◌, ◌<◌, ◌+◌, length, true, false, if◌then◌else◌, Ok};
ghost use Rattle.bench_types.specs.CoreAction.{IsCheckedCoreAction};
ghost use Rattle.bench_types.specs.Limits.{max_takes};
ghost use Rattle.bench_types.specs.Step.{settings_of};
ghost use Rattle.bench_model.specs.Holds.{depth_by, is_held_by};
ghost use Rattle.bench_model.specs.History.{IsLegal};
ghost use Rattle.history_laws.specs.SoundHistories.{IsSoundHistory};
ghost use Rattle.port_locks.specs.Holds.{hold_after};
ghost use Rattle.port_locks.specs.Seats.{IsSeatOf, HasTaken, HasNoHold};
ghost use Rattle.recordings.specs.RecordingView.{answer_to_core_action};
ghost use Rattle.core_rig.specs.CoreActions.{answered};
ghost use Rattle.core_rig.specs.Seats.{recording_of};
ghost use Rattle.core_rig.specs.Stretches.{terms_of, entries_of, IsInHand, MayAct, is_call, after_stretch};

use crate::fault::RigRefusal;
use bench_types::CoreAction;
use port_locks::{LockPair, Seat};
use recordings::{Answer, Recording};
use std::sync::Wait;

/// What an action came to: how many entries its core has then made, and how many times over it
/// holds the kernel.
#[derive(Drop)]
pub(crate) struct Stretch {
    pub(crate) answer: Result<Answer, RigRefusal>,
    pub(crate) made: u64,
    pub(crate) depth: u32,
}

/// The interrupt word of a seat that does not own it.
#[inline(always)]
pub(crate) fn enter<R: Wait>(rt: &R, pair: &LockPair<Recording>, seat: &mut Seat<Recording>)
    requires own { IsSeatOf pair.now seat.old }
    requires outside { seat.old.interrupt_depth ≡ 0 }
    ensures { HasTaken terms_of entries_of seat.old seat.new }
{
    let Ok(()) = pair.take_interrupt(rt, seat) else {
        unreachable!()
    };
}

/// Acts on the recording in hand, and gives it back with the interrupt word.
#[inline(always)]
pub(crate) fn act_and_leave(
    pair: &LockPair<Recording>,
    seat: &mut Seat<Recording>,
    made: u64,
    core_action: CoreAction,
) -> Stretch
    requires own { IsSeatOf pair.now seat.old }
    requires hand { IsInHand seat.old }
    requires count { made ≡ length seat.old.made }
    requires core_action { IsCheckedCoreAction (settings_of seat.old.terms.header) seat.old.number
        core_action }
    requires may { MayAct core_action seat.old }
    ensures answer { result.answer
        ≡ answered
        (answer_to_core_action seat.old.number core_action
        (recording_of seat.old.terms seat.old.seen)) }
    ensures seat { seat.new ≡ after_stretch core_action seat.old }
    ensures legal { IsLegal seat.new.terms.header seat.new.seen }
    ensures sound { IsSoundHistory seat.new.terms.header seat.new.seen }
    ensures depth { result.depth
        ≡ depth_by seat.new.number (hold_after seat.new.terms.header seat.new.seen) }
    ensures stays { is_call core_action ≡ false
        → hold_after seat.new.terms.header seat.new.seen
        ≡ hold_after seat.old.terms.header seat.old.seen }
    ensures count { result.made ≡ length seat.new.made }
    ensures none { result.depth ≡ 0
        → is_held_by seat.new.number (hold_after seat.new.terms.header seat.new.seen) ≡ false }
{
    let core = seat.number();
    let recording = seat.value();
    let answer = recording.perform(core, core_action);
    let depth = recording.depth_by(core);
    pair.free_interrupt(seat);
    // Which says that it has seen a number of entries that 64 bits count.
    let _seen = seat.seen();
    Stretch {
        answer: answer.map_err(RigRefusal::of),
        made: made + u64::from(answer.is_ok()),
        depth,
    }
}

/// The task word once more.
#[inline(always)]
pub(crate) fn enter_task<R: Wait>(rt: &R, pair: &LockPair<Recording>, seat: &mut Seat<Recording>)
    requires own { IsSeatOf pair.now seat.old }
    requires outside { seat.old.interrupt_depth ≡ 0 }
    requires few { seat.old.task_depth < max_takes }
    ensures { seat.new ≡ record seat.old { task_depth = seat.old.task_depth + 1 } }
{
    let Ok(()) = pair.take_task(rt, seat) else {
        unreachable!()
    };
}

/// The task word once less than for a call, and free of the core where it holds the kernel no more.
#[inline(always)]
pub(crate) fn leave_task(
    pair: &LockPair<Recording>,
    seat: &mut Seat<Recording>,
    was_held: bool,
    is_held: bool,
)
    requires own { IsSeatOf pair.now seat.old }
    requires outside { seat.old.interrupt_depth ≡ 0 }
    requires taken { seat.old.task_depth ≡ (if was_held then 2 else 1) }
    requires none { is_held ≡ false → HasNoHold seat.old }
    ensures { seat.new ≡ record seat.old { task_depth = if is_held then 1 else 0 } }
{
    if was_held {
        pair.free_task(seat);
    }
    if !is_held {
        pair.free_task(seat);
    }
}
