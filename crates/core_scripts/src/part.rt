//! What one core's thread does of its script.
ghost use Rattle.std.specs.Prelude.{◌≡◌, Ok};
ghost use Rattle.bench_types.specs.CoreAction.{core_action_check};
ghost use Rattle.bench_types.specs.Step.{settings_of};
ghost use Rattle.core_rig.specs.Seats.{IsSameSeat, IsSeatOf, depth_at, new_seat};
ghost use Rattle.core_scripts.specs.Parts.{DoesAct, HasClosed, HasEnded, IsUnderWay};
ghost use Rattle.core_scripts.specs.Scripts.{IsScriptOf};

use crate::gate::Gate;
use bench_types::{Call, CoreAction};
use core_rig::{Answer, CoreSeat, Rig, RigRefusal};
use std::sync::Wait;

/// The core's part: the actions of its script, each of which its rig may refuse, and then the calls
/// that close what it holds.
pub(crate) fn part_played<R: Wait, G: Gate>(
    rt: &R,
    rig: &Rig,
    mut seat: CoreSeat,
    script: &[CoreAction],
    gate: &G,
) -> CoreSeat
    requires own { IsSeatOf rig.now seat }
    requires new { seat ≡ new_seat rig.now seat.core }
    requires script { IsScriptOf (settings_of seat.terms.header) seat.core script.now }
    ensures same { IsSameSeat seat result }
    ensures ended { HasEnded script.now result }
{
    act_all(rt, rig, &mut seat, script, gate);
    close_all(rt, rig, &mut seat);
    seat
}

fn act_all<R: Wait, G: Gate>(
    rt: &R,
    rig: &Rig,
    seat: &mut CoreSeat,
    script: &[CoreAction],
    gate: &G,
)
    requires own { IsSeatOf rig.now seat.old }
    requires new { seat.old ≡ new_seat rig.now seat.old.core }
    requires script { IsScriptOf (settings_of seat.old.terms.header) seat.old.core script.now }
    ensures same { IsSameSeat seat.old seat.new }
    ensures played { IsUnderWay script.now seat.new }
{
    for (done, core_action) in script.iter().enumerate() {
        gate.pass(seat.core(), u32::try_from(done).unwrap_or(u32::MAX));
        let _passed_over = act_once(rt, rig, seat, *core_action);
    }
}

fn act_once<R: Wait>(
    rt: &R,
    rig: &Rig,
    seat: &mut CoreSeat,
    core_action: CoreAction,
) -> Result<Answer, RigRefusal>
    requires own { IsSeatOf rig.now seat.old }
    requires core_action { core_action_check (settings_of seat.old.terms.header) seat.old.core
        core_action ≡ Ok tt }
    ensures same { IsSameSeat seat.old seat.new }
    ensures does { DoesAct core_action seat.old seat.new result }
{
    match core_action {
        CoreAction::Call(call) => seat.call(rt, rig, call),
        CoreAction::Interrupt(note) => seat.interrupt(rt, rig, note),
        CoreAction::QueueInterrupt { queue, direction } => {
            seat.interrupt_queue(rt, rig, queue, direction)
        }
        CoreAction::ResumeInterrupt { task } => seat.interrupt_resume(rt, rig, task),
        CoreAction::Tick => seat.tick(rt, rig),
        CoreAction::Switch => seat.switch(rt, rig),
    }
}

// There is always room for the calls that close a hold.
fn close_all<R: Wait>(rt: &R, rig: &Rig, seat: &mut CoreSeat)
    requires own { IsSeatOf rig.now seat.old }
    ensures closed { HasClosed seat.old seat.new }
    ensures rests { depth_at seat.new ≡ 0 }
{
    while seat.depth() > 0 {
        let _closed = seat.call(rt, rig, Call::HoldClose);
    }
}
