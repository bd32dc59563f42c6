//! What kind of step a step is.
ghost use Rattle.std.specs.Prelude.{◌≡◌};
ghost use Rattle.settled_runs.specs.SettleLaws.{comes_from_outside};
ghost use Rattle.kept_runs.specs.Works.{is_pass, is_tick};
ghost use Rattle.kept_works.specs.Places.{waiting_call};

use bench_types::{Call, Step};
use settled_runs::WaitingCall;

/// A tick, an interrupt or a pass.
pub(crate) fn comes_from_outside(step: &Step) -> bool
    ensures { result ≡ comes_from_outside step.now }
{
    matches!(
        step,
        Step::Tick
            | Step::Interrupt { .. }
            | Step::QueueInterrupt { .. }
            | Step::ResumeInterrupt { .. }
            | Step::Pass { .. }
    )
}

/// The call of a step that begins one; a `finish` ends one.
pub(crate) fn waiting_call(step: &Step) -> Option<WaitingCall>
    ensures { result ≡ waiting_call step.now }
{
    match *step {
        Step::Call {
            call: Call::Finish,
            ..
        } => None,
        Step::Call { task, call, .. } => Some(WaitingCall { task, call }),
        _ => None,
    }
}

pub(crate) fn is_tick(step: &Step) -> bool
    ensures { result ≡ is_tick step.now }
{
    matches!(step, Step::Tick)
}

pub(crate) fn is_pass(step: &Step) -> bool
    ensures { result ≡ is_pass step.now }
{
    matches!(step, Step::Pass { .. })
}
