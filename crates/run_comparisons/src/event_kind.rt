//! Which steps are events, by which two runs are put beside each other.
ghost use Rattle.std.specs.Prelude.{◌≡◌};
ghost use Rattle.run_comparisons.specs.Shared.{is_event, is_moment};

use crate::alike::comes_from_outside;
use bench_types::Step;

/// Which steps are events.
#[derive(Clone, Copy)]
pub(crate) enum EventKind {
    /// Ticks, interrupts and time that passes.
    Outside,
    /// Ticks and interrupts.
    Moment,
}

// A tick or an interrupt.
fn is_moment(step: &Step) -> bool
    ensures { result ≡ is_moment step.now }
{
    comes_from_outside(step) && !matches!(step, Step::Pass { .. })
}

impl EventKind {
    /// Whether the step is an event.
    pub(crate) fn has(self, step: &Step) -> bool
        ensures { result ≡ is_event self step.now }
    {
        match self {
            EventKind::Outside => comes_from_outside(step),
            EventKind::Moment => is_moment(step),
        }
    }
}
