//! The worked session: A yields, goes on, and then nothing is due.
ghost use Rattle.std.specs.Prelude.{◌≡◌, IfSome, Ok};
ghost use Rattle.bench_types.specs.Header.{header_check};

use bench_samples::three_tasks;
use bench_types::{Call, Header, Step};
use std::alloc::Global;

/// A's yield on core 0.
pub(crate) const A_YIELDS: Step = Step::Call {
    core: 0,
    task: 2,
    call: Call::Yield,
};

/// Its steps.
pub(crate) const STEPS: [Step; 6] = [
    A_YIELDS,
    Step::Switch { core: 0 },
    Step::Tick,
    Step::Tick,
    Step::Tick,
    Step::Tick,
];

/// A (of priority 2), B and C (of priority 1) on two cores, without time slices.
pub(crate) fn header(alloc: Global) -> Option<Header>
    ensures { IfSome result (λ header. header_check header ≡ Ok tt) }
{
    three_tasks(alloc, false).ok()
}

/// The steps in a `Vec`.
pub(crate) fn steps(alloc: Global) -> Option<Vec<Step>> {
    Vec::from_slice(alloc, &STEPS).ok()
}
