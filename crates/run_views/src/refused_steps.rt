//! Whether the kernel refuses a step of a run.
ghost use Rattle.std.specs.Prelude.{◌≡◌, ◌↔◌, All, IfOk, IsTrue};
ghost use Rattle.bench_types.specs.Step.{IsCheckedStep};
ghost use Rattle.bench_model.specs.Equal.{StandsFor};
ghost use Rattle.bench_model.specs.Table.{Table};
ghost use Rattle.run_views.specs.RefusedSteps.{is_refusal, HasRefusedStep, IsRefusedFrom};

use bench_types::{CheckedSession, Reply, Step};
use smp_kernel::{Kernel, Meter};
use std::alloc::{AllocError, Global};

/// Whether the reply says that the step is refused.
pub fn is_refusal(reply: Reply) -> bool
    ensures { result ≡ is_refusal reply }
{
    matches!(reply, Reply::Refused(_))
}

// Makes the steps up to one that is refused.
fn refuses_one(kernel: &mut Kernel, meter: &mut Meter, steps: &[Step]) -> bool
    requires { All (IsCheckedStep kernel.old.settings) steps.now }
    ensures { (table : Table) → StandsFor kernel.old table
        → IsTrue result ↔ IsRefusedFrom table steps.now }
{
    for step in steps {
        let reply = kernel.step(meter, step);
        if is_refusal(reply) {
            return true;
        }
    }
    false
}

/// Whether the kernel refuses a step of the run of a checked session. The meter counts the steps up
/// to the first that is refused.
pub fn has_refused_step(
    alloc: Global,
    meter: &mut Meter,
    session: &CheckedSession,
) -> Result<bool, AllocError>
    ensures { IfOk result
        (λ found. IsTrue found ↔ HasRefusedStep session.now.header session.now.steps) }
{
    match Kernel::start(alloc, session.header()) {
        Ok(mut kernel) => Ok(refuses_one(&mut kernel, meter, session.steps())),
        Err(_) => Err(AllocError),
    }
}
