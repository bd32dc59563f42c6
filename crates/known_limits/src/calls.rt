//! Calls that begin.
ghost use Rattle.std.specs.Prelude.{◌≡◌};
ghost use Rattle.kept_runs.specs.Items.{begins_call};
ghost use Rattle.known_limits.specs.Calls.{begun_task};

use bench_types::{Call, Step};

/// The task of a call that is no `finish`.
pub(crate) fn begun_task(step: &Step) -> Option<u32>
    ensures { result ≡ begun_task step.now }
{
    match *step {
        Step::Call {
            call: Call::Finish,
            ..
        } => None,
        Step::Call { task, .. } => Some(task),
        _ => None,
    }
}

/// Whether the step is a call of the task that is no `finish`.
pub(crate) fn begins_call(task: u32, step: &Step) -> bool
    ensures { result ≡ begins_call task step.now }
{
    match *step {
        Step::Call {
            call: Call::Finish,
            ..
        } => false,
        Step::Call { task: other, .. } => other == task,
        _ => false,
    }
}
