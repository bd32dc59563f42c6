//! What the conditions of a task hang on.
ghost use Rattle.std.specs.Prelude.{◌≡◌, ◌<◌, ◌≤◌, ℕ, IsTrue, Some, option_map};
ghost use Rattle.bench_types.specs.Cause.{cause_of};
ghost use Rattle.bench_model.specs.Control.{current};
ghost use Rattle.bench_model.specs.Lists.{list_queues};
ghost use Rattle.bench_model.specs.Seek.{effective};
ghost use Rattle.bench_model.specs.Tally.{outranks_some, wants_core};
ghost use Rattle.bench_model.specs.State.{call_at};
ghost use Rattle.smp_kernel.specs.Kernel.{StandsForSome};
ghost use Rattle.run_numbers.specs.Looks.{look_of, IsLowest};

use crate::state::{is_held_up, is_preempted, is_raised, outranks_some, wants_core};
use bench_types::Cause;
use smp_kernel::Kernel;

/// What the conditions of a task hang on, but on which core it is.
#[derive(Clone, Copy)]
pub(crate) struct Look {
    pub(crate) ready: bool,
    pub(crate) current: bool,
    /// The task waits for a core while one that it may run on has a task of lower effective
    /// priority.
    pub(crate) inverted: bool,
    /// The task is blocked on a mutex whose holder has a lower base priority and is on no core.
    pub(crate) held_up: bool,
    pub(crate) suspended: bool,
    /// Its priority in use is above its base priority.
    pub(crate) raised: bool,
    /// Its preemption is on.
    pub(crate) preempt: bool,
    /// What the task's unfinished call waits for.
    pub(crate) cause: Option<Cause>,
}

// The one of lower effective priority.
fn lower_of(kernel: &Kernel, one: u32, other: u32) -> u32
    requires one { one < kernel.now.settings.tasks }
    requires other { other < kernel.now.settings.tasks }
    ensures task { result < kernel.now.settings.tasks }
    ensures one { effective kernel.now.control result ≤ effective kernel.now.control one }
    ensures other { effective kernel.now.control result ≤ effective kernel.now.control other }
{
    if kernel.stands_below(other, one) {
        other
    } else {
        one
    }
}

/// The current task of the lowest effective priority.
pub(crate) fn lowest_of(kernel: &Kernel) -> u32
    ensures task { result < kernel.now.settings.tasks }
    ensures lowest { IsLowest kernel.now result }
{
    let cores = kernel.settings().cores;
    let mut lowest = kernel.running(0);
    for core in 0..cores {
        lowest = lower_of(kernel, lowest, kernel.running(core));
    }
    lowest
}

// Whether a core that the task may run on has a task of lower effective priority, by the lowest
// one of all cores.
fn outranks_lowest(kernel: &Kernel, task: u32, lowest: u32) -> bool
    requires task { task < kernel.now.settings.tasks }
    requires low { lowest < kernel.now.settings.tasks }
    requires lowest { IsLowest kernel.now lowest }
    ensures { result ≡ outranks_some kernel.now.control task }
{
    kernel.stands_below(lowest, task) && outranks_some(kernel, task)
}

fn cause_of(kernel: &Kernel, task: u32) -> Option<Cause>
    requires { task < kernel.now.settings.tasks }
    ensures { result ≡ option_map cause_of (call_at kernel.now.calls task) }
{
    kernel.unfinished(task).map(|call| call.cause())
}

/// What the conditions of the task hang on.
pub(crate) fn look_of(kernel: &Kernel, task: u32, lowest: u32) -> Look
    requires task { task < kernel.now.settings.tasks }
    requires low { lowest < kernel.now.settings.tasks }
    requires lowest { IsLowest kernel.now lowest }
    requires sound { StandsForSome kernel.now }
    ensures { result ≡ look_of kernel.now task }
{
    Look {
        ready: kernel.ready(task),
        current: kernel.is_current(task),
        inverted: wants_core(kernel, task) && outranks_lowest(kernel, task, lowest),
        held_up: is_held_up(kernel, task),
        suspended: kernel.suspended(task),
        raised: is_raised(kernel, task),
        preempt: is_preempted(kernel, task),
        cause: cause_of(kernel, task),
    }
}

fn are_same(one: Option<Cause>, other: Option<Cause>) -> bool
    ensures { IsTrue result → one ≡ other }
{
    match (one, other) {
        (None, None) => true,
        (Some(Cause::Delay), Some(Cause::Delay)) => true,
        (Some(Cause::Notification), Some(Cause::Notification)) => true,
        (Some(Cause::Mutex(mutex)), Some(Cause::Mutex(wanted))) => mutex == wanted,
        (
            Some(Cause::Queue { queue, direction }),
            Some(
                Cause::Queue {
                    queue: wanted,
                    direction: way,
                },
            ),
        ) => queue == wanted && direction == way,
        _ => false,
    }
}

// Whether both tell the same of where the task stands.
fn stand_alike(one: Look, other: Look) -> bool
    ensures ready { IsTrue result → one.ready ≡ other.ready }
    ensures current { IsTrue result → one.current ≡ other.current }
    ensures inverted { IsTrue result → one.inverted ≡ other.inverted }
    ensures held_up { IsTrue result → one.held_up ≡ other.held_up }
    ensures suspended { IsTrue result → one.suspended ≡ other.suspended }
{
    one.ready == other.ready
        && one.current == other.current
        && one.inverted == other.inverted
        && one.held_up == other.held_up
        && one.suspended == other.suspended
}

/// Whether this is what is known of the task.
pub(crate) fn is_known(known: Option<Look>, look: Look) -> bool
    ensures { IsTrue result → known ≡ Some look }
{
    match known {
        None => false,
        Some(known) => {
            stand_alike(known, look)
                && known.raised == look.raised
                && known.preempt == look.preempt
                && are_same(known.cause, look.cause)
        }
    }
}
