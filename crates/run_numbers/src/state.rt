//! Whether a condition holds in a kernel's state.
ghost use Rattle.std.specs.Prelude.{◌≡◌, ◌<◌};
ghost use Rattle.std.specs.Option.{ForSome};
ghost use Rattle.bench_types.specs.Step.{queue_total};
ghost use Rattle.bench_model.specs.Control.{current, is_due, is_idle, task_at};
ghost use Rattle.bench_model.specs.Lists.{list_queues};
ghost use Rattle.bench_model.specs.Queues.{queue_at};
ghost use Rattle.bench_model.specs.SameTest.{are_same_directions};
ghost use Rattle.bench_model.specs.State.{holder_at};
ghost use Rattle.bench_model.specs.Tally.{outranks_some, wants_core};
ghost use Rattle.smp_kernel.specs.Kernel.{StandsForSome};
ghost use Rattle.run_numbers.specs.Conditions.{holder_before, holds, holds_up, is_blocked, is_cause, is_empty, is_full, is_held_up, is_holding, is_in_call, is_raised, mutex_of, stands_blocked};
ghost use Rattle.run_numbers.specs.Readings.{IsConditionOf};

use crate::{Cause, Condition};
use bench_types::{Cause as WaitCause, Direction, Unfinished};
use smp_kernel::Kernel;

/// Whether the task is ready and on no core.
pub(crate) fn wants_core(kernel: &Kernel, task: u32) -> bool
    requires { task < kernel.now.settings.tasks }
    ensures { result ≡ wants_core list_queues task kernel.now }
{
    kernel.ready(task) && !kernel.is_current(task)
}

/// Whether a core that the task may run on has a task of lower effective priority.
pub(crate) fn outranks_some(kernel: &Kernel, task: u32) -> bool
    requires { task < kernel.now.settings.tasks }
    ensures { result ≡ outranks_some kernel.now.control task }
{
    let cores = kernel.settings().cores;
    (0..cores).any(|core| {
        kernel.is_allowed(core, task) && kernel.stands_below(kernel.running(core), task)
    })
}

pub(crate) fn is_same_direction(direction: Direction, other: Direction) -> bool
    ensures { result ≡ are_same_directions direction other }
{
    direction == other
}

fn is_cause(cause: Cause, waits: WaitCause) -> bool
    ensures { result ≡ is_cause cause waits }
{
    match (cause, waits) {
        (Cause::Delay, WaitCause::Delay) => true,
        (Cause::Notification, WaitCause::Notification) => true,
        (Cause::AnyMutex, WaitCause::Mutex(_)) => true,
        (Cause::Mutex(wanted), WaitCause::Mutex(mutex)) => mutex == wanted,
        (Cause::AnyQueue, WaitCause::Queue { .. }) => true,
        (
            Cause::Queue {
                queue: wanted,
                direction: way,
            },
            WaitCause::Queue { queue, direction },
        ) => queue == wanted && is_same_direction(direction, way),
        _ => false,
    }
}

// Whether the task waits: it is neither ready nor suspended.
pub(crate) fn stands_blocked(kernel: &Kernel, task: u32) -> bool
    requires { task < kernel.now.settings.tasks }
    ensures { result ≡ stands_blocked list_queues task kernel.now }
{
    !kernel.ready(task) && !kernel.suspended(task)
}

// Whether the task has made a call that waits for the cause, and the call has not returned.
fn is_in_call(kernel: &Kernel, task: u32, cause: Cause) -> bool
    requires { task < kernel.now.settings.tasks }
    ensures { result ≡ is_in_call task cause kernel.now }
{
    match kernel.unfinished(task) {
        Some(call) => is_cause(cause, call.cause()),
        None => false,
    }
}

fn is_blocked(kernel: &Kernel, task: u32, cause: Cause) -> bool
    requires { task < kernel.now.settings.tasks }
    ensures { result ≡ is_blocked list_queues task cause kernel.now }
{
    stands_blocked(kernel, task) && is_in_call(kernel, task, cause)
}

/// The mutex that the unfinished call takes.
pub(crate) fn mutex_of(call: Unfinished) -> Option<u32>
    ensures { result ≡ mutex_of call }
{
    match call {
        Unfinished::Take { mutex, .. } => Some(mutex),
        Unfinished::Transfer { .. } | Unfinished::Made(_) => None,
    }
}

// The holder of the mutex; none of a mutex that there is not.
fn holder(kernel: &Kernel, mutex: u32) -> Option<u32>
    requires sound { StandsForSome kernel.now }
    ensures value { result ≡ holder_at kernel.now.holders mutex }
    ensures task { ForSome result (λ holder. holder < kernel.now.settings.tasks) }
{
    if mutex < kernel.settings().mutexes {
        kernel.holder(mutex)
    } else {
        None
    }
}

// The task that holds the mutex for which the task is blocked.
fn holder_before(kernel: &Kernel, task: u32) -> Option<u32>
    requires task { task < kernel.now.settings.tasks }
    requires sound { StandsForSome kernel.now }
    ensures value { result ≡ holder_before list_queues task kernel.now }
    ensures task { ForSome result (λ holder. holder < kernel.now.settings.tasks) }
{
    let call = kernel.unfinished(task)?;
    let mutex = mutex_of(call)?;
    holder(kernel, mutex)
}

/// The base priority of the task.
pub(crate) fn base(kernel: &Kernel, task: u32) -> u32
    requires task { task < kernel.now.settings.tasks }
    requires sound { StandsForSome kernel.now }
    ensures { result ≡ (task_at kernel.now.control task).base }
{
    kernel.look(task).base
}

// Whether the holder has a lower base priority than the task, and is on no core.
fn holds_up(kernel: &Kernel, task: u32, holder: u32) -> bool
    requires task { task < kernel.now.settings.tasks }
    requires holder { holder < kernel.now.settings.tasks }
    requires sound { StandsForSome kernel.now }
    ensures { result ≡ holds_up kernel.now.control task holder }
{
    base(kernel, holder) < base(kernel, task) && !kernel.is_current(holder)
}

/// Whether the task is blocked on a mutex whose holder has a lower base priority and is on no core.
pub(crate) fn is_held_up(kernel: &Kernel, task: u32) -> bool
    requires task { task < kernel.now.settings.tasks }
    requires sound { StandsForSome kernel.now }
    ensures { result ≡ is_held_up list_queues task kernel.now }
{
    if !stands_blocked(kernel, task) {
        return false;
    }
    match holder_before(kernel, task) {
        Some(holder) => holds_up(kernel, task, holder),
        None => false,
    }
}

/// Whether the priority that the task has in use is above its base priority.
pub(crate) fn is_raised(kernel: &Kernel, task: u32) -> bool
    requires task { task < kernel.now.settings.tasks }
    requires sound { StandsForSome kernel.now }
    ensures { result ≡ is_raised kernel.now.control task }
{
    base(kernel, task) < kernel.in_use(task)
}

/// Whether the preemption of the task is on.
pub(crate) fn is_preempted(kernel: &Kernel, task: u32) -> bool
    requires task { task < kernel.now.settings.tasks }
    requires sound { StandsForSome kernel.now }
    ensures { result ≡ (task_at kernel.now.control task).preempt }
{
    kernel.look(task).preempt
}

// Whether the core holds the kernel.
fn is_holding(kernel: &Kernel, core: u32) -> bool
    requires { StandsForSome kernel.now }
    ensures { result ≡ is_holding kernel.now.hold core }
{
    match kernel.hold() {
        Some((holder, _)) => holder == core,
        None => false,
    }
}

fn is_due(kernel: &Kernel, core: u32) -> bool
    requires core { core < kernel.now.settings.cores }
    requires sound { StandsForSome kernel.now }
    ensures { result ≡ is_due kernel.now.control core }
{
    let look = kernel.core_look(core);
    look.pend || look.asked
}

// Whether the core has an idle task.
fn is_idle(kernel: &Kernel, core: u32) -> bool
    requires core { core < kernel.now.settings.cores }
    requires sound { StandsForSome kernel.now }
    ensures { result ≡ is_idle kernel.now.control (current kernel.now.control core) }
{
    kernel.running(core) < kernel.settings().cores
}

// Whether the queue has no message.
fn is_empty(kernel: &Kernel, queue: u32) -> bool
    requires { queue < queue_total kernel.now.settings }
    ensures { result ≡ is_empty (queue_at kernel.now.queues queue) }
{
    kernel.queue(queue).messages == 0
}

// Whether the queue has as many messages as it can have.
fn is_full(kernel: &Kernel, queue: u32) -> bool
    requires { queue < queue_total kernel.now.settings }
    ensures { result ≡ is_full (queue_at kernel.now.queues queue) }
{
    let look = kernel.queue(queue);
    look.messages == look.length
}

/// Whether the condition holds in the kernel's state.
pub(crate) fn holds(kernel: &Kernel, condition: Condition) -> bool
    requires known { IsConditionOf kernel.now.settings condition }
    requires sound { StandsForSome kernel.now }
    ensures { result ≡ holds list_queues condition kernel.now }
{
    match condition {
        Condition::Running { task } => kernel.is_current(task),
        Condition::RunningOn { task, core } => kernel.running(core) == task,
        Condition::WantsCore { task } => wants_core(kernel, task),
        Condition::Inverted { task } => wants_core(kernel, task) && outranks_some(kernel, task),
        Condition::Blocked { task, cause } => is_blocked(kernel, task, cause),
        Condition::HeldUp { task } => is_held_up(kernel, task),
        Condition::Suspended { task } => kernel.suspended(task),
        Condition::InCall { task, cause } => is_in_call(kernel, task, cause),
        Condition::Raised { task } => is_raised(kernel, task),
        Condition::PreemptionOff { task } => !is_preempted(kernel, task),
        Condition::Busy { core } => !is_idle(kernel, core),
        Condition::Idle { core } => is_idle(kernel, core),
        Condition::Due { core } => is_due(kernel, core),
        Condition::Holding { core } => is_holding(kernel, core),
        Condition::Held { mutex } => holder(kernel, mutex).is_some(),
        Condition::Empty { queue } => is_empty(kernel, queue),
        Condition::Full { queue } => is_full(kernel, queue),
    }
}
