//! Whether a step is an event.
ghost use Rattle.std.specs.Prelude.{◌≡◌, ◌<◌, ◌&&◌, Ok, IfSome};
ghost use Rattle.std.specs.Option.{ForSome};
ghost use Rattle.bench_types.specs.Step.{step_check};
ghost use Rattle.bench_model.specs.Tally.{is_call_of, is_finish_of, says_run_out};
ghost use Rattle.smp_kernel.specs.Kernel.{StandsForSome};
ghost use Rattle.run_numbers.specs.Events.{is_call_for, is_delay, is_interrupt_of, is_note_wait, is_refusal, is_refused, is_take_of, is_transfer_of, is_unread, is_wait, may_wait_for, moved_by, note_of, says_false, says_late, sets_value, taken_by, taken_in};
ghost use Rattle.run_numbers.specs.AfterStep.{happens_after, has_left, has_switched, inherited, is_it, is_left_ready, left_by, known_before, overrun_by, risen, switched_in};
ghost use Rattle.run_numbers.specs.Readings.{IsEventOf};

use crate::state::{base, is_same_direction, mutex_of};
use crate::{Cause, Event};
use bench_types::{Call, Direction, Note, NoteState, NotifyAction, Refusal, Reply, Step};
use smp_kernel::Kernel;

/// What a step is told by beside its reply and the state after it.
#[derive(Clone, Copy)]
pub(crate) struct BeforeStep {
    /// The core that is to switch, and the task that it has.
    pub(crate) left: Option<(u32, u32)>,
    /// That task is ready.
    pub(crate) ready: bool,
    /// The task whose priority in use the step may raise, and that priority.
    pub(crate) raised: Option<(u32, u32)>,
    /// The task to which the step sends a value where another is unread.
    pub(crate) overrun: Option<u32>,
    /// The mutex that the step is to take, or goes on to take.
    pub(crate) taken: Option<u32>,
}

fn left_by(kernel: &Kernel, step: &Step) -> Option<(u32, u32)>
    requires { step_check kernel.now.settings step.now ≡ Ok tt }
    ensures value { result ≡ left_by kernel.now.control step.now }
    ensures core { ForSome result (λ left. left.0 < kernel.now.settings.cores) }
    ensures task { ForSome result (λ left. left.1 < kernel.now.settings.tasks) }
{
    match *step {
        Step::Switch { core } => Some((core, kernel.running(core))),
        _ => None,
    }
}

fn is_left_ready(left: Option<(u32, u32)>, kernel: &Kernel) -> bool
    requires { ForSome left (λ left. left.1 < kernel.now.settings.tasks) }
    ensures { result ≡ is_left_ready left kernel.now }
{
    match left {
        Some((_, task)) => kernel.ready(task),
        None => false,
    }
}

// The notification that the step sends.
fn note_of(step: &Step) -> Option<Note>
    ensures { result ≡ note_of step.now }
{
    match *step {
        Step::Call {
            call: Call::Notify(note),
            ..
        }
        | Step::Interrupt { note, .. } => Some(note),
        _ => None,
    }
}

// Whether it is to put a value in the place of another.
fn sets_value(action: NotifyAction) -> bool
    ensures { result ≡ sets_value action }
{
    matches!(action, NotifyAction::Set(_) | NotifyAction::SetNew(_))
}

// Whether its task has not taken the last one that came to its index.
fn is_unread(note: Note, kernel: &Kernel) -> bool
    requires task { note.task < kernel.now.settings.tasks }
    requires index { note.index < kernel.now.settings.notes }
    requires sound { StandsForSome kernel.now }
    ensures { result ≡ is_unread note kernel.now }
{
    let (_, state) = kernel.note_look(note.task, note.index);
    matches!(state, NoteState::Received)
}

fn overrun_by(note: Option<Note>, kernel: &Kernel) -> Option<u32>
    requires task { ForSome note (λ note. note.task < kernel.now.settings.tasks) }
    requires index { ForSome note (λ note. note.index < kernel.now.settings.notes) }
    requires sound { StandsForSome kernel.now }
    ensures { result ≡ overrun_by note kernel.now }
{
    let note = note?;
    if sets_value(note.action) && is_unread(note, kernel) {
        Some(note.task)
    } else {
        None
    }
}

fn taken_in(kernel: &Kernel, step: &Step) -> Option<u32>
    requires { step_check kernel.now.settings step.now ≡ Ok tt }
    ensures { result ≡ taken_in kernel.now.calls step.now }
{
    match *step {
        Step::Call {
            call: Call::MutexTake { mutex, .. },
            ..
        } => Some(mutex),
        Step::Call {
            task,
            call: Call::Finish,
            ..
        } => mutex_of(kernel.unfinished(task)?),
        _ => None,
    }
}

/// What is to be known before the step.
pub(crate) fn before_step(kernel: &Kernel, step: &Step) -> BeforeStep
    requires checked { step_check kernel.now.settings step.now ≡ Ok tt }
    requires sound { StandsForSome kernel.now }
    ensures value { result ≡ known_before kernel.now step.now }
    ensures core { ForSome result.left (λ left. left.0 < kernel.now.settings.cores) }
{
    let raised = match kernel.raised_by(step) {
        Some(task) => Some((task, kernel.in_use(task))),
        None => None,
    };
    let left = left_by(kernel, step);
    BeforeStep {
        left,
        ready: is_left_ready(left, kernel),
        raised,
        overrun: overrun_by(note_of(step), kernel),
        taken: taken_in(kernel, step),
    }
}

fn switched_in(left: Option<(u32, u32)>, after: &Kernel, task: u32) -> bool
    requires { ForSome left (λ left. left.0 < after.now.settings.cores) }
    ensures { result ≡ switched_in left after.now.control task }
{
    match left {
        Some((core, left)) => after.running(core) == task && left != task,
        None => false,
    }
}

// Whether the priority in use has risen above the base priority.
fn has_risen(after: &Kernel, task: u32, in_use: u32) -> bool
    requires task { task < after.now.settings.tasks }
    requires sound { StandsForSome after.now }
    ensures { result ≡ risen after.now.control task in_use }
{
    let now = after.in_use(task);
    in_use < now && base(after, task) < now
}

fn inherited(raised: Option<(u32, u32)>, after: &Kernel, task: u32) -> bool
    requires task { task < after.now.settings.tasks }
    requires sound { StandsForSome after.now }
    ensures { result ≡ inherited raised after.now.control task }
{
    match raised {
        Some((other, in_use)) => other == task && has_risen(after, task, in_use),
        None => false,
    }
}

fn is_call_of(task: u32, step: &Step) -> bool
    ensures { result ≡ is_call_of task step.now }
{
    match *step {
        Step::Call { task: caller, .. } => caller == task,
        _ => false,
    }
}

/// Whether the step finishes a call of the task.
pub(crate) fn is_finish_of(task: u32, step: &Step) -> bool
    ensures { result ≡ is_finish_of task step.now }
{
    match *step {
        Step::Call {
            task: caller,
            call: Call::Finish,
            ..
        } => caller == task,
        _ => false,
    }
}

/// Whether the step finishes a call of the task that got nothing.
pub(crate) fn is_timeout(task: u32, step: &Step, reply: Reply) -> bool
    ensures { result ≡ (is_finish_of task step.now && says_run_out reply) }
{
    is_finish_of(task, step) && says_run_out(reply)
}

fn is_take_of(mutex: u32, step: &Step) -> bool
    ensures { result ≡ is_take_of mutex step.now }
{
    match *step {
        Step::Call {
            call: Call::MutexTake { mutex: taken, .. },
            ..
        } => taken == mutex,
        _ => false,
    }
}

fn is_transfer_of(queue: u32, step: &Step) -> bool
    ensures { result ≡ is_transfer_of queue step.now }
{
    match *step {
        Step::Call {
            call: Call::QueueSend { queue: used, .. } | Call::QueueReceive { queue: used, .. },
            ..
        } => used == queue,
        _ => false,
    }
}

// Whether the call may wait until a time.
fn is_delay(call: Call) -> bool
    ensures { result ≡ is_delay call }
{
    matches!(call, Call::Delay { .. } | Call::DelayUntil { .. })
}

// Whether the call may wait for a notification.
fn is_note_wait(call: Call) -> bool
    ensures { result ≡ is_note_wait call }
{
    matches!(call, Call::NotifyWait { .. } | Call::NotifyTake { .. })
}

// The mutex that the call takes.
fn taken_by(call: Call) -> Option<u32>
    ensures { result ≡ taken_by call }
{
    match call {
        Call::MutexTake { mutex, .. } => Some(mutex),
        _ => None,
    }
}

// The queue that the call is of, and the way of its message.
fn moved_by(call: Call) -> Option<(u32, Direction)>
    ensures { result ≡ moved_by call }
{
    match call {
        Call::QueueSend { queue, .. } => Some((queue, Direction::Send)),
        Call::QueueReceive { queue, .. } => Some((queue, Direction::Receive)),
        _ => None,
    }
}

// Whether the call may wait for the cause.
fn may_wait_for(cause: Cause, call: Call) -> bool
    ensures { result ≡ may_wait_for cause call }
{
    match cause {
        Cause::Delay => is_delay(call),
        Cause::Notification => is_note_wait(call),
        Cause::AnyMutex => taken_by(call).is_some(),
        Cause::Mutex(mutex) => taken_by(call).is_some_and(|taken| taken == mutex),
        Cause::AnyQueue => moved_by(call).is_some(),
        Cause::Queue { queue, direction } => match moved_by(call) {
            Some((used, way)) => used == queue && is_same_direction(way, direction),
            None => false,
        },
    }
}

// Whether the step is a call of the task that may wait for the cause.
fn is_call_for(task: u32, cause: Cause, step: &Step) -> bool
    ensures { result ≡ is_call_for task cause step.now }
{
    match *step {
        Step::Call {
            task: caller,
            call,
            ..
        } => caller == task && may_wait_for(cause, call),
        _ => false,
    }
}

fn says_late(reply: Reply) -> bool
    ensures { result ≡ says_late reply }
{
    match reply {
        Reply::Until { delayed, .. } => !delayed,
        _ => false,
    }
}

/// Whether the reply refuses the step.
pub(crate) fn is_refused(reply: Reply) -> bool
    ensures { result ≡ is_refused reply }
{
    matches!(reply, Reply::Refused(_))
}

// Whether the core has another task than the one that it had before it switched.
fn has_switched(left: Option<(u32, u32)>, after: &Kernel, core: u32) -> bool
    requires { ForSome left (λ left. left.0 < after.now.settings.cores) }
    ensures { result ≡ has_switched left after.now.control core }
{
    match left {
        Some((switched, left)) => switched == core && after.running(switched) != left,
        None => false,
    }
}

// Whether the core that had the task before it switched has another.
fn has_left(left: Option<(u32, u32)>, after: &Kernel, task: u32) -> bool
    requires { ForSome left (λ left. left.0 < after.now.settings.cores) }
    ensures { result ≡ has_left left after.now.control task }
{
    match left {
        Some((core, left)) => left == task && after.running(core) != left,
        None => false,
    }
}

fn is_it(found: Option<u32>, wanted: u32) -> bool
    ensures { result ≡ is_it found wanted }
{
    match found {
        Some(found) => found == wanted,
        None => false,
    }
}

fn says_false(reply: Reply) -> bool
    ensures { result ≡ says_false reply }
{
    match reply {
        Reply::Flag(flag) => !flag,
        _ => false,
    }
}

// Whether the step is an interrupt of the core.
fn is_interrupt_of(core: u32, step: &Step) -> bool
    ensures { result ≡ is_interrupt_of core step.now }
{
    match *step {
        Step::Interrupt { core: on, .. }
        | Step::QueueInterrupt { core: on, .. }
        | Step::ResumeInterrupt { core: on, .. } => on == core,
        _ => false,
    }
}

// What the end of a wait answers where its ticks ran out.
fn says_run_out(reply: Reply) -> bool
    ensures { result ≡ says_run_out reply }
{
    match reply {
        Reply::Flag(flag) => !flag,
        Reply::Waited { ok, .. } => !ok,
        Reply::Value(value) => value == 0,
        _ => false,
    }
}

fn is_refusal(why: Refusal, reply: Reply) -> bool
    ensures { result ≡ is_refusal why reply }
{
    match reply {
        Reply::Refused(given) => given.code() == why.code(),
        _ => false,
    }
}

/// Whether the reply is to a call whose task waits.
pub(crate) fn is_wait(reply: Reply) -> bool
    ensures { result ≡ is_wait reply }
{
    matches!(reply, Reply::Blocked)
}

/// Whether the step was the event, by what was known before it, its reply and the state after it.
pub(crate) fn happens(
    event: Event,
    before: BeforeStep,
    step: &Step,
    reply: Reply,
    after: &Kernel,
) -> bool
    requires event { IsEventOf after.now.settings event }
    requires core { ForSome before.left (λ left. left.0 < after.now.settings.cores) }
    requires sound { StandsForSome after.now }
    ensures { result ≡ happens_after event before step.now reply after.now.control }
{
    match event {
        Event::SwitchedIn { task } => switched_in(before.left, after, task),
        Event::Inherits { task } => inherited(before.raised, after, task),
        Event::TimesOut { task } => is_timeout(task, step, reply),
        Event::Refused { task, why } => is_call_of(task, step) && is_refusal(why, reply),
        Event::Late { task } => is_call_of(task, step) && says_late(reply),
        Event::Called { task, cause } => is_call_for(task, cause, step) && !is_refused(reply),
        Event::SwitchedOn { core } => has_switched(before.left, after, core),
        Event::PutOff { task } => has_left(before.left, after, task) && before.ready,
        Event::Loses { task } => is_it(before.overrun, task) && !is_refused(reply),
        Event::Interrupted { core } => is_interrupt_of(core, step),
        Event::NotTaken { mutex } => is_it(before.taken, mutex) && says_false(reply),
        Event::Awaited { mutex } => is_take_of(mutex, step) && is_wait(reply),
        Event::QueueAwaited { queue } => is_transfer_of(queue, step) && is_wait(reply),
    }
}
