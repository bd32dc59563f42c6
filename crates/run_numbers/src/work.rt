//! What tasks do between two waits for work.
ghost use Rattle.std.specs.Prelude.{◌≡◌, ◌<◌, ◌^◌, ℕ, IfOk, false, length, map, option_map};
ghost use Rattle.std.specs.Option.{option_map_or};
ghost use Rattle.bench_types.specs.Cause.{cause_of};
ghost use Rattle.bench_model.specs.Lists.{list_queues};
ghost use Rattle.bench_model.specs.State.{call_at};
ghost use Rattle.bench_model.specs.Tally.{is_finish_of};
ghost use Rattle.list_orders.specs.Search.{numbers};
ghost use Rattle.task_jobs.specs.Crowds.{first_crowd};
ghost use Rattle.task_jobs.specs.Works.{HasRoom};
ghost use Rattle.run_numbers.specs.Progress.{job_number, work_in};
ghost use Rattle.run_numbers.specs.Readings.{only, reading_in_all};
ghost use Rattle.run_numbers.specs.Taking.{takers_in};
ghost use Rattle.run_numbers.specs.Turns.{first_in, turn_in, wake_by, work_before};
ghost use Rattle.run_numbers.specs.Work.{asks, asks_for_work, core_of, is_for_work, is_request_of, mutex_in, released, rests, retakes, takes, time_ago, until_by, until_in, until_of, wake_time};

use crate::counter::Made;
use crate::event::{is_finish_of, is_refused, is_timeout, is_wait};
use crate::state::stands_blocked;
use crate::{JobNumber, Reading};
use bench_model::until::{is_ahead, next_wake};
use bench_types::{BlockingCall, Call, Cause, Direction, Reply, Step, Unfinished};
use smp_kernel::Kernel;
use std::alloc::{AllocError, Global};
use task_jobs::{Crowd, Durations, First, Turn, Wake, Work};

/// A call of `xTaskDelayUntil`.
#[derive(Clone, Copy)]
pub(crate) struct Until {
    /// The last wake.
    prev: u32,
    /// The ticks from that to the next.
    inc: u32,
}

// Whether a call that waits for this waits for work: until a time, for a notification or for a
// message.
fn is_for_work(cause: Cause) -> bool
    ensures { result ≡ is_for_work cause }
{
    matches!(
        cause,
        Cause::Delay
            | Cause::Notification
            | Cause::Queue {
                direction: Direction::Receive,
                ..
            }
    )
}

// Whether the call asks for work, and may wait for it.
fn asks_for_work(call: Call) -> bool
    ensures { result ≡ asks_for_work call }
{
    matches!(
        call,
        Call::Delay(_)
            | Call::DelayUntil { .. }
            | Call::NotifyWait { .. }
            | Call::NotifyTake { .. }
            | Call::QueueReceive { .. }
    )
}

fn is_request_of(task: u32, step: &Step) -> bool
    ensures { result ≡ is_request_of task step.now }
{
    match *step {
        Step::Call {
            task: caller,
            call,
            ..
        } => caller == task && asks_for_work(call),
        _ => false,
    }
}

/// Whether the task asks for work by the step, which is not refused.
pub(crate) fn asks(task: u32, step: &Step, reply: Reply) -> bool
    ensures { result ≡ asks task step.now reply }
{
    is_request_of(task, step) && !is_refused(reply)
}

/// Whether the task had been woken, and waits on.
pub(crate) fn retakes(task: u32, step: &Step, reply: Reply) -> bool
    ensures { result ≡ retakes task step.now reply }
{
    is_finish_of(task, step) && is_wait(reply)
}

// Whether the task is in a call that waits for work.
fn is_in_wait(kernel: &Kernel, task: u32) -> bool
    requires { task < kernel.now.settings.tasks }
    ensures { result
        ≡ option_map_or is_for_work (option_map cause_of (call_at kernel.now.calls task))
        false }
{
    match kernel.unfinished(task) {
        Some(call) => is_for_work(call.cause()),
        None => false,
    }
}

/// Whether the task waits for work: it is suspended, or blocked in a call that waits for work.
pub(crate) fn rests(kernel: &Kernel, task: u32) -> bool
    requires { task < kernel.now.settings.tasks }
    ensures { result ≡ rests list_queues task kernel.now }
{
    kernel.suspended(task) || (stands_blocked(kernel, task) && is_in_wait(kernel, task))
}

fn until_of(call: Option<Unfinished>) -> Option<Until>
    ensures { result ≡ until_of call }
{
    match call {
        Some(Unfinished::Made(BlockingCall::DelayUntil { prev, inc })) => Some(Until { prev, inc }),
        _ => None,
    }
}

fn until_in(call: Call) -> Option<Until>
    ensures { result ≡ until_in call }
{
    match call {
        Call::DelayUntil { prev, inc } => Some(Until { prev, inc }),
        _ => None,
    }
}

// The call that the task makes by the step, or else that in which it is.
fn until_by(task: u32, step: &Step, unfinished: Option<Unfinished>) -> Option<Until>
    ensures { result ≡ until_by task step.now unfinished }
{
    match *step {
        Step::Call {
            task: caller,
            call,
            ..
        } if caller == task => until_in(call),
        _ => until_of(unfinished),
    }
}

// The time after the tick that was so many ticks ago; the start of the run, where there was none.
fn time_ago(ticks: &[u64], ago: u32) -> u64
    ensures { result ≡ time_ago ticks.now ago }
{
    let ago = ago as usize;
    if ago < ticks.len() {
        ticks[ticks.len() - 1 - ago]
    } else {
        0
    }
}

// The time of the wake that was asked for, at this tick count; now, where it lies ahead.
fn wake_time(until: Until, count: u32, ticks: &[u64], now: u64) -> u64
    ensures { result ≡ wake_time until count ticks.now now }
{
    let wake = next_wake(until.prev, until.inc);
    if is_ahead(count, until.prev, wake) {
        now
    } else {
        time_ago(ticks, count.wrapping_sub(wake))
    }
}

/// When a job that the step begins was asked for, after these ticks.
pub(crate) fn released(kernel: &Kernel, task: u32, step: &Step, ticks: &[u64], now: u64) -> u64
    requires { task < kernel.now.settings.tasks }
    ensures { result ≡ released list_queues task step.now kernel.now ticks.now now }
{
    match until_by(task, step, kernel.unfinished(task)) {
        Some(until) => wake_time(until, kernel.tick(), ticks, now),
        None => now,
    }
}

// The core that has the task, if one has it.
fn core_of(kernel: &Kernel, task: u32) -> Option<u32>
    ensures { result ≡ core_of task kernel.now }
{
    (0..kernel.settings().cores).find(|core| kernel.running(*core) == task)
}

// The mutex that the call of the task takes that has not returned.
fn takes(kernel: &Kernel, task: u32) -> Option<u32>
    requires { task < kernel.now.settings.tasks }
    ensures { result ≡ takes task kernel.now }
{
    match kernel.unfinished(task)?.cause() {
        Cause::Mutex(mutex) => Some(mutex),
        _ => None,
    }
}

// What the step is to the waits of the task.
fn wake_of(made: &Made<'_>, task: u32) -> Wake
    requires { task < made.now.after.now.settings.tasks }
    ensures { result
        ≡ wake_by made.now.step.now made.now.reply made.now.after.now task }
{
    Wake {
        ready: made.after.ready(task),
        tick: matches!(*made.step, Step::Tick),
        in_vain: is_timeout(task, made.step, made.reply),
    }
}

/// What the step is to the task.
pub(crate) fn turn_of(made: &Made<'_>, task: u32) -> Turn
    requires { task < made.now.after.now.settings.tasks }
    ensures { result ≡ turn_in made.now task }
{
    let Made {
        step,
        reply,
        after: kernel,
        elapsed,
        ..
    } = *made;
    Turn {
        rests: rests(kernel, task),
        asks: asks(task, step, reply),
        retakes: retakes(task, step, reply),
        core: core_of(kernel, task),
        wake: wake_of(made, task),
        in_call: kernel.unfinished(task).is_some(),
        takes: takes(kernel, task),
        place: made.place,
        before: made.began,
        after: elapsed,
        release: released(kernel, task, step, made.ticks, elapsed),
    }
}

// What is known of the task before any step.
fn first_of(kernel: &Kernel, task: u32) -> First
    requires { task < kernel.now.settings.tasks }
    ensures { result ≡ first_in kernel.now task }
{
    First {
        rests: rests(kernel, task),
        core: core_of(kernel, task),
        ready: kernel.ready(task),
        in_call: kernel.unfinished(task).is_some(),
        takes: takes(kernel, task),
    }
}

/// What each task does before any step.
pub(crate) fn first_works(alloc: Global, kernel: &Kernel) -> Result<Vec<Work>, AllocError>
    ensures { IfOk result
        (λ works. works.items
        ≡ map (work_before kernel.now) (numbers kernel.now.settings.tasks)) }
{
    let tasks = kernel.settings().tasks;
    let mut works = Vec::with_capacity(alloc, tasks as usize)?;
    for task in 0..tasks {
        works.push(Work::start(&first_of(kernel, task)))?;
    }
    Ok(works)
}

// How many of the tasks take the mutex.
fn takers(works: &[Work], mutex: u32) -> u32
    requires { length works.now < 2 ^ 32 }
    ensures { result ≡ takers_in works.now mutex }
{
    works
        .iter()
        .filter(|work| work.takes == Some(mutex))
        .count() as u32
}

/// The tasks that wait for each mutex before any step.
pub(crate) fn first_crowds(
    alloc: Global,
    mutexes: u32,
    works: &[Work],
) -> Result<Vec<Crowd>, AllocError>
    requires { length works.now < 2 ^ 32 }
    ensures { IfOk result
        (λ crowds. crowds.items
        ≡ map (λ mutex. first_crowd (takers_in works.now mutex)) (numbers mutexes)) }
{
    let mut crowds = Vec::with_capacity(alloc, mutexes as usize)?;
    for mutex in 0..mutexes {
        crowds.push(Crowd::start(takers(works, mutex)))?;
    }
    Ok(crowds)
}

fn reading_in_all(all: Durations) -> Reading
    ensures { result ≡ reading_in_all all }
{
    Reading {
        total: all.total,
        longest: all.longest,
        from: all.from,
    }
}

// A number that has no stretch.
fn only(total: u64) -> Reading
    ensures { result ≡ only total }
{
    Reading {
        total,
        longest: 0,
        from: 0,
    }
}

/// A number of the jobs of a task, by its work up to now.
pub(crate) fn job_number(now: u64, work: &Work, number: JobNumber) -> Reading
    requires { HasRoom work.now }
    ensures { result ≡ job_number now work.now number }
{
    match number {
        JobNumber::Count => only(u64::from(work.responses_now(now).count)),
        JobNumber::Response => reading_in_all(work.responses_now(now)),
        JobNumber::ShortestResponse => only(work.responses.shortest),
        JobNumber::Latency => reading_in_all(work.latencies_now(now)),
        JobNumber::Period => reading_in_all(work.periods),
        JobNumber::ShortestPeriod => only(work.periods.shortest),
    }
}
