//! What a step is to a task that is counted.
ghost use Rattle.std.specs.Prelude.{◌≡◌, ◌<◌};
ghost use Rattle.std.specs.Option.{ForSome};
ghost use Rattle.bench_model.specs.Control.{current};
ghost use Rattle.bench_model.specs.Tally.{is_displacement, says_run_out};
ghost use Rattle.tallies.specs.Counting.{event_of, event_of_call, event_of_switch, is_finish, left_by, task_of};
ghost use Rattle.smp_kernel.specs.Kernel.{StandsForSome};

use bench_types::{Call, Refusal, Reply, Step};
use smp_kernel::Kernel;

/// What a step that is no tick is to one task.
#[derive(Clone, Copy)]
pub(crate) enum Event {
    /// A switch put it on a core that had another task.
    SwitchedIn(u32),
    /// Its call was refused, since it was not the current task of the core.
    Displaced(u32),
    /// It finished a wait whose ticks ran out.
    RanOut(u32),
}

impl Event {
    /// The task that it is an event of.
    pub(crate) fn task(self) -> u32
        ensures { result ≡ task_of self }
    {
        match self {
            Event::SwitchedIn(task) | Event::Displaced(task) | Event::RanOut(task) => task,
        }
    }
}

/// The core that is to switch, and the task that it has; none for another step.
#[tactic(auto, unfolding(crate::specs::Counting::left_by))]
pub(crate) fn left_by(kernel: &Kernel, step: &Step) -> Option<(u32, u32)>
    ensures left { result ≡ left_by kernel.now step.now }
    ensures core { ForSome result (λ left. left.0 < kernel.now.settings.cores) }
    ensures sound { StandsForSome kernel.now }
{
    let cores = kernel.settings().cores;
    match step {
        Step::Switch { core } if *core < cores => Some((*core, kernel.running(*core))),
        _ => None,
    }
}

/// What the step was to a task, where this core switched from this task.
pub(crate) fn event_of(
    left: Option<(u32, u32)>,
    step: &Step,
    reply: Reply,
    after: &Kernel,
) -> Option<Event>
    requires { ForSome left (λ left. left.0 < after.now.settings.cores) }
    ensures { result ≡ event_of left step.now reply after.now.control }
{
    match (left, step) {
        (Some((core, left)), _) => event_of_switch(left, after.running(core)),
        (None, Step::Call { task, call, .. }) => event_of_call(*task, *call, reply),
        _ => None,
    }
}

fn event_of_switch(left: u32, runs: u32) -> Option<Event>
    ensures { result ≡ event_of_switch left runs }
{
    if runs == left {
        None
    } else {
        Some(Event::SwitchedIn(runs))
    }
}

fn event_of_call(task: u32, call: Call, reply: Reply) -> Option<Event>
    ensures { result ≡ event_of_call task call reply }
{
    if is_displacement(reply) {
        Some(Event::Displaced(task))
    } else if is_finish(call) && says_run_out(reply) {
        Some(Event::RanOut(task))
    } else {
        None
    }
}

fn is_displacement(reply: Reply) -> bool
    ensures { result ≡ is_displacement reply }
{
    match reply {
        Reply::Refused(Refusal::Displaced) => true,
        _ => false,
    }
}

fn is_finish(call: Call) -> bool
    ensures { result ≡ is_finish call }
{
    match call {
        Call::Finish => true,
        _ => false,
    }
}

// What the end of a wait answers where its ticks ran out.
fn says_run_out(reply: Reply) -> bool
    ensures { result ≡ says_run_out reply }
{
    match reply {
        Reply::Flag(flag) => !flag,
        Reply::Waited { ok, .. } => !ok,
        Reply::Value(value) => value == 0,
        _ => false,
    }
}
