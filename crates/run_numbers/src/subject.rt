//! What a run is measured by.
ghost use Rattle.std.specs.Prelude.{◌≡◌};
ghost use Rattle.run_numbers.specs.Tasks.{task_at, task_in, task_of};

use bench_types::{Direction, Refusal};

/// Why a task is blocked.
#[derive(Clone, Copy, Debug, PartialEq, Eq)]
pub enum Cause {
    /// It waits for some ticks (`vTaskDelay`, `xTaskDelayUntil`).
    Delay,
    /// It waits for a notification.
    Notification,
    /// It waits for a mutex, whichever.
    AnyMutex,
    /// It waits for this mutex.
    Mutex(u32),
    /// It waits at a queue, whichever and whichever way.
    AnyQueue,
    /// It waits at this queue for a message to go this way.
    Queue { queue: u32, direction: Direction },
}

/// What holds of a task, a core, a mutex or a queue at a place, or does not.
#[derive(Clone, Copy, Debug, PartialEq, Eq)]
pub enum Condition {
    /// The task is the current one of a core.
    Running { task: u32 },
    /// The task is the current one of this core.
    RunningOn { task: u32, core: u32 },
    /// The task is ready and on no core.
    WantsCore { task: u32 },
    /// It waits so while a core that it may run on has a task of lower effective priority.
    Inverted { task: u32 },
    /// The task is blocked for this cause.
    Blocked { task: u32, cause: Cause },
    /// The task is blocked on a mutex whose holder has a lower base priority and is on no core.
    HeldUp { task: u32 },
    /// The task is suspended (`eSuspended`).
    Suspended { task: u32 },
    /// The task has made a call that waits for this cause, and the call has not returned.
    InCall { task: u32, cause: Cause },
    /// The priority that the task has in use is above its base priority: it inherited it.
    Raised { task: u32 },
    /// The preemption of the task is off (`vTaskPreemptionDisable`).
    PreemptionOff { task: u32 },
    /// The core has a user task.
    Busy { core: u32 },
    /// The core has an idle task.
    Idle { core: u32 },
    /// The core is due to switch.
    Due { core: u32 },
    /// The core holds the kernel.
    Holding { core: u32 },
    /// A task holds the mutex.
    Held { mutex: u32 },
    /// The queue has no message.
    Empty { queue: u32 },
    /// The queue has as many messages as it can have.
    Full { queue: u32 },
}

/// What a step is to a task, a mutex or a queue, or is not.
#[derive(Clone, Copy, Debug, PartialEq, Eq)]
pub enum Event {
    /// The task comes onto a core that had another.
    SwitchedIn { task: u32 },
    /// The task inherits a priority: the one that it has in use rises above its base priority.
    Inherits { task: u32 },
    /// The task finishes a wait whose ticks ran out.
    TimesOut { task: u32 },
    /// A call of the task is refused, and this is why.
    Refused { task: u32, why: Refusal },
    /// The task delays until a time that is gone (`xTaskDelayUntil`).
    Late { task: u32 },
    /// The task makes a call that may wait for this cause, and is not refused.
    Called { task: u32, cause: Cause },
    /// The core switches to another task than it had.
    SwitchedOn { core: u32 },
    /// A switch takes the task from its core, and the task is ready (`eReady` then).
    PutOff { task: u32 },
    /// A value that is sent to the task comes where another is unread: one of them is lost.
    Loses { task: u32 },
    /// An interrupt comes to the core; ticks are none of them.
    Interrupted { core: u32 },
    /// A call that takes the mutex ends without it.
    NotTaken { mutex: u32 },
    /// A task begins to wait for the mutex.
    Awaited { mutex: u32 },
    /// A task begins to wait at the queue, whichever way.
    QueueAwaited { queue: u32 },
}

/// What a run as a whole has a number of.
#[derive(Clone, Copy, Debug, PartialEq, Eq)]
pub enum Whole {
    /// The units of time that it takes.
    Time,
    /// Its steps.
    Steps,
    /// The calls that a settled run did not make.
    NotMade,
}

/// What the jobs of a task have numbers of. A job is what the task does between two waits for work.
#[derive(Clone, Copy, Debug, PartialEq, Eq)]
pub enum JobNumber {
    /// How many jobs begin.
    Count,
    /// How long answers take, from the time at which the job was asked for to its end.
    Response,
    /// How long the shortest takes, of the jobs that end.
    ShortestResponse,
    /// How long jobs wait for a core, from the wake of the task on.
    Latency,
    /// The time from one wake of the task to the next.
    Period,
    /// The shortest such time.
    ShortestPeriod,
}

/// What there is a number of.
#[derive(Clone, Copy, Debug, PartialEq, Eq)]
pub enum Subject {
    /// The time that finds the condition, in units. Where a tick has one unit, these are the ticks
    /// that find it.
    Time(Condition),
    /// The steps that are the event.
    Steps(Event),
    /// The greatest priority that the task has in use.
    TopPriority { task: u32 },
    /// The greatest number of messages that the queue has.
    MostMessages { queue: u32 },
    /// The calls of the task that a settled run did not make.
    NotMade { task: u32 },
    /// A number of the jobs of the task.
    Job { task: u32, number: JobNumber },
    /// How often the task comes onto another core than its last.
    Migrations { task: u32 },
    /// The waits of the task that get nothing and that a tick ended: its time was over then.
    RanOut { task: u32 },
    /// 1 where the task is in a call at the end that has not returned.
    Unfinished { task: u32 },
    /// The time of all tasks in calls that take the mutex, at most 2^64 - 1.
    MutexWait { mutex: u32 },
    /// A number of the run as a whole.
    Run(Whole),
}

/// The numbers of a subject.
#[derive(Clone, Copy, Debug, PartialEq, Eq)]
pub struct Reading {
    /// How many units of time, steps or calls there are, or the greatest priority or number of
    /// messages.
    pub total: u64,
    /// Of a condition the most time that finds it, in units, while it never fails; 0 of another
    /// subject.
    pub longest: u64,
    /// The place of the first step that takes some of this time; 0 where there is none.
    pub from: u32,
}

/// A subject with its numbers.
#[derive(Clone, Copy, Debug, PartialEq, Eq)]
pub struct Measured {
    pub subject: Subject,
    pub reading: Reading,
}

impl Condition {
    /// The task that the condition is of, if it is of a task.
    pub fn task(self) -> Option<u32>
        ensures { result ≡ task_in self }
    {
        match self {
            Condition::Running { task }
            | Condition::RunningOn { task, .. }
            | Condition::WantsCore { task }
            | Condition::Inverted { task }
            | Condition::Blocked { task, .. }
            | Condition::HeldUp { task }
            | Condition::Suspended { task }
            | Condition::InCall { task, .. }
            | Condition::Raised { task }
            | Condition::PreemptionOff { task } => Some(task),
            Condition::Busy { .. }
            | Condition::Idle { .. }
            | Condition::Due { .. }
            | Condition::Holding { .. }
            | Condition::Held { .. }
            | Condition::Empty { .. }
            | Condition::Full { .. } => None,
        }
    }
}

impl Event {
    /// The task that the event is of, if it is of a task.
    pub fn task(self) -> Option<u32>
        ensures { result ≡ task_at self }
    {
        match self {
            Event::SwitchedIn { task }
            | Event::Inherits { task }
            | Event::TimesOut { task }
            | Event::Refused { task, .. }
            | Event::Late { task }
            | Event::Called { task, .. }
            | Event::PutOff { task }
            | Event::Loses { task } => Some(task),
            Event::SwitchedOn { .. }
            | Event::Interrupted { .. }
            | Event::NotTaken { .. }
            | Event::Awaited { .. }
            | Event::QueueAwaited { .. } => None,
        }
    }
}

impl Subject {
    /// The task that the subject is of, if it is of a task.
    pub fn task(self) -> Option<u32>
        ensures { result ≡ task_of self }
    {
        match self {
            Subject::Time(condition) => condition.task(),
            Subject::Steps(event) => event.task(),
            Subject::TopPriority { task }
            | Subject::NotMade { task }
            | Subject::Job { task, .. }
            | Subject::Migrations { task }
            | Subject::RanOut { task }
            | Subject::Unfinished { task } => Some(task),
            Subject::MostMessages { .. } | Subject::MutexWait { .. } | Subject::Run(_) => None,
        }
    }
}
