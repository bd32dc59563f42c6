//! For what a step, an action or an edit is not accepted.
ghost use Rattle.std.specs.Prelude.{◌≡◌};
ghost use Rattle.bench_types.specs.StepFlaw.{flaw_fault, check_of};

use crate::Fault;

/// A thing for which a step, an action or an edit is not accepted under a header.
#[derive(Clone, Copy, Debug, PartialEq, Eq)]
pub enum StepFlaw {
    /// The core is none of so many.
    Core { core: u32, cores: u32 },
    /// This core makes no ticks: core 0 does.
    TickCore(u32),
    /// The task is no user task.
    Task(u32),
    /// The mutex is none of so many.
    Mutex { mutex: u32, mutexes: u32 },
    /// The queue is none of so many; there is none in a session that says nothing of queues.
    Queue { queue: u32, queues: usize },
    /// The core affinity mask has a bit for none of so many cores.
    Mask { mask: u32, cores: u32 },
    /// The next wake is 0 ticks after the last one.
    Increment,
    /// A session that says nothing of queues suspends and resumes no task.
    Suspending,
    /// A tick has one unit of time, so none goes by between ticks.
    NoUnits,
    /// No unit of time goes by.
    NoTime,
    /// A task has so many notifications, and none of this index.
    Index { index: u32, notes: u32 },
    /// The new priority of a task is not below this number of priorities.
    NewPriority { priority: u32, priorities: u32 },
    /// The new core affinity mask of a task has a bit for none of so many cores.
    NewMask { mask: u32, cores: u32 },
}

impl StepFlaw {
    /// The fault that it is.
    pub fn fault(self) -> Fault
        ensures { result ≡ flaw_fault self }
    {
        match self {
            StepFlaw::Core { .. } | StepFlaw::TickCore(_) => Fault::BadCore,
            StepFlaw::Task(_) => Fault::BadTask,
            StepFlaw::Mutex { .. } | StepFlaw::Queue { .. } => Fault::BadMutex,
            StepFlaw::Mask { .. }
            | StepFlaw::Increment
            | StepFlaw::Suspending
            | StepFlaw::NoUnits
            | StepFlaw::NoTime
            | StepFlaw::Index { .. } => Fault::BadArgument,
            StepFlaw::NewPriority { .. } | StepFlaw::NewMask { .. } => Fault::BadHeader,
        }
    }
}

/// What a check answers where this is the first flaw.
pub(crate) fn check_of(flaw: Option<StepFlaw>) -> Result<(), Fault>
    ensures { result ≡ check_of flaw }
{
    match flaw {
        None => Ok(()),
        Some(flaw) => Err(flaw.fault()),
    }
}
