//! What a session starts from: its settings and its user tasks.
ghost use Rattle.std.specs.Prelude.{◌≡◌, nat_lt, ◌++◌, Ok, IfNone, IfOk, OnOk, string_bytes};
ghost use Rattle.bench_types.specs.Flaw.{header_flaw};
ghost use Rattle.bench_types.specs.Header.{header_check, cores_of_mask as cores_in, name_of, queue_count, IsCheckedHeader};

use crate::flaw::args_flaw;
use crate::mask::cores_of_mask;
use crate::{Fault, HeaderFlaw, Items, Name};
use std::alloc::{AllocError, Global};

/// The settings of a session.
#[derive(Clone, Copy, Debug, PartialEq, Eq, Hash)]
pub struct Config {
    /// How many cores there are, [`MIN_CORES`](crate::MIN_CORES) to
    /// [`MAX_CORES`](crate::MAX_CORES) (`configNUMBER_OF_CORES`).
    pub cores: u32,
    /// How many priorities there are, 1 to [`MAX_PRIORITIES`](crate::MAX_PRIORITIES)
    /// (`configMAX_PRIORITIES`). A larger number is a higher priority.
    pub priorities: u32,
    /// Whether tasks of one priority share the cores by turns (`configUSE_TIME_SLICING`).
    pub slicing: bool,
    /// The tick count at the start, in ticks.
    pub tick: u32,
    /// How many mutexes there are, 0 to [`MAX_MUTEXES`](crate::MAX_MUTEXES).
    pub mutexes: u32,
    /// How many notifications each task has, 1 to [`MAX_NOTES`](crate::MAX_NOTES)
    /// (`configTASK_NOTIFICATION_ARRAY_ENTRIES`).
    pub notes: u32,
    /// How many units of time a tick has, 1 to [`MAX_UNITS`](crate::MAX_UNITS); 1 in a session of
    /// format 1 or 2, where time is counted in ticks. Of a tick of 1 ms and 1000 units a unit is a
    /// microsecond.
    pub units: u32,
}

/// What a user task is created with.
#[derive(Debug, Drop)]
pub struct TaskArgs {
    pub name: Name,
    /// Below the number of priorities.
    pub priority: u32,
    /// The core affinity mask: bit c allows core c. Bits at or above the number of cores mean
    /// nothing.
    pub mask: u32,
}

/// What a queue or a semaphore is created with. Its messages are counted alone, since what they say
/// decides no scheduling.
#[derive(Clone, Copy, Debug, PartialEq, Eq, Hash)]
pub struct QueueArgs {
    /// How many messages it holds at most, 1 to [`MAX_MESSAGES`](crate::MAX_MESSAGES)
    /// (`uxQueueLength` of `xQueueCreate`, `uxMaxCount` of `xSemaphoreCreateCounting`).
    pub length: u32,
    /// How many it holds at the start, at most its length (`uxInitialCount`).
    pub messages: u32,
}

/// What a session starts from.
///
/// Tasks 0 to N - 1 are the idle tasks of N cores. The user tasks are numbered from N in the order
/// of `tasks`.
#[derive(Debug, Drop)]
pub struct Header {
    pub config: Config,
    /// The queues and semaphores, at most [`MAX_QUEUES`](crate::MAX_QUEUES) of them. None in a
    /// session of format 1 or 2, which says nothing of queues.
    pub queues: Option<Items<QueueArgs>>,
    /// The user tasks, 1 to [`MAX_TASKS`](crate::MAX_TASKS) of them, with distinct names.
    pub tasks: Items<TaskArgs>,
}

impl TaskArgs {
    /// A second value of the same arguments.
    pub fn copy(&self) -> Self
        ensures { result ≡ self.now }
    {
        TaskArgs {
            name: self.name.copy(),
            priority: self.priority,
            mask: self.mask,
        }
    }
}

impl Header {
    /// The first thing for which the header is not accepted, in the order of [`HeaderFlaw`]; none
    /// where it is accepted.
    #[tactic(auto, unfolding(crate::specs::Flaw::header_flaw))]
    pub fn flaw(&self) -> Option<HeaderFlaw>
        ensures value { result ≡ header_flaw self.now }
        // So names are names, and numbers are of 32 bits.
        ensures checked { IfNone result (IsCheckedHeader self.now) }
    {
        // The tick count may be any. It is read, so it is known to be one of 32 bits.
        let _tick = self.config.tick;
        let tasks = self.tasks.as_slice();
        match self.config.flaw(&self.queues, tasks.len()) {
            Some(flaw) => Some(flaw),
            None => args_flaw(self.config, tasks),
        }
    }

    /// F1 where the header has a flaw.
    pub fn check(&self) -> Result<(), Fault>
        ensures value { result ≡ header_check self.now }
        ensures checked { OnOk result (IsCheckedHeader self.now) }
    {
        match self.flaw() {
            None => Ok(()),
            Some(_) => Err(Fault::BadHeader),
        }
    }

    /// A second value of the same header.
    pub fn copy(&self, alloc: Global) -> Result<Self, AllocError>
        ensures { IfOk result (λ copy. copy ≡ self.now) }
    {
        let tasks = self.tasks.as_slice();
        let mut copies = Vec::with_capacity(alloc, tasks.len())?;
        for task in tasks {
            copies.push(task.copy())?;
        }
        Ok(Header {
            config: self.config,
            queues: copy_queues(alloc, &self.queues)?,
            tasks: Items::new(copies),
        })
    }

    /// How many queues there are; none in a session that says nothing of queues.
    pub fn queue_count(&self) -> Option<u32>
        requires { header_check self.now ≡ Ok tt }
        ensures { result ≡ queue_count self.now }
    {
        match &self.queues {
            None => None,
            Some(queues) => Some(queues.as_slice().len() as u32),
        }
    }

    /// Writes the name of the task after the text. A number that is no task has no name.
    pub fn push_name(&self, text: &mut String, task: u32) -> Result<(), AllocError>
        ensures { OnOk result
            (string_bytes text.new ≡ string_bytes text.old ++ name_of self.now task) }
    {
        let cores = self.config.cores;
        if task < cores {
            return write!(text, "IDLE{task}");
        }
        match self.tasks.as_slice().get((task - cores) as usize) {
            Some(args) => text.push_str(args.name.as_str()),
            None => Ok(()),
        }
    }
}

/// A second value of the same queues.
pub fn copy_queues(
    alloc: Global,
    queues: &Option<Items<QueueArgs>>,
) -> Result<Option<Items<QueueArgs>>, AllocError>
    ensures { IfOk result (λ copy. copy ≡ queues.now) }
{
    match queues {
        None => Ok(None),
        Some(queues) => {
            let copies = Vec::from_slice(alloc, queues.as_slice())?;
            Ok(Some(Items::new(copies)))
        }
    }
}

/// Whether a bit of the mask means one of so many cores.
pub(crate) fn allows_core(cores: u32, mask: u32) -> bool
    ensures { result ≡ nat_lt 0 (cores_in cores mask) }
{
    cores_of_mask(cores, mask) != 0
}
