//! The steps of a session, and for what they are not accepted.
ghost use Rattle.std.specs.Prelude.{◌≡◌, ◌<◌, ◌^◌, OnOk};
ghost use Rattle.bench_types.specs.Step.{core_of, settings_of, call_check, step_check, IsNotifyActionOfWord, IsCheckedCall, IsCheckedStep, IsOfWords, IsStepOfWords};
ghost use Rattle.bench_types.specs.StepFlaw.{call_flaw, core_flaw, increment_flaw, index_flaw, check_of, mask_flaw, mutex_flaw, note_flaw, pass_flaw, queue_flaw, resume_flaw, step_flaw, suspending_flaw, task_flaw};

use crate::header::allows_core;
use crate::step_flaw::check_of;
use crate::{Fault, Header, Note, NotifyAction, StepFlaw};

/// One event of a session.
#[derive(Clone, Copy, Debug, PartialEq, Eq, Hash)]
pub enum Step {
    /// The tick interrupt, which core 0 serves.
    Tick,
    /// The switch of a core to the task that it selects.
    Switch {
        core: u32,
    },
    /// A call of the kernel that the task makes on the core.
    Call {
        core: u32,
        task: u32,
        call: Call,
    },
    /// An interrupt of the core, whose handler notifies a task (`xTaskNotifyFromISR`).
    Interrupt {
        core: u32,
        note: Note,
    },
    /// An interrupt of the core, whose handler sends a message to the queue or receives one from it
    /// (`xQueueSendFromISR`, `xQueueReceiveFromISR`), where that can be done at once.
    QueueInterrupt {
        core: u32,
        queue: u32,
        direction: Direction,
    },
    /// An interrupt of the core, whose handler resumes a task (`xTaskResumeFromISR`).
    ResumeInterrupt {
        core: u32,
        task: u32,
    },
    /// So many units of time go by, in which nothing else happens. No core makes it.
    Pass {
        units: u32,
    },
}

/// Which way a message goes: into a queue or out of it.
#[derive(Clone, Copy, Debug, PartialEq, Eq, Hash)]
pub enum Direction {
    /// Into the queue.
    Send,
    /// Out of the queue.
    Receive,
}

/// A call of the kernel.
#[derive(Clone, Copy, Debug, PartialEq, Eq, Hash)]
pub enum Call {
    /// `taskYIELD`.
    Yield,
    /// `vTaskDelay`, of so many ticks.
    Delay(u32),
    /// `xTaskDelayUntil` the tick count that lies `inc` ticks after `prev`, the one at which the
    /// task woke last.
    DelayUntil {
        prev: u32,
        inc: u32,
    },
    /// `vTaskPrioritySet` of the task. A priority that is none counts as the greatest.
    PrioritySet {
        task: u32,
        priority: u32,
    },
    /// `vTaskCoreAffinitySet` of the task. Bits at or above the number of cores mean nothing.
    AffinitySet {
        task: u32,
        mask: u32,
    },
    /// `vTaskPreemptionDisable` of the task.
    PreemptOff(u32),
    /// `vTaskPreemptionEnable` of the task.
    PreemptOn(u32),
    /// `xTaskNotifyIndexed`.
    Notify(Note),
    /// `xTaskNotifyWaitIndexed`, for so many ticks; 4294967295 is without end (`portMAX_DELAY`).
    /// The bits of `entry` are cleared before the task waits, those of `exit` once a notification
    /// has come.
    NotifyWait {
        entry: u32,
        exit: u32,
        ticks: u32,
        index: u32,
    },
    /// `ulTaskNotifyTakeIndexed`, for so many ticks; 4294967295 is without end. It clears the
    /// value, or counts it down.
    NotifyTake {
        clear: bool,
        ticks: u32,
        index: u32,
    },
    /// `xTaskNotifyStateClearIndexed` of the task.
    StateClear {
        task: u32,
        index: u32,
    },
    /// `ulTaskNotifyValueClearIndexed` of these bits of the task's value.
    ValueClear {
        task: u32,
        bits: u32,
        index: u32,
    },
    /// `xSemaphoreTake` of the mutex, for so many ticks; 4294967295 is without end.
    MutexTake {
        mutex: u32,
        ticks: u32,
    },
    /// `xSemaphoreGive` of the mutex.
    MutexGive(u32),
    /// `xQueueSend` to the queue, or `xSemaphoreGive` of a semaphore, for so many ticks; 4294967295
    /// is without end.
    QueueSend {
        queue: u32,
        ticks: u32,
    },
    /// `xQueueReceive` from the queue, or `xSemaphoreTake` of a semaphore, for so many ticks;
    /// 4294967295 is without end.
    QueueReceive {
        queue: u32,
        ticks: u32,
    },
    /// `vTaskSuspend` of the task, which may be the one that makes the call.
    Suspend(u32),
    /// `vTaskResume` of the task.
    Resume(u32),
    /// The return of the task's unfinished call, once the task runs again.
    Finish,
    /// `taskENTER_CRITICAL`: no other core makes a call and no core switches until as many calls of
    /// `HoldClose` were made.
    HoldOpen,
    /// `taskEXIT_CRITICAL`.
    HoldClose,
}

/// A call that blocks its task for some ticks or until a notification comes. What is kept of one
/// that takes a mutex is [`Unfinished::Take`], and of one that waits at a queue
/// [`Unfinished::Transfer`].
#[derive(Clone, Copy, Debug, PartialEq, Eq, Hash)]
pub enum BlockingCall {
    /// `vTaskDelay`, as [`Call::Delay`].
    Delay(u32),
    /// `xTaskDelayUntil`, as [`Call::DelayUntil`].
    DelayUntil {
        prev: u32,
        inc: u32,
    },
    /// `xTaskNotifyWaitIndexed`, as [`Call::NotifyWait`].
    NotifyWait {
        entry: u32,
        exit: u32,
        ticks: u32,
        index: u32,
    },
    /// `ulTaskNotifyTakeIndexed`, as [`Call::NotifyTake`].
    NotifyTake {
        clear: bool,
        ticks: u32,
        index: u32,
    },
}

/// A call that has not returned, with what of it still counts.
#[derive(Clone, Copy, Debug, PartialEq, Eq, Hash)]
pub enum Unfinished {
    /// The call waits for some ticks or for a notification.
    Made(BlockingCall),
    /// The call takes the mutex. `mark` says that the base priority of its holder was below the
    /// priority in use of the task when the task began to wait, so the holder may have inherited.
    Take { mutex: u32, mark: bool },
    /// The call sends to the queue or receives from it.
    Transfer { queue: u32, direction: Direction },
}

impl Step {
    /// The core that makes the step. A tick is made by core 0; a pass, which no core makes, counts
    /// as one of core 0.
    #[inline]
    pub fn core(&self) -> u32
        ensures { result ≡ core_of self.now }
    {
        match *self {
            Step::Tick | Step::Pass { .. } => 0,
            Step::Switch { core }
            | Step::Call { core, .. }
            | Step::Interrupt { core, .. }
            | Step::QueueInterrupt { core, .. }
            | Step::ResumeInterrupt { core, .. } => core,
        }
    }

    /// The first thing for which the step is not accepted, in the order in which they are tried:
    /// its core, its caller, then the arguments of its call.
    #[tactic(auto, using(crate::proofs::StepFlaws::step_check_of))]
    pub fn flaw(&self, header: &Header) -> Option<StepFlaw>
        ensures value { result ≡ step_flaw (settings_of header.now) self.now }
        // There is one exactly where the check is a fault, and it is that fault.
        ensures law { step_check (settings_of header.now) self.now ≡ check_of result }
        ensures words { IsStepOfWords self.now }
    {
        match *self {
            Step::Tick => None,
            Step::Switch { core } => core_flaw(core, header),
            Step::Call { core, task, call } => core_flaw(core, header)
                .or(task_flaw(task, header))
                .or(call.flaw(header)),
            Step::Interrupt { core, note } => core_flaw(core, header).or(note_flaw(note, header)),
            Step::QueueInterrupt { core, queue, .. } => {
                core_flaw(core, header).or(queue_flaw(queue, header))
            }
            Step::ResumeInterrupt { core, task } => {
                core_flaw(core, header).or(resume_flaw(task, header))
            }
            Step::Pass { units } => pass_flaw(units, header),
        }
    }

    /// F2 where the core is none, else F3 where the caller is no user task, else the fault of the
    /// call. For an interrupt F3 where the task that it is for is no user task, or F4 where its
    /// queue is none. F5 for a pass of 0 units, or where a tick has no more than one unit.
    pub fn check(&self, header: &Header) -> Result<(), Fault>
        ensures value { result ≡ step_check (settings_of header.now) self.now }
        ensures checked { OnOk result (IsCheckedStep (settings_of header.now) self.now) }
    {
        check_of(self.flaw(header))
    }
}

impl Call {
    /// The first thing for which the call's arguments are not accepted: the task that it is for,
    /// then the mask, the ticks between wakes, the index, the mutex or the queue.
    #[tactic(auto, using(crate::proofs::StepFlaws::call_check_of))]
    pub fn flaw(&self, header: &Header) -> Option<StepFlaw>
        ensures value { result ≡ call_flaw (settings_of header.now) self.now }
        ensures law { call_check (settings_of header.now) self.now ≡ check_of result }
        ensures words { IsOfWords self.now }
    {
        // A number that may be any is bound too: so it is known to be one of 32 bits.
        match *self {
            Call::Yield | Call::Finish | Call::HoldOpen | Call::HoldClose => None,
            Call::Delay(_ticks) => None,
            Call::NotifyTake {
                clear: _,
                ticks: _ticks,
                index,
            } => index_flaw(index, header),
            Call::NotifyWait {
                entry: _entry,
                exit: _exit,
                ticks: _ticks,
                index,
            } => index_flaw(index, header),
            Call::DelayUntil { prev: _prev, inc } => increment_flaw(inc),
            Call::AffinitySet { task, mask } => {
                task_flaw(task, header).or(mask_flaw(mask, header))
            }
            Call::PrioritySet {
                task,
                priority: _any,
            } => task_flaw(task, header),
            Call::ValueClear {
                task,
                bits: _any,
                index,
            } => task_flaw(task, header).or(index_flaw(index, header)),
            Call::StateClear { task, index } => {
                task_flaw(task, header).or(index_flaw(index, header))
            }
            Call::PreemptOff(task) | Call::PreemptOn(task) => task_flaw(task, header),
            Call::Suspend(task) | Call::Resume(task) => resume_flaw(task, header),
            Call::Notify(note) => note_flaw(note, header),
            Call::MutexTake {
                mutex,
                ticks: _ticks,
            } => mutex_flaw(mutex, header),
            Call::MutexGive(mutex) => mutex_flaw(mutex, header),
            Call::QueueSend {
                queue,
                ticks: _ticks,
            } => queue_flaw(queue, header),
            Call::QueueReceive {
                queue,
                ticks: _ticks,
            } => queue_flaw(queue, header),
        }
    }

    /// The fault of the call's arguments: F3 where the task that it is for is no user task, F4
    /// where the mutex or the queue that it is for is none, F5 where a mask allows no core, a wake
    /// is 0 ticks after the last one, or a session without queues suspends or resumes a task.
    pub fn check(&self, header: &Header) -> Result<(), Fault>
        ensures value { result ≡ call_check (settings_of header.now) self.now }
        ensures checked { OnOk result (IsCheckedCall (settings_of header.now) self.now) }
    {
        check_of(self.flaw(header))
    }
}

fn core_flaw(core: u32, header: &Header) -> Option<StepFlaw>
    ensures { result ≡ core_flaw (settings_of header.now) core }
{
    let cores = header.config.cores;
    if core < cores {
        None
    } else {
        Some(StepFlaw::Core { core, cores })
    }
}

pub(crate) fn task_flaw(task: u32, header: &Header) -> Option<StepFlaw>
    ensures { result ≡ task_flaw (settings_of header.now) task }
{
    let tasks = header.tasks.as_slice();
    let is_user = header.config.cores <= task
        && ((task - header.config.cores) as usize) < tasks.len();
    if is_user {
        None
    } else {
        Some(StepFlaw::Task(task))
    }
}

// Any action will do, whatever its number.
pub(crate) fn note_flaw(note: Note, header: &Header) -> Option<StepFlaw>
    ensures value { result ≡ note_flaw (settings_of header.now) note }
    ensures words { IsNotifyActionOfWord note.action }
{
    match note.action {
        NotifyAction::Nothing | NotifyAction::Increment => address_flaw(note, header),
        NotifyAction::SetBits(_any) | NotifyAction::Set(_any) | NotifyAction::SetNew(_any) => {
            address_flaw(note, header)
        }
    }
}

// The task and the index.
fn address_flaw(note: Note, header: &Header) -> Option<StepFlaw>
    ensures { result ≡ note_flaw (settings_of header.now) note }
{
    task_flaw(note.task, header).or(index_flaw(note.index, header))
}

fn index_flaw(index: u32, header: &Header) -> Option<StepFlaw>
    ensures { result ≡ index_flaw (settings_of header.now) index }
{
    let notes = header.config.notes;
    if index < notes {
        None
    } else {
        Some(StepFlaw::Index { index, notes })
    }
}

fn mutex_flaw(mutex: u32, header: &Header) -> Option<StepFlaw>
    ensures { result ≡ mutex_flaw (settings_of header.now) mutex }
{
    let mutexes = header.config.mutexes;
    if mutex < mutexes {
        None
    } else {
        Some(StepFlaw::Mutex { mutex, mutexes })
    }
}

pub(crate) fn queue_flaw(queue: u32, header: &Header) -> Option<StepFlaw>
    ensures { result ≡ queue_flaw (settings_of header.now) queue }
{
    let queues = match &header.queues {
        None => 0,
        Some(queues) => queues.as_slice().len(),
    };
    if (queue as usize) < queues {
        None
    } else {
        Some(StepFlaw::Queue { queue, queues })
    }
}

/// A session that says nothing of queues suspends no task.
fn suspending_flaw(header: &Header) -> Option<StepFlaw>
    ensures { result ≡ suspending_flaw (settings_of header.now) }
{
    match &header.queues {
        None => Some(StepFlaw::Suspending),
        Some(_) => None,
    }
}

// The task that is suspended or resumed.
pub(crate) fn resume_flaw(task: u32, header: &Header) -> Option<StepFlaw>
    ensures { result ≡ resume_flaw (settings_of header.now) task }
{
    task_flaw(task, header).or(suspending_flaw(header))
}

fn pass_flaw(units: u32, header: &Header) -> Option<StepFlaw>
    ensures value { result ≡ pass_flaw (settings_of header.now) units }
    ensures words { units < 2 ^ 32 }
{
    if header.config.units == 1 {
        Some(StepFlaw::NoUnits)
    } else if units == 0 {
        Some(StepFlaw::NoTime)
    } else {
        None
    }
}

fn mask_flaw(mask: u32, header: &Header) -> Option<StepFlaw>
    ensures { result ≡ mask_flaw (settings_of header.now) mask }
{
    let cores = header.config.cores;
    if allows_core(cores, mask) {
        None
    } else {
        Some(StepFlaw::Mask { mask, cores })
    }
}

fn increment_flaw(inc: u32) -> Option<StepFlaw>
    ensures { result ≡ increment_flaw inc }
{
    if inc == 0 {
        Some(StepFlaw::Increment)
    } else {
        None
    }
}
