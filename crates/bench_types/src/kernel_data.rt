//! What can be seen of a kernel's parts.
use crate::NoteState;

/// What a kernel keeps of the settings that it started with.
#[derive(Clone, Copy, Debug, PartialEq, Eq, Hash)]
pub struct Settings {
    pub cores: u32,
    pub priorities: u32,
    pub slicing: bool,
    pub mutexes: u32,
    /// How many notifications each task has.
    pub notes: u32,
    /// How many queues there are; none in a session that says nothing of queues.
    pub queues: Option<u32>,
    /// How many units of time a tick has.
    pub units: u32,
    /// All tasks, the idle tasks too.
    pub tasks: u32,
}

/// What can be seen of a core.
#[derive(Clone, Copy, Debug, PartialEq, Eq, Hash)]
pub struct CoreLook {
    /// The core's current task (`pxCurrentTCBs`).
    pub current: u32,
    /// The core asked itself to switch (`xYieldPendings`).
    pub pend: bool,
    /// Another core asked it to switch (`prvYieldCore`).
    pub asked: bool,
}

/// What the control block of a task holds, beside its places in lists.
#[derive(Clone, Copy, Debug, PartialEq, Eq, Hash)]
pub struct TaskControl {
    /// The base priority (`uxBasePriority`).
    pub base: u32,
    /// The priority in use.
    pub in_use: u32,
    /// The core affinity mask, cut to the bits that mean a core (`uxCoreAffinityMask`).
    pub mask: u32,
    /// Whether a core may be asked to give it up for another task (`xPreemptionDisable` is false).
    pub preempt: bool,
}

/// A task that waits for some ticks.
#[derive(Clone, Copy, Debug, PartialEq, Eq, Hash)]
pub struct Delayed {
    pub task: u32,
    /// The ticks that are left.
    pub left: u32,
}

/// Where a task waits for an event.
#[derive(Clone, Copy, Debug, PartialEq, Eq, Hash)]
pub struct EventWait {
    /// The event list that it waits in (`xTasksWaitingToSend`, `xTasksWaitingToReceive`). List m is
    /// that of mutex m; behind those of all mutexes each queue has two: of the tasks that wait to
    /// send, then of those that wait to receive.
    pub list: u32,
    /// By which the task was put among the waiters of the list: its list value, as it is now, or
    /// in formats 1 and 2 the priority in use that it had when it began to wait.
    pub priority: u32,
}

/// A task that waits in an event list.
#[derive(Clone, Copy, Debug, PartialEq, Eq, Hash)]
pub struct Waiter {
    pub task: u32,
    pub wait: EventWait,
}

/// What can be seen of a queue or a semaphore.
#[derive(Clone, Copy, Debug, PartialEq, Eq, Hash)]
pub struct QueueLook {
    /// How many messages it holds at most (`uxLength`).
    pub length: u32,
    /// How many it holds (`uxMessagesWaiting`).
    pub messages: u32,
}

/// An open hold of the kernel, by which a core keeps out calls of other cores and every switch
/// (`taskENTER_CRITICAL`).
#[derive(Clone, Copy, Debug, PartialEq, Eq, Hash)]
pub struct Hold {
    pub core: u32,
    /// How many times over it was opened and is to be closed (`uxCriticalNesting`).
    pub depth: u32,
}

/// What can be seen of a task.
#[derive(Clone, Copy, Debug, PartialEq, Eq, Hash)]
pub struct TaskLook {
    /// The priority in use, that of its ready list (`uxPriority`).
    pub in_use: u32,
    /// The base priority (`uxBasePriority`).
    pub base: u32,
    /// The core affinity mask, cut to the bits that mean a core (`uxCoreAffinityMask`).
    pub mask: u32,
    /// Whether a core may be asked to give it up for another task (`xPreemptionDisable` is false).
    pub preempt: bool,
    /// Whether it is in a ready list (`eReady`, or `eRunning` on a core).
    pub ready: bool,
    /// Whether it is suspended (`eSuspended`): neither ready nor does it wait for anything.
    pub suspended: bool,
    /// The ticks to the wake of a blocked task (`xStateListItem` holds the tick count of it); none
    /// for a ready task, for one that waits without end and for a suspended one.
    pub left: Option<u32>,
    /// How many mutexes it holds (`uxMutexesHeld`).
    pub held: u32,
    /// Whether it made a call that has not returned.
    pub in_call: bool,
    /// The value of its notification of index 0 (`ulNotifiedValue[0]`).
    pub value: u32,
    /// The state of that notification (`ucNotifyState[0]`).
    pub state: NoteState,
}
