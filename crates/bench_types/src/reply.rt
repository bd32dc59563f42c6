//! What a step answers.

/// The current task of each core, core 0 first.
pub type Row = Vec<u32>;

/// What a step answers.
#[derive(Clone, Copy, Debug, PartialEq, Eq, Hash)]
pub enum Reply {
    /// The step was made.
    Done,
    /// The call was made, and its task waits.
    Blocked,
    /// Whether a notification passed, a cleared state had received one, or a mutex was taken or
    /// given.
    Flag(bool),
    /// The notification value before the call changed it.
    Value(u32),
    /// Whether a notification had come, and the notification value before its exit bits were
    /// cleared.
    Waited { ok: bool, value: u32 },
    /// Whether the call made its task wait, and the tick count that it is to wake at, or was to.
    Until { delayed: bool, wake: u32 },
    /// Whether the notification passed, and whether the interrupted core has asked itself to switch
    /// by now.
    Isr { pass: bool, pend: bool },
    /// The step was not made, and nothing changed.
    Refused(Refusal),
}

/// Why a step was not made, with the code that the texts give it.
#[derive(Clone, Copy, Debug, PartialEq, Eq, Hash)]
pub enum Refusal {
    /// E1: a core holds the kernel, and for a call it is another one.
    Held,
    /// E2: the task of the call is not the current task of the core.
    Displaced,
    /// E3: the core of the call is due to switch, and has no hold open.
    SwitchDue,
    /// E4: the task has an unfinished call, and this is another one.
    InCall,
    /// E5: the task has no unfinished call to finish.
    NotInCall,
    /// E6: the call would make its task wait, and its core holds the kernel.
    HoldBlock,
    /// E7: the core does not hold the kernel that it would free.
    NoHold,
    /// E8: the core holds the kernel [`MAX_DEPTH`](crate::MAX_DEPTH) times over already.
    HoldDeep,
    /// E9: another task holds the mutex that the task would give.
    NotHolder,
    /// E10: the core of the switch is not due.
    NotDue,
}
