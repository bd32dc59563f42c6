//! Notifications of tasks.

/// The state of a task's notification (`ucNotifyState`).
#[derive(Clone, Copy, Debug, PartialEq, Eq, Hash)]
pub enum NoteState {
    /// None has come that was not taken, and no call waits for one
    /// (`taskNOT_WAITING_NOTIFICATION`).
    NotWaiting,
    /// A call of the task waits for one (`taskWAITING_NOTIFICATION`).
    Waiting,
    /// One has come and was not taken (`taskNOTIFICATION_RECEIVED`).
    Received,
}

/// One of the notifications of a task (`ulNotifiedValue[i]` and `ucNotifyState[i]`).
#[derive(Clone, Copy, Debug, PartialEq, Eq, Hash)]
pub struct Notification {
    /// The notification value (`ulNotifiedValue`).
    pub value: u32,
    pub state: NoteState,
}

/// What a notification does to the value of the task that it is for (`eNotifyAction`).
#[derive(Clone, Copy, Debug, PartialEq, Eq, Hash)]
pub enum NotifyAction {
    /// The value stays (`eNoAction`).
    Nothing,
    /// These bits are set (`eSetBits`).
    SetBits(u32),
    /// The value grows by 1, and 4294967295 wraps to 0 (`eIncrement`).
    Increment,
    /// The value becomes this one (`eSetValueWithOverwrite`).
    Set(u32),
    /// The value becomes this one where no notification has come that was not taken
    /// (`eSetValueWithoutOverwrite`).
    SetNew(u32),
}

/// A notification of a task, at an index of its notifications (`uxIndexToNotify`).
#[derive(Clone, Copy, Debug, PartialEq, Eq, Hash)]
pub struct Note {
    pub task: u32,
    pub action: NotifyAction,
    pub index: u32,
}
