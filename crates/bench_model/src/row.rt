//! A task's row in the table of the rules.
/// Whether a task is ready.
#[derive(Clone, Copy, Debug, PartialEq, Eq)]
pub enum TaskState {
    Ready,
    /// Blocked until the tick count of the table is `wake`, in ticks; without end, or suspended,
    /// where there is none.
    Blocked { wake: Option<u128> },
}

/// What the table keeps of a task's places in the kernel's lists.
#[derive(Clone, Copy, Debug, PartialEq, Eq)]
pub struct TaskRow {
    /// The greater the stamp, the later the task came to where it stands. No two tasks have one
    /// stamp.
    pub stamp: u128,
    pub standing: TaskState,
}
