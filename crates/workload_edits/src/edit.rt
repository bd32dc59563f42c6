//! Edits of workloads.
use bench_types::Items;

/// A branch of a call.
#[derive(Clone, Copy, Debug, PartialEq, Eq, Hash)]
pub enum Branch {
    Then,
    Else,
}

/// One part of a path in a program.
#[derive(Clone, Copy, Debug, PartialEq, Eq, Hash)]
pub enum PathPart {
    /// The index of an item: of the program, of a loop or of the branch before it in the path.
    Index(u32),
    Branch(Branch),
}

/// What becomes of a task.
#[derive(Debug, Drop)]
pub enum Change {
    /// It has this priority and this mask.
    Numbers { priority: u32, mask: u32 },
    /// The item at this path of its program is another one.
    Item(Items<PathPart>),
}

/// An edit of a workload: a change of a task.
#[derive(Debug, Drop)]
pub struct TaskEdit {
    /// The number of the task, as steps have it.
    pub task: u32,
    pub change: Change,
}
