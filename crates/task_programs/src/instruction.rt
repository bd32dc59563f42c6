//! Programs of tasks, as flat lists of instructions.

use bench_types::{Call, Items};

/// What a task does, instruction after instruction. Behind the last one the task suspends itself,
/// for ever.
pub type Program = Items<Instruction>;

/// One instruction of a program. An item of a document begins at one of them, and ends before the
/// index `end`. Indices count instructions from the front of the program.
///
/// - A list of works is one [`Instruction::Work`] after another, with the same `end`.
/// - A call with `then` or `else` is a [`Instruction::Call`], the items of `then`, a
///   [`Instruction::Join`], and where there is `else`, its items and a `Join`.
/// - A loop is an [`Instruction::Enter`], the items of its body, and an [`Instruction::Again`].
#[derive(Clone, Copy, Debug, PartialEq, Eq)]
pub enum Instruction {
    /// So many units of work. Of a list of works one is done, the next each time, round and round.
    /// The walk goes on at `end`.
    Work {
        units: u32,
        end: u32,
    },
    /// A call. The walk goes on behind it, but at `otherwise` where it answers false or 0, or is
    /// refused.
    Call {
        call: ProgramCall,
        otherwise: u32,
        end: u32,
    },
    /// The end of a branch: the walk goes on at `end`, behind the call.
    Join {
        end: u32,
    },
    /// A loop begins: so many rounds, or for ever.
    Enter {
        rounds: Option<u32>,
        end: u32,
    },
    /// The end of a round: the next one begins at `body`, where one is left.
    Again {
        body: u32,
    },
    /// Leaves the innermost loop: the walk goes on at `end`, behind it; 0 where there is no loop.
    Break {
        end: u32,
    },
}

/// A call that a task makes by its program.
#[derive(Clone, Copy, Debug, PartialEq, Eq)]
pub enum ProgramCall {
    /// A call as a session has it; no program has a [`Call::Finish`].
    Made(Call),
    /// `xTaskDelayUntil` the tick count that lies `inc` ticks after the wake of the task's last
    /// call of its kind, or after the tick count of the start, where it is the first.
    DelayUntilNext { inc: u32 },
}
