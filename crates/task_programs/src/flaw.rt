//! For what a workload is not accepted.
ghost use Rattle.std.specs.Prelude.{◌≡◌};
ghost use Rattle.task_programs.specs.Flaw.{instruction_fault, interrupt_fault, workload_fault};

use bench_types::{Fault, HeaderFlaw, StepFlaw};

/// A thing for which an instruction is not accepted.
#[derive(Clone, Copy, Debug, PartialEq, Eq)]
pub enum InstructionFlaw {
    /// No walk comes here: before it stands a `break`, or a loop for ever that no `break` leaves.
    Unreached,
    /// A work of 0 units.
    NoWork,
    /// The arguments of a call.
    Step(StepFlaw),
    /// No program finishes a call: its task does so by itself.
    Finish,
    /// A loop of 0 rounds.
    NoRounds,
    /// A loop of nothing, or one that begins with `break`.
    NoBody,
    /// A `break` outside of any loop.
    NoLoop,
    /// More loops and calls with branches stand around what is in it than may.
    Nesting,
    /// It leads elsewhere than the item says that it belongs to, or the end of an item is missing.
    /// No program that was read from a text has this.
    Misplaced,
}

/// A thing for which an interrupt is not accepted.
#[derive(Clone, Copy, Debug, PartialEq, Eq)]
pub enum InterruptFlaw {
    /// It comes again after 0 units.
    NoPeriod,
    /// What it does is no interrupt. No workload that was read from a text has this.
    NoInterrupt,
    /// What it does is not accepted for this.
    Step(StepFlaw),
}

/// A thing for which a workload is not accepted. Tasks, instructions and interrupts are told by
/// their places.
#[derive(Clone, Copy, Debug, PartialEq, Eq)]
pub enum WorkloadFlaw {
    /// The header has a flaw.
    Header(HeaderFlaw),
    /// The header says nothing of queues, so it is none of format 3.
    NoQueues,
    /// There are so many programs, and not one a task.
    Programs(usize),
    /// The programs have too many items, all together.
    Items,
    /// The instruction of the task's program is not accepted for this.
    Instruction {
        task: usize,
        index: usize,
        flaw: InstructionFlaw,
    },
    /// The interrupt is not accepted for this.
    Interrupt {
        index: usize,
        flaw: InterruptFlaw,
    },
    /// A workload may not go on for so many ticks.
    Ticks(u32),
}

impl InstructionFlaw {
    /// The fault that it is.
    pub fn fault(self) -> Fault
        ensures { result ≡ instruction_fault self }
    {
        match self {
            InstructionFlaw::Step(flaw) => flaw.fault(),
            InstructionFlaw::Unreached
            | InstructionFlaw::NoWork
            | InstructionFlaw::Finish
            | InstructionFlaw::NoRounds
            | InstructionFlaw::NoBody
            | InstructionFlaw::NoLoop
            | InstructionFlaw::Nesting
            | InstructionFlaw::Misplaced => Fault::BadArgument,
        }
    }
}

impl InterruptFlaw {
    /// The fault that it is.
    pub fn fault(self) -> Fault
        ensures { result ≡ interrupt_fault self }
    {
        match self {
            InterruptFlaw::Step(flaw) => flaw.fault(),
            InterruptFlaw::NoPeriod | InterruptFlaw::NoInterrupt => Fault::BadArgument,
        }
    }
}

impl WorkloadFlaw {
    /// The fault that it is.
    pub fn fault(self) -> Fault
        ensures { result ≡ workload_fault self }
    {
        match self {
            WorkloadFlaw::Header(_) | WorkloadFlaw::NoQueues => Fault::BadHeader,
            WorkloadFlaw::Instruction { flaw, .. } => flaw.fault(),
            WorkloadFlaw::Interrupt { flaw, .. } => flaw.fault(),
            WorkloadFlaw::Programs(_) | WorkloadFlaw::Items | WorkloadFlaw::Ticks(_) => {
                Fault::BadArgument
            }
        }
    }
}
