//! Workloads: what each task does, as a program, and what comes from outside; with their checks.
#![tactic(auto)]

mod around;
mod check;
mod checked;
mod flaw;
mod instruction;
mod laws;
mod limits;
mod workload;

pub use checked::CheckedWorkload;
pub use flaw::{InstructionFlaw, InterruptFlaw, WorkloadFlaw};
pub use instruction::{Instruction, Program, ProgramCall};
pub use laws::{laws_of_programs, laws_of_workloads};
pub use limits::{MAX_ITEMS, MAX_NESTING, MAX_TICKS, laws_of_workload_limits};
pub use workload::{Interrupt, Workload};
