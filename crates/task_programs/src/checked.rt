//! A workload that was checked.
ghost use Rattle.std.specs.Prelude.{◌≡◌, IfOk};
ghost use Rattle.task_programs.specs.Workloads.{accepted, IsCheckedWorkload};

use crate::{Instruction, Interrupt, Program, Workload, WorkloadFlaw};
use bench_types::{Header, Items};
use std::alloc::{AllocError, Global};
use std::marker::Model;

/// A workload that was checked.
#[derive(Debug, Drop)]
pub struct CheckedWorkload {
    workload: Workload,
}

impl Model for CheckedWorkload {
    ghost use Rattle.task_programs.specs.declared.workload.Workload.{Workload};
    ghost use Rattle.task_programs.specs.Workloads.{IsCheckedWorkload};

    ghost Value = { Workload };

    ghost view = { λ it. it.workload };

    ghost invariant = { λ it. IsCheckedWorkload it.workload };
}

impl CheckedWorkload {
    /// The workload, or its first flaw.
    pub fn new(workload: Workload) -> Result<CheckedWorkload, WorkloadFlaw>
        ensures { result ≡ accepted workload }
    {
        match workload.flaw() {
            None => Ok(CheckedWorkload { workload }),
            Some(flaw) => Err(flaw),
        }
    }

    /// A workload that was found to have no flaw.
    pub fn unflawed(workload: Workload) -> CheckedWorkload
        requires { IsCheckedWorkload workload }
        ensures { result ≡ workload }
    {
        CheckedWorkload { workload }
    }

    /// What the tasks start from.
    pub fn header(&self) -> &Header
        ensures header { result.now ≡ self.now.header }
        ensures checked { IsCheckedWorkload self.now }
    {
        &self.workload.header
    }

    /// A program a task, in the order of the header.
    pub fn programs(&self) -> &[Program]
        ensures programs { result.now ≡ self.now.programs }
        ensures checked { IsCheckedWorkload self.now }
    {
        self.workload.programs.as_slice()
    }

    /// What comes from outside.
    pub fn interrupts(&self) -> &[Interrupt]
        ensures interrupts { result.now ≡ self.now.interrupts }
        ensures checked { IsCheckedWorkload self.now }
    {
        self.workload.interrupts.as_slice()
    }

    /// After how many ticks it ends.
    pub fn ticks(&self) -> u32
        ensures ticks { result ≡ self.now.ticks }
        ensures checked { IsCheckedWorkload self.now }
    {
        self.workload.ticks
    }

    /// A second value of the same workload.
    pub fn copy(&self, alloc: Global) -> Result<CheckedWorkload, AllocError>
        ensures { IfOk result (λ copy. copy ≡ self.now) }
    {
        let interrupts = Vec::from_slice(alloc, self.workload.interrupts.as_slice())?;
        Ok(CheckedWorkload {
            workload: Workload {
                header: self.workload.header.copy(alloc)?,
                programs: copy_programs(alloc, self.workload.programs.as_slice())?,
                interrupts: Items::new(interrupts),
                ticks: self.workload.ticks,
            },
        })
    }

    /// The workload, for one who goes on with it.
    pub fn into_workload(self) -> Workload
        ensures workload { result ≡ self }
        ensures checked { IsCheckedWorkload result }
    {
        let CheckedWorkload { workload } = self;
        workload
    }
}

fn copy_program(alloc: Global, program: &[Instruction]) -> Result<Program, AllocError>
    ensures { IfOk result (λ copy. copy ≡ program.now) }
{
    Ok(Items::new(Vec::from_slice(alloc, program)?))
}

fn copy_programs(alloc: Global, programs: &[Program]) -> Result<Items<Program>, AllocError>
    ensures { IfOk result (λ copy. copy ≡ programs.now) }
{
    let mut copies = Vec::with_capacity(alloc, programs.len())?;
    for program in programs {
        copies.push(copy_program(alloc, program.as_slice())?)?;
    }
    Ok(Items::new(copies))
}
