//! Workloads: what each task does, and what comes from outside.
ghost use Rattle.std.specs.Prelude.{◌≡◌, nat_lt, All, IfNone};
ghost use Rattle.std.specs.List.{sum_by};
ghost use Rattle.bench_types.specs.Header.{IsCheckedHeader};
ghost use Rattle.bench_types.specs.Step.{settings_of, IsStepOfWords};
ghost use Rattle.task_programs.specs.Limits.{max_items};
ghost use Rattle.task_programs.specs.Programs.{item_count, IsInstructionOfWords};
ghost use Rattle.task_programs.specs.Workloads.{contents_flaw, count_flaw, handler_flaw, header_flaw, interrupt_flaw, interrupts_flaw, is_interrupt, items_flaw, period_flaw, programs_flaw, ticks_flaw, workload_flaw, IsCheckedWorkload, IsInterruptOfWords, IsPeriodOfWord};

use crate::check::{item_count, program_flaw};
use crate::{InterruptFlaw, MAX_ITEMS, MAX_TICKS, Program, WorkloadFlaw};
use bench_types::{Header, Items, Step};

/// An interrupt that comes from outside.
#[derive(Clone, Copy, Debug, PartialEq, Eq)]
pub struct Interrupt {
    /// When it comes, in units of time from the start on.
    pub at: u64,
    /// After how many units it comes again, and again; never where there are none.
    pub every: Option<u64>,
    /// What its handler does: an interrupt of a session.
    pub what: Step,
}

/// What each task of a header does, and what comes from outside.
#[derive(Debug, Drop)]
pub struct Workload {
    pub header: Header,
    /// A program a task, in the order of the header; an empty one where the task does nothing.
    pub programs: Items<Program>,
    pub interrupts: Items<Interrupt>,
    /// After how many ticks it ends, at most [`MAX_TICKS`].
    pub ticks: u32,
}

fn is_interrupt(step: Step) -> bool
    ensures { result ≡ is_interrupt step }
{
    match step {
        Step::Interrupt { .. } | Step::QueueInterrupt { .. } | Step::ResumeInterrupt { .. } => true,
        Step::Tick | Step::Switch { .. } | Step::Call { .. } | Step::Pass { .. } => false,
    }
}

fn period_flaw(every: Option<u64>) -> Option<InterruptFlaw>
    ensures value { result ≡ period_flaw every }
    ensures word { IsPeriodOfWord every }
{
    match every {
        Some(units) => {
            if units == 0 {
                Some(InterruptFlaw::NoPeriod)
            } else {
                None
            }
        }
        None => None,
    }
}

impl Interrupt {
    /// The first thing for which the interrupt is not accepted: its period, then what it does.
    pub fn flaw(&self, header: &Header) -> Option<InterruptFlaw>
        ensures value { result ≡ interrupt_flaw (settings_of header.now) self.now }
        ensures words { IsInterruptOfWords self.now }
    {
        // It may come at any time. That is read, so it is known to be one of 64 bits.
        let _at = self.at;
        period_flaw(self.every).or(handler_flaw(self.what, header))
    }
}

fn handler_flaw(what: Step, header: &Header) -> Option<InterruptFlaw>
    ensures value { result ≡ handler_flaw (settings_of header.now) what }
    ensures words { IsStepOfWords what }
{
    let flaw = what.flaw(header);
    if !is_interrupt(what) {
        return Some(InterruptFlaw::NoInterrupt);
    }
    match flaw {
        Some(flaw) => Some(InterruptFlaw::Step(flaw)),
        None => None,
    }
}

fn header_flaw(header: &Header) -> Option<WorkloadFlaw>
    ensures value { result ≡ header_flaw header.now }
    ensures checked { IfNone result (IsCheckedHeader header.now) }
{
    match header.flaw() {
        Some(flaw) => Some(WorkloadFlaw::Header(flaw)),
        None if header.queues.is_none() => Some(WorkloadFlaw::NoQueues),
        None => None,
    }
}

fn count_flaw(header: &Header, programs: &[Program]) -> Option<WorkloadFlaw>
    ensures { result ≡ count_flaw header.now programs.now }
{
    if programs.len() == header.tasks.as_slice().len() {
        None
    } else {
        Some(WorkloadFlaw::Programs(programs.len()))
    }
}

/// Whether the programs have more items than they may have, all together.
fn has_too_many_items(programs: &[Program]) -> bool
    ensures { result ≡ nat_lt max_items (sum_by item_count programs.now) }
{
    let mut left = MAX_ITEMS;
    for program in programs {
        let count = item_count(program.as_slice());
        if left < count {
            return true;
        }
        left -= count;
    }
    false
}

fn items_flaw(programs: &[Program]) -> Option<WorkloadFlaw>
    ensures { result ≡ items_flaw programs.now }
{
    if has_too_many_items(programs) {
        Some(WorkloadFlaw::Items)
    } else {
        None
    }
}

fn programs_flaw(header: &Header, programs: &[Program]) -> Option<WorkloadFlaw>
    ensures value { result ≡ programs_flaw (settings_of header.now) 0 programs.now }
    ensures words { IfNone result (All (All IsInstructionOfWords) programs.now) }
{
    for (task, program) in programs.iter().enumerate() {
        match program_flaw(header, program.as_slice()) {
            Some((index, flaw)) => return Some(WorkloadFlaw::Instruction { task, index, flaw }),
            None => {}
        }
    }
    None
}

fn interrupts_flaw(header: &Header, interrupts: &[Interrupt]) -> Option<WorkloadFlaw>
    ensures value { result ≡ interrupts_flaw (settings_of header.now) 0 interrupts.now }
    ensures words { IfNone result (All IsInterruptOfWords interrupts.now) }
{
    for (index, interrupt) in interrupts.iter().enumerate() {
        match interrupt.flaw(header) {
            Some(flaw) => return Some(WorkloadFlaw::Interrupt { index, flaw }),
            None => {}
        }
    }
    None
}

fn ticks_flaw(ticks: u32) -> Option<WorkloadFlaw>
    ensures { result ≡ ticks_flaw ticks }
{
    if MAX_TICKS < ticks {
        Some(WorkloadFlaw::Ticks(ticks))
    } else {
        None
    }
}

impl Workload {
    // The first flaw of what stands under a header that has none.
    #[tactic(auto, unfolding(crate::specs::Workloads::contents_flaw))]
    fn contents_flaw(&self) -> Option<WorkloadFlaw>
        ensures value { result ≡ contents_flaw self.now }
        ensures programs { IfNone result (All (All IsInstructionOfWords) self.now.programs) }
        ensures interrupts { IfNone result (All IsInterruptOfWords self.now.interrupts) }
    {
        let programs = self.programs.as_slice();
        if let Some(flaw) = count_flaw(&self.header, programs).or(items_flaw(programs)) {
            return Some(flaw);
        }
        if let Some(flaw) = programs_flaw(&self.header, programs) {
            return Some(flaw);
        }
        if let Some(flaw) = interrupts_flaw(&self.header, self.interrupts.as_slice()) {
            return Some(flaw);
        }
        ticks_flaw(self.ticks)
    }

    /// The first thing for which the workload is not accepted, in the order of [`WorkloadFlaw`];
    /// none where it is accepted.
    #[tactic(auto, unfolding(crate::specs::Workloads::workload_flaw))]
    pub fn flaw(&self) -> Option<WorkloadFlaw>
        ensures value { result ≡ workload_flaw self.now }
        // So numbers are within their words, and no check of a call fails later.
        ensures checked { IfNone result (IsCheckedWorkload self.now) }
    {
        match header_flaw(&self.header) {
            Some(flaw) => Some(flaw),
            None => self.contents_flaw(),
        }
    }
}
