//! The calls that are to be made, and how long their tasks worked.
ghost use Rattle.std.specs.Prelude.{◌≡◌, ◌<◌, ◌≤◌, All, IfOk, find, map, filter_map, length, option_map, slice_index, slice_set};
ghost use Rattle.bench_model.specs.Equal.{StandsFor};
ghost use Rattle.bench_model.specs.Table.{Table};
ghost use Rattle.settled_runs.specs.Settled.{is_timely, on_its_core};
ghost use Rattle.kept_runs.specs.Clocks.{is_before, zero_clock};
ghost use Rattle.kept_runs.specs.Known.{is_due_end};
ghost use Rattle.kept_runs.specs.Rule.{Progress, as_waiting, firsts, has_worked, in_order, is_before_time, works_left};
ghost use Rattle.workload_runs.specs.Rule.{least};
ghost use Rattle.keeping.specs.Queues.{call_at, unmade_in, HasCaller};
ghost use Rattle.keeping.specs.Works.{can_call_on, clock_at, due_on, end_on, first_of, is_worked_for, left_on, timely_on, waiting_at, worked_calls, AreFit, HoldsWorks, IsUnmade, IsWorksAtStart};

use crate::queues::Queues;
use bench_types::{Call, Step};
use kept_runs::{CallOrder, Clock, Unmade};
use settled_runs::WaitingCall;
use settling::is_timely;
use smp_kernel::Kernel;
use std::alloc::{AllocError, Global};

/// The calls and the ends of tasks, each with its work, and how long each task worked since its
/// last call.
#[derive(Debug, Drop)]
pub(crate) struct Works {
    pub(crate) calls: Vec<Unmade>,
    pub(crate) queues: Queues,
    pub(crate) worked: Vec<Clock>,
}

const NO_WORK: Clock = Clock { units: 0, later: 0 };

// Whether one clock says less than another.
#[tactic(auto, unfolding(kept_runs::specs::Clocks::is_before))]
fn is_before(one: Clock, other: Clock) -> bool
    ensures { result ≡ is_before one other }
{
    one.units < other.units || (one.units == other.units && one.later < other.later)
}

// Whether who worked so long worked for the call; `timed` where time goes by next.
fn is_worked_for(worked: Clock, timed: bool, one: &Unmade) -> bool
    ensures { result ≡ is_worked_for worked timed one.now }
{
    !is_before(worked, one.work) || (one.work.units <= worked.units && timed)
}

// The call on the core, where it is not refused with E1 to E5; the end of a task is none.
fn timely_call(kernel: &Kernel, core: u32, one: &Unmade) -> Option<Step>
    requires core { core < kernel.now.settings.cores }
    requires checked { IsUnmade kernel.now.settings one.now }
    ensures { (table : Table) → StandsFor kernel.now table → result ≡ timely_on table core one.now }
{
    let step = Step::Call {
        core,
        task: one.task,
        call: one.call?,
    };
    if is_timely(kernel, &step) {
        Some(step)
    } else {
        None
    }
}

// Whether the task could call on the core.
fn can_call_on(kernel: &Kernel, core: u32, task: u32) -> bool
    requires core { core < kernel.now.settings.cores }
    requires low { kernel.now.settings.cores ≤ task }
    requires task { task < kernel.now.settings.tasks }
    ensures { (table : Table) → StandsFor kernel.now table → result ≡ can_call_on table core task }
{
    let call = Call::Yield;
    is_timely(kernel, &Step::Call { core, task, call })
}

impl Works {
    /// None of the calls is made, and no task worked.
    pub(crate) fn start(alloc: Global, tasks: u32, calls: Vec<Unmade>) -> Result<Self, AllocError>
        requires { All (HasCaller tasks) calls.items }
        ensures { IfOk result (λ works. IsWorksAtStart calls.items tasks works) }
    {
        let queues = Queues::new(alloc, tasks, &calls)?;
        let worked = vec![in alloc; NO_WORK; tasks as usize]?;
        Ok(Works {
            calls,
            queues,
            worked,
        })
    }

    // The task's first call that is not made.
    fn first_of(&self, task: u32) -> Option<Unmade>
        requires { task < length self.now.queues.heads.items }
        ensures { result ≡ first_of self.now task }
    {
        self.calls.get(self.queues.head(task)).copied()
    }

    // The first call of the core's task, where the task has worked for it and it is not refused
    // with E1 to E5.
    fn due_call(&self, kernel: &Kernel, timed: bool, core: u32) -> Option<Step>
        requires fit { AreFit kernel.now.settings self.now }
        requires core { core < kernel.now.settings.cores }
        ensures { (table : Table) → StandsFor kernel.now table
            → result ≡ due_on table self.now timed core }
    {
        let one = self.first_of(kernel.running(core))?;
        if is_worked_for(self.worked[one.task as usize], timed, &one) {
            timely_call(kernel, core, &one)
        } else {
            None
        }
    }

    // Of these calls the one that stands first in the list.
    fn oldest_call(&self, kernel: &Kernel, timed: bool) -> Option<Step>
        requires fit { AreFit kernel.now.settings self.now }
        ensures { (now : Progress) → StandsFor kernel.now now.table → HoldsWorks self.now now
            → timed ≡ is_before_time now
            → result ≡ find (is_timely now.table)
            (map (on_its_core now.table) (worked_calls now)) }
    {
        let mut first = self.calls.len();
        let mut found = None;
        for core in 0..kernel.settings().cores {
            let head = self.queues.head(kernel.running(core));
            if head < first {
                if let Some(step) = self.due_call(kernel, timed, core) {
                    first = head;
                    found = Some(step);
                }
            }
        }
        found
    }

    // Of these calls that of the least core.
    fn least_core_call(&self, kernel: &Kernel, timed: bool) -> Option<Step>
        requires fit { AreFit kernel.now.settings self.now }
        ensures { (now : Progress) → StandsFor kernel.now now.table → HoldsWorks self.now now
            → timed ≡ is_before_time now
            → result ≡ find (is_timely now.table)
            (map (on_its_core now.table)
            (in_order CallOrder.LeastCore now.table (worked_calls now))) }
    {
        for core in 0..kernel.settings().cores {
            if let Some(step) = self.due_call(kernel, timed, core) {
                return Some(step);
            }
        }
        None
    }

    /// The call that comes next: the first in the order of those for which tasks have worked and
    /// that are not refused with E1 to E5. Time goes by next, or it does not.
    pub(crate) fn next_call(&self, kernel: &Kernel, order: CallOrder, timed: bool) -> Option<Step>
        requires fit { AreFit kernel.now.settings self.now }
        ensures { (now : Progress) → StandsFor kernel.now now.table → HoldsWorks self.now now
            → timed ≡ is_before_time now
            → result ≡ find (is_timely now.table)
            (map (on_its_core now.table) (in_order order now.table (worked_calls now))) }
    {
        match order {
            CallOrder::Oldest => self.oldest_call(kernel, timed),
            CallOrder::LeastCore => self.least_core_call(kernel, timed),
        }
    }

    // The core's task, where it is at its end: it has worked for as long as it did, and could call.
    fn end_on(&self, kernel: &Kernel, timed: bool, core: u32) -> Option<u32>
        requires fit { AreFit kernel.now.settings self.now }
        requires core { core < kernel.now.settings.cores }
        ensures { (table : Table) → StandsFor kernel.now table
            → result ≡ end_on table self.now timed core }
    {
        let one = self.first_of(kernel.running(core))?;
        let worked = self.worked[one.task as usize];
        if one.call.is_none()
            && is_worked_for(worked, timed, &one)
            && can_call_on(kernel, core, one.task)
        {
            Some(one.task)
        } else {
            None
        }
    }

    /// The task at its end that stands first in the list. Time goes by next, or it does not.
    pub(crate) fn task_at_end(&self, kernel: &Kernel, timed: bool) -> Option<u32>
        requires fit { AreFit kernel.now.settings self.now }
        ensures { (now : Progress) → StandsFor kernel.now now.table → HoldsWorks self.now now
            → timed ≡ is_before_time now
            → result ≡ option_map (λ one. one.task)
            (find (is_due_end now) (firsts now.unmade)) }
    {
        let mut first = self.calls.len();
        let mut found = None;
        for core in 0..kernel.settings().cores {
            let head = self.queues.head(kernel.running(core));
            if head < first {
                if let Some(task) = self.end_on(kernel, timed, core) {
                    first = head;
                    found = Some(task);
                }
            }
        }
        found
    }

    // The units that the core's task has left to work for its first call, or its end; none where it
    // could not call.
    fn left_on(&self, kernel: &Kernel, core: u32) -> u64
        requires fit { AreFit kernel.now.settings self.now }
        requires core { core < kernel.now.settings.cores }
        ensures { (table : Table) → StandsFor kernel.now table
            → result ≡ left_on table self.now core }
    {
        match self.first_of(kernel.running(core)) {
            Some(one) => {
                let worked = self.worked[one.task as usize].units;
                if can_call_on(kernel, core, one.task) {
                    one.work.units.saturating_sub(worked)
                } else {
                    0
                }
            }
            None => 0,
        }
    }

    /// The least of the units and of what tasks that could call have left to work for their first
    /// calls, or their ends.
    pub(crate) fn least_left(&self, kernel: &Kernel, units: u32) -> u32
        requires { AreFit kernel.now.settings self.now }
        ensures { (now : Progress) → StandsFor kernel.now now.table → HoldsWorks self.now now
            → result ≡ least units (works_left now) }
    {
        let mut least = u64::from(units);
        for core in 0..kernel.settings().cores {
            let left = self.left_on(kernel, core);
            least = if left == 0 { least } else { least.min(left) };
        }
        least as u32
    }

    /// The first call of the task is made.
    pub(crate) fn make_call(&mut self, task: u32)
        requires worked { task < length self.old.worked.items }
        requires task { task < length self.old.queues.heads.items }
        requires call { slice_index self.old.queues.heads.items task
            < length self.old.queues.next.items }
        ensures calls { self.new.calls.items ≡ self.old.calls.items }
        ensures heads { self.new.queues.heads.items
            ≡ slice_set self.old.queues.heads.items task
            (slice_index self.old.queues.next.items
            (slice_index self.old.queues.heads.items task)) }
        ensures next { self.new.queues.next.items ≡ self.old.queues.next.items }
        ensures worked { self.new.worked.items ≡ slice_set self.old.worked.items task zero_clock }
    {
        self.queues.advance(task);
        self.worked[task as usize] = NO_WORK;
    }

    // The call at the index, where it is not made; the end of a task is none.
    fn waiting_at(&self, index: usize) -> Option<WaitingCall>
        requires index { index < length self.now.calls.items }
        requires caller { (call_at self.now.calls.items index).task
            < length self.now.queues.heads.items }
        ensures { result ≡ waiting_at self.now index }
    {
        let one = self.calls[index];
        let call = one.call?;
        if self.queues.head(one.task) <= index {
            let task = one.task;
            Some(WaitingCall { task, call })
        } else {
            None
        }
    }

    /// The calls that are not made.
    pub(crate) fn left(&self, alloc: Global) -> Result<Vec<WaitingCall>, AllocError>
        requires { All (HasCaller (length self.now.queues.heads.items)) self.now.calls.items }
        ensures { IfOk result
            (λ left. left.items
            ≡ filter_map as_waiting
            (unmade_in self.now.queues.heads.items self.now.calls.items)) }
    {
        let mut left = Vec::new(alloc);
        for index in 0..self.calls.len() {
            if let Some(waits) = self.waiting_at(index) {
                left.push(waits)?;
            }
        }
        Ok(left)
    }
}
