//! The kernel, a step at a time.
ghost use Rattle.std.specs.Prelude.{◌≡◌, ℕ, ◌+◌, ◌-◌, ◌<◌, ◌≤◌, ◌%◌, ◌^◌, ◌↔◌, nat_lt, map, slice_get, Some, true, option_map, IsErr, IfOk, IfSome, Ok, Err, min};
ghost use Rattle.bench_types.specs.Header.{header_check};
ghost use Rattle.bench_types.specs.Limits.{max_cores};
ghost use Rattle.bench_types.specs.Step.{queue_total, settings_of, step_check};
ghost use Rattle.list_orders.specs.Listings.{IsListing};
ghost use Rattle.list_orders.specs.Search.{numbers};
ghost use Rattle.bench_model.specs.Control.{core_at, current, is_allowed, task_at};
ghost use Rattle.bench_model.specs.State.{call_at, holder_at};
ghost use Rattle.bench_model.specs.Queues.{queue_at};
ghost use Rattle.bench_model.specs.Refusals.{refusal};
ghost use Rattle.bench_model.specs.Table.{Table, stamp_queues};
ghost use Rattle.bench_model.specs.Start.{start};
ghost use Rattle.bench_model.specs.Looks.{note_look, task_look};
ghost use Rattle.bench_model.specs.Session.{step_of};
ghost use Rattle.bench_model.specs.Equal.{Same, StandsFor};
ghost use Rattle.bench_model.specs.Shifted.{SameShifted, shifted};
ghost use Rattle.bench_model.specs.Seek.{effective};
ghost use Rattle.bench_model.specs.Lists.{is_ready, list_queues};
ghost use Rattle.bench_model.specs.Suspending.{is_suspended};
ghost use Rattle.bench_model.specs.Tally.{is_current};
ghost use Rattle.smp_kernel.specs.Kernel.{wants_core, ready_list, StandsForSome};
ghost use Rattle.smp_kernel.specs.Raised.{raised_by, KeepsOthers};

use crate::Meter;
use crate::scheduler::Scheduler;
use bench_types::{
    CoreLook, Fault, Header, NoteState, QueueLook, Refusal, Reply, Settings, Step, TaskLook,
    Unfinished,
};
use std::alloc::{AllocError, Global};
use std::marker::Model;
use thiserror::Error;

/// Why a kernel did not start.
#[derive(Clone, Copy, Debug, PartialEq, Eq, Hash, Error)]
pub enum StartFault {
    /// F1: a number of the header is outside its limits, or a name is repeated.
    #[error("{}", Fault::BadHeader)]
    BadHeader,
    /// The allocator had no memory left.
    #[error("out of memory")]
    NoMemory,
}

impl From<AllocError> for StartFault {
    ghost use Rattle.std.specs.Prelude.{◌≡◌};
    ghost use Rattle.smp_kernel.specs.declared.kernel.StartFault.TheVariants.{NoMemory};

    ghost from_gives = { λ _ fault. fault ≡ NoMemory };

    fn from(_error: AllocError) -> Self {
        StartFault::NoMemory
    }
}

/// A kernel that was started and made some steps. There is a sound table of the rules that it
/// stands for.
#[derive(Debug)]
pub struct Kernel {
    scheduler: Scheduler,
}

// Written out, so that whoever drops one has one call to prove, and not one for each list in it.
impl Drop for Kernel {
    fn drop(self) {
        let Kernel { scheduler: _ } = self;
    }
}

impl Model for Kernel {
    ghost use Rattle.bench_model.specs.Lists.{View};
    ghost use Rattle.smp_kernel.specs.Kernel.{StandsForSome};

    ghost Value = { View };

    ghost view = { λ kernel. kernel.scheduler };

    ghost invariant = { λ kernel. StandsForSome kernel.scheduler };
}

impl Kernel {
    /// A kernel at the start of the header. It takes all the memory that it will ever have.
    pub fn start(alloc: Global, header: &Header) -> Result<Kernel, StartFault>
        ensures bad_header { (result ≡ Err StartFault.BadHeader) ↔ IsErr (header_check header.now) }
        ensures started { IfOk result (λ kernel. StandsFor kernel (start header.now)) }
        ensures shape { IfOk result (λ kernel. kernel.settings ≡ settings_of header.now) }
    {
        if header.check().is_err() {
            return Err(StartFault::BadHeader);
        }
        let scheduler = Scheduler::start(alloc, header)?;
        Ok(Kernel { scheduler })
    }

    /// A second kernel, equal to this one: it stands for the same tables. The two share nothing,
    /// and a step of one leaves the other as it is.
    pub fn copy(&self, alloc: Global) -> Result<Kernel, AllocError>
        ensures { IfOk result (λ kernel. kernel ≡ self.now) }
    {
        let scheduler = self.scheduler.copy(alloc)?;
        Ok(Kernel { scheduler })
    }

    /// This kernel becomes equal to the other, which has the same settings: it stands for the same
    /// tables. No memory is taken.
    pub fn copy_from(&mut self, other: &Kernel)
        requires { self.old.settings ≡ other.now.settings }
        ensures { self.new ≡ other.now }
    {
        self.scheduler.copy_from(&other.scheduler);
    }

    /// Whether the two kernels are equal, and so reply alike to every step from now on.
    ///
    /// Compared are the settings (cores, priorities, slicing, mutexes, queues, tasks, and how many
    /// notifications each task has), the tick count as 32 bits, each core's current task and flags,
    /// each task's control block, notifications and unfinished call, the holder of each mutex, the
    /// length and the messages of each queue, the open hold, and the orders: of each ready list, of
    /// the delays with the ticks left, and of each event list with the waiting priorities. Of an
    /// unfinished call that takes a mutex these are the mutex, its mark and the ticks left to its
    /// deadline, and not the ticks that it named; of one that waits at a queue the queue, whether
    /// it sends or receives, and the ticks left. Not compared are names, the header's arguments,
    /// and how a kernel came there.
    pub fn same(&self, other: &Kernel) -> bool
        ensures { (a b : Table) → StandsFor self.now a → StandsFor other.now b
            → ((result ≡ true) ↔ Same a b) }
    {
        self.scheduler.same(&other.scheduler)
    }

    /// Whether the two kernels are equal but for their tick counts, and so reply alike to every
    /// step from now on but a delay until a tick count.
    ///
    /// Compared is all that `same` compares, the ticks left of delays and of deadlines too, but not
    /// the tick counts.
    pub fn same_shifted(&self, other: &Kernel) -> bool
        ensures { (a b : Table) → StandsFor self.now a → StandsFor other.now b
            → ((result ≡ true) ↔ SameShifted a b) }
    {
        self.scheduler.same_shifted(&other.scheduler)
    }

    /// The kernel is moved in time: its tick count is so many ticks later, modulo 2^32, and nothing
    /// else that can be seen changes. Each wake and deadline moves with it, so that as many ticks
    /// are left to it. No memory is taken.
    pub fn shift(&mut self, by: u32)
        ensures { self.new ≡ shifted by self.old }
    {
        self.scheduler.shift(by);
    }

    /// Makes a step, counts it on the meter, refused or not, and gives its reply.
    #[inline(always)]
    pub fn step(&mut self, meter: &mut Meter, step: &Step) -> Reply
        requires { step_check self.old.settings step.now ≡ Ok tt }
        ensures reply { (table : Table) → StandsFor self.old table
            → result ≡ (step_of step.now table).0 }
        ensures state { (table : Table) → StandsFor self.old table
            → StandsFor self.new (step_of step.now table).1 }
        ensures meter { meter.new ≡ min (meter.old + 1) (2 ^ 64 - 1) }
        ensures shape { self.new.settings ≡ self.old.settings }
    {
        let reply = self.scheduler.step(step);
        meter.step();
        reply
    }

    /// What the kernel started with.
    pub fn settings(&self) -> Settings
        ensures settings { result ≡ self.now.settings }
        ensures few { self.now.settings.cores ≤ max_cores }
        ensures sound { StandsForSome self.now }
    {
        self.scheduler.settings()
    }

    /// The current task of the core.
    pub fn running(&self, core: u32) -> u32
        requires { core < self.now.settings.cores }
        ensures current { (table : Table) → StandsFor self.now table
            → result ≡ current table.control core }
        ensures seen { result ≡ current self.now.control core }
        ensures task { result < self.now.settings.tasks }
        ensures sound { StandsForSome self.now }
    {
        self.scheduler.running(core)
    }

    /// The core's current task and its flags.
    pub fn core_look(&self, core: u32) -> CoreLook
        requires { core < self.now.settings.cores }
        ensures { (table : Table) → StandsFor self.now table → result ≡ core_at table.control core }
    {
        self.scheduler.core_look(core)
    }

    /// What can be seen of the task.
    pub fn look(&self, task: u32) -> TaskLook
        requires { task < self.now.settings.tasks }
        ensures { (table : Table) → StandsFor self.now table → result ≡ task_look table task }
    {
        self.scheduler.look(task)
    }

    /// The task's notification of the index.
    pub fn note_look(&self, task: u32, index: u32) -> (u32, NoteState)
        requires task { task < self.now.settings.tasks }
        requires index { index < self.now.settings.notes }
        ensures { (table : Table) → StandsFor self.now table
            → result ≡ ((note_look table task index).value, (note_look table task index).state) }
    {
        let note = self.scheduler.note_look(task, index);
        (note.value, note.state)
    }

    /// The priority in use of the task: its base priority, or one that it inherited
    /// (`uxTaskPriorityGet`).
    pub fn in_use(&self, task: u32) -> u32
        requires { task < self.now.settings.tasks }
        ensures { result ≡ (task_at self.now.control task).in_use }
    {
        self.scheduler.in_use(task)
    }

    /// Whether the effective priority of one task is below that of the other: an idle task stands
    /// below all others, and else the priorities in use decide.
    pub fn stands_below(&self, task: u32, other: u32) -> bool
        requires task { task < self.now.settings.tasks }
        requires other { other < self.now.settings.tasks }
        ensures { result
            ≡ nat_lt (effective self.now.control task) (effective self.now.control other) }
    {
        self.scheduler.stands_below(task, other)
    }

    /// Whether the task may run on the core, by its core affinity mask; an idle task may on each.
    pub fn is_allowed(&self, core: u32, task: u32) -> bool
        requires core { core < self.now.settings.cores }
        requires task { task < self.now.settings.tasks }
        ensures { result ≡ is_allowed self.now.control core task }
    {
        self.scheduler.is_allowed(core, task)
    }

    /// Whether the task is the current one of a core, also of one that is to give it up.
    pub fn is_current(&self, task: u32) -> bool
        requires { task < self.now.settings.tasks }
        ensures { result ≡ is_current self.now.control task }
    {
        self.scheduler.is_current(task)
    }

    /// Whether the task is in a ready list.
    pub fn ready(&self, task: u32) -> bool
        requires { task < self.now.settings.tasks }
        ensures { result ≡ is_ready task self.now.orders }
    {
        self.scheduler.ready(task)
    }

    /// Whether the task is suspended: it is in no ready list, and waits for nothing
    /// (`vTaskSuspend`).
    pub fn suspended(&self, task: u32) -> bool
        requires { task < self.now.settings.tasks }
        ensures { result ≡ is_suspended list_queues task self.now }
    {
        self.scheduler.is_suspended(task)
    }

    /// For each task whether it is ready and on no core.
    pub fn wants_core(&self) -> &[bool]
        ensures { result.now ≡ map (wants_core self.now) (numbers self.now.settings.tasks) }
    {
        self.scheduler.wants_core()
    }

    /// The first task of the ready list of the priority, if it has one. None is in it twice.
    pub fn first_ready(&self, priority: u32) -> Option<u32>
        requires { priority < self.now.settings.priorities }
        ensures first { result ≡ slice_get (ready_list self.now priority) 0 }
        ensures once { IsListing self.now.settings.tasks (ready_list self.now priority) }
        ensures task { IfSome result (λ task. task < self.now.settings.tasks) }
    {
        self.scheduler.first_ready(priority)
    }

    /// The task that stands right after this one, which is in a ready list; none where it is the
    /// last one.
    pub fn next_ready(&self, task: u32) -> Option<u32>
        requires task { task < self.now.settings.tasks }
        requires ready { is_ready task self.now.orders ≡ true }
        ensures next { (p k : ℕ) → p < self.now.settings.priorities
            → slice_get (ready_list self.now p) k ≡ Some task
            → result ≡ slice_get (ready_list self.now p) (k + 1) }
        ensures task { IfSome result (λ task. task < self.now.settings.tasks) }
    {
        self.scheduler.next_ready(task)
    }

    /// Why the step would be refused, the first reason that applies; none where it would be made.
    pub fn refusal(&self, step: &Step) -> Option<Refusal>
        requires { step_check self.now.settings step.now ≡ Ok tt }
        ensures { (table : Table) → StandsFor self.now table
            → result ≡ refusal stamp_queues step.now table }
    {
        self.scheduler.refusal(step)
    }

    /// The task whose priority in use the step may raise, if there is one. Every other keeps its
    /// own.
    pub fn raised_by(&self, step: &Step) -> Option<u32>
        requires { step_check self.now.settings step.now ≡ Ok tt }
        ensures raised { result ≡ raised_by self.now step.now }
        ensures task { IfSome result (λ task. task < self.now.settings.tasks) }
        ensures others { (table : Table) → StandsFor self.now table
            → KeepsOthers result table.control (step_of step.now table).1.control }
    {
        self.scheduler.raised_by(step)
    }

    /// The call of the task that has not returned, if there is one. A blocked task waits in it.
    pub fn unfinished(&self, task: u32) -> Option<Unfinished>
        requires { task < self.now.settings.tasks }
        ensures { result ≡ call_at self.now.calls task }
    {
        self.scheduler.unfinished(task)
    }

    /// The task that holds the mutex, if there is one (`xSemaphoreGetMutexHolder`).
    pub fn holder(&self, mutex: u32) -> Option<u32>
        requires { mutex < self.now.settings.mutexes }
        ensures holder { (table : Table) → StandsFor self.now table
            → result ≡ holder_at table.holders mutex }
        ensures task { IfSome result (λ holder. holder < self.now.settings.tasks) }
    {
        self.scheduler.holder(mutex)
    }

    /// What can be seen of the queue: how many messages it has (`uxQueueMessagesWaiting`), and how
    /// many it can have.
    pub fn queue(&self, queue: u32) -> QueueLook
        requires { queue < queue_total self.now.settings }
        ensures queue { (table : Table) → StandsFor self.now table
            → result ≡ queue_at table.queues queue }
        ensures seen { result ≡ queue_at self.now.queues queue }
    {
        self.scheduler.queue(queue)
    }

    /// The open hold of the kernel: its core, and how many times over it was opened
    /// (`taskENTER_CRITICAL`) and is to be closed.
    pub fn hold(&self) -> Option<(u32, u32)>
        ensures { (table : Table) → StandsFor self.now table
            → result ≡ option_map (λ hold. (hold.core, hold.depth)) table.hold }
    {
        self.scheduler.hold().map(|hold| (hold.core, hold.depth))
    }

    /// The tick count, in ticks, as a number of 32 bits.
    pub fn tick(&self) -> u32
        ensures ticks { (table : Table) → StandsFor self.now table
            → result ≡ table.orders.tick % 2 ^ 32 }
        ensures seen { result ≡ self.now.orders.tick }
        ensures sound { StandsForSome self.now }
    {
        self.scheduler.tick_count()
    }
}
