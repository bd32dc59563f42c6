//! What can be seen of a kernel.
ghost use Rattle.std.specs.Prelude.{◌≡◌, ◌+◌, ◌-◌, ◌<◌, ◌^◌, All, IfOk, length, map};
ghost use Rattle.bench_types.specs.Step.{queue_total};
ghost use Rattle.list_orders.specs.Search.{numbers};
ghost use Rattle.bench_model.specs.Control.{core_at};
ghost use Rattle.bench_model.specs.Equal.{StandsFor};
ghost use Rattle.bench_model.specs.Looks.{note_look};
ghost use Rattle.bench_model.specs.State.{holder_at};
ghost use Rattle.bench_model.specs.Table.{Table, tick_count};
ghost use Rattle.run_views.specs.Changes.{IsNumbered};
ghost use Rattle.run_views.specs.Looks.{cause_in, further_of, look_of, notes_of, standing_in, status_in, status_of, messages_in, HasShape};

use bench_types::{Cause, CoreLook, Hold, Items, NoteState, Notification, TaskLook};
use smp_kernel::Kernel;
use std::alloc::{AllocError, Global};

/// Whether a task is ready, waits, and until when, or is suspended.
#[derive(Clone, Copy, Debug, PartialEq, Eq)]
pub enum Standing {
    /// In a ready list (`eReady`, or `eRunning` on a core).
    Ready,
    /// Waits until this tick count, or without end (`eBlocked`).
    Blocked(Option<u32>),
    /// Neither ready nor does it wait for anything (`eSuspended`).
    Suspended,
}

/// What can be seen of a task.
#[derive(Clone, Copy, Debug, PartialEq, Eq)]
pub struct TaskStatus {
    pub standing: Standing,
    /// The priority in use, that of its ready list (`uxPriority`).
    pub in_use: u32,
    /// The base priority (`uxBasePriority`).
    pub base: u32,
    /// The core affinity mask, cut to the bits that mean a core (`uxCoreAffinityMask`).
    pub mask: u32,
    /// Whether a core may be asked to give it up for another task (`xPreemptionDisable` is false).
    pub preempt: bool,
    /// What the call waits for that it made and that has not returned, if there is one.
    pub cause: Option<Cause>,
    /// The value of its notification of index 0 (`ulNotifiedValue[0]`).
    pub value: u32,
    /// The state of that notification (`ucNotifyState[0]`).
    pub state: NoteState,
}

/// What can be seen of a kernel.
///
/// How long a task waits is told by the tick count at which it is to wake, which stays while the
/// ticks go by; how many mutexes it holds is told by the holders.
#[derive(Debug, Drop)]
pub struct Look {
    /// The tick count, as a number of 32 bits.
    pub tick: u32,
    /// The open hold, if there is one.
    pub hold: Option<Hold>,
    /// The cores, core 0 first.
    pub cores: Items<CoreLook>,
    /// The tasks, task 0 first.
    pub tasks: Items<TaskStatus>,
    /// The notifications of the indices above 0, index 1 first; of each index those of all tasks,
    /// task 0 first.
    pub further: Items<Items<Notification>>,
    /// Per mutex the task that holds it, if there is one.
    pub holders: Items<Option<u32>>,
    /// Per queue how many messages it has.
    pub messages: Items<u32>,
}

impl Look {
    /// What can be seen of the kernel now.
    #[tactic(auto, unfolding(crate::specs::Looks::look_of))]
    pub fn of_kernel(alloc: Global, kernel: &Kernel) -> Result<Look, AllocError>
        ensures look { IfOk result
            (λ look. (table : Table) → StandsFor kernel.now table → look ≡ look_of table) }
        ensures shape { IfOk result (λ look. HasShape kernel.now.settings look) }
        ensures numbered { IfOk result (λ look. IsNumbered look) }
    {
        Ok(Look {
            tick: kernel.tick(),
            hold: hold_of(kernel),
            cores: Items::new(cores_of(alloc, kernel)?),
            tasks: Items::new(statuses_of(alloc, kernel)?),
            further: Items::new(further_of(alloc, kernel)?),
            holders: Items::new(holders_of(alloc, kernel)?),
            messages: Items::new(messages_of(alloc, kernel)?),
        })
    }
}

fn hold_of(kernel: &Kernel) -> Option<Hold>
    ensures { (table : Table) → StandsFor kernel.now table → result ≡ table.hold }
{
    match kernel.hold() {
        Some((core, depth)) => Some(Hold { core, depth }),
        None => None,
    }
}

fn standing_in(tick: u32, look: TaskLook) -> Standing
    ensures { result ≡ standing_in tick look }
{
    if look.ready {
        return Standing::Ready;
    }
    if look.suspended {
        return Standing::Suspended;
    }
    match look.left {
        Some(left) => Standing::Blocked(Some(tick.wrapping_add(left))),
        None => Standing::Blocked(None),
    }
}

// What the task's unfinished call waits for, if it has one.
fn cause_in(kernel: &Kernel, task: u32) -> Option<Cause>
    requires { task < kernel.now.settings.tasks }
    ensures { (table : Table) → StandsFor kernel.now table → result ≡ cause_in table task }
{
    match kernel.unfinished(task) {
        Some(call) => Some(call.cause()),
        None => None,
    }
}

fn status_in(tick: u32, cause: Option<Cause>, look: TaskLook) -> TaskStatus
    ensures { result ≡ status_in tick cause look }
{
    TaskStatus {
        standing: standing_in(tick, look),
        in_use: look.in_use,
        base: look.base,
        mask: look.mask,
        preempt: look.preempt,
        cause,
        value: look.value,
        state: look.state,
    }
}

fn status_of(kernel: &Kernel, task: u32) -> TaskStatus
    requires { task < kernel.now.settings.tasks }
    ensures { (table : Table) → StandsFor kernel.now table → result ≡ status_of table task }
{
    status_in(kernel.tick(), cause_in(kernel, task), kernel.look(task))
}

fn cores_of(alloc: Global, kernel: &Kernel) -> Result<Vec<CoreLook>, AllocError>
    ensures cores { IfOk result
        (λ cores. (table : Table) → StandsFor kernel.now table
        → cores.items ≡ map (core_at table.control) (numbers kernel.now.settings.cores)) }
    ensures count { IfOk result (λ cores. length cores.items ≡ kernel.now.settings.cores) }
    ensures few { IfOk result (λ cores. length cores.items < 2 ^ 32) }
{
    let count = kernel.settings().cores;
    let mut cores = Vec::with_capacity(alloc, count as usize)?;
    for core in 0..count {
        cores.push(kernel.core_look(core))?;
    }
    Ok(cores)
}

fn statuses_of(alloc: Global, kernel: &Kernel) -> Result<Vec<TaskStatus>, AllocError>
    ensures tasks { IfOk result
        (λ tasks. (table : Table) → StandsFor kernel.now table
        → tasks.items ≡ map (status_of table) (numbers kernel.now.settings.tasks)) }
    ensures count { IfOk result (λ tasks. length tasks.items ≡ kernel.now.settings.tasks) }
    ensures few { IfOk result (λ tasks. length tasks.items < 2 ^ 32) }
{
    let count = kernel.settings().tasks;
    let mut tasks = Vec::with_capacity(alloc, count as usize)?;
    for task in 0..count {
        tasks.push(status_of(kernel, task))?;
    }
    Ok(tasks)
}

// The task's notification of the index.
fn note_of(kernel: &Kernel, task: u32, index: u32) -> Notification
    requires task { task < kernel.now.settings.tasks }
    requires index { index < kernel.now.settings.notes }
    ensures { (table : Table) → StandsFor kernel.now table → result ≡ note_look table task index }
{
    let (value, state) = kernel.note_look(task, index);
    Notification { value, state }
}

// The notifications of the index, of all tasks.
fn notes_of(alloc: Global, kernel: &Kernel, index: u32) -> Result<Vec<Notification>, AllocError>
    requires { index < kernel.now.settings.notes }
    ensures notes { IfOk result
        (λ notes. (table : Table) → StandsFor kernel.now table
        → notes.items ≡ notes_of table index) }
    ensures count { IfOk result (λ notes. length notes.items ≡ kernel.now.settings.tasks) }
    ensures few { IfOk result (λ notes. length notes.items < 2 ^ 32) }
{
    let count = kernel.settings().tasks;
    let mut notes = Vec::with_capacity(alloc, count as usize)?;
    for task in 0..count {
        notes.push(note_of(kernel, task, index))?;
    }
    Ok(notes)
}

// Those of the indices above 0.
fn further_of(alloc: Global, kernel: &Kernel) -> Result<Vec<Items<Notification>>, AllocError>
    ensures further { IfOk result
        (λ further. (table : Table) → StandsFor kernel.now table
        → further.items ≡ further_of table) }
    ensures count { IfOk result
        (λ further. length further.items ≡ kernel.now.settings.notes - 1) }
    ensures notes { IfOk result
        (λ further. All (λ notes. length notes ≡ kernel.now.settings.tasks) further.items) }
    ensures few { IfOk result (λ further. length further.items + 1 < 2 ^ 32) }
    ensures few_notes { IfOk result
        (λ further. All (λ notes. length notes < 2 ^ 32) further.items) }
{
    let count = kernel.settings().notes.saturating_sub(1);
    let mut further = Vec::with_capacity(alloc, count as usize)?;
    for above in 0..count {
        let notes = notes_of(alloc, kernel, above + 1)?;
        further.push(Items::new(notes))?;
    }
    Ok(further)
}

fn holders_of(alloc: Global, kernel: &Kernel) -> Result<Vec<Option<u32>>, AllocError>
    ensures holders { IfOk result
        (λ holders. (table : Table) → StandsFor kernel.now table
        → holders.items ≡ map (holder_at table.holders) (numbers kernel.now.settings.mutexes)) }
    ensures count { IfOk result (λ holders. length holders.items ≡ kernel.now.settings.mutexes) }
    ensures few { IfOk result (λ holders. length holders.items < 2 ^ 32) }
{
    let count = kernel.settings().mutexes;
    let mut holders = Vec::with_capacity(alloc, count as usize)?;
    for mutex in 0..count {
        holders.push(kernel.holder(mutex))?;
    }
    Ok(holders)
}

fn messages_of(alloc: Global, kernel: &Kernel) -> Result<Vec<u32>, AllocError>
    ensures messages { IfOk result
        (λ messages. (table : Table) → StandsFor kernel.now table
        → messages.items
        ≡ map (messages_in table) (numbers (queue_total kernel.now.settings))) }
    ensures count { IfOk result
        (λ messages. length messages.items ≡ queue_total kernel.now.settings) }
    ensures few { IfOk result (λ messages. length messages.items < 2 ^ 32) }
{
    let count = kernel.settings().queues.unwrap_or(0);
    let mut messages = Vec::with_capacity(alloc, count as usize)?;
    for queue in 0..count {
        messages.push(kernel.queue(queue).messages)?;
    }
    Ok(messages)
}
