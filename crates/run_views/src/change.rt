//! What a step changed.
ghost use Rattle.std.specs.Prelude.{◌≡◌, ◌==◌, ◌+◌, ◌++◌, ◌<◌, ◌^◌, All, IfOk, OnOk, length, map};
ghost use Rattle.bench_model.specs.SameTest.{are_same_options, are_same_holds};
ghost use Rattle.run_views.specs.Changes.{applied, changes, changes_each, core_changes, further_changes, mutex_changes, note_changes, queue_changes, schedule_changes, call_changes, task_changes, unless, HasSameShape, IsNumbered, TellsOf};

use crate::same::{
    is_same_cause, is_same_flag, is_same_hold, is_same_number, is_same_standing, is_same_state,
};
use crate::{Look, Standing, TaskStatus};
use bench_types::{Cause, CoreLook, Hold, Items, NoteState, Notification};
use std::alloc::{AllocError, Global};

/// One thing that a step changed.
#[derive(Clone, Copy, Debug, PartialEq, Eq)]
pub enum Change {
    /// The tick count.
    Tick {
        from: u32,
        to: u32,
    },
    /// The open hold: it was opened, opened once more, closed once, or closed.
    Hold {
        from: Option<Hold>,
        to: Option<Hold>,
    },
    Core {
        core: u32,
        change: CoreChange,
    },
    Task {
        task: u32,
        change: TaskChange,
    },
    /// A notification of a task, of an index above 0.
    Further {
        index: u32,
        task: u32,
        change: NoteChange,
    },
    Mutex {
        mutex: u32,
        change: MutexChange,
    },
    Queue {
        queue: u32,
        change: QueueChange,
    },
}

/// What changed of a core. A flag is given as it is after the change.
#[derive(Clone, Copy, Debug, PartialEq, Eq)]
pub enum CoreChange {
    /// Its current task.
    Current { from: u32, to: u32 },
    /// Whether it asked itself to switch.
    Pend(bool),
    /// Whether another core asked it to switch.
    Asked(bool),
}

/// What changed of a task. A flag is given as it is after the change.
#[derive(Clone, Copy, Debug, PartialEq, Eq)]
pub enum TaskChange {
    /// Whether it is ready, and until when it waits.
    Stands {
        from: Standing,
        to: Standing,
    },
    /// The priority in use.
    InUse {
        from: u32,
        to: u32,
    },
    /// The base priority.
    Base {
        from: u32,
        to: u32,
    },
    /// The core affinity mask.
    Mask {
        from: u32,
        to: u32,
    },
    /// Whether a core may be asked to give it up for another task.
    Preempt(bool),
    /// What its call that has not returned waits for, where there is one.
    Call {
        from: Option<Cause>,
        to: Option<Cause>,
    },
    /// Its notification of index 0.
    Note(NoteChange),
}

/// What changed of a notification.
#[derive(Clone, Copy, Debug, PartialEq, Eq)]
pub enum NoteChange {
    /// Its value.
    Value { from: u32, to: u32 },
    /// Its state.
    State { from: NoteState, to: NoteState },
}

/// What changed of a mutex.
#[derive(Clone, Copy, Debug, PartialEq, Eq)]
pub enum MutexChange {
    /// The task that holds it.
    Holder { from: Option<u32>, to: Option<u32> },
}

/// What changed of a queue.
#[derive(Clone, Copy, Debug, PartialEq, Eq)]
pub enum QueueChange {
    /// How many messages it has.
    Messages { from: u32, to: u32 },
}

impl Look {
    /// What changed from this look to the later one: all of it, and nothing else. It is in the
    /// order of the fields: the tick count, the hold, then core by core, task by task, each further
    /// index of the notifications task by task, mutex by mutex, and queue by queue.
    pub fn changes_to(&self, alloc: Global, after: &Look) -> Result<Vec<Change>, AllocError>
        requires { IsNumbered self.now }
        ensures changes { IfOk result (λ found. found.items ≡ changes self.now after.now) }
        // The changes are all there are: made on this look they give the later one.
        ensures all { IfOk result
            (λ found. HasSameShape self.now after.now
            → applied found.items self.now ≡ after.now) }
        // Each of them is one: what it names was so and is so now, and the two differ.
        ensures only { IfOk result (λ found. All (TellsOf self.now after.now) found.items) }
    {
        let changes = found_changes(alloc, self, after)?;
        Ok(changes)
    }
}

#[tactic(auto, unfolding(crate::specs::Changes::changes))]
fn found_changes(alloc: Global, before: &Look, after: &Look) -> Result<Vec<Change>, AllocError>
    requires { IsNumbered before.now }
    ensures { IfOk result (λ found. found.items ≡ changes before.now after.now) }
{
    let mut changes = Vec::new(alloc);
    push_tick(&mut changes, before.tick, after.tick)?;
    push_hold(&mut changes, before.hold, after.hold)?;
    push_cores(
        &mut changes,
        before.cores.as_slice(),
        after.cores.as_slice(),
    )?;
    push_tasks(
        &mut changes,
        before.tasks.as_slice(),
        after.tasks.as_slice(),
    )?;
    push_further(
        &mut changes,
        before.further.as_slice(),
        after.further.as_slice(),
    )?;
    push_mutexes(
        &mut changes,
        before.holders.as_slice(),
        after.holders.as_slice(),
    )?;
    push_queues(
        &mut changes,
        before.messages.as_slice(),
        after.messages.as_slice(),
    )?;
    Ok(changes)
}

fn push_unless(changes: &mut Vec<Change>, same: bool, change: Change) -> Result<(), AllocError>
    ensures { OnOk result (changes.new.items ≡ changes.old.items ++ unless same change) }
{
    if !same {
        changes.push(change)?;
    }
    Ok(())
}

fn push_tick(changes: &mut Vec<Change>, from: u32, to: u32) -> Result<(), AllocError>
    ensures { OnOk result
        (changes.new.items ≡ changes.old.items ++ unless (from == to) (Change.Tick from to)) }
{
    push_unless(changes, from == to, Change::Tick { from, to })
}

fn push_hold(
    changes: &mut Vec<Change>,
    from: Option<Hold>,
    to: Option<Hold>,
) -> Result<(), AllocError>
    ensures { OnOk result
        (changes.new.items ≡ changes.old.items
        ++ unless (are_same_options are_same_holds from to) (Change.Hold from to)) }
{
    push_unless(changes, is_same_hold(from, to), Change::Hold { from, to })
}

fn push_core_change(
    changes: &mut Vec<Change>,
    core: u32,
    same: bool,
    change: CoreChange,
) -> Result<(), AllocError>
    ensures { OnOk result
        (changes.new.items
        ≡ changes.old.items ++ map (Change.Core core) (unless same change)) }
{
    push_unless(changes, same, Change::Core { core, change })
}

// The changes of one core.
fn push_core(
    changes: &mut Vec<Change>,
    core: u32,
    old: CoreLook,
    new: CoreLook,
) -> Result<(), AllocError>
    ensures { OnOk result
        (changes.new.items
        ≡ changes.old.items ++ map (Change.Core core) (core_changes old new)) }
{
    let current = CoreChange::Current {
        from: old.current,
        to: new.current,
    };
    push_core_change(changes, core, old.current == new.current, current)?;
    push_core_change(
        changes,
        core,
        is_same_flag(old.pend, new.pend),
        CoreChange::Pend(new.pend),
    )?;
    let asked = CoreChange::Asked(new.asked);
    push_core_change(changes, core, is_same_flag(old.asked, new.asked), asked)
}

fn push_task_change(
    changes: &mut Vec<Change>,
    task: u32,
    same: bool,
    change: TaskChange,
) -> Result<(), AllocError>
    ensures { OnOk result
        (changes.new.items
        ≡ changes.old.items ++ map (Change.Task task) (unless same change)) }
{
    push_unless(changes, same, Change::Task { task, change })
}

// The changes of how one task is scheduled.
fn push_schedule(
    changes: &mut Vec<Change>,
    task: u32,
    old: TaskStatus,
    new: TaskStatus,
) -> Result<(), AllocError>
    ensures { OnOk result
        (changes.new.items
        ≡ changes.old.items ++ map (Change.Task task) (schedule_changes old new)) }
{
    let stands = TaskChange::Stands {
        from: old.standing,
        to: new.standing,
    };
    push_task_change(
        changes,
        task,
        is_same_standing(old.standing, new.standing),
        stands,
    )?;
    let in_use = TaskChange::InUse {
        from: old.in_use,
        to: new.in_use,
    };
    push_task_change(changes, task, old.in_use == new.in_use, in_use)?;
    let base = TaskChange::Base {
        from: old.base,
        to: new.base,
    };
    push_task_change(changes, task, old.base == new.base, base)?;
    let mask = TaskChange::Mask {
        from: old.mask,
        to: new.mask,
    };
    push_task_change(changes, task, old.mask == new.mask, mask)?;
    let preempt = TaskChange::Preempt(new.preempt);
    push_task_change(
        changes,
        task,
        is_same_flag(old.preempt, new.preempt),
        preempt,
    )
}

// The changes of one task's call and of its notification of index 0.
fn push_call(
    changes: &mut Vec<Change>,
    task: u32,
    old: TaskStatus,
    new: TaskStatus,
) -> Result<(), AllocError>
    ensures { OnOk result
        (changes.new.items
        ≡ changes.old.items ++ map (Change.Task task) (call_changes old new)) }
{
    let call = TaskChange::Call {
        from: old.cause,
        to: new.cause,
    };
    push_task_change(changes, task, is_same_cause(old.cause, new.cause), call)?;
    let value = TaskChange::Note(NoteChange::Value {
        from: old.value,
        to: new.value,
    });
    push_task_change(changes, task, old.value == new.value, value)?;
    let state = TaskChange::Note(NoteChange::State {
        from: old.state,
        to: new.state,
    });
    push_task_change(changes, task, is_same_state(old.state, new.state), state)
}

// The changes of one task.
fn push_task(
    changes: &mut Vec<Change>,
    task: u32,
    old: TaskStatus,
    new: TaskStatus,
) -> Result<(), AllocError>
    ensures { OnOk result
        (changes.new.items
        ≡ changes.old.items ++ map (Change.Task task) (task_changes old new)) }
{
    push_schedule(changes, task, old, new)?;
    push_call(changes, task, old, new)
}

fn push_note_change(
    changes: &mut Vec<Change>,
    index: u32,
    task: u32,
    same: bool,
    change: NoteChange,
) -> Result<(), AllocError>
    ensures { OnOk result
        (changes.new.items
        ≡ changes.old.items ++ map (Change.Further index task) (unless same change)) }
{
    push_unless(
        changes,
        same,
        Change::Further {
            index,
            task,
            change,
        },
    )
}

// The changes of one task's notification of the index.
fn push_note(
    changes: &mut Vec<Change>,
    index: u32,
    task: u32,
    old: Notification,
    new: Notification,
) -> Result<(), AllocError>
    ensures { OnOk result
        (changes.new.items
        ≡ changes.old.items ++ map (Change.Further index task) (note_changes old new)) }
{
    let value = NoteChange::Value {
        from: old.value,
        to: new.value,
    };
    push_note_change(changes, index, task, old.value == new.value, value)?;
    let state = NoteChange::State {
        from: old.state,
        to: new.state,
    };
    let same = is_same_state(old.state, new.state);
    push_note_change(changes, index, task, same, state)
}

// The changes of one mutex.
fn push_mutex(
    changes: &mut Vec<Change>,
    mutex: u32,
    old: Option<u32>,
    new: Option<u32>,
) -> Result<(), AllocError>
    ensures { OnOk result
        (changes.new.items
        ≡ changes.old.items ++ map (Change.Mutex mutex) (mutex_changes old new)) }
{
    let change = MutexChange::Holder { from: old, to: new };
    push_unless(
        changes,
        is_same_number(old, new),
        Change::Mutex { mutex, change },
    )
}

// The changes of one queue.
fn push_queue(changes: &mut Vec<Change>, queue: u32, old: u32, new: u32) -> Result<(), AllocError>
    ensures { OnOk result
        (changes.new.items
        ≡ changes.old.items ++ map (Change.Queue queue) (queue_changes old new)) }
{
    let change = QueueChange::Messages { from: old, to: new };
    push_unless(changes, old == new, Change::Queue { queue, change })
}

fn push_cores(
    changes: &mut Vec<Change>,
    olds: &[CoreLook],
    news: &[CoreLook],
) -> Result<(), AllocError>
    requires { length olds.now < 2 ^ 32 }
    ensures { OnOk result
        (changes.new.items
        ≡ changes.old.items ++ changes_each Change.Core core_changes 0 olds.now news.now) }
{
    for (core, old) in olds.iter().enumerate() {
        if core < news.len() {
            push_core(changes, core as u32, *old, news[core])?;
        }
    }
    Ok(())
}

fn push_tasks(
    changes: &mut Vec<Change>,
    olds: &[TaskStatus],
    news: &[TaskStatus],
) -> Result<(), AllocError>
    requires { length olds.now < 2 ^ 32 }
    ensures { OnOk result
        (changes.new.items
        ≡ changes.old.items ++ changes_each Change.Task task_changes 0 olds.now news.now) }
{
    for (task, old) in olds.iter().enumerate() {
        if task < news.len() {
            push_task(changes, task as u32, *old, news[task])?;
        }
    }
    Ok(())
}

// The changes of all tasks' notifications of the index.
fn push_notes(
    changes: &mut Vec<Change>,
    index: u32,
    olds: &[Notification],
    news: &[Notification],
) -> Result<(), AllocError>
    requires { length olds.now < 2 ^ 32 }
    ensures { OnOk result
        (changes.new.items
        ≡ changes.old.items
        ++ changes_each (Change.Further index) note_changes 0 olds.now news.now) }
{
    for (task, old) in olds.iter().enumerate() {
        if task < news.len() {
            push_note(changes, index, task as u32, *old, news[task])?;
        }
    }
    Ok(())
}

// The changes of the notifications of index 1 and above.
fn push_further(
    changes: &mut Vec<Change>,
    olds: &[Items<Notification>],
    news: &[Items<Notification>],
) -> Result<(), AllocError>
    requires few { length olds.now + 1 < 2 ^ 32 }
    requires notes { All (λ notes. length notes < 2 ^ 32) olds.now }
    ensures { OnOk result
        (changes.new.items ≡ changes.old.items ++ further_changes 1 olds.now news.now) }
{
    for (above, old) in olds.iter().enumerate() {
        if above < news.len() {
            let index = above as u32 + 1;
            push_notes(changes, index, old.as_slice(), news[above].as_slice())?;
        }
    }
    Ok(())
}

fn push_mutexes(
    changes: &mut Vec<Change>,
    olds: &[Option<u32>],
    news: &[Option<u32>],
) -> Result<(), AllocError>
    requires { length olds.now < 2 ^ 32 }
    ensures { OnOk result
        (changes.new.items
        ≡ changes.old.items ++ changes_each Change.Mutex mutex_changes 0 olds.now news.now) }
{
    for (mutex, old) in olds.iter().enumerate() {
        if mutex < news.len() {
            push_mutex(changes, mutex as u32, *old, news[mutex])?;
        }
    }
    Ok(())
}

fn push_queues(changes: &mut Vec<Change>, olds: &[u32], news: &[u32]) -> Result<(), AllocError>
    requires { length olds.now < 2 ^ 32 }
    ensures { OnOk result
        (changes.new.items
        ≡ changes.old.items ++ changes_each Change.Queue queue_changes 0 olds.now news.now) }
{
    for (queue, old) in olds.iter().enumerate() {
        if queue < news.len() {
            push_queue(changes, queue as u32, *old, news[queue])?;
        }
    }
    Ok(())
}
