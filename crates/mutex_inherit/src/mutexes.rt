//! Mutexes and their holders, and the tasks that wait in event lists.
ghost use Rattle.std.specs.Prelude.{◌≡◌, ◌↔◌, ℕ, ◌+◌, ◌<◌, ◌≤◌, ◌^◌, ◌==◌, ◌&&◌, not, if◌then◌else◌, length, replicate, slice_set, is_none, option_map, unwrap_or, Some, None, All, IsTrue, IfOk, IfSome};
ghost use Rattle.std.specs.Option.{IsSome, ForSome};
ghost use Rattle.bench_types.specs.declared.kernel_data.EventWait.{EventWait};
ghost use Rattle.bench_types.specs.declared.kernel_data.Waiter.{Waiter};
ghost use Rattle.bench_model.specs.Control.{task_at};
ghost use Rattle.bench_model.specs.State.{holder_at};
ghost use Rattle.bench_model.specs.Lists.{list_queues};
ghost use Rattle.bench_model.specs.Waiters.{without_waiter, first_of};
ghost use Rattle.bench_model.specs.Mutexes.{held_by, is_marked, disinherit_priority, inherited, after_disinherit};
ghost use Rattle.bench_model.specs.Waiters.{list_value_of, with_waiter, wait_of};
ghost use Rattle.bench_model.specs.Cores.{cores_rule};
ghost use Rattle.index_lists.specs.Listed.{list_at, items_of};
ghost use Rattle.mutex_inherit.specs.Parts.{disinherited_part, free_mutexes, holder_of, inherited_part, tasks_for, valued, waited_part};

use crate::inheritance::{disinherit_priority, inherit, is_marked, lower};
use bench_types::{EventWait, Waiter};
use index_lists::Lists;
use ready_core::Cores;
use std::alloc::{AllocError, Global};
use std::marker::Model;

/// Who holds each mutex, and who waits in each event list. List m is that of mutex m; behind those
/// of all mutexes there may be more.
#[derive(Debug)]
pub struct Mutexes {
    tasks: u32,
    priorities: u32,
    /// How many event lists there are.
    list_count: u32,
    /// Per mutex the task that holds it.
    holders: Vec<Option<u32>>,
    /// Per event list the tasks that wait in it, each with how far its waiting priority lies below
    /// the number of priorities.
    lists: Lists,
    /// Per task its list value; empty where the session has none.
    values: Vec<u32>,
}

// Written out, so that whoever drops one has one call to prove, and not one for each list in it.
impl Drop for Mutexes {
    fn drop(self) {
        let Mutexes {
            tasks: _,
            priorities: _,
            list_count: _,
            holders: _,
            lists: _,
            values: _,
        } = self;
    }
}

impl Model for Mutexes {
    ghost use Rattle.mutex_inherit.specs.Parts.{MutexPart, seen_mutexes};
    ghost use Rattle.mutex_inherit.specs.Shape.{IsMutexShape};

    ghost Value = { MutexPart };

    ghost view = { λ part. seen_mutexes part.tasks part.priorities part.list_count
        part.holders.items part.values.items part.lists };

    ghost invariant = { λ part. IsMutexShape part.tasks part.priorities part.list_count
        part.holders.items part.values.items part.lists };
}

impl Mutexes {
    /// No mutex is held, and no task waits. There is room for so many tasks to wait, each with a
    /// priority below their number. The event lists are those of the mutexes and what comes behind
    /// them. The values are the tasks' list values, task 0 first; none where the session has no
    /// list values.
    pub fn new(
        alloc: Global,
        tasks: u32,
        priorities: u32,
        mutexes: u32,
        lists: u32,
        values: Vec<u32>,
    ) -> Result<Self, AllocError>
        requires few { tasks + lists < 2 ^ 32 }
        requires mutexes { mutexes ≤ lists }
        requires values { All (λ value. value < priorities) values.items }
        ensures { IfOk result
            (λ part. part ≡ free_mutexes tasks priorities mutexes lists values.items) }
    {
        Ok(Mutexes {
            tasks,
            priorities,
            list_count: lists,
            holders: free_holders(alloc, mutexes)?,
            lists: Lists::new(alloc, tasks, lists)?,
            values,
        })
    }

    /// A second value, equal to this one.
    pub fn copy(&self, alloc: Global) -> Result<Self, AllocError>
        ensures { IfOk result (λ copy. copy ≡ self.now) }
    {
        Ok(Mutexes {
            tasks: self.tasks,
            priorities: self.priorities,
            list_count: self.list_count,
            holders: Vec::from_slice(alloc, &self.holders)?,
            lists: self.lists.copy(alloc)?,
            values: Vec::from_slice(alloc, &self.values)?,
        })
    }

    /// This becomes equal to the other, which has as many tasks, mutexes, event lists and list
    /// values. No memory is taken.
    pub fn copy_from(&mut self, other: &Self)
        requires tasks { self.old.tasks ≡ other.now.tasks }
        requires mutexes { length self.old.holders ≡ length other.now.holders }
        requires lists { self.old.lists ≡ other.now.lists }
        requires values { length self.old.values ≡ length other.now.values }
        ensures { self.new ≡ other.now }
    {
        self.priorities = other.priorities;
        self.holders.copy_from_slice(&other.holders);
        self.lists.copy_from(&other.lists);
        self.values.copy_from_slice(&other.values);
    }

    /// Whether all that can be seen of the two is equal.
    pub fn same(&self, other: &Self) -> bool
        ensures { IsTrue result ↔ (self.now ≡ other.now) }
    {
        // Nested, so that each test is proved where those before it hold.
        self.has_same_sizes(other)
            && (self.has_same_holders(other)
                && (self.has_same_values(other) && self.has_same_waiters(other)))
    }

    /// The task that holds the mutex; none where it is free.
    pub fn holder(&self, mutex: u32) -> Option<u32>
        requires { mutex < length self.now.holders }
        ensures holder { result ≡ holder_at self.now.holders mutex }
        ensures task { IfSome result (λ holder. holder < self.now.tasks) }
        // Its event list is there.
        ensures list { mutex < self.now.lists }
    {
        self.holders[mutex as usize]
    }

    /// How many mutexes the task holds.
    pub fn held(&self, task: u32) -> u32
        ensures { result ≡ held_by self.now.holders task }
    {
        held_by(&self.holders, task)
    }

    /// The event list that the task waits in; none where it waits in none.
    pub fn waits_in(&self, task: u32) -> Option<u32>
        requires { task < self.now.tasks }
        ensures { result
            ≡ option_map (λ (wait : EventWait). wait.list) (wait_of task self.now.waiters) }
    {
        self.lists.list_of(task)
    }

    /// The event lists, in each the tasks that wait in it, in the order of the waiters.
    pub fn lists(&self) -> &Lists
        ensures items { result.now.items ≡ self.now.tasks }
        ensures lists { length result.now.lists ≡ self.now.lists }
        ensures tasks { (list : ℕ) → list < self.now.lists
            → items_of (list_at result.now list) ≡ tasks_for list self.now.waiters }
    {
        &self.lists
    }

    /// The first task that waits in the event list; none where no task does.
    pub fn first_task(&self, list: u32) -> Option<u32>
        requires { list < self.now.lists }
        ensures first { result
            ≡ option_map (λ (waiter : Waiter). waiter.task) (first_of list self.now.waiters) }
        ensures task { IfSome result (λ task. task < self.now.tasks) }
    {
        self.lists.first(list)
    }

    /// The list value of the task, a priority; none where the session has no list values.
    pub fn list_value(&self, task: u32) -> Option<u32>
        ensures value { result ≡ list_value_of task self.now.values }
        ensures below { IfSome result (λ value. value < self.now.priorities) }
    {
        self.values.get(task as usize).copied()
    }

    /// The list value of the task becomes this one, a priority, where the session has list values.
    /// Where the task waits, it does so with this priority from now on; no waiter moves.
    pub fn set_list_value(&mut self, task: u32, value: u32)
        requires task { task < self.old.tasks }
        requires value { value < self.old.priorities }
        ensures { self.new ≡ valued task value self.old }
    {
        if (task as usize) < self.values.len() {
            self.values[task as usize] = value;
            self.lists.set_key(task, self.priorities - value);
        }
    }

    /// The task takes the mutex where it is free. Returns whether it was; where not, nothing
    /// changes.
    pub fn try_take(&mut self, task: u32, mutex: u32) -> bool
        requires task { task < self.old.tasks }
        requires mutex { mutex < length self.old.holders }
        ensures taken { result ≡ is_none (holder_at self.old.holders mutex) }
        ensures holders { self.new
            ≡ (if result
            then record self.old { holders = slice_set self.old.holders mutex (Some task) }
            else self.old) }
    {
        let is_free = self.holder(mutex).is_none();
        if is_free {
            self.set_holder(mutex, Some(task));
        }
        is_free
    }

    /// The task begins to wait in the event list with its list value, or with this priority, its
    /// priority in use, where there are no list values: before the first that waits there with a
    /// lesser one.
    pub fn wait_in(&mut self, task: u32, list: u32, in_use: u32)
        requires task { task < self.old.tasks }
        requires list { list < self.old.lists }
        requires priority { in_use < self.old.priorities }
        requires free { wait_of task self.old.waiters ≡ None }
        ensures { self.new ≡ record self.old {
          waiters = with_waiter
              (record {
                task = task;
                wait = record {
                  list = list;
                  priority = unwrap_or (list_value_of task self.old.values) in_use;
                };
              }) self.old.waiters;
        } }
    {
        let priority = self.waiting_priority(task, in_use);
        self.enter(task, list, priority);
    }

    /// The task waits for the mutex, which a task holds, with its list value, or with its priority
    /// in use where there are no list values: before the first that waits for it with a lesser
    /// one. The holder inherits the task's priority in use. Returns the mark of the wait.
    pub fn wait_on(&mut self, cores: &mut Cores, acting: u32, task: u32, mutex: u32) -> bool
        requires task { task < self.old.tasks }
        requires tasks { length cores.old.control.tasks ≡ self.old.tasks }
        requires priorities { cores.old.priorities ≡ self.old.priorities }
        requires mutex { mutex < length self.old.holders }
        requires held { IsSome (holder_at self.old.holders mutex) }
        requires free { wait_of task self.old.waiters ≡ None }
        ensures mark { result
            ≡ is_marked cores.old.control task (holder_of self.old.holders mutex) }
        ensures cores { cores.new
            ≡ cores_rule
            (inherited list_queues acting (holder_of self.old.holders mutex)
            (task_at cores.old.control task).in_use) cores.old }
        ensures part { self.new ≡ waited_part cores.old.control task mutex self.old }
    {
        let holder = self.holder_of(mutex);
        let in_use = cores.in_use(task);
        let priority = self.waiting_priority(task, in_use);
        let mark = is_marked(cores, task, holder);
        self.inherit(cores, acting, holder, in_use);
        self.enter(task, mutex, priority);
        mark
    }

    /// The task gives the mutex, which it holds; where it holds no other, its base priority is in
    /// use again. Returns the first task that waits for the mutex, which waits on until it leaves.
    pub fn give(&mut self, cores: &mut Cores, acting: u32, task: u32, mutex: u32) -> Option<u32>
        requires task { task < self.old.tasks }
        requires tasks { length cores.old.control.tasks ≡ self.old.tasks }
        requires priorities { cores.old.priorities ≡ self.old.priorities }
        requires mutex { mutex < length self.old.holders }
        requires held { holder_at self.old.holders mutex ≡ Some task }
        ensures first { result
            ≡ option_map (λ (waiter : Waiter). waiter.task) (first_of mutex self.new.waiters) }
        ensures task { IfSome result (λ waiter. waiter < self.old.tasks) }
        ensures part { let holders = slice_set self.old.holders mutex None in
            let given = record self.old { holders = holders } in
            self.new
            ≡ (if held_by holders task == 0
            then disinherited_part cores.old.control task (task_at cores.old.control task).base
            given else given) }
        ensures cores { cores.new
            ≡ (if held_by (slice_set self.old.holders mutex None) task == 0
            then cores_rule
            (after_disinherit list_queues acting task (task_at cores.old.control task).base)
            cores.old else cores.old) }
    {
        self.set_holder(mutex, None);
        if self.held(task) == 0 {
            self.disinherit(cores, acting, task, cores.base(task));
        }
        self.first_task(mutex)
    }

    /// A wait with a mark has ended without the mutex, which another task may hold: where that task
    /// holds no other, it keeps what it owes to those that still wait (V11 tasks.c,
    /// vTaskPriorityDisinheritAfterTimeout).
    pub fn after_timeout(&mut self, cores: &mut Cores, acting: u32, task: u32, mutex: u32)
        requires tasks { length cores.old.control.tasks ≡ self.old.tasks }
        requires priorities { cores.old.priorities ≡ self.old.priorities }
        requires mutex { mutex < length self.old.holders }
        requires held { IsSome (holder_at self.old.holders mutex) }
        ensures part { let holder = holder_of self.old.holders mutex in
            let base = (task_at cores.old.control holder).base in
            let owed = disinherit_priority (first_of mutex self.old.waiters) base in
            self.new
            ≡ (if not (holder == task) && held_by self.old.holders holder == 1
            then disinherited_part cores.old.control holder owed self.old else self.old) }
        ensures cores { let holder = holder_of self.old.holders mutex in
            let base = (task_at cores.old.control holder).base in
            let owed = disinherit_priority (first_of mutex self.old.waiters) base in
            cores.new
            ≡ (if not (holder == task) && held_by self.old.holders holder == 1
            then cores_rule (after_disinherit list_queues acting holder owed) cores.old
            else cores.old) }
    {
        let holder = self.holder_of(mutex);
        if holder != task && self.held(holder) == 1 {
            let owed = disinherit_priority(self.first_waiter(mutex), cores.base(holder));
            self.disinherit(cores, acting, holder, owed);
        }
    }

    /// The task waits in no event list any more.
    pub fn leave(&mut self, task: u32)
        requires { task < self.old.tasks }
        ensures { self.new ≡ record self.old { waiters = without_waiter task self.old.waiters } }
    {
        self.lists.remove(task);
    }

    // Whether the numbers of tasks, of priorities and of event lists are equal.
    fn has_same_sizes(&self, other: &Self) -> bool
        ensures { IsTrue result ↔
            ((self.now.tasks ≡ other.now.tasks) × (self.now.priorities ≡ other.now.priorities)
            × (self.now.lists ≡ other.now.lists)) }
    {
        self.tasks == other.tasks
            && (self.priorities == other.priorities && self.list_count == other.list_count)
    }

    fn has_same_holders(&self, other: &Self) -> bool
        ensures { IsTrue result ↔ (self.now.holders ≡ other.now.holders) }
    {
        self.holders == other.holders
    }

    fn has_same_values(&self, other: &Self) -> bool
        ensures { IsTrue result ↔ (self.now.values ≡ other.now.values) }
    {
        self.values == other.values
    }

    // Whether the same tasks wait in each event list, with the same priorities, in the same order.
    fn has_same_waiters(&self, other: &Self) -> bool
        requires priorities { self.now.priorities ≡ other.now.priorities }
        requires lists { self.now.lists ≡ other.now.lists }
        ensures { IsTrue result ↔ (self.now.waiters ≡ other.now.waiters) }
    {
        for list in 0..self.list_count {
            if !self.lists.has_same_entries(list, &other.lists, list) {
                return false;
            }
        }
        true
    }

    // The task that holds a mutex which is held.
    fn holder_of(&self, mutex: u32) -> u32
        requires mutex { mutex < length self.now.holders }
        requires held { IsSome (holder_at self.now.holders mutex) }
        ensures holder { result ≡ holder_of self.now.holders mutex }
        ensures task { result < self.now.tasks }
        // Its event list is there.
        ensures list { mutex < self.now.lists }
    {
        self.holder(mutex).unwrap()
    }

    fn set_holder(&mut self, mutex: u32, holder: Option<u32>)
        requires mutex { mutex < length self.old.holders }
        requires holder { ForSome holder (λ task. task < self.old.tasks) }
        ensures set { self.new
            ≡ record self.old { holders = slice_set self.old.holders mutex holder } }
        // Its event list is there.
        ensures list { mutex < self.new.lists }
    {
        self.holders[mutex as usize] = holder;
    }

    // With which priority the task begins to wait, where this one is its priority in use.
    fn waiting_priority(&self, task: u32, in_use: u32) -> u32
        requires { in_use < self.now.priorities }
        ensures value { result ≡ unwrap_or (list_value_of task self.now.values) in_use }
        ensures below { result < self.now.priorities }
    {
        self.list_value(task).unwrap_or(in_use)
    }

    // The holder takes over a greater priority in use, and as its list value too.
    fn inherit(&mut self, cores: &mut Cores, acting: u32, holder: u32, priority: u32)
        requires holder { holder < self.old.tasks }
        requires tasks { length cores.old.control.tasks ≡ self.old.tasks }
        requires priorities { cores.old.priorities ≡ self.old.priorities }
        requires priority { priority < self.old.priorities }
        ensures part { self.new ≡ inherited_part cores.old.control holder priority self.old }
        ensures cores { cores.new
            ≡ cores_rule (inherited list_queues acting holder priority) cores.old }
    {
        if cores.in_use(holder) < priority {
            self.set_list_value(holder, priority);
        }
        inherit(cores, acting, holder, priority);
    }

    // The task's priority in use and its list value become this one, unless it is this one already.
    fn disinherit(&mut self, cores: &mut Cores, acting: u32, task: u32, priority: u32)
        requires task { task < self.old.tasks }
        requires tasks { length cores.old.control.tasks ≡ self.old.tasks }
        requires priorities { cores.old.priorities ≡ self.old.priorities }
        requires priority { priority < self.old.priorities }
        ensures part { self.new ≡ disinherited_part cores.old.control task priority self.old }
        ensures cores { cores.new
            ≡ cores_rule (after_disinherit list_queues acting task priority) cores.old }
    {
        if cores.in_use(task) != priority {
            self.set_list_value(task, priority);
        }
        lower(cores, acting, task, priority);
    }

    // The task waits in the event list with the priority.
    fn enter(&mut self, task: u32, list: u32, priority: u32)
        requires task { task < self.old.tasks }
        requires list { list < self.old.lists }
        requires priority { priority < self.old.priorities }
        requires free { wait_of task self.old.waiters ≡ None }
        ensures { self.new ≡ record self.old {
          waiters = with_waiter
              (record { task = task; wait = record { list = list; priority = priority } })
              self.old.waiters;
        } }
    {
        let below = self.priorities - priority;
        self.lists.insert_sorted(list, task, below);
    }

    // Of those that wait in the event list the first.
    fn first_waiter(&self, list: u32) -> Option<Waiter>
        requires { list < self.now.lists }
        ensures first { result ≡ first_of list self.now.waiters }
        ensures task { ForSome result (λ waiter. waiter.task < self.now.tasks) }
        ensures priority { ForSome result (λ waiter. waiter.wait.priority < self.now.priorities) }
    {
        let task = self.lists.first(list)?;
        let below = self.lists.key_of(task)?;
        let priority = self.priorities - below;
        let wait = EventWait { list, priority };
        Some(Waiter { task, wait })
    }
}

fn free_holders(alloc: Global, mutexes: u32) -> Result<Vec<Option<u32>>, AllocError>
    ensures { IfOk result (λ holders. holders.items ≡ replicate mutexes None) }
{
    let mut holders = Vec::with_capacity(alloc, mutexes as usize)?;
    for _mutex in 0..mutexes {
        holders.push(None)?;
    }
    Ok(holders)
}

// How many of the mutexes the task holds.
fn held_by(holders: &[Option<u32>], task: u32) -> u32
    requires { length holders.now < 2 ^ 32 }
    ensures { result ≡ held_by holders.now task }
{
    let mut held = 0;
    for holder in holders {
        if *holder == Some(task) {
            held += 1;
        }
    }
    held
}
