//! Mutexes with priority inheritance, each rule as it is defined.
ghost use Rattle.std.specs.Prelude.{◌≡◌, ◌<◌, ◌≤◌, ◌+◌, ◌^◌, length, IfOk, IfSome, OnOk, Some, slice_set};
ghost use Rattle.bench_types.specs.declared.step.Call.TheVariants.{Finish};
ghost use Rattle.bench_model.specs.Mutexes.{held_by, is_marked, waiting_priority, inherited, waited_at, mutex_take, owed, after_disinherit, timed_out, take_finished, disinherited, first_woken, mutex_give};
ghost use Rattle.bench_model.specs.Sound.{IsConsistent};
ghost use Rattle.bench_model.specs.State.{holder_at, after_return, blocked};
ghost use Rattle.bench_model.specs.Steps.{called};
ghost use Rattle.bench_model.specs.Table.{stamp_queues, first_waiter, deadline_at, deadline_left};
ghost use Rattle.std.specs.List.{AllByRecursion, prefix_len};
ghost use Rattle.bench_model.specs.Waiters.{first_of, waits_first, with_waiter};

use super::{SlowTable, notes};
use bench_types::{EventWait, Reply, Unfinished, Waiter};
use std::alloc::{AllocError, Global};

impl SlowTable {
    pub(super) fn holder(&self, mutex: u32) -> Option<u32>
        requires { mutex < self.now.settings.mutexes }
        ensures holder { result ≡ holder_at self.now.holders mutex }
        ensures task { IfSome result (λ holder. holder < length self.now.orders.rows) }
    {
        self.holders[mutex as usize]
    }

    fn set_holder(&mut self, mutex: u32, holder: Option<u32>)
        requires mutex { mutex < self.old.settings.mutexes }
        requires task { IfSome holder (λ holder. holder < length self.old.orders.rows) }
        ensures { self.new ≡ record self.old { holders = slice_set self.old.holders mutex holder } }
    {
        self.holders[mutex as usize] = holder;
    }

    // How many mutexes the task holds.
    fn held(&self, task: u32) -> usize
        ensures { result ≡ held_by self.now.holders task }
    {
        let mut held = 0;
        for holder in &self.holders {
            if *holder == Some(task) {
                held += 1;
            }
        }
        held
    }

    fn is_marked(&self, task: u32, holder: u32) -> bool
        requires task { task < length self.now.orders.rows }
        requires holder { holder < length self.now.orders.rows }
        ensures { result ≡ is_marked self.now.control task holder }
    {
        holder != task && self.tasks[holder as usize].base < self.tasks[task as usize].in_use
    }

    #[tactic(auto, unfolding(bench_model::specs::Mutexes::inherited))]
    fn inherit(&mut self, acting: u32, holder: u32, priority: u32)
        requires holder { holder < length self.old.orders.rows }
        requires room { self.old.orders.next + 1 < 2 ^ 128 }
        ensures inherited { self.new ≡ inherited stamp_queues acting holder priority self.old }
        ensures rows { length self.new.orders.rows ≡ length self.old.orders.rows }
        ensures stamps { self.new.orders.next ≤ self.old.orders.next + 1 }
        ensures tick { self.new.orders.tick ≡ self.old.orders.tick }
        ensures cores { length self.new.control.cores ≡ length self.old.control.cores }
    {
        if priority <= self.tasks[holder as usize].in_use {
            return;
        }
        let ready = self.is_ready(holder);
        self.set_in_use_and_value(holder, priority);
        if ready {
            self.seek(acting, holder, None);
        }
    }

    fn waiters(&self) -> &[Waiter]
        ensures waiters { result.now ≡ self.now.orders.waiters }
        ensures tasks { AllByRecursion (λ waiter. waiter.task < length self.now.orders.rows)
            result.now }
    {
        &self.waiters
    }

    fn set_waiters(&mut self, waiters: Vec<Waiter>)
        requires { AllByRecursion (λ waiter. waiter.task < length self.old.orders.rows)
            waiters.items }
        ensures { self.new ≡ record self.old {
          orders = record self.old.orders { waiters = waiters.items };
        } }
    {
        self.waiters = waiters;
    }

    fn set_deadline(&mut self, task: u32, deadline: Option<u128>)
        requires { task < length self.old.orders.rows }
        ensures { self.new ≡ record self.old {
          orders = record self.old.orders {
            deadlines = slice_set self.old.orders.deadlines task deadline;
          };
        } }
    {
        self.deadlines[task as usize] = deadline;
    }

    // The task waits in its call in an event list.
    #[tactic(auto, unfolding(bench_model::specs::State::blocked, bench_model::specs::Table::delay))]
    pub(super) fn block_at(
        &mut self,
        alloc: Global,
        core: u32,
        task: u32,
        call: Unfinished,
        ticks: Option<u32>,
        wait: EventWait,
    ) -> Result<(), AllocError>
        requires core { core < length self.old.control.cores }
        requires task { task < length self.old.orders.rows }
        requires room { self.old.orders.next + 1 < 2 ^ 128 }
        requires time { self.old.orders.tick + 2 ^ 32 < 2 ^ 128 }
        ensures { OnOk result
            (self.new ≡ blocked stamp_queues core task call ticks (Some wait) self.old) }
    {
        let waiters = with_waiter(alloc, Waiter { task, wait }, self.waiters())?;
        let wake = self.ahead(ticks);
        self.stand(core, task, call, wake);
        self.set_deadline(task, wake);
        self.set_waiters(waiters);
        Ok(())
    }

    // The priority that the task begins to wait with: its list value, or its priority in use where
    // the session has no list values.
    pub(super) fn waiting_priority(&self, task: u32) -> u32
        requires { task < length self.now.orders.rows }
        ensures { result ≡ waiting_priority stamp_queues task self.now }
    {
        let in_use = self.tasks[task as usize].in_use;
        self.values.get(task as usize).copied().unwrap_or(in_use)
    }

    #[tactic(auto, unfolding(bench_model::specs::Mutexes::waited_at))]
    fn wait_at(
        &mut self,
        alloc: Global,
        core: u32,
        task: u32,
        mutex: u32,
        holder: u32,
        ticks: Option<u32>,
    ) -> Result<(), AllocError>
        requires core { core < length self.old.control.cores }
        requires task { task < length self.old.orders.rows }
        requires holder { holder < length self.old.orders.rows }
        requires room { self.old.orders.next + 2 < 2 ^ 128 }
        requires time { self.old.orders.tick + 2 ^ 32 < 2 ^ 128 }
        ensures { OnOk result
            (self.new ≡ waited_at stamp_queues core task mutex holder ticks self.old) }
    {
        let in_use = self.tasks[task as usize].in_use;
        let priority = self.waiting_priority(task);
        let mark = self.is_marked(task, holder);
        self.inherit(core, holder, in_use);
        let call = Unfinished::Take { mutex, mark };
        self.block_at(
            alloc,
            core,
            task,
            call,
            ticks,
            EventWait {
                list: mutex,
                priority,
            },
        )
    }

    #[tactic(auto, unfolding(bench_model::specs::Mutexes::mutex_take, bench_model::specs::Mutexes::taken))]
    pub(super) fn take(
        &mut self,
        alloc: Global,
        core: u32,
        task: u32,
        mutex: u32,
        ticks: u32,
    ) -> Result<Reply, AllocError>
        requires core { core < length self.old.control.cores }
        requires task { task < length self.old.orders.rows }
        requires mutex { mutex < self.old.settings.mutexes }
        requires room { self.old.orders.next + 2 < 2 ^ 128 }
        requires time { self.old.orders.tick + 2 ^ 32 < 2 ^ 128 }
        ensures { IfOk result
            (λ reply. (reply, self.new) ≡ mutex_take stamp_queues core task mutex ticks self.old) }
    {
        let Some(holder) = self.holder(mutex) else {
            self.set_holder(mutex, Some(task));
            return Ok(Reply::Flag(true));
        };
        if ticks == 0 {
            return Ok(Reply::Flag(false));
        }
        self.wait_at(alloc, core, task, mutex, holder, notes::timeout_of(ticks))?;
        Ok(Reply::Blocked)
    }

    // The first waiter of the event list.
    #[tactic(auto, unfolding(bench_model::specs::Table::first_waiter))]
    fn first_waiting(&self, list: u32) -> Option<Waiter>
        ensures first { result ≡ first_waiter list self.now.orders }
        ensures task { IfSome result (λ waiter. waiter.task < length self.now.orders.rows) }
    {
        first_of(list, self.waiters())
    }

    fn owed(&self, task: u32, mutex: u32) -> u32
        requires { task < length self.now.orders.rows }
        ensures { result ≡ owed stamp_queues task mutex self.now }
    {
        let base = self.tasks[task as usize].base;
        match self.first_waiting(mutex) {
            None => base,
            Some(first) => first.wait.priority.max(base),
        }
    }

    #[tactic(auto, unfolding(bench_model::specs::Mutexes::after_disinherit))]
    fn lower(&mut self, acting: u32, task: u32, priority: u32)
        requires task { task < length self.old.orders.rows }
        requires room { self.old.orders.next + 1 < 2 ^ 128 }
        ensures given_up { self.new ≡ after_disinherit stamp_queues acting task priority self.old }
        ensures rows { length self.new.orders.rows ≡ length self.old.orders.rows }
        ensures stamps { self.new.orders.next ≤ self.old.orders.next + 1 }
    {
        if self.tasks[task as usize].in_use == priority {
            return;
        }
        self.set_in_use_and_value(task, priority);
        self.ask_its_core(acting, task);
    }

    #[tactic(auto, unfolding(bench_model::specs::Mutexes::timed_out))]
    fn time_out(&mut self, acting: u32, task: u32, mutex: u32, mark: bool, holder: u32)
        requires holder { holder < length self.old.orders.rows }
        requires room { self.old.orders.next + 1 < 2 ^ 128 }
        ensures { self.new ≡ timed_out stamp_queues acting task mutex mark holder self.old }
    {
        if mark && holder != task && self.held(holder) == 1 {
            let priority = self.owed(holder, mutex);
            self.lower(acting, holder, priority);
        }
    }

    #[tactic(auto, unfolding(bench_model::specs::Table::forget_deadline))]
    pub(super) fn end_call(&mut self, task: u32)
        requires { task < length self.old.orders.rows }
        ensures ended { self.new ≡ after_return stamp_queues task self.old }
        ensures rows { length self.new.orders.rows ≡ length self.old.orders.rows }
        ensures stamps { self.new.orders.next ≡ self.old.orders.next }
    {
        self.calls[task as usize] = None;
        self.deadlines[task as usize] = None;
    }

    // The ticks that are left of the task's wait for an event.
    #[tactic(auto, unfolding(bench_model::specs::Table::deadline_left))]
    pub(super) fn deadline_left(&self, task: u32) -> Option<u32>
        requires task { task < length self.now.orders.rows }
        requires near { IfSome (deadline_at self.now.orders task)
            (λ deadline. deadline < self.now.orders.tick + 2 ^ 32) }
        ensures { result ≡ deadline_left task self.now.orders }
    {
        match self.deadlines[task as usize] {
            None => None,
            Some(deadline) => Some(deadline.saturating_sub(self.tick) as u32),
        }
    }

    #[tactic(auto, unfolding(bench_model::specs::Mutexes::take_finished, bench_model::specs::Mutexes::taken))]
    fn finish_take(
        &mut self,
        alloc: Global,
        core: u32,
        task: u32,
        mutex: u32,
        mark: bool,
    ) -> Result<Reply, AllocError>
        requires core { core < length self.old.control.cores }
        requires task { task < length self.old.orders.rows }
        requires mutex { mutex < self.old.settings.mutexes }
        requires near { IfSome (deadline_at self.old.orders task)
            (λ deadline. deadline < self.old.orders.tick + 2 ^ 32) }
        requires room { self.old.orders.next + 2 < 2 ^ 128 }
        requires time { self.old.orders.tick + 2 ^ 32 < 2 ^ 128 }
        ensures { IfOk result
            (λ reply. (reply, self.new)
            ≡ take_finished stamp_queues core task mutex mark self.old) }
    {
        let left = self.deadline_left(task);
        let Some(holder) = self.holder(mutex) else {
            self.end_call(task);
            self.set_holder(mutex, Some(task));
            return Ok(Reply::Flag(true));
        };
        if left == Some(0) {
            self.end_call(task);
            self.time_out(core, task, mutex, mark, holder);
            return Ok(Reply::Flag(false));
        }
        self.wait_at(alloc, core, task, mutex, holder, left)?;
        Ok(Reply::Blocked)
    }

    #[tactic(auto, unfolding(bench_model::specs::Steps::called, bench_model::specs::Steps::after_finish))]
    pub(super) fn finish(
        &mut self,
        alloc: Global,
        core: u32,
        task: u32,
    ) -> Result<Reply, AllocError>
        requires sound { IsConsistent self.old }
        requires core { core < length self.old.control.cores }
        requires task { task < length self.old.orders.rows }
        requires room { self.old.orders.next + 2 < 2 ^ 128 }
        requires time { self.old.orders.tick + 2 ^ 32 < 2 ^ 128 }
        ensures { IfOk result
            (λ reply. (reply, self.new) ≡ called stamp_queues core task Finish self.old) }
    {
        match self.calls[task as usize] {
            None => Ok(Reply::Done),
            Some(Unfinished::Made(call)) => {
                self.end_call(task);
                Ok(self.complete(task, call))
            }
            Some(Unfinished::Take { mutex, mark }) => {
                self.finish_take(alloc, core, task, mutex, mark)
            }
            Some(Unfinished::Transfer { queue, direction }) => {
                self.finish_transfer(alloc, core, task, direction, queue)
            }
        }
    }

    #[tactic(auto, unfolding(bench_model::specs::Mutexes::disinherited))]
    fn disinherit(&mut self, core: u32, task: u32)
        requires task { task < length self.old.orders.rows }
        requires room { self.old.orders.next + 1 < 2 ^ 128 }
        ensures disinherited { self.new ≡ disinherited stamp_queues core task self.old }
        ensures rows { length self.new.orders.rows ≡ length self.old.orders.rows }
        ensures stamps { self.new.orders.next ≤ self.old.orders.next + 1 }
    {
        if self.held(task) == 0 {
            let base = self.tasks[task as usize].base;
            self.lower(core, task, base);
        }
    }

    #[tactic(auto, unfolding(bench_model::specs::Mutexes::first_woken))]
    pub(super) fn wake_first(&mut self, acting: u32, list: u32)
        requires room { self.old.orders.next + 1 < 2 ^ 128 }
        ensures woken { self.new ≡ first_woken stamp_queues acting list self.old }
        ensures settings { self.new.settings ≡ self.old.settings }
    {
        if let Some(waiter) = self.first_waiting(list) {
            self.wake(acting, waiter.task);
        }
    }

    #[tactic(auto, unfolding(bench_model::specs::Mutexes::mutex_give))]
    pub(super) fn give(&mut self, core: u32, task: u32, mutex: u32) -> Reply
        requires task { task < length self.old.orders.rows }
        requires mutex { mutex < self.old.settings.mutexes }
        requires room { self.old.orders.next + 2 < 2 ^ 128 }
        ensures { (result, self.new) ≡ mutex_give stamp_queues core task mutex self.old }
    {
        if self.holder(mutex).is_none() {
            return Reply::Flag(false);
        }
        self.set_holder(mutex, None);
        self.disinherit(core, task);
        self.wake_first(core, mutex);
        Reply::Flag(true)
    }
}

// The first of the waiters of the event list.
fn first_of(list: u32, waiters: &[Waiter]) -> Option<Waiter>
    ensures { result ≡ first_of list waiters.now }
{
    waiters
        .iter()
        .copied()
        .find(|waiter| waiter.wait.list == list)
}

// The waiters with one more, before the first that does not stay in front of it.
fn with_waiter(alloc: Global, waiter: Waiter, waiters: &[Waiter]) -> Result<Vec<Waiter>, AllocError>
    ensures { IfOk result (λ all. all.items ≡ with_waiter waiter waiters.now) }
{
    let mut all = waiters.to_vec(alloc)?;
    all.insert(place_of(&waiter, waiters), waiter)?;
    Ok(all)
}

// How many of the waiters stand before the first that does not stay in front of this one.
fn place_of(waiter: &Waiter, waiters: &[Waiter]) -> usize
    ensures { result ≡ prefix_len (λ other. waits_first other waiter.now) waiters.now }
{
    waiters
        .iter()
        .take_while(|other| waits_first(other, waiter))
        .count()
}

// Whether the one stays in front of the other.
fn waits_first(one: &Waiter, other: &Waiter) -> bool
    ensures { result ≡ waits_first one.now other.now }
{
    let (a, b) = (one.wait, other.wait);
    a.list < b.list || (a.list == b.list && b.priority <= a.priority)
}
