//! Queues and semaphores, each rule as it is defined.
ghost use Rattle.std.specs.Prelude.{◌≡◌, ◌<◌, ◌+◌, ◌^◌, length, true, IfOk, IfSome, OnOk};
ghost use Rattle.bench_types.specs.declared.step.Direction.TheVariants.{Receive, Send};
ghost use Rattle.bench_types.specs.Step.{queue_total};
ghost use Rattle.bench_model.specs.Queues.{can_pass, passed, queue_at, queue_called, queue_finished, queue_interrupted, queue_waited, with_passed};
ghost use Rattle.bench_model.specs.Table.{stamp_queues, deadline_at};
ghost use Rattle.bench_model.specs.Waiters.{event_list};

use super::{SlowTable, notes};
use bench_model::queues::{can_pass, other_way, with_message};
use bench_types::{Direction, EventWait, Reply, Unfinished};
use std::alloc::{AllocError, Global};

impl SlowTable {
    pub(super) fn can_pass(&self, direction: Direction, queue: u32) -> bool
        requires { queue < queue_total self.now.settings }
        ensures { result ≡ can_pass direction (queue_at self.now.queues queue) }
    {
        can_pass(direction, self.queues[queue as usize])
    }

    // The event list of the tasks that wait until a message can go that way.
    fn event_list(&self, direction: Direction, queue: u32) -> u32
        requires { queue < queue_total self.now.settings }
        ensures { result ≡ event_list self.now.settings direction queue }
    {
        match direction {
            Direction::Send => self.settings.mutexes + 2 * queue,
            Direction::Receive => self.settings.mutexes + 2 * queue + 1,
        }
    }

    fn move_message(&mut self, direction: Direction, queue: u32)
        requires queue { queue < queue_total self.old.settings }
        requires can { can_pass direction (queue_at self.old.queues queue) ≡ true }
        ensures { self.new ≡ with_passed direction queue self.old }
    {
        let before = self.queues[queue as usize];
        self.queues[queue as usize] = with_message(direction, before);
    }

    // A message goes that way, and the first task that waits for one to go the other way is woken.
    #[tactic(auto, unfolding(bench_model::specs::Queues::passed))]
    fn pass(&mut self, acting: u32, direction: Direction, queue: u32)
        requires queue { queue < queue_total self.old.settings }
        requires can { can_pass direction (queue_at self.old.queues queue) ≡ true }
        requires room { self.old.orders.next + 1 < 2 ^ 128 }
        ensures passed { self.new ≡ passed stamp_queues acting direction queue self.old }
        ensures settings { self.new.settings ≡ self.old.settings }
    {
        let list = self.event_list(other_way(direction), queue);
        self.move_message(direction, queue);
        self.wake_first(acting, list);
    }

    #[tactic(auto, unfolding(bench_model::specs::Queues::queue_waited))]
    fn wait_at_queue(
        &mut self,
        alloc: Global,
        core: u32,
        task: u32,
        direction: Direction,
        queue: u32,
        ticks: Option<u32>,
    ) -> Result<(), AllocError>
        requires core { core < length self.old.control.cores }
        requires task { task < length self.old.orders.rows }
        requires queue { queue < queue_total self.old.settings }
        requires room { self.old.orders.next + 1 < 2 ^ 128 }
        requires time { self.old.orders.tick + 2 ^ 32 < 2 ^ 128 }
        ensures { OnOk result
            (self.new ≡ queue_waited stamp_queues core task direction queue ticks self.old) }
    {
        let wait = EventWait {
            list: self.event_list(direction, queue),
            priority: self.waiting_priority(task),
        };
        let call = Unfinished::Transfer { queue, direction };
        self.block_at(alloc, core, task, call, ticks, wait)
    }

    #[tactic(auto, unfolding(bench_model::specs::Queues::queue_called))]
    fn transfer(
        &mut self,
        alloc: Global,
        core: u32,
        task: u32,
        direction: Direction,
        queue: u32,
        ticks: u32,
    ) -> Result<Reply, AllocError>
        requires core { core < length self.old.control.cores }
        requires task { task < length self.old.orders.rows }
        requires queue { queue < queue_total self.old.settings }
        requires room { self.old.orders.next + 1 < 2 ^ 128 }
        requires time { self.old.orders.tick + 2 ^ 32 < 2 ^ 128 }
        ensures { IfOk result
            (λ reply. (reply, self.new)
            ≡ queue_called stamp_queues core task direction queue ticks self.old) }
    {
        if self.can_pass(direction, queue) {
            self.pass(core, direction, queue);
            return Ok(Reply::Flag(true));
        }
        if ticks == 0 {
            return Ok(Reply::Flag(false));
        }
        self.wait_at_queue(
            alloc,
            core,
            task,
            direction,
            queue,
            notes::timeout_of(ticks),
        )?;
        Ok(Reply::Blocked)
    }

    pub(super) fn send(
        &mut self,
        alloc: Global,
        core: u32,
        task: u32,
        queue: u32,
        ticks: u32,
    ) -> Result<Reply, AllocError>
        requires core { core < length self.old.control.cores }
        requires task { task < length self.old.orders.rows }
        requires queue { queue < queue_total self.old.settings }
        requires room { self.old.orders.next + 1 < 2 ^ 128 }
        requires time { self.old.orders.tick + 2 ^ 32 < 2 ^ 128 }
        ensures { IfOk result
            (λ reply. (reply, self.new)
            ≡ queue_called stamp_queues core task Send queue ticks self.old) }
    {
        self.transfer(alloc, core, task, Direction::Send, queue, ticks)
    }

    pub(super) fn receive(
        &mut self,
        alloc: Global,
        core: u32,
        task: u32,
        queue: u32,
        ticks: u32,
    ) -> Result<Reply, AllocError>
        requires core { core < length self.old.control.cores }
        requires task { task < length self.old.orders.rows }
        requires queue { queue < queue_total self.old.settings }
        requires room { self.old.orders.next + 1 < 2 ^ 128 }
        requires time { self.old.orders.tick + 2 ^ 32 < 2 ^ 128 }
        ensures { IfOk result
            (λ reply. (reply, self.new)
            ≡ queue_called stamp_queues core task Receive queue ticks self.old) }
    {
        self.transfer(alloc, core, task, Direction::Receive, queue, ticks)
    }

    #[tactic(auto, unfolding(bench_model::specs::Queues::queue_finished))]
    pub(super) fn finish_transfer(
        &mut self,
        alloc: Global,
        core: u32,
        task: u32,
        direction: Direction,
        queue: u32,
    ) -> Result<Reply, AllocError>
        requires core { core < length self.old.control.cores }
        requires task { task < length self.old.orders.rows }
        requires queue { queue < queue_total self.old.settings }
        requires near { IfSome (deadline_at self.old.orders task)
            (λ deadline. deadline < self.old.orders.tick + 2 ^ 32) }
        requires room { self.old.orders.next + 1 < 2 ^ 128 }
        requires time { self.old.orders.tick + 2 ^ 32 < 2 ^ 128 }
        ensures { IfOk result
            (λ reply. (reply, self.new)
            ≡ queue_finished stamp_queues core task direction queue self.old) }
    {
        let left = self.deadline_left(task);
        if self.can_pass(direction, queue) {
            self.end_call(task);
            self.pass(core, direction, queue);
            return Ok(Reply::Flag(true));
        }
        if left == Some(0) {
            self.end_call(task);
            return Ok(Reply::Flag(false));
        }
        self.wait_at_queue(alloc, core, task, direction, queue, left)?;
        Ok(Reply::Blocked)
    }

    #[tactic(auto, unfolding(bench_model::specs::Queues::queue_interrupted))]
    pub(super) fn interrupt_queue(&mut self, core: u32, direction: Direction, queue: u32) -> Reply
        requires core { core < self.old.settings.cores }
        requires queue { queue < queue_total self.old.settings }
        requires room { self.old.orders.next + 1 < 2 ^ 128 }
        ensures { (result, self.new)
            ≡ queue_interrupted stamp_queues core direction queue self.old }
    {
        let pass = self.can_pass(direction, queue);
        if pass {
            self.pass(core, direction, queue);
        }
        Reply::Isr {
            pass,
            pend: self.has_asked_itself(core),
        }
    }
}
