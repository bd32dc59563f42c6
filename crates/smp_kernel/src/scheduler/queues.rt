//! Sending to queues and receiving from them.
ghost use Rattle.std.specs.Prelude.{◌≡◌, ◌<◌, ◌≤◌, true, option_map, IfSome};
ghost use Rattle.bench_types.specs.Step.{queue_total};
ghost use Rattle.bench_types.specs.declared.kernel_data.Waiter.{Waiter};
ghost use Rattle.list_orders.specs.Search.{has};
ghost use Rattle.bench_model.specs.Lists.{list_queues};
ghost use Rattle.bench_model.specs.Queues.{can_pass, passed, queue_at, queue_called, queue_finished, queue_interrupted, queue_waited, with_passed};
ghost use Rattle.bench_model.specs.Waiters.{event_list, event_lists, first_of};

use super::notes::timeout_of;
use super::{Scheduler, delay_for};
use bench_model::queues::other_way;
use bench_types::{Direction, QueueLook, Reply, Unfinished};

impl Scheduler {
    /// What can be seen of the queue.
    pub fn queue(&self, queue: u32) -> QueueLook
        requires { queue < queue_total self.now.settings }
        ensures { result ≡ queue_at self.now.queues queue }
    {
        self.queues.look(queue)
    }

    // A call that sends or receives: where the message can go, it does; else the task waits, where
    // it has some ticks to wait.
    #[tactic(auto, unfolding(bench_model::specs::Queues::queue_called))]
    pub(super) fn send_or_receive(
        &mut self,
        core: u32,
        task: u32,
        direction: Direction,
        queue: u32,
        ticks: u32,
    ) -> Reply
        requires core { core < self.old.settings.cores }
        requires task { task < self.old.settings.tasks }
        requires ready { has task self.old.orders.ready ≡ true }
        requires queue { queue < queue_total self.old.settings }
        ensures { (result, self.new)
            ≡ queue_called list_queues core task direction queue ticks self.old }
    {
        if self.queues.can_pass(direction, queue) {
            self.pass(core, direction, queue);
            return Reply::Flag(true);
        }
        if ticks == 0 {
            return Reply::Flag(false);
        }
        self.wait_to_pass(core, task, direction, queue, timeout_of(ticks));
        Reply::Blocked
    }

    // A wait at a queue ends with a message that goes, or without one where its deadline is
    // reached; else the task waits again.
    #[tactic(auto, unfolding(bench_model::specs::Queues::queue_finished))]
    pub(super) fn finish_transfer(
        &mut self,
        core: u32,
        task: u32,
        direction: Direction,
        queue: u32,
    ) -> Reply
        requires core { core < self.old.settings.cores }
        requires task { task < self.old.settings.tasks }
        requires ready { has task self.old.orders.ready ≡ true }
        requires queue { queue < queue_total self.old.settings }
        ensures { (result, self.new)
            ≡ queue_finished list_queues core task direction queue self.old }
    {
        if self.queues.can_pass(direction, queue) {
            self.end_call(task);
            self.pass(core, direction, queue);
            return Reply::Flag(true);
        }
        let left = self.deadlines.left(task);
        if left == Some(0) {
            self.end_call(task);
            return Reply::Flag(false);
        }
        self.wait_to_pass(core, task, direction, queue, left);
        Reply::Blocked
    }

    // An interrupt of the core sends or receives where the message can go at once.
    #[tactic(auto, unfolding(bench_model::specs::Queues::queue_interrupted))]
    pub(super) fn interrupt_queue(&mut self, core: u32, direction: Direction, queue: u32) -> Reply
        requires core { core < self.old.settings.cores }
        requires queue { queue < queue_total self.old.settings }
        ensures { (result, self.new)
            ≡ queue_interrupted list_queues core direction queue self.old }
    {
        let pass = self.queues.can_pass(direction, queue);
        if pass {
            self.pass(core, direction, queue);
        }
        let pend = self.core_look(core).pend;
        Reply::Isr { pass, pend }
    }

    // A message goes that way, and the first task that waits for one to go the other way is woken.
    #[tactic(auto, unfolding(bench_model::specs::Seek::wake))]
    fn pass(&mut self, acting: u32, direction: Direction, queue: u32)
        requires queue { queue < queue_total self.old.settings }
        requires can { can_pass direction (queue_at self.old.queues queue) ≡ true }
        ensures passed { self.new ≡ passed list_queues acting direction queue self.old }
        ensures settings { self.new.settings ≡ self.old.settings }
    {
        self.put(direction, queue);
        if let Some(waiter) = self.first_waiting(other_way(direction), queue) {
            self.wake(acting, waiter);
        }
    }

    // A message goes that way, and nobody is woken yet.
    fn put(&mut self, direction: Direction, queue: u32)
        requires queue { queue < queue_total self.old.settings }
        requires can { can_pass direction (queue_at self.old.queues queue) ≡ true }
        ensures { self.new ≡ with_passed direction queue self.old }
    {
        self.queues.pass(direction, queue);
    }

    // The first task that waits until a message can go that way.
    fn first_waiting(&self, direction: Direction, queue: u32) -> Option<u32>
        requires { queue < queue_total self.now.settings }
        ensures first { result
            ≡ option_map (λ (waiter : Waiter). waiter.task)
            (first_of (event_list self.now.settings direction queue) self.now.orders.waiters) }
        ensures task { IfSome result (λ task. task < self.now.settings.tasks) }
    {
        self.mutexes.first_task(self.event_list(direction, queue))
    }

    // The event list of the tasks that wait until a message can go that way.
    fn event_list(&self, direction: Direction, queue: u32) -> u32
        requires { queue < queue_total self.now.settings }
        ensures list { result ≡ event_list self.now.settings direction queue }
        ensures below { result < event_lists self.now.settings }
    {
        let first = self.settings.mutexes + 2 * queue;
        match direction {
            Direction::Send => first,
            Direction::Receive => first + 1,
        }
    }

    // The task waits until a message can go that way, for so many ticks or without end, and its
    // core asks itself to switch.
    #[tactic(auto, unfolding(bench_model::specs::Queues::queue_waited))]
    fn wait_to_pass(
        &mut self,
        core: u32,
        task: u32,
        direction: Direction,
        queue: u32,
        ticks: Option<u32>,
    )
        requires core { core < self.old.settings.cores }
        requires task { task < self.old.settings.tasks }
        requires ready { has task self.old.orders.ready ≡ true }
        requires queue { queue < queue_total self.old.settings }
        requires some { IfSome ticks (λ ticks. 0 < ticks) }
        ensures { self.new
            ≡ queue_waited list_queues core task direction queue ticks self.old }
    {
        let list = self.event_list(direction, queue);
        self.mutexes.wait_in(task, list, self.cores.in_use(task));
        self.cores.ask(core, core);
        self.cores.unready(task);
        self.calls[task as usize] = Some(Unfinished::Transfer { queue, direction });
        delay_for(&mut self.delays, task, ticks);
        self.deadlines.set(task, ticks);
    }
}
