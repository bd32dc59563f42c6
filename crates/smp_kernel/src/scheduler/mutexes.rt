//! Taking and giving mutexes, and how unfinished calls return.
ghost use Rattle.std.specs.Prelude.{◌≡◌, ◌<◌, slice_set, true, None, Some, option_map, IfSome, IsSome};
ghost use Rattle.std.specs.Option.{option_map_or, ForSome};
ghost use Rattle.bench_types.specs.declared.kernel_data.Waiter.{Waiter};
ghost use Rattle.bench_types.specs.declared.reply.Reply.TheVariants.{Done};
ghost use Rattle.list_orders.specs.Search.{has};
ghost use Rattle.bench_model.specs.State.{call_at, holder_at, after_return};
ghost use Rattle.bench_model.specs.Lists.{list_queues};
ghost use Rattle.bench_model.specs.Waiters.{first_of};
ghost use Rattle.bench_model.specs.Steps.{after_finish};
ghost use Rattle.bench_model.specs.Mutexes.{waited_at, mutex_take, timed_out, take_finished, disinherited, mutex_give};
ghost use Rattle.smp_kernel.specs.Kernel.{HasCheckedCalls};
ghost use Rattle.mutex_inherit.specs.Parts.{holder_of};

use super::notes::timeout_of;
use super::{Scheduler, delay_for};
use bench_types::{Reply, Unfinished};

impl Scheduler {
    // Takes a free mutex. For one that is held the task waits, where it has some ticks to wait.
    #[tactic(auto, unfolding(bench_model::specs::Mutexes::mutex_take, bench_model::specs::Mutexes::taken))]
    pub(super) fn take_mutex(&mut self, core: u32, task: u32, mutex: u32, ticks: u32) -> Reply
        requires core { core < self.old.settings.cores }
        requires task { task < self.old.settings.tasks }
        requires ready { has task self.old.orders.ready ≡ true }
        requires mutex { mutex < self.old.settings.mutexes }
        ensures { (result, self.new) ≡ mutex_take list_queues core task mutex ticks self.old }
    {
        if self.mutexes.try_take(task, mutex) {
            return Reply::Flag(true);
        }
        if ticks == 0 {
            return Reply::Flag(false);
        }
        self.wait_at(core, task, mutex, timeout_of(ticks));
        Reply::Blocked
    }

    // The task waits for a mutex that a task holds, for so many ticks or without end. The holder
    // inherits its priority in use first, and then its core asks itself to switch.
    #[tactic(auto, unfolding(bench_model::specs::Mutexes::waited_at))]
    fn wait_at(&mut self, core: u32, task: u32, mutex: u32, ticks: Option<u32>)
        requires core { core < self.old.settings.cores }
        requires task { task < self.old.settings.tasks }
        requires ready { has task self.old.orders.ready ≡ true }
        requires mutex { mutex < self.old.settings.mutexes }
        requires held { IsSome (holder_at self.old.holders mutex) }
        requires some { IfSome ticks (λ ticks. 0 < ticks) }
        ensures { self.new
            ≡ waited_at list_queues core task mutex
            (holder_of self.old.holders mutex) ticks self.old }
    {
        let mark = self.mutexes.wait_on(&mut self.cores, core, task, mutex);
        self.cores.ask(core, core);
        self.cores.unready(task);
        self.calls[task as usize] = Some(Unfinished::Take { mutex, mark });
        delay_for(&mut self.delays, task, ticks);
        self.deadlines.set(task, ticks);
    }

    // The unfinished call of the task returns, or the task waits again for the mutex that its call
    // takes, or for a message to go.
    #[tactic(auto, unfolding(bench_model::specs::Steps::after_finish))]
    pub(super) fn finish(&mut self, core: u32, task: u32) -> Reply
        requires core { core < self.old.settings.cores }
        requires task { task < self.old.settings.tasks }
        requires ready { has task self.old.orders.ready ≡ true }
        requires calls { HasCheckedCalls self.old }
        ensures { (result, self.new)
            ≡ option_map_or (λ call. after_finish list_queues core task call self.old)
            (call_at self.old.calls task) (Done, self.old) }
    {
        let Some(call) = self.calls[task as usize] else {
            return Reply::Done;
        };
        match call {
            Unfinished::Made(call) => {
                self.end_call(task);
                self.complete(task, call)
            }
            Unfinished::Take { mutex, mark } => self.finish_take(core, task, mutex, mark),
            Unfinished::Transfer { queue, direction } => {
                self.finish_transfer(core, task, direction, queue)
            }
        }
    }

    // The task's unfinished call is over.
    #[tactic(auto, unfolding(bench_model::specs::Lists::forget_deadline))]
    pub(super) fn end_call(&mut self, task: u32)
        requires { task < self.old.settings.tasks }
        ensures { self.new ≡ after_return list_queues task self.old }
    {
        self.calls[task as usize] = None;
        self.deadlines.set(task, None);
    }

    // A wait for a mutex ends with a free mutex, or without one where its deadline is reached; else
    // the task waits again.
    #[tactic(auto, unfolding(bench_model::specs::Mutexes::take_finished, bench_model::specs::Mutexes::taken))]
    fn finish_take(&mut self, core: u32, task: u32, mutex: u32, mark: bool) -> Reply
        requires core { core < self.old.settings.cores }
        requires task { task < self.old.settings.tasks }
        requires ready { has task self.old.orders.ready ≡ true }
        requires mutex { mutex < self.old.settings.mutexes }
        ensures { (result, self.new) ≡ take_finished list_queues core task mutex mark self.old }
    {
        if self.mutexes.try_take(task, mutex) {
            self.end_call(task);
            return Reply::Flag(true);
        }
        let left = self.deadlines.left(task);
        if left == Some(0) {
            self.end_call(task);
            self.time_out(core, task, mutex, mark);
            return Reply::Flag(false);
        }
        self.wait_at(core, task, mutex, left);
        Reply::Blocked
    }

    // The task waited for the mutex in vain: what its holder inherited from it alone is given up.
    #[tactic(auto, unfolding(bench_model::specs::Mutexes::timed_out))]
    fn time_out(&mut self, core: u32, task: u32, mutex: u32, mark: bool)
        requires mutex { mutex < self.old.settings.mutexes }
        requires held { IsSome (holder_at self.old.holders mutex) }
        ensures { self.new
            ≡ timed_out list_queues core task mutex mark
            (holder_of self.old.holders mutex) self.old }
    {
        if mark {
            self.mutexes
                .after_timeout(&mut self.cores, core, task, mutex);
        }
    }

    // Gives a mutex that no other task holds, and wakes its first waiter.
    #[tactic(auto, unfolding(bench_model::specs::Mutexes::mutex_give, bench_model::specs::Mutexes::first_woken))]
    pub(super) fn give_mutex(&mut self, core: u32, task: u32, mutex: u32) -> Reply
        requires task { task < self.old.settings.tasks }
        requires mutex { mutex < self.old.settings.mutexes }
        requires own { ForSome (holder_at self.old.holders mutex) (λ holder. holder ≡ task) }
        ensures { (result, self.new) ≡ mutex_give list_queues core task mutex self.old }
    {
        if self.mutexes.holder(mutex).is_none() {
            return Reply::Flag(false);
        }
        if let Some(waiter) = self.give_up(core, task, mutex) {
            self.wake(core, waiter);
        }
        Reply::Flag(true)
    }

    // The task holds the mutex no more, nor what it inherited where it holds no other. Returns who
    // waited first for it.
    fn give_up(&mut self, core: u32, task: u32, mutex: u32) -> Option<u32>
        requires task { task < self.old.settings.tasks }
        requires mutex { mutex < self.old.settings.mutexes }
        requires held { holder_at self.old.holders mutex ≡ Some task }
        ensures given { self.new
            ≡ disinherited list_queues core task
            (record self.old { holders = slice_set self.old.holders mutex None }) }
        ensures first { result
            ≡ option_map (λ (waiter : Waiter). waiter.task)
            (first_of mutex self.new.orders.waiters) }
        ensures waiter { IfSome result (λ waiter. waiter < self.new.settings.tasks) }
    {
        self.mutexes.give(&mut self.cores, core, task, mutex)
    }
}
