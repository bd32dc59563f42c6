//! Suspending tasks and resuming them, each as it is defined.
ghost use Rattle.std.specs.Prelude.{◌≡◌, ◌<◌, ◌+◌, ◌^◌, length, is_some};
ghost use Rattle.bench_model.specs.Suspending.{awaits_note, is_suspended, resume_interrupted, resumed, suspended, without_waits};
ghost use Rattle.bench_model.specs.Table.{stamp_queues, row_at, suspend, wake_in, waits};
ghost use Rattle.bench_model.specs.Waiters.{list_awaited, waiter_of};

use super::SlowTable;
use bench_model::notes::{is_waiting, unawaited};
use bench_model::{TaskRow, TaskState};
use bench_types::{Reply, Waiter};

impl SlowTable {
    // The task is to wake at some tick count.
    fn has_wake(&self, task: u32) -> bool
        requires { task < length self.now.orders.rows }
        ensures { result ≡ is_some (wake_in (row_at self.now.orders task).standing) }
    {
        match self.rows[task as usize].standing {
            TaskState::Ready => false,
            TaskState::Blocked { wake } => wake.is_some(),
        }
    }

    // The task waits for some ticks, or in an event list.
    fn waits(&self, task: u32) -> bool
        requires { task < length self.now.orders.rows }
        ensures { result ≡ waits task self.now.orders }
    {
        self.has_wake(task) || list_awaited(task, &self.waiters).is_some()
    }

    // The task waits for a notification, at some index.
    fn awaits(&self, task: u32) -> bool
        requires { task < length self.now.orders.rows }
        ensures { result ≡ awaits_note self.now.settings.notes task self.now.notes }
    {
        (0..self.settings.notes).any(|index| is_waiting(self.note(task, index).state))
    }

    #[tactic(auto, unfolding(bench_model::specs::Suspending::is_suspended))]
    fn is_suspended(&self, task: u32) -> bool
        requires { task < length self.now.orders.rows }
        ensures { result ≡ is_suspended stamp_queues task self.now }
    {
        !self.is_ready(task) && !self.waits(task) && !self.awaits(task)
    }

    // The task is not ready, and waits for no tick and in no event list.
    #[tactic(auto, unfolding(bench_model::specs::Table::suspend))]
    fn leave_lists(&mut self, task: u32)
        requires task { task < length self.old.orders.rows }
        requires room { self.old.orders.next + 1 < 2 ^ 128 }
        ensures left { self.new ≡ record self.old { orders = suspend task self.old.orders } }
        ensures rows { length self.new.orders.rows ≡ length self.old.orders.rows }
    {
        self.leave(task);
        self.rows[task as usize] = TaskRow {
            stamp: self.next,
            standing: TaskState::Blocked { wake: None },
        };
        self.next += 1;
    }

    // The task waits for no notification.
    fn stop_waiting(&mut self, task: u32)
        requires { task < length self.old.orders.rows }
        ensures { self.new ≡ record self.old {
          notes = without_waits self.old.settings.notes task self.old.notes;
        } }
    {
        for index in 0..self.settings.notes {
            self.set_note(task, index, unawaited(self.note(task, index)));
        }
    }

    #[tactic(auto, unfolding(bench_model::specs::Suspending::suspended))]
    pub(super) fn suspend(&mut self, acting: u32, task: u32)
        requires task { task < length self.old.orders.rows }
        requires room { self.old.orders.next + 1 < 2 ^ 128 }
        ensures { self.new ≡ suspended stamp_queues acting task self.old }
    {
        if self.is_suspended(task) {
            return;
        }
        self.ask_its_core(acting, task);
        self.leave_lists(task);
        self.stop_waiting(task);
    }

    #[tactic(auto, unfolding(bench_model::specs::Suspending::resumed))]
    pub(super) fn resume(&mut self, acting: u32, task: u32)
        requires task { task < length self.old.orders.rows }
        requires room { self.old.orders.next + 1 < 2 ^ 128 }
        ensures resumed { self.new ≡ resumed stamp_queues acting task self.old }
        ensures settings { self.new.settings ≡ self.old.settings }
    {
        if self.is_suspended(task) {
            self.wake(acting, task);
        }
    }

    #[tactic(auto, unfolding(bench_model::specs::Suspending::resume_interrupted))]
    pub(super) fn interrupt_resume(&mut self, core: u32, task: u32) -> Reply
        requires core { core < self.old.settings.cores }
        requires task { task < length self.old.orders.rows }
        requires room { self.old.orders.next + 1 < 2 ^ 128 }
        ensures { (result, self.new) ≡ resume_interrupted stamp_queues core task self.old }
    {
        let pass = self.is_suspended(task);
        self.resume(core, task);
        Reply::Isr {
            pass,
            pend: self.has_asked_itself(core),
        }
    }
}

fn waiter_of(task: u32, waiters: &[Waiter]) -> Option<Waiter>
    ensures { result ≡ waiter_of task waiters.now }
{
    waiters.iter().copied().find(|waiter| waiter.task == task)
}

fn list_awaited(task: u32, waiters: &[Waiter]) -> Option<u32>
    ensures { result ≡ list_awaited task waiters.now }
{
    match waiter_of(task, waiters) {
        Some(waiter) => Some(waiter.wait.list),
        None => None,
    }
}
