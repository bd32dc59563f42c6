//! Suspending tasks and resuming them.
ghost use Rattle.std.specs.Prelude.{◌≡◌, ◌<◌};
ghost use Rattle.bench_model.specs.Control.{ask_its_core};
ghost use Rattle.bench_model.specs.Lists.{list_queues, suspend, waits};
ghost use Rattle.bench_model.specs.Suspending.{is_suspended, resume_interrupted, resumed, suspended, without_waits};

use super::Scheduler;
use bench_types::Reply;

impl Scheduler {
    /// Whether the task is suspended: it is not ready, and waits for nothing.
    #[tactic(auto, unfolding(bench_model::specs::Suspending::is_suspended))]
    pub fn is_suspended(&self, task: u32) -> bool
        requires { task < self.now.settings.tasks }
        ensures { result ≡ is_suspended list_queues task self.now }
    {
        !self.cores.ready(task) && !self.waits(task) && !self.notes.awaits(task)
    }

    // The task is neither ready nor does it wait any more, and the core that it runs on is asked;
    // where it is suspended already, nothing happens.
    #[tactic(auto, unfolding(bench_model::specs::Suspending::suspended))]
    pub(super) fn suspend(&mut self, acting: u32, task: u32)
        requires { task < self.old.settings.tasks }
        ensures { self.new ≡ suspended list_queues acting task self.old }
    {
        if self.is_suspended(task) {
            return;
        }
        self.ask_its_core(acting, task);
        self.leave_lists(task);
        self.stop_waiting(task);
    }

    // A task that is suspended is woken.
    #[tactic(auto, unfolding(bench_model::specs::Suspending::resumed, bench_model::specs::Seek::wake))]
    pub(super) fn resume(&mut self, acting: u32, task: u32)
        requires { task < self.old.settings.tasks }
        ensures resumed { self.new ≡ resumed list_queues acting task self.old }
        ensures settings { self.new.settings ≡ self.old.settings }
    {
        if self.is_suspended(task) {
            self.wake(acting, task);
        }
    }

    // An interrupt of the core resumes a task.
    #[tactic(auto, unfolding(bench_model::specs::Suspending::resume_interrupted))]
    pub(super) fn interrupt_resume(&mut self, core: u32, task: u32) -> Reply
        requires core { core < self.old.settings.cores }
        requires task { task < self.old.settings.tasks }
        ensures { (result, self.new) ≡ resume_interrupted list_queues core task self.old }
    {
        let pass = self.is_suspended(task);
        self.resume(core, task);
        let pend = self.core_look(core).pend;
        Reply::Isr { pass, pend }
    }

    // The task waits for some ticks, or in an event list.
    fn waits(&self, task: u32) -> bool
        requires { task < self.now.settings.tasks }
        ensures { result ≡ waits task self.now.orders }
    {
        self.delays.left(task).is_some() || self.mutexes.waits_in(task).is_some()
    }

    // The task is in no ready list, and waits for no tick and in no event list.
    fn leave_lists(&mut self, task: u32)
        requires { task < self.old.settings.tasks }
        ensures { self.new ≡ record self.old { orders = suspend task self.old.orders } }
    {
        self.cores.unready(task);
        self.delays.cancel(task);
        self.mutexes.leave(task);
    }

    // The task waits for no notification.
    fn stop_waiting(&mut self, task: u32)
        requires { task < self.old.settings.tasks }
        ensures { self.new ≡ record self.old {
          notes = without_waits self.old.settings.notes task self.old.notes;
        } }
    {
        self.notes.stop_waiting(task);
    }
}
