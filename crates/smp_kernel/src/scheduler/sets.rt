//! The calls that set a task's priority, core affinity mask and preemption.
ghost use Rattle.std.specs.Prelude.{◌≡◌, ◌<◌, true};
ghost use Rattle.list_orders.specs.Search.{has};
ghost use Rattle.bench_model.specs.Control.{task_at, in_mask, ask_its_core};
ghost use Rattle.bench_model.specs.Lists.{list_queues};
ghost use Rattle.bench_model.specs.Seek.{seek};
ghost use Rattle.bench_model.specs.ControlFields.{with_base, with_affinity, with_preemption, in_use_set, value_set};
ghost use Rattle.bench_model.specs.PriorityAffinity.{capped, in_use_after, yields_after_priority_set, yields_after_affinity_set, priority_set, affinity_set, preemption_off, preemption_on};

use super::Scheduler;

impl Scheduler {
    // The core that the task runs on is asked, if there is one.
    pub(super) fn ask_its_core(&mut self, acting: u32, task: u32)
        requires { task < self.old.settings.tasks }
        ensures { self.new
            ≡ record self.old { control = ask_its_core acting task self.old.control } }
    {
        self.cores.ask_its_core(acting, task);
    }

    // A core of its mask is sought for the ready task.
    fn seek(&mut self, acting: u32, task: u32)
        requires task { task < self.old.settings.tasks }
        requires ready { has task self.old.orders.ready ≡ true }
        ensures { self.new ≡ record self.old {
          control = seek acting task (in_mask self.old.control task) self.old.control;
        } }
    {
        self.cores.yield_for(acting, task, self.cores.mask(task));
    }

    // The priority in use after a new base priority.
    fn in_use_after(&self, task: u32, priority: u32) -> u32
        requires task { task < self.now.settings.tasks }
        requires priority { priority < self.now.settings.priorities }
        ensures in_use { result ≡ in_use_after (task_at self.now.control task) priority }
        ensures below { result < self.now.settings.priorities }
    {
        let in_use = self.cores.in_use(task);
        if in_use == self.cores.base(task) || in_use < priority {
            priority
        } else {
            in_use
        }
    }

    // The priority, or the greatest where it is none.
    fn capped(&self, priority: u32) -> u32
        ensures capped { result ≡ capped self.now.settings.priorities priority }
        ensures below { result < self.now.settings.priorities }
    {
        let priorities = self.settings.priorities;
        if priority < priorities {
            priority
        } else {
            priorities - 1
        }
    }

    fn set_base(&mut self, task: u32, priority: u32)
        requires task { task < self.old.settings.tasks }
        requires priority { priority < self.old.settings.priorities }
        ensures { self.new
            ≡ record self.old { control = with_base task priority self.old.control } }
    {
        self.cores.set_base(task, priority);
    }

    fn set_in_use(&mut self, task: u32, priority: u32)
        requires task { task < self.old.settings.tasks }
        requires priority { priority < self.old.settings.priorities }
        ensures set { self.new ≡ in_use_set list_queues task priority self.old }
        ensures ready { has task self.new.orders.ready ≡ has task self.old.orders.ready }
        ensures settings { self.new.settings ≡ self.old.settings }
    {
        self.cores.set_in_use(task, priority);
    }

    #[tactic(auto, unfolding(bench_model::specs::Lists::set_list_value))]
    fn set_list_value(&mut self, task: u32, value: u32)
        requires task { task < self.old.settings.tasks }
        requires value { value < self.old.settings.priorities }
        ensures set { self.new ≡ value_set list_queues task value self.old }
        ensures ready { has task self.new.orders.ready ≡ has task self.old.orders.ready }
        ensures settings { self.new.settings ≡ self.old.settings }
    {
        self.mutexes.set_list_value(task, value);
    }

    // After a new base priority: who is asked for the task, or to give it up.
    #[tactic(auto, unfolding(bench_model::specs::PriorityAffinity::yields_after_priority_set))]
    fn yield_after_priority_set(&mut self, acting: u32, task: u32, old: u32, new: u32)
        requires { task < self.old.settings.tasks }
        ensures { self.new ≡ record self.old {
          control = yields_after_priority_set acting task old new
              (has task self.old.orders.ready) self.old.control;
        } }
    {
        if old < new && self.cores.ready(task) {
            self.seek(acting, task);
        } else if new < old && self.cores.preempt(task) {
            self.ask_its_core(acting, task);
        }
    }

    #[tactic(auto, unfolding(bench_model::specs::PriorityAffinity::priority_set))]
    pub(super) fn set_priority(&mut self, acting: u32, task: u32, priority: u32)
        requires { task < self.old.settings.tasks }
        ensures { self.new ≡ priority_set list_queues acting task priority self.old }
    {
        let old = self.cores.base(task);
        let new = self.capped(priority);
        if new == old {
            return;
        }
        let in_use = self.in_use_after(task, new);
        self.set_base(task, new);
        self.set_in_use(task, in_use);
        self.set_list_value(task, new);
        self.yield_after_priority_set(acting, task, old, new);
    }

    // After a new mask: the core that has the task is asked where the mask lacks it, or one is
    // sought.
    #[tactic(auto, unfolding(bench_model::specs::PriorityAffinity::yields_after_affinity_set))]
    fn yield_after_affinity_set(&mut self, acting: u32, task: u32)
        requires { task < self.old.settings.tasks }
        ensures { self.new ≡ record self.old {
          control = yields_after_affinity_set acting task
              (has task self.old.orders.ready) self.old.control;
        } }
    {
        match self.cores.its_core(task) {
            Some(core) if !self.cores.is_in_mask(task, core) => self.cores.ask(acting, core),
            None if self.cores.ready(task) => self.seek(acting, task),
            _ => (),
        }
    }

    fn set_mask(&mut self, task: u32, mask: u32)
        requires { task < self.old.settings.tasks }
        ensures { self.new
            ≡ record self.old { control = with_affinity task mask self.old.control } }
    {
        self.cores.set_mask(task, mask);
    }

    #[tactic(auto, unfolding(bench_model::specs::PriorityAffinity::affinity_set))]
    pub(super) fn set_affinity(&mut self, acting: u32, task: u32, mask: u32)
        requires { task < self.old.settings.tasks }
        ensures { self.new ≡ affinity_set list_queues acting task mask self.old }
    {
        self.set_mask(task, mask);
        self.yield_after_affinity_set(acting, task);
    }

    fn set_preemption(&mut self, task: u32, on: bool)
        requires { task < self.old.settings.tasks }
        ensures { self.new
            ≡ record self.old { control = with_preemption task on self.old.control } }
    {
        self.cores.set_preempt(task, on);
    }

    #[tactic(auto, unfolding(bench_model::specs::PriorityAffinity::preemption_off))]
    pub(super) fn preempt_off(&mut self, task: u32)
        requires { task < self.old.settings.tasks }
        ensures { self.new ≡ preemption_off list_queues task self.old }
    {
        self.set_preemption(task, false);
    }

    #[tactic(auto, unfolding(bench_model::specs::PriorityAffinity::preemption_on))]
    pub(super) fn preempt_on(&mut self, acting: u32, task: u32)
        requires { task < self.old.settings.tasks }
        ensures { self.new ≡ preemption_on list_queues acting task self.old }
    {
        self.set_preemption(task, true);
        self.ask_its_core(acting, task);
    }
}
