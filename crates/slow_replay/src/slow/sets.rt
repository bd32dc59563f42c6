//! The calls that set a task's priority, core affinity mask and preemption, each as it is defined.
ghost use Rattle.std.specs.Prelude.{◌≡◌, ◌<◌, ◌≤◌, ◌+◌, ◌^◌, length, map, IfSome};
ghost use Rattle.bench_model.specs.ControlFields.{with_base, with_affinity, with_preemption, in_use_set, value_set, in_use_and_value_set};
ghost use Rattle.bench_model.specs.Control.{runs_on, ask_its_core};
ghost use Rattle.bench_model.specs.PriorityAffinity.{capped, in_use_after, yields_after_priority_set, yields_after_affinity_set, priority_set, affinity_set, preemption_off, preemption_on};
ghost use Rattle.bench_model.specs.Table.{stamp_queues, is_ready};
ghost use Rattle.bench_model.specs.Waiters.{with_value};

use super::SlowTable;
use bench_types::{TaskControl, Waiter, cores_of_mask};

impl SlowTable {
    pub(super) fn its_core(&self, task: u32) -> Option<u32>
        ensures core { result ≡ runs_on self.now.control task }
        ensures below { IfSome result (λ core. core < length self.now.control.cores) }
    {
        self.core_numbers()
            .find(|core| self.keeps_running(*core, task))
    }

    #[tactic(auto, unfolding(bench_model::specs::Control::ask_its_core))]
    pub(super) fn ask_its_core(&mut self, acting: u32, task: u32)
        ensures { self.new
            ≡ record self.old { control = ask_its_core acting task self.old.control } }
    {
        if let Some(core) = self.its_core(task) {
            self.ask(acting, core);
        }
    }

    fn capped(&self, priority: u32) -> u32
        ensures { result ≡ capped self.now.settings.priorities priority }
    {
        let priorities = self.settings.priorities;
        if priority < priorities {
            priority
        } else {
            priorities.saturating_sub(1)
        }
    }

    fn set_base(&mut self, task: u32, priority: u32)
        requires { task < length self.old.orders.rows }
        ensures { self.new
            ≡ record self.old { control = with_base task priority self.old.control } }
    {
        self.tasks[task as usize].base = priority;
    }

    fn set_mask(&mut self, task: u32, mask: u32)
        requires { task < length self.old.orders.rows }
        ensures { self.new
            ≡ record self.old { control = with_affinity task mask self.old.control } }
    {
        let cores = self.settings.cores;
        self.tasks[task as usize].mask = cores_of_mask(cores, mask);
    }

    fn set_preemption(&mut self, task: u32, preempt: bool)
        requires { task < length self.old.orders.rows }
        ensures { self.new
            ≡ record self.old { control = with_preemption task preempt self.old.control } }
    {
        self.tasks[task as usize].preempt = preempt;
    }

    #[tactic(auto, unfolding(bench_model::specs::ControlFields::in_use_set))]
    fn set_in_use(&mut self, task: u32, priority: u32)
        requires task { task < length self.old.orders.rows }
        requires room { self.old.orders.next + 1 < 2 ^ 128 }
        ensures set { self.new ≡ in_use_set stamp_queues task priority self.old }
        ensures rows { length self.new.orders.rows ≡ length self.old.orders.rows }
        ensures stamps { self.new.orders.next ≤ self.old.orders.next + 1 }
        ensures tick { self.new.orders.tick ≡ self.old.orders.tick }
        ensures cores { length self.new.control.cores ≡ length self.old.control.cores }
    {
        self.tasks[task as usize].in_use = priority;
        if self.is_ready(task) {
            self.add_to_ready_list(task);
        }
    }

    // The task's list value becomes this one, where it has one; no waiter moves.
    #[tactic(auto, unfolding(bench_model::specs::Table::set_list_value))]
    fn set_list_value(&mut self, task: u32, value: u32)
        ensures set { self.new ≡ value_set stamp_queues task value self.old }
        ensures rows { length self.new.orders.rows ≡ length self.old.orders.rows }
        ensures stamps { self.new.orders.next ≡ self.old.orders.next }
        ensures tick { self.new.orders.tick ≡ self.old.orders.tick }
    {
        if (task as usize) < self.values.len() {
            self.values[task as usize] = value;
            revalue(&mut self.waiters, task, value);
        }
    }

    #[tactic(auto, unfolding(bench_model::specs::ControlFields::in_use_and_value_set))]
    pub(super) fn set_in_use_and_value(&mut self, task: u32, priority: u32)
        requires task { task < length self.old.orders.rows }
        requires room { self.old.orders.next + 1 < 2 ^ 128 }
        ensures set { self.new ≡ in_use_and_value_set stamp_queues task priority self.old }
        ensures rows { length self.new.orders.rows ≡ length self.old.orders.rows }
        ensures stamps { self.new.orders.next ≤ self.old.orders.next + 1 }
        ensures tick { self.new.orders.tick ≡ self.old.orders.tick }
        ensures cores { length self.new.control.cores ≡ length self.old.control.cores }
    {
        self.set_in_use(task, priority);
        self.set_list_value(task, priority);
    }

    #[tactic(auto, unfolding(bench_model::specs::PriorityAffinity::yields_after_priority_set))]
    fn yield_after_priority_set(&mut self, acting: u32, task: u32, old: u32, new: u32, ready: bool)
        requires { task < length self.old.orders.rows }
        ensures { self.new ≡ record self.old {
          control = yields_after_priority_set acting task old new ready self.old.control;
        } }
    {
        if old < new && ready {
            self.seek(acting, task, None);
        } else if new < old && self.has_preemption_on(task) {
            self.ask_its_core(acting, task);
        }
    }

    #[tactic(auto, unfolding(bench_model::specs::PriorityAffinity::priority_set))]
    pub(super) fn set_priority(&mut self, acting: u32, task: u32, priority: u32)
        requires task { task < length self.old.orders.rows }
        requires room { self.old.orders.next + 1 < 2 ^ 128 }
        ensures { self.new ≡ priority_set stamp_queues acting task priority self.old }
    {
        let block = self.tasks[task as usize];
        let new = self.capped(priority);
        if new == block.base {
            return;
        }
        let ready = self.is_ready(task);
        self.set_base(task, new);
        self.set_in_use(task, in_use_after(block, new));
        self.set_list_value(task, new);
        self.yield_after_priority_set(acting, task, block.base, new, ready);
    }

    // The core that has the task keeps it where the mask allows it.
    #[tactic(auto, unfolding(bench_model::specs::PriorityAffinity::yields_after_affinity_set))]
    fn yield_after_affinity_set(&mut self, acting: u32, task: u32)
        requires { task < length self.old.orders.rows }
        ensures { self.new ≡ record self.old {
          control = yields_after_affinity_set acting task
              (is_ready task self.old.orders) self.old.control;
        } }
    {
        if let Some(core) = self.its_core(task) {
            if !self.in_mask(task, core) {
                self.ask(acting, core);
            }
        } else if self.is_ready(task) {
            self.seek(acting, task, None);
        }
    }

    #[tactic(auto, unfolding(bench_model::specs::PriorityAffinity::affinity_set))]
    pub(super) fn set_affinity(&mut self, acting: u32, task: u32, mask: u32)
        requires { task < length self.old.orders.rows }
        ensures { self.new ≡ affinity_set stamp_queues acting task mask self.old }
    {
        self.set_mask(task, mask);
        self.yield_after_affinity_set(acting, task);
    }

    #[tactic(auto, unfolding(bench_model::specs::PriorityAffinity::preemption_off))]
    pub(super) fn preempt_off(&mut self, task: u32)
        requires { task < length self.old.orders.rows }
        ensures { self.new ≡ preemption_off stamp_queues task self.old }
    {
        self.set_preemption(task, false);
    }

    #[tactic(auto, unfolding(bench_model::specs::PriorityAffinity::preemption_on))]
    pub(super) fn preempt_on(&mut self, acting: u32, task: u32)
        requires { task < length self.old.orders.rows }
        ensures { self.new ≡ preemption_on stamp_queues acting task self.old }
    {
        self.set_preemption(task, true);
        self.ask_its_core(acting, task);
    }
}

// Where the task is among the waiters, it waits with this priority from now on.
fn revalue(waiters: &mut [Waiter], task: u32, value: u32)
    ensures { waiters.new ≡ map (with_value task value) waiters.old }
{
    for waiter in waiters.iter_mut() {
        *waiter = with_value(task, value, *waiter);
    }
}

fn with_value(task: u32, value: u32, waiter: Waiter) -> Waiter
    ensures { result ≡ with_value task value waiter }
{
    let mut later = waiter;
    if waiter.task == task {
        later.wait.priority = value;
    }
    later
}

fn in_use_after(block: TaskControl, priority: u32) -> u32
    ensures { result ≡ in_use_after block priority }
{
    if block.in_use == block.base || block.in_use < priority {
        priority
    } else {
        block.in_use
    }
}
