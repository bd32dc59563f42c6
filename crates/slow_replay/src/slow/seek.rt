//! Seeking a core and ending time slices, each as it is defined: over all cores and all tasks at
//! once.
ghost use Rattle.std.specs.Prelude.{◌≡◌, ◌≢◌, ℕ, ◌<◌, not, ◌&&◌, length, filter, nat_lt, Some, IfSome, ◌==◌};
ghost use Rattle.bench_model.specs.Control.{in_mask, is_due, core_at, current, task_at, with_core, ask, asked_where};
ghost use Rattle.list_orders.specs.Search.{is_best, numbers};
ghost use Rattle.bench_model.specs.Seek.{effective, is_running, is_preemptible_by, yields_first, core_to_yield, seek, after_eviction, ready_in, shares_its_time, sliced};
ghost use Rattle.slow_replay.specs.SlowSeek.{may_go};
ghost use Rattle.bench_model.specs.Table.{stamp_queues, is_ready};

use super::SlowTable;

impl SlowTable {
    pub(super) fn in_mask(&self, task: u32, core: u32) -> bool
        requires core { core < length self.now.control.cores }
        requires task { task < length self.now.orders.rows }
        ensures { result ≡ in_mask self.now.control task core }
    {
        (self.tasks[task as usize].mask >> core) & 1 == 1
    }

    // An idle task stands below all others.
    fn effective(&self, task: u32) -> u64
        requires { task < length self.now.orders.rows }
        ensures { result ≡ effective self.now.control task }
    {
        if task < self.settings.cores {
            0
        } else {
            u64::from(self.tasks[task as usize].in_use) + 1
        }
    }

    // Whether the core has the task and no other core asked it to switch.
    pub(super) fn keeps_running(&self, core: u32, task: u32) -> bool
        requires { core < length self.now.control.cores }
        ensures { result
            ≡ (current self.now.control core == task && not (core_at self.now.control core).asked) }
    {
        self.runs_on(core, task) && !self.cores[core as usize].asked
    }

    fn is_running(&self, task: u32) -> bool
        ensures { result ≡ is_running self.now.control task }
    {
        self.its_core(task).is_some()
    }

    pub(super) fn has_preemption_on(&self, task: u32) -> bool
        requires { task < length self.now.orders.rows }
        ensures { result ≡ (task_at self.now.control task).preempt }
    {
        self.tasks[task as usize].preempt
    }

    fn is_preemptible_by(&self, task: u32, core: u32) -> bool
        requires core { core < length self.now.control.cores }
        requires task { task < length self.now.orders.rows }
        ensures { result ≡ is_preemptible_by self.now.control task core }
    {
        let runs = self.current(core);
        !self.is_due(core)
            && self.has_preemption_on(runs)
            && self.effective(runs) < self.effective(task)
    }

    fn yields_first(&self, one: u32, other: u32) -> bool
        requires one { one < length self.now.control.cores }
        requires other { other < length self.now.control.cores }
        ensures { result ≡ yields_first self.now.control one other }
    {
        let a = self.effective(self.current(one));
        let b = self.effective(self.current(other));
        a < b || (a == b && other <= one)
    }

    // Where a task may go that was woken, or that lost a core.
    fn may_go(&self, task: u32, lost: Option<u32>, core: u32) -> bool
        requires core { core < length self.now.control.cores }
        requires task { task < length self.now.orders.rows }
        requires lost { IfSome lost (λ lost. lost < length self.now.control.cores) }
        ensures { result ≡ may_go self.now.control task lost core }
    {
        match lost {
            None => self.in_mask(task, core),
            Some(lost) => {
                let stays = self.in_mask(task, lost) && self.in_mask(self.current(lost), core);
                self.in_mask(task, core) && !stays
            }
        }
    }

    fn is_candidate(&self, task: u32, lost: Option<u32>, core: u32) -> bool
        requires core { core < length self.now.control.cores }
        requires task { task < length self.now.orders.rows }
        requires lost { IfSome lost (λ lost. lost < length self.now.control.cores) }
        ensures { result
            ≡ (may_go self.now.control task lost core
            && is_preemptible_by self.now.control task core) }
    {
        self.may_go(task, lost, core) && self.is_preemptible_by(task, core)
    }

    // Whether the core gives way and none that does is asked before it.
    fn is_asked_first(&self, task: u32, lost: Option<u32>, core: u32) -> bool
        requires core { core < length self.now.control.cores }
        requires task { task < length self.now.orders.rows }
        requires lost { IfSome lost (λ lost. lost < length self.now.control.cores) }
        ensures { result
            ≡ is_best
            (λ c. may_go self.now.control task lost c && is_preemptible_by self.now.control task c)
            (yields_first self.now.control) (numbers (length self.now.control.cores)) core }
    {
        self.is_candidate(task, lost, core)
            && self.core_numbers().all(|other| !self.is_candidate(task, lost, other)
                || self.yields_first(core, other))
    }

    fn core_to_yield(&self, task: u32, lost: Option<u32>) -> Option<u32>
        requires task { task < length self.now.orders.rows }
        requires lost { IfSome lost (λ lost. lost < length self.now.control.cores) }
        ensures asked { result
            ≡ core_to_yield self.now.control task (may_go self.now.control task lost) }
        ensures core { IfSome result (λ core. core < length self.now.control.cores) }
    {
        self.core_numbers()
            .find(|core| self.is_asked_first(task, lost, *core))
    }

    #[tactic(auto, unfolding(bench_model::specs::State::yielded))]
    pub(super) fn ask(&mut self, acting: u32, core: u32)
        requires { core < length self.old.control.cores }
        ensures asked { self.new ≡ record self.old { control = ask acting core self.old.control } }
        ensures cores { length self.new.control.cores ≡ length self.old.control.cores }
    {
        if core == acting {
            self.ask_itself(core);
        } else {
            self.ask_other(acting, core);
        }
    }

    // Another core asks this one.
    fn ask_other(&mut self, acting: u32, core: u32)
        requires core { core < length self.old.control.cores }
        requires other { core ≢ acting }
        ensures { self.new ≡ record self.old { control = ask acting core self.old.control } }
    {
        self.cores[core as usize].asked = true;
    }

    #[tactic(auto, unfolding(bench_model::specs::Seek::seek))]
    pub(super) fn seek(&mut self, acting: u32, task: u32, lost: Option<u32>)
        requires task { task < length self.old.orders.rows }
        requires lost { IfSome lost (λ lost. lost < length self.old.control.cores) }
        ensures sought { self.new ≡ record self.old {
          control = seek acting task (may_go self.old.control task lost) self.old.control;
        } }
        ensures cores { length self.new.control.cores ≡ length self.old.control.cores }
    {
        if self.is_running(task) {
            return;
        }
        if let Some(core) = self.core_to_yield(task, lost) {
            self.ask(acting, core);
        }
    }

    #[tactic(auto, unfolding(bench_model::specs::Seek::after_eviction))]
    pub(super) fn resettle(&mut self, core: u32, loser: u32)
        requires core { core < length self.old.control.cores }
        requires loser { loser < length self.old.orders.rows }
        ensures { self.new ≡ after_eviction stamp_queues core loser self.old }
    {
        if !self.runs_on(core, loser) && self.is_ready(loser) {
            self.seek(core, loser, Some(core));
        }
    }

    fn stands_in(&self, priority: u32, task: u32) -> bool
        requires { task < length self.now.orders.rows }
        ensures { result
            ≡ (is_ready task self.now.orders
            && (task_at self.now.control task).in_use == priority) }
    {
        self.is_ready(task) && self.tasks[task as usize].in_use == priority
    }

    // How many tasks stand in the ready list of a priority.
    fn ready_in(&self, priority: u32) -> u32
        ensures { result ≡ length (ready_in stamp_queues priority self.now) }
    {
        let mut ready = 0;
        for task in 0..self.settings.tasks {
            if self.stands_in(priority, task) {
                ready += 1;
            }
        }
        ready
    }

    fn shares_its_time(&self, core: u32) -> bool
        requires { core < length self.now.control.cores }
        ensures { result ≡ shares_its_time stamp_queues self.now core }
    {
        let runs = self.current(core);
        !self.is_due(core)
            && self.has_preemption_on(runs)
            && self.is_ready(runs)
            && 1 < self.ready_in(self.tasks[runs as usize].in_use)
    }

    fn end_slice(&mut self, core: u32)
        requires { core < length self.old.control.cores }
        ensures { self.new ≡ record self.old {
          control = with_core core
              (asked_where 0 (shares_its_time stamp_queues self.old) self.old.control core)
              self.old.control;
        } }
    {
        if self.shares_its_time(core) {
            self.ask(0, core);
        }
    }

    pub(super) fn slice(&mut self)
        ensures { self.new ≡ sliced stamp_queues self.old }
    {
        if !self.settings.slicing {
            return;
        }
        for core in 0..self.settings.cores {
            self.end_slice(core);
        }
    }
}
