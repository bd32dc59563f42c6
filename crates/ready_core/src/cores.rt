//! The cores, the control blocks of tasks, and the ready lists.
ghost use Rattle.std.specs.Prelude.{◌≡◌, ℕ, ◌↔◌, ◌+◌, ◌-◌, ◌<◌, ◌≤◌, ◌==◌, ◌&&◌, nat_lt, if◌then◌else◌, length, true, false, not, find, map, unwrap_or, slice_get, All, IsTrue, IfOk, IfSome, Ok, Some};
ghost use Rattle.std.specs.Option.{ForSome};
ghost use Rattle.bench_types.specs.Header.{header_check};
ghost use Rattle.bench_types.specs.Limits.{max_cores};
ghost use Rattle.bench_types.specs.declared.kernel_data.TaskControl.{TaskControl};
ghost use Rattle.std.specs.List.{range_with_len};
ghost use Rattle.list_orders.specs.Listings.{IsListing};
ghost use Rattle.list_orders.specs.Search.{numbers, placed, without, has};
ghost use Rattle.index_lists.specs.Listed.{list_at, items_of};
ghost use Rattle.bench_model.specs.Control.{core_at, task_at, current, in_mask, is_allowed, is_due, is_idle, is_elsewhere, may_select, ask, asked_by, run_on, runs_on, ask_its_core};
ghost use Rattle.bench_model.specs.State.{after_select};
ghost use Rattle.bench_model.specs.Lists.{list_queues, outranks};
ghost use Rattle.bench_model.specs.Start.{first_lists, unstarted};
ghost use Rattle.bench_model.specs.Seek.{effective, is_running, is_preemptible_by, core_to_yield, seek, may_move, wake, after_switch, ready_in, shares_its_time, sliced};
ghost use Rattle.bench_model.specs.ControlFields.{with_base, with_in_use, with_affinity, with_preemption, in_use_set};
ghost use Rattle.bench_model.specs.Tally.{is_current};
ghost use Rattle.bench_model.specs.Cores.{cores_of, bare_view, cores_rule, has_core};
ghost use Rattle.list_orders.specs.Scans.{better_of};
ghost use Rattle.ready_core.specs.Fields.{ready_list, is_set, wants_core, has_seat, unlisted, all_placed, may_be_asked, stays_asked};

use crate::first::{first_controls, first_looks, first_seats, none_wanting};
use bench_types::{CoreLook, Header, TaskControl, cores_of_mask};
use index_lists::Lists;
use std::alloc::{AllocError, Global};
use std::marker::Model;
use std::ops::Range;

/// The cores, the tasks' control blocks and the ready lists.
#[derive(Debug)]
pub struct Cores {
    priorities: u32,
    slicing: bool,
    cores: Vec<CoreLook>,
    tasks: Vec<TaskControl>,
    /// List p has the ready tasks of priority p, running ones too (V11 tasks.c,
    /// `pxReadyTasksLists`).
    lists: Lists,
    /// Bit p is set exactly where list p is not empty (V11 tasks.c, `uxTopReadyPriority`).
    listed: u32,
    /// Per task the bits of the cores that have it as current task (V11 tasks.c, `xTaskRunState`).
    seats: Vec<u32>,
    /// Per task whether it is ready and on no core.
    wanting: Vec<bool>,
    /// The bits of the cores that are not due.
    undue: u32,
}

// Written out, so that whoever drops one has one call to prove, and not one for each list in it.
impl Drop for Cores {
    fn drop(self) {
        let Cores {
            priorities: _,
            slicing: _,
            cores: _,
            tasks: _,
            lists: _,
            listed: _,
            seats: _,
            wanting: _,
            undue: _,
        } = self;
    }
}

impl Model for Cores {
    ghost use Rattle.bench_model.specs.Cores.{CoresView};
    ghost use Rattle.ready_core.specs.Fields.{control_from, seen_of};
    ghost use Rattle.ready_core.specs.Shape.{IsKept};

    ghost Value = { CoresView };

    ghost view = { λ of. seen_of of.priorities of.slicing
        (control_from of.cores.items of.tasks.items) of.lists };

    ghost invariant = { λ of. IsKept of.priorities of.cores.items of.tasks.items of.lists
        of.listed of.seats.items of.wanting.items of.undue };
}

impl Cores {
    /// The start, before any core has selected: core c has idle task c, and all tasks are ready,
    /// the user tasks in header order and the idle tasks after them.
    #[tactic(auto, using(bench_types::proofs::Passes::checked_header))]
    pub fn new(alloc: Global, header: &Header) -> Result<Self, AllocError>
        requires { header_check header.now ≡ Ok tt }
        ensures { IfOk result
            (λ start. start ≡ cores_of (unstarted (first_lists header.now) header.now)) }
    {
        let cores = header.config.cores;
        let users = header.tasks.as_slice().len() as u32;
        let mut start = Self::unlisted(alloc, header)?;
        start.push_range(cores, cores + users);
        start.push_range(0, cores);
        Ok(start)
    }

    /// A second value, equal to this one.
    pub fn copy(&self, alloc: Global) -> Result<Self, AllocError>
        ensures { IfOk result (λ copy. copy ≡ self.now) }
    {
        Ok(Cores {
            priorities: self.priorities,
            slicing: self.slicing,
            cores: Vec::from_slice(alloc, &self.cores)?,
            tasks: Vec::from_slice(alloc, &self.tasks)?,
            lists: self.lists.copy(alloc)?,
            listed: self.listed,
            seats: Vec::from_slice(alloc, &self.seats)?,
            wanting: Vec::from_slice(alloc, &self.wanting)?,
            undue: self.undue,
        })
    }

    /// This becomes equal to the other, which has as many priorities, cores and tasks. No memory is
    /// taken.
    pub fn copy_from(&mut self, other: &Self)
        requires priorities { self.old.priorities ≡ other.now.priorities }
        requires cores { length self.old.control.cores ≡ length other.now.control.cores }
        requires tasks { length self.old.control.tasks ≡ length other.now.control.tasks }
        ensures { self.new ≡ other.now }
    {
        self.slicing = other.slicing;
        self.cores.copy_from_slice(&other.cores);
        self.tasks.copy_from_slice(&other.tasks);
        self.lists.copy_from(&other.lists);
        self.listed = other.listed;
        self.seats.copy_from_slice(&other.seats);
        self.wanting.copy_from_slice(&other.wanting);
        self.undue = other.undue;
    }

    /// Whether all that can be seen of the two is equal.
    pub fn same(&self, other: &Self) -> bool
        ensures { IsTrue result ↔ (self.now ≡ other.now) }
    {
        // Nested, so that each test is proved where those before it hold.
        self.has_same_settings(other)
            && (self.has_same_control(other) && self.has_same_lists(other))
    }

    /// The ready lists: list p is that of priority p.
    pub fn lists(&self) -> &Lists
        ensures items { result.now.items ≡ length self.now.control.tasks }
        ensures priorities { length result.now.lists ≡ self.now.priorities }
        ensures lists { (p : ℕ) → p < self.now.priorities
            → items_of (list_at result.now p) ≡ ready_list p self.now }
    {
        &self.lists
    }

    /// The first task of the ready list of the priority, if it has one. None is in it twice.
    pub fn first_ready(&self, priority: u32) -> Option<u32>
        requires { priority < self.now.priorities }
        ensures first { result ≡ slice_get (ready_list priority self.now) 0 }
        ensures once { IsListing (length self.now.control.tasks) (ready_list priority self.now) }
        ensures task { IfSome result (λ task. task < length self.now.control.tasks) }
    {
        self.lists.first(priority)
    }

    /// The task that stands right after this one, which is in a ready list; none where it is the
    /// last one.
    pub fn next_ready(&self, task: u32) -> Option<u32>
        requires task { task < length self.now.control.tasks }
        requires ready { has task self.now.ready ≡ true }
        ensures next { (p k : ℕ) → p < self.now.priorities
            → slice_get (ready_list p self.now) k ≡ Some task
            → result ≡ slice_get (ready_list p self.now) (k + 1) }
        ensures task { IfSome result (λ task. task < length self.now.control.tasks) }
    {
        self.lists.next_listed(task)
    }

    /// Whether there is such a core.
    pub fn has_core(&self, core: u32) -> bool
        ensures { result ≡ nat_lt core (length self.now.control.cores) }
    {
        (core as usize) < self.cores.len()
    }

    /// Whether there is such a task.
    pub fn has_task(&self, task: u32) -> bool
        ensures { result ≡ nat_lt task (length self.now.control.tasks) }
    {
        (task as usize) < self.tasks.len()
    }

    /// Whether there is such a priority.
    pub fn has_priority(&self, priority: u32) -> bool
        ensures { result ≡ nat_lt priority self.now.priorities }
    {
        priority < self.priorities
    }

    /// The current task of the core.
    pub fn running(&self, core: u32) -> u32
        requires { core < length self.now.control.cores }
        ensures current { result ≡ current self.now.control core }
        ensures task { result < length self.now.control.tasks }
    {
        self.cores[core as usize].current
    }

    /// The core's current task and its flags.
    pub fn flags(&self, core: u32) -> CoreLook
        requires { core < length self.now.control.cores }
        ensures { result ≡ core_at self.now.control core }
    {
        let place = core as usize;
        self.cores[place]
    }

    /// The base priority of the task.
    pub fn base(&self, task: u32) -> u32
        requires { task < length self.now.control.tasks }
        ensures base { result ≡ (task_at self.now.control task).base }
        ensures below { result < self.now.priorities }
    {
        self.control(task).base
    }

    /// The base priority of each task, task 0 first.
    pub fn bases(&self, alloc: Global) -> Result<Vec<u32>, AllocError>
        ensures bases { IfOk result
            (λ bases. bases.items
            ≡ map (λ (task : TaskControl). task.base) self.now.control.tasks) }
        ensures below { IfOk result
            (λ bases. All (λ base. base < self.now.priorities) bases.items) }
    {
        self.tasks.iter().map(|task| task.base).collect(alloc)
    }

    /// The priority in use of the task.
    pub fn in_use(&self, task: u32) -> u32
        requires { task < length self.now.control.tasks }
        ensures in_use { result ≡ (task_at self.now.control task).in_use }
        ensures below { result < self.now.priorities }
    {
        self.control(task).in_use
    }

    /// The core affinity mask of the task, cut to the bits that mean a core.
    pub fn mask(&self, task: u32) -> u32
        requires { task < length self.now.control.tasks }
        ensures { result ≡ (task_at self.now.control task).mask }
    {
        self.control(task).mask
    }

    /// Whether a core may be asked to give the task up for another.
    pub fn preempt(&self, task: u32) -> bool
        requires { task < length self.now.control.tasks }
        ensures { result ≡ (task_at self.now.control task).preempt }
    {
        self.control(task).preempt
    }

    /// Whether the task is in a ready list.
    pub fn ready(&self, task: u32) -> bool
        requires { task < length self.now.control.tasks }
        ensures { result ≡ has task self.now.ready }
    {
        self.lists.list_of(task).is_some()
    }

    /// Whether the task is the current one of a core, also of one that is to give it up.
    pub fn is_current(&self, task: u32) -> bool
        requires { task < length self.now.control.tasks }
        ensures { result ≡ is_current self.now.control task }
    {
        self.seats(task) != 0
    }

    /// For each task whether it is ready and on no core.
    pub fn wants_core(&self) -> &[bool]
        ensures { result.now
            ≡ map (wants_core self.now) (numbers (length self.now.control.tasks)) }
    {
        self.wanting.as_slice()
    }

    /// Whether the effective priority of one task is below that of the other: an idle task stands
    /// below all others, and else the priorities in use decide.
    pub fn stands_below(&self, task: u32, other: u32) -> bool
        requires task { task < length self.now.control.tasks }
        requires other { other < length self.now.control.tasks }
        ensures { result
            ≡ nat_lt (effective self.now.control task) (effective self.now.control other) }
    {
        let is_lower = self.is_idle(task) || self.in_use(task) < self.in_use(other);
        !self.is_idle(other) && is_lower
    }

    /// Whether the core's bit is set in the core affinity mask of the task.
    pub fn is_in_mask(&self, task: u32, core: u32) -> bool
        requires task { task < length self.now.control.tasks }
        requires core { core < length self.now.control.cores }
        ensures { result ≡ in_mask self.now.control task core }
    {
        self.has_bit(self.mask(task), core)
    }

    /// Whether the task may run on the core, by its core affinity mask; an idle task may on each.
    pub fn is_allowed(&self, core: u32, task: u32) -> bool
        requires core { core < length self.now.control.cores }
        requires task { task < length self.now.control.tasks }
        ensures { result ≡ is_allowed self.now.control core task }
    {
        self.is_idle(task) || self.is_in_mask(task, core)
    }

    /// The core that acts notes a switch for itself; any other core is asked.
    pub fn ask(&mut self, acting: u32, core: u32)
        requires { core < length self.old.control.cores }
        ensures { self.new ≡ record self.old { control = ask acting core self.old.control } }
    {
        // Which says that there are fewer cores than bits.
        let _cores = self.core_numbers();
        self.undue &= !(1 << core);
        if core == acting {
            self.cores[core as usize].pend = true;
        } else {
            self.cores[core as usize].asked = true;
        }
    }

    /// The core that the task runs on: it is the core's current task, and no other core asked that
    /// core to switch (`taskTASK_IS_RUNNING`).
    pub fn its_core(&self, task: u32) -> Option<u32>
        ensures core { result ≡ runs_on self.now.control task }
        ensures below { IfSome result (λ core. core < length self.now.control.cores) }
    {
        self.core_numbers()
            .find(|core| self.keeps_running(*core, task))
    }

    /// The core that the task runs on is asked, if there is one.
    #[tactic(auto, unfolding(bench_model::specs::Control::ask_its_core))]
    pub fn ask_its_core(&mut self, acting: u32, task: u32)
        requires { task < length self.old.control.tasks }
        ensures { self.new
            ≡ record self.old { control = ask_its_core acting task self.old.control } }
    {
        if let Some(core) = self.its_core(task) {
            self.ask(acting, core);
        }
    }

    /// Seeks a core for a ready task among those whose bit is set.
    pub fn yield_for(&mut self, acting: u32, task: u32, cores: u32)
        requires task { task < length self.old.control.tasks }
        requires ready { has task self.old.ready ≡ true }
        ensures { self.new
            ≡ record self.old { control = seek acting task (has_core cores) self.old.control } }
    {
        self.seek(acting, task, cores);
    }

    /// The task goes to the end of the ready list of its priority in use, and a core of its mask is
    /// sought for it.
    #[tactic(auto, unfolding(bench_model::specs::Seek::wake, bench_model::specs::Lists::add_to_ready_list))]
    pub fn make_ready(&mut self, acting: u32, task: u32)
        requires { task < length self.old.control.tasks }
        ensures { self.new ≡ cores_rule (wake list_queues acting task) self.old }
    {
        self.put_last(task);
        self.seek(acting, task, self.mask(task));
    }

    /// The task leaves the ready lists. No flag of a core changes.
    pub fn unready(&mut self, task: u32)
        requires { task < length self.old.control.tasks }
        ensures { self.new ≡ record self.old { ready = without task self.old.ready } }
    {
        let priority = self.in_use(task);
        self.lists.remove(task);
        self.wanting[task as usize] = false;
        if self.lists.len(priority) == 0 {
            self.listed &= !(1 << priority);
        }
    }

    /// The switch: the core's ready current task goes to the end of its list, and the core runs the
    /// first ready task that it may select then. It is due no more. For a ready task that lost the
    /// core another is sought.
    #[tactic(auto, unfolding(bench_model::specs::Seek::after_switch, bench_model::specs::Seek::after_eviction))]
    pub fn select(&mut self, core: u32)
        requires { core < length self.old.control.cores }
        ensures { self.new ≡ cores_rule (after_switch list_queues core) self.old }
    {
        let left = self.running(core);
        self.switch(core);
        let runs = self.running(core);
        if runs != left && self.ready(left) {
            self.seek(core, left, self.cores_left(left, runs, core));
        }
    }

    /// The end of time slices, where they are on: each core that is not due, and whose task has
    /// preemption on and stands in a ready list of more than one, is asked to switch, core 0 by
    /// itself.
    pub fn slice(&mut self)
        ensures { self.new ≡ cores_rule (sliced list_queues) self.old }
    {
        if self.slicing {
            let mut rest = self.undue;
            while rest != 0 {
                let core = rest.trailing_zeros();
                self.end_slice(core);
                rest &= !(1 << core);
            }
        }
    }

    /// The priority in use of the task becomes this one. A ready task goes to the end of the ready
    /// list of it, also where it had that priority.
    pub fn set_in_use(&mut self, task: u32, priority: u32)
        requires task { task < length self.old.control.tasks }
        requires priority { priority < self.old.priorities }
        ensures { self.new ≡ cores_rule (in_use_set list_queues task priority) self.old }
    {
        if self.ready(task) {
            self.unready(task);
            self.put_in_use(task, priority);
            self.push(task);
        } else {
            self.put_in_use(task, priority);
        }
    }

    /// The base priority of the task becomes this one; its priority in use stays.
    pub fn set_base(&mut self, task: u32, priority: u32)
        requires task { task < length self.old.control.tasks }
        requires priority { priority < self.old.priorities }
        ensures { self.new
            ≡ record self.old { control = with_base task priority self.old.control } }
    {
        self.tasks[task as usize].base = priority;
    }

    /// The core affinity mask of the task becomes this one, cut to the bits that mean a core.
    pub fn set_mask(&mut self, task: u32, mask: u32)
        requires { task < length self.old.control.tasks }
        ensures { self.new
            ≡ record self.old { control = with_affinity task mask self.old.control } }
    {
        let cut = cores_of_mask(self.core_numbers().end, mask);
        self.tasks[task as usize].mask = cut;
    }

    /// From now on a core may be asked to give the task up for another, or may not be.
    pub fn set_preempt(&mut self, task: u32, on: bool)
        requires { task < length self.old.control.tasks }
        ensures { self.new
            ≡ record self.old { control = with_preemption task on self.old.control } }
    {
        self.tasks[task as usize].preempt = on;
    }

    // The start where no task is ready yet.
    #[tactic(auto, using(bench_types::proofs::Passes::checked_header))]
    fn unlisted(alloc: Global, header: &Header) -> Result<Self, AllocError>
        requires { header_check header.now ≡ Ok tt }
        ensures { IfOk result (λ start. start ≡ unlisted header.now) }
    {
        let cores = header.config.cores;
        let users = header.tasks.as_slice().len() as u32;
        Ok(Cores {
            priorities: header.config.priorities,
            slicing: header.config.slicing,
            cores: first_looks(alloc, cores)?,
            tasks: first_controls(alloc, header)?,
            lists: Lists::new(alloc, cores + users, header.config.priorities)?,
            listed: 0,
            seats: first_seats(alloc, cores, cores + users)?,
            wanting: none_wanting(alloc, cores + users)?,
            undue: cores_of_mask(cores, u32::MAX),
        })
    }

    // Tasks that are not ready come to their ready lists, one after another.
    fn push_range(&mut self, from: u32, to: u32)
        requires order { from ≤ to }
        requires tasks { to ≤ length self.old.control.tasks }
        requires free { (task : ℕ) → from ≤ task → task < to → has task self.old.ready ≡ false }
        ensures { self.new ≡ record self.old {
          ready = all_placed self.old.control (range_with_len from (to - from)) self.old.ready;
        } }
    {
        for task in from..to {
            self.push(task);
        }
    }

    // A task that is not ready goes to the end of the ready list of its priority in use.
    fn push(&mut self, task: u32)
        requires task { task < length self.old.control.tasks }
        requires free { has task self.old.ready ≡ false }
        ensures { self.new ≡ record self.old {
          ready = placed (outranks self.old.control) task self.old.ready;
        } }
    {
        let priority = self.in_use(task);
        self.lists.push_last(priority, task);
        self.listed |= 1 << priority;
        self.wanting[task as usize] = self.seats[task as usize] == 0;
    }

    // The priority in use of a task that is not ready becomes this one.
    fn put_in_use(&mut self, task: u32, priority: u32)
        requires task { task < length self.old.control.tasks }
        requires priority { priority < self.old.priorities }
        requires free { has task self.old.ready ≡ false }
        ensures { self.new
            ≡ record self.old { control = with_in_use task priority self.old.control } }
    {
        self.tasks[task as usize].in_use = priority;
    }

    fn control(&self, task: u32) -> TaskControl
        requires { task < length self.now.control.tasks }
        ensures control { result ≡ task_at self.now.control task }
        ensures in_use { result.in_use < self.now.priorities }
        ensures base { result.base < self.now.priorities }
    {
        self.tasks[task as usize]
    }

    fn core_numbers(&self) -> Range<u32>
        ensures numbers { result ≡ record { start = 0; end = length self.now.control.cores } }
        ensures few { length self.now.control.cores ≤ max_cores }
    {
        0..self.cores.len() as u32
    }

    // Whether the number of priorities and slicing are equal.
    fn has_same_settings(&self, other: &Self) -> bool
        ensures { IsTrue result ↔
            ((self.now.priorities ≡ other.now.priorities)
            × (self.now.slicing ≡ other.now.slicing)) }
    {
        self.priorities == other.priorities && self.slicing == other.slicing
    }

    // Whether all that cores and control blocks hold is equal.
    fn has_same_control(&self, other: &Self) -> bool
        ensures { IsTrue result ↔ (self.now.control ≡ other.now.control) }
    {
        self.cores == other.cores && self.tasks == other.tasks
    }

    // Whether the ready list of each priority has the same tasks in both, in the same order.
    fn has_same_lists(&self, other: &Self) -> bool
        requires priorities { self.now.priorities ≡ other.now.priorities }
        requires control { self.now.control ≡ other.now.control }
        ensures { IsTrue result ↔ (self.now.ready ≡ other.now.ready) }
    {
        for priority in 0..self.priorities {
            if !self.lists.has_same_list(&other.lists, priority) {
                return false;
            }
        }
        true
    }

    // Whether the bit of the core is set.
    fn has_bit(&self, mask: u32, core: u32) -> bool
        requires { core < length self.now.control.cores }
        ensures bit { result ≡ has_core mask core }
        ensures few { length self.now.control.cores ≤ max_cores }
    {
        // Which says that there are fewer cores than bits.
        let _cores = self.core_numbers();
        (mask >> core) & 1 == 1
    }

    fn is_idle(&self, task: u32) -> bool
        ensures { result ≡ is_idle self.now.control task }
    {
        (task as usize) < self.cores.len()
    }

    // The bits of the cores that have the task as current task.
    fn seats(&self, task: u32) -> u32
        requires { task < length self.now.control.tasks }
        ensures { (core : ℕ) → is_set result core ≡ has_seat self.now.control task core }
    {
        self.seats[task as usize]
    }

    // Whether the task is on a core that no other core asked to switch.
    fn is_running(&self, task: u32) -> bool
        requires { task < length self.now.control.tasks }
        ensures { result ≡ is_running self.now.control task }
    {
        self.is_current(task) && self.its_core(task).is_some()
    }

    // Whether the core has the task and no other core asked it to switch.
    fn keeps_running(&self, core: u32, task: u32) -> bool
        requires { core < length self.now.control.cores }
        ensures { result
            ≡ (current self.now.control core == task && not (core_at self.now.control core).asked) }
    {
        self.running(core) == task && !self.flags(core).asked
    }

    // Whether the core is not due and runs a task that may be given up for this one.
    fn is_preemptible_by(&self, task: u32, core: u32) -> bool
        requires task { task < length self.now.control.tasks }
        requires core { core < length self.now.control.cores }
        ensures { result ≡ is_preemptible_by self.now.control task core }
    {
        let look = self.flags(core);
        let runs = self.running(core);
        // First what most cores fail.
        self.stands_below(runs, task) && self.preempt(runs) && !look.pend && !look.asked
    }

    // The core that is asked of those below this one and it.
    fn better_core(&self, task: u32, among: u32, best: Option<u32>, core: u32) -> Option<u32>
        requires task { task < length self.now.control.tasks }
        requires core { core < length self.now.control.cores }
        requires best { ForSome best (λ b. b < length self.now.control.cores) }
        ensures better { result
            ≡ better_of (stays_asked self.now.control)
            (may_be_asked self.now.control task (has_core among)) best core }
        ensures core { ForSome result (λ better. better < length self.now.control.cores) }
    {
        if !(self.has_bit(among, core) && self.is_preemptible_by(task, core)) {
            return best;
        }
        match best {
            Some(first) if self.stands_below(self.running(first), self.running(core)) => best,
            _ => Some(core),
        }
    }

    // The core that is asked for the task among those whose bit is set.
    fn core_to_yield(&self, task: u32, among: u32) -> Option<u32>
        requires { task < length self.now.control.tasks }
        ensures asked { result ≡ core_to_yield self.now.control task (has_core among) }
        ensures core { ForSome result (λ core. core < length self.now.control.cores) }
    {
        let mut best = None;
        for core in 0..self.core_numbers().end {
            best = self.better_core(task, among, best, core);
        }
        best
    }

    // A core is sought for the task among those whose bit is set. A task that lost its core to one
    // that may run anywhere has none left.
    fn seek(&mut self, acting: u32, task: u32, among: u32)
        requires { task < length self.old.control.tasks }
        ensures { self.new
            ≡ record self.old { control = seek acting task (has_core among) self.old.control } }
    {
        if among != 0 {
            self.seek_among(acting, task, among);
        }
    }

    // Not inlined, so that a switch that seeks no core doesn't pay for it.
    #[inline(never)]
    #[tactic(auto, unfolding(bench_model::specs::Seek::seek))]
    fn seek_among(&mut self, acting: u32, task: u32, among: u32)
        requires { task < length self.old.control.tasks }
        ensures { self.new
            ≡ record self.old { control = seek acting task (has_core among) self.old.control } }
    {
        if !self.is_running(task) {
            if let Some(core) = self.core_to_yield(task, among) {
                self.ask(acting, core);
            }
        }
    }

    // Whether the task is the current one of another core.
    fn is_elsewhere(&self, core: u32, task: u32) -> bool
        requires core { core < length self.now.control.cores }
        requires task { task < length self.now.control.tasks }
        ensures { result ≡ is_elsewhere self.now.control core task }
    {
        // Which says that there are fewer cores than bits.
        let _cores = self.core_numbers();
        self.seats(task) & !(1 << core) != 0
    }

    // Whether the core may select the task where it is ready.
    fn is_selectable(&self, core: u32, task: u32) -> bool
        requires core { core < length self.now.control.cores }
        requires task { task < length self.now.control.tasks }
        ensures { result ≡ may_select self.now.control core task }
    {
        // Most that are passed over run elsewhere.
        !self.is_elsewhere(core, task) && self.is_allowed(core, task)
    }

    // The first task of the ready list of the priority that the core may select.
    fn pick_of(&self, core: u32, priority: u32) -> Option<u32>
        requires core { core < length self.now.control.cores }
        requires priority { priority < self.now.priorities }
        ensures first { result
            ≡ find (may_select self.now.control core) (ready_list priority self.now) }
        ensures task { IfSome result (λ task. task < length self.now.control.tasks) }
    {
        let mut task = self.lists.first(priority)?;
        // Which says that the list has no more than so many tasks.
        let _len = self.lists.len(priority);
        for _place in 0..u32::MAX {
            if self.is_selectable(core, task) {
                return Some(task);
            }
            task = self.lists.next_listed(task)?;
        }
        None
    }

    // The first task of the ready lists that the core may select, from the greatest priority in use
    // down.
    fn pick(&self, core: u32) -> Option<u32>
        requires { core < length self.now.control.cores }
        ensures first { result ≡ find (may_select self.now.control core) self.now.ready }
        ensures task { IfSome result (λ task. task < length self.now.control.tasks) }
    {
        let mut rest = self.listed;
        for _list in 0..self.priorities {
            let priority = rest.checked_ilog2()?;
            let first = self.pick_of(core, priority);
            if first.is_some() {
                return first;
            }
            rest &= !(1 << priority);
        }
        None
    }

    // A ready task goes to the end of the ready list of its priority in use.
    fn move_last(&mut self, task: u32)
        requires task { task < length self.old.control.tasks }
        requires ready { has task self.old.ready ≡ true }
        ensures { self.new ≡ record self.old {
          ready = placed (outranks self.old.control) task (without task self.old.ready);
        } }
    {
        let priority = self.in_use(task);
        self.lists.move_last(priority, task);
    }

    // The task, ready or not, goes to the end of the ready list of its priority in use.
    fn put_last(&mut self, task: u32)
        requires { task < length self.old.control.tasks }
        ensures { self.new ≡ record self.old {
          ready = placed (outranks self.old.control) task (without task self.old.ready);
        } }
    {
        if self.ready(task) {
            self.move_last(task);
        } else {
            self.push(task);
        }
    }

    fn run(&mut self, core: u32, task: u32)
        requires core { core < length self.old.control.cores }
        requires task { task < length self.old.control.tasks }
        ensures { self.new ≡ record self.old { control = run_on core task self.old.control } }
    {
        let left = self.running(core);
        let is_ready = self.ready(left);
        self.seats[left as usize] &= !(1 << core);
        self.wanting[left as usize] = is_ready & (self.seats[left as usize] == 0);
        self.seats[task as usize] |= 1 << core;
        self.wanting[task as usize] = false;
        self.cores[core as usize] = CoreLook {
            current: task,
            pend: false,
            asked: false,
        };
        self.undue |= 1 << core;
    }

    // The switch without the seek.
    #[tactic(auto, unfolding(bench_model::specs::State::after_select, bench_model::specs::Lists::pick, bench_model::specs::Lists::add_to_ready_list))]
    fn switch(&mut self, core: u32)
        requires { core < length self.old.control.cores }
        ensures selected { self.new ≡ cores_rule (after_select list_queues core) self.old }
        ensures cores { length self.new.control.cores ≡ length self.old.control.cores }
        ensures tasks { self.new.control.tasks ≡ self.old.control.tasks }
    {
        let left = self.running(core);
        if self.ready(left) {
            self.move_last(left);
        }
        let next = self.pick(core).unwrap_or(left);
        self.run(core, next);
    }

    // Where a task may go that lost a core to another: the cores of its mask; where it could stay
    // on the lost core, those of them that the other can't run on.
    fn cores_left(&self, loser: u32, winner: u32, lost: u32) -> u32
        requires loser { loser < length self.now.control.tasks }
        requires winner { winner < length self.now.control.tasks }
        requires lost { lost < length self.now.control.cores }
        ensures { (core : ℕ) → core < length self.now.control.cores
            → has_core result core ≡ may_move self.now.control loser winner lost core }
    {
        let mask = self.mask(loser);
        if self.has_bit(mask, lost) {
            mask & !self.mask(winner)
        } else {
            mask
        }
    }

    // Whether the task stands in a ready list of more than one.
    fn has_company(&self, task: u32) -> bool
        requires { task < length self.now.control.tasks }
        ensures { result
            ≡ (has task self.now.ready
            && nat_lt 1
            (length
            (ready_in list_queues (task_at self.now.control task).in_use (bare_view self.now)))) }
    {
        self.ready(task) & (self.lists.len(self.in_use(task)) > 1)
    }

    // Whether the task of a core that is not due has preemption on and stands in a ready list of
    // more than one. Both are asked each time: `&` leaves none out.
    fn shares_its_time(&self, core: u32) -> bool
        requires core { core < length self.now.control.cores }
        requires undue { is_due self.now.control core ≡ false }
        ensures { result ≡ shares_its_time list_queues (bare_view self.now) core }
    {
        let runs = self.running(core);
        self.preempt(runs) & self.has_company(runs)
    }

    // A core that is not due is asked where its task has to share its time, without a jump.
    fn end_slice(&mut self, core: u32)
        requires core { core < length self.old.control.cores }
        requires undue { is_due self.old.control core ≡ false }
        ensures { self.new
            ≡ (if shares_its_time list_queues (bare_view self.old) core
            then record self.old { control = ask 0 core self.old.control } else self.old) }
    {
        let shares = self.shares_its_time(core);
        ask_where(shares, core, &mut self.cores[core as usize]);
        self.undue &= !(u32::from(shares) << core);
    }
}

// The core is asked by core 0 where that is so, without a jump.
fn ask_where(is_so: bool, core: u32, look: &mut CoreLook)
    ensures { look.new ≡ (if is_so then asked_by 0 core look.old else look.old) }
{
    if core == 0 {
        look.pend |= is_so;
    } else {
        look.asked |= is_so;
    }
}
