//! The tick count, and the tasks that wait for ticks.
ghost use Rattle.std.specs.Prelude.{◌≡◌, ◌↔◌, ◌+◌, ◌^◌, ◌<◌, [], ◌∷◌, false, MatchOption, IfSome, IfOk, IsTrue};
ghost use Rattle.bench_model.specs.Lists.{without_delay, due_tasks};
ghost use Rattle.bench_model.specs.Looks.{left_in};
ghost use Rattle.tick_delay.specs.Parts.{no_delays, but_for_turn, is_delayed, delayed_for, until_delayed, advanced, AreInTurn};

mod shift;

use bench_model::until::{is_ahead, next_wake};
use index_lists::Lists;
use std::alloc::{AllocError, Global};
use std::marker::Model;

/// The tick count, and the tasks that wait for some ticks.
#[derive(Debug, Drop)]
pub struct Delays {
    tasks: u32,
    /// In ticks.
    tick: u32,
    /// The list of the tasks that wake before the tick count wraps; those of the other wake after
    /// it has.
    turn: u32,
    /// The waiting tasks, in each list by wakes, which are tick counts; of tasks with one wake,
    /// the longer one has been waiting, the earlier it stands.
    lists: Lists,
}

impl Model for Delays {
    ghost use Rattle.tick_delay.specs.Parts.{DelayView};
    ghost use Rattle.tick_delay.specs.Shape.{seen_delays, IsDelayShape};

    ghost Value = { DelayView };

    ghost view = { λ part. seen_delays part.tasks part.tick part.turn part.lists };

    ghost invariant = { λ part. IsDelayShape part.tasks part.tick part.turn part.lists };
}

impl Delays {
    /// No task waits. There is room for so many tasks to wait.
    pub fn new(alloc: Global, tick: u32, tasks: u32) -> Result<Self, AllocError>
        requires { tasks + 2 < 2 ^ 32 }
        ensures none { IfOk result (λ part. part ≡ no_delays tick tasks) }
        ensures word { IfOk result (λ part. part.tick < 2 ^ 32) }
    {
        Ok(Delays {
            tasks,
            tick,
            turn: 0,
            lists: Lists::new(alloc, tasks, 2)?,
        })
    }

    /// A second value, equal to this one.
    pub fn copy(&self, alloc: Global) -> Result<Self, AllocError>
        ensures { IfOk result (λ copy. copy ≡ self.now) }
    {
        Ok(Delays {
            tasks: self.tasks,
            tick: self.tick,
            turn: self.turn,
            lists: self.lists.copy(alloc)?,
        })
    }

    /// This becomes equal to the other, which has as many tasks. No memory is taken.
    pub fn copy_from(&mut self, other: &Self)
        requires { self.old.tasks ≡ other.now.tasks }
        ensures { self.new ≡ other.now }
    {
        self.tick = other.tick;
        self.turn = other.turn;
        self.lists.copy_from(&other.lists);
    }

    /// Whether all that can be seen of the two is equal, whichever list is this turn's.
    pub fn same(&self, other: &Self) -> bool
        ensures { IsTrue result ↔ (but_for_turn self.now ≡ but_for_turn other.now) }
    {
        // Nested, so that each test is proved where those before it hold.
        self.tasks == other.tasks && (self.tick == other.tick && self.has_same_entries(other))
    }

    /// The tick count, in ticks.
    pub fn tick(&self) -> u32
        ensures { result ≡ self.now.tick }
    {
        self.tick
    }

    /// Which of the two lists is this turn's of the tick count: 0 or 1.
    pub fn turn(&self) -> u32
        ensures turn { result ≡ self.now.turn }
        ensures below { result < 2 }
    {
        self.turn
    }

    /// The waiting tasks in two lists, each task with its wake as its key. The list of the number
    /// `turn` has those that wake before the tick count wraps; with the other one after it, all
    /// stand by ticks left and then in the order in which they began to wait.
    pub fn lists(&self) -> &Lists
        ensures { AreInTurn result.now self.now }
    {
        &self.lists
    }

    /// The ticks that are left to the wake of the task; none where it doesn't wait.
    pub fn left(&self, task: u32) -> Option<u32>
        requires { task < self.now.tasks }
        ensures { result ≡ left_in task self.now.delayed }
    {
        match self.lists.key_of(task) {
            Some(wake) => Some(wake.wrapping_sub(self.tick)),
            None => None,
        }
    }

    /// The task waits for so many ticks, after those that wait as long or shorter.
    pub fn delay(&mut self, task: u32, ticks: u32)
        requires task { task < self.old.tasks }
        requires free { is_delayed task self.old.delayed ≡ false }
        requires some { 0 < ticks }
        ensures { self.new ≡ delayed_for task ticks self.old }
    {
        let wake = self.tick.wrapping_add(ticks);
        let list = if wake < self.tick {
            1 - self.turn
        } else {
            self.turn
        };
        self.lists.insert_sorted(list, task, wake);
    }
    /// The task waits until its wake, which is `inc` ticks after the last one, where that lies
    /// ahead of the tick count. Returns whether it does, and the wake, a tick count. Where it
    /// doesn't, nothing changes.
    #[tactic(auto, unfolding(crate::specs::Parts::until_delayed))]
    pub fn delay_until(&mut self, task: u32, prev: u32, inc: u32) -> (bool, u32)
        requires task { task < self.old.tasks }
        requires free { is_delayed task self.old.delayed ≡ false }
        ensures { (result, self.new) ≡ until_delayed task prev inc self.old }
    {
        let wake = next_wake(prev, inc);
        let waits = is_ahead(self.tick, prev, wake);
        if waits {
            self.delay(task, wake.wrapping_sub(self.tick));
        }
        (waits, wake)
    }

    /// The task waits no more.
    pub fn cancel(&mut self, task: u32)
        requires { task < self.old.tasks }
        ensures { self.new ≡ record self.old { delayed = without_delay task self.old.delayed } }
    {
        self.lists.remove(task);
    }

    /// One tick passes, when no task has waited long enough before. The tick count wraps, and the
    /// lists change places where it does.
    pub fn advance(&mut self)
        requires { due_tasks self.old.delayed ≡ [] }
        ensures { self.new ≡ advanced self.old }
    {
        self.tick = self.tick.wrapping_add(1);
        if self.tick == 0 {
            self.turn = 1 - self.turn;
        }
    }

    /// The first of the tasks that have waited long enough, which waits no more; none where there
    /// is none.
    pub fn pop_due(&mut self) -> Option<u32>
        ensures first { MatchOption result (due_tasks self.old.delayed ≡ [])
            (λ task. due_tasks self.old.delayed ≡ task ∷ due_tasks self.new.delayed) }
        ensures entry { MatchOption result (self.new ≡ self.old)
            (λ task. self.new ≡ record self.old { delayed = without_delay task self.old.delayed }) }
        ensures task { IfSome result (λ task. task < self.old.tasks) }
    {
        let task = self.first_due()?;
        self.cancel(task);
        Some(task)
    }

    // No task of the other list is due, and in this one none before the first.
    fn first_due(&self) -> Option<u32>
        ensures first { MatchOption result (due_tasks self.now.delayed ≡ [])
            (λ task. due_tasks self.now.delayed
            ≡ task ∷ due_tasks (without_delay task self.now.delayed)) }
        ensures task { IfSome result (λ task. task < self.now.tasks) }
    {
        let task = self.lists.first(self.turn)?;
        match self.left(task) {
            Some(0) => Some(task),
            _ => None,
        }
    }

    fn has_same_entries(&self, other: &Self) -> bool
        requires { self.now.tick ≡ other.now.tick }
        ensures { IsTrue result ↔ (self.now.delayed ≡ other.now.delayed) }
    {
        let this = self
            .lists
            .has_same_entries(self.turn, &other.lists, other.turn);
        let next = self
            .lists
            .has_same_entries(1 - self.turn, &other.lists, 1 - other.turn);
        this && next
    }
}
