//! Delays at another tick count: those that are so many ticks later, and whether two are equal but
//! for it.
ghost use Rattle.std.specs.Prelude.{◌≡◌, ◌↔◌, ℕ, ◌+◌, ◌<◌, length, map, drop, slice_index, IfSome, IsTrue};
ghost use Rattle.list_orders.specs.Listings.{IsListing};
ghost use Rattle.tick_delay.specs.Later.{all_later, first_later, first_ones_later, turns_stay};
ghost use Rattle.tick_delay.specs.Parts.{but_for_time, shifted_delays, first_task};

use super::Delays;
use index_lists::Lists;

impl Delays {
    /// Whether all that can be seen of the two but the tick counts is equal, whichever list is this
    /// turn's: the same tasks wait in the same order, each for as many ticks.
    pub fn same_shifted(&self, other: &Self) -> bool
        ensures { IsTrue result ↔ (but_for_time self.now ≡ but_for_time other.now) }
    {
        // Nested, so that the second test is proved where the first holds.
        self.tasks == other.tasks && self.has_same_waits(other)
    }

    /// The tick count is so many ticks later, and wraps. Each waiting task wakes so many ticks
    /// later too, so its ticks left stay. No memory is taken.
    pub fn shift(&mut self, by: u32)
        ensures { self.new ≡ shifted_delays by self.old }
    {
        self.tick = self.tick.wrapping_add(by);
        let later = Later {
            by,
            tick: self.tick,
            turn: self.turn,
        };
        if turns_stay(&self.lists, later) {
            self.lists.raise_keys(by);
        } else {
            make_all_later(&mut self.lists, later);
        }
    }

    // Whether the same tasks wait in the same order, each for as many ticks.
    fn has_same_waits(&self, other: &Self) -> bool
        requires { self.now.tasks ≡ other.now.tasks }
        ensures { IsTrue result ↔ (self.now.delayed ≡ other.now.delayed) }
    {
        let mut mine = self.first_waiting();
        let mut theirs = other.first_waiting();
        for _place in 0..self.tasks {
            if mine != theirs {
                return false;
            }
            let Some(task) = mine else {
                return true;
            };
            if self.left(task) != other.left(task) {
                return false;
            }
            mine = self.waiting_after(task);
            theirs = other.waiting_after(task);
        }
        true
    }

    // The waiting task with the fewest ticks left, the first where several have as many.
    fn first_waiting(&self) -> Option<u32>
        ensures first { result ≡ first_task self.now.delayed }
        ensures task { IfSome result (λ task. task < self.now.tasks) }
        ensures each { IsListing self.now.tasks (map (λ entry. entry.task) self.now.delayed) }
    {
        match self.lists.first(self.turn) {
            Some(task) => Some(task),
            None => self.lists.first(1 - self.turn),
        }
    }

    // The waiting task that stands right after this one, which waits.
    fn waiting_after(&self, task: u32) -> Option<u32>
        requires { task < self.now.tasks }
        ensures next { (k : ℕ) → k < length self.now.delayed
            → slice_index (map (λ entry. entry.task) self.now.delayed) k ≡ task
            → result ≡ first_task (drop (k + 1) self.now.delayed) }
        ensures task { IfSome result (λ task. task < self.now.tasks) }
    {
        match self.lists.next(task) {
            Some(next) => Some(next),
            None if self.lists.list_of(task) == Some(self.turn) => self.lists.first(1 - self.turn),
            None => None,
        }
    }
}

/// A tick count, and how many ticks later it is than an old one.
#[derive(Clone, Copy)]
struct Later {
    by: u32,
    tick: u32,
    /// The list of the tasks that wake before the tick count wraps.
    turn: u32,
}

// Whether each task with its later wake stands in the list in which it stands. The lists are in the
// order of wakes, so their ends tell.
fn turns_stay(lists: &Lists, later: Later) -> bool
    requires two { length lists.now.lists ≡ 2 }
    requires turn { later.turn < 2 }
    ensures { result ≡ turns_stay later.by later.tick later.turn lists.now }
{
    let this = match lists.last_entry(later.turn) {
        Some((_, wake)) => later.tick <= wake.wrapping_add(later.by),
        None => true,
    };
    let next = match lists.first_entry(1 - later.turn) {
        Some((_, wake)) => wake.wrapping_add(later.by) < later.tick,
        None => true,
    };
    this && next
}

// Each task wakes later, those of this turn first.
fn make_all_later(lists: &mut Lists, later: Later)
    requires two { length lists.old.lists ≡ 2 }
    requires turn { later.turn < 2 }
    ensures { lists.new ≡ all_later later.by later.tick later.turn lists.old }
{
    let this = lists.len(later.turn);
    let next = lists.len(1 - later.turn);
    make_later(lists, later.turn, this, later);
    make_later(lists, 1 - later.turn, next, later);
}

// So many of the first tasks of the list wake later.
fn make_later(lists: &mut Lists, list: u32, count: u32, later: Later)
    requires two { length lists.old.lists ≡ 2 }
    requires turn { later.turn < 2 }
    requires list { list < 2 }
    ensures { lists.new ≡ first_ones_later later.by later.tick later.turn list count lists.old }
{
    for _place in 0..count {
        make_first_later(lists, list, later);
    }
}

// The first task of the list goes to the end of the one in which it stands with its later wake.
#[tactic(auto, unfolding(crate::specs::Later::first_later))]
fn make_first_later(lists: &mut Lists, list: u32, later: Later)
    requires two { length lists.old.lists ≡ 2 }
    requires turn { later.turn < 2 }
    requires list { list < 2 }
    ensures { lists.new ≡ first_later later.by later.tick later.turn list lists.old }
{
    if let Some((task, wake)) = lists.pop_first(list) {
        let wake = wake.wrapping_add(later.by);
        let home = if wake < later.tick {
            1 - later.turn
        } else {
            later.turn
        };
        lists.push_keyed(home, task, wake);
    }
}
