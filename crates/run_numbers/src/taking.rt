//! What a step is to all subjects.
ghost use Rattle.std.specs.Prelude.{◌≡◌, ◌<◌, ◌≤◌, ◌+◌, ◌-◌, ◌^◌, ℕ, true, length, if◌then◌else◌};
ghost use Rattle.bench_model.specs.Control.{current};
ghost use Rattle.run_numbers.specs.declared.look.Look.{Look};
ghost use Rattle.task_jobs.specs.Crowds.{with_count};
ghost use Rattle.task_jobs.specs.Works.{HasRoom};
ghost use Rattle.run_numbers.specs.AfterStep.{is_it};
ghost use Rattle.run_numbers.specs.Counters.{past_of, took_in, HasRoomFor};
ghost use Rattle.run_numbers.specs.Looks.{look_of, IsKnown, IsLowest};
ghost use Rattle.run_numbers.specs.Progress.{counter_in, crowd_in, subject_in, work_in};
ghost use Rattle.run_numbers.specs.Taking.{row_at, AreLooked, AreTaken, HaveRoomIn, IsLooked, IsPlanOf, IsRowTaken, IsTakenAt, IsVisited, IsWhole};
ghost use Rattle.run_numbers.specs.Turns.{turn_in};
ghost use Rattle.run_numbers.specs.Taking.{AreTakers, AreTimesKept, AreTurned, IsTurnedAt, IsWorkedAt};

use crate::Subject;
use crate::counter::{Counter, Made};
use crate::look::{Look, is_known, look_of, lowest_of};
use crate::rows::{Span, row_of};
use crate::work::turn_of;
use task_jobs::{Crowd, Work};

/// Which subjects are counted in the runs of so many tasks, and where those of each row stand.
#[derive(Clone, Copy)]
pub(crate) struct Plan<'a> {
    pub(crate) tasks: u32,
    pub(crate) subjects: &'a [Subject],
    pub(crate) spans: &'a [Span],
}

// Counts what was made for the subject at the place, if it is of the row.
fn take_at(counters: &mut [Counter], plan: &Plan<'_>, row: u32, place: usize, made: &Made<'_>)
    requires size { length counters.old ≡ length plan.now.subjects.now }
    requires place { place < length plan.now.subjects.now }
    requires plan { IsPlanOf made.now.after.now.settings plan.now }
    requires whole { IsWhole made.now }
    requires room { row_at plan.now place ≡ row
        → HasRoomFor (past_of made.now) (subject_in plan.now.subjects.now place)
        (counter_in counters.old place) }
    ensures { IsTakenAt (took_in made.now) plan.now row place counters.old counters.new }
{
    let subject = plan.subjects[place];
    if row_of(plan.tasks, subject) == row {
        counters[place].take(made, subject);
    }
}

// Counts what was made for the subjects of the row.
fn take_row(counters: &mut [Counter], plan: &Plan<'_>, row: u32, made: &Made<'_>)
    requires size { length counters.old ≡ length plan.now.subjects.now }
    requires row { row ≤ plan.now.tasks }
    requires plan { IsPlanOf made.now.after.now.settings plan.now }
    requires whole { IsWhole made.now }
    requires room { HaveRoomIn (past_of made.now) plan.now row counters.old }
    ensures { IsRowTaken (took_in made.now) plan.now row counters.old counters.new }
{
    let Span { first, end } = plan.spans[row as usize];
    for place in first..end {
        take_at(counters, plan, row, place, made);
    }
}

// A task takes the mutex no more from now on.
fn leave(crowds: &mut [Crowd], mutex: Option<u32>, now: u64)
    requires { (k : ℕ) → k < length crowds.old → is_it mutex k ≡ true
        → 0 < (crowd_in crowds.old k).tasks }
    ensures { (k : ℕ) → k < length crowds.old
        → crowd_in crowds.new k
        ≡ (if is_it mutex k
        then with_count ((crowd_in crowds.old k).tasks - 1) now (crowd_in crowds.old k)
        else crowd_in crowds.old k) }
{
    let Some(mutex) = mutex else { return };
    if (mutex as usize) < crowds.len() {
        crowds[mutex as usize] = crowds[mutex as usize].left(now);
    }
}

// A task takes the mutex from now on.
fn join(crowds: &mut [Crowd], mutex: Option<u32>, now: u64)
    requires { (k : ℕ) → k < length crowds.old → is_it mutex k ≡ true
        → (crowd_in crowds.old k).tasks < 2 ^ 32 - 1 }
    ensures { (k : ℕ) → k < length crowds.old
        → crowd_in crowds.new k
        ≡ (if is_it mutex k
        then with_count ((crowd_in crowds.old k).tasks + 1) now (crowd_in crowds.old k)
        else crowd_in crowds.old k) }
{
    let Some(mutex) = mutex else { return };
    if (mutex as usize) < crowds.len() {
        crowds[mutex as usize] = crowds[mutex as usize].joined(now);
    }
}

// Adds what was made to the work of the task, and to the waits for the mutex that it takes.
fn work_on(works: &mut [Work], crowds: &mut [Crowd], task: u32, made: &Made<'_>)
    requires size { length works.old ≡ made.now.after.now.settings.tasks }
    requires task { task < length works.old }
    requires few { length works.old < 2 ^ 32 }
    requires room { HasRoom (work_in works.old task) }
    requires takers { AreTakers works.old crowds.old }
    ensures worked { IsWorkedAt made.now task works.old works.new }
    ensures takers { AreTakers works.new crowds.new }
    ensures times { AreTimesKept made.now.elapsed crowds.old crowds.new }
{
    let turn = turn_of(made, task);
    leave(crowds, works[task as usize].takes, made.elapsed);
    join(crowds, turn.takes, made.elapsed);
    works[task as usize].take_turn(&turn);
}

// Counts what was made for the subjects of the task, and adds it to its work, if more is not known
// of it already.
fn visit(
    counters: &mut [Counter],
    looks: &mut [Option<Look>],
    works: &mut [Work],
    crowds: &mut [Crowd],
    plan: &Plan<'_>,
    task: u32,
    lowest: u32,
    made: &Made<'_>,
)
    requires size { length counters.old ≡ length plan.now.subjects.now }
    requires looks { length looks.old ≡ plan.now.tasks }
    requires works { length works.old ≡ plan.now.tasks }
    requires few { plan.now.tasks < 2 ^ 32 }
    requires task { task < plan.now.tasks }
    requires low { lowest < plan.now.tasks }
    requires lowest { IsLowest made.now.after.now lowest }
    requires plan { IsPlanOf made.now.after.now.settings plan.now }
    requires whole { IsWhole made.now }
    requires room { HaveRoomIn (past_of made.now) plan.now task counters.old }
    requires work_room { HasRoom (work_in works.old task) }
    requires takers { AreTakers works.old crowds.old }
    ensures visited { IsVisited (took_in made.now)
        (IsKnown looks.old task (look_of made.now.after.now task)) plan.now task counters.old
        counters.new }
    ensures looked { IsLooked made.now.after.now task looks.old looks.new }
    ensures worked { IsTurnedAt made.now
        (IsKnown looks.old task (look_of made.now.after.now task)) task works.old works.new }
    ensures takers { AreTakers works.new crowds.new }
    ensures times { AreTimesKept made.now.elapsed crowds.old crowds.new }
{
    let look = look_of(made.after, task, lowest);
    if is_known(looks[task as usize], look) {
        return;
    }
    looks[task as usize] = Some(look);
    take_row(counters, plan, task, made);
    work_on(works, crowds, task, made);
}

/// Counts what was made for all subjects, and adds it to the work of all tasks, but for a task of
/// which as much is known.
pub(crate) fn take_all(
    counters: &mut [Counter],
    looks: &mut [Option<Look>],
    works: &mut [Work],
    crowds: &mut [Crowd],
    plan: &Plan<'_>,
    made: &Made<'_>,
)
    requires size { length counters.old ≡ length plan.now.subjects.now }
    requires looks { length looks.old ≡ plan.now.tasks }
    requires works { length works.old ≡ plan.now.tasks }
    requires few { plan.now.tasks < 2 ^ 32 }
    requires plan { IsPlanOf made.now.after.now.settings plan.now }
    requires whole { IsWhole made.now }
    requires room { (row : ℕ) → HaveRoomIn (past_of made.now) plan.now row counters.old }
    requires work_room { (task : ℕ) → task < plan.now.tasks → HasRoom (work_in works.old task) }
    requires takers { AreTakers works.old crowds.old }
    ensures taken { AreTaken (took_in made.now)
        (λ task. IsKnown looks.old task (look_of made.now.after.now task)) plan.now counters.old
        counters.new }
    ensures looked { AreLooked made.now.after.now looks.new }
    ensures worked { AreTurned (turn_in made.now)
        (λ task. IsKnown looks.old task (look_of made.now.after.now task)) plan.now.tasks
        works.old works.new }
    ensures takers { AreTakers works.new crowds.new }
    ensures times { AreTimesKept made.now.elapsed crowds.old crowds.new }
{
    let lowest = lowest_of(made.after);
    for task in 0..plan.tasks {
        visit(counters, looks, works, crowds, plan, task, lowest, made);
    }
    take_row(counters, plan, plan.tasks, made);
}
