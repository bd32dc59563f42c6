//! The calls of an edited session with their works, and its steps from outside.
ghost use Rattle.std.specs.Prelude.{◌≡◌, ◌+◌, ◌<◌, ◌≤◌, ◌^◌, ◌++◌, All, IfOk, OnOk, OnErr, fold, length, map, true};
ghost use Rattle.bench_types.specs.Limits.{max_steps};
ghost use Rattle.bench_types.specs.Step.{settings_of};
ghost use Rattle.list_orders.specs.Search.{numbers};
ghost use Rattle.kept_runs.specs.Clocks.{Clocks, elapsed, is_before, later_clock, zero_clock};
ghost use Rattle.kept_runs.specs.Items.{edited_items};
ghost use Rattle.kept_runs.specs.Works.{changed_work, outside_steps, unmade_calls, works_from};
ghost use Rattle.keeping.specs.Progress.{IsComing};
ghost use Rattle.keeping.specs.Works.{IsUnmade};
ghost use Rattle.session_runs.specs.Run.{IsRunOf};
ghost use Rattle.smp_kernel.specs.Counting.{meter_after, CountsUpTo};
ghost use Rattle.kept_works.specs.Asked.{clock_of};
ghost use Rattle.kept_works.specs.Items.{AreItems};
ghost use Rattle.kept_edits.specs.Edits.{IsKeptEdit};
ghost use Rattle.kept_works.specs.Works.{asked_ends, asked_item, ends_from, is_joined, outsides, placed_by, AreCallsOf, AreEnds, HasPlace, HasTask, IsSmallWork};

use crate::asked::{Asked, asked_clocks};
use crate::items::{Item, edited_items};
use crate::places::settled_places;
use crate::steps::{comes_from_outside, is_pass, is_tick, waiting_call};
use crate::walk::NO_WORK;
use bench_types::{CheckedSession, Step};
use kept_edits::{KeptEdit, WorkChange};
use kept_runs::{Clock, Outside, Unmade};
use session_runs::Run;
use smp_kernel::Meter;
use std::alloc::{AllocError, Global};

/// What a run that keeps work is made of.
#[derive(Debug, Drop)]
pub struct KeptWorks {
    /// The calls of the edited session with their works, and behind them the ends of the tasks.
    pub unmade: Vec<Unmade>,
    /// Its steps from outside.
    pub outside: Vec<Outside>,
}

// Whether one clock says less than another.
#[tactic(auto, unfolding(kept_runs::specs::Clocks::is_before))]
fn is_before(one: Clock, other: Clock) -> bool
    ensures { result ≡ is_before one other }
{
    one.units < other.units || (one.units == other.units && one.later < other.later)
}

// The one of two clocks that says more.
fn later_clock(one: Clock, other: Clock) -> Clock
    ensures { result ≡ later_clock one other }
{
    if is_before(one, other) { other } else { one }
}

// What elapsed from one clock to another; nothing to one that says no more.
#[tactic(auto, unfolding(kept_runs::specs::Clocks::elapsed))]
fn elapsed(from: Clock, to: Clock) -> Clock
    ensures elapsed { result ≡ elapsed from to }
    ensures short { result.units ≤ to.units }
{
    if from.units < to.units {
        Clock {
            units: to.units - from.units,
            later: to.later,
        }
    } else if from.units == to.units {
        Clock {
            units: 0,
            later: to.later.saturating_sub(from.later),
        }
    } else {
        NO_WORK
    }
}

// The longest work that a change makes, in units.
const MOST_WORK: u64 = (1 << 63) - 1;

// So many units more, or fewer.
fn changed_work(work: Clock, change: WorkChange) -> Clock
    requires { work.units < 2 ^ 63 }
    ensures work { result ≡ changed_work work change }
    ensures small { result.units < 2 ^ 63 }
{
    let units = match change {
        WorkChange::More(units) => (work.units + u64::from(units)).min(MOST_WORK),
        WorkChange::Fewer(units) => work.units.saturating_sub(u64::from(units)),
    };
    Clock { units, later: 0 }
}

// The work with the changes, one after another.
fn with_changes(work: Clock, changes: &[WorkChange]) -> Clock
    requires { work.units < 2 ^ 63 }
    ensures { result ≡ fold changed_work work changes.now }
{
    let mut work = work;
    for change in changes {
        work = changed_work(work, *change);
    }
    work
}

// Whether the last unit of the tick went by right before it at the place.
fn is_joined(step: &Step, settled: &[Step], place: u32) -> bool
    requires { place ≤ length settled.now }
    ensures { result ≡ is_joined settled.now place step.now }
{
    is_tick(step) && place > 0 && is_pass(&settled[place as usize - 1])
}

// The steps from outside of an edited list, by the places of the document's steps.
fn outside_steps(
    alloc: Global,
    settled: &[Step],
    places: &[u32],
    items: &[Item],
) -> Result<Vec<Outside>, AllocError>
    requires places { All (λ place. place ≤ length settled.now) places.now }
    requires anchors { All (HasPlace places.now) items.now }
    ensures { IfOk result
        (λ outside. outside.items ≡ outsides settled.now places.now items.now) }
{
    let mut outside = Vec::new(alloc);
    for item in items {
        let step = item.step();
        if comes_from_outside(&step) {
            let joined = is_joined(&step, settled, places[item.anchor() as usize]);
            outside.push(Outside { step, joined })?;
        }
    }
    Ok(outside)
}

// The clock of a call's task at its place is asked for; for another step any.
fn asked_item(places: &[u32], item: &Item) -> Asked
    requires { HasPlace places.now item.now }
    ensures { result ≡ asked_item places.now item.now }
{
    match waiting_call(&item.step()) {
        Some(waits) => Asked {
            task: waits.task,
            place: places[item.anchor() as usize],
        },
        None => Asked { task: 0, place: 0 },
    }
}

// What is asked for each step of the list.
fn asked_of_items(alloc: Global, places: &[u32], items: &[Item]) -> Result<Vec<Asked>, AllocError>
    requires { All (HasPlace places.now) items.now }
    ensures { IfOk result (λ asked. asked.items ≡ map (asked_item places.now) items.now) }
{
    let mut asked = Vec::with_capacity(alloc, items.len())?;
    for item in items {
        asked.push(asked_item(places, item))?;
    }
    Ok(asked)
}

// Behind that the clocks of so many user tasks at the end.
fn ask_ends(asked: &mut Vec<Asked>, cores: u32, users: u32, end: u32) -> Result<(), AllocError>
    requires { cores + users < 2 ^ 32 }
    ensures { OnOk result (asked.new.items ≡ asked.old.items ++ asked_ends cores users end) }
{
    for user in 0..users {
        asked.push(Asked {
            task: cores + user,
            place: end,
        })?;
    }
    Ok(())
}

// The calls of the list with their works. The first clocks are those of the steps of the list, and
// the last of each task become those at its last call.
fn push_calls(
    unmade: &mut Vec<Unmade>,
    items: &[Item],
    clocks: &[Clock],
    last: &mut [Clock],
) -> Result<(), AllocError>
    requires many { length items.now ≤ length clocks.now }
    requires tasks { All (HasTask (length last.old)) items.now }
    requires small { All IsSmallWork clocks.now }
    ensures many { length last.new ≡ length last.old }
    ensures works { OnOk result
        (AreCallsOf items.now clocks.now last.old unmade.old.items last.new unmade.new.items) }
{
    for (index, item) in items.iter().enumerate() {
        if let Some(waits) = waiting_call(&item.step()) {
            let task = waits.task as usize;
            let work = elapsed(last[task], clocks[index]);
            unmade.push(Unmade {
                task: waits.task,
                call: Some(waits.call),
                work: with_changes(work, item.changes()),
            })?;
            last[task] = later_clock(last[task], clocks[index]);
        }
    }
    Ok(())
}

// The ends of the tasks from one on, which have these clocks.
fn push_ends(
    unmade: &mut Vec<Unmade>,
    cores: u32,
    ends: &[Clock],
    last: &[Clock],
) -> Result<(), AllocError>
    requires tasks { length last.now ≡ cores + length ends.now }
    requires few { length last.now < 2 ^ 32 }
    ensures { OnOk result
        (unmade.new.items ≡ unmade.old.items ++ ends_from cores ends.now last.now) }
{
    for (user, clock) in ends.iter().enumerate() {
        let task = cores + user as u32;
        unmade.push(Unmade {
            task,
            call: None,
            work: elapsed(last[task as usize], *clock),
        })?;
    }
    Ok(())
}

// The calls of the list with their works, and behind them the ends of the user tasks. The clocks
// are those of the steps of the list, and behind them those of the ends.
fn unmade_calls(
    alloc: Global,
    cores: u32,
    users: u32,
    items: &[Item],
    clocks: &[Clock],
) -> Result<Vec<Unmade>, AllocError>
    requires many { length clocks.now ≡ length items.now + users }
    requires tasks { All (HasTask (cores + users)) items.now }
    requires few_tasks { cores + users < 2 ^ 32 }
    requires small { All IsSmallWork clocks.now }
    ensures { IfOk result
        (λ unmade. (ends : Clocks) → AreEnds cores (length items.now) clocks.now ends
        → unmade.items
        ≡ works_from ends (λ task. zero_clock) (map (λ user. cores + user) (numbers users))
        (placed_by clocks.now items.now)) }
{
    let mut unmade = Vec::new(alloc);
    let mut last = vec![in alloc; NO_WORK; (cores + users) as usize]?;
    push_calls(&mut unmade, items, clocks, last.as_mut_slice())?;
    push_ends(&mut unmade, cores, &clocks[items.len()..], last.as_slice())?;
    Ok(unmade)
}

// The clocks of the steps of the list, and behind them those of the user tasks at the end.
fn clocks_of(
    alloc: Global,
    settled: &CheckedSession,
    places: &[u32],
    items: &[Item],
    meter: &mut Meter,
) -> Result<Vec<Clock>, AllocError>
    requires places { All (λ place. place ≤ length settled.now.steps) places.now }
    requires anchors { All (HasPlace places.now) items.now }
    requires tasks { All (HasTask (settings_of settled.now.header).tasks) items.now }
    requires few { length items.now ≤ max_steps }
    ensures clocks { IfOk result
        (λ clocks. clocks.items
        ≡ map (clock_of settled.now)
        (map (asked_item places.now) items.now
        ++ asked_ends settled.now.header.config.cores (length settled.now.header.tasks)
        (length settled.now.steps))) }
    ensures small { IfOk result (λ clocks. All IsSmallWork clocks.items) }
    ensures counted { OnOk result
        (meter.new ≡ meter_after (length settled.now.steps) meter.old) }
    ensures uncounted { OnErr result (meter.new ≡ meter.old) }
{
    let header = settled.header();
    let users = header.tasks.as_slice().len() as u32;
    let end = settled.steps().len() as u32;
    let mut asked = asked_of_items(alloc, places, items)?;
    ask_ends(&mut asked, header.config.cores, users, end)?;
    asked_clocks(alloc, settled, asked.as_slice(), meter)
}

/// The calls of the edited session, each with how long its task works for it by the settled run of
/// the session before the edits, and its steps from outside. The meter counts the steps of the
/// settled run.
pub fn kept_works(
    alloc: Global,
    session: &CheckedSession,
    edits: &[KeptEdit],
    settled: &Run,
    meter: &mut Meter,
) -> Result<KeptWorks, AllocError>
    requires edits { All (IsKeptEdit session.now.header) edits.now }
    requires settled { IsRunOf true session.now settled.now }
    ensures unmade { IfOk result
        (λ works. works.unmade.items
        ≡ unmade_calls session.now settled.now.session.steps
        (edited_items session.now edits.now)) }
    ensures outside { IfOk result
        (λ works. works.outside.items
        ≡ outside_steps session.now settled.now.session.steps
        (edited_items session.now edits.now)) }
    // They are fit for a run of the edited session.
    ensures fit { IfOk result
        (λ works. All (IsUnmade (settings_of session.now.header)) works.unmade.items) }
    ensures few { IfOk result (λ works. length works.unmade.items < 2 ^ 32) }
    ensures comings { IfOk result
        (λ works. All (IsComing (settings_of session.now.header)) works.outside.items) }
    ensures counted { OnOk result
        (meter.new ≡ meter_after (length settled.now.session.steps) meter.old) }
    ensures some { OnErr result (CountsUpTo max_steps meter.old meter.new) }
{
    let header = session.header();
    let cores = header.config.cores;
    let users = header.tasks.as_slice().len() as u32;
    let run = settled.session();
    let items = edited_items(alloc, session, edits)?;
    let places = settled_places(alloc, cores + users, session.steps(), run.steps())?;
    let outside = outside_steps(alloc, run.steps(), places.as_slice(), items.as_slice())?;
    let clocks = clocks_of(alloc, run, places.as_slice(), items.as_slice(), meter)?;
    let unmade = unmade_calls(alloc, cores, users, items.as_slice(), clocks.as_slice())?;
    Ok(KeptWorks { unmade, outside })
}
