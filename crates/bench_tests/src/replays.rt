//! What the kernel and the store show against the plain replay over the definitions.
ghost use Rattle.std.specs.Prelude.{◌≡◌, All, IsTrue, Ok};
ghost use Rattle.bench_types.specs.Step.{settings_of, step_check};

use crate::random::{Mix, Played, random_session};
use crate::samples::{Opened, assert_at, assert_is, assert_same};
use bench_types::{Edit, Header, MAX_NOTES, Reply, Row, Step};
use session_store::Store;
use slow_replay::replay_slow;
use std::alloc::Global;
use std::process::Abort;
use std::test::Fail;

fn is_checked(header: &Header, step: &Step) -> bool
    ensures { IsTrue result → step_check (settings_of header.now) step.now ≡ Ok tt }
{
    step.check(header).is_ok()
}

// Whether each step may stand under the header.
fn are_checked(header: &Header, steps: &[Step]) -> bool
    ensures { IsTrue result
        → All (λ step. step_check (settings_of header.now) step ≡ Ok tt) steps.now }
{
    steps.iter().all(|step| is_checked(header, step))
}

/// Each step may stand under the header, or the test fails.
pub(crate) fn need_checked(rt: &impl Abort, header: &Header, steps: &[Step])
    ensures { All (λ step. step_check (settings_of header.now) step ≡ Ok tt) steps.now }
{
    assert!(rt; are_checked(header, steps));
}

// The plain replay, of a session that has to be checked.
fn by_the_definitions(
    rt: &impl Abort,
    host: &HostRuntime,
    header: &Header,
    steps: &[Step],
) -> Result<Vec<(Reply, Row)>, Fail> {
    header.check()?;
    need_checked(rt, header, steps);
    let outcomes = replay_slow(host, host.alloc(), header, steps)?;
    assert_same(rt, "outcomes", &outcomes.len(), &steps.len());
    Ok(outcomes)
}

// The kernel's replies and current tasks are those of the definitions.
fn check_kernel(rt: &impl Abort, host: &HostRuntime, played: &Played) -> Result<(), Fail> {
    let outcomes = by_the_definitions(rt, host, &played.header, &played.steps)?;
    assert_same(rt, "outcomes", &outcomes.len(), &played.outcomes.len());
    for (made, outcome) in played.outcomes.iter().zip(&outcomes) {
        check_outcome(rt, made, outcome);
    }
    Ok(())
}

fn check_outcome(rt: &impl Abort, made: &(Reply, Row), outcome: &(Reply, Row)) {
    assert_same(rt, "outcome", made, outcome);
}

// Kernels are dear to drop, so one function does it for each mix.
fn check_random(rt: &impl Abort, host: &HostRuntime, mix: Mix) -> Result<(), Fail> {
    check_kernel(rt, host, &random_session(rt, host, 2000, mix)?)
}

#[test]
fn as_the_definitions_replay_it(rt: HostRuntime) -> Result<(), Fail> {
    check_random(&rt, &rt, Mix::Nothing)
}

#[test]
fn as_the_definitions_replay_sets(rt: HostRuntime) -> Result<(), Fail> {
    check_random(&rt, &rt, Mix::Sets)
}

#[test]
fn as_the_definitions_replay_notifications(rt: HostRuntime) -> Result<(), Fail> {
    check_random(&rt, &rt, Mix::Notes(1))
}

#[test]
fn as_the_definitions_replay_notification_arrays(rt: HostRuntime) -> Result<(), Fail> {
    for notes in 2..=MAX_NOTES {
        check_random(&rt, &rt, Mix::Notes(notes))?;
    }
    Ok(())
}

#[test]
fn as_the_definitions_replay_mutexes(rt: HostRuntime) -> Result<(), Fail> {
    check_random(&rt, &rt, Mix::Mutexes)
}

#[test]
fn as_the_definitions_replay_holds(rt: HostRuntime) -> Result<(), Fail> {
    check_random(&rt, &rt, Mix::Holds)
}

#[test]
fn as_the_definitions_replay_queues(rt: HostRuntime) -> Result<(), Fail> {
    check_random(&rt, &rt, Mix::Queues)
}

#[test]
fn as_the_definitions_replay_suspensions(rt: HostRuntime) -> Result<(), Fail> {
    check_random(&rt, &rt, Mix::Suspensions)
}

// The steps of the store are these, and their replies and current tasks those of the definitions.
pub(crate) fn check_store(
    rt: &impl Abort,
    host: &HostRuntime,
    store: &Store,
    steps: &[Step],
) -> Result<(), Fail> {
    let outcomes = by_the_definitions(rt, host, store.header(), steps)?;
    assert_eq!(rt; store.len() as usize, steps.len());
    for ((place, step), outcome) in steps.iter().enumerate().zip(&outcomes) {
        check_outcome_at(rt, host.alloc(), store, place as u32, *step, outcome)?;
    }
    Ok(())
}

fn check_outcome_at(
    rt: &impl Abort,
    alloc: Global,
    store: &Store,
    place: u32,
    step: Step,
    outcome: &(Reply, Row),
) -> Result<(), Fail> {
    let (reply, row) = outcome;
    check_step(rt, store, place, step, *reply);
    check_row(rt, alloc, store, place.saturating_add(1), row)
}

fn check_step(rt: &impl Abort, store: &Store, place: u32, step: Step, reply: Reply) {
    assert_at(rt, "step", place, &store.step(place), &Some(step));
    assert_at(rt, "reply", place, &store.reply(place), &Some(reply));
}

fn check_row(
    rt: &impl Abort,
    alloc: Global,
    store: &Store,
    place: u32,
    row: &Row,
) -> Result<(), Fail> {
    let shown = store.row(alloc, place)?;
    let is_same = shown.as_ref() == Some(row);
    assert_at(rt, "row at place", place, &is_same, &true);
    Ok(())
}

#[test]
fn an_edited_store_is_as_the_definitions_replay_it(rt: HostRuntime) -> Result<(), Fail> {
    let played = random_session(&rt, &rt, 200, Mix::Notes(3))?;
    check_edited(&rt, &rt, &played)
}

fn check_edited(rt: &impl Abort, host: &HostRuntime, played: &Played) -> Result<(), Fail> {
    let mut opened = opened_with(host, played)?;
    check_store(rt, host, &opened.store, &played.steps)?;
    make_edits(rt, host.alloc(), &mut opened);
    check_after_edits(rt, host, &opened.store, &played.steps)
}

fn check_after_edits(
    rt: &impl Abort,
    host: &HostRuntime,
    store: &Store,
    steps: &[Step],
) -> Result<(), Fail> {
    let steps = steps_after_edits(rt, host.alloc(), steps)?;
    check_store(rt, host, store, &steps)
}

const EDITS: [Edit; 3] = [
    Edit::Insert {
        at: 20,
        step: Step::Tick,
    },
    Edit::Remove { at: 80 },
    Edit::Replace {
        at: 140,
        step: Step::Switch { core: 3 },
    },
];

fn make_edits(rt: &impl Abort, alloc: Global, opened: &mut Opened) {
    for edit in &EDITS {
        let made = opened.store.apply(alloc, *edit, &mut opened.meter);
        assert_is(rt, "an edit", made.is_ok());
    }
}

fn opened_with(host: &HostRuntime, played: &Played) -> Result<Opened, Fail> {
    Opened::with(host, played.header.copy(host.alloc())?, &played.steps, 64)
}

// What the edits make of the steps.
fn steps_after_edits(rt: &impl Abort, alloc: Global, steps: &[Step]) -> Result<Vec<Step>, Fail> {
    let mut steps = Vec::from_slice(alloc, steps)?;
    assert_eq!(rt; steps.len(), 200);
    steps.insert(20, Step::Tick)?;
    steps.remove(80);
    steps[140] = Step::Switch { core: 3 };
    Ok(steps)
}
