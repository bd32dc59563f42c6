//! Edited stores against stores that are opened on the sessions that they have then: random
//! sessions, with edits at random.
use crate::random::{Mix, Played, number, random_session};
use crate::samples::{Opened, assert_at, assert_edit, assert_same, assert_tallies, tallies_text};
use bench_types::{Edit, Step};
use session_store::{Outcome, Store};
use smp_kernel::Kernel;
use std::alloc::Global;
use std::process::Abort;
use std::test::Fail;

/// The store shows at each place what one shows that is opened on its session.
pub(crate) fn check_as_new(
    rt: &impl Abort,
    host: &HostRuntime,
    opened: &mut Opened,
) -> Result<(), Fail> {
    let steps = steps_of(host.alloc(), &opened.store)?;
    check_against(rt, host, opened, &steps)
}

fn steps_of(alloc: Global, store: &Store) -> Result<Vec<Step>, Fail> {
    let mut steps = Vec::with_capacity(alloc, store.len() as usize)?;
    for i in 0..store.len() {
        match store.step(i) {
            Some(step) => steps.push(step)?,
            None => return Err(Fail::new("a step is missing")),
        }
    }
    Ok(steps)
}

// The store has these steps, and shows at each place what one shows that is opened on them.
fn check_against(
    rt: &impl Abort,
    host: &HostRuntime,
    opened: &mut Opened,
    steps: &[Step],
) -> Result<(), Fail> {
    let mut anew = opened_anew(host, &opened.store, steps)?;
    check_places(rt, host.alloc(), opened, &mut anew)?;
    check_tallies(rt, host.alloc(), &opened.store, &anew.store)
}

fn opened_anew(host: &HostRuntime, store: &Store, steps: &[Step]) -> Result<Opened, Fail> {
    Opened::with(host, store.header().copy(host.alloc())?, steps, 1_000)
}

fn check_places(
    rt: &impl Abort,
    alloc: Global,
    opened: &mut Opened,
    anew: &mut Opened,
) -> Result<(), Fail> {
    assert_same(rt, "steps", &opened.store.len(), &anew.store.len());
    for place in 0..=opened.store.len() {
        check_place(rt, alloc, &opened.store, &anew.store, place)?;
        check_state(rt, alloc, opened, anew, place)?;
    }
    Ok(())
}

fn check_place(
    rt: &impl Abort,
    alloc: Global,
    store: &Store,
    anew: &Store,
    place: u32,
) -> Result<(), Fail> {
    assert_at(rt, "step", place, &store.step(place), &anew.step(place));
    assert_at(rt, "reply", place, &store.reply(place), &anew.reply(place));
    check_rows(rt, alloc, store, anew, place)
}

fn check_rows(
    rt: &impl Abort,
    alloc: Global,
    store: &Store,
    anew: &Store,
    place: u32,
) -> Result<(), Fail> {
    let (row, wanted) = (store.row(alloc, place)?, anew.row(alloc, place)?);
    assert_at(rt, "row at place", place, &(row == wanted), &true);
    Ok(())
}

fn check_state(
    rt: &impl Abort,
    alloc: Global,
    opened: &mut Opened,
    anew: &mut Opened,
    place: u32,
) -> Result<(), Fail> {
    let kernel = state_of(alloc, opened, place)?;
    check_kernel(rt, alloc, &kernel, anew, place)
}

// Apart from the one before, since each kernel is dear to drop at each way out.
fn check_kernel(
    rt: &impl Abort,
    alloc: Global,
    kernel: &Kernel,
    anew: &mut Opened,
    place: u32,
) -> Result<(), Fail> {
    let other = state_of(alloc, anew, place)?;
    assert_at(rt, "state at place", place, &kernel.same(&other), &true);
    Ok(())
}

fn state_of(alloc: Global, opened: &mut Opened, place: u32) -> Result<Kernel, Fail> {
    match opened.store.state(alloc, place, &mut opened.meter)? {
        Some(kernel) => Ok(kernel),
        None => Err(Fail::new("a place has no state")),
    }
}

fn check_tallies(rt: &impl Abort, alloc: Global, store: &Store, anew: &Store) -> Result<(), Fail> {
    let text = tallies_text(alloc, store)?;
    assert_tallies(rt, alloc, anew, &text)
}

#[test]
fn random_edits_by_some_spans(rt: HostRuntime) -> Result<(), Fail> {
    for mix in &[Mix::Notes(2), Mix::Mutexes, Mix::Holds, Mix::Suspensions] {
        check_mix(&rt, &rt, *mix)?;
    }
    Ok(())
}

fn check_mix(rt: &impl Abort, host: &HostRuntime, mix: Mix) -> Result<(), Fail> {
    let played = random_session(rt, host, 150, mix)?;
    for span in &[1, 2, 64] {
        check_span(rt, host, &played, *span)?;
    }
    Ok(())
}

fn check_span(rt: &impl Abort, host: &HostRuntime, played: &Played, span: u32) -> Result<(), Fail> {
    let mut opened = opened_with(host, played, span)?;
    let mut steps = Vec::from_slice(host.alloc(), &played.steps)?;
    edit_at_random(rt, host, &mut opened, &mut steps)
}

fn opened_with(host: &HostRuntime, played: &Played, span: u32) -> Result<Opened, Fail> {
    Opened::with(host, played.header.copy(host.alloc())?, &played.steps, span)
}

// The store is compared after every tenth edit.
fn edit_at_random(
    rt: &impl Abort,
    host: &HostRuntime,
    opened: &mut Opened,
    steps: &mut Vec<Step>,
) -> Result<(), Fail> {
    let mut seed = 1;
    for edits in 1..=30 {
        let edit = random_edit(&mut seed, steps);
        make_edit(rt, host.alloc(), opened, edit)?;
        edit_steps(rt, steps, edit)?;
        if edits % 10 == 0 {
            check_against(rt, host, opened, steps)?;
        }
    }
    Ok(())
}

// Some edit at one of the steps, or of some task. One step in two is a switch, which mostly is not
// due.
fn random_edit(seed: &mut u32, steps: &[Step]) -> Edit {
    let count = steps.len().clamp(1, 65_536) as u32;
    let at = number(seed) % count;
    let other = steps.get((number(seed) % count) as usize).copied();
    let switch = Step::Switch {
        core: number(seed) % 8,
    };
    let step = if number(seed) < 32_768 {
        switch
    } else {
        other.unwrap_or(switch)
    };
    match number(seed) % 8 {
        0..=2 => Edit::Insert { at, step },
        3..=4 => Edit::Remove { at },
        5..=6 => Edit::Replace { at, step },
        _ => random_change(seed),
    }
}

fn random_change(seed: &mut u32) -> Edit {
    Edit::ChangeTask {
        task: 8 + number(seed) % 64,
        priority: number(seed) % 5,
        mask: 1 << (number(seed) % 8),
    }
}

// The meter grows by what the edit replays.
fn make_edit(rt: &impl Abort, alloc: Global, opened: &mut Opened, edit: Edit) -> Result<(), Fail> {
    let count = opened.meter.count();
    let Outcome {
        from,
        met,
        replayed,
    } = opened.store.apply(alloc, edit, &mut opened.meter)?;
    assert_edit(rt, edit, &from.saturating_add(replayed), &met);
    let counted = count.saturating_add(u64::from(replayed));
    assert_edit(rt, edit, &opened.meter.count(), &counted);
    Ok(())
}

// What the edit makes of the steps.
fn edit_steps(rt: &impl Abort, steps: &mut Vec<Step>, edit: Edit) -> Result<(), Fail> {
    match edit {
        Edit::Insert { at, step } => {
            assert!(rt; at as usize <= steps.len());
            steps.insert(at as usize, step)?;
        }
        Edit::Remove { at } => {
            assert!(rt; (at as usize) < steps.len());
            steps.remove(at as usize);
        }
        Edit::Replace { at, step } => {
            assert!(rt; (at as usize) < steps.len());
            steps[at as usize] = step;
        }
        Edit::ChangeTask { .. } => {}
    }
    Ok(())
}
