//! The edits that a store makes and refuses, and its meter.
use crate::samples::{
    Opened, SWITCH_0, SWITCH_1, assert_replay, assert_same, between, make_edit, refuse_edit,
    three_tasks, ticks,
};
use Reply::Done;
use bench_types::{Call, Edit, EditFault, Fault, MAX_STEPS, Refusal, Reply, Step};
use session_store::StoreFault;
use std::alloc::Global;
use std::process::Abort;
use std::test::Fail;

const NOT_DUE: Reply = Reply::Refused(Refusal::NotDue);

pub(crate) const A_YIELDS: Step = Step::Call {
    core: 0,
    task: 2,
    call: Call::Yield,
};

pub(crate) fn insert(at: u32, step: Step) -> Edit {
    Edit::Insert { at, step }
}

pub(crate) fn replace(at: u32, step: Step) -> Edit {
    Edit::Replace { at, step }
}

/// The task has the priority from the start, and may run on both cores.
macro_rules! change {
    ($task:expr, $priority:expr) => {
        Edit::ChangeTask {
            task: $task,
            priority: $priority,
            mask: 3,
        }
    };
}

pub(crate) use change;

#[test]
fn refuses_edits_and_stays(rt: HostRuntime) -> Result<(), Fail> {
    let mut opened = Opened::new(&rt, false, &[Step::Tick, SWITCH_1])?;
    check_refusals(&rt, rt.alloc(), &mut opened);
    Ok(())
}

/// The switch of a core that is not there.
const BAD: Step = Step::Switch { core: 2 };

const BAD_CORE: EditFault = EditFault::Bench(Fault::BadCore);

const REFUSED: [(Edit, EditFault); 7] = [
    (
        Edit::Insert {
            at: 3,
            step: Step::Tick,
        },
        EditFault::NoPlace,
    ),
    (Edit::Remove { at: 2 }, EditFault::NoPlace),
    (
        Edit::Replace {
            at: 2,
            step: Step::Tick,
        },
        EditFault::NoPlace,
    ),
    (Edit::Insert { at: 3, step: BAD }, BAD_CORE),
    (Edit::Replace { at: 0, step: BAD }, BAD_CORE),
    (change!(1, 5), EditFault::Bench(Fault::BadTask)),
    (change!(2, 5), EditFault::Bench(Fault::BadHeader)),
];

fn check_refusals(rt: &impl Abort, alloc: Global, opened: &mut Opened) {
    for (edit, why) in &REFUSED {
        refuse_edit(rt, alloc, opened, *edit, *why);
        assert_replay(rt, &opened.store, &[Done, NOT_DUE], [2, 3]);
    }
}

#[test]
fn keeps_the_most_steps_and_no_more(rt: HostRuntime) -> Result<(), Fail> {
    let header = three_tasks(rt.alloc(), 2, false)?;
    let mut opened = Opened::of(&rt, header, ticks(rt.alloc(), MAX_STEPS)?, 64)?;
    check_fullness(&rt, rt.alloc(), &mut opened);
    Ok(())
}

/// Places where no tick can be put in, and why.
const FULL: [(u32, EditFault); 4] = [
    (0, EditFault::TooLong),
    (MAX_STEPS, EditFault::TooLong),
    (MAX_STEPS + 1, EditFault::NoPlace),
    (u32::MAX, EditFault::NoPlace),
];

fn check_fullness(rt: &impl Abort, alloc: Global, opened: &mut Opened) {
    for (at, why) in &FULL {
        refuse_edit(rt, alloc, opened, insert(*at, Step::Tick), *why);
    }
    let last = MAX_STEPS - 1;
    let from = last - last % 64;
    make_edit(
        rt,
        alloc,
        opened,
        &(replace(last, SWITCH_0), from, MAX_STEPS),
    );
    assert_same(rt, "steps", &opened.store.len(), &MAX_STEPS);
    assert_same(rt, "last reply", &opened.store.reply(last), &Some(NOT_DUE));
}

/// With `rt try --test --fail-alloc N` the Nth allocation fails, for some N one of the two calls.
#[test]
fn stays_where_memory_is_wanting(rt: HostRuntime) -> Result<(), Fail> {
    let mut opened = Opened::new(&rt, false, &[Step::Tick, SWITCH_1])?;
    assert_replay(&rt, &opened.store, &[Done, NOT_DUE], [2, 3]);
    remove_first(&rt, rt.alloc(), &mut opened);
    insert_one(&rt, rt.alloc(), &mut opened);
    Ok(())
}

fn remove_first(rt: &impl Abort, alloc: Global, opened: &mut Opened) {
    let edit = Edit::Remove { at: 0 };
    let replies = match opened.store.apply(alloc, edit, &mut opened.meter) {
        Ok(_) => [NOT_DUE].as_slice(),
        Err(_) => [Done, NOT_DUE].as_slice(),
    };
    assert_replay(rt, &opened.store, replies, [2, 3]);
}

fn insert_one(rt: &impl Abort, alloc: Global, opened: &mut Opened) {
    let before = opened.store.len();
    let made = opened
        .store
        .apply(alloc, insert(0, SWITCH_1), &mut opened.meter);
    match made {
        Ok(outcome) => assert_same(rt, "outcome", &outcome, &between(0, before + 1)),
        Err(fault) => assert_same(rt, "fault", &fault, &StoreFault::NoMemory),
    }
    assert_same(
        rt,
        "steps",
        &opened.store.len(),
        &(before + u32::from(made.is_ok())),
    );
}
