//! What a store shows of the session that it was opened with, and what it refuses to open.
use crate::samples::{
    A_DELAYS, Opened, SWITCH_0, assert_at, assert_is, assert_replay, assert_row, assert_same,
    assert_steps, three_tasks, tick_at, ticks,
};
use bench_types::{Call, Fault, Header, Items, MAX_SPAN, MAX_STEPS, Reply, Step};
use session_store::{OpenFault, OpenRefusal, Results, Store};
use smp_kernel::Meter;
use std::alloc::Global;
use std::process::Abort;
use std::test::Fail;

const STEPS: [Step; 5] = [
    A_DELAYS,
    SWITCH_0,
    Step::Tick,
    Step::Call {
        core: 0,
        task: 4,
        call: Call::Yield,
    },
    SWITCH_0,
];

#[test]
fn shows_the_session_and_its_replay(rt: HostRuntime) -> Result<(), Fail> {
    let opened = Opened::new(&rt, false, &STEPS)?;
    assert_same(&rt, "steps", &opened.meter.count(), &5);
    check_shown(&rt, &opened.store);
    Ok(())
}

fn check_shown(rt: &impl Abort, store: &Store) {
    let done = Reply::Done;
    let replies = [Reply::Blocked, done, done, done, done];
    assert_replay(rt, store, replies.as_slice(), [4, 3]);
    for (place, row) in &[(0, [2, 3]), (1, [2, 3]), (2, [4, 3])] {
        assert_row(rt, store, *place, *row);
    }
    assert_steps(rt, store, STEPS.as_slice());
    let checkpoints = (store.checkpoint(0), store.checkpoint(1));
    assert_same(rt, "checkpoints", &checkpoints, &(Some(0), None));
    assert_same(rt, "tasks", &store.header().tasks.as_slice().len(), &3);
}

#[test]
fn gives_the_kernel_at_a_place(rt: HostRuntime) -> Result<(), Fail> {
    let mut opened = Opened::new(&rt, false, &[A_DELAYS, SWITCH_0, Step::Tick])?;
    check_places(&rt, rt.alloc(), &mut opened)
}

fn check_places(rt: &impl Abort, alloc: Global, opened: &mut Opened) -> Result<(), Fail> {
    for (place, tick, count) in &[
        (0, Some(0), 3),
        (2, Some(0), 5),
        (3, Some(1), 8),
        (4, None, 8),
    ] {
        let shown = tick_at(alloc, opened, *place)?;
        assert_at(rt, "tick at place", *place, &shown, tick);
        assert_at(rt, "count at place", *place, &opened.meter.count(), count);
    }
    Ok(())
}

#[test]
fn opens_with_each_span(rt: HostRuntime) -> Result<(), Fail> {
    check_span(&rt, &rt, 1)?;
    check_span(&rt, &rt, MAX_SPAN)
}

fn check_span(rt: &impl Abort, host: &HostRuntime, span: u32) -> Result<(), Fail> {
    let header = three_tasks(host.alloc(), 2, false)?;
    let opened = Opened::of(host, header, Vec::new(host.alloc()), span)?;
    assert_replay(rt, &opened.store, &[], [2, 3]);
    Ok(())
}

/// What is to be opened: so many of three tasks, so many ticks, and the steps after them. And why
/// it is refused, at which step.
#[derive(Clone, Copy)]
struct Case<'a> {
    tasks: usize,
    ticks: u32,
    steps: &'a [Step],
    span: u32,
    why: OpenRefusal,
    at: Option<u32>,
}

/// Of three tasks, no ticks and no steps, with a span that is one.
const EMPTY: Case<'static> = Case {
    tasks: 3,
    ticks: 0,
    steps: &[],
    span: 64,
    why: OpenRefusal::BadSpan,
    at: None,
};

/// One step more than a session may have.
const TOO_MANY: Case<'static> = Case {
    ticks: MAX_STEPS + 1,
    why: OpenRefusal::TooLong,
    ..EMPTY
};

const BAD_HEADER: OpenRefusal = OpenRefusal::Bench(Fault::BadHeader);

/// Of a core that is not there.
const BAD: Step = Step::Switch { core: 2 };

const REFUSED: [Case<'static>; 8] = [
    Case {
        tasks: 0,
        why: BAD_HEADER,
        ..EMPTY
    },
    Case {
        tasks: 0,
        span: 0,
        why: BAD_HEADER,
        ..TOO_MANY
    },
    Case { span: 0, ..EMPTY },
    Case {
        span: MAX_SPAN + 1,
        ..EMPTY
    },
    Case {
        span: 0,
        why: OpenRefusal::BadSpan,
        ..TOO_MANY
    },
    TOO_MANY,
    Case {
        steps: &[BAD, BAD],
        ..TOO_MANY
    },
    Case {
        steps: &[Step::Tick, BAD, BAD],
        why: OpenRefusal::Bench(Fault::BadCore),
        at: Some(1),
        ..EMPTY
    },
];

#[test]
fn refuses_what_is_no_session(rt: HostRuntime) -> Result<(), Fail> {
    let mut meter = Meter::new(&rt);
    for case in &REFUSED {
        let fault = refused(rt.alloc(), case, &mut meter)?;
        check_fault(&rt, case, &fault);
    }
    assert_same(&rt, "steps", &meter.count(), &0);
    Ok(())
}

fn check_fault(rt: &impl Abort, case: &Case<'_>, fault: &OpenFault) {
    let tasks = fault.header.tasks.as_slice().len();
    let (steps, given) = (
        fault.steps.as_slice().len(),
        case.ticks as usize + case.steps.len(),
    );
    assert_same(rt, "why", &fault.why, &case.why);
    assert_same(rt, "bad step", &fault.at, &case.at);
    assert_same(rt, "tasks", &tasks, &case.tasks);
    assert_same(rt, "steps", &steps, &given);
}

fn refused(alloc: Global, case: &Case<'_>, meter: &mut Meter) -> Result<OpenFault, Fail> {
    let header = first_tasks(three_tasks(alloc, 2, false)?, case.tasks);
    let steps = ticks_and(alloc, case.ticks, case.steps)?;
    match Store::<Results>::open(alloc, header, steps, case.span, meter) {
        Ok(_) => Err(Fail::new("opened")),
        Err(fault) => Ok(fault),
    }
}

fn first_tasks(header: Header, count: usize) -> Header {
    let Header {
        config,
        queues,
        tasks,
    } = header;
    let mut tasks = tasks.into_vec();
    tasks.truncate(count);
    Header {
        config,
        queues,
        tasks: Items::new(tasks),
    }
}

fn ticks_and(alloc: Global, count: u32, steps: &[Step]) -> Result<Vec<Step>, Fail> {
    let mut all = ticks(alloc, count)?;
    all.extend_from_slice(steps)?;
    Ok(all)
}

/// The current tasks at the start, and after each of the first two steps.
const ROWS: [[u32; 2]; 3] = [[2, 3], [2, 3], [4, 3]];

#[test]
fn a_row_goes_from_place_to_place(rt: HostRuntime) -> Result<(), Fail> {
    let opened = Opened::new(&rt, false, &STEPS)?;
    check_walk(&rt, rt.alloc(), &opened.store)
}

// A delay of A leaves it on its core, and the switch after it puts C there.
fn check_walk(rt: &impl Abort, alloc: Global, store: &Store) -> Result<(), Fail> {
    let steps = store.len();
    assert!(rt; steps > 1);
    let Some(mut row) = store.row(alloc, 0)? else {
        panic!(rt; "no start");
    };
    assert_same(rt, "start", &row.as_slice(), &ROWS[0].as_slice());
    assert_is(rt, "same tasks", !store.update_row(0, &mut row));
    assert_same(rt, "after a delay", &row.as_slice(), &ROWS[1].as_slice());
    assert_is(rt, "other tasks", store.update_row(1, &mut row));
    assert_same(rt, "after a switch", &row.as_slice(), &ROWS[2].as_slice());
    Ok(())
}

#[test]
fn there_is_no_row_past_the_last_place(rt: HostRuntime) -> Result<(), Fail> {
    let opened = Opened::new(&rt, false, &STEPS)?;
    check_no_row(&rt, rt.alloc(), &opened.store)
}

fn check_no_row(rt: &impl Abort, alloc: Global, store: &Store) -> Result<(), Fail> {
    assert_is(rt, "a row", store.row(alloc, 5)?.is_some());
    assert_is(rt, "no row", store.row(alloc, 6)?.is_none());
    Ok(())
}
