//! Which steps are replayed for an edit, and where the checkpoints lie after it. A program that was
//! written apart from this one computed the numbers, over a flat table.
use crate::samples::{
    A_DELAYS, Opened, SWITCH_0, SWITCH_1, assert_at, assert_same, make_edits, tick_at,
};
use crate::spans::check_as_new;
use crate::store_edits::change;
use bench_types::{Call, Edit, Step};
use session_store::Store;
use std::alloc::Global;
use std::process::Abort;
use std::test::Fail;

const TICK: Step = Step::Tick;

/// A leaves its core for two ticks.
const DELAY: [Step; 8] = [
    A_DELAYS, SWITCH_0, TICK, SWITCH_0, SWITCH_1, TICK, SWITCH_0, SWITCH_1,
];

/// A step is removed, and the replay is between the two places.
macro_rules! remove {
    ($at:expr, $from:expr, $met:expr) => {
        (Edit::Remove { at: $at }, $from, $met)
    };
}

/// A tick is put in at the place, and the replay is between the two others.
macro_rules! tick {
    ($at:expr, $from:expr, $met:expr) => {
        (Edit::Insert { at: $at, step: TICK }, $from, $met)
    };
}

/// A session of A, B and C with a checkpoint every so many steps, its edits with where their
/// replays begin and end, and the checkpoints then.
#[derive(Clone, Copy)]
struct Case<'a> {
    slicing: bool,
    steps: &'a [Step],
    span: u32,
    edits: &'a [(Edit, u32, u32)],
    checkpoints: &'a [u32],
}

fn edited(rt: &impl Abort, host: &HostRuntime, case: &Case<'_>) -> Result<Opened, Fail> {
    let mut opened = Opened::by_span(host, case.slicing, case.steps, case.span)?;
    make_edits(rt, host.alloc(), &mut opened, case.edits);
    assert_checkpoints(rt, &opened.store, case.checkpoints);
    Ok(opened)
}

/// The store has these checkpoints and no more.
fn assert_checkpoints(rt: &impl Abort, store: &Store, places: &[u32]) {
    assert!(rt; places.len() <= store.len() as usize + 1);
    for (k, place) in places.iter().enumerate() {
        assert_at(
            rt,
            "checkpoint",
            k as u32,
            &store.checkpoint(k as u32),
            &Some(*place),
        );
    }
    assert_same(rt, "next", &store.checkpoint(places.len() as u32), &None);
}

fn check_cases(rt: &impl Abort, host: &HostRuntime, cases: &[Case<'_>]) -> Result<(), Fail> {
    for case in cases {
        check_case(rt, host, case)?;
    }
    Ok(())
}

fn check_case(rt: &impl Abort, host: &HostRuntime, case: &Case<'_>) -> Result<(), Fail> {
    check_as_new(rt, host, &mut edited(rt, host, case)?)
}

/// Of ticks, with a checkpoint every second step.
const TICKS_BY_2: Case<'static> = Case {
    slicing: false,
    steps: &[TICK; 6],
    span: 2,
    edits: &[],
    checkpoints: &[0, 2, 4],
};

const TICKS_BY_3: Case<'static> = Case {
    steps: &[TICK; 7],
    span: 3,
    ..TICKS_BY_2
};

const TICKS_BY_1: Case<'static> = Case {
    steps: &[TICK; 3],
    span: 1,
    ..TICKS_BY_2
};

const NO_TICKS: Case<'static> = Case {
    steps: &[],
    ..TICKS_BY_2
};

/// Where checkpoints are moved with the steps after them.
const MOVES: [Case<'static>; 4] = [
    Case {
        edits: &[tick!(1, 0, 3)],
        checkpoints: &[0, 3, 5],
        ..TICKS_BY_2
    },
    Case {
        edits: &[tick!(2, 2, 5)],
        checkpoints: &[0, 2, 5],
        ..TICKS_BY_2
    },
    Case {
        edits: &[(
            Edit::Replace {
                at: 3,
                step: SWITCH_0,
            },
            2,
            4,
        )],
        ..TICKS_BY_2
    },
    Case {
        edits: &[remove!(1, 0, 1)],
        checkpoints: &[0, 1, 3],
        ..TICKS_BY_2
    },
];

/// Where the last ones stay, or all of them, or none is but the first.
const STAYS: [Case<'static>; 4] = [
    Case {
        edits: &[remove!(5, 4, 5), remove!(4, 4, 4)],
        ..TICKS_BY_2
    },
    Case {
        edits: &[(change!(4, 0), 0, 6)],
        ..TICKS_BY_2
    },
    Case {
        edits: &[tick!(4, 3, 7), tick!(5, 3, 8)],
        checkpoints: &[0, 3, 8],
        ..TICKS_BY_3
    },
    Case {
        span: 1000,
        checkpoints: &[0],
        ..TICKS_BY_3
    },
];

/// Where two checkpoints come to one place.
const JOINED: [Case<'static>; 4] = [
    Case {
        edits: &[remove!(2, 2, 3), remove!(2, 2, 2)],
        checkpoints: &[0, 2],
        ..TICKS_BY_2
    },
    Case {
        edits: &[remove!(1, 0, 1), remove!(0, 0, 0)],
        checkpoints: &[0, 2],
        ..TICKS_BY_2
    },
    Case {
        edits: &[remove!(1, 1, 1)],
        checkpoints: &[0, 1],
        ..TICKS_BY_1
    },
    Case {
        edits: &[remove!(2, 2, 2), remove!(1, 1, 1), remove!(0, 0, 0)],
        checkpoints: &[0],
        ..TICKS_BY_1
    },
];

/// Where two spans without one get a checkpoint.
const SPLIT: [Case<'static>; 7] = [
    Case {
        edits: &[tick!(3, 2, 5), tick!(3, 2, 6)],
        checkpoints: &[0, 2, 4, 6],
        ..TICKS_BY_2
    },
    Case {
        edits: &[tick!(6, 4, 7), tick!(7, 4, 8)],
        checkpoints: &[0, 2, 4, 6],
        ..TICKS_BY_2
    },
    Case {
        edits: &[tick!(4, 3, 7), tick!(5, 3, 8), tick!(6, 3, 9)],
        checkpoints: &[0, 3, 6, 9],
        ..TICKS_BY_3
    },
    Case {
        edits: &[tick!(3, 2, 4)],
        checkpoints: &[0, 1, 2, 3],
        ..TICKS_BY_1
    },
    Case {
        edits: &[tick!(0, 0, 2)],
        checkpoints: &[0, 1, 2, 3],
        ..TICKS_BY_1
    },
    Case {
        span: 1,
        edits: &[tick!(0, 0, 1), tick!(1, 0, 2), tick!(2, 1, 3)],
        checkpoints: &[0, 1, 2],
        ..NO_TICKS
    },
    Case {
        edits: &[
            tick!(0, 0, 1),
            tick!(0, 0, 2),
            tick!(0, 0, 3),
            tick!(0, 0, 4),
        ],
        checkpoints: &[0, 2],
        ..NO_TICKS
    },
];

#[test]
fn checkpoints_move_with_their_steps(rt: HostRuntime) -> Result<(), Fail> {
    check_cases(&rt, &rt, &MOVES)
}

#[test]
fn checkpoints_stay(rt: HostRuntime) -> Result<(), Fail> {
    check_cases(&rt, &rt, &STAYS)
}

#[test]
fn checkpoints_join(rt: HostRuntime) -> Result<(), Fail> {
    check_cases(&rt, &rt, &JOINED)
}

#[test]
fn spans_are_split(rt: HostRuntime) -> Result<(), Fail> {
    check_cases(&rt, &rt, &SPLIT)
}

/// A call of A that delays until the tick count 7.
const UNTIL: Step = Step::Call {
    core: 0,
    task: 2,
    call: Call::DelayUntil { prev: 4, inc: 3 },
};

/// The same call on a core where A does not run.
const REFUSED_UNTIL: Step = Step::Call {
    core: 1,
    task: 2,
    call: Call::DelayUntil { prev: 4, inc: 3 },
};

/// Where the tick count is read after the edit, and where it isn't.
const READS: [Case<'static>; 4] = [
    Case {
        edits: &[remove!(0, 0, 1)],
        checkpoints: &[0, 1, 3],
        ..TICKS_BY_2
    },
    Case {
        steps: &[TICK, TICK, TICK, TICK, TICK, UNTIL],
        edits: &[remove!(0, 0, 5)],
        checkpoints: &[0, 1, 3],
        ..TICKS_BY_2
    },
    Case {
        steps: &[TICK, TICK, TICK, TICK, TICK, REFUSED_UNTIL],
        edits: &[remove!(0, 0, 5)],
        checkpoints: &[0, 1, 3],
        ..TICKS_BY_2
    },
    Case {
        steps: &[TICK, UNTIL, SWITCH_0, TICK, TICK, TICK],
        edits: &[remove!(0, 0, 1), tick!(2, 1, 4)],
        checkpoints: &[0, 1, 4],
        ..TICKS_BY_2
    },
];

#[test]
fn a_replay_meets_where_no_step_reads_the_tick(rt: HostRuntime) -> Result<(), Fail> {
    check_cases(&rt, &rt, &READS)
}

/// Each place, its tick count, and how many steps are counted for its state.
const STATES: [(Case<'static>, &[(u32, u32, u64)]); 3] = [
    (
        Case {
            edits: &[remove!(0, 0, 1), tick!(0, 0, 2), remove!(0, 0, 1)],
            checkpoints: &[0, 1, 3],
            ..TICKS_BY_2
        },
        &[(5, 5, 2), (3, 3, 0), (1, 1, 0)],
    ),
    (
        Case {
            checkpoints: &[0, 3, 6],
            ..TICKS_BY_3
        },
        &[
            (0, 0, 0),
            (2, 2, 2),
            (3, 3, 0),
            (5, 5, 2),
            (6, 6, 0),
            (7, 7, 1),
        ],
    ),
    (
        Case {
            edits: &[remove!(2, 2, 3), remove!(2, 2, 2)],
            checkpoints: &[0, 2],
            ..TICKS_BY_2
        },
        &[(4, 4, 2), (2, 2, 0), (1, 1, 1)],
    ),
];

#[test]
fn a_state_counts_from_the_checkpoint(rt: HostRuntime) -> Result<(), Fail> {
    for (case, places) in &STATES {
        check_counted(&rt, &rt, case, places)?;
    }
    Ok(())
}

fn check_counted(
    rt: &impl Abort,
    host: &HostRuntime,
    case: &Case<'_>,
    places: &[(u32, u32, u64)],
) -> Result<(), Fail> {
    check_states(rt, host.alloc(), &mut edited(rt, host, case)?, places)
}

fn check_states(
    rt: &impl Abort,
    alloc: Global,
    opened: &mut Opened,
    places: &[(u32, u32, u64)],
) -> Result<(), Fail> {
    for (place, tick, counted) in places {
        let count = opened.meter.count().saturating_add(*counted);
        let shown = tick_at(alloc, opened, *place)?;
        assert_at(rt, "tick at place", *place, &shown, &Some(*tick));
        assert_at(rt, "count at place", *place, &opened.meter.count(), &count);
    }
    check_past(rt, alloc, opened)
}

fn check_past(rt: &impl Abort, alloc: Global, opened: &mut Opened) -> Result<(), Fail> {
    let (count, past) = (opened.meter.count(), opened.store.len() + 1);
    assert_at(
        rt,
        "tick at place",
        past,
        &tick_at(alloc, opened, past)?,
        &None,
    );
    assert_at(rt, "count at place", past, &opened.meter.count(), &count);
    Ok(())
}

/// Each place and core, and the task that runs there.
const WHO_RUNS: [(u32, u32, Option<u32>); 10] = [
    (0, 0, Some(2)),
    (0, 1, Some(3)),
    (2, 0, Some(4)),
    (3, 0, Some(4)),
    (7, 0, Some(2)),
    (8, 1, Some(4)),
    (9, 0, None),
    (9, 1, None),
    (8, 2, None),
    (0, 2, None),
];

#[test]
fn tells_who_runs_on_a_core(rt: HostRuntime) -> Result<(), Fail> {
    check_running(&rt, &Opened::by_span(&rt, true, &DELAY, 3)?.store);
    Ok(())
}

fn check_running(rt: &impl Abort, store: &Store) {
    for (place, core, task) in &WHO_RUNS {
        let shown = (*core, store.running(*place, *core));
        assert_at(rt, "core at place", *place, &shown, &(*core, *task));
    }
}
