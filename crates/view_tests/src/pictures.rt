//! Pictures.

use crate::samples::{
    FIRST_RUN, HINDERED, ONE_QUEUE, PASSED, SUSPENDED, WOKEN_AMONG_IDLE, session_in,
};
use bench_types::{CheckedSession, Step};
use run_columns::{tick_columns, time_columns};
use run_pictures::{
    Axis, Extent, PlacedRun, law_of_bars, law_of_first_columns, law_of_hindrances, law_of_legends,
    law_of_queues, law_of_waits, timeline, timelines,
};
use run_views::Places;
use smp_kernel::Meter;
use std::process::Abort;
use std::test::Fail;

/// What a picture of the first run tells on hover.
const PRINTED: &str = "<title>places 0 to 1: core 0 A</title>
<title>places 2 to 5: core 0 C</title>
<title>places 0 to 5: core 1 B</title>
<title>place 1: core 0, due by pend</title>
<title>places 0 to 2: tick 0</title>
<title>places 3 to 5: tick 1</title>
<title>place 0: A runs on core 0</title>
<title>places 1 to 5: A blocked until tick 2 (delay)</title>
<title>places 2 to 5: C runs on core 0</title>";

/// What it tells of a ready task, cut where a core became due.
const READY: [&str; 2] = [
    "<title>place 0: C ready
core 0: A of priority 2 runs
core 1: B of priority 1 runs</title>",
    "<title>place 1: C ready
core 0: due, has not switched yet
core 1: B of priority 1 runs</title>",
];

/// What is in the way of B, of A and of C.
const IN_THE_WAY: [&str; 9] = [
    "<title>place 0: B ready
core 0: A of priority 3 runs
core 1: C of priority 2 runs</title>",
    "<title>place 1: B ready
the kernel is held by core 0</title>",
    "<title>places 2 to 3: B ready
core 0: A of priority 3 runs
core 1: C of priority 2 runs</title>",
    "<title>place 4: B ready
core 0: A of priority 3 runs
core 1: C of priority 2 runs with preemption off</title>",
    "<title>place 5: B ready
core 0: A of priority 3 runs
core 1: not in its mask</title>",
    "<title>place 6: B ready
core 0: due, has not switched yet
core 1: not in its mask</title>",
    "<title>place 7: A ready
core 0: B of priority 4 runs
core 1: C of priority 2 runs with preemption off</title>",
    "<title>place 9: C ready
core 1: A of priority 3 runs
core 0: not in its mask</title>",
    "<title>place 11: C ready
core 0: B of priority 4 runs, which is lower; the core was not asked
core 1: due, has not switched yet</title>",
];

/// What is in the way of Z. An idle task stands lower, though its priority is 0 too: core 1 was
/// asked for Z, and core 0 for no task.
const AMONG_IDLE: [&str; 2] = [
    "<title>places 5 to 6: Z ready
core 0: IDLE0 of priority 0 runs, which is lower; the core was not asked
core 1: due, has not switched yet</title>",
    "<title>place 7: Z runs on core 1</title>",
];

/// The row of a queue, below those of three tasks: the message is there from the step that sends it
/// to the step that receives it. A waits for it.
const QUEUED: &str = "<text class='s' x='8' y='243'>queue 0</text>
<rect class='q' x='390' y='232' width='240' height='14'><title>places 3 to 5: queue 0 messages 1\
</title></rect>
<text class='l' x='393' y='243'>1</text>
<title>places 1 to 2: A blocked until tick 5 (queue 0 to receive)</title>";

/// What is told of suspended tasks, of which B has its core still at the first place, of the
/// interrupt that resumes it, and in the legend.
const AWAY: [&str; 4] = [
    "<title>places 1 to 3: B suspended</title>",
    "<title>places 6 to 7: A suspended</title>",
    "h8l-4 7z'><title>step 3: isr_resume core 1 to B
isr true false: the task was suspended</title></path>",
    "<rect class='i' y='4' width='20' height='6'/>\
<text class='s' x='26' y='11'>suspended</text></g>",
];

/// What stands beside the bars of C, and above them.
const BESIDE: [&str; 2] = [
    "<text class='s' x='8' y='228'>priority 2, mask 2 ..<title>C
places 0 to 9: priority 2, mask 2
place 10: priority 2
place 11: priority 6</title></text>",
    "<title>places 3 to 7: C preemption off</title>",
];

/// What is told where the places of the upper run begin at other columns: step 0 is as wide as two,
/// and step 2 of the upper run stands above step 3 of the lower.
const IN_COLUMNS: &str =
    "<rect class='z' x='150' y='22' width='160' height='14'><title>step 0: delay
<rect class='z' x='390' y='22' width='80' height='14'><title>step 2: tick
<rect class='z' x='150' y='278' width='80' height='14'><title>step 0: delay
<rect class='z' x='390' y='278' width='80' height='14'><title>step 3: yield";

/// What a picture of the first run has: as wide as its page, and a legend of what the run has.
const LAID_OUT: &str = "<svg xmlns='http://www.w3.org/2000/svg' width='100%' \
style='min-width:645px;height:auto' viewBox='0 0 860 266'>
<rect class='c0' x='150' y='50' width='160' height='24'>
<rect class='d' x='230' y='50' width='80' height='4'>
<g transform='translate(8,244)'><rect class='c0' width='20' height='14'/>\
<text class='s' x='26' y='11'>running</text></g>
<g transform='translate(644,244)'>";

/// The rules of a picture of the first run twice, by ticks.
const RULES: &str = "<path class='g' d='M150 22V250'/>
<path class='g' d='M390 22V250'/>
<path class='g' d='M150 278V506'/>
<path class='g' d='M390 278V506'/>";

/// The places from 3 on are pale through all rows, which take 228 pixels, and a dashed line stands
/// where place 3 begins. The legend has it behind the four signs of the first run.
const UNKNOWN: &str = "<g><title>not known from place 3 on</title>\
<rect class='b f' x='390' y='4' width='240' height='228'/><path class='y' d='M390 4v228'/></g>
<g transform='translate(8,262)'><rect class='c0' width='20' height='14'/>\
<rect class='b f' x='8' width='12' height='14'/><path class='y' d='M8 0v14'/>\
<text class='s' x='26' y='11'>not known</text></g>";

/// Where place 1 is not shown no line stands, and all places that are shown are pale.
const UNKNOWN_BEFORE: &str = "<g><title>not known from place 1 on</title>\
<rect class='b f' x='150' y='4' width='320' height='228'/></g>";

/// Steps with their ticks at other places.
const UPPER: [Step; 3] = [Step::Switch { core: 0 }, Step::Tick, Step::Tick];

const LOWER: [Step; 4] = [
    Step::Tick,
    Step::Switch { core: 0 },
    Step::Switch { core: 1 },
    Step::Tick,
];

/// Steps of which the third place of the upper run begins behind 10 units of time; the second and
/// third of the lower begin behind 5.
const EARLY: [Step; 4] = [
    Step::Pass { units: 3 },
    Step::Switch { core: 0 },
    Step::Pass { units: 7 },
    Step::Tick,
];

const LATE: [Step; 2] = [Step::Pass { units: 5 }, Step::Tick];

/// The row of time stands above the others. The pass of 640 units is 160 columns wide, a column for
/// each 4 units; that of 900 is 225, and the tick is ruled. A switch has one column. Numbers stand
/// where they fit.
const BY_TIME: &str =
    "<text x='8' y='15'>time in units, <tspan x='8' dy='13'>1000 a tick</tspan></text>
<text class='s' x='164' y='28'>0</text>
<text class='s' x='1124' y='28'>640</text>
<text class='s' x='2480' y='28'>1540</text>
<text class='s' x='1124' y='43'>3</text>
<text class='s' x='2516' y='43'>7</text>
<rect class='z' x='156' y='32' width='6' height='14'><title>step 1: switch core 0
<rect class='z' x='162' y='32' width='960' height='14'><title>step 2: pass units 640
<rect class='z' x='1122' y='32' width='1350' height='14'><title>step 3: pass units 900
<rect class='z' x='2472' y='32' width='6' height='14'><title>step 4: tick
<path class='g' d='M2478 32V260'/>";

/// By places each has the time before it.
const TIMES: &str = "<text class='s' x='152' y='28'>0</text>
<text class='s' x='272' y='28'>640</text>
<text class='s' x='312' y='28'>1540</text>
<text class='s' x='512' y='28'>1575</text>";

const ALL: Extent = Extent {
    places: Places {
        from: 0,
        to: u32::MAX,
    },
    axis: Axis::Places,
};

#[test]
fn a_picture_of_a_run(rt: HostRuntime) -> Result<(), Fail> {
    let alloc = rt.alloc();
    let session = session_in(alloc, FIRST_RUN)?;
    let mut meter = Meter::new(&rt);
    match timeline(alloc, &mut meter, ALL, &alone(&session))? {
        Ok(picture) => {
            expect_printed(&rt, picture.as_str(), PRINTED);
            expect_printed(&rt, picture.as_str(), LAID_OUT);
            expect_each(&rt, picture.as_str(), &READY);
            assert!(rt; !picture.contains("refused"));
        }
        Err(_) => panic!(rt; "too long"),
    }
    Ok(())
}

#[test]
fn a_picture_of_what_is_in_the_way(rt: HostRuntime) -> Result<(), Fail> {
    let alloc = rt.alloc();
    let session = session_in(alloc, HINDERED)?;
    let mut meter = Meter::new(&rt);
    match timeline(alloc, &mut meter, ALL, &alone(&session))? {
        Ok(picture) => {
            expect_each(&rt, picture.as_str(), &IN_THE_WAY);
            expect_each(&rt, picture.as_str(), &BESIDE);
        }
        Err(_) => panic!(rt; "too long"),
    }
    law_of_hindrances();
    law_of_legends();
    law_of_bars();
    law_of_waits();
    Ok(())
}

#[test]
fn a_picture_of_a_queue(rt: HostRuntime) -> Result<(), Fail> {
    let alloc = rt.alloc();
    let session = session_in(alloc, ONE_QUEUE)?;
    let mut meter = Meter::new(&rt);
    match timeline(alloc, &mut meter, ALL, &alone(&session))? {
        Ok(picture) => expect_printed(&rt, picture.as_str(), QUEUED),
        Err(_) => panic!(rt; "too long"),
    }
    law_of_queues();
    Ok(())
}

#[test]
fn an_idle_task_is_lower_than_priority_0(rt: HostRuntime) -> Result<(), Fail> {
    let alloc = rt.alloc();
    let session = session_in(alloc, WOKEN_AMONG_IDLE)?;
    let mut meter = Meter::new(&rt);
    match timeline(alloc, &mut meter, ALL, &alone(&session))? {
        Ok(picture) => expect_each(&rt, picture.as_str(), &AMONG_IDLE),
        Err(_) => panic!(rt; "too long"),
    }
    Ok(())
}

#[test]
fn a_picture_of_suspended_tasks(rt: HostRuntime) -> Result<(), Fail> {
    let alloc = rt.alloc();
    let session = session_in(alloc, SUSPENDED)?;
    let mut meter = Meter::new(&rt);
    match timeline(alloc, &mut meter, ALL, &alone(&session))? {
        Ok(picture) => {
            expect_each(&rt, picture.as_str(), &AWAY);
            assert!(rt; !picture.contains("blocked"));
        }
        Err(_) => panic!(rt; "too long"),
    }
    Ok(())
}

#[test]
fn a_picture_of_two_runs_in_columns(rt: HostRuntime) -> Result<(), Fail> {
    let alloc = rt.alloc();
    let session = session_in(alloc, FIRST_RUN)?;
    let mut meter = Meter::new(&rt);
    let before = PlacedRun {
        session: &session,
        columns: &[0, 2, 3, 4, 5, 6, 7],
        known: None,
    };
    let after = PlacedRun {
        columns: &[],
        ..before
    };
    match timelines(alloc, &mut meter, ALL, &before, &after)? {
        Ok(picture) => expect_printed(&rt, picture.as_str(), IN_COLUMNS),
        Err(_) => panic!(rt; "too long"),
    }
    law_of_first_columns();
    Ok(())
}

#[test]
fn a_picture_of_a_run_that_is_known_in_part(rt: HostRuntime) -> Result<(), Fail> {
    let alloc = rt.alloc();
    let session = session_in(alloc, FIRST_RUN)?;
    let mut meter = Meter::new(&rt);
    let run = PlacedRun {
        known: Some(3),
        ..alone(&session)
    };
    match timeline(alloc, &mut meter, ALL, &run)? {
        Ok(picture) => expect_printed(&rt, picture.as_str(), UNKNOWN),
        Err(_) => panic!(rt; "too long"),
    }
    match timelines(alloc, &mut meter, ALL, &alone(&session), &run)? {
        Ok(picture) => assert!(rt; picture.contains("y='278' width='240' height='228'/>")),
        Err(_) => panic!(rt; "too long"),
    }
    Ok(())
}

/// The first place that is shown may lie behind that from which on the run is not known, and the
/// last one before it.
#[test]
fn pictures_beside_where_a_run_is_known(rt: HostRuntime) -> Result<(), Fail> {
    let alloc = rt.alloc();
    let session = session_in(alloc, FIRST_RUN)?;
    let mut meter = Meter::new(&rt);
    let before = PlacedRun {
        known: Some(1),
        ..alone(&session)
    };
    let later = Extent {
        places: Places {
            from: 2,
            ..ALL.places
        },
        ..ALL
    };
    match timeline(alloc, &mut meter, later, &before)? {
        Ok(picture) => expect_printed(&rt, picture.as_str(), UNKNOWN_BEFORE),
        Err(_) => panic!(rt; "too long"),
    }
    let behind = PlacedRun {
        known: Some(6),
        ..before
    };
    match timeline(alloc, &mut meter, ALL, &behind)? {
        Ok(picture) => assert!(rt; !picture.contains("not known")),
        Err(_) => panic!(rt; "too long"),
    }
    Ok(())
}

// A run whose places stand at their numbers.
fn alone(session: &CheckedSession) -> PlacedRun<'_> {
    PlacedRun {
        session,
        columns: &[],
        known: None,
    }
}

fn expect_each(rt: &impl Abort, picture: &str, wanted: &[&str]) {
    for printed in wanted {
        assert!(rt; picture.contains(*printed), "{printed}");
    }
}

/// The second tick of both begins behind the two places of the first in the upper run, and the
/// third behind the three places of the second in the lower.
#[test]
fn ticks_of_two_runs_line_up(rt: HostRuntime) -> Result<(), Fail> {
    let columns = tick_columns(rt.alloc(), &UPPER, &LOWER)?;
    assert!(rt; columns.before.as_slice() == [0, 1, 2, 5, 6].as_slice());
    assert!(rt; columns.after.as_slice() == [0, 2, 3, 4, 5, 6].as_slice());
    Ok(())
}

#[test]
fn a_picture_by_ticks(rt: HostRuntime) -> Result<(), Fail> {
    let alloc = rt.alloc();
    let session = session_in(alloc, FIRST_RUN)?;
    let mut meter = Meter::new(&rt);
    let columns = tick_columns(alloc, session.steps(), session.steps())?;
    let run = PlacedRun {
        session: &session,
        columns: columns.before.as_slice(),
        known: None,
    };
    let extent = Extent {
        axis: Axis::Ticks,
        ..ALL
    };
    match timelines(alloc, &mut meter, extent, &run, &run)? {
        Ok(picture) => expect_printed(&rt, picture.as_str(), RULES),
        Err(_) => panic!(rt; "too long"),
    }
    Ok(())
}

/// A time at which neither run has a place has one column, and a time at which one run has more
/// places as many as that run needs.
#[test]
fn times_of_two_runs_line_up(rt: HostRuntime) -> Result<(), Fail> {
    let columns = time_columns(rt.alloc(), 10, 0, 3, &EARLY, &LATE)?;
    assert!(rt; columns.before.as_slice() == [0, 3, 4, 12, 13, 14].as_slice());
    assert!(rt; columns.after.as_slice() == [0, 6, 7, 8].as_slice());
    Ok(())
}

/// The time that is shown decides how much of it a column is: of 4000 units it is 11.
#[test]
fn columns_have_the_time_that_is_shown(rt: HostRuntime) -> Result<(), Fail> {
    let steps = [Step::Pass { units: 4000 }, Step::Pass { units: 100 }];
    let columns = time_columns(rt.alloc(), 1000, 0, 0, &steps, &steps)?;
    assert!(rt; columns.before.as_slice() == [0, 363, 372, 373].as_slice());
    let columns = time_columns(rt.alloc(), 1000, 1, 2, &steps, &steps)?;
    assert!(rt; columns.before.as_slice() == [0, 4000, 4100, 4101].as_slice());
    Ok(())
}

#[test]
fn a_picture_by_time(rt: HostRuntime) -> Result<(), Fail> {
    let alloc = rt.alloc();
    let session = session_in(alloc, PASSED)?;
    let mut meter = Meter::new(&rt);
    let steps = session.steps();
    let columns = time_columns(alloc, 1000, 0, u32::MAX, steps, steps)?;
    let run = PlacedRun {
        session: &session,
        columns: columns.before.as_slice(),
        known: None,
    };
    let extent = Extent {
        axis: Axis::Time,
        ..ALL
    };
    match timeline(alloc, &mut meter, extent, &run)? {
        Ok(picture) => expect_printed(&rt, picture.as_str(), BY_TIME),
        Err(_) => panic!(rt; "too long"),
    }
    match timeline(alloc, &mut meter, ALL, &alone(&session))? {
        Ok(picture) => expect_printed(&rt, picture.as_str(), TIMES),
        Err(_) => panic!(rt; "too long"),
    }
    Ok(())
}

fn expect_printed(rt: &impl Abort, picture: &str, wanted: &str) {
    for printed in wanted.lines() {
        assert!(rt; picture.contains(printed), "{printed}");
    }
}
