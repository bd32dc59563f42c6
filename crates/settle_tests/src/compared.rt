//! The settled run of a session beside the settled run after edits. A program that was written
//! apart from this one made the runs, the tasks on the cores and what each task gained.
ghost use Rattle.std.specs.Prelude.{All, IsTrue};
ghost use Rattle.bench_types.specs.Edit.{IsCheckedEdit};

use crate::settled::{TICK, call, session_of};
use bench_samples::three_tasks;
use bench_types::{Call, Edit, Header, Items, Step};
use run_comparisons::{Row, RunPair, Side, columns_of, compare, compare_with_itself, has_refusal};
use run_views::Places;
use session_edits::EditedSession;
use session_runs::Run;
use settling::settle;
use smp_kernel::Meter;
use std::alloc::Global;
use std::process::Abort;
use std::test::Fail;

/// The tick of both stands beside itself, and the other tick beside nothing.
const COMPARED: &str = "- 0 - delay core 0 by A ticks 1: blocked; A B
+ - 0 delay core 1 by B ticks 1: blocked; A B
+ - 1 switch core 1: done; A C
+ - 2 delay core 0 by A ticks 3: blocked; A C
| 1 3 switch core 0: done; C B -> done; IDLE0 C
| 2 4 yield core 0 by C: done; C B -> yield core 1 by C: done; IDLE0 C
- 3 - switch core 0: done; C B
+ - 5 switch core 1: done; IDLE0 C
| 4 6 tick: done; C B -> done; IDLE0 C
- 5 - switch core 1: done; C A
- 6 - finish core 1 by A: done; C A
- 7 - yield core 1 by A: done; C A
- 8 - switch core 1: done; C A
+ - 7 switch core 0: done; B C
+ - 8 finish core 0 by B: done; B C
+ - 9 preempt_off core 0 by B to B: done; B C
+ - 10 tick: done; B C
the runs differ first at 0 - and last at - 10
task IDLE0 run on core 0 +1 in +1
task IDLE1 wait +1
task A in -1
task B run on core 0 +1 run on core 1 -1 in +1
task C run on core 0 -1 run on core 1 +2
not made before: B 1
not made after: A 1
";

/// The lines with place 2 or 3 before the edits or after them, four of seventeen.
const COMPARED_AT: &str = "+ - 2 delay core 0 by A ticks 3: blocked; A C
| 1 3 switch core 0: done; C B -> done; IDLE0 C
| 2 4 yield core 0 by C: done; C B -> yield core 1 by C: done; IDLE0 C
- 3 - switch core 0: done; C B
rows at other places, left out: 13
the runs differ first at 0 - and last at - 10
task IDLE0 run on core 0 +1 in +1
task IDLE1 wait +1
task A in -1
task B run on core 0 +1 run on core 1 -1 in +1
task C run on core 0 -1 run on core 1 +2
not made before: B 1
not made after: A 1
";

/// Without edits the run stands beside itself.
const UNEDITED: &str = "  0 0 delay core 0 by A ticks 1: blocked; A B
  1 1 switch core 0: done; C B
  2 2 yield core 0 by C: done; C B
  3 3 switch core 0: done; C B
  4 4 tick: done; C B
  5 5 switch core 1: done; C A
  6 6 finish core 1 by A: done; C A
  7 7 yield core 1 by A: done; C A
  8 8 switch core 1: done; C A
no step differs
not made before: B 1
not made after: B 1
";

/// Two of three edits are refused, and the other one changes nothing.
const REFUSED: &str = "  0 0 delay core 0 by A ticks 1: blocked; A B
  1 1 switch core 0: done; C B
  2 2 yield core 0 by C: done; C B
  3 3 switch core 0: done; C B
  4 4 tick: done; C B
  5 5 switch core 1: done; C A
  6 6 finish core 1 by A: done; C A
  7 7 yield core 1 by A: done; C A
  8 8 switch core 1: done; C A
no step differs; refused and not made: edit 0, edit 2
not made before: B 1
not made after: B 1
";

/// The same of one tick, as it stands.
const REFUSED_TICK: &str = "  0 0 tick: done; A B
no step differs; refused and not made: edit 0, edit 2
";

/// A has a greater priority by the edit, and no step goes otherwise.
const GAINED: &str = "  0 0 tick: done; A B
no step differs
task A top +1
";

/// The same without the step, which is the only one.
const GAINED_AT: &str = "rows at other places, left out: 1
no step differs
task A top +1
";

/// Without edits the places of both runs are the same.
const UNEDITED_AT: &str = "  7 7 yield core 1 by A: done; C A
  8 8 switch core 1: done; C A
rows at other places, left out: 7
no step differs
not made before: B 1
not made after: B 1
";

fn is_checked(header: &Header, edit: &Edit) -> bool
    ensures { IsTrue result → IsCheckedEdit header.now edit.now }
{
    edit.check(header).is_ok()
}

// Whether each edit fits the header.
fn are_checked(header: &Header, edits: &[Edit]) -> bool
    ensures { IsTrue result → All (IsCheckedEdit header.now) edits.now }
{
    edits.iter().all(|edit| is_checked(header, edit))
}

// Each edit fits the header, or the test fails.
fn need_checked(rt: &impl Abort, header: &Header, edits: &[Edit])
    ensures { All (IsCheckedEdit header.now) edits.now }
{
    assert!(rt; are_checked(header, edits));
}

// The session of these steps of A, B and C, and edits of it.
fn edited_of(
    rt: &impl Abort,
    alloc: Global,
    steps: &[Step],
    edits: &[Edit],
) -> Result<EditedSession, Fail> {
    let header = three_tasks(alloc, false)?;
    let session = session_of(rt, header, Vec::from_slice(alloc, steps)?)?;
    need_checked(rt, session.header(), edits);
    Ok(EditedSession::make(alloc, session, Vec::from_slice(alloc, edits)?)?)
}

// Both settled runs.
fn settled_pair(
    alloc: Global,
    host: &HostRuntime,
    edited: &EditedSession,
) -> Result<RunPair, Fail> {
    let mut meter = Meter::new(host);
    let before = settle(alloc, edited.session(), &mut meter)?;
    let after = settle(alloc, edited.edited(), &mut meter)?;
    Ok(RunPair::of_settled(alloc, edited, before, after)?)
}

// Both runs as their steps stand.
fn plain_pair(alloc: Global, host: &HostRuntime, edited: &EditedSession) -> Result<RunPair, Fail> {
    let mut meter = Meter::new(host);
    let before = Run::of_session(alloc, edited.session().copy(alloc)?, &mut meter)?;
    let after = Run::of_session(alloc, edited.edited().copy(alloc)?, &mut meter)?;
    Ok(RunPair::of_edited(alloc, edited, before, after)?)
}

fn compared(
    rt: &impl Abort,
    host: &HostRuntime,
    steps: &[Step],
    edits: &[Edit],
    shown: Option<Places>,
) -> Result<String, Fail> {
    let alloc = host.alloc();
    let edited = edited_of(rt, alloc, steps, edits)?;
    let pair = settled_pair(alloc, host, &edited)?;
    Ok(compare(alloc, &pair, shown)?)
}

fn compared_plainly(
    rt: &impl Abort,
    host: &HostRuntime,
    steps: &[Step],
    edits: &[Edit],
    shown: Option<Places>,
) -> Result<String, Fail> {
    let alloc = host.alloc();
    let edited = edited_of(rt, alloc, steps, edits)?;
    let pair = plain_pair(alloc, host, &edited)?;
    Ok(compare(alloc, &pair, shown)?)
}

fn assert_text(rt: &impl Abort, text: &str, wanted: &str) {
    assert_eq!(rt; text, wanted);
}

/// A is away for a tick, C has a core then, and B never runs after it. By the edits B waits for a
/// tick first, A for three, and one more tick comes in the end.
fn session() -> [Step; 5] {
    [
        call(0, 2, Call::Delay(1)),
        call(0, 4, Call::Yield),
        TICK,
        call(0, 2, Call::Yield),
        call(1, 3, Call::PreemptOff(3)),
    ]
}

fn edits() -> [Edit; 3] {
    [
        Edit::Insert {
            at: 0,
            step: call(1, 3, Call::Delay(1)),
        },
        Edit::Replace {
            at: 1,
            step: call(0, 2, Call::Delay(3)),
        },
        Edit::Insert { at: 6, step: TICK },
    ]
}

#[test]
fn settled_runs_side_by_side(rt: HostRuntime) -> Result<(), Fail> {
    let text = compared(&rt, &rt, &session(), &edits(), None)?;
    assert_text(&rt, text.as_str(), COMPARED);
    let unedited = compared(&rt, &rt, &session(), &[], None)?;
    assert_text(&rt, unedited.as_str(), UNEDITED);
    Ok(())
}

/// One run is compared with itself as a session without edits.
#[test]
fn a_run_beside_itself(rt: HostRuntime) -> Result<(), Fail> {
    let alloc = rt.alloc();
    let edited = edited_of(&rt, alloc, &session(), &[])?;
    let run = settle(alloc, edited.session(), &mut Meter::new(&rt))?;
    let text = compare_with_itself(alloc, &run, None)?;
    assert_text(&rt, text.as_str(), UNEDITED);
    let last = Places { from: 7, to: 20 };
    let shown = compare_with_itself(alloc, &run, Some(last))?;
    assert_text(&rt, shown.as_str(), UNEDITED_AT);
    Ok(())
}

#[test]
fn settled_runs_at_places(rt: HostRuntime) -> Result<(), Fail> {
    let places = Places { from: 2, to: 3 };
    let text = compared(&rt, &rt, &session(), &edits(), Some(places))?;
    assert_text(&rt, text.as_str(), COMPARED_AT);
    let last = Places { from: 7, to: 20 };
    let unedited = compared(&rt, &rt, &session(), &[], Some(last))?;
    assert_text(&rt, unedited.as_str(), UNEDITED_AT);
    let all = Places { from: 0, to: 20 };
    let whole = compared(&rt, &rt, &session(), &edits(), Some(all))?;
    assert_text(&rt, whole.as_str(), COMPARED);
    Ok(())
}

/// A session of so many steps has neither the place that a step is removed from nor the one whose
/// step is replaced. Task B keeps its priority and its mask.
fn edits_past(steps: u32) -> [Edit; 3] {
    [
        Edit::Remove { at: steps },
        Edit::ChangeTask {
            task: 3,
            priority: 1,
            mask: 3,
        },
        Edit::Replace {
            at: steps,
            step: TICK,
        },
    ]
}

#[test]
fn refused_edits_are_printed(rt: HostRuntime) -> Result<(), Fail> {
    let settled = compared(&rt, &rt, &session(), &edits_past(5), None)?;
    assert_text(&rt, settled.as_str(), REFUSED);
    let plain = compared_plainly(&rt, &rt, &[TICK], &edits_past(1), None)?;
    assert_text(&rt, plain.as_str(), REFUSED_TICK);
    Ok(())
}

/// Two of the edits are refused, and no step.
#[test]
fn refusals_are_found(rt: HostRuntime) -> Result<(), Fail> {
    let alloc = rt.alloc();
    let edited = edited_of(&rt, alloc, &[TICK], &edits_past(1))?;
    let pair = plain_pair(alloc, &rt, &edited)?;
    assert_eq!(&rt; pair.refused(), [0, 2].as_slice());
    assert!(&rt; has_refusal(pair.after(), pair.refused()));
    assert!(&rt; !has_refusal(pair.after(), &[]));
    Ok(())
}

#[test]
fn gains_are_printed_where_no_step_differs(rt: HostRuntime) -> Result<(), Fail> {
    let edit = Edit::ChangeTask {
        task: 2,
        priority: 3,
        mask: 3,
    };
    let text = compared_plainly(&rt, &rt, &[TICK], &[edit], None)?;
    assert_text(&rt, text.as_str(), GAINED);
    let behind = Places { from: 1, to: 1 };
    let left_out = compared_plainly(&rt, &rt, &[TICK], &[edit], Some(behind))?;
    assert_text(&rt, left_out.as_str(), GAINED_AT);
    Ok(())
}

/// Each line of `COMPARED` but the last ones is a column.
#[test]
fn settled_runs_in_columns(rt: HostRuntime) -> Result<(), Fail> {
    let alloc = rt.alloc();
    let edited = edited_of(&rt, alloc, &session(), &edits())?;
    let pair = settled_pair(alloc, &rt, &edited)?;
    let columns = columns_of(alloc, Side::Before, pair.rows())?;
    assert_eq!(rt;
        columns.as_slice(),
        [0, 4, 5, 6, 8, 9, 10, 11, 12, 17, 18].as_slice()
    );
    let later = columns_of(alloc, Side::After, pair.rows())?;
    assert_eq!(rt;
        later.as_slice(),
        [1, 2, 3, 4, 5, 7, 8, 13, 14, 15, 16, 17, 18].as_slice()
    );
    Ok(())
}

// The run of these steps of A, B and C, where a tick has ten units.
fn timed_run(
    rt: &impl Abort,
    alloc: Global,
    meter: &mut Meter,
    steps: &[Step],
) -> Result<Run, Fail> {
    let mut header = three_tasks(alloc, false)?;
    header.config.units = 10;
    header.queues = Some(Items::new(Vec::new(alloc)));
    let session = session_of(rt, header, Vec::from_slice(alloc, steps)?)?;
    Ok(Run::of_session(alloc, session, meter)?)
}

/// Two runs have three ticks, and time passes between them. The ticks stand together, the calls and
/// the time beside nothing.
#[test]
fn ticks_of_simulated_runs_stand_together(rt: HostRuntime) -> Result<(), Fail> {
    let (alloc, mut meter) = (rt.alloc(), Meter::new(&rt));
    let before = [
        TICK,
        call(0, 2, Call::Yield),
        Step::Pass { units: 5 },
        TICK,
        TICK,
    ];
    let after = [
        Step::Pass { units: 3 },
        TICK,
        TICK,
        call(0, 2, Call::Delay(1)),
        TICK,
    ];
    let run = timed_run(&rt, alloc, &mut meter, &before)?;
    let later = timed_run(&rt, alloc, &mut meter, &after)?;
    let pair = RunPair::of_simulated(alloc, run, later)?;
    for (before, after) in [(0, 1), (3, 2), (4, 4)] {
        assert!(&rt; pair.rows().contains(&Row::Both { before, after }));
    }
    assert_eq!(&rt; pair.rows().len(), 7);
    assert!(&rt; pair.refused().is_empty());
    Ok(())
}
