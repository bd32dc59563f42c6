//! Runs that keep work beside each other. The rows were found by hand, by the rule alone.
ghost use Rattle.std.specs.Prelude.{◌≡◌, All, IfOk, IsTrue};
ghost use Rattle.bench_types.specs.Edit.{IsCheckedEdit};
ghost use Rattle.bench_types.specs.Step.{settings_of, IsCheckedStep};
ghost use Rattle.run_comparisons.specs.Shared.{AreMomentsOf};

use bench_samples::three_tasks;
use bench_types::{CheckedSession, Edit, Header, Items, Step};
use kept_runs::{KnownLimit, LimitReason};
use run_comparisons::{Row, RunPair, compare};
use run_views::Places;
use session_edits::EditedSession;
use session_runs::Run;
use smp_kernel::Meter;
use std::alloc::Global;
use std::process::Abort;
use std::test::Fail;

/// The run after the edits is known up to the last tick that both have.
const KNOWN: &str = "- 0 - tick: done; A B
  1 0 pass units 250: done; A B
  2 1 tick: done; A B
- 3 - pass units 250: done; A B
known until place 2: B has made its last call
  4 2 tick: done; A B
+ - 3 pass units 250: done; A B
";

/// The same with the rows of place 3 alone.
const KNOWN_AT: &str = "- 3 - pass units 250: done; A B
known until place 2: B has made its last call
+ - 3 pass units 250: done; A B
rows at other places, left out: 4
";

/// It is known up to its end.
const KNOWN_TO_THE_END: &str = "- 0 - tick: done; A B
  1 0 pass units 250: done; A B
  2 1 tick: done; A B
- 3 - pass units 250: done; A B
  4 2 tick: done; A B
+ - 3 pass units 250: done; A B
known until place 4: C got false where it got true
";

/// The same with the rows of place 0 alone.
const KNOWN_TO_THE_END_AT: &str = "- 0 - tick: done; A B
  1 0 pass units 250: done; A B
known until place 4: C got false where it got true
rows at other places, left out: 4
";

/// What stands behind the rows: there is one tick less.
const FARED: &str = "the runs differ first at 0 - and last at - 3
task IDLE0 wait -1
task IDLE1 wait -1
task A run on core 0 -1
task B run on core 1 -1
task C wait -1
";

pub(crate) const TICK: Step = Step::Tick;

const PASS: Step = Step::Pass { units: 250 };

fn is_checked(header: &Header, step: &Step) -> bool
    ensures { IsTrue result → IsCheckedStep (settings_of header.now) step.now }
{
    step.check(header).is_ok()
}

// Whether each step may stand under the header.
fn are_checked(header: &Header, steps: &[Step]) -> bool
    ensures { IsTrue result → All (IsCheckedStep (settings_of header.now)) steps.now }
{
    steps.iter().all(|step| is_checked(header, step))
}

// Each step may stand under the header, or the test fails.
fn need_checked(rt: &impl Abort, header: &Header, steps: &[Step])
    ensures { All (IsCheckedStep (settings_of header.now)) steps.now }
{
    assert!(rt; are_checked(header, steps));
}

// The session of these steps.
pub(crate) fn session_of(
    rt: &impl Abort,
    header: Header,
    steps: Vec<Step>,
) -> Result<CheckedSession, Fail>
    ensures { IfOk result
        (λ session. session ≡ record { header = header; steps = steps.items }) }
{
    header.check()?;
    need_checked(rt, &header, steps.as_slice());
    match CheckedSession::new(header, steps) {
        Some(session) => Ok(session),
        None => Err(Fail::from("more steps than a session may have")),
    }
}

// Whether the edit fits the header.
fn fits(header: &Header, edit: &Edit) -> bool
    ensures { IsTrue result → IsCheckedEdit header.now edit.now }
{
    edit.check(header).is_ok()
}

// Whether each edit fits the header.
fn all_fit(header: &Header, edits: &[Edit]) -> bool
    ensures { IsTrue result → All (IsCheckedEdit header.now) edits.now }
{
    edits.iter().all(|edit| fits(header, edit))
}

// Each edit fits the header, or the test fails.
pub(crate) fn need_fitting(rt: &impl Abort, header: &Header, edits: &[Edit])
    ensures { All (IsCheckedEdit header.now) edits.now }
{
    assert!(rt; all_fit(header, edits));
}

// Of a header in which a tick has 1000 units of time, a session of these steps, and edits of it.
fn edited_of(
    rt: &impl Abort,
    alloc: Global,
    steps: &[Step],
    edits: &[Edit],
) -> Result<EditedSession, Fail> {
    let mut header = three_tasks(alloc, false)?;
    header.queues = Some(Items::new(Vec::new(alloc)));
    header.config.units = 1000;
    let session = session_of(rt, header, Vec::from_slice(alloc, steps)?)?;
    need_fitting(rt, session.header(), edits);
    Ok(EditedSession::make(alloc, session, Vec::from_slice(alloc, edits)?)?)
}

// The run of the steps of the session, behind which further ones stand.
fn followed(
    rt: &impl Abort,
    alloc: Global,
    meter: &mut Meter,
    session: &CheckedSession,
    further: &[Step],
) -> Result<Run, Fail>
    ensures { IfOk result
        (λ run. AreMomentsOf session.now.steps run.session.steps) }
{
    let mut steps = Vec::from_slice(alloc, session.steps())?;
    steps.extend_from_slice(further)?;
    let session = session_of(rt, session.header().copy(alloc)?, steps)?;
    Ok(Run::of_session(alloc, session, meter)?)
}

// Two runs, the second of which is known up to there. The first tick is removed.
fn pair_of(
    rt: &impl Abort,
    alloc: Global,
    meter: &mut Meter,
    known: Option<KnownLimit>,
) -> Result<RunPair, Fail> {
    let edited = edited_of(rt, alloc, &[TICK, PASS, TICK], &[Edit::Remove { at: 0 }])?;
    let before = followed(rt, alloc, meter, edited.session(), &[PASS, TICK])?;
    let after = followed(rt, alloc, meter, edited.edited(), &[TICK, PASS])?;
    let refused = Vec::from_slice(alloc, &[7])?;
    Ok(RunPair::of_kept(alloc, &edited, before, after, refused, known)?)
}

/// The last tick of the session stands beside itself, behind it the first further tick of both, and
/// time only beside time between the same ticks.
#[test]
fn ticks_of_runs_that_keep_work_stand_together(rt: HostRuntime) -> Result<(), Fail> {
    let pair = pair_of(&rt, rt.alloc(), &mut Meter::new(&rt), None)?;
    let rows = [
        Row::Removed(0),
        Row::Both {
            before: 1,
            after: 0,
        },
        Row::Both {
            before: 2,
            after: 1,
        },
        Row::Removed(3),
        Row::Both {
            before: 4,
            after: 2,
        },
        Row::Inserted(3),
    ];
    assert_eq!(&rt; pair.rows(), rows.as_slice());
    assert_eq!(&rt; pair.refused(), [7].as_slice());
    assert_eq!(&rt; pair.known(), None);
    assert_eq!(&rt; pair.known_place(), None);
    Ok(())
}

// The runs are compared in these lines, and behind them as ever.
fn check_compared(
    rt: &impl Abort,
    alloc: Global,
    pair: &RunPair,
    shown: Option<Places>,
    lines: &str,
) -> Result<(), Fail> {
    let text = compare(alloc, pair, shown)?;
    let wanted = format!(in alloc; "{lines}{FARED}")?;
    assert_eq!(rt; text.as_str(), wanted.as_str());
    Ok(())
}

/// So far the run after the edits is known: told before the row there, also where the row is left
/// out.
#[test]
fn a_row_from_which_on_a_run_is_not_known(rt: HostRuntime) -> Result<(), Fail> {
    let alloc = rt.alloc();
    let known = KnownLimit {
        place: 2,
        task: 3,
        reason: LimitReason::End,
    };
    let pair = pair_of(&rt, alloc, &mut Meter::new(&rt), Some(known))?;
    assert_eq!(&rt; pair.known(), Some(known));
    assert_eq!(&rt; pair.known_place(), Some(2));
    check_compared(&rt, alloc, &pair, None, KNOWN)?;
    let third = Places { from: 3, to: 3 };
    check_compared(&rt, alloc, &pair, Some(third), KNOWN_AT)
}

/// Up to the end of the run: told behind the last row.
#[test]
fn a_run_that_is_known_to_its_end(rt: HostRuntime) -> Result<(), Fail> {
    let alloc = rt.alloc();
    let known = KnownLimit {
        place: 4,
        task: 4,
        reason: LimitReason::Answer { affirmative: false },
    };
    let pair = pair_of(&rt, alloc, &mut Meter::new(&rt), Some(known))?;
    assert_eq!(&rt; pair.known_place(), Some(4));
    check_compared(&rt, alloc, &pair, None, KNOWN_TO_THE_END)?;
    let first = Places { from: 0, to: 0 };
    check_compared(&rt, alloc, &pair, Some(first), KNOWN_TO_THE_END_AT)
}
