//! Checked sessions, and what unfinished calls have their tasks wait for.
ghost use Rattle.std.specs.Prelude.{All, IsTrue};
ghost use Rattle.bench_types.specs.Step.{settings_of, IsCheckedStep};

use bench_samples::three_tasks;
use bench_types::{BlockingCall, Call, Cause, CheckedSession, Header, MAX_STEPS, Step, Unfinished};
use std::alloc::Global;
use std::process::Abort;
use std::test::Fail;

pub(crate) const TICK: Step = Step::Tick;

pub(crate) const fn switch(core: u32) -> Step {
    Step::Switch { core }
}

pub(crate) const fn call(core: u32, task: u32, call: Call) -> Step {
    Step::Call { core, task, call }
}

fn is_checked(header: &Header, step: &Step) -> bool
    ensures { IsTrue result → IsCheckedStep (settings_of header.now) step.now }
{
    step.check(header).is_ok()
}

// Whether each step may stand under the header.
fn are_checked(header: &Header, steps: &[Step]) -> bool
    ensures { IsTrue result → All (IsCheckedStep (settings_of header.now)) steps.now }
{
    steps.iter().all(|step| is_checked(header, step))
}

/// Each step may stand under the header, or the test fails.
fn need_checked(rt: &impl Abort, header: &Header, steps: &[Step])
    ensures { All (IsCheckedStep (settings_of header.now)) steps.now }
{
    assert!(rt; are_checked(header, steps));
}

// The session of these steps, if there are not too many.
fn session_of(
    rt: &impl Abort,
    header: Header,
    steps: Vec<Step>,
) -> Result<Option<CheckedSession>, Fail> {
    header.check()?;
    need_checked(rt, &header, steps.as_slice());
    Ok(CheckedSession::new(header, steps))
}

/// The session of these steps of A, B and C.
pub(crate) fn session_of_three(
    rt: &impl Abort,
    alloc: Global,
    steps: &[Step],
) -> Result<CheckedSession, Fail> {
    let header = three_tasks(alloc, false)?;
    match session_of(rt, header, Vec::from_slice(alloc, steps)?)? {
        Some(session) => Ok(session),
        None => Err(Fail::from("more steps than a session may have")),
    }
}

fn assert_steps(rt: &impl Abort, session: &CheckedSession, wanted: &[Step]) {
    assert_eq!(rt; session.steps(), wanted);
    assert_eq!(rt; session.header().tasks.as_slice().len(), 3);
}

#[test]
fn a_session_and_its_parts(rt: HostRuntime) -> Result<(), Fail> {
    let session = session_of_three(&rt, rt.alloc(), &[TICK, switch(1)])?;
    assert_steps(&rt, &session, &[TICK, switch(1)]);
    let copy = session.copy(rt.alloc())?;
    assert_steps(&rt, &copy, &[TICK, switch(1)]);
    let (header, steps) = copy.into_parts();
    assert_eq!(&rt; header.config.cores, 2);
    assert_eq!(&rt; steps.as_slice(), [TICK, switch(1)].as_slice());
    Ok(())
}

#[test]
fn one_step_too_many(rt: HostRuntime) -> Result<(), Fail> {
    let steps = vec![in rt.alloc(); TICK; MAX_STEPS as usize + 1]?;
    let session = session_of(&rt, three_tasks(rt.alloc(), false)?, steps)?;
    assert!(&rt; session.is_none());
    Ok(())
}

/// Calls that have not returned, and what each waits for.
const CAUSES: [(Unfinished, Cause); 5] = [
    (Unfinished::Made(BlockingCall::Delay(3)), Cause::Delay),
    (
        Unfinished::Made(BlockingCall::DelayUntil { prev: 1, inc: 2 }),
        Cause::Delay,
    ),
    (
        Unfinished::Made(BlockingCall::NotifyWait {
            entry: 0,
            exit: 1,
            ticks: 2,
            index: 3,
        }),
        Cause::Notification,
    ),
    (
        Unfinished::Made(BlockingCall::NotifyTake {
            clear: true,
            ticks: 2,
            index: 0,
        }),
        Cause::Notification,
    ),
    (
        Unfinished::Take {
            mutex: 4,
            mark: true,
        },
        Cause::Mutex(4),
    ),
];

#[test]
fn causes_of_waits(rt: HostRuntime) -> Result<(), Fail> {
    for (call, cause) in &CAUSES {
        assert_eq!(&rt; call.cause(), *cause);
    }
    Ok(())
}
