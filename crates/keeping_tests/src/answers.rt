//! The answers of a run's calls, which were worked out by hand.
ghost use Rattle.std.specs.Prelude.{All, IsTrue};
ghost use Rattle.bench_types.specs.Step.{settings_of, IsCheckedStep};

use bench_samples::{PLAIN, header_of};
use bench_types::{Call, CheckedSession, Header, Step};
use run_answers::{Answer, run_answers};
use smp_kernel::Meter;
use std::process::Abort;
use std::test::Fail;

const A: u32 = 2;

const B: u32 = 3;

const fn call(core: u32, task: u32, call: Call) -> Step {
    Step::Call { core, task, call }
}

const fn answer(place: u32, affirmative: bool) -> Option<Answer> {
    Some(Answer { place, affirmative })
}

fn is_checked(header: &Header, step: &Step) -> bool
    ensures { IsTrue result → IsCheckedStep (settings_of header.now) step.now }
{
    step.check(header).is_ok()
}

// Whether each step may stand under the header.
fn are_checked(header: &Header, steps: &[Step]) -> bool
    ensures { IsTrue result → All (IsCheckedStep (settings_of header.now)) steps.now }
{
    steps.iter().all(|step| is_checked(header, step))
}

/// Each step may stand under the header, or the test fails.
fn need_checked(rt: &impl Abort, header: &Header, steps: &[Step])
    ensures { All (IsCheckedStep (settings_of header.now)) steps.now }
{
    assert!(rt; are_checked(header, steps));
}

/// The session of these steps of A and B.
fn session_of<R: Abort>(
    rt: &R,
    host: &HostRuntime,
    steps: &[Step],
) -> Result<CheckedSession, Fail> {
    let header = header_of(host.alloc(), PLAIN, &[("A", 2, 3), ("B", 1, 3)])?;
    header.check()?;
    let steps = Vec::from_slice(host.alloc(), steps)?;
    need_checked(rt, &header, steps.as_slice());
    match CheckedSession::new(header, steps) {
        Some(session) => Ok(session),
        None => Err(Fail::from("more steps than a session may have")),
    }
}

/// A waits for a notification in vain, calls from a core that it is not on, and delays itself; B
/// delays itself at the end.
fn steps() -> [Step; 13] {
    let wait = Call::NotifyTake {
        clear: true,
        ticks: 1,
        index: 0,
    };
    [
        call(0, A, wait),
        Step::Switch { core: 0 },
        call(1, B, Call::StateClear { task: A, index: 0 }),
        Step::Tick,
        Step::Switch { core: 0 },
        call(0, A, Call::Finish),
        call(1, A, Call::Yield),
        call(0, A, Call::Delay(1)),
        Step::Switch { core: 0 },
        Step::Tick,
        Step::Switch { core: 0 },
        call(0, A, Call::Finish),
        call(1, B, Call::Delay(9)),
    ]
}

#[test]
fn answers_of_calls(rt: HostRuntime) -> Result<(), Fail> {
    let session = session_of(&rt, &rt, &steps())?;
    let mut meter = Meter::new(&rt);
    let answers = run_answers(rt.alloc(), &session, &mut meter)?;
    let wanted = [
        answer(5, false),
        None,
        answer(2, false),
        None,
        None,
        answer(5, false),
        answer(6, false),
        answer(11, true),
        None,
        None,
        None,
        answer(11, true),
        None,
    ];
    assert_eq!(&rt; answers.as_slice(), wanted.as_slice());
    assert_eq!(&rt; meter.count(), 13);
    Ok(())
}
