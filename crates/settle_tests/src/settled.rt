//! Settled runs. A program that was written apart from this one made the runs.
ghost use Rattle.std.specs.Prelude.{◌≡◌, All, IfOk, IsTrue, Ok};
ghost use Rattle.bench_types.specs.Step.{settings_of, step_check, IsCheckedStep};

use bench_samples::three_tasks;
use bench_types::{Call, CheckedSession, Header, Items, Refusal, Step};
use session_runs::Run;
use settled_runs::WaitingCall;
use settling::{SettleFault, push_left, settle};
use smp_kernel::{Kernel, Meter};
use std::alloc::Global;
use std::process::Abort;
use std::test::Fail;

pub(crate) const TICK: Step = Step::Tick;

pub(crate) const fn switch(core: u32) -> Step {
    Step::Switch { core }
}

pub(crate) const fn call(core: u32, task: u32, call: Call) -> Step {
    Step::Call { core, task, call }
}

fn is_checked(header: &Header, step: &Step) -> bool
    ensures { IsTrue result → IsCheckedStep (settings_of header.now) step.now }
{
    step.check(header).is_ok()
}

// Whether each step may stand under the header.
fn are_checked(header: &Header, steps: &[Step]) -> bool
    ensures { IsTrue result → All (IsCheckedStep (settings_of header.now)) steps.now }
{
    steps.iter().all(|step| is_checked(header, step))
}

/// Each step may stand under the header, or the test fails.
fn need_checked(rt: &impl Abort, header: &Header, steps: &[Step])
    ensures { All (IsCheckedStep (settings_of header.now)) steps.now }
{
    assert!(rt; are_checked(header, steps));
}

/// The session of these steps.
pub(crate) fn session_of(
    rt: &impl Abort,
    header: Header,
    steps: Vec<Step>,
) -> Result<CheckedSession, Fail>
    ensures { IfOk result
        (λ session. session ≡ record { header = header; steps = steps.items }) }
{
    header.check()?;
    need_checked(rt, &header, steps.as_slice());
    match CheckedSession::new(header, steps) {
        Some(session) => Ok(session),
        None => Err(Fail::from("more steps than a session may have")),
    }
}

// The session of these steps of A, B and C, with time slices or without.
fn session_of_three(
    rt: &impl Abort,
    alloc: Global,
    slicing: bool,
    steps: &[Step],
) -> Result<CheckedSession, Fail> {
    session_of(
        rt,
        three_tasks(alloc, slicing)?,
        Vec::from_slice(alloc, steps)?,
    )
}

fn settled_of(rt: &impl Abort, host: &HostRuntime, steps: &[Step]) -> Result<Run, Fail> {
    let session = session_of_three(rt, host.alloc(), false, steps)?;
    Ok(settle(host.alloc(), &session, &mut Meter::new(host))?)
}

fn assert_run(rt: &impl Abort, settled: &Run, run: &[Step]) {
    assert_eq!(rt; settled.session().steps(), run);
}

fn assert_left(rt: &impl Abort, settled: &Run, left: &[WaitingCall]) {
    assert_eq!(rt; settled.left(), left);
}

fn check(
    rt: &impl Abort,
    host: &HostRuntime,
    steps: &[Step],
    run: &[Step],
    left: &[WaitingCall],
) -> Result<(), Fail> {
    let settled = settled_of(rt, host, steps)?;
    assert_run(rt, &settled, run);
    assert_left(rt, &settled, left);
    Ok(())
}

#[test]
fn no_steps(rt: HostRuntime) -> Result<(), Fail> {
    check(&rt, &rt, &[], &[], &[])
}

/// C yields once A has left a core to it, A comes back to the other core, and its last call waits
/// for it when it leaves again. The switch of the session is none of the run.
#[test]
fn switches_and_returns_of_a_target(rt: HostRuntime) -> Result<(), Fail> {
    let steps = [
        call(0, 4, Call::Yield),
        call(1, 2, Call::Delay(2)),
        switch(0),
        TICK,
        TICK,
        TICK,
        call(0, 2, Call::Delay(1)),
        call(0, 2, Call::Yield),
    ];
    let run = [
        call(0, 2, Call::Delay(2)),
        switch(0),
        call(0, 4, Call::Yield),
        switch(0),
        TICK,
        TICK,
        switch(1),
        call(1, 2, Call::Finish),
        TICK,
        call(1, 2, Call::Delay(1)),
        switch(1),
    ];
    let left = [WaitingCall {
        task: 2,
        call: Call::Yield,
    }];
    check(&rt, &rt, &steps, &run, &left)
}

/// C never runs, so its call is not made; that of B behind it is, on the core of B.
#[test]
fn a_call_that_is_not_made(rt: HostRuntime) -> Result<(), Fail> {
    let steps = [call(0, 4, Call::Yield), call(0, 3, Call::PreemptOff(3))];
    let run = [call(1, 3, Call::PreemptOff(3))];
    let left = [WaitingCall {
        task: 4,
        call: Call::Yield,
    }];
    check(&rt, &rt, &steps, &run, &left)
}

// Its tasks can be suspended, and a tick has 1000 units of time.
fn session_of_format_3(
    rt: &impl Abort,
    alloc: Global,
    steps: &[Step],
) -> Result<CheckedSession, Fail> {
    let mut header = three_tasks(alloc, false)?;
    header.queues = Some(Items::new(Vec::new(alloc)));
    header.config.units = 1000;
    session_of(rt, header, Vec::from_slice(alloc, steps)?)
}

const RESUME_B: Step = Step::ResumeInterrupt { core: 0, task: 3 };

const QUARTER: Step = Step::Pass { units: 250 };

fn suspending() -> [Step; 9] {
    [
        call(0, 2, Call::Suspend(3)),
        call(1, 3, Call::Yield),
        QUARTER,
        call(1, 4, Call::Delay(2)),
        TICK,
        RESUME_B,
        call(0, 2, Call::Suspend(2)),
        call(0, 2, Call::Yield),
        TICK,
    ]
}

fn suspending_settled() -> [Step; 15] {
    [
        call(0, 2, Call::Suspend(3)),
        switch(1),
        QUARTER,
        call(1, 4, Call::Delay(2)),
        switch(1),
        TICK,
        RESUME_B,
        switch(1),
        call(1, 3, Call::Yield),
        switch(1),
        call(0, 2, Call::Suspend(2)),
        switch(0),
        TICK,
        switch(0),
        call(0, 4, Call::Finish),
    ]
}

/// B is suspended, and its call waits until an interrupt resumed it; A suspends itself, and its
/// last call is not made. Time that goes by stays where it is.
#[test]
fn suspended_tasks_make_no_call(rt: HostRuntime) -> Result<(), Fail> {
    let session = session_of_format_3(&rt, rt.alloc(), &suspending())?;
    let settled = settle(rt.alloc(), &session, &mut Meter::new(&rt))?;
    assert_run(&rt, &settled, &suspending_settled());
    let left = WaitingCall {
        task: 2,
        call: Call::Yield,
    };
    assert_left(&rt, &settled, &[left]);
    Ok(())
}

// What is told of a session of so many calls of C.
fn told_of_calls(rt: &impl Abort, host: &HostRuntime, calls: usize) -> Result<String, Fail> {
    let steps = vec![in host.alloc(); call(0, 4, Call::Yield); calls]?;
    let settled = settled_of(rt, host, steps.as_slice())?;
    let mut text = String::new(host.alloc());
    push_left(&mut text, settled.session().header(), settled.left())?;
    Ok(text)
}

fn assert_told(rt: &impl Abort, told: &str, wanted: &str) {
    assert_eq!(rt; told, wanted);
}

/// A and B keep both cores, so C never runs, and none of its calls is made.
#[test]
fn a_hundred_calls_that_are_not_made(rt: HostRuntime) -> Result<(), Fail> {
    assert_told(&rt, told_of_calls(&rt, &rt, 99)?.as_str(), "C 99");
    assert_told(&rt, told_of_calls(&rt, &rt, 100)?.as_str(), "C 100");
    assert_told(&rt, told_of_calls(&rt, &rt, 101)?.as_str(), "C 101");
    Ok(())
}

// Why a session of so many ticks under time slices is not settled.
fn fault_of_ticks(
    rt: &impl Abort,
    host: &HostRuntime,
    ticks: usize,
) -> Result<Option<SettleFault>, Fail> {
    let steps = vec![in host.alloc(); TICK; ticks]?;
    let session = session_of_three(rt, host.alloc(), true, steps.as_slice())?;
    match settle(host.alloc(), &session, &mut Meter::new(host)) {
        Ok(_) => Ok(None),
        Err(why) => Ok(Some(why)),
    }
}

fn assert_fault(rt: &impl Abort, fault: Option<SettleFault>, wanted: Option<SettleFault>) {
    assert_eq!(rt; fault, wanted);
}

/// At each tick B and C take turns on core 1, so a session of 500,001 ticks settles to 1,000,002
/// steps, two more than a session may have.
#[test]
fn runs_that_are_too_long(rt: HostRuntime) -> Result<(), Fail> {
    assert_fault(&rt, fault_of_ticks(&rt, &rt, 500_000)?, None);
    let wanted = Some(SettleFault::TooManySteps);
    assert_fault(&rt, fault_of_ticks(&rt, &rt, 500_001)?, wanted);
    Ok(())
}

/// The step may stand under the header, or the test fails.
fn need_step(rt: &impl Abort, header: &Header, step: &Step)
    ensures { step_check (settings_of header.now) step.now ≡ Ok tt }
{
    assert!(rt; step.check(header).is_ok());
}

fn refusal_at_start(
    rt: &impl Abort,
    host: &HostRuntime,
    step: Step,
) -> Result<Option<Refusal>, Fail> {
    let header = three_tasks(host.alloc(), false)?;
    need_step(rt, &header, &step);
    Ok(Kernel::start(host.alloc(), &header)?.refusal(&step))
}

fn check_refusal(
    rt: &impl Abort,
    host: &HostRuntime,
    step: Step,
    wanted: Option<Refusal>,
) -> Result<(), Fail> {
    let refusal = refusal_at_start(rt, host, step)?;
    assert_eq!(rt; refusal, wanted);
    Ok(())
}

#[test]
fn refusals_at_the_start(rt: HostRuntime) -> Result<(), Fail> {
    check_refusal(&rt, &rt, TICK, None)?;
    check_refusal(&rt, &rt, call(0, 2, Call::Yield), None)?;
    check_refusal(&rt, &rt, switch(0), Some(Refusal::NotDue))?;
    check_refusal(&rt, &rt, call(0, 4, Call::Yield), Some(Refusal::Displaced))?;
    check_refusal(&rt, &rt, call(0, 2, Call::Finish), Some(Refusal::NotInCall))
}
