//! Runs that a program made that was written apart from this one.
ghost use Rattle.std.specs.Prelude.{◌≡◌, ◌<◌, ◌≤◌, ◌+◌, ◌^◌, All, IfOk, OnOk, length, true};
ghost use Rattle.bench_types.specs.Step.{settings_of};
ghost use Rattle.keeping.specs.Progress.{IsComing};
ghost use Rattle.keeping.specs.Works.{IsUnmade};

use bench_samples::{PLAIN, header_of};
use bench_types::{Call, Config, Header, Items, Step};
use keeping::{Kept, keep_run};
use kept_runs::{CallOrder, Clock, KnownLimit, LimitReason, Outside, Unmade};
use smp_kernel::Meter;
use std::alloc::{AllocError, Global};
use std::process::Abort;
use std::test::Fail;

const A: u32 = 2;

const B: u32 = 3;

const C: u32 = 4;

const fn call(task: u32, call: Call, units: u64, later: u64) -> Unmade {
    Unmade {
        task,
        call: Some(call),
        work: Clock { units, later },
    }
}

const fn end(task: u32, units: u64) -> Unmade {
    Unmade {
        task,
        call: None,
        work: Clock { units, later: 0 },
    }
}

fn calls() -> [Unmade; 6] {
    [
        call(B, Call::Yield, 4, 0),
        call(A, Call::Delay(1), 4, 0),
        call(B, Call::Delay(5), 3, 1),
        end(A, 20),
        end(B, 9),
        end(C, 1),
    ]
}

const fn coming(step: Step) -> Outside {
    Outside {
        step,
        joined: false,
    }
}

/// A tick of which the last unit goes by right before it.
const JOINED: Outside = Outside {
    step: Step::Tick,
    joined: true,
};

fn comings() -> [Outside; 4] {
    let pass = coming(Step::Pass { units: 10 });
    [pass, JOINED, pass, coming(Step::Tick)]
}

/// Whether the call may be one of a session of the header.
fn may_call(header: &Header, one: &Unmade) -> bool
    ensures { result ≡ true → IsUnmade (settings_of header.now) one.now }
{
    let cores = header.config.cores;
    if one.task < cores || header.tasks.as_slice().len() <= (one.task - cores) as usize {
        return false;
    }
    match one.call {
        None => true,
        Some(Call::Finish) => false,
        Some(call) => call.check(header).is_ok(),
    }
}

/// Whether the step may be one from outside of a session of the header.
fn may_come(header: &Header, one: &Outside) -> bool
    ensures { result ≡ true → IsComing (settings_of header.now) one.now }
{
    match one.step {
        Step::Tick | Step::Pass { .. } => one.step.check(header).is_ok(),
        _ => false,
    }
}

/// Adds the call if it may be.
fn push_call(header: &Header, checked: &mut Vec<Unmade>, one: &Unmade) -> Result<(), AllocError>
    requires { All (IsUnmade (settings_of header.now)) checked.old.items }
    ensures all { OnOk result (All (IsUnmade (settings_of header.now)) checked.new.items) }
    ensures few { OnOk result (length checked.new.items ≤ length checked.old.items + 1) }
{
    if !may_call(header, one) {
        return Ok(());
    }
    checked.push(*one)?;
    Ok(())
}

/// Adds the step if it may be.
fn push_coming(header: &Header, checked: &mut Vec<Outside>, one: &Outside) -> Result<(), AllocError>
    requires { All (IsComing (settings_of header.now)) checked.old.items }
    ensures { OnOk result (All (IsComing (settings_of header.now)) checked.new.items) }
{
    if !may_come(header, one) {
        return Ok(());
    }
    checked.push(*one)?;
    Ok(())
}

/// The calls that may be.
fn checked_calls(
    alloc: Global,
    header: &Header,
    calls: &[Unmade],
) -> Result<Vec<Unmade>, AllocError>
    requires { length calls.now < 2 ^ 32 }
    ensures all { IfOk result (λ checked. All (IsUnmade (settings_of header.now)) checked.items) }
    ensures few { IfOk result (λ checked. length checked.items < 2 ^ 32) }
{
    let mut checked = Vec::new(alloc);
    for one in calls {
        push_call(header, &mut checked, one)?;
    }
    Ok(checked)
}

/// The steps from outside that may be.
fn checked_comings(
    alloc: Global,
    header: &Header,
    comings: &[Outside],
) -> Result<Vec<Outside>, AllocError>
    ensures { IfOk result (λ checked. All (IsComing (settings_of header.now)) checked.items) }
{
    let mut checked = Vec::new(alloc);
    for one in comings {
        push_coming(header, &mut checked, one)?;
    }
    Ok(checked)
}

/// The run of tasks with these calls and ends, between these steps from outside.
fn keep(
    host: &HostRuntime,
    order: CallOrder,
    config: Config,
    tasks: &[(&str, u32, u32)],
    calls: &[Unmade],
    comings: &[Outside],
) -> Result<Kept, Fail>
    requires { length calls.now < 2 ^ 32 }
{
    let alloc = host.alloc();
    let mut header = header_of(alloc, config, tasks)?;
    header.queues = Some(Items::new(Vec::new(alloc)));
    header.check()?;
    let unmade = checked_calls(alloc, &header, calls)?;
    let outside = checked_comings(alloc, &header, comings)?;
    let mut meter = Meter::new(host);
    Ok(keep_run(alloc, order, &header, unmade, outside, &mut meter)?)
}

const fn end_of(task: u32, place: usize) -> Option<KnownLimit> {
    Some(KnownLimit {
        place,
        task,
        reason: LimitReason::End,
    })
}

fn makes<R: Abort>(
    rt: &R,
    host: &HostRuntime,
    order: CallOrder,
    steps: &[Step],
) -> Result<(), Fail> {
    let config = Config {
        slicing: true,
        units: 10,
        ..PLAIN
    };
    let tasks = [("A", 2, 3), ("B", 1, 3), ("C", 1, 3)];
    let kept = keep(host, order, config, &tasks, &calls(), &comings())?;
    assert_eq!(rt; kept.run.session().steps(), steps);
    assert_eq!(rt; kept.run.left().len(), 0);
    // C has worked for its one unit, and the rest of the pass comes.
    assert_eq!(rt; kept.end, end_of(C, 6));
    Ok(())
}

fn made(core: u32, task: u32, call: Call) -> Step {
    Step::Call { core, task, call }
}

#[test]
fn oldest_call_first(rt: HostRuntime) -> Result<(), Fail> {
    let steps = [
        Step::Pass { units: 4 },
        made(1, B, Call::Yield),
        Step::Switch { core: 1 },
        made(0, A, Call::Delay(1)),
        Step::Switch { core: 0 },
        Step::Pass { units: 1 },
        Step::Pass { units: 2 },
        made(0, B, Call::Delay(5)),
        Step::Switch { core: 0 },
        Step::Pass { units: 3 },
        Step::Tick,
        Step::Switch { core: 0 },
        made(0, A, Call::Finish),
        Step::Pass { units: 10 },
        Step::Tick,
    ];
    makes(&rt, &rt, CallOrder::Oldest, &steps)
}

#[test]
fn call_of_the_least_core_first(rt: HostRuntime) -> Result<(), Fail> {
    let steps = [
        Step::Pass { units: 4 },
        made(0, A, Call::Delay(1)),
        Step::Switch { core: 0 },
        made(1, B, Call::Yield),
        Step::Switch { core: 1 },
        Step::Pass { units: 1 },
        Step::Pass { units: 2 },
        made(1, B, Call::Delay(5)),
        Step::Switch { core: 1 },
        Step::Pass { units: 3 },
        Step::Tick,
        Step::Switch { core: 1 },
        made(1, A, Call::Finish),
        Step::Pass { units: 10 },
        Step::Tick,
    ];
    makes(&rt, &rt, CallOrder::LeastCore, &steps)
}

const TWO: [(&str, u32, u32); 2] = [("A", 2, 3), ("B", 1, 3)];

// A has worked for its two units at the third tick.
#[test]
fn ticks_go_on_behind_an_end(rt: HostRuntime) -> Result<(), Fail> {
    let calls = [call(B, Call::Delay(3), 3, 0), end(A, 2), end(B, 5)];
    let comings = [coming(Step::Tick); 4];
    let kept = keep(&rt, CallOrder::Oldest, PLAIN, &TWO, &calls, &comings)?;
    let steps = [
        Step::Tick,
        Step::Tick,
        Step::Tick,
        made(1, B, Call::Delay(3)),
        Step::Switch { core: 1 },
        Step::Tick,
    ];
    assert_eq!(&rt; kept.run.session().steps(), steps.as_slice());
    assert_eq!(&rt; kept.end, end_of(A, 2));
    Ok(())
}

// Between a tick and its last unit no task is at its end: only the second pass finds A there.
#[test]
fn no_end_within_a_tick(rt: HostRuntime) -> Result<(), Fail> {
    let config = Config { units: 10, ..PLAIN };
    let calls = [end(A, 10), end(B, 15)];
    let kept = keep(&rt, CallOrder::Oldest, config, &TWO, &calls, &comings())?;
    let pass = Step::Pass { units: 5 };
    let steps = [Step::Pass { units: 10 }, Step::Tick, pass, pass, Step::Tick];
    assert_eq!(&rt; kept.run.session().steps(), steps.as_slice());
    assert_eq!(&rt; kept.end, end_of(A, 2));
    Ok(())
}

#[test]
fn no_task_at_its_end(rt: HostRuntime) -> Result<(), Fail> {
    let calls = [end(A, 3), end(B, 2)];
    let comings = [coming(Step::Tick); 2];
    let kept = keep(&rt, CallOrder::Oldest, PLAIN, &TWO, &calls, &comings)?;
    assert_eq!(&rt; kept.run.session().steps().len(), 2);
    assert_eq!(&rt; kept.end, None);
    Ok(())
}
