//! Runs of workloads, worked out by hand.
use crate::texts::workload;
use bench_types::{Call, Direction, Step};
use simulating::{SimulateFault, simulate};
use smp_kernel::Meter;
use std::alloc::Global;
use std::process::Abort;
use std::test::Fail;
use workload_text::read_workload;

const CONTROL: u32 = 2;

const IDLER: u32 = 3;

fn switch(core: u32) -> Step {
    Step::Switch { core }
}

fn pass(units: u32) -> Step {
    Step::Pass { units }
}

/// A call of the first task, which is on core 0 throughout.
fn control(call: Call) -> Step {
    Step::Call {
        core: 0,
        task: CONTROL,
        call,
    }
}

fn send(core: u32) -> Step {
    Step::QueueInterrupt {
        core,
        queue: 0,
        direction: Direction::Send,
    }
}

/// The task that does nothing suspends itself.
fn idles() -> Step {
    Step::Call {
        core: 1,
        task: IDLER,
        call: Call::Suspend(IDLER),
    }
}

/// A period of two ticks, with works of 1500 and 700 units in turn.
const PERIOD: &str = "{\"forever\":[{\"do\":\"delay_until\",\"inc\":2},{\"work\":[1500,700]}]}";

const PERIOD_INTERRUPT: &str = "{\"at\":2500,\"do\":\"isr_send\",\"core\":1,\"queue\":0}";

fn period_run() -> [Step; 33] {
    [
        control(Call::DelayUntil { prev: 0, inc: 2 }),
        switch(0),
        idles(),
        switch(1),
        pass(1000),
        Step::Tick,
        switch(0),
        switch(1),
        pass(1000),
        Step::Tick,
        switch(0),
        switch(1),
        control(Call::Finish),
        pass(500),
        send(1),
        pass(500),
        Step::Tick,
        switch(1),
        pass(500),
        control(Call::DelayUntil { prev: 2, inc: 2 }),
        switch(0),
        pass(500),
        Step::Tick,
        switch(0),
        switch(1),
        control(Call::Finish),
        pass(700),
        control(Call::DelayUntil { prev: 4, inc: 2 }),
        switch(0),
        pass(300),
        Step::Tick,
        switch(0),
        switch(1),
    ]
}

/// A loop that ends at the first message, and a mutex behind it.
const BRANCHES: &str =
    "{\"repeat\":2,\"of\":[{\"do\":\"queue_receive\",\"queue\":0,\"ticks\":0,\"then\":[\"break\"],\"else\":[{\"work\":300}]}]},{\"do\":\"mutex_take\",\"mutex\":0,\"ticks\":0},{\"work\":200}";

const BRANCHES_INTERRUPT: &str =
    "{\"at\":100,\"every\":300,\"do\":\"isr_send\",\"core\":0,\"queue\":0}";

fn branches_run() -> [Step; 19] {
    [
        control(Call::QueueReceive { queue: 0, ticks: 0 }),
        idles(),
        switch(1),
        pass(100),
        send(0),
        pass(200),
        control(Call::QueueReceive { queue: 0, ticks: 0 }),
        control(Call::MutexTake { mutex: 0, ticks: 0 }),
        pass(100),
        send(0),
        pass(100),
        control(Call::Suspend(CONTROL)),
        switch(0),
        pass(200),
        send(0),
        pass(300),
        Step::Tick,
        switch(0),
        switch(1),
    ]
}

fn check_run(
    rt: &impl Abort,
    alloc: Global,
    meter: &mut Meter,
    text: &str,
    steps: &[Step],
    at_end: &[bool],
) -> Result<(), Fail> {
    match read_workload(alloc, text.as_bytes()) {
        Ok(workload) => {
            let simulated = simulate(alloc, &workload, meter)?;
            assert_eq!(rt; simulated.session.steps(), steps);
            assert_eq!(rt; simulated.at_end.as_slice(), at_end);
            assert_eq!(rt; meter.count(), steps.len() as u64);
        }
        Err(fault) => assert!(rt; false, "{}", fault.path.as_str()),
    }
    Ok(())
}

#[test]
fn works_in_turn_and_an_interrupt_within_a_tick(rt: HostRuntime) -> Result<(), Fail> {
    let text = workload(rt.alloc(), PERIOD, PERIOD_INTERRUPT, "5")?;
    check_run(
        &rt,
        rt.alloc(),
        &mut Meter::new(&rt),
        text.as_str(),
        &period_run(),
        &[false, true],
    )
}

#[test]
fn branches_and_an_interrupt_that_comes_again(rt: HostRuntime) -> Result<(), Fail> {
    let text = workload(rt.alloc(), BRANCHES, BRANCHES_INTERRUPT, "1")?;
    check_run(
        &rt,
        rt.alloc(),
        &mut Meter::new(&rt),
        text.as_str(),
        &branches_run(),
        &[true, true],
    )
}

/// The run of the text is too long, and the task alone makes its last calls.
fn check_too_long(
    rt: &impl Abort,
    alloc: Global,
    meter: &mut Meter,
    text: &str,
    lone: Option<u32>,
) {
    match read_workload(alloc, text.as_bytes()) {
        Ok(workload) => match simulate(alloc, &workload, meter) {
            Err(SimulateFault::TooManySteps { caller }) => assert_eq!(rt; caller, lone),
            _ => assert!(rt; false),
        },
        Err(_) => assert!(rt; false),
    }
}

#[test]
fn calls_without_end(rt: HostRuntime) -> Result<(), Fail> {
    let text = workload(rt.alloc(), "{\"forever\":[{\"do\":\"yield\"}]}", "", "1")?;
    check_too_long(
        &rt,
        rt.alloc(),
        &mut Meter::new(&rt),
        text.as_str(),
        Some(CONTROL),
    );
    Ok(())
}

/// Both tasks suspend themselves at once, and then two steps a tick come, and no call.
#[test]
fn ticks_without_calls(rt: HostRuntime) -> Result<(), Fail> {
    let text = workload(rt.alloc(), "", "", "1000000")?;
    check_too_long(&rt, rt.alloc(), &mut Meter::new(&rt), text.as_str(), None);
    Ok(())
}
