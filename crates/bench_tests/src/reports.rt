//! The tallies of tasks: before any step, a copy of them, those of a kernel's steps, and those that
//! a store keeps.
ghost use Rattle.std.specs.Prelude.{◌≡◌, ◌<◌, suc, length, All, IfOk, Ok};
ghost use Rattle.bench_types.specs.Step.{settings_of, step_check};
ghost use Rattle.bench_model.specs.Tallied.{shape, shape_of, AllCountsBelow};

use crate::replays::need_checked;
use crate::samples::{A_DELAYS, Opened, SWITCH_0, SWITCH_1, assert_same, assert_text, three_tasks};
use bench_samples::low_and_high;
use bench_types::{Call, Header, Step, Tally};
use session_store::Store;
use smp_kernel::{Kernel, Meter};
use std::alloc::{AllocError, Global};
use std::process::Abort;
use std::test::Fail;
use tallies::Tallies;

const INITIAL: &str = "\
task IDLE0 run 0 0 wait 0 inverted 0 in 0 displaced 0 timeouts 0 top 0
task IDLE1 run 0 0 wait 0 inverted 0 in 0 displaced 0 timeouts 0 top 0
task A run 0 0 wait 0 inverted 0 in 0 displaced 0 timeouts 0 top 2
task B run 0 0 wait 0 inverted 0 in 0 displaced 0 timeouts 0 top 1
task C run 0 0 wait 0 inverted 0 in 0 displaced 0 timeouts 0 top 1
";

fn initial(host: &HostRuntime, header: &Header) -> Result<Tallies, Fail> {
    let kernel = Kernel::start(host.alloc(), header)?;
    Ok(Tallies::begin(host.alloc(), &kernel)?)
}

#[test]
fn tallies_as_text(rt: HostRuntime) -> Result<(), Fail> {
    check_initial(&rt, &rt, &three_tasks(rt.alloc(), 2, true)?)
}

fn check_initial(rt: &impl Abort, host: &HostRuntime, header: &Header) -> Result<(), Fail> {
    let tallies = initial(host, header)?;
    assert_has_text(rt, host.alloc(), header, &tallies, INITIAL)?;
    assert_has_text(
        rt,
        host.alloc(),
        header,
        &tallies.copy(host.alloc())?,
        INITIAL,
    )
}

/// The tallies have this text under the header.
fn assert_has_text(
    rt: &impl Abort,
    alloc: Global,
    header: &Header,
    tallies: &Tallies,
    wanted: &str,
) -> Result<(), Fail> {
    assert_text(rt, &tallies.text(alloc, header)?, wanted);
    Ok(())
}

/// A goes to the core of another task, and C twice; ticks find the idle tasks waiting.
pub(crate) const SHARED: [Step; 8] = [
    A_DELAYS,
    SWITCH_0,
    Step::Tick,
    SWITCH_0,
    SWITCH_1,
    Step::Tick,
    SWITCH_0,
    SWITCH_1,
];

const SHARED_TALLIES: &str = "\
task IDLE0 run 0 0 wait 2 inverted 0 in 0 displaced 0 timeouts 0 top 0
task IDLE1 run 0 0 wait 2 inverted 0 in 0 displaced 0 timeouts 0 top 0
task A run 0 0 wait 0 inverted 0 in 1 displaced 0 timeouts 0 top 2
task B run 0 2 wait 0 inverted 0 in 0 displaced 0 timeouts 0 top 1
task C run 2 0 wait 0 inverted 0 in 2 displaced 0 timeouts 0 top 1
";

/// L takes a mutex that H then waits for, one tick long, and not long enough.
const RUN_OUT: [Step; 5] = [
    Step::Call {
        core: 1,
        task: 2,
        call: Call::MutexTake { mutex: 0, ticks: 0 },
    },
    Step::Call {
        core: 0,
        task: 3,
        call: Call::MutexTake { mutex: 0, ticks: 1 },
    },
    Step::Tick,
    SWITCH_0,
    Step::Call {
        core: 0,
        task: 3,
        call: Call::Finish,
    },
];

const RUN_OUT_TALLIES: &str = "\
task IDLE0 run 0 0 wait 1 inverted 0 in 0 displaced 0 timeouts 0 top 0
task IDLE1 run 0 0 wait 1 inverted 0 in 0 displaced 0 timeouts 0 top 0
task L run 0 1 wait 0 inverted 0 in 0 displaced 0 timeouts 0 top 3
task H run 1 0 wait 0 inverted 0 in 0 displaced 0 timeouts 1 top 3
";

/// After A yields in place of its delay.
pub(crate) const YIELDED_TALLIES: &str = "\
task IDLE0 run 0 0 wait 2 inverted 0 in 0 displaced 0 timeouts 0 top 0
task IDLE1 run 0 0 wait 2 inverted 0 in 0 displaced 0 timeouts 0 top 0
task A run 2 0 wait 0 inverted 0 in 0 displaced 0 timeouts 0 top 2
task B run 0 1 wait 1 inverted 0 in 1 displaced 0 timeouts 0 top 1
task C run 0 1 wait 1 inverted 0 in 1 displaced 0 timeouts 0 top 1
";

// What the steps take, each made and counted at once.
fn tallied(
    alloc: Global,
    kernel: &mut Kernel,
    meter: &mut Meter,
    steps: &[Step],
) -> Result<Tallies, AllocError>
    requires steps { All (λ step. step_check kernel.old.settings step ≡ Ok tt) steps.now }
    requires few { length steps.now < 1000 }
    ensures shape { IfOk result (λ tallies. shape tallies ≡ shape_of kernel.old.settings) }
    ensures room { IfOk result (AllCountsBelow 1000) }
    ensures settings { kernel.new.settings ≡ kernel.old.settings }
{
    let mut tallies = Tallies::begin(alloc, kernel)?;
    for step in steps {
        tallies.make_next(kernel, meter, step);
    }
    Ok(tallies)
}

// What they take, each counted after it was made, by a copy of the kernel before it.
fn tallied_by_copies(
    alloc: Global,
    kernel: &mut Kernel,
    meter: &mut Meter,
    steps: &[Step],
) -> Result<Tallies, AllocError>
    requires steps { All (λ step. step_check kernel.old.settings step ≡ Ok tt) steps.now }
    requires few { length steps.now < 1000 }
{
    let mut tallies = Tallies::begin(alloc, kernel)?;
    for step in steps {
        let before = kernel.copy(alloc)?;
        let reply = kernel.step(meter, step);
        tallies.step(&before, step, reply, kernel);
    }
    Ok(tallies)
}

// Adds what one part takes to what an earlier one took.
fn add_part(tallies: &mut Tallies, more: &Tallies)
    requires shapes { shape tallies.old ≡ shape more.now }
    requires room { AllCountsBelow 1000 tallies.old }
    requires more { AllCountsBelow 1000 more.now }
{
    tallies.add(more);
}

// What both parts of the steps take, the second counted by itself and added.
fn tallied_in_parts(
    alloc: Global,
    kernel: &mut Kernel,
    meter: &mut Meter,
    first: &[Step],
    second: &[Step],
) -> Result<Tallies, AllocError>
    requires first { All (λ step. step_check kernel.old.settings step ≡ Ok tt) first.now }
    requires second { All (λ step. step_check kernel.old.settings step ≡ Ok tt) second.now }
    requires few { length first.now < 1000 }
    requires few_more { length second.now < 1000 }
{
    let mut tallies = tallied(alloc, kernel, meter, first)?;
    add_part(&mut tallies, &tallied(alloc, kernel, meter, second)?);
    Ok(tallies)
}

#[test]
fn tallies_of_two_parts(rt: HostRuntime) -> Result<(), Fail> {
    check_parts(&rt, &rt, &three_tasks(rt.alloc(), 2, true)?)
}

// A kernel is dear to drop, so it is made where one call follows and no other way out.
fn check_parts(rt: &impl Abort, host: &HostRuntime, header: &Header) -> Result<(), Fail> {
    check_parts_from(rt, host, header, &mut Kernel::start(host.alloc(), header)?)
}

fn check_parts_from(
    rt: &impl Abort,
    host: &HostRuntime,
    header: &Header,
    kernel: &mut Kernel,
) -> Result<(), Fail>
    requires { kernel.old.settings ≡ settings_of header.now }
{
    let (first, second) = SHARED.split_at(5);
    need_checked(rt, header, first);
    need_checked(rt, header, second);
    let mut meter = Meter::new(host);
    let tallies = tallied_in_parts(host.alloc(), kernel, &mut meter, first, second)?;
    assert_has_text(rt, host.alloc(), header, &tallies, SHARED_TALLIES)
}

#[test]
fn tallies_by_copies_of_the_kernel(rt: HostRuntime) -> Result<(), Fail> {
    check_copies(&rt, &rt, &three_tasks(rt.alloc(), 2, true)?)
}

fn check_copies(rt: &impl Abort, host: &HostRuntime, header: &Header) -> Result<(), Fail> {
    check_copies_from(rt, host, header, &mut Kernel::start(host.alloc(), header)?)
}

fn check_copies_from(
    rt: &impl Abort,
    host: &HostRuntime,
    header: &Header,
    kernel: &mut Kernel,
) -> Result<(), Fail>
    requires { kernel.old.settings ≡ settings_of header.now }
{
    need_checked(rt, header, &SHARED);
    let tallies = tallied_by_copies(host.alloc(), kernel, &mut Meter::new(host), &SHARED)?;
    assert_has_text(rt, host.alloc(), header, &tallies, SHARED_TALLIES)
}

#[test]
fn tallies_are_reset(rt: HostRuntime) -> Result<(), Fail> {
    check_again(&rt, &rt, &three_tasks(rt.alloc(), 2, true)?)
}

fn check_again(rt: &impl Abort, host: &HostRuntime, header: &Header) -> Result<(), Fail> {
    check_again_from(rt, host, header, &mut Kernel::start(host.alloc(), header)?)
}

fn check_again_from(
    rt: &impl Abort,
    host: &HostRuntime,
    header: &Header,
    kernel: &mut Kernel,
) -> Result<(), Fail>
    requires { kernel.old.settings ≡ settings_of header.now }
{
    need_checked(rt, header, &SHARED);
    let mut tallies = tallied(host.alloc(), kernel, &mut Meter::new(host), &SHARED)?;
    assert!(rt; tallies.len() == kernel.settings().tasks as usize);
    tallies.reset(kernel);
    assert_has_text(rt, host.alloc(), header, &tallies, INITIAL)
}

fn check_in_turn(
    rt: &impl Abort,
    host: &HostRuntime,
    header: &Header,
    steps: &[Step],
    wanted: &str,
) -> Result<(), Fail>
    requires { length steps.now < 1000 }
{
    let mut kernel = Kernel::start(host.alloc(), header)?;
    check_in_turn_from(rt, host, header, &mut kernel, steps, wanted)
}

fn check_in_turn_from(
    rt: &impl Abort,
    host: &HostRuntime,
    header: &Header,
    kernel: &mut Kernel,
    steps: &[Step],
    wanted: &str,
) -> Result<(), Fail>
    requires few { length steps.now < 1000 }
    requires fits { kernel.old.settings ≡ settings_of header.now }
{
    need_checked(rt, header, steps);
    let tallies = tallied(host.alloc(), kernel, &mut Meter::new(host), steps)?;
    assert_has_text(rt, host.alloc(), header, &tallies, wanted)
}

#[test]
fn tallies_step_after_step(rt: HostRuntime) -> Result<(), Fail> {
    check_shared(&rt, &rt, &three_tasks(rt.alloc(), 2, true)?)?;
    check_run_out(&rt, &rt, &low_and_high(rt.alloc())?)
}

fn check_shared(rt: &impl Abort, host: &HostRuntime, header: &Header) -> Result<(), Fail> {
    check_in_turn(rt, host, header, &SHARED, SHARED_TALLIES)
}

fn check_run_out(rt: &impl Abort, host: &HostRuntime, header: &Header) -> Result<(), Fail> {
    check_in_turn(rt, host, header, &RUN_OUT, RUN_OUT_TALLIES)
}

const OF_C: Tally = Tally {
    wait: 0,
    inverted: 0,
    switched: 2,
    displaced: 0,
    timeouts: 0,
    top: 1,
};

#[test]
fn numbers_of_a_task(rt: HostRuntime) -> Result<(), Fail> {
    let opened = Opened::new(&rt, true, &SHARED)?;
    check_tallied(&rt, rt.alloc(), &opened.store)
}

fn check_tallied(rt: &impl Abort, alloc: Global, store: &Store) -> Result<(), Fail> {
    check_numbers(rt, &store.tallies(alloc)?);
    Ok(())
}

fn check_numbers(rt: &impl Abort, tallies: &Tallies) {
    assert_eq!(rt; tallies.len(), 5);
    assert!(rt; 1 < tallies.cores(4));
    assert_same(rt, "numbers of C", &tallies.get(4), &OF_C);
    assert_same(
        rt,
        "ticks of C",
        &(tallies.run_on(4, 0), tallies.run_on(4, 1)),
        &(2, 0),
    );
}
