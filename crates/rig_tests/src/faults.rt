//! Which headers, limits and arguments are refused.
ghost use Rattle.core_rig.specs.Seats.{IsSeatOf};

use crate::alone::Alone;
use crate::checks::{
    assert_call, assert_counts, assert_interrupt, assert_made, assert_same, assert_tick,
    assert_tried, at, one_more,
};
use crate::rigs::one_task;
use crate::scenes::{Scene, recorded};
use bench_samples::{LARGEST, PLAIN, crowd, three_tasks};
use bench_types::{Call, Config, Fault, Header, MAX_STEPS, MAX_TASKS, Reply};
use core_rig::{CoreSeat, Rig, RigFault, RigRefusal};
use std::process::Abort;
use std::sync::Wait;
use std::test::Fail;

#[test]
fn headers_and_limits_are_tested(rt: HostRuntime) -> Result<(), Fail> {
    let header = one_task(rt.alloc(), PLAIN, 9, 3)?;
    check_rig(&rt, &rt, &header, 1_000_001, Some(RigFault::BadHeader));
    let header = three_tasks(rt.alloc(), false)?;
    check_rig(&rt, &rt, &header, 1_000_001, Some(RigFault::BadLimit));
    check_rig(&rt, &rt, &header, 1_000_000, None);
    Ok(())
}

#[test]
fn cores_are_counted(rt: HostRuntime) -> Result<(), Fail> {
    check_cores(&rt, &rt, 1, Some(RigFault::BadHeader))?;
    check_cores(&rt, &rt, 2, None)?;
    check_cores(&rt, &rt, 32, None)?;
    check_cores(&rt, &rt, 33, Some(RigFault::BadHeader))
}

/// A rig of so many cores is refused for that reason, or made where there is none.
fn check_cores(
    rt: &impl Abort,
    host: &HostRuntime,
    cores: u32,
    why: Option<RigFault>,
) -> Result<(), Fail> {
    let header = one_task(host.alloc(), Config { cores, ..PLAIN }, 1, 3)?;
    check_rig(rt, host, &header, 10, why);
    Ok(())
}

#[test]
fn tasks_are_counted(rt: HostRuntime) -> Result<(), Fail> {
    let header = crowd(rt.alloc(), PLAIN, 513)?;
    check_rig(&rt, &rt, &header, 10, Some(RigFault::BadHeader));
    let header = crowd(rt.alloc(), PLAIN, 512)?;
    check_rig(&rt, &rt, &header, 10, None);
    Ok(())
}

#[test]
fn a_rig_of_the_most_tasks_is_made(rt: HostRuntime) -> Result<(), Fail> {
    let header = crowd(rt.alloc(), LARGEST, MAX_TASKS as usize)?;
    check_rig(&rt, &rt, &header, MAX_STEPS, None);
    Ok(())
}

/// The rig is refused for that reason, or made where there is none.
fn check_rig(
    rt: &impl Abort,
    host: &HostRuntime,
    header: &Header,
    limit: u32,
    why: Option<RigFault>,
) {
    let made = Rig::new(host, host.alloc(), header, limit);
    assert_same(rt, "rig", &made.err(), &why);
}

#[test]
fn arguments_are_tested(rt: HostRuntime) -> Result<(), Fail> {
    let recorded = recorded(&rt, &rt, 10, Scene::Alone(Alone::Arguments))?;
    assert_made(&rt, &recorded, &[1, 0]);
    Ok(())
}

pub fn check_arguments(rt: &(impl Wait + Abort), rig: &Rig, zero: &mut CoreSeat, one: &mut CoreSeat)
    requires zero { IsSeatOf rig.now zero.old }
    requires one { IsSeatOf rig.now one.old }
    ensures zero { IsSeatOf rig.now zero.new }
    ensures one { IsSeatOf rig.now one.new }
{
    check_interrupts(rt, rig, one);
    check_calls(rt, rig, zero);
    assert_tick(rt, rig, one, Err(RigRefusal::Fault(Fault::BadCore)));
    assert_tick(rt, rig, zero, at(0, Reply::Done));
    assert_same(rt, "made", &zero.made(), &1);
    assert_same(rt, "made", &one.made(), &0);
}

fn check_interrupts(rt: &(impl Wait + Abort), rig: &Rig, one: &mut CoreSeat)
    requires { IsSeatOf rig.now one.old }
    ensures { IsSeatOf rig.now one.new }
{
    let bad_task = RigRefusal::Fault(Fault::BadTask);
    assert_interrupt(rt, rig, one, one_more(1), Err(bad_task));
    assert_tried(rt, rig, one, one_more(5), Err(bad_task));
    assert_counts(rt, one, 0, 0);
}

fn check_calls(rt: &(impl Wait + Abort), rig: &Rig, zero: &mut CoreSeat)
    requires { IsSeatOf rig.now zero.old }
    ensures { IsSeatOf rig.now zero.new }
{
    let nobody = Call::StateClear { task: 0, index: 0 };
    refuse_call(rt, rig, zero, nobody, Fault::BadTask);
    refuse_call(rt, rig, zero, Call::MutexGive(0), Fault::BadMutex);
    refuse_call(rt, rig, zero, Call::Suspend(0), Fault::BadTask);
    refuse_call(rt, rig, zero, Call::Resume(2), Fault::BadArgument);
    let no_index = Call::StateClear { task: 2, index: 1 };
    refuse_call(rt, rig, zero, no_index, Fault::BadArgument);
    let nowhere = Call::AffinitySet { task: 2, mask: 4 };
    refuse_call(rt, rig, zero, nowhere, Fault::BadArgument);
    assert_counts(rt, zero, 0, 0);
}

fn refuse_call(rt: &(impl Wait + Abort), rig: &Rig, zero: &mut CoreSeat, call: Call, why: Fault)
    requires { IsSeatOf rig.now zero.old }
    ensures { IsSeatOf rig.now zero.new }
{
    assert_call(rt, rig, zero, call, Err(RigRefusal::Fault(why)));
}
