//! Rigs whose seats one thread uses, one after the other.
ghost use Rattle.core_rig.specs.Seats.{IsSeatOf};

use crate::checks::{
    ISR, assert_call, assert_counts, assert_depth, assert_interrupt, assert_made, assert_reply,
    assert_same, assert_send_tried, assert_sent, assert_switch, assert_tick, assert_tried, at,
    one_more,
};
use crate::faults::check_arguments;
use crate::many::fill;
use crate::rigs::{closed, one_missing, one_task, refused, rig_of, turn};
use crate::scenes::{Scene, play_alone, recorded, recorded_over};
use crate::stopped::make_call;
use bench_samples::{PLAIN, three_tasks};
use bench_types::{
    Call, Config, Fault, Items, Note, NotifyAction, QueueArgs, Refusal, Reply, Step,
};
use core_rig::{CloseFault, CoreSeat, Recorded, Rig, RigRefusal};
use std::alloc::Global;
use std::process::Abort;
use std::sync::Wait;
use std::test::Fail;

/// What two cores do whose seats one thread has.
#[derive(Clone, Copy)]
pub enum Alone {
    /// An interrupt is tried, and another one for which there is no room.
    Tries,
    /// A call takes the value that an interrupt set.
    Value,
    /// A call takes the value that an interrupt of the other core set at index 1.
    SecondIndex,
    /// A hold keeps the last place for its close.
    KeptPlace,
    /// A hold is opened where there is one place.
    OnePlace,
    /// A hold is opened and stays open.
    Open,
    /// The hold that stayed open is closed.
    Close,
    /// A call of an idle task.
    Idle,
    /// Arguments that are at fault.
    Arguments,
    /// A call receives what an interrupt of the other core sent.
    Queue,
    /// Ticks and interrupts in the hold of the other core.
    OtherHold,
    /// An interrupt is tried in an own hold.
    OwnHold,
    /// Nothing finds room.
    NoRoom,
    /// A hold is opened as often as it may be.
    Deepest,
    /// As many entries are made as there may be.
    Most,
}

/// The two cores do that.
pub fn act(
    rt: &(impl Wait + Abort),
    rig: &Rig,
    zero: &mut CoreSeat,
    one: &mut CoreSeat,
    alone: Alone,
)
    requires zero { IsSeatOf rig.now zero.old }
    requires one { IsSeatOf rig.now one.old }
    ensures zero { IsSeatOf rig.now zero.new }
    ensures one { IsSeatOf rig.now one.new }
{
    match alone {
        Alone::Tries => check_tries(rt, rig, one),
        Alone::Value => check_value(rt, rig, zero),
        Alone::SecondIndex => check_second_index(rt, rig, zero, one),
        Alone::KeptPlace => check_kept(rt, rig, zero, one),
        Alone::OnePlace => check_one_place(rt, rig, zero),
        Alone::Open => check_open(rt, rig, zero),
        Alone::Close => close_hold(rt, rig, zero),
        Alone::Idle => assert_call(rt, rig, one, Call::Yield, Err(RigRefusal::IdleHere)),
        Alone::Arguments => check_arguments(rt, rig, zero, one),
        Alone::Queue => check_queue(rt, rig, zero, one),
        Alone::OtherHold => check_other_hold(rt, rig, zero, one),
        Alone::OwnHold => check_own_hold(rt, rig, zero),
        Alone::NoRoom => check_no_room(rt, rig, zero),
        Alone::Deepest => check_deepest(rt, rig, zero),
        Alone::Most => fill(rt, rig, zero),
    }
}

#[test]
fn an_interrupt_is_tried_once(rt: HostRuntime) -> Result<(), Fail> {
    let recorded = recorded(&rt, &rt, 1, Scene::Alone(Alone::Tries))?;
    assert_made(&rt, &recorded, &[0, 1]);
    assert_reply(&rt, recorded.entries.as_slice(), 0, 1, ISR);
    Ok(())
}

fn check_tries(rt: &impl Abort, rig: &Rig, one: &mut CoreSeat)
    requires { IsSeatOf rig.now one.old }
    ensures { IsSeatOf rig.now one.new }
{
    assert_counts(rt, one, 0, 0);
    assert_depth(rt, one, 0);
    assert_tried(rt, rig, one, one_more(2), at(0, ISR));
    assert_counts(rt, one, 1, 1);
    assert_tried(rt, rig, one, one_more(2), Err(RigRefusal::Full));
    assert_counts(rt, one, 1, 1);
}

#[test]
fn a_call_receives_what_an_interrupt_sent(rt: HostRuntime) -> Result<(), Fail> {
    let mut header = three_tasks(rt.alloc(), false)?;
    let queue = QueueArgs {
        length: 1,
        messages: 0,
    };
    header.queues = Some(Items::new(Vec::from_slice(rt.alloc(), &[queue])?));
    let recorded = recorded_over(&rt, &rt, &header, 10, Scene::Alone(Alone::Queue))?;
    assert_made(&rt, &recorded, &[2, 4]);
    Ok(())
}

fn check_queue(rt: &(impl Wait + Abort), rig: &Rig, zero: &mut CoreSeat, one: &mut CoreSeat)
    requires zero { IsSeatOf rig.now zero.old }
    requires one { IsSeatOf rig.now one.old }
    ensures zero { IsSeatOf rig.now zero.new }
    ensures one { IsSeatOf rig.now one.new }
{
    let receive = Call::QueueReceive { queue: 0, ticks: 5 };
    assert_call(rt, rig, zero, receive, at(0, Reply::Blocked));
    assert_switch(rt, rig, zero, Ok(1));
    check_sends(rt, rig, one);
    assert_switch(rt, rig, one, Ok(4));
    assert_call(rt, rig, one, Call::Finish, at(5, Reply::Flag(true)));
}

// The queue has room for one message. There is no queue 1.
fn check_sends(rt: &(impl Wait + Abort), rig: &Rig, one: &mut CoreSeat)
    requires { IsSeatOf rig.now one.old }
    ensures { IsSeatOf rig.now one.new }
{
    let sent = Reply::Isr {
        pass: true,
        pend: true,
    };
    let full = Reply::Isr {
        pass: false,
        pend: true,
    };
    let no_queue = Err(RigRefusal::Fault(Fault::BadMutex));
    assert_sent(rt, rig, one, 0, at(2, sent));
    assert_send_tried(rt, rig, one, 0, at(3, full));
    assert_sent(rt, rig, one, 1, no_queue);
    assert_send_tried(rt, rig, one, 1, no_queue);
}

#[test]
fn a_call_sees_what_an_interrupt_did(rt: HostRuntime) -> Result<(), Fail> {
    let recorded = recorded(&rt, &rt, 10, Scene::Alone(Alone::Value))?;
    check_steps(&rt, rt.alloc(), &recorded)
}

fn check_steps(rt: &impl Abort, alloc: Global, recorded: &Recorded) -> Result<(), Fail> {
    let steps = recorded.steps(alloc)?;
    assert_same(rt, "steps", &steps.len(), &3);
    assert_same(
        rt,
        "step",
        &steps.get(2).copied(),
        &Some(Step::Switch { core: 0 }),
    );
    Ok(())
}

fn check_value(rt: &(impl Wait + Abort), rig: &Rig, zero: &mut CoreSeat)
    requires { IsSeatOf rig.now zero.old }
    ensures { IsSeatOf rig.now zero.new }
{
    assert_interrupt(rt, rig, zero, seven_at(0), at(0, ISR));
    assert_call(rt, rig, zero, value_at(0), at(1, Reply::Value(7)));
    assert_switch(rt, rig, zero, Ok(2));
    assert_counts(rt, zero, 3, 3);
}

// A is notified at the index: its value becomes 7.
fn seven_at(index: u32) -> Note {
    Note {
        task: 2,
        action: NotifyAction::Set(7),
        index,
    }
}

// Asks for A's value at the index.
fn value_at(index: u32) -> Call {
    Call::ValueClear {
        task: 2,
        bits: 0,
        index,
    }
}

#[test]
fn an_interrupt_names_an_index(rt: HostRuntime) -> Result<(), Fail> {
    let config = Config { notes: 2, ..PLAIN };
    let header = one_task(rt.alloc(), config, 2, 3)?;
    let recorded = recorded_over(&rt, &rt, &header, 10, Scene::Alone(Alone::SecondIndex))?;
    assert_made(&rt, &recorded, &[2, 1]);
    Ok(())
}

fn check_second_index(rt: &(impl Wait + Abort), rig: &Rig, zero: &mut CoreSeat, one: &mut CoreSeat)
    requires zero { IsSeatOf rig.now zero.old }
    requires one { IsSeatOf rig.now one.old }
    ensures zero { IsSeatOf rig.now zero.new }
    ensures one { IsSeatOf rig.now one.new }
{
    let bad_index = RigRefusal::Fault(Fault::BadArgument);
    assert_interrupt(rt, rig, one, seven_at(2), Err(bad_index));
    assert_interrupt(rt, rig, one, seven_at(1), at(0, ISR));
    assert_call(rt, rig, zero, value_at(0), at(1, Reply::Value(0)));
    assert_call(rt, rig, zero, value_at(1), at(2, Reply::Value(7)));
}

#[test]
fn a_hold_keeps_a_place(rt: HostRuntime) -> Result<(), Fail> {
    let recorded = recorded(&rt, &rt, 2, Scene::Alone(Alone::KeptPlace))?;
    assert_made(&rt, &recorded, &[2, 0]);
    Ok(())
}

fn check_kept(rt: &(impl Wait + Abort), rig: &Rig, zero: &mut CoreSeat, one: &mut CoreSeat)
    requires zero { IsSeatOf rig.now zero.old }
    requires one { IsSeatOf rig.now one.old }
    ensures zero { IsSeatOf rig.now zero.new }
    ensures one { IsSeatOf rig.now one.new }
{
    open_hold(rt, rig, zero);
    assert_call(rt, rig, zero, Call::Yield, Err(RigRefusal::Full));
    assert_tried(rt, rig, one, one_more(2), Err(RigRefusal::Full));
    assert_interrupt(rt, rig, one, one_more(2), Err(RigRefusal::Full));
    assert_counts(rt, one, 1, 0);
    close_hold(rt, rig, zero);
}

fn open_hold(rt: &(impl Wait + Abort), rig: &Rig, zero: &mut CoreSeat)
    requires { IsSeatOf rig.now zero.old }
    ensures { IsSeatOf rig.now zero.new }
{
    assert_call(rt, rig, zero, Call::HoldOpen, at(0, Reply::Done));
    assert_depth(rt, zero, 1);
}

fn close_hold(rt: &(impl Wait + Abort), rig: &Rig, zero: &mut CoreSeat)
    requires { IsSeatOf rig.now zero.old }
    ensures { IsSeatOf rig.now zero.new }
{
    assert_call(rt, rig, zero, Call::HoldClose, at(1, Reply::Done));
    assert_depth(rt, zero, 0);
}

#[test]
fn a_hold_needs_two_places(rt: HostRuntime) -> Result<(), Fail> {
    let recorded = recorded(&rt, &rt, 1, Scene::Alone(Alone::OnePlace))?;
    assert_made(&rt, &recorded, &[0, 0]);
    Ok(())
}

fn check_one_place(rt: &(impl Wait + Abort), rig: &Rig, zero: &mut CoreSeat)
    requires { IsSeatOf rig.now zero.old }
    ensures { IsSeatOf rig.now zero.new }
{
    assert_call(rt, rig, zero, Call::HoldOpen, Err(RigRefusal::Full));
    assert_depth(rt, zero, 0);
    assert_same(rt, "made", &zero.made(), &0);
}

#[test]
fn an_open_hold_keeps_a_rig_open(rt: HostRuntime) -> Result<(), Fail> {
    let recorded = closed_late(&rt, &rt)?;
    assert_made(&rt, &recorded, &[2, 0]);
    assert_same(&rt, "config", &recorded.header.config, &PLAIN);
    Ok(())
}

/// The rig is closed once its hold is, and all its seats are there, in another order.
fn closed_late(rt: &(impl Wait + Abort), host: &HostRuntime) -> Result<Recorded, Fail> {
    let (rig, mut seats) = rig_of(host, 10)?;
    play_alone(rt, &rig, &mut seats, Alone::Open);
    let (rig, seats) = refused(rt, rig, seats, CloseFault::HoldOpen);
    let (rig, mut seats) = one_missing(rt, rig, seats);
    play_alone(rt, &rig, &mut seats, Alone::Close);
    turn(rt, &rig, &mut seats);
    Ok(closed(rt, rig, seats))
}

fn check_open(rt: &(impl Wait + Abort), rig: &Rig, zero: &mut CoreSeat)
    requires { IsSeatOf rig.now zero.old }
    ensures { IsSeatOf rig.now zero.new }
{
    open_hold(rt, rig, zero);
    assert_switch(rt, rig, zero, Err(RigRefusal::Holding));
}

#[test]
fn an_idle_task_makes_no_call(rt: HostRuntime) -> Result<(), Fail> {
    let header = one_task(rt.alloc(), PLAIN, 2, 3)?;
    let recorded = recorded_over(&rt, &rt, &header, 10, Scene::Alone(Alone::Idle))?;
    assert_same(&rt, "entries", &recorded.entries.as_slice().len(), &0);
    Ok(())
}

/// A tick or an interrupt that waited for the hold would never return.
#[test]
fn ticks_and_interrupts_wait_for_no_hold(rt: HostRuntime) -> Result<(), Fail> {
    let recorded = recorded(&rt, &rt, 10, Scene::Alone(Alone::OtherHold))?;
    assert_made(&rt, &recorded, &[3, 2]);
    Ok(())
}

fn check_other_hold(rt: &(impl Wait + Abort), rig: &Rig, zero: &mut CoreSeat, one: &mut CoreSeat)
    requires zero { IsSeatOf rig.now zero.old }
    requires one { IsSeatOf rig.now one.old }
    ensures zero { IsSeatOf rig.now zero.new }
    ensures one { IsSeatOf rig.now one.new }
{
    assert_call(rt, rig, one, Call::HoldOpen, at(0, Reply::Done));
    assert_tick(rt, rig, zero, at(1, Reply::Done));
    assert_interrupt(rt, rig, zero, one_more(2), at(2, ISR));
    assert_tried(rt, rig, zero, one_more(2), at(3, ISR));
    assert_call(rt, rig, one, Call::HoldClose, at(4, Reply::Done));
}

#[test]
fn an_interrupt_is_tried_in_an_own_hold(rt: HostRuntime) -> Result<(), Fail> {
    let recorded = recorded(&rt, &rt, 10, Scene::Alone(Alone::OwnHold))?;
    assert_made(&rt, &recorded, &[3, 0]);
    Ok(())
}

fn check_own_hold(rt: &(impl Wait + Abort), rig: &Rig, zero: &mut CoreSeat)
    requires { IsSeatOf rig.now zero.old }
    ensures { IsSeatOf rig.now zero.new }
{
    open_hold(rt, rig, zero);
    assert_tried(rt, rig, zero, one_more(2), at(1, ISR));
    assert_call(rt, rig, zero, Call::HoldClose, at(2, Reply::Done));
}

#[test]
fn a_rig_without_room_records_nothing(rt: HostRuntime) -> Result<(), Fail> {
    let recorded = recorded(&rt, &rt, 0, Scene::Alone(Alone::NoRoom))?;
    assert_made(&rt, &recorded, &[0, 0]);
    assert_same(&rt, "entries", &recorded.entries.as_slice().len(), &0);
    Ok(())
}

fn check_no_room(rt: &(impl Wait + Abort), rig: &Rig, zero: &mut CoreSeat)
    requires { IsSeatOf rig.now zero.old }
    ensures { IsSeatOf rig.now zero.new }
{
    assert_call(rt, rig, zero, Call::Yield, Err(RigRefusal::Full));
    assert_call(rt, rig, zero, Call::HoldOpen, Err(RigRefusal::Full));
    assert_call(rt, rig, zero, Call::HoldClose, Err(RigRefusal::Full));
    assert_switch(rt, rig, zero, Err(RigRefusal::Full));
    assert_tick(rt, rig, zero, Err(RigRefusal::Full));
    assert_interrupt(rt, rig, zero, one_more(2), Err(RigRefusal::Full));
    assert_tried(rt, rig, zero, one_more(2), Err(RigRefusal::Full));
    assert_counts(rt, zero, 0, 0);
}

/// The call that would open the hold once more is refused by the kernel, and recorded.
#[test]
fn a_hold_is_opened_255_times(rt: HostRuntime) -> Result<(), Fail> {
    let recorded = recorded(&rt, &rt, 512, Scene::Alone(Alone::Deepest))?;
    assert_made(&rt, &recorded, &[511, 0]);
    assert_reply(
        &rt,
        recorded.entries.as_slice(),
        255,
        0,
        Reply::Refused(Refusal::HoldDeep),
    );
    assert_reply(&rt, recorded.entries.as_slice(), 510, 0, Reply::Done);
    Ok(())
}

fn check_deepest(rt: &(impl Wait + Abort), rig: &Rig, zero: &mut CoreSeat)
    requires { IsSeatOf rig.now zero.old }
    ensures { IsSeatOf rig.now zero.new }
{
    repeat(rt, rig, zero, Call::HoldOpen, 256);
    assert_depth(rt, zero, 255);
    repeat(rt, rig, zero, Call::HoldClose, 255);
    assert_depth(rt, zero, 0);
}

fn repeat(rt: &(impl Wait + Abort), rig: &Rig, zero: &mut CoreSeat, call: Call, times: u32)
    requires { IsSeatOf rig.now zero.old }
    ensures { IsSeatOf rig.now zero.new }
{
    for _ in 0..times {
        make_call(rt, rig, zero, call);
    }
}
