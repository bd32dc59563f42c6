//! Recordings of many entries, which a store answers as they were answered.
ghost use Rattle.std.specs.Prelude.{All};
ghost use Rattle.core_rig.specs.Seats.{IsSeatOf};

use crate::alone::Alone;
use crate::checks::{ISR, assert_counts, assert_made, assert_same, assert_tick, one_more};
use crate::rigs::one_task;
use crate::scenes::{Scene, recorded, recorded_over};
use bench_samples::LARGEST;
use bench_types::{Config, Entry, Reply};
use core_rig::{CoreSeat, Recorded, Rig, RigRefusal};
use session_store::Store;
use smp_kernel::{Kernel, Meter};
use std::process::Abort;
use std::sync::Wait;
use std::test::Fail;
use std::thread::{self, Threads};

/// How many steps are between two checkpoints of a store.
const SPAN: u32 = 64;

/// A state: its tick, and how often a task was notified.
#[derive(Clone, Copy)]
struct End {
    tick: u32,
    task: u32,
    value: u32,
}

#[test]
fn ticks_and_interrupts_come_from_two_threads(rt: HostRuntime) -> Result<(), Fail> {
    let scene = Scene::Many {
        threads: 2,
        times: 1_000,
        task: 4,
    };
    let recorded = recorded(&rt, &rt, 2_000, scene)?;
    assert_made(&rt, &recorded, &[1_000, 1_000]);
    check_interrupts(&rt, recorded.entries.as_slice());
    let end = End {
        tick: 1_000,
        task: 4,
        value: 1_000,
    };
    check_session(&rt, &rt, &recorded, 2_000, end)
}

fn check_interrupts(rt: &impl Abort, entries: &[Entry]) {
    for entry in entries {
        let reply = if entry.core == 0 { Reply::Done } else { ISR };
        assert_same(rt, "reply", &entry.reply, &reply);
    }
}

#[test]
fn the_most_threads_record_32_000_entries(rt: HostRuntime) -> Result<(), Fail> {
    let scene = Scene::Many {
        threads: 32,
        times: 1_000,
        task: 32,
    };
    let header = one_task(rt.alloc(), LARGEST, 1, u32::MAX)?;
    let recorded = recorded_over(&rt, &rt, &header, 32_000, scene)?;
    assert_made(&rt, &recorded, &[1_000; 32]);
    let end = End {
        tick: 999,
        task: 32,
        value: 31_000,
    };
    check_session(&rt, &rt, &recorded, 32_000, end)
}

#[test]
fn eight_threads_record_100_000_entries(rt: HostRuntime) -> Result<(), Fail> {
    let scene = Scene::Many {
        threads: 8,
        times: 12_500,
        task: 8,
    };
    let config = Config {
        cores: 8,
        ..LARGEST
    };
    let header = one_task(rt.alloc(), config, 1, 255)?;
    let recorded = recorded_over(&rt, &rt, &header, 100_000, scene)?;
    assert_made(&rt, &recorded, &[12_500; 8]);
    let end = End {
        tick: 12_499,
        task: 8,
        value: 87_500,
    };
    check_session(&rt, &rt, &recorded, 100_000, end)
}

#[test]
fn the_most_entries_are_recorded(rt: HostRuntime) -> Result<(), Fail> {
    let recorded = recorded(&rt, &rt, 1_000_000, Scene::Alone(Alone::Most))?;
    assert_made(&rt, &recorded, &[1_000_000, 0]);
    Ok(())
}

/// Core 0 makes as many ticks as there may be entries, and finds no room for one more.
pub fn fill(rt: &(impl Wait + Abort), rig: &Rig, zero: &mut CoreSeat)
    requires { IsSeatOf rig.now zero.old }
    ensures { IsSeatOf rig.now zero.new }
{
    act_alone(rt, rig, zero, 1_000_000, 2);
    assert_tick(rt, rig, zero, Err(RigRefusal::Full));
    assert_counts(rt, zero, 1_000_000, 1_000_000);
}

/// The seats of the most cores are used by one thread, each once, and by a thread each.
#[test]
fn each_of_the_most_cores_makes_an_entry(rt: HostRuntime) -> Result<(), Fail> {
    check_most_cores(&rt, &rt, 1)?;
    check_most_cores(&rt, &rt, 32)
}

fn check_most_cores<R: Threads + Wait + Abort + Sync>(
    rt: &R,
    host: &HostRuntime,
    threads: usize,
) -> Result<(), Fail> {
    let scene = Scene::Many {
        threads,
        times: 1,
        task: 32,
    };
    let header = one_task(host.alloc(), LARGEST, 1, u32::MAX)?;
    let recorded = recorded_over(rt, host, &header, 32, scene)?;
    assert_made(rt, &recorded, &[1; 32]);
    let end = End {
        tick: 0,
        task: 32,
        value: 31,
    };
    check_session(rt, host, &recorded, 32, end)
}

/// So many entries were recorded, a store of them answers as they were answered, and ends so.
fn check_session(
    rt: &impl Abort,
    host: &HostRuntime,
    recorded: &Recorded,
    entries: u32,
    end: End,
) -> Result<(), Fail> {
    assert_same(
        rt,
        "entries",
        &recorded.entries.as_slice().len(),
        &(entries as usize),
    );
    let store = store_of(host, recorded)?;
    check_replies(rt, &store, recorded.entries.as_slice());
    check_end(rt, host, &store, entries, end)
}

/// A store of what was recorded.
fn store_of(rt: &HostRuntime, recorded: &Recorded) -> Result<Store, Fail> {
    let header = recorded.header.copy(rt.alloc())?;
    let steps = recorded.steps(rt.alloc())?;
    Ok(Store::open(rt.alloc(), header, steps, SPAN, &mut Meter::new(rt))?)
}

fn check_replies(rt: &impl Abort, store: &Store, entries: &[Entry]) {
    for (place, entry) in entries.iter().enumerate() {
        check_reply(rt, store, place, entry);
    }
}

fn check_reply(rt: &impl Abort, store: &Store, place: usize, entry: &Entry) {
    let place = u32::try_from(place).expect(rt, "a place");
    assert_same(rt, "reply", &store.reply(place), &Some(entry.reply));
}

fn check_end(
    rt: &impl Abort,
    host: &HostRuntime,
    store: &Store,
    place: u32,
    end: End,
) -> Result<(), Fail> {
    let last = store.state(host.alloc(), place, &mut Meter::new(host))?;
    check_kernel(rt, &last.expect(rt, "the last place"), end);
    Ok(())
}

fn check_kernel(rt: &impl Abort, kernel: &Kernel, end: End) {
    assert_same(rt, "tick", &kernel.tick(), &end.tick);
    assert!(rt; end.task < kernel.settings().tasks);
    assert_same(rt, "value", &kernel.look(end.task).value, &end.value);
}

/// Core 0 makes so many ticks, and each other core as many interrupts that notify the task.
pub fn share<R: Threads + Wait + Abort + Sync>(
    rt: &R,
    rig: &Rig,
    seats: &mut [CoreSeat],
    threads: usize,
    times: u32,
    task: u32,
)
    requires { All (IsSeatOf rig.now) seats.old }
    ensures { All (IsSeatOf rig.now) seats.new }
{
    assert!(rt; 0 < threads);
    thread::for_each_mut(
        rt,
        seats,
        threads,
        &|_, seat: &mut CoreSeat|
            requires { IsSeatOf rig.now seat.now }
            ensures { IsSeatOf rig.entry.now seat.new }
        { act_alone(rt, rig, seat, times, task) },
    );
}

fn act_alone(rt: &(impl Wait + Abort), rig: &Rig, seat: &mut CoreSeat, times: u32, task: u32)
    requires { IsSeatOf rig.now seat.old }
    ensures { IsSeatOf rig.now seat.new }
{
    for _ in 0..times {
        act_once(rt, rig, seat, task);
    }
    assert_same(rt, "made", &seat.made(), &u64::from(times));
}

fn act_once(rt: &(impl Wait + Abort), rig: &Rig, seat: &mut CoreSeat, task: u32)
    requires { IsSeatOf rig.now seat.old }
    ensures { IsSeatOf rig.now seat.new }
{
    let answer = if seat.core() == 0 {
        seat.tick(rt, rig)
    } else {
        seat.interrupt(rt, rig, one_more(task))
    };
    assert!(rt; answer.is_ok());
}
