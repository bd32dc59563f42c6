//! What the cores of a rig do in a test. One function has the rig and its seats for all tests that
//! close it at once, since each that has them is dear to prove.
ghost use Rattle.std.specs.Prelude.{All};
ghost use Rattle.core_rig.specs.Seats.{IsSeatOf};

use crate::alone::{Alone, act};
use crate::checks::assert_same;
use crate::many::share;
use crate::rigs::{closed, put_back, rig_over, taken};
use crate::together::interrupt_hold;
use bench_samples::three_tasks;
use bench_types::Header;
use core_rig::{CoreSeat, Recorded, Rig};
use std::process::Abort;
use std::sync::Wait;
use std::test::Fail;
use std::thread::Threads;

/// What the cores do.
#[derive(Clone, Copy)]
pub enum Scene {
    /// One thread uses the seats of two cores.
    Alone(Alone),
    /// Core 1 is interrupted while core 0 holds the kernel, a thread each.
    Together,
    /// Core 0 makes so many ticks, and each other core as many interrupts that notify the task.
    Many {
        threads: usize,
        times: u32,
        task: u32,
    },
}

/// What two cores did that begin with A and B.
pub fn recorded<R: Threads + Wait + Abort + Sync>(
    rt: &R,
    host: &HostRuntime,
    limit: u32,
    scene: Scene,
) -> Result<Recorded, Fail> {
    let header = three_tasks(host.alloc(), false)?;
    recorded_over(rt, host, &header, limit, scene)
}

/// What the cores of the header did.
pub fn recorded_over<R: Threads + Wait + Abort + Sync>(
    rt: &R,
    host: &HostRuntime,
    header: &Header,
    limit: u32,
    scene: Scene,
) -> Result<Recorded, Fail> {
    let (rig, mut seats) = rig_over(host, header, limit)?;
    play(rt, &rig, &mut seats, scene);
    Ok(closed(rt, rig, seats))
}

fn play<R: Threads + Wait + Abort + Sync>(
    rt: &R,
    rig: &Rig,
    seats: &mut Vec<CoreSeat>,
    scene: Scene,
)
    requires { All (IsSeatOf rig.now) seats.old.items }
    ensures { All (IsSeatOf rig.now) seats.new.items }
{
    match scene {
        Scene::Alone(alone) => play_alone(rt, rig, seats, alone),
        Scene::Together => interrupt_hold(rt, rig, seats),
        Scene::Many {
            threads,
            times,
            task,
        } => share(rt, rig, seats, threads, times, task),
    }
}

/// Two cores act as one thread has them.
pub fn play_alone(rt: &(impl Wait + Abort), rig: &Rig, seats: &mut Vec<CoreSeat>, alone: Alone)
    requires { All (IsSeatOf rig.now) seats.old.items }
    ensures { All (IsSeatOf rig.now) seats.new.items }
{
    let mut one = taken(rt, rig, seats);
    let mut zero = taken(rt, rig, seats);
    assert_same(rt, "other seats", &seats.len(), &0);
    assert_same(rt, "core", &zero.core(), &0);
    assert_same(rt, "core", &one.core(), &1);
    act(rt, rig, &mut zero, &mut one, alone);
    put_back(rt, rig, seats, zero);
    put_back(rt, rig, seats, one);
}
