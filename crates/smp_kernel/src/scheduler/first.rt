//! The parts of a kernel before any core has selected.
ghost use Rattle.std.specs.Prelude.{◌≡◌, ◌<◌, ◌+◌, ◌*◌, ◌^◌, IfOk, Ok, None, All, replicate};
ghost use Rattle.bench_types.specs.Header.{header_check};
ghost use Rattle.bench_model.specs.Cores.{cores_of};
ghost use Rattle.bench_model.specs.Start.{first_lists, first_values, unstarted};
ghost use Rattle.bench_model.specs.Waiters.{event_lists};
ghost use Rattle.mutex_inherit.specs.Parts.{free_mutexes};
ghost use Rattle.notify_core.specs.Parts.{fresh_notes};
ghost use Rattle.tick_delay.specs.Parts.{no_delays};

use crate::deadlines::Deadlines;
use bench_types::{Header, Settings, Unfinished};
use mutex_inherit::Mutexes;
use notify_core::Notes;
use ready_core::Cores;
use std::alloc::{AllocError, Global};
use tick_delay::Delays;

#[tactic(auto, unfolding(bench_model::specs::Start::unstarted))]
pub(super) fn first_orders(
    alloc: Global,
    header: &Header,
    settings: Settings,
) -> Result<(Cores, Mutexes), AllocError>
    requires passes { header_check header.now ≡ Ok tt }
    requires few { settings.tasks + event_lists settings < 2 ^ 32 }
    requires priorities { settings.priorities ≡ header.now.config.priorities }
    ensures cores { IfOk result
        (λ parts. parts.0 ≡ cores_of (unstarted (first_lists header.now) header.now)) }
    ensures mutexes { IfOk result
        (λ parts. parts.1
        ≡ free_mutexes settings.tasks settings.priorities settings.mutexes (event_lists settings)
        (first_values header.now)) }
{
    let cores = Cores::new(alloc, header)?;
    let (tasks, priorities) = (settings.tasks, settings.priorities);
    let values = first_values(alloc, header, &cores)?;
    let lists = event_lists(settings);
    let mutexes = Mutexes::new(alloc, tasks, priorities, settings.mutexes, lists, values)?;
    Ok((cores, mutexes))
}

// How many event lists there are: one for each mutex, and two for each queue.
fn event_lists(settings: Settings) -> u32
    requires { event_lists settings < 2 ^ 32 }
    ensures { result ≡ event_lists settings }
{
    settings.mutexes + 2 * settings.queues.unwrap_or(0)
}

// Each task's list value is its base priority, where the session has list values.
#[tactic(auto, unfolding(bench_model::specs::Start::unstarted))]
fn first_values(alloc: Global, header: &Header, cores: &Cores) -> Result<Vec<u32>, AllocError>
    requires { cores.now ≡ cores_of (unstarted (first_lists header.now) header.now) }
    ensures values { IfOk result (λ values. values.items ≡ first_values header.now) }
    ensures below { IfOk result
        (λ values. All (λ value. value < cores.now.priorities) values.items) }
{
    if header.queues.is_some() {
        cores.bases(alloc)
    } else {
        Ok(Vec::new(alloc))
    }
}

pub(super) fn no_waits(
    alloc: Global,
    tasks: u32,
    entries: u32,
) -> Result<(Vec<Option<Unfinished>>, Notes), AllocError>
    requires { tasks * entries < 2 ^ 32 }
    ensures calls { IfOk result (λ parts. parts.0.items ≡ replicate tasks None) }
    ensures notes { IfOk result (λ parts. parts.1 ≡ fresh_notes tasks entries) }
{
    Ok((no_calls(alloc, tasks)?, Notes::new(alloc, tasks, entries)?))
}

fn no_calls(alloc: Global, tasks: u32) -> Result<Vec<Option<Unfinished>>, AllocError>
    ensures { IfOk result (λ calls. calls.items ≡ replicate tasks None) }
{
    let mut calls = Vec::with_capacity(alloc, tasks as usize)?;
    for _task in 0..tasks {
        calls.push(None)?;
    }
    Ok(calls)
}

pub(super) fn no_ends(
    alloc: Global,
    tick: u32,
    tasks: u32,
) -> Result<(Delays, Deadlines), AllocError>
    requires { tasks + 2 < 2 ^ 32 }
    ensures delays { IfOk result (λ parts. parts.0 ≡ no_delays tick tasks) }
    ensures word { IfOk result (λ parts. parts.0.tick < 2 ^ 32) }
    ensures deadlines { IfOk result (λ parts. parts.1 ≡ replicate tasks None) }
{
    Ok((
        Delays::new(alloc, tick, tasks)?,
        Deadlines::new(alloc, tasks)?,
    ))
}
