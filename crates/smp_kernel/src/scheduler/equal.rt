//! Copies of kernels, kernels at another tick count, and whether two are equal.
ghost use Rattle.std.specs.Prelude.{◌≡◌, ◌↔◌, IsTrue, IfOk};
ghost use Rattle.bench_model.specs.Shifted.{untimed, shifted};
ghost use Rattle.smp_kernel.specs.Kernel.{HasSameOrders, but_for_delays};

use super::Scheduler;
use crate::deadlines::Deadlines;
use bench_types::{Hold, Settings, Unfinished};
use mutex_inherit::Mutexes;
use notify_core::Notes;
use ready_core::Cores;
use std::alloc::{AllocError, Global};
use tick_delay::Delays;

impl Scheduler {
    /// A second kernel, equal to this one.
    pub fn copy(&self, alloc: Global) -> Result<Self, AllocError>
        ensures { IfOk result (λ copy. copy ≡ self.now) }
    {
        let (cores, mutexes) = copied_orders(alloc, &self.cores, &self.mutexes)?;
        let (calls, notes) = copied_waits(alloc, &self.calls, &self.notes)?;
        let queues = self.queues.copy(alloc)?;
        let (delays, deadlines) = copied_ends(alloc, &self.delays, &self.deadlines)?;
        Ok(Scheduler {
            settings: self.settings,
            cores,
            calls,
            notes,
            mutexes,
            queues,
            delays,
            deadlines,
            hold: self.hold,
        })
    }

    /// This becomes equal to the other, which has the same settings. No memory is taken.
    pub fn copy_from(&mut self, other: &Self)
        requires { self.old.settings ≡ other.now.settings }
        ensures { self.new ≡ other.now }
    {
        self.cores.copy_from(&other.cores);
        self.calls.copy_from_slice(&other.calls);
        self.notes.copy_from(&other.notes);
        self.mutexes.copy_from(&other.mutexes);
        self.queues.copy_from(&other.queues);
        self.delays.copy_from(&other.delays);
        self.deadlines.copy_from(&other.deadlines);
        self.hold = other.hold;
    }

    /// Whether all that can be seen of the two is equal.
    pub fn same(&self, other: &Self) -> bool
        ensures { IsTrue result ↔ (self.now ≡ other.now) }
    {
        // The tick counts first, since a tick more or less keeps them apart from there on. Nested,
        // so that each test is proved where those before it hold.
        self.tick_count() == other.tick_count()
            && (self.has_same_rest(other) && self.delays.same(&other.delays))
    }

    /// Whether all that can be seen of the two but the tick counts is equal.
    pub fn same_shifted(&self, other: &Self) -> bool
        ensures { IsTrue result ↔ (untimed self.now ≡ untimed other.now) }
    {
        // Nested, so that the second test is proved where the first holds.
        self.has_same_rest(other) && self.delays.same_shifted(&other.delays)
    }

    /// The tick count is so many ticks later, and wraps; nothing else changes. No memory is taken.
    pub fn shift(&mut self, by: u32)
        ensures { self.new ≡ shifted by self.old }
    {
        self.delays.shift(by);
    }

    // Whether all but the tick count and the delays is equal.
    fn has_same_rest(&self, other: &Self) -> bool
        ensures { IsTrue result ↔ (but_for_delays self.now ≡ but_for_delays other.now) }
    {
        have_same_settings(self.settings, other.settings)
            && (have_same_hold(self.hold, other.hold)
                && (have_same_calls(&self.calls, &other.calls)
                    && (self.notes.same(&other.notes) && self.has_same_orders(other))))
    }

    // Whether the cores, the control blocks and the orders of tasks but that of delays are equal,
    // the holders of mutexes and the messages of queues.
    fn has_same_orders(&self, other: &Self) -> bool
        requires { self.now.settings ≡ other.now.settings }
        ensures { IsTrue result ↔ HasSameOrders self.now other.now }
    {
        // Nested, so that each test is proved where those before it hold.
        self.cores.same(&other.cores)
            && (self.mutexes.same(&other.mutexes)
                && (self.queues.same(&other.queues) && self.deadlines.same(&other.deadlines)))
    }
}

fn have_same_settings(settings: Settings, others: Settings) -> bool
    ensures { IsTrue result ↔ (settings ≡ others) }
{
    settings == others
}

fn have_same_hold(hold: Option<Hold>, other: Option<Hold>) -> bool
    ensures { IsTrue result ↔ (hold ≡ other) }
{
    hold == other
}

fn have_same_calls(calls: &[Option<Unfinished>], others: &[Option<Unfinished>]) -> bool
    ensures { IsTrue result ↔ (calls.now ≡ others.now) }
{
    calls == others
}

fn copied_orders(
    alloc: Global,
    cores: &Cores,
    mutexes: &Mutexes,
) -> Result<(Cores, Mutexes), AllocError>
    ensures { IfOk result (λ copies. copies ≡ (cores.now, mutexes.now)) }
{
    Ok((cores.copy(alloc)?, mutexes.copy(alloc)?))
}

fn copied_waits(
    alloc: Global,
    calls: &[Option<Unfinished>],
    notes: &Notes,
) -> Result<(Vec<Option<Unfinished>>, Notes), AllocError>
    ensures calls { IfOk result (λ copies. copies.0.items ≡ calls.now) }
    ensures notes { IfOk result (λ copies. copies.1 ≡ notes.now) }
{
    Ok((Vec::from_slice(alloc, calls)?, notes.copy(alloc)?))
}

fn copied_ends(
    alloc: Global,
    delays: &Delays,
    deadlines: &Deadlines,
) -> Result<(Delays, Deadlines), AllocError>
    ensures { IfOk result (λ copies. copies ≡ (delays.now, deadlines.now)) }
{
    Ok((delays.copy(alloc)?, deadlines.copy(alloc)?))
}
