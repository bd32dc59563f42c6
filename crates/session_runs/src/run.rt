//! A session whose steps were made.
ghost use Rattle.std.specs.Prelude.{◌≡◌, ◌+◌, ◌<◌, ◌≤◌, ◌^◌, [], length, option_map, slice_get, slice_set, ℕ, All, IfOk, OnErr, OnOk};
ghost use Rattle.std.specs.Vec.{vec_capacity, vec_len};
ghost use Rattle.bench_types.specs.Limits.{max_steps};
ghost use Rattle.bench_types.specs.Session.{IsCheckedSession};
ghost use Rattle.bench_types.specs.Step.{settings_of, IsCheckedStep};
ghost use Rattle.bench_types.specs.declared.header.Header.{Header};
ghost use Rattle.bench_model.specs.Session.{reply_at};
ghost use Rattle.bench_model.specs.Tally.{tallies};
ghost use Rattle.session_runs.specs.Made.{reply_in, row_at, AreOutcomesOf, IsMade};
ghost use Rattle.smp_kernel.specs.Counting.{meter_after};

use crate::making::start_kernel;
use crate::outcomes::{Outcome, Outcomes};
use crate::walk::RunWalk;
use bench_types::{CheckedSession, Reply, Step};
use settled_runs::WaitingCall;
use smp_kernel::{Kernel, Meter};
use std::alloc::{AllocError, Global};
use std::marker::Model;
use tallies::Tallies;

/// A session whose steps were made, each once: their replies, the tasks that ran, and how the tasks
/// fared. A settled run also has the calls of its session that were not made.
#[derive(Debug)]
pub struct Run {
    session: CheckedSession,
    left: Vec<WaitingCall>,
    outcomes: Outcomes,
}

// Written out, so that whoever drops one has one call to prove, and not one for each list in it.
impl Drop for Run {
    fn drop(self) {
        let Run {
            session: _,
            left: _,
            outcomes: _,
        } = self;
    }
}

impl Model for Run {
    ghost use Rattle.std.specs.Prelude.{◌<◌, ◌^◌, length};
    ghost use Rattle.bench_types.specs.Session.{IsCheckedSession};
    ghost use Rattle.session_runs.specs.Run.{RunView};

    ghost Value = { RunView };

    ghost use Rattle.session_runs.specs.Made.{AreOutcomesOf};

    ghost view = { λ run. record { session = run.session; left = run.left.items } };

    ghost invariant = { λ run. IsCheckedSession run.session
        × (length run.left.items < 2 ^ 32)
        × AreOutcomesOf run.session.header run.session.steps run.outcomes };
}

// Makes the steps on the kernel, and adds what they lead to. There is room for it.
fn make_each(kernel: &mut Kernel, outcomes: &mut Outcomes, steps: &[Step], meter: &mut Meter)
    requires way { (header : Header) × IsMade header [] kernel.old outcomes.old }
    requires steps { All (IsCheckedStep kernel.old.settings) steps.now }
    requires few_steps { length steps.now ≤ max_steps }
    requires none { vec_len outcomes.old.each ≡ 0 }
    requires room { length steps.now ≤ vec_capacity outcomes.old.each }
    ensures made { (header : Header) → IsMade header [] kernel.old outcomes.old
        → IsMade header steps.now kernel.new outcomes.new }
    ensures meter { meter.new ≡ meter_after (length steps.now) meter.old }
{
    for step in steps {
        outcomes.make_next(kernel, step, meter);
    }
}

// What the step at the index led to; `None` past the last.
fn outcome_at(each: &[Outcome], index: u32) -> Option<Outcome>
    ensures { result ≡ slice_get each.now index }
{
    each.get(index as usize).copied()
}

fn reply_in(outcome: Option<Outcome>) -> Option<Reply>
    ensures { result ≡ option_map reply_in outcome }
{
    outcome.map(|outcome| outcome.reply)
}

// The core has the task.
fn put(row: &mut [u32], core: u32, task: u32)
    requires { core < length row.old }
    ensures { row.new ≡ slice_set row.old core task }
{
    row[core as usize] = task;
}

impl Run {
    /// The run of these steps.
    pub(crate) fn of_parts(
        session: CheckedSession,
        left: Vec<WaitingCall>,
        outcomes: Outcomes,
    ) -> Run
        requires session { IsCheckedSession session }
        requires left { length left.items < 2 ^ 32 }
        requires outcomes { AreOutcomesOf session.header session.steps outcomes }
        ensures { result ≡ record { session = session; left = left.items } }
    {
        Run {
            session,
            left,
            outcomes,
        }
    }

    /// The run of the session as its steps stand. The meter counts each step once.
    pub fn of_session(
        alloc: Global,
        session: CheckedSession,
        meter: &mut Meter,
    ) -> Result<Run, AllocError>
        ensures run { IfOk result (λ run. run ≡ record { session = session; left = [] }) }
        ensures meter { OnOk result (meter.new ≡ meter_after (length session.steps) meter.old) }
        ensures uncounted { OnErr result (meter.new ≡ meter.old) }
    {
        let steps = session.steps();
        let mut kernel = start_kernel(alloc, session.header())?;
        let mut outcomes = Outcomes::begin(alloc, &kernel, steps.len())?;
        make_each(&mut kernel, &mut outcomes, steps, meter);
        Ok(Run::of_parts(session, Vec::new(alloc), outcomes))
    }

    /// The session that the steps of the run are.
    pub fn session(&self) -> &CheckedSession
        ensures { result.now ≡ self.now.session }
    {
        &self.session
    }

    /// The calls that were not made, in the order of the session that was settled.
    pub fn left(&self) -> &[WaitingCall]
        ensures left { result.now ≡ self.now.left }
        ensures few { length self.now.left < 2 ^ 32 }
    {
        self.left.as_slice()
    }

    /// The reply of the step at the place; `None` past the last.
    pub fn reply(&self, place: u32) -> Option<Reply>
        ensures { result ≡ reply_at self.now.session.header self.now.session.steps place }
    {
        reply_in(outcome_at(self.outcomes.each.as_slice(), place))
    }

    /// How the tasks fared.
    pub fn tallies(&self) -> &Tallies
        ensures { result.now ≡ tallies self.now.session.header self.now.session.steps }
    {
        &self.outcomes.tallies
    }

    /// The tasks that run at the start, core 0 first.
    pub(crate) fn first_row(&self) -> &[u32]
        ensures row { result.now ≡ row_at self.now.session 0 }
        ensures cores { (place : ℕ) → length (row_at self.now.session place)
            ≡ (settings_of self.now.session.header).cores }
    {
        self.outcomes.first.as_slice()
    }

    /// Makes of the tasks that run before the step at the place those that run after it.
    pub(crate) fn take_step(&self, place: u32, row: &mut [u32])
        requires within { place < length self.now.session.steps }
        requires row { row.old ≡ row_at self.now.session place }
        ensures { row.new ≡ row_at self.now.session (place + 1) }
    {
        let core = self.session.steps()[place as usize].core();
        let outcome = self.outcomes.each[place as usize];
        put(row, core, outcome.current);
    }

    /// A walk over the places of the run.
    pub fn walk(&self, alloc: Global) -> Result<RunWalk<'_>, AllocError>
        ensures { IfOk result (λ walk. walk ≡ self.now.session) }
    {
        RunWalk::of(alloc, self)
    }
}
