//! Settling: events come in turn, each followed by quiet work.
ghost use Rattle.std.specs.Prelude.{◌≡◌, ◌<◌, ◌≤◌, ◌+◌, [], IfOk, OnErr, OnOk, Err, ℕ, length, true, None, Some, if◌then◌else◌};
ghost use Rattle.bench_types.specs.Limits.{max_steps};
ghost use Rattle.bench_types.specs.Step.{settings_of, IsCheckedStep};
ghost use Rattle.settled_runs.specs.Runs.{IsSettledTooLong};
ghost use Rattle.settled_runs.specs.Settled.{quiet_step};
ghost use Rattle.settled_runs.specs.SettleLaws.{comes_from_outside};
ghost use Rattle.session_runs.specs.Run.{IsRunOf};
ghost use Rattle.smp_kernel.specs.Counting.{meter_after, CountsUpTo};
ghost use Rattle.settling.specs.Places.{begins, call_in, is_waiting_call, step_at, waiting_at, HasCallers};
ghost use Rattle.settling.specs.Progress.{waiting_in, with_step, HasCounted, IsAt, IsResting};

use crate::queues::{Queues, caller};
use crate::searches::next_piece;
use bench_types::{Call, CheckedSession, MAX_STEPS, Step};
use session_runs::{Run, RunMaker};
use settled_runs::WaitingCall;
use smp_kernel::Meter;
use std::alloc::{AllocError, Global};
use thiserror::Error;

/// Why a session was not settled.
#[derive(Clone, Copy, Debug, PartialEq, Eq, Error)]
pub enum SettleFault {
    /// J2: the settled run has more than [`MAX_STEPS`] steps.
    #[error("the settled run is too long")]
    TooManySteps,
    /// The allocator had no memory left.
    #[error("out of memory")]
    NoMemory,
}

impl From<AllocError> for SettleFault {
    ghost use Rattle.std.specs.Prelude.{◌≡◌};
    ghost use Rattle.settling.specs.declared.run.SettleFault.TheVariants.{NoMemory};

    ghost from_gives = { λ _ fault. fault ≡ NoMemory };

    fn from(_error: AllocError) -> Self {
        SettleFault::NoMemory
    }
}

// The settled run as far as it was made.
#[derive(Drop)]
pub(crate) struct Settling {
    run: RunMaker,
    queues: Queues,
    // So many steps of the session have come.
    come: usize,
}

impl Settling {
    // Before the first piece of quiet work.
    fn start(alloc: Global, session: &CheckedSession) -> Result<Settling, AllocError>
        ensures entered { IfOk result (λ settling. IsAt session.now settling) }
        ensures empty { IfOk result (λ settling. settling.run.steps ≡ []) }
    {
        let header = session.header().copy(alloc)?;
        let run = RunMaker::start(alloc, header)?;
        let tasks = run.kernel().settings().tasks;
        let queues = Queues::new(alloc, tasks, session.steps())?;
        Ok(Settling {
            run,
            queues,
            come: 0,
        })
    }

    // The step is the next one of the run.
    fn make(&mut self, step: Step, meter: &mut Meter) -> Result<(), SettleFault>
        requires { IsCheckedStep (settings_of self.old.run.header) step }
        ensures made { OnOk result (self.new ≡ with_step step self.old) }
        ensures room { OnOk result (length self.new.run.steps ≤ max_steps) }
        ensures full { result ≡ Err SettleFault.TooManySteps
            → max_steps ≤ length self.old.run.steps }
        ensures counted { OnOk result ((first : ℕ) → HasCounted first meter.old self.old
            → HasCounted first meter.new self.new) }
        ensures uncounted { OnErr result (meter.new ≡ meter.old) }
    {
        if self.run.steps().len() >= MAX_STEPS as usize {
            return Err(SettleFault::TooManySteps);
        }
        self.run.make(step, meter)?;
        Ok(())
    }

    // A piece of quiet work, the next one.
    fn piece(
        &mut self,
        session: &CheckedSession,
        step: Step,
        meter: &mut Meter,
    ) -> Result<(), SettleFault>
        requires here { IsAt session.now self.old }
        requires next { (here : IsAt session.now self.old)
            → quiet_step here.table (waiting_in session.now self.old) ≡ Some step }
        ensures made { OnOk result (IsAt session.now self.new) }
        ensures grows { OnOk result
            (length self.new.run.steps ≡ length self.old.run.steps + 1) }
        ensures come { OnOk result (self.new.come ≡ self.old.come) }
        ensures long { result ≡ Err SettleFault.TooManySteps → IsSettledTooLong session.now }
        ensures counted { OnOk result ((first : ℕ) → HasCounted first meter.old self.old
            → HasCounted first meter.new self.new) }
        ensures uncounted { OnErr result (meter.new ≡ meter.old) }
    {
        self.make(step, meter)?;
        if let Some(task) = caller(&step) {
            self.queues.advance(task);
        }
        Ok(())
    }

    // Quiet work until there is none.
    fn work(&mut self, session: &CheckedSession, meter: &mut Meter) -> Result<(), SettleFault>
        requires { IsAt session.now self.old }
        ensures rests { OnOk result (IsResting session.now self.new) }
        ensures come { OnOk result (self.new.come ≡ self.old.come) }
        ensures long { result ≡ Err SettleFault.TooManySteps → IsSettledTooLong session.now }
        ensures counted { OnOk result ((first : ℕ) → HasCounted first meter.old self.old
            → HasCounted first meter.new self.new) }
        ensures some { OnErr result ((first : ℕ) → HasCounted first meter.old self.old
            → CountsUpTo max_steps first meter.new) }
    {
        let steps = session.steps();
        while let Some(step) = next_piece(self.run.kernel(), &self.queues, steps, self.come) {
            self.piece(session, step, meter)?;
        }
        Ok(())
    }

    // The next step of the session comes: a tick or an interrupt is made, and a call waits.
    fn come(&mut self, session: &CheckedSession, meter: &mut Meter) -> Result<(), SettleFault>
        requires rests { IsResting session.now self.old }
        requires more { self.old.come < length session.now.steps }
        ensures come { OnOk result (IsAt session.now self.new) }
        ensures next { OnOk result (self.new.come ≡ self.old.come + 1) }
        ensures long { result ≡ Err SettleFault.TooManySteps → IsSettledTooLong session.now }
        ensures counted { OnOk result ((first : ℕ) → HasCounted first meter.old self.old
            → HasCounted first meter.new self.new) }
        ensures uncounted { OnErr result (meter.new ≡ meter.old) }
    {
        let step = session.steps()[self.come];
        if comes_from_outside(&step) {
            self.make(step, meter)?;
        }
        self.come += 1;
        Ok(())
    }

    // The call at the place, where it waits.
    fn waits_at(&self, steps: &[Step], place: usize) -> Option<WaitingCall>
        requires place { place < length steps.now }
        requires callers { HasCallers steps.now (length self.now.queues.heads.items) }
        ensures { result
            ≡ (if is_waiting_call self.now.queues.heads.items steps.now place
            then Some (call_in (step_at steps.now place)) else None) }
    {
        let waits = waiting_call(&steps[place])?;
        if self.queues.head(waits.task) <= place {
            Some(waits)
        } else {
            None
        }
    }

    // The calls that wait.
    fn left(&self, alloc: Global, steps: &[Step]) -> Result<Vec<WaitingCall>, AllocError>
        requires come { self.now.come ≤ length steps.now }
        requires callers { HasCallers steps.now (length self.now.queues.heads.items) }
        ensures { IfOk result
            (λ left. left.items ≡ waiting_at self.now.queues.heads.items steps.now self.now.come) }
    {
        let mut left = Vec::new(alloc);
        for place in 0..self.come {
            if let Some(waits) = self.waits_at(steps, place) {
                left.push(waits)?;
            }
        }
        Ok(left)
    }
}

/// The run that a target makes of the session's calls, ticks and interrupts. The meter counts its
/// steps.
pub fn settle(
    alloc: Global,
    session: &CheckedSession,
    meter: &mut Meter,
) -> Result<Run, SettleFault>
    ensures run { IfOk result (λ run. IsRunOf true session.now run) }
    ensures room { IfOk result (λ run. length run.session.steps ≤ max_steps) }
    ensures long { result ≡ Err SettleFault.TooManySteps → IsSettledTooLong session.now }
    ensures counted { IfOk result
        (λ run. meter.new ≡ meter_after (length run.session.steps) meter.old) }
    ensures some { OnErr result (CountsUpTo max_steps meter.old meter.new) }
{
    let mut settling = Settling::start(alloc, session)?;
    settling.work(session, meter)?;
    let count = session.steps().len();
    while settling.come < count {
        settling.come(session, meter)?;
        settling.work(session, meter)?;
    }
    let left = settling.left(alloc, session.steps())?;
    let Settling { run, .. } = settling;
    Ok(run.finish(left))
}

// A tick, an interrupt or a pass.
fn comes_from_outside(step: &Step) -> bool
    ensures { result ≡ comes_from_outside step.now }
{
    matches!(
        step,
        Step::Tick
            | Step::Interrupt { .. }
            | Step::QueueInterrupt { .. }
            | Step::ResumeInterrupt { .. }
            | Step::Pass { .. }
    )
}

// The call of a step that begins one.
fn waiting_call(step: &Step) -> Option<WaitingCall>
    ensures { result ≡ (if begins step.now then Some (call_in step.now) else None) }
{
    match *step {
        Step::Call {
            call: Call::Finish,
            ..
        } => None,
        Step::Call { task, call, .. } => Some(WaitingCall { task, call }),
        _ => None,
    }
}
