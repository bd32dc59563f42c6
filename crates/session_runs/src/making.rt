//! A run that is made step by step.
ghost use Rattle.std.specs.Prelude.{◌≡◌, ◌+◌, ◌-◌, ◌<◌, ◌^◌, ◌++◌, ◌∷◌, [], length, min, IfOk, OnErr, OnOk};
ghost use Rattle.bench_types.specs.Header.{IsCheckedHeader};
ghost use Rattle.bench_types.specs.Limits.{max_steps};
ghost use Rattle.bench_types.specs.Session.{IsCheckedSession};
ghost use Rattle.bench_types.specs.Step.{settings_of, IsCheckedStep};
ghost use Rattle.bench_model.specs.Equal.{StandsFor};
ghost use Rattle.bench_model.specs.Session.{state_after};
ghost use Rattle.bench_model.specs.Start.{start};

use crate::outcomes::Outcomes;
use crate::run::Run;
use bench_types::{CheckedSession, Header, Step};
use settled_runs::WaitingCall;
use smp_kernel::{Kernel, Meter};
use std::alloc::{AllocError, Global};
use std::marker::Model;

/// A run as far as it was made. Clauses see the session that its steps are.
#[derive(Debug)]
pub struct RunMaker {
    header: Header,
    /// The kernel after the steps.
    kernel: Kernel,
    steps: Vec<Step>,
    outcomes: Outcomes,
}

// Written out, so that whoever drops one has one call to prove, and not one for each list in it.
impl Drop for RunMaker {
    fn drop(self) {
        let RunMaker {
            header: _,
            kernel: _,
            steps: _,
            outcomes: _,
        } = self;
    }
}

impl Model for RunMaker {
    ghost use Rattle.bench_types.specs.Session.{IsCheckedSession, Session};

    ghost Value = { Session };

    ghost use Rattle.session_runs.specs.Made.{IsMade};

    ghost view = { λ maker. record { header = maker.header; steps = maker.steps.items } };

    ghost invariant = { λ maker.
        IsCheckedSession (record { header = maker.header; steps = maker.steps.items })
        × IsMade maker.header maker.steps.items maker.kernel maker.outcomes };
}

impl RunMaker {
    /// Before the first step.
    pub fn start(alloc: Global, header: Header) -> Result<RunMaker, AllocError>
        requires { IsCheckedHeader header }
        ensures { IfOk result (λ maker. maker ≡ record { header = header; steps = [] }) }
    {
        let kernel = start_kernel(alloc, &header)?;
        let outcomes = Outcomes::begin(alloc, &kernel, 0)?;
        Ok(RunMaker {
            header,
            kernel,
            steps: Vec::new(alloc),
            outcomes,
        })
    }

    /// The kernel after the steps.
    pub fn kernel(&self) -> &Kernel
        ensures stands { StandsFor result.now (state_after (start self.now.header) self.now.steps) }
        ensures settings { result.now.settings ≡ settings_of self.now.header }
    {
        &self.kernel
    }

    /// The steps so far.
    pub fn steps(&self) -> &[Step]
        ensures steps { result.now ≡ self.now.steps }
        ensures checked { IsCheckedSession self.now }
    {
        self.steps.as_slice()
    }

    /// Makes a step more.
    pub fn make(&mut self, step: Step, meter: &mut Meter) -> Result<(), AllocError>
        requires room { length self.old.steps < max_steps }
        requires checked { IsCheckedStep (settings_of self.old.header) step }
        ensures made { OnOk result
            (self.new ≡ record self.old { steps = self.old.steps ++ step ∷ [] }) }
        ensures kept { OnErr result (self.new ≡ self.old) }
        ensures meter { OnOk result (meter.new ≡ min (meter.old + 1) (2 ^ 64 - 1)) }
        ensures uncounted { OnErr result (meter.new ≡ meter.old) }
    {
        self.steps.reserve(1)?;
        self.outcomes.reserve_next()?;
        self.outcomes.make_next(&mut self.kernel, &step, meter);
        self.steps.push_reserved(step);
        Ok(())
    }

    /// The run of these steps, with the calls that were not made.
    pub fn finish(self, left: Vec<WaitingCall>) -> Run
        requires { length left.items < 2 ^ 32 }
        ensures { result ≡ record { session = self; left = left.items } }
    {
        let RunMaker {
            header,
            kernel: _,
            steps,
            outcomes,
        } = self;
        match CheckedSession::new(header, steps) {
            Some(session) => Run::of_parts(session, left, outcomes),
            None => unreachable!(),
        }
    }
}

/// A kernel at the start of the header.
pub(crate) fn start_kernel(alloc: Global, header: &Header) -> Result<Kernel, AllocError>
    ensures stands { IfOk result (λ kernel. StandsFor kernel (start header.now)) }
    ensures settings { IfOk result (λ kernel. kernel.settings ≡ settings_of header.now) }
{
    match Kernel::start(alloc, header) {
        Ok(kernel) => Ok(kernel),
        Err(_) => Err(AllocError),
    }
}
