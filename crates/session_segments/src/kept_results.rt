//! What a segment keeps of what its steps led to.
ghost use Rattle.std.specs.Prelude.{◌≡◌, ◌≤◌, ℕ, false, All, IfOk, List, OnOk, OnErr, length, ⊤};
ghost use Rattle.std.specs.Vec.{vec_capacity};
ghost use Rattle.bench_types.specs.Limits.{max_cores, max_steps};
ghost use Rattle.bench_types.specs.Step.{IsCheckedStep};
ghost use Rattle.bench_types.specs.declared.step.Step.{Step};
ghost use Rattle.bench_model.specs.Equal.{StandsFor};
ghost use Rattle.bench_model.specs.Lists.{View};
ghost use Rattle.bench_model.specs.Session.{state_after};
ghost use Rattle.bench_model.specs.Shifted.{shifted, some_delays_until};
ghost use Rattle.bench_model.specs.Table.{Table};
ghost use Rattle.smp_kernel.specs.Kernel.{StandsForSome};
ghost use Rattle.session_segments.specs.Counting.{meter_after, CountsUpTo};
ghost use Rattle.session_segments.specs.Kept.{HasRoom, MayBeReplayed};
ghost use Rattle.segment_laws.specs.Segments.{AreResults};
ghost use Rattle.segment_laws.proofs.ResultsLater.{results_later};

use crate::replay::{advance, push_outcomes};
use bench_types::{Reply, Step};
use smp_kernel::{Kernel, Meter};
use std::alloc::{AllocError, Global};
use std::fmt::Debug;
use tallies::Tallies;

/// What a segment keeps of what its steps led to: [`Results`], all, or [`NoResults`], nothing.
pub trait KeptResults: Debug + Drop {
    ghost fits: { View → List Step → Self → Type 0 };

    /// Makes the steps on the kernel, and keeps what is to be kept of them.
    fn of(
        alloc: Global,
        kernel: &mut Kernel,
        steps: &[Step],
        meter: &mut Meter,
    ) -> Result<Self, AllocError>
        requires stands { StandsForSome kernel.old }
        requires few { kernel.old.settings.cores ≤ max_cores }
        requires steps { All (IsCheckedStep kernel.old.settings) steps.now }
        requires few_steps { length steps.now ≤ max_steps }
        ensures kept { IfOk result (λ kept. fits kernel.old steps.now kept) }
        ensures state { OnOk result ((table : Table) → StandsFor kernel.old table
            → StandsFor kernel.new (state_after table steps.now)) }
        ensures settings { kernel.new.settings ≡ kernel.old.settings }
        ensures meter { OnOk result (meter.new ≡ meter_after (length steps.now) meter.old) }
        ensures some { OnErr result (CountsUpTo (length steps.now) meter.old meter.new) };

    /// Makes the steps on the kernel, and keeps what is to be kept of them in place of what they
    /// led to from another kernel. No memory is taken.
    fn redo(&mut self, kernel: &mut Kernel, steps: &[Step], meter: &mut Meter)
        requires kept { (other : View) × (other.settings ≡ kernel.old.settings)
            × fits other steps.now self.old }
        requires stands { StandsForSome kernel.old }
        requires few { kernel.old.settings.cores ≤ max_cores }
        requires steps { All (IsCheckedStep kernel.old.settings) steps.now }
        requires few_steps { length steps.now ≤ max_steps }
        ensures kept { fits kernel.old steps.now self.new }
        ensures state { (table : Table) → StandsFor kernel.old table
            → StandsFor kernel.new (state_after table steps.now) }
        ensures settings { kernel.new.settings ≡ kernel.old.settings }
        ensures meter { meter.new ≡ meter_after (length steps.now) meter.old };

    // What is kept fits the kernel so many ticks later too, if no step reads the tick count.
    ghost moves: { (by : ℕ) (kernel : View) (steps : List Step) (kept : Self)
        → MayBeReplayed kernel steps → some_delays_until steps ≡ false → fits kernel steps kept
        → fits (shifted by kernel) steps kept };
}

/// The replies of steps, what each left its core with, and how the tasks fared in them.
#[derive(Debug)]
pub struct Results {
    /// Each step's reply.
    pub(crate) replies: Vec<Reply>,
    /// For each step the current task of the core that made it, after it: a step changes the
    /// current task of no other core.
    pub(crate) currents: Vec<u32>,
    /// How the tasks fared in these steps.
    pub(crate) tallies: Tallies,
}

// Written out, so that whoever drops one has one call to prove, and not one for each list in it.
impl Drop for Results {
    fn drop(self) {
        let Results {
            replies: _,
            currents: _,
            tallies: _,
        } = self;
    }
}

impl KeptResults for Results {
    ghost moves = { λ by kernel steps kept replayable unread fits. (
      results_later by kernel steps replayable.stands.0 kept.replies.items kept.currents.items
          kept.tallies replayable.stands.1 replayable.checked unread fits.0,
      fits.1,
    ) };

    ghost fits = { λ kernel steps with_results. AreResults kernel steps with_results.replies.items
        with_results.currents.items with_results.tallies
        × HasRoom steps (vec_capacity with_results.replies) (vec_capacity with_results.currents) };

    fn of(
        alloc: Global,
        kernel: &mut Kernel,
        steps: &[Step],
        meter: &mut Meter,
    ) -> Result<Results, AllocError> {
        let mut tallies = Tallies::begin(alloc, kernel)?;
        let mut replies = Vec::with_capacity(alloc, steps.len())?;
        let mut currents = Vec::with_capacity(alloc, steps.len())?;
        push_outcomes(
            kernel,
            &mut tallies,
            &mut replies,
            &mut currents,
            steps,
            meter,
        );
        Ok(Results {
            replies,
            currents,
            tallies,
        })
    }

    fn redo(&mut self, kernel: &mut Kernel, steps: &[Step], meter: &mut Meter) {
        self.tallies.reset(kernel);
        self.replies.clear();
        self.currents.clear();
        push_outcomes(
            kernel,
            &mut self.tallies,
            &mut self.replies,
            &mut self.currents,
            steps,
            meter,
        );
    }
}

/// Nothing of what steps led to.
#[derive(Debug, Drop)]
pub struct NoResults;

impl KeptResults for NoResults {
    ghost moves = { λ by kernel steps kept replayable unread fits. tt };

    ghost fits = { λ _ _ _. ⊤ };

    fn of(
        _alloc: Global,
        kernel: &mut Kernel,
        steps: &[Step],
        meter: &mut Meter,
    ) -> Result<NoResults, AllocError> {
        advance(kernel, steps, meter);
        Ok(NoResults)
    }

    fn redo(&mut self, kernel: &mut Kernel, steps: &[Step], meter: &mut Meter) {
        advance(kernel, steps, meter);
    }
}
