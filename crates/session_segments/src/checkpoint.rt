//! The kernel at a checkpoint.
ghost use Rattle.std.specs.Prelude.{◌≡◌, ℕ, ◌<◌, ◌≤◌, ◌^◌, IfOk, IfSome, MatchOption};
ghost use Rattle.bench_types.specs.Limits.{max_cores};
ghost use Rattle.bench_model.specs.Control.{current};
ghost use Rattle.bench_model.specs.Equal.{StandsFor};
ghost use Rattle.bench_model.specs.Shifted.{SameShifted, shifted};
ghost use Rattle.bench_model.specs.Table.{Table};
ghost use Rattle.bench_model.specs.Tallied.{first_tallies, shape, shape_of, AllCountsBelow};
ghost use Rattle.shift_laws.specs.Shifts.{IsShifted};
ghost use Rattle.smp_kernel.specs.Kernel.{StandsForSome};
ghost use Rattle.tallies.specs.Tops.{HasTops};

use bench_types::Settings;
use smp_kernel::Kernel;
use std::alloc::{AllocError, Global};
use std::marker::Model;
use tallies::Tallies;

/// The kernel at a checkpoint. To move it in time costs no more than an addition, so the
/// checkpoints after an edit are moved without a look at their kernels.
#[derive(Debug)]
pub(crate) struct Checkpoint {
    kernel: Kernel,
    /// How many ticks later than `kernel` it is, modulo 2^32.
    later: u32,
}

// Written out, so that whoever drops one has one call to prove, and not one for each list in it.
impl Drop for Checkpoint {
    fn drop(self) {
        let Checkpoint {
            kernel: _,
            later: _,
        } = self;
    }
}

impl Model for Checkpoint {
    ghost use Rattle.bench_model.specs.Lists.{View};
    ghost use Rattle.bench_model.specs.Shifted.{shifted};

    ghost Value = { View };

    ghost use Rattle.smp_kernel.specs.Kernel.{StandsForSome};

    ghost view = { λ checkpoint. shifted checkpoint.later checkpoint.kernel };

    ghost invariant = { λ checkpoint. StandsForSome checkpoint.kernel };
}

impl Checkpoint {
    /// The kernel is at the checkpoint.
    pub(crate) fn new(kernel: Kernel) -> Checkpoint
        requires { StandsForSome kernel }
        ensures { result ≡ kernel }
    {
        Checkpoint { kernel, later: 0 }
    }

    /// This kernel is at the checkpoint, in place of the one that was. No memory is taken.
    pub(crate) fn replace(&mut self, kernel: &Kernel)
        requires stands { StandsForSome kernel.now }
        requires settings { kernel.now.settings ≡ self.old.settings }
        ensures { self.new ≡ kernel.now }
    {
        self.kernel.copy_from(kernel);
        self.later = 0;
    }

    /// The kernel at the checkpoint.
    pub(crate) fn copy_kernel(&self, alloc: Global) -> Result<Kernel, AllocError>
        ensures { IfOk result (λ kernel. kernel ≡ self.now) }
    {
        let mut kernel = self.kernel.copy(alloc)?;
        if self.later > 0 {
            kernel.shift(self.later);
        }
        Ok(kernel)
    }

    /// The kernel at the checkpoint, or the same some ticks earlier: it is not moved in time. Steps
    /// that don't read the tick count lead to the same on either.
    pub(crate) fn copy_unmoved(&self, alloc: Global) -> Result<Kernel, AllocError>
        ensures later { IfOk result (λ kernel. (by : ℕ) × (self.now ≡ shifted by kernel)) }
        ensures stands { IfOk result StandsForSome }
        ensures settings { IfOk result (λ kernel. kernel.settings ≡ self.now.settings) }
    {
        self.kernel.copy(alloc)
    }

    /// The kernel at the checkpoint becomes the same so many ticks later.
    pub(crate) fn shift(&mut self, by: u32)
        ensures { self.new ≡ shifted by self.old }
    {
        self.later = self.later.wrapping_add(by);
    }

    /// By how many ticks the kernel is later than the one at the checkpoint; `None` where the two
    /// differ in more than the tick count.
    pub(crate) fn ticks_to(&self, kernel: &Kernel) -> Option<u32>
        ensures ticks { (a b : Table) → StandsFor self.now a → StandsFor kernel.now b
            → MatchOption result (SameShifted a b → ⊥) (λ by. IsShifted by a b) }
        ensures word { IfSome result (λ by. by < 2 ^ 32) }
    {
        let tick = self.kernel.tick().wrapping_add(self.later);
        if self.kernel.same_shifted(kernel) {
            Some(kernel.tick().wrapping_sub(tick))
        } else {
            None
        }
    }

    /// The settings of the kernel.
    pub(crate) fn settings(&self) -> Settings
        ensures settings { result ≡ self.now.settings }
        ensures few { self.now.settings.cores ≤ max_cores }
        ensures sound { StandsForSome self.now }
    {
        self.kernel.settings()
    }

    /// The current task of the core.
    pub(crate) fn running(&self, core: u32) -> u32
        requires { core < self.now.settings.cores }
        ensures seen { result ≡ current self.now.control core }
        ensures task { result < self.now.settings.tasks }
        ensures sound { StandsForSome self.now }
    {
        self.kernel.running(core)
    }

    /// The tallies before any step of the kernel.
    pub(crate) fn first_tallies(&self, alloc: Global) -> Result<Tallies, AllocError>
        ensures tallies { IfOk result
            (λ tallies. tallies ≡ first_tallies self.now.settings self.now.control) }
        ensures shape { IfOk result (λ tallies. shape tallies ≡ shape_of self.now.settings) }
        ensures room { IfOk result (AllCountsBelow 1) }
        ensures tops { IfOk result (HasTops self.now.control) }
    {
        Tallies::begin(alloc, &self.kernel)
    }
}
