//! A counter of the steps that kernels make.
ghost use Rattle.std.specs.Prelude.{◌≡◌, ◌+◌, ◌-◌, ◌^◌, min};

use std::marker::Model;

/// Counts the steps that kernels make.
///
/// A meter can't be copied, and only the host's runtime gives a new one, which no crate can make
/// for itself. So code that is handed a meter and no runtime counts each step that it makes on that
/// meter. (A bound of `Runtime` would not say so: that is a trait, and a type with its methods is
/// enough for it.)
#[derive(Debug, Drop)]
pub struct Meter {
    steps: u64,
}

impl Model for Meter {
    ghost use Rattle.std.specs.Prelude.{ℕ};

    ghost Value = { ℕ };

    ghost view = { λ meter. meter.steps };
}

impl Meter {
    /// A meter that has counted no step. The runtime is not used.
    pub fn new(_rt: &HostRuntime) -> Self
        ensures { result ≡ 0 }
    {
        Meter { steps: 0 }
    }

    /// How many steps were counted, at most `u64::MAX`.
    pub fn count(&self) -> u64
        ensures { result ≡ self.now }
    {
        self.steps
    }

    pub(crate) fn step(&mut self)
        ensures { self.new ≡ min (self.old + 1) (2 ^ 64 - 1) }
    {
        let Meter { steps } = self;
        *steps = steps.saturating_add(1);
    }
}
