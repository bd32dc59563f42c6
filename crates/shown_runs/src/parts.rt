//! How far a command is that does its parts one after another.
ghost use Rattle.std.specs.Prelude.{◌≡◌, ℕ};
ghost use Rattle.shown_runs.specs.Parts.{number_after, TellsPart};

use ranked_changes::{Progress, Silent};

/// What a command does, one after another.
#[derive(Clone, Copy, Debug, PartialEq, Eq)]
pub enum Part {
    /// A run is settled or keeps work, or two do.
    Settling,
    /// A workload is simulated, or two are.
    Simulating,
    /// A picture is made.
    Drawing,
    /// A trace is made.
    Tracing,
    /// Two runs are compared.
    Comparing,
    /// A report is made, or limits are checked.
    Measuring,
    /// Refusals are looked for.
    Refusals,
}

/// Is told how far long work is, and which part of it begins.
pub trait PartProgress: Progress {
    ghost use Rattle.shown_runs.specs.declared.parts.Part.{Part};

    // What is done where it is told that this part begins, the one of this number of so many.
    ghost begins: { Self → Part → ℕ → ℕ → Self → Type 0 };

    /// This part begins, the one of this number of so many.
    fn begin(&mut self, part: Part, number: usize, all: usize)
        ensures { begins self.old part number all self.new };
}

impl PartProgress for Silent {
    ghost begins = { λ old part number all new. new ≡ old };

    fn begin(&mut self, _part: Part, _number: usize, _all: usize) {}
}

/// Which parts of a command are told, and to whom.
#[derive(Drop)]
pub struct Course<'a, P> {
    pub progress: &'a mut P,
    // Whether parts are told.
    is_long: bool,
    // How many parts began, and how many there are.
    begun: usize,
    all: usize,
}

impl<'a, P> Course<'a, P> {
    /// No part of so many began. They are told where the work is long.
    pub fn new(progress: &'a mut P, is_long: bool, all: usize) -> Self
        ensures progress { result.progress.now ≡ progress.old }
        ensures long { result.is_long ≡ is_long }
        ensures begun { result.begun ≡ 0 }
        ensures all { result.all ≡ all }
    {
        Course {
            progress,
            is_long,
            begun: 0,
            all,
        }
    }
}

impl<P: PartProgress> Course<'_, P> {
    /// The next part begins, which is told where the work is long.
    pub fn begin(&mut self, part: Part)
        ensures begun { self.new.begun ≡ number_after self.old.begun }
        ensures long { self.new.is_long ≡ self.old.is_long }
        ensures all { self.new.all ≡ self.old.all }
        ensures told { TellsPart P.begins self.old.is_long part self.new.begun self.old.all
            self.old.progress.now self.new.progress.now }
    {
        self.begun = self.begun.saturating_add(1);
        if self.is_long {
            self.progress.begin(part, self.begun, self.all);
        }
    }
}
