//! Runs that are shown.
ghost use Rattle.std.specs.Prelude.{◌≡◌};
ghost use Rattle.shown_runs.specs.Runs.{is_two, last_of};

use run_comparisons::RunPair;
use session_runs::Run;

/// The runs of which something is told.
#[derive(Debug, Drop)]
pub enum Shown {
    /// One run.
    One(Run),
    /// The run before edits, and that after them.
    Two(RunPair),
}

impl Shown {
    /// The run, or that after the edits.
    pub fn last(&self) -> &Run
        ensures { result.now ≡ last_of self.now }
    {
        match self {
            Shown::One(run) => run,
            Shown::Two(pair) => pair.after(),
        }
    }

    /// Whether there are two runs.
    pub fn is_two(&self) -> bool
        ensures { result ≡ is_two self.now }
    {
        match self {
            Shown::One(_) => false,
            Shown::Two(_) => true,
        }
    }
}
