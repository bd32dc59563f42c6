//! The moves of a task from core to core so far.
ghost use Rattle.std.specs.Prelude.{◌≡◌, ◌<◌, ◌-◌, ◌^◌};
ghost use Rattle.task_jobs.specs.Moves.{is_other};
ghost use Rattle.task_jobs.specs.Works.{first_moves, with_core};

/// The moves of a task from core to core so far.
#[derive(Clone, Copy, Debug, PartialEq, Eq)]
pub struct Moves {
    /// The core that it has, or had last, if it had one.
    pub core: Option<u32>,
    /// How often it came onto another core than its last.
    pub count: u32,
}

// Whether there are two cores, and they are not the same.
fn is_other(last: Option<u32>, core: Option<u32>) -> bool
    ensures { result ≡ is_other last core }
{
    match (core, last) {
        (Some(core), Some(last)) => last != core,
        _ => false,
    }
}

impl Moves {
    /// Before any step, with the core that the task has.
    pub fn start(core: Option<u32>) -> Self
        ensures { result ≡ first_moves core }
    {
        Moves { core, count: 0 }
    }

    /// With the core that it has now.
    pub fn with_core(&self, core: Option<u32>) -> Self
        requires { self.now.count < 2 ^ 32 - 1 }
        ensures { result ≡ with_core core self.now }
    {
        Moves {
            core: core.or(self.core),
            count: self.count + u32::from(is_other(self.core, core)),
        }
    }
}
