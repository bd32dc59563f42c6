//! How long tasks wait for one thing, all of them together.
ghost use Rattle.std.specs.Prelude.{◌≡◌, ◌<◌, ◌+◌, ◌-◌, ◌^◌};
ghost use Rattle.task_jobs.specs.Crowds.{first_crowd, told, with_count, CountKeepsTime, CrowdBegins, CrowdGoesOn};

/// The tasks that wait for one thing. Times are in units, from the start of the run on.
#[derive(Clone, Copy, Debug, PartialEq, Eq)]
pub struct Crowd {
    /// How many of them there are.
    pub tasks: u32,
    /// How long all waits took until then; at most 2^64 - 1.
    pub total: u64,
    /// Since when there are so many.
    pub since: u64,
}

impl Crowd {
    /// So many from the start on.
    pub fn start(tasks: u32) -> Self
        ensures { result ≡ first_crowd tasks }
    {
        Crowd {
            tasks,
            total: 0,
            since: 0,
        }
    }

    /// How long all waits took until now; at most 2^64 - 1.
    pub fn told(&self, now: u64) -> u64
        ensures { result ≡ told now self.now }
    {
        let time = now.saturating_sub(self.since);
        let more = u64::from(self.tasks).saturating_mul(time);
        self.total.saturating_add(more)
    }

    /// With one task more from now on.
    pub fn joined(&self, now: u64) -> Self
        requires { self.now.tasks < 2 ^ 32 - 1 }
        ensures { result ≡ with_count (self.now.tasks + 1) now self.now }
    {
        Crowd {
            tasks: self.tasks + 1,
            total: self.told(now),
            since: now,
        }
    }

    /// With one task less from now on.
    pub fn left(&self, now: u64) -> Self
        requires { 0 < self.now.tasks }
        ensures { result ≡ with_count (self.now.tasks - 1) now self.now }
    {
        Crowd {
            tasks: self.tasks - 1,
            total: self.told(now),
            since: now,
        }
    }
}

/// The crowd of a place makes that of the next.
pub fn law_of_crowds()
    ensures begins { CrowdBegins }
    ensures next { CrowdGoesOn }
    ensures time { CountKeepsTime }
{}
