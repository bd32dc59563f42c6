//! How long several things took.
ghost use Rattle.std.specs.Prelude.{◌≡◌, ◌<◌, ◌+◌, ◌-◌, ◌^◌, []};
ghost use Rattle.task_jobs.specs.Durations.{durations_of, with_thing};

/// How long several things took, in units of time.
#[derive(Clone, Copy, Debug, PartialEq, Eq)]
pub struct Durations {
    /// How many things there are.
    pub count: u32,
    /// How long all of them took; at most 2^64 - 1.
    pub total: u64,
    /// How long the longest took; 0 where there is none.
    pub longest: u64,
    /// The place at which the first of the longest began; 0 where there is none.
    pub from: u32,
    /// How long the shortest took; 0 where there is none.
    pub shortest: u64,
}

impl Durations {
    /// Those of no thing.
    pub fn none() -> Self
        ensures { result ≡ durations_of [] }
    {
        Durations {
            count: 0,
            total: 0,
            longest: 0,
            from: 0,
            shortest: 0,
        }
    }

    /// With a thing that took so long and began at the place.
    pub fn with(self, time: u64, place: u32) -> Self
        requires { self.count < 2 ^ 32 - 1 }
        ensures { result ≡ with_thing (time, place) self }
    {
        let is_first = self.count == 0;
        Durations {
            count: self.count + 1,
            total: self.total.saturating_add(time),
            longest: self.longest.max(time),
            from: if is_first || self.longest < time {
                place
            } else {
                self.from
            },
            shortest: if is_first {
                time
            } else {
                self.shortest.min(time)
            },
        }
    }
}
