//! How many times lie in which interval.
ghost use Rattle.std.specs.Prelude.{◌≡◌, ◌<◌, ◌-◌, ◌^◌, ◌==◌, ℕ, All, []};
ghost use Rattle.task_jobs.specs.Histograms.{histogram_of, intervals, is_in, least_time, with_time, CountsAreAll};

/// How many intervals a histogram has.
pub const INTERVALS: usize = 65;

/// How many times lie in which interval. The intervals begin at 0, 1, 2, 4, 8 and so on, each at
/// twice the time of the one before it, up to 2^63; each ends before the next begins.
#[derive(Clone, Copy, Debug, PartialEq, Eq)]
pub struct Histogram {
    /// How many lie in each, that of the least times first.
    pub counts: [u32; INTERVALS],
}

/// The least time of an interval.
pub fn least_time(interval: usize) -> u64
    requires { interval < intervals }
    ensures { result ≡ least_time interval }
{
    if interval == 0 {
        return 0;
    }
    1 << (interval - 1)
}

// The interval of the time.
fn interval_of(time: u64) -> usize
    ensures low { result < intervals }
    ensures own { (k : ℕ) → k < intervals → is_in k time ≡ (k == result) }
{
    match time.checked_ilog2() {
        Some(log) => log as usize + 1,
        None => 0,
    }
}

impl Histogram {
    /// That of no time.
    pub fn none() -> Self
        ensures { result ≡ histogram_of [] }
    {
        Histogram {
            counts: [0; INTERVALS],
        }
    }

    /// Counts one time more.
    pub fn add(&mut self, time: u64)
        requires { All (λ count. count < 2 ^ 32 - 1) self.old.counts }
        ensures { self.new ≡ with_time time self.old }
    {
        let interval = interval_of(time);
        self.counts[interval] += 1;
    }
}

/// The counts of a histogram are those of all things together.
pub fn law_of_histograms()
    ensures { CountsAreAll }
{}
