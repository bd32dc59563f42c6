//! The numbers of a subject so far.
ghost use Rattle.std.specs.Prelude.{◌≡◌, ◌<◌, ◌≤◌, ◌+◌, ◌-◌, ◌^◌, length};
ghost use Rattle.std.specs.Option.{ForSome};
ghost use Rattle.smp_kernel.specs.Kernel.{StandsForSome};
ghost use Rattle.run_numbers.specs.Counters.{first_counter, past_of, seen, told, took_in, with_stretch, HasRoom, HasRoomFor, HasRoomFrom};
ghost use Rattle.run_numbers.specs.Past.{past};
ghost use Rattle.run_numbers.specs.Readings.{IsSubjectOf};

use crate::event::{BeforeStep, happens};
use crate::state::holds;
use crate::{Reading, Subject};
use bench_types::{Reply, Step};
use smp_kernel::Kernel;

/// A step that was made, with what was known before it and the kernel after it.
#[derive(Clone, Copy)]
pub(crate) struct Made<'a> {
    pub(crate) before: BeforeStep,
    pub(crate) step: &'a Step,
    pub(crate) reply: Reply,
    pub(crate) after: &'a Kernel,
    /// The units of time so far.
    pub(crate) elapsed: u64,
    /// The places of the steps that took some of it.
    pub(crate) places: &'a [u32],
    /// The place after the step.
    pub(crate) place: u32,
    /// The units of time before the step.
    pub(crate) began: u64,
    /// The times after all ticks so far.
    pub(crate) ticks: &'a [u64],
}

/// From when on a condition holds.
#[derive(Clone, Copy)]
pub(crate) struct Since {
    /// How many units of time had passed.
    elapsed: u64,
    /// How many steps had taken some of it.
    index: u32,
}

/// The numbers of a subject so far, where its condition holds without the time since it does.
#[derive(Clone, Copy)]
pub(crate) struct Counter {
    reading: Reading,
    since: Option<Since>,
}

// The numbers with one stretch more: the time since then.
fn with_stretch(reading: Reading, elapsed: u64, places: &[u32], since: Since) -> Reading
    requires few { length places.now < 2 ^ 32 }
    requires room { HasRoomFrom (past elapsed places.now) reading since }
    ensures { result ≡ with_stretch reading (past elapsed places.now) since }
{
    let stretch = elapsed - since.elapsed;
    let from = if reading.longest < stretch {
        places[since.index as usize]
    } else {
        reading.from
    };
    Reading {
        total: reading.total + stretch,
        longest: reading.longest.max(stretch),
        from,
    }
}

impl Counter {
    /// Before any step: no time, this total, and whether the condition holds.
    pub(crate) fn new(total: u32, holds: bool) -> Self
        ensures { result ≡ first_counter total holds }
    {
        let start = Since {
            elapsed: 0,
            index: 0,
        };
        Counter {
            reading: Reading {
                total: u64::from(total),
                longest: 0,
                from: 0,
            },
            since: if holds { Some(start) } else { None },
        }
    }

    /// The numbers with the time since the condition holds: of the time so far, and of the places
    /// of all steps that took some.
    pub(crate) fn told(&self, elapsed: u64, places: &[u32]) -> Reading
        requires { HasRoom (past elapsed places.now) self.now }
        ensures { result ≡ told (past elapsed places.now) self.now }
    {
        match self.since {
            Some(since) => with_stretch(self.reading, elapsed, places, since),
            None => self.reading,
        }
    }

    // The condition holds now, or not.
    fn see(&mut self, holds: bool, elapsed: u64, places: &[u32])
        requires { HasRoom (past elapsed places.now) self.old }
        ensures { self.new ≡ seen holds (past elapsed places.now) self.old }
    {
        if holds {
            let now = Since {
                elapsed,
                index: places.len() as u32,
            };
            self.since = Some(self.since.unwrap_or(now));
        } else {
            self.reading = self.told(elapsed, places);
            self.since = None;
        }
    }

    /// Counts what the step was, and what holds after it.
    pub(crate) fn take(&mut self, made: &Made<'_>, subject: Subject)
        requires known { IsSubjectOf made.now.after.now.settings subject }
        requires core { ForSome made.now.before.left
            (λ left. left.0 < made.now.after.now.settings.cores) }
        requires sound { StandsForSome made.now.after.now }
        requires room { HasRoomFor (past_of made.now) subject self.old }
        ensures { self.new ≡ took_in made.now subject self.old }
    {
        match subject {
            Subject::Time(condition) => {
                self.see(holds(made.after, condition), made.elapsed, made.places);
            }
            Subject::Steps(event) => {
                let more = happens(event, made.before, made.step, made.reply, made.after);
                self.reading.total += u64::from(more);
            }
            Subject::TopPriority { task } => {
                self.reading.total = self.reading.total.max(u64::from(made.after.in_use(task)));
            }
            Subject::MostMessages { queue } => {
                let messages = u64::from(made.after.queue(queue).messages);
                self.reading.total = self.reading.total.max(messages);
            }
            _ => {}
        }
    }
}
