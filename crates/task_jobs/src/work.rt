//! The work of a task so far.
ghost use Rattle.std.specs.Prelude.{◌≡◌, ◌<◌, ◌-◌, ◌≤◌, ◌^◌, All, if◌then◌else◌};
ghost use Rattle.task_jobs.specs.Durations.{durations_of};
ghost use Rattle.task_jobs.specs.Histograms.{histogram_of, with_time};
ghost use Rattle.task_jobs.specs.JobLaws.{JobsTile};
ghost use Rattle.task_jobs.specs.Works.{begins_job, ends_job, first_work, latencies_now, latency_now, now_on_core, period_now, response_now, responses_now, with_turn, HasRoom, WorkBegins, WorkGoesOn, WorkIsCounted, WorkIsTold, WorkStays};

use crate::{Durations, Histogram, Moves, Waits, Wake};

/// What a step is to a task. Times are in units, from the start of the run on.
#[derive(Clone, Copy, Debug, PartialEq, Eq)]
pub struct Turn {
    /// The task waits for work after the step.
    pub rests: bool,
    /// It asks for work by the step.
    pub asks: bool,
    /// It goes on by the step with a wait that a wake has not ended.
    pub retakes: bool,
    /// The core that it has after the step, if it has one.
    pub core: Option<u32>,
    /// What the step is to its waits.
    pub wake: Wake,
    /// It is in a call after the step, which has not returned.
    pub in_call: bool,
    /// The mutex that this call takes, if it takes one.
    pub takes: Option<u32>,
    /// The place after the step.
    pub place: u32,
    /// The time before the step.
    pub before: u64,
    /// The time after the step.
    pub after: u64,
    /// When a job that begins after the step was asked for.
    pub release: u64,
}

/// What is known of a task before any step.
#[derive(Clone, Copy, Debug, PartialEq, Eq)]
pub struct First {
    /// The task waits for work.
    pub rests: bool,
    /// The core that it has, if it has one.
    pub core: Option<u32>,
    /// It is ready.
    pub ready: bool,
    /// It is in a call, which has not returned.
    pub in_call: bool,
    /// The mutex that this call takes, if it takes one.
    pub takes: Option<u32>,
}

/// What a task did so far. Times are in units, from the start of the run on.
#[derive(Clone, Copy, Debug, PartialEq, Eq)]
pub struct Work {
    /// It waits for work.
    pub rests: bool,
    /// The place at which its last job began.
    pub begins: u32,
    /// When that job was asked for.
    pub release: u64,
    /// When it began.
    pub begun: u64,
    /// When the task had a core first since then, if it had one.
    pub started: Option<u64>,
    /// The answers of the jobs that have ended, from their release on.
    pub responses: Durations,
    /// Their waits for a core, from their begin on.
    pub latencies: Durations,
    /// The times from one wake to the next.
    pub periods: Durations,
    /// How many of the answers take how long.
    pub histogram: Histogram,
    /// Its moves from core to core.
    pub moves: Moves,
    /// Its waits that ran out.
    pub waits: Waits,
    /// It is in a call, which has not returned.
    pub in_call: bool,
    /// The mutex that this call takes, if it takes one.
    pub takes: Option<u32>,
}

fn now_on_core(turn: &Turn) -> Option<u64>
    ensures { result ≡ now_on_core turn.now }
{
    if turn.core.is_some() {
        Some(turn.after)
    } else {
        None
    }
}

// Counts the answer of a job that ends.
fn count_if(histogram: &mut Histogram, ends: bool, time: u64)
    requires { All (λ count. count < 2 ^ 32 - 1) histogram.old.counts }
    ensures { histogram.new
        ≡ (if ends then with_time time histogram.old else histogram.old) }
{
    if ends {
        histogram.add(time);
    }
}

impl Work {
    // The step ends a job that was one.
    fn ends_job(&self, turn: &Turn) -> bool
        ensures { result ≡ ends_job turn.now self.now }
    {
        !self.rests && (turn.rests || turn.asks) && !turn.retakes
    }

    // The step begins a job.
    fn begins_job(&self, turn: &Turn) -> bool
        ensures { result ≡ begins_job turn.now self.now }
    {
        !turn.rests && (self.rests || turn.asks)
    }

    /// Before any step.
    pub fn start(first: &First) -> Self
        ensures { result ≡ first_work first.now }
    {
        Work {
            rests: first.rests,
            begins: 0,
            release: 0,
            begun: 0,
            started: if first.core.is_some() { Some(0) } else { None },
            responses: Durations::none(),
            latencies: Durations::none(),
            periods: Durations::none(),
            histogram: Histogram::none(),
            moves: Moves::start(first.core),
            waits: Waits::start(first.ready),
            in_call: first.in_call,
            takes: first.takes,
        }
    }

    // The answers with that of the job that ends.
    fn responses_with(&self, turn: &Turn) -> Durations
        requires { HasRoom self.now }
        ensures { result ≡ response_now turn.now self.now }
    {
        if !self.ends_job(turn) {
            return self.responses;
        }
        let time = turn.before.saturating_sub(self.release);
        self.responses.with(time, self.begins)
    }

    // The waits for a core with that of the job that ends.
    fn latencies_with(&self, turn: &Turn) -> Durations
        requires { HasRoom self.now }
        ensures { result ≡ latency_now turn.now self.now }
    {
        if !self.ends_job(turn) {
            return self.latencies;
        }
        let time = self
            .started
            .unwrap_or(turn.before)
            .saturating_sub(self.begun);
        self.latencies.with(time, self.begins)
    }

    // The times between wakes with the one that the step ends.
    fn periods_with(&self, turn: &Turn) -> Durations
        requires { HasRoom self.now }
        ensures { result ≡ period_now turn.now self.now }
    {
        if !self.begins_job(turn) || self.begins == 0 {
            return self.periods;
        }
        let time = turn.after.saturating_sub(self.begun);
        self.periods.with(time, self.begins)
    }

    /// The answers of all jobs, with that of one that has not ended by now.
    pub fn responses_now(&self, now: u64) -> Durations
        requires { HasRoom self.now }
        ensures { result ≡ responses_now now self.now }
    {
        if self.rests {
            return self.responses;
        }
        self.responses
            .with(now.saturating_sub(self.release), self.begins)
    }

    /// The waits of all jobs for a core, with that of one that has not ended by now.
    pub fn latencies_now(&self, now: u64) -> Durations
        requires { HasRoom self.now }
        ensures { result ≡ latencies_now now self.now }
    {
        if self.rests {
            return self.latencies;
        }
        let time = self.started.unwrap_or(now).saturating_sub(self.begun);
        self.latencies.with(time, self.begins)
    }

    /// What a step is to the task is added.
    pub fn take_turn(&mut self, turn: &Turn)
        requires { HasRoom self.old }
        ensures { self.new ≡ with_turn turn.now self.old }
    {
        let responses = self.responses_with(turn);
        let latencies = self.latencies_with(turn);
        let periods = self.periods_with(turn);
        let ends = self.ends_job(turn);
        let begins = self.begins_job(turn);
        let now = now_on_core(turn);
        let response = turn.before.saturating_sub(self.release);
        count_if(&mut self.histogram, ends, response);
        self.rests = turn.rests;
        self.begins = if begins { turn.place } else { self.begins };
        self.release = if begins { turn.release } else { self.release };
        self.begun = if begins { turn.after } else { self.begun };
        self.started = if begins { now } else { self.started.or(now) };
        self.responses = responses;
        self.latencies = latencies;
        self.periods = periods;
        self.moves = self.moves.with_core(turn.core);
        self.waits = self.waits.with_wake(turn.wake);
        self.in_call = turn.in_call;
        self.takes = turn.takes;
    }
}

/// What a step is to a task makes the work up to the next place of that up to this one.
pub fn law_of_work()
    ensures first { WorkBegins }
    ensures next { WorkGoesOn }
    ensures quiet { WorkStays }
    ensures told { WorkIsTold }
    // Each place at which the task does not wait for work is in one job.
    ensures tiles { JobsTile }
    // At each place there are no more jobs than places before it.
    ensures few { WorkIsCounted }
{}
