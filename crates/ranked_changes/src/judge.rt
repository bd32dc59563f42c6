//! By what a source is judged.
ghost use Rattle.std.specs.Prelude.{◌≡◌, ◌<◌, ◌^◌, IfOk, OnErr, OnOk, length, true};
ghost use Rattle.bench_types.specs.Limits.{max_steps};
ghost use Rattle.bench_types.specs.Step.{settings_of};
ghost use Rattle.smp_kernel.specs.Counting.{meter_after, CountsUpTo};
ghost use Rattle.run_numbers.specs.Readings.{IsSubjectOf};
ghost use Rattle.run_sources.specs.declared.source.Source.TheVariants as source;
ghost use Rattle.run_sources.specs.Sources.{header_of};
ghost use Rattle.ranked_changes.specs.Verdicts.{is_made_first, most_judged, number_in, number_of, CountsVerdict, IsVerdict};

use bench_types::{CheckedSession, MAX_STEPS};
use run_numbers::{Reading, Subject, measure};
use run_sources::{RunFault, Source, make_run};
use settled_runs::WaitingCall;
use smp_kernel::Meter;
use std::alloc::{AllocError, Global};

/// Which number of a subject is looked at.
#[derive(Clone, Copy, Debug, PartialEq, Eq)]
pub enum Measure {
    /// How many units of time, steps or calls there are, or the greatest priority or number of
    /// messages.
    Total,
    /// The most time in a row that finds the condition, in units; 0 of another subject.
    Longest,
}

/// How a source is judged: by one number of its whole run.
#[derive(Clone, Copy, Debug, PartialEq, Eq)]
pub struct Judge {
    pub subject: Subject,
    pub measure: Measure,
}

/// What a judge says of a source. The lower is the better one.
#[derive(Clone, Copy, Debug, PartialEq, Eq, PartialOrd, Ord)]
pub enum Verdict {
    /// The number.
    Number(u64),
    /// The run has more steps than a session may have.
    TooLong,
}

fn number_of(measure: Measure, reading: Reading) -> u64
    ensures { result ≡ number_of measure reading }
{
    match measure {
        Measure::Total => reading.total,
        Measure::Longest => reading.longest,
    }
}

// The number of a session's steps, of which these calls were not made.
fn number_in(
    alloc: Global,
    meter: &mut Meter,
    session: &CheckedSession,
    left: &[WaitingCall],
    judge: Judge,
) -> Result<u64, AllocError>
    requires left { length left.now < 2 ^ 32 }
    requires known { IsSubjectOf (settings_of session.now.header) judge.subject }
    ensures number { IfOk result
        (λ number. number
        ≡ number_in judge (record { session = session.now; left = left.now })) }
    ensures meter { OnOk result (meter.new ≡ meter_after (length session.now.steps) meter.old) }
    ensures some { OnErr result (CountsUpTo (length session.now.steps) meter.old meter.new) }
{
    let measured = measure(alloc, meter, session, left, &[judge.subject])?;
    Ok(number_of(judge.measure, measured[0].reading))
}

// Of the session as its steps stand, which need not be made before.
fn plain_verdict(
    alloc: Global,
    meter: &mut Meter,
    session: &CheckedSession,
    judge: Judge,
) -> Result<Verdict, AllocError>
    requires { IsSubjectOf (settings_of session.now.header) judge.subject }
    ensures verdict { IfOk result (IsVerdict judge (source.Session session.now)) }
    ensures meter { IfOk result
        (λ verdict. CountsVerdict (source.Session session.now) verdict meter.old meter.new) }
    ensures some { OnErr result (CountsUpTo max_steps meter.old meter.new) }
{
    prove!(session.steps().len() <= MAX_STEPS as usize);
    let number = number_in(alloc, meter, session, &[], judge)?;
    Ok(Verdict::Number(number))
}

// Of the run of a source that is no session as its steps stand.
fn made_verdict(
    alloc: Global,
    meter: &mut Meter,
    source: &Source,
    judge: Judge,
) -> Result<Verdict, AllocError>
    requires known { IsSubjectOf (settings_of (header_of source.now)) judge.subject }
    requires made { is_made_first source.now ≡ true }
    ensures verdict { IfOk result (IsVerdict judge source.now) }
    ensures meter { IfOk result
        (λ verdict. CountsVerdict source.now verdict meter.old meter.new) }
    ensures some { OnErr result (CountsUpTo (most_judged source.now) meter.old meter.new) }
{
    let run = match make_run(alloc, source, meter) {
        Ok(run) => run,
        Err(RunFault::NoMemory) => return Err(AllocError),
        Err(_) => return Ok(Verdict::TooLong),
    };
    let number = number_in(alloc, meter, run.session(), run.left(), judge)?;
    Ok(Verdict::Number(number))
}

/// What the judge says of the source. It is an error only where memory is refused. The meter counts
/// the steps of the run each time that they are made: those of a session as they stand are only
/// measured, those of other sources are made, as [`make_run`] makes them, and then measured.
pub fn verdict_of(
    alloc: Global,
    meter: &mut Meter,
    source: &Source,
    judge: Judge,
) -> Result<Verdict, AllocError>
    requires { IsSubjectOf (settings_of (header_of source.now)) judge.subject }
    ensures verdict { IfOk result (IsVerdict judge source.now) }
    ensures meter { IfOk result
        (λ verdict. CountsVerdict source.now verdict meter.old meter.new) }
    ensures some { OnErr result (CountsUpTo (most_judged source.now) meter.old meter.new) }
{
    match source {
        Source::Session(session) => plain_verdict(alloc, meter, session, judge),
        Source::Settled(_) | Source::Workload(_) | Source::Kept(_, _) => {
            made_verdict(alloc, meter, source, judge)
        }
    }
}
