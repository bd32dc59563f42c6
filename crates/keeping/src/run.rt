//! The run that keeps work.
ghost use Rattle.std.specs.Prelude.{◌≡◌, ◌<◌, ◌≤◌, ◌^◌, All, Err, IfOk, OnErr, length};
ghost use Rattle.bench_types.specs.Header.{IsCheckedHeader};
ghost use Rattle.bench_types.specs.Limits.{max_steps};
ghost use Rattle.bench_types.specs.Step.{settings_of};
ghost use Rattle.kept_runs.specs.Rule.{IsRunFrom};
ghost use Rattle.smp_kernel.specs.Counting.{meter_after, CountsUpTo};
ghost use Rattle.keeping.specs.Ends.{first_end};
ghost use Rattle.keeping.specs.Progress.{progress_at_start, IsComing, IsKeptTooLong};
ghost use Rattle.keeping.specs.Works.{IsUnmade};

use crate::keeping::Keeping;
use bench_types::Header;
use kept_runs::{CallOrder, KnownLimit, Outside, Unmade};
use session_runs::Run;
use smp_kernel::Meter;
use std::alloc::{AllocError, Global};
use thiserror::Error;

/// Why a run was not made.
#[derive(Clone, Copy, Debug, PartialEq, Eq, Error)]
pub enum KeepFault {
    /// J2: the run has more than [`MAX_STEPS`](bench_types::MAX_STEPS) steps.
    #[error("the run is too long")]
    TooManySteps,
    /// The allocator had no memory left.
    #[error("out of memory")]
    NoMemory,
}

impl From<AllocError> for KeepFault {
    ghost use Rattle.std.specs.Prelude.{◌≡◌};
    ghost use Rattle.keeping.specs.declared.run.KeepFault.TheVariants.{NoMemory};

    ghost from_gives = { λ _ fault. fault ≡ NoMemory };

    fn from(_error: AllocError) -> Self {
        KeepFault::NoMemory
    }
}

/// A run that keeps work.
#[derive(Debug, Drop)]
pub struct Kept {
    pub run: Run,
    /// The first place where a step from outside comes though a task is at its end: behind it is
    /// not known what the task does.
    pub end: Option<KnownLimit>,
}

/// The run that makes these calls when their tasks have worked for them, between these steps from
/// outside. The meter counts its steps.
pub fn keep_run(
    alloc: Global,
    order: CallOrder,
    header: &Header,
    unmade: Vec<Unmade>,
    outside: Vec<Outside>,
    meter: &mut Meter,
) -> Result<Kept, KeepFault>
    requires header { IsCheckedHeader header.now }
    requires unmade { All (IsUnmade (settings_of header.now)) unmade.items }
    requires outside { All (IsComing (settings_of header.now)) outside.items }
    requires few { length unmade.items < 2 ^ 32 }
    ensures header { IfOk result (λ kept. kept.run.session.header ≡ header.now) }
    ensures run { IfOk result
        (λ kept. IsRunFrom (progress_at_start order header.now unmade.items outside.items)
        kept.run.session.steps kept.run.left) }
    ensures end { IfOk result
        (λ kept. kept.end
        ≡ first_end (progress_at_start order header.now unmade.items outside.items)
        kept.run.session.steps) }
    ensures room { IfOk result (λ kept. length kept.run.session.steps ≤ max_steps) }
    ensures long { result ≡ Err KeepFault.TooManySteps
        → IsKeptTooLong (progress_at_start order header.now unmade.items outside.items) }
    ensures counted { IfOk result
        (λ kept. meter.new ≡ meter_after (length kept.run.session.steps) meter.old) }
    ensures some { OnErr result (CountsUpTo max_steps meter.old meter.new) }
{
    let mut keeping = Keeping::start(alloc, order, header, unmade, outside)?;
    let mut end = None;
    while let Some(step) = keeping.next_step() {
        end = keeping.first_end(end, &step);
        keeping.make(step, meter)?;
    }
    let run = keeping.finish(alloc)?;
    Ok(Kept { run, end })
}
