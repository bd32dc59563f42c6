//! What the judge says of a source with a change made.
ghost use Rattle.std.specs.Prelude.{IfOk, OnErr};
ghost use Rattle.bench_types.specs.Step.{settings_of};
ghost use Rattle.smp_kernel.specs.Counting.{CountsUpTo};
ghost use Rattle.run_numbers.specs.Readings.{IsSubjectOf};
ghost use Rattle.run_sources.specs.Sources.{header_of};
ghost use Rattle.ranked_changes.specs.Changed.{changed, IsChangeOf};
ghost use Rattle.ranked_changes.specs.Verdicts.{most_judged, CountsVerdict, IsVerdict};

use crate::changed::changed_source;
use crate::judge::verdict_of;
use crate::{Change, Judge, Verdict};
use run_sources::Source;
use smp_kernel::Meter;
use std::alloc::{AllocError, Global};

/// What the judge says of the source with the change made. It is an error only where memory is
/// refused. The meter counts as that of [`verdict_of`].
pub fn judge_change(
    alloc: Global,
    meter: &mut Meter,
    source: &Source,
    change: Change,
    judge: Judge,
) -> Result<Verdict, AllocError>
    requires known { IsSubjectOf (settings_of (header_of source.now)) judge.subject }
    requires allowed { IsChangeOf source.now change }
    ensures verdict { IfOk result (IsVerdict judge (changed source.now change)) }
    ensures meter { IfOk result
        (λ verdict. CountsVerdict (changed source.now change) verdict meter.old meter.new) }
    ensures some { OnErr result (CountsUpTo (most_judged source.now) meter.old meter.new) }
{
    let made = changed_source(alloc, source, change)?;
    verdict_of(alloc, meter, &made, judge)
}
