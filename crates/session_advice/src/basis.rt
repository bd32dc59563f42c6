//! What a source with a change made is compared with.
ghost use Rattle.std.specs.Prelude.{◌≡◌};
ghost use Rattle.session_advice.specs.Basis.{basis_of, judge_of, measure_of};

use ranked_changes::{Judge, Measure};
use report_figures::{Figure, Part};
use run_sources::Source;

// The source as it is, the figures of its run, and the one that is to be lower.
#[derive(Clone, Copy)]
pub(crate) struct Base<'a> {
    pub(crate) source: &'a Source,
    pub(crate) figures: &'a [Figure],
    pub(crate) judged: Figure,
}

fn measure_of(part: Part) -> Measure
    ensures { result ≡ measure_of part }
{
    match part {
        Part::Total => Measure::Total,
        Part::Longest => Measure::Longest,
    }
}

/// The one that goes by the figure.
pub(crate) fn judge_of(base: &Base<'_>) -> Judge
    ensures { result ≡ judge_of (basis_of base.now) }
{
    Judge {
        subject: base.judged.subject,
        measure: measure_of(base.judged.part),
    }
}
