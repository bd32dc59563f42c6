//! The first replay of a session.
ghost use Rattle.std.specs.Prelude.{◌≡◌, ◌<◌, ◌≤◌, ◌+◌, ◌*◌, ◌^◌, [], true, All, IfOk, OnOk, OnErr, length, take};
ghost use Rattle.bench_types.specs.Limits.{max_cores, max_steps, max_span};
ghost use Rattle.bench_types.specs.Name.{is_within};
ghost use Rattle.bench_types.specs.Session.{IsSession};
ghost use Rattle.bench_types.specs.Step.{settings_of, IsCheckedStep};
ghost use Rattle.bench_model.specs.Equal.{StandsFor};
ghost use Rattle.bench_model.specs.Meeting.{first_kept};
ghost use Rattle.bench_model.specs.Session.{state_after};
ghost use Rattle.bench_model.specs.Start.{start};
ghost use Rattle.bench_model.specs.Table.{Table};
ghost use Rattle.segment_laws.specs.Segments.{AreSegments};
ghost use Rattle.smp_kernel.specs.Kernel.{StandsForSome};
ghost use Rattle.session_segments.specs.Counting.{meter_after, CountsUpTo};
ghost use Rattle.session_store.specs.Replays.{AreSpans};

use crate::replay::{push_segment, started};
use bench_types::{Header, Step};
use session_segments::{KeptResults, Segment, Segments};
use smp_kernel::{Kernel, Meter};
use std::alloc::{AllocError, Global};

// Replays the first so many spans of the steps, each into a segment.
fn push_spans<K: KeptResults>(
    alloc: Global,
    kernel: &mut Kernel,
    segments: &mut Vec<Segment<K>>,
    span: usize,
    full: usize,
    steps: &[Step],
    meter: &mut Meter,
) -> Result<(), AllocError>
    requires stands { StandsForSome kernel.old }
    requires few { kernel.old.settings.cores ≤ max_cores }
    requires steps { All (IsCheckedStep kernel.old.settings) steps.now }
    requires few_steps { length steps.now ≤ max_steps }
    requires within { full * span ≤ length steps.now }
    requires some { 1 ≤ span }
    requires none { segments.old.items ≡ [] }
    ensures spans { OnOk result ((table : Table) → StandsFor kernel.old table
        → AreSpans table span full steps.now segments.new.items) }
    ensures state { OnOk result ((table : Table) → StandsFor kernel.old table
        → StandsFor kernel.new (state_after table (take (full * span) steps.now))) }
    ensures settings { kernel.new.settings ≡ kernel.old.settings }
    ensures meter { OnOk result (meter.new ≡ meter_after (full * span) meter.old) }
    ensures some { OnErr result (CountsUpTo (full * span) meter.old meter.new) }
{
    for segment in 0..full {
        let from = segment * span;
        push_segment(alloc, kernel, segments, &steps[from..from + span], meter)?;
    }
    Ok(())
}

/// The session from its start on, in segments of a span each; the last one has what is left.
pub(crate) fn opened<K: KeptResults>(
    alloc: Global,
    header: &Header,
    steps: &[Step],
    span: u32,
    meter: &mut Meter,
) -> Result<Segments<K>, AllocError>
    requires session { IsSession (record { header = header.now; steps = steps.now }) }
    requires few_steps { length steps.now ≤ max_steps }
    requires span { is_within 1 max_span span ≡ true }
    ensures segments { IfOk result
        (AreSegments (first_kept span (record { header = header.now; steps = steps.now }))) }
    ensures meter { OnOk result (meter.new ≡ meter_after (length steps.now) meter.old) }
    ensures some { OnErr result (CountsUpTo (length steps.now) meter.old meter.new) }
{
    let mut kernel = started(alloc, header)?;
    opened_from(alloc, &mut kernel, header, steps, span, meter)
}

// The same by a kernel at the start. A kernel is dear to drop, so it is made where one call
// follows.
fn opened_from<K: KeptResults>(
    alloc: Global,
    kernel: &mut Kernel,
    header: &Header,
    steps: &[Step],
    span: u32,
    meter: &mut Meter,
) -> Result<Segments<K>, AllocError>
    requires stands { StandsFor kernel.old (start header.now) }
    requires settings { kernel.old.settings ≡ settings_of header.now }
    requires session { IsSession (record { header = header.now; steps = steps.now }) }
    requires few_steps { length steps.now ≤ max_steps }
    requires span { is_within 1 max_span span ≡ true }
    ensures segments { IfOk result
        (AreSegments (first_kept span (record { header = header.now; steps = steps.now }))) }
    ensures meter { OnOk result (meter.new ≡ meter_after (length steps.now) meter.old) }
    ensures some { OnErr result (CountsUpTo (length steps.now) meter.old meter.new) }
{
    let span = span as usize;
    let full = steps.len().saturating_sub(1) / span;
    let mut segments = Vec::with_capacity(alloc, full + 1)?;
    push_spans(alloc, kernel, &mut segments, span, full, steps, meter)?;
    push_segment(alloc, kernel, &mut segments, &steps[full * span..], meter)?;
    Segments::new(alloc, segments)
}
