//! Steps replayed into new segments.
ghost use Rattle.std.specs.Prelude.{◌≡◌, ◌≤◌, ◌+◌, ◌++◌, ◌∷◌, [], All, Ok, IfOk, OnOk, OnErr, length, take, drop};
ghost use Rattle.bench_types.specs.Header.{header_check};
ghost use Rattle.bench_types.specs.Limits.{max_cores, max_steps, max_span};
ghost use Rattle.bench_types.specs.Step.{settings_of, IsCheckedStep};
ghost use Rattle.bench_model.specs.Equal.{StandsFor};
ghost use Rattle.bench_model.specs.Session.{state_after};
ghost use Rattle.bench_model.specs.Start.{start};
ghost use Rattle.bench_model.specs.Table.{Table};
ghost use Rattle.segment_laws.specs.EditedSegments.{cut};
ghost use Rattle.smp_kernel.specs.Kernel.{StandsForSome};
ghost use Rattle.session_segments.specs.Counting.{meter_after, CountsUpTo};
ghost use Rattle.session_store.specs.Replays.{AreMade};

use bench_types::{Header, Step};
use session_segments::{KeptResults, Segment};
use smp_kernel::{Kernel, Meter};
use std::alloc::{AllocError, Global};

/// A kernel at the start of a header that was checked, so only memory can be wanting.
pub(crate) fn started(alloc: Global, header: &Header) -> Result<Kernel, AllocError>
    requires { header_check header.now ≡ Ok tt }
    ensures stands { IfOk result (λ kernel. StandsFor kernel (start header.now)) }
    ensures settings { IfOk result (λ kernel. kernel.settings ≡ settings_of header.now) }
{
    match Kernel::start(alloc, header) {
        Ok(kernel) => Ok(kernel),
        Err(_) => Err(AllocError),
    }
}

/// Replays the steps on the kernel into one segment more.
pub(crate) fn push_segment<K: KeptResults>(
    alloc: Global,
    kernel: &mut Kernel,
    segments: &mut Vec<Segment<K>>,
    steps: &[Step],
    meter: &mut Meter,
) -> Result<(), AllocError>
    requires stands { StandsForSome kernel.old }
    requires few { kernel.old.settings.cores ≤ max_cores }
    requires steps { All (IsCheckedStep kernel.old.settings) steps.now }
    requires few_steps { length steps.now ≤ max_steps }
    ensures segment { OnOk result
        (segments.new.items
        ≡ segments.old.items ++ record { kernel = kernel.old; steps = steps.now } ∷ []) }
    ensures state { OnOk result ((table : Table) → StandsFor kernel.old table
        → StandsFor kernel.new (state_after table steps.now)) }
    ensures settings { kernel.new.settings ≡ kernel.old.settings }
    ensures meter { OnOk result (meter.new ≡ meter_after (length steps.now) meter.old) }
    ensures some { OnErr result (CountsUpTo (length steps.now) meter.old meter.new) }
{
    let segment = Segment::replay(alloc, kernel, steps, meter)?;
    segments.push(segment)?;
    Ok(())
}

// Replays two spans of steps or more into two segments, of which the first has a span.
fn push_two<K: KeptResults>(
    alloc: Global,
    kernel: &mut Kernel,
    segments: &mut Vec<Segment<K>>,
    span: usize,
    steps: &[Step],
    meter: &mut Meter,
) -> Result<(), AllocError>
    requires stands { StandsForSome kernel.old }
    requires few { kernel.old.settings.cores ≤ max_cores }
    requires steps { All (IsCheckedStep kernel.old.settings) steps.now }
    requires few_steps { length steps.now ≤ max_steps }
    requires within { span ≤ length steps.now }
    requires none { segments.old.items ≡ [] }
    ensures made { OnOk result ((table : Table) → StandsFor kernel.old table
        → AreMade table (take span steps.now ∷ drop span steps.now ∷ []) segments.new.items) }
    ensures state { OnOk result ((table : Table) → StandsFor kernel.old table
        → StandsFor kernel.new (state_after table steps.now)) }
    ensures settings { kernel.new.settings ≡ kernel.old.settings }
    ensures meter { OnOk result (meter.new ≡ meter_after (length steps.now) meter.old) }
    ensures some { OnErr result (CountsUpTo (length steps.now) meter.old meter.new) }
{
    push_segment(alloc, kernel, segments, &steps[..span], meter)?;
    push_segment(alloc, kernel, segments, &steps[span..], meter)
}

/// Replays edited steps, two spans or more of them into two segments. Where there are none, they
/// are a segment only as the last one.
pub(crate) fn push_cut<K: KeptResults>(
    alloc: Global,
    kernel: &mut Kernel,
    segments: &mut Vec<Segment<K>>,
    span: u32,
    is_last: bool,
    steps: &[Step],
    meter: &mut Meter,
) -> Result<(), AllocError>
    requires stands { StandsForSome kernel.old }
    requires few { kernel.old.settings.cores ≤ max_cores }
    requires steps { All (IsCheckedStep kernel.old.settings) steps.now }
    requires few_steps { length steps.now ≤ max_steps }
    requires span { span ≤ max_span }
    requires none { segments.old.items ≡ [] }
    ensures made { OnOk result ((table : Table) → StandsFor kernel.old table
        → AreMade table (cut span is_last steps.now) segments.new.items) }
    ensures state { OnOk result ((table : Table) → StandsFor kernel.old table
        → StandsFor kernel.new (state_after table steps.now)) }
    ensures settings { kernel.new.settings ≡ kernel.old.settings }
    ensures meter { OnOk result (meter.new ≡ meter_after (length steps.now) meter.old) }
    ensures some { OnErr result (CountsUpTo (length steps.now) meter.old meter.new) }
{
    let span = span as usize;
    if 2 * span <= steps.len() {
        return push_two(alloc, kernel, segments, span, steps, meter);
    }
    if steps.is_empty() && !is_last {
        return Ok(());
    }
    push_segment(alloc, kernel, segments, steps, meter)
}
