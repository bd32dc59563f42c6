//! The replay of what an edit changes.
ghost use Rattle.std.specs.Prelude.{◌≡◌, ◌<◌, ◌≤◌, ◌^◌, Ok, IfOk, OnOk, OnErr, length, drop, take};
ghost use Rattle.bench_types.specs.Edit.{IsEditOfWords};
ghost use Rattle.bench_model.specs.Edits.{accepted, edited};
ghost use Rattle.bench_model.specs.Meeting.{replayed};
ghost use Rattle.segment_laws.specs.Segments.{all_steps};
ghost use Rattle.session_segments.specs.Counting.{meter_after, CountsUpTo};
ghost use Rattle.session_store.specs.Kept.{kept_of, session_of, IsKept};
ghost use Rattle.session_store.specs.Outcomes.{outcome_of};
ghost use Rattle.session_store.specs.Replays.{AreRemade, IsEditedSegment};

use crate::Outcome;
use crate::edited_segment::{EditedSegment, segment_of_edit};
use crate::replay::push_cut;
use bench_types::{Edit, Header};
use session_segments::{KeptResults, Segment, Segments};
use smp_kernel::Meter;
use std::alloc::{AllocError, Global};

/// How many steps the segments have.
pub(crate) fn count_steps<K: KeptResults>(segments: &[Segment<K>]) -> u32
    requires { length (all_steps segments.now) < 2 ^ 32 }
    ensures { result ≡ length (all_steps segments.now) }
{
    let mut count = 0;
    for segment in segments {
        count += segment.steps().len() as u32;
    }
    count
}

/// The segments from the index on.
pub(crate) fn later<K: KeptResults>(segments: &Segments<K>, after: usize) -> &[Segment<K>]
    requires { after ≤ length segments.now }
    ensures rest { result.now ≡ drop after segments.now }
    ensures fits { length segments.now < 2 ^ 64 }
{
    &segments.as_slice()[after..]
}

/// Replays what an accepted edit changes, under the edited session's header `next`: the edited
/// segment into new ones, and those after it in place. All memory is taken before anything changes.
pub(crate) fn replay_edit<K: KeptResults>(
    alloc: Global,
    header: &Header,
    span: u32,
    segments: &mut Segments<K>,
    next: &Header,
    edit: &Edit,
    meter: &mut Meter,
) -> Result<Outcome, AllocError>
    requires kept { IsKept header.now span segments.old }
    requires words { IsEditOfWords edit.now }
    requires accepted { accepted (session_of header.now segments.old) edit.now ≡ Ok tt }
    requires next { next.now ≡ (edited edit.now (session_of header.now segments.old)).header }
    ensures replay { OnOk result
        (AreRemade (kept_of header.now span segments.old) edit.now segments.old segments.new) }
    ensures outcome { IfOk result
        (λ outcome. outcome ≡ outcome_of (kept_of header.now span segments.old) edit.now) }
    ensures unchanged { OnErr result (segments.new ≡ segments.old) }
    ensures meter { OnOk result
        (meter.new
        ≡ meter_after (replayed (kept_of header.now span segments.old) edit.now) meter.old) }
    ensures some { OnErr result
        (CountsUpTo (replayed (kept_of header.now span segments.old) edit.now) meter.old
        meter.new) }
{
    let mut edited_segment = segment_of_edit(alloc, header, segments, next, edit)?;
    replay_edit_from(
        alloc,
        &mut edited_segment,
        header,
        span,
        segments,
        edit,
        meter,
    )
}

// The same from where the edit begins. A kernel is dear to drop, so it is made where one call
// follows.
fn replay_edit_from<K: KeptResults>(
    alloc: Global,
    edited_segment: &mut EditedSegment,
    header: &Header,
    span: u32,
    segments: &mut Segments<K>,
    edit: &Edit,
    meter: &mut Meter,
) -> Result<Outcome, AllocError>
    requires kept { IsKept header.now span segments.old }
    requires words { IsEditOfWords edit.now }
    requires accepted { accepted (session_of header.now segments.old) edit.now ≡ Ok tt }
    requires edited_segment { IsEditedSegment (session_of header.now segments.old) edit.now
        segments.old edited_segment.old.kernel edited_segment.old.steps.items
        edited_segment.old.before edited_segment.old.after }
    requires from { edited_segment.old.from
        ≡ length (all_steps (take edited_segment.old.before segments.old)) }
    ensures replay { OnOk result
        (AreRemade (kept_of header.now span segments.old) edit.now segments.old segments.new) }
    ensures outcome { IfOk result
        (λ outcome. outcome ≡ outcome_of (kept_of header.now span segments.old) edit.now) }
    ensures unchanged { OnErr result (segments.new ≡ segments.old) }
    ensures meter { OnOk result
        (meter.new
        ≡ meter_after (replayed (kept_of header.now span segments.old) edit.now) meter.old) }
    ensures some { OnErr result
        (CountsUpTo (replayed (kept_of header.now span segments.old) edit.now) meter.old
        meter.new) }
{
    let (from, before) = (edited_segment.from, edited_segment.before);
    let steps = edited_segment.steps.as_slice();
    let rest = segments.len() - edited_segment.after;
    let mut made = Vec::new(alloc);
    push_cut(
        alloc,
        &mut edited_segment.kernel,
        &mut made,
        span,
        rest == 0,
        steps,
        meter,
    )?;
    segments.replace(before, edited_segment.after, made)?;
    let end = segments.replay_from(segments.len() - rest, &mut edited_segment.kernel, meter);
    let replayed = count_steps(&segments.as_slice()[before..end]);
    Ok(Outcome {
        from,
        met: from + replayed,
        replayed,
    })
}
