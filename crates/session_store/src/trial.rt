//! An edit that is tried and not made.
ghost use Rattle.std.specs.Prelude.{◌≡◌, ◌≤◌, ◌+◌, ◌-◌, ◌^◌, ◌++◌, [], All, Ok, IfOk, IfSome, OnOk, OnErr, length, take};
ghost use Rattle.bench_types.specs.Edit.{IsEditOfWords};
ghost use Rattle.bench_types.specs.Limits.{max_steps};
ghost use Rattle.bench_types.specs.Step.{IsCheckedStep};
ghost use Rattle.bench_model.specs.Edits.{accepted};
ghost use Rattle.bench_model.specs.Equal.{StandsFor};
ghost use Rattle.bench_model.specs.Meeting.{replayed};
ghost use Rattle.bench_model.specs.Table.{Table};
ghost use Rattle.bench_model.specs.Tallied.{part_tallies, shape, shape_of, tallied_after, AllCountsBelow};
ghost use Rattle.tallies.specs.Tops.{HasTops};
ghost use Rattle.segment_laws.specs.Segments.{all_steps};
ghost use Rattle.session_segments.specs.Replaying.{HasSettings};
ghost use Rattle.session_segments.specs.Counting.{meter_after, CountsUpTo};
ghost use Rattle.session_store.specs.Kept.{kept_of, session_of, IsKept};
ghost use Rattle.session_store.specs.Outcomes.{outcome_of};
ghost use Rattle.session_store.specs.Replays.{IsEditedSegment};
ghost use Rattle.session_store.specs.Sums.{HasSums};
ghost use Rattle.session_store.specs.Trials.{tallies_after, IsMeeting};

use crate::Outcome;
use crate::edit::{count_steps, later};
use crate::edited_segment::EditedSegment;
use crate::sums::Sums;
use crate::tallying::tallies_after;
use bench_types::{Edit, Header, Step};
use session_segments::{Segment, Segments, met_by, tally_steps};
use smp_kernel::{Kernel, Meter};
use std::alloc::{AllocError, Global};
use tallies::Tallies;

// Replays and counts the steps of the segments, up to the first that the replay meets, and returns
// how many it replayed.
fn tally_segments(
    kernel: &mut Kernel,
    tallies: &mut Tallies,
    after: &[Segment],
    meter: &mut Meter,
) -> usize
    requires settings { All (HasSettings kernel.old.settings) after.now }
    requires few_steps { length (all_steps after.now) ≤ max_steps }
    requires sizes { shape tallies.old ≡ shape_of kernel.old.settings }
    requires room { AllCountsBelow (2 ^ 32 - length (all_steps after.now)) tallies.old }
    requires tops { HasTops kernel.old.control tallies.old }
    ensures meeting { (table : Table) → StandsFor kernel.old table
        → IsMeeting table [] after.now result }
    ensures counted { (table : Table) → StandsFor kernel.old table → tallies.new
        ≡ tallied_after table (all_steps (take result after.now)) tallies.old }
    ensures sizes { shape tallies.new ≡ shape_of kernel.old.settings }
    ensures meter { meter.new ≡ meter_after (length (all_steps (take result after.now))) meter.old }
{
    let mut known = None;
    for (count, segment) in after.iter().enumerate() {
        if met_by(&mut known, after, count, kernel).is_some() {
            return count;
        }
        tally_steps(kernel, tallies, segment.steps(), meter);
    }
    after.len()
}

// Replays and counts the steps of an edited segment, and those of the segments after it as long as
// the edited session differs. Nothing else of them is kept. Returns the tallies, and how many of
// the segments were replayed.
fn retrace(
    alloc: Global,
    kernel: &mut Kernel,
    steps: &[Step],
    after: &[Segment],
    meter: &mut Meter,
) -> Result<(Tallies, usize), AllocError>
    requires steps { All (IsCheckedStep kernel.old.settings) steps.now }
    requires settings { All (HasSettings kernel.old.settings) after.now }
    requires few_steps { length steps.now + length (all_steps after.now) ≤ max_steps }
    ensures meeting { IfOk result
        (λ with_results. (table : Table) → StandsFor kernel.old table
        → IsMeeting table steps.now after.now with_results.1) }
    ensures tallies { IfOk result
        (λ with_results. (table : Table) → StandsFor kernel.old table
        → with_results.0
        ≡ part_tallies kernel.old.settings table
        (steps.now ++ all_steps (take with_results.1 after.now))) }
    ensures sizes { IfOk result
        (λ with_results. shape with_results.0 ≡ shape_of kernel.old.settings) }
    ensures meter { IfOk result
        (λ with_results. meter.new
        ≡ meter_after
        (length steps.now + length (all_steps (take with_results.1 after.now))) meter.old) }
    ensures unmade { OnErr result (meter.new ≡ meter.old) }
{
    let mut tallies = Tallies::begin(alloc, kernel)?;
    tally_steps(kernel, &mut tallies, steps, meter);
    let count = tally_segments(kernel, &mut tallies, after, meter);
    Ok((tallies, count))
}

/// What the replay of the steps where an accepted edit begins leads to, and how each task would
/// fare then.
pub(crate) fn run_trial(
    alloc: Global,
    sums: Option<&Sums>,
    edited_segment: &mut EditedSegment,
    header: &Header,
    span: u32,
    segments: &Segments,
    edit: &Edit,
    meter: &mut Meter,
) -> Result<(Outcome, Tallies), AllocError>
    requires kept { IsKept header.now span segments.now }
    requires sums { IfSome sums (λ sums. HasSums segments.now sums.now) }
    requires words { IsEditOfWords edit.now }
    requires accepted { accepted (session_of header.now segments.now) edit.now ≡ Ok tt }
    requires edited_segment { IsEditedSegment (session_of header.now segments.now) edit.now
        segments.now edited_segment.old.kernel edited_segment.old.steps.items
        edited_segment.old.before edited_segment.old.after }
    requires from { edited_segment.old.from
        ≡ length (all_steps (take edited_segment.old.before segments.now)) }
    ensures outcome { IfOk result
        (λ tried. tried.0 ≡ outcome_of (kept_of header.now span segments.now) edit.now) }
    ensures tallies { IfOk result
        (λ tried. tried.1 ≡ tallies_after edit.now (session_of header.now segments.now)) }
    ensures meter { OnOk result
        (meter.new
        ≡ meter_after (replayed (kept_of header.now span segments.now) edit.now) meter.old) }
    ensures some { OnErr result
        (CountsUpTo (replayed (kept_of header.now span segments.now) edit.now) meter.old
        meter.new) }
{
    let (from, before, after) = (
        edited_segment.from,
        edited_segment.before,
        edited_segment.after,
    );
    let steps = edited_segment.steps.as_slice();
    let rest = later(segments, after);
    let (tallies, count) = retrace(alloc, &mut edited_segment.kernel, steps, rest, meter)?;
    let replayed = steps.len() as u32 + count_steps(&rest[..count]);
    let total = tallies_after(alloc, sums, segments, before, after + count, tallies)?;
    let outcome = Outcome {
        from,
        met: from + replayed,
        replayed,
    };
    Ok((outcome, total))
}
