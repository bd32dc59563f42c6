//! How the tasks fare after an edit.
ghost use Rattle.std.specs.Prelude.{◌≡◌, ◌++◌, ◌≤◌, IfOk, IfSome, take, drop, length};
ghost use Rattle.bench_model.specs.Tally.{tallies};
ghost use Rattle.segment_laws.specs.Segments.{all_steps};
ghost use Rattle.session_store.specs.Sums.{HasSums, HasSumsInFront};
ghost use Rattle.session_store.specs.Trials.{AreTallied, AreTalliedAfter, AreTalliedLater, StayLater};

use crate::sums::{Sums, sum_from, summed_front};
use session_segments::{Segment, Segments};
use std::alloc::{AllocError, Global};
use tallies::Tallies;

/// Adds how the tasks fared in segments, which come after those that are counted.
pub(crate) fn add_segments(total: &mut Tallies, segments: &[Segment])
    requires { AreTalliedLater total.old segments.now }
    ensures { (known : AreTalliedLater total.old segments.now)
        → AreTallied known.before.header (known.before.earlier ++ segments.now) total.new }
{
    for segment in segments {
        total.add(segment.tallies());
    }
}

// How the tasks fared in segments and in what is replayed after them.
fn tallies_up_to(
    alloc: Global,
    sums: Option<&Sums>,
    front: &[Segment],
    replayed: Tallies,
) -> Result<Tallies, AllocError>
    requires sums { IfSome sums (λ sums. HasSumsInFront front.now sums.now) }
    requires replayed { AreTalliedAfter front.now replayed }
    ensures { IfOk result
        (λ total. (known : AreTalliedAfter front.now replayed)
        → AreTallied known.header (front.now ++ known.made) total) }
{
    if front.is_empty() {
        return Ok(replayed);
    }
    let (mut total, count) = summed_front(alloc, sums, front)?;
    add_segments(&mut total, &front[count..]);
    total.add(&replayed);
    Ok(total)
}

// Adds how the tasks fared in the segments from the index on, which come after those that are
// counted: up to a checkpoint from which there is a sum, one by one.
fn add_rest(total: &mut Tallies, sums: Option<&Sums>, segments: &[Segment], from: usize)
    requires sums { IfSome sums (λ sums. HasSums segments.now sums.now) }
    requires within { from ≤ length segments.now }
    requires counted { AreTalliedLater total.old (drop from segments.now) }
    ensures { (known : AreTalliedLater total.old (drop from segments.now))
        → AreTallied known.before.header
        (known.before.earlier ++ drop from segments.now) total.new }
{
    match sum_from(sums, segments, from) {
        Some((sum, next)) => {
            add_segments(total, &segments[from..next]);
            total.add(sum);
        }
        None => add_segments(total, &segments[from..]),
    }
}

/// How the tasks fare after an edit: in the segments that stay before it, in those that are
/// replayed, and in those that stay after them.
pub(crate) fn tallies_after(
    alloc: Global,
    sums: Option<&Sums>,
    segments: &Segments,
    before: usize,
    after: usize,
    replayed: Tallies,
) -> Result<Tallies, AllocError>
    requires sums { IfSome sums (λ sums. HasSums segments.now sums.now) }
    requires order { before ≤ after }
    requires within { after ≤ length segments.now }
    requires replayed { (known : AreTalliedAfter (take before segments.now) replayed)
        × StayLater known.later (drop after segments.now) }
    ensures { IfOk result
        (λ total. (known : AreTalliedAfter (take before segments.now) replayed)
        → StayLater known.later (drop after segments.now) →
        total
        ≡ tallies known.header
        (all_steps (take before segments.now ++ known.made ++ drop after segments.now))) }
{
    let segments = segments.as_slice();
    let mut total = tallies_up_to(alloc, sums, &segments[..before], replayed)?;
    add_rest(&mut total, sums, segments, after);
    Ok(total)
}
