//! How the tasks fared up to some checkpoints, for many trials.
ghost use Rattle.std.specs.Prelude.{◌≡◌, ◌++◌, ◌<◌, ◌≤◌, List, IfOk, IfSome, length, take};
ghost use Rattle.bench_types.specs.declared.header.Header.{Header as ItsHeader};
ghost use Rattle.segment_laws.specs.Segments.{SegmentView};
ghost use Rattle.session_store.specs.Sums.{AreSums, AreSumsAfter, AreSumsBefore, HasSums, HasSumsInFront, IsSumFrom};
ghost use Rattle.session_store.specs.Trials.{AreTallied, IsReplay};

use session_segments::Segment;
use std::alloc::{AllocError, Global};
use std::marker::Model;
use tallies::Tallies;

/// From one segment where there are sums to the next there are so many.
const BLOCK: usize = 16;

/// How the tasks fared up to some checkpoints of a session, and from each of them on: sums that are
/// made once for many trials of its edits.
#[derive(Debug, Drop)]
pub struct Sums {
    before: Vec<Tallies>,
    after: Vec<Tallies>,
}

impl Model for Sums {
    ghost use Rattle.session_store.specs.Sums.{CheckpointSums};

    ghost Value = { CheckpointSums };

    ghost view = { λ sums. record { before = sums.before.items; after = sums.after.items } };
}

// The sums of the segments before each such checkpoint.
fn sums_before(alloc: Global, segments: &[Segment]) -> Result<Vec<Tallies>, AllocError>
    requires some { 0 < length segments.now }
    requires replay { (header : ItsHeader) × IsReplay header segments.now }
    ensures { IfOk result
        (λ sums. (header : ItsHeader) → IsReplay header segments.now
        → AreSumsBefore header segments.now sums.items) }
{
    let mut before = Vec::new(alloc);
    let mut total = segments[0].first_tallies(alloc)?;
    for (index, segment) in segments.iter().enumerate() {
        if index % BLOCK == 0 {
            before.push(total.copy(alloc)?)?;
        }
        total.add(segment.tallies());
    }
    Ok(before)
}

// The sums of the segments after each such checkpoint, which are made from the last one back.
fn sums_after(alloc: Global, segments: &[Segment]) -> Result<Vec<Tallies>, AllocError>
    requires some { 0 < length segments.now }
    requires replay { (header : ItsHeader) × IsReplay header segments.now }
    ensures { IfOk result
        (λ sums. (header : ItsHeader) → IsReplay header segments.now
        → AreSumsAfter header segments.now sums.items) }
{
    let last = segments.len() - 1;
    let mut after = Vec::new(alloc);
    let mut total = segments[last].tallies().copy(alloc)?;
    for index in (0..last).rev() {
        if (index + 1) % BLOCK == 0 {
            after.push(total.copy(alloc)?)?;
        }
        total.add(segments[index].tallies());
    }
    after.push(total)?;
    after.reverse();
    Ok(after)
}

/// The sums of the segments of a replay.
pub(crate) fn sums_of(alloc: Global, segments: &[Segment]) -> Result<Sums, AllocError>
    requires some { 0 < length segments.now }
    requires replay { (header : ItsHeader) × IsReplay header segments.now }
    ensures { IfOk result
        (λ sums. (header : ItsHeader) → IsReplay header segments.now
        → AreSums header segments.now sums) }
{
    Ok(Sums {
        before: sums_before(alloc, segments)?,
        after: sums_after(alloc, segments)?,
    })
}

// How the tasks fared in some of the first segments, and in how many of them.
fn summed(alloc: Global, sums: &Sums, front: &[Segment]) -> Result<(Tallies, usize), AllocError>
    requires some { 0 < length front.now }
    requires sums { HasSumsInFront front.now sums.now }
    ensures tallied { IfOk result
        (λ summed_front. (header : ItsHeader) (rest : List SegmentView)
        → IsReplay header (front.now ++ rest)
        → AreTallied header (take summed_front.1 front.now) summed_front.0) }
    ensures within { IfOk result (λ summed_front. summed_front.1 ≤ length front.now) }
{
    let block = (front.len() - 1) / BLOCK;
    let sum = sums.before[block].copy(alloc)?;
    Ok((sum, block * BLOCK))
}

/// How the tasks fared in some of the first segments, and in how many of them: in none, where there
/// are no sums.
pub(crate) fn summed_front(
    alloc: Global,
    sums: Option<&Sums>,
    front: &[Segment],
) -> Result<(Tallies, usize), AllocError>
    requires some { 0 < length front.now }
    requires sums { IfSome sums (λ sums. HasSumsInFront front.now sums.now) }
    ensures tallied { IfOk result
        (λ summed_front. (header : ItsHeader) (rest : List SegmentView)
        → IsReplay header (front.now ++ rest)
        → AreTallied header (take summed_front.1 front.now) summed_front.0) }
    ensures within { IfOk result (λ summed_front. summed_front.1 ≤ length front.now) }
{
    match sums {
        Some(sums) => summed(alloc, sums, front),
        None => Ok((front[0].first_tallies(alloc)?, 0)),
    }
}

/// How the tasks fared from a checkpoint on, and the index of the segment there: of the checkpoints
/// from which there are sums, that is the first at this index or later. There may be none.
pub(crate) fn sum_from<'a>(
    sums: Option<&'a Sums>,
    segments: &[Segment],
    from: usize,
) -> Option<(&'a Tallies, usize)>
    requires sums { IfSome sums (λ sums. HasSums segments.now sums.now) }
    ensures { IfSome result (λ found. IsSumFrom segments.now from found.0.now found.1) }
{
    let sums = sums?;
    let block = from.div_ceil(BLOCK);
    let next = block.checked_mul(BLOCK)?;
    if next < segments.len() {
        Some((&sums.after[block], next))
    } else {
        None
    }
}
