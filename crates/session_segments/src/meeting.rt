//! Where a replay after an edit meets the run before it.
ghost use Rattle.std.specs.Prelude.{◌≡◌, ◌⊎◌, ◌<◌, ◌≤◌, false, not, IfSome, MatchOption, drop, length, slice_index};
ghost use Rattle.bench_model.specs.Equal.{StandsFor};
ghost use Rattle.bench_model.specs.Shifted.{is_met, some_delays_until};
ghost use Rattle.bench_model.specs.Table.{Table};
ghost use Rattle.meeting_laws.specs.RunLaws.{MeetBy};
ghost use Rattle.segment_laws.specs.Segments.{SegmentView, all_steps};
ghost use Rattle.session_segments.specs.Meetings.{IsMeetingAt, IsUnreadFrom};

use crate::kept_results::KeptResults;
use crate::segment::Segment;
use smp_kernel::Kernel;

// The least index from which on no segment has a delay until a tick count.
fn unread_from<K: KeptResults>(segments: &[Segment<K>]) -> usize
    ensures { IsUnreadFrom segments.now result }
{
    let mut from = segments.len();
    while from > 0 && !segments[from - 1].delays_until() {
        from -= 1;
    }
    from
}

// Whether no segment from the index on has a delay until a tick count. The first call looks at the
// segments, later ones at what it found.
fn is_unread<K: KeptResults>(
    known: &mut Option<usize>,
    segments: &[Segment<K>],
    index: usize,
) -> bool
    requires known { IfSome known.old (IsUnreadFrom segments.now) }
    ensures known { IfSome known.new (IsUnreadFrom segments.now) }
    ensures unread { result ≡ not (some_delays_until (all_steps (drop index segments.now))) }
{
    let from = match *known {
        Some(from) => from,
        None => unread_from(segments),
    };
    *known = Some(from);
    from <= index
}

/// By how many ticks the kernel meets the segment at the index: it is equal to the one that the
/// segment begins with, or it is later by these ticks and no step from there on is a delay until a
/// tick count. `None` where the two don't meet.
///
/// `known` is `None` at the first call. It keeps what was found of the segments' steps for further
/// calls with the same segments, whatever their kernels.
pub fn met_by<K: KeptResults>(
    known: &mut Option<usize>,
    segments: &[Segment<K>],
    index: usize,
    kernel: &Kernel,
) -> Option<u32>
    requires index { index < length segments.now }
    requires known { IfSome known.old (IsUnreadFrom segments.now) }
    ensures known { IfSome known.new (IsUnreadFrom segments.now) }
    ensures met { IsMeetingAt segments.now index kernel.now result }
    ensures unread { IfSome result (λ by. (by ≡ 0)
        ⊎ (some_delays_until (all_steps (drop index segments.now)) ≡ false)) }
{
    let by = segments[index].ticks_to(kernel)?;
    if by == 0 {
        return Some(by);
    }
    if is_unread(known, segments, index) {
        Some(by)
    } else {
        None
    }
}
