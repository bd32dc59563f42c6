//! The steps of a segment that an edit changes.
ghost use Rattle.std.specs.Prelude.{◌≡◌, ◌<◌, ◌≤◌, ◌+◌, ◌^◌, Ok, IfOk, length, take};
ghost use Rattle.bench_types.specs.Edit.{IsEditOfWords};
ghost use Rattle.bench_types.specs.Session.{IsSession};
ghost use Rattle.bench_types.specs.Limits.{max_steps};
ghost use Rattle.bench_model.specs.Edits.{accepted, edited};
ghost use Rattle.bench_model.specs.Meeting.{place_of};
ghost use Rattle.bench_model.specs.Start.{start};
ghost use Rattle.segment_laws.specs.Segments.{all_steps, Follow};
ghost use Rattle.session_store.specs.Kept.{session_of};
ghost use Rattle.session_store.specs.Replays.{IsEditedSegment, IsStepEdit, IsTaskEdit};

use crate::edited::edited_part;
use crate::replay::started;
use bench_types::{Edit, Header, Step};
use session_segments::{KeptResults, Segments};
use smp_kernel::Kernel;
use std::alloc::{AllocError, Global};

/// The steps of the segment with the place of an edit, as the edit leaves them.
#[derive(Debug, Drop)]
pub(crate) struct EditedSegment {
    /// The kernel before the first of the steps.
    pub kernel: Kernel,
    pub steps: Vec<Step>,
    /// The place where the segment begins.
    pub from: u32,
    /// How many segments are before it.
    pub before: usize,
    /// The index of the first segment after it.
    pub after: usize,
}

// A changed task is replayed from the start, and all segments are after it.
fn segment_from_start<K: KeptResults>(
    alloc: Global,
    header: &Header,
    segments: &Segments<K>,
    next: &Header,
    edit: &Edit,
) -> Result<EditedSegment, AllocError>
    requires session { IsSession (session_of header.now segments.now) }
    requires accepted { accepted (session_of header.now segments.now) edit.now ≡ Ok tt }
    requires next { next.now ≡ (edited edit.now (session_of header.now segments.now)).header }
    requires task { IsTaskEdit edit.now }
    requires words { IsEditOfWords edit.now }
    ensures edited_segment { IfOk result
        (λ edited_segment. IsEditedSegment (session_of header.now segments.now) edit.now
        segments.now edited_segment.kernel edited_segment.steps.items edited_segment.before
        edited_segment.after) }
    ensures from { IfOk result
        (λ edited_segment. edited_segment.from
        ≡ length (all_steps (take edited_segment.before segments.now))) }
{
    Ok(EditedSegment {
        kernel: started(alloc, next)?,
        steps: Vec::new(alloc),
        from: 0,
        before: 0,
        after: 0,
    })
}

// An edited step is replayed from the begin of its segment.
fn segment_at_step<K: KeptResults>(
    alloc: Global,
    header: &Header,
    segments: &Segments<K>,
    edit: &Edit,
    place: u32,
) -> Result<EditedSegment, AllocError>
    requires session { IsSession (session_of header.now segments.now) }
    requires follow { Follow (start header.now) segments.now }
    requires few_steps { length (all_steps segments.now) ≤ max_steps }
    requires accepted { accepted (session_of header.now segments.now) edit.now ≡ Ok tt }
    requires step { IsStepEdit edit.now }
    requires place { place ≡ place_of edit.now }
    ensures edited_segment { IfOk result
        (λ edited_segment. IsEditedSegment (session_of header.now segments.now) edit.now
        segments.now edited_segment.kernel edited_segment.steps.items edited_segment.before
        edited_segment.after) }
    ensures from { IfOk result
        (λ edited_segment. edited_segment.from
        ≡ length (all_steps (take edited_segment.before segments.now))) }
{
    let (index, from) = segments.locate(place);
    let part = &segments.as_slice()[index];
    Ok(EditedSegment {
        kernel: part.copy_kernel(alloc)?,
        steps: edited_part(alloc, part.steps(), edit, from)?,
        from,
        before: index,
        after: index + 1,
    })
}

/// What an accepted edit leaves of its segment, under the edited session's header `next`.
pub(crate) fn segment_of_edit<K: KeptResults>(
    alloc: Global,
    header: &Header,
    segments: &Segments<K>,
    next: &Header,
    edit: &Edit,
) -> Result<EditedSegment, AllocError>
    requires session { IsSession (session_of header.now segments.now) }
    requires follow { Follow (start header.now) segments.now }
    requires few_steps { length (all_steps segments.now) ≤ max_steps }
    requires accepted { accepted (session_of header.now segments.now) edit.now ≡ Ok tt }
    requires next { next.now ≡ (edited edit.now (session_of header.now segments.now)).header }
    requires words { IsEditOfWords edit.now }
    ensures edited_segment { IfOk result
        (λ edited_segment. IsEditedSegment (session_of header.now segments.now) edit.now
        segments.now edited_segment.kernel edited_segment.steps.items edited_segment.before
        edited_segment.after) }
    ensures from { IfOk result
        (λ edited_segment. edited_segment.from
        ≡ length (all_steps (take edited_segment.before segments.now))) }
{
    match *edit {
        Edit::Insert { at, .. } | Edit::Remove { at } | Edit::Replace { at, .. } => {
            segment_at_step(alloc, header, segments, edit, at)
        }
        Edit::ChangeTask { .. } => segment_from_start(alloc, header, segments, next, edit),
    }
}
