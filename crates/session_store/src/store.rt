//! A session that was replayed, and edits of it.
ghost use Rattle.std.specs.Prelude.{◌≡◌, ◌≢◌, suc, ◌≤◌, ◌<◌, ◌↔◌, length, true, false, Ok, Err, Some, None, IfOk, IfErr, IfSome, IsSome, OnOk, OnErr, option_map, option_and_then, slice_get};
ghost use Rattle.bench_types.specs.Edit.{IsEditOfWords};
ghost use Rattle.bench_types.specs.Step.{settings_of, IsCheckedStep};
ghost use Rattle.bench_types.specs.Limits.{max_cores, max_steps};
ghost use Rattle.bench_types.specs.declared.edit.EditFault.{EditFault as Why};
ghost use Rattle.bench_types.specs.Session.{IsSession};
ghost use Rattle.bench_model.specs.Edits.{accepted};
ghost use Rattle.bench_model.specs.Equal.{StandsFor};
ghost use Rattle.bench_model.specs.Meeting.{first_kept, kept_after, last_place, replayed};
ghost use Rattle.bench_model.specs.Session.{state_at, reply_at, running_at};
ghost use Rattle.bench_model.specs.Table.{Table};
ghost use Rattle.bench_model.specs.Tally.{tallies};
ghost use Rattle.meeting_laws.specs.CheckpointLaws.{AreCheckpoints};
ghost use Rattle.segment_laws.specs.Segments.{running_after};
ghost use Rattle.session_segments.specs.Counting.{meter_after, CountsUpTo};
ghost use Rattle.session_store.specs.declared.fault.Refused.{Refused as Refusal};
ghost use Rattle.session_store.specs.Opening.{open_check, handed_back, no_memory};
ghost use Rattle.session_store.specs.Outcomes.{outcome_of, row_items, distance};
ghost use Rattle.session_store.specs.Sums.{AreSumsOf};
ghost use Rattle.session_store.specs.Trials.{tallies_after, IsTried};

use crate::checks::{check_edit, check_opening};
use crate::edit::replay_edit;
use crate::edited::edited_header;
use crate::edited_segment::segment_of_edit;
use crate::fault::Refused;
use crate::opening::opened;
use crate::sums::{Sums, sums_of};
use crate::tallying::add_segments;
use crate::trial::run_trial;
use crate::{OpenFault, OpenRefusal, Outcome, StoreFault};
use bench_types::{Edit, Header, Items, MAX_STEPS, Reply, Row, Step};
use session_segments::{KeptResults, NoResults, Results, Segment, Segments};
use smp_kernel::{Kernel, Meter};
use std::alloc::{AllocError, Global};
use std::marker::Model;
use tallies::Tallies;

/// A session that was replayed, in segments that begin at its checkpoints: with its replies, the
/// tasks that run at each place, and how each task fared.
///
/// A `Store<NoResults>` keeps none of these, so that an edit of it costs hardly more than the steps
/// of the kernel. [`Store::with_results`] makes them for all steps at once, after many edits.
#[derive(Debug)]
pub struct Store<K: KeptResults = Results> {
    header: Header,
    /// About how many steps are to lie between two checkpoints.
    span: u32,
    segments: Segments<K>,
}

// Written out, so that whoever drops one has one call to prove, and not one for each list in it.
impl<K: KeptResults> Drop for Store<K> {
    fn drop(self) {
        let Store {
            header: _,
            span: _,
            segments: _,
        } = self;
    }
}

impl<K: KeptResults> Model for Store<K> {
    ghost use Rattle.bench_model.specs.Meeting.{CheckpointedSession};

    ghost Value = { CheckpointedSession };

    ghost use Rattle.session_store.specs.Kept.{kept_of, IsKept};

    ghost view = { λ store. kept_of store.header store.span store.segments };

    ghost invariant = { λ store. IsKept store.header store.span store.segments };
}

fn step_at(steps: &[Step], index: u32) -> Option<Step>
    ensures { result ≡ slice_get steps.now index }
{
    steps.get(index as usize).copied()
}

impl<K: KeptResults> Store<K> {
    /// Replays the session from its start, with a checkpoint every `span` steps. A `Store`, which
    /// keeps what the steps led to, answers with replies and tasks at once; a `Store<NoResults>` is
    /// for many edits first.
    ///
    /// A refusal gives the session back: F1, else J3, else J2, else the first fault of a step, with
    /// the step's index.
    pub fn open(
        alloc: Global,
        header: Header,
        steps: Vec<Step>,
        span: u32,
        meter: &mut Meter,
    ) -> Result<Store<K>, OpenFault>
        ensures opened { IfOk result
            (λ store. store
            ≡ first_kept span (record { header = header; steps = steps.items })) }
        ensures accepted { OnOk result (open_check header steps.items span ≡ Ok tt) }
        ensures refused { (refusal : Refusal) → open_check header steps.items span ≡ Err refusal
            → result ≡ Err (handed_back header steps.items refusal) }
        ensures no_memory { open_check header steps.items span ≡ Ok tt
            → IfErr result (λ fault. fault ≡ no_memory header steps.items) }
        ensures meter { OnOk result (meter.new ≡ meter_after (length steps.items) meter.old) }
        ensures uncounted { (refusal : Refusal) → open_check header steps.items span ≡ Err refusal
            → meter.new ≡ meter.old }
        ensures some { OnErr result (CountsUpTo (length steps.items) meter.old meter.new) }
    {
        if let Err(Refused { why, at }) = check_opening(&header, steps.as_slice(), span) {
            return Err(OpenFault {
                header,
                steps: Items::new(steps),
                at,
                why,
            });
        }
        match opened(alloc, &header, steps.as_slice(), span, meter) {
            Ok(segments) => Ok(Store {
                header,
                span,
                segments,
            }),
            Err(_) => Err(OpenFault {
                header,
                steps: Items::new(steps),
                at: None,
                why: OpenRefusal::NoMemory,
            }),
        }
    }

    /// Makes an edit: the session is replayed from the last checkpoint before the edit, up to the
    /// first after it from which the edited session goes on as it did.
    ///
    /// A refusal leaves the store as it was: F1 to F5 of [`Edit::check`], else J1, else J2, else
    /// want of memory.
    pub fn apply(
        &mut self,
        alloc: Global,
        edit: Edit,
        meter: &mut Meter,
    ) -> Result<Outcome, StoreFault>
        ensures refused { (why : Why)
            → (result ≡ Err (StoreFault.Edit why)) ↔ (accepted self.old.session edit ≡ Err why) }
        ensures kept { OnOk result (self.new ≡ kept_after edit self.old) }
        ensures outcome { IfOk result (λ outcome. outcome ≡ outcome_of self.old edit) }
        ensures unchanged { OnErr result (self.new ≡ self.old) }
        ensures meter { OnOk result (meter.new ≡ meter_after (replayed self.old edit) meter.old) }
        ensures uncounted { (why : Why) → result ≡ Err (StoreFault.Edit why)
            → meter.new ≡ meter.old }
        ensures some { OnErr result
            (CountsUpTo (replayed self.old edit) meter.old meter.new) }
    {
        check_edit(&self.header, self.len(), &edit)?;
        let next = edited_header(alloc, &self.header, &edit)?;
        let outcome = replay_edit(
            alloc,
            &self.header,
            self.span,
            &mut self.segments,
            &next,
            &edit,
            meter,
        )?;
        self.header = next;
        Ok(outcome)
    }

    /// The number of steps, which is the last place.
    pub fn len(&self) -> u32
        ensures steps { result ≡ length self.now.session.steps }
        ensures few { result ≤ max_steps }
    {
        let (index, from) = self.segments.locate(MAX_STEPS);
        from + self.segments.as_slice()[index].steps().len() as u32
    }

    /// The settings and tasks of the session as it stands after all edits.
    pub fn header(&self) -> &Header
        ensures header { result.now ≡ self.now.session.header }
        ensures session { IsSession self.now.session }
    {
        &self.header
    }

    /// The step at index `i` of the session as it stands after all edits, the first at 0; `None`
    /// past the last.
    pub fn step(&self, i: u32) -> Option<Step>
        ensures { result ≡ slice_get self.now.session.steps i }
    {
        let (index, from) = self.segments.locate(i);
        step_at(self.segments.as_slice()[index].steps(), i - from)
    }

    /// The place of checkpoint `k`, counted from 0; `None` past the last. The first is the start.
    pub fn checkpoint(&self, k: u32) -> Option<u32>
        ensures place { result ≡ slice_get self.now.checkpoints k }
        ensures checkpoints { AreCheckpoints self.now.span (last_place self.now.session)
            self.now.checkpoints }
    {
        self.segments.checkpoint(k)
    }

    /// A kernel that stands for the state at the place, `None` past the last. It is replayed from
    /// the checkpoint before, which the meter counts.
    pub fn state(
        &self,
        alloc: Global,
        place: u32,
        meter: &mut Meter,
    ) -> Result<Option<Kernel>, AllocError>
        ensures stands { IfOk result
            (λ found. IfSome found
            (λ kernel. StandsFor kernel
            (state_at self.now.session.header self.now.session.steps place))) }
        ensures settings { IfOk result
            (λ found. IfSome found
            (λ kernel. kernel.settings ≡ settings_of self.now.session.header)) }
        ensures within { place ≤ length self.now.session.steps
            → IfOk result (λ found. IsSome found) }
        ensures past { length self.now.session.steps < place → result ≡ Ok None }
        ensures meter { OnOk result (meter.new ≡ meter_after (distance self.now place) meter.old) }
        ensures unmade { OnErr result (meter.new ≡ meter.old) }
    {
        if place > self.len() {
            return Ok(None);
        }
        let (index, from) = self.segments.locate(place);
        let segment = &self.segments.as_slice()[index];
        let kernel = segment.kernel_after(alloc, place - from, meter)?;
        Ok(Some(kernel))
    }
}

impl Store {
    /// What [`Store::apply`] would answer, and how each task would fare then. The store stays as it
    /// is, and the meter counts what is replayed.
    ///
    /// The refusals are those of [`Store::apply`].
    pub fn trial(
        &self,
        alloc: Global,
        edit: Edit,
        meter: &mut Meter,
    ) -> Result<(Outcome, Tallies), StoreFault>
        ensures tried { IsTried self.now edit result }
        ensures meter { OnOk result (meter.new ≡ meter_after (replayed self.now edit) meter.old) }
        ensures uncounted { (why : Why) → result ≡ Err (StoreFault.Edit why)
            → meter.new ≡ meter.old }
        ensures some { OnErr result
            (CountsUpTo (replayed self.now edit) meter.old meter.new) }
    {
        self.trial_with(alloc, None, edit, meter)
    }

    /// Sums for many trials of edits of this store, as it is now.
    pub fn sums(&self, alloc: Global) -> Result<Sums, AllocError>
        ensures { IfOk result (AreSumsOf self.now) }
    {
        let sums = sums_of(alloc, self.segments.as_slice())?;
        Ok(sums)
    }

    /// What [`Store::trial`] gives. How the tasks fared long before the edit, and long after what
    /// is replayed, is taken from the sums, where there are some.
    pub fn trial_with(
        &self,
        alloc: Global,
        sums: Option<&Sums>,
        edit: Edit,
        meter: &mut Meter,
    ) -> Result<(Outcome, Tallies), StoreFault>
        requires sums { IfSome sums (λ sums. AreSumsOf self.now sums.now) }
        ensures tried { IsTried self.now edit result }
        ensures meter { OnOk result (meter.new ≡ meter_after (replayed self.now edit) meter.old) }
        ensures uncounted { (why : Why) → result ≡ Err (StoreFault.Edit why)
            → meter.new ≡ meter.old }
        ensures some { OnErr result
            (CountsUpTo (replayed self.now edit) meter.old meter.new) }
    {
        check_edit(&self.header, self.len(), &edit)?;
        let tried = self.try_accepted(alloc, sums, &edit, meter)?;
        Ok(tried)
    }

    // What an accepted edit would lead to, and how each task would fare then.
    fn try_accepted(
        &self,
        alloc: Global,
        sums: Option<&Sums>,
        edit: &Edit,
        meter: &mut Meter,
    ) -> Result<(Outcome, Tallies), AllocError>
        requires sums { IfSome sums (λ sums. AreSumsOf self.now sums.now) }
        requires words { IsEditOfWords edit.now }
        requires accepted { accepted self.now.session edit.now ≡ Ok tt }
        ensures outcome { IfOk result (λ tried. tried.0 ≡ outcome_of self.now edit.now) }
        ensures tallies { IfOk result
            (λ tried. tried.1 ≡ tallies_after edit.now self.now.session) }
        ensures meter { OnOk result
            (meter.new ≡ meter_after (replayed self.now edit.now) meter.old) }
        ensures some { OnErr result
            (CountsUpTo (replayed self.now edit.now) meter.old meter.new) }
    {
        let next = edited_header(alloc, &self.header, edit)?;
        let segments = &self.segments;
        let mut edited_segment = segment_of_edit(alloc, &self.header, segments, &next, edit)?;
        let (header, span) = (&self.header, self.span);
        run_trial(
            alloc,
            sums,
            &mut edited_segment,
            header,
            span,
            segments,
            edit,
            meter,
        )
    }

    /// The reply of the step at index `i`; `None` past the last.
    pub fn reply(&self, i: u32) -> Option<Reply>
        ensures { result ≡ reply_at self.now.session.header self.now.session.steps i }
    {
        let (index, from) = self.segments.locate(i);
        self.segments.as_slice()[index].reply(i - from)
    }

    /// The current task of the core at the place; `None` past the last place, and where there is no
    /// such core.
    pub fn running(&self, place: u32, core: u32) -> Option<u32>
        ensures { result
            ≡ option_and_then (λ row. slice_get row core)
            (running_at self.now.session.header self.now.session.steps place) }
    {
        let (index, from) = self.segments.locate(place);
        self.segments.as_slice()[index].running(place - from, core)
    }

    /// The current tasks at the place, core 0 first; `None` past the last place, which takes no
    /// memory. They are found from the checkpoint before the place on.
    pub fn row(&self, alloc: Global, place: u32) -> Result<Option<Row>, AllocError>
        ensures row { IfOk result
            (λ found. option_map row_items found
            ≡ running_at self.now.session.header self.now.session.steps place) }
        ensures past { length self.now.session.steps < place → result ≡ Ok None }
    {
        if place > self.len() {
            return Ok(None);
        }
        let (index, from) = self.segments.locate(place);
        let row = self.segments.as_slice()[index].row(alloc, place - from)?;
        Ok(Some(row))
    }

    /// Makes of the current tasks before the step at index `i`, core 0 first, those after it, and
    /// tells whether they differ. No memory is taken, so whoever goes from place to place keeps one
    /// row of [`Store::row`].
    pub fn update_row(&self, i: u32, row: &mut [u32]) -> bool
        requires within { i < length self.now.session.steps }
        requires row { running_at self.now.session.header self.now.session.steps i
            ≡ Some row.old }
        ensures row { running_at self.now.session.header self.now.session.steps (suc i)
            ≡ Some row.new }
        ensures same { result ≡ false → row.new ≡ row.old }
        ensures changed { result ≡ true → row.new ≢ row.old }
    {
        let (index, from) = self.segments.locate(i);
        self.segments.as_slice()[index].update_row(i - from, row)
    }

    /// How each task fared in the session as it stands after all edits.
    pub fn tallies(&self, alloc: Global) -> Result<Tallies, AllocError>
        ensures { IfOk result
            (λ tallied. tallied ≡ tallies self.now.session.header self.now.session.steps) }
    {
        let segments = self.segments.as_slice();
        let mut total = segments[0].first_tallies(alloc)?;
        add_segments(&mut total, segments);
        Ok(total)
    }
}

impl Store<NoResults> {
    /// The same store with its replies, the tasks that run at each place, and how each task fared.
    /// All steps are made once more, which the meter counts.
    pub fn with_results(self, alloc: Global, meter: &mut Meter) -> Result<Store, AllocError>
        ensures store { IfOk result (λ store. store ≡ self) }
        ensures meter { OnOk result
            (meter.new ≡ meter_after (length self.session.steps) meter.old) }
        ensures some { OnErr result
            (CountsUpTo (length self.session.steps) meter.old meter.new) }
    {
        let Store {
            header,
            span,
            segments,
        } = self;
        let segments = segments.with_results(alloc, meter)?;
        Ok(Store {
            header,
            span,
            segments,
        })
    }
}
