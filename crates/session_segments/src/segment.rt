//! The steps from one checkpoint to the next.
ghost use Rattle.std.specs.Prelude.{◌≡◌, ◌≢◌, ◌⊎◌, ℕ, suc, ◌<◌, ◌^◌, ◌≤◌, All, true, false, Ok, Some, None, IfOk, IfSome, OnOk, OnErr, MatchOption, length, take, option_and_then, slice_get};
ghost use Rattle.std.specs.Vec.{vec_capacity};
ghost use Rattle.bench_types.specs.Limits.{max_cores, max_steps};
ghost use Rattle.bench_types.specs.Step.{IsCheckedStep};
ghost use Rattle.bench_model.specs.Control.{current};
ghost use Rattle.bench_model.specs.Equal.{StandsFor};
ghost use Rattle.bench_model.specs.Session.{state_after};
ghost use Rattle.bench_model.specs.Shifted.{SameShifted, delays_until, shifted, some_delays_until};
ghost use Rattle.bench_model.specs.Table.{Table};
ghost use Rattle.bench_model.specs.Tallied.{first_tallies, part_tallies, shape, shape_of, AllCountsBelow};
ghost use Rattle.tallies.specs.Tops.{HasTops};
ghost use Rattle.shift_laws.specs.Shifts.{IsShifted};
ghost use Rattle.segment_laws.specs.Segments.{later_segment, reply_after, running_after, AreResults};
ghost use Rattle.smp_kernel.specs.Kernel.{StandsForSome};
ghost use Rattle.session_segments.specs.Counting.{meter_after, CountsUpTo};
ghost use Rattle.session_segments.specs.Kept.{HasRoom};

use crate::checkpoint::Checkpoint;
use crate::kept_results::{KeptResults, NoResults, Results};
use crate::replay::{advance, first_row};
use bench_types::{Call, Reply, Settings, Step};
use smp_kernel::{Kernel, Meter};
use std::alloc::{AllocError, Global};
use std::marker::Model;
use tallies::Tallies;

/// The steps from one checkpoint to the next or to the end, with the kernel at the first and, if it
/// is [`Results`], what the steps led to.
#[derive(Debug)]
pub struct Segment<K: KeptResults = Results> {
    kernel: Checkpoint,
    steps: Vec<Step>,
    /// Whether one of the steps delays until a tick count.
    delays_until: bool,
    /// What is kept of what the steps led to.
    kept: K,
}

// Written out, so that whoever drops one has one call to prove, and not one for each list in it.
impl<K: KeptResults> Drop for Segment<K> {
    fn drop(self) {
        let Segment {
            kernel: _,
            steps: _,
            delays_until: _,
            kept: _,
        } = self;
    }
}

impl<K: KeptResults> Model for Segment<K> {
    ghost use Rattle.std.specs.Prelude.{◌≡◌};
    ghost use Rattle.bench_model.specs.Shifted.{some_delays_until};
    ghost use Rattle.segment_laws.specs.Segments.{SegmentView};

    ghost Value = { SegmentView };

    ghost use Rattle.session_segments.specs.Kept.{MayBeReplayed};

    ghost view = { λ segment. record { kernel = segment.kernel; steps = segment.steps.items } };

    ghost invariant = { λ segment. MayBeReplayed segment.kernel segment.steps.items
        × (segment.delays_until ≡ some_delays_until segment.steps.items)
        × K.fits segment.kernel segment.steps.items segment.kept };
}

fn delays_until(step: &Step) -> bool
    ensures { result ≡ delays_until step.now }
{
    matches!(
        step,
        Step::Call {
            call: Call::DelayUntil { .. },
            ..
        }
    )
}

// Whether one of the steps is a delay until a tick count.
fn some_delays_until(steps: &[Step]) -> bool
    ensures { result ≡ some_delays_until steps.now }
{
    steps.iter().any(delays_until)
}

fn reply_at(replies: &[Reply], index: u32) -> Option<Reply>
    ensures { result ≡ slice_get replies.now index }
{
    replies.get(index as usize).copied()
}

impl<K: KeptResults> Segment<K> {
    /// Replays the steps on the kernel, and keeps them with a copy of the kernel as it was before.
    pub fn replay(
        alloc: Global,
        kernel: &mut Kernel,
        steps: &[Step],
        meter: &mut Meter,
    ) -> Result<Segment<K>, AllocError>
        requires stands { StandsForSome kernel.old }
        requires few { kernel.old.settings.cores ≤ max_cores }
        requires steps { All (IsCheckedStep kernel.old.settings) steps.now }
        requires few_steps { length steps.now ≤ max_steps }
        ensures segment { IfOk result
            (λ segment. segment ≡ record { kernel = kernel.old; steps = steps.now }) }
        ensures state { OnOk result ((table : Table) → StandsFor kernel.old table
            → StandsFor kernel.new (state_after table steps.now)) }
        ensures settings { kernel.new.settings ≡ kernel.old.settings }
        ensures meter { OnOk result (meter.new ≡ meter_after (length steps.now) meter.old) }
        ensures some { OnErr result (CountsUpTo (length steps.now) meter.old meter.new) }
    {
        let mut own = Vec::with_capacity(alloc, steps.len())?;
        own.extend_from_slice(steps)?;
        let first = kernel.copy(alloc)?;
        let kept = K::of(alloc, kernel, steps, meter)?;
        Ok(Segment {
            kernel: Checkpoint::new(first),
            steps: own,
            delays_until: some_delays_until(steps),
            kept,
        })
    }

    /// Makes the steps on the kernel instead of the one before the first of them, in place of what
    /// they led to from that one. No memory is taken.
    pub fn replay_in_place(&mut self, kernel: &mut Kernel, meter: &mut Meter)
        requires stands { StandsForSome kernel.old }
        requires settings { kernel.old.settings ≡ self.old.kernel.settings }
        ensures segment { self.new ≡ record self.old { kernel = kernel.old } }
        ensures state { (table : Table) → StandsFor kernel.old table
            → StandsFor kernel.new (state_after table self.old.steps) }
        ensures settings { kernel.new.settings ≡ kernel.old.settings }
        ensures meter { meter.new ≡ meter_after (length self.old.steps) meter.old }
    {
        self.kernel.replace(kernel);
        self.kept.redo(kernel, &self.steps, meter);
    }

    /// A kernel as this segment's is before the first step.
    pub fn copy_kernel(&self, alloc: Global) -> Result<Kernel, AllocError>
        ensures kernel { IfOk result (λ kernel. kernel ≡ self.now.kernel) }
    {
        self.kernel.copy_kernel(alloc)
    }

    /// The settings of its kernel.
    pub fn settings(&self) -> Settings
        ensures settings { result ≡ self.now.kernel.settings }
        ensures stands { StandsForSome self.now.kernel }
        ensures few { self.now.kernel.settings.cores ≤ max_cores }
    {
        self.kernel.settings()
    }

    /// The tallies before the first step: zeros, and each task's priority in use.
    pub fn first_tallies(&self, alloc: Global) -> Result<Tallies, AllocError>
        ensures tallies { IfOk result (λ tallies. tallies
            ≡ first_tallies self.now.kernel.settings self.now.kernel.control) }
        ensures shape { IfOk result
            (λ tallies. shape tallies ≡ shape_of self.now.kernel.settings) }
        ensures room { IfOk result (AllCountsBelow 1) }
        ensures tops { IfOk result (HasTops self.now.kernel.control) }
    {
        self.kernel.first_tallies(alloc)
    }

    /// The steps.
    pub fn steps(&self) -> &[Step]
        ensures steps { result.now ≡ self.now.steps }
        ensures checked { All (IsCheckedStep self.now.kernel.settings) self.now.steps }
        ensures few { length self.now.steps ≤ max_steps }
    {
        self.steps.as_slice()
    }

    /// A kernel as this segment's is after so many of its steps, which the meter counts.
    pub fn kernel_after(
        &self,
        alloc: Global,
        count: u32,
        meter: &mut Meter,
    ) -> Result<Kernel, AllocError>
        requires { count ≤ length self.now.steps }
        ensures stands { IfOk result
            (λ kernel. (table : Table) → StandsFor self.now.kernel table
            → StandsFor kernel (state_after table (take count self.now.steps))) }
        ensures settings { IfOk result
            (λ kernel. kernel.settings ≡ self.now.kernel.settings) }
        ensures meter { OnOk result (meter.new ≡ meter_after count meter.old) }
        ensures uncounted { OnErr result (meter.new ≡ meter.old) }
    {
        let mut kernel = self.kernel.copy_kernel(alloc)?;
        advance(&mut kernel, &self.steps[..count as usize], meter);
        Ok(kernel)
    }

    /// Whether one of the steps is a delay until a tick count, one that is refused too.
    pub fn delays_until(&self) -> bool
        ensures { result ≡ some_delays_until self.now.steps }
    {
        self.delays_until
    }

    /// By how many ticks the kernel is later than the one before the first step; `None` where the
    /// two differ in more than the tick count.
    pub fn ticks_to(&self, kernel: &Kernel) -> Option<u32>
        ensures ticks { (a b : Table) → StandsFor self.now.kernel a → StandsFor kernel.now b
            → MatchOption result (SameShifted a b → ⊥) (λ by. IsShifted by a b) }
        ensures word { IfSome result (λ by. by < 2 ^ 32) }
    {
        self.kernel.ticks_to(kernel)
    }

    /// The segment becomes the same so many ticks later, where no step reads the tick count. What
    /// the steps led to stays.
    pub fn shift(&mut self, by: u32)
        requires { some_delays_until self.old.steps ≡ false }
        ensures { self.new ≡ later_segment by self.old }
    {
        self.kernel.shift(by);
    }
}

impl Segment {
    /// The reply of the step at the index; `None` past the last.
    pub fn reply(&self, index: u32) -> Option<Reply>
        ensures { (table : Table) → StandsFor self.now.kernel table
            → result ≡ reply_after table self.now.steps index }
    {
        reply_at(self.kept.replies.as_slice(), index)
    }

    /// The current task of the core after so many steps; `None` past the last, and where there is
    /// no such core.
    pub fn running(&self, count: u32, core: u32) -> Option<u32>
        ensures { (table : Table) → StandsFor self.now.kernel table
            → result
            ≡ option_and_then (λ row. slice_get row core)
            (running_after table self.now.steps count) }
    {
        if self.kernel.settings().cores <= core {
            return None;
        }
        if count as usize > self.steps.len() {
            return None;
        }
        Some(self.current(count, core))
    }

    // The current task of the core after so many steps: what the last of them that the core made
    // left it with.
    fn current(&self, count: u32, core: u32) -> u32
        requires core { core < self.now.kernel.settings.cores }
        requires within { count ≤ length self.now.steps }
        ensures { (table : Table) → StandsFor self.now.kernel table
            → result ≡ current (state_after table (take count self.now.steps)).control core }
    {
        let mut task = self.kernel.running(core);
        for index in 0..count as usize {
            if self.steps[index].core() == core {
                task = self.kept.currents[index];
            }
        }
        task
    }

    /// The current tasks after so many steps, core 0 first.
    pub fn row(&self, alloc: Global, count: u32) -> Result<Vec<u32>, AllocError>
        requires { count ≤ length self.now.steps }
        ensures { IfOk result
            (λ row. (table : Table) → StandsFor self.now.kernel table
            → running_after table self.now.steps count ≡ Some row.items) }
    {
        let mut row = first_row(alloc, &self.kernel)?;
        for index in 0..count {
            self.update_row(index, &mut row);
        }
        Ok(row)
    }

    /// Makes of the current tasks before the step at the index, core 0 first, those after it, and
    /// tells whether they differ. No memory is taken.
    pub fn update_row(&self, index: u32, row: &mut [u32]) -> bool
        requires within { index < length self.now.steps }
        requires cores { length row.old ≡ self.now.kernel.settings.cores }
        ensures row { (table : Table) → StandsFor self.now.kernel table
            → running_after table self.now.steps index ≡ Some row.old
            → running_after table self.now.steps (suc index) ≡ Some row.new }
        ensures same { result ≡ false → row.new ≡ row.old }
        ensures changed { result ≡ true → row.new ≢ row.old }
        ensures cores { length row.new ≡ length row.old }
    {
        let core = self.steps[index as usize].core() as usize;
        let task = self.kept.currents[index as usize];
        let is_other = row[core] != task;
        row[core] = task;
        is_other
    }

    /// How the tasks fared in these steps.
    pub fn tallies(&self) -> &Tallies
        ensures tallies { (table : Table) → StandsFor self.now.kernel table
            → result.now ≡ part_tallies self.now.kernel.settings table self.now.steps }
        ensures sizes { shape result.now ≡ shape_of self.now.kernel.settings }
        ensures stands { StandsForSome self.now.kernel }
    {
        &self.kept.tallies
    }
}

impl Segment<NoResults> {
    /// The same segment with what its steps lead to. They are made once more, on a copy of its
    /// kernel, which the meter counts.
    pub fn with_results(self, alloc: Global, meter: &mut Meter) -> Result<Segment, AllocError>
        ensures segment { IfOk result (λ segment. segment ≡ self) }
        ensures meter { OnOk result (meter.new ≡ meter_after (length self.steps) meter.old) }
        ensures some { OnErr result (CountsUpTo (length self.steps) meter.old meter.new) }
    {
        let Segment {
            kernel,
            steps,
            delays_until,
            kept: _,
        } = self;
        let kept = shown(alloc, &kernel, steps.as_slice(), delays_until, meter)?;
        Ok(Segment {
            kernel,
            steps,
            delays_until,
            kept,
        })
    }
}

// A kernel on which steps lead to what they lead to on the one at the checkpoint: that one, or,
// where none of them reads the tick count, an earlier one that takes no move in time.
fn kernel_for(alloc: Global, kernel: &Checkpoint, delays_until: bool) -> Result<Kernel, AllocError>
    ensures alike { IfOk result (λ next. (next ≡ kernel.now)
        ⊎ ((by : ℕ) × (kernel.now ≡ shifted by next) × (delays_until ≡ false))) }
    ensures stands { IfOk result StandsForSome }
    ensures settings { IfOk result (λ next. next.settings ≡ kernel.now.settings) }
{
    if delays_until {
        kernel.copy_kernel(alloc)
    } else {
        kernel.copy_unmoved(alloc)
    }
}

// What the steps lead to on a copy of the kernel. A copy is dear to drop, so one call follows.
fn shown(
    alloc: Global,
    kernel: &Checkpoint,
    steps: &[Step],
    delays_until: bool,
    meter: &mut Meter,
) -> Result<Results, AllocError>
    requires delaying { delays_until ≡ some_delays_until steps.now }
    requires stands { StandsForSome kernel.now }
    requires few { kernel.now.settings.cores ≤ max_cores }
    requires steps { All (IsCheckedStep kernel.now.settings) steps.now }
    requires few_steps { length steps.now ≤ max_steps }
    ensures kept { IfOk result (λ kept. AreResults kernel.now steps.now kept.replies.items
        kept.currents.items kept.tallies
        × HasRoom steps.now (vec_capacity kept.replies) (vec_capacity kept.currents)) }
    ensures meter { OnOk result (meter.new ≡ meter_after (length steps.now) meter.old) }
    ensures some { OnErr result (CountsUpTo (length steps.now) meter.old meter.new) }
{
    let mut next = kernel_for(alloc, kernel, delays_until)?;
    Results::of(alloc, &mut next, steps, meter)
}
