//! Steps made on a kernel.
ghost use Rattle.std.specs.Prelude.{◌≡◌, ℕ, [], ◌<◌, ◌≤◌, ◌+◌, ◌-◌, ◌^◌, All, IfOk, Ok, length, map};
ghost use Rattle.std.specs.Vec.{vec_capacity};
ghost use Rattle.bench_types.specs.Limits.{max_steps};
ghost use Rattle.bench_types.specs.Step.{step_check, IsCheckedStep};
ghost use Rattle.bench_model.specs.Control.{running};
ghost use Rattle.bench_model.specs.Equal.{StandsFor};
ghost use Rattle.bench_model.specs.Session.{state_after, run_results};
ghost use Rattle.bench_model.specs.Table.{Table};
ghost use Rattle.bench_model.specs.Tallied.{first_tallies, part_tallies, shape, shape_of, tallied_after, AllCountsBelow};
ghost use Rattle.segment_laws.specs.Segments.{currents_after};
ghost use Rattle.smp_kernel.specs.Kernel.{StandsForSome};
ghost use Rattle.tallies.specs.Tops.{HasTops};
ghost use Rattle.session_segments.specs.Counting.{meter_after};

use crate::checkpoint::Checkpoint;
use bench_types::{Reply, Step};
use smp_kernel::{Kernel, Meter};
use std::alloc::{AllocError, Global};
use tallies::Tallies;

/// Makes the steps on the kernel, and keeps no reply.
pub fn advance(kernel: &mut Kernel, steps: &[Step], meter: &mut Meter)
    requires { All (IsCheckedStep kernel.old.settings) steps.now }
    ensures state { (table : Table) → StandsFor kernel.old table
        → StandsFor kernel.new (state_after table steps.now) }
    ensures settings { kernel.new.settings ≡ kernel.old.settings }
    ensures meter { meter.new ≡ meter_after (length steps.now) meter.old }
{
    for step in steps {
        kernel.step(meter, step);
    }
}

/// Makes the steps on the kernel and counts them, and keeps no reply.
pub fn tally_steps(kernel: &mut Kernel, tallies: &mut Tallies, steps: &[Step], meter: &mut Meter)
    requires steps { All (IsCheckedStep kernel.old.settings) steps.now }
    requires few_steps { length steps.now ≤ max_steps }
    requires sizes { shape tallies.old ≡ shape_of kernel.old.settings }
    requires room { AllCountsBelow (2 ^ 32 - length steps.now) tallies.old }
    requires tops { HasTops kernel.old.control tallies.old }
    ensures state { (table : Table) → StandsFor kernel.old table
        → StandsFor kernel.new (state_after table steps.now) }
    ensures settings { kernel.new.settings ≡ kernel.old.settings }
    ensures counted { (table : Table) → StandsFor kernel.old table
        → tallies.new ≡ tallied_after table steps.now tallies.old }
    ensures sizes { shape tallies.new ≡ shape_of kernel.old.settings }
    ensures grown { (bound : ℕ) → AllCountsBelow bound tallies.old
        → AllCountsBelow (bound + length steps.now) tallies.new }
    ensures tops { HasTops kernel.new.control tallies.new }
    ensures meter { meter.new ≡ meter_after (length steps.now) meter.old }
{
    for step in steps {
        tallies.make_next(kernel, meter, step);
    }
}

/// The current tasks of the kernel, core 0 first.
pub(crate) fn first_row(alloc: Global, kernel: &Checkpoint) -> Result<Vec<u32>, AllocError>
    ensures { IfOk result (λ row. row.items ≡ running kernel.now.control) }
{
    let cores = kernel.settings().cores;
    let mut row = Vec::with_capacity(alloc, cores as usize)?;
    for core in 0..cores {
        row.push_reserved(kernel.running(core));
    }
    Ok(row)
}

/// Adds the replies that the kernel gives to the steps, and for each the current task of the core
/// that made it, after it. There is room for them. The tallies count the steps.
pub(crate) fn push_outcomes(
    kernel: &mut Kernel,
    tallies: &mut Tallies,
    replies: &mut Vec<Reply>,
    currents: &mut Vec<u32>,
    steps: &[Step],
    meter: &mut Meter,
)
    requires stands { StandsForSome kernel.old }
    requires steps { All (IsCheckedStep kernel.old.settings) steps.now }
    requires few_steps { length steps.now ≤ max_steps }
    requires replayable { tallies.old ≡ first_tallies kernel.old.settings kernel.old.control }
    requires sizes { shape tallies.old ≡ shape_of kernel.old.settings }
    requires tops { HasTops kernel.old.control tallies.old }
    requires no_replies { replies.old.items ≡ [] }
    requires reply_room { length steps.now ≤ vec_capacity replies.old }
    requires no_currents { currents.old.items ≡ [] }
    requires current_room { length steps.now ≤ vec_capacity currents.old }
    ensures replies { (table : Table) → StandsFor kernel.old table
        → replies.new.items ≡ map (λ outcome. outcome.0) (run_results table steps.now) }
    ensures reply_room { vec_capacity replies.new ≡ vec_capacity replies.old }
    ensures currents { (table : Table) → StandsFor kernel.old table
        → currents.new.items ≡ currents_after table steps.now }
    ensures current_room { vec_capacity currents.new ≡ vec_capacity currents.old }
    ensures tallies { (table : Table) → StandsFor kernel.old table
        → tallies.new ≡ part_tallies kernel.old.settings table steps.now }
    ensures sizes { shape tallies.new ≡ shape_of kernel.old.settings }
    ensures state { (table : Table) → StandsFor kernel.old table
        → StandsFor kernel.new (state_after table steps.now) }
    ensures settings { kernel.new.settings ≡ kernel.old.settings }
    ensures meter { meter.new ≡ meter_after (length steps.now) meter.old }
{
    for step in steps {
        replies.push_reserved(tallies.make_next(kernel, meter, step));
        currents.push_reserved(kernel.running(step.core()));
    }
}
