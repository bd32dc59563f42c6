//! Of which tasks nothing is known any more after a step: of those that it may concern.
ghost use Rattle.std.specs.Prelude.{◌≡◌, ◌≢◌, ◌<◌, ◌==◌, ℕ, length, false, slice_index};
ghost use Rattle.std.specs.Option.{ForSome};
ghost use Rattle.bench_model.specs.Control.{current};
ghost use Rattle.bench_model.specs.Tally.{is_call_of};
ghost use Rattle.run_numbers.specs.declared.look.Look.{Look};
ghost use Rattle.run_numbers.specs.Looks.{IsApart, IsKnown, IsRow};

use crate::event::BeforeStep;
use crate::look::Look;
use bench_types::Step;
use smp_kernel::Kernel;

fn forget(looks: &mut [Option<Look>], task: u32)
    ensures { (other : ℕ) (look : Look) → IsKnown looks.new other look
        → IsKnown looks.old other look × (task ≢ other) }
{
    if (task as usize) < looks.len() {
        looks[task as usize] = None;
    }
}

// Those of which the core had one and has the other now.
fn forget_moved(looks: &mut [Option<Look>], row: &mut [u32], core: u32, after: &Kernel)
    requires size { length row.old ≡ after.now.settings.cores }
    requires core { core < after.now.settings.cores }
    ensures own { slice_index row.new core ≡ current after.now.control core }
    ensures others { (other : ℕ) → other ≢ core
        → slice_index row.new other ≡ slice_index row.old other }
    ensures known { (task : ℕ) (look : Look) → IsKnown looks.new task look
        → IsKnown looks.old task look
        × ((slice_index row.old core == task) ≡ (current after.now.control core == task)) }
{
    let (left, task) = (row[core as usize], after.running(core));
    if left == task {
        return;
    }
    forget(looks, left);
    forget(looks, task);
    row[core as usize] = task;
}

// Those that left a core or came onto one. The tasks of all cores become those of now.
fn forget_all_moved(looks: &mut [Option<Look>], row: &mut [u32], after: &Kernel)
    requires { length row.old ≡ after.now.settings.cores }
    ensures row { IsRow row.new after.now }
    ensures known { (task : ℕ) (look : Look) → IsKnown looks.new task look
        → IsKnown looks.old task look
        × ((core : ℕ) → core < after.now.settings.cores
        → (slice_index row.old core == task) ≡ (current after.now.control core == task)) }
{
    for core in 0..after.settings().cores {
        forget_moved(looks, row, core, after);
    }
}

// The one whose priority in use may have risen.
fn forget_raised(looks: &mut [Option<Look>], raised: Option<(u32, u32)>)
    ensures { (task : ℕ) (look : Look) → IsKnown looks.new task look
        → IsKnown looks.old task look × ForSome raised (λ raised. raised.0 ≢ task) }
{
    if let Some((task, _)) = raised {
        forget(looks, task);
    }
}

// The one that may lose a value.
fn forget_overrun(looks: &mut [Option<Look>], overrun: Option<u32>)
    ensures { (task : ℕ) (look : Look) → IsKnown looks.new task look
        → IsKnown looks.old task look × ForSome overrun (λ overrun. overrun ≢ task) }
{
    if let Some(task) = overrun {
        forget(looks, task);
    }
}

// The caller.
fn forget_caller(looks: &mut [Option<Look>], step: &Step)
    ensures { (task : ℕ) (look : Look) → IsKnown looks.new task look
        → IsKnown looks.old task look × (is_call_of task step.now ≡ false) }
{
    if let Step::Call { task, .. } = *step {
        forget(looks, task);
    }
}

/// Forgets those that the step may concern. The tasks of all cores become those of now.
pub(crate) fn forget_concerned(
    looks: &mut [Option<Look>],
    row: &mut [u32],
    before: BeforeStep,
    step: &Step,
    after: &Kernel,
)
    requires { length row.old ≡ after.now.settings.cores }
    ensures row { IsRow row.new after.now }
    ensures known { (task : ℕ) (look : Look) → IsKnown looks.new task look
        → IsKnown looks.old task look × IsApart row.old before step.now after.now task }
{
    forget_all_moved(looks, row, after);
    forget_raised(looks, before.raised);
    forget_overrun(looks, before.overrun);
    forget_caller(looks, step);
}
