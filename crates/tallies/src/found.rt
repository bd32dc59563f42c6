//! What a tick finds: priorities, and tasks that wait behind lower ones.
ghost use Rattle.std.specs.Prelude.{◌≡◌, ◌<◌, length, true};
ghost use Rattle.bench_model.specs.Lists.{is_ready};
ghost use Rattle.bench_model.specs.Seek.{effective};
ghost use Rattle.bench_model.specs.Tally.{outranks_some};
ghost use Rattle.tallies.specs.Counting.{is_inverted, IsLowest};

use smp_kernel::Kernel;

// The effective priority of the task: an idle task has 0, and the priorities in use count from 1.
fn effective(kernel: &Kernel, task: u32) -> u64
    requires task { task < kernel.now.settings.tasks }
    requires cores { length kernel.now.control.cores ≡ kernel.now.settings.cores }
    ensures { result ≡ effective kernel.now.control task }
{
    if task < kernel.settings().cores {
        0
    } else {
        u64::from(kernel.in_use(task)) + 1
    }
}

/// The lowest effective priority of the current tasks.
pub(crate) fn lowest_current(kernel: &Kernel) -> u64
    ensures { IsLowest kernel.now.control kernel.now.settings.cores result }
{
    let cores = kernel.settings().cores;
    let mut lowest = effective(kernel, kernel.running(0));
    for core in 1..cores {
        lowest = lowest.min(effective(kernel, kernel.running(core)));
    }
    lowest
}

/// Whether the ready task waits while a core that it may run on has a task of lower effective
/// priority.
pub(crate) fn is_inverted(kernel: &Kernel, task: u32) -> bool
    requires task { task < kernel.now.settings.tasks }
    requires ready { is_ready task kernel.now.orders ≡ true }
    ensures { result ≡ is_inverted kernel.now task }
{
    !kernel.is_current(task) && has_lower_core(kernel, task)
}

fn has_lower_core(kernel: &Kernel, task: u32) -> bool
    requires { task < kernel.now.settings.tasks }
    ensures { result ≡ outranks_some kernel.now.control task }
{
    let cores = kernel.settings().cores;
    (0..cores).any(|core| {
        kernel.is_allowed(core, task) && kernel.stands_below(kernel.running(core), task)
    })
}
