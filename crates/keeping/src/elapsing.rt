//! Time goes by for tasks.
ghost use Rattle.std.specs.Prelude.{◌≡◌, ◌<◌, ◌+◌, ◌^◌, ℕ, length, if◌then◌else◌};
ghost use Rattle.bench_model.specs.Equal.{StandsFor};
ghost use Rattle.bench_model.specs.Table.{Table};
ghost use Rattle.kept_runs.specs.Clocks.{clock_after};
ghost use Rattle.workload_runs.specs.Situations.{is_working};
ghost use Rattle.keeping.specs.Elapsing.{IsSmall, AreSmall};
ghost use Rattle.keeping.specs.Works.{clock_at};

use kept_runs::Clock;
use smp_kernel::Kernel;

// A step from outside, which takes so much time, found the task at work.
fn clock_after(time: u32, clock: Clock) -> Clock
    requires { IsSmall clock }
    ensures { result ≡ clock_after time clock }
{
    if time == 0 {
        Clock {
            later: clock.later + 1,
            ..clock
        }
    } else {
        Clock {
            units: clock.units + u64::from(time),
            later: 0,
        }
    }
}

// Whether the task is on a core and has no unfinished call.
fn is_working(kernel: &Kernel, task: u32) -> bool
    requires { task < kernel.now.settings.tasks }
    ensures { (table : Table) → StandsFor kernel.now table → result ≡ is_working table task }
{
    kernel.is_current(task) && kernel.unfinished(task).is_none()
}

/// A step from outside, which takes so much time, comes: it finds the tasks that work.
pub fn elapse(kernel: &Kernel, time: u32, worked: &mut [Clock])
    requires tasks { length worked.old ≡ kernel.now.settings.tasks }
    requires small { AreSmall worked.old }
    ensures many { length worked.new ≡ length worked.old }
    ensures done { (table : Table) (task : ℕ) → StandsFor kernel.now table
        → task < length worked.old → clock_at worked.new task
        ≡ (if is_working table task then clock_after time (clock_at worked.old task)
        else clock_at worked.old task) }
{
    for core in 0..kernel.settings().cores {
        let task = kernel.running(core);
        if is_working(kernel, task) {
            worked[task as usize] = clock_after(time, worked[task as usize]);
        }
    }
}
