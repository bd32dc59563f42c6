//! The clocks of all tasks, from place to place of a run.
ghost use Rattle.std.specs.Prelude.{◌≡◌, ◌<◌, ◌+◌, ◌-◌, ◌^◌, ◌++◌, ◌∷◌, [], List, IfOk, length, min};
ghost use Rattle.bench_types.specs.declared.header.Header.{Header};
ghost use Rattle.bench_types.specs.declared.step.Step.{Step};
ghost use Rattle.bench_types.specs.Limits.{max_steps};
ghost use Rattle.bench_types.specs.Step.{settings_of, IsCheckedStep};
ghost use Rattle.kept_works.specs.Walk.{IsAt, IsOnTheWay};

use crate::steps::comes_from_outside;
use bench_types::{Header, Step};
use keeping::elapse;
use kept_runs::Clock;
use smp_kernel::{Kernel, Meter};
use std::alloc::{AllocError, Global};
use step_times::time_of;

/// No time.
pub(crate) const NO_WORK: Clock = Clock { units: 0, later: 0 };

/// A place of a run: the kernel and how long each task has worked.
#[derive(Drop)]
pub(crate) struct Walk {
    pub(crate) kernel: Kernel,
    pub(crate) worked: Vec<Clock>,
}

impl Walk {
    /// Before the first step.
    pub(crate) fn start(alloc: Global, header: &Header) -> Result<Walk, AllocError>
        ensures { IfOk result (λ walk. IsAt header.now [] walk) }
    {
        let Ok(kernel) = Kernel::start(alloc, header) else {
            return Err(AllocError);
        };
        let worked = vec![in alloc; NO_WORK; kernel.settings().tasks as usize]?;
        Ok(Walk { kernel, worked })
    }

    /// Behind one step more.
    pub(crate) fn go_on(&mut self, step: &Step, meter: &mut Meter)
        requires way { IsOnTheWay step.now self.old }
        ensures made { (header : Header) (made : List Step) → IsAt header made self.old
            → length made < max_steps → IsAt header (made ++ step.now ∷ []) self.new }
        ensures settings { self.new.kernel.settings ≡ self.old.kernel.settings }
        ensures meter { meter.new ≡ min (meter.old + 1) (2 ^ 64 - 1) }
    {
        if comes_from_outside(step) {
            let time = time_of(self.kernel.settings().units, step);
            elapse(&self.kernel, time, &mut self.worked);
        }
        self.kernel.step(meter, step);
    }
}
