//! How far the run of a workload was made.
ghost use Rattle.std.specs.Prelude.{◌≡◌, ◌<◌, ◌≤◌, ◌+◌, ◌-◌, ◌++◌, ◌∷◌, ◌^◌, [], ℕ, Option, Err, IfOk, OnErr, OnOk, Some, length, min};
ghost use Rattle.bench_types.specs.Limits.{max_steps};
ghost use Rattle.smp_kernel.specs.Counting.{CountsUpTo};
ghost use Rattle.workload_runs.specs.Ends.{ends_in};
ghost use Rattle.workload_runs.specs.Rule.{next_step};
ghost use Rattle.simulating.specs.Callers.{lone_caller};
ghost use Rattle.simulating.specs.Simulations.{now_in, IsAt};

use crate::callers::lone_caller;
use crate::progress::{Progress, ends_at};
use crate::run::SimulateFault;
use bench_types::{MAX_STEPS, Step};
use smp_kernel::{Kernel, Meter};
use std::alloc::{AllocError, Global};
use task_programs::CheckedWorkload;

/// How far the run of a workload was made.
#[derive(Debug, Drop)]
pub(crate) struct Simulation {
    pub(crate) kernel: Kernel,
    pub(crate) steps: Vec<Step>,
    pub(crate) progress: Progress,
}

impl Simulation {
    /// Before the first step.
    pub(crate) fn start(alloc: Global, workload: &CheckedWorkload) -> Result<Self, AllocError>
        ensures here { IfOk result (λ simulation. IsAt workload.now simulation) }
        ensures empty { IfOk result (λ simulation. simulation.steps.items ≡ []) }
    {
        let Ok(kernel) = Kernel::start(alloc, workload.header()) else {
            return Err(AllocError);
        };
        Ok(Simulation {
            kernel,
            steps: Vec::new(alloc),
            progress: Progress::start(alloc, workload)?,
        })
    }

    /// There is room for one step more, or else the run is too long.
    pub(crate) fn check_room(&self, alloc: Global) -> Result<(), SimulateFault>
        ensures room { OnOk result (length self.now.steps.items < max_steps) }
        ensures full { (caller : Option ℕ) → result ≡ Err (SimulateFault.TooManySteps caller)
            → (max_steps ≤ length self.now.steps.items)
            × (caller ≡ lone_caller self.now.steps.items) }
    {
        if self.steps.len() < MAX_STEPS as usize {
            return Ok(());
        }
        let caller = lone_caller(alloc, &self.steps)?;
        Err(SimulateFault::TooManySteps { caller })
    }

    /// The step is the next one of the run.
    pub(crate) fn make(
        &mut self,
        workload: &CheckedWorkload,
        step: Step,
        meter: &mut Meter,
    ) -> Result<(), AllocError>
        requires here { IsAt workload.now self.old }
        requires next { next_step workload.now (now_in workload.now self.old) ≡ Some step }
        requires room { length self.old.steps.items < max_steps }
        ensures made { OnOk result (IsAt workload.now self.new) }
        ensures steps { OnOk result (self.new.steps.items ≡ self.old.steps.items ++ step ∷ []) }
        ensures counted { OnOk result (meter.new ≡ min (meter.old + 1) (2 ^ 64 - 1)) }
        ensures some { OnErr result
            (CountsUpTo (max_steps - length self.old.steps.items) meter.old meter.new) }
    {
        self.steps.reserve(1)?;
        match step {
            Step::Call { task, call, .. } => {
                let user = (task - self.kernel.settings().cores) as usize;
                let reply = self.kernel.step(meter, &step);
                self.progress.answer(workload, user, call, reply)?;
            }
            _ => {
                self.progress.go_by(workload, &self.kernel, &step)?;
                self.kernel.step(meter, &step);
            }
        }
        self.steps.push_reserved(step);
        Ok(())
    }

    /// Of each user task whether it is at the end of its program.
    pub(crate) fn ends(
        &self,
        alloc: Global,
        workload: &CheckedWorkload,
    ) -> Result<Vec<bool>, AllocError>
        requires { IsAt workload.now self.now }
        ensures { IfOk result
            (λ ends. ends.items ≡ ends_in workload.now (now_in workload.now self.now)) }
    {
        ends_at(alloc, workload.programs(), &self.progress.courses)
    }
}
