//! The run of a workload.
ghost use Rattle.std.specs.Prelude.{◌≡◌, ℕ, Option, IfOk, OnErr, Err, length};
ghost use Rattle.bench_types.specs.Limits.{max_steps};
ghost use Rattle.smp_kernel.specs.Counting.{meter_after, CountsUpTo};
ghost use Rattle.workload_runs.specs.Ends.{ends_of};
ghost use Rattle.workload_runs.specs.Properties.{CallsAreInOrder, CallsAreThoseOfPrograms, InterruptsComeInTime, RunEndsBehindItsLastTick, RunIsSettled, TimeGoesByTicks};
ghost use Rattle.workload_runs.specs.Rule.{IsRunOf};
ghost use Rattle.simulating.specs.Callers.{IsTooLongBy};

use crate::simulated::Simulated;
use crate::simulation::Simulation;
use bench_types::CheckedSession;
use smp_kernel::Meter;
use std::alloc::{AllocError, Global};
use task_programs::CheckedWorkload;
use thiserror::Error;

/// Why a workload was not simulated.
#[derive(Clone, Copy, Debug, PartialEq, Eq, Error)]
pub enum SimulateFault {
    /// J2: the run has more than [`MAX_STEPS`](bench_types::MAX_STEPS) steps.
    #[error("the run of the workload is too long")]
    TooManySteps {
        /// The task that makes each of the last 1000 calls of so many steps, if it is one alone.
        caller: Option<u32>,
    },
    /// The allocator had no memory left.
    #[error("out of memory")]
    NoMemory,
}

impl From<AllocError> for SimulateFault {
    ghost use Rattle.std.specs.Prelude.{◌≡◌};
    ghost use Rattle.simulating.specs.declared.run.SimulateFault.TheVariants.{NoMemory};

    ghost from_gives = { λ _ fault. fault ≡ NoMemory };

    fn from(_error: AllocError) -> Self {
        SimulateFault::NoMemory
    }
}

/// The run that the programs and the interrupts of the workload make. The meter counts its steps.
pub fn simulate(
    alloc: Global,
    workload: &CheckedWorkload,
    meter: &mut Meter,
) -> Result<Simulated, SimulateFault>
    ensures header { IfOk result
        (λ simulated. simulated.session.header ≡ workload.now.header) }
    ensures run { IfOk result (λ simulated. IsRunOf workload.now simulated.session.steps) }
    // Settling the run changes nothing.
    ensures settled { IfOk result
        (λ simulated. RunIsSettled workload.now simulated.session.steps) }
    // Each call is the one that the program of its task has there, and none is late.
    ensures programs { IfOk result
        (λ simulated. CallsAreThoseOfPrograms workload.now simulated.session.steps) }
    ensures calls { IfOk result
        (λ simulated. CallsAreInOrder workload.now simulated.session.steps) }
    // Ticks end on time, and passes where something does.
    ensures time { IfOk result
        (λ simulated. TimeGoesByTicks workload.now simulated.session.steps) }
    // Interrupts come at their times, and none is missed.
    ensures interrupts { IfOk result
        (λ simulated. InterruptsComeInTime workload.now simulated.session.steps) }
    // The run ends behind its last tick, when nothing is left to do.
    ensures end { IfOk result
        (λ simulated. RunEndsBehindItsLastTick workload.now simulated.session.steps) }
    ensures at_end { IfOk result
        (λ simulated. simulated.at_end ≡ ends_of workload.now simulated.session.steps) }
    ensures long { (caller : Option ℕ) → result ≡ Err (SimulateFault.TooManySteps caller)
        → IsTooLongBy workload.now caller }
    ensures counted { IfOk result
        (λ simulated. meter.new ≡ meter_after (length simulated.session.steps) meter.old) }
    ensures some { OnErr result (CountsUpTo max_steps meter.old meter.new) }
{
    let mut simulation = Simulation::start(alloc, workload)?;
    while let Some(step) = simulation.next_step(workload) {
        simulation.check_room(alloc)?;
        simulation.make(workload, step, meter)?;
    }
    let at_end = simulation.ends(alloc, workload)?;
    let header = workload.header().copy(alloc)?;
    let Simulation { steps, .. } = simulation;
    match CheckedSession::new(header, steps) {
        Some(session) => Ok(Simulated { session, at_end }),
        None => Err(SimulateFault::TooManySteps { caller: None }),
    }
}
