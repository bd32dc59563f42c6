//! The run of a source, made.
ghost use Rattle.std.specs.Prelude.{◌≡◌, ◌≤◌, ◌+◌, ◌*◌, IfErr, IfOk, OnErr, length, true, false};
ghost use Rattle.bench_types.specs.Limits.{max_steps};
ghost use Rattle.session_runs.specs.Run.{IsRunOf};
ghost use Rattle.smp_kernel.specs.Counting.{meter_after, CountsUpTo};
ghost use Rattle.kept_sessions.specs.Runs.{IsKeptCount, IsKeptRunOf};
ghost use Rattle.run_sources.specs.declared.source.Source.TheVariants as source;
ghost use Rattle.run_sources.specs.Sources.{fault_of, header_of, most_of, IsCounted, IsFaultOf, IsRunOfSource};

use crate::{RunFault, Source};
use bench_types::{CheckedSession, MAX_STEPS};
use keeping::KeepFault;
use kept_runs::CallOrder;
use kept_sessions::{KeptSession, kept_run};
use session_runs::Run;
use settling::{SettleFault, settle};
use simulating::{SimulateFault, simulate};
use smp_kernel::Meter;
use std::alloc::{AllocError, Global};
use task_programs::CheckedWorkload;

// The session as its steps stand.
fn plain_run(alloc: Global, session: &CheckedSession, meter: &mut Meter) -> Result<Run, AllocError>
    ensures run { IfOk result (IsRunOf false session.now) }
    ensures room { IfOk result (λ run. length run.session.steps ≤ max_steps) }
    ensures counted { IfOk result
        (λ run. meter.new ≡ meter_after (length run.session.steps) meter.old) }
    ensures some { OnErr result (CountsUpTo max_steps meter.old meter.new) }
{
    prove!(session.steps().len() <= MAX_STEPS as usize);
    Run::of_session(alloc, session.copy(alloc)?, meter)
}

// The session settled.
fn settled_run(alloc: Global, session: &CheckedSession, meter: &mut Meter) -> Result<Run, RunFault>
    ensures run { IfOk result (IsRunOf true session.now) }
    ensures room { IfOk result (λ run. length run.session.steps ≤ max_steps) }
    ensures fault { IfErr result (IsFaultOf (source.Settled session.now)) }
    ensures counted { IfOk result
        (λ run. meter.new ≡ meter_after (length run.session.steps) meter.old) }
    ensures some { OnErr result (CountsUpTo max_steps meter.old meter.new) }
{
    match settle(alloc, session, meter) {
        Ok(run) => Ok(run),
        Err(SettleFault::TooManySteps) => Err(RunFault::SettledTooLong),
        Err(SettleFault::NoMemory) => Err(RunFault::NoMemory),
    }
}

// Why a workload was not simulated, as a fault of a source.
fn fault_of(fault: SimulateFault) -> RunFault
    ensures { result ≡ fault_of fault }
{
    match fault {
        SimulateFault::TooManySteps { caller } => RunFault::SimulatedTooLong { caller },
        SimulateFault::NoMemory => RunFault::NoMemory,
    }
}

// The workload simulated.
fn simulated_run(
    alloc: Global,
    workload: &CheckedWorkload,
    meter: &mut Meter,
) -> Result<Run, RunFault>
    ensures run { IfOk result (IsRunOfSource (source.Workload workload.now)) }
    ensures room { IfOk result (λ run. length run.session.steps ≤ max_steps) }
    ensures fault { IfErr result (IsFaultOf (source.Workload workload.now)) }
    ensures counted { IfOk result
        (λ run. meter.new
        ≡ meter_after (length run.session.steps + length run.session.steps) meter.old) }
    ensures some { OnErr result (CountsUpTo max_steps meter.old meter.new) }
{
    match simulate(alloc, workload, meter) {
        Ok(simulated) => Ok(Run::of_session(alloc, simulated.session, meter)?),
        Err(fault) => Err(fault_of(fault)),
    }
}

// The run of the session with edits that keeps work.
fn kept_run_of(
    alloc: Global,
    made: &KeptSession,
    order: CallOrder,
    meter: &mut Meter,
) -> Result<Run, RunFault>
    ensures run { IfOk result (IsKeptRunOf order made.now) }
    ensures room { IfOk result (λ run. length run.session.steps ≤ max_steps) }
    ensures fault { IfErr result (IsFaultOf (source.Kept made.now order)) }
    ensures counted { IfOk result (λ run. IsKeptCount order made.now run meter.old meter.new) }
    ensures some { OnErr result (CountsUpTo (3 * max_steps) meter.old meter.new) }
{
    match kept_run(alloc, made, order, meter) {
        Ok(run) => Ok(run),
        Err(KeepFault::TooManySteps) => Err(RunFault::KeptTooLong),
        Err(KeepFault::NoMemory) => Err(RunFault::NoMemory),
    }
}

/// The run of the source. The meter counts each step once, and those of a workload twice: they are
/// found, and then made. For a run that keeps work it counts those of the settled run of the
/// session before the edits twice, too, unless that is the run.
pub fn make_run(alloc: Global, source: &Source, meter: &mut Meter) -> Result<Run, RunFault>
    ensures run { IfOk result (IsRunOfSource source.now) }
    ensures header { IfOk result (λ run. run.session.header ≡ header_of source.now) }
    ensures room { IfOk result (λ run. length run.session.steps ≤ max_steps) }
    // A source whose run was not made is too long, or no memory is left.
    ensures fault { IfErr result (IsFaultOf source.now) }
    ensures counted { IfOk result (λ run. IsCounted source.now run meter.old meter.new) }
    ensures some { OnErr result (CountsUpTo (most_of source.now) meter.old meter.new) }
{
    match source {
        Source::Session(session) => Ok(plain_run(alloc, session, meter)?),
        Source::Settled(session) => settled_run(alloc, session, meter),
        Source::Workload(workload) => simulated_run(alloc, workload, meter),
        Source::Kept(made, order) => kept_run_of(alloc, made, *order, meter),
    }
}
