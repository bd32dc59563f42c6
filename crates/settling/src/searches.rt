//! The next piece of quiet work: a switch, else a `finish`, else a call that waits.
ghost use Rattle.std.specs.Prelude.{◌≡◌, ◌≤◌, ◌<◌, [], All, Ok, find, map};
ghost use Rattle.bench_types.specs.Step.{step_check, IsCheckedStep};
ghost use Rattle.bench_model.specs.Equal.{StandsFor};
ghost use Rattle.bench_model.specs.Table.{Table};
ghost use Rattle.settled_runs.specs.Settled.{is_early, is_open, is_timely, switches, finishes, on_its_core, quiet_step};
ghost use Rattle.settling.specs.Places.{on_core, waiting_at, AreQueues};

use crate::queues::Queues;
use bench_types::{Call, Refusal, Step};
use smp_kernel::Kernel;

/// The next piece of quiet work, where so many steps have come.
pub(crate) fn next_piece(
    kernel: &Kernel,
    queues: &Queues,
    steps: &[Step],
    come: usize,
) -> Option<Step>
    requires queues { AreQueues steps.now come kernel.now.settings.tasks queues.now.heads.items
        queues.now.next.items }
    requires checked { All (IsCheckedStep kernel.now.settings) steps.now }
    ensures { (table : Table) → StandsFor kernel.now table
        → result ≡ quiet_step table (waiting_at queues.now.heads.items steps.now come) }
{
    if let Some(step) = due_switch(kernel) {
        return Some(step);
    }
    if let Some(step) = open_finish(kernel) {
        return Some(step);
    }
    first_call(kernel, queues, steps, come)
}

/// The piece of quiet work that comes next where no call waits: a switch, else a `finish`.
pub fn quiet_work(kernel: &Kernel) -> Option<Step>
    ensures { (table : Table) → StandsFor kernel.now table → result ≡ quiet_step table [] }
{
    match due_switch(kernel) {
        Some(step) => Some(step),
        None => open_finish(kernel),
    }
}

// The switch of the least core that is due, where no hold keeps it out.
fn due_switch(kernel: &Kernel) -> Option<Step>
    ensures { (table : Table) → StandsFor kernel.now table
        → result ≡ find (is_open table) (switches table) }
{
    for core in 0..kernel.settings().cores {
        let step = Step::Switch { core };
        if kernel.refusal(&step).is_none() {
            return Some(step);
        }
    }
    None
}

// The `finish` of the least core whose user task may make it.
fn open_finish(kernel: &Kernel) -> Option<Step>
    ensures { (table : Table) → StandsFor kernel.now table
        → result ≡ find (is_open table) (finishes table) }
{
    let cores = kernel.settings().cores;
    for core in 0..cores {
        let task = kernel.running(core);
        if cores <= task {
            let step = Step::Call {
                core,
                task,
                call: Call::Finish,
            };
            if kernel.refusal(&step).is_none() {
                return Some(step);
            }
        }
    }
    None
}

// The first call that waits and that its task has come to.
fn first_call(kernel: &Kernel, queues: &Queues, steps: &[Step], come: usize) -> Option<Step>
    requires queues { AreQueues steps.now come kernel.now.settings.tasks queues.now.heads.items
        queues.now.next.items }
    requires checked { All (IsCheckedStep kernel.now.settings) steps.now }
    ensures { (table : Table) → StandsFor kernel.now table
        → result
        ≡ find (is_timely table)
        (map (on_its_core table) (waiting_at queues.now.heads.items steps.now come)) }
{
    let mut first = come;
    let mut found = None;
    for core in 0..kernel.settings().cores {
        let place = queues.head(kernel.running(core));
        if place < first {
            let step = made_on(core, &steps[place]);
            if is_timely(kernel, &step) {
                first = place;
                found = Some(step);
            }
        }
    }
    found
}

/// Whether the step is not refused with E1 to E5: it is made, or it is answered with another
/// refusal.
pub fn is_timely(kernel: &Kernel, step: &Step) -> bool
    requires { step_check kernel.now.settings step.now ≡ Ok tt }
    ensures { (table : Table) → StandsFor kernel.now table → result ≡ is_timely table step.now }
{
    match kernel.refusal(step) {
        Some(why) => !is_early(why),
        None => true,
    }
}

// E1 to E5.
fn is_early(why: Refusal) -> bool
    ensures { result ≡ is_early why }
{
    match why {
        Refusal::Held
        | Refusal::Displaced
        | Refusal::SwitchDue
        | Refusal::InCall
        | Refusal::NotInCall => true,
        Refusal::HoldBlock
        | Refusal::NoHold
        | Refusal::HoldDeep
        | Refusal::NotHolder
        | Refusal::NotDue => false,
    }
}

// The call of the step, made on the core.
fn made_on(core: u32, step: &Step) -> Step
    ensures { result ≡ on_core core step.now }
{
    match *step {
        Step::Call { task, call, .. } => Step::Call { core, task, call },
        _ => Step::Call {
            core,
            task: 0,
            call: Call::Finish,
        },
    }
}
