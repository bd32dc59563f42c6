//! For how many ticks workloads go on.
ghost use Rattle.std.specs.Prelude.{◌≡◌};
ghost use Rattle.view_commands.specs.Ticks.{both_ticked, ticked};

use edited_workloads::EditedWorkload;
use task_programs::{CheckedWorkload, Workload, WorkloadFlaw};

// The workload that goes on for so many ticks, or for as many as it says.
fn ticked(workload: CheckedWorkload, ticks: Option<u32>) -> Result<CheckedWorkload, WorkloadFlaw>
    ensures { result ≡ ticked ticks workload }
{
    let Some(ticks) = ticks else {
        return Ok(workload);
    };
    let Workload {
        header,
        programs,
        interrupts,
        ..
    } = workload.into_workload();
    CheckedWorkload::new(Workload {
        header,
        programs,
        interrupts,
        ticks,
    })
}

/// The same of the workload and of what its edits leave.
pub(crate) fn both_ticked(
    made: EditedWorkload,
    ticks: Option<u32>,
) -> Result<EditedWorkload, WorkloadFlaw>
    ensures { result ≡ both_ticked ticks made }
{
    let workload = ticked(made.workload, ticks)?;
    match made.edited {
        None => Ok(EditedWorkload {
            workload,
            edited: None,
        }),
        Some(edited) => Ok(EditedWorkload {
            workload,
            edited: Some(ticked(edited, ticks)?),
        }),
    }
}
