//! The stretches that a task's row is drawn by, from those of all that it shows.
ghost use Rattle.std.specs.Prelude.{◌≡◌, ◌+◌, ◌≤◌, ◌^◌, IfOk, length};
ghost use Rattle.run_pictures.specs.Poses.{detailed_stretches};
ghost use Rattle.run_pictures.specs.Preemption.{preempt_stretches};
ghost use Rattle.run_pictures.specs.RowStretches.{row_of};
ghost use Rattle.run_pictures.specs.TaskNames.{terms_stretches};
ghost use Rattle.run_pictures.specs.TaskStretches.{priority_stretches};

use crate::pose::{Detail, Pose, openings, pose_stretches};
use crate::row_stretches::RowStretches;
use crate::shown::Priorities;
use crate::stretch::{Stretch, to_vec};
use crate::task_names::Terms;
use bench_types::Items;
use run_views::Look;
use std::alloc::{AllocError, Global};

/// The stretches that a task's row is drawn by.
#[derive(Debug, Drop)]
pub(crate) struct TaskStretches {
    pub(crate) terms: Items<Stretch<Terms>>,
    pub(crate) poses: Items<Stretch<Pose>>,
    pub(crate) priorities: Items<Stretch<Priorities>>,
    pub(crate) preempts: Items<Stretch<bool>>,
}

// The stretches of how the task stands, and of what is in its way.
fn poses(
    alloc: Global,
    detail: Detail,
    first: u32,
    looks: &[Look],
    task: u32,
    row: &RowStretches,
) -> Result<Vec<Stretch<Pose>>, AllocError>
    requires few { first + length looks.now ≤ 2 ^ 32 }
    requires row { row.now ≡ row_of first looks.now task }
    ensures { IfOk result
        (λ stretches. stretches.items ≡ detailed_stretches detail first looks.now task) }
{
    match detail {
        Detail::EachPlace => pose_stretches(alloc, first, looks, task),
        Detail::FirstPlace => {
            let stances = to_vec(alloc, &row.stances)?;
            openings(alloc, first, looks, task, stances.as_slice())
        }
    }
}

impl TaskStretches {
    /// The stretches of the task whose row has these.
    pub(crate) fn of_row(
        alloc: Global,
        detail: Detail,
        first: u32,
        looks: &[Look],
        task: u32,
        row: &RowStretches,
    ) -> Result<TaskStretches, AllocError>
        requires few { first + length looks.now ≤ 2 ^ 32 }
        requires row { row.now ≡ row_of first looks.now task }
        ensures terms { IfOk result
            (λ stretches. stretches.terms ≡ terms_stretches first looks.now task) }
        ensures poses { IfOk result
            (λ stretches. stretches.poses ≡ detailed_stretches detail first looks.now task) }
        ensures priorities { IfOk result
            (λ stretches. stretches.priorities ≡ priority_stretches first looks.now task) }
        ensures preempts { IfOk result
            (λ stretches. stretches.preempts ≡ preempt_stretches first looks.now task) }
    {
        let terms = to_vec(alloc, &row.terms)?;
        let poses = poses(alloc, detail, first, looks, task, row)?;
        let priorities = to_vec(alloc, &row.priorities)?;
        let preempts = to_vec(alloc, &row.preempts)?;
        Ok(TaskStretches {
            terms: Items::new(terms),
            poses: Items::new(poses),
            priorities: Items::new(priorities),
            preempts: Items::new(preempts),
        })
    }
}
