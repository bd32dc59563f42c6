//! The workload after an edit.
ghost use Rattle.std.specs.Prelude.{◌≡◌, IfOk, option_map};
ghost use Rattle.serde_json.specs.View.{view};
ghost use Rattle.workload_edits.specs.Edits.{changed, edited, with_numbers, within_item};

use crate::edit::{Change, PathPart};
use crate::parts::{new_item, with_item, with_member, with_number};
use crate::program::NewItem;
use serde_json::Value;
use std::alloc::{AllocError, Global};

fn with_numbers(alloc: Global, task: &Value, priority: u32, mask: u32) -> Result<Value, AllocError>
    ensures { IfOk result (λ made. view made ≡ with_numbers priority mask (view task.now)) }
{
    let made = with_number(alloc, task.clone()?, "priority", priority)?;
    with_number(alloc, made, "mask", mask)
}

/// What the edit makes of the task.
fn changed(
    alloc: Global,
    change: &Change,
    edit: &Value,
    task: &Value,
) -> Result<Option<Value>, AllocError>
    ensures { IfOk result
        (λ made. option_map view made ≡ changed change.now (view edit.now) (view task.now)) }
{
    match change {
        Change::Numbers { priority, mask } => {
            Ok(Some(with_numbers(alloc, task, *priority, *mask)?))
        }
        Change::Item(path) => {
            let item = new_item(edit)?;
            NewItem { alloc, item: &item }.with_program(task, path.as_slice())
        }
    }
}

/// What the edit makes of the tasks, of which that of the index is changed.
fn with_changed(
    alloc: Global,
    index: usize,
    change: &Change,
    edit: &Value,
    tasks: &Value,
) -> Result<Option<Value>, AllocError>
    ensures { IfOk result
        (λ made. option_map view made
        ≡ within_item index (changed change.now (view edit.now)) (view tasks.now)) }
{
    let Some(task) = tasks.get(index) else {
        return Ok(None);
    };
    match changed(alloc, change, edit, task)? {
        Some(made) => Ok(Some(with_item(tasks.clone()?, index, made))),
        None => Ok(None),
    }
}

/// The data of the workload after a change of the task of the index, counted from 0, by the edit,
/// whose data has the new item; `None` where there is no such task, or no item at the path.
pub fn edited(
    alloc: Global,
    index: usize,
    change: &Change,
    edit: &Value,
    workload: &Value,
) -> Result<Option<Value>, AllocError>
    ensures { IfOk result
        (λ made. option_map view made
        ≡ edited index change.now (view edit.now) (view workload.now)) }
{
    let Some(tasks) = workload.get("tasks") else {
        return Ok(None);
    };
    match with_changed(alloc, index, change, edit, tasks)? {
        Some(made) => Ok(Some(with_member(alloc, workload.clone()?, "tasks", made)?)),
        None => Ok(None),
    }
}
