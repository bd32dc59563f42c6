//! The header and the steps after an edit.
ghost use Rattle.std.specs.Prelude.{◌≡◌, ◌+◌, ◌^◌, ◌<◌, ◌≤◌, length, List, Ok, IfOk};
ghost use Rattle.bench_types.specs.Edit.{edit_check};
ghost use Rattle.bench_types.specs.Step.{settings_of, task_check};
ghost use Rattle.bench_types.specs.declared.header.Header.{Header};
ghost use Rattle.bench_types.specs.declared.step.Step.{Step};
ghost use Rattle.bench_model.specs.Edits.{changed, edited};
ghost use Rattle.segment_laws.specs.EditedSegments.{edited_part};
ghost use Rattle.session_store.specs.Replays.{IsEditAmong};

use bench_types::{Edit, Header, Items, Step};
use std::alloc::{AllocError, Global};

fn changed(
    alloc: Global,
    header: &Header,
    task: u32,
    priority: u32,
    mask: u32,
) -> Result<Header, AllocError>
    requires { task_check (settings_of header.now) task ≡ Ok tt }
    ensures { IfOk result (λ next. next ≡ changed task priority mask header.now) }
{
    let Header {
        config,
        queues,
        tasks,
    } = header.copy(alloc)?;
    let mut tasks = tasks.into_vec();
    let args = &mut tasks[(task - config.cores) as usize];
    args.priority = priority;
    args.mask = mask;
    Ok(Header {
        config,
        queues,
        tasks: Items::new(tasks),
    })
}

/// The header after the edit.
pub(crate) fn edited_header(
    alloc: Global,
    header: &Header,
    edit: &Edit,
) -> Result<Header, AllocError>
    requires { edit_check header.now edit.now ≡ Ok tt }
    ensures { IfOk result
        (λ next. (steps : List Step)
        → next ≡ (edited edit.now (record { header = header.now; steps = steps })).header) }
{
    match *edit {
        Edit::ChangeTask {
            task,
            priority,
            mask,
        } => changed(alloc, header, task, priority, mask),
        Edit::Insert { .. } | Edit::Remove { .. } | Edit::Replace { .. } => header.copy(alloc),
    }
}

/// The steps of a segment that begins at the place, after the edit of one of them.
pub(crate) fn edited_part(
    alloc: Global,
    steps: &[Step],
    edit: &Edit,
    from: u32,
) -> Result<Vec<Step>, AllocError>
    requires place { IsEditAmong edit.now from (length steps.now) }
    requires few { length steps.now < 2 ^ 32 }
    ensures { IfOk result (λ next. next.items ≡ edited_part edit.now from steps.now) }
{
    let mut next = Vec::with_capacity(alloc, steps.len() + 1)?;
    next.extend_from_slice(steps)?;
    match *edit {
        Edit::Insert { at, step } => next.insert((at - from) as usize, step)?,
        Edit::Remove { at } => {
            next.remove((at - from) as usize);
        }
        Edit::Replace { at, step } => next[(at - from) as usize] = step,
        Edit::ChangeTask { .. } => {}
    }
    Ok(next)
}
