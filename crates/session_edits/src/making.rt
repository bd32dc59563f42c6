//! Edits that are made of a session.
ghost use Rattle.std.specs.Prelude.{◌≡◌, ◌≤◌, List, Ok, All, IfOk, OnOk, length};
ghost use Rattle.bench_types.specs.declared.header.Header.{Header};
ghost use Rattle.bench_types.specs.declared.step.Step.{Step};
ghost use Rattle.bench_types.specs.Edit.{edit_check, IsCheckedEdit, IsEditOfWords};
ghost use Rattle.bench_types.specs.Step.{settings_of, task_check};
ghost use Rattle.bench_model.specs.Edits.{accepted, after_edit, after_edits, changed, edited};
ghost use Rattle.session_edits.specs.Origins.{all_kept, origins_made, origins_of, HasPlaceAmong};

use crate::origins::{all_kept, edit_origins};
use crate::refused::steps_after;
use bench_types::{CheckedSession, Edit, Header, Items, Step};
use std::alloc::{AllocError, Global};

// The header with these numbers of the user task.
fn changed(header: Header, task: u32, priority: u32, mask: u32) -> Header
    requires { task_check (settings_of header) task ≡ Ok tt }
    ensures { result ≡ changed task priority mask header }
{
    let Header {
        config,
        queues,
        tasks,
    } = header;
    let mut tasks = tasks.into_vec();
    let args = &mut tasks[(task - config.cores) as usize];
    args.priority = priority;
    args.mask = mask;
    Header {
        config,
        queues,
        tasks: Items::new(tasks),
    }
}

// The header after the edit.
fn edited_header(header: Header, edit: &Edit) -> Header
    requires { edit_check header edit.now ≡ Ok tt }
    ensures { (steps : List Step)
        → result ≡ (edited edit.now (record { header = header; steps = steps })).header }
{
    match *edit {
        Edit::ChangeTask {
            task,
            priority,
            mask,
        } => changed(header, task, priority, mask),
        Edit::Insert { .. } | Edit::Remove { .. } | Edit::Replace { .. } => header,
    }
}

// Makes the edit among the steps.
fn edit_steps(steps: &mut Vec<Step>, edit: &Edit) -> Result<(), AllocError>
    requires { HasPlaceAmong (length steps.old.items) edit.now }
    ensures { OnOk result
        ((header : Header) → steps.new.items
        ≡ (edited edit.now (record { header = header; steps = steps.old.items })).steps) }
{
    match *edit {
        Edit::Insert { at, step } => steps.insert(at as usize, step)?,
        Edit::Remove { at } => {
            steps.remove(at as usize);
        }
        Edit::Replace { at, step } => steps[at as usize] = step,
        Edit::ChangeTask { .. } => {}
    }
    Ok(())
}

/// The session after an edit that is accepted.
pub fn session_after(session: CheckedSession, edit: &Edit) -> Result<CheckedSession, AllocError>
    requires accepted { accepted session edit.now ≡ Ok tt }
    requires words { IsEditOfWords edit.now }
    ensures { IfOk result (λ next. next ≡ edited edit.now session) }
{
    let (header, mut steps) = session.into_parts();
    edit_steps(&mut steps, edit)?;
    let Some(next) = CheckedSession::new(edited_header(header, edit), steps) else {
        unreachable!()
    };
    Ok(next)
}

/// A session that edits lead to.
#[derive(Drop)]
pub(crate) struct Made {
    pub(crate) session: CheckedSession,
    /// Where each of its steps stands before the edits.
    pub(crate) origins: Vec<Option<u32>>,
}

// Makes an edit. One that is refused is passed over.
fn make_edit(made: Made, edit: &Edit) -> Result<Made, AllocError>
    requires checked { IsCheckedEdit made.session.header edit.now }
    requires many { length made.origins.items ≡ length made.session.steps }
    ensures session { IfOk result
        (λ next. next.session ≡ after_edit made.session edit.now) }
    ensures origins { IfOk result
        (λ next. next.origins.items
        ≡ origins_made made.session edit.now made.origins.items) }
    ensures many { IfOk result
        (λ next. length next.origins.items ≡ length next.session.steps) }
{
    let Made {
        session,
        mut origins,
    } = made;
    match steps_after(session.steps().len() as u32, edit) {
        Ok(_) => {
            edit_origins(&mut origins, edit)?;
            Ok(Made {
                session: session_after(session, edit)?,
                origins,
            })
        }
        Err(_why) => Ok(Made { session, origins }),
    }
}

/// Makes the edits one after another, and tells where the steps stand before them.
pub(crate) fn make_edits(
    session: CheckedSession,
    origins: Vec<Option<u32>>,
    edits: &[Edit],
) -> Result<Made, AllocError>
    requires checked { All (IsCheckedEdit session.header) edits.now }
    requires many { length origins.items ≡ length session.steps }
    ensures session { IfOk result (λ made. made.session ≡ after_edits session edits.now) }
    ensures origins { IfOk result
        (λ made. made.origins.items ≡ origins_of session edits.now origins.items) }
{
    let mut made = Made { session, origins };
    for edit in edits {
        made = make_edit(made, edit)?;
    }
    Ok(made)
}
