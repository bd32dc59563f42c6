//! The source with a change made.
ghost use Rattle.std.specs.Prelude.{◌≡◌, IfOk};
ghost use Rattle.bench_types.specs.Step.{settings_of};
ghost use Rattle.bench_model.specs.Edits.{args_of, changed as with_numbers};
ghost use Rattle.kept_runs.specs.Items.{edited_session};
ghost use Rattle.run_sources.specs.Sources.{header_of};
ghost use Rattle.ranked_changes.specs.Changed.{changed, changed_header, changed_kept, changed_session, changed_steps, changed_workload, edit_of, IsChangeOf, IsHeaderChange, IsStepChange, IsUserTask};

use crate::Change;
use bench_types::{CheckedSession, Edit, Header, Items, Step, TaskArgs};
use kept_edits::KeptEdit;
use kept_sessions::KeptSession;
use run_sources::Source;
use std::alloc::{AllocError, Global};
use task_programs::{CheckedWorkload, Workload};

/// What the user task is created with.
pub fn args_of(header: &Header, task: u32) -> &TaskArgs
    requires { IsUserTask header.now task }
    ensures { result.now ≡ args_of header.now task }
{
    &header.tasks.as_slice()[(task - header.config.cores) as usize]
}

// The header with these numbers of the user task.
fn with_numbers(
    alloc: Global,
    header: &Header,
    task: u32,
    priority: u32,
    mask: u32,
) -> Result<Header, AllocError>
    requires { IsUserTask header.now task }
    ensures { IfOk result (λ made. made ≡ with_numbers task priority mask header.now) }
{
    let Header { queues, tasks, .. } = header.copy(alloc)?;
    let mut tasks = tasks.into_vec();
    tasks.as_mut_slice()[(task - header.config.cores) as usize] = TaskArgs {
        name: args_of(header, task).name.copy(),
        priority,
        mask,
    };
    Ok(Header {
        config: header.config,
        queues,
        tasks: Items::new(tasks),
    })
}

/// A second header in which the change is made. An exchange of calls changes no header.
pub fn header_with(alloc: Global, header: &Header, change: Change) -> Result<Header, AllocError>
    requires { IsHeaderChange header.now change }
    ensures { IfOk result (λ made. made ≡ changed_header header.now change) }
{
    match change {
        Change::Priority { task, priority } => {
            with_numbers(alloc, header, task, priority, args_of(header, task).mask)
        }
        Change::Mask { task, mask } => {
            with_numbers(alloc, header, task, args_of(header, task).priority, mask)
        }
        Change::Order { .. } => header.copy(alloc),
    }
}

/// A second list of the steps in which the change is made. A change of a task changes no step.
pub fn steps_with(alloc: Global, steps: &[Step], change: Change) -> Result<Vec<Step>, AllocError>
    requires { IsStepChange steps.now change }
    ensures { IfOk result (λ made. made.items ≡ changed_steps steps.now change) }
{
    let mut made = Vec::from_slice(alloc, steps)?;
    if let Change::Order { first, second } = change {
        made.as_mut_slice().swap(first as usize, second as usize);
    }
    Ok(made)
}

// A second session in which the change is made.
fn changed_session(
    alloc: Global,
    session: &CheckedSession,
    change: Change,
) -> Result<CheckedSession, AllocError>
    requires header { IsHeaderChange session.now.header change }
    requires steps { IsStepChange session.now.steps change }
    ensures { IfOk result (λ made. made ≡ changed_session session.now change) }
{
    let header = header_with(alloc, session.header(), change)?;
    let steps = steps_with(alloc, session.steps(), change)?;
    match CheckedSession::new(header, steps) {
        Some(made) => Ok(made),
        None => unreachable!(),
    }
}

// A second workload in which the change is made.
fn changed_workload(
    alloc: Global,
    workload: &CheckedWorkload,
    change: Change,
) -> Result<CheckedWorkload, AllocError>
    requires { IsHeaderChange workload.now.header change }
    ensures { IfOk result (λ made. made ≡ changed_workload workload.now change) }
{
    let header = header_with(alloc, workload.header(), change)?;
    let Workload {
        programs,
        interrupts,
        ticks,
        ..
    } = workload.copy(alloc)?.into_workload();
    Ok(CheckedWorkload::unflawed(Workload {
        header,
        programs,
        interrupts,
        ticks,
    }))
}

// A change of a task as an edit of a session; an exchange of calls is none.
fn edit_of(header: &Header, change: Change) -> Option<Edit>
    requires { IsHeaderChange header.now change }
    ensures { result ≡ edit_of header.now change }
{
    match change {
        Change::Priority { task, priority } => Some(Edit::ChangeTask {
            task,
            priority,
            mask: args_of(header, task).mask,
        }),
        Change::Mask { task, mask } => Some(Edit::ChangeTask {
            task,
            priority: args_of(header, task).priority,
            mask,
        }),
        Change::Order { .. } => None,
    }
}

// A second session with edits, in which the change of a task is one edit more.
fn changed_kept(
    alloc: Global,
    made: &KeptSession,
    change: Change,
) -> Result<KeptSession, AllocError>
    requires { IsHeaderChange (edited_session made.now.session made.now.edits).header change }
    ensures { IfOk result (λ next. next ≡ changed_kept made.now change) }
{
    let mut edits = Vec::from_slice(alloc, made.edits())?;
    if let Some(edit) = edit_of(made.edited().header(), change) {
        edits.push(KeptEdit::Plain(edit))?;
    }
    KeptSession::make(alloc, made.session().copy(alloc)?, edits)
}

/// A second source in which the change is made. It has the same cores, tasks and mutexes.
#[tactic(auto, using(crate::proofs::ChangedSessions::settings_kept, crate::proofs::KeptChanges::same_settings))]
pub fn changed_source(alloc: Global, source: &Source, change: Change) -> Result<Source, AllocError>
    requires { IsChangeOf source.now change }
    ensures changed { IfOk result (λ made. made ≡ changed source.now change) }
    ensures settings { IfOk result
        (λ made. settings_of (header_of made) ≡ settings_of (header_of source.now)) }
{
    match source {
        Source::Session(session) => {
            Ok(Source::Session(changed_session(alloc, session, change)?))
        }
        Source::Settled(session) => {
            Ok(Source::Settled(changed_session(alloc, session, change)?))
        }
        Source::Workload(workload) => {
            Ok(Source::Workload(changed_workload(alloc, workload, change)?))
        }
        Source::Kept(made, order) => {
            Ok(Source::Kept(changed_kept(alloc, made, change)?, *order))
        }
    }
}
