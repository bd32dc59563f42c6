//! The changes that a family has in a source.
ghost use Rattle.std.specs.Prelude.{◌≡◌, ◌+◌, ◌<◌, ◌≤◌, ◌==◌, [], IfOk, All, map, length, not, if◌then◌else◌, position, ◌^◌};
ghost use Rattle.bench_types.specs.Limits.{max_steps};
ghost use Rattle.bench_model.specs.Edits.{args_of};
ghost use Rattle.settled_runs.specs.Settled.{is_event};
ghost use Rattle.ranked_changes.specs.Changed.{IsChangeOf, IsUserTask};
ghost use Rattle.ranked_changes.specs.Changes.{caller, caller_at, changes_of, exchange_at, next_event, mask_changes, masks_of, order_changes, other_masks, other_priorities, priority_changes};

use crate::changed::args_of;
use crate::masks::masks_of;
use crate::{Change, Family};
use bench_types::{Call, Header, Step, cores_of_mask};
use run_sources::Source;
use std::alloc::{AllocError, Global};

// The number after that of the last user task.
fn tasks_end(header: &Header) -> u32
    requires { header.now.config.cores + length header.now.tasks < 2 ^ 32 }
    ensures { result ≡ header.now.config.cores + length header.now.tasks }
{
    header.config.cores + header.tasks.as_slice().len() as u32
}

// The task with each priority that is not its own.
fn task_priorities(alloc: Global, header: &Header, task: u32) -> Result<Vec<Change>, AllocError>
    requires { IsUserTask header.now task }
    ensures { IfOk result
        (λ changes. changes.items
        ≡ map (Change.Priority task) (other_priorities header.now task)) }
{
    let own = args_of(header, task).priority;
    (0..header.config.priorities)
        .filter(|priority| *priority != own)
        .map(|priority| Change::Priority { task, priority })
        .collect(alloc)
}

fn priority_changes(alloc: Global, header: &Header) -> Result<Vec<Change>, AllocError>
    requires { header.now.config.cores + length header.now.tasks < 2 ^ 32 }
    ensures { IfOk result (λ changes. changes.items ≡ priority_changes header.now) }
{
    let mut changes = Vec::new(alloc);
    for task in header.config.cores..tasks_end(header) {
        let mut more = task_priorities(alloc, header, task)?;
        changes.append(&mut more)?;
    }
    Ok(changes)
}

// The task with each of these masks that does not allow just the cores of its own.
fn task_masks(
    alloc: Global,
    header: &Header,
    family: Family,
    masks: &[u32],
    task: u32,
) -> Result<Vec<Change>, AllocError>
    requires task { IsUserTask header.now task }
    requires masks { masks.now ≡ masks_of family header.now.config.cores }
    ensures { IfOk result
        (λ changes. changes.items ≡ map (Change.Mask task) (other_masks family header.now task)) }
{
    let cores = header.config.cores;
    let own = cores_of_mask(cores, args_of(header, task).mask);
    masks
        .iter()
        .copied()
        .filter(|mask| cores_of_mask(cores, *mask) != own)
        .map(|mask| Change::Mask { task, mask })
        .collect(alloc)
}

fn mask_changes(alloc: Global, header: &Header, family: Family) -> Result<Vec<Change>, AllocError>
    requires cores { header.now.config.cores ≤ 32 }
    requires tasks { header.now.config.cores + length header.now.tasks < 2 ^ 32 }
    ensures { IfOk result (λ changes. changes.items ≡ mask_changes family header.now) }
{
    let masks = masks_of(alloc, family, header.config.cores)?;
    let mut changes = Vec::new(alloc);
    for task in header.config.cores..tasks_end(header) {
        let mut more = task_masks(alloc, header, family, masks.as_slice(), task)?;
        changes.append(&mut more)?;
    }
    Ok(changes)
}

// A call of a task that is no `finish`.
fn caller(step: &Step) -> Option<u32>
    ensures { result ≡ caller step.now }
{
    match *step {
        Step::Call {
            call: Call::Finish,
            ..
        } => None,
        Step::Call { task, .. } => Some(task),
        _ => None,
    }
}

fn caller_at(steps: &[Step], place: usize) -> Option<u32>
    ensures { result ≡ caller_at steps.now place }
{
    caller(steps.get(place)?)
}

// All but switches and calls of `finish`.
fn is_event(step: &Step) -> bool
    ensures { result ≡ is_event step.now }
{
    !matches!(
        step,
        Step::Switch { .. }
            | Step::Call {
                call: Call::Finish,
                ..
            }
    )
}

fn first_event(steps: &[Step]) -> Option<usize>
    ensures { result ≡ position is_event steps.now }
{
    steps.iter().position(|step| is_event(step))
}

fn next_event(steps: &[Step], place: usize) -> Option<usize>
    requires { place < length steps.now }
    ensures { result ≡ next_event steps.now place }
{
    let between = first_event(&steps[place + 1..])?;
    Some(place + 1 + between)
}

fn exchange_at(steps: &[Step], place: usize) -> Option<Change>
    requires few { length steps.now ≤ max_steps }
    requires place { place < length steps.now }
    ensures { result ≡ exchange_at steps.now place }
{
    let task = caller_at(steps, place)?;
    let later = next_event(steps, place)?;
    let other = caller_at(steps, later)?;
    if task == other {
        return None;
    }
    Some(Change::Order {
        first: place as u32,
        second: later as u32,
    })
}

fn order_changes(alloc: Global, steps: &[Step]) -> Result<Vec<Change>, AllocError>
    requires few { length steps.now ≤ max_steps }
    ensures { IfOk result (λ changes. changes.items ≡ order_changes steps.now) }
{
    (0..steps.len())
        .filter_map(|place| exchange_at(steps, place))
        .collect(alloc)
}

// The changes, if they are wanted.
fn priorities_if(alloc: Global, header: &Header, wanted: bool) -> Result<Vec<Change>, AllocError>
    requires { header.now.config.cores + length header.now.tasks < 2 ^ 32 }
    ensures { IfOk result
        (λ changes. changes.items ≡ (if wanted then priority_changes header.now else [])) }
{
    if wanted {
        priority_changes(alloc, header)
    } else {
        Ok(Vec::new(alloc))
    }
}

fn orders_if(alloc: Global, steps: &[Step], wanted: bool) -> Result<Vec<Change>, AllocError>
    requires { length steps.now ≤ max_steps }
    ensures { IfOk result
        (λ changes. changes.items ≡ (if wanted then order_changes steps.now else [])) }
{
    if wanted {
        order_changes(alloc, steps)
    } else {
        Ok(Vec::new(alloc))
    }
}

/// The changes of the family in a source: each user task with each other priority, then each with
/// each other mask, by their numbers, then the exchanges of calls, by their places. The calls of a
/// workload are not exchanged.
#[tactic(auto, using(bench_types::proofs::Passes::checked_header))]
pub fn changes_of(alloc: Global, source: &Source, family: Family) -> Result<Vec<Change>, AllocError>
    ensures changes { IfOk result (λ changes. changes.items ≡ changes_of source.now family) }
    // Each of them may be made.
    ensures allowed { IfOk result (λ changes. All (IsChangeOf source.now) changes.items) }
{
    let header = source.header();
    let mut changes = priorities_if(alloc, header, family.priority)?;
    let mut masks = mask_changes(alloc, header, family)?;
    let mut orders = orders_if(alloc, source.steps(), family.order)?;
    changes.append(&mut masks)?;
    changes.append(&mut orders)?;
    Ok(changes)
}
