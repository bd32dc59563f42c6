//! The stretches of what the rows of tasks show, which are found for all tasks look by look.
ghost use Rattle.std.specs.Prelude.{◌≡◌, ◌+◌, ◌<◌, ◌≤◌, ◌^◌, IfOk, None, OnOk, Some, length, map, slice_index_or, slice_set};
ghost use Rattle.list_orders.specs.Search.{numbers};
ghost use Rattle.bench_types.specs.Limits.{max_cores, max_tasks};
ghost use Rattle.run_pictures.specs.RowStretches.{all_row_stretches, all_runners, empty_row, extended_row};
ghost use Rattle.run_pictures.specs.Stances.{core_of};

use crate::shown::Priorities;
use crate::stance::{Stance, stance_with, status_in};
use crate::stretch::{Stretch, extend};
use crate::task_names::Terms;
use bench_types::Header;
use run_views::{Look, TaskStatus};
use std::alloc::{AllocError, Global};
use std::collections::VecDeque;
use std::marker::Model;

/// The stretches of what one row shows, from some place on to the last.
#[derive(Drop)]
pub(crate) struct RowStretches {
    pub(crate) stances: VecDeque<Stretch<Stance>>,
    pub(crate) priorities: VecDeque<Stretch<Priorities>>,
    pub(crate) terms: VecDeque<Stretch<Terms>>,
    /// Whether the task's preemption is on.
    pub(crate) preempts: VecDeque<Stretch<bool>>,
}

impl Model for RowStretches {
    ghost use Rattle.run_pictures.specs.RowStretches.{Row};

    ghost Value = { Row };

    ghost view = { λ row.
        record {
          stances = row.stances.items;
          priorities = row.priorities.items;
          terms = row.terms.items;
          preempts = row.preempts.items;
        } };
}

impl RowStretches {
    fn new(alloc: Global) -> RowStretches
        ensures { result ≡ empty_row }
    {
        RowStretches {
            stances: VecDeque::new(alloc),
            priorities: VecDeque::new(alloc),
            terms: VecDeque::new(alloc),
            preempts: VecDeque::new(alloc),
        }
    }

    // The place of the look more in front of them, where this core is the first that runs the task.
    fn extend(
        &mut self,
        place: u32,
        look: &Look,
        task: u32,
        core: Option<usize>,
    ) -> Result<(), AllocError>
        requires { core ≡ core_of task look.now.cores }
        ensures { OnOk result (self.new ≡ extended_row place look.now task self.old) }
    {
        let status = status_in(look, task);
        let TaskStatus {
            in_use,
            base,
            mask,
            preempt,
            ..
        } = status;
        extend(&mut self.stances, place, stance_with(status, core))?;
        extend(&mut self.priorities, place, Priorities { in_use, base })?;
        extend(&mut self.terms, place, Terms { base, mask })?;
        extend(&mut self.preempts, place, preempt)
    }
}

// The core is the first one, as far as is known, that runs the task.
fn set_runner(runners: &mut Vec<Option<usize>>, task: u32, core: usize)
    ensures { runners.new.items ≡ slice_set runners.old.items task (Some core) }
{
    if (task as usize) < runners.len() {
        runners[task as usize] = Some(core);
    }
}

// No core is known that runs one of so many tasks.
fn no_runners(alloc: Global, tasks: usize) -> Result<Vec<Option<usize>>, AllocError>
    ensures { IfOk result (λ runners. runners.items ≡ map (λ task. None) (numbers tasks)) }
{
    (0..tasks).map(|_| None).collect(alloc)
}

// Of each task the first core of which it is the current one.
fn all_runners(alloc: Global, look: &Look, tasks: usize) -> Result<Vec<Option<usize>>, AllocError>
    ensures { IfOk result (λ runners. runners.items ≡ all_runners look.now tasks) }
{
    let cores = look.cores.as_slice();
    let mut runners = no_runners(alloc, tasks)?;
    for core in (0..cores.len()).rev() {
        set_runner(&mut runners, cores[core].current, core);
    }
    Ok(runners)
}

// The place of the look more in front of the stretches of each user task.
fn extend_rows(
    rows: &mut Vec<RowStretches>,
    place: u32,
    look: &Look,
    cores: u32,
    runners: &[Option<usize>],
) -> Result<(), AllocError>
    requires few { cores + length rows.old.items < 2 ^ 32 }
    requires runners { runners.now ≡ all_runners look.now (cores + length rows.old.items) }
    ensures { OnOk result
        (rows.new.items
        ≡ map
        (λ user. extended_row place look.now (cores + user)
        (slice_index_or rows.old.items user empty_row))
        (numbers (length rows.old.items))) }
{
    for user in 0..rows.len() {
        let task = cores + user as u32;
        rows[user].extend(place, look, task, runners[task as usize])?;
    }
    Ok(())
}

// The rows of so many tasks of which no place is known.
fn no_rows(alloc: Global, users: usize) -> Result<Vec<RowStretches>, AllocError>
    ensures { IfOk result (λ rows. rows.items ≡ map (λ user. empty_row) (numbers users)) }
{
    let mut rows = Vec::with_capacity(alloc, users)?;
    for _ in 0..users {
        rows.push(RowStretches::new(alloc))?;
    }
    Ok(rows)
}

/// The stretches of what the row of each user task shows. One look after another is gone through
/// for all tasks, the last one first, since what it has of its tasks lies together.
pub(crate) fn all_row_stretches(
    alloc: Global,
    header: &Header,
    first: u32,
    looks: &[Look],
) -> Result<Vec<RowStretches>, AllocError>
    requires few { first + length looks.now ≤ 2 ^ 32 }
    requires cores { header.now.config.cores ≤ max_cores }
    requires tasks { length header.now.tasks ≤ max_tasks }
    ensures { IfOk result (λ rows. rows.items ≡ all_row_stretches header.now first looks.now) }
{
    let cores = header.config.cores;
    let users = header.tasks.as_slice().len();
    let mut rows = no_rows(alloc, users)?;
    for index in (0..looks.len()).rev() {
        let place = first + index as u32;
        let look = &looks[index];
        let runners = all_runners(alloc, look, cores as usize + users)?;
        extend_rows(&mut rows, place, look, cores, runners.as_slice())?;
    }
    Ok(rows)
}
