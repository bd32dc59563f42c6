//! Headers for tests.
ghost use Rattle.std.specs.Prelude.{◌≡◌, ◌++◌, ◌∷◌, [], map, replicate, not, true, false, None, IfOk, OnOk};
ghost use Rattle.std.specs.List.{list_any};
ghost use Rattle.bench_types.specs.Name.{is_name};
ghost use Rattle.bench_samples.specs.Rows.{numbered};

use crate::SampleFault;
use bench_types::{Config, Header, Items, Name, TaskArgs};
use std::alloc::{AllocError, Global};

/// A header of tasks that are given by name, priority and mask. It is not checked.
#[tactic(auto, using(std::proofs::lemmas::List::map_more, std::proofs::lemmas::List::Folds::list_any_at))]
pub fn header_of(
    alloc: Global,
    config: Config,
    tasks: &[(&str, u32, u32)],
) -> Result<Header, SampleFault>
    ensures header { IfOk result
        (λ header. header
        ≡ record {
          config = config;
          queues = None;
          tasks
              = map
              (λ task. record { name = task.0.now; priority = task.1; mask = task.2 }) tasks.now;
        }) }
    ensures bad_name { result ≡ Err SampleFault.BadName
        → list_any (λ task. not (is_name task.0.now)) tasks.now ≡ true }
{
    let mut all = Vec::with_capacity(alloc, tasks.len())?;
    for (name, priority, mask) in tasks {
        push_task(&mut all, name, *priority, *mask)?;
    }
    let tasks = Items::new(all);
    Ok(Header {
        config,
        queues: None,
        tasks,
    })
}

/// A header of tasks that are given by priority and mask, and are named T0, T1 and so on. It is not
/// checked.
pub fn numbered_header(
    alloc: Global,
    config: Config,
    tasks: &[(u32, u32)],
) -> Result<Header, SampleFault>
    ensures { IfOk result
        (λ header. header
        ≡ record { config = config; queues = None; tasks = numbered 0 tasks.now }) }
{
    let mut all = Vec::with_capacity(alloc, tasks.len())?;
    for (number, (priority, mask)) in tasks.iter().enumerate() {
        let name = format!(in alloc; "T{number}")?;
        push_task(&mut all, name.as_str(), *priority, *mask)?;
    }
    let tasks = Items::new(all);
    Ok(Header {
        config,
        queues: None,
        tasks,
    })
}

fn push_task(
    all: &mut Vec<TaskArgs>,
    name: &str,
    priority: u32,
    mask: u32,
) -> Result<(), SampleFault>
    ensures task { OnOk result
        (all.new.items
        ≡ all.old.items ++ record { name = name.now; priority = priority; mask = mask } ∷ []) }
    ensures bad_name { result ≡ Err SampleFault.BadName → is_name name.now ≡ false }
{
    let name = Name::new(name)?;
    all.push(TaskArgs {
        name,
        priority,
        mask,
    })
    .map_err(AllocError::from)?;
    Ok(())
}

/// A header of so many tasks of priority 1 that may run on cores 0 and 1, and are named T0, T1 and
/// so on. It is not checked.
pub fn crowd(alloc: Global, config: Config, tasks: usize) -> Result<Header, SampleFault>
    ensures { IfOk result
        (λ header. header
        ≡ record {
          config = config;
          queues = None;
          tasks = numbered 0 (replicate tasks (1, 3));
        }) }
{
    let tasks = vec![in alloc; (1, 3); tasks]?;
    numbered_header(alloc, config, &tasks)
}
