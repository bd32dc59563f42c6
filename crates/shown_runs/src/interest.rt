//! The tasks and cores that a selection names, by their numbers.
ghost use Rattle.std.specs.Prelude.{◌≡◌, ◌<◌, ◌++◌, IfOk, IfSome, OnOk, flat_map, is_none, length, map, option_map, position, string_bytes};
ghost use Rattle.std.specs.Str.{bytes_eq};
ghost use Rattle.bench_types.specs.Header.{IsCheckedHeader};
ghost use Rattle.shown_runs.specs.Interests.{interest_of, listed, task_named, unknown_core, unknown_task};

use crate::ask::Selection;
use bench_types::{Header, Items, TaskArgs};
use run_views::Interest;
use std::alloc::{AllocError, Global};

fn position_of(tasks: &[TaskArgs], name: &str) -> Option<usize>
    ensures value { result ≡ position (λ args. bytes_eq name.now args.name) tasks.now }
    ensures within { IfSome result (λ index. index < length tasks.now) }
{
    tasks.iter().position(|args| name == args.name.as_str())
}

#[tactic(auto, using(bench_types::proofs::Passes::checked_header))]
fn task_named(header: &Header, name: &str) -> Option<u32>
    requires { IsCheckedHeader header.now }
    ensures { result ≡ task_named header.now name.now }
{
    let index = position_of(header.tasks.as_slice(), name)?;
    Some(header.config.cores + index as u32)
}

fn first_unknown(header: &Header, names: &[String]) -> Option<usize>
    requires { IsCheckedHeader header.now }
    ensures value { result
        ≡ position (λ name. is_none (task_named header.now (string_bytes name))) names.now }
    ensures within { IfSome result (λ index. index < length names.now) }
{
    names
        .iter()
        .position(|name| task_named(header, name.as_str()).is_none())
}

/// Where the first of the names stands that is no task's.
pub(crate) fn unknown_task(header: &Header, names: &[String]) -> Option<usize>
    requires { IsCheckedHeader header.now }
    ensures value { result ≡ unknown_task header.now (map string_bytes names.now) }
    ensures within { IfSome result (λ index. index < length names.now) }
{
    first_unknown(header, names)
}

/// The first of the numbers that is no core's.
pub(crate) fn unknown_core(header: &Header, cores: &[u32]) -> Option<u32>
    ensures { result ≡ unknown_core header.now cores.now }
{
    cores
        .iter()
        .copied()
        .find(|core| header.config.cores <= *core)
}

fn push_named(tasks: &mut Vec<u32>, header: &Header, name: &str) -> Result<(), AllocError>
    requires { IsCheckedHeader header.now }
    ensures { OnOk result
        (tasks.new.items ≡ tasks.old.items ++ listed (task_named header.now name.now)) }
{
    if let Some(task) = task_named(header, name) {
        tasks.push(task)?;
    }
    Ok(())
}

fn tasks_named(alloc: Global, header: &Header, names: &[String]) -> Result<Vec<u32>, AllocError>
    requires { IsCheckedHeader header.now }
    ensures { IfOk result
        (λ tasks. tasks.items
        ≡ flat_map (λ name. listed (task_named header.now (string_bytes name))) names.now) }
{
    let mut tasks = Vec::new(alloc);
    for name in names {
        push_named(&mut tasks, header, name.as_str())?;
    }
    Ok(tasks)
}

/// What is named, by the header's numbers of it.
pub(crate) fn interest_of(
    alloc: Global,
    header: &Header,
    selection: &Selection,
) -> Result<Interest, AllocError>
    requires { IsCheckedHeader header.now }
    ensures { IfOk result (λ interest. interest ≡ interest_of header.now selection.now) }
{
    let tasks = tasks_named(alloc, header, selection.tasks.as_slice())?;
    let cores = Vec::from_slice(alloc, selection.cores.as_slice())?;
    Ok(Interest {
        tasks: Items::new(tasks),
        cores: Items::new(cores),
    })
}
