//! Which task makes the last calls.
ghost use Rattle.std.specs.Prelude.{◌≡◌, ◌==◌, ◌++◌, ◌∷◌, [], IfOk, OnOk};
ghost use Rattle.std.specs.List.{list_all};
ghost use Rattle.simulating.specs.Callers.{caller_of, callers, lone_caller, only_one};

use bench_types::{Call, Step};
use std::alloc::{AllocError, Global};

// Of so many calls.
pub(crate) const LAST_CALLS: usize = 1000;

// The task that begins a call by the step; a `finish` begins none.
fn caller_of(step: Step) -> Option<u32>
    ensures { result ≡ caller_of step }
{
    match step {
        Step::Call {
            call: Call::Finish,
            ..
        } => None,
        Step::Call { task, .. } => Some(task),
        _ => None,
    }
}

// Adds the task where the step begins a call.
fn push_caller(tasks: &mut Vec<u32>, step: Step) -> Result<(), AllocError>
    ensures { OnOk result (tasks.new.items ≡ tasks.old.items ++ callers (step ∷ [])) }
{
    match caller_of(step) {
        Some(task) => {
            tasks.push(task)?;
            Ok(())
        }
        None => Ok(()),
    }
}

// The tasks that begin the calls.
fn callers(alloc: Global, steps: &[Step]) -> Result<Vec<u32>, AllocError>
    ensures { IfOk result (λ tasks. tasks.items ≡ callers steps.now) }
{
    let mut tasks = Vec::new(alloc);
    for step in steps {
        push_caller(&mut tasks, *step)?;
    }
    Ok(tasks)
}

fn are_all(numbers: &[u32], one: u32) -> bool
    ensures { result ≡ list_all (λ number. number == one) numbers.now }
{
    numbers.iter().all(|number| *number == one)
}

// The number that each one is.
fn only_one(numbers: &[u32]) -> Option<u32>
    ensures { result ≡ only_one numbers.now }
{
    match numbers.get(0) {
        Some(first) => {
            if are_all(numbers, *first) {
                Some(*first)
            } else {
                None
            }
        }
        None => None,
    }
}

/// The task that made each of the last thousand calls, if it was one alone.
pub(crate) fn lone_caller(alloc: Global, steps: &[Step]) -> Result<Option<u32>, AllocError>
    ensures { IfOk result (λ caller. caller ≡ lone_caller steps.now) }
{
    let tasks = callers(alloc, steps)?;
    match tasks.len().checked_sub(LAST_CALLS) {
        Some(earlier) => Ok(only_one(&tasks[earlier..])),
        None => Ok(None),
    }
}
