//! The cores and control blocks of a start, before any core has selected.
ghost use Rattle.std.specs.Prelude.{◌≡◌, ◌≤◌, false, map, replicate, IfOk};
ghost use Rattle.bench_types.specs.Limits.{max_cores};
ghost use Rattle.list_orders.specs.Search.{numbers};
ghost use Rattle.bench_model.specs.Start.{first_look, idle_control, first_control};
ghost use Rattle.ready_core.specs.Fields.{first_seat};

use bench_types::{CoreLook, Header, TaskControl, cores_of_mask};
use std::alloc::{AllocError, Global};

pub(crate) fn first_looks(alloc: Global, cores: u32) -> Result<Vec<CoreLook>, AllocError>
    ensures { IfOk result (λ looks. looks.items ≡ map first_look (numbers cores)) }
{
    let mut looks = Vec::with_capacity(alloc, cores as usize)?;
    for core in 0..cores {
        looks.push(CoreLook {
            current: core,
            pend: false,
            asked: false,
        })?;
    }
    Ok(looks)
}

// The control blocks of the idle tasks, and after them those of the user tasks.
pub(crate) fn first_controls(alloc: Global, header: &Header) -> Result<Vec<TaskControl>, AllocError>
    requires { header.now.config.cores ≤ max_cores }
    ensures { IfOk result (λ tasks. tasks.items ≡ (first_control header.now).tasks) }
{
    let cores = header.config.cores;
    let mut tasks = idle_controls(alloc, cores)?;
    for args in header.tasks.as_slice() {
        tasks.push(TaskControl {
            base: args.priority,
            in_use: args.priority,
            mask: cores_of_mask(cores, args.mask),
            preempt: true,
        })?;
    }
    Ok(tasks)
}

fn idle_controls(alloc: Global, cores: u32) -> Result<Vec<TaskControl>, AllocError>
    requires { cores ≤ max_cores }
    ensures { IfOk result (λ tasks. tasks.items ≡ replicate cores (idle_control cores)) }
{
    let mut tasks = Vec::new(alloc);
    for _core in 0..cores {
        tasks.push(idle_control(cores))?;
    }
    Ok(tasks)
}

fn idle_control(cores: u32) -> TaskControl
    requires { cores ≤ max_cores }
    ensures { result ≡ idle_control cores }
{
    TaskControl {
        base: 0,
        in_use: 0,
        mask: cores_of_mask(cores, u32::MAX),
        preempt: true,
    }
}

// Core c has idle task c, and no other task has a core.
pub(crate) fn first_seats(alloc: Global, cores: u32, tasks: u32) -> Result<Vec<u32>, AllocError>
    requires { cores ≤ max_cores }
    ensures { IfOk result (λ seats. seats.items ≡ map (first_seat cores) (numbers tasks)) }
{
    let mut seats = Vec::with_capacity(alloc, tasks as usize)?;
    for task in 0..tasks {
        seats.push(first_seat(cores, task))?;
    }
    Ok(seats)
}

fn first_seat(cores: u32, task: u32) -> u32
    requires { cores ≤ max_cores }
    ensures { result ≡ first_seat cores task }
{
    if task < cores { 1 << task } else { 0 }
}

// No task is ready.
pub(crate) fn none_wanting(alloc: Global, tasks: u32) -> Result<Vec<bool>, AllocError>
    ensures { IfOk result (λ wanting. wanting.items ≡ replicate tasks false) }
{
    vec![in alloc; false; tasks as usize]
}
