//! What is in the way of a ready task that is on no core.
ghost use Rattle.std.specs.Prelude.{◌≡◌, IfOk, length, map};
ghost use Rattle.list_orders.specs.Search.{numbers};
ghost use Rattle.run_pictures.specs.Hindrances.{effective_in, has_core, hindrance_in, hindrances_in, is_idle_in, obstacle_at, obstacle_by, rival_in, site_in};
ghost use Rattle.run_pictures.specs.Same.{are_same_hindrances, are_same_obstacles};
ghost use Rattle.bench_model.specs.SameTest.{are_same_lists};

use crate::core_bands::core_in;
use crate::stance::{Stance, stance_in, status_in};
use bench_types::Hold;
use run_views::Look;
use std::alloc::{AllocError, Global};

/// What keeps a core from a ready task.
#[derive(Clone, Copy, Debug, PartialEq, Eq)]
pub enum Obstacle {
    /// The core is not in the task's mask.
    Masked,
    /// The kernel is held by this core, so that no core switches.
    Held { holder: u32 },
    /// The core is due, and has not switched yet.
    Due,
    /// A task of lower effective priority runs there, and its preemption is off. What is told of it
    /// here and below is its priority in use.
    Unpreempted { task: u32, priority: u32 },
    /// A task runs there whose effective priority is not lower.
    Outranked { task: u32, priority: u32 },
    /// A task of lower effective priority runs there, and the core was not asked to switch.
    Lower { task: u32, priority: u32 },
}

/// What is in the way of a ready task at a core.
#[derive(Clone, Copy, Debug, PartialEq, Eq)]
pub struct Hindrance {
    pub core: usize,
    pub by: Obstacle,
}

/// The task that a core runs.
#[derive(Clone, Copy, Debug, PartialEq, Eq)]
pub(crate) struct Rival {
    pub(crate) task: u32,
    /// Its priority in use.
    pub(crate) priority: u32,
    /// Its effective priority.
    pub(crate) effective: u64,
    /// Whether its preemption is on.
    pub(crate) preempt: bool,
}

/// A core as a ready task finds it.
#[derive(Clone, Copy, Debug, PartialEq, Eq)]
pub(crate) struct Site {
    /// The task may run there.
    pub(crate) allowed: bool,
    /// The core was asked to switch.
    pub(crate) due: bool,
    pub(crate) rival: Rival,
}

/// Whether the mask has the core.
pub(crate) fn has_core(mask: u32, core: usize) -> bool
    ensures { result ≡ has_core mask core }
{
    core < 32 && (mask >> core) & 1 == 1
}

fn is_idle_in(look: &Look, task: u32) -> bool
    ensures { result ≡ is_idle_in task look.now }
{
    (task as usize) < look.cores.as_slice().len()
}

// The effective priority of the task: an idle task has 0, and the priorities in use count from 1.
fn effective_in(look: &Look, task: u32) -> u64
    ensures { result ≡ effective_in task look.now }
{
    if is_idle_in(look, task) {
        0
    } else {
        u64::from(status_in(look, task).in_use) + 1
    }
}

fn rival_in(look: &Look, task: u32) -> Rival
    ensures { result ≡ rival_in task look.now }
{
    let status = status_in(look, task);
    Rival {
        task,
        priority: status.in_use,
        effective: effective_in(look, task),
        preempt: status.preempt,
    }
}

fn site_in(look: &Look, task: u32, core: usize) -> Site
    ensures { result ≡ site_in task look.now core }
{
    let seen = core_in(look, core);
    Site {
        allowed: is_idle_in(look, task) || has_core(status_in(look, task).mask, core),
        due: seen.pend || seen.asked,
        rival: rival_in(look, seen.current),
    }
}

// The task that runs instead of one of the effective priority.
fn obstacle_by(own: u64, rival: Rival) -> Obstacle
    ensures { result ≡ obstacle_by own rival }
{
    let Rival { task, priority, .. } = rival;
    if own <= rival.effective {
        Obstacle::Outranked { task, priority }
    } else if rival.preempt {
        Obstacle::Lower { task, priority }
    } else {
        Obstacle::Unpreempted { task, priority }
    }
}

fn obstacle_at(own: u64, hold: Option<Hold>, site: Site) -> Obstacle
    ensures { result ≡ obstacle_at own hold site }
{
    if !site.allowed {
        return Obstacle::Masked;
    }
    match hold {
        Some(hold) => Obstacle::Held { holder: hold.core },
        None if site.due => Obstacle::Due,
        None => obstacle_by(own, site.rival),
    }
}

fn hindrance_in(look: &Look, task: u32, core: usize) -> Hindrance
    ensures { result ≡ hindrance_in task look.now core }
{
    let own = effective_in(look, task);
    Hindrance {
        core,
        by: obstacle_at(own, look.hold, site_in(look, task, core)),
    }
}

fn at_each_core(alloc: Global, look: &Look, task: u32) -> Result<Vec<Hindrance>, AllocError>
    ensures { IfOk result
        (λ hindrances. hindrances.items
        ≡ map (hindrance_in task look.now) (numbers (length look.now.cores))) }
{
    (0..look.cores.as_slice().len())
        .map(|core| hindrance_in(look, task, core))
        .collect(alloc)
}

/// What is in the way of the task at each core, where it is ready and on none.
pub(crate) fn hindrances_in(
    alloc: Global,
    look: &Look,
    task: u32,
) -> Result<Vec<Hindrance>, AllocError>
    ensures { IfOk result (λ hindrances. hindrances.items ≡ hindrances_in task look.now) }
{
    match stance_in(look, task) {
        Stance::Ready => at_each_core(alloc, look, task),
        Stance::Runs { .. } | Stance::Blocked { .. } | Stance::Suspended => Ok(Vec::new(alloc)),
    }
}

fn is_same_obstacle(obstacle: Obstacle, other: Obstacle) -> bool
    ensures { result ≡ are_same_obstacles obstacle other }
{
    use Obstacle::{Due, Held, Lower, Masked, Outranked, Unpreempted};
    match (obstacle, other) {
        (Masked, Masked) | (Due, Due) => true,
        (Held { holder }, Held { holder: other }) => holder == other,
        (
            Unpreempted { task, priority },
            Unpreempted {
                task: another,
                priority: level,
            },
        )
        | (
            Outranked { task, priority },
            Outranked {
                task: another,
                priority: level,
            },
        )
        | (
            Lower { task, priority },
            Lower {
                task: another,
                priority: level,
            },
        ) => task == another && priority == level,
        _ => false,
    }
}

fn is_same_hindrance(hindrance: Hindrance, other: Hindrance) -> bool
    ensures { result ≡ are_same_hindrances hindrance other }
{
    hindrance.core == other.core && is_same_obstacle(hindrance.by, other.by)
}

/// Whether the two lists are of one length, and the same item by item.
pub(crate) fn are_same_lists(hindrances: &[Hindrance], others: &[Hindrance]) -> bool
    ensures { result ≡ are_same_lists are_same_hindrances hindrances.now others.now }
{
    if hindrances.len() != others.len() {
        return false;
    }
    for (index, hindrance) in hindrances.iter().enumerate() {
        if !is_same_hindrance(*hindrance, others[index]) {
            return false;
        }
    }
    true
}
