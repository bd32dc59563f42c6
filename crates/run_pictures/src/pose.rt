//! How a task stands at a place, and what is in its way there.
ghost use Rattle.std.specs.Prelude.{◌≡◌, ◌+◌, ◌<◌, ◌≤◌, ◌^◌, IfOk, length, map};
ghost use Rattle.bench_types.specs.Limits.{max_cores, max_tasks};
ghost use Rattle.run_pictures.specs.Poses.{count_ready, detail_by_pieces, detail_for, most_found, opening, openings, pose_in, pose_stretches, stands_ready};
ghost use Rattle.run_pictures.specs.Same.{are_same_poses};

use crate::hindrance::{Hindrance, are_same_lists, hindrances_in};
use crate::stance::{Stance, is_same_stance, stance_in};
use crate::stretch::{Stretch, StretchValue, stretches_of};
use bench_types::{Header, Items};
use run_views::Look;
use std::alloc::{AllocError, Global};

/// How many stretches of ready tasks are told apart by what is in the way, at most.
const MAX_PIECES: usize = 4_096;

/// How many hindrances are looked for, at most: at each core, of each user task at each place.
const MAX_FOUND: u64 = 2_097_152;

/// How a task stands at a place, and what is in its way there.
#[derive(Debug, Drop)]
pub struct Pose {
    pub stance: Stance,
    /// At each core, where the task is ready and on none.
    pub hindrances: Items<Hindrance>,
}

impl StretchValue for Pose {
    ghost use Rattle.run_pictures.specs.StretchValues.{poses_decided};

    ghost same = { are_same_poses };

    ghost tells = { poses_decided };

    fn is_same(&self, other: &Self) -> bool {
        is_same_stance(self.stance, other.stance)
            && are_same_lists(self.hindrances.as_slice(), other.hindrances.as_slice())
    }
}

/// Of which places what is in the way of a ready task is told.
#[derive(Clone, Copy, Debug, PartialEq, Eq)]
pub(crate) enum Detail {
    /// Of each place.
    EachPlace,
    /// Of the first place at which it is ready.
    FirstPlace,
}

fn pose_in(alloc: Global, look: &Look, task: u32) -> Result<Pose, AllocError>
    ensures { IfOk result (λ pose. pose ≡ pose_in task look.now) }
{
    Ok(Pose {
        stance: stance_in(look, task),
        hindrances: Items::new(hindrances_in(alloc, look, task)?),
    })
}

fn poses(alloc: Global, looks: &[Look], task: u32) -> Result<Vec<Pose>, AllocError>
    ensures { IfOk result (λ values. values.items ≡ map (pose_in task) looks.now) }
{
    let mut poses = Vec::with_capacity(alloc, looks.len())?;
    for look in looks {
        poses.push(pose_in(alloc, look, task)?)?;
    }
    Ok(poses)
}

/// The stretches of how the task stands and of what is in its way.
#[tactic(auto, unfolding(crate::specs::Poses::pose_stretches))]
pub(crate) fn pose_stretches(
    alloc: Global,
    first: u32,
    looks: &[Look],
    task: u32,
) -> Result<Vec<Stretch<Pose>>, AllocError>
    requires { first + length looks.now ≤ 2 ^ 32 }
    ensures { IfOk result (λ stretches. stretches.items ≡ pose_stretches first looks.now task) }
{
    let values = poses(alloc, looks, task)?;
    stretches_of(alloc, first, values)
}

// The stretch, with what is in the way at its first place.
fn opening(
    alloc: Global,
    first: u32,
    looks: &[Look],
    task: u32,
    stretch: Stretch<Stance>,
) -> Result<Stretch<Pose>, AllocError>
    ensures { IfOk result (λ found. found ≡ opening first looks.now task stretch) }
{
    let hindrances = match looks.get(stretch.first.saturating_sub(first) as usize) {
        Some(look) => hindrances_in(alloc, look, task)?,
        None => Vec::new(alloc),
    };
    Ok(Stretch {
        first: stretch.first,
        last: stretch.last,
        value: Pose {
            stance: stretch.value,
            hindrances: Items::new(hindrances),
        },
    })
}

/// The stretches, each with what is in the way at its first place.
pub(crate) fn openings(
    alloc: Global,
    first: u32,
    looks: &[Look],
    task: u32,
    stretches: &[Stretch<Stance>],
) -> Result<Vec<Stretch<Pose>>, AllocError>
    ensures { IfOk result (λ found. found.items ≡ openings first looks.now task stretches.now) }
{
    let mut found = Vec::with_capacity(alloc, stretches.len())?;
    for stretch in stretches {
        found.push(opening(alloc, first, looks, task, *stretch)?)?;
    }
    Ok(found)
}

/// Whether a task stands ready, and on no core.
pub(crate) fn stands_ready(stance: Stance) -> bool
    ensures { result ≡ stands_ready stance }
{
    match stance {
        Stance::Ready => true,
        Stance::Runs { .. } | Stance::Blocked { .. } | Stance::Suspended => false,
    }
}

// How many of the stretches are of a ready task.
fn count_ready(stretches: &[Stretch<Pose>]) -> usize
    ensures { result ≡ count_ready stretches.now }
{
    stretches
        .iter()
        .filter(|stretch| stands_ready(stretch.value.stance))
        .count()
}

// How many stretches are of the task while it is ready.
fn count_pieces(alloc: Global, first: u32, looks: &[Look], task: u32) -> Result<usize, AllocError>
    requires { first + length looks.now ≤ 2 ^ 32 }
    ensures { IfOk result
        (λ count. count ≡ count_ready (pose_stretches first looks.now task)) }
{
    let stretches = pose_stretches(alloc, first, looks, task)?;
    Ok(count_ready(stretches.as_slice()))
}

// What is told, as far as there are not too many stretches.
fn detail_by_pieces(
    alloc: Global,
    header: &Header,
    first: u32,
    looks: &[Look],
) -> Result<Detail, AllocError>
    requires few { first + length looks.now ≤ 2 ^ 32 }
    requires tasks { header.now.config.cores + length header.now.tasks < 2 ^ 32 }
    ensures { IfOk result (λ detail. detail ≡ detail_by_pieces header.now first looks.now) }
{
    let mut pieces = 0;
    for user in 0..header.tasks.as_slice().len() as u32 {
        let count = count_pieces(alloc, first, looks, header.config.cores + user)?;
        if count > MAX_PIECES - pieces {
            return Ok(Detail::FirstPlace);
        }
        pieces += count;
    }
    Ok(Detail::EachPlace)
}

// How many hindrances there may be at all places.
fn most_found(header: &Header, looks: &[Look]) -> u64
    requires cores { header.now.config.cores ≤ max_cores }
    requires tasks { length header.now.tasks ≤ max_tasks }
    requires looks { length looks.now < 2 ^ 32 }
    ensures { result ≡ most_found header.now looks.now }
{
    let sites = header.tasks.as_slice().len() as u64 * u64::from(header.config.cores);
    looks.len() as u64 * sites
}

/// What is told of the ready tasks of the looks.
pub(crate) fn detail_for(
    alloc: Global,
    header: &Header,
    first: u32,
    looks: &[Look],
) -> Result<Detail, AllocError>
    requires few { first + length looks.now ≤ 2 ^ 32 }
    requires cores { header.now.config.cores ≤ max_cores }
    requires tasks { length header.now.tasks ≤ max_tasks }
    requires looks { length looks.now < 2 ^ 32 }
    ensures { IfOk result (λ detail. detail ≡ detail_for header.now first looks.now) }
{
    if most_found(header, looks) > MAX_FOUND {
        return Ok(Detail::FirstPlace);
    }
    detail_by_pieces(alloc, header, first, looks)
}
