//! The order of changes.
ghost use Rattle.std.specs.Prelude.{◌≡◌, IfOk, IsPermutation};
ghost use Rattle.ranked_changes.specs.Changed.{IsHeaderChange};
ghost use Rattle.ranked_changes.specs.Ranking.{cores_apart, distance, size_of, AreBestFirst};

use crate::changed::args_of;
use crate::{Change, Verdict};
use bench_types::{Header, cores_of_mask};
use std::alloc::AllocError;

/// How much a change changes. The lower is the smaller one.
#[derive(Clone, Copy, Debug, PartialEq, Eq, PartialOrd, Ord)]
pub enum Size {
    /// How far the priority moves.
    Priority(u32),
    /// How many cores one of the two masks allows and the other does not.
    Mask(u32),
    /// An exchange of two calls.
    Order,
}

/// A change with what was said of it. The lower is the better one: the lower number, of equals the
/// smaller change, of equals the one that comes first among the changes.
#[derive(Clone, Copy, Debug, PartialEq, Eq, PartialOrd, Ord)]
pub struct Ranked {
    pub verdict: Verdict,
    pub size: Size,
    /// The place of the change among the changes.
    pub index: u32,
}

fn distance(one: u32, other: u32) -> u32
    ensures { result ≡ distance one other }
{
    one.abs_diff(other)
}

fn cores_apart(cores: u32, one: u32, other: u32) -> u32
    ensures { result ≡ cores_apart cores one other }
{
    (cores_of_mask(cores, one) ^ cores_of_mask(cores, other)).count_ones()
}

/// How much the change changes.
pub fn size_of(header: &Header, change: Change) -> Size
    requires { IsHeaderChange header.now change }
    ensures { result ≡ size_of header.now change }
{
    match change {
        Change::Priority { task, priority } => {
            Size::Priority(distance(priority, args_of(header, task).priority))
        }
        Change::Mask { task, mask } => {
            let own = args_of(header, task).mask;
            Size::Mask(cores_apart(header.config.cores, mask, own))
        }
        Change::Order { .. } => Size::Order,
    }
}

/// The best first.
pub(crate) fn sorted(mut entries: Vec<Ranked>) -> Result<Vec<Ranked>, AllocError>
    ensures moved { IfOk result (λ ranked. IsPermutation entries.items ranked.items) }
    ensures ordered { IfOk result (λ ranked. AreBestFirst ranked.items) }
{
    entries.sort()?;
    Ok(entries)
}
