//! The core affinity masks that are tried.
ghost use Rattle.std.specs.Prelude.{◌≡◌, ◌≤◌, ◌<◌, ◌^◌, ◌++◌, ◌∷◌, [], map, IfOk};
ghost use Rattle.std.specs.List.{range_with_len};
ghost use Rattle.list_orders.specs.Search.{numbers};
ghost use Rattle.ranked_changes.specs.Changes.{all_cores, each_mask, masks_of, single_masks};

use crate::Family;
use std::alloc::{AllocError, Global};

// The mask of all cores.
fn all_cores(cores: u32) -> u32
    requires { cores ≤ 32 }
    ensures { result ≡ all_cores cores }
{
    if cores < u32::BITS {
        (1 << cores) - 1
    } else {
        u32::MAX
    }
}

// Each mask of some core of a few.
fn few_masks(alloc: Global, cores: u32) -> Result<Vec<u32>, AllocError>
    requires { cores ≤ 4 }
    ensures { IfOk result (λ masks. masks.items ≡ range_with_len 1 (all_cores cores)) }
{
    let mut masks = Vec::new(alloc);
    for mask in 1..all_cores(cores) + 1 {
        masks.push(mask)?;
    }
    Ok(masks)
}

// The mask of the core alone.
fn single_mask(core: u32) -> u32
    requires { core < 32 }
    ensures { result ≡ 2 ^ core }
{
    1 << core
}

// The mask of each core alone.
fn single_masks(alloc: Global, cores: u32) -> Result<Vec<u32>, AllocError>
    requires { cores ≤ 32 }
    ensures { IfOk result (λ masks. masks.items ≡ single_masks cores) }
{
    let mut masks = Vec::new(alloc);
    for core in 0..cores {
        masks.push(single_mask(core))?;
    }
    Ok(masks)
}

// Of few cores each mask, of more that of each core alone and that of all.
fn each_mask(alloc: Global, cores: u32) -> Result<Vec<u32>, AllocError>
    requires { cores ≤ 32 }
    ensures { IfOk result (λ masks. masks.items ≡ each_mask cores) }
{
    if cores <= 4 {
        return few_masks(alloc, cores);
    }
    let mut masks = single_masks(alloc, cores)?;
    masks.push(all_cores(cores))?;
    Ok(masks)
}

/// The masks that the family tries, in order.
pub(crate) fn masks_of(alloc: Global, family: Family, cores: u32) -> Result<Vec<u32>, AllocError>
    requires { cores ≤ 32 }
    ensures { IfOk result (λ masks. masks.items ≡ masks_of family cores) }
{
    if family.mask {
        each_mask(alloc, cores)
    } else if family.pin {
        single_masks(alloc, cores)
    } else {
        Ok(Vec::new(alloc))
    }
}
