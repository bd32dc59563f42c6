//! Where each step stands before the edits.
ghost use Rattle.std.specs.Prelude.{◌≡◌, IfOk, OnOk, length};
ghost use Rattle.session_edits.specs.Origins.{all_kept, origins_after, HasPlaceAmong};

use bench_types::Edit;
use std::alloc::{AllocError, Global};

/// Each of so many steps stands where it stands.
pub fn all_kept(alloc: Global, count: u32) -> Result<Vec<Option<u32>>, AllocError>
    ensures { IfOk result (λ origins. origins.items ≡ all_kept count) }
{
    let mut origins = Vec::with_capacity(alloc, count as usize)?;
    for place in 0..count {
        origins.push(Some(place))?;
    }
    Ok(origins)
}

/// Moves the origins as the edit moves the steps.
pub fn edit_origins(origins: &mut Vec<Option<u32>>, edit: &Edit) -> Result<(), AllocError>
    requires { HasPlaceAmong (length origins.old.items) edit.now }
    ensures { OnOk result (origins.new.items ≡ origins_after edit.now origins.old.items) }
{
    match *edit {
        Edit::Insert { at, step: _step } => origins.insert(at as usize, None)?,
        Edit::Remove { at } => {
            origins.remove(at as usize);
        }
        Edit::Replace { .. } | Edit::ChangeTask { .. } => {}
    }
    Ok(())
}
