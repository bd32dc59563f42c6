//! Which documents are workloads.
ghost use Rattle.std.specs.Prelude.{◌≡◌, IfOk};
ghost use Rattle.json_data.specs.View.{view};
ghost use Rattle.workload_text.specs.Documents.{has_member, is_workload, is_workload_text};

use json_data::{Item, Scratch};
use session_text::{Why, document};
use std::alloc::{AllocError, Global};

fn has_member(value: &Item<'_, '_>, name: &str) -> bool
    ensures { result ≡ has_member name.now (view value.now) }
{
    value.get(name).is_some()
}

fn is_workload(value: &Item<'_, '_>) -> bool
    ensures { result ≡ is_workload (view value.now) }
{
    if has_member(value, "workload") {
        return true;
    }
    has_member(value, "ticks") && !has_member(value, "session") && !has_member(value, "steps")
}

/// Whether the document is to be read as a workload: an object with `workload`, or one with `ticks`
/// and neither `session` nor `steps`. A text that is no JSON is none.
pub fn is_workload_text(alloc: Global, text: &[u8]) -> Result<bool, AllocError>
    ensures { IfOk result (λ is. is ≡ is_workload_text text.now) }
{
    let mut scratch = Scratch::new(alloc);
    match document(alloc, text, &mut scratch) {
        Ok(document) => Ok(is_workload(&document.root())),
        Err(fault) => match fault.why {
            Why::NoMemory => Err(AllocError),
            Why::NotJson | Why::BadShape | Why::Bench(_) => Ok(false),
        },
    }
}
