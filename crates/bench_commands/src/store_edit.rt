//! An edit of a store.
ghost use Rattle.std.specs.Prelude.{◌≡◌, IfOk, OnOk};
ghost use Rattle.session_store.specs.Outcomes.{after_edit, answer};

use bench_types::{Edit, EditFault};
use session_store::{KeptResults, Outcome, Store, StoreFault};
use smp_kernel::Meter;
use std::alloc::{AllocError, Global};

/// Makes an edit, and tells what it led to. One that is refused changes nothing.
pub(crate) fn answer_to_edit<K: KeptResults>(
    alloc: Global,
    meter: &mut Meter,
    store: &mut Store<K>,
    edit: Edit,
) -> Result<Result<Outcome, EditFault>, AllocError>
    ensures answer { IfOk result (λ given. given ≡ answer store.old edit) }
    ensures kept { OnOk result (store.new ≡ after_edit store.old edit) }
{
    match store.apply(alloc, edit, meter) {
        Ok(outcome) => Ok(Ok(outcome)),
        Err(StoreFault::Edit(why)) => Ok(Err(why)),
        Err(StoreFault::NoMemory) => Err(AllocError),
    }
}
