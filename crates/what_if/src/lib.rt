//! Many candidate edits of one session, tried side by side.
#![tactic(auto)]

ghost use Rattle.std.specs.Prelude.{IfOk, IfSome};
ghost use Rattle.std.specs.List.{AllZip};
ghost use Rattle.session_store.specs.Sums.{AreSumsOf};
ghost use Rattle.session_store.specs.Trials.{IsTried};

use bench_types::Edit;
use rayon::prelude::*;
use session_store::{Outcome, Store, StoreFault};
use smp_kernel::Meter;
use std::alloc::{AllocError, Global};
use std::thread::Threads;
use tallies::Tallies;

/// For each edit, in order, what [`Store::trial`] gives for it alone: none of them builds upon
/// another, and the store stays as it is. The work is split among as many threads as there are
/// processors, and a thread that can't be started leaves its part to the one that would have.
///
/// What many trials add up is added once before them, where there is memory for the sums.
///
/// Where memory is refused to one trial, its entry is [`StoreFault::NoMemory`]. It is an error only
/// where the list of entries finds no room.
pub fn try_all<R: Threads + Sync>(
    rt: &R,
    host: &HostRuntime,
    alloc: Global,
    store: &Store,
    edits: &[Edit],
) -> Result<Vec<Result<(Outcome, Tallies), StoreFault>>, AllocError>
    ensures { IfOk result (λ tried. AllZip (IsTried store.now) edits.now tried.items) }
{
    let sums = store.sums(alloc).ok();
    edits
        .par_iter()
        .map(
            |edit: &Edit| -> Result<(Outcome, Tallies), StoreFault>
                requires { IfSome sums (AreSumsOf store.now) }
                ensures { IsTried store.entry.now edit.now result }
            { store.trial_with(alloc, sums.as_ref(), *edit, &mut Meter::new(host)) },
        )
        .with_min_len(1)
        .collect(rt, alloc)
}
