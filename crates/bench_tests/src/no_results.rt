//! A store that keeps nothing of its replay until its edits are made.
use crate::samples::{
    A_DELAYS, SWITCH_0, assert_edit, assert_replay, assert_same, between, three_tasks,
};
use crate::store_edits::A_YIELDS;
use Reply::Done;
use bench_types::{Edit, EditFault, Reply, Step};
use session_store::{NoResults, Store, StoreFault};
use smp_kernel::Meter;
use std::alloc::Global;
use std::process::Abort;
use std::test::Fail;

/// Each with the places between which it is replayed. A yields in place of its delay, so that the
/// session differs to its end.
const EDITS: [(Edit, u32, u32); 2] = [
    (
        Edit::Replace {
            at: 0,
            step: A_YIELDS,
        },
        0,
        3,
    ),
    (
        Edit::Insert {
            at: 3,
            step: Step::Tick,
        },
        2,
        4,
    ),
];

#[test]
fn edits_before_the_replay(rt: HostRuntime) -> Result<(), Fail> {
    let header = three_tasks(rt.alloc(), 2, false)?;
    let steps = Vec::from_slice(rt.alloc(), &[A_DELAYS, SWITCH_0, Step::Tick])?;
    let mut meter = Meter::new(&rt);
    let mut store = Store::<NoResults>::open(rt.alloc(), header, steps, 2, &mut meter)?;
    make_all(&rt, rt.alloc(), &mut store, &mut meter);
    assert_same(&rt, "steps", &meter.count(), &8);
    let store = store.with_results(rt.alloc(), &mut meter)?;
    assert_same(&rt, "steps", &meter.count(), &12);
    assert_replay(&rt, &store, &[Done, Done, Done, Done], [2, 3]);
    Ok(())
}

// The edits, and one at no place.
fn make_all(rt: &impl Abort, alloc: Global, store: &mut Store<NoResults>, meter: &mut Meter) {
    for (edit, from, met) in &EDITS {
        let answer = store.apply(alloc, *edit, meter);
        assert_edit(rt, *edit, &answer, &Ok(between(*from, *met)));
    }
    let late = Edit::Remove { at: 4 };
    let answer = store.apply(alloc, late, meter);
    let no_place = StoreFault::Edit(EditFault::NoPlace);
    assert_edit(rt, late, &answer, &Err(no_place));
}
