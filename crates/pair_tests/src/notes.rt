//! What is told of edits that are refused.

use crate::kept::{TICK, need_fitting, session_of};
use bench_samples::three_tasks;
use bench_types::{Call, Edit, Step};
use kept_edits::{KeptEdit, WorkChange, plain_edits};
use kept_notes::{RefusedKept, kept_notes, refused_kept, refused_places};
use std::test::Fail;

const fn work(at: u32) -> KeptEdit {
    KeptEdit::Work {
        at,
        change: WorkChange::More(3),
    }
}

const fn call(call: Call) -> Step {
    Step::Call {
        core: 0,
        task: 2,
        call,
    }
}

fn edits() -> [KeptEdit; 7] {
    [
        KeptEdit::Plain(Edit::Remove { at: 9 }),
        work(1),
        KeptEdit::Plain(Edit::Remove { at: 1 }),
        work(1),
        work(7),
        KeptEdit::Plain(Edit::Replace {
            at: 0,
            step: call(Call::Finish),
        }),
        work(0),
    ]
}

const NOTES: &str = "edit 0 refused J1: the session has 3 steps
edit 1 refused J1: no call begins at step 1
edit 4 refused J1: no call begins at step 7
edit 6 refused J1: no call begins at step 0
";

/// A call begins at step 1 once the tick before it is removed, none does behind the last step, nor
/// where a `finish` stands.
#[test]
fn refused_edits_of_kept_work(rt: HostRuntime) -> Result<(), Fail> {
    let alloc = rt.alloc();
    let steps = [call(Call::Yield), TICK, call(Call::Delay(1))];
    let header = three_tasks(alloc, false)?;
    let session = session_of(&rt, header, Vec::from_slice(alloc, &steps)?)?;
    let edits = edits();
    let plain = plain_edits(alloc, &edits)?;
    need_fitting(&rt, session.header(), plain.as_slice());
    let refused = refused_kept(alloc, &session, &edits)?;
    let places = refused_places(alloc, refused.as_slice())?;
    assert_eq!(&rt; places.as_slice(), [0, 1, 4, 6].as_slice());
    assert_eq!(&rt;
        refused.as_slice()[3],
        RefusedKept::Work { index: 6, at: 0 }
    );
    assert_eq!(&rt; kept_notes(alloc, refused.as_slice())?.as_str(), NOTES);
    Ok(())
}
