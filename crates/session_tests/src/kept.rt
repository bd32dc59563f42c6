//! Edits of the work of calls.
use bench_types::{Edit, Step};
use kept_edits::{KeptEdit, WorkChange, plain_edits};
use std::test::Fail;

#[test]
fn edits_of_the_session(rt: HostRuntime) -> Result<(), Fail> {
    let first = Edit::Insert {
        at: 2,
        step: Step::Tick,
    };
    let last = Edit::Remove { at: 0 };
    let work = KeptEdit::Work {
        at: 1,
        change: WorkChange::More(300),
    };
    assert_eq!(&rt; work.plain(), None);
    let edits = [KeptEdit::Plain(first), work, KeptEdit::Plain(last)];
    let plain = plain_edits(rt.alloc(), &edits)?;
    assert_eq!(&rt; plain.as_slice(), [first, last].as_slice());
    Ok(())
}
