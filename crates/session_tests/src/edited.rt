//! Sessions and edits of them. What they are after the edits was worked out by hand.
ghost use Rattle.std.specs.Prelude.{All, IsTrue};
ghost use Rattle.bench_types.specs.Edit.{IsCheckedEdit};

use crate::checked::{TICK, call, session_of_three, switch};
use bench_types::{Call, CheckedSession, Edit, EditFault, Header, Step};
use session_edits::{EditedSession, RefusedEdit};
use std::alloc::Global;
use std::process::Abort;
use std::test::Fail;

fn is_checked(header: &Header, edit: &Edit) -> bool
    ensures { IsTrue result → IsCheckedEdit header.now edit.now }
{
    edit.check(header).is_ok()
}

// Whether each edit fits the header.
fn are_checked(header: &Header, edits: &[Edit]) -> bool
    ensures { IsTrue result → All (IsCheckedEdit header.now) edits.now }
{
    edits.iter().all(|edit| is_checked(header, edit))
}

/// Each edit fits the header, or the test fails.
fn need_checked(rt: &impl Abort, header: &Header, edits: &[Edit])
    ensures { All (IsCheckedEdit header.now) edits.now }
{
    assert!(rt; are_checked(header, edits));
}

/// The session and edits of it.
pub(crate) fn edited_of(
    rt: &impl Abort,
    alloc: Global,
    session: CheckedSession,
    edits: &[Edit],
) -> Result<EditedSession, Fail> {
    need_checked(rt, session.header(), edits);
    Ok(EditedSession::make(alloc, session, Vec::from_slice(alloc, edits)?)?)
}

/// A yields, a tick comes, core 0 switches, and B yields.
fn steps() -> [Step; 4] {
    [
        call(0, 2, Call::Yield),
        TICK,
        switch(0),
        call(1, 3, Call::Yield),
    ]
}

/// A switch is put in, and A's call taken out; then the switch of core 0 is replaced by a tick. The
/// last step is the fourth by then, so no fifth is removed; and B gets other numbers.
fn edits() -> [Edit; 5] {
    [
        Edit::Insert {
            at: 1,
            step: switch(1),
        },
        Edit::Remove { at: 0 },
        Edit::Replace { at: 2, step: TICK },
        Edit::Remove { at: 4 },
        Edit::ChangeTask {
            task: 3,
            priority: 3,
            mask: 1,
        },
    ]
}

fn after() -> [Step; 4] {
    [switch(1), TICK, TICK, call(1, 3, Call::Yield)]
}

/// A step that is replaced stands where it stood.
const ORIGINS: [Option<u32>; 4] = [None, Some(1), Some(2), Some(3)];

const REFUSED: [RefusedEdit; 1] = [RefusedEdit {
    index: 3,
    steps: 4,
    why: EditFault::NoPlace,
}];

#[test]
fn each_kind_of_edit(rt: HostRuntime) -> Result<(), Fail> {
    let session = session_of_three(&rt, rt.alloc(), &steps())?;
    let edited = edited_of(&rt, rt.alloc(), session, &edits())?;
    assert_steps(&rt, edited.session(), &steps());
    assert_steps(&rt, edited.edited(), &after());
    assert_numbers(&rt, edited.session(), (1, 3));
    assert_numbers(&rt, edited.edited(), (3, 1));
    assert_told(&rt, &edited);
    let notes = edited.notes(rt.alloc())?;
    assert_eq!(&rt;
        notes.as_str(),
        "edit 3 refused J1: the session has 4 steps\n"
    );
    Ok(())
}

fn assert_steps(rt: &impl Abort, session: &CheckedSession, wanted: &[Step]) {
    assert_eq!(rt; session.steps(), wanted);
}

// The priority and the mask of B.
fn assert_numbers(rt: &impl Abort, session: &CheckedSession, wanted: (u32, u32)) {
    let numbers = match session.header().tasks.as_slice().get(1) {
        Some(task) => (task.priority, task.mask),
        None => (0, 0),
    };
    assert_eq!(rt; numbers, wanted);
}

fn assert_told(rt: &impl Abort, edited: &EditedSession) {
    assert_eq!(rt; edited.edits(), edits().as_slice());
    assert_eq!(rt; edited.origins(), ORIGINS.as_slice());
    assert_eq!(rt; edited.refused(), REFUSED.as_slice());
}

/// Without edits the session stands as it is.
#[test]
fn no_edits(rt: HostRuntime) -> Result<(), Fail> {
    let session = session_of_three(&rt, rt.alloc(), &steps())?;
    let edited = edited_of(&rt, rt.alloc(), session, &[])?;
    assert_steps(&rt, edited.edited(), &steps());
    assert_eq!(&rt; edited.refused().len(), 0);
    Ok(())
}
