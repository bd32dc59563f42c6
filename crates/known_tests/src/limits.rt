//! Limits that were told by hand.
use crate::sample::{A, B, DELAY, NOTIFY, TAKE, call, known, pass, session};
use bench_types::{CheckedSession, Edit, Step};
use kept_edits::KeptEdit;
use kept_runs::{KnownLimit, LimitReason};
use std::alloc::Global;
use std::process::Abort;
use std::test::Fail;

const fn limit(place: usize, task: u32, reason: LimitReason) -> Option<KnownLimit> {
    Some(KnownLimit {
        place,
        task,
        reason,
    })
}

/// A works for 4 units before each delay. B works for 6 units behind the first of them and for 2
/// behind the second: so for 8 before its own.
fn of_works(rt: &impl Abort, alloc: Global) -> Result<CheckedSession, Fail> {
    let steps = [
        pass(4),
        call(A, DELAY),
        pass(6),
        Step::Tick,
        pass(4),
        call(A, DELAY),
        pass(2),
        call(B, DELAY),
        pass(4),
        Step::Tick,
    ];
    session(rt, alloc, 1, &steps)
}

/// B is free to use core 1 alone, and makes its delay a tick earlier than it did. Behind that it
/// works on where it did nothing more.
#[test]
fn end_of_a_task(rt: HostRuntime) -> Result<(), Fail> {
    let session = of_works(&rt, rt.alloc())?;
    let change = Edit::ChangeTask {
        task: B,
        priority: 1,
        mask: 2,
    };
    let known = known(&rt, &rt, &session, &[KeptEdit::Plain(change)])?;
    assert_eq!(&rt; known, limit(12, B, LimitReason::End));
    Ok(())
}

/// A is not notified, and waits for a tick in vain.
#[test]
fn answer_that_is_no(rt: HostRuntime) -> Result<(), Fail> {
    let steps = [NOTIFY, TAKE, pass(10), Step::Tick, pass(5)];
    let session = session(&rt, rt.alloc(), 2, &steps)?;
    let remove = Edit::Remove { at: 0 };
    let known = known(&rt, &rt, &session, &[KeptEdit::Plain(remove)])?;
    assert_eq!(&rt;
        known,
        limit(6, A, LimitReason::Answer { affirmative: false })
    );
    Ok(())
}

/// A is notified while it waits: its call comes first, which no work goes before.
#[test]
fn answer_that_is_yes(rt: HostRuntime) -> Result<(), Fail> {
    let steps = [TAKE, pass(10), Step::Tick, pass(5)];
    let session = session(&rt, rt.alloc(), 2, &steps)?;
    let insert = Edit::Insert {
        at: 0,
        step: NOTIFY,
    };
    let known = known(&rt, &rt, &session, &[KeptEdit::Plain(insert)])?;
    assert_eq!(&rt;
        known,
        limit(5, A, LimitReason::Answer { affirmative: true })
    );
    Ok(())
}

/// Nobody knows what a call that an edit puts in was answered before, and A waits in vain as before
/// in its own.
#[test]
fn no_limit(rt: HostRuntime) -> Result<(), Fail> {
    let steps = [TAKE, pass(10), Step::Tick, pass(5)];
    let session = session(&rt, rt.alloc(), 2, &steps)?;
    let edits = [
        KeptEdit::Plain(Edit::Insert {
            at: 0,
            step: NOTIFY,
        }),
        KeptEdit::Plain(Edit::Insert { at: 0, step: TAKE }),
    ];
    let known = known(&rt, &rt, &session, &edits)?;
    assert_eq!(&rt; known, None);
    Ok(())
}
