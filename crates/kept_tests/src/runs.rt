//! Runs that keep work, which were made by hand.
use crate::sample::{A, B, DELAY, TICK, call, edited, pass, steps, switch};
use bench_types::{Call, Edit, Step};
use kept_edits::{KeptEdit, WorkChange};
use kept_runs::{CallOrder, KnownLimit, LimitReason};
use kept_sessions::{kept_run, known_run};
use settled_runs::WaitingCall;
use smp_kernel::Meter;
use std::process::Abort;
use std::test::Fail;

fn makes<R: Abort>(
    rt: &R,
    host: &HostRuntime,
    edits: &[KeptEdit],
    steps: &[Step],
    left: &[WaitingCall],
) -> Result<(), Fail> {
    let made = edited(rt, host.alloc(), edits)?;
    let mut meter = Meter::new(host);
    let run = kept_run(host.alloc(), &made, CallOrder::Oldest, &mut meter)?;
    assert_eq!(rt; run.session().steps(), steps);
    assert_eq!(rt; run.left(), left);
    Ok(())
}

/// It is the settled run.
#[test]
fn without_edits(rt: HostRuntime) -> Result<(), Fail> {
    let run = [
        pass(4),
        call(0, A, DELAY),
        switch(0),
        pass(6),
        TICK,
        switch(0),
        call(0, A, Call::Finish),
        pass(4),
        call(0, A, DELAY),
        switch(0),
        pass(2),
        call(0, B, DELAY),
        switch(0),
        pass(4),
        TICK,
        switch(0),
        call(0, A, Call::Finish),
    ];
    makes(&rt, &rt, &[], &run, &[])
}

/// B is free to use core 1 alone. So it has worked for 8 units within the second pass, which is cut
/// there, and its delay comes a tick earlier than it did.
#[test]
fn with_a_core_alone(rt: HostRuntime) -> Result<(), Fail> {
    let change = Edit::ChangeTask {
        task: B,
        priority: 1,
        mask: 2,
    };
    let run = [
        pass(4),
        call(0, A, DELAY),
        switch(0),
        pass(4),
        call(1, B, DELAY),
        switch(1),
        pass(2),
        TICK,
        switch(0),
        switch(1),
        call(0, A, Call::Finish),
        call(1, B, Call::Finish),
        pass(4),
        call(0, A, DELAY),
        switch(0),
        pass(2),
        pass(4),
        TICK,
        switch(0),
        call(0, A, Call::Finish),
    ];
    makes(&rt, &rt, &[KeptEdit::Plain(change)], &run, &[])
}

/// A has no first delay. So it works for 4 units and for 4 more before the second, and B does not
/// come to its own.
#[test]
fn with_a_call_less(rt: HostRuntime) -> Result<(), Fail> {
    let run = [
        pass(4),
        pass(4),
        call(0, A, DELAY),
        switch(0),
        pass(2),
        TICK,
        switch(0),
        call(0, A, Call::Finish),
        pass(4),
        pass(2),
        pass(4),
        TICK,
    ];
    let left = [WaitingCall {
        task: B,
        call: DELAY,
    }];
    let remove = Edit::Remove { at: 1 };
    makes(&rt, &rt, &[KeptEdit::Plain(remove)], &run, &left)
}

/// A works for 3 units more before its second delay.
#[test]
fn with_more_work(rt: HostRuntime) -> Result<(), Fail> {
    let run = [
        pass(4),
        call(0, A, DELAY),
        switch(0),
        pass(6),
        TICK,
        switch(0),
        call(0, A, Call::Finish),
        pass(4),
        pass(2),
        pass(1),
        call(0, A, DELAY),
        switch(0),
        pass(2),
        call(0, B, DELAY),
        switch(0),
        pass(1),
        TICK,
        switch(0),
        call(0, A, Call::Finish),
    ];
    let work = KeptEdit::Work {
        at: 5,
        change: WorkChange::More(3),
    };
    makes(&rt, &rt, &[work], &run, &[])
}

/// What B does behind its delay is not known, which comes earlier than it did.
#[test]
fn known_until_a_task_goes_on(rt: HostRuntime) -> Result<(), Fail> {
    let change = KeptEdit::Plain(Edit::ChangeTask {
        task: B,
        priority: 1,
        mask: 2,
    });
    let mut meter = Meter::new(&rt);
    let made = edited(&rt, rt.alloc(), &[change])?;
    let known = known_run(rt.alloc(), &made, CallOrder::Oldest, &mut meter)?;
    let limit = KnownLimit {
        place: 12,
        task: B,
        reason: LimitReason::End,
    };
    assert_eq!(&rt; known.limit, Some(limit));
    let unedited = edited(&rt, rt.alloc(), &[])?;
    let known = known_run(rt.alloc(), &unedited, CallOrder::Oldest, &mut meter)?;
    assert_eq!(&rt; known.limit, None);
    assert_eq!(&rt; known.run.session().steps().len(), 17);
    Ok(())
}

/// The session and its edits stand as they were given, and a copy is the same.
#[test]
fn what_is_kept(rt: HostRuntime) -> Result<(), Fail> {
    let edits = [KeptEdit::Plain(Edit::Remove { at: 1 })];
    let made = edited(&rt, rt.alloc(), &edits)?;
    assert_eq!(&rt; made.session().steps(), steps().as_slice());
    assert_eq!(&rt; made.edited().steps().len(), 9);
    assert_eq!(&rt; made.edited().steps().get(1).copied(), Some(pass(6)));
    assert_eq!(&rt; made.edits(), edits.as_slice());
    let copy = made.copy(rt.alloc())?;
    assert_eq!(&rt; copy.edits(), edits.as_slice());
    Ok(())
}
