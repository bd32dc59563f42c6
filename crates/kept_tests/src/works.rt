//! Works that were told by hand.
use crate::sample::{A, B, DELAY, TICK, need_checked, pass, session};
use bench_types::{Call, Edit};
use kept_edits::{KeptEdit, WorkChange};
use kept_runs::{Clock, Outside, Unmade};
use kept_works::kept_works;
use settling::settle;
use smp_kernel::Meter;
use std::process::Abort;
use std::test::Fail;

fn of_call(task: u32, call: Call, units: u64) -> Unmade {
    Unmade {
        task,
        call: Some(call),
        work: Clock { units, later: 0 },
    }
}

fn end(task: u32, units: u64, later: u64) -> Unmade {
    Unmade {
        task,
        call: None,
        work: Clock { units, later },
    }
}

fn comes<R: Abort>(
    rt: &R,
    host: &HostRuntime,
    edits: &[KeptEdit],
    unmade: &[Unmade],
) -> Result<(), Fail> {
    let session = session(rt, host.alloc())?;
    need_checked(rt, session.header(), edits);
    let mut meter = Meter::new(host);
    let settled = settle(host.alloc(), &session, &mut meter)?;
    let works = kept_works(host.alloc(), &session, edits, &settled, &mut meter)?;
    assert_eq!(rt; works.unmade.as_slice(), unmade);
    assert_eq!(rt; works.outside.len(), 7);
    assert_eq!(rt;
        works.outside[0],
        Outside {
            step: pass(4),
            joined: false
        }
    );
    assert_eq!(rt;
        works.outside[2],
        Outside {
            step: TICK,
            joined: true
        }
    );
    Ok(())
}

/// At the end A is back on the core, and has not worked; B ran no more.
#[test]
fn works_of_calls(rt: HostRuntime) -> Result<(), Fail> {
    let unmade = [
        of_call(A, DELAY, 4),
        of_call(A, DELAY, 4),
        of_call(B, DELAY, 8),
        end(A, 0, 0),
        end(B, 0, 0),
    ];
    comes(&rt, &rt, &[], &unmade)
}

/// What A worked for its first delay goes to the second, which stands behind it, and more.
#[test]
fn work_of_a_removed_call(rt: HostRuntime) -> Result<(), Fail> {
    let edits = [
        KeptEdit::Plain(Edit::Remove { at: 1 }),
        KeptEdit::Work {
            at: 4,
            change: WorkChange::More(5),
        },
        KeptEdit::Work {
            at: 4,
            change: WorkChange::Fewer(2),
        },
    ];
    let unmade = [
        of_call(A, DELAY, 11),
        of_call(B, DELAY, 8),
        end(A, 0, 0),
        end(B, 0, 0),
    ];
    comes(&rt, &rt, &edits, &unmade)
}
