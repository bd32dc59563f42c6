//! Changes that are tried and ranked. Their order was worked out by hand.
ghost use Rattle.std.specs.Prelude.{◌<◌, ⊤};

use crate::settled::{TICK, call, session_of, switch};
use bench_samples::{PLAIN, crowd, three_tasks};
use bench_types::{Call, Header};
use ranked_changes::{Advice, Change, Family, Judge, Measure, Progress, Verdict, rank_changes};
use run_numbers::{Condition, Subject};
use run_sources::Source;
use std::process::Abort;
use std::test::Fail;
use std::thread::Threads;

/// How far the work was when it was told last, and how often it was told.
#[derive(Drop)]
struct Last {
    done: usize,
    all: usize,
    times: u32,
}

const NOT_YET: Last = Last {
    done: 0,
    all: 0,
    times: 0,
};

impl Progress for Last {
    ghost tells = { λ _ _ _ _. ⊤ };

    fn tell(&mut self, done: usize, all: usize) {
        self.done = done;
        self.all = all;
        self.times = self.times.saturating_add(1);
    }
}

/// Changes of priorities, by how many ticks core 1 has a user task.
fn advice<R: Threads + Abort + Sync>(
    rt: &R,
    host: &HostRuntime,
    last: &mut Last,
    header: Header,
) -> Result<Advice, Fail>
    requires { 1 < header.config.cores }
{
    let steps = [call(0, 2, Call::Delay(2)), switch(0), TICK, TICK, TICK];
    let session = session_of(rt, header, Vec::from_slice(host.alloc(), &steps)?)?;
    let source = Source::Session(session);
    let judge = Judge {
        subject: Subject::Time(Condition::Busy { core: 1 }),
        measure: Measure::Total,
    };
    let family = Family {
        priority: true,
        mask: false,
        pin: false,
        order: false,
    };
    Ok(rank_changes(rt, host, host.alloc(), last, &source, judge, family)?)
}

/// Core 1 is busy at each tick whatever the priorities, so the smaller change is the better one,
/// and of equals the first.
fn check_order<R: Threads + Abort + Sync>(rt: &R, host: &HostRuntime) -> Result<(), Fail> {
    let header = three_tasks(host.alloc(), false)?;
    let mut last = NOT_YET;
    let advice = advice(rt, host, &mut last, header)?;
    assert_eq!(rt; (last.done, last.all, last.times), (12, 12, 1));
    let changes = advice.changes.as_slice();
    assert_eq!(rt; changes.len(), 12);
    assert_eq!(rt;
        changes[1],
        Change::Priority {
            task: 2,
            priority: 1
        }
    );
    let order = [1, 2, 4, 5, 8, 9, 0, 3, 6, 10, 7, 11];
    for (place, entry) in advice.ranked.iter().enumerate() {
        assert_eq!(rt; entry.verdict, Verdict::Number(3));
        assert_eq!(rt; order.get(place).copied(), Some(entry.index));
    }
    Ok(())
}

/// More changes than are tried side by side: four other priorities of each of 20 tasks.
fn check_parts<R: Threads + Abort + Sync>(rt: &R, host: &HostRuntime) -> Result<(), Fail> {
    let header = crowd(host.alloc(), PLAIN, 20)?;
    let mut last = NOT_YET;
    let advice = advice(rt, host, &mut last, header)?;
    assert_eq!(rt; (last.done, last.all, last.times), (80, 80, 2));
    assert_eq!(rt; advice.ranked.len(), 80);
    Ok(())
}

#[test]
fn progress_is_printed_part_by_part(rt: HostRuntime) -> Result<(), Fail> {
    check_parts(&rt, &rt)
}

#[test]
fn priorities_by_their_distance(rt: HostRuntime) -> Result<(), Fail> {
    check_order(&rt, &rt)
}
