//! How far advice is, as it is told: after each part of at most 64 changes, and at the end.
ghost use Rattle.std.specs.Prelude.{◌<◌, ⊤};

use crate::settled::{TICK, call, session_of, switch};
use bench_samples::{PLAIN, crowd};
use bench_types::{Call, Header};
use ranked_changes::{Family, Judge, Measure, Progress, rank_changes};
use run_numbers::{Condition, Subject};
use run_sources::Source;
use std::process::Abort;
use std::test::Fail;
use std::thread::Threads;

/// All that was told, in its order: how much was done, and of how much.
#[derive(Drop)]
struct Told {
    parts: Vec<(usize, usize)>,
}

impl Progress for Told {
    ghost tells = { λ _ _ _ _. ⊤ };

    fn tell(&mut self, done: usize, all: usize) {
        let _ = self.parts.push((done, all));
    }
}

/// How many tasks there are, and what is told: each task has four other priorities.
const TOLD: [(usize, &[(usize, usize)]); 6] = [
    (1, &[(4, 4)]),
    (16, &[(64, 64)]),
    (17, &[(64, 68), (68, 68)]),
    (20, &[(64, 80), (80, 80)]),
    (48, &[(64, 192), (128, 192), (192, 192)]),
    (
        126,
        &[
            (64, 504),
            (128, 504),
            (192, 504),
            (256, 504),
            (320, 504),
            (384, 504),
            (448, 504),
            (504, 504),
        ],
    ),
];

#[test]
fn each_part_is_told_once(rt: HostRuntime) -> Result<(), Fail> {
    for (tasks, wanted) in &TOLD {
        check_told(&rt, &rt, *tasks, wanted)?;
    }
    Ok(())
}

fn check_told<R: Threads + Abort + Sync>(
    rt: &R,
    host: &HostRuntime,
    tasks: usize,
    wanted: &[(usize, usize)],
) -> Result<(), Fail> {
    let header = crowd(host.alloc(), PLAIN, tasks)?;
    let mut told = Told {
        parts: Vec::new(host.alloc()),
    };
    let tried = tried(rt, host, &mut told, header)?;
    assert_eq!(rt; told.parts.as_slice(), wanted);
    assert_eq!(rt; wanted.last().copied(), Some((tried, tried)));
    Ok(())
}

/// How many changes of priorities are ranked, by how many ticks core 1 has a user task.
fn tried<R: Threads + Abort + Sync>(
    rt: &R,
    host: &HostRuntime,
    told: &mut Told,
    header: Header,
) -> Result<usize, Fail>
    requires { 1 < header.config.cores }
{
    let steps = [call(0, 2, Call::Delay(2)), switch(0), TICK];
    let session = session_of(rt, header, Vec::from_slice(host.alloc(), &steps)?)?;
    let source = Source::Session(session);
    let judge = Judge {
        subject: Subject::Time(Condition::Busy { core: 1 }),
        measure: Measure::Total,
    };
    let family = Family {
        priority: true,
        mask: false,
        pin: false,
        order: false,
    };
    let advice = rank_changes(rt, host, host.alloc(), told, &source, judge, family)?;
    Ok(advice.ranked.len())
}
