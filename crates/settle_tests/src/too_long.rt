//! Changes that are ranked where the settled runs of some have too many steps, and advice of them.
//! Their order and the text were worked out by hand.
use crate::settled::{TICK, session_of};
use bench_samples::{PLAIN, header_of};
use bench_types::{Config, Header};
use ranked_changes::{Advice, Family, Judge, Measure, Silent, Verdict, rank_changes};
use run_numbers::{Condition, Subject};
use run_sources::Source;
use session_advice::{AdviceStatus, Advised, Question, advise};
use smp_kernel::Meter;
use std::alloc::Global;
use std::process::Abort;
use std::test::Fail;
use std::thread::Threads;

/// A tick more than half of the steps that a run may have.
const TICKS: usize = 500_001;

/// The tasks 2, 3 and 4 on two cores, with time slices. The first two keep the cores, so none
/// switches.
fn slicing(alloc: Global) -> Result<Header, Fail> {
    let config = Config {
        priorities: 4,
        slicing: true,
        ..PLAIN
    };
    let header = header_of(alloc, config, &[("A", 2, 3), ("B", 1, 3), ("C", 0, 3)])?;
    Ok(header)
}

fn source(rt: &impl Abort, alloc: Global) -> Result<Source, Fail> {
    let session = session_of(rt, slicing(alloc)?, vec![in alloc; TICK; TICKS]?)?;
    Ok(Source::Settled(session))
}

const PRIORITIES: Family = Family {
    priority: true,
    mask: false,
    pin: false,
    order: false,
};

/// Changes of priorities, by how many ticks C runs.
fn advice<R: Threads + Abort + Sync>(
    rt: &R,
    host: &HostRuntime,
    source: &Source,
) -> Result<Advice, Fail> {
    assert!(rt; source.header().config.cores == 2);
    assert!(rt; source.header().tasks.as_slice().len() == 3);
    let judge = Judge {
        subject: Subject::Time(Condition::Running { task: 4 }),
        measure: Measure::Total,
    };
    Ok(rank_changes(
        rt,
        host,
        host.alloc(),
        &mut Silent,
        source,
        judge,
        PRIORITIES,
    )?)
}

/// The changes give A the priorities 0, 1 and 3, B 0, 2 and 3, and C 1, 2 and 3. Where A or B has
/// 3 both keep the cores, and where C has it A and C do. By each other change two tasks or more of
/// one priority are ready, and one of them at least is on a core, so a core is asked to switch at
/// each tick.
const RANKED: [(u32, Verdict); 9] = [
    (2, Verdict::Number(0)),
    (5, Verdict::Number(0)),
    (8, Verdict::Number(500_001)),
    (1, Verdict::TooLong),
    (3, Verdict::TooLong),
    (4, Verdict::TooLong),
    (6, Verdict::TooLong),
    (0, Verdict::TooLong),
    (7, Verdict::TooLong),
];

fn check_ranked(rt: &impl Abort, advice: &Advice) {
    assert_eq!(rt; advice.ranked.len(), 9);
    for (place, entry) in advice.ranked.iter().enumerate() {
        assert_eq!(rt;
            RANKED.get(place).copied(),
            Some((entry.index, entry.verdict))
        );
    }
}

#[test]
fn changes_that_make_the_run_too_long_come_last(rt: HostRuntime) -> Result<(), Fail> {
    let source = source(&rt, rt.alloc())?;
    let advice = advice(&rt, &rt, &source)?;
    check_ranked(&rt, &advice);
    Ok(())
}

/// Where A or B has priority 3 the tasks fare as before. Where C has it, it takes the core of B,
/// which then is ready at each tick. Of a run that is too long no costs are told.
const TOLD: &str = "C.run is 0; 9 changes tried
1. priority of A 3, was 2: 0 (0)
2. priority of B 3, was 1: 0 (0)
3. priority of C 3, was 0: 500001 (+500001)
   B.run 0 (-500001)
   B.ready 500001 (+500001)
   C.ready 0 (-500001)
4. priority of A 1, was 2: more than 1000000 steps
5. priority of B 0, was 1: more than 1000000 steps
6. priority of B 2, was 1: more than 1000000 steps
7. priority of C 1, was 0: more than 1000000 steps
8. priority of A 0, was 2: more than 1000000 steps
9. priority of C 2, was 0: more than 1000000 steps
";

fn advised<R: Threads + Abort + Sync>(
    rt: &R,
    host: &HostRuntime,
    source: &Source,
) -> Result<Advised, Fail> {
    let question = Question {
        name: String::from_str(host.alloc(), "C.run")?,
        family: PRIORITIES,
        best: 9,
    };
    Ok(advise(
        rt,
        host,
        host.alloc(),
        &mut Meter::new(host),
        &mut Silent,
        source,
        &question,
    )?)
}

#[test]
fn runs_that_are_too_long_are_told_as_such(rt: HostRuntime) -> Result<(), Fail> {
    let source = source(&rt, rt.alloc())?;
    let printed = advised(&rt, &rt, &source)?;
    assert_eq!(&rt; printed.status, AdviceStatus::Given);
    assert_eq!(&rt; printed.text.as_str(), TOLD);
    Ok(())
}
