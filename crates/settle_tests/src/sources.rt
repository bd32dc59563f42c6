//! Runs of sources, reports of them, and advice on a workload. Each was worked out by hand.
use crate::settled::{TICK, call, session_of, switch};
use bench_samples::{PLAIN, header_of, three_tasks};
use bench_types::{Call, Config, Header, Items, Step};
use ranked_changes::{Change, Family, Silent, changes_of};
use run_sources::{RunFault, Source, make_run};
use session_advice::{Advised, Question, advise};
use session_reports::{Form, report_of_run, report_of_runs};
use session_runs::Run;
use smp_kernel::Meter;
use std::alloc::Global;
use std::process::Abort;
use std::test::Fail;
use std::thread::Threads;
use task_programs::{CheckedWorkload, Instruction, Program, ProgramCall, Workload, WorkloadFlaw};

/// Three ticks of 10 units. A has this mask, B may run on core 0 alone, and comes first.
fn header(alloc: Global, mask: u32) -> Result<Header, Fail> {
    let config = Config { units: 10, ..PLAIN };
    let header = header_of(alloc, config, &[("A", 1, mask), ("B", 2, 1)])?;
    Ok(Header {
        queues: Some(Items::new(Vec::new(alloc))),
        ..header
    })
}

fn program(alloc: Global, instructions: &[Instruction]) -> Result<Program, Fail> {
    Ok(Items::new(Vec::from_slice(alloc, instructions)?))
}

/// The workload of two programs, or its first flaw.
fn workload(
    alloc: Global,
    mask: u32,
    first: &[Instruction],
    second: &[Instruction],
) -> Result<Result<CheckedWorkload, WorkloadFlaw>, Fail> {
    let programs = [program(alloc, first)?, program(alloc, second)?];
    Ok(CheckedWorkload::new(Workload {
        header: header(alloc, mask)?,
        programs: Items::new(Vec::from_array(alloc, programs)?),
        interrupts: Items::new(Vec::new(alloc)),
        ticks: 3,
    }))
}

fn source(
    alloc: Global,
    mask: u32,
    first: &[Instruction],
    second: &[Instruction],
) -> Result<Source, Fail> {
    match workload(alloc, mask, first, second)? {
        Ok(workload) => Ok(Source::Workload(workload)),
        Err(_) => Err(Fail::from("a workload with a flaw")),
    }
}

const fn work(units: u32) -> [Instruction; 1] {
    [Instruction::Work { units, end: 1 }]
}

/// A, which has this mask, works for 15 units, and B for 5.
fn works_on(alloc: Global, mask: u32) -> Result<Source, Fail> {
    source(alloc, mask, &work(15), &work(5))
}

/// The same on one core.
fn works(alloc: Global) -> Result<Source, Fail> {
    works_on(alloc, 1)
}

fn pass(units: u32) -> Step {
    Step::Pass { units }
}

/// A tick comes as soon as its units have gone by, so A suspends itself behind the second one.
fn run_of_works() -> [Step; 11] {
    let (a, b) = (2, 3);
    [
        pass(5),
        call(0, b, Call::Suspend(b)),
        switch(0),
        pass(5),
        TICK,
        pass(10),
        TICK,
        call(0, a, Call::Suspend(a)),
        switch(0),
        pass(10),
        TICK,
    ]
}

#[test]
fn run_of_a_workload(rt: HostRuntime) -> Result<(), Fail> {
    let alloc = rt.alloc();
    let mut meter = Meter::new(&rt);
    let run = make_run(alloc, &works(alloc)?, &mut meter)?;
    assert_eq!(&rt; run.session().steps(), run_of_works().as_slice());
    assert_eq!(&rt; run.left().len(), 0);
    assert_eq!(&rt; meter.count(), 22);
    Ok(())
}

/// A yields the core to itself for ever.
const YIELDS: [Instruction; 3] = [
    Instruction::Enter {
        rounds: None,
        end: 3,
    },
    Instruction::Call {
        call: ProgramCall::Made(Call::Yield),
        otherwise: 2,
        end: 2,
    },
    Instruction::Again { body: 1 },
];

#[test]
fn workload_that_is_too_long(rt: HostRuntime) -> Result<(), Fail> {
    let alloc = rt.alloc();
    let source = source(alloc, 1, &YIELDS, &work(5))?;
    let fault = make_run(alloc, &source, &mut Meter::new(&rt)).err();
    assert_eq!(&rt; fault, Some(RunFault::SimulatedTooLong { caller: Some(2) }));
    Ok(())
}

/// A waits for two ticks and takes no core later; B and C keep theirs.
fn waits(rt: &impl Abort, alloc: Global, settled: bool) -> Result<Source, Fail> {
    let steps = [call(0, 2, Call::Delay(2)), TICK, TICK];
    let session = session_of(
        rt,
        three_tasks(alloc, false)?,
        Vec::from_slice(alloc, &steps)?,
    )?;
    Ok(if settled {
        Source::Settled(session)
    } else {
        Source::Session(session)
    })
}

fn made(host: &HostRuntime, source: &Source) -> Result<Run, Fail> {
    Ok(make_run(host.alloc(), source, &mut Meter::new(host))?)
}

#[test]
fn runs_of_a_session(rt: HostRuntime) -> Result<(), Fail> {
    let alloc = rt.alloc();
    let plain = made(&rt, &waits(&rt, alloc, false)?)?;
    let steps = [call(0, 2, Call::Delay(2)), TICK, TICK];
    assert_eq!(&rt; plain.session().steps(), steps.as_slice());
    let settled = made(&rt, &waits(&rt, alloc, true)?)?;
    let steps = [call(0, 2, Call::Delay(2)), switch(0), TICK, TICK];
    assert!(&rt; settled.session().steps().starts_with(&steps));
    Ok(())
}

#[test]
fn reports_of_runs(rt: HostRuntime) -> Result<(), Fail> {
    let alloc = rt.alloc();
    let mut meter = Meter::new(&rt);
    let run = made(&rt, &works(alloc)?)?;
    let table = report_of_run(alloc, &mut meter, &run, false, Form::Table)?;
    assert!(&rt; table.contains("\n         5 A.ready\n"), "{table}");
    let after = made(&rt, &works_on(alloc, 2)?)?;
    let table = report_of_runs(alloc, &mut meter, &run, &after, false, Form::Table)?;
    assert!(&rt;
        table.contains("\n         5          0         -5 A.ready\n"),
        "{table}"
    );
    Ok(())
}

const ALL: Family = Family {
    priority: true,
    mask: false,
    pin: true,
    order: true,
};

/// Each task has four other priorities, and one other core. No calls of a workload are exchanged.
#[test]
fn changes_of_a_workload(rt: HostRuntime) -> Result<(), Fail> {
    let alloc = rt.alloc();
    let changes = changes_of(alloc, &works(alloc)?, ALL)?;
    assert_eq!(&rt; changes.len(), 10);
    let pinned = [
        Change::Mask { task: 2, mask: 2 },
        Change::Mask { task: 3, mask: 2 },
    ];
    assert_eq!(&rt; &changes.as_slice()[8..], pinned.as_slice());
    Ok(())
}

/// A and B are on both cores by their masks, so each may be pinned to each.
#[test]
fn changes_that_pin(rt: HostRuntime) -> Result<(), Fail> {
    let alloc = rt.alloc();
    let pin = Family {
        priority: false,
        order: false,
        ..ALL
    };
    let changes = changes_of(alloc, &waits(&rt, alloc, false)?, pin)?;
    let wanted = [(2, 1), (2, 2), (3, 1), (3, 2), (4, 1), (4, 2)];
    assert_eq!(&rt; changes.len(), wanted.len());
    for (change, (task, mask)) in changes.iter().zip(wanted) {
        assert_eq!(&rt; *change, Change::Mask { task, mask });
    }
    Ok(())
}

fn advised<R: Threads + Abort + Sync>(
    rt: &R,
    host: &HostRuntime,
    source: &Source,
) -> Result<Advised, Fail> {
    let alloc = host.alloc();
    let question = Question {
        name: String::from_str(alloc, "A.ready")?,
        family: Family {
            priority: false,
            ..ALL
        },
        best: 2,
    };
    let mut meter = Meter::new(host);
    Ok(advise(rt, host, alloc, &mut meter, &mut Silent, source, &question)?)
}

/// Where one of the two is pinned to core 1 none waits for the other.
#[test]
fn advice_on_a_workload(rt: HostRuntime) -> Result<(), Fail> {
    let advised = advised(&rt, &rt, &works(rt.alloc())?)?;
    assert_eq!(&rt; advised.text.as_str(), ADVICE);
    Ok(())
}

const ADVICE: &str = "A.ready is 5 units; 2 changes tried
1. mask of A 2, was 1: 0 (-5)
2. mask of B 2, was 1: 0 (-5)
";
