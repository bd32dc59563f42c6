//! Advice in words. A program that was written apart from this one made the texts.
use crate::settled::{TICK, call, session_of};
use bench_samples::three_tasks;
use bench_types::Call;
use ranked_changes::{Family, Silent};
use run_sources::Source;
use session_advice::{AdviceStatus, Advised, Question, advise};
use smp_kernel::Meter;
use std::process::Abort;
use std::test::Fail;
use std::thread::Threads;

/// Advice on priorities: A waits for two ticks, and then has a core for two more.
fn advised<R: Threads + Abort + Sync>(
    rt: &R,
    host: &HostRuntime,
    name: &str,
    best: u32,
) -> Result<Advised, Fail> {
    let alloc = host.alloc();
    let steps = [call(0, 2, Call::Delay(2)), TICK, TICK, TICK, TICK];
    let header = three_tasks(alloc, false)?;
    let source = Source::Settled(session_of(rt, header, Vec::from_slice(alloc, &steps)?)?);
    let question = Question {
        name: String::from_str(alloc, name)?,
        family: Family {
            priority: true,
            mask: false,
            pin: false,
            order: false,
        },
        best,
    };
    Ok(advise(
        rt,
        host,
        alloc,
        &mut Meter::new(host),
        &mut Silent,
        &source,
        &question,
    )?)
}

const BEST: &str = "B.ready is 2; 12 changes tried
1. priority of A 1, was 2: 0 (-2)
   A.run 0 (-2)
   A.ready 2 (+2)
   B.run 4 (+2)
2. priority of B 2, was 1: 0 (-2)
   B.run 4 (+2)
   C.run 2 (-2)
   C.ready 2 (+2)
";

#[test]
fn best_changes_and_their_costs(rt: HostRuntime) -> Result<(), Fail> {
    let printed = advised(&rt, &rt, "B.ready", 2)?;
    assert_eq!(&rt; printed.status, AdviceStatus::Given);
    assert_eq!(&rt; printed.text.as_str(), BEST);
    Ok(())
}

#[test]
fn none_of_the_best(rt: HostRuntime) -> Result<(), Fail> {
    let printed = advised(&rt, &rt, "B.ready", 0)?;
    assert_eq!(&rt; printed.text.as_str(), "B.ready is 2; 12 changes tried\n");
    Ok(())
}

#[test]
fn advice_on_no_number(rt: HostRuntime) -> Result<(), Fail> {
    let printed = advised(&rt, &rt, "B.blocked", 2)?;
    assert_eq!(&rt; printed.status, AdviceStatus::Unknown);
    let text = "no number is called B.blocked; these are:\nA.run\nA.run.longest\n";
    assert!(&rt; printed.text.starts_with(text));
    Ok(())
}
