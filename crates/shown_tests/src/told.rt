//! What is told of one run and of two. What is wanted of a settled run is what `scripts/settle.py`
//! makes of it.

use bench_types::{CheckedSession, Items};
use program_io::{Output, OutputStatus};
use ranked_changes::Silent;
use report_figures::Bound;
use run_comparisons::RunPair;
use run_pictures::{Axis, Extent};
use run_views::Places;
use session_reports::{Form, Wanted};
use session_runs::Run;
use session_text::read_session;
use settling::settle;
use shown_runs::{Ask, Course, Making, Selection, Shown, told};
use smp_kernel::Meter;
use std::alloc::Global;
use std::process::Abort;
use std::test::Fail;

/// A logger has a mutex that a control loop waits for, and delays itself, so that two calls of the
/// control loop and one of its own are not made.
const LEFT_CALLS: &str = "\
    {\"format\": 1, \"cores\": 2, \"priorities\": 4, \"slicing\": false, \"tick\": 0, \
    \"mutexes\": 1, \"tasks\": [{\"name\": \"control\", \"priority\": 3, \"mask\": 1}, \
    {\"name\": \"logger\", \"priority\": 1, \"mask\": 2}, {\"name\": \"spare\", \"priority\": 0, \
    \"mask\": 3}], \"steps\": [{\"do\": \"mutex_take\", \"core\": 1, \"by\": \"logger\", \
    \"mutex\": 0, \"ticks\": 0}, {\"do\": \"mutex_take\", \"core\": 0, \"by\": \"control\", \
    \"mutex\": 0, \"ticks\": 5}, {\"do\": \"yield\", \"core\": 0, \"by\": \"control\"}, \
    {\"do\": \"tick\"}, {\"do\": \"delay\", \"core\": 1, \"by\": \"logger\", \"ticks\": 9}, \
    {\"do\": \"yield\", \"core\": 0, \"by\": \"control\"}, {\"do\": \"mutex_give\", \"core\": 1, \
    \"by\": \"logger\", \"mutex\": 0}]}";

/// Its settled run.
const SETTLED: &str = "\
    {\"cores\":2,\"format\":1,\"mutexes\":1,\"priorities\":4,\"slicing\":false,\
    \"steps\":[{\"by\":\"logger\",\"core\":1,\"do\":\"mutex_take\",\"mutex\":0,\"ticks\":0},\
    {\"by\":\"control\",\"core\":0,\"do\":\"mutex_take\",\"mutex\":0,\"ticks\":5},{\"core\":0,\
    \"do\":\"switch\"},{\"do\":\"tick\"},{\"by\":\"logger\",\"core\":1,\"do\":\"delay\",\
    \"ticks\":9},{\"core\":1,\"do\":\"switch\"}],\"tasks\":[{\"mask\":1,\"name\":\"control\",\
    \"priority\":3},{\"mask\":2,\"name\":\"logger\",\"priority\":1},{\"mask\":3,\
    \"name\":\"spare\",\"priority\":0}],\"tick\":0}\n";

/// The last place of that run.
const LAST: &str = "place 6, tick 1; core 0 spare; core 1 IDLE0\n";

const LEFT: &str = "not made: control 2, logger 1\n";

const SAME: &str = "no step differs
not made before: control 2, logger 1
not made after: control 2, logger 1
";

const WHOLE: Extent = Extent {
    places: Places { from: 0, to: 99 },
    axis: Axis::Places,
};

fn session_in(alloc: Global, document: &str) -> Result<CheckedSession, Fail> {
    let (header, steps) = read_session(alloc, document.as_bytes())?;
    match CheckedSession::new(header, steps) {
        Some(session) => Ok(session),
        None => Err(Fail::from("more steps than a session may have")),
    }
}

// The settled run of `LEFT_CALLS`.
fn settled_run(alloc: Global, meter: &mut Meter) -> Result<Run, Fail> {
    Ok(settle(alloc, &session_in(alloc, LEFT_CALLS)?, meter)?)
}

fn one(alloc: Global, host: &HostRuntime) -> Result<Shown, Fail> {
    Ok(Shown::One(settled_run(alloc, &mut Meter::new(host))?))
}

// The same run twice.
fn two(alloc: Global, host: &HostRuntime) -> Result<Shown, Fail> {
    let mut meter = Meter::new(host);
    let before = settled_run(alloc, &mut meter)?;
    let after = settled_run(alloc, &mut meter)?;
    Ok(Shown::Two(RunPair::of_simulated(alloc, before, after)?))
}

fn answer(host: &HostRuntime, shown: &Shown, making: Making, ask: &Ask) -> Result<Output, Fail> {
    let mut silent = Silent;
    let mut course = Course::new(&mut silent, false, ask.parts(shown.is_two()));
    let mut meter = Meter::new(host);
    Ok(told(&mut course, host.alloc(), &mut meter, shown, making, ask)?)
}

fn text_of(bytes: &[u8]) -> &str {
    std::str::from_utf8(bytes).unwrap_or("")
}

fn expect(rt: &impl Abort, output: &Output, text: &str, note: &str) {
    assert_eq!(rt; output.status, OutputStatus::Fine);
    assert_eq!(rt; text_of(output.text.as_slice()), text);
    assert_eq!(rt; text_of(output.note.as_slice()), note);
}

fn expect_part(rt: &impl Abort, output: &Output, part: &str) {
    assert_eq!(rt; output.status, OutputStatus::Fine);
    assert!(rt; text_of(output.text.as_slice()).contains(part));
}

#[test]
fn a_run_as_a_document_and_as_a_trace(rt: HostRuntime) -> Result<(), Fail> {
    let alloc = rt.alloc();
    let shown = one(alloc, &rt)?;
    let document = answer(&rt, &shown, Making::Settled, &Ask::Session)?;
    expect(&rt, &document, SETTLED, LEFT);
    let last = Ask::Trace(Selection {
        places: Places { from: 6, to: 6 },
        tasks: Vec::new(alloc),
        cores: Vec::new(alloc),
    });
    let trace = answer(&rt, &shown, Making::Settled, &last)?;
    expect(&rt, &trace, LAST, LEFT);
    Ok(())
}

#[test]
fn a_trace_of_an_unknown_task(rt: HostRuntime) -> Result<(), Fail> {
    let alloc = rt.alloc();
    let mut tasks = Vec::new(alloc);
    tasks.push(String::from_str(alloc, "nobody")?)?;
    let ask = Ask::Trace(Selection {
        places: WHOLE.places,
        tasks,
        cores: Vec::new(alloc),
    });
    let output = answer(&rt, &one(alloc, &rt)?, Making::Settled, &ask)?;
    assert_eq!(rt; output.status, OutputStatus::Failed);
    assert_eq!(rt; text_of(output.note.as_slice()), "refused task nobody\n");
    Ok(())
}

/// A run stands beside itself as two that are the same stand beside each other.
#[test]
fn comparisons(rt: HostRuntime) -> Result<(), Fail> {
    let alloc = rt.alloc();
    let alone = answer(&rt, &one(alloc, &rt)?, Making::Settled, &Ask::Compare)?;
    expect_part(&rt, &alone, SAME);
    let both = answer(&rt, &two(alloc, &rt)?, Making::Settled, &Ask::Compare)?;
    expect(&rt, &both, text_of(alone.text.as_slice()), "");
    Ok(())
}

#[test]
fn pictures(rt: HostRuntime) -> Result<(), Fail> {
    let alloc = rt.alloc();
    let ask = Ask::Timeline(WHOLE);
    let alone = answer(&rt, &one(alloc, &rt)?, Making::Settled, &ask)?;
    expect_part(&rt, &alone, "</svg>\n");
    assert_eq!(rt; text_of(alone.note.as_slice()), LEFT);
    let both = answer(&rt, &two(alloc, &rt)?, Making::Simulated, &ask)?;
    expect_part(&rt, &both, ">before the edits</text>");
    Ok(())
}

#[test]
fn reports_and_limits(rt: HostRuntime) -> Result<(), Fail> {
    let alloc = rt.alloc();
    let shown = one(alloc, &rt)?;
    let report = answer(&rt, &shown, Making::Settled, &Ask::Report(Form::Table))?;
    expect_part(&rt, &report, "number");
    let mut wanted = Vec::new(alloc);
    wanted.push(Wanted {
        name: String::from_str(alloc, "nothing")?,
        bound: Bound::AtMost(1),
    })?;
    let check = answer(
        &rt,
        &shown,
        Making::Settled,
        &Ask::Check(Items::new(wanted)),
    )?;
    assert_eq!(rt; check.status, OutputStatus::Unknown);
    let names = text_of(check.note.as_slice());
    assert!(rt; names.contains("no number is called nothing; these are:\n"));
    Ok(())
}

/// The first word of a title says how the run was made.
#[test]
fn pages(rt: HostRuntime) -> Result<(), Fail> {
    let alloc = rt.alloc();
    let (shown, ask) = (one(alloc, &rt)?, Ask::Page(WHOLE));
    let plain = answer(&rt, &shown, Making::AsWritten, &ask)?;
    expect_part(
        &rt,
        &plain,
        "<title>Run of 6 steps: cores 2, tasks 3</title>",
    );
    let settled = answer(&rt, &shown, Making::Settled, &ask)?;
    expect_part(
        &rt,
        &settled,
        "<title>Settled run of 6 steps: cores 2, tasks 3</title>",
    );
    let both = answer(&rt, &two(alloc, &rt)?, Making::Simulated, &ask)?;
    expect_part(
        &rt,
        &both,
        "<title>Simulated run of 6 steps: cores 2, tasks 3</title>",
    );
    expect_part(&rt, &both, SAME);
    Ok(())
}
