//! Loads of a run and responses of its tasks, as a text and as bars of HTML. Each was counted by
//! hand.
//!
//! Of eight ticks A has core 0 for one, and from tick 4 on core 1; B has core 1 until then, and C
//! has core 0 from tick 1 on. The responses of A take 1, 4 and 2 ticks.
use crate::numbers::session_of_jobs;
use core_loads::{push_load_table, share, times_of_idle, times_of_task, total};
use report_figures::Figure;
use report_pages::{push_load_bars, push_response_bars};
use run_numbers::measure_all;
use session_reports::figures_of_run;
use session_runs::Run;
use smp_kernel::Meter;
use std::process::Abort;
use std::test::Fail;
use task_jobs::Histogram;

const TABLE: &str = "
    core 0     core 1        all load
     12.5%      50.0%      62.5% A
      0.0%      50.0%      50.0% B
     87.5%       0.0%      87.5% C
      0.0%       0.0%       0.0% idle
";

const BARS: &str = "<table class='bars'>
<caption>load</caption>
<tr><th scope='col'>core 0</th><th scope='col'>core 1</th><th scope='col'>all</th><td></td></tr>
<tr><td><meter max='1000' value='125'></meter> 12.5%</td>\
<td><meter max='1000' value='500'></meter> 50.0%</td><td>62.5%</td><th scope='row'>A</th></tr>
<tr><td><meter max='1000' value='0'></meter> 0.0%</td>\
<td><meter max='1000' value='500'></meter> 50.0%</td><td>50.0%</td><th scope='row'>B</th></tr>
<tr><td><meter max='1000' value='875'></meter> 87.5%</td>\
<td><meter max='1000' value='0'></meter> 0.0%</td><td>87.5%</td><th scope='row'>C</th></tr>
<tr><td><meter max='1000' value='0'></meter> 0.0%</td>\
<td><meter max='1000' value='0'></meter> 0.0%</td><td>0.0%</td><th scope='row'>idle</th></tr>
</table>
";

const RESPONSES: &str = "<table class='bars'>
<caption>A: response, jobs that ended: 3</caption>
<tr><th scope='row'>1 to 1</th><td><meter max='3' value='1'></meter> 1</td></tr>
<tr><th scope='row'>2 to 3</th><td><meter max='3' value='1'></meter> 1</td></tr>
<tr><th scope='row'>4 to 7</th><td><meter max='3' value='1'></meter> 1</td></tr>
</table>
";

fn figures(rt: &impl Abort, host: &HostRuntime) -> Result<Vec<Figure>, Fail> {
    let session = session_of_jobs(rt, host)?;
    let mut meter = Meter::new(host);
    let run = Run::of_session(host.alloc(), session, &mut meter)?;
    Ok(figures_of_run(host.alloc(), &mut meter, &run)?)
}

#[test]
fn shares_of_a_run(rt: HostRuntime) -> Result<(), Fail> {
    assert_eq!(&rt; (share(1, 3), share(2, 3), share(3, 3)), (333, 667, 1000));
    assert_eq!(&rt; total(&[1, 2]), 3);
    Ok(())
}

#[test]
fn loads_of_a_run(rt: HostRuntime) -> Result<(), Fail> {
    let alloc = rt.alloc();
    let figures = figures(&rt, &rt)?;
    let own = times_of_task(alloc, figures.as_slice(), 2, 2)?;
    assert!(&rt; own.as_slice() == [1, 4].as_slice());
    let idle = times_of_idle(alloc, figures.as_slice(), 2)?;
    assert!(&rt; idle.as_slice() == [0, 0].as_slice());
    Ok(())
}

#[test]
fn loads_as_texts_and_bars(rt: HostRuntime) -> Result<(), Fail> {
    let alloc = rt.alloc();
    let session = session_of_jobs(&rt, &rt)?;
    let figures = figures(&rt, &rt)?;
    let mut table = String::new(alloc);
    push_load_table(
        alloc,
        &mut table,
        session.header(),
        figures.as_slice(),
        "load",
    )?;
    assert_eq!(&rt; table.as_str(), TABLE);
    let mut bars = String::new(alloc);
    push_load_bars(
        alloc,
        &mut bars,
        session.header(),
        figures.as_slice(),
        "load",
    )?;
    assert_eq!(&rt; bars.as_str(), BARS);
    Ok(())
}

// The counts of the first four intervals of a task.
fn counts(responses: &[Histogram], task: usize) -> Option<(u32, u32, u32, u32)> {
    let histogram = responses.get(task)?;
    let counts = &histogram.counts;
    Some((counts[0], counts[1], counts[2], counts[3]))
}

/// The job of B has not ended, and is not counted.
#[test]
fn responses_of_tasks(rt: HostRuntime) -> Result<(), Fail> {
    let alloc = rt.alloc();
    let session = session_of_jobs(&rt, &rt)?;
    let numbers = measure_all(alloc, &mut Meter::new(&rt), &session, &[], &[])?;
    let responses = numbers.responses.as_slice();
    assert_eq!(&rt; counts(responses, 2), Some((0, 1, 1, 1)));
    assert_eq!(&rt; counts(responses, 3), Some((0, 0, 0, 0)));
    let mut bars = String::new(alloc);
    push_response_bars(alloc, &mut bars, session.header(), responses, "response")?;
    assert_eq!(&rt; bars.as_str(), RESPONSES);
    Ok(())
}
