//! How long the responses of tasks are, as bars.
ghost use Rattle.std.specs.Prelude.{◌≡◌, ◌<◌, ◌+◌, ◌^◌, ◌++◌, Ok, OnOk, flat_map, length, string_bytes};
ghost use Rattle.std.specs.List.{sum};
ghost use Rattle.list_orders.specs.Search.{numbers};
ghost use Rattle.bench_types.specs.Header.{header_check};
ghost use Rattle.task_jobs.specs.Histograms.{intervals};
ghost use Rattle.run_pages.specs.Page.{pieces_text};
ghost use Rattle.report_pages.specs.ResponseBars.{bar_pieces, caption_pieces, histogram_pieces, count_pieces, interval_pieces, line_pieces, most_time, number_pieces, response_pieces, row_pieces, rows_text, table_pieces, task_pieces, tasks_text};

use crate::number::push_number;
use crate::texts::{
    COLON, COUNT, COUNT_BAR, COUNT_END, INTERVAL, INTERVAL_END, JOBS, JOBS_END, TABLE, TABLE_END,
    TO,
};
use bench_types::Header;
use run_pictures::push_escaped;
use std::alloc::{AllocError, Global};
use task_jobs::{Histogram, INTERVALS, least_time};

// The greatest time of the interval.
fn most_time(interval: usize) -> u64
    requires { interval < intervals }
    ensures { result ≡ most_time interval }
{
    if interval == 64 {
        return u64::MAX;
    }
    (1 << interval) - 1
}

// How many times there are.
fn total(counts: &[u32]) -> u64
    requires { length counts.now < 2 ^ 32 }
    ensures { result ≡ sum counts.now }
{
    let mut all = 0;
    for count in counts {
        all += u64::from(*count);
    }
    all
}

// The times of an interval.
#[tactic(auto, unfolding(crate::specs::ResponseBars::interval_pieces))]
fn push_interval(text: &mut String, interval: usize) -> Result<(), AllocError>
    requires { interval < intervals }
    ensures { OnOk result
        (string_bytes text.new
        ≡ string_bytes text.old ++ pieces_text (interval_pieces interval)) }
{
    text.push_str(INTERVAL)?;
    push_number(text, least_time(interval))?;
    text.push_str(TO)?;
    push_number(text, most_time(interval))?;
    text.push_str(INTERVAL_END)
}

// A bar of a count, where all are so many.
#[tactic(auto, unfolding(crate::specs::ResponseBars::bar_pieces))]
fn push_bar(text: &mut String, all: u64, count: u64) -> Result<(), AllocError>
    ensures { OnOk result
        (string_bytes text.new ≡ string_bytes text.old ++ pieces_text (bar_pieces all count)) }
{
    push_number(text, all)?;
    text.push_str(COUNT)?;
    push_number(text, count)?;
    text.push_str(COUNT_BAR)
}

#[tactic(auto, unfolding(crate::specs::ResponseBars::number_pieces))]
fn push_count_number(text: &mut String, count: u64) -> Result<(), AllocError>
    ensures { OnOk result
        (string_bytes text.new ≡ string_bytes text.old ++ pieces_text (number_pieces count)) }
{
    push_number(text, count)?;
    text.push_str(COUNT_END)
}

// The bar and the count.
fn push_count(text: &mut String, all: u64, count: u64) -> Result<(), AllocError>
    ensures { OnOk result
        (string_bytes text.new ≡ string_bytes text.old ++ pieces_text (count_pieces all count)) }
{
    push_bar(text, all, count)?;
    push_count_number(text, count)
}

// The line of an interval.
fn push_line(text: &mut String, interval: usize, all: u64, count: u64) -> Result<(), AllocError>
    requires { interval < intervals }
    ensures { OnOk result
        (string_bytes text.new
        ≡ string_bytes text.old ++ pieces_text (line_pieces interval all count)) }
{
    push_interval(text, interval)?;
    push_count(text, all, count)
}

// The same, unless its count is 0.
fn push_row(
    text: &mut String,
    all: u64,
    histogram: &Histogram,
    interval: usize,
) -> Result<(), AllocError>
    requires { interval < intervals }
    ensures { OnOk result
        (string_bytes text.new
        ≡ string_bytes text.old ++ pieces_text (row_pieces all histogram.now interval)) }
{
    let count = u64::from(histogram.counts[interval]);
    if count == 0 {
        return Ok(());
    }
    push_line(text, interval, all, count)
}

#[tactic(auto, unfolding(crate::specs::ResponseBars::rows_text))]
fn push_rows(text: &mut String, all: u64, histogram: &Histogram) -> Result<(), AllocError>
    ensures { OnOk result
        (string_bytes text.new ≡ string_bytes text.old ++ rows_text all histogram.now) }
{
    for interval in 0..INTERVALS {
        push_row(text, all, histogram, interval)?;
    }
    Ok(())
}

// The title of a task's table: its name, and how many of its jobs ended.
#[tactic(auto, unfolding(crate::specs::ResponseBars::caption_pieces))]
fn push_caption(text: &mut String, title: &str, name: &str, all: u64) -> Result<(), AllocError>
    ensures { OnOk result
        (string_bytes text.new
        ≡ string_bytes text.old ++ pieces_text (caption_pieces title.now name.now all)) }
{
    text.push_str(TABLE)?;
    push_escaped(text, name)?;
    text.push_str(COLON)?;
    push_escaped(text, title)?;
    text.push_str(JOBS)?;
    push_number(text, all)?;
    text.push_str(JOBS_END)
}

// The table of a task of which so many jobs ended.
fn push_table(
    text: &mut String,
    title: &str,
    name: &str,
    all: u64,
    histogram: &Histogram,
) -> Result<(), AllocError>
    ensures { OnOk result
        (string_bytes text.new
        ≡ string_bytes text.old
        ++ pieces_text (table_pieces title.now name.now all histogram.now)) }
{
    push_caption(text, title, name, all)?;
    push_rows(text, all, histogram)?;
    text.push_str(TABLE_END)
}

// The same, if a job of it ended.
#[tactic(auto, unfolding(crate::specs::ResponseBars::histogram_pieces))]
fn push_histogram(
    text: &mut String,
    title: &str,
    name: &str,
    histogram: &Histogram,
) -> Result<(), AllocError>
    ensures { OnOk result
        (string_bytes text.new
        ≡ string_bytes text.old
        ++ pieces_text (histogram_pieces title.now name.now histogram.now)) }
{
    let all = total(&histogram.counts);
    if all == 0 {
        return Ok(());
    }
    push_table(text, title, name, all, histogram)
}

#[tactic(auto, unfolding(crate::specs::ResponseBars::task_pieces))]
fn push_task(
    alloc: Global,
    text: &mut String,
    header: &Header,
    responses: &[Histogram],
    title: &str,
    task: u32,
) -> Result<(), AllocError>
    ensures { OnOk result
        (string_bytes text.new
        ≡ string_bytes text.old
        ++ pieces_text (task_pieces header.now responses.now title.now task)) }
{
    let Some(histogram) = responses.get(task as usize) else {
        return Ok(());
    };
    let mut name = String::new(alloc);
    header.push_name(&mut name, task)?;
    push_histogram(text, title, name.as_str(), histogram)
}

fn push_tasks(
    alloc: Global,
    text: &mut String,
    header: &Header,
    responses: &[Histogram],
    title: &str,
) -> Result<(), AllocError>
    requires { header.now.config.cores + length header.now.tasks < 2 ^ 32 }
    ensures { OnOk result
        (string_bytes text.new
        ≡ string_bytes text.old ++ tasks_text header.now responses.now title.now) }
{
    let cores = header.config.cores;
    for user in 0..header.tasks.as_slice().len() {
        push_task(alloc, text, header, responses, title, cores + user as u32)?;
    }
    Ok(())
}

/// Writes a table as HTML for each user task of which a job ended: how many of its jobs took how
/// long from their release to their end, as a bar and a number, for each interval of times that has
/// one. The intervals are those of `Histogram`; times are in units. A full bar is all jobs of the
/// task that ended. The responses are those of all tasks, idle tasks first.
#[tactic(auto, using(bench_types::proofs::Passes::checked_header))]
pub fn push_response_bars(
    alloc: Global,
    text: &mut String,
    header: &Header,
    responses: &[Histogram],
    title: &str,
) -> Result<(), AllocError>
    requires { header_check header.now ≡ Ok tt }
    ensures { OnOk result
        (string_bytes text.new
        ≡ string_bytes text.old
        ++ pieces_text (response_pieces header.now responses.now title.now)) }
{
    push_tasks(alloc, text, header, responses, title)
}
