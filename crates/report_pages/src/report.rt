//! The report of a run, and of two.
ghost use Rattle.std.specs.Prelude.{◌≡◌, ◌++◌, Ok, OnOk, string_bytes};
ghost use Rattle.bench_types.specs.Header.{header_check};
ghost use Rattle.run_pages.specs.Page.{pieces_text};
ghost use Rattle.report_pages.specs.Report.{loads_pieces, numbers_pieces, responses_pieces, run_pieces, runs_pieces};

use crate::loads::push_load_bars;
use crate::responses::push_response_bars;
use crate::texts::{NUMBERS, NUMBERS_END, RESPONSE_AFTER, RESPONSE_BEFORE};
use bench_types::Header;
use report_figures::{Figure, run_table, runs_table};
use run_pictures::push_escaped;
use std::alloc::{AllocError, Global};
use std::marker::Model;
use task_jobs::Histogram;

/// What a report tells of a run.
#[derive(Drop)]
pub struct RunFigures {
    pub figures: Vec<Figure>,
    /// Of each task, how many of its jobs that ended took how long.
    pub responses: Vec<Histogram>,
}

impl Model for RunFigures {
    ghost use Rattle.report_pages.specs.Told.{Told};

    ghost Value = { Told };

    ghost view = { λ it. record { figures = it.figures.items; responses = it.responses.items } };
}

// The numbers, as they stand in a text.
#[tactic(auto, unfolding(crate::specs::Report::numbers_pieces))]
fn push_numbers(text: &mut String, table: &str) -> Result<(), AllocError>
    ensures { OnOk result
        (string_bytes text.new
        ≡ string_bytes text.old ++ pieces_text (numbers_pieces table.now)) }
{
    text.push_str(NUMBERS)?;
    push_escaped(text, table)?;
    text.push_str(NUMBERS_END)
}

/// Writes the report of a run as HTML: its numbers as a text, its loads and the responses of
/// its tasks as bars. The names of tasks are escaped.
pub fn push_run_report(
    alloc: Global,
    text: &mut String,
    header: &Header,
    run: &RunFigures,
) -> Result<(), AllocError>
    requires { header_check header.now ≡ Ok tt }
    ensures { OnOk result
        (string_bytes text.new
        ≡ string_bytes text.old ++ pieces_text (run_pieces header.now run.now)) }
{
    let table = run_table(alloc, header, run.figures.as_slice())?;
    push_numbers(text, table.as_str())?;
    push_load_bars(alloc, text, header, run.figures.as_slice(), "load")?;
    push_response_bars(alloc, text, header, run.responses.as_slice(), "response")
}

// The loads of both runs.
fn push_loads(
    alloc: Global,
    text: &mut String,
    header: &Header,
    before: &RunFigures,
    after: &RunFigures,
) -> Result<(), AllocError>
    requires { header_check header.now ≡ Ok tt }
    ensures { OnOk result
        (string_bytes text.new
        ≡ string_bytes text.old ++ pieces_text (loads_pieces header.now before.now after.now)) }
{
    push_load_bars(
        alloc,
        text,
        header,
        before.figures.as_slice(),
        "load before",
    )?;
    push_load_bars(alloc, text, header, after.figures.as_slice(), "load after")
}

// The responses of the tasks of both runs.
fn push_responses(
    alloc: Global,
    text: &mut String,
    header: &Header,
    before: &RunFigures,
    after: &RunFigures,
) -> Result<(), AllocError>
    requires { header_check header.now ≡ Ok tt }
    ensures { OnOk result
        (string_bytes text.new
        ≡ string_bytes text.old
        ++ pieces_text (responses_pieces header.now before.now after.now)) }
{
    push_response_bars(
        alloc,
        text,
        header,
        before.responses.as_slice(),
        "response before",
    )?;
    push_response_bars(
        alloc,
        text,
        header,
        after.responses.as_slice(),
        "response after",
    )
}

/// Writes the report of two runs that have figures of the same names as HTML: their numbers beside
/// each other as a text, the loads and the responses of both as bars.
pub fn push_runs_report(
    alloc: Global,
    text: &mut String,
    header: &Header,
    before: &RunFigures,
    after: &RunFigures,
) -> Result<(), AllocError>
    requires { header_check header.now ≡ Ok tt }
    ensures { OnOk result
        (string_bytes text.new
        ≡ string_bytes text.old ++ pieces_text (runs_pieces header.now before.now after.now)) }
{
    let (own, edited) = (before.figures.as_slice(), after.figures.as_slice());
    let table = runs_table(alloc, header, own, edited)?;
    push_numbers(text, table.as_str())?;
    push_loads(alloc, text, header, before, after)?;
    push_responses(alloc, text, header, before, after)
}
