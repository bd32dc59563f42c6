//! Reports as texts.
ghost use Rattle.std.specs.Prelude.{◌≡◌, IfOk, Ok, string_bytes};
ghost use Rattle.run_pages.specs.Page.{pieces_text};
ghost use Rattle.report_pages.specs.Report.{run_pieces, runs_pieces};
ghost use Rattle.bench_types.specs.Header.{header_check};
ghost use Rattle.session_reports.specs.Reports.{run_report, run_tables, run_text, runs_report, runs_tables, runs_text};

use crate::figures::told_of_run;
use bench_types::Header;
use core_loads::push_load_table;
use report_figures::{Figure, run_json, run_table, runs_json, runs_table};
use report_pages::{RunFigures, push_run_report, push_runs_report};
use session_runs::Run;
use smp_kernel::Meter;
use std::alloc::{AllocError, Global};

/// How a report is written.
#[derive(Clone, Copy, Debug, PartialEq, Eq)]
pub enum Form {
    /// A line a number, and a table of loads, for people. Numbers that are 0 are left out.
    Table,
    /// One JSON object in a line.
    Json,
    /// A piece of HTML for a page: the lines of a table, and loads and responses as bars.
    Html,
}

// The figures of a run, and its loads.
#[tactic(auto, unfolding(crate::specs::Reports::run_tables))]
fn run_tables(alloc: Global, header: &Header, figures: &[Figure]) -> Result<String, AllocError>
    requires { header_check header.now ≡ Ok tt }
    ensures { IfOk result (λ text. string_bytes text ≡ run_tables header.now figures.now) }
{
    let mut text = run_table(alloc, header, figures)?;
    push_load_table(alloc, &mut text, header, figures, "load")?;
    Ok(text)
}

// The figures of two runs beside each other, and the loads of both.
#[tactic(auto, unfolding(crate::specs::Reports::runs_tables))]
fn runs_tables(
    alloc: Global,
    header: &Header,
    before: &[Figure],
    after: &[Figure],
) -> Result<String, AllocError>
    requires { header_check header.now ≡ Ok tt }
    ensures { IfOk result
        (λ text. string_bytes text ≡ runs_tables header.now before.now after.now) }
{
    let mut text = runs_table(alloc, header, before, after)?;
    push_load_table(alloc, &mut text, header, before, "load before")?;
    push_load_table(alloc, &mut text, header, after, "load after")?;
    Ok(text)
}

fn run_html(alloc: Global, header: &Header, run: &RunFigures) -> Result<String, AllocError>
    requires { header_check header.now ≡ Ok tt }
    ensures { IfOk result
        (λ text. string_bytes text ≡ pieces_text (run_pieces header.now run.now)) }
{
    let mut text = String::new(alloc);
    push_run_report(alloc, &mut text, header, run)?;
    Ok(text)
}

fn runs_html(
    alloc: Global,
    header: &Header,
    before: &RunFigures,
    after: &RunFigures,
) -> Result<String, AllocError>
    requires { header_check header.now ≡ Ok tt }
    ensures { IfOk result
        (λ text. string_bytes text ≡ pieces_text (runs_pieces header.now before.now after.now)) }
{
    let mut text = String::new(alloc);
    push_runs_report(alloc, &mut text, header, before, after)?;
    Ok(text)
}

fn run_text(
    alloc: Global,
    header: &Header,
    run: &RunFigures,
    settled: bool,
    form: Form,
) -> Result<String, AllocError>
    requires { header_check header.now ≡ Ok tt }
    ensures { IfOk result
        (λ text. string_bytes text ≡ run_text form settled header.now run.now) }
{
    match form {
        Form::Table => run_tables(alloc, header, run.figures.as_slice()),
        Form::Json => run_json(alloc, header, run.figures.as_slice(), settled),
        Form::Html => run_html(alloc, header, run),
    }
}

fn runs_text(
    alloc: Global,
    header: &Header,
    before: &RunFigures,
    after: &RunFigures,
    settled: bool,
    form: Form,
) -> Result<String, AllocError>
    requires { header_check header.now ≡ Ok tt }
    ensures { IfOk result
        (λ text. string_bytes text
        ≡ runs_text form settled header.now before.now after.now) }
{
    let (own, edited) = (before.figures.as_slice(), after.figures.as_slice());
    match form {
        Form::Table => runs_tables(alloc, header, own, edited),
        Form::Json => runs_json(alloc, header, own, edited, settled),
        Form::Html => runs_html(alloc, header, before, after),
    }
}

/// The figures of the run as a text. It tells whether the run is a settled one.
pub fn report_of_run(
    alloc: Global,
    meter: &mut Meter,
    run: &Run,
    settled: bool,
    form: Form,
) -> Result<String, AllocError>
    ensures { IfOk result (λ text. string_bytes text ≡ run_report form settled run.now) }
{
    let told = told_of_run(alloc, meter, run)?;
    run_text(alloc, run.session().header(), &told, settled, form)
}

/// The figures of two runs beside each other, as a text, by the names of the first. It tells
/// whether the runs are settled ones.
pub fn report_of_runs(
    alloc: Global,
    meter: &mut Meter,
    before: &Run,
    after: &Run,
    settled: bool,
    form: Form,
) -> Result<String, AllocError>
    ensures { IfOk result
        (λ text. string_bytes text ≡ runs_report form settled before.now after.now) }
{
    let own = told_of_run(alloc, meter, before)?;
    let edited = told_of_run(alloc, meter, after)?;
    let header = before.session().header();
    runs_text(alloc, header, &own, &edited, settled, form)
}
