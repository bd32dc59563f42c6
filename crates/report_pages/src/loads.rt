//! Loads as bars.
ghost use Rattle.std.specs.Prelude.{◌≡◌, ◌<◌, ◌+◌, ◌^◌, ◌++◌, Ok, OnOk, flat_map, length, string_bytes};
ghost use Rattle.list_orders.specs.Search.{numbers};
ghost use Rattle.bench_types.specs.Header.{header_check};
ghost use Rattle.core_loads.specs.Loads.{share, time_of};
ghost use Rattle.run_pages.specs.Page.{pieces_text};
ghost use Rattle.report_pages.specs.LoadBars.{all_pieces, bar_pieces, cell_pieces, cells_text, core_pieces, cores_text, heads_pieces, idle_pieces, load_pieces, percent_pieces, row_pieces, table_pieces, task_pieces, tasks_text};

use crate::number::push_number;
use crate::texts::{
    ALL, ALL_END, CELL, CELL_BAR, CELL_END, CORE, CORE_END, HEADS, HEADS_END, LOAD, LOAD_END,
    POINT, TABLE, TABLE_END,
};
use bench_types::Header;
use core_loads::{Load, share, time_of, times_of_idle, times_of_task, total};
use report_figures::Figure;
use run_pictures::push_escaped;
use std::alloc::{AllocError, Global};

// A bar of so many tenths of a percent.
#[tactic(auto, unfolding(crate::specs::LoadBars::bar_pieces))]
fn push_bar(text: &mut String, tenths: u64) -> Result<(), AllocError>
    ensures { OnOk result
        (string_bytes text.new ≡ string_bytes text.old ++ pieces_text (bar_pieces tenths)) }
{
    text.push_str(CELL)?;
    push_number(text, tenths)?;
    text.push_str(CELL_BAR)
}

// The percent.
#[tactic(auto, unfolding(crate::specs::LoadBars::percent_pieces))]
fn push_percent(text: &mut String, tenths: u64) -> Result<(), AllocError>
    ensures { OnOk result
        (string_bytes text.new ≡ string_bytes text.old ++ pieces_text (percent_pieces tenths)) }
{
    push_number(text, tenths / 10)?;
    text.push_str(POINT)?;
    push_number(text, tenths % 10)?;
    text.push_str(CELL_END)
}

// Both in a cell.
fn push_cell(text: &mut String, tenths: u64) -> Result<(), AllocError>
    ensures { OnOk result
        (string_bytes text.new ≡ string_bytes text.old ++ pieces_text (cell_pieces tenths)) }
{
    push_bar(text, tenths)?;
    push_percent(text, tenths)
}

// The percent alone.
#[tactic(auto, unfolding(crate::specs::LoadBars::all_pieces))]
fn push_all(text: &mut String, tenths: u64) -> Result<(), AllocError>
    ensures { OnOk result
        (string_bytes text.new ≡ string_bytes text.old ++ pieces_text (all_pieces tenths)) }
{
    text.push_str(ALL)?;
    push_number(text, tenths / 10)?;
    text.push_str(POINT)?;
    push_number(text, tenths % 10)?;
    text.push_str(ALL_END)
}

// A bar for each time.
fn push_cells(text: &mut String, run: u64, times: &[u64]) -> Result<(), AllocError>
    requires { 0 < run }
    ensures { OnOk result
        (string_bytes text.new ≡ string_bytes text.old ++ cells_text run times.now) }
{
    for time in times {
        push_cell(text, share(u128::from(*time), run))?;
    }
    Ok(())
}

// The line of a task: a bar for each time, and all of them.
fn push_row(text: &mut String, run: u64, times: &[u64], name: &str) -> Result<(), AllocError>
    requires run { 0 < run }
    requires few { length times.now < 2 ^ 32 }
    ensures { OnOk result
        (string_bytes text.new
        ≡ string_bytes text.old ++ pieces_text (row_pieces run times.now name.now)) }
{
    text.push_str(LOAD)?;
    push_cells(text, run, times)?;
    push_all(text, share(total(times), run))?;
    push_escaped(text, name)?;
    text.push_str(LOAD_END)
}

#[tactic(auto, unfolding(crate::specs::LoadBars::core_pieces))]
fn push_core(text: &mut String, core: u32) -> Result<(), AllocError>
    ensures { OnOk result
        (string_bytes text.new ≡ string_bytes text.old ++ pieces_text (core_pieces core)) }
{
    text.push_str(CORE)?;
    push_number(text, u64::from(core))?;
    text.push_str(CORE_END)
}

fn push_cores(text: &mut String, cores: u32) -> Result<(), AllocError>
    ensures { OnOk result
        (string_bytes text.new ≡ string_bytes text.old ++ cores_text cores) }
{
    for core in 0..cores {
        push_core(text, core)?;
    }
    Ok(())
}

// The title, and the heads of the columns.
fn push_heads(text: &mut String, cores: u32, title: &str) -> Result<(), AllocError>
    ensures { OnOk result
        (string_bytes text.new
        ≡ string_bytes text.old ++ pieces_text (heads_pieces cores title.now)) }
{
    text.push_str(TABLE)?;
    push_escaped(text, title)?;
    text.push_str(HEADS)?;
    push_cores(text, cores)?;
    text.push_str(HEADS_END)
}

#[tactic(auto, unfolding(crate::specs::LoadBars::task_pieces))]
fn push_task(
    alloc: Global,
    text: &mut String,
    header: &Header,
    figures: &[Figure],
    user: u32,
) -> Result<(), AllocError>
    requires run { 0 < time_of figures.now Load.OfRun }
    requires user { header.now.config.cores + user < 2 ^ 32 }
    ensures { OnOk result
        (string_bytes text.new
        ≡ string_bytes text.old ++ pieces_text (task_pieces header.now figures.now user)) }
{
    let cores = header.config.cores;
    let times = times_of_task(alloc, figures, cores, cores + user)?;
    let mut name = String::new(alloc);
    header.push_name(&mut name, cores + user)?;
    let run = time_of(figures, Load::OfRun);
    push_row(text, run, times.as_slice(), name.as_str())
}

fn push_tasks(
    alloc: Global,
    text: &mut String,
    header: &Header,
    figures: &[Figure],
) -> Result<(), AllocError>
    requires run { 0 < time_of figures.now Load.OfRun }
    requires users { header.now.config.cores + length header.now.tasks < 2 ^ 32 }
    ensures { OnOk result
        (string_bytes text.new
        ≡ string_bytes text.old ++ tasks_text header.now figures.now) }
{
    for user in 0..header.tasks.as_slice().len() {
        push_task(alloc, text, header, figures, user as u32)?;
    }
    Ok(())
}

#[tactic(auto, unfolding(crate::specs::LoadBars::idle_pieces))]
fn push_idle(
    alloc: Global,
    text: &mut String,
    header: &Header,
    figures: &[Figure],
) -> Result<(), AllocError>
    requires { 0 < time_of figures.now Load.OfRun }
    ensures { OnOk result
        (string_bytes text.new
        ≡ string_bytes text.old ++ pieces_text (idle_pieces header.now figures.now)) }
{
    let times = times_of_idle(alloc, figures, header.config.cores)?;
    let run = time_of(figures, Load::OfRun);
    push_row(text, run, times.as_slice(), "idle")
}

// The table of a run that takes some time.
fn push_table(
    alloc: Global,
    text: &mut String,
    header: &Header,
    figures: &[Figure],
    title: &str,
) -> Result<(), AllocError>
    requires run { 0 < time_of figures.now Load.OfRun }
    requires users { header.now.config.cores + length header.now.tasks < 2 ^ 32 }
    ensures { OnOk result
        (string_bytes text.new
        ≡ string_bytes text.old
        ++ pieces_text (table_pieces header.now figures.now title.now)) }
{
    push_heads(text, header.config.cores, title)?;
    push_tasks(alloc, text, header, figures)?;
    push_idle(alloc, text, header, figures)?;
    text.push_str(TABLE_END)
}

/// Writes the table of loads as HTML: for each user task, and for the idle tasks together, how much
/// of the run's time each core had it, as a bar and in percent to the nearest tenth, and how much
/// all cores had it. A full bar is the whole run. Of a run that takes no time nothing is written.
#[tactic(auto, unfolding(crate::specs::LoadBars::load_pieces), using(bench_types::proofs::Passes::checked_header))]
pub fn push_load_bars(
    alloc: Global,
    text: &mut String,
    header: &Header,
    figures: &[Figure],
    title: &str,
) -> Result<(), AllocError>
    requires { header_check header.now ≡ Ok tt }
    ensures { OnOk result
        (string_bytes text.new
        ≡ string_bytes text.old ++ pieces_text (load_pieces header.now figures.now title.now)) }
{
    if time_of(figures, Load::OfRun) == 0 {
        return Ok(());
    }
    push_table(alloc, text, header, figures, title)
}
