//! Tables of figures.
ghost use Rattle.std.specs.Prelude.{◌≡◌, ◌++◌, IfOk, OnOk, decimal, flat_map, length, string_bytes};
ghost use Rattle.list_orders.specs.Search.{numbers};
ghost use Rattle.report_figures.specs.Table.{change_text, name_at, pair_line, place_text, right_aligned, run_line, run_table, runs_table, spaces, value_at, values_text};

use crate::figures::{Figure, Part};
use crate::names::{push_name, push_units};
use bench_types::Header;
use std::alloc::{AllocError, Global};

// How wide a column of numbers is.
const WIDTH: usize = 10;

/// The table of one run: how many units of time a tick has, where it has more than one, a line of
/// heads, and a line for each figure that is not 0.
pub fn run_table(alloc: Global, header: &Header, figures: &[Figure]) -> Result<String, AllocError>
    ensures { IfOk result (λ text. string_bytes text ≡ run_table header.now figures.now) }
{
    let mut text = String::new(alloc);
    push_units(&mut text, header)?;
    text.push_str("     value number\n")?;
    push_run_lines(alloc, &mut text, header, figures)?;
    Ok(text)
}

fn push_run_lines(
    alloc: Global,
    text: &mut String,
    header: &Header,
    figures: &[Figure],
) -> Result<(), AllocError>
    ensures { OnOk result
        (string_bytes text.new
        ≡ string_bytes text.old ++ flat_map (run_line header.now) figures.now) }
{
    for figure in figures {
        push_run_line(alloc, text, header, *figure)?;
    }
    Ok(())
}

#[tactic(auto, unfolding(crate::specs::Table::run_line))]
fn push_run_line(
    alloc: Global,
    text: &mut String,
    header: &Header,
    figure: Figure,
) -> Result<(), AllocError>
    ensures { OnOk result
        (string_bytes text.new ≡ string_bytes text.old ++ run_line header.now figure) }
{
    if figure.value == 0 {
        return Ok(());
    }
    push_number(alloc, text, figure.value)?;
    text.push_str(" ")?;
    push_name(text, header, figure.subject, figure.part)?;
    push_place(text, figure)?;
    text.push_str("\n")
}

// Where the longest stretch begins, after its name.
fn push_place(text: &mut String, figure: Figure) -> Result<(), AllocError>
    ensures { OnOk result (string_bytes text.new ≡ string_bytes text.old ++ place_text figure) }
{
    match (figure.part, figure.from) {
        (Part::Longest, Some(place)) => write!(text, " from place {place}"),
        _ => Ok(()),
    }
}

fn push_number(alloc: Global, text: &mut String, number: u64) -> Result<(), AllocError>
    ensures { OnOk result
        (string_bytes text.new ≡ string_bytes text.old ++ right_aligned (decimal number)) }
{
    let cell = format!(in alloc; "{number}")?;
    push_cell(text, cell.as_str())
}

/// Writes a text in a column of ten after the text, at the column's right.
#[tactic(auto, unfolding(crate::specs::Table::right_aligned))]
pub fn push_cell(text: &mut String, cell: &str) -> Result<(), AllocError>
    ensures { OnOk result
        (string_bytes text.new ≡ string_bytes text.old ++ right_aligned cell.now) }
{
    push_spaces(text, WIDTH.saturating_sub(cell.len()))?;
    text.push_str(cell)
}

fn push_spaces(text: &mut String, count: usize) -> Result<(), AllocError>
    ensures { OnOk result (string_bytes text.new ≡ string_bytes text.old ++ spaces count) }
{
    for _ in 0..count {
        text.push_str(" ")?;
    }
    Ok(())
}

/// The table of two runs that have figures of the same names: a line of heads, and a line for each
/// figure that is not 0 in both, with what the second run has more.
pub fn runs_table(
    alloc: Global,
    header: &Header,
    before: &[Figure],
    after: &[Figure],
) -> Result<String, AllocError>
    ensures { IfOk result
        (λ text. string_bytes text ≡ runs_table header.now before.now after.now) }
{
    let mut text = String::new(alloc);
    push_units(&mut text, header)?;
    text.push_str("    before      after     change number\n")?;
    push_pair_lines(alloc, &mut text, header, before, after)?;
    Ok(text)
}

fn push_pair_lines(
    alloc: Global,
    text: &mut String,
    header: &Header,
    before: &[Figure],
    after: &[Figure],
) -> Result<(), AllocError>
    ensures { OnOk result
        (string_bytes text.new
        ≡ string_bytes text.old
        ++ flat_map (pair_line header.now before.now after.now) (numbers (length before.now))) }
{
    for index in 0..before.len() {
        push_pair_line(alloc, text, header, before, after, index)?;
    }
    Ok(())
}

#[tactic(auto, unfolding(crate::specs::Table::pair_line))]
fn push_pair_line(
    alloc: Global,
    text: &mut String,
    header: &Header,
    before: &[Figure],
    after: &[Figure],
    index: usize,
) -> Result<(), AllocError>
    ensures { OnOk result
        (string_bytes text.new
        ≡ string_bytes text.old ++ pair_line header.now before.now after.now index) }
{
    let old = value_at(before, index);
    let new = value_at(after, index);
    if old == 0 && new == 0 {
        return Ok(());
    }
    push_values(alloc, text, old, new)?;
    push_name_at(text, header, before, index)?;
    text.push_str("\n")
}

// The two values and the change, each with a space after it.
#[tactic(auto, unfolding(crate::specs::Table::values_text))]
fn push_values(alloc: Global, text: &mut String, before: u64, after: u64) -> Result<(), AllocError>
    ensures { OnOk result
        (string_bytes text.new ≡ string_bytes text.old ++ values_text before after) }
{
    push_number(alloc, text, before)?;
    text.push_str(" ")?;
    push_number(alloc, text, after)?;
    text.push_str(" ")?;
    let change = change_of(alloc, before, after)?;
    push_cell(text, change.as_str())?;
    text.push_str(" ")
}

/// What there is more than before, with its sign; 0 where there is as much.
pub fn change_of(alloc: Global, before: u64, after: u64) -> Result<String, AllocError>
    ensures { IfOk result (λ text. string_bytes text ≡ change_text before after) }
{
    if before < after {
        return format!(in alloc; "+{}", after - before);
    }
    if after < before {
        return format!(in alloc; "-{}", before - after);
    }
    format!(in alloc; "0")
}

/// Writes the name of the figure at an index after the text, nothing where there is none.
pub fn push_name_at(
    text: &mut String,
    header: &Header,
    figures: &[Figure],
    index: usize,
) -> Result<(), AllocError>
    ensures { OnOk result
        (string_bytes text.new ≡ string_bytes text.old ++ name_at header.now figures.now index) }
{
    match figures.get(index) {
        Some(figure) => push_name(text, header, figure.subject, figure.part),
        None => Ok(()),
    }
}

/// The value of the figure at an index, 0 where there is none.
pub fn value_at(figures: &[Figure], index: usize) -> u64
    ensures { result ≡ value_at figures.now index }
{
    match figures.get(index) {
        Some(figure) => figure.value,
        None => 0,
    }
}
