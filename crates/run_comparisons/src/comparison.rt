//! Both runs, row by row, and how the tasks fared.
ghost use Rattle.std.specs.Prelude.{◌≡◌, ◌++◌, IfOk, OnOk, filter, flat_map, map, string_bytes};
ghost use Rattle.list_orders.specs.Search.{numbers};
ghost use Rattle.run_comparisons.specs.declared.rows.Row.TheVariants.{Both};
ghost use Rattle.run_comparisons.specs.Comparison.{compare_text, differences_text, ends_text, fared_text, first_text, further_text, last_text, no_difference_text, not_made_line, not_made_text, places_text};
ghost use Rattle.run_comparisons.specs.RowWords.{differs};
ghost use Rattle.run_comparisons.specs.Pairs.{with_itself};
ghost use Rattle.run_comparisons.specs.Shown.{lines_text, row_told};

use crate::gains::push_gains;
use crate::known::{push_known_before, push_known_behind};
use crate::left::push_left_lines;
use crate::pair::RunPair;
use crate::row_words::{push_place, push_row_shown};
use crate::rows::Row;
use crate::run_reader::RunReader;
use crate::shown::push_left_out;
use kept_runs::KnownLimit;
use run_views::Places;
use session_runs::Run;
use std::alloc::{AllocError, Global};

// Writes the rows that are shown, and before its row up to where the run after the edits is known.
// Gives the rows in which the runs differ, shown or not.
fn push_lines(
    alloc: Global,
    text: &mut String,
    before: &mut RunReader<'_>,
    after: &mut RunReader<'_>,
    known: Option<KnownLimit>,
    shown: Option<Places>,
    rows: &[Row],
) -> Result<Vec<Row>, AllocError>
    ensures lines { OnOk result
        (string_bytes text.new
        ≡ string_bytes text.old
        ++ flat_map (row_told known shown before.old after.old) rows.now) }
    ensures differing { IfOk result
        (λ differing. differing.items ≡ filter (differs before.old after.old) rows.now) }
{
    let named_alike = before.is_named_alike(after);
    let mut differing = Vec::new(alloc);
    for row in rows {
        push_known_before(text, after.header(), known, *row)?;
        if push_row_shown(alloc, text, before, after, shown, named_alike, *row)? {
            differing.push(*row)?;
        }
    }
    Ok(differing)
}

fn push_places(text: &mut String, row: Row) -> Result<(), AllocError>
    ensures { OnOk result (string_bytes text.new ≡ string_bytes text.old ++ places_text row) }
{
    match row {
        Row::Both { before, after } => {
            push_place(text, Some(before))?;
            push_place(text, Some(after))
        }
        Row::Removed(before) => {
            push_place(text, Some(before))?;
            push_place(text, None)
        }
        Row::Inserted(after) => {
            push_place(text, None)?;
            push_place(text, Some(after))
        }
    }
}

#[tactic(auto, unfolding(crate::specs::Comparison::first_text))]
fn push_first(text: &mut String, row: Row) -> Result<(), AllocError>
    ensures { OnOk result (string_bytes text.new ≡ string_bytes text.old ++ first_text row) }
{
    text.push_str("the runs differ first at")?;
    push_places(text, row)
}

#[tactic(auto, unfolding(crate::specs::Comparison::last_text))]
fn push_last(text: &mut String, row: Row) -> Result<(), AllocError>
    ensures { OnOk result (string_bytes text.new ≡ string_bytes text.old ++ last_text row) }
{
    text.push_str(" and last at")?;
    push_places(text, row)?;
    text.push_str("\n")
}

#[tactic(auto, unfolding(crate::specs::Comparison::ends_text))]
fn push_ends(text: &mut String, first: Row, last: Row) -> Result<(), AllocError>
    ensures { OnOk result
        (string_bytes text.new ≡ string_bytes text.old ++ ends_text first last) }
{
    push_first(text, first)?;
    push_last(text, last)
}

fn push_further(text: &mut String, places: &[usize]) -> Result<(), AllocError>
    ensures { OnOk result
        (string_bytes text.new ≡ string_bytes text.old ++ flat_map further_text places.now) }
{
    for place in places {
        write!(text, ", edit {place}")?;
    }
    Ok(())
}

#[tactic(auto, unfolding(crate::specs::Comparison::not_made_text))]
fn push_not_made(text: &mut String, place: usize, places: &[usize]) -> Result<(), AllocError>
    ensures { OnOk result
        (string_bytes text.new ≡ string_bytes text.old ++ not_made_text place places.now) }
{
    write!(text, "no step differs; refused and not made: edit {place}")?;
    push_further(text, places)
}

fn push_not_made_line(text: &mut String, place: usize, places: &[usize]) -> Result<(), AllocError>
    ensures { OnOk result
        (string_bytes text.new ≡ string_bytes text.old ++ not_made_line place places.now) }
{
    push_not_made(text, place, places)?;
    text.push_str("\n")
}

fn push_no_difference(text: &mut String, refused: &[usize]) -> Result<(), AllocError>
    ensures { OnOk result
        (string_bytes text.new ≡ string_bytes text.old ++ no_difference_text refused.now) }
{
    match refused {
        [] => text.push_str("no step differs\n"),
        [place, ..] => push_not_made_line(text, *place, &refused[1..]),
    }
}

fn push_differences(text: &mut String, refused: &[usize], rows: &[Row]) -> Result<(), AllocError>
    ensures { OnOk result
        (string_bytes text.new
        ≡ string_bytes text.old ++ differences_text refused.now rows.now) }
{
    match rows {
        [] => push_no_difference(text, refused),
        [first, ..] => push_ends(text, *first, rows[rows.len() - 1]),
    }
}

// Writes the rows, all of them or those at the places alone, with up to where the run after the
// edits is known. Gives the rows in which the runs differ, shown or not.
fn push_rows_text(
    alloc: Global,
    text: &mut String,
    before: &Run,
    after: &Run,
    known: Option<KnownLimit>,
    shown: Option<Places>,
    rows: &[Row],
) -> Result<Vec<Row>, AllocError>
    ensures lines { OnOk result
        (string_bytes text.new
        ≡ string_bytes text.old
        ++ lines_text known shown before.now.session after.now.session rows.now) }
    ensures differing { IfOk result
        (λ differing. differing.items
        ≡ filter (differs before.now.session after.now.session) rows.now) }
{
    let mut earlier = RunReader::of(alloc, before)?;
    let mut later = RunReader::of(alloc, after)?;
    let differing = push_lines(alloc, text, &mut earlier, &mut later, known, shown, rows)?;
    push_known_behind(text, after.session().header(), known, rows)?;
    push_left_out(text, shown, rows)?;
    Ok(differing)
}

// Writes what each task gained and lost.
fn push_fared(alloc: Global, text: &mut String, before: &Run, after: &Run) -> Result<(), AllocError>
    ensures { OnOk result
        (string_bytes text.new
        ≡ string_bytes text.old ++ fared_text before.now.session after.now.session) }
{
    let header = before.session().header();
    push_gains(alloc, text, header, before.tallies(), after.tallies())
}

// Two runs by their rows, all of them or those at the places alone. Edits at these places were
// refused.
#[tactic(auto, unfolding(crate::specs::Comparison::compare_text))]
fn compared(
    alloc: Global,
    before: &Run,
    after: &Run,
    rows: &[Row],
    refused: &[usize],
    known: Option<KnownLimit>,
    shown: Option<Places>,
) -> Result<String, AllocError>
    ensures { IfOk result
        (λ text. string_bytes text
        ≡ compare_text shown (record {
          before = before.now;
          after = after.now;
          rows = rows.now;
          refused = refused.now;
          known = known;
        })) }
{
    let mut text = String::new(alloc);
    let differing = push_rows_text(alloc, &mut text, before, after, known, shown, rows)?;
    // Where the runs differ in no row, the edits that were refused are told.
    push_differences(&mut text, refused, differing.as_slice())?;
    push_fared(alloc, &mut text, before, after)?;
    push_left_lines(&mut text, before, after)?;
    Ok(text)
}

/// The run before the edits beside the run after them: a line for each step of either, where they
/// differ first and last, what each task gained and lost, and the calls that were not made. Where
/// the run after the edits is known up to a place alone, a line tells so before the step there.
///
/// With places there are lines for the steps at them alone, by their places before the edits or
/// after them, and how many lines are left out. The rest is told of the whole runs.
pub fn compare(alloc: Global, pair: &RunPair, shown: Option<Places>) -> Result<String, AllocError>
    ensures { IfOk result (λ text. string_bytes text ≡ compare_text shown pair.now) }
{
    compared(
        alloc,
        pair.before(),
        pair.after(),
        pair.rows(),
        pair.refused(),
        pair.known(),
        shown,
    )
}

// A row for each of so many steps, which stands beside itself.
fn rows_of_both(alloc: Global, count: u32) -> Result<Vec<Row>, AllocError>
    ensures { IfOk result
        (λ rows. rows.items ≡ map (λ place. Both place place) (numbers count)) }
{
    let mut rows = Vec::with_capacity(alloc, count as usize)?;
    for place in 0..count {
        rows.push(Row::Both {
            before: place,
            after: place,
        })?;
    }
    Ok(rows)
}

/// The same of a run beside itself.
pub fn compare_with_itself(
    alloc: Global,
    run: &Run,
    shown: Option<Places>,
) -> Result<String, AllocError>
    ensures { IfOk result (λ text. string_bytes text ≡ compare_text shown (with_itself run.now)) }
{
    let rows = rows_of_both(alloc, run.session().steps().len() as u32)?;
    compared(alloc, run, run, rows.as_slice(), &[], None, shown)
}
