//! The rows at some places alone.
ghost use Rattle.std.specs.Prelude.{◌≡◌, ◌++◌, OnOk, length, string_bytes};
ghost use Rattle.run_comparisons.specs.Shown.{is_row_shown, is_shown, left_out_line, left_out_text, rows_left_out};

use crate::rows::Row;
use run_views::Places;
use std::alloc::AllocError;

// Whether the place of the row before the edits or that after them is among the places.
fn is_shown(places: Places, row: Row) -> bool
    ensures { result ≡ is_shown places row }
{
    match row {
        Row::Both { before, after } => places.shows(before) || places.shows(after),
        Row::Removed(place) | Row::Inserted(place) => places.shows(place),
    }
}

/// Whether the row is at the places. Where none are named each is.
pub(crate) fn is_row_shown(shown: Option<Places>, row: Row) -> bool
    ensures { result ≡ is_row_shown shown row }
{
    match shown {
        None => true,
        Some(places) => is_shown(places, row),
    }
}

// How many rows are left out.
fn left_out(places: Places, rows: &[Row]) -> usize
    ensures { result ≡ length (rows_left_out places rows.now) }
{
    rows.iter().filter(|row| !is_shown(places, **row)).count()
}

fn push_left_out_line(text: &mut String, count: usize) -> Result<(), AllocError>
    ensures { OnOk result
        (string_bytes text.new ≡ string_bytes text.old ++ left_out_line count) }
{
    if count == 0 {
        return Ok(());
    }
    write!(text, "rows at other places, left out: {count}\n")
}

/// Writes a line that tells how many rows are left out; none where there are none.
pub(crate) fn push_left_out(
    text: &mut String,
    shown: Option<Places>,
    rows: &[Row],
) -> Result<(), AllocError>
    ensures { OnOk result
        (string_bytes text.new ≡ string_bytes text.old ++ left_out_text shown rows.now) }
{
    match shown {
        None => Ok(()),
        Some(places) => push_left_out_line(text, left_out(places, rows)),
    }
}
