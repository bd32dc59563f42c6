//! The rows of two runs as columns of a picture.
ghost use Rattle.std.specs.Prelude.{true, false, ◌≡◌, ◌<◌, ◌+◌, ◌^◌, ◌++◌, [], ◌∷◌, IfOk, OnOk, length, map};
ghost use Rattle.run_comparisons.specs.Columns.{columns_of, place_in, ColumnIsRow};

use crate::rows::Row;
use std::alloc::{AllocError, Global};

/// One of the two runs.
#[derive(Clone, Copy, Debug, PartialEq, Eq)]
pub enum Side {
    /// The run before the edits.
    Before,
    /// The run after them.
    After,
}

// Whether the run has the step of the row.
fn has_step(side: Side, row: Row) -> bool
    ensures yes { result ≡ true → length (place_in side row) ≡ 1 }
    ensures no { result ≡ false → place_in side row ≡ [] }
{
    match (side, row) {
        (_, Row::Both { .. }) => true,
        (Side::Before, Row::Removed(_)) => true,
        (Side::After, Row::Inserted(_)) => true,
        _ => false,
    }
}

fn push_column(columns: &mut Vec<u32>, side: Side, column: u32, row: Row) -> Result<(), AllocError>
    ensures { OnOk result
        (columns.new.items
        ≡ columns.old.items ++ map (λ place. column) (place_in side row)) }
{
    if has_step(side, row) {
        columns.push(column)?;
    }
    Ok(())
}

/// The column at which each place of the run begins, where each row has a column: a place begins at
/// the row of its step. The last place begins behind all rows, and one more number says where it
/// ends.
pub fn columns_of(alloc: Global, side: Side, rows: &[Row]) -> Result<Vec<u32>, AllocError>
    requires { length rows.now + 1 < 2 ^ 32 }
    ensures { IfOk result (λ columns. columns.items ≡ columns_of side rows.now) }
{
    let mut columns = Vec::with_capacity(alloc, rows.len() + 2)?;
    for (column, row) in rows.iter().enumerate() {
        push_column(&mut columns, side, column as u32, *row)?;
    }
    columns.push(rows.len() as u32)?;
    columns.push(rows.len() as u32 + 1)?;
    Ok(columns)
}

/// The law of columns. It does nothing: its contract is the law.
pub fn law_of_columns()
    ensures { ColumnIsRow }
{}
