//! Numbers in rows.
ghost use Rattle.std.specs.Prelude.{◌≡◌, ◌<◌, ◌++◌, ◌∷◌, [], ℕ, IfOk, OnOk, length, slice_set};
ghost use Rattle.kept_works.specs.Rows.{row_at};

use std::alloc::{AllocError, Global};
use std::marker::Model;

/// A row of numbers.
#[derive(Drop)]
pub(crate) struct Row {
    numbers: Vec<u32>,
}

impl Model for Row {
    ghost use Rattle.std.specs.Prelude.{ℕ, List};

    ghost Value = { List ℕ };

    ghost view = { λ row. row.numbers.items };
}

impl Row {
    fn new(alloc: Global) -> Self
        ensures { result ≡ [] }
    {
        Row {
            numbers: Vec::new(alloc),
        }
    }

    fn push(&mut self, number: u32) -> Result<(), AllocError>
        ensures { OnOk result (self.new ≡ self.old ++ number ∷ []) }
    {
        self.numbers.push(number)?;
        Ok(())
    }

    pub(crate) fn numbers(&self) -> &[u32]
        ensures { result.now ≡ self.now }
    {
        self.numbers.as_slice()
    }
}

/// So many rows without numbers.
pub(crate) fn empty_rows(alloc: Global, count: usize) -> Result<Vec<Row>, AllocError>
    ensures many { IfOk result (λ rows. length rows.items ≡ count) }
    ensures empty { IfOk result (λ rows. (row : ℕ) → row_at rows.items row ≡ []) }
{
    let mut rows = Vec::with_capacity(alloc, count)?;
    for _row in 0..count {
        rows.push(Row::new(alloc))?;
    }
    Ok(rows)
}

/// Puts the number behind those of the row.
pub(crate) fn push_to(rows: &mut Vec<Row>, row: usize, number: u32) -> Result<(), AllocError>
    requires { row < length rows.old.items }
    ensures { OnOk result
        (rows.new.items
        ≡ slice_set rows.old.items row (row_at rows.old.items row ++ number ∷ [])) }
{
    rows[row].push(number)
}
