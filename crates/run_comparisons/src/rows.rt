//! The steps of both runs, each beside its other.
ghost use Rattle.std.specs.Prelude.{◌≡◌, ◌<◌, ◌^◌, ◌++◌, IfOk, OnOk, length};
ghost use Rattle.run_comparisons.specs.Rows.{next_after, removed, rows_at, rows_from, rows_of};

use session_edits::EditedSession;
use std::alloc::{AllocError, Global};

/// A step that both runs have, or one of them alone.
#[derive(Clone, Copy, Debug, PartialEq, Eq)]
pub enum Row {
    /// A step of both, by its place in the run before the edits and in the run after them.
    Both { before: u32, after: u32 },
    /// A step of the run before the edits alone, by its place in it.
    Removed(u32),
    /// A step of the run after the edits alone, by its place in it.
    Inserted(u32),
}

// Adds the steps from one place up to another.
fn push_removed(rows: &mut Vec<Row>, from: u64, to: u32) -> Result<(), AllocError>
    ensures { OnOk result (rows.new.items ≡ rows.old.items ++ removed from to) }
{
    for count in 0..u64::from(to).saturating_sub(from) {
        rows.push(Row::Removed((from + count) as u32))?;
    }
    Ok(())
}

// Adds the step at the place after the edits, and before it those that have no row yet. Gives the
// next place before the edits.
fn push_rows_at(
    rows: &mut Vec<Row>,
    next: u64,
    place: u32,
    origin: Option<u32>,
) -> Result<u64, AllocError>
    ensures rows { OnOk result (rows.new.items ≡ rows.old.items ++ rows_at next place origin) }
    ensures next { IfOk result (λ later. later ≡ next_after next origin) }
{
    match origin {
        None => {
            rows.push(Row::Inserted(place))?;
            Ok(next)
        }
        Some(before) => {
            push_removed(rows, next, before)?;
            let both = Row::Both {
                before,
                after: place,
            };
            rows.push(both)?;
            Ok(u64::from(before) + 1)
        }
    }
}

// Adds the rows of so many steps before the edits, and of the steps after them, of which there are
// the origins.
fn push_rows(rows: &mut Vec<Row>, count: u32, origins: &[Option<u32>]) -> Result<(), AllocError>
    requires { length origins.now < 2 ^ 32 }
    ensures { OnOk result
        (rows.new.items ≡ rows.old.items ++ rows_from count 0 0 origins.now) }
{
    let mut next = 0;
    for (place, origin) in origins.iter().enumerate() {
        next = push_rows_at(rows, next, place as u32, *origin)?;
    }
    push_removed(rows, next, count)
}

/// The rows of the session before the edits and after them.
pub(crate) fn edited_rows(alloc: Global, edited: &EditedSession) -> Result<Vec<Row>, AllocError>
    ensures { IfOk result
        (λ rows. rows.items ≡ rows_of edited.now.session edited.now.edits) }
{
    let count = edited.session().steps().len() as u32;
    let mut rows = Vec::with_capacity(alloc, edited.edited().steps().len())?;
    push_rows(&mut rows, count, edited.origins())?;
    Ok(rows)
}
