//! Where the settled run makes the steps of a document.
ghost use Rattle.std.specs.Prelude.{◌≡◌, ◌+◌, ◌<◌, ◌≤◌, suc, All, IfOk, length, map, slice_index_or};
ghost use Rattle.bench_types.specs.Limits.{max_steps};
ghost use Rattle.list_orders.specs.Search.{numbers};
ghost use Rattle.kept_runs.specs.Items.{settled_place};
ghost use Rattle.kept_works.specs.Places.{event_place, place_from, row_of, AreRowsOf, HasRow};

use crate::rows::{Row, empty_rows, push_to};
use crate::steps::{comes_from_outside, waiting_call};
use bench_types::Step;
use std::alloc::{AllocError, Global};

// The row of a step, where there are so many tasks.
fn row_of(tasks: u32, step: &Step) -> Option<u32>
    ensures { result ≡ row_of tasks step.now }
{
    if comes_from_outside(step) {
        return Some(tasks);
    }
    let waits = waiting_call(step)?;
    Some(waits.task)
}

// The places of a run's steps in their rows.
fn places_in_rows(alloc: Global, tasks: u32, run: &[Step]) -> Result<Vec<Row>, AllocError>
    requires rows { All (HasRow tasks) run.now }
    requires few { length run.now ≤ max_steps }
    ensures { IfOk result (λ rows. AreRowsOf tasks run.now rows.items) }
{
    let mut rows = empty_rows(alloc, tasks as usize + 1)?;
    for (place, step) in run.iter().enumerate() {
        if let Some(row) = row_of(tasks, step) {
            push_to(&mut rows, row as usize, place as u32)?;
        }
    }
    Ok(rows)
}

// The next place of the row, of which so many have come; the end where there is none.
fn next_place(row: &Row, come: &mut u32, end: u32) -> u32
    requires few { come.old < max_steps }
    ensures place { result ≡ slice_index_or row.now come.old end }
    ensures come { come.new ≡ come.old + 1 }
{
    let place = row.numbers().get(*come as usize).copied();
    *come += 1;
    place.unwrap_or(end)
}

// The place of each event of a document, where the settled run has these rows and this end.
fn event_places(
    alloc: Global,
    tasks: u32,
    document: &[Step],
    rows: &[Row],
    end: u32,
) -> Result<Vec<Option<u32>>, AllocError>
    requires rows { All (HasRow tasks) document.now }
    requires many { length rows.now ≡ tasks + 1 }
    requires few { length document.now ≤ max_steps }
    ensures { IfOk result
        (λ places. places.items
        ≡ map (event_place tasks document.now rows.now end) (numbers (length document.now))) }
{
    let mut come = vec![in alloc; 0; rows.len()]?;
    let mut places = Vec::with_capacity(alloc, document.len())?;
    for step in document {
        let place = match row_of(tasks, step) {
            Some(row) => {
                let row = row as usize;
                Some(next_place(&rows[row], &mut come[row], end))
            }
            None => None,
        };
        places.push(place)?;
    }
    Ok(places)
}

// The first of the places at each index or behind it, the end behind the last.
fn places_from(alloc: Global, own: &[Option<u32>], end: u32) -> Result<Vec<u32>, AllocError>
    requires { length own.now ≤ max_steps }
    ensures { IfOk result
        (λ places. places.items ≡ map (place_from own.now end) (numbers (suc (length own.now)))) }
{
    let mut places = vec![in alloc; end; own.len() + 1]?;
    let mut index = own.len();
    while index > 0 {
        index -= 1;
        places[index] = own[index].unwrap_or(places[index + 1]);
    }
    Ok(places)
}

/// The place of each step of a document in its settled run, and behind them that of the end.
pub fn settled_places(
    alloc: Global,
    tasks: u32,
    document: &[Step],
    settled: &[Step],
) -> Result<Vec<u32>, AllocError>
    requires document { All (HasRow tasks) document.now }
    requires settled { All (HasRow tasks) settled.now }
    requires few { length document.now ≤ max_steps }
    requires short { length settled.now ≤ max_steps }
    ensures { IfOk result
        (λ places. places.items
        ≡ map (settled_place document.now settled.now) (numbers (suc (length document.now)))) }
{
    let end = settled.len() as u32;
    let rows = places_in_rows(alloc, tasks, settled)?;
    let own = event_places(alloc, tasks, document, rows.as_slice(), end)?;
    places_from(alloc, own.as_slice(), end)
}
