//! A walk over the places of a run.
ghost use Rattle.std.specs.Prelude.{◌≡◌, ◌≤◌, length, option_map, IfOk};
ghost use Rattle.bench_model.specs.Session.{running_at};
ghost use Rattle.session_runs.specs.Made.{row_at};

use crate::run::Run;
use std::alloc::{AllocError, Global};
use std::marker::Model;

/// Tells for one place of a run after another which tasks run there. It goes on from where it
/// stands, so that a reader in order goes over the run once; for an earlier place it starts anew.
/// Clauses see the session that the steps of the run are.
#[derive(Debug, Drop)]
pub struct RunWalk<'a> {
    run: &'a Run,
    /// It stands at this place.
    place: u32,
    /// The tasks that run there, core 0 first.
    row: Vec<u32>,
}

impl<'a> Model for RunWalk<'a> {
    ghost use Rattle.std.specs.Prelude.{◌≡◌, ◌≤◌, length};
    ghost use Rattle.bench_types.specs.Session.{Session};
    ghost use Rattle.session_runs.specs.Made.{row_at};

    ghost Value = { Session };

    ghost view = { λ walk. walk.run.now.session };

    ghost invariant = { λ walk. (walk.place ≤ length walk.run.now.session.steps)
        × (walk.row.items ≡ row_at walk.run.now.session walk.place) };
}

// Where a walk to a place begins: at the start, where it stands behind the place. The tasks become
// those that run there.
fn turned_back(run: &Run, row: &mut [u32], from: u32, to: u32) -> u32
    requires { row.old ≡ row_at run.now.session from }
    ensures order { result ≤ to }
    ensures row { row.new ≡ row_at run.now.session result }
{
    if from <= to {
        return from;
    }
    row.copy_from_slice(run.first_row());
    0
}

// Makes of the tasks that run at one place those that run at a later one.
fn go_on(run: &Run, row: &mut [u32], from: u32, to: u32)
    requires order { from ≤ to }
    requires within { to ≤ length run.now.session.steps }
    requires row { row.old ≡ row_at run.now.session from }
    ensures { row.new ≡ row_at run.now.session to }
{
    for place in from..to {
        run.take_step(place, row);
    }
}

// Makes of the tasks that run at one place those that run at another.
fn go_to(run: &Run, row: &mut [u32], from: u32, to: u32)
    requires within { to ≤ length run.now.session.steps }
    requires row { row.old ≡ row_at run.now.session from }
    ensures { row.new ≡ row_at run.now.session to }
{
    let place = turned_back(run, row, from, to);
    go_on(run, row, place, to);
}

impl<'a> RunWalk<'a> {
    /// A walk that stands at the start.
    pub(crate) fn of(alloc: Global, run: &'a Run) -> Result<RunWalk<'a>, AllocError>
        ensures { IfOk result (λ walk. walk ≡ run.now.session) }
    {
        let row = Vec::from_slice(alloc, run.first_row())?;
        Ok(RunWalk { run, place: 0, row })
    }

    /// The tasks that run at the place, core 0 first; `None` past the last place, which is as many
    /// as there are steps.
    pub fn row_at(&mut self, alloc: Global, place: u32) -> Result<Option<Vec<u32>>, AllocError>
        ensures row { IfOk result (λ found. option_map (λ row. row.items) found
            ≡ running_at self.old.header self.old.steps place) }
        ensures session { self.new ≡ self.old }
    {
        if place as usize > self.run.session().steps().len() {
            return Ok(None);
        }
        go_to(self.run, &mut self.row, self.place, place);
        self.place = place;
        let row = Vec::from_slice(alloc, self.row.as_slice())?;
        Ok(Some(row))
    }
}
