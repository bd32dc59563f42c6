//! What a run tells of its steps, one place after another.
ghost use Rattle.std.specs.Prelude.{◌≡◌, true, IfOk};
ghost use Rattle.run_comparisons.specs.Made.{printed_made, AreNamedAlike};
ghost use Rattle.run_comparisons.specs.Printed.{printed_at};

use crate::made::{MadeStep, are_named_alike};
use crate::printed::{Printed, no_step, printed_of};
use crate::shared::step_at;
use bench_types::Header;
use session_runs::{Run, RunWalk};
use std::alloc::{AllocError, Global};
use std::marker::Model;

/// A run, and a walk over its places. A reader in order goes over the run once. Clauses see the
/// session that the steps of the run are.
#[derive(Drop)]
pub(crate) struct RunReader<'a> {
    run: &'a Run,
    walk: RunWalk<'a>,
}

impl<'a> Model for RunReader<'a> {
    ghost use Rattle.std.specs.Prelude.{◌≡◌};
    ghost use Rattle.bench_types.specs.Session.{Session};

    ghost Value = { Session };

    ghost view = { λ reader. reader.run.now.session };

    ghost invariant = { λ reader. reader.walk ≡ reader.run.now.session };
}

impl<'a> RunReader<'a> {
    /// A reader of the run.
    pub(crate) fn of(alloc: Global, run: &'a Run) -> Result<RunReader<'a>, AllocError>
        ensures { IfOk result (λ reader. reader ≡ run.now.session) }
    {
        let walk = run.walk(alloc)?;
        Ok(RunReader { run, walk })
    }

    /// The header of the session.
    pub(crate) fn header(&self) -> &Header
        ensures { result.now ≡ self.now.header }
    {
        self.run.session().header()
    }

    /// Whether each task has one name in both runs.
    pub(crate) fn is_named_alike(&self, other: &RunReader<'_>) -> bool
        ensures { result ≡ true → AreNamedAlike self.now.header other.now.header }
    {
        are_named_alike(self.run.session().header(), other.run.session().header())
    }

    /// The step at the place, and what it led to; none past the last.
    pub(crate) fn made_at(
        &mut self,
        alloc: Global,
        place: u32,
    ) -> Result<Option<MadeStep>, AllocError>
        ensures made { IfOk result
            (λ made. printed_made self.old.header made ≡ printed_at self.old place) }
        ensures session { self.new ≡ self.old }
    {
        let Some(step) = step_at(self.run.session().steps(), place) else {
            return Ok(None);
        };
        let Some(reply) = self.run.reply(place) else {
            return Ok(None);
        };
        let Some(tasks) = self.walk.row_at(alloc, place + 1)? else {
            return Ok(None);
        };
        Ok(Some(MadeStep { step, reply, tasks }))
    }

    /// What the run tells of its step at the place; nothing past the last.
    pub(crate) fn printed_at(&mut self, alloc: Global, place: u32) -> Result<Printed, AllocError>
        ensures printed { IfOk result (λ printed. printed ≡ printed_at self.old place) }
        ensures session { self.new ≡ self.old }
    {
        let Some(made) = self.made_at(alloc, place)? else {
            return Ok(no_step(alloc));
        };
        let header = self.run.session().header();
        printed_of(alloc, header, made.step, made.reply, made.tasks.as_slice())
    }
}
