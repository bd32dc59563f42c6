//! Two runs beside each other.
ghost use Rattle.std.specs.Prelude.{◌≡◌, ◌+◌, ◌<◌, ◌^◌, IfOk, length, true, false};
ghost use Rattle.bench_model.specs.Edits.{after_edits};
ghost use Rattle.run_comparisons.specs.Pairs.{edited_pair, known_place, EachStandsOnce, IsKeptPair, IsSettledPair, IsSimulatedPair};
ghost use Rattle.run_comparisons.specs.Shared.{AreMomentsOf};
ghost use Rattle.session_runs.specs.Run.{IsRunOf};

use crate::refusals::refused_places;
use crate::rows::{Row, edited_rows};
use crate::side_by_side::{kept_rows, settled_rows, simulated_rows};
use kept_runs::KnownLimit;
use session_edits::EditedSession;
use session_runs::Run;
use std::alloc::{AllocError, Global};
use std::marker::Model;

/// A run before edits and the run after them, with the rows in which their steps stand beside each
/// other, and the places of the edits that are refused. Each step of either run stands in one row,
/// in the order of that run. A run that keeps work may be known up to a place alone.
#[derive(Debug, Drop)]
pub struct RunPair {
    before: Run,
    after: Run,
    rows: Vec<Row>,
    refused: Vec<usize>,
    known: Option<KnownLimit>,
}

impl Model for RunPair {
    ghost use Rattle.run_comparisons.specs.Pairs.{EachStandsOnce, PairView};

    ghost Value = { PairView };

    ghost view = { λ pair.
        record {
          before = pair.before;
          after = pair.after;
          rows = pair.rows.items;
          refused = pair.refused.items;
          known = pair.known;
        } };

    ghost invariant = { λ pair. EachStandsOnce pair.before pair.after pair.rows.items };
}

impl RunPair {
    // Of these runs and rows, and edits that are refused at these places. So far the run after them
    // is known.
    fn of_parts(
        before: Run,
        after: Run,
        rows: Vec<Row>,
        refused: Vec<usize>,
        known: Option<KnownLimit>,
    ) -> RunPair
        requires { EachStandsOnce before after rows.items }
        ensures { result
            ≡ record {
              before = before;
              after = after;
              rows = rows.items;
              refused = refused.items;
              known = known;
            } }
    {
        RunPair {
            before,
            after,
            rows,
            refused,
            known,
        }
    }

    /// The run of the session as its steps stand and that of the session after the edits.
    pub fn of_edited(
        alloc: Global,
        edited: &EditedSession,
        before: Run,
        after: Run,
    ) -> Result<RunPair, AllocError>
        requires before { IsRunOf false edited.now.session before }
        requires after { IsRunOf false (after_edits edited.now.session edited.now.edits) after }
        ensures { IfOk result
            (λ pair. pair ≡ edited_pair edited.now.session edited.now.edits) }
    {
        let rows = edited_rows(alloc, edited)?;
        let refused = refused_places(alloc, edited)?;
        Ok(RunPair::of_parts(before, after, rows, refused, None))
    }

    /// The settled run of the session and that of the session after the edits.
    pub fn of_settled(
        alloc: Global,
        edited: &EditedSession,
        before: Run,
        after: Run,
    ) -> Result<RunPair, AllocError>
        requires before { IsRunOf true edited.now.session before }
        requires after { IsRunOf true (after_edits edited.now.session edited.now.edits) after }
        ensures pair { IfOk result
            (λ pair. IsSettledPair edited.now.session edited.now.edits pair) }
        ensures before { IfOk result (λ pair. pair.before ≡ before) }
        ensures after { IfOk result (λ pair. pair.after ≡ after) }
    {
        let rows = settled_rows(alloc, edited, &before, &after)?;
        let refused = refused_places(alloc, edited)?;
        Ok(RunPair::of_parts(before, after, rows, refused, None))
    }

    /// The runs of two workloads. No edit of a workload is refused.
    pub fn of_simulated(alloc: Global, before: Run, after: Run) -> Result<RunPair, AllocError>
        ensures { IfOk result (λ pair. IsSimulatedPair before after pair) }
    {
        let rows = simulated_rows(alloc, &before, &after)?;
        Ok(RunPair::of_parts(before, after, rows, Vec::new(alloc), None))
    }

    /// The run that keeps work of the session, and that of the session after the edits. Edits are
    /// refused at these places, and so far the run after them is known.
    pub fn of_kept(
        alloc: Global,
        edited: &EditedSession,
        before: Run,
        after: Run,
        refused: Vec<usize>,
        known: Option<KnownLimit>,
    ) -> Result<RunPair, AllocError>
        // The ticks and interrupts of each are those of its run; behind them further ones may come.
        requires before { AreMomentsOf edited.now.session.steps before.session.steps }
        requires after { AreMomentsOf (after_edits edited.now.session edited.now.edits).steps
            after.session.steps }
        ensures { IfOk result
            (λ pair. IsKeptPair edited.now.session edited.now.edits refused.items known before
            after pair) }
    {
        let rows = kept_rows(alloc, edited, &before, &after)?;
        Ok(RunPair::of_parts(before, after, rows, refused, known))
    }

    /// The run before the edits.
    pub fn before(&self) -> &Run
        ensures { result.now ≡ self.now.before }
    {
        &self.before
    }

    /// The run after them.
    pub fn after(&self) -> &Run
        ensures { result.now ≡ self.now.after }
    {
        &self.after
    }

    /// The rows in which the steps of both runs stand beside each other.
    #[tactic(auto, using(crate::proofs::RowsCounted::few_rows))]
    pub fn rows(&self) -> &[Row]
        ensures rows { result.now ≡ self.now.rows }
        ensures few { length self.now.rows + 1 < 2 ^ 32 }
    {
        // A run has no more steps than a session may have.
        let _before = self.before.session().steps();
        let _after = self.after.session().steps();
        self.rows.as_slice()
    }

    /// The places of the edits that are refused.
    pub fn refused(&self) -> &[usize]
        ensures { result.now ≡ self.now.refused }
    {
        self.refused.as_slice()
    }

    /// Up to where the run after the edits is known; all of it where there is none.
    pub fn known(&self) -> Option<KnownLimit>
        ensures { result ≡ self.now.known }
    {
        self.known
    }

    /// The place up to which the run after the edits is known, at most the end of the run; none
    /// where all of it is known.
    pub fn known_place(&self) -> Option<u32>
        ensures { result ≡ known_place self.now }
    {
        let end = self.after.session().steps().len();
        let limit = self.known?;
        Some(limit.place.min(end) as u32)
    }
}
