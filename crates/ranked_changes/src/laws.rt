//! The laws of changes and of their ranking. Each function does nothing: its contract is the laws,
//! one a clause.
ghost use Rattle.std.specs.Prelude.{◌≡◌};
ghost use Rattle.ranked_changes.specs.ChangeLaws.{ChangesAreEdits, ChangesKeepSources, FamiliesAreAllowed, OthersAreNoBetter, RankingsAreOne};
ghost use Rattle.ranked_changes.specs.Ranking.{ranked_cmp};

use crate::Ranked;

/// Changes of a source.
pub fn laws_of_changes()
    // A change of a session makes what edits make of it: one of a task, or two of steps.
    ensures changes_are_edits { ChangesAreEdits }
    // A source with a change made passes the checks of its kind.
    ensures changes_keep_sources { ChangesKeepSources }
    // Each change of a family may be made.
    ensures families_are_allowed { FamiliesAreAllowed }
{}

/// Rankings of changes.
pub fn laws_of_rankings()
    // Entries are compared by the verdict, of equals by the size, of equals by the place.
    ensures entries_are_compared { (one other : Ranked)
        → ⟦<Ranked as Ord>⟧.cmp one other ≡ ranked_cmp one other }
    // However many of the first are kept, no other one is better than one of them.
    ensures others_are_no_better { OthersAreNoBetter }
    // By a judge the changes of a source have one ranking alone, whatever the threads do.
    ensures rankings_are_one { RankingsAreOne }
{}
