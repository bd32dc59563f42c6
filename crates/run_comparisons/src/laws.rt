//! The laws of the rows of two runs.
ghost use Rattle.run_comparisons.specs.Comparison.{NoDifferenceIsSaid};
ghost use Rattle.run_comparisons.specs.PairLaws.{AlikeAreNotApart, AloneIsWithItself, ComingsAreMoments, EachStands, FurtherStandTogether, KeptAloneIsWithItself, KeptPairIsOne, KeptStandTogether, MomentsStandTogether, RowsAreAlike, SettledPairIsOne, SharedStandTogether, SimulatedPairIsOne};
ghost use Rattle.run_comparisons.specs.RowLaws.{MovedStandTogether, RowsAreOfOne};
ghost use Rattle.run_comparisons.specs.ShownLaws.{AllKnownIsNotTold, AllShownAreWhole, AllShownIsCompared, KnownIsToldOnce, ShownAndLeftOutAreAll, ShownHavePlaces};

/// The rows of two runs. It does nothing: its contract is the laws.
pub fn laws_of_rows()
    // Each step of either run stands in one row, in the order of that run.
    ensures each { EachStands }
    // The text says that no step differs exactly where the runs differ in no row.
    ensures said { NoDifferenceIsSaid }
    // Without edits a run stands beside itself.
    ensures alone { AloneIsWithItself }
{}

/// The rows of a session and of the edited session as their steps stand. It does nothing: its
/// contract is the laws.
pub fn laws_of_edited_rows()
    // A step stands in a row of both exactly where no edit removes it, and where the edits move it.
    ensures moved { MovedStandTogether }
    // The two steps of a row are one step, but where a `replace` put the second in place of the
    // first.
    ensures one { RowsAreOfOne }
{}

/// The rows of runs that were made: settled, simulated, or such that keep work. It does nothing:
/// its contract is the laws.
pub fn laws_of_made_rows()
    // A tick or an interrupt that both sessions have stands in a row of both settled runs.
    ensures shared { SharedStandTogether }
    // So does one that both simulated runs have.
    ensures moments { MomentsStandTogether }
    // The two steps of a row are one step, or one call of one task on whatever cores.
    ensures alike { RowsAreAlike }
    // Two such steps have no rows of their own, one directly behind the other.
    ensures apart { AlikeAreNotApart }
    // There is one pair of settled runs, and one of simulated runs.
    ensures settled { SettledPairIsOne }
    ensures simulated { SimulatedPairIsOne }
{}

/// The rows of runs that keep work. It does nothing: its contract is the laws.
pub fn laws_of_kept_rows()
    // A tick or an interrupt that both sessions have stands in a row of both runs.
    ensures shared { KeptStandTogether }
    // So do further ones that come in both runs behind those of the sessions.
    ensures further { FurtherStandTogether }
    // There is one pair of given runs.
    ensures one { KeptPairIsOne }
    // Without edits a run stands beside itself.
    ensures alone { KeptAloneIsWithItself }
    // Runs in which ticks and interrupts come when they do in the sessions have such a pair.
    ensures comings { ComingsAreMoments }
{}

/// The rows at some places alone. It does nothing: its contract is the laws.
pub fn laws_of_shown_rows()
    // A row is shown exactly where it has a place among the places, before the edits or after them.
    ensures places { ShownHavePlaces }
    // Those that are shown and those that are left out are all rows.
    ensures counted { ShownAndLeftOutAreAll }
    // Where each row is shown, the lines are those of all rows, and the comparison is that without
    // places.
    ensures whole { AllShownAreWhole }
    ensures compared { AllShownIsCompared }
{}

/// Up to where the run after the edits is known. It does nothing: its contract is the laws.
pub fn laws_of_known_rows()
    // Where all of it is known, the rows alone are told.
    ensures alone { AllKnownIsNotTold }
    // Else it is told once, whichever rows are shown.
    ensures once { KnownIsToldOnce }
{}
