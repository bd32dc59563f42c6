//! The laws of sessions: edits keep one, equality is equality pair by pair, tallies add up. Each
//! function does nothing: its contract is the laws, one a clause.
#![tactic(auto)]

ghost use Rattle.session_laws.specs.AlikeLaws.{SameIsAlike, SameIsTested};
ghost use Rattle.session_laws.specs.EditLaws.{EditKeepsSession, EditKeepsRoom};
ghost use Rattle.session_laws.specs.TallyLaws.{TalliesAreStepwise, PartsAddUp, CountsAreFew, CountingKeepsShape, AddingKeepsShape, TalliesFitSettings, TallySimulates};

/// Edits of a session.
pub fn laws_of_edits()
    // An accepted edit leaves a session: a header that passes its check, and steps that pass
    // theirs under it.
    ensures keeps_session { EditKeepsSession }
    // It leaves not too many steps.
    ensures keeps_room { EditKeepsRoom }
{}

/// Equality of kernels by what can be seen of them.
pub fn laws_of_equality()
    // What can be seen of two sound tables, sorted into lists, is equal exactly where the tables
    // are alike pair by pair.
    ensures same_is_alike { SameIsAlike }
    // The test of it that computes tells just whether they are equal.
    ensures same_is_tested { SameIsTested }
{}

/// The tallies of a session.
pub fn laws_of_tallies()
    // The tallies of a session are those of its start, with each step counted in turn.
    ensures tallies_are_stepwise { TalliesAreStepwise }
    // Where a session is cut in two, its tallies are the numbers of both parts together.
    ensures parts_add_up { PartsAddUp }
    // No count is above the number of steps.
    ensures counts_are_few { CountsAreFew }
    // They have a number for each task and core of the settings, and keep that where a step is
    // counted and where parts are added.
    ensures tallies_fit_settings { TalliesFitSettings }
    ensures counting_keeps_shape { CountingKeepsShape }
    ensures adding_keeps_shape { AddingKeepsShape }
    // A step counts the same over lists.
    ensures tally_simulates { TallySimulates }
{}
