//! The laws of histories, which are what the threads of cores recorded of one kernel. Each function
//! does nothing: its contract is the laws, one a clause.
#![tactic(auto)]

ghost use Rattle.history_laws.specs.HoldLaws.{HeldIsKeptOut, StartHoldsNothing, OthersKeepDepth, StepFitsRoom, CloseIsDone};
ghost use Rattle.history_laws.specs.LegalLaws.{EmptyIsLegal, OneMoreIsLegal, EmptyEndsAtStart, OneMoreEndsAfter, CoresAreThere, LegalIsSound, LegalIsSession, RepliesAreKept, NoneIsByCurrent, OneMoreIsByCurrent};
ghost use Rattle.history_laws.specs.PartLaws.{OneMoreIsMade, MadeInBoth, CoresAddUp, WholeIsBeginning, BeginningsNest, FirstIsBeginning, BeginningIsLegal, NoneIsGrowth, OneIsGrowth, GrowthGoesOn, GrowthLeavesOthers, GrowthKeepsBeginning};

/// Legal histories, entry by entry.
pub fn laws_of_histories()
    // A history of no entries is legal.
    ensures empty_is_legal { EmptyIsLegal }
    // One of an entry more is legal exactly where the history before is, and the entry may come
    // next.
    ensures one_more_is_legal { OneMoreIsLegal }
    // A history of no entries ends at the start.
    ensures empty_ends_at_start { EmptyEndsAtStart }
    // One of an entry more ends after the entry's step.
    ensures one_more_ends_after { OneMoreEndsAfter }
    // Each entry is made by one of the cores, where the header was checked.
    ensures cores_are_there { CoresAreThere }
    // Where the header was checked, each table on the way is sound.
    ensures legal_is_sound { LegalIsSound }
{}

/// Legal histories as sessions.
pub fn laws_of_recorded_sessions()
    // The steps of a legal history are a session of its header, where that was checked.
    ensures legal_is_session { LegalIsSession }
    // A replay of it gives each entry's reply.
    ensures replies_are_kept { RepliesAreKept }
{}

/// Histories in which each call is by the current task of its core.
pub fn laws_of_callers()
    // So it is of no entries.
    ensures none_is_by_current { NoneIsByCurrent }
    // And of an entry more, exactly where it is so before, and of the entry.
    ensures one_more_is_by_current { OneMoreIsByCurrent }
{}

/// The entries of one core in a history, in their order.
pub fn laws_of_entries()
    // An entry more is one more of its core, and no other core's.
    ensures one_more_is_made { OneMoreIsMade }
    // Of two histories, one after the other, a core's entries are those of the first and then those
    // of the second.
    ensures made_in_both { MadeInBoth }
    // The entries of all cores add up to the history.
    ensures cores_add_up { CoresAddUp }
{}

/// Histories that begin with another one.
pub fn laws_of_beginnings()
    // Each history begins with itself.
    ensures whole_is_beginning { WholeIsBeginning }
    // A beginning of a beginning is a beginning.
    ensures beginnings_nest { BeginningsNest }
    // Entries that come after a history leave it the beginning.
    ensures first_is_beginning { FirstIsBeginning }
    // A beginning of a legal history is legal.
    ensures beginning_is_legal { BeginningIsLegal }
{}

/// Histories to which one core added entries.
pub fn laws_of_growth()
    // No entries at all are growth by every core, and an entry is growth by its own.
    ensures none_is_growth { NoneIsGrowth }
    ensures one_is_growth { OneIsGrowth }
    // A core's growth after its growth is its growth.
    ensures growth_goes_on { GrowthGoesOn }
    // Other cores have the entries that they had.
    ensures growth_leaves_others { GrowthLeavesOthers }
    // What the history began with, it begins with still.
    ensures growth_keeps_beginning { GrowthKeepsBeginning }
{}

/// What an open hold of the kernel keeps out.
pub fn laws_of_keeping_out()
    // A step is refused with E1 exactly where the hold keeps it out, whatever the table.
    ensures held_is_kept_out { HeldIsKeptOut }
    // At the start no hold is open.
    ensures start_holds_nothing { StartHoldsNothing }
    // How many times over a core holds the kernel changes only by the core's own steps.
    ensures others_keep_depth { OthersKeepDepth }
{}

/// The room that a recording needs while a core holds the kernel.
pub fn laws_of_room()
    // A step that there are places for leaves room for its entry, and for one for each time that
    // the kernel is held after it.
    ensures step_fits_room { StepFitsRoom }
    // The current task of a core that holds the kernel can always close the hold.
    ensures close_is_done { CloseIsDone }
{}
