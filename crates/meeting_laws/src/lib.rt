//! The laws by which the replay of an edited session may stop: from equal states, and from states
//! that are equal but for a tick count that no step reads, the same steps go on alike. Each
//! function does nothing: its contract is the laws, one a clause.
#![tactic(auto)]

ghost use Rattle.meeting_laws.specs.CheckpointLaws.{FirstCheckpointsFit, NextCheckpointsFit, PlacesAreNear, NextAreThese, AddedIsReplayed, AscendingAreOne, CheckpointBeforeIsLast, MovedPlacesAreWithin, LaterPlacesMoveAlike, ReplayIsWithin};
ghost use Rattle.meeting_laws.specs.MeetingLaws.{StepsBeforeStay, StepsAfterMove, BeforeIsUntouched, MeetingLasts, MetIsFirstEnd, FirstEndIsMet};
ghost use Rattle.meeting_laws.specs.RunLaws.{EqualRunAlike, MeetingsAreTested, MeetingsPass, MetRunAlike, ResultsFollow, SegmentsAddUp, StatesAreSound, StatesGoOn, EqualStandAlike, MetGoOnAlike};

/// Lists of steps.
pub fn laws_of_runs()
    // From equal tables checked steps have equal replies, running tasks and tallies, and lead to
    // equal states at each place.
    ensures equal_run_alike { EqualRunAlike }
    // So they have from tables that meet, equal but for the tick count where no step reads it; the
    // test of a meeting tells just whether they do.
    ensures met_run_alike { MetRunAlike }
    ensures meetings_are_tested { MeetingsAreTested }
    ensures meetings_pass { MeetingsPass }
    // Replies and running tasks of steps that follow others are those from the state that these
    // left, and the tallies of segments add up to those of all.
    ensures results_follow { ResultsFollow }
    ensures segments_add_up { SegmentsAddUp }
    // Every state of a session is sound, and a later one is that after the steps between.
    ensures states_are_sound { StatesAreSound }
    ensures states_go_on { StatesGoOn }
    // A kernel stands for each sound table that is equal to one that it stands for.
    ensures equal_stand_alike { EqualStandAlike }
    // Two sessions that meet at two places, and have the same steps after them, have equal replies
    // and running tasks from there on, and states that are equal but for the tick count.
    ensures met_go_on_alike { MetGoOnAlike }
{}

/// Edits of a session: what stays before them, and what is as it was after a meeting.
pub fn laws_of_meetings()
    // The steps before an edit stay, and those after it are the same steps.
    ensures steps_before_stay { StepsBeforeStay }
    ensures steps_after_move { StepsAfterMove }
    // Where no task is changed, states, replies and running tasks before the edit stay.
    ensures before_is_untouched { BeforeIsUntouched }
    // From a meeting on, states, replies and running tasks are as they were, at moved places, but
    // for a tick count that is so many ticks later.
    ensures meeting_lasts { MeetingLasts }
    // The replay ends at the first place where a meeting lies, or else at the end.
    ensures met_is_first_end { MetIsFirstEnd }
    ensures first_end_is_met { FirstEndIsMet }
{}

/// Checkpoints, and how much of a session lies between them.
pub fn laws_of_checkpoints()
    // Those at the opening begin with the start and ascend, and no segment has two spans.
    ensures first_checkpoints_fit { FirstCheckpointsFit }
    // An accepted edit leaves them so.
    ensures next_checkpoints_fit { NextCheckpointsFit }
    // So each place is fewer than two spans after the last checkpoint before it.
    ensures places_are_near { PlacesAreNear }
    // That checkpoint is one, and no other lies between the two.
    ensures checkpoint_before_is_last { CheckpointBeforeIsLast }
    // Those after an edit are the places where checkpoints have moved to, and at most one that is
    // added, which lies among the steps that are replayed.
    ensures next_are_these { NextAreThese }
    ensures added_is_replayed { AddedIsReplayed }
    // A list of ascending places is told by which places it has.
    ensures ascending_are_one { AscendingAreOne }
    // A place where two sessions are compared lies in the edited one after the edit, or on it, and
    // later places lie as far after it as they did.
    ensures moved_places_are_within { MovedPlacesAreWithin }
    ensures later_places_move_alike { LaterPlacesMoveAlike }
    // A replay ends after it begins, and within the edited session.
    ensures replay_is_within { ReplayIsWithin }
{}
