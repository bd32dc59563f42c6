//! The laws of edits that are refused.
ghost use Rattle.session_edits.specs.Notes.{RefusedArePrinted};
ghost use Rattle.session_edits.specs.Refused.{RefusedAreThese};

/// What is told of refused edits. It does nothing: its contract is the laws.
pub fn laws_of_refused_edits()
    // Those are told that are refused, each by its place, and no others.
    ensures these { RefusedAreThese }
    // Nothing is told where none is refused.
    ensures printed { RefusedArePrinted }
{}
