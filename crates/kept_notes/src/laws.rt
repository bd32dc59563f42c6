//! The laws of edits that are refused.
ghost use Rattle.kept_notes.specs.NoteLaws.{KeptAreMade, NoneRefusedNothingTold, PlainAreNoted, RefusedChangesNothing, RefusedKeptAreThese};

/// Which edits are refused. It does nothing: its contract is the laws.
pub fn laws_of_refused_kept()
    // Those that are refused in the session after those before them, and no others.
    ensures these { RefusedKeptAreThese }
    // The edits that are made lead to the edited session.
    ensures made { KeptAreMade }
    // A change of work that is refused changes no work.
    ensures nothing { RefusedChangesNothing }
{}

/// What is told of them. It does nothing: its contract is the laws.
pub fn laws_of_kept_notes()
    // Of edits of the session alone it is what is told of edits of a session.
    ensures plain { PlainAreNoted }
    // Nothing is told exactly where none is refused.
    ensures none { NoneRefusedNothingTold }
{}
