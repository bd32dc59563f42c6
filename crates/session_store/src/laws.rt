//! The laws of the sessions that rigs record, on a function that does nothing: its contract is the
//! laws, one a clause.
ghost use Rattle.session_store.specs.Recorded.{RecordedIsOpened, RecordedReplies};

/// What rigs record, in a store.
pub fn laws_of_recordings()
    // [`Store::open`] refuses it only where the span is no span (J3), or for want of memory.
    ensures recorded_is_opened { RecordedIsOpened }
    // [`Store::reply`] then gives each entry's reply at its place.
    ensures recorded_replies { RecordedReplies }
{}
