//! The laws by which a session is kept in segments, each with the kernel at its checkpoint. Each
//! function does nothing: its contract is the laws, one a clause.
#![tactic(auto)]

ghost use Rattle.segment_laws.specs.SegmentLaws.{PlacesAreRead, SegmentFollows, ResultsStayLater, OpenedPlacesAreFirst, PartsAreFound, PartStandsStill, EditedSegmentsStand, UnmetAreReplayed};

/// What the segments of a session tell of its places.
pub fn laws_of_segments()
    // What a session has at a place is found in the segment from the last checkpoint before it.
    ensures places_are_read { PlacesAreRead }
    // The kernel of a segment stands for the table after the steps of those before it.
    ensures segment_follows { SegmentFollows }
    // What its steps led to stays so many ticks later, where none reads the tick count.
    ensures results_stay_later { ResultsStayLater }
    // A session that is opened is cut at each span before its last place.
    ensures opened_places_are_first { OpenedPlacesAreFirst }
{}

/// Edits of a session in segments.
pub fn laws_of_edited_segments()
    // The segment from the last checkpoint before an edit is the one with its place, and its
    // kernel stands for the edited session's state there where the header stays.
    ensures parts_are_found { PartsAreFound }
    ensures part_stands_still { PartStandsStill }
    // The segments before the edit, those that the replay made and, so many ticks later, those
    // where it need not go are the edited session's. The replay ends where the two sessions meet.
    ensures edited_segments_stand { EditedSegmentsStand }
    // The replay ends no earlier than after the segments that it doesn't meet.
    ensures unmet_are_replayed { UnmetAreReplayed }
{}
