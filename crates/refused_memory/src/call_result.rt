//! What came of a call.
use std::fmt;

/// What came of a call, of which one growth at the most is refused.
#[derive(Clone, Copy, Debug, PartialEq, Eq)]
pub(crate) enum CallResult {
    /// It gave its answer.
    Answered,
    /// It answered that memory was refused. All else is as it was before, and the same call, made
    /// once more, gave its answer.
    Refused,
    /// It gave another answer, or something else had changed.
    Wrong,
}

impl CallResult {
    /// Of a call that wasn't refused memory.
    pub(crate) fn answered(is_right: bool) -> CallResult {
        if is_right {
            CallResult::Answered
        } else {
            CallResult::Wrong
        }
    }

    /// Of a call that was.
    pub(crate) fn refused(is_right: bool) -> CallResult {
        if is_right {
            CallResult::Refused
        } else {
            CallResult::Wrong
        }
    }

    /// Of several calls in a row: the first that did not give its answer decides.
    pub(crate) fn then(self, next: CallResult) -> CallResult {
        match self {
            CallResult::Answered => next,
            _ => self,
        }
    }
}

/// An outcome, or that memory was refused before the call, and it wasn't made.
#[derive(Clone, Copy, Debug, PartialEq, Eq)]
pub(crate) struct Printed(pub(crate) Option<CallResult>);

impl fmt::Display for Printed {
    fn fmt<W: fmt::Write>(&self, f: &mut fmt::Formatter<W>) -> fmt::Result {
        f.write_str(match self.0 {
            None => "not made",
            Some(CallResult::Answered) => "answered",
            Some(CallResult::Refused) => "refused, all as before, then answered",
            Some(CallResult::Wrong) => "WRONG",
        })
    }
}
