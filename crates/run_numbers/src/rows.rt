//! The rows in which subjects are counted: one for each task, and one for all others.
ghost use Rattle.std.specs.Prelude.{◌≡◌, ◌<◌, ◌≤◌, ◌-◌, ◌^◌, IfOk};
ghost use Rattle.run_numbers.specs.Rows.{row_of, widened, AreSpans};

use crate::Subject;
use std::alloc::{AllocError, Global};

/// Where the subjects of a row stand: none of them is before the first place or from the end on.
#[derive(Clone, Copy)]
pub(crate) struct Span {
    pub(crate) first: usize,
    pub(crate) end: usize,
}

/// The row of the subject: its task, or how many tasks there are.
pub(crate) fn row_of(tasks: u32, subject: Subject) -> u32
    ensures value { result ≡ row_of tasks subject }
    ensures low { result ≤ tasks }
{
    match subject.task() {
        Some(task) => task.min(tasks),
        None => tasks,
    }
}

// The span with the place, which is behind all that it has.
fn widened(span: Span, place: usize) -> Span
    requires { place < 2 ^ 64 - 1 }
    ensures { result ≡ widened place span }
{
    Span {
        first: if span.end == 0 { place } else { span.first },
        end: place + 1,
    }
}

/// Where the subjects of each row stand.
pub(crate) fn spans_of(
    alloc: Global,
    tasks: u32,
    subjects: &[Subject],
) -> Result<Vec<Span>, AllocError>
    ensures { IfOk result (λ spans. AreSpans tasks subjects.now spans.items) }
{
    let none = Span { first: 0, end: 0 };
    let mut spans = vec![in alloc; none; tasks as usize + 1]?;
    for place in 0..subjects.len() {
        let row = row_of(tasks, subjects[place]) as usize;
        spans[row] = widened(spans[row], place);
    }
    Ok(spans)
}
