//! What replies answer.
ghost use Rattle.std.specs.Prelude.{◌≡◌};
ghost use Rattle.workload_runs.specs.Courses.{is_affirmative, is_blocked};
ghost use Rattle.run_answers.specs.Answers.{answered, own_answer, task_of};

use bench_types::{Reply, Step};

/// The answer of a call.
#[derive(Clone, Copy, Debug, PartialEq, Eq)]
pub struct Answer {
    /// The place of the step whose reply it is: the call itself, or a `finish` behind it.
    pub place: u32,
    /// Whether the call did what it was to do.
    pub affirmative: bool,
}

fn is_affirmative(reply: Reply) -> bool
    ensures { result ≡ is_affirmative reply }
{
    match reply {
        Reply::Done | Reply::Blocked => true,
        Reply::Flag(flag) => flag,
        Reply::Value(value) => value != 0,
        Reply::Waited { ok, .. } => ok,
        Reply::Until { delayed, .. } => delayed,
        Reply::Isr { pass, .. } => pass,
        Reply::Refused(_) => false,
    }
}

fn is_blocked(reply: Reply) -> bool
    ensures { result ≡ is_blocked reply }
{
    matches!(reply, Reply::Blocked)
}

// The answer that the reply at the place is to the task of the step; none where the task waits.
fn answered(place: u32, reply: Reply) -> Option<Answer>
    ensures { result ≡ answered place reply }
{
    if is_blocked(reply) {
        return None;
    }
    Some(Answer {
        place,
        affirmative: is_affirmative(reply),
    })
}

/// The task of a call, or of a `finish`.
pub(crate) fn task_of(step: &Step) -> Option<u32>
    ensures { result ≡ task_of step.now }
{
    match *step {
        Step::Call { task, .. } => Some(task),
        _ => None,
    }
}

/// The answer that the reply of the step at the place is to the task of the step, if it has one.
pub(crate) fn own_answer(place: u32, step: &Step, reply: Reply) -> Option<Answer>
    ensures { result ≡ own_answer place step.now reply }
{
    match *step {
        Step::Call { .. } => answered(place, reply),
        _ => None,
    }
}
