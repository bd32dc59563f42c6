//! Answers of calls before the edits.
ghost use Rattle.std.specs.Prelude.{◌≡◌, List, Some, length};
ghost use Rattle.bench_types.specs.declared.step.Step.{Step};
ghost use Rattle.bench_types.specs.Session.{Session};
ghost use Rattle.kept_runs.specs.Known.{answer_before, was_call};
ghost use Rattle.known_limits.specs.Before.{affirmative_at, HasAnchor, IsBefore};
ghost use Rattle.known_limits.specs.Calls.{begun_task};

use crate::calls::begins_call;
use bench_types::Step;
use kept_works::Item;
use run_answers::Answer;

// Whether the task's call is one of the document, or stands for one of the task.
fn was_call(document: &[Step], task: u32, item: &Item) -> bool
    requires { begun_task item.now.step ≡ Some task }
    ensures { result ≡ was_call document.now item.now }
{
    match document.get(item.anchor() as usize) {
        Some(step) => !item.inserted() && begins_call(task, step),
        None => false,
    }
}

// Whether the answer at the place is affirmative, if one is there.
fn affirmative_at(answers: &[Option<Answer>], place: u32) -> Option<bool>
    ensures { result ≡ affirmative_at answers.now place }
{
    match answers.get(place as usize) {
        Some(Some(answer)) => Some(answer.affirmative),
        _ => None,
    }
}

/// Whether the task's call was answered affirmatively before the edits, if it was answered: by the
/// places of the document's steps in its settled run, and the answers there.
pub(crate) fn answer_before(
    document: &[Step],
    places: &[u32],
    answers: &[Option<Answer>],
    task: u32,
    item: &Item,
) -> Option<bool>
    requires call { begun_task item.now.step ≡ Some task }
    requires anchor { HasAnchor places.now item.now }
    ensures { (session : Session) (settled : List Step) → session.steps ≡ document.now
        → IsBefore session settled places.now answers.now
        → result ≡ answer_before session settled task item.now }
{
    if !was_call(document, task, item) {
        return None;
    }
    affirmative_at(answers, places[item.anchor() as usize])
}
