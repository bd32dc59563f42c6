//! The limit that an answer sets.
ghost use Rattle.std.specs.Prelude.{◌≡◌};
ghost use Rattle.kept_runs.specs.Known.{differ};
ghost use Rattle.known_limits.specs.Limits.{limit_by, sooner};

use kept_runs::{KnownLimit, LimitReason};
use run_answers::Answer;

// Whether one answer is affirmative, and the other is not.
fn differ(one: Option<bool>, other: bool) -> bool
    ensures { result ≡ differ one (Some other) }
{
    match one {
        Some(one) => one != other,
        None => false,
    }
}

/// The limit behind the answer to the task's call, where another answer was given before the edits.
pub(crate) fn limit_by(task: u32, before: Option<bool>, now: Option<Answer>) -> Option<KnownLimit>
    ensures { result ≡ limit_by task before now }
{
    let answer = now?;
    if !differ(before, answer.affirmative) {
        return None;
    }
    Some(KnownLimit {
        place: answer.place as usize + 1,
        task,
        reason: LimitReason::Answer {
            affirmative: answer.affirmative,
        },
    })
}

/// The one at the lesser place, the first where both are at one place.
pub(crate) fn sooner(first: Option<KnownLimit>, second: Option<KnownLimit>) -> Option<KnownLimit>
    ensures { result ≡ sooner first second }
{
    match (first, second) {
        (Some(first), Some(second)) => {
            if second.place < first.place {
                Some(second)
            } else {
                Some(first)
            }
        }
        (first, None) => first,
        (None, second) => second,
    }
}
