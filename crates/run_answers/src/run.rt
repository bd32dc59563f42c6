//! The answers of all calls of a run.
ghost use Rattle.std.specs.Prelude.{◌≡◌, ◌<◌, ◌≤◌, [], All, IfOk, None, OnErr, OnOk, length, map, slice_index_or, slice_set, ℕ};
ghost use Rattle.std.specs.Option.{option_or};
ghost use Rattle.std.specs.Vec.{vec_capacity, vec_len};
ghost use Rattle.bench_types.specs.Limits.{max_steps};
ghost use Rattle.bench_types.specs.Step.{settings_of, IsCheckedStep};
ghost use Rattle.bench_model.specs.Equal.{StandsFor};
ghost use Rattle.bench_model.specs.Start.{start};
ghost use Rattle.bench_model.specs.Table.{Table};
ghost use Rattle.list_orders.specs.Search.{numbers};
ghost use Rattle.smp_kernel.specs.Counting.{meter_after};
ghost use Rattle.run_answers.specs.Answers.{answer_at, own_answers};

use crate::answer::{Answer, own_answer, task_of};
use bench_types::{CheckedSession, Step};
use smp_kernel::{Kernel, Meter};
use std::alloc::{AllocError, Global};

// Makes the steps on the kernel, and adds what each answers at its own place. There is room for it.
fn answer_each(
    kernel: &mut Kernel,
    answers: &mut Vec<Option<Answer>>,
    steps: &[Step],
    meter: &mut Meter,
)
    requires steps { All (IsCheckedStep kernel.old.settings) steps.now }
    requires few { length steps.now ≤ max_steps }
    requires none { answers.old.items ≡ [] }
    requires room { length steps.now ≤ vec_capacity answers.old }
    ensures answers { (table : Table) → StandsFor kernel.old table
        → answers.new.items ≡ own_answers table steps.now }
    ensures meter { meter.new ≡ meter_after (length steps.now) meter.old }
{
    for step in steps {
        let place = answers.len() as u32;
        let reply = kernel.step(meter, step);
        answers.push_reserved(own_answer(place, step, reply));
    }
}

// The task's step at the place is answered there, or else by the task's next answer.
fn answer_back(answers: &mut [Option<Answer>], next: &mut [Option<Answer>], place: usize, task: u32)
    requires place { place < length answers.old }
    requires task { task < length next.old }
    ensures answers { answers.new ≡ slice_set answers.old place
        (option_or (slice_index_or answers.old place None) (slice_index_or next.old task None)) }
    ensures next { next.new ≡ slice_set next.old task
        (option_or (slice_index_or answers.old place None) (slice_index_or next.old task None)) }
{
    let answer = answers[place].or(next[task as usize]);
    answers[place] = answer;
    next[task as usize] = answer;
}

// Makes of what each step answers at its own place the answers of the steps, from the last step on
// back. Each task has its next answer, at first none.
fn answer_all(answers: &mut [Option<Answer>], next: &mut [Option<Answer>], run: &CheckedSession)
    requires own { answers.old ≡ own_answers (start run.now.header) run.now.steps }
    requires tasks { length next.old ≡ (settings_of run.now.header).tasks }
    requires none { (task : ℕ) → slice_index_or next.old task None ≡ None }
    ensures { answers.new
        ≡ map (answer_at run.now.header run.now.steps) (numbers (length run.now.steps)) }
{
    let steps = run.steps();
    let mut place = steps.len();
    while place > 0 {
        place -= 1;
        if let Some(task) = task_of(&steps[place]) {
            answer_back(answers, next, place, task);
        }
    }
}

/// The answers of the calls, and of the `finish` steps, of a run, an entry for each step: the reply
/// of the step itself, or else that of the first `finish` of its task behind it that is not told to
/// wait. A step that is none has none, nor has a call that is not answered. The meter counts the
/// steps.
pub fn run_answers(
    alloc: Global,
    run: &CheckedSession,
    meter: &mut Meter,
) -> Result<Vec<Option<Answer>>, AllocError>
    ensures answers { IfOk result
        (λ answers. answers.items
        ≡ map (answer_at run.now.header run.now.steps) (numbers (length run.now.steps))) }
    ensures meter { OnOk result (meter.new ≡ meter_after (length run.now.steps) meter.old) }
    ensures uncounted { OnErr result (meter.new ≡ meter.old) }
{
    let Ok(mut kernel) = Kernel::start(alloc, run.header()) else {
        return Err(AllocError);
    };
    let steps = run.steps();
    let mut next = vec![in alloc; None; kernel.settings().tasks as usize]?;
    let mut answers = Vec::with_capacity(alloc, steps.len())?;
    answer_each(&mut kernel, &mut answers, steps, meter);
    answer_all(&mut answers, &mut next, run);
    Ok(answers)
}
