//! The answers before the edits, in a row for each task.
ghost use Rattle.std.specs.Prelude.{◌≡◌, ◌+◌, ◌<◌, ◌++◌, ◌∷◌, [], ℕ, List, All, IfOk, OnOk, length, slice_set};
ghost use Rattle.bench_types.specs.declared.step.Step.{Step};
ghost use Rattle.bench_types.specs.Limits.{max_steps};
ghost use Rattle.bench_types.specs.Session.{Session};
ghost use Rattle.known_limits.specs.Before.{answer_in, row_at, AreRows, HasAnchor, IsBefore, IsCallBelow};

use crate::before::answer_before;
use crate::calls::begun_task;
use bench_types::Step;
use kept_works::Item;
use run_answers::Answer;
use std::alloc::{AllocError, Global};
use std::marker::Model;

/// The answers before the edits to the calls of a task, in the order of the list.
#[derive(Drop)]
pub(crate) struct AnswerRow {
    answers: Vec<Option<bool>>,
}

impl Model for AnswerRow {
    ghost use Rattle.std.specs.Prelude.{Bool, List, Option};

    ghost Value = { List (Option Bool) };

    ghost view = { λ row. row.answers.items };
}

impl AnswerRow {
    fn new(alloc: Global) -> Self
        ensures { result ≡ [] }
    {
        AnswerRow {
            answers: Vec::new(alloc),
        }
    }

    fn push(&mut self, answer: Option<bool>) -> Result<(), AllocError>
        ensures { OnOk result (self.new ≡ self.old ++ answer ∷ []) }
    {
        self.answers.push(answer)?;
        Ok(())
    }

    fn get(&self, index: u32) -> Option<bool>
        ensures { result ≡ answer_in self.now index }
    {
        match self.answers.get(index as usize) {
            Some(answer) => *answer,
            None => None,
        }
    }

    /// The next answer of the row, of which so many have come.
    pub(crate) fn next(&self, come: &mut u32) -> Option<bool>
        requires few { come.old < max_steps }
        ensures answer { result ≡ answer_in self.now come.old }
        ensures come { come.new ≡ come.old + 1 }
    {
        let answer = self.get(*come);
        *come += 1;
        answer
    }
}

// So many rows without answers.
fn empty_rows(alloc: Global, count: usize) -> Result<Vec<AnswerRow>, AllocError>
    ensures many { IfOk result (λ rows. length rows.items ≡ count) }
    ensures empty { IfOk result (λ rows. (row : ℕ) → row_at rows.items row ≡ []) }
{
    let mut rows = Vec::with_capacity(alloc, count)?;
    for _row in 0..count {
        rows.push(AnswerRow::new(alloc))?;
    }
    Ok(rows)
}

// Puts the answer behind those of the row.
fn push_to(rows: &mut Vec<AnswerRow>, row: usize, answer: Option<bool>) -> Result<(), AllocError>
    requires { row < length rows.old.items }
    ensures { OnOk result
        (rows.new.items
        ≡ slice_set rows.old.items row (row_at rows.old.items row ++ answer ∷ [])) }
{
    rows[row].push(answer)
}

/// The answers of so many tasks in their rows: by the places of the document's steps in its settled
/// run, and the answers there.
pub(crate) fn answers_in_rows(
    alloc: Global,
    document: &[Step],
    places: &[u32],
    answers: &[Option<Answer>],
    items: &[Item],
    tasks: u32,
) -> Result<Vec<AnswerRow>, AllocError>
    requires anchors { All (HasAnchor places.now) items.now }
    requires tasks { All (IsCallBelow tasks) items.now }
    ensures { IfOk result (λ rows. (session : Session) (settled : List Step)
        → session.steps ≡ document.now → IsBefore session settled places.now answers.now
        → AreRows session settled tasks items.now rows.items) }
{
    let mut rows = empty_rows(alloc, tasks as usize)?;
    for item in items {
        if let Some(task) = begun_task(&item.step()) {
            let answer = answer_before(document, places, answers, task, item);
            push_to(&mut rows, task as usize, answer)?;
        }
    }
    Ok(rows)
}
