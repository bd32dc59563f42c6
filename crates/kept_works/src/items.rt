//! The edited list.
ghost use Rattle.std.specs.Prelude.{◌≡◌, ◌<◌, ◌++◌, ◌∷◌, [], ◌≤◌, ℕ, Ok, true, false, All, IfOk, OnOk, IsTrue, is_ok, length};
ghost use Rattle.bench_types.specs.Edit.{edit_check};
ghost use Rattle.bench_types.specs.Limits.{max_steps};
ghost use Rattle.bench_types.specs.Session.{Session};
ghost use Rattle.bench_types.specs.Step.{settings_of};
ghost use Rattle.bench_model.specs.Edits.{accepted};
ghost use Rattle.session_edits.specs.Origins.{HasPlaceAmong};
ghost use Rattle.kept_runs.specs.Items.{anchor_at, edited_items, items_edited, items_from, items_worked};
ghost use Rattle.kept_works.specs.Items.{items_after_kept, AreItems};
ghost use Rattle.kept_edits.specs.Edits.{IsKeptEdit};

use crate::steps::waiting_call;
use bench_types::{CheckedSession, Edit, MAX_STEPS, Step};
use kept_edits::{KeptEdit, WorkChange};
use std::alloc::{AllocError, Global};
use std::marker::Model;

/// A step of the edited list.
#[derive(Drop)]
pub struct Item {
    step: Step,
    /// The index of the step of the document whose clocks it has; of the end, how many steps there
    /// are.
    anchor: u32,
    /// An edit put it in: it is no step of the document, nor does it stand for one.
    inserted: bool,
    /// How much more or less work edits give the call.
    changes: Vec<WorkChange>,
}

impl Model for Item {
    ghost use Rattle.kept_runs.specs.Items.{Item};

    ghost Value = { Item };

    ghost view = { λ it. record {
      step = it.step;
      anchor = it.anchor;
      inserted = it.inserted;
      changes = it.changes.items;
    } };
}

impl Item {
    // A step of the document.
    fn of_document(alloc: Global, anchor: u32, step: Step) -> Self
        ensures { result
            ≡ record { step = step; anchor = anchor; inserted = false; changes = [] } }
    {
        Item {
            step,
            anchor,
            inserted: false,
            changes: Vec::new(alloc),
        }
    }

    // A step that an edit puts in.
    fn of_edit(alloc: Global, anchor: u32, step: Step) -> Self
        ensures { result
            ≡ record { step = step; anchor = anchor; inserted = true; changes = [] } }
    {
        Item {
            step,
            anchor,
            inserted: true,
            changes: Vec::new(alloc),
        }
    }

    /// The step.
    pub fn step(&self) -> Step
        ensures { result ≡ self.now.step }
    {
        self.step
    }

    /// The index of the step of the document whose clocks it has; of the end, how many steps there
    /// are.
    pub fn anchor(&self) -> u32
        ensures { result ≡ self.now.anchor }
    {
        self.anchor
    }

    /// Whether an edit put it in: it is no step of the document, nor does it stand for one.
    pub fn inserted(&self) -> bool
        ensures { result ≡ self.now.inserted }
    {
        self.inserted
    }

    pub(crate) fn changes(&self) -> &[WorkChange]
        ensures { result.now ≡ self.now.changes }
    {
        self.changes.as_slice()
    }

    // Another step stands for this one, and has no changes of work.
    fn replace(&mut self, step: Step)
        ensures { self.new ≡ record self.old { step = step; changes = [] } }
    {
        self.step = step;
        self.changes.clear();
    }

    fn change_work(&mut self, change: WorkChange) -> Result<(), AllocError>
        ensures { OnOk result
            (self.new ≡ record self.old { changes = self.old.changes ++ change ∷ [] }) }
    {
        self.changes.push(change)?;
        Ok(())
    }
}

// The steps of a document, as no edit has changed them.
fn items_of(alloc: Global, steps: &[Step]) -> Result<Vec<Item>, AllocError>
    requires { length steps.now ≤ max_steps }
    ensures { IfOk result (λ items. items.items ≡ items_from 0 steps.now) }
{
    let mut items = Vec::with_capacity(alloc, steps.len())?;
    for (index, step) in steps.iter().enumerate() {
        items.push(Item::of_document(alloc, index as u32, *step))?;
    }
    Ok(items)
}

// The anchor at a place of the list of a document of so many steps.
fn anchor_at(count: u32, items: &[Item], at: u32) -> u32
    ensures { result ≡ anchor_at count items.now at }
{
    match items.get(at as usize) {
        Some(item) => item.anchor(),
        None => count,
    }
}

// Whether a checked edit of a session of so many steps is accepted.
fn is_accepted(steps: usize, edit: &Edit) -> bool
    ensures accepted { (session : Session) → length session.steps ≡ steps
        → edit_check session.header edit.now ≡ Ok tt
        → result ≡ is_ok (accepted session edit.now) }
    ensures place { IsTrue result → HasPlaceAmong steps edit.now }
{
    match *edit {
        Edit::Insert { at, .. } => at as usize <= steps && steps < MAX_STEPS as usize,
        Edit::Remove { at } | Edit::Replace { at, .. } => (at as usize) < steps,
        Edit::ChangeTask { .. } => true,
    }
}

// Another step stands for the one at the place.
fn replace_at(items: &mut [Item], at: u32, step: Step)
    requires { at < length items.old }
    ensures { (count : ℕ) → items.new ≡ items_edited count (Edit.Replace at step) items.old }
{
    items[at as usize].replace(step);
}

// Makes the edit of the list of a document of so many steps.
fn edit_items(
    alloc: Global,
    count: u32,
    items: &mut Vec<Item>,
    edit: &Edit,
) -> Result<(), AllocError>
    requires { HasPlaceAmong (length items.old.items) edit.now }
    ensures { OnOk result (items.new.items ≡ items_edited count edit.now items.old.items) }
{
    match *edit {
        Edit::Insert { at, step } => {
            let anchor = anchor_at(count, items.as_slice(), at);
            items.insert(at as usize, Item::of_edit(alloc, anchor, step))?;
        }
        Edit::Remove { at } => {
            items.remove(at as usize);
        }
        Edit::Replace { at, step } => replace_at(items, at, step),
        Edit::ChangeTask { .. } => {}
    }
    Ok(())
}

// Changes the work of the call at the place. Where none stands there, nothing changes.
fn change_work(items: &mut [Item], at: u32, change: WorkChange) -> Result<(), AllocError>
    ensures { OnOk result (items.new ≡ items_worked at change items.old) }
{
    let at = at as usize;
    if at < items.len() && waiting_call(&items[at].step()).is_some() {
        items[at].change_work(change)?;
    }
    Ok(())
}

// Makes an edit of the list of a document of so many steps. One that is not accepted is passed
// over.
fn make_edit(
    alloc: Global,
    count: u32,
    items: &mut Vec<Item>,
    edit: &KeptEdit,
) -> Result<(), AllocError>
    ensures { OnOk result
        ((session : Session) → length session.steps ≡ length items.old.items
        → IsKeptEdit session.header edit.now
        → items.new.items ≡ items_after_kept count session edit.now items.old.items) }
{
    match edit {
        KeptEdit::Plain(edit) => {
            if is_accepted(items.len(), edit) {
                edit_items(alloc, count, items, edit)?;
            }
        }
        KeptEdit::Work { at, change } => change_work(items, *at, *change)?,
    }
    Ok(())
}

/// The edited list of a document.
pub fn edited_items(
    alloc: Global,
    session: &CheckedSession,
    edits: &[KeptEdit],
) -> Result<Vec<Item>, AllocError>
    requires edits { All (IsKeptEdit session.now.header) edits.now }
    ensures items { IfOk result (λ items. items.items ≡ edited_items session.now edits.now) }
    ensures are { IfOk result
        (λ items. AreItems (settings_of session.now.header) (length session.now.steps)
        (length edits.now) items.items) }
{
    let steps = session.steps();
    let mut items = items_of(alloc, steps)?;
    for edit in edits {
        make_edit(alloc, steps.len() as u32, &mut items, edit)?;
    }
    Ok(items)
}
