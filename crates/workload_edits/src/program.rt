//! Programs with another item in them.
ghost use Rattle.std.specs.Prelude.{◌≡◌, IfOk, codes, option_map};
ghost use Rattle.serde_json.specs.View.{view};
ghost use Rattle.workload_edits.specs.Edits.{branch_member, list_member, with_at, with_in, with_item, with_member, within_item, within_member};

use crate::edit::{Branch, PathPart};
use crate::parts::{with_item, with_member};
use serde_json::Value;
use std::alloc::{AllocError, Global};

fn branch_member(branch: Branch) -> &'static str
    ensures { result.now ≡ branch_member branch }
{
    match branch {
        Branch::Then => "then",
        Branch::Else => "else",
    }
}

fn list_member(item: &Value) -> &'static str
    ensures { result.now ≡ list_member (view item.now) }
{
    if item.get("repeat").is_some() {
        "of"
    } else {
        "forever"
    }
}

/// What puts a new item into programs.
#[derive(Clone, Copy)]
pub(crate) struct NewItem<'v> {
    pub(crate) alloc: Global,
    pub(crate) item: &'v Value,
}

impl NewItem<'_> {
    /// The value with what was made of its member, if that could be made.
    fn in_member(
        &self,
        value: &Value,
        name: &str,
        made: Option<Value>,
    ) -> Result<Option<Value>, AllocError>
        ensures { IfOk result
            (λ whole. option_map view whole
            ≡ option_map (λ new. with_member name.now new (view value.now))
            (option_map view made)) }
    {
        match made {
            Some(made) => Ok(Some(with_member(self.alloc, value.clone()?, name, made)?)),
            None => Ok(None),
        }
    }

    /// The items with the new one at the path in the item of the index.
    #[cycle(with_at)]
    fn with_index(
        &self,
        items: &Value,
        index: u32,
        path: &[PathPart],
    ) -> Result<Option<Value>, AllocError>
        ensures { IfOk result
            (λ made. option_map view made
            ≡ within_item index (with_in path.now (view self.now.item.now)) (view items.now)) }
    {
        let Some(item) = items.get(index as usize) else {
            return Ok(None);
        };
        match self.with_in(item, path)? {
            Some(made) => Ok(Some(with_item(items.clone()?, index as usize, made))),
            None => Ok(None),
        }
    }

    /// The items of a list with the new one at the path.
    #[cycle(with_at)]
    pub(crate) fn with_at(
        &self,
        items: &Value,
        path: &[PathPart],
    ) -> Result<Option<Value>, AllocError>
        ensures { IfOk result
            (λ made. option_map view made
            ≡ with_at path.now (view self.now.item.now) (view items.now)) }
    {
        match path {
            [PathPart::Index(index), rest @ ..] => self.with_index(items, *index, rest),
            _ => Ok(None),
        }
    }

    /// The item with the new one at the path in it.
    #[cycle(with_at)]
    fn with_in(&self, item: &Value, path: &[PathPart]) -> Result<Option<Value>, AllocError>
        ensures { IfOk result
            (λ made. option_map view made
            ≡ with_in path.now (view self.now.item.now) (view item.now)) }
    {
        match path {
            [] => Ok(Some(self.item.clone()?)),
            [PathPart::Index(index), rest @ ..] => self.with_in_list(item, *index, rest),
            [PathPart::Branch(branch), rest @ ..] => self.with_in_branch(item, *branch, rest),
        }
    }

    /// The loop with the new item at the path in its item of the index.
    #[cycle(with_at)]
    fn with_in_list(
        &self,
        item: &Value,
        index: u32,
        path: &[PathPart],
    ) -> Result<Option<Value>, AllocError>
        ensures { IfOk result
            (λ made. option_map view made
            ≡ within_member (list_member (view item.now))
            (within_item index (with_in path.now (view self.now.item.now))) (view item.now)) }
    {
        let name = list_member(item);
        let Some(items) = item.get(name) else {
            return Ok(None);
        };
        let made = self.with_index(items, index, path)?;
        self.in_member(item, name, made)
    }

    /// The call with the new item at the path in its branch.
    #[cycle(with_at)]
    fn with_in_branch(
        &self,
        item: &Value,
        branch: Branch,
        path: &[PathPart],
    ) -> Result<Option<Value>, AllocError>
        ensures { IfOk result
            (λ made. option_map view made
            ≡ within_member (branch_member branch)
            (with_at path.now (view self.now.item.now)) (view item.now)) }
    {
        let name = branch_member(branch);
        let Some(items) = item.get(name) else {
            return Ok(None);
        };
        let made = self.with_at(items, path)?;
        self.in_member(item, name, made)
    }

    /// The task with the new item at the path of its program.
    pub(crate) fn with_program(
        &self,
        task: &Value,
        path: &[PathPart],
    ) -> Result<Option<Value>, AllocError>
        ensures { IfOk result
            (λ made. option_map view made
            ≡ within_member (codes "program")
            (with_at path.now (view self.now.item.now)) (view task.now)) }
    {
        let Some(items) = task.get("program") else {
            return Ok(None);
        };
        let made = self.with_at(items, path)?;
        self.in_member(task, "program", made)
    }
}
