//! Edits of workloads, as their documents say them.
ghost use Rattle.std.specs.Prelude.{◌≡◌, map, option_map, IfOk};
ghost use Rattle.session_text.specs.Detail.{words_of};
ghost use Rattle.session_text.specs.Node.{data_of, location_of};
ghost use Rattle.session_text.specs.ReadingRules.{Gives};
ghost use Rattle.session_text.specs.Step.{kind_among};
ghost use Rattle.workload_edits.specs.declared.edit.PathPart.TheVariants as part;
ghost use Rattle.workload_text.specs.Edits.{branch_part_at, branches, change_at, edit_kind_at, edit_kinds, index_part_at, numbers_at, set_at, set_members};

use crate::head::{Head, as_u32, members_of_head, object_head_at};
use crate::item::{ItemReader, headed_at};
use bench_types::Items;
use session_text::{Detail, Expected, Names, Node, ReadFault, ReadItem, Stray, list_at};
use std::alloc::{AllocError, Global};
use workload_edits::{Branch, Change, PathPart, TaskEdit};

/// How often lists of items stand in one another in an item at most.
const MOST_LISTS_INSIDE: u32 = 16;

/// What `edit` says of an edit.
#[derive(Clone, Copy)]
enum EditKind {
    Change,
    Set,
}

impl EditKind {
    fn words() -> &'static [&'static str]
        ensures { map (λ word. word.now) result.now ≡ words_of edit_kinds }
    {
        &["change", "set"]
    }

    fn of(word: &str) -> Option<EditKind>
        ensures { result ≡ kind_among edit_kinds word.now }
    {
        match word {
            "change" => Some(EditKind::Change),
            "set" => Some(EditKind::Set),
            _ => None,
        }
    }
}

#[tactic(auto, unfolding(crate::specs::Edits::edit_kind_at))]
fn edit_kind_at(node: &Node<'_, '_, '_>) -> Result<EditKind, ReadFault>
    ensures { Gives (λ kind. kind) result (edit_kind_at (location_of node.now) (data_of node.now)) }
{
    let word = node.text("edit")?;
    node.meant("edit", word, EditKind::words(), EditKind::of(word))
}

/// The branch that the word of a path is.
fn branch_part(word: &str) -> Option<PathPart>
    ensures { result ≡ option_map part.Branch (kind_among branches word.now) }
{
    match word {
        "then" => Some(PathPart::Branch(Branch::Then)),
        "else" => Some(PathPart::Branch(Branch::Else)),
        _ => None,
    }
}

fn branch_part_at(node: &Node<'_, '_, '_>, word: &str) -> Result<PathPart, ReadFault>
    ensures { Gives (λ part. part) result (branch_part_at (location_of node.now) word.now) }
{
    if let Some(part) = branch_part(word) {
        return Ok(part);
    }
    match Stray::of(node.alloc, word, &["then", "else"]) {
        Ok(stray) => Err(node.bad_shape(Detail::NoWord(stray))),
        Err(_) => Err(ReadFault::Memory),
    }
}

fn index_part_at(node: &Node<'_, '_, '_>) -> Result<PathPart, ReadFault>
    ensures { Gives (λ part. part) result
        (index_part_at (location_of node.now) (data_of node.now)) }
{
    match as_u32(node.value.item()) {
        Some(index) => Ok(PathPart::Index(index)),
        None => Err(node.bad_value(Expected::Number)),
    }
}

/// Reads the parts of a path.
struct PartReader;

impl<'v> ReadItem<'v> for PartReader {
    type Item = PathPart;

    ghost use Rattle.workload_edits.specs.declared.edit.PathPart.TheVariants as part;
    ghost use Rattle.workload_text.specs.Edits.{part_at};

    ghost reading = { λ _. part_at };

    fn read(&self, node: &Node<'_, '_, 'v>) -> Result<PathPart, ReadFault> {
        match node.value.item().as_str() {
            Some(word) => branch_part_at(node, word),
            None => index_part_at(node),
        }
    }
}

/// The priority and the mask that the task is to have.
#[tactic(auto, unfolding(crate::specs::Edits::numbers_at))]
fn numbers_at(node: &Node<'_, '_, '_>) -> Result<Change, ReadFault>
    ensures { Gives (λ change. change) result
        (numbers_at (location_of node.now) (data_of node.now)) }
{
    let priority = node.number("priority")?;
    let mask = node.number("mask")?;
    let members = node.object()?;
    node.only(&["edit", "task", "priority", "mask"], &members)?;
    Ok(Change::Numbers { priority, mask })
}

/// The members of an edit `set` whose new item is this one.
fn set_members(alloc: Global, head: &Head) -> Result<Vec<&'static str>, AllocError>
    ensures { IfOk result
        (λ names. map (λ name. name.now) names.items ≡ set_members head.now) }
{
    let mut names = vec![in alloc; "edit", "task", "item"]?;
    names.extend_from_slice(members_of_head(head))?;
    Ok(names)
}

/// The path of an item, and the new item, which has the other members.
#[tactic(auto, unfolding(crate::specs::Edits::set_at))]
fn set_at(names: &Names<'_>, node: &Node<'_, '_, '_>) -> Result<Change, ReadFault>
    ensures { Gives (λ change. change) result
        (set_at names.now (location_of node.now) (data_of node.now)) }
{
    let path = list_at(&PartReader, node, "item")?;
    let head = object_head_at(names, node)?;
    let reader = ItemReader {
        alloc: node.alloc,
        names,
    };
    drop(headed_at(&reader, MOST_LISTS_INSIDE, &head, node, 0)?);
    let members = node.object()?;
    node.only(set_members(node.alloc, &head)?.as_slice(), &members)?;
    Ok(Change::Item(Items::new(path)))
}

fn change_at(
    names: &Names<'_>,
    kind: EditKind,
    node: &Node<'_, '_, '_>,
) -> Result<Change, ReadFault>
    ensures { Gives (λ change. change) result
        (change_at names.now kind (location_of node.now) (data_of node.now)) }
{
    match kind {
        EditKind::Change => numbers_at(node),
        EditKind::Set => set_at(names, node),
    }
}

/// Reads edits, under the names of the tasks.
#[derive(Clone, Copy)]
pub struct EditReader<'n, 'a> {
    pub names: &'n Names<'a>,
}

impl<'v> ReadItem<'v> for EditReader<'_, '_> {
    type Item = TaskEdit;

    ghost use Rattle.workload_edits.specs.declared.edit.PathPart.TheVariants as part;
    ghost use Rattle.workload_text.specs.Edits.{edit_at};

    ghost reading = { λ edits. edit_at edits.names.now };

    #[tactic(auto, unfolding(crate::specs::Edits::edit_at))]
    fn read(&self, node: &Node<'_, '_, 'v>) -> Result<TaskEdit, ReadFault> {
        let _members = node.object()?;
        let kind = edit_kind_at(node)?;
        let task = self.names.task_named_at(node, "task")?;
        let change = change_at(self.names, kind, node)?;
        Ok(TaskEdit { task, change })
    }
}
