//! Edits, as texts write them.
ghost use Rattle.std.specs.Prelude.{◌≡◌, [], IfOk, Ok, map};
ghost use Rattle.bench_types.specs.Edit.{IsCheckedEdit};
ghost use Rattle.bench_types.specs.Header.{header_check};
ghost use Rattle.json_data.specs.ObjectView.{members_view};
ghost use Rattle.json_data.specs.View.{document_view};
ghost use Rattle.session_text.specs.Detail.{words_of};
ghost use Rattle.session_text.specs.Edit.{edit_among, edit_kind_at, edit_kind_of, edit_kinds, edit_members_of, edit_of_kind_at, edit_text, lone_edit_at, lone_format, new_step_at};
ghost use Rattle.session_text.specs.Node.{data_of, location_of};
ghost use Rattle.session_text.specs.ReadingRules.{Gives};
ghost use Rattle.session_text.specs.Session.{IsRefusedAtOnce, ReadsAs};

use crate::accepted::item_fault;
use crate::array::ReadItem;
use crate::fault::{ReadFault, TextFault};
use crate::format::Format;
use crate::names::Names;
use crate::node::Node;
use crate::path::Location;
use crate::session::document;
use crate::step::StepReader;
use bench_types::{Edit, Header, Step};
use json_data::{Document, Gathered, Object, Scratch};
use std::alloc::Global;
use std::marker::PhantomData;

/// Reads an edit of a session with this header from a JSON text.
///
/// Its step is read in format 3 where the header says which queues there are. Else it may have the
/// index of a notification, whatever the format of the session's text is. The path of a fault
/// begins at the edit, which is `top`.
#[tactic(auto, unfolding(crate::specs::Edit::edit_text))]
pub fn read_edit(alloc: Global, text: &[u8], header: &Header) -> Result<Edit, TextFault>
    requires { header_check header.now ≡ Ok tt }
    // The edit, or the first fault with its path, or that memory ran out.
    ensures reading { ReadsAs (λ edit. edit) result (edit_text header.now text.now) }
    ensures no_text { IsRefusedAtOnce text.now result }
    // So its check doesn't fail later.
    ensures checked { IfOk result (IsCheckedEdit header.now) }
{
    let mut scratch = Scratch::new(alloc);
    let document = document(alloc, text, &mut scratch)?;
    Ok(edit_in(alloc, &document, header)?)
}

/// The edit that is the document.
fn edit_in(alloc: Global, document: &Document<'_>, header: &Header) -> Result<Edit, ReadFault>
    requires { header_check header.now ≡ Ok tt }
    ensures reading { Gives (λ edit. edit) result
        (lone_edit_at header.now [] (document_view document.now)) }
    ensures checked { IfOk result (IsCheckedEdit header.now) }
{
    let node = Node {
        alloc,
        location: &Location::Top,
        value: &Gathered::of(document.root()),
    };
    lone_edit_at(&node, header)
}

/// The format that an edit is read in where it stands alone.
fn lone_format(header: &Header) -> Format
    ensures { result ≡ lone_format header.now }
{
    if header.queues.is_some() {
        Format::Three
    } else {
        Format::Two
    }
}

/// The edit under the header.
#[tactic(auto, unfolding(crate::specs::Edit::lone_edit_at))]
fn lone_edit_at(node: &Node<'_, '_, '_>, header: &Header) -> Result<Edit, ReadFault>
    requires { header_check header.now ≡ Ok tt }
    ensures reading { Gives (λ edit. edit) result
        (lone_edit_at header.now (location_of node.now) (data_of node.now)) }
    ensures checked { IfOk result (IsCheckedEdit header.now) }
{
    let names = Names::of(node.alloc, header)?;
    let edit = Edit::read(lone_format(header), &names, node)?;
    match edit.flaw(header) {
        None => Ok(edit),
        Some(flaw) => {
            let value = Some(node.value.item());
            Err(item_fault(node.alloc, header, node.location, value, flaw))
        }
    }
}

/// What `edit` says of an edit.
#[derive(Clone, Copy)]
pub(crate) enum EditKind {
    Insert,
    Remove,
    Replace,
    Change,
}

impl EditKind {
    pub(crate) fn words() -> &'static [&'static str]
        ensures { map (λ word. word.now) result.now ≡ words_of edit_kinds }
    {
        &["insert", "remove", "replace", "change"]
    }

    pub(crate) fn of(word: &str) -> Option<EditKind>
        ensures { result ≡ edit_kind_of word.now }
    {
        match word {
            "insert" => Some(EditKind::Insert),
            "remove" => Some(EditKind::Remove),
            "replace" => Some(EditKind::Replace),
            "change" => Some(EditKind::Change),
            _ => None,
        }
    }

    /// The members that an edit of this kind has.
    fn members(self) -> &'static [&'static str]
        ensures { map (λ name. name.now) result.now ≡ edit_members_of self }
    {
        match self {
            EditKind::Insert | EditKind::Replace => &["edit", "at", "step"],
            EditKind::Remove => &["edit", "at"],
            EditKind::Change => &["edit", "task", "priority", "mask"],
        }
    }
}

#[tactic(auto, unfolding(crate::specs::Edit::edit_kind_at))]
fn edit_kind_at(node: &Node<'_, '_, '_>) -> Result<EditKind, ReadFault>
    ensures { Gives (λ kind. kind) result (edit_kind_at (location_of node.now) (data_of node.now)) }
{
    let word = node.text("edit")?;
    node.meant("edit", word, EditKind::words(), EditKind::of(word))
}

/// The step that the edit brings.
#[tactic(auto, unfolding(crate::specs::Edit::new_step_at))]
fn new_step_at(
    format: Format,
    names: &Names<'_>,
    node: &Node<'_, '_, '_>,
) -> Result<Step, ReadFault>
    ensures { Gives (λ step. step) result
        (new_step_at format names.now (location_of node.now) (data_of node.now)) }
{
    let step = node.member("step")?;
    StepReader { format, names }.read(&Node {
        alloc: node.alloc,
        location: &Location::Member(node.location, "step"),
        value: &Gathered::of(step),
    })
}

#[tactic(auto, unfolding(crate::specs::Edit::edit_of_kind_at))]
fn edit_of_kind_at(
    format: Format,
    names: &Names<'_>,
    kind: EditKind,
    node: &Node<'_, '_, '_>,
) -> Result<Edit, ReadFault>
    ensures { Gives (λ edit. edit) result
        (edit_of_kind_at format names.now kind (location_of node.now) (data_of node.now)) }
{
    match kind {
        EditKind::Insert => Ok(Edit::Insert {
            at: node.number("at")?,
            step: new_step_at(format, names, node)?,
        }),
        EditKind::Remove => Ok(Edit::Remove {
            at: node.number("at")?,
        }),
        EditKind::Replace => Ok(Edit::Replace {
            at: node.number("at")?,
            step: new_step_at(format, names, node)?,
        }),
        EditKind::Change => Ok(Edit::ChangeTask {
            task: names.task_named_at(node, "task")?,
            priority: node.number("priority")?,
            mask: node.number("mask")?,
        }),
    }
}

/// The edit of a kind, at an object with no members beside those of the kind.
#[tactic(auto, unfolding(crate::specs::Edit::edit_among))]
pub(crate) fn edit_among(
    format: Format,
    names: &Names<'_>,
    kind: EditKind,
    node: &Node<'_, '_, '_>,
    members: &Object<'_, '_, '_>,
) -> Result<Edit, ReadFault>
    ensures { Gives (λ edit. edit) result
        (edit_among format names.now kind (location_of node.now) (data_of node.now)
        (members_view members.now)) }
{
    let edit = edit_of_kind_at(format, names, kind, node)?;
    node.only(kind.members(), members)?;
    Ok(edit)
}

/// What edits of a document may be.
pub(crate) trait ReadEdit: Copy + Drop {
    ghost use Rattle.std.specs.Prelude.{ℕ, List, Result};
    ghost use Rattle.serde_json.specs.Data.{Data};
    ghost use Rattle.session_text.specs.declared.fault.TextFault.{TextFault};
    ghost use Rattle.session_text.specs.declared.format.Format.{Format};
    ghost use Rattle.session_text.specs.Names.{TaskNames};
    ghost use Rattle.session_text.specs.Node.{data_of, location_of};
    ghost use Rattle.session_text.specs.ReadingRules.{Gives};

    ghost reading: { Format → TaskNames → List ℕ → Data → Result Self TextFault };

    /// The edit at the node, in a format and under the names of the tasks.
    fn read(format: Format, names: &Names<'_>, node: &Node<'_, '_, '_>) -> Result<Self, ReadFault>
        ensures { Gives (λ edit. edit) result
            (reading format names.now (location_of node.now) (data_of node.now)) };
}

impl ReadEdit for Edit {
    ghost use Rattle.session_text.specs.Edit.{edit_at};

    ghost reading = { edit_at };

    #[tactic(auto, unfolding(crate::specs::Edit::edit_at))]
    fn read(format: Format, names: &Names<'_>, node: &Node<'_, '_, '_>) -> Result<Edit, ReadFault> {
        let members = node.object()?;
        let kind = edit_kind_at(node)?;
        edit_among(format, names, kind, node, &members)
    }
}

/// Reads edits in a format, under the names of the tasks.
#[derive(Clone, Copy)]
pub(crate) struct EditReader<'n, 'a, E> {
    pub(crate) format: Format,
    pub(crate) names: &'n Names<'a>,
    pub(crate) of: PhantomData<E>,
}

impl<'v, E: ReadEdit> ReadItem<'v> for EditReader<'_, '_, E> {
    type Item = E;

    ghost reading = { λ edits. E.reading edits.format edits.names.now };

    fn read(&self, node: &Node<'_, '_, 'v>) -> Result<E, ReadFault> {
        E::read(self.format, self.names, node)
    }
}
