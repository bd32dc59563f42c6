//! Edits of a session whose run keeps work, as texts write them.
ghost use Rattle.std.specs.Prelude.{◌≡◌, map};
ghost use Rattle.json_data.specs.ObjectView.{members_view};
ghost use Rattle.session_text.specs.KeptEdit.{change_of, is_fewer, kept_among, kept_kind_at, kept_kind_of, kept_words, work_at, work_kinds, work_members};
ghost use Rattle.session_text.specs.Node.{data_of, location_of};
ghost use Rattle.session_text.specs.ReadingRules.{Gives};
ghost use Rattle.session_text.specs.Step.{kind_among};

use crate::edit::{EditKind, ReadEdit, edit_among};
use crate::fault::ReadFault;
use crate::format::Format;
use crate::names::Names;
use crate::node::Node;
use json_data::Object;
use kept_edits::{KeptEdit, WorkChange};

/// What `edit` says of an edit of a session whose run keeps work.
#[derive(Clone, Copy)]
enum KeptKind {
    Plain(EditKind),
    Work,
}

impl KeptKind {
    fn words(format: Format) -> &'static [&'static str]
        ensures { map (λ word. word.now) result.now ≡ kept_words format }
    {
        match format {
            Format::One | Format::Two => EditKind::words(),
            Format::Three => &["insert", "remove", "replace", "change", "work"],
        }
    }

    fn of(format: Format, word: &str) -> Option<KeptKind>
        ensures { result ≡ kept_kind_of format word.now }
    {
        match EditKind::of(word) {
            Some(kind) => Some(KeptKind::Plain(kind)),
            None => KeptKind::of_work(format, word),
        }
    }

    /// What a word says that an edit of work has and another has not.
    fn of_work(format: Format, word: &str) -> Option<KeptKind>
        ensures { result ≡ kind_among (work_kinds format) word.now }
    {
        match format {
            Format::One | Format::Two => None,
            Format::Three => match word {
                "work" => Some(KeptKind::Work),
                _ => None,
            },
        }
    }
}

#[tactic(auto, unfolding(crate::specs::KeptEdit::kept_kind_at))]
fn kept_kind_at(format: Format, node: &Node<'_, '_, '_>) -> Result<KeptKind, ReadFault>
    ensures { Gives (λ kind. kind) result
        (kept_kind_at format (location_of node.now) (data_of node.now)) }
{
    let word = node.text("edit")?;
    let kind = KeptKind::of(format, word);
    node.meant("edit", word, KeptKind::words(format), kind)
}

/// Whether `less` stands in place of `by`.
fn is_fewer(node: &Node<'_, '_, '_>) -> bool
    ensures { result ≡ is_fewer (data_of node.now) }
{
    let item = node.value.item();
    item.get("by").is_none() && item.get("less").is_some()
}

/// How many units fewer, or more.
#[tactic(auto, unfolding(crate::specs::KeptEdit::change_of))]
fn change_of(fewer: bool, node: &Node<'_, '_, '_>) -> Result<WorkChange, ReadFault>
    ensures { Gives (λ change. change) result
        (change_of fewer (location_of node.now) (data_of node.now)) }
{
    if fewer {
        Ok(WorkChange::Fewer(node.number("less")?))
    } else {
        Ok(WorkChange::More(node.number("by")?))
    }
}

/// The members of an edit with this change of work.
fn work_members(change: WorkChange) -> &'static [&'static str]
    ensures { map (λ name. name.now) result.now ≡ work_members change }
{
    match change {
        WorkChange::More(_) => &["edit", "at", "by"],
        WorkChange::Fewer(_) => &["edit", "at", "less"],
    }
}

#[tactic(auto, unfolding(crate::specs::KeptEdit::work_at))]
fn work_at(node: &Node<'_, '_, '_>, members: &Object<'_, '_, '_>) -> Result<KeptEdit, ReadFault>
    ensures { Gives (λ edit. edit) result
        (work_at (location_of node.now) (data_of node.now) (members_view members.now)) }
{
    let at = node.number("at")?;
    let change = change_of(is_fewer(node), node)?;
    node.only(work_members(change), members)?;
    Ok(KeptEdit::Work { at, change })
}

/// The edit of a kind, at an object with no members beside those of the kind.
#[tactic(auto, unfolding(crate::specs::KeptEdit::kept_among))]
fn kept_among(
    format: Format,
    names: &Names<'_>,
    kind: KeptKind,
    node: &Node<'_, '_, '_>,
    members: &Object<'_, '_, '_>,
) -> Result<KeptEdit, ReadFault>
    ensures { Gives (λ edit. edit) result
        (kept_among format names.now kind (location_of node.now) (data_of node.now)
        (members_view members.now)) }
{
    match kind {
        KeptKind::Plain(plain) => {
            let edit = edit_among(format, names, plain, node, members)?;
            Ok(KeptEdit::Plain(edit))
        }
        KeptKind::Work => work_at(node, members),
    }
}

impl ReadEdit for KeptEdit {
    ghost use Rattle.session_text.specs.KeptEdit.{kept_edit_at};

    ghost reading = { kept_edit_at };

    #[tactic(auto, unfolding(crate::specs::KeptEdit::kept_edit_at))]
    fn read(
        format: Format,
        names: &Names<'_>,
        node: &Node<'_, '_, '_>,
    ) -> Result<KeptEdit, ReadFault> {
        let members = node.object()?;
        let kind = kept_kind_at(format, node)?;
        kept_among(format, names, kind, node, &members)
    }
}
