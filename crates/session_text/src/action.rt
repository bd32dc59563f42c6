//! What a notification does to a value, as texts write it.
ghost use Rattle.std.specs.Prelude.{◌≡◌, map};
ghost use Rattle.bench_types.specs.Step.{IsNotifyActionOfWord};
ghost use Rattle.session_text.specs.NotifyAction.{action_at, action_kind_at, action_kind_of, action_kinds, action_number, action_of_kind_at};
ghost use Rattle.session_text.specs.Detail.{words_of};
ghost use Rattle.session_text.specs.Node.{data_of, location_of};
ghost use Rattle.session_text.specs.ReadingRules.{Gives};

use crate::fault::ReadFault;
use crate::node::Node;
use bench_types::NotifyAction;

/// What `action` says of a notification.
#[derive(Clone, Copy)]
pub(crate) enum NotifyActionKind {
    Nothing,
    SetBits,
    Increment,
    Set,
    SetNew,
}

#[tactic(auto, unfolding(crate::specs::NotifyAction::action_kind_at))]
fn action_kind_at(node: &Node<'_, '_, '_>) -> Result<NotifyActionKind, ReadFault>
    ensures { Gives (λ kind. kind) result
        (action_kind_at (location_of node.now) (data_of node.now)) }
{
    let word = node.text("action")?;
    node.meant(
        "action",
        word,
        NotifyActionKind::words(),
        NotifyActionKind::of(word),
    )
}

impl NotifyActionKind {
    fn words() -> &'static [&'static str]
        ensures { map (λ word. word.now) result.now ≡ words_of action_kinds }
    {
        &["none", "set_bits", "increment", "set", "set_new"]
    }

    fn of(word: &str) -> Option<NotifyActionKind>
        ensures { result ≡ action_kind_of word.now }
    {
        match word {
            "none" => Some(NotifyActionKind::Nothing),
            "set_bits" => Some(NotifyActionKind::SetBits),
            "increment" => Some(NotifyActionKind::Increment),
            "set" => Some(NotifyActionKind::Set),
            "set_new" => Some(NotifyActionKind::SetNew),
            _ => None,
        }
    }
}

#[tactic(auto, unfolding(crate::specs::NotifyAction::action_of_kind_at))]
fn action_of_kind_at(
    kind: NotifyActionKind,
    node: &Node<'_, '_, '_>,
) -> Result<NotifyAction, ReadFault>
    ensures { Gives (λ action. action) result
        (action_of_kind_at kind (location_of node.now) (data_of node.now)) }
{
    match kind {
        NotifyActionKind::Nothing => Ok(NotifyAction::Nothing),
        NotifyActionKind::SetBits => Ok(NotifyAction::SetBits(node.number("value")?)),
        NotifyActionKind::Increment => Ok(NotifyAction::Increment),
        NotifyActionKind::Set => Ok(NotifyAction::Set(node.number("value")?)),
        NotifyActionKind::SetNew => Ok(NotifyAction::SetNew(node.number("value")?)),
    }
}

/// What a notification does to its task's value.
#[tactic(auto, unfolding(crate::specs::NotifyAction::action_at))]
pub(crate) fn action_at(node: &Node<'_, '_, '_>) -> Result<NotifyAction, ReadFault>
    ensures { Gives (λ action. action) result
        (action_at (location_of node.now) (data_of node.now)) }
{
    let kind = action_kind_at(node)?;
    action_of_kind_at(kind, node)
}

/// The number that the action has as the member `value`, if it has one.
pub(crate) fn action_number(action: NotifyAction) -> Option<u32>
    ensures number { result ≡ action_number action }
    ensures typed { IsNotifyActionOfWord action }
{
    match action {
        NotifyAction::Nothing | NotifyAction::Increment => None,
        NotifyAction::SetBits(value) | NotifyAction::Set(value) | NotifyAction::SetNew(value) =>
            Some(value),
    }
}
