//! Scripts, and their actions.
ghost use Rattle.std.specs.Prelude.{◌≡◌, map};
ghost use Rattle.session_text.specs.CoreAction.{core_action_of_kind_at};
ghost use Rattle.session_text.specs.Node.{data_of, location_of};
ghost use Rattle.session_text.specs.ReadingRules.{Gives};
ghost use Rattle.session_text.specs.Step.{members_of_core_action};

use crate::accepted::{HasCheck, HasHeader};
use crate::array::{ReadItem, each};
use crate::call::{call_at, call_members, interrupt_members, note_at};
use crate::fault::ReadFault;
use crate::format::Format;
use crate::names::Names;
use crate::node::Node;
use crate::step::{Kind, kind_at};
use bench_types::{CoreAction, Header, Items, StepFlaw};

/// The members that an action like this one has: those of a step, but for its core and its task.
#[tactic(auto, using(crate::proofs::Lists::map_drop))]
fn known_members(format: Format, core_action: CoreAction) -> &'static [&'static str]
    ensures { map (λ name. name.now) result.now ≡ members_of_core_action format core_action }
{
    match core_action {
        CoreAction::Tick | CoreAction::Switch => &["do"],
        CoreAction::Call(call) => &call_members(format, call)[2..],
        CoreAction::Interrupt(note) => &interrupt_members(format, note)[1..],
        CoreAction::QueueInterrupt { .. } => &["do", "queue"],
        CoreAction::ResumeInterrupt { .. } => &["do", "to"],
    }
}

#[tactic(auto, unfolding(crate::specs::CoreAction::core_action_of_kind_at))]
fn core_action_of_kind_at(
    format: Format,
    names: &Names<'_>,
    kind: Kind,
    node: &Node<'_, '_, '_>,
) -> Result<CoreAction, ReadFault>
    ensures { Gives (λ core_action. core_action) result
        (core_action_of_kind_at format names.now kind (location_of node.now) (data_of node.now)) }
{
    match kind {
        Kind::Tick => Ok(CoreAction::Tick),
        Kind::Switch => Ok(CoreAction::Switch),
        Kind::Call(kind) => Ok(CoreAction::Call(call_at(format, names, kind, node)?)),
        Kind::Interrupt => Ok(CoreAction::Interrupt(note_at(format, names, node)?)),
        Kind::QueueInterrupt(direction) => Ok(CoreAction::QueueInterrupt {
            queue: node.number("queue")?,
            direction,
        }),
        Kind::ResumeInterrupt => Ok(CoreAction::ResumeInterrupt {
            task: names.task_named_at(node, "to")?,
        }),
    }
}

/// Reads actions in a format, under the names of the tasks.
#[derive(Clone, Copy)]
struct CoreActionReader<'n, 'a> {
    format: Format,
    names: &'n Names<'a>,
}

impl<'v> ReadItem<'v> for CoreActionReader<'_, '_> {
    type Item = CoreAction;

    ghost use Rattle.session_text.specs.CoreAction.{core_action_at};

    ghost reading = { λ core_actions. core_action_at core_actions.format core_actions.names.now };

    #[tactic(auto, unfolding(crate::specs::CoreAction::core_action_at))]
    fn read(&self, node: &Node<'_, '_, 'v>) -> Result<CoreAction, ReadFault> {
        let members = node.object()?;
        let kind = kind_at(self.format, node)?;
        let core_action = core_action_of_kind_at(self.format, self.names, kind, node)?;
        node.only(known_members(self.format, core_action), &members)?;
        Ok(core_action)
    }
}

/// Reads scripts in a format, each the actions of one core, under the names of the tasks.
#[derive(Clone, Copy)]
pub(crate) struct ScriptReader<'n, 'a> {
    pub(crate) format: Format,
    pub(crate) names: &'n Names<'a>,
}

impl<'v> ReadItem<'v> for ScriptReader<'_, '_> {
    type Item = Items<CoreAction>;

    ghost use Rattle.session_text.specs.CoreAction.{script_at};

    ghost reading = { λ scripts. script_at scripts.format scripts.names.now };

    #[tactic(auto, unfolding(crate::specs::CoreAction::script_at))]
    fn read(&self, node: &Node<'_, '_, 'v>) -> Result<Items<CoreAction>, ReadFault> {
        let mut items = node.items()?;
        let core_actions = CoreActionReader {
            format: self.format,
            names: self.names,
        };
        Ok(Items::new(each(node.alloc, &core_actions, node.location, &mut items)?))
    }
}

/// What an action has to fit: the header, as one of the core.
#[derive(Clone, Copy)]
pub(crate) struct OnCore<'h> {
    pub(crate) header: &'h Header,
    pub(crate) core: u32,
}

impl HasHeader for OnCore<'_> {
    ghost header_of = { λ on. on.header.now };

    fn header(&self) -> &Header {
        self.header
    }
}

impl HasCheck<OnCore<'_>> for CoreAction {
    ghost use Rattle.bench_types.specs.CoreAction.{IsCheckedCoreAction};
    ghost use Rattle.bench_types.specs.Step.{settings_of};
    ghost use Rattle.bench_types.specs.StepFlaw.{core_action_flaw};

    ghost flaw_of = { λ on. core_action_flaw (settings_of on.header.now) on.core };

    ghost IsChecked = { λ on. IsCheckedCoreAction (settings_of on.header.now) on.core };

    fn judge(&self, on: &OnCore<'_>) -> Option<StepFlaw> {
        self.flaw(on.core, on.header)
    }
}
