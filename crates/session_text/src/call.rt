//! Calls, as texts write them.
ghost use Rattle.std.specs.Prelude.{◌≡◌, map};
ghost use Rattle.bench_types.specs.declared.step.Call.TheVariants as call;
ghost use Rattle.session_text.specs.Node.{data_of, location_of};
ghost use Rattle.session_text.specs.ReadingRules.{Gives};
ghost use Rattle.session_text.specs.Step.{call_at, members_of_call, members_of_interrupt, note_at, transfer_at, wait_at};

use crate::action::{action_at, action_number};
use crate::fault::ReadFault;
use crate::format::{Format, index_at};
use crate::names::Names;
use crate::node::Node;
use bench_types::{Call, Direction, Note};

/// What `do` says of a call.
#[derive(Clone, Copy)]
pub enum CallKind {
    Yield,
    Delay,
    DelayUntil,
    PrioritySet,
    AffinitySet,
    PreemptOff,
    PreemptOn,
    Notify,
    NotifyWait,
    NotifyTake,
    StateClear,
    ValueClear,
    MutexTake,
    MutexGive,
    QueueSend,
    QueueReceive,
    Suspend,
    Resume,
    Finish,
    HoldOpen,
    HoldClose,
}

/// The notification of a call or of an interrupt.
#[tactic(auto, unfolding(crate::specs::Step::note_at))]
pub(crate) fn note_at(
    format: Format,
    names: &Names<'_>,
    node: &Node<'_, '_, '_>,
) -> Result<Note, ReadFault>
    ensures { Gives (λ note. note) result
        (note_at format names.now (location_of node.now) (data_of node.now)) }
{
    Ok(Note {
        task: names.task_named_at(node, "to")?,
        action: action_at(node)?,
        index: index_at(format, node)?,
    })
}

#[tactic(auto, unfolding(crate::specs::Step::wait_at))]
fn wait_at(format: Format, node: &Node<'_, '_, '_>) -> Result<Call, ReadFault>
    ensures { Gives (λ call. call) result
        (wait_at format (location_of node.now) (data_of node.now)) }
{
    Ok(Call::NotifyWait {
        entry: node.number("entry")?,
        exit: node.number("exit")?,
        ticks: node.number("ticks")?,
        index: index_at(format, node)?,
    })
}

/// The call by which a message goes into a queue or out of it.
#[tactic(auto, unfolding(crate::specs::Step::transfer_at))]
fn transfer_at(direction: Direction, node: &Node<'_, '_, '_>) -> Result<Call, ReadFault>
    ensures { Gives (λ call. call) result
        (transfer_at direction (location_of node.now) (data_of node.now)) }
{
    match direction {
        Direction::Send => Ok(Call::QueueSend {
            queue: node.number("queue")?,
            ticks: node.number("ticks")?,
        }),
        Direction::Receive => Ok(Call::QueueReceive {
            queue: node.number("queue")?,
            ticks: node.number("ticks")?,
        }),
    }
}

#[tactic(auto, unfolding(crate::specs::Step::call_at))]
pub fn call_at(
    format: Format,
    names: &Names<'_>,
    kind: CallKind,
    node: &Node<'_, '_, '_>,
) -> Result<Call, ReadFault>
    ensures { Gives (λ call. call) result
        (call_at format names.now kind (location_of node.now) (data_of node.now)) }
{
    match kind {
        CallKind::Yield => Ok(Call::Yield),
        CallKind::Delay => Ok(Call::Delay(node.number("ticks")?)),
        CallKind::DelayUntil => Ok(Call::DelayUntil {
            prev: node.number("prev")?,
            inc: node.number("inc")?,
        }),
        CallKind::PrioritySet => Ok(Call::PrioritySet {
            task: names.task_named_at(node, "to")?,
            priority: node.number("priority")?,
        }),
        CallKind::AffinitySet => Ok(Call::AffinitySet {
            task: names.task_named_at(node, "to")?,
            mask: node.number("mask")?,
        }),
        CallKind::PreemptOff => Ok(Call::PreemptOff(names.task_named_at(node, "to")?)),
        CallKind::PreemptOn => Ok(Call::PreemptOn(names.task_named_at(node, "to")?)),
        CallKind::Notify => Ok(Call::Notify(note_at(format, names, node)?)),
        CallKind::NotifyWait => wait_at(format, node),
        CallKind::NotifyTake => Ok(Call::NotifyTake {
            clear: node.flag("clear")?,
            ticks: node.number("ticks")?,
            index: index_at(format, node)?,
        }),
        CallKind::StateClear => Ok(Call::StateClear {
            task: names.task_named_at(node, "to")?,
            index: index_at(format, node)?,
        }),
        CallKind::ValueClear => Ok(Call::ValueClear {
            task: names.task_named_at(node, "to")?,
            bits: node.number("bits")?,
            index: index_at(format, node)?,
        }),
        CallKind::MutexTake => Ok(Call::MutexTake {
            mutex: node.number("mutex")?,
            ticks: node.number("ticks")?,
        }),
        CallKind::MutexGive => Ok(Call::MutexGive(node.number("mutex")?)),
        CallKind::QueueSend => transfer_at(Direction::Send, node),
        CallKind::QueueReceive => transfer_at(Direction::Receive, node),
        CallKind::Suspend => Ok(Call::Suspend(names.task_named_at(node, "to")?)),
        CallKind::Resume => Ok(Call::Resume(names.task_named_at(node, "to")?)),
        CallKind::Finish => Ok(Call::Finish),
        CallKind::HoldOpen => Ok(Call::HoldOpen),
        CallKind::HoldClose => Ok(Call::HoldClose),
    }
}

/// The members that a step of a call like this one has, those that its action lacks first.
pub(crate) fn call_members(format: Format, call: Call) -> &'static [&'static str]
    ensures { map (λ name. name.now) result.now ≡ members_of_call format call }
{
    match call {
        Call::Yield | Call::Finish | Call::HoldOpen | Call::HoldClose => &["core", "by", "do"],
        Call::Delay(_) => &["core", "by", "do", "ticks"],
        Call::DelayUntil { .. } => &["core", "by", "do", "prev", "inc"],
        Call::PrioritySet { .. } => &["core", "by", "do", "to", "priority"],
        Call::AffinitySet { .. } => &["core", "by", "do", "to", "mask"],
        Call::PreemptOff(_) | Call::PreemptOn(_) | Call::Suspend(_) | Call::Resume(_) => {
            &["core", "by", "do", "to"]
        }
        Call::Notify(note) => notify_members(format, note),
        Call::NotifyWait { .. } => match format {
            Format::One => &["core", "by", "do", "entry", "exit", "ticks"],
            Format::Two | Format::Three => &["core", "by", "do", "entry", "exit", "ticks", "index"],
        },
        Call::NotifyTake { .. } => match format {
            Format::One => &["core", "by", "do", "clear", "ticks"],
            Format::Two | Format::Three => &["core", "by", "do", "clear", "ticks", "index"],
        },
        Call::StateClear { .. } => match format {
            Format::One => &["core", "by", "do", "to"],
            Format::Two | Format::Three => &["core", "by", "do", "to", "index"],
        },
        Call::ValueClear { .. } => match format {
            Format::One => &["core", "by", "do", "to", "bits"],
            Format::Two | Format::Three => &["core", "by", "do", "to", "bits", "index"],
        },
        Call::MutexTake { .. } => &["core", "by", "do", "mutex", "ticks"],
        Call::MutexGive(_) => &["core", "by", "do", "mutex"],
        Call::QueueSend { .. } | Call::QueueReceive { .. } => {
            &["core", "by", "do", "queue", "ticks"]
        }
    }
}

/// The same for a call with a notification like this one.
fn notify_members(format: Format, note: Note) -> &'static [&'static str]
    ensures { map (λ name. name.now) result.now ≡ members_of_call format (call.Notify note) }
{
    match action_number(note.action) {
        None => match format {
            Format::One => &["core", "by", "do", "to", "action"],
            Format::Two | Format::Three => &["core", "by", "do", "to", "action", "index"],
        },
        Some(_) => match format {
            Format::One => &["core", "by", "do", "to", "action", "value"],
            Format::Two | Format::Three => &["core", "by", "do", "to", "action", "value", "index"],
        },
    }
}

/// The same for an interrupt with a notification like this one.
pub(crate) fn interrupt_members(format: Format, note: Note) -> &'static [&'static str]
    ensures { map (λ name. name.now) result.now ≡ members_of_interrupt format note }
{
    match action_number(note.action) {
        None => match format {
            Format::One => &["core", "do", "to", "action"],
            Format::Two | Format::Three => &["core", "do", "to", "action", "index"],
        },
        Some(_) => match format {
            Format::One => &["core", "do", "to", "action", "value"],
            Format::Two | Format::Three => &["core", "do", "to", "action", "value", "index"],
        },
    }
}
