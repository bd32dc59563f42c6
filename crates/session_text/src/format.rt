//! The formats of sessions.
ghost use Rattle.std.specs.Prelude.{◌≡◌};
ghost use Rattle.session_text.specs.Format.{format_at, format_of, index_at, notes_at, queue_at, queues_at, units_at};
ghost use Rattle.session_text.specs.Node.{data_of, location_of};
ghost use Rattle.session_text.specs.ReadingRules.{Gives};

use crate::array::{ReadItem, list_at};
use crate::detail::Detail;
use crate::fault::ReadFault;
use crate::node::Node;
use bench_types::{Items, QueueArgs};

/// The format of a session's text.
#[derive(Clone, Copy, Debug, PartialEq, Eq, Hash)]
pub enum Format {
    /// `format` is 1: each task has one notification.
    One,
    /// `format` is 2: `notes` says how many notifications each task has, and `index` which of them
    /// a step means.
    Two,
    /// `format` is 3: `queues` says which queues and semaphores there are, and `units` how many
    /// units of time a tick has, beside what format 2 says.
    Three,
}

impl Format {
    fn of(number: u32) -> Option<Format>
        ensures { result ≡ format_of number }
    {
        match number {
            1 => Some(Format::One),
            2 => Some(Format::Two),
            3 => Some(Format::Three),
            _ => None,
        }
    }
}

#[tactic(auto, unfolding(crate::specs::Format::format_at))]
pub(crate) fn format_at(node: &Node<'_, '_, '_>) -> Result<Format, ReadFault>
    ensures { Gives (λ format. format) result
        (format_at (location_of node.now) (data_of node.now)) }
{
    match Format::of(node.number("format")?) {
        Some(format) => Ok(format),
        None => Err(node.bad_member("format", Detail::NoFormat)),
    }
}

/// How many notifications each task has.
#[tactic(auto, unfolding(crate::specs::Format::notes_at))]
pub(crate) fn notes_at(format: Format, node: &Node<'_, '_, '_>) -> Result<u32, ReadFault>
    ensures { Gives (λ notes. notes) result
        (notes_at format (location_of node.now) (data_of node.now)) }
{
    match format {
        Format::One => Ok(1),
        Format::Two | Format::Three => node.number("notes"),
    }
}

/// Reads queues.
struct QueueReader;

impl<'v> ReadItem<'v> for QueueReader {
    type Item = QueueArgs;

    ghost reading = { λ _. queue_at };

    #[tactic(auto, unfolding(crate::specs::Format::queue_at))]
    fn read(&self, node: &Node<'_, '_, 'v>) -> Result<QueueArgs, ReadFault> {
        let members = node.object()?;
        let length = node.number("length")?;
        let messages = node.number("messages")?;
        node.only(&["length", "messages"], &members)?;
        Ok(QueueArgs { length, messages })
    }
}

/// Which queues there are, where the format says it.
#[tactic(auto, unfolding(crate::specs::Format::queues_at))]
pub(crate) fn queues_at(
    format: Format,
    node: &Node<'_, '_, '_>,
) -> Result<Option<Items<QueueArgs>>, ReadFault>
    ensures { Gives (λ queues. queues) result
        (queues_at format (location_of node.now) (data_of node.now)) }
{
    match format {
        Format::One | Format::Two => Ok(None),
        Format::Three => {
            let queues = list_at(&QueueReader, node, "queues")?;
            Ok(Some(Items::new(queues)))
        }
    }
}

/// How many units of time a tick has, 1 where it is left out.
#[tactic(auto, unfolding(crate::specs::Format::units_at))]
pub(crate) fn units_at(format: Format, node: &Node<'_, '_, '_>) -> Result<u32, ReadFault>
    ensures { Gives (λ units. units) result
        (units_at format (location_of node.now) (data_of node.now)) }
{
    match format {
        Format::One | Format::Two => Ok(1),
        Format::Three => node.number_or("units", 1),
    }
}

/// The index of a notification, 0 where it is left out.
#[tactic(auto, unfolding(crate::specs::Format::index_at))]
pub(crate) fn index_at(format: Format, node: &Node<'_, '_, '_>) -> Result<u32, ReadFault>
    ensures { Gives (λ index. index) result
        (index_at format (location_of node.now) (data_of node.now)) }
{
    match format {
        Format::One => Ok(0),
        Format::Two | Format::Three => node.number_or("index", 0),
    }
}
