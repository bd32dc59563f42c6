//! The parts of the rules of queues, computed.
ghost use Rattle.std.specs.Prelude.{◌≡◌, true};
ghost use Rattle.bench_model.specs.Queues.{can_pass, other_way, with_message};

use bench_types::{Direction, QueueLook};

/// The other way than this one.
pub fn other_way(direction: Direction) -> Direction
    ensures { result ≡ other_way direction }
{
    match direction {
        Direction::Send => Direction::Receive,
        Direction::Receive => Direction::Send,
    }
}

/// Whether a message can go that way at once: into a queue that is not full, or out of one that is
/// not empty.
pub fn can_pass(direction: Direction, queue: QueueLook) -> bool
    ensures { result ≡ can_pass direction queue }
{
    match direction {
        Direction::Send => queue.messages < queue.length,
        Direction::Receive => 0 < queue.messages,
    }
}

/// The queue when a message has gone that way.
pub fn with_message(direction: Direction, queue: QueueLook) -> QueueLook
    requires { can_pass direction queue ≡ true }
    ensures { result ≡ with_message direction queue }
{
    let messages = match direction {
        Direction::Send => queue.messages + 1,
        Direction::Receive => queue.messages - 1,
    };
    QueueLook {
        length: queue.length,
        messages,
    }
}
