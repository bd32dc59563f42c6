//! The messages of all queues.
ghost use Rattle.std.specs.Prelude.{◌≡◌, ◌↔◌, ◌<◌, length, map, slice_set, true, IsTrue, IfOk};
ghost use Rattle.bench_model.specs.Queues.{can_pass, queue_at, with_message};
ghost use Rattle.bench_model.specs.Start.{first_queue, first_queues};

use bench_model::queues::{can_pass, with_message};
use bench_types::{Direction, Header, QueueArgs, QueueLook};
use std::alloc::{AllocError, Global};
use std::marker::Model;

/// How many messages each queue has.
#[derive(Debug, Drop)]
pub struct Queues {
    queues: Vec<QueueLook>,
}

impl Model for Queues {
    ghost use Rattle.std.specs.Prelude.{List};
    ghost use Rattle.bench_types.specs.declared.kernel_data.QueueLook.{QueueLook};

    ghost Value = { List QueueLook };

    ghost view = { λ of. of.queues.items };
}

impl Queues {
    /// The start: the queues of the header, each with the messages that it was created with. None
    /// where the header says nothing of queues.
    pub fn new(alloc: Global, header: &Header) -> Result<Self, AllocError>
        ensures { IfOk result (λ queues. queues ≡ first_queues header.now) }
    {
        let queues = match &header.queues {
            None => Vec::new(alloc),
            Some(queues) => created(alloc, queues.as_slice())?,
        };
        Ok(Queues { queues })
    }

    /// A second value, equal to this one.
    pub fn copy(&self, alloc: Global) -> Result<Self, AllocError>
        ensures { IfOk result (λ copy. copy ≡ self.now) }
    {
        Ok(Queues {
            queues: Vec::from_slice(alloc, &self.queues)?,
        })
    }

    /// This becomes equal to the other, which has as many queues. No memory is taken.
    pub fn copy_from(&mut self, other: &Self)
        requires { length self.old ≡ length other.now }
        ensures { self.new ≡ other.now }
    {
        self.queues.copy_from_slice(&other.queues);
    }

    /// Whether lengths and messages of all queues are equal.
    pub fn same(&self, other: &Self) -> bool
        ensures { IsTrue result ↔ (self.now ≡ other.now) }
    {
        self.queues == other.queues
    }

    /// What can be seen of the queue.
    pub fn look(&self, queue: u32) -> QueueLook
        requires { queue < length self.now }
        ensures { result ≡ queue_at self.now queue }
    {
        self.queues[queue as usize]
    }

    /// Whether a message can go that way at once: into a queue that is not full, or out of one that
    /// is not empty.
    pub fn can_pass(&self, direction: Direction, queue: u32) -> bool
        requires { queue < length self.now }
        ensures { result ≡ can_pass direction (queue_at self.now queue) }
    {
        can_pass(direction, self.look(queue))
    }

    /// A message goes that way.
    pub fn pass(&mut self, direction: Direction, queue: u32)
        requires queue { queue < length self.old }
        requires can { can_pass direction (queue_at self.old queue) ≡ true }
        ensures { self.new
            ≡ slice_set self.old queue (with_message direction (queue_at self.old queue)) }
    {
        self.queues[queue as usize] = with_message(direction, self.look(queue));
    }
}

fn created(alloc: Global, queues: &[QueueArgs]) -> Result<Vec<QueueLook>, AllocError>
    ensures { IfOk result (λ created. created.items ≡ map first_queue queues.now) }
{
    let mut created = Vec::with_capacity(alloc, queues.len())?;
    for args in queues {
        created.push(QueueLook {
            length: args.length,
            messages: args.messages,
        })?;
    }
    Ok(created)
}
