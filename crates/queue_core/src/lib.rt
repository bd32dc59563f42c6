//! Queues and semaphores: how many messages each has.
#![tactic(auto)]

mod queues;

pub use queues::Queues;
