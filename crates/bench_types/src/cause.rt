//! What a call that has not returned has its task wait for.
ghost use Rattle.std.specs.Prelude.{◌≡◌};
ghost use Rattle.bench_types.specs.Cause.{cause_of};

use crate::{BlockingCall, Direction, Unfinished};

/// What a call has its task wait for.
#[derive(Clone, Copy, Debug, PartialEq, Eq, Hash)]
pub enum Cause {
    /// A tick count alone.
    Delay,
    /// A notification.
    Notification,
    /// The mutex.
    Mutex(u32),
    /// A message that goes into the queue or out of it.
    Queue { queue: u32, direction: Direction },
}

impl Unfinished {
    /// What the task of the call waits for.
    pub fn cause(self) -> Cause
        ensures { result ≡ cause_of self }
    {
        match self {
            Unfinished::Made(BlockingCall::Delay(_) | BlockingCall::DelayUntil { .. }) => {
                Cause::Delay
            }
            Unfinished::Made(BlockingCall::NotifyWait { .. } | BlockingCall::NotifyTake { .. }) =>
                Cause::Notification,
            Unfinished::Take { mutex, .. } => Cause::Mutex(mutex),
            Unfinished::Transfer { queue, direction } => Cause::Queue { queue, direction },
        }
    }
}
