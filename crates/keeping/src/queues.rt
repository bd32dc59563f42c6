//! The calls of each task, in a row.
ghost use Rattle.std.specs.Prelude.{◌≡◌, ◌<◌, All, IfOk, length, slice_index, slice_set};
ghost use Rattle.keeping.specs.Queues.{AreQueues, HasCaller};

use kept_runs::Unmade;
use std::alloc::{AllocError, Global};

/// Each task's calls in a row: the index of its first one that is not made, and for each call that
/// of its task's next one. Where there is none it is the number of calls.
#[derive(Debug, Drop)]
pub(crate) struct Queues {
    pub(crate) heads: Vec<usize>,
    pub(crate) next: Vec<usize>,
}

impl Queues {
    /// None of the calls is made.
    pub(crate) fn new(alloc: Global, tasks: u32, calls: &[Unmade]) -> Result<Self, AllocError>
        requires { All (HasCaller tasks) calls.now }
        ensures { IfOk result
            (λ queues. AreQueues calls.now tasks queues.heads.items queues.next.items) }
    {
        let mut heads = vec![in alloc; calls.len(); tasks as usize]?;
        let mut next = vec![in alloc; calls.len(); calls.len()]?;
        let mut index = calls.len();
        while index > 0 {
            index -= 1;
            let task = calls[index].task as usize;
            next[index] = heads[task];
            heads[task] = index;
        }
        Ok(Queues { heads, next })
    }

    /// The index of the task's first call that is not made.
    #[inline]
    pub(crate) fn head(&self, task: u32) -> usize
        requires { task < length self.now.heads.items }
        ensures { result ≡ slice_index self.now.heads.items task }
    {
        self.heads[task as usize]
    }

    /// The task's first call is made.
    pub(crate) fn advance(&mut self, task: u32)
        requires task { task < length self.old.heads.items }
        requires call { slice_index self.old.heads.items task < length self.old.next.items }
        ensures heads { self.new.heads.items
            ≡ slice_set self.old.heads.items task
            (slice_index self.old.next.items (slice_index self.old.heads.items task)) }
        ensures next { self.new.next.items ≡ self.old.next.items }
    {
        let head = self.heads[task as usize];
        self.heads[task as usize] = self.next[head];
    }
}
