//! The calls of each task, in a row.
ghost use Rattle.std.specs.Prelude.{◌≡◌, ◌<◌, ◌≤◌, length, Some, None, true, IfOk, if◌then◌else◌, slice_index, slice_set};
ghost use Rattle.settling.specs.Places.{begins, call_in, step_at, AreQueues, HasCallers};

use bench_types::{Call, Step};
use std::alloc::{AllocError, Global};

/// Each task's calls among the steps of a session, in a row: the place of its next one, and for
/// each call that of its task's next one. Where there is none it is the number of steps.
#[derive(Debug, Drop)]
pub(crate) struct Queues {
    pub(crate) heads: Vec<usize>,
    pub(crate) next: Vec<usize>,
}

impl Queues {
    /// The calls of the steps, none of which has come.
    pub(crate) fn new(alloc: Global, tasks: u32, steps: &[Step]) -> Result<Self, AllocError>
        requires { HasCallers steps.now tasks }
        ensures { IfOk result
            (λ queues. AreQueues steps.now 0 tasks queues.heads.items queues.next.items) }
    {
        let mut heads = vec![in alloc; steps.len(); tasks as usize]?;
        let mut next = vec![in alloc; steps.len(); steps.len()]?;
        let mut place = steps.len();
        while place > 0 {
            place -= 1;
            if let Some(task) = caller(&steps[place]) {
                next[place] = heads[task as usize];
                heads[task as usize] = place;
            }
        }
        Ok(Queues { heads, next })
    }

    /// The place of the task's next call.
    #[inline]
    pub(crate) fn head(&self, task: u32) -> usize
        requires { task < length self.now.heads.items }
        ensures { result ≡ slice_index self.now.heads.items task }
    {
        self.heads[task as usize]
    }

    /// The task's next call is made.
    pub(crate) fn advance(&mut self, task: u32)
        requires task { task < length self.old.heads.items }
        requires call { slice_index self.old.heads.items task < length self.old.next.items }
        ensures heads { self.new.heads.items
            ≡ slice_set self.old.heads.items task
            (slice_index self.old.next.items (slice_index self.old.heads.items task)) }
        ensures next { self.new.next.items ≡ self.old.next.items }
    {
        let head = self.heads[task as usize];
        self.heads[task as usize] = self.next[head];
    }
}

/// The task of a call that begins; a `finish` ends one.
#[inline]
pub(crate) fn caller(step: &Step) -> Option<u32>
    ensures { result ≡ (if begins step.now then Some (call_in step.now).task else None) }
{
    match *step {
        Step::Call {
            call: Call::Finish,
            ..
        } => None,
        Step::Call { task, .. } => Some(task),
        _ => None,
    }
}
