//! Steps that runs made, as data.
ghost use Rattle.std.specs.Prelude.{◌≡◌, true, length, EachIndex};
ghost use Rattle.run_comparisons.specs.Made.{name_at, AreMadeAlike, AreNamedAlike};

use bench_types::{Header, Reply, Step, TaskArgs};

/// A step, its reply, and the tasks that run after it, core 0 first.
#[derive(Drop)]
pub(crate) struct MadeStep {
    pub(crate) step: Step,
    pub(crate) reply: Reply,
    pub(crate) tasks: Vec<u32>,
}

fn is_same_step(step: Step, other: Step) -> bool
    ensures { result ≡ true → step ≡ other }
{
    step == other
}

fn is_same_reply(reply: Reply, other: Reply) -> bool
    ensures { result ≡ true → reply ≡ other }
{
    reply == other
}

fn are_same_tasks(tasks: &[u32], others: &[u32]) -> bool
    ensures { result ≡ true → tasks.now ≡ others.now }
{
    tasks == others
}

impl MadeStep {
    /// Whether both are one step, and led to the same.
    pub(crate) fn is_alike(&self, other: &Self) -> bool
        ensures { result ≡ true → AreMadeAlike self.now other.now }
    {
        is_same_step(self.step, other.step)
            && is_same_reply(self.reply, other.reply)
            && are_same_tasks(self.tasks.as_slice(), other.tasks.as_slice())
    }
}

// Whether the tasks have the same names, one after another.
fn have_same_names(tasks: &[TaskArgs], others: &[TaskArgs]) -> bool
    ensures names { result ≡ true
        → EachIndex tasks.now (λ place. name_at tasks.now place ≡ name_at others.now place) }
    ensures len { result ≡ true → length tasks.now ≡ length others.now }
{
    tasks.len() == others.len()
        && tasks
            .iter()
            .zip(others)
            .all(|(task, other)| task.name == other.name)
}

/// Whether each task has one name in both, and as many notifications, and both say which queues
/// there are or neither does.
pub(crate) fn are_named_alike(header: &Header, other: &Header) -> bool
    ensures { result ≡ true → AreNamedAlike header.now other.now }
{
    header.config.cores == other.config.cores
        && header.config.notes == other.config.notes
        && header.queues.is_some() == other.queues.is_some()
        && have_same_names(header.tasks.as_slice(), other.tasks.as_slice())
}
