//! For what a header is not accepted.
ghost use Rattle.std.specs.Prelude.{◌≡◌, ◌==◌, ◌<◌, ◌^◌, nat_lt, All, IfNone};
ghost use Rattle.bench_types.specs.Flaw.{args_flaw, config_flaw, count_of_name, limits_flaw, mask_flaw, name_flaw, numbers_flaw, length_flaw, location_of_length, location_of_mask, location_of_messages, location_of_no_name, location_of_priority, location_of_shared_name, messages_flaw, priority_flaw, queue_list_flaw, queues_flaw, shared_flaw, units_flaw};
ghost use Rattle.bench_types.specs.Mask.{cores_of_mask as cores_in};
ghost use Rattle.bench_types.specs.Name.{is_within};

use crate::mask::cores_of_mask;
use crate::name::spells_name;
use crate::{
    Config, Items, MAX_CORES, MAX_MESSAGES, MAX_MUTEXES, MAX_NOTES, MAX_PRIORITIES, MAX_QUEUES,
    MAX_TASKS, MAX_UNITS, MIN_CORES, QueueArgs, TaskArgs,
};

/// A thing for which a header is not accepted. A queue and a user task are told by their places
/// among them.
#[derive(Clone, Copy, Debug, PartialEq, Eq)]
pub enum HeaderFlaw {
    /// There may not be so many cores.
    Cores(u32),
    /// There may not be so many priorities.
    Priorities(u32),
    /// There may not be so many mutexes.
    Mutexes(u32),
    /// There may not be so many notifications a task.
    Notes(u32),
    /// There may not be so many queues.
    Queues(usize),
    /// The queue has a length of 0.
    QueueLength(usize),
    /// The queue has more messages at the start than its length.
    QueueMessages(usize),
    /// A tick may not have so many units of time.
    Units(u32),
    /// There may not be so many user tasks.
    TaskCount(usize),
    /// The name of the task is none. No `Header` has such a task; a text may have one.
    NoName(usize),
    /// The priority of the task is not below this number of priorities.
    Priority { task: usize, priorities: u32 },
    /// The core affinity mask of the task has a bit for none of so many cores.
    Mask { task: usize, cores: u32 },
    /// Another task has the name of this one.
    SharedName(usize),
}

impl Config {
    /// The first flaw of the numbers of a header with these settings, these queues and so many user
    /// tasks.
    pub fn flaw(self, queues: &Option<Items<QueueArgs>>, tasks: usize) -> Option<HeaderFlaw>
        ensures { result ≡ numbers_flaw self queues.now tasks }
    {
        let count = HeaderFlaw::TaskCount(tasks);
        config_flaw(self)
            .or(queues_flaw(queues))
            .or(units_flaw(self.units, queues))
            .or(limits_flaw(1, MAX_TASKS, tasks, count))
    }
}

fn is_within(low: usize, high: usize, n: usize) -> bool
    ensures { result ≡ is_within low high n }
{
    low <= n && n <= high
}

fn limits_flaw(low: u32, high: u32, n: usize, flaw: HeaderFlaw) -> Option<HeaderFlaw>
    ensures { result ≡ limits_flaw low high n flaw }
{
    if is_within(low as usize, high as usize, n) {
        None
    } else {
        Some(flaw)
    }
}

fn config_flaw(config: Config) -> Option<HeaderFlaw>
    ensures { result ≡ config_flaw config }
{
    let Config {
        cores,
        priorities,
        slicing: _,
        tick: _,
        mutexes,
        notes,
        units: _,
    } = config;
    limits_flaw(
        MIN_CORES,
        MAX_CORES,
        cores as usize,
        HeaderFlaw::Cores(cores),
    )
    .or(limits_flaw(
        1,
        MAX_PRIORITIES,
        priorities as usize,
        HeaderFlaw::Priorities(priorities),
    ))
    .or(limits_flaw(
        0,
        MAX_MUTEXES,
        mutexes as usize,
        HeaderFlaw::Mutexes(mutexes),
    ))
    .or(limits_flaw(1, MAX_NOTES, notes as usize, HeaderFlaw::Notes(notes)))
}

/// The place of the first queue of length 0.
fn location_of_length(queues: &[QueueArgs]) -> Option<usize>
    ensures { result ≡ location_of_length queues.now }
{
    queues.iter().position(|queue| !is_within(1, MAX_MESSAGES as usize, queue.length as usize))
}

/// The place of the first queue with more messages than its length.
fn location_of_messages(queues: &[QueueArgs]) -> Option<usize>
    ensures { result ≡ location_of_messages queues.now }
{
    queues
        .iter()
        .position(|queue| queue.length < queue.messages)
}

fn length_flaw(queues: &[QueueArgs]) -> Option<HeaderFlaw>
    ensures { result ≡ length_flaw queues.now }
{
    match location_of_length(queues) {
        Some(queue) => Some(HeaderFlaw::QueueLength(queue)),
        None => None,
    }
}

fn messages_flaw(queues: &[QueueArgs]) -> Option<HeaderFlaw>
    ensures { result ≡ messages_flaw queues.now }
{
    match location_of_messages(queues) {
        Some(queue) => Some(HeaderFlaw::QueueMessages(queue)),
        None => None,
    }
}

fn queue_list_flaw(queues: &[QueueArgs]) -> Option<HeaderFlaw>
    ensures { result ≡ queue_list_flaw queues.now }
{
    let count = HeaderFlaw::Queues(queues.len());
    limits_flaw(0, MAX_QUEUES, queues.len(), count)
        .or(length_flaw(queues))
        .or(messages_flaw(queues))
}

fn queues_flaw(queues: &Option<Items<QueueArgs>>) -> Option<HeaderFlaw>
    ensures { result ≡ queues_flaw queues.now }
{
    match queues {
        Some(queues) => queue_list_flaw(queues.as_slice()),
        None => None,
    }
}

/// In a session that says nothing of queues a tick has one unit.
fn units_flaw(units: u32, queues: &Option<Items<QueueArgs>>) -> Option<HeaderFlaw>
    ensures { result ≡ units_flaw units queues.now }
{
    let most = match queues {
        Some(_) => MAX_UNITS,
        None => 1,
    };
    limits_flaw(1, most, units as usize, HeaderFlaw::Units(units))
}

fn location_of_no_name(tasks: &[TaskArgs]) -> Option<usize>
    ensures { result ≡ location_of_no_name tasks.now }
{
    tasks
        .iter()
        .position(|task| !spells_name(task.name.as_str().as_bytes()))
}

fn name_flaw(tasks: &[TaskArgs]) -> Option<HeaderFlaw>
    ensures { result ≡ name_flaw tasks.now }
{
    match location_of_no_name(tasks) {
        Some(task) => Some(HeaderFlaw::NoName(task)),
        None => None,
    }
}

fn location_of_priority(priorities: u32, tasks: &[TaskArgs]) -> Option<usize>
    ensures { result ≡ location_of_priority priorities tasks.now }
{
    tasks.iter().position(|task| priorities <= task.priority)
}

fn priority_flaw(priorities: u32, tasks: &[TaskArgs]) -> Option<HeaderFlaw>
    ensures { result ≡ priority_flaw priorities tasks.now }
{
    match location_of_priority(priorities, tasks) {
        Some(task) => Some(HeaderFlaw::Priority { task, priorities }),
        None => None,
    }
}

/// Whether no bit of the mask means one of so many cores.
fn means_no_core(cores: u32, mask: u32) -> bool
    ensures value { result ≡ (cores_in cores mask == 0) }
    ensures word { mask < 2 ^ 32 }
{
    cores_of_mask(cores, mask) == 0
}

/// The place of the first task that may run on none of so many cores.
fn location_of_mask(cores: u32, tasks: &[TaskArgs]) -> Option<usize>
    ensures value { result ≡ location_of_mask cores tasks.now }
    ensures words { IfNone result (All (λ task. task.mask < 2 ^ 32) tasks.now) }
{
    for (place, task) in tasks.iter().enumerate() {
        if means_no_core(cores, task.mask) {
            return Some(place);
        }
    }
    None
}

fn mask_flaw(cores: u32, tasks: &[TaskArgs]) -> Option<HeaderFlaw>
    ensures value { result ≡ mask_flaw cores tasks.now }
    ensures words { IfNone result (All (λ task. task.mask < 2 ^ 32) tasks.now) }
{
    match location_of_mask(cores, tasks) {
        Some(task) => Some(HeaderFlaw::Mask { task, cores }),
        None => None,
    }
}

/// How many tasks have the name.
fn count_of_name(tasks: &[TaskArgs], name: &str) -> usize
    ensures { result ≡ count_of_name tasks.now name.now }
{
    tasks
        .iter()
        .filter(|task| name == task.name.as_str())
        .count()
}

fn shares_name(tasks: &[TaskArgs], task: &TaskArgs) -> bool
    ensures { result ≡ nat_lt 1 (count_of_name tasks.now task.now.name) }
{
    1 < count_of_name(tasks, task.name.as_str())
}

fn location_of_shared_name(tasks: &[TaskArgs]) -> Option<usize>
    ensures { result ≡ location_of_shared_name tasks.now }
{
    tasks.iter().position(|task| shares_name(tasks, task))
}

fn shared_flaw(tasks: &[TaskArgs]) -> Option<HeaderFlaw>
    ensures { result ≡ shared_flaw tasks.now }
{
    match location_of_shared_name(tasks) {
        Some(task) => Some(HeaderFlaw::SharedName(task)),
        None => None,
    }
}

/// The first flaw of tasks, of which there are not too many.
pub(crate) fn args_flaw(config: Config, tasks: &[TaskArgs]) -> Option<HeaderFlaw>
    ensures value { result ≡ args_flaw config tasks.now }
    ensures words { IfNone result (All (λ task. task.mask < 2 ^ 32) tasks.now) }
{
    name_flaw(tasks)
        .or(priority_flaw(config.priorities, tasks))
        .or(mask_flaw(config.cores, tasks))
        .or(shared_flaw(tasks))
}
