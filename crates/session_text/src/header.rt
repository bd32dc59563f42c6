//! The header of a session: its shape, and what it is accepted as.
ghost use Rattle.std.specs.Prelude.{◌≡◌, Some, None, IfOk, MatchResult, if◌then◌else◌};
ghost use Rattle.bench_types.specs.Flaw.{location_of_no_name};
ghost use Rattle.bench_types.specs.Header.{IsCheckedHeader};
ghost use Rattle.bench_types.specs.Name.{is_name};
ghost use Rattle.session_text.specs.Header.{accepted, header_at, header_of, settings_at, task_at};
ghost use Rattle.session_text.specs.Node.{data_of, location_of};
ghost use Rattle.session_text.specs.ReadingRules.{Gives};

use crate::array::{ReadItem, list_at};
use crate::fault::ReadFault;
use crate::format::{Format, notes_at, queues_at, units_at};
use crate::node::Node;
use bench_types::{Config, Header, HeaderFlaw, Items, Name, QueueArgs, TaskArgs};
use std::alloc::{AllocError, Global};
use std::marker::Model;

/// A user task as the text has it: its name may still be any text.
#[derive(Drop)]
pub struct TaskShape<'v> {
    pub name: &'v str,
    pub priority: u32,
    pub mask: u32,
}

impl<'v> Model for TaskShape<'v> {
    ghost use Rattle.bench_types.specs.declared.header.TaskArgs.{TaskArgs};

    ghost Value = { TaskArgs };

    ghost view = { λ task.
        record { name = task.name.now; priority = task.priority; mask = task.mask } };
}

impl TaskShape<'_> {
    /// The task; none where its name is none.
    fn to_args(&self) -> Option<TaskArgs>
        ensures { result ≡ (if is_name self.now.name then Some self.now else None) }
    {
        match Name::new(self.name) {
            Ok(name) => Some(TaskArgs {
                name,
                priority: self.priority,
                mask: self.mask,
            }),
            Err(_) => None,
        }
    }
}

/// The settings and the queues.
#[tactic(auto, unfolding(crate::specs::Header::settings_at))]
pub fn settings_at(
    format: Format,
    node: &Node<'_, '_, '_>,
) -> Result<(Config, Option<Items<QueueArgs>>), ReadFault>
    ensures { Gives (λ settings. settings) result
        (settings_at format (location_of node.now) (data_of node.now)) }
{
    let cores = node.number("cores")?;
    let priorities = node.number("priorities")?;
    let slicing = node.flag("slicing")?;
    let tick = node.number("tick")?;
    let mutexes = node.number("mutexes")?;
    let notes = notes_at(format, node)?;
    let queues = queues_at(format, node)?;
    let units = units_at(format, node)?;
    let config = Config {
        cores,
        priorities,
        slicing,
        tick,
        mutexes,
        notes,
        units,
    };
    Ok((config, queues))
}

/// Reads the user tasks.
struct TaskReader;

impl<'v> ReadItem<'v> for TaskReader {
    type Item = TaskShape<'v>;

    ghost reading = { λ _. task_at };

    #[tactic(auto, unfolding(crate::specs::Header::task_at))]
    fn read(&self, node: &Node<'_, '_, 'v>) -> Result<TaskShape<'v>, ReadFault> {
        let members = node.object()?;
        let name = node.text("name")?;
        let priority = node.number("priority")?;
        let mask = node.number("mask")?;
        node.only(&["name", "priority", "mask"], &members)?;
        Ok(TaskShape {
            name,
            priority,
            mask,
        })
    }
}

/// The tasks, or the location of the first one whose name is none. Only memory ends the call early.
fn named_tasks(
    alloc: Global,
    shapes: &[TaskShape<'_>],
) -> Result<Result<Vec<TaskArgs>, usize>, AllocError>
    ensures { IfOk result (λ made. MatchResult made (λ tasks. tasks.items ≡ shapes.now)
        (λ location. location_of_no_name shapes.now ≡ Some location)) }
{
    let mut tasks = Vec::with_capacity(alloc, shapes.len())?;
    for (location, shape) in shapes.iter().enumerate() {
        match shape.to_args() {
            Some(task) => tasks.push(task)?,
            None => return Ok(Err(location)),
        }
    }
    Ok(Ok(tasks))
}

/// The header, or its first flaw.
fn checked(header: Header) -> Result<Header, HeaderFlaw>
    ensures value { result ≡ accepted header }
    ensures valid { IfOk result IsCheckedHeader }
{
    match header.flaw() {
        None => Ok(header),
        Some(flaw) => Err(flaw),
    }
}

/// The header of these queues and tasks, or its first flaw. Only memory ends the call early.
pub fn accepted(
    alloc: Global,
    config: Config,
    queues: Option<Items<QueueArgs>>,
    shapes: &[TaskShape<'_>],
) -> Result<Result<Header, HeaderFlaw>, AllocError>
    ensures value { IfOk result
        (λ header. header
        ≡ accepted (record { config = config; queues = queues; tasks = shapes.now })) }
    ensures valid { IfOk result (λ header. IfOk header IsCheckedHeader) }
    ensures config { IfOk result (λ header. IfOk header (λ it. it.config ≡ config)) }
{
    match config.flaw(&queues, shapes.len()) {
        Some(flaw) => Ok(Err(flaw)),
        None => match named_tasks(alloc, shapes)? {
            Ok(tasks) => Ok(checked(Header {
                config,
                queues,
                tasks: Items::new(tasks),
            })),
            Err(location) => Ok(Err(HeaderFlaw::NoName(location))),
        },
    }
}

/// The header with these settings and queues, accepted or not.
pub(crate) fn header_of(
    config: Config,
    queues: Option<Items<QueueArgs>>,
    node: &Node<'_, '_, '_>,
) -> Result<Result<Header, HeaderFlaw>, ReadFault>
    ensures reading { Gives (λ header. header) result
        (header_of config queues (location_of node.now) (data_of node.now)) }
    ensures valid { IfOk result (λ header. IfOk header IsCheckedHeader) }
    ensures config { IfOk result (λ header. IfOk header (λ it. it.config ≡ config)) }
{
    let shapes = list_at(&TaskReader, node, "tasks")?;
    Ok(accepted(node.alloc, config, queues, shapes.as_slice())?)
}

/// The header, accepted or not: its shape alone is judged.
#[tactic(auto, unfolding(crate::specs::Header::header_at))]
pub(crate) fn header_at(
    format: Format,
    node: &Node<'_, '_, '_>,
) -> Result<Result<Header, HeaderFlaw>, ReadFault>
    ensures reading { Gives (λ header. header) result
        (header_at format (location_of node.now) (data_of node.now)) }
    ensures valid { IfOk result (λ header. IfOk header IsCheckedHeader) }
{
    let (config, queues) = settings_at(format, node)?;
    header_of(config, queues, node)
}
