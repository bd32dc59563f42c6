//! A session as a JSON text.
ghost use Rattle.std.specs.Prelude.{◌≡◌, [], ◌∷◌, All, IfOk, Ok, OnOk, Some, codes};
ghost use Rattle.serde_json.specs.Data.{boolean};
ghost use Rattle.bench_types.specs.Session.{IsSession};
ghost use Rattle.bench_types.specs.Step.{IsCheckedStep, settings_of};
ghost use Rattle.session_text.specs.Session.{session};
ghost use Rattle.session_write.specs.Tokens.{with_members, with_value};
ghost use Rattle.session_write.specs.Written.{first_data, format_for, members, queue_data, queues_data, second_data, session_data, steps_data, task_data, tasks_data, third_data, whole, written};

use crate::scribe::Scribe;
use crate::step::write_steps;
use bench_types::{Config, Header, Items, QueueArgs, Step, TaskArgs};
use session_text::Format;
use std::alloc::{AllocError, Global};

/// Writes a session as a JSON text without spaces, with the members of each object in ascending
/// byte order. The text has format 3 where the session says which queues there are, and says then
/// how many units of time a tick has where it has more than one. Else it has format 1 where each
/// task has one notification, and format 2 where it has more. From format 2 on each step that is
/// for a notification says its index.
pub fn write_session(alloc: Global, header: &Header, steps: &[Step]) -> Result<Vec<u8>, AllocError>
    requires { IsSession (record { header = header.now; steps = steps.now }) }
    ensures text { IfOk result (λ text. text.items ≡ written header.now steps.now) }
    // So `read_session` gives the session back.
    ensures reads_back { IfOk result (λ text. session text.items ≡ Ok (header.now, steps.now)) }
{
    let mut scribe = Scribe::new(alloc);
    write_object(&mut scribe, header, steps)?;
    Ok(scribe.into_text())
}

/// The format that a session of the header is written in.
fn format_for(header: &Header) -> Format
    ensures { result ≡ format_for header.now }
{
    if header.queues.is_some() {
        Format::Three
    } else if header.config.notes == 1 {
        Format::One
    } else {
        Format::Two
    }
}

#[tactic(auto, unfolding(crate::specs::Written::data_in))]
fn write_object(scribe: &mut Scribe, header: &Header, steps: &[Step]) -> Result<(), AllocError>
    requires { All (IsCheckedStep (settings_of header.now)) steps.now }
    ensures { OnOk result
        (scribe.new ≡ with_value (session_data header.now steps.now) scribe.old) }
{
    let format = format_for(header);
    match format {
        Format::One => write_first(scribe, header, steps),
        Format::Two => write_second(scribe, header, steps),
        Format::Three => write_third(scribe, header, steps),
    }
}

/// A session of format 1.
fn write_first(scribe: &mut Scribe, header: &Header, steps: &[Step]) -> Result<(), AllocError>
    requires { All (IsCheckedStep (settings_of header.now)) steps.now }
    ensures { OnOk result
        (scribe.new
        ≡ with_value (first_data header.now.config (steps_data Format.One header.now steps.now)
        (tasks_data header.now.tasks)) scribe.old) }
{
    scribe.begin_object()?;
    write_head(scribe, header.config, 1)?;
    scribe.whole("priorities", header.config.priorities)?;
    write_tail(scribe, Format::One, header, steps)?;
    scribe.end_object()
}

/// A session of format 2.
fn write_second(scribe: &mut Scribe, header: &Header, steps: &[Step]) -> Result<(), AllocError>
    requires { All (IsCheckedStep (settings_of header.now)) steps.now }
    ensures { OnOk result
        (scribe.new
        ≡ with_value (second_data header.now.config (steps_data Format.Two header.now steps.now)
        (tasks_data header.now.tasks)) scribe.old) }
{
    scribe.begin_object()?;
    write_head(scribe, header.config, 2)?;
    scribe.whole("notes", header.config.notes)?;
    scribe.whole("priorities", header.config.priorities)?;
    write_tail(scribe, Format::Two, header, steps)?;
    scribe.end_object()
}

/// A session of format 3.
fn write_third(scribe: &mut Scribe, header: &Header, steps: &[Step]) -> Result<(), AllocError>
    requires { All (IsCheckedStep (settings_of header.now)) steps.now }
    ensures { OnOk result
        (scribe.new
        ≡ with_value (third_data header.now.config (queues_data header.now.queues)
        (steps_data Format.Three header.now steps.now) (tasks_data header.now.tasks))
        scribe.old) }
{
    scribe.begin_object()?;
    write_head(scribe, header.config, 3)?;
    scribe.whole("notes", header.config.notes)?;
    scribe.whole("priorities", header.config.priorities)?;
    scribe.name("queues")?;
    write_queues(scribe, &header.queues)?;
    write_tail(scribe, Format::Three, header, steps)?;
    scribe.units(header.config.units)?;
    scribe.end_object()
}

/// The first members of every format.
fn write_head(scribe: &mut Scribe, config: Config, format: u32) -> Result<(), AllocError>
    ensures { OnOk result
        (scribe.new
        ≡ with_members (members ((codes "cores", whole config.cores)
        ∷ (codes "format", whole format)
        ∷ (codes "mutexes", whole config.mutexes) ∷ [])) scribe.old) }
{
    scribe.whole("cores", config.cores)?;
    scribe.whole("format", format)?;
    scribe.whole("mutexes", config.mutexes)
}

/// The members from `slicing` to `tick`, which every format has.
fn write_tail(
    scribe: &mut Scribe,
    format: Format,
    header: &Header,
    steps: &[Step],
) -> Result<(), AllocError>
    requires { All (IsCheckedStep (settings_of header.now)) steps.now }
    ensures { OnOk result
        (scribe.new
        ≡ with_members (members ((codes "slicing", boolean header.now.config.slicing)
        ∷ (codes "steps", steps_data format header.now steps.now)
        ∷ (codes "tasks", tasks_data header.now.tasks)
        ∷ (codes "tick", whole header.now.config.tick) ∷ [])) scribe.old) }
{
    scribe.flag("slicing", header.config.slicing)?;
    scribe.name("steps")?;
    write_steps(scribe, format, header, steps)?;
    scribe.name("tasks")?;
    write_tasks(scribe, header.tasks.as_slice())?;
    scribe.whole("tick", header.config.tick)
}

fn write_queues(scribe: &mut Scribe, queues: &Option<Items<QueueArgs>>) -> Result<(), AllocError>
    ensures { OnOk result (scribe.new ≡ with_value (queues_data queues.now) scribe.old) }
{
    match queues {
        Some(queues) => write_each_queue(scribe, queues.as_slice()),
        None => write_each_queue(scribe, &[]),
    }
}

fn write_each_queue(scribe: &mut Scribe, queues: &[QueueArgs]) -> Result<(), AllocError>
    ensures { OnOk result (scribe.new ≡ with_value (queues_data (Some queues.now)) scribe.old) }
{
    scribe.begin_array()?;
    for queue in queues {
        write_queue(scribe, *queue)?;
    }
    scribe.end_array()
}

fn write_queue(scribe: &mut Scribe, queue: QueueArgs) -> Result<(), AllocError>
    ensures { OnOk result (scribe.new ≡ with_value (queue_data queue) scribe.old) }
{
    scribe.begin_object()?;
    scribe.whole("length", queue.length)?;
    scribe.whole("messages", queue.messages)?;
    scribe.end_object()
}

fn write_tasks(scribe: &mut Scribe, tasks: &[TaskArgs]) -> Result<(), AllocError>
    ensures { OnOk result (scribe.new ≡ with_value (tasks_data tasks.now) scribe.old) }
{
    scribe.begin_array()?;
    for task in tasks {
        write_task(scribe, task)?;
    }
    scribe.end_array()
}

fn write_task(scribe: &mut Scribe, task: &TaskArgs) -> Result<(), AllocError>
    ensures { OnOk result (scribe.new ≡ with_value (task_data task.now) scribe.old) }
{
    scribe.begin_object()?;
    scribe.whole("mask", task.mask)?;
    scribe.text("name", task.name.as_str())?;
    scribe.whole("priority", task.priority)?;
    scribe.end_object()
}
