//! Where in the text of an input a fault is, and of a refused header the member at fault.
ghost use Rattle.std.specs.Prelude.{◌≡◌, ◌++◌, IfOk, OnOk, string_bytes};
ghost use Rattle.program_io.specs.Placed.{fault_location, flaw_member, flaw_path, member_prefix, location_suffix, queue_member, task_member};

use bench_types::HeaderFlaw;
use std::alloc::{AllocError, Global};
use text_locations::{TextLocation, location_of_path};

/// Where in the input the path leads. Bytes that are no text have no location.
pub(crate) fn fault_location(
    alloc: Global,
    input: &[u8],
    path: &str,
) -> Result<Option<TextLocation>, AllocError>
    ensures { IfOk result (λ location. location ≡ fault_location input.now path.now) }
{
    match std::str::from_utf8(input) {
        Ok(text) => location_of_path(alloc, text, path),
        Err(_) => Ok(None),
    }
}

/// The location, if there is one, at the end of what is told.
pub(crate) fn push_location(
    text: &mut String,
    location: Option<TextLocation>,
) -> Result<(), AllocError>
    ensures { OnOk result
        (string_bytes text.new ≡ string_bytes text.old ++ location_suffix location) }
{
    match location {
        Some(location) => {
            let line = location.line;
            let column = location.column;
            write!(text, " (line {line}, column {column})")
        }
        None => Ok(()),
    }
}

// What stands before the name of a member in its path.
fn member_prefix(alloc: Global, object: &str) -> Result<String, AllocError>
    ensures { IfOk result (λ prefix. string_bytes prefix ≡ member_prefix object.now) }
{
    if object == "top" {
        return Ok(String::new(alloc));
    }
    let mut prefix = String::from_str(alloc, object)?;
    prefix.push_str(".")?;
    Ok(prefix)
}

fn push_task_member(path: &mut String, task: usize, name: &str) -> Result<(), AllocError>
    ensures { OnOk result
        (string_bytes path.new ≡ string_bytes path.old ++ task_member task name.now) }
{
    write!(path, "tasks[{task}].{name}")
}

fn push_queue_member(path: &mut String, queue: usize, name: &str) -> Result<(), AllocError>
    ensures { OnOk result
        (string_bytes path.new ≡ string_bytes path.old ++ queue_member queue name.now) }
{
    write!(path, "queues[{queue}].{name}")
}

fn push_flaw_member(path: &mut String, flaw: HeaderFlaw) -> Result<(), AllocError>
    ensures { OnOk result (string_bytes path.new ≡ string_bytes path.old ++ flaw_member flaw) }
{
    match flaw {
        HeaderFlaw::Cores(_) => path.push_str("cores"),
        HeaderFlaw::Priorities(_) => path.push_str("priorities"),
        HeaderFlaw::Mutexes(_) => path.push_str("mutexes"),
        HeaderFlaw::Notes(_) => path.push_str("notes"),
        HeaderFlaw::Queues(_) => path.push_str("queues"),
        HeaderFlaw::QueueLength(queue) => push_queue_member(path, queue, "length"),
        HeaderFlaw::QueueMessages(queue) => push_queue_member(path, queue, "messages"),
        HeaderFlaw::Units(_) => path.push_str("units"),
        HeaderFlaw::TaskCount(_) => path.push_str("tasks"),
        HeaderFlaw::NoName(task) => push_task_member(path, task, "name"),
        HeaderFlaw::Priority { task, .. } => push_task_member(path, task, "priority"),
        HeaderFlaw::Mask { task, .. } => push_task_member(path, task, "mask"),
        HeaderFlaw::SharedName(task) => push_task_member(path, task, "name"),
    }
}

/// The path of the member for which the header of the session at that path is not accepted.
pub(crate) fn flaw_path(
    alloc: Global,
    session: &str,
    flaw: HeaderFlaw,
) -> Result<String, AllocError>
    ensures { IfOk result (λ path. string_bytes path ≡ flaw_path session.now flaw) }
{
    let mut path = member_prefix(alloc, session)?;
    push_flaw_member(&mut path, flaw)?;
    Ok(path)
}
