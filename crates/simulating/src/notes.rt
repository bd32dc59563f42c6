//! What is told of the run of a workload, or of one that is too long.
ghost use Rattle.std.specs.Prelude.{◌≡◌, ◌++◌, ◌∷◌, [], false, IfOk, OnOk, if◌then◌else◌, slice_index_or, string_bytes};
ghost use Rattle.std.specs.List.{list_any};
ghost use Rattle.task_programs.specs.Programs.{leads_out};
ghost use Rattle.simulating.specs.Notes.{ended, ends_text, has_ended, is_endless_loop, is_under_way, line_text, lone_text, names_text, never_ends, next_name, too_long_text, under_way, user_name};

use crate::callers::LAST_CALLS;
use bench_types::{Header, MAX_STEPS, MAX_TASKS};
use std::alloc::{AllocError, Global};
use task_programs::{CheckedWorkload, Instruction};

fn leads_out(instruction: Instruction, end: u32) -> bool
    ensures { result ≡ leads_out end instruction }
{
    match instruction {
        Instruction::Break { end: to } => to == end,
        _ => false,
    }
}

fn any_leads_out(program: &[Instruction], end: u32) -> bool
    ensures { result ≡ list_any (leads_out end) program.now }
{
    program
        .iter()
        .any(|instruction| leads_out(*instruction, end))
}

// Whether the instruction begins a loop for ever that no `break` leaves.
fn is_endless_loop(program: &[Instruction], instruction: Instruction) -> bool
    ensures { result ≡ is_endless_loop program.now instruction }
{
    match instruction {
        Instruction::Enter { rounds: None, end } => !any_leads_out(program, end),
        _ => false,
    }
}

fn never_ends(program: &[Instruction]) -> bool
    ensures { result ≡ never_ends program.now }
{
    program
        .iter()
        .any(|instruction| is_endless_loop(program, *instruction))
}

fn has_ended(at_end: &[bool], user: u32) -> bool
    ensures { result ≡ has_ended at_end.now user }
{
    at_end.get(user as usize).copied().unwrap_or(false)
}

// Whether the user task is not at the end of its program, which has one.
fn is_under_way(workload: &CheckedWorkload, at_end: &[bool], user: u32) -> bool
    ensures { result ≡ is_under_way workload.now at_end.now user }
{
    match workload.programs().get(user as usize) {
        Some(program) => !has_ended(at_end, user) && !never_ends(program.as_slice()),
        None => false,
    }
}

fn push_if(users: &mut Vec<u32>, user: u32, passes: bool) -> Result<(), AllocError>
    ensures { OnOk result
        (users.new.items ≡ users.old.items ++ (if passes then user ∷ [] else [])) }
{
    if passes {
        users.push(user)?;
        Ok(())
    } else {
        Ok(())
    }
}

// The user tasks that are at the end of their programs.
fn ended(alloc: Global, at_end: &[bool]) -> Result<Vec<u32>, AllocError>
    ensures { IfOk result (λ users. users.items ≡ ended at_end.now) }
{
    let mut users = Vec::new(alloc);
    for user in 0..MAX_TASKS {
        push_if(&mut users, user, has_ended(at_end, user))?;
    }
    Ok(users)
}

// Those that are not, of those whose programs have an end.
fn under_way(
    alloc: Global,
    workload: &CheckedWorkload,
    at_end: &[bool],
) -> Result<Vec<u32>, AllocError>
    ensures { IfOk result (λ users. users.items ≡ under_way workload.now at_end.now) }
{
    let mut users = Vec::new(alloc);
    for user in 0..MAX_TASKS {
        push_if(&mut users, user, is_under_way(workload, at_end, user))?;
    }
    Ok(users)
}

fn push_user(text: &mut String, header: &Header, user: u32) -> Result<(), AllocError>
    ensures { OnOk result
        (string_bytes text.new ≡ string_bytes text.old ++ user_name header.now user) }
{
    match header.tasks.as_slice().get(user as usize) {
        Some(task) => text.push_str(task.name.as_str()),
        None => Ok(()),
    }
}

fn push_next(text: &mut String, header: &Header, user: u32) -> Result<(), AllocError>
    ensures { OnOk result
        (string_bytes text.new ≡ string_bytes text.old ++ next_name header.now user) }
{
    text.push_str(", ")?;
    push_user(text, header, user)
}

// The names of some user tasks, the first of them and the others.
fn push_names(
    text: &mut String,
    header: &Header,
    first: u32,
    others: &[u32],
) -> Result<(), AllocError>
    ensures { OnOk result
        (string_bytes text.new
        ≡ string_bytes text.old ++ names_text header.now (first ∷ others.now)) }
{
    push_user(text, header, first)?;
    for user in others {
        push_next(text, header, *user)?;
    }
    Ok(())
}

// A line that names user tasks; nothing where there is none to name.
fn push_line(
    text: &mut String,
    header: &Header,
    heading: &str,
    users: &[u32],
) -> Result<(), AllocError>
    ensures { OnOk result
        (string_bytes text.new
        ≡ string_bytes text.old ++ line_text header.now heading.now users.now) }
{
    match users {
        [] => Ok(()),
        [first, others @ ..] => {
            text.push_str(heading)?;
            push_names(text, header, *first, others)?;
            text.push_str("\n")
        }
    }
}

/// Writes after the text which user tasks are at the end of their programs when the run of the
/// workload ends, and which are not though their programs have an end: a line each, as
/// `at the end of its program: control, logger`. A line that would name none is left out.
#[tactic(auto, unfolding(crate::specs::Notes::ends_text))]
pub fn push_ends(
    alloc: Global,
    text: &mut String,
    workload: &CheckedWorkload,
    at_end: &[bool],
) -> Result<(), AllocError>
    ensures { OnOk result
        (string_bytes text.new
        ≡ string_bytes text.old ++ ends_text workload.now at_end.now) }
{
    let header = workload.header();
    let ended = ended(alloc, at_end)?;
    push_line(text, header, "at the end of its program: ", &ended)?;
    let left = under_way(alloc, workload, at_end)?;
    push_line(text, header, "not at the end of its program: ", &left)
}

fn push_lone(text: &mut String, header: &Header, caller: Option<u32>) -> Result<(), AllocError>
    ensures { OnOk result
        (string_bytes text.new ≡ string_bytes text.old ++ lone_text header.now caller) }
{
    match caller {
        None => Ok(()),
        Some(task) => {
            text.push_str("; ")?;
            header.push_name(text, task)?;
            write!(text, " made each of its last {LAST_CALLS} calls")
        }
    }
}

/// Writes after the text that the run of a workload with the header is too long (J2), and which
/// task makes each of its last calls, where it is one alone.
#[tactic(auto, unfolding(crate::specs::Notes::too_long_text))]
pub fn push_too_long(
    text: &mut String,
    header: &Header,
    caller: Option<u32>,
) -> Result<(), AllocError>
    ensures { OnOk result
        (string_bytes text.new ≡ string_bytes text.old ++ too_long_text header.now caller) }
{
    write!(
        text,
        "the run of the workload has more than {MAX_STEPS} steps"
    )?;
    push_lone(text, header, caller)
}
