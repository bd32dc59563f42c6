//! All that can be seen of a kernel, as indented lines.
ghost use Rattle.std.specs.Prelude.{◌<◌};

use crate::lines::push_task;
use bench_types::{CoreLook, Header, NoteState, TaskLook};
use smp_kernel::Kernel;
use std::alloc::AllocError;

/// The tick count, an open hold, cores with a flag, the user tasks and mutexes with a holder.
pub(crate) fn push_state(
    text: &mut String,
    header: &Header,
    kernel: &Kernel,
) -> Result<(), AllocError> {
    write!(text, "  tick {}\n", kernel.tick())?;
    push_hold(text, kernel)?;
    push_cores(text, kernel)?;
    push_tasks(text, header, kernel)?;
    push_holders(text, header, kernel)
}

fn push_hold(text: &mut String, kernel: &Kernel) -> Result<(), AllocError> {
    match kernel.hold() {
        Some((core, depth)) => write!(text, "  hold core {core} depth {depth}\n"),
        None => Ok(()),
    }
}

fn push_cores(text: &mut String, kernel: &Kernel) -> Result<(), AllocError> {
    for core in 0..kernel.settings().cores {
        push_core(text, core, kernel.core_look(core))?;
    }
    Ok(())
}

fn push_core(text: &mut String, core: u32, look: CoreLook) -> Result<(), AllocError> {
    if !look.pend && !look.asked {
        return Ok(());
    }
    write!(text, "  core {core}")?;
    push_if(text, look.pend, " pend")?;
    push_if(text, look.asked, " asked")?;
    text.push_str("\n")
}

fn push_if(text: &mut String, is_shown: bool, word: &str) -> Result<(), AllocError> {
    if is_shown {
        text.push_str(word)?;
    }
    Ok(())
}

fn push_tasks(text: &mut String, header: &Header, kernel: &Kernel) -> Result<(), AllocError> {
    let settings = kernel.settings();
    for task in settings.cores..settings.tasks {
        text.push_str("  task")?;
        push_task(text, header, task)?;
        push_look(text, kernel, task)?;
    }
    Ok(())
}

fn push_look(text: &mut String, kernel: &Kernel, task: u32) -> Result<(), AllocError>
    requires { task < kernel.now.settings.tasks }
{
    let look = kernel.look(task);
    push_settings(text, &look)?;
    push_wait(text, &look)?;
    push_note(text, look.value, look.state)?;
    push_later_notes(text, kernel, task)?;
    push_number(text, " held", look.held)?;
    push_if(text, look.in_call, " in_call")?;
    text.push_str("\n")
}

fn push_settings(text: &mut String, look: &TaskLook) -> Result<(), AllocError> {
    let (in_use, base, mask) = (look.in_use, look.base, look.mask);
    write!(text, " in_use {in_use} base {base} mask {mask}")?;
    push_if(text, !look.preempt, " preempt_off")
}

fn push_wait(text: &mut String, look: &TaskLook) -> Result<(), AllocError> {
    text.push_str(wait_text(look))?;
    match look.left {
        Some(left) => write!(text, " left {left}"),
        None => Ok(()),
    }
}

fn wait_text(look: &TaskLook) -> &'static str {
    if look.ready {
        " ready"
    } else if look.suspended {
        " suspended"
    } else {
        " blocked"
    }
}

fn push_note(text: &mut String, value: u32, state: NoteState) -> Result<(), AllocError> {
    push_number(text, " value", value)?;
    text.push_str(note_text(state))
}

/// The notifications of the indexes above 0 that are not as they were at the start.
fn push_later_notes(text: &mut String, kernel: &Kernel, task: u32) -> Result<(), AllocError>
    requires { task < kernel.now.settings.tasks }
{
    for index in 1..kernel.settings().notes {
        let (value, state) = kernel.note_look(task, index);
        if value != 0 || state != NoteState::NotWaiting {
            write!(text, " index {index}")?;
            push_note(text, value, state)?;
        }
    }
    Ok(())
}

fn note_text(state: NoteState) -> &'static str {
    match state {
        NoteState::NotWaiting => "",
        NoteState::Waiting => " waiting",
        NoteState::Received => " received",
    }
}

/// The word and the number, where there is one.
fn push_number(text: &mut String, word: &str, number: u32) -> Result<(), AllocError> {
    if number != 0 {
        write!(text, "{word} {number}")?;
    }
    Ok(())
}

fn push_holders(text: &mut String, header: &Header, kernel: &Kernel) -> Result<(), AllocError> {
    for mutex in 0..kernel.settings().mutexes {
        if let Some(holder) = kernel.holder(mutex) {
            write!(text, "  mutex {mutex}")?;
            push_task(text, header, holder)?;
            text.push_str("\n")?;
        }
    }
    Ok(())
}
