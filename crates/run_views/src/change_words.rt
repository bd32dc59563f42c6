//! A change in words.
ghost use Rattle.std.specs.Prelude.{◌≡◌, ◌++◌, OnOk, codes, string_bytes};
ghost use Rattle.run_views.specs.ChangeWords.{change_text, core_change, from_to, hold_change, hold_text, holder_change, mutex_change, note_change, queue_change, set_text, standing_change, standing_text, state_text, task_change};

use crate::step_words::push_index;
use crate::{Change, CoreChange, MutexChange, NoteChange, QueueChange, Standing, TaskChange};
use bench_types::{Header, Hold, NoteState};
use std::alloc::AllocError;

fn push_from_to(text: &mut String, name: &str, from: u32, to: u32) -> Result<(), AllocError>
    ensures { OnOk result
        (string_bytes text.new ≡ string_bytes text.old ++ from_to name.now from to) }
{
    write!(text, "{name} {from} to {to}")
}

fn set_text(now: bool) -> &'static str
    ensures { result.now ≡ set_text now }
{
    if now { " set" } else { " cleared" }
}

/// Writes an open hold.
pub fn push_hold(text: &mut String, hold: Hold) -> Result<(), AllocError>
    ensures { OnOk result (string_bytes text.new ≡ string_bytes text.old ++ hold_text hold) }
{
    let Hold { core, depth } = hold;
    write!(text, "core {core} depth {depth}")
}

fn push_hold_change(
    text: &mut String,
    from: Option<Hold>,
    to: Option<Hold>,
) -> Result<(), AllocError>
    ensures { OnOk result (string_bytes text.new ≡ string_bytes text.old ++ hold_change from to) }
{
    match (from, to) {
        (None, None) => text.push_str("no hold"),
        (None, Some(to)) => {
            text.push_str("hold opened, ")?;
            push_hold(text, to)
        }
        (Some(from), None) => {
            text.push_str("hold closed, ")?;
            push_hold(text, from)
        }
        (Some(from), Some(to)) => {
            text.push_str("hold ")?;
            push_hold(text, from)?;
            text.push_str(" to ")?;
            push_hold(text, to)
        }
    }
}

fn push_core_change(
    text: &mut String,
    header: &Header,
    change: CoreChange,
) -> Result<(), AllocError>
    ensures { OnOk result
        (string_bytes text.new ≡ string_bytes text.old ++ core_change header.now change) }
{
    match change {
        CoreChange::Current { from, to } => {
            text.push_str(" current ")?;
            header.push_name(text, from)?;
            text.push_str(" to ")?;
            header.push_name(text, to)
        }
        CoreChange::Pend(now) => {
            text.push_str(" pend")?;
            text.push_str(set_text(now))
        }
        CoreChange::Asked(now) => {
            text.push_str(" asked")?;
            text.push_str(set_text(now))
        }
    }
}

/// Writes how a task stands, after its name.
pub fn push_standing(text: &mut String, standing: Standing) -> Result<(), AllocError>
    ensures { OnOk result
        (string_bytes text.new ≡ string_bytes text.old ++ standing_text standing) }
{
    match standing {
        Standing::Ready => text.push_str(" woken"),
        Standing::Blocked(None) => text.push_str(" blocked without end"),
        Standing::Blocked(Some(wake)) => write!(text, " blocked until tick {wake}"),
        Standing::Suspended => text.push_str(" suspended"),
    }
}

fn push_standing_change(text: &mut String, from: Standing, to: Standing) -> Result<(), AllocError>
    ensures { OnOk result
        (string_bytes text.new ≡ string_bytes text.old ++ standing_change from to) }
{
    match (from, to) {
        (Standing::Suspended, Standing::Ready) => text.push_str(" resumed"),
        _ => push_standing(text, to),
    }
}

fn state_text(state: NoteState) -> &'static str
    ensures { result.now ≡ state_text state }
{
    match state {
        NoteState::NotWaiting => "none",
        NoteState::Waiting => "waiting",
        NoteState::Received => "received",
    }
}

fn push_state_change(text: &mut String, from: NoteState, to: NoteState) -> Result<(), AllocError>
    ensures { OnOk result
        (string_bytes text.new
        ≡ string_bytes text.old ++ codes " notification " ++ state_text from ++ codes " to "
        ++ state_text to) }
{
    text.push_str(" notification ")?;
    text.push_str(state_text(from))?;
    text.push_str(" to ")?;
    text.push_str(state_text(to))
}

fn push_note_change(
    text: &mut String,
    header: &Header,
    index: u32,
    change: NoteChange,
) -> Result<(), AllocError>
    ensures { OnOk result
        (string_bytes text.new ≡ string_bytes text.old ++ note_change header.now index change) }
{
    match change {
        NoteChange::Value { from, to } => push_from_to(text, " notification value", from, to)?,
        NoteChange::State { from, to } => push_state_change(text, from, to)?,
    }
    push_index(text, header, index)
}

fn push_task_change(
    text: &mut String,
    header: &Header,
    change: TaskChange,
) -> Result<(), AllocError>
    ensures { OnOk result
        (string_bytes text.new ≡ string_bytes text.old ++ task_change header.now change) }
{
    match change {
        TaskChange::Stands { from, to } => push_standing_change(text, from, to),
        TaskChange::InUse { from, to } => push_from_to(text, " priority in use", from, to),
        TaskChange::Base { from, to } => push_from_to(text, " base priority", from, to),
        TaskChange::Mask { from, to } => push_from_to(text, " mask", from, to),
        TaskChange::Preempt(true) => text.push_str(" preemption on"),
        TaskChange::Preempt(false) => text.push_str(" preemption off"),
        TaskChange::Call { to: Some(_), .. } => text.push_str(" call begun"),
        TaskChange::Call { to: None, .. } => text.push_str(" call ended"),
        TaskChange::Note(change) => push_note_change(text, header, 0, change),
    }
}

fn push_holder_change(
    text: &mut String,
    header: &Header,
    from: Option<u32>,
    to: Option<u32>,
) -> Result<(), AllocError>
    ensures { OnOk result
        (string_bytes text.new ≡ string_bytes text.old ++ holder_change header.now from to) }
{
    match (from, to) {
        (None, None) => text.push_str(" free"),
        (None, Some(to)) => {
            text.push_str(" taken by ")?;
            header.push_name(text, to)
        }
        (Some(from), None) => {
            text.push_str(" given by ")?;
            header.push_name(text, from)
        }
        (Some(from), Some(to)) => {
            text.push_str(" given by ")?;
            header.push_name(text, from)?;
            text.push_str(", taken by ")?;
            header.push_name(text, to)
        }
    }
}

/// Writes the change: what it is of, and what became of that.
#[tactic(auto, unfolding(crate::specs::ChangeWords::change_text))]
pub(crate) fn push_change(
    text: &mut String,
    header: &Header,
    change: Change,
) -> Result<(), AllocError>
    ensures { OnOk result
        (string_bytes text.new ≡ string_bytes text.old ++ change_text header.now change) }
{
    match change {
        Change::Tick { from, to } => push_from_to(text, "tick", from, to),
        Change::Hold { from, to } => push_hold_change(text, from, to),
        Change::Core { core, change } => {
            write!(text, "core {core}")?;
            push_core_change(text, header, change)
        }
        Change::Task { task, change } => {
            header.push_name(text, task)?;
            push_task_change(text, header, change)
        }
        Change::Further {
            index,
            task,
            change,
        } => {
            header.push_name(text, task)?;
            push_note_change(text, header, index, change)
        }
        Change::Mutex {
            mutex,
            change: MutexChange::Holder { from, to },
        } => {
            write!(text, "mutex {mutex}")?;
            push_holder_change(text, header, from, to)
        }
        Change::Queue {
            queue,
            change: QueueChange::Messages { from, to },
        } => {
            write!(text, "queue {queue}")?;
            push_from_to(text, " messages", from, to)
        }
    }
}
