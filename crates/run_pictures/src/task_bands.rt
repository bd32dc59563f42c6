//! The bands of the tasks: where each runs, is ready or is blocked, and where it inherits a
//! priority.
ghost use Rattle.std.specs.Prelude.{◌≡◌, ◌++◌, ◌+◌, ◌<◌, ◌≤◌, ◌^◌, OnOk, flat_map, length, string_bytes};
ghost use Rattle.run_pictures.specs.RowStretches.{row_of};
ghost use Rattle.run_pictures.specs.TaskBands.{blocked_label, cause_name, direction_text, inherited_bar, pose_bar, pose_words, reason_text, stance_label, stance_shape, stance_stretch, stance_text, stance_words, task_row};

use crate::bar::{Bar, Letters, push_bar, push_label, push_over};
use crate::frame::Frame;
use crate::hindrance_words::push_hindered;
use crate::ink::Ink;
use crate::pose::{Detail, Pose};
use crate::preemption::push_offs;
use crate::row_stretches::RowStretches;
use crate::shown::Priorities;
use crate::stance::Stance;
use crate::stretch::Stretch;
use crate::task_names::push_task_name;
use crate::task_stretches::TaskStretches;
use bench_types::{Cause, Direction, Header};
use run_views::{Look, Standing, push_standing};
use std::alloc::{AllocError, Global};

fn direction_text(direction: Direction) -> &'static str
    ensures { result.now ≡ direction_text direction }
{
    match direction {
        Direction::Send => " to send",
        Direction::Receive => " to receive",
    }
}

fn push_cause(text: &mut String, cause: Cause) -> Result<(), AllocError>
    ensures { OnOk result (string_bytes text.new ≡ string_bytes text.old ++ cause_name cause) }
{
    match cause {
        Cause::Delay => text.push_str("delay"),
        Cause::Notification => text.push_str("notification"),
        Cause::Mutex(mutex) => write!(text, "mutex {mutex}"),
        Cause::Queue { queue, direction } => {
            write!(text, "queue {queue}")?;
            text.push_str(direction_text(direction))
        }
    }
}

fn push_reason(text: &mut String, cause: Option<Cause>) -> Result<(), AllocError>
    ensures { OnOk result (string_bytes text.new ≡ string_bytes text.old ++ reason_text cause) }
{
    let Some(cause) = cause else {
        return Ok(());
    };
    text.push_str(" (")?;
    push_cause(text, cause)?;
    text.push_str(")")
}

fn push_stance_text(text: &mut String, stance: Stance) -> Result<(), AllocError>
    ensures { OnOk result (string_bytes text.new ≡ string_bytes text.old ++ stance_text stance) }
{
    match stance {
        Stance::Runs { core } => write!(text, " runs on core {core}"),
        Stance::Ready => text.push_str(" ready"),
        Stance::Blocked { wake, cause } => {
            push_standing(text, Standing::Blocked(wake))?;
            push_reason(text, cause)
        }
        Stance::Suspended => push_standing(text, Standing::Suspended),
    }
}

fn push_stance_words(
    words: &mut String,
    header: &Header,
    task: u32,
    stretch: Stretch<Stance>,
) -> Result<(), AllocError>
    ensures { OnOk result
        (string_bytes words.new
        ≡ string_bytes words.old ++ stance_words header.now task stretch) }
{
    push_over(words, stretch.first, stretch.last)?;
    header.push_name(words, task)?;
    push_stance_text(words, stretch.value)
}

// The bar of the user task of that index.
fn stance_shape(user: u32, y: u64, stretch: Stretch<Stance>) -> Bar
    requires { y < 2 ^ 40 }
    ensures { result ≡ stance_shape user y stretch }
{
    let (ink, down, height) = match stretch.value {
        Stance::Runs { .. } => (Ink::Runs(user), 4, 16),
        Stance::Ready => (Ink::Ready(user), 8, 8),
        Stance::Blocked { .. } => (Ink::Waits, 15, 4),
        Stance::Suspended => (Ink::Suspended, 13, 6),
    };
    Bar {
        ink,
        first: stretch.first,
        last: stretch.last,
        y: y + down,
        height,
    }
}

#[tactic(auto, unfolding(crate::specs::TaskBands::blocked_label))]
fn push_blocked_label(
    alloc: Global,
    text: &mut String,
    frame: &Frame,
    y: u64,
    first: u32,
    last: u32,
    cause: Option<Cause>,
) -> Result<(), AllocError>
    requires { y < 2 ^ 40 }
    ensures { OnOk result
        (string_bytes text.new
        ≡ string_bytes text.old ++ blocked_label frame.now y first last cause) }
{
    let Some(cause) = cause else {
        return Ok(());
    };
    let mut name = String::new(alloc);
    push_cause(&mut name, cause)?;
    push_label(
        text,
        frame,
        Letters::Small,
        first,
        last,
        y + 12,
        name.as_str(),
    )
}

#[tactic(auto, unfolding(crate::specs::TaskBands::stance_label))]
fn push_stance_label(
    alloc: Global,
    text: &mut String,
    frame: &Frame,
    y: u64,
    stretch: Stretch<Stance>,
) -> Result<(), AllocError>
    requires { y < 2 ^ 40 }
    ensures { OnOk result
        (string_bytes text.new ≡ string_bytes text.old ++ stance_label frame.now y stretch) }
{
    match stretch.value {
        Stance::Runs { core } => {
            let mut name = String::new(alloc);
            write!(name, "core {core}")?;
            push_label(
                text,
                frame,
                Letters::Dark,
                stretch.first,
                stretch.last,
                y + 16,
                name.as_str(),
            )
        }
        Stance::Ready | Stance::Suspended => Ok(()),
        Stance::Blocked { wake: _, cause } => {
            push_blocked_label(alloc, text, frame, y, stretch.first, stretch.last, cause)
        }
    }
}

// The stretch without what is in the way.
fn stance_stretch(stretch: &Stretch<Pose>) -> Stretch<Stance>
    ensures { result ≡ stance_stretch stretch.now }
{
    Stretch {
        first: stretch.first,
        last: stretch.last,
        value: stretch.value.stance,
    }
}

fn push_pose_words(
    alloc: Global,
    words: &mut String,
    header: &Header,
    task: u32,
    detail: Detail,
    stretch: &Stretch<Pose>,
) -> Result<(), AllocError>
    ensures { OnOk result
        (string_bytes words.new
        ≡ string_bytes words.old ++ pose_words header.now task detail stretch.now) }
{
    push_stance_words(words, header, task, stance_stretch(stretch))?;
    let hindrances = stretch.value.hindrances.as_slice();
    push_hindered(alloc, words, header, detail, stretch.first, hindrances)
}

// A stretch at which the task stands alike, and the same is in its way.
#[tactic(auto, unfolding(crate::specs::TaskBands::pose_bar))]
fn push_pose(
    alloc: Global,
    text: &mut String,
    header: &Header,
    frame: &Frame,
    y: u64,
    task: u32,
    detail: Detail,
    stretch: &Stretch<Pose>,
) -> Result<(), AllocError>
    requires { y < 2 ^ 40 }
    ensures { OnOk result
        (string_bytes text.new
        ≡ string_bytes text.old ++ pose_bar header.now frame.now y task detail stretch.now) }
{
    let standing = stance_stretch(stretch);
    let mut words = String::new(alloc);
    push_pose_words(alloc, &mut words, header, task, detail, stretch)?;
    let user = task.saturating_sub(header.config.cores);
    push_bar(text, frame, stance_shape(user, y, standing), words.as_str())?;
    push_stance_label(alloc, text, frame, y, standing)
}

fn push_poses(
    alloc: Global,
    text: &mut String,
    header: &Header,
    frame: &Frame,
    y: u64,
    task: u32,
    detail: Detail,
    stretches: &[Stretch<Pose>],
) -> Result<(), AllocError>
    requires { y < 2 ^ 40 }
    ensures { OnOk result
        (string_bytes text.new
        ≡ string_bytes text.old
        ++ flat_map (pose_bar header.now frame.now y task detail) stretches.now) }
{
    for stretch in stretches {
        push_pose(alloc, text, header, frame, y, task, detail, stretch)?;
    }
    Ok(())
}

// A stretch at which the task has a priority in use that is not its own.
#[tactic(auto, unfolding(crate::specs::TaskBands::inherited_bar))]
fn push_inherited(
    alloc: Global,
    text: &mut String,
    header: &Header,
    frame: &Frame,
    y: u64,
    task: u32,
    stretch: Stretch<Priorities>,
) -> Result<(), AllocError>
    requires { y < 2 ^ 40 }
    ensures { OnOk result
        (string_bytes text.new
        ≡ string_bytes text.old ++ inherited_bar header.now frame.now y task stretch) }
{
    let Priorities { in_use, base } = stretch.value;
    if in_use == base {
        return Ok(());
    }
    let mut words = String::new(alloc);
    push_over(&mut words, stretch.first, stretch.last)?;
    header.push_name(&mut words, task)?;
    write!(words, " priority in use {in_use}, base priority {base}")?;
    let bar = Bar {
        ink: Ink::Inherited,
        first: stretch.first,
        last: stretch.last,
        y: y + 20,
        height: 3,
    };
    push_bar(text, frame, bar, words.as_str())
}

fn push_inheritances(
    alloc: Global,
    text: &mut String,
    header: &Header,
    frame: &Frame,
    y: u64,
    task: u32,
    stretches: &[Stretch<Priorities>],
) -> Result<(), AllocError>
    requires { y < 2 ^ 40 }
    ensures { OnOk result
        (string_bytes text.new
        ≡ string_bytes text.old ++ flat_map (inherited_bar header.now frame.now y task)
        stretches.now) }
{
    for stretch in stretches {
        push_inherited(alloc, text, header, frame, y, task, *stretch)?;
    }
    Ok(())
}

/// Writes the row of a task that has these stretches.
#[tactic(auto, unfolding(crate::specs::Preemption::off_bars, crate::specs::TaskBands::task_row, crate::specs::TaskNames::task_name))]
pub(crate) fn push_task_row(
    alloc: Global,
    text: &mut String,
    header: &Header,
    frame: &Frame,
    y: u64,
    looks: &[Look],
    detail: Detail,
    task: u32,
    row: &RowStretches,
) -> Result<(), AllocError>
    requires y { y < 2 ^ 40 }
    requires few { frame.now.first + length looks.now ≤ 2 ^ 32 }
    requires row { row.now ≡ row_of frame.now.first looks.now task }
    ensures { OnOk result
        (string_bytes text.new
        ≡ string_bytes text.old ++ task_row header.now frame.now y looks.now detail task) }
{
    let stretches = TaskStretches::of_row(alloc, detail, frame.first, looks, task, row)?;
    push_task_name(alloc, text, header, y, task, stretches.terms.as_slice())?;
    let poses = stretches.poses.as_slice();
    push_poses(alloc, text, header, frame, y, task, detail, poses)?;
    let priorities = stretches.priorities.as_slice();
    push_inheritances(alloc, text, header, frame, y, task, priorities)?;
    push_offs(
        alloc,
        text,
        header,
        frame,
        y,
        task,
        stretches.preempts.as_slice(),
    )
}
