//! The rows of the mutexes: which task holds each.
ghost use Rattle.std.specs.Prelude.{◌≡◌, ◌++◌, ◌+◌, ◌<◌, ◌≤◌, ◌^◌, IfOk, OnOk, flat_map, length, map, string_bytes};
ghost use Rattle.run_pictures.specs.MutexLines.{held_bar, held_words, holder_bar, is_taken, mutex_row, mutex_rows, taken_mutexes, taken_rows};
ghost use Rattle.run_pictures.specs.TaskStretches.{holder_in, holder_stretches};

use crate::bar::{Bar, Letters, push_bar, push_label, push_over, push_word};
use crate::frame::{Frame, MUTEX_ROW};
use crate::ink::Ink;
use crate::stretch::{Stretch, stretches_of};
use bench_types::Header;
use run_views::Look;
use std::alloc::{AllocError, Global};

fn holder_in(look: &Look, mutex: u32) -> Option<u32>
    ensures { result ≡ holder_in mutex look.now }
{
    match look.holders.as_slice().get(mutex as usize) {
        Some(holder) => *holder,
        None => None,
    }
}

fn holders(alloc: Global, looks: &[Look], mutex: u32) -> Result<Vec<Option<u32>>, AllocError>
    ensures { IfOk result (λ values. values.items ≡ map (holder_in mutex) looks.now) }
{
    looks
        .iter()
        .map(|look| holder_in(look, mutex))
        .collect(alloc)
}

#[tactic(auto, unfolding(crate::specs::TaskStretches::holder_stretches))]
fn holder_stretches(
    alloc: Global,
    first: u32,
    looks: &[Look],
    mutex: u32,
) -> Result<Vec<Stretch<Option<u32>>>, AllocError>
    requires { first + length looks.now ≤ 2 ^ 32 }
    ensures { IfOk result (λ stretches. stretches.items ≡ holder_stretches first looks.now mutex) }
{
    let values = holders(alloc, looks, mutex)?;
    stretches_of(alloc, first, values)
}

/// Whether a task holds the mutex at a place that is shown.
pub(crate) fn is_taken(looks: &[Look], mutex: u32) -> bool
    ensures { result ≡ is_taken looks.now mutex }
{
    looks.iter().any(|look| holder_in(look, mutex).is_some())
}

/// The mutexes that have a row.
pub(crate) fn taken_mutexes(
    alloc: Global,
    header: &Header,
    looks: &[Look],
) -> Result<Vec<u32>, AllocError>
    ensures value { IfOk result (λ mutexes. mutexes.items ≡ taken_mutexes header.now looks.now) }
    ensures few { IfOk result (λ mutexes. length mutexes.items < 2 ^ 32) }
{
    (0..header.config.mutexes)
        .filter(|mutex| is_taken(looks, *mutex))
        .collect(alloc)
}

fn push_held_words(
    words: &mut String,
    header: &Header,
    mutex: u32,
    first: u32,
    last: u32,
    task: u32,
) -> Result<(), AllocError>
    ensures { OnOk result
        (string_bytes words.new
        ≡ string_bytes words.old ++ held_words header.now mutex first last task) }
{
    push_over(words, first, last)?;
    write!(words, "mutex {mutex} held by ")?;
    header.push_name(words, task)
}

// A bar of the colour of the task that holds the mutex, with its name.
#[tactic(auto, unfolding(crate::specs::MutexLines::held_bar))]
fn push_held(
    alloc: Global,
    text: &mut String,
    header: &Header,
    frame: &Frame,
    y: u64,
    mutex: u32,
    first: u32,
    last: u32,
    task: u32,
) -> Result<(), AllocError>
    requires { y < 2 ^ 40 }
    ensures { OnOk result
        (string_bytes text.new
        ≡ string_bytes text.old ++ held_bar header.now frame.now y mutex first last task) }
{
    let mut words = String::new(alloc);
    push_held_words(&mut words, header, mutex, first, last, task)?;
    let bar = Bar {
        ink: Ink::Taken(task.saturating_sub(header.config.cores)),
        first,
        last,
        y,
        height: 14,
    };
    push_bar(text, frame, bar, words.as_str())?;
    let mut name = String::new(alloc);
    header.push_name(&mut name, task)?;
    push_label(
        text,
        frame,
        Letters::Dark,
        first,
        last,
        y + 11,
        name.as_str(),
    )
}

// A stretch at which a task holds the mutex.
#[tactic(auto, unfolding(crate::specs::MutexLines::holder_bar))]
fn push_holder(
    alloc: Global,
    text: &mut String,
    header: &Header,
    frame: &Frame,
    y: u64,
    mutex: u32,
    stretch: Stretch<Option<u32>>,
) -> Result<(), AllocError>
    requires { y < 2 ^ 40 }
    ensures { OnOk result
        (string_bytes text.new
        ≡ string_bytes text.old ++ holder_bar header.now frame.now y mutex stretch) }
{
    match stretch.value {
        Some(task) => push_held(
            alloc,
            text,
            header,
            frame,
            y,
            mutex,
            stretch.first,
            stretch.last,
            task,
        ),
        None => Ok(()),
    }
}

fn push_holders(
    alloc: Global,
    text: &mut String,
    header: &Header,
    frame: &Frame,
    y: u64,
    mutex: u32,
    stretches: &[Stretch<Option<u32>>],
) -> Result<(), AllocError>
    requires { y < 2 ^ 40 }
    ensures { OnOk result
        (string_bytes text.new
        ≡ string_bytes text.old
        ++ flat_map (holder_bar header.now frame.now y mutex) stretches.now) }
{
    for stretch in stretches {
        push_holder(alloc, text, header, frame, y, mutex, *stretch)?;
    }
    Ok(())
}

// The row of a mutex.
#[tactic(auto, unfolding(crate::specs::MutexLines::mutex_row))]
fn push_mutex_row(
    alloc: Global,
    text: &mut String,
    header: &Header,
    frame: &Frame,
    y: u64,
    looks: &[Look],
    mutex: u32,
) -> Result<(), AllocError>
    requires y { y < 2 ^ 40 }
    requires few { frame.now.first + length looks.now ≤ 2 ^ 32 }
    ensures { OnOk result
        (string_bytes text.new
        ≡ string_bytes text.old ++ mutex_row header.now frame.now y looks.now mutex) }
{
    let mut name = String::new(alloc);
    write!(name, "mutex {mutex}")?;
    push_word(text, Letters::Small, 8, y + 11, name.as_str())?;
    let stretches = holder_stretches(alloc, frame.first, looks, mutex)?;
    push_holders(alloc, text, header, frame, y, mutex, stretches.as_slice())
}

// The rows of mutexes, one below another.
fn push_mutex_rows(
    alloc: Global,
    text: &mut String,
    header: &Header,
    frame: &Frame,
    y: u64,
    looks: &[Look],
    mutexes: &[u32],
) -> Result<(), AllocError>
    requires y { y < 2 ^ 39 }
    requires few { frame.now.first + length looks.now ≤ 2 ^ 32 }
    requires some { length mutexes.now < 2 ^ 32 }
    ensures { OnOk result
        (string_bytes text.new
        ≡ string_bytes text.old ++ mutex_rows header.now frame.now y looks.now mutexes.now) }
{
    for k in 0..mutexes.len() {
        let below = y + MUTEX_ROW * k as u64;
        push_mutex_row(alloc, text, header, frame, below, looks, mutexes[k])?;
    }
    Ok(())
}

/// Writes the rows of those mutexes that have one, one below another.
#[tactic(auto, unfolding(crate::specs::MutexLines::taken_rows))]
pub(crate) fn push_taken_rows(
    alloc: Global,
    text: &mut String,
    header: &Header,
    frame: &Frame,
    y: u64,
    looks: &[Look],
) -> Result<(), AllocError>
    requires y { y < 2 ^ 39 }
    requires few { frame.now.first + length looks.now ≤ 2 ^ 32 }
    ensures { OnOk result
        (string_bytes text.new
        ≡ string_bytes text.old ++ taken_rows header.now frame.now y looks.now) }
{
    let mutexes = taken_mutexes(alloc, header, looks)?;
    push_mutex_rows(alloc, text, header, frame, y, looks, mutexes.as_slice())
}
