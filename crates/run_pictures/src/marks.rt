//! What the steps are: each is told at its place of the axis, and an interrupt or a refusal is
//! marked above the bar of its core.
ghost use Rattle.std.specs.Prelude.{◌≡◌, ◌++◌, ◌+◌, ◌<◌, ◌≤◌, ◌^◌, OnOk, flat_map, string_bytes};
ghost use Rattle.list_orders.specs.Search.{numbers};
ghost use Rattle.run_pictures.specs.Marks.{mark_at, mark_in, mark_of, mark_text, middle, path_text, step_at, step_cell, step_words};

use crate::Made;
use crate::bar::{Bar, push_bar};
use crate::escape::push_escaped;
use crate::frame::{CORE_ROW, Frame};
use crate::ink::Ink;
use bench_types::{Header, Reply, Step};
use run_views::{is_refusal, push_reply, push_step};
use std::alloc::{AllocError, Global};

/// What is marked of a step.
#[derive(Clone, Copy, Debug, PartialEq, Eq)]
pub(crate) enum Mark {
    Refused,
    Interrupt,
}

fn mark_of(made: Made) -> Option<Mark>
    ensures { result ≡ mark_of made }
{
    if is_refusal(made.reply) {
        return Some(Mark::Refused);
    }
    match made.step {
        Step::Interrupt { .. } | Step::QueueInterrupt { .. } | Step::ResumeInterrupt { .. } => {
            Some(Mark::Interrupt)
        }
        _ => None,
    }
}

/// What is marked at the k-th of the places that are shown.
pub(crate) fn mark_at(made: &[Made], k: u32) -> Option<Mark>
    ensures { result ≡ mark_at made.now k }
{
    match made.get(k as usize) {
        Some(made) => mark_of(*made),
        None => None,
    }
}

fn push_step_words(
    words: &mut String,
    header: &Header,
    place: u32,
    step: Step,
    reply: Reply,
) -> Result<(), AllocError>
    ensures { OnOk result
        (string_bytes words.new
        ≡ string_bytes words.old ++ step_words header.now place step reply) }
{
    write!(words, "step {place}: ")?;
    push_step(words, header, step)?;
    words.push_str("\n")?;
    push_reply(words, header, step, reply)
}

fn push_path(text: &mut String, mark: Mark, x: u64, y: u64) -> Result<(), AllocError>
    ensures { OnOk result
        (string_bytes text.new ≡ string_bytes text.old ++ path_text mark x y) }
{
    match mark {
        Mark::Refused => write!(text, "<path class='x' d='M{x} {y}l8 8m0-8l-8 8'><title>"),
        Mark::Interrupt => write!(text, "<path class='n' d='M{x} {y}h8l-4 7z'><title>"),
    }
}

// Where a mark of the place begins: its middle is that of the place.
fn middle(frame: &Frame, place: u32) -> u64
    ensures { result ≡ middle frame.now place }
{
    (frame.x_of(place) + frame.scale.pixels(1) / 2).saturating_sub(4)
}

#[tactic(auto, unfolding(crate::specs::Marks::mark_text))]
fn push_mark(
    text: &mut String,
    frame: &Frame,
    y: u64,
    place: u32,
    mark: Mark,
    words: &str,
) -> Result<(), AllocError>
    ensures { OnOk result
        (string_bytes text.new
        ≡ string_bytes text.old ++ mark_text frame.now y place mark words.now) }
{
    push_path(text, mark, middle(frame, place), y)?;
    push_escaped(text, words)?;
    text.push_str("</title></path>\n")
}

fn push_marked(
    text: &mut String,
    frame: &Frame,
    y: u64,
    place: u32,
    mark: Option<Mark>,
    words: &str,
) -> Result<(), AllocError>
    ensures { OnOk result
        (string_bytes text.new
        ≡ string_bytes text.old ++ mark_in frame.now y place words.now mark) }
{
    match mark {
        Some(mark) => push_mark(text, frame, y, place, mark, words),
        None => Ok(()),
    }
}

// The step of a place, told there and marked above the bar of its core.
#[tactic(auto, unfolding(crate::specs::Marks::step_cell))]
fn push_cell(
    alloc: Global,
    text: &mut String,
    header: &Header,
    frame: &Frame,
    top: u64,
    place: u32,
    made: Made,
) -> Result<(), AllocError>
    requires { top < 2 ^ 38 }
    ensures { OnOk result
        (string_bytes text.new
        ≡ string_bytes text.old ++ step_cell header.now frame.now top place made) }
{
    let mut words = String::new(alloc);
    push_step_words(&mut words, header, place, made.step, made.reply)?;
    let bar = Bar {
        ink: Ink::Clear,
        first: place,
        last: place,
        y: top,
        height: 14,
    };
    push_bar(text, frame, bar, words.as_str())?;
    let y = top + 36 + CORE_ROW * made.step.core() as u64;
    push_marked(text, frame, y, place, mark_of(made), words.as_str())
}

fn push_at(
    alloc: Global,
    text: &mut String,
    header: &Header,
    frame: &Frame,
    top: u64,
    made: &[Made],
    k: u32,
) -> Result<(), AllocError>
    requires top { top < 2 ^ 38 }
    requires place { frame.now.first + k < 2 ^ 32 }
    ensures { OnOk result
        (string_bytes text.new
        ≡ string_bytes text.old ++ step_at header.now frame.now top made.now k) }
{
    match made.get(k as usize) {
        Some(made) => push_cell(alloc, text, header, frame, top, frame.first + k, *made),
        None => Ok(()),
    }
}

/// Writes the steps that are made at so many places from the first on.
pub(crate) fn push_steps(
    alloc: Global,
    text: &mut String,
    header: &Header,
    frame: &Frame,
    top: u64,
    made: &[Made],
    count: u32,
) -> Result<(), AllocError>
    requires top { top < 2 ^ 38 }
    requires few { frame.now.first + count ≤ 2 ^ 32 }
    ensures { OnOk result
        (string_bytes text.new
        ≡ string_bytes text.old
        ++ flat_map (step_at header.now frame.now top made.now) (numbers count)) }
{
    for k in 0..count {
        push_at(alloc, text, header, frame, top, made, k)?;
    }
    Ok(())
}
