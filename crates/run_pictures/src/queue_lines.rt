//! The rows of the queues: how many messages each has.
ghost use Rattle.std.specs.Prelude.{◌≡◌, ◌++◌, ◌+◌, ◌<◌, ◌==◌, ◌≤◌, ◌^◌, IfOk, OnOk, flat_map, length, map, not, slice_index_or, string_bytes};
ghost use Rattle.std.specs.List.{list_any};
ghost use Rattle.bench_types.specs.Limits.{max_queues};
ghost use Rattle.run_pictures.specs.QueueLines.{changed_queues, changed_rows, filled_bar, is_changed, message_bar, message_words, queue_row, queue_rows, queue_style, queues_of};
ghost use Rattle.run_pictures.specs.TaskStretches.{message_stretches, messages_in};

use crate::bar::{Bar, Letters, push_bar, push_label, push_over, push_word};
use crate::frame::{Frame, QUEUE_ROW};
use crate::ink::Ink;
use crate::stretch::{Stretch, stretches_of};
use crate::style::QUEUE_STYLE;
use bench_types::Header;
use run_views::Look;
use std::alloc::{AllocError, Global};

fn messages_in(look: &Look, queue: u32) -> u32
    ensures { result ≡ messages_in queue look.now }
{
    match look.messages.as_slice().get(queue as usize) {
        Some(messages) => *messages,
        None => 0,
    }
}

fn all_messages(alloc: Global, looks: &[Look], queue: u32) -> Result<Vec<u32>, AllocError>
    ensures { IfOk result (λ values. values.items ≡ map (messages_in queue) looks.now) }
{
    looks
        .iter()
        .map(|look| messages_in(look, queue))
        .collect(alloc)
}

#[tactic(auto, unfolding(crate::specs::TaskStretches::message_stretches))]
fn message_stretches(
    alloc: Global,
    first: u32,
    looks: &[Look],
    queue: u32,
) -> Result<Vec<Stretch<u32>>, AllocError>
    requires { first + length looks.now ≤ 2 ^ 32 }
    ensures { IfOk result (λ stretches. stretches.items ≡ message_stretches first looks.now queue) }
{
    let values = all_messages(alloc, looks, queue)?;
    stretches_of(alloc, first, values)
}

// How many messages the queue has at the first place that is shown.
#[tactic(auto, using(crate::proofs::FirstMessages::first_seen, crate::proofs::FirstMessages::none_seen))]
fn first_messages(looks: &[Look], queue: u32) -> u32
    ensures { result ≡ slice_index_or (map (messages_in queue) looks.now) 0 0 }
{
    match looks.first() {
        Some(look) => messages_in(look, queue),
        None => 0,
    }
}

// Whether the queue has another number of messages at a place that is shown.
fn has_another(looks: &[Look], queue: u32, messages: u32) -> bool
    ensures { result ≡ list_any (λ look. not (messages_in queue look == messages)) looks.now }
{
    looks
        .iter()
        .any(|look| messages_in(look, queue) != messages)
}

/// Whether the queue has not the same number of messages at all places that are shown.
pub(crate) fn is_changed(looks: &[Look], queue: u32) -> bool
    ensures { result ≡ is_changed looks.now queue }
{
    let first = first_messages(looks, queue);
    has_another(looks, queue, first)
}

/// How many queues there are.
pub(crate) fn queues_of(header: &Header) -> u32
    requires { queues_of header.now ≤ max_queues }
    ensures { result ≡ queues_of header.now }
{
    match &header.queues {
        Some(queues) => queues.as_slice().len() as u32,
        None => 0,
    }
}

/// The queues that have a row.
pub(crate) fn changed_queues(
    alloc: Global,
    header: &Header,
    looks: &[Look],
) -> Result<Vec<u32>, AllocError>
    requires { queues_of header.now ≤ max_queues }
    ensures value { IfOk result (λ queues. queues.items ≡ changed_queues header.now looks.now) }
    ensures few { IfOk result (λ queues. length queues.items < 2 ^ 32) }
{
    (0..queues_of(header))
        .filter(|queue| is_changed(looks, *queue))
        .collect(alloc)
}

fn push_message_words(
    words: &mut String,
    queue: u32,
    stretch: Stretch<u32>,
) -> Result<(), AllocError>
    ensures { OnOk result
        (string_bytes words.new ≡ string_bytes words.old ++ message_words queue stretch) }
{
    push_over(words, stretch.first, stretch.last)?;
    write!(words, "queue {queue} messages {}", stretch.value)
}

// A bar with the number of messages.
#[tactic(auto, unfolding(crate::specs::QueueLines::filled_bar))]
fn push_filled(
    alloc: Global,
    text: &mut String,
    frame: &Frame,
    y: u64,
    queue: u32,
    stretch: Stretch<u32>,
) -> Result<(), AllocError>
    requires { y < 2 ^ 40 }
    ensures { OnOk result
        (string_bytes text.new ≡ string_bytes text.old ++ filled_bar frame.now y queue stretch) }
{
    let mut words = String::new(alloc);
    push_message_words(&mut words, queue, stretch)?;
    let bar = Bar {
        ink: Ink::Messages(stretch.value),
        first: stretch.first,
        last: stretch.last,
        y,
        height: 14,
    };
    push_bar(text, frame, bar, words.as_str())?;
    let mut number = String::new(alloc);
    write!(number, "{}", stretch.value)?;
    push_label(
        text,
        frame,
        Letters::Dark,
        stretch.first,
        stretch.last,
        y + 11,
        number.as_str(),
    )
}

// A stretch at which the queue has messages.
#[tactic(auto, unfolding(crate::specs::QueueLines::message_bar))]
fn push_messages(
    alloc: Global,
    text: &mut String,
    frame: &Frame,
    y: u64,
    queue: u32,
    stretch: Stretch<u32>,
) -> Result<(), AllocError>
    requires { y < 2 ^ 40 }
    ensures { OnOk result
        (string_bytes text.new ≡ string_bytes text.old ++ message_bar frame.now y queue stretch) }
{
    if stretch.value == 0 {
        return Ok(());
    }
    push_filled(alloc, text, frame, y, queue, stretch)
}

fn push_all_messages(
    alloc: Global,
    text: &mut String,
    frame: &Frame,
    y: u64,
    queue: u32,
    stretches: &[Stretch<u32>],
) -> Result<(), AllocError>
    requires { y < 2 ^ 40 }
    ensures { OnOk result
        (string_bytes text.new
        ≡ string_bytes text.old ++ flat_map (message_bar frame.now y queue) stretches.now) }
{
    for stretch in stretches {
        push_messages(alloc, text, frame, y, queue, *stretch)?;
    }
    Ok(())
}

// The row of a queue.
#[tactic(auto, unfolding(crate::specs::QueueLines::queue_row))]
fn push_queue_row(
    alloc: Global,
    text: &mut String,
    frame: &Frame,
    y: u64,
    looks: &[Look],
    queue: u32,
) -> Result<(), AllocError>
    requires y { y < 2 ^ 40 }
    requires few { frame.now.first + length looks.now ≤ 2 ^ 32 }
    ensures { OnOk result
        (string_bytes text.new
        ≡ string_bytes text.old ++ queue_row frame.now y looks.now queue) }
{
    let mut name = String::new(alloc);
    write!(name, "queue {queue}")?;
    push_word(text, Letters::Small, 8, y + 11, name.as_str())?;
    let stretches = message_stretches(alloc, frame.first, looks, queue)?;
    push_all_messages(alloc, text, frame, y, queue, stretches.as_slice())
}

// The rows of queues, one below another.
fn push_queue_rows(
    alloc: Global,
    text: &mut String,
    frame: &Frame,
    y: u64,
    looks: &[Look],
    queues: &[u32],
) -> Result<(), AllocError>
    requires y { y < 2 ^ 39 }
    requires few { frame.now.first + length looks.now ≤ 2 ^ 32 }
    requires some { length queues.now < 2 ^ 32 }
    ensures { OnOk result
        (string_bytes text.new
        ≡ string_bytes text.old ++ queue_rows frame.now y looks.now queues.now) }
{
    for k in 0..queues.len() {
        let below = y + QUEUE_ROW * k as u64;
        push_queue_row(alloc, text, frame, below, looks, queues[k])?;
    }
    Ok(())
}

// Writes the colour of the bars of queues, where there are any rows.
fn push_style(text: &mut String, queues: &[u32]) -> Result<(), AllocError>
    ensures { OnOk result
        (string_bytes text.new ≡ string_bytes text.old ++ queue_style queues.now) }
{
    match queues.first() {
        Some(_) => text.push_str(QUEUE_STYLE),
        None => Ok(()),
    }
}

/// Writes the rows of those queues that have one, one below another.
#[tactic(auto, unfolding(crate::specs::QueueLines::changed_rows))]
pub(crate) fn push_changed_rows(
    alloc: Global,
    text: &mut String,
    header: &Header,
    frame: &Frame,
    y: u64,
    looks: &[Look],
) -> Result<(), AllocError>
    requires y { y < 2 ^ 39 }
    requires few { frame.now.first + length looks.now ≤ 2 ^ 32 }
    requires queues { queues_of header.now ≤ max_queues }
    ensures { OnOk result
        (string_bytes text.new
        ≡ string_bytes text.old ++ changed_rows header.now frame.now y looks.now) }
{
    let queues = changed_queues(alloc, header, looks)?;
    push_style(text, queues.as_slice())?;
    push_queue_rows(alloc, text, frame, y, looks, queues.as_slice())
}
