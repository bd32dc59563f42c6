//! Bars over places, with words that are shown over them or on hover.
ghost use Rattle.std.specs.Prelude.{◌≡◌, ◌++◌, OnOk, string_bytes};
ghost use Rattle.run_pictures.specs.Bar.{bar_text, extent_text, fits, label_text, letters_text, name_text, origin_text, over_text, word_text};

use crate::escape::push_escaped;
use crate::frame::Frame;
use crate::ink::{Ink, push_ink};
use std::alloc::AllocError;

/// How words are written.
#[derive(Clone, Copy, Debug, PartialEq, Eq)]
pub(crate) enum Letters {
    /// To be read on a bar.
    Dark,
    /// To be read on the ground.
    Small,
}

fn letters_text(letters: Letters) -> &'static str
    ensures { result.now ≡ letters_text letters }
{
    match letters {
        Letters::Dark => "l",
        Letters::Small => "s",
    }
}

/// A bar over the places from the first to the last.
#[derive(Clone, Copy, Debug, PartialEq, Eq)]
pub(crate) struct Bar {
    pub(crate) ink: Ink,
    pub(crate) first: u32,
    pub(crate) last: u32,
    pub(crate) y: u64,
    pub(crate) height: u32,
}

// Writes where a bar stands.
#[tactic(auto, unfolding(crate::specs::Bar::extent_text))]
fn push_extent(text: &mut String, x: u64, y: u64, width: u64, height: u32) -> Result<(), AllocError>
    ensures { OnOk result
        (string_bytes text.new ≡ string_bytes text.old ++ extent_text x y width height) }
{
    write!(
        text,
        "' x='{x}' y='{y}' width='{width}' height='{height}'><title>"
    )
}

/// Writes the bar, with words to be shown on hover.
#[tactic(auto, unfolding(crate::specs::Bar::bar_text))]
pub(crate) fn push_bar(
    text: &mut String,
    frame: &Frame,
    bar: Bar,
    words: &str,
) -> Result<(), AllocError>
    ensures { OnOk result
        (string_bytes text.new ≡ string_bytes text.old ++ bar_text frame.now bar words.now) }
{
    let x = frame.x_of(bar.first);
    let width = frame.width_between(bar.first, bar.last);
    text.push_str("<rect class='")?;
    push_ink(text, bar.ink)?;
    push_extent(text, x, bar.y, width, bar.height)?;
    push_escaped(text, words)?;
    text.push_str("</title></rect>\n")
}

/// Whether words of so many bytes fit into so many pixels.
pub(crate) fn fits(letters: Letters, width: u64, bytes: usize) -> bool
    ensures { result ≡ fits letters width bytes }
{
    let room = width.saturating_sub(4);
    match letters {
        Letters::Dark => bytes as u64 <= room / 8,
        Letters::Small => bytes as u64 <= room / 6,
    }
}

/// Writes where words begin.
pub(crate) fn push_origin(
    text: &mut String,
    letters: Letters,
    x: u64,
    y: u64,
) -> Result<(), AllocError>
    ensures { OnOk result
        (string_bytes text.new ≡ string_bytes text.old ++ origin_text letters x y) }
{
    let class = letters_text(letters);
    write!(text, "<text class='{class}' x='{x}' y='{y}'>")
}

/// Writes words from where they begin on.
#[tactic(auto, unfolding(crate::specs::Bar::word_text))]
pub(crate) fn push_word(
    text: &mut String,
    letters: Letters,
    x: u64,
    y: u64,
    words: &str,
) -> Result<(), AllocError>
    ensures { OnOk result
        (string_bytes text.new ≡ string_bytes text.old ++ word_text letters x y words.now) }
{
    push_origin(text, letters, x, y)?;
    push_escaped(text, words)?;
    text.push_str("</text>\n")
}

/// Writes the words into the bar over the places, where they fit there.
#[tactic(auto, unfolding(crate::specs::Bar::label_text))]
pub(crate) fn push_label(
    text: &mut String,
    frame: &Frame,
    letters: Letters,
    first: u32,
    last: u32,
    y: u64,
    words: &str,
) -> Result<(), AllocError>
    ensures { OnOk result
        (string_bytes text.new
        ≡ string_bytes text.old ++ label_text frame.now letters first last y words.now) }
{
    if fits(letters, frame.width_between(first, last), words.len()) {
        push_word(text, letters, frame.x_of(first) + 3, y, words)?;
    }
    Ok(())
}

/// Writes the name of a row.
#[tactic(auto, unfolding(crate::specs::Bar::name_text))]
pub(crate) fn push_name(text: &mut String, y: u64, words: &str) -> Result<(), AllocError>
    ensures { OnOk result
        (string_bytes text.new ≡ string_bytes text.old ++ name_text y words.now) }
{
    write!(text, "<text x='8' y='{y}'>")?;
    push_escaped(text, words)?;
    text.push_str("</text>\n")
}

/// Writes of which places something is told.
pub(crate) fn push_over(text: &mut String, first: u32, last: u32) -> Result<(), AllocError>
    ensures { OnOk result
        (string_bytes text.new ≡ string_bytes text.old ++ over_text first last) }
{
    if first == last {
        write!(text, "place {first}: ")
    } else {
        write!(text, "places {first} to {last}: ")
    }
}
