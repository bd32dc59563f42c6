//! The word that a text was meant to be, and how people are told a text of an input.
ghost use Rattle.std.specs.Prelude.{◌≡◌, ◌++◌, true, map, nat_lt, option_map, string_bytes, IfOk, OnOk};
ghost use Rattle.std.specs.Option.{option_map_or};
ghost use Rattle.session_text.specs.Nearest.{nearest, nearest_of, printable, shown, stray};

use crate::detail::Words;
use std::alloc::{AllocError, Global};
use strsim::levenshtein;

/// The most bytes of a text that are told or compared, so that a long one costs nothing.
const MAX_SHOWN: usize = 64;

/// A text of an input, as people are told it.
#[derive(Debug, Drop)]
pub enum Shown {
    /// It has more than 64 bytes. Nothing more of it is told.
    Long,
    /// Its bytes from 0x20 to 0x7E, and `?` for each other byte.
    Text(Words),
}

impl Shown {
    #[tactic(auto, unfolding(crate::specs::Nearest::shown))]
    pub(crate) fn of(alloc: Global, text: &str) -> Result<Shown, AllocError>
        ensures { IfOk result (λ known. known ≡ shown text.now) }
    {
        if MAX_SHOWN < text.len() {
            return Ok(Shown::Long);
        }
        let mut known = String::new(alloc);
        push_printable(&mut known, text)?;
        Ok(Shown::Text(Words::of(known)))
    }
}

/// A text that is none of the words that may stand there.
#[derive(Debug, Drop)]
pub struct Stray {
    pub text: Shown,
    /// The word that is nearest to the text.
    pub nearest: Option<Words>,
    /// All the words.
    pub words: Words,
}

impl Stray {
    pub fn of(alloc: Global, text: &str, words: &[&str]) -> Result<Stray, AllocError>
        ensures { IfOk result
            (λ it. it ≡ stray text.now (map (λ word. word.now) words.now)) }
    {
        Ok(Stray {
            text: Shown::of(alloc, text)?,
            nearest: known_nearest(alloc, text, words)?,
            words: Words::listed(alloc, words)?,
        })
    }
}

/// The nearest word to the text, as people are told it.
pub(crate) fn known_nearest(
    alloc: Global,
    text: &str,
    words: &[&str],
) -> Result<Option<Words>, AllocError>
    ensures { IfOk result
        (λ it. it ≡ nearest text.now (map (λ word. word.now) words.now)) }
{
    kept(alloc, nearest(alloc, text, words)?)
}

fn kept(alloc: Global, word: Option<&str>) -> Result<Option<Words>, AllocError>
    ensures { IfOk result (λ it. it ≡ option_map (λ word. word.now) word.entry) }
{
    match word {
        Some(word) => Ok(Some(Words::of(String::from_str(alloc, word)?))),
        None => Ok(None),
    }
}

fn printable(byte: u8) -> char
    ensures { result ≡ printable byte }
{
    match byte {
        0x20..=0x7E => byte as char,
        _ => '?',
    }
}

fn push_printable(known: &mut String, text: &str) -> Result<(), AllocError>
    ensures { OnOk result
        (string_bytes known.new ≡ string_bytes known.old ++ map printable text.now) }
{
    for byte in text.as_bytes() {
        known.push(printable(*byte))?;
    }
    Ok(())
}

/// A word, and how far a text is from it.
#[derive(Clone, Copy)]
struct Near<'w> {
    word: &'w str,
    distance: usize,
}

/// The word that is nearest to the text, the first of those that are equally near. There is none
/// where there are no words, and none for a long text.
#[tactic(auto, unfolding(crate::specs::Nearest::nearest))]
fn nearest<'w>(alloc: Global, text: &str, words: &[&'w str]) -> Result<Option<&'w str>, AllocError>
    ensures { IfOk result (λ word. option_map (λ it. it.now) word
        ≡ nearest text.now (map (λ word. word.now) words.now)) }
{
    if MAX_SHOWN < text.len() {
        return Ok(None);
    }
    nearest_of(alloc, text, words)
}

fn nearest_of<'w>(
    alloc: Global,
    text: &str,
    words: &[&'w str],
) -> Result<Option<&'w str>, AllocError>
    ensures { IfOk result (λ word. option_map (λ it. it.now) word
        ≡ nearest_of text.now (map (λ word. word.now) words.now)) }
{
    let mut best: Option<Near<'w>> = None;
    for word in words {
        let distance = levenshtein(alloc, text, word)?;
        if is_nearer(distance, best) {
            best = Some(Near { word, distance });
        }
    }
    Ok(word_of(best))
}

/// Whether that is less than the least distance so far.
fn is_nearer(distance: usize, so_far: Option<Near<'_>>) -> bool
    ensures { result ≡ option_map_or (λ near. nat_lt distance near.distance) so_far.entry true }
{
    match so_far {
        Some(near) => distance < near.distance,
        None => true,
    }
}

fn word_of<'w>(near: Option<Near<'w>>) -> Option<&'w str>
    ensures { option_map (λ word. word.now) result ≡ option_map (λ near. near.word.now) near.entry }
{
    match near {
        Some(near) => Some(near.word),
        None => None,
    }
}
