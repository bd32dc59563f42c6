//! The page of a run.
ghost use Rattle.std.specs.Prelude.{◌≡◌, ◌++◌, ◌+◌, ◌≤◌, ◌^◌, IfOk, OnOk, decimal, length, map, string_bytes};
ghost use Rattle.run_pages.specs.Page.{block_pieces, blocks_pieces, comparison_link, closing_pieces, comparison_pieces, heading_pieces, link_pieces, links_pieces, list_pieces, opening_pieces, page_text, pieces_text, section_pieces, texts_pieces, told_pieces, trace_pieces};

use crate::script::{SCRIPT, SCRIPT_HASH};
use crate::style::{
    BLOCK, BLOCK_END, BLOCK_WORDS, COMPARISON, COMPARISON_LINK, END, LINK, LINK_END, LINK_NAME,
    OPENING, PARTS, PICTURE, PLACES, REPORT, REPORT_END, SCRIPT_OPENING, SECTION_END, STYLE, TITLE,
    TRACE, TRACE_END,
};
use run_pictures::{push_escaped, push_escaped_bytes};
use std::alloc::{AllocError, Global};
use std::marker::Model;

/// What a page shows.
#[derive(Drop)]
pub struct Parts {
    pub title: String,
    /// The SVG of the run, or of two.
    pub picture: Vec<u8>,
    /// The number of the first place.
    pub first: u32,
    /// What the trace tells of each place.
    pub places: Vec<String>,
    /// The run before edits beside the run after them, where there are edits.
    pub comparison: Option<Vec<u8>>,
    /// The report as HTML.
    pub report: Vec<u8>,
}

impl Model for Parts {
    ghost use Rattle.std.specs.Prelude.{ℕ, Vec, map, option_map, string_bytes};
    ghost use Rattle.run_pages.specs.Shown.{Shown};

    ghost Value = { Shown };

    ghost view = { λ it.
        record {
          title = string_bytes it.title;
          picture = it.picture.items;
          first = it.first;
          places = map string_bytes it.places.items;
          comparison = option_map (λ words. words.items) it.comparison;
          report = it.report.items;
        } };
}

// The first lines and the heading.
#[tactic(auto, unfolding(crate::specs::Page::heading_pieces))]
fn push_heading(text: &mut String, title: &str) -> Result<(), AllocError>
    ensures { OnOk result
        (string_bytes text.new ≡ string_bytes text.old ++ pieces_text (heading_pieces title.now)) }
{
    text.push_str(OPENING)?;
    text.push_str(SCRIPT_HASH)?;
    text.push_str(TITLE)?;
    push_escaped(text, title)?;
    text.push_str(STYLE)?;
    push_escaped(text, title)?;
    text.push_str(PARTS)
}

fn push_number(text: &mut String, number: u32) -> Result<(), AllocError>
    ensures { OnOk result (string_bytes text.new ≡ string_bytes text.old ++ decimal number) }
{
    write!(text, "{number}")
}

#[tactic(auto, unfolding(crate::specs::Page::link_pieces))]
fn push_link(text: &mut String, place: u32) -> Result<(), AllocError>
    ensures { OnOk result
        (string_bytes text.new ≡ string_bytes text.old ++ pieces_text (link_pieces place)) }
{
    text.push_str(LINK)?;
    push_number(text, place)?;
    text.push_str(LINK_NAME)?;
    push_number(text, place)?;
    text.push_str(LINK_END)
}

// A link to each of the places, the first of which has the number.
fn push_links(text: &mut String, first: u32, places: &[String]) -> Result<(), AllocError>
    requires { first + length places.now ≤ 2 ^ 32 }
    ensures { OnOk result
        (string_bytes text.new ≡ string_bytes text.old
        ++ pieces_text (links_pieces first (map string_bytes places.now))) }
{
    for (k, _) in places.iter().enumerate() {
        push_link(text, first + k as u32)?;
    }
    Ok(())
}

// What the trace tells of a place.
#[tactic(auto, unfolding(crate::specs::Page::block_pieces))]
fn push_block(text: &mut String, place: u32, words: &str) -> Result<(), AllocError>
    ensures { OnOk result
        (string_bytes text.new
        ≡ string_bytes text.old ++ pieces_text (block_pieces place words.now)) }
{
    text.push_str(BLOCK)?;
    push_number(text, place)?;
    text.push_str(BLOCK_WORDS)?;
    push_escaped(text, words)?;
    text.push_str(BLOCK_END)
}

fn push_blocks(text: &mut String, first: u32, places: &[String]) -> Result<(), AllocError>
    requires { first + length places.now ≤ 2 ^ 32 }
    ensures { OnOk result
        (string_bytes text.new ≡ string_bytes text.old
        ++ pieces_text (blocks_pieces first (map string_bytes places.now))) }
{
    for (k, words) in places.iter().enumerate() {
        push_block(text, first + k as u32, words.as_str())?;
    }
    Ok(())
}

// A part of the page that is a text.
#[tactic(auto, unfolding(crate::specs::Page::section_pieces))]
fn push_section(text: &mut String, opening: &str, words: &[u8]) -> Result<(), AllocError>
    ensures { OnOk result
        (string_bytes text.new
        ≡ string_bytes text.old ++ pieces_text (section_pieces opening.now words.now)) }
{
    text.push_str(opening)?;
    push_escaped_bytes(text, words)?;
    text.push_str(SECTION_END)
}

// The comparison as one of the parts, where there is one.
fn push_comparison_link(text: &mut String, parts: &Parts) -> Result<(), AllocError>
    ensures { OnOk result
        (string_bytes text.new
        ≡ string_bytes text.old ++ pieces_text (comparison_link parts.now.comparison)) }
{
    match &parts.comparison {
        Some(_) => text.push_str(COMPARISON_LINK),
        None => Ok(()),
    }
}

fn push_comparison(text: &mut String, parts: &Parts) -> Result<(), AllocError>
    ensures { OnOk result
        (string_bytes text.new
        ≡ string_bytes text.old ++ pieces_text (comparison_pieces parts.now.comparison)) }
{
    match &parts.comparison {
        Some(words) => push_section(text, COMPARISON, words.as_slice()),
        None => Ok(()),
    }
}

// What stands before the picture.
fn push_opening(text: &mut String, parts: &Parts) -> Result<(), AllocError>
    ensures { OnOk result
        (string_bytes text.new
        ≡ string_bytes text.old ++ pieces_text (opening_pieces parts.now)) }
{
    push_heading(text, parts.title.as_str())?;
    push_comparison_link(text, parts)?;
    text.push_str(PICTURE)
}

// The list of places.
fn push_list(text: &mut String, first: u32, places: &[String]) -> Result<(), AllocError>
    requires { first + length places.now ≤ 2 ^ 32 }
    ensures { OnOk result
        (string_bytes text.new ≡ string_bytes text.old
        ++ pieces_text (list_pieces first (map string_bytes places.now))) }
{
    text.push_str(PLACES)?;
    push_links(text, first, places)
}

// What the trace tells, from its opening to its end.
fn push_told(text: &mut String, first: u32, places: &[String]) -> Result<(), AllocError>
    requires { first + length places.now ≤ 2 ^ 32 }
    ensures { OnOk result
        (string_bytes text.new ≡ string_bytes text.old
        ++ pieces_text (told_pieces first (map string_bytes places.now))) }
{
    text.push_str(TRACE)?;
    push_blocks(text, first, places)?;
    text.push_str(TRACE_END)
}

// A link to each place, and the trace.
fn push_trace(text: &mut String, first: u32, places: &[String]) -> Result<(), AllocError>
    requires { first + length places.now ≤ 2 ^ 32 }
    ensures { OnOk result
        (string_bytes text.new ≡ string_bytes text.old
        ++ pieces_text (trace_pieces first (map string_bytes places.now))) }
{
    push_list(text, first, places)?;
    push_told(text, first, places)
}

// The comparison, and the report opens.
fn push_texts(text: &mut String, parts: &Parts) -> Result<(), AllocError>
    ensures { OnOk result
        (string_bytes text.new
        ≡ string_bytes text.old ++ pieces_text (texts_pieces parts.now)) }
{
    push_comparison(text, parts)?;
    text.push_str(REPORT)
}

// What stands between the picture and the report.
fn push_middle(text: &mut String, parts: &Parts) -> Result<(), AllocError>
    requires { parts.now.first + length parts.now.places ≤ 2 ^ 32 }
    ensures { OnOk result
        (string_bytes text.new ≡ string_bytes text.old
        ++ pieces_text (trace_pieces parts.now.first parts.now.places)
        ++ pieces_text (texts_pieces parts.now)) }
{
    push_trace(text, parts.first, parts.places.as_slice())?;
    push_texts(text, parts)
}

// What stands behind the report: the script and the end.
fn push_closing(text: &mut String) -> Result<(), AllocError>
    ensures { OnOk result
        (string_bytes text.new ≡ string_bytes text.old ++ pieces_text closing_pieces) }
{
    text.push_str(REPORT_END)?;
    text.push_str(SCRIPT_OPENING)?;
    text.push_str(SCRIPT)?;
    text.push_str(END)
}

/// A page of these parts, which needs nothing from elsewhere. Its places have the numbers from the
/// first on.
pub fn page(alloc: Global, parts: &Parts) -> Result<Vec<u8>, AllocError>
    requires { parts.now.first + length parts.now.places ≤ 2 ^ 32 }
    ensures { IfOk result (λ text. text.items ≡ page_text parts.now) }
{
    let mut opening = String::new(alloc);
    push_opening(&mut opening, parts)?;
    let mut middle = String::new(alloc);
    push_middle(&mut middle, parts)?;
    let mut closing = String::new(alloc);
    push_closing(&mut closing)?;
    let mut page = opening.into_bytes();
    page.extend_from_slice(parts.picture.as_slice())?;
    page.extend_from_slice(middle.as_bytes())?;
    page.extend_from_slice(parts.report.as_slice())?;
    page.extend_from_slice(closing.as_bytes())?;
    Ok(page)
}
