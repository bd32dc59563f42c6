//! What stands at the left of a task's row: its name, and below it its base priority and its mask.
ghost use Rattle.std.specs.Prelude.{◌≡◌, ◌++◌, ◌<◌, ◌^◌, OnOk, string_bytes};
ghost use Rattle.std.specs.List.{list_all};
ghost use Rattle.list_orders.specs.Search.{numbers};
ghost use Rattle.run_pictures.specs.Same.{are_same_terms};
ghost use Rattle.run_pictures.specs.TaskNames.{all_printed, has_all, later_text, line_text, mask_text, name_lines, terms_line, terms_part, terms_text, title_text};

use crate::bar::{Letters, push_name, push_origin, push_over};
use crate::escape::push_escaped;
use crate::hindrance::has_core;
use crate::stretch::{Stretch, StretchValue};
use bench_types::Header;
use std::alloc::{AllocError, Global};

/// What a task has until it is set anew.
#[derive(Clone, Copy, Debug, PartialEq, Eq)]
pub(crate) struct Terms {
    /// The base priority.
    pub(crate) base: u32,
    pub(crate) mask: u32,
}

impl StretchValue for Terms {
    ghost use Rattle.run_pictures.specs.StretchValues.{terms_decided};

    ghost same = { are_same_terms };

    ghost tells = { terms_decided };

    fn is_same(&self, other: &Self) -> bool {
        self.base == other.base && self.mask == other.mask
    }
}

fn has_all(mask: u32, cores: u32) -> bool
    ensures { result ≡ has_all mask cores }
{
    (0..cores).all(|core| has_core(mask, core as usize))
}

// The mask, where it has not all cores.
fn push_mask(text: &mut String, cores: u32, mask: u32) -> Result<(), AllocError>
    ensures { OnOk result (string_bytes text.new ≡ string_bytes text.old ++ mask_text cores mask) }
{
    if has_all(mask, cores) {
        return Ok(());
    }
    write!(text, ", mask {mask}")
}

#[tactic(auto, unfolding(crate::specs::TaskNames::terms_text))]
fn push_terms(text: &mut String, cores: u32, terms: Terms) -> Result<(), AllocError>
    ensures { OnOk result
        (string_bytes text.new ≡ string_bytes text.old ++ terms_text cores terms) }
{
    write!(text, "priority {}", terms.base)?;
    push_mask(text, cores, terms.mask)
}

// A stretch, on a line of its own.
#[tactic(auto, unfolding(crate::specs::TaskNames::terms_part))]
fn push_part(text: &mut String, cores: u32, stretch: Stretch<Terms>) -> Result<(), AllocError>
    ensures { OnOk result
        (string_bytes text.new ≡ string_bytes text.old ++ terms_part cores stretch) }
{
    text.push_str("\n")?;
    push_over(text, stretch.first, stretch.last)?;
    push_terms(text, cores, stretch.value)
}

#[tactic(auto, unfolding(crate::specs::TaskNames::all_printed))]
fn push_printed(
    text: &mut String,
    header: &Header,
    task: u32,
    stretches: &[Stretch<Terms>],
) -> Result<(), AllocError>
    ensures { OnOk result
        (string_bytes text.new ≡ string_bytes text.old
        ++ all_printed header.now task stretches.now) }
{
    header.push_name(text, task)?;
    for stretch in stretches {
        push_part(text, header.config.cores, *stretch)?;
    }
    Ok(())
}

// That there are later stretches.
#[tactic(auto, unfolding(crate::specs::TaskNames::later_text))]
fn push_later(text: &mut String, stretches: &[Stretch<Terms>]) -> Result<(), AllocError>
    ensures { OnOk result
        (string_bytes text.new ≡ string_bytes text.old ++ later_text stretches.now) }
{
    if stretches.len() < 2 {
        return Ok(());
    }
    text.push_str(" ..")
}

// Words that are told on hover, and the end of a text.
#[tactic(auto, unfolding(crate::specs::TaskNames::title_text))]
fn push_title(text: &mut String, words: &str) -> Result<(), AllocError>
    ensures { OnOk result (string_bytes text.new ≡ string_bytes text.old ++ title_text words.now) }
{
    text.push_str("<title>")?;
    push_escaped(text, words)?;
    text.push_str("</title></text>\n")
}

// What the task has at first, and on hover the stretches of what it has.
#[tactic(auto, unfolding(crate::specs::TaskNames::line_text))]
fn push_line(
    alloc: Global,
    text: &mut String,
    header: &Header,
    y: u64,
    task: u32,
    terms: Terms,
    stretches: &[Stretch<Terms>],
) -> Result<(), AllocError>
    ensures { OnOk result
        (string_bytes text.new
        ≡ string_bytes text.old ++ line_text header.now y task terms stretches.now) }
{
    push_origin(text, Letters::Small, 8, y)?;
    push_terms(text, header.config.cores, terms)?;
    push_later(text, stretches)?;
    let mut words = String::new(alloc);
    push_printed(&mut words, header, task, stretches)?;
    push_title(text, words.as_str())
}

fn push_terms_line(
    alloc: Global,
    text: &mut String,
    header: &Header,
    y: u64,
    task: u32,
    stretches: &[Stretch<Terms>],
) -> Result<(), AllocError>
    ensures { OnOk result
        (string_bytes text.new
        ≡ string_bytes text.old ++ terms_line header.now y task stretches.now) }
{
    match stretches.first() {
        Some(stretch) => push_line(alloc, text, header, y, task, stretch.value, stretches),
        None => Ok(()),
    }
}

/// Writes the name of the task's row, and below it its base priority and its mask.
#[tactic(auto, unfolding(crate::specs::TaskNames::name_lines))]
pub(crate) fn push_task_name(
    alloc: Global,
    text: &mut String,
    header: &Header,
    y: u64,
    task: u32,
    stretches: &[Stretch<Terms>],
) -> Result<(), AllocError>
    requires { y < 2 ^ 40 }
    ensures { OnOk result
        (string_bytes text.new
        ≡ string_bytes text.old ++ name_lines header.now y task stretches.now) }
{
    let mut name = String::new(alloc);
    header.push_name(&mut name, task)?;
    push_name(text, y + 16, name.as_str())?;
    push_terms_line(alloc, text, header, y + 32, task, stretches)
}
