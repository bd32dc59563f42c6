//! What is in the way of a ready task, in words: a line for each core.
ghost use Rattle.std.specs.Prelude.{◌≡◌, ◌++◌, IfOk, OnOk, filter, flat_map, not, string_bytes};
ghost use Rattle.run_pictures.specs.HindranceWords.{core_text, hindered_text, hindrance_text, hold_first, is_masked, level_text, lines_text, more_text, place_text, rival_text, detail_order};

use crate::hindrance::{Hindrance, Obstacle};
use crate::pose::Detail;
use bench_types::Header;
use std::alloc::{AllocError, Global};

/// Of so many cores it is told, at most.
const MAX_LINES: usize = 8;

// Of which core a line tells.
#[tactic(auto, unfolding(crate::specs::HindranceWords::core_text))]
fn push_core(text: &mut String, core: usize) -> Result<(), AllocError>
    ensures { OnOk result (string_bytes text.new ≡ string_bytes text.old ++ core_text core) }
{
    write!(text, "\ncore {core}: ")
}

// The priority in use of the task that the core runs.
#[tactic(auto, unfolding(crate::specs::HindranceWords::level_text))]
fn push_level(text: &mut String, priority: u32) -> Result<(), AllocError>
    ensures { OnOk result (string_bytes text.new ≡ string_bytes text.old ++ level_text priority) }
{
    write!(text, " of priority {priority} runs")
}

// The task that the core runs.
#[tactic(auto, unfolding(crate::specs::HindranceWords::rival_text))]
fn push_rival(
    text: &mut String,
    header: &Header,
    core: usize,
    task: u32,
    priority: u32,
) -> Result<(), AllocError>
    ensures { OnOk result
        (string_bytes text.new
        ≡ string_bytes text.old ++ rival_text header.now core task priority) }
{
    push_core(text, core)?;
    header.push_name(text, task)?;
    push_level(text, priority)
}

#[tactic(auto, unfolding(crate::specs::HindranceWords::hindrance_text))]
fn push_hindrance(
    text: &mut String,
    header: &Header,
    hindrance: Hindrance,
) -> Result<(), AllocError>
    ensures { OnOk result
        (string_bytes text.new ≡ string_bytes text.old ++ hindrance_text header.now hindrance) }
{
    let Hindrance { core, by } = hindrance;
    match by {
        Obstacle::Masked => {
            push_core(text, core)?;
            text.push_str("not in its mask")
        }
        Obstacle::Held { holder } => write!(text, "\nthe kernel is held by core {holder}"),
        Obstacle::Due => {
            push_core(text, core)?;
            text.push_str("due, has not switched yet")
        }
        Obstacle::Unpreempted { task, priority } => {
            push_rival(text, header, core, task, priority)?;
            text.push_str(" with preemption off")
        }
        Obstacle::Outranked { task, priority } => push_rival(text, header, core, task, priority),
        Obstacle::Lower { task, priority } => {
            push_rival(text, header, core, task, priority)?;
            text.push_str(", which is lower; the core was not asked")
        }
    }
}

fn push_each(text: &mut String, header: &Header, hindrances: &[Hindrance]) -> Result<(), AllocError>
    ensures { OnOk result
        (string_bytes text.new
        ≡ string_bytes text.old ++ flat_map (hindrance_text header.now) hindrances.now) }
{
    for hindrance in hindrances {
        push_hindrance(text, header, *hindrance)?;
    }
    Ok(())
}

// That there are so many more.
#[tactic(auto, unfolding(crate::specs::HindranceWords::more_text))]
fn push_more(text: &mut String, count: usize) -> Result<(), AllocError>
    ensures { OnOk result (string_bytes text.new ≡ string_bytes text.old ++ more_text count) }
{
    match count {
        0 => Ok(()),
        1 => text.push_str("\nand 1 more core"),
        _ => write!(text, "\nand {count} more cores"),
    }
}

fn is_masked(hindrance: Hindrance) -> bool
    ensures { result ≡ is_masked hindrance }
{
    match hindrance.by {
        Obstacle::Masked => true,
        _ => false,
    }
}

// Those at the cores of the mask first.
#[tactic(auto, unfolding(crate::specs::HindranceWords::detail_order))]
fn detail_order(alloc: Global, hindrances: &[Hindrance]) -> Result<Vec<Hindrance>, AllocError>
    ensures { IfOk result (λ found. found.items ≡ detail_order hindrances.now) }
{
    let in_mask = hindrances.iter().copied().filter(|one| !is_masked(*one));
    let masked = hindrances.iter().copied().filter(|one| is_masked(*one));
    in_mask.chain(masked).collect(alloc)
}

// Whether the first of them is a hold of the kernel.
fn hold_first(found: &[Hindrance]) -> bool
    ensures { result ≡ hold_first found.now }
{
    match found.first() {
        Some(
            Hindrance {
                by: Obstacle::Held { .. },
                ..
            },
        ) => true,
        _ => false,
    }
}

// The first lines of them, and how many more there are.
#[tactic(auto, unfolding(crate::specs::HindranceWords::lines_text))]
fn push_lines(text: &mut String, header: &Header, found: &[Hindrance]) -> Result<(), AllocError>
    ensures { OnOk result
        (string_bytes text.new ≡ string_bytes text.old ++ lines_text header.now found.now) }
{
    if hold_first(found) {
        return push_each(text, header, &found[..1]);
    }
    let count = found.len().min(MAX_LINES);
    push_each(text, header, &found[..count])?;
    push_more(text, found.len() - count)
}

// Which place is told of, where it is not each one.
#[tactic(auto, unfolding(crate::specs::HindranceWords::place_text))]
fn push_place(text: &mut String, detail: Detail, first: u32) -> Result<(), AllocError>
    ensures { OnOk result
        (string_bytes text.new ≡ string_bytes text.old ++ place_text detail first) }
{
    match detail {
        Detail::EachPlace => Ok(()),
        Detail::FirstPlace => write!(text, "\nat place {first}:"),
    }
}

/// Writes what is in the way from the first place on.
#[tactic(auto, unfolding(crate::specs::HindranceWords::hindered_text))]
pub(crate) fn push_hindered(
    alloc: Global,
    text: &mut String,
    header: &Header,
    detail: Detail,
    first: u32,
    hindrances: &[Hindrance],
) -> Result<(), AllocError>
    ensures { OnOk result
        (string_bytes text.new
        ≡ string_bytes text.old ++ hindered_text header.now detail first hindrances.now) }
{
    if hindrances.is_empty() {
        return Ok(());
    }
    push_place(text, detail, first)?;
    let found = detail_order(alloc, hindrances)?;
    push_lines(text, header, found.as_slice())
}
