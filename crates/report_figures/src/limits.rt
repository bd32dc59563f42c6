//! Limits that figures keep or do not.
ghost use Rattle.std.specs.Prelude.{◌≡◌, ◌++◌, ◌↔◌, IfOk, IsTrue, OnOk, Option, bytes_eq, decimal, find, flat_map, string_bytes};
ghost use Rattle.report_figures.specs.Limits.{bound_text, from_text, has_name, is_kept, limit_line, name_line, unkept_line, value_text, Keeps};

use crate::figures::Figure;
use crate::names::{push_name, push_unit};
use bench_types::Header;
use std::alloc::{AllocError, Global};

/// What a value may be.
#[derive(Clone, Copy, Debug, PartialEq, Eq)]
pub enum Bound {
    /// This or less.
    AtMost(u64),
    /// This or more.
    AtLeast(u64),
}

/// A figure with what its value may be.
#[derive(Clone, Copy, Debug, PartialEq, Eq)]
pub struct Limit {
    pub figure: Figure,
    pub bound: Bound,
}

/// The first figure of this name.
pub fn figure_called(
    alloc: Global,
    header: &Header,
    figures: &[Figure],
    name: &str,
) -> Result<Option<Figure>, AllocError>
    ensures { IfOk result
        (λ found. found ≡ find (has_name header.now name.now) figures.now) }
{
    for figure in figures {
        if has_name(alloc, header, *figure, name)? {
            return Ok(Some(*figure));
        }
    }
    Ok(None)
}

fn has_name(alloc: Global, header: &Header, figure: Figure, name: &str) -> Result<bool, AllocError>
    ensures { IfOk result (λ found. found ≡ has_name header.now name.now figure) }
{
    let mut own = String::new(alloc);
    push_name(&mut own, header, figure.subject, figure.part)?;
    Ok(own.as_str() == name)
}

/// Whether the value is one that it may be.
pub fn is_kept(bound: Bound, value: u64) -> bool
    ensures test { result ≡ is_kept bound value }
    ensures kept { IsTrue result ↔ Keeps bound value }
{
    match bound {
        Bound::AtMost(most) => value <= most,
        Bound::AtLeast(least) => least <= value,
    }
}

/// Writes a line after the text that says which value the figure has and which it may have, and
/// where its longest stretch begins.
#[tactic(auto, unfolding(crate::specs::Limits::unkept_line))]
pub fn push_unkept(
    text: &mut String,
    header: &Header,
    figure: Figure,
    bound: Bound,
) -> Result<(), AllocError>
    ensures { OnOk result
        (string_bytes text.new ≡ string_bytes text.old ++ unkept_line header.now figure bound) }
{
    push_value(text, header, figure)?;
    push_bound(text, bound)?;
    push_from(text, figure.from)?;
    text.push_str("\n")
}

/// Writes the value of the figure after the text, behind its name.
#[tactic(auto, unfolding(crate::specs::Limits::value_text))]
pub fn push_value(text: &mut String, header: &Header, figure: Figure) -> Result<(), AllocError>
    ensures { OnOk result
        (string_bytes text.new ≡ string_bytes text.old ++ value_text header.now figure) }
{
    push_name(text, header, figure.subject, figure.part)?;
    write!(text, " is {}", figure.value)?;
    push_unit(text, header, figure.subject)
}

fn push_bound(text: &mut String, bound: Bound) -> Result<(), AllocError>
    ensures { OnOk result (string_bytes text.new ≡ string_bytes text.old ++ bound_text bound) }
{
    match bound {
        Bound::AtMost(most) => write!(text, ", at most {most}"),
        Bound::AtLeast(least) => write!(text, ", at least {least}"),
    }
}

fn push_from(text: &mut String, from: Option<u32>) -> Result<(), AllocError>
    ensures { OnOk result (string_bytes text.new ≡ string_bytes text.old ++ from_text from) }
{
    match from {
        Some(place) => write!(text, "; the longest stretch begins at place {place}"),
        None => Ok(()),
    }
}

/// Writes the names of the figures after the text, each on a line of its own.
pub fn push_names(text: &mut String, header: &Header, figures: &[Figure]) -> Result<(), AllocError>
    ensures { OnOk result
        (string_bytes text.new
        ≡ string_bytes text.old ++ flat_map (name_line header.now) figures.now) }
{
    for figure in figures {
        push_name_line(text, header, *figure)?;
    }
    Ok(())
}

fn push_name_line(text: &mut String, header: &Header, figure: Figure) -> Result<(), AllocError>
    ensures { OnOk result
        (string_bytes text.new ≡ string_bytes text.old ++ name_line header.now figure) }
{
    push_name(text, header, figure.subject, figure.part)?;
    text.push_str("\n")
}

/// The lines of the limits that are not kept, in their order. Where all are kept, the text is
/// empty.
pub fn limits_text(alloc: Global, header: &Header, limits: &[Limit]) -> Result<String, AllocError>
    ensures { IfOk result
        (λ text. string_bytes text ≡ flat_map (limit_line header.now) limits.now) }
{
    let mut text = String::new(alloc);
    for limit in limits {
        push_limit(&mut text, header, *limit)?;
    }
    Ok(text)
}

fn push_limit(text: &mut String, header: &Header, limit: Limit) -> Result<(), AllocError>
    ensures { OnOk result
        (string_bytes text.new ≡ string_bytes text.old ++ limit_line header.now limit) }
{
    if is_kept(limit.bound, limit.figure.value) {
        return Ok(());
    }
    push_unkept(text, header, limit.figure, limit.bound)
}
