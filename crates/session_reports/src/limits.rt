//! Whether a run keeps limits.
ghost use Rattle.std.specs.Prelude.{◌≡◌, ◌++◌, ◌↔◌, IfOk, OnOk, find, flat_map, option_map, string_bytes};
ghost use Rattle.session_reports.specs.Checks.{check_of, checked, is_unknown, kept_or, limits_in, unknown_text, KeepsAll, NamesUnknown};
ghost use Rattle.session_reports.specs.declared.limits.CheckStatus.TheVariants.{Kept, Unknown};

use crate::figures::figures_of_run;
use bench_types::Header;
use report_figures::{Bound, Figure, Limit, figure_called, limits_text, push_names};
use session_runs::Run;
use smp_kernel::Meter;
use std::alloc::{AllocError, Global};
use std::marker::Model;

/// A limit, by the name of a figure.
#[derive(Drop)]
pub struct Wanted {
    pub name: String,
    pub bound: Bound,
}

impl Model for Wanted {
    ghost use Rattle.std.specs.Prelude.{string_bytes};
    ghost use Rattle.session_reports.specs.Asked.{Asked};

    ghost Value = { Asked };

    ghost view = { λ it. record { name = string_bytes it.name; bound = it.bound } };
}

/// How a check ends.
#[derive(Clone, Copy, Debug, PartialEq, Eq)]
pub enum CheckStatus {
    /// All limits are kept.
    Kept,
    /// Some are not.
    NotKept,
    /// A limit has a name that no figure has.
    Unknown,
}

/// How a check ends, and what is told of it: a line for each limit that is not kept, or the names
/// that figures have.
#[derive(Drop)]
pub struct Checked {
    pub status: CheckStatus,
    pub text: String,
}

impl Model for Checked {
    ghost use Rattle.std.specs.Prelude.{string_bytes};
    ghost use Rattle.session_reports.specs.Asked.{Printed};

    ghost Value = { Printed };

    ghost view = { λ it. record { status = it.status; text = string_bytes it.text } };
}

fn is_unknown(
    alloc: Global,
    header: &Header,
    figures: &[Figure],
    wanted: &Wanted,
) -> Result<bool, AllocError>
    ensures { IfOk result
        (λ unknown. unknown ≡ is_unknown header.now figures.now wanted.now) }
{
    let found = figure_called(alloc, header, figures, wanted.name.as_str())?;
    Ok(found.is_none())
}

// The first limit whose name no figure has.
fn first_unknown<'a>(
    alloc: Global,
    header: &Header,
    figures: &[Figure],
    wanted: &'a [Wanted],
) -> Result<Option<&'a Wanted>, AllocError>
    ensures { IfOk result
        (λ found. option_map (λ unknown. unknown.now) found
        ≡ find (is_unknown header.now figures.now) wanted.now) }
{
    for one in wanted {
        if is_unknown(alloc, header, figures, one)? {
            return Ok(Some(one));
        }
    }
    Ok(None)
}

// Adds the limit with its figure.
fn push_limit(
    alloc: Global,
    limits: &mut Vec<Limit>,
    header: &Header,
    figures: &[Figure],
    wanted: &Wanted,
) -> Result<(), AllocError>
    ensures { OnOk result
        (limits.new.items
        ≡ limits.old.items ++ limits_in header.now figures.now wanted.now) }
{
    if let Some(figure) = figure_called(alloc, header, figures, wanted.name.as_str())? {
        limits.push(Limit {
            figure,
            bound: wanted.bound,
        })?;
    }
    Ok(())
}

fn limits_of(
    alloc: Global,
    header: &Header,
    figures: &[Figure],
    wanted: &[Wanted],
) -> Result<Vec<Limit>, AllocError>
    ensures { IfOk result
        (λ limits. limits.items ≡ flat_map (limits_in header.now figures.now) wanted.now) }
{
    let mut limits = Vec::new(alloc);
    for one in wanted {
        push_limit(alloc, &mut limits, header, figures, one)?;
    }
    Ok(limits)
}

/// That no figure has the name, and then the names that figures have, each on a line of its own.
#[tactic(auto, unfolding(crate::specs::Checks::unknown_text))]
pub fn unknown_text(
    alloc: Global,
    header: &Header,
    figures: &[Figure],
    name: &str,
) -> Result<String, AllocError>
    ensures { IfOk result
        (λ text. string_bytes text ≡ unknown_text header.now figures.now name.now) }
{
    let mut text = String::new(alloc);
    text.push_str("no number is called ")?;
    text.push_str(name)?;
    text.push_str("; these are:\n")?;
    push_names(&mut text, header, figures)?;
    Ok(text)
}

// All limits are kept where there are no lines.
fn kept_or(lines: String) -> Checked
    ensures { result ≡ kept_or (string_bytes lines) }
{
    let status = if lines.is_empty() {
        CheckStatus::Kept
    } else {
        CheckStatus::NotKept
    };
    Checked {
        status,
        text: lines,
    }
}

// Whether the figures keep the limits.
fn printed_of(
    alloc: Global,
    header: &Header,
    figures: &[Figure],
    wanted: &[Wanted],
) -> Result<Checked, AllocError>
    ensures { IfOk result
        (λ printed. printed ≡ checked header.now figures.now wanted.now) }
{
    if let Some(unknown) = first_unknown(alloc, header, figures, wanted)? {
        return Ok(Checked {
            status: CheckStatus::Unknown,
            text: unknown_text(alloc, header, figures, unknown.name.as_str())?,
        });
    }
    let limits = limits_of(alloc, header, figures, wanted)?;
    Ok(kept_or(limits_text(alloc, header, limits.as_slice())?))
}

/// Whether the figures of the run keep the limits.
pub fn check(
    alloc: Global,
    meter: &mut Meter,
    run: &Run,
    wanted: &[Wanted],
) -> Result<Checked, AllocError>
    ensures check { IfOk result (λ printed. printed ≡ check_of run.now wanted.now) }
    // All limits are kept, each by the figure of its name, or some name is unknown.
    ensures kept { IfOk result
        (λ printed. (printed.status ≡ Kept) ↔ KeepsAll run.now wanted.now) }
    ensures unknown { IfOk result
        (λ printed. (printed.status ≡ Unknown) ↔ NamesUnknown run.now wanted.now) }
{
    let figures = figures_of_run(alloc, meter, run)?;
    let printed = printed_of(alloc, run.session().header(), figures.as_slice(), wanted)?;
    Ok(printed)
}
