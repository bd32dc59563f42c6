//! Up to where a run that keeps work is known, as people are told.
ghost use Rattle.std.specs.Prelude.{◌≡◌, ◌++◌, OnOk, string_bytes};
ghost use Rattle.std.specs.List.{list_any};
ghost use Rattle.run_comparisons.specs.Known.{known_before, known_behind, known_line, reason_text, stands_at};

use crate::rows::Row;
use bench_types::Header;
use kept_runs::{KnownLimit, LimitReason};
use std::alloc::AllocError;

// Why it is not known what a task does.
fn reason_text(reason: LimitReason) -> &'static str
    ensures { result.now ≡ reason_text reason }
{
    match reason {
        LimitReason::End => " has made its last call",
        LimitReason::Answer { affirmative: true } => " got true where it got false",
        LimitReason::Answer { affirmative: false } => " got false where it got true",
    }
}

/// Writes up to which place a run is known, and of which task it is not known what it does next.
pub fn push_known(text: &mut String, header: &Header, limit: KnownLimit) -> Result<(), AllocError>
    ensures { OnOk result
        (string_bytes text.new ≡ string_bytes text.old ++ known_line header.now limit) }
{
    write!(text, "known until place {}: ", limit.place)?;
    header.push_name(text, limit.task)?;
    text.push_str(reason_text(limit.reason))?;
    text.push_str("\n")
}

// Whether the step of the row stands at the place of the run after the edits.
fn stands_at(place: usize, row: Row) -> bool
    ensures { result ≡ stands_at place row }
{
    match row {
        Row::Both { after, .. } | Row::Inserted(after) => after as usize == place,
        Row::Removed(_) => false,
    }
}

// Whether some row stands there.
fn some_stands_at(place: usize, rows: &[Row]) -> bool
    ensures { result ≡ list_any (stands_at place) rows.now }
{
    rows.iter().any(|row| stands_at(place, *row))
}

/// Before a row that stands where the known part of the run ends, writes so.
pub(crate) fn push_known_before(
    text: &mut String,
    header: &Header,
    known: Option<KnownLimit>,
    row: Row,
) -> Result<(), AllocError>
    ensures { OnOk result
        (string_bytes text.new ≡ string_bytes text.old ++ known_before header.now known row) }
{
    match known {
        Some(limit) if stands_at(limit.place, row) => push_known(text, header, limit),
        _ => Ok(()),
    }
}

/// Where no row stands there, writes it behind the last one.
pub(crate) fn push_known_behind(
    text: &mut String,
    header: &Header,
    known: Option<KnownLimit>,
    rows: &[Row],
) -> Result<(), AllocError>
    ensures { OnOk result
        (string_bytes text.new ≡ string_bytes text.old ++ known_behind header.now known rows.now) }
{
    match known {
        Some(limit) if !some_stands_at(limit.place, rows) => push_known(text, header, limit),
        _ => Ok(()),
    }
}
