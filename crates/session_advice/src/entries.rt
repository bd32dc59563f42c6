//! The lines of the best changes.
ghost use Rattle.std.specs.Prelude.{◌≡◌, ◌<◌, ◌++◌, All, OnOk, Some, length, slice_get, string_bytes};
ghost use Rattle.ranked_changes.specs.Changed.{IsChangeOf, IsHeaderChange};
ghost use Rattle.run_sources.specs.Sources.{header_of};
ghost use Rattle.session_advice.specs.Advice.{entry_line, head_line, AddsEntries, AddsEntry, IsJudged};
ghost use Rattle.session_advice.specs.Basis.{basis_of, IsBasis};

use crate::basis::Base;
use crate::costs::push_costs;
use crate::words::{push_change, push_verdict};
use ranked_changes::{Change, Ranked, Verdict};
use report_figures::push_value;
use smp_kernel::Meter;
use std::alloc::{AllocError, Global};

/// Writes the value that is to be lower after the text, and how many changes were tried.
pub(crate) fn push_head(text: &mut String, base: &Base<'_>, count: usize) -> Result<(), AllocError>
    ensures { OnOk result
        (string_bytes text.new ≡ string_bytes text.old ++ head_line (basis_of base.now) count) }
{
    push_value(text, base.source.header(), base.judged)?;
    write!(text, "; {count} changes tried\n")
}

#[tactic(auto, unfolding(crate::specs::Advice::entry_line))]
fn push_entry_line(
    alloc: Global,
    text: &mut String,
    base: &Base<'_>,
    rank: usize,
    change: Change,
    verdict: Verdict,
) -> Result<(), AllocError>
    requires { IsHeaderChange (header_of base.now.source.now) change }
    ensures { OnOk result
        (string_bytes text.new
        ≡ string_bytes text.old ++ entry_line (basis_of base.now) rank change verdict) }
{
    write!(text, "{rank}. ")?;
    push_change(text, base.source.header(), change)?;
    text.push_str(": ")?;
    push_verdict(alloc, text, base.judged.value, verdict)?;
    text.push_str("\n")
}

// The change of the entry.
fn change_at(changes: &[Change], index: u32) -> Change
    requires { index < length changes.now }
    ensures { slice_get changes.now index ≡ Some result }
{
    changes[index as usize]
}

fn push_entry(
    alloc: Global,
    meter: &mut Meter,
    text: &mut String,
    base: &Base<'_>,
    changes: &[Change],
    rank: usize,
    entry: Ranked,
) -> Result<(), AllocError>
    requires basis { IsBasis (basis_of base.now) }
    requires allowed { All (IsChangeOf (basis_of base.now).source) changes.now }
    requires judged { IsJudged (basis_of base.now) changes.now entry }
    ensures { OnOk result
        (AddsEntry (basis_of base.now) changes.now rank entry (string_bytes text.old)
        (string_bytes text.new)) }
{
    let change = change_at(changes, entry.index);
    push_entry_line(alloc, text, base, rank, change, entry.verdict)?;
    push_costs(alloc, meter, text, base, change, entry.verdict)?;
    Ok(())
}

/// Writes the lines of each of the best after the text, whose ranks are counted from 1.
pub(crate) fn push_entries(
    alloc: Global,
    meter: &mut Meter,
    text: &mut String,
    base: &Base<'_>,
    changes: &[Change],
    best: &[Ranked],
) -> Result<(), AllocError>
    requires basis { IsBasis (basis_of base.now) }
    requires allowed { All (IsChangeOf (basis_of base.now).source) changes.now }
    requires judged { All (IsJudged (basis_of base.now) changes.now) best.now }
    ensures { OnOk result
        (AddsEntries (basis_of base.now) changes.now best.now (string_bytes text.old)
        (string_bytes text.new)) }
{
    for (place, entry) in best.iter().enumerate() {
        push_entry(alloc, meter, text, base, changes, place + 1, *entry)?;
    }
    Ok(())
}
