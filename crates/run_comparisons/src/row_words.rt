//! A row in words.
ghost use Rattle.std.specs.Prelude.{◌≡◌, ◌++◌, true, IfOk, OnOk, not, string_bytes};
ghost use Rattle.run_comparisons.specs.Made.{AreNamedAlike};
ghost use Rattle.run_comparisons.specs.Printed.{printed_at};
ghost use Rattle.run_comparisons.specs.RowWords.{alone_line, are_same, both_line, both_text, differs, head_text, later_text, line_of, place_text, row_line, same_mark};
ghost use Rattle.run_comparisons.specs.Shown.{line_shown};

use crate::printed::Printed;
use crate::rows::Row;
use crate::run_reader::RunReader;
use crate::shown::is_row_shown;
use run_views::Places;
use std::alloc::{AllocError, Global};

/// Writes a place after a space, and a dash where there is none.
pub(crate) fn push_place(text: &mut String, place: Option<u32>) -> Result<(), AllocError>
    ensures { OnOk result (string_bytes text.new ≡ string_bytes text.old ++ place_text place) }
{
    match place {
        None => text.push_str(" -"),
        Some(place) => write!(text, " {place}"),
    }
}

// The mark of a row, and its places before and after the edits.
fn push_head(
    text: &mut String,
    mark: &str,
    before: Option<u32>,
    after: Option<u32>,
) -> Result<(), AllocError>
    ensures { OnOk result
        (string_bytes text.new ≡ string_bytes text.old ++ head_text mark.now before after) }
{
    text.push_str(mark)?;
    push_place(text, before)?;
    push_place(text, after)
}

fn push_line(text: &mut String, printed: &Printed) -> Result<(), AllocError>
    ensures { OnOk result (string_bytes text.new ≡ string_bytes text.old ++ line_of printed.now) }
{
    text.push_str(" ")?;
    text.push_str(printed.words.as_str())?;
    text.push_str(": ")?;
    text.push_str(printed.outcome.as_str())
}

fn are_same(before: &Printed, after: &Printed) -> bool
    ensures { result ≡ are_same before.now after.now }
{
    before.words.as_str() == after.words.as_str()
        && before.outcome.as_str() == after.outcome.as_str()
}

// What the run after the edits tells of a step of both: its words only where they are others.
fn push_later(text: &mut String, before: &Printed, after: &Printed) -> Result<(), AllocError>
    ensures { OnOk result
        (string_bytes text.new ≡ string_bytes text.old ++ later_text before.now after.now) }
{
    if before.words.as_str() == after.words.as_str() {
        text.push_str(" ")?;
        return text.push_str(after.outcome.as_str());
    }
    push_line(text, after)
}

fn push_both(text: &mut String, before: &Printed, after: &Printed) -> Result<(), AllocError>
    ensures { OnOk result
        (string_bytes text.new ≡ string_bytes text.old ++ both_text before.now after.now) }
{
    push_line(text, before)?;
    if are_same(before, after) {
        return Ok(());
    }
    text.push_str(" ->")?;
    push_later(text, before, after)
}

fn same_mark(same: bool) -> &'static str
    ensures { result.now ≡ same_mark same }
{
    if same { " " } else { "|" }
}

// A step that both runs have. Gives whether they differ in it.
fn push_both_line(
    text: &mut String,
    before: u32,
    after: u32,
    old: &Printed,
    new: &Printed,
) -> Result<bool, AllocError>
    ensures line { OnOk result
        (string_bytes text.new
        ≡ string_bytes text.old ++ both_line before after old.now new.now) }
    ensures differ { IfOk result (λ differ. differ ≡ not (are_same old.now new.now)) }
{
    let same = are_same(old, new);
    push_head(text, same_mark(same), Some(before), Some(after))?;
    push_both(text, old, new)?;
    text.push_str("\n")?;
    Ok(!same)
}

// A step that one of the runs has.
fn push_alone_line(
    text: &mut String,
    mark: &str,
    before: Option<u32>,
    after: Option<u32>,
    printed: &Printed,
) -> Result<(), AllocError>
    ensures { OnOk result
        (string_bytes text.new
        ≡ string_bytes text.old ++ alone_line mark.now before after printed.now) }
{
    push_head(text, mark, before, after)?;
    push_line(text, printed)?;
    text.push_str("\n")
}

// Writes the line of the row, and gives whether the runs differ in it.
fn push_row(
    alloc: Global,
    text: &mut String,
    before: &mut RunReader<'_>,
    after: &mut RunReader<'_>,
    row: Row,
) -> Result<bool, AllocError>
    ensures line { OnOk result
        (string_bytes text.new ≡ string_bytes text.old ++ row_line before.old after.old row) }
    ensures differ { IfOk result (λ differ. differ ≡ differs before.old after.old row) }
    ensures before { before.new ≡ before.old }
    ensures after { after.new ≡ after.old }
{
    match row {
        Row::Both {
            before: old,
            after: new,
        } => {
            let earlier = before.printed_at(alloc, old)?;
            let later = after.printed_at(alloc, new)?;
            push_both_line(text, old, new, &earlier, &later)
        }
        Row::Removed(old) => {
            let printed = before.printed_at(alloc, old)?;
            push_alone_line(text, "-", Some(old), None, &printed)?;
            Ok(true)
        }
        Row::Inserted(new) => {
            let printed = after.printed_at(alloc, new)?;
            push_alone_line(text, "+", None, Some(new), &printed)?;
            Ok(true)
        }
    }
}

// Whether both made one step there, and it led to the same. Then the same is told of it, where each
// task has one name in both.
fn are_made_alike(
    alloc: Global,
    before: &mut RunReader<'_>,
    after: &mut RunReader<'_>,
    old: u32,
    new: u32,
) -> Result<bool, AllocError>
    ensures alike { IfOk result (λ alike. alike ≡ true
        → AreNamedAlike before.old.header after.old.header
        → printed_at before.old old ≡ printed_at after.old new) }
    ensures before { before.new ≡ before.old }
    ensures after { after.new ≡ after.old }
{
    let Some(made) = before.made_at(alloc, old)? else {
        return Ok(false);
    };
    let Some(other) = after.made_at(alloc, new)? else {
        return Ok(false);
    };
    Ok(made.is_alike(&other))
}

// Whether other words are told of the two steps.
fn differ_in_words(
    alloc: Global,
    before: &mut RunReader<'_>,
    after: &mut RunReader<'_>,
    old: u32,
    new: u32,
) -> Result<bool, AllocError>
    ensures differ { IfOk result (λ differ. differ
        ≡ not (are_same (printed_at before.old old) (printed_at after.old new))) }
    ensures before { before.new ≡ before.old }
    ensures after { after.new ≡ after.old }
{
    let earlier = before.printed_at(alloc, old)?;
    let later = after.printed_at(alloc, new)?;
    Ok(!are_same(&earlier, &later))
}

// Whether the runs differ in a step of both. Words are made only where the steps are not alike.
fn differ_at(
    alloc: Global,
    before: &mut RunReader<'_>,
    after: &mut RunReader<'_>,
    named_alike: bool,
    old: u32,
    new: u32,
) -> Result<bool, AllocError>
    requires { named_alike ≡ true → AreNamedAlike before.old.header after.old.header }
    ensures differ { IfOk result (λ differ. differ
        ≡ not (are_same (printed_at before.old old) (printed_at after.old new))) }
    ensures before { before.new ≡ before.old }
    ensures after { after.new ≡ after.old }
{
    if named_alike && are_made_alike(alloc, before, after, old, new)? {
        return Ok(false);
    }
    differ_in_words(alloc, before, after, old, new)
}

// Whether the runs differ in the row.
fn differs(
    alloc: Global,
    before: &mut RunReader<'_>,
    after: &mut RunReader<'_>,
    named_alike: bool,
    row: Row,
) -> Result<bool, AllocError>
    requires { named_alike ≡ true → AreNamedAlike before.old.header after.old.header }
    ensures differ { IfOk result (λ differ. differ ≡ differs before.old after.old row) }
    ensures before { before.new ≡ before.old }
    ensures after { after.new ≡ after.old }
{
    match row {
        Row::Both {
            before: old,
            after: new,
        } => differ_at(alloc, before, after, named_alike, old, new),
        Row::Removed(_) | Row::Inserted(_) => Ok(true),
    }
}

/// Writes the line of the row where it is shown, and gives whether the runs differ in it.
pub(crate) fn push_row_shown(
    alloc: Global,
    text: &mut String,
    before: &mut RunReader<'_>,
    after: &mut RunReader<'_>,
    shown: Option<Places>,
    named_alike: bool,
    row: Row,
) -> Result<bool, AllocError>
    requires { named_alike ≡ true → AreNamedAlike before.old.header after.old.header }
    ensures line { OnOk result
        (string_bytes text.new
        ≡ string_bytes text.old ++ line_shown shown before.old after.old row) }
    ensures differ { IfOk result (λ differ. differ ≡ differs before.old after.old row) }
    ensures before { before.new ≡ before.old }
    ensures after { after.new ≡ after.old }
{
    if is_row_shown(shown, row) {
        return push_row(alloc, text, before, after, row);
    }
    differs(alloc, before, after, named_alike, row)
}
