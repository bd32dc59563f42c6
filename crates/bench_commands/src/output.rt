//! The output of a replay.
ghost use Rattle.std.specs.Prelude.{◌≡◌, ◌++◌, ◌<◌, suc, [], length, IfOk, OnOk, string_bytes};
ghost use Rattle.bench_model.specs.Edits.{after_edits};
ghost use Rattle.session_store.specs.Outcomes.{answers};
ghost use Rattle.bench_commands.specs.Answer.{edited_text, line_at, replay_text, tally_text};
ghost use Rattle.bench_commands.specs.Lines.{edit_lines, AreLabels, IsShownAt};

use crate::labels::Labels;
use crate::lines::{push_edit_line, push_start_line, push_step_line};
use crate::shown_row::ShownRow;
use crate::store_edit::answer_to_edit;
use bench_types::Edit;
use session_store::{NoResults, Store};
use smp_kernel::Meter;
use std::alloc::{AllocError, Global};

// The line of the step at the place. The row goes on to the place after it.
fn push_line(
    text: &mut String,
    store: &Store,
    labels: &Labels,
    row: &mut ShownRow,
    place: u32,
) -> Result<(), AllocError>
    requires labels { AreLabels store.now.session.header labels.now }
    requires place { place < length store.now.session.steps }
    requires row { IsShownAt store.now.session place row.old.tasks.items
        (string_bytes row.old.text) }
    ensures line { OnOk result
        (string_bytes text.new
        ≡ string_bytes text.old ++ line_at store.now.session.header store.now.session.steps place) }
    ensures row { OnOk result (IsShownAt store.now.session (suc place) row.new.tasks.items
        (string_bytes row.new.text)) }
{
    row.pass(store, labels, place)?;
    match store.reply(place) {
        Some(reply) => push_step_line(text, place, reply, row.text.as_str()),
        None => Ok(()),
    }
}

fn push_replay(alloc: Global, text: &mut String, store: &Store) -> Result<(), AllocError>
    ensures { OnOk result
        (string_bytes text.new
        ≡ string_bytes text.old ++ replay_text store.now.session.header store.now.session.steps) }
{
    let labels = Labels::of_tasks(alloc, store.header())?;
    let mut row = ShownRow::at_start(alloc, store, &labels)?;
    push_start_line(text, row.text.as_str())?;
    for place in 0..store.len() {
        push_line(text, store, &labels, &mut row, place)?;
    }
    Ok(())
}

// How each task fared, where that is asked for.
fn push_tallies(
    alloc: Global,
    text: &mut String,
    store: &Store,
    tally: bool,
) -> Result<(), AllocError>
    ensures { OnOk result
        (string_bytes text.new
        ≡ string_bytes text.old
        ++ tally_text tally store.now.session.header store.now.session.steps) }
{
    if !tally {
        return Ok(());
    }
    let lines = store.tallies(alloc)?.text(alloc, store.header())?;
    text.push_str(lines.as_str())
}

// Makes the edits, and adds a line for each.
fn push_edits(
    alloc: Global,
    meter: &mut Meter,
    text: &mut String,
    store: &mut Store<NoResults>,
    edits: &[Edit],
) -> Result<(), AllocError>
    ensures lines { OnOk result
        (string_bytes text.new
        ≡ string_bytes text.old ++ edit_lines 0 (answers store.old edits.now)) }
    ensures session { OnOk result
        (store.new.session ≡ after_edits store.old.session edits.now) }
{
    for (index, edit) in edits.iter().enumerate() {
        let answer = answer_to_edit(alloc, meter, store, *edit)?;
        push_edit_line(text, index, &answer)?;
    }
    Ok(())
}

// The store that edits leave, which keeps nothing of its replay until all are made. Adds a line for
// each.
fn edited_store(
    alloc: Global,
    meter: &mut Meter,
    text: &mut String,
    mut store: Store<NoResults>,
    edits: &[Edit],
) -> Result<Store, AllocError>
    ensures lines { OnOk result
        (string_bytes text.new
        ≡ string_bytes text.old ++ edit_lines 0 (answers store edits.now)) }
    ensures session { IfOk result
        (λ edited. edited.session ≡ after_edits store.session edits.now) }
{
    push_edits(alloc, meter, text, &mut store, edits)?;
    let edited = store.with_results(alloc, meter)?;
    Ok(edited)
}

// Adds the lines of a replay, and those of its tasks where they are asked for.
fn push_whole(
    alloc: Global,
    text: &mut String,
    store: &Store,
    tally: bool,
) -> Result<(), AllocError>
    ensures { OnOk result
        (string_bytes text.new
        ≡ string_bytes text.old ++ replay_text store.now.session.header store.now.session.steps
        ++ tally_text tally store.now.session.header store.now.session.steps) }
{
    push_replay(alloc, text, store)?;
    push_tallies(alloc, text, store, tally)
}

/// Makes the edits, and gives a line for each, then those of a replay of the session that they
/// leave, and with `tally` those of its tasks.
pub(crate) fn edited_replay(
    alloc: Global,
    meter: &mut Meter,
    store: Store<NoResults>,
    edits: &[Edit],
    tally: bool,
) -> Result<String, AllocError>
    ensures { IfOk result
        (λ text. string_bytes text ≡ edited_text tally store edits.now) }
{
    let mut text = String::new(alloc);
    let edited = edited_store(alloc, meter, &mut text, store, edits)?;
    push_whole(alloc, &mut text, &edited, tally)?;
    Ok(text)
}

/// Gives the lines of a replay, and with `tally` those of its tasks.
pub(crate) fn unedited_replay(
    alloc: Global,
    store: &Store,
    tally: bool,
) -> Result<String, AllocError>
    ensures { IfOk result
        (λ text. string_bytes text ≡ edited_text tally store.now []) }
{
    let mut text = String::new(alloc);
    push_whole(alloc, &mut text, store, tally)?;
    Ok(text)
}
