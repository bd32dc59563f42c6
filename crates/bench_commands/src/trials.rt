//! The output of edits that are each tried alone.
ghost use Rattle.std.specs.Prelude.{◌≡◌, ◌++◌, Ok, IfOk, OnOk, string_bytes};
ghost use Rattle.bench_types.specs.declared.edit.Edit.{Edit as Change};
ghost use Rattle.bench_model.specs.Meeting.{CheckpointedSession};
ghost use Rattle.session_store.specs.Trials.{IsTried};
ghost use Rattle.tallies.specs.Lines.{tally_lines};
ghost use Rattle.bench_commands.specs.Answer.{trial_text, trials_text};
ghost use Rattle.bench_commands.specs.Lines.{edit_line};
ghost use Rattle.bench_commands.specs.TrialLaws.{IndexIsPrinted, PartsAreWhole};

use crate::lines::push_edit_line;
use bench_types::{Edit, Header};
use session_store::{Outcome, Store, StoreFault};
use std::alloc::{AllocError, Global};
use std::thread::Threads;
use tallies::Tallies;
use what_if::try_all;

// The line of an edit that is accepted, and those of the tasks.
fn push_accepted(
    alloc: Global,
    text: &mut String,
    header: &Header,
    index: usize,
    outcome: Outcome,
    tallies: &Tallies,
) -> Result<(), AllocError>
    ensures { OnOk result
        (string_bytes text.new
        ≡ string_bytes text.old
        ++ (edit_line index (Ok outcome) ++ tally_lines header.now 0 tallies.now)) }
{
    push_edit_line(text, index, &Ok(outcome))?;
    let lines = tallies.text(alloc, header)?;
    text.push_str(lines.as_str())
}

// The line of an edit that was tried alone and, where it is accepted, those of the tasks.
fn push_trial(
    alloc: Global,
    text: &mut String,
    header: &Header,
    index: usize,
    tried: &Result<(Outcome, Tallies), StoreFault>,
) -> Result<(), AllocError>
    ensures { (kept : CheckpointedSession) (edit : Change) → kept.session.header ≡ header.now
        → IsTried kept edit tried.now
        → OnOk result
        (string_bytes text.new ≡ string_bytes text.old ++ trial_text kept index edit) }
{
    match tried {
        Ok((outcome, tallies)) => push_accepted(alloc, text, header, index, *outcome, tallies),
        Err(StoreFault::Edit(why)) => push_edit_line(text, index, &Err(*why)),
        Err(StoreFault::NoMemory) => Err(AllocError),
    }
}

/// For each edit what it leads to where it is tried alone, a line, and then how each task fares.
/// Where memory is refused to one of them, there are no lines at all.
pub(crate) fn trial_lines<T: Threads + Sync>(
    rt: &T,
    host: &HostRuntime,
    alloc: Global,
    store: &Store,
    edits: &[Edit],
) -> Result<String, AllocError>
    ensures { IfOk result (λ text. string_bytes text ≡ trials_text store.now 0 edits.now) }
{
    let mut text = String::new(alloc);
    let tried = try_all(rt, host, alloc, store, edits)?;
    for (index, trial) in tried.iter().enumerate() {
        push_trial(alloc, &mut text, store.header(), index, trial)?;
    }
    Ok(text)
}

/// Laws of the lines of edits that are each tried alone, by which edits can be tried in parts, on
/// other machines too. It does nothing: its contract is the laws, one a clause.
pub fn laws_of_trials()
    // The lines of some edits, and then those of the edits after them, are the lines of all.
    ensures parts { PartsAreWhole }
    // Of an edit's lines the first tells its index, and nothing else depends on that.
    ensures index { IndexIsPrinted }
{}
