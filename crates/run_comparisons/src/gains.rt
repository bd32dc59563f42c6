//! What each task gained and lost.
ghost use Rattle.std.specs.Prelude.{◌≡◌, ◌++◌, IfOk, OnOk, string_bytes};
ghost use Rattle.bench_model.specs.Tallied.{run_at, tally_at};
ghost use Rattle.run_comparisons.specs.Gains.{counts_gained, difference_text, gain_text, gains_line, gains_of, gains_text, line_with, run_gain, run_gained};

use bench_types::{Header, MAX_CORES, MAX_TASKS, Tally};
use std::alloc::{AllocError, Global};
use tallies::Tallies;

// How much more or less there is.
fn push_difference(text: &mut String, before: u32, after: u32) -> Result<(), AllocError>
    ensures { OnOk result
        (string_bytes text.new ≡ string_bytes text.old ++ difference_text before after) }
{
    if before < after {
        return write!(text, "+{}", after - before);
    }
    write!(text, "-{}", before - after)
}

// The same after a name; nothing where there is as much.
fn push_gain(text: &mut String, name: &str, before: u32, after: u32) -> Result<(), AllocError>
    ensures { OnOk result
        (string_bytes text.new ≡ string_bytes text.old ++ gain_text name.now before after) }
{
    if before == after {
        return Ok(());
    }
    write!(text, " {name} ")?;
    push_difference(text, before, after)
}

fn push_run_gain(text: &mut String, core: u32, before: u32, after: u32) -> Result<(), AllocError>
    ensures { OnOk result
        (string_bytes text.new ≡ string_bytes text.old ++ run_gain core before after) }
{
    if before == after {
        return Ok(());
    }
    write!(text, " run on core {core} ")?;
    push_difference(text, before, after)
}

// The ticks that found the task on the core: 0 where there is no such task or core.
fn run_at(tallies: &Tallies, task: u32, core: u32) -> u32
    ensures { result ≡ run_at (tally_at tallies.now task) core }
{
    if (task as usize) < tallies.len() && (core as usize) < tallies.cores(task) {
        tallies.run_on(task, core)
    } else {
        0
    }
}

// The other counts of the task: 0 where there is no such task.
fn counts_at(tallies: &Tallies, task: u32) -> Tally
    ensures { result ≡ (tally_at tallies.now task).counts }
{
    if (task as usize) < tallies.len() {
        return tallies.get(task);
    }
    Tally {
        wait: 0,
        inverted: 0,
        switched: 0,
        displaced: 0,
        timeouts: 0,
        top: 0,
    }
}

fn push_run_gained(
    text: &mut String,
    task: u32,
    before: &Tallies,
    after: &Tallies,
) -> Result<(), AllocError>
    ensures { OnOk result
        (string_bytes text.new
        ≡ string_bytes text.old
        ++ run_gained (tally_at before.now task) (tally_at after.now task)) }
{
    for core in 0..MAX_CORES {
        let old = run_at(before, task, core);
        push_run_gain(text, core, old, run_at(after, task, core))?;
    }
    Ok(())
}

#[tactic(auto, unfolding(crate::specs::Gains::counts_gained))]
fn push_counts_gained(text: &mut String, before: Tally, after: Tally) -> Result<(), AllocError>
    ensures { OnOk result
        (string_bytes text.new ≡ string_bytes text.old ++ counts_gained before after) }
{
    push_gain(text, "wait", before.wait, after.wait)?;
    push_gain(text, "inverted", before.inverted, after.inverted)?;
    push_gain(text, "in", before.switched, after.switched)?;
    push_gain(text, "displaced", before.displaced, after.displaced)?;
    push_gain(text, "timeouts", before.timeouts, after.timeouts)?;
    push_gain(text, "top", before.top, after.top)
}

fn gains_of(
    alloc: Global,
    task: u32,
    before: &Tallies,
    after: &Tallies,
) -> Result<String, AllocError>
    ensures { IfOk result
        (λ text. string_bytes text
        ≡ gains_of (tally_at before.now task) (tally_at after.now task)) }
{
    let mut text = String::new(alloc);
    push_run_gained(&mut text, task, before, after)?;
    push_counts_gained(&mut text, counts_at(before, task), counts_at(after, task))?;
    Ok(text)
}

// A line with these gains; none where there are none.
fn push_line_with(
    text: &mut String,
    header: &Header,
    task: u32,
    gains: &str,
) -> Result<(), AllocError>
    ensures { OnOk result
        (string_bytes text.new ≡ string_bytes text.old ++ line_with header.now task gains.now) }
{
    if gains.is_empty() {
        return Ok(());
    }
    text.push_str("task ")?;
    header.push_name(text, task)?;
    text.push_str(gains)?;
    text.push_str("\n")
}

fn push_gains_line(
    alloc: Global,
    text: &mut String,
    header: &Header,
    task: u32,
    before: &Tallies,
    after: &Tallies,
) -> Result<(), AllocError>
    ensures { OnOk result
        (string_bytes text.new
        ≡ string_bytes text.old
        ++ gains_line header.now before.now after.now task) }
{
    let gains = gains_of(alloc, task, before, after)?;
    push_line_with(text, header, task, gains.as_str())
}

/// Writes a line for each task that fared otherwise.
pub(crate) fn push_gains(
    alloc: Global,
    text: &mut String,
    header: &Header,
    before: &Tallies,
    after: &Tallies,
) -> Result<(), AllocError>
    ensures { OnOk result
        (string_bytes text.new
        ≡ string_bytes text.old ++ gains_text header.now before.now after.now) }
{
    for task in 0..MAX_CORES + MAX_TASKS {
        push_gains_line(alloc, text, header, task, before, after)?;
    }
    Ok(())
}
