//! The lines of tallies.
ghost use Rattle.std.specs.Prelude.{◌≡◌, ◌<◌, ◌++◌, length, OnOk, string_bytes};
ghost use Rattle.bench_model.specs.Tallied.{tally_at};
ghost use Rattle.tallies.specs.Lines.{count_text, counts_text, run_text, tally_line, tally_lines, task_text};

use crate::counts::CountTable;
use bench_types::{Header, Tally};
use std::alloc::AllocError;

#[tactic(auto, unfolding(crate::specs::Lines::run_text))]
fn push_run(text: &mut String, run: &[u32]) -> Result<(), AllocError>
    ensures { OnOk result (string_bytes text.new ≡ string_bytes text.old ++ run_text run.now) }
{
    text.push_str(" run")?;
    for ticks in run {
        write!(text, " {ticks}")?;
    }
    Ok(())
}

#[tactic(auto, unfolding(crate::specs::Lines::count_text))]
fn push_count(text: &mut String, name: &str, count: u32) -> Result<(), AllocError>
    ensures { OnOk result
        (string_bytes text.new ≡ string_bytes text.old ++ count_text name.now count) }
{
    write!(text, " {name} {count}")
}

#[tactic(auto, unfolding(crate::specs::Lines::counts_text))]
fn push_counts(text: &mut String, counts: Tally) -> Result<(), AllocError>
    ensures { OnOk result (string_bytes text.new ≡ string_bytes text.old ++ counts_text counts) }
{
    push_count(text, "wait", counts.wait)?;
    push_count(text, "inverted", counts.inverted)?;
    push_count(text, "in", counts.switched)?;
    push_count(text, "displaced", counts.displaced)?;
    push_count(text, "timeouts", counts.timeouts)?;
    push_count(text, "top", counts.top)
}

#[tactic(auto, unfolding(crate::specs::Lines::task_text))]
fn push_task(text: &mut String, header: &Header, task: u32) -> Result<(), AllocError>
    ensures { OnOk result
        (string_bytes text.new ≡ string_bytes text.old ++ task_text header.now task) }
{
    text.push_str("task ")?;
    header.push_name(text, task)
}

#[tactic(auto, unfolding(crate::specs::Lines::tally_line))]
fn push_tally(
    text: &mut String,
    header: &Header,
    task: u32,
    tallies: &CountTable,
) -> Result<(), AllocError>
    requires { task < length tallies.now }
    ensures { OnOk result (string_bytes text.new
        ≡ string_bytes text.old ++ tally_line header.now task (tally_at tallies.now task)) }
{
    push_task(text, header, task)?;
    push_run(text, tallies.run(task))?;
    push_counts(text, tallies.counts(task))?;
    text.push_str("\n")
}

/// A line a task, in number order.
pub(crate) fn push_tallies(
    text: &mut String,
    header: &Header,
    tallies: &CountTable,
) -> Result<(), AllocError>
    ensures { OnOk result
        (string_bytes text.new ≡ string_bytes text.old ++ tally_lines header.now 0 tallies.now) }
{
    for task in 0..tallies.len() {
        push_tally(text, header, task, tallies)?;
    }
    Ok(())
}
