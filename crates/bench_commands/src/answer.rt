//! What a run tells of an input.
ghost use Rattle.std.specs.Prelude.{◌≡◌, [], IfOk, IsErr, OnOk, codes, true};
ghost use Rattle.bench_types.specs.Limits.{max_span};
ghost use Rattle.bench_types.specs.Name.{is_within};
ghost use Rattle.session_store.specs.declared.fault.OpenRefusal.TheVariants.{TooLong};
ghost use Rattle.session_text.specs.declared.fault.Why.TheVariants.{NoMemory};
ghost use Rattle.session_text.specs.Bench.{IsCheckedBench, bench_text};
ghost use Rattle.program_io.specs.Hint.{IsBenchTextHint, too_many_steps_line};
ghost use Rattle.program_io.specs.Outputs.{refused_with};
ghost use Rattle.program_io.specs.Refusal.{IsPrintedFault, refusal_line};
ghost use Rattle.program_io.specs.Twice.{twice_note_as_read};
ghost use Rattle.bench_commands.specs.Answer.{IsRun, IsPrintedAnswer, bench_notes, bench_output, notes_of, output_of, output_of_bench, printed_with};
ghost use Rattle.bench_commands.specs.Run.{has_span};
ghost use Rattle.bench_commands.specs.declared.execution.Mode.TheVariants.{Replay, WhatIf};

use crate::execution::Mode;
use crate::output::{edited_replay, unedited_replay};
use crate::trials::trial_lines;
use bench_types::MAX_INPUT;
use program_io::{
    Output, explained, too_long, too_many_steps, twice_note, twice_note_of_refused, warned,
};
use session_edits::{refused_edits, refused_trials};
use session_store::{NoResults, OpenRefusal, Store};
use session_text::{Bench, Noted, TextFault, read_bench_noted};
use smp_kernel::Meter;
use std::alloc::{AllocError, Global};
use std::thread::Threads;

/// What is told of a text that was not read, first where a member of it stands twice. Want of
/// memory is no refusal.
pub(crate) fn refused_text(
    alloc: Global,
    input: &[u8],
    fault: TextFault,
) -> Result<Output, AllocError>
    ensures printed { IfOk result (λ printed. IsPrintedFault refused_with input.now fault printed) }
    ensures memory { fault.why ≡ NoMemory → IsErr result }
{
    let line = twice_note_of_refused(alloc, input)?;
    warned(explained(alloc, input, fault)?.on_output(), line)
}

// What is told where the store of a document that was read was not opened: it has too many steps,
// or else memory was refused.
fn not_opened(alloc: Global, why: OpenRefusal) -> Result<Output, AllocError>
    ensures why { OnOk result (why ≡ TooLong) }
    ensures line { IfOk result
        (λ printed. printed ≡ refused_with (refusal_line (codes "J2") []) too_many_steps_line) }
{
    match why {
        OpenRefusal::TooLong => Ok(too_many_steps(alloc)?.on_output()),
        _ => Err(AllocError),
    }
}

// What is told of a replay of a bench document that was read. No edits are made.
fn printed_of_steps(
    alloc: Global,
    meter: &mut Meter,
    bench: Bench,
    span: u32,
    tally: bool,
) -> Result<Output, AllocError>
    requires checked { IsCheckedBench bench }
    requires span { is_within 1 max_span span ≡ true }
    requires none { bench.edits ≡ [] }
    ensures { IfOk result
        (λ printed. printed
        ≡ printed_with (output_of_bench (bench_output (Replay span tally)) bench)
        (bench_notes (Replay span tally) bench) too_many_steps_line) }
{
    let Bench {
        header,
        steps,
        edits: _,
    } = bench;
    match Store::open(alloc, header, steps.into_vec(), span, meter) {
        Ok(store) => {
            let text = unedited_replay(alloc, &store, tally)?;
            Ok(Output::fine(alloc, text.into_bytes()))
        }
        Err(fault) => not_opened(alloc, fault.why),
    }
}

// What is told of a replay of a bench document that was read, after its edits.
fn printed_of_edits(
    alloc: Global,
    meter: &mut Meter,
    bench: Bench,
    span: u32,
    tally: bool,
) -> Result<Output, AllocError>
    requires checked { IsCheckedBench bench }
    requires span { is_within 1 max_span span ≡ true }
    ensures { IfOk result
        (λ printed. printed
        ≡ printed_with (output_of_bench (bench_output (Replay span tally)) bench)
        (bench_notes (Replay span tally) bench) too_many_steps_line) }
{
    let Bench {
        header,
        steps,
        edits,
    } = bench;
    match Store::<NoResults>::open(alloc, header, steps.into_vec(), span, meter) {
        Ok(store) => {
            let notes = refused_edits(alloc, store.len(), edits.as_slice())?;
            let text = edited_replay(alloc, meter, store, edits.as_slice(), tally)?;
            Ok(Output::fine(alloc, text.into_bytes()).noted(notes.into_bytes()))
        }
        Err(fault) => not_opened(alloc, fault.why),
    }
}

// What is told of a replay of a bench document that was read.
fn printed_of_replay(
    alloc: Global,
    meter: &mut Meter,
    bench: Bench,
    span: u32,
    tally: bool,
) -> Result<Output, AllocError>
    requires checked { IsCheckedBench bench }
    requires span { is_within 1 max_span span ≡ true }
    ensures { IfOk result
        (λ printed. printed
        ≡ printed_with (output_of_bench (bench_output (Replay span tally)) bench)
        (bench_notes (Replay span tally) bench) too_many_steps_line) }
{
    if bench.edits.as_slice().is_empty() {
        return printed_of_steps(alloc, meter, bench, span, tally);
    }
    printed_of_edits(alloc, meter, bench, span, tally)
}

// What is told of trials of the edits of a bench document that was read.
fn printed_of_trials<T: Threads + Sync>(
    rt: &T,
    host: &HostRuntime,
    alloc: Global,
    meter: &mut Meter,
    bench: Bench,
    span: u32,
) -> Result<Output, AllocError>
    requires checked { IsCheckedBench bench }
    requires span { is_within 1 max_span span ≡ true }
    ensures { IfOk result
        (λ printed. printed
        ≡ printed_with (output_of_bench (bench_output (WhatIf span)) bench)
        (bench_notes (WhatIf span) bench) too_many_steps_line) }
{
    let Bench {
        header,
        steps,
        edits,
    } = bench;
    match Store::open(alloc, header, steps.into_vec(), span, meter) {
        Ok(store) => {
            let notes = refused_trials(alloc, store.len(), edits.as_slice())?;
            let text = trial_lines(rt, host, alloc, &store, edits.as_slice())?;
            Ok(Output::fine(alloc, text.into_bytes()).noted(notes.into_bytes()))
        }
        Err(fault) => not_opened(alloc, fault.why),
    }
}

// What is told of a bench document that was read. Texts may have any number of steps, so J2 is
// found here.
fn printed_of_bench<T: Threads + Sync>(
    rt: &T,
    host: &HostRuntime,
    alloc: Global,
    bench: Bench,
    mode: Mode,
) -> Result<Output, AllocError>
    requires checked { IsCheckedBench bench }
    requires span { has_span mode ≡ true }
    ensures { IfOk result
        (λ printed. printed
        ≡ printed_with (output_of_bench (bench_output mode) bench) (bench_notes mode bench)
        too_many_steps_line) }
{
    let mut meter = Meter::new(host);
    match mode {
        Mode::Replay { span, tally } => printed_of_replay(alloc, &mut meter, bench, span, tally),
        Mode::WhatIf { span } => printed_of_trials(rt, host, alloc, &mut meter, bench, span),
    }
}

// What is told of a text, but for H3.
fn printed_of_text<T: Threads + Sync>(
    rt: &T,
    host: &HostRuntime,
    alloc: Global,
    input: &[u8],
    mode: Mode,
) -> Result<Output, AllocError>
    requires { has_span mode ≡ true }
    ensures { IfOk result
        (λ printed. IsPrintedAnswer (output_of (bench_output mode) (bench_text input.now))
        (twice_note_as_read input.now (bench_text input.now)) (notes_of mode (bench_text input.now))
        (IsBenchTextHint input.now (bench_text input.now)) printed) }
{
    match read_bench_noted(alloc, input) {
        Err(fault) => refused_text(alloc, input, fault),
        Ok(Noted { document, doubled }) => {
            let line = twice_note(alloc, input, doubled)?;
            let printed = printed_of_bench(rt, host, alloc, document, mode)?;
            warned(printed, line)
        }
    }
}

/// All that a run tells of the input.
#[tactic(auto, unfolding(crate::specs::Answer::output))]
pub(crate) fn printed_of<T: Threads + Sync>(
    rt: &T,
    host: &HostRuntime,
    alloc: Global,
    input: &[u8],
    mode: Mode,
) -> Result<Output, AllocError>
    requires { has_span mode ≡ true }
    ensures { IfOk result (λ printed. IsRun mode input.now printed) }
{
    if input.len() > MAX_INPUT {
        return Ok(too_long(alloc)?.on_output());
    }
    printed_of_text(rt, host, alloc, input, mode)
}
