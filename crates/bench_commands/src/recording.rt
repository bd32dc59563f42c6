//! Recordings of the scripts of a rig document.
ghost use Rattle.std.specs.Prelude.{◌≡◌, IfOk, false};
ghost use Rattle.session_text.specs.Rig.{IsCheckedRig, rig_text};
ghost use Rattle.program_io.specs.Device.{failures_after, later_fault};
ghost use Rattle.program_io.specs.Endings.{EndsOver, EndsTelling};
ghost use Rattle.bench_commands.specs.Record.{EndsRecord, IsRecorded, IsRecording, IsRecordingOf};
ghost use Rattle.bench_commands.specs.Run.{fault_of_status, reads_well, writes_well};

use crate::answer::refused_text;
use crate::execution::Status;
use bench_types::MAX_INPUT;
use core_scripts::{Gate, play};
use program_io::{
    CountedRead, CountedWrite, Ending, Output, tell_of_input, too_long, twice_note, warned,
};
use session_text::{Noted, RigScript, read_rig_noted};
use session_write::write_session;
use std::alloc::{AllocError, Global};
use std::sync::Wait;
use std::thread::Threads;

// The text of what was recorded of a rig document.
fn recorded<R: Threads + Wait + Sync, G: Gate>(
    rt: &R,
    host: &HostRuntime,
    alloc: Global,
    rig: &RigScript,
    gate: &G,
) -> Result<Vec<u8>, AllocError>
    requires { IsCheckedRig rig.now }
    ensures { IfOk result
        (λ text. IsRecorded rig.now (record { is_refused = false; text = text.items })) }
{
    let scripts = rig.scripts.as_slice();
    let recorded = play(rt, host, alloc, &rig.header, rig.limit, scripts, gate)?;
    let steps = recorded.steps(alloc)?;
    let mut text = write_session(alloc, &recorded.header, steps.as_slice())?;
    text.push(b'\n')?;
    Ok(text)
}

// What a recording tells of a text.
fn printed_of_text<R: Threads + Wait + Sync, G: Gate>(
    rt: &R,
    host: &HostRuntime,
    alloc: Global,
    input: &[u8],
    gate: &G,
) -> Result<Output, AllocError>
    ensures { IfOk result (λ printed. IsRecordingOf input.now (rig_text input.now) printed) }
{
    match read_rig_noted(alloc, input) {
        Err(fault) => refused_text(alloc, input, fault),
        Ok(Noted { document, doubled }) => {
            let line = twice_note(alloc, input, doubled)?;
            let text = recorded(rt, host, alloc, &document, gate)?;
            warned(Output::fine(alloc, text), line)
        }
    }
}

// What it tells of an input.
fn printed_of<R: Threads + Wait + Sync, G: Gate>(
    rt: &R,
    host: &HostRuntime,
    alloc: Global,
    input: &[u8],
    gate: &G,
) -> Result<Output, AllocError>
    ensures { IfOk result (λ printed. IsRecording input.now printed) }
{
    if input.len() > MAX_INPUT {
        return Ok(too_long(alloc)?.on_output());
    }
    printed_of_text(rt, host, alloc, input, gate)
}

/// Makes the recording, and tells what it promises of the input.
pub(crate) fn end_of_recording<R: Threads + Wait + Sync, I: CountedRead, O: CountedWrite, G: Gate>(
    rt: &R,
    host: &HostRuntime,
    alloc: Global,
    reader: &mut I,
    writer: &mut O,
    gate: &G,
) -> Ending
    ensures { EndsOver (EndsTelling IsRecording) result (I.seen reader.old)
        (I.seen reader.new) (O.seen writer.old) (O.seen writer.new) }
{
    tell_of_input(
        alloc,
        reader,
        writer,
        |input| printed_of(rt, host, alloc, input, gate),
    )
}

/// Reads a rig document to its end, or one byte past the most that it is, plays its scripts, one
/// thread a core, and then writes the session that was recorded and a line feed.
///
/// Each thread passes the gate before each action of its script. A thread that can't be started is
/// memory that was refused.
pub fn record<R: Threads + Wait + Sync, I: CountedRead, O: CountedWrite, G: Gate>(
    rt: &R,
    host: &HostRuntime,
    alloc: Global,
    reader: &mut I,
    writer: &mut O,
    gate: &G,
) -> Status
    ensures bytes { EndsRecord result (I.seen reader.old).bytes
        (I.seen reader.new).bytes (O.seen writer.old).bytes (O.seen writer.new).bytes }
    ensures reads { (I.seen reader.new).failures
        ≡ failures_after (reads_well result) (I.seen reader.old).failures }
    ensures writes { (O.seen writer.new).failures
        ≡ failures_after (writes_well result) (O.seen writer.old).failures }
    ensures fault { (O.seen writer.new).fault
        ≡ later_fault (fault_of_status result) (O.seen writer.old).fault }
{
    Status::of(end_of_recording(rt, host, alloc, reader, writer, gate))
}
