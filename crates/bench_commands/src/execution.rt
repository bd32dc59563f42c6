//! A run over any reader and writer.
ghost use Rattle.std.specs.Prelude.{◌≡◌, true};
ghost use Rattle.program_io.specs.Device.{failures_after, later_fault};
ghost use Rattle.program_io.specs.Endings.{EndsOver, EndsTelling};
ghost use Rattle.bench_commands.specs.Answer.{IsRun, span_of};
ghost use Rattle.bench_commands.specs.Run.{Ran, fault_of_status, has_span, is_of_run, reads_well, status_of, writes_well};

use crate::answer::printed_of;
use program_io::{CountedRead, CountedWrite, Ending, OutputStatus, RunFault, tell_of_input};
use std::alloc::Global;
use std::thread::Threads;

/// What the program is asked to do with its input.
#[derive(Clone, Copy, Debug, PartialEq, Eq)]
pub enum Mode {
    /// Replay a session or a bench document, and print the tasks that run after each step; with
    /// `tally` then how each task fared. A checkpoint is to be kept every `span` steps, 1 to
    /// [`MAX_SPAN`](bench_types::MAX_SPAN).
    Replay { span: u32, tally: bool },
    /// Try each edit of a bench document alone, and print what it leads to and, where it is
    /// accepted, how each task fares then. No edit is kept, and of the session nothing else is
    /// printed. The span is that of a replay.
    WhatIf { span: u32 },
}

impl Mode {
    /// How many steps a checkpoint is to stand after the one before it.
    pub fn span(self) -> u32
        ensures { result ≡ span_of self }
    {
        match self {
            Mode::Replay { span, tally: _ } | Mode::WhatIf { span } => span,
        }
    }
}

/// How a run ended.
#[derive(Clone, Copy, Debug, PartialEq, Eq)]
pub enum Status {
    /// The whole output was written.
    Fine,
    /// The input was refused, and its refusal line written.
    Refused,
    /// The reader of the output has gone. Some first bytes of the output went out, or none.
    Gone,
    Fault(RunFault),
}

impl Status {
    // By how a run or a recording ends.
    pub(crate) fn of(ending: Ending) -> Status
        requires { is_of_run ending ≡ true }
        ensures { result ≡ status_of ending }
    {
        match ending {
            Ending::Written(OutputStatus::Fine, _) => Status::Fine,
            Ending::Written(OutputStatus::Failed | OutputStatus::Unknown, _) => Status::Refused,
            Ending::Gone => Status::Gone,
            Ending::Failed(fault) => Status::Fault(fault),
            Ending::BadCommandLine(_) | Ending::NotOpened(_) => unreachable!(),
        }
    }
}

/// Makes the run, and tells what it promises of the input.
pub(crate) fn end_of_run<T: Threads + Sync, R: CountedRead, W: CountedWrite>(
    rt: &T,
    host: &HostRuntime,
    alloc: Global,
    reader: &mut R,
    writer: &mut W,
    mode: &Mode,
) -> Ending
    requires { has_span mode.now ≡ true }
    ensures { EndsOver (EndsTelling (IsRun mode.now)) result (R.seen reader.old)
        (R.seen reader.new) (W.seen writer.old) (W.seen writer.new) }
{
    tell_of_input(
        alloc,
        reader,
        writer,
        |input|
            requires { has_span mode.now ≡ true }
        { printed_of(rt, host, alloc, input, *mode) },
    )
}

/// Reads the input to its end, or one byte past the most that is a bench document, then writes its
/// whole output. Edits that are each tried alone are tried in several threads.
pub fn run<T: Threads + Sync, R: CountedRead, W: CountedWrite>(
    rt: &T,
    host: &HostRuntime,
    alloc: Global,
    reader: &mut R,
    writer: &mut W,
    mode: &Mode,
) -> Status
    requires { has_span mode.now ≡ true }
    ensures bytes { Ran mode.now result (R.seen reader.old).bytes (R.seen reader.new).bytes
        (W.seen writer.old).bytes (W.seen writer.new).bytes }
    ensures reads { (R.seen reader.new).failures
        ≡ failures_after (reads_well result) (R.seen reader.old).failures }
    ensures writes { (W.seen writer.new).failures
        ≡ failures_after (writes_well result) (W.seen writer.old).failures }
    ensures fault { (W.seen writer.new).fault
        ≡ later_fault (fault_of_status result) (W.seen writer.old).fault }
{
    Status::of(end_of_run(rt, host, alloc, reader, writer, mode))
}
