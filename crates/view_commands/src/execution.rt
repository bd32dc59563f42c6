//! A view of a document, over any reader and writer.
ghost use Rattle.program_io.specs.Endings.{EndsOver, EndsTelling};
ghost use Rattle.view_commands.specs.Commands.{IsView};

use crate::Job;
use crate::input::printed_of;
use program_io::{CountedRead, CountedWrite, Ending, tell_of_input};
use shown_runs::PartProgress;
use std::alloc::Global;
use std::thread::Threads;

/// Reads a document to its end, or one byte past the most that it is, and then writes what the
/// job tells of it. Changes are tried in several threads, and how far that is goes to
/// `progress`.
pub fn run<T: Threads + Sync, P: PartProgress, R: CountedRead, W: CountedWrite>(
    rt: &T,
    host: &HostRuntime,
    progress: &mut P,
    alloc: Global,
    reader: &mut R,
    writer: &mut W,
    job: &Job,
) -> Ending
    ensures { EndsOver (EndsTelling (IsView job.now)) result (R.seen reader.old) (R.seen reader.new)
        (W.seen writer.old) (W.seen writer.new) }
{
    tell_of_input(alloc, reader, writer, |input| {
        printed_of(rt, host, progress, alloc, input, job)
    })
}
