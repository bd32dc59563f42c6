//! The program, from the words of its command line to its end.
ghost use Rattle.std.specs.Prelude.{◌≡◌, IfOk, map, option_map, string_bytes};
ghost use Rattle.std.specs.Process.{exit_status};
ghost use Rattle.program_io.specs.Endings.{EndsOver, EndsProcess, EndsShowing, EndsWith};
ghost use Rattle.program_io.specs.Device.{DeviceState};
ghost use Rattle.view_commands.specs.CommandLine.{a_view, version_line};
ghost use Rattle.view_commands.specs.ViewProgram.{Ends, EndsAsked, EndsFile, EndsRequest, open_line};

use crate::command_line::{VERSION, request_of};
use crate::execution::run;
use crate::request::{FileName, Job, Request};
use crate::source::Source;
use program_io::{CountedWrite, Ending, RunFault, end_process, given_words, show_text};
use shown_runs::PartProgress;
use std::alloc::{AllocError, Global};
use std::convert::AsStr;
use std::env::Args;
use std::io;
use std::process::ExitCode;
use std::thread::Threads;

// That the file of this name can't be opened.
fn open_line(alloc: Global, name: &str) -> Result<String, AllocError>
    ensures { IfOk result (λ line. string_bytes line ≡ open_line name.now) }
{
    format!(in alloc; "fault open {name}\n")
}

// A view of the file of this name.
fn show_file<T: Threads + Sync, P: PartProgress, R: Source, W: CountedWrite>(
    rt: &T,
    host: &HostRuntime,
    progress: &mut P,
    alloc: Global,
    job: &Job,
    name: &str,
    reader: &mut R,
    writer: &mut W,
) -> Ending
    ensures { EndsOver (EndsFile job.now name.now (R.Source.file reader.old name.now)) result
        (R.seen reader.old) (R.seen reader.new) (W.seen writer.old) (W.seen writer.new) }
{
    let Ok(line) = open_line(alloc, name) else {
        return Ending::Failed(RunFault::Memory);
    };
    match reader.open(name) {
        Ok(()) => run(rt, host, progress, alloc, reader, writer, job),
        Err(_) => Ending::NotOpened(line),
    }
}

// A view of the file that is named, or of standard input.
fn show_document<T: Threads + Sync, P: PartProgress, R: Source, W: CountedWrite>(
    rt: &T,
    host: &HostRuntime,
    progress: &mut P,
    alloc: Global,
    job: &Job,
    file: Option<FileName>,
    reader: &mut R,
    writer: &mut W,
) -> Ending
    ensures { EndsOver (EndsAsked (a_view job.now file) (R.Source.file reader.old)) result
        (R.seen reader.old) (R.seen reader.new) (W.seen writer.old) (W.seen writer.new) }
{
    match file {
        Some(name) => show_file(
            rt,
            host,
            progress,
            alloc,
            job,
            name.text.as_str(),
            reader,
            writer,
        ),
        None => run(rt, host, progress, alloc, reader, writer, job),
    }
}

// The program's name and its version.
fn version_line(alloc: Global) -> Result<String, AllocError>
    ensures { IfOk result (λ line. string_bytes line ≡ version_line) }
{
    let version = VERSION;
    format!(in alloc; "smp_view {version}\n")
}

// Shows them. Nothing is read.
fn show_version<W: CountedWrite>(alloc: Global, writer: &mut W) -> Ending
    ensures { (read : DeviceState)
        → EndsOver (EndsShowing version_line) result read read (W.seen writer.old)
        (W.seen writer.new) }
{
    match version_line(alloc) {
        Ok(line) => show_text(alloc, writer, line.as_str()),
        Err(_) => Ending::Failed(RunFault::Memory),
    }
}

/// Does what the command line asks for. Only a view reads, of standard input or of the file that
/// is named.
pub fn carry_out<T: Threads + Sync, P: PartProgress, R: Source, W: CountedWrite>(
    rt: &T,
    host: &HostRuntime,
    progress: &mut P,
    alloc: Global,
    request: Request,
    reader: &mut R,
    writer: &mut W,
) -> Ending
    ensures { EndsOver (EndsRequest request (R.Source.file reader.old)) result
        (R.seen reader.old) (R.seen reader.new) (W.seen writer.old) (W.seen writer.new) }
{
    match request {
        Request::Show(job, file) => {
            show_document(rt, host, progress, alloc, &job, file, reader, writer)
        }
        Request::Help(text) => show_text(alloc, writer, text.as_str()),
        Request::Version => show_version(alloc, writer),
        Request::Lacking(text) => Ending::BadCommandLine(text),
        Request::Bad(text) => Ending::BadCommandLine(text),
    }
}

// How the program ends with these words: they are `None` where one of them is no text.
fn end_of_words<T: Threads + Sync, P: PartProgress, S: AsStr, R: Source, W: CountedWrite>(
    rt: &T,
    host: &HostRuntime,
    progress: &mut P,
    words: Option<&[S]>,
    reader: &mut R,
    writer: &mut W,
) -> Ending
    ensures { EndsOver
        (Ends (R.Source.file reader.old) (option_map (λ all. map S.text all.now) words.entry))
        result (R.seen reader.old) (R.seen reader.new) (W.seen writer.old) (W.seen writer.new) }
{
    match request_of(host.alloc(), words) {
        Ok(request) => carry_out(rt, host, progress, host.alloc(), request, reader, writer),
        Err(_) => Ending::Failed(RunFault::Memory),
    }
}

// How the program ends with the words that the system hands over.
fn ending_of<T: Threads + Sync, P: PartProgress, R: Source, W: CountedWrite>(
    rt: &T,
    host: &HostRuntime,
    progress: &mut P,
    words: io::Result<Args>,
    reader: &mut R,
    writer: &mut W,
) -> Ending
    ensures { EndsOver (EndsWith (Ends (R.Source.file reader.old)) words) result
        (R.seen reader.old) (R.seen reader.new) (W.seen writer.old) (W.seen writer.new) }
{
    match given_words(host.alloc(), words) {
        Ok(given) => end_of_words(rt, host, progress, given.as_deref(), reader, writer),
        Err(_) => Ending::Failed(RunFault::Memory),
    }
}

/// The whole program: it shows what the words of the command line ask for, over standard input or
/// the file that they name, and standard output, and tells standard error why it didn't. The exit
/// status is 0 where all went well, 1 for a refused input, 2 for a bad command line, 3 where
/// memory or a device failed or the file can't be opened, and 141 where the reader of standard
/// output has gone.
///
/// The words are those of [`std::env::args`]. Where standard error takes nothing, the exit status
/// still tells.
pub fn run_program<T: Threads + Sync, P: PartProgress, R: Source, W: CountedWrite, E: CountedWrite>(
    rt: &T,
    host: &HostRuntime,
    progress: &mut P,
    words: io::Result<Args>,
    reader: &mut R,
    writer: &mut W,
    errors: &mut E,
) -> ExitCode
    ensures { EndsProcess (Ends (R.Source.file reader.old)) words (exit_status result)
        (R.seen reader.old) (R.seen reader.new) (W.seen writer.old) (W.seen writer.new)
        (E.seen errors.old) (E.seen errors.new) }
{
    let ending = ending_of(rt, host, progress, words, reader, writer);
    end_process(errors, &ending)
}
