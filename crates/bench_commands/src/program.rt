//! The program, from the words of its command line to its end.
ghost use Rattle.std.specs.Prelude.{◌≡◌, map, option_map, true};
ghost use Rattle.std.specs.Process.{exit_status};
ghost use Rattle.program_io.specs.Endings.{EndsOver, EndsProcess, EndsWith};
ghost use Rattle.bench_commands.specs.Command.{can_run};
ghost use Rattle.bench_commands.specs.Program.{Ends, EndsRequest};

use crate::command::{Request, request_of};
use crate::execution::end_of_run;
use crate::gate::OpenGate;
use crate::recording::end_of_recording;
use program_io::{
    CountedRead, CountedWrite, Ending, RunFault, end_process, given_words, show_text,
};
use std::alloc::Global;
use std::convert::AsStr;
use std::env::Args;
use std::io;
use std::process::ExitCode;
use std::sync::Wait;
use std::thread::Threads;

// Does what is asked for. Only a run or a recording reads.
fn end_of_request<T: Threads + Wait + Sync, R: CountedRead, W: CountedWrite>(
    rt: &T,
    host: &HostRuntime,
    alloc: Global,
    request: Request,
    reader: &mut R,
    writer: &mut W,
) -> Ending
    requires { can_run request ≡ true }
    ensures { EndsOver (EndsRequest request) result (R.seen reader.old) (R.seen reader.new)
        (W.seen writer.old) (W.seen writer.new) }
{
    match request {
        Request::Run(mode) => end_of_run(rt, host, alloc, reader, writer, &mode),
        Request::Record => end_of_recording(rt, host, alloc, reader, writer, &OpenGate),
        Request::Help(text) => show_text(alloc, writer, text.as_str()),
        Request::Bad(text) => Ending::BadCommandLine(text),
    }
}

/// Does what the words of the command line ask for: they are `None` where one of them is no text.
/// Only a run or a recording reads, once the words are known to ask for it.
pub fn carry_out<T: Threads + Wait + Sync, S: AsStr, R: CountedRead, W: CountedWrite>(
    rt: &T,
    host: &HostRuntime,
    alloc: Global,
    words: Option<&[S]>,
    reader: &mut R,
    writer: &mut W,
) -> Ending
    ensures { EndsOver (Ends (option_map (λ all. map S.text all.now) words.entry)) result
        (R.seen reader.old) (R.seen reader.new) (W.seen writer.old) (W.seen writer.new) }
{
    match request_of(alloc, words) {
        Ok(request) => end_of_request(rt, host, alloc, request, reader, writer),
        Err(_) => Ending::Failed(RunFault::Memory),
    }
}

// How the program ends with the words that the system hands over.
fn ending_of<T: Threads + Wait + Sync, R: CountedRead, W: CountedWrite>(
    rt: &T,
    host: &HostRuntime,
    words: io::Result<Args>,
    reader: &mut R,
    writer: &mut W,
) -> Ending
    ensures { EndsOver (EndsWith Ends words) result (R.seen reader.old) (R.seen reader.new)
        (W.seen writer.old) (W.seen writer.new) }
{
    let alloc = host.alloc();
    match given_words(alloc, words) {
        Ok(given) => carry_out(rt, host, alloc, given.as_deref(), reader, writer),
        Err(_) => Ending::Failed(RunFault::Memory),
    }
}

/// The whole program: it does what the words of the command line ask for, over standard input and
/// output, and tells standard error why it didn't. The exit status is 0 where all went well, 1 for
/// a refused input, 2 for a bad command line, 3 where memory or a device failed, and 141 where the
/// reader of standard output has gone.
///
/// The words are those of [`std::env::args`]. Where standard error takes nothing, the exit status
/// still tells.
pub fn run_program<T: Threads + Wait + Sync, R: CountedRead, W: CountedWrite, E: CountedWrite>(
    rt: &T,
    host: &HostRuntime,
    words: io::Result<Args>,
    reader: &mut R,
    writer: &mut W,
    errors: &mut E,
) -> ExitCode
    ensures { EndsProcess Ends words (exit_status result) (R.seen reader.old) (R.seen reader.new)
        (W.seen writer.old) (W.seen writer.new) (E.seen errors.old) (E.seen errors.new) }
{
    let ending = ending_of(rt, host, words, reader, writer);
    end_process(errors, &ending)
}
