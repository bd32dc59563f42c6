//! How a program ends.
ghost use Rattle.std.specs.Prelude.{◌≡◌, IfOk, map, option_map, string_bytes, true};
ghost use Rattle.std.specs.Process.{exit_status};
ghost use Rattle.program_io.specs.Device.{WritesText, failures_after, later_fault};
ghost use Rattle.program_io.specs.Endings.{AreGiven, EndsWriting, Shows, all_reads_well, all_writes_well, exit_code, fault_of_end, message, unread, unwritten};

use crate::device::CountedWrite;
use crate::input::InputFault;
use crate::output::{Output, OutputStatus};
use crate::writing::{WriteFault, write_text};
use std::alloc::{AllocError, Global};
use std::env::Args;
use std::io;
use std::io::ErrorKind;
use std::process::ExitCode;
use thiserror::Error;

/// What kept a run from its end.
#[derive(Clone, Copy, Debug, PartialEq, Eq, Error)]
pub enum RunFault {
    /// Memory was refused. Nothing was written.
    #[error("out of memory")]
    Memory,
    /// A read failed. Nothing was written.
    #[error("the input can't be read")]
    Read,
    /// A write failed or took no byte. Some first bytes of the output went out, or none.
    #[error("the output can't be written")]
    Write,
}

/// How a program ends.
#[derive(Debug, Drop)]
pub enum Ending {
    /// The whole output was written, with this status. The note is told beside it.
    Written(OutputStatus, Vec<u8>),
    /// The command line asks for nothing that the program does, and the text says why.
    BadCommandLine(String),
    /// The file that the command line names can't be opened, as this line says.
    NotOpened(String),
    /// The reader of the output has gone. Some first bytes of the output went out, or none.
    Gone,
    /// Memory was refused, or a read or a write failed.
    Failed(RunFault),
}

impl Ending {
    /// The exit status of the process. Where the reader of the output has gone it is that of a
    /// filter which the system ends for it: 128 and the number of the signal.
    pub fn code(&self) -> u8
        ensures { result ≡ exit_code self.now }
    {
        match self {
            Ending::Written(status, _) => status.code(),
            Ending::BadCommandLine(_) => 2,
            Ending::NotOpened(_) | Ending::Failed(_) => 3,
            Ending::Gone => 141,
        }
    }

    /// What goes to standard error.
    pub fn message(&self) -> &[u8]
        ensures { result.now ≡ message self.now }
    {
        match self {
            Ending::Written(_, note) => note.as_slice(),
            Ending::BadCommandLine(text) => text.as_bytes(),
            Ending::NotOpened(line) => line.as_bytes(),
            Ending::Gone => b"".as_slice(),
            Ending::Failed(RunFault::Memory) => b"fault memory\n".as_slice(),
            Ending::Failed(RunFault::Read) => b"fault read\n".as_slice(),
            Ending::Failed(RunFault::Write) => b"fault write\n".as_slice(),
        }
    }

    /// The input was not read.
    pub fn unread(fault: InputFault) -> Ending
        ensures { result ≡ unread fault }
    {
        match fault {
            InputFault::Memory => Ending::Failed(RunFault::Memory),
            InputFault::Read => Ending::Failed(RunFault::Read),
        }
    }
}

fn unwritten(fault: WriteFault) -> Ending
    ensures { result ≡ unwritten fault }
{
    match fault {
        WriteFault::Gone => Ending::Gone,
        WriteFault::Failed => Ending::Failed(RunFault::Write),
    }
}

/// Writes an output, if memory was not refused for it.
pub fn write_output<W: CountedWrite>(writer: &mut W, output: Result<Output, AllocError>) -> Ending
    ensures bytes { EndsWriting output result (W.seen writer.old).bytes
        (W.seen writer.new).bytes }
    ensures reads { all_reads_well result ≡ true }
    ensures writes { (W.seen writer.new).failures
        ≡ failures_after (all_writes_well result) (W.seen writer.old).failures }
    ensures fault { (W.seen writer.new).fault
        ≡ later_fault (fault_of_end result) (W.seen writer.old).fault }
{
    let Ok(output) = output else {
        return Ending::Failed(RunFault::Memory);
    };
    match write_text(writer, output.text.as_slice()) {
        Ok(()) => Ending::Written(output.status, output.note),
        Err(fault) => unwritten(fault),
    }
}

/// Shows a text of help, or of the version.
pub fn show_text<W: CountedWrite>(alloc: Global, writer: &mut W, text: &str) -> Ending
    ensures bytes { Shows text.now result (W.seen writer.old).bytes
        (W.seen writer.new).bytes }
    ensures reads { all_reads_well result ≡ true }
    ensures writes { (W.seen writer.new).failures
        ≡ failures_after (all_writes_well result) (W.seen writer.old).failures }
    ensures fault { (W.seen writer.new).fault
        ≡ later_fault (fault_of_end result) (W.seen writer.old).fault }
{
    match write_text(writer, text.as_bytes()) {
        Ok(()) => Ending::Written(OutputStatus::Fine, Vec::new(alloc)),
        Err(fault) => unwritten(fault),
    }
}

/// The words of the process, which are those of [`std::env::args`], or `None` where one of them is
/// no text.
pub fn given_words(
    alloc: Global,
    words: io::Result<Args>,
) -> Result<Option<Vec<String>>, AllocError>
    ensures { IfOk result
        (λ given. AreGiven words (option_map (λ all. map string_bytes all.items) given)) }
{
    match words {
        Ok(words) => Ok(Some(words.collect::<Vec<String>>(alloc)?)),
        Err(error) if error.kind() == ErrorKind::InvalidData => Ok(None),
        Err(_) => Err(AllocError),
    }
}

/// Tells standard error how the program ends. Where that takes nothing, the exit status still
/// tells.
pub fn end_process<E: CountedWrite>(errors: &mut E, ending: &Ending) -> ExitCode
    ensures status { exit_status result ≡ exit_code ending.now }
    ensures tells { WritesText (message ending.now) (E.seen errors.old) (E.seen errors.new) }
{
    let _ = write_text(errors, ending.message());
    ExitCode::from(ending.code())
}
