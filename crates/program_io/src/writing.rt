//! Writes of whole texts, and why one was cut off.
ghost use Rattle.std.specs.Prelude.{◌≡◌, ℕ, take, OnOk, OnErr, is_ok};
ghost use Rattle.std.specs.Io.KnownBytes.{Appends};
ghost use Rattle.std.specs.IoError.{error_kind};
ghost use Rattle.program_io.specs.Device.{failures_after, fault_left, fault_of_kind, AppendsPrefix};

use crate::device::CountedWrite;
use std::io;
use std::io::ErrorKind;

/// Why not the whole text was written.
#[derive(Clone, Copy, Debug, PartialEq, Eq)]
pub enum WriteFault {
    /// The reader of what is written has gone.
    Gone,
    /// A write failed for another reason, or took no byte.
    Failed,
}

// By the error of a write.
pub(crate) fn fault_of(error: &io::Error) -> WriteFault
    ensures { result ≡ fault_of_kind (error_kind error.now) }
{
    match error.kind() {
        ErrorKind::BrokenPipe => WriteFault::Gone,
        _ => WriteFault::Failed,
    }
}

/// Writes the whole text, or a prefix of it where a write fails. The fault is that of the write
/// that failed: the reader has gone just where its error is a broken pipe.
pub fn write_text<W: CountedWrite>(writer: &mut W, text: &[u8]) -> Result<(), WriteFault>
    ensures whole { OnOk result
        (Appends (W.seen writer.old).bytes (W.seen writer.new).bytes text.now) }
    ensures prefix { OnErr result
        (AppendsPrefix (W.seen writer.old).bytes (W.seen writer.new).bytes text.now) }
    ensures failures { (W.seen writer.new).failures
        ≡ failures_after (is_ok result) (W.seen writer.old).failures }
    ensures fault { (W.seen writer.new).fault ≡ fault_left result (W.seen writer.old).fault }
{
    let mut written = 0;
    while written < text.len() {
        match writer.write_counted(&text[written..]) {
            Ok(count) => {
                if count == 0 {
                    return Err(WriteFault::Failed);
                }
                written += count;
            }
            Err(error) => return Err(fault_of(&error)),
        }
    }
    Ok(())
}
