//! What is told of an input.
ghost use Rattle.std.specs.Prelude.{Ok};
ghost use Rattle.std.specs.Fn.{FnOnceReturnsAt};
ghost use Rattle.program_io.specs.Endings.{EndsOver, EndsTelling};

use crate::device::{CountedRead, CountedWrite};
use crate::ending::{Ending, write_output};
use crate::input::read_input;
use crate::output::Output;
use std::alloc::{AllocError, Global};

/// Reads an input to its end, or one byte past the most that a session is, and then writes what
/// `tell` tells of it.
pub fn tell_of_input<R, W, F>(alloc: Global, reader: &mut R, writer: &mut W, tell: F) -> Ending
where
    R: CountedRead,
    W: CountedWrite,
    F: FnOnce(&[u8]) -> Result<Output, AllocError>,
    requires { F.IsAlwaysCallable tell }
    ensures { EndsOver
        (EndsTelling (λ input printed. FnOnceReturnsAt F.FnOnce tell input (Ok printed))) result
        (R.seen reader.old) (R.seen reader.new) (W.seen writer.old) (W.seen writer.new) }
{
    match read_input(alloc, reader) {
        Ok(input) => write_output(writer, tell(&input)),
        Err(fault) => Ending::unread(fault),
    }
}
