//! The input, read to its end.
ghost use Rattle.std.specs.Prelude.{◌≡◌, ◌+◌, ◌<◌, ◌≤◌, [], length, IfOk, OnOk};
ghost use Rattle.bench_types.specs.Limits.{max_input};
ghost use Rattle.program_io.specs.Device.{failures_after, reads_on, ReadsInput, ReadsOn, ReadsSome};

use crate::device::CountedRead;
use bench_types::MAX_INPUT;
use std::alloc::{AllocError, Global};

// How many bytes are read at once.
const CHUNK: usize = 65_536;

/// Why the input was not read.
#[derive(Clone, Copy, Debug, PartialEq, Eq)]
pub enum InputFault {
    /// Memory was refused.
    Memory,
    /// A read failed.
    Read,
}

impl From<AllocError> for InputFault {
    ghost use Rattle.std.specs.Prelude.{◌≡◌};
    ghost use Rattle.program_io.specs.declared.input.InputFault.TheVariants.{Memory};

    ghost from_gives = { λ _ stop. stop ≡ Memory };

    fn from(_refused: AllocError) -> InputFault {
        InputFault::Memory
    }
}

// Room for so many bytes.
fn room_for(alloc: Global, count: usize) -> Result<Vec<u8>, AllocError>
    ensures { IfOk result (λ chunk. length chunk.items ≡ count) }
{
    vec![in alloc; 0u8; count]
}

// One read of at most `most` bytes after what was read before. It gives how many bytes came, 0 at
// the end.
fn read_on<R: CountedRead>(
    reader: &mut R,
    chunk: &mut [u8],
    most: usize,
    input: &mut Vec<u8>,
) -> Result<usize, InputFault>
    requires wanted { 0 < most }
    requires room { most ≤ length chunk.old }
    ensures read { IfOk result
        (ReadsOn (R.seen reader.old).bytes
        (R.seen reader.new).bytes most input.old.items input.new.items) }
    ensures some { ReadsSome (R.seen reader.old).bytes (R.seen reader.new).bytes most }
    ensures failures { (R.seen reader.new).failures
        ≡ failures_after (reads_on result) (R.seen reader.old).failures }
{
    let part = &mut chunk[..most];
    match reader.read_counted(part) {
        Ok(count) => {
            input.extend_from_slice(&part[..count])?;
            Ok(count)
        }
        Err(_) => Err(InputFault::Read),
    }
}

// Reads through the chunk to the end of the input, or one byte past the most that is a session.
fn read_all<R: CountedRead>(
    reader: &mut R,
    chunk: &mut [u8],
    input: &mut Vec<u8>,
) -> Result<(), InputFault>
    requires room { length chunk.old ≡ CHUNK }
    requires empty { input.old.items ≡ [] }
    ensures input { OnOk result
        (ReadsInput (R.seen reader.old).bytes (R.seen reader.new).bytes input.new.items) }
    ensures some { ReadsSome (R.seen reader.old).bytes (R.seen reader.new).bytes
        (max_input + 1) }
    ensures failures { (R.seen reader.new).failures
        ≡ failures_after (reads_on result) (R.seen reader.old).failures }
{
    while input.len() <= MAX_INPUT {
        let most = CHUNK.min(MAX_INPUT + 1 - input.len());
        if read_on(reader, chunk, most, input)? == 0 {
            return Ok(());
        }
    }
    Ok(())
}

/// Reads to the end of the input, or one byte past the most that is a session.
pub fn read_input<R: CountedRead>(alloc: Global, reader: &mut R) -> Result<Vec<u8>, InputFault>
    ensures input { IfOk result
        (λ input. ReadsInput (R.seen reader.old).bytes
        (R.seen reader.new).bytes input.items) }
    ensures some { ReadsSome (R.seen reader.old).bytes (R.seen reader.new).bytes
        (max_input + 1) }
    ensures failures { (R.seen reader.new).failures
        ≡ failures_after (reads_on result) (R.seen reader.old).failures }
{
    let mut chunk = room_for(alloc, CHUNK)?;
    let mut input = Vec::new(alloc);
    read_all(reader, &mut chunk, &mut input)?;
    Ok(input)
}
