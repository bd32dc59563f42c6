//! A reader that may be a terminal.
ghost use Rattle.std.specs.Prelude.{◌≡◌, false};
ghost use Rattle.std.specs.Io.{ReadsAtMost};
ghost use Rattle.std.specs.Io.KnownBytes.{ReadConsumes};
ghost use Rattle.program_io.specs.Device.{device};
ghost use Rattle.program_io.specs.Prompt.{Prompts};

use crate::device::Counted;
use crate::writing::write_text;
use std::io;
use std::io::{Read, Write};

/// What a terminal is told.
const PROMPT: &str = "Reading a JSON document from the terminal, to the end of input (Ctrl-D)\n";

/// A reader with what is told before the first read, where it is a terminal.
#[derive(Drop)]
pub struct Prompting<R, W> {
    pub(crate) device: R,
    errors: Counted<W>,
    is_due: bool,
}

impl<R, W> Prompting<R, W> {
    /// The reader, and where its first read is to be told of if it is a terminal.
    pub fn new(device: R, errors: W, is_terminal: bool) -> Self
        ensures device { result.device ≡ device }
        ensures errors { result.errors.device ≡ errors }
        ensures terminal { result.is_due ≡ is_terminal }
    {
        Prompting {
            device,
            errors: Counted::new(errors),
            is_due: is_terminal,
        }
    }
}

impl<R, W: Write> Prompting<R, W> {
    // Tells of the read that begins, where that is due.
    fn tell(&mut self)
        ensures device { self.new.device ≡ self.old.device }
        ensures printed { Prompts self.old.is_due
            (device (W.contents self.old.errors.device) self.old.errors.failures)
            (device (W.contents self.new.errors.device) self.new.errors.failures) }
        ensures once { self.new.is_due ≡ false }
    {
        if !self.is_due {
            return;
        }
        self.is_due = false;
        let _ = write_text(&mut self.errors, PROMPT.as_bytes());
    }
}

impl<R: Read, W: Write> Read for Prompting<R, W> {
    ghost remaining = { λ it. R.remaining it.device };

    fn read(&mut self, buf: &mut [u8]) -> io::Result<usize>
        ensures bound { ReadsAtMost result buf.new }
        ensures bytes { ReadConsumes (R.remaining self.old.device)
            (R.remaining self.new.device) result buf.new }
        ensures printed { Prompts self.old.is_due
            (device (W.contents self.old.errors.device) self.old.errors.failures)
            (device (W.contents self.new.errors.device) self.new.errors.failures) }
        ensures once { self.new.is_due ≡ false }
    {
        self.tell();
        self.device.read(buf)
    }
}
