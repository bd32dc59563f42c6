//! How far long work is, told on a terminal.
ghost use Rattle.std.specs.Prelude.{◌≡◌, ◌≤◌, length};
ghost use Rattle.program_io.specs.Device.{device};
ghost use Rattle.view_commands.specs.Progress.{part_text, part_word, progress_text, BeginsPart, TellsProgress, TellsText};

use arrayvec::ArrayString;
use itoa::Buffer;
use program_io::{Counted, write_text};
use ranked_changes::Progress;
use shown_runs::{Part, PartProgress};
use std::io::{IsTerminal, Write};

/// What tells how far long work is, where that is a terminal.
#[derive(Drop)]
pub struct Telling<W> {
    errors: Counted<W>,
    is_terminal: bool,
}

impl<W> Telling<W> {
    /// Tells this device, if it is a terminal.
    pub fn new(errors: W, is_terminal: bool) -> Self
        ensures errors { result.errors.device ≡ errors }
        ensures terminal { result.is_terminal ≡ is_terminal }
    {
        Telling {
            errors: Counted::new(errors),
            is_terminal,
        }
    }
}

impl<W: IsTerminal> Telling<W> {
    /// Tells this device, if it is a terminal, which it says itself.
    pub fn of(errors: W) -> Self
        ensures { result.errors.device ≡ errors }
    {
        let is_terminal = errors.is_terminal();
        Telling::new(errors, is_terminal)
    }
}

// Room for the text of any two numbers, which takes no memory.
const ROOM: usize = 64;

// So much is done of all; the line ends with the work.
fn progress_text(done: usize, all: usize) -> ArrayString<ROOM>
    ensures { result.bytes ≡ progress_text done all }
{
    let (mut done_text, mut all_text) = (Buffer::new(), Buffer::new());
    let mut text = ArrayString::new();
    text.push_str("\r");
    text.push_str(done_text.format(done));
    text.push_str(" of ");
    text.push_str(all_text.format(all));
    text.push_str(" tried");
    if done == all {
        text.push_str("\n");
    }
    text
}

fn part_word(part: Part) -> &'static str
    ensures word { result.now ≡ part_word part }
    ensures short { length result.now ≤ 10 }
{
    match part {
        Part::Settling => "settling",
        Part::Simulating => "simulating",
        Part::Drawing => "drawing",
        Part::Tracing => "tracing",
        Part::Comparing => "comparing",
        Part::Measuring => "measuring",
        Part::Refusals => "refusals",
    }
}

// The part that begins, after its number and how many there are.
fn part_text(part: Part, number: usize, all: usize) -> ArrayString<ROOM>
    ensures { result.bytes ≡ part_text part number all }
{
    let (mut number_text, mut all_text) = (Buffer::new(), Buffer::new());
    let mut text = ArrayString::new();
    text.push_str("part ");
    text.push_str(number_text.format(number));
    text.push_str(" of ");
    text.push_str(all_text.format(all));
    text.push_str(": ");
    text.push_str(part_word(part));
    text.push_str("\n");
    text
}

impl<W: Write> Telling<W> {
    // It stays the same device. A terminal is given the text, and another device nothing.
    fn tell_text(&mut self, text: &[u8])
        ensures same { self.new.is_terminal ≡ self.old.is_terminal }
        ensures told { TellsText self.old.is_terminal text.now
            (device (W.contents self.old.errors.device) self.old.errors.failures)
            (device (W.contents self.new.errors.device) self.new.errors.failures) }
    {
        if self.is_terminal {
            let _ = write_text(&mut self.errors, text);
        }
    }
}

impl<W: Write> Progress for Telling<W> {
    // It stays the same device, and is told how much is done.
    ghost tells = { λ old done all new.
        (new.is_terminal ≡ old.is_terminal)
        × TellsProgress old.is_terminal done all
        (device (W.contents old.errors.device) old.errors.failures)
        (device (W.contents new.errors.device) new.errors.failures) };

    fn tell(&mut self, done: usize, all: usize) {
        self.tell_text(progress_text(done, all).as_str().as_bytes());
    }
}

impl<W: Write> PartProgress for Telling<W> {
    // It stays the same device, and is told which part begins.
    ghost begins = { λ old part number all new.
        (new.is_terminal ≡ old.is_terminal)
        × BeginsPart old.is_terminal part number all
        (device (W.contents old.errors.device) old.errors.failures)
        (device (W.contents new.errors.device) new.errors.failures) };

    fn begin(&mut self, part: Part, number: usize, all: usize) {
        self.tell_text(part_text(part, number, all).as_str().as_bytes());
    }
}
