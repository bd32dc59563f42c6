//! What a program tells of an input.
ghost use Rattle.std.specs.Prelude.{◌≡◌};
ghost use Rattle.program_io.specs.Outputs.{fine, noted, refusal, status_code};

use std::alloc::Global;
use std::marker::Model;

/// How it went.
#[derive(Clone, Copy, Debug, PartialEq, Eq)]
pub enum OutputStatus {
    /// What was asked for was told.
    Fine,
    /// The input is refused, or a limit is not kept.
    Failed,
    /// There is no number of a name that was asked for.
    Unknown,
}

impl OutputStatus {
    /// The exit status of the process.
    pub fn code(self) -> u8
        ensures { result ≡ status_code self }
    {
        match self {
            OutputStatus::Fine => 0,
            OutputStatus::Failed => 1,
            OutputStatus::Unknown => 2,
        }
    }
}

/// What standard output is told, and beside it standard error, both in bytes.
#[derive(Drop)]
pub struct Output {
    pub status: OutputStatus,
    pub text: Vec<u8>,
    pub note: Vec<u8>,
}

impl Model for Output {
    ghost use Rattle.program_io.specs.Outputs.{Printed};

    ghost Value = { Printed };

    ghost view = { λ it.
        record { status = it.status; text = it.text.items; note = it.note.items } };
}

impl Output {
    /// What was asked for, and nothing beside it.
    pub fn fine(alloc: Global, text: Vec<u8>) -> Output
        ensures { result ≡ fine text.items }
    {
        Output {
            status: OutputStatus::Fine,
            text,
            note: Vec::new(alloc),
        }
    }

    /// A refusal of which standard output is told nothing.
    pub fn refusal(alloc: Global, lines: Vec<u8>) -> Output
        ensures { result ≡ refusal lines.items }
    {
        Output {
            status: OutputStatus::Failed,
            text: Vec::new(alloc),
            note: lines,
        }
    }

    /// The same with a note beside it, unless it is a refusal.
    pub fn noted(self, note: Vec<u8>) -> Output
        ensures { result ≡ noted self note.items }
    {
        match self.status {
            OutputStatus::Fine => Output {
                status: OutputStatus::Fine,
                text: self.text,
                note,
            },
            OutputStatus::Failed | OutputStatus::Unknown => self,
        }
    }
}
