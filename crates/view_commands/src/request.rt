//! What the program may be asked for.
use kept_runs::CallOrder;
use session_advice::Question;
use shown_runs::Ask;
use std::marker::Model;

/// What is to be told of a document.
#[derive(Drop)]
pub enum Command {
    /// This of its runs.
    Show(Ask),
    /// Which changes make a number of its run lower.
    Advise(Question),
}

/// Which documents are read.
#[derive(Clone, Copy, Debug, PartialEq, Eq)]
pub enum Documents {
    /// Sessions, sessions with edits, and workloads.
    All,
    /// Workloads alone; each goes on for so many ticks, or for as many as it says.
    Workloads(Option<u32>),
}

impl Documents {
    ghost use Rattle.std.specs.Prelude.{◌≡◌};
    ghost use Rattle.view_commands.specs.Ticks.{ticks_of};

    /// For how many ticks workloads go on, if not for as many as they say.
    pub fn ticks(self) -> Option<u32>
        ensures { result ≡ ticks_of self }
    {
        match self {
            Documents::All => None,
            Documents::Workloads(ticks) => ticks,
        }
    }
}

/// How the runs of sessions are made.
#[derive(Clone, Copy, Debug, PartialEq, Eq)]
pub enum SessionRuns {
    /// Their steps are made as they stand.
    AsWritten,
    /// They are settled.
    Settled,
    /// They keep the work of tasks. Of several calls that could come at one time this one comes
    /// first.
    Kept(CallOrder),
}

/// What is to be told of a document, and how.
#[derive(Drop)]
pub struct Job {
    pub command: Command,
    /// How the runs of sessions are made. Those of workloads are settled ones anyhow.
    pub sessions: SessionRuns,
    pub documents: Documents,
    /// Whether the exit status tells that an edit is refused, or a step of the run.
    pub strict: bool,
}

/// The name of a file.
#[derive(Drop)]
pub struct FileName {
    pub text: String,
}

impl Model for FileName {
    ghost use Rattle.std.specs.Prelude.{ℕ, List, string_bytes};

    ghost Value = { List ℕ };

    ghost view = { λ it. string_bytes it.text };
}

/// What a command line asks for.
#[derive(Drop)]
pub enum Request {
    /// A view of the document in the file of this name, or on standard input.
    Show(Job, Option<FileName>),
    /// This help.
    Help(String),
    /// The version.
    Version,
    /// A command without what it needs; the text says what.
    Lacking(String),
    /// Nothing that the program does; the text says why, and begins with `error: `.
    Bad(String),
}
