//! What may be asked of runs.
ghost use Rattle.std.specs.Prelude.{◌≡◌, ◌≤◌};
ghost use Rattle.shown_runs.specs.Parts.{ask_parts, one_if};
ghost use Rattle.shown_runs.specs.Runs.{is_settled};

use bench_types::Items;
use run_pictures::Extent;
use run_views::Places;
use session_reports::{Form, Wanted};
use std::marker::Model;

/// Which part of a trace is asked for.
#[derive(Drop)]
pub struct Selection {
    pub places: Places,
    /// Names of tasks.
    pub tasks: Vec<String>,
    /// Numbers of cores.
    pub cores: Vec<u32>,
}

impl Model for Selection {
    ghost use Rattle.std.specs.Prelude.{map, string_bytes};
    ghost use Rattle.shown_runs.specs.Selected.{Selected};

    ghost Value = { Selected };

    ghost view = { λ it.
        record {
          places = it.places;
          tasks = map string_bytes it.tasks.items;
          cores = it.cores.items;
        } };
}

/// How runs were made.
#[derive(Clone, Copy, Debug, PartialEq, Eq)]
pub enum Making {
    /// Of the steps of a session as they stand.
    AsWritten,
    /// Of the calls, ticks and interrupts of a session, as a target makes them.
    Settled,
    /// Of a workload.
    Simulated,
    /// Of a session with edits, so that tasks work for their calls as long as before.
    Kept,
}

impl Making {
    /// Whether the runs are settled.
    pub fn is_settled(self) -> bool
        ensures { result ≡ is_settled self }
    {
        match self {
            // Settling a run that keeps work changes nothing.
            Making::Settled | Making::Kept => true,
            Making::AsWritten | Making::Simulated => false,
        }
    }
}

/// What is asked of runs.
#[derive(Drop)]
pub enum Ask {
    /// The trace of the last run: this part of it.
    Trace(Selection),
    /// The last run as a document.
    Session,
    /// The run before the edits beside the run after them.
    Compare,
    /// The picture of the runs.
    Timeline(Extent),
    /// The numbers of the runs.
    Report(Form),
    /// Whether the last run keeps limits.
    Check(Items<Wanted>),
    /// A page with the picture, the trace, the comparison and the report.
    Page(Extent),
}

// The number of it where it is so.
fn one_if(is_so: bool) -> usize
    ensures one { result ≡ one_if is_so }
    ensures few { result ≤ 1 }
{
    if is_so { 1 } else { 0 }
}

impl Ask {
    /// How many parts the answer has, of two runs or of one.
    pub fn parts(&self, is_two: bool) -> usize
        ensures parts { result ≡ ask_parts self.now is_two }
        ensures few { result ≤ 4 }
    {
        match self {
            Ask::Session => 0,
            Ask::Trace(_) | Ask::Compare | Ask::Timeline(_) | Ask::Report(_) | Ask::Check(_) => 1,
            Ask::Page(_) => 3 + one_if(is_two),
        }
    }
}
