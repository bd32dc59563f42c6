//! The figures that numbers of a run are told by.
ghost use Rattle.std.specs.Prelude.{◌≡◌, ◌++◌, ◌∷◌, [], IfOk, OnOk, flat_map, if◌then◌else◌};
ghost use Rattle.report_figures.specs.Figures.{figures_in, has_longest, has_total, place_in, stretch_in, total_in};

use run_numbers::{JobNumber, Measured, Reading, Subject};
use std::alloc::{AllocError, Global};

/// Which number of a subject is meant.
#[derive(Clone, Copy, Debug, PartialEq, Eq)]
pub enum Part {
    /// All units of time, steps or calls, or the greatest priority or number of messages.
    Total,
    /// The most units of time in a row.
    Longest,
}

/// One number of a run.
#[derive(Clone, Copy, Debug, PartialEq, Eq)]
pub struct Figure {
    pub subject: Subject,
    pub part: Part,
    pub value: u64,
    /// The place where the longest stretch begins, where there is one.
    pub from: Option<u32>,
}

/// The figures of what was measured, in its order. A condition has two of them, its total and its
/// longest stretch, and so have the answers of jobs. Waits for a core and periods have the longest
/// alone. Each other subject has its total.
pub fn figures_of(alloc: Global, measured: &[Measured]) -> Result<Vec<Figure>, AllocError>
    ensures { IfOk result (λ figures. figures.items ≡ flat_map figures_in measured.now) }
{
    let mut figures = Vec::new(alloc);
    for one in measured {
        push_figures(&mut figures, *one)?;
    }
    Ok(figures)
}

fn push_figures(figures: &mut Vec<Figure>, measured: Measured) -> Result<(), AllocError>
    ensures { OnOk result (figures.new.items ≡ figures.old.items ++ figures_in measured) }
{
    if has_total(measured.subject) {
        figures.push(total_in(measured))?;
    }
    push_longest(figures, measured)
}

fn push_longest(figures: &mut Vec<Figure>, measured: Measured) -> Result<(), AllocError>
    ensures { OnOk result
        (figures.new.items
        ≡ figures.old.items
        ++ (if has_longest measured.subject then stretch_in measured ∷ [] else [])) }
{
    if has_longest(measured.subject) {
        figures.push(stretch_in(measured))?;
    }
    Ok(())
}

// Whether the subject has a longest stretch or time.
fn has_longest(subject: Subject) -> bool
    ensures { result ≡ has_longest subject }
{
    match subject {
        Subject::Time(_) => true,
        Subject::Job { number, .. } => matches!(
            number,
            JobNumber::Response | JobNumber::Latency | JobNumber::Period
        ),
        _ => false,
    }
}

// Whether it is told by more than that.
fn has_total(subject: Subject) -> bool
    ensures { result ≡ has_total subject }
{
    match subject {
        Subject::Job { number, .. } => !matches!(number, JobNumber::Latency | JobNumber::Period),
        _ => true,
    }
}

fn total_in(measured: Measured) -> Figure
    ensures { result ≡ total_in measured }
{
    Figure {
        subject: measured.subject,
        part: Part::Total,
        value: measured.reading.total,
        from: place_in(measured.subject, measured.reading),
    }
}

fn stretch_in(measured: Measured) -> Figure
    ensures { result ≡ stretch_in measured }
{
    Figure {
        subject: measured.subject,
        part: Part::Longest,
        value: measured.reading.longest,
        from: place_in(measured.subject, measured.reading),
    }
}

fn place_in(subject: Subject, reading: Reading) -> Option<u32>
    ensures { result ≡ place_in subject reading }
{
    if has_longest(subject) && reading.longest != 0 {
        Some(reading.from)
    } else {
        None
    }
}
