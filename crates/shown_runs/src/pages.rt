//! The page of runs, made of what else is told of them.
ghost use Rattle.std.specs.Prelude.{◌≡◌, ◌+◌, ◌≤◌, ◌^◌, ◌++◌, IfOk, OnOk, length, string_bytes};
ghost use Rattle.shown_runs.specs.Pages.{counts_text, page_of, page_shown, page_with, run_word, title_text};

use crate::ask::Making;
use crate::comparisons::comparison_at;
use crate::parts::{Course, Part, PartProgress};
use crate::pictures::picture_of;
use crate::reports::report_of;
use crate::shown::Shown;
use bench_types::CheckedSession;
use program_io::{Output, OutputStatus};
use run_pages::{Parts, page};
use run_pictures::Extent;
use run_views::trace_by_places;
use session_reports::Form;
use smp_kernel::Meter;
use std::alloc::{AllocError, Global};

fn run_word(making: Making) -> &'static str
    ensures { result.now ≡ run_word making }
{
    match making {
        Making::AsWritten => "Run",
        Making::Settled => "Settled run",
        Making::Simulated => "Simulated run",
        Making::Kept => "Run that keeps work",
    }
}

fn push_counts(text: &mut String, steps: usize, cores: u32, tasks: usize) -> Result<(), AllocError>
    ensures { OnOk result
        (string_bytes text.new ≡ string_bytes text.old ++ counts_text steps cores tasks) }
{
    write!(text, " of {steps} steps: cores {cores}, tasks {tasks}")
}

// The first line of a page.
fn title_of(alloc: Global, making: Making, run: &CheckedSession) -> Result<String, AllocError>
    ensures { IfOk result (λ text. string_bytes text ≡ title_text making run.now) }
{
    let mut text = String::from_str(alloc, run_word(making))?;
    let header = run.header();
    let tasks = header.tasks.as_slice().len();
    push_counts(&mut text, run.steps().len(), header.config.cores, tasks)?;
    Ok(text)
}

// What a page shows beside the picture.
fn parts_of<P: PartProgress>(
    course: &mut Course<P>,
    alloc: Global,
    meter: &mut Meter,
    shown: &Shown,
    making: Making,
    extent: Extent,
    picture: Vec<u8>,
) -> Result<Parts, AllocError>
    ensures parts { IfOk result
        (λ parts. parts ≡ page_shown making extent shown.now picture.items) }
    ensures few { IfOk result (λ parts. parts.first + length parts.places ≤ 2 ^ 32) }
{
    let last = shown.last().session();
    let comparison = comparison_at(course, alloc, shown, extent.places)?;
    let settled = making.is_settled();
    let report = report_of(course, alloc, meter, shown, settled, Form::Html)?;
    course.begin(Part::Tracing);
    Ok(Parts {
        title: title_of(alloc, making, last)?,
        picture,
        first: extent.places.from,
        places: trace_by_places(alloc, meter, extent.places, last)?,
        comparison,
        report: report.into_bytes(),
    })
}

// The page with this picture, unless that is refused.
fn page_with<P: PartProgress>(
    course: &mut Course<P>,
    alloc: Global,
    meter: &mut Meter,
    shown: &Shown,
    making: Making,
    extent: Extent,
    picture: Output,
) -> Result<Output, AllocError>
    ensures { IfOk result (λ printed. printed
        ≡ page_with picture.status making extent shown.now picture) }
{
    match picture.status {
        OutputStatus::Fine => {
            let Output { text, note, .. } = picture;
            let parts = parts_of(course, alloc, meter, shown, making, extent, text)?;
            Ok(Output {
                status: OutputStatus::Fine,
                text: page(alloc, &parts)?,
                note,
            })
        }
        OutputStatus::Failed | OutputStatus::Unknown => Ok(picture),
    }
}

/// The page of the run, or of both runs, at these places.
pub(crate) fn page_of<P: PartProgress>(
    course: &mut Course<P>,
    alloc: Global,
    meter: &mut Meter,
    shown: &Shown,
    making: Making,
    extent: Extent,
) -> Result<Output, AllocError>
    ensures { IfOk result (λ printed. printed ≡ page_of making extent shown.now) }
{
    let picture = picture_of(course, alloc, meter, shown, making, extent)?;
    page_with(course, alloc, meter, shown, making, extent, picture)
}
