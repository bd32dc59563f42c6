//! What is told of runs.
ghost use Rattle.std.specs.Prelude.{◌≡◌, IfOk};
ghost use Rattle.shown_runs.specs.Told.{told};

use crate::ask::{Ask, Making};
use crate::checks::check_printed;
use crate::comparisons::comparison_of;
use crate::pages::page_of;
use crate::parts::{Course, PartProgress};
use crate::pictures::picture_of;
use crate::reports::report_of;
use crate::shown::Shown;
use crate::traces::{document_printed, trace_printed};
use program_io::Output;
use smp_kernel::Meter;
use std::alloc::{AllocError, Global};

/// What is asked of runs that were made so. A trace, a document and a check are those of the last
/// run, and a comparison of one run is with itself.
pub fn told<P: PartProgress>(
    course: &mut Course<P>,
    alloc: Global,
    meter: &mut Meter,
    shown: &Shown,
    making: Making,
    ask: &Ask,
) -> Result<Output, AllocError>
    ensures { IfOk result (λ output. output ≡ told making ask.now shown.now) }
{
    match ask {
        Ask::Trace(selection) => { trace_printed(course, alloc, meter, shown.last(), selection) }
        Ask::Session => document_printed(alloc, shown.last()),
        Ask::Compare => {
            let text = comparison_of(course, alloc, shown)?;
            Ok(Output::fine(alloc, text.into_bytes()))
        }
        Ask::Timeline(extent) => picture_of(course, alloc, meter, shown, making, *extent),
        Ask::Report(form) => {
            let text = report_of(course, alloc, meter, shown, making.is_settled(), *form)?;
            Ok(Output::fine(alloc, text.into_bytes()))
        }
        Ask::Check(wanted) => {
            check_printed(course, alloc, meter, shown.last(), wanted.as_slice())
        }
        Ask::Page(extent) => page_of(course, alloc, meter, shown, making, *extent),
    }
}
