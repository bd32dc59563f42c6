//! The numbers of one run, or of two beside each other.
ghost use Rattle.std.specs.Prelude.{◌≡◌, IfOk, string_bytes};
ghost use Rattle.shown_runs.specs.Reports.{report_of};

use crate::parts::{Course, Part, PartProgress};
use crate::shown::Shown;
use session_reports::{Form, report_of_run, report_of_runs};
use smp_kernel::Meter;
use std::alloc::{AllocError, Global};

/// The report of the run, or of both runs. It tells whether they are settled ones.
pub(crate) fn report_of<P: PartProgress>(
    course: &mut Course<P>,
    alloc: Global,
    meter: &mut Meter,
    shown: &Shown,
    settled: bool,
    form: Form,
) -> Result<String, AllocError>
    ensures { IfOk result (λ text. string_bytes text ≡ report_of form settled shown.now) }
{
    course.begin(Part::Measuring);
    match shown {
        Shown::One(run) => report_of_run(alloc, meter, run, settled, form),
        Shown::Two(pair) => {
            report_of_runs(alloc, meter, pair.before(), pair.after(), settled, form)
        }
    }
}
