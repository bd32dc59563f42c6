//! The figures of a run.
ghost use Rattle.std.specs.Prelude.{◌≡◌, IfOk};
ghost use Rattle.session_reports.specs.Figures.{run_figures, run_told};

use report_figures::{Figure, figures_of, subjects_of};
use report_pages::RunFigures;
use run_numbers::{measure, measure_all};
use session_runs::Run;
use smp_kernel::Meter;
use std::alloc::{AllocError, Global};

/// The figures of the run.
pub fn figures_of_run(
    alloc: Global,
    meter: &mut Meter,
    run: &Run,
) -> Result<Vec<Figure>, AllocError>
    ensures { IfOk result (λ figures. figures.items ≡ run_figures run.now) }
{
    let (session, left) = (run.session(), run.left());
    let subjects = subjects_of(alloc, session.header())?;
    let measured = measure(alloc, meter, session, left, subjects.as_slice())?;
    figures_of(alloc, measured.as_slice())
}

/// The figures of the run, and the responses of its tasks.
pub(crate) fn told_of_run(
    alloc: Global,
    meter: &mut Meter,
    run: &Run,
) -> Result<RunFigures, AllocError>
    ensures { IfOk result (λ told. told ≡ run_told run.now) }
{
    let (session, left) = (run.session(), run.left());
    let subjects = subjects_of(alloc, session.header())?;
    let numbers = measure_all(alloc, meter, session, left, subjects.as_slice())?;
    let figures = figures_of(alloc, numbers.measured.as_slice())?;
    Ok(RunFigures {
        figures,
        responses: numbers.responses,
    })
}
