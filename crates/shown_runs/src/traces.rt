//! The trace of a run, the run as a document, and the calls that were not made in it.
ghost use Rattle.std.specs.Prelude.{◌≡◌, ◌<◌, [], IfOk, length, map, slice_index_or, string_bytes};
ghost use Rattle.shown_runs.specs.Traces.{document_of, note_of, refused_core, refused_task, trace_of, trace_output};
ghost use Rattle.program_io.specs.Outputs.{fine, noted};

use crate::ask::Selection;
use crate::interest::{interest_of, unknown_core, unknown_task};
use crate::parts::{Course, Part, PartProgress};
use bench_types::CheckedSession;
use program_io::Output;
use run_views::trace;
use session_runs::Run;
use session_write::write_session;
use settling::push_left;
use smp_kernel::Meter;
use std::alloc::{AllocError, Global};

// The part of the trace of a session.
fn trace_of(
    alloc: Global,
    meter: &mut Meter,
    session: &CheckedSession,
    selection: &Selection,
) -> Result<Vec<u8>, AllocError>
    ensures { IfOk result (λ text. text.items ≡ trace_of selection.now session.now) }
{
    let interest = interest_of(alloc, session.header(), selection)?;
    let text = trace(alloc, meter, selection.places, &interest, session)?;
    Ok(text.into_bytes())
}

fn refused_task(alloc: Global, name: &str) -> Result<Output, AllocError>
    ensures { IfOk result (λ shown. shown ≡ refused_task name.now) }
{
    let text = format!(in alloc; "refused task {name}\n")?;
    Ok(Output::refusal(alloc, text.into_bytes()))
}

// The name that stands there is no task's.
fn refused_name(alloc: Global, names: &[String], index: usize) -> Result<Output, AllocError>
    requires { index < length names.now }
    ensures { IfOk result
        (λ shown. shown
        ≡ refused_task (slice_index_or (map string_bytes names.now) index [])) }
{
    refused_task(alloc, names[index].as_str())
}

fn refused_core(alloc: Global, core: u32) -> Result<Output, AllocError>
    ensures { IfOk result (λ shown. shown ≡ refused_core core) }
{
    let text = format!(in alloc; "refused core {core}\n")?;
    Ok(Output::refusal(alloc, text.into_bytes()))
}

// A trace of a session, or that it has no such task or core.
fn trace_output<P: PartProgress>(
    course: &mut Course<P>,
    alloc: Global,
    meter: &mut Meter,
    session: &CheckedSession,
    selection: &Selection,
) -> Result<Output, AllocError>
    ensures { IfOk result (λ shown. shown ≡ trace_output selection.now session.now) }
{
    let names = selection.tasks.as_slice();
    if let Some(index) = unknown_task(session.header(), names) {
        return refused_name(alloc, names, index);
    }
    if let Some(core) = unknown_core(session.header(), selection.cores.as_slice()) {
        return refused_core(alloc, core);
    }
    course.begin(Part::Tracing);
    let text = trace_of(alloc, meter, session, selection)?;
    Ok(Output::fine(alloc, text))
}

// A session as a document.
fn document_output(alloc: Global, session: &CheckedSession) -> Result<Output, AllocError>
    ensures { IfOk result (λ shown. shown ≡ fine (document_of session.now)) }
{
    let mut text = write_session(alloc, session.header(), session.steps())?;
    text.push(b'\n')?;
    Ok(Output::fine(alloc, text))
}

// That calls of the run were not made; nothing where all were.
fn note_of(alloc: Global, run: &Run) -> Result<Vec<u8>, AllocError>
    ensures { IfOk result (λ note. note.items ≡ note_of run.now) }
{
    let mut note = String::new(alloc);
    if run.left().is_empty() {
        return Ok(note.into_bytes());
    }
    note.push_str("not made: ")?;
    push_left(&mut note, run.session().header(), run.left())?;
    note.push_str("\n")?;
    Ok(note.into_bytes())
}

/// What is told of the run, and the calls that were not made, unless it is a refusal.
pub(crate) fn with_left(alloc: Global, run: &Run, output: Output) -> Result<Output, AllocError>
    ensures { IfOk result (λ printed. printed ≡ noted output (note_of run.now)) }
{
    let note = note_of(alloc, run)?;
    Ok(output.noted(note))
}

/// The trace of the run.
pub(crate) fn trace_printed<P: PartProgress>(
    course: &mut Course<P>,
    alloc: Global,
    meter: &mut Meter,
    run: &Run,
    selection: &Selection,
) -> Result<Output, AllocError>
    ensures { IfOk result (λ printed. printed
        ≡ noted (trace_output selection.now run.now.session) (note_of run.now)) }
{
    let output = trace_output(course, alloc, meter, run.session(), selection)?;
    with_left(alloc, run, output)
}

/// The run as a document.
pub(crate) fn document_printed(alloc: Global, run: &Run) -> Result<Output, AllocError>
    ensures { IfOk result (λ printed. printed
        ≡ noted (fine (document_of run.now.session)) (note_of run.now)) }
{
    let output = document_output(alloc, run.session())?;
    with_left(alloc, run, output)
}
