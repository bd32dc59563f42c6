//! What is told of an input.
ghost use Rattle.std.specs.Prelude.{◌≡◌, is_none, position, IfOk, string_bytes};
ghost use Rattle.kept_edits.specs.Edits.{plain_edit};
ghost use Rattle.session_text.specs.Bench.{kept_bench_text, IsKeptBench};
ghost use Rattle.session_text.specs.Session.{document};
ghost use Rattle.workload_text.specs.Documents.{is_workload_text};
ghost use Rattle.edited_workloads.specs.Edited.{edited_workload_text};
ghost use Rattle.program_io.specs.Refusal.{IsPrintedFault};
ghost use Rattle.view_commands.specs.Commands.{unshown_edit, IsPrintedOfBench, IsPrintedOfDocument, IsPrintedOfNone, IsPrintedOfSession, IsPrintedOfText, IsPrintedOfTicked, IsPrintedOfWorkload, IsView, ViewIsOne};
ghost use Rattle.view_commands.specs.Refusals.{refused_lines};
ghost use Rattle.view_commands.specs.Ticks.{both_ticked, ticks_of};

use crate::answer::noted_answer;
use crate::edited::EditedSource;
use crate::refusals::{refused_document, refused_length, refused_ticks, refused_work};
use crate::request::{Documents, Job, SessionRuns};
use crate::ticks::both_ticked;
use bench_types::{CheckedSession, MAX_INPUT};
use edited_workloads::{EditedWorkload, read_edited_workload};
use json_data::Scratch;
use kept_edits::KeptEdit;
use kept_sessions::KeptSession;
use program_io::{Output, explained, too_long, twice_note, twice_note_of_refused, warned};
use session_text::{Bench, Noted, TextFault, document, read_kept_bench_noted};
use shown_runs::PartProgress;
use std::alloc::{AllocError, Global};
use std::thread::Threads;
use workload_text::is_workload_text;

// Of a text that was not read, first where a member of it stands twice. Want of memory is no
// refusal.
fn refused_text(alloc: Global, input: &[u8], fault: TextFault) -> Result<Output, AllocError>
    ensures { IfOk result (λ printed. IsPrintedFault refused_lines input.now fault printed) }
{
    let line = twice_note_of_refused(alloc, input)?;
    warned(explained(alloc, input, fault)?.on_error(alloc)?, line)
}

// Where the first change of work stands.
fn first_change_of_work(edits: &[KeptEdit]) -> Option<usize>
    ensures { result ≡ position (λ edit. is_none (plain_edit edit)) edits.now }
{
    edits.iter().position(|edit| edit.plain().is_none())
}

// Where the first of the edits stands for which a session is not shown by such runs.
fn unshown_edit(sessions: SessionRuns, edits: &[KeptEdit]) -> Option<usize>
    ensures { result ≡ unshown_edit sessions edits.now }
{
    match sessions {
        SessionRuns::AsWritten | SessionRuns::Settled => first_change_of_work(edits),
        SessionRuns::Kept(_) => None,
    }
}

// What is told, after these lines, of a document whose edits are shown by the runs. Texts may have
// any number of steps, so J2 is found here.
fn printed_of_session<T: Threads + Sync, P: PartProgress>(
    rt: &T,
    host: &HostRuntime,
    progress: &mut P,
    alloc: Global,
    lines: String,
    bench: Bench<KeptEdit>,
    job: &Job,
) -> Result<Output, AllocError>
    requires { IsKeptBench bench }
    ensures { IfOk result (IsPrintedOfSession (string_bytes lines) job.now bench) }
{
    let Bench {
        header,
        steps,
        edits,
    } = bench;
    match CheckedSession::new(header, steps.into_vec()) {
        Some(session) => {
            // A session that was checked has no more steps than it may have.
            let _steps = session.steps();
            let made = KeptSession::make(alloc, session, edits.into_vec())?;
            let source = EditedSource::of_session(made, job.sessions);
            noted_answer(rt, host, progress, alloc, lines, &source, job)
        }
        None => refused_length(alloc, lines),
    }
}

// What is told, after these lines, of a document that was read.
fn printed_of_bench<T: Threads + Sync, P: PartProgress>(
    rt: &T,
    host: &HostRuntime,
    progress: &mut P,
    alloc: Global,
    lines: String,
    bench: Bench<KeptEdit>,
    job: &Job,
) -> Result<Output, AllocError>
    requires { IsKeptBench bench }
    ensures { IfOk result (IsPrintedOfBench (string_bytes lines) job.now bench) }
{
    match unshown_edit(job.sessions, bench.edits.as_slice()) {
        Some(place) => refused_work(alloc, lines, place),
        None => printed_of_session(rt, host, progress, alloc, lines, bench, job),
    }
}

// What is told of a text that is no workload.
fn printed_of_text<T: Threads + Sync, P: PartProgress>(
    rt: &T,
    host: &HostRuntime,
    progress: &mut P,
    alloc: Global,
    input: &[u8],
    job: &Job,
) -> Result<Output, AllocError>
    ensures { IfOk result
        (λ printed. IsPrintedOfText job.now input.now (kept_bench_text input.now) printed) }
{
    match read_kept_bench_noted(alloc, input) {
        Err(fault) => refused_text(alloc, input, fault),
        Ok(Noted { document, doubled }) => {
            let line = twice_note(alloc, input, doubled)?;
            printed_of_bench(rt, host, progress, alloc, line, document, job)
        }
    }
}

// What is told, after these lines, of a workload that goes on for the ticks that are asked for.
fn printed_of_ticked<T: Threads + Sync, P: PartProgress>(
    rt: &T,
    host: &HostRuntime,
    progress: &mut P,
    alloc: Global,
    lines: String,
    made: EditedWorkload,
    job: &Job,
) -> Result<Output, AllocError>
    ensures { IfOk result
        (IsPrintedOfTicked (string_bytes lines) job.now
        (both_ticked (ticks_of job.now.documents) made)) }
{
    match both_ticked(made, job.documents.ticks()) {
        Ok(made) => {
            let source = EditedSource::Workload(made);
            noted_answer(rt, host, progress, alloc, lines, &source, job)
        }
        Err(_) => refused_ticks(alloc, lines),
    }
}

// What is told of a text that is a workload.
fn printed_of_workload<T: Threads + Sync, P: PartProgress>(
    rt: &T,
    host: &HostRuntime,
    progress: &mut P,
    alloc: Global,
    input: &[u8],
    job: &Job,
) -> Result<Output, AllocError>
    ensures { IfOk result (IsPrintedOfWorkload job.now input.now (edited_workload_text input.now)) }
{
    match read_edited_workload(alloc, input) {
        Err(fault) => refused_text(alloc, input, fault),
        Ok(made) => {
            let lines = twice_note_of_refused(alloc, input)?;
            printed_of_ticked(rt, host, progress, alloc, lines, made, job)
        }
    }
}

// What is told where a workload is wanted, and the text is none.
fn printed_of_none(alloc: Global, input: &[u8]) -> Result<Output, AllocError>
    ensures { IfOk result (IsPrintedOfNone input.now (document input.now)) }
{
    let mut scratch = Scratch::new(alloc);
    match document(alloc, input, &mut scratch) {
        Err(fault) => refused_text(alloc, input, fault),
        Ok(_) => refused_document(alloc, input),
    }
}

// What is told, but for H3.
fn printed_of_document<T: Threads + Sync, P: PartProgress>(
    rt: &T,
    host: &HostRuntime,
    progress: &mut P,
    alloc: Global,
    input: &[u8],
    job: &Job,
) -> Result<Output, AllocError>
    ensures { IfOk result
        (IsPrintedOfDocument (is_workload_text input.now) job.now input.now) }
{
    if is_workload_text(alloc, input)? {
        return printed_of_workload(rt, host, progress, alloc, input, job);
    }
    match job.documents {
        Documents::All => printed_of_text(rt, host, progress, alloc, input, job),
        Documents::Workloads(_) => printed_of_none(alloc, input),
    }
}

/// All that is told of the input.
#[tactic(auto, unfolding(crate::specs::Commands::IsView))]
pub(crate) fn printed_of<T: Threads + Sync, P: PartProgress>(
    rt: &T,
    host: &HostRuntime,
    progress: &mut P,
    alloc: Global,
    input: &[u8],
    job: &Job,
) -> Result<Output, AllocError>
    ensures { IfOk result (λ printed. IsView job.now input.now printed) }
{
    if input.len() > MAX_INPUT {
        return too_long(alloc)?.on_error(alloc);
    }
    printed_of_document(rt, host, progress, alloc, input, job)
}

/// One thing alone is told of each input. It does nothing: its contract is the law.
pub fn law_of_views()
    ensures { ViewIsOne }
{}
