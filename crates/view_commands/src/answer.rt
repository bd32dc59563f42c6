//! What is told of what a document says.
ghost use Rattle.std.specs.Prelude.{◌≡◌, ◌++◌, IfErr, IfOk, string_bytes};
ghost use Rattle.program_io.specs.Outputs.{Printed};
ghost use Rattle.view_commands.specs.declared.request.Command.TheVariants as Commands;
ghost use Rattle.view_commands.specs.Answers.{sources_for, IsAnswer, IsJudgedAnswer, IsNoted};
ghost use Rattle.view_commands.specs.TooLong.{IsFaultOfFirst};

use crate::advice::answer_of_advice;
use crate::edited::EditedSource;
use crate::fault::ShowFault;
use crate::parts::{begin_making, course_of, shows_both};
use crate::request::{Command, Documents, Job};
use crate::runs::runs_shown;
use crate::strict::judged_strictly;
use program_io::{Output, warned};
use shown_runs::{Ask, Course, PartProgress, told};
use smp_kernel::Meter;
use std::alloc::{AllocError, Global};
use std::thread::Threads;

// What is asked of the runs that are shown, judged where refusals count.
#[tactic(auto, using(crate::proofs::ShownSources::last_is_run))]
fn answer_of_runs<P: PartProgress>(
    course: &mut Course<P>,
    alloc: Global,
    meter: &mut Meter,
    source: &EditedSource,
    asked: &Ask,
    documents: Documents,
    strict: bool,
) -> Result<Output, ShowFault>
    ensures answer { IfOk result
        (IsJudgedAnswer documents strict (Commands.Show asked.now) source.now) }
    ensures fault { IfErr result
        (IsFaultOfFirst (sources_for (Commands.Show asked.now) source.now)) }
{
    let making = source.making();
    begin_making(course, making);
    let both = shows_both(asked, source);
    let made = runs_shown(alloc, meter, documents, source, both)?;
    let output = told(course, alloc, meter, &made.shown, making, asked)?;
    let printed = warned(output, made.ends)?;
    if !strict {
        return Ok(printed);
    }
    Ok(judged_strictly(course, alloc, made.shown.last(), source, printed)?)
}

// What the job is about, or why no run is shown.
fn answer_of_job<T: Threads + Sync, P: PartProgress>(
    rt: &T,
    host: &HostRuntime,
    course: &mut Course<P>,
    alloc: Global,
    source: &EditedSource,
    job: &Job,
) -> Result<Output, ShowFault>
    ensures answer { IfOk result
        (IsJudgedAnswer job.now.documents job.now.strict job.now.command source.now) }
    ensures fault { IfErr result (IsFaultOfFirst (sources_for job.now.command source.now)) }
{
    let mut meter = Meter::new(host);
    let (documents, strict) = (job.documents, job.strict);
    match &job.command {
        Command::Show(asked) => {
            answer_of_runs(course, alloc, &mut meter, source, asked, documents, strict)
        }
        Command::Advise(question) => answer_of_advice(
            rt, host, course, alloc, &mut meter, source, question, documents, strict,
        ),
    }
}

// What is told, also where a run is too long.
fn answer<T: Threads + Sync, P: PartProgress>(
    rt: &T,
    host: &HostRuntime,
    progress: &mut P,
    alloc: Global,
    source: &EditedSource,
    job: &Job,
) -> Result<Output, AllocError>
    ensures { IfOk result (IsAnswer job.now source.now) }
{
    let mut course = course_of(progress, source, job);
    match answer_of_job(rt, host, &mut course, alloc, source, job) {
        Ok(output) => Ok(output),
        Err(ShowFault::TooLong(refusal)) => Ok(refusal),
        Err(ShowFault::NoMemory) => Err(AllocError),
    }
}

/// What the job tells of the source: these lines, a line for each edit that is refused, and the
/// answer.
pub(crate) fn noted_answer<T: Threads + Sync, P: PartProgress>(
    rt: &T,
    host: &HostRuntime,
    progress: &mut P,
    alloc: Global,
    mut lines: String,
    source: &EditedSource,
    job: &Job,
) -> Result<Output, AllocError>
    ensures { IfOk result (IsNoted (string_bytes lines) job.now source.now) }
{
    let refused = source.edit_lines(alloc)?;
    lines.push_str(refused.as_str())?;
    let output = answer(rt, host, progress, alloc, source, job)?;
    warned(output, lines)
}
