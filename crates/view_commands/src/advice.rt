//! What is told of the changes that make a number lower.
ghost use Rattle.std.specs.Prelude.{◌≡◌, IfErr, IfOk, string_bytes};
ghost use Rattle.view_commands.specs.declared.request.Command.TheVariants as Command;
ghost use Rattle.view_commands.specs.Answers.{printed_of_advice, sources_for, IsAdvised, IsJudgedAnswer};
ghost use Rattle.view_commands.specs.TooLong.{IsFaultOfFirst};

use crate::edited::EditedSource;
use crate::fault::ShowFault;
use crate::request::Documents;
use crate::runs::run_after;
use crate::strict::judged_strictly;
use program_io::{Output, OutputStatus};
use ranked_changes::Progress;
use run_sources::Source;
use session_advice::{AdviceStatus, Advised, Question, advise};
use shown_runs::{Course, PartProgress};
use smp_kernel::Meter;
use std::alloc::{AllocError, Global};
use std::thread::Threads;

// Advice goes to standard output, and the names that there are to standard error.
fn printed_of_advice(alloc: Global, status: AdviceStatus, text: String) -> Output
    ensures { result ≡ printed_of_advice status (string_bytes text) }
{
    let (none, text) = (Vec::new(alloc), text.into_bytes());
    match status {
        AdviceStatus::Given => Output {
            status: OutputStatus::Fine,
            text,
            note: none,
        },
        AdviceStatus::Unknown => Output {
            status: OutputStatus::Unknown,
            text: none,
            note: text,
        },
    }
}

// What is advised on the source, whose run is not too long.
fn advised<T: Threads + Sync, P: Progress>(
    rt: &T,
    host: &HostRuntime,
    progress: &mut P,
    alloc: Global,
    meter: &mut Meter,
    source: &Source,
    question: &Question,
) -> Result<Output, AllocError>
    ensures { IfOk result (IsAdvised question.now source.now) }
{
    match advise(rt, host, alloc, meter, progress, source, question) {
        Ok(Advised { status, text }) => Ok(printed_of_advice(alloc, status, text)),
        // There is no other fault of a source that is not too long.
        Err(_) => Err(AllocError),
    }
}

/// What is advised on what the edits leave, judged where refusals count.
#[tactic(auto, using(crate::proofs::ShownSources::fault_of_one))]
pub(crate) fn answer_of_advice<T: Threads + Sync, P: PartProgress>(
    rt: &T,
    host: &HostRuntime,
    course: &mut Course<P>,
    alloc: Global,
    meter: &mut Meter,
    source: &EditedSource,
    question: &Question,
    documents: Documents,
    strict: bool,
) -> Result<Output, ShowFault>
    ensures answer { IfOk result
        (IsJudgedAnswer documents strict (Command.Advise question.now) source.now) }
    ensures fault { IfErr result
        (IsFaultOfFirst (sources_for (Command.Advise question.now) source.now)) }
{
    let made = run_after(alloc, meter, documents, source)?;
    let after = source.after(alloc)?;
    let output = advised(rt, host, course.progress, alloc, meter, &after, question)?;
    if !strict {
        return Ok(output);
    }
    Ok(judged_strictly(course, alloc, &made.run, source, output)?)
}
