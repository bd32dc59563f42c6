//! The parts of a command.
ghost use Rattle.std.specs.Prelude.{◌≡◌, ◌≤◌};
ghost use Rattle.shown_runs.specs.Parts.{one_if};
ghost use Rattle.view_commands.specs.Parts.{is_long, making_parts, own_parts, parts_of};
ghost use Rattle.view_commands.specs.ShownRuns.{asks_both, shows_both};

use crate::edited::EditedSource;
use crate::request::{Command, Job};
use shown_runs::{Ask, Course, Making, Part, PartProgress};

// The number of it where it is so.
fn one_if(is_so: bool) -> usize
    ensures one { result ≡ one_if is_so }
    ensures few { result ≤ 1 }
{
    if is_so { 1 } else { 0 }
}

// Whether what is asked is told of the run before the edits and of that after them.
fn asks_both(asked: &Ask) -> bool
    ensures { result ≡ asks_both asked.now }
{
    match asked {
        Ask::Compare | Ask::Timeline(_) | Ask::Report(_) | Ask::Page(_) => true,
        Ask::Trace(_) | Ask::Session | Ask::Check(_) => false,
    }
}

/// Whether both runs are shown.
pub(crate) fn shows_both(asked: &Ask, source: &EditedSource) -> bool
    ensures { result ≡ shows_both asked.now source.now }
{
    asks_both(asked) && source.has_edits()
}

fn making_parts(making: Making) -> usize
    ensures parts { result ≡ making_parts making }
    ensures few { result ≤ 1 }
{
    match making {
        Making::AsWritten => 0,
        Making::Settled | Making::Simulated | Making::Kept => 1,
    }
}

// How many parts a command has, but for refusals.
fn own_parts(command: &Command, source: &EditedSource) -> usize
    ensures parts { result ≡ own_parts command.now source.now }
    ensures few { result ≤ 5 }
{
    match command {
        Command::Show(asked) => {
            making_parts(source.making()) + asked.parts(shows_both(asked, source))
        }
        Command::Advise(_) => 0,
    }
}

fn parts_of(job: &Job, source: &EditedSource) -> usize
    ensures { result ≡ parts_of job.now source.now }
{
    own_parts(&job.command, source) + one_if(job.strict)
}

/// No part of the job began.
pub(crate) fn course_of<'a, P>(
    progress: &'a mut P,
    source: &EditedSource,
    job: &Job,
) -> Course<'a, P>
    ensures progress { result.progress.now ≡ progress.old }
    ensures long { result.is_long ≡ is_long source.now }
    ensures begun { result.begun ≡ 0 }
    ensures all { result.all ≡ parts_of job.now source.now }
{
    Course::new(progress, source.is_long(), parts_of(job, source))
}

/// The runs of a source begin to be made, which is a part of its own where they are not those of a
/// session as its steps stand.
pub(crate) fn begin_making<P: PartProgress>(course: &mut Course<P>, making: Making) {
    match making {
        Making::AsWritten => {}
        Making::Settled | Making::Kept => course.begin(Part::Settling),
        Making::Simulated => course.begin(Part::Simulating),
    }
}
