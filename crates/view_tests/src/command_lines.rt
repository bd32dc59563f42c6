//! What a command line asks for.

use kept_runs::CallOrder;
use report_figures::Bound;
use run_pictures::{Axis, Extent, MAX_PLACES};
use run_views::Places;
use session_advice::Question;
use session_reports::{Form, Wanted};
use shown_runs::{Ask, Selection};
use std::alloc::{AllocError, Global};
use std::process::Abort;
use std::test::Fail;
use view_commands::{Command, Documents, FileName, Job, Request, SessionRuns, request_of};

/// Command lines, and what each asks for: a trace with its first place, its last, its tasks and its
/// cores, maybe of a settled run or of one that keeps work, another command, each with the file
/// that is named, help with its first line, or nothing that the program does.
const COMMAND_LINES: &str = "\
smp_view trace => 0 4294967295
smp_view trace --from 3 => 3 4294967295
smp_view trace --from=3 => 3 4294967295
smp_view trace --to +7 --from 003 => 3 7
smp_view trace --task B --core 1 --to 7 --task C --core=0 => 0 7 task B task C core 1 core 0
smp_view trace --task=--to => 0 4294967295 task --to
smp_view trace --settle => settled 0 4294967295
smp_view trace --settle --to 7 --task B => settled 0 7 task B
smp_view trace --from 1 --settle => settled 1 4294967295
smp_view trace run.json --settle --from 1 => settled 1 4294967295 file run.json
smp_view session => session
smp_view session --strict => strict session
smp_view settle --strict - => strict settled session
smp_view compare --settle --strict => strict settled compare
smp_view trace --strict --to 7 => strict 0 7
smp_view check --strict --at-most A.run=3 f => strict check A.run most 3 file f
smp_view settle => settled session
smp_view settle --keep-work => kept session
smp_view settle --ties core --keep-work - => kept by core session
smp_view compare => compare
smp_view compare --settle => settled compare
smp_view compare --keep-work => kept compare
smp_view compare --ties=oldest --keep-work --strict => strict kept compare
smp_view trace --keep-work --ties core --to 7 f => kept by core 0 7 file f
smp_view timeline --keep-work --axis tick => kept picture by ticks 0 4294967295
smp_view page --keep-work --ties=core --from 3 => kept by core page 3 4294967295
smp_view report --keep-work --json => kept report object
smp_view check --keep-work --at-most A.run=3 => kept check A.run most 3
smp_view advise --keep-work --less=run --task=A --over mask => kept advise A.run mask best 10
smp_view timeline => picture 0 4294967295
smp_view timeline --to 7 --from 3 => picture 3 7
smp_view timeline --settle => settled picture 0 4294967295
smp_view timeline --axis place => picture 0 4294967295
smp_view timeline --axis tick => picture by ticks 0 4294967295
smp_view timeline --settle --axis=tick --to 7 => settled picture by ticks 0 7
smp_view timeline --axis time --from 3 => picture by time 3 4294967295
smp_view timeline --from 3 --settle => settled picture 3 4294967295
smp_view timeline --settle --to 7 run.json => settled picture 0 7 file run.json
smp_view page => page 0 4294967295
smp_view page --settle --to 7 run.json => settled page 0 7 file run.json
smp_view page --strict --from 3 => strict page 3 4294967295
smp_view page --axis tick --settle => settled page by ticks 0 4294967295
smp_view page --axis=time => page by time 0 4294967295
smp_view report => report table
smp_view report --json => report object
smp_view report --settle => settled report table
smp_view report run.json --json --settle => settled report object file run.json
smp_view check --at-most A.run=3 => check A.run most 3
smp_view check --at-most A.run=18446744073709551615 => check A.run most 18446744073709551615
smp_view check --at-least a=b.run=+3 --settle f => settled check a=b.run least 3 file f
smp_view check --at-least A.run=1 --at-most=-x.run=2 => check -x.run most 2 A.run least 1
smp_view advise --task A --less run => advise A.run priority mask order best 10
smp_view advise --settle --less=run --task=-x --over mask => settled advise -x.run mask best 10
smp_view advise --task A --less run --best 3 => advise A.run priority mask order best 3
smp_view advise --task A --less run --over mask => advise A.run mask best 10
smp_view advise --task A --less run --over order,priority => advise A.run priority order best 10
smp_view advise --task A --less run --over pin => advise A.run pin best 10
smp_view advise --task A --less run --over pin,mask => advise A.run mask pin best 10
smp_view check --strict --settle --at-most A.run=3 => strict settled check A.run most 3
smp_view trace run.json => 0 4294967295 file run.json
smp_view trace 3 => 0 4294967295 file 3
smp_view trace session => 0 4294967295 file session
smp_view trace --from 3 --task A run.json => 3 4294967295 task A file run.json
smp_view trace run.json --from 3 => 3 4294967295 file run.json
smp_view trace --task run.json => 0 4294967295 task run.json
smp_view trace --settle run.json => settled 0 4294967295 file run.json
smp_view trace --settle --core 1 run.json => settled 0 4294967295 core 1 file run.json
smp_view trace - => 0 4294967295
smp_view trace - --from 3 => 3 4294967295
smp_view trace -- - => 0 4294967295
smp_view trace -- -x => 0 4294967295 file -x
smp_view session - => session
smp_view session run.json => session file run.json
smp_view simulate => simulated session
smp_view simulate --ticks 0 run.json => simulated for 0 session file run.json
smp_view simulate --strict --ticks=1000000 => strict simulated for 1000000 session
smp_view settle run.json => settled session file run.json
smp_view compare ./- => compare file ./-
smp_view compare --settle run.json => settled compare file run.json
smp_view compare run.json --settle => settled compare file run.json
smp_view timeline --to 7 run.json => picture 0 7 file run.json
smp_view --help => help: Shows what a run of a scheduling session does, and why
smp_view -h => help: Shows what a run of a scheduling session does, and why
smp_view trace --help => help: Prints each place of a run, and each step with all that it changed
smp_view trace -h --from => help: Prints each place of a run, and each step with all that it changed
smp_view session run.json -h => help: Prints the session with its edits made, as a document
smp_view timeline --from 3 -h => help: Draws the runs before and after the edits, as an SVG picture
smp_view --version => version
smp_view -V trace => version
smp_view trace --version => bad
smp_view => bad
smp_view help => bad
smp_view help trace => bad
smp_view nothing --help => bad
smp_view trce => bad
smp_view TRACE => bad
smp_view --from 3 trace => bad
smp_view --settle trace => bad
smp_view trace -x => bad
smp_view trace run.json other.json => bad
smp_view trace - run.json => bad
smp_view trace --from => bad
smp_view trace --from --help => bad
smp_view trace --task => bad
smp_view trace --task --settle => bad
smp_view trace --core x => bad
smp_view trace --core 4294967296 => bad
smp_view trace --from 4294967296 => bad
smp_view trace --from -1 => bad
smp_view trace --from=-1 => bad
smp_view trace --from 3 --from 3 => bad
smp_view trace --to 3 --from 3 --to=3 => bad
smp_view trace --until 3 => bad
smp_view trace --settle --settle => bad
smp_view trace --settle=no => bad
smp_view session --strict --strict => bad
smp_view session --strict=no => bad
smp_view --strict session => bad
smp_view session --from 3 => bad
smp_view session --settle => bad
smp_view session --keep-work => bad
smp_view simulate --keep-work => bad
smp_view compare --settle --keep-work => bad
smp_view compare --keep-work --keep-work => bad
smp_view compare --keep-work=yes => bad
smp_view compare --keep-work --ties => bad
smp_view compare --keep-work --ties cores => bad
smp_view compare --keep-work --ties core --ties core => bad
smp_view compare --ties core => bad
smp_view compare --settle --ties oldest => bad
smp_view settle --ties oldest => bad
smp_view settle --settle => bad
smp_view settle --ticks 3 => bad
smp_view simulate --ticks 1000001 => bad
smp_view simulate --ticks -1 => bad
smp_view simulate --ticks x => bad
smp_view simulate --ticks 3 --ticks 3 => bad
smp_view simulate --settle => bad
smp_view settle --from 3 => bad
smp_view settle run.json other.json => bad
smp_view compare run.json other.json => bad
smp_view compare --settle --from 3 => bad
smp_view compare --task A => bad
smp_view compare -x => bad
smp_view compare --json => bad
smp_view report --json --json => bad
smp_view report --from 3 => bad
smp_view check => bad
smp_view check run.json --settle => bad
smp_view check --at-most => bad
smp_view check --at-most 3 => bad
smp_view check --at-most A.run => bad
smp_view check --at-most A.run= => bad
smp_view check --at-most A.run=-1 => bad
smp_view check --at-most A.run=18446744073709551616 => bad
smp_view check --at-most A.run=3 --at-least B.run=x => bad
smp_view check --at-most A.run=3 --json => bad
smp_view advise => bad
smp_view advise --task A => bad
smp_view advise --less run => bad
smp_view advise --task A --less run --over => bad
smp_view advise --task A --less run --over= => bad
smp_view advise --task A --less run --over Priority => bad
smp_view advise --task A --less run --over priority,,mask => bad
smp_view advise --task A --less run --over priority,masks => bad
smp_view advise --task A --less run --over pins => bad
smp_view advise --task A --less run --best x => bad
smp_view advise --task A --task B --less run => bad
smp_view advise --task A --less run --from 3 => bad
smp_view timeline -3 => bad
smp_view timeline --axis core => bad
smp_view timeline --axis times => bad
smp_view timeline --axis => bad
smp_view timeline --axis tick --axis tick => bad
smp_view timeline --task A => bad
smp_view timeline --settle --core 0 => bad
smp_view page --axis core => bad
smp_view page --task A => bad";

#[test]
fn command_lines(rt: HostRuntime) -> Result<(), Fail> {
    for row in COMMAND_LINES.lines() {
        let (line, asked) = row.split_once(" => ").unwrap_or((row, ""));
        check_line(&rt, rt.alloc(), line, asked)?;
    }
    Ok(())
}

#[test]
fn words_that_are_no_text(rt: HostRuntime) -> Result<(), Fail> {
    let request = request_of(rt.alloc(), None::<&[&str]>)?;
    check_mistake(&rt, text_of(&request));
    Ok(())
}

/// The help of a picture and that of a page say how many places they show at most.
#[test]
fn most_places_in_help(rt: HostRuntime) -> Result<(), Fail> {
    for command in ["timeline", "page"] {
        let words = ["smp_view", command, "--help"];
        let request = request_of(rt.alloc(), Some(words.as_slice()))?;
        let most = format!(in rt.alloc(); " {MAX_PLACES} places")?;
        expect_part(&rt, text_of(&request), most.as_str());
    }
    Ok(())
}

fn check_mistake(rt: &impl Abort, text: &str) {
    assert_eq!(rt; mistake_printed(text), "bad");
}

fn expect_part(rt: &impl Abort, text: &str, part: &str) {
    assert!(rt; text.contains(part), "{text}");
}

fn text_of(request: &Request) -> &str {
    match request {
        Request::Show(_, _) | Request::Version => "",
        Request::Help(text) | Request::Lacking(text) | Request::Bad(text) => text.as_str(),
    }
}

fn check_line(rt: &impl Abort, alloc: Global, line: &str, asked: &str) -> Result<(), AllocError> {
    let mut words = Vec::new(alloc);
    for word in line.split(' ') {
        words.push(String::from_str(alloc, word)?)?;
    }
    let request = request_of(alloc, Some(words.as_slice()))?;
    let printed = printed_of(alloc, &request)?;
    assert_eq!(rt; printed.as_str(), asked, "{line}");
    Ok(())
}

fn printed_of(alloc: Global, request: &Request) -> Result<String, AllocError> {
    match request {
        Request::Show(job, file) => view_printed(alloc, job, file.as_ref()),
        Request::Help(text) => help_printed(alloc, text.as_str()),
        Request::Version => String::from_str(alloc, "version"),
        Request::Lacking(text) | Request::Bad(text) => {
            String::from_str(alloc, mistake_printed(text.as_str()))
        }
    }
}

fn help_printed(alloc: Global, text: &str) -> Result<String, AllocError> {
    let first = text.lines().next().unwrap_or("");
    format!(in alloc; "help: {first}")
}

fn mistake_printed(text: &str) -> &str {
    if text.starts_with("error: ") {
        return "bad";
    }
    text
}

fn view_printed(alloc: Global, job: &Job, file: Option<&FileName>) -> Result<String, AllocError> {
    let mut text = String::new(alloc);
    if job.strict {
        text.push_str("strict ")?;
    }
    text.push_str(match job.sessions {
        SessionRuns::AsWritten => "",
        SessionRuns::Settled => "settled ",
        SessionRuns::Kept(CallOrder::Oldest) => "kept ",
        SessionRuns::Kept(CallOrder::LeastCore) => "kept by core ",
    })?;
    text.push_str(documents_printed(alloc, job.documents)?.as_str())?;
    text.push_str(command_printed(alloc, &job.command)?.as_str())?;
    if let Some(file) = file {
        text.push_str(" file ")?;
        text.push_str(file.text.as_str())?;
    }
    Ok(text)
}

fn documents_printed(alloc: Global, documents: Documents) -> Result<String, AllocError> {
    match documents {
        Documents::All => Ok(String::new(alloc)),
        Documents::Workloads(None) => String::from_str(alloc, "simulated "),
        Documents::Workloads(Some(ticks)) => format!(in alloc; "simulated for {ticks} "),
    }
}

fn command_printed(alloc: Global, command: &Command) -> Result<String, AllocError> {
    match command {
        Command::Show(asked) => ask_printed(alloc, asked),
        Command::Advise(question) => advice_printed(alloc, question),
    }
}

fn ask_printed(alloc: Global, asked: &Ask) -> Result<String, AllocError> {
    match asked {
        Ask::Trace(selection) => trace_printed(alloc, selection),
        Ask::Session => String::from_str(alloc, "session"),
        Ask::Compare => String::from_str(alloc, "compare"),
        Ask::Timeline(extent) => {
            let drawn = extent_printed(alloc, *extent)?;
            format!(in alloc; "picture {drawn}")
        }
        Ask::Report(form) => report_printed(alloc, *form),
        Ask::Check(limits) => check_printed(alloc, limits.as_slice()),
        Ask::Page(extent) => {
            let drawn = extent_printed(alloc, *extent)?;
            format!(in alloc; "page {drawn}")
        }
    }
}

fn advice_printed(alloc: Global, question: &Question) -> Result<String, AllocError> {
    let mut text = format!(in alloc; "advise {}", question.name)?;
    let family = question.family;
    for (word, is_tried) in [
        ("priority", family.priority),
        ("mask", family.mask),
        ("pin", family.pin),
        ("order", family.order),
    ] {
        if is_tried {
            write!(text, " {word}")?;
        }
    }
    write!(text, " best {}", question.best)?;
    Ok(text)
}

fn check_printed(alloc: Global, limits: &[Wanted]) -> Result<String, AllocError> {
    let mut text = String::from_str(alloc, "check")?;
    for limit in limits {
        match limit.bound {
            Bound::AtMost(most) => write!(text, " {} most {most}", limit.name)?,
            Bound::AtLeast(least) => write!(text, " {} least {least}", limit.name)?,
        }
    }
    Ok(text)
}

fn report_printed(alloc: Global, form: Form) -> Result<String, AllocError> {
    let form = match form {
        Form::Table => "table",
        Form::Json => "object",
        Form::Html => "html",
    };
    format!(in alloc; "report {form}")
}

fn extent_printed(alloc: Global, extent: Extent) -> Result<String, AllocError> {
    let Places { from, to } = extent.places;
    match extent.axis {
        Axis::Places => format!(in alloc; "{from} {to}"),
        Axis::Ticks => format!(in alloc; "by ticks {from} {to}"),
        Axis::Time => format!(in alloc; "by time {from} {to}"),
    }
}

fn trace_printed(alloc: Global, selection: &Selection) -> Result<String, AllocError> {
    let places = selection.places;
    let mut text = format!(in alloc; "{} {}", places.from, places.to)?;
    for name in &selection.tasks {
        write!(text, " task {name}")?;
    }
    for core in &selection.cores {
        write!(text, " core {core}")?;
    }
    Ok(text)
}
