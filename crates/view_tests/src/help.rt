//! The help of `smp_view` and of each of its commands, whole.
use crate::devices::expect_same;
use std::alloc::{AllocError, Global};
use std::process::Abort;
use std::test::Fail;
use view_commands::{Request, request_of};

const HELP: &str = "Shows what a run of a scheduling session does, and why

Usage: smp_view <COMMAND>

Commands:
  trace     Prints each place of a run, and each step with all that it changed
  session   Prints the session with its edits made, as a document
  settle    Prints the settled run of the session with its edits made, as a document
  compare   Shows the runs before and after the edits, and what each task gained and lost
  timeline  Draws the runs before and after the edits, as an SVG picture
  report    Prints the numbers of the run, or of the runs before and after the edits
  check     Says whether numbers of the run after the edits keep limits
  advise    Tries changes of the tasks, and prints those that make a number lowest
  page      Writes one HTML file of the runs: picture, trace, comparison and report
  simulate  Prints the run of a workload, as the document of a session

Options:
  -h, --help     Print help
  -V, --version  Print version

Documents, each a JSON text, in FILE or on standard input:
  session         the cores, priorities and tasks, and the steps of a run
  bench document  a session, and edits of it: they are made one after another, and those that \
    are
                  refused are passed over
  workload        what each task does, and the interrupts that come; edits of it may stand \
    beside
                  it: its run is shown, or those before and after the edits

Exit status:
  0  it was shown
  1  the document or a run made of it is refused, or has no such task or core, or its picture has
     more than 4000 places, or a limit is not kept; with --strict also where an edit is refused,
     or a step of the run after the edits
  2  a bad command line, or a number that has no such name
  3  memory was refused, a read or a write failed, or the file can't be opened

Standard error says why nothing is shown, and which edits are refused.

Example: smp_view trace --from 2 --to 3 examples/first-run.json
";

const TRACE: &str = "Prints each place of a run, and each step with all that it changed

Usage: smp_view trace [OPTIONS] [FILE]

Arguments:
  [FILE]  The file of the document; standard input if it is - or left out

Options:
      --settle        Shows settled runs: what a target makes of the calls, ticks and interrupts
      --keep-work     Shows runs that keep work: a call comes when its task worked as long as before
      --ties <WHICH>  Which of several calls at one time is first: oldest, also if left out, or core
      --from <PLACE>  The first place that is shown, or 0 if left out
      --to <PLACE>    The last place that is shown, or the last of the run if left out
      --task <NAME>   Shows the steps that concern this task; may stand several times
      --core <CORE>   Shows the steps that concern this core; may stand several times
      --strict        Ends with status 1 where an edit or a step of the run is refused
  -h, --help          Print help

Without a task or a core that is named, each step is shown.
A name that begins with a hyphen stands behind an equals sign: --task=-x

Example: smp_view trace --from 2 --to 3 examples/first-run.json
";

const SESSION: &str = "Prints the session with its edits made, as a document

Usage: smp_view session [OPTIONS] [FILE]

Arguments:
  [FILE]  The file of the document; standard input if it is - or left out

Options:
      --strict  Ends with status 1 where an edit or a step of the run is refused
  -h, --help    Print help

The edits are made one after another, and those that are refused are passed over.

Example: smp_view session examples/another-call.json
";

const SETTLE: &str = "Prints the settled run of the session with its edits made, as a document

Usage: smp_view settle [OPTIONS] [FILE]

Arguments:
  [FILE]  The file of the document; standard input if it is - or left out

Options:
      --keep-work     Shows runs that keep work: a call comes when its task worked as long as before
      --ties <WHICH>  Which of several calls at one time is first: oldest, also if left out, or core
      --strict        Ends with status 1 where an edit or a step of the run is refused
  -h, --help          Print help

A settled run is what a target makes of the calls, ticks and interrupts of a session: each \
    switch
and each return from a call is made by itself. Standard error says how many calls of which tasks
were not made. With --keep-work the run that keeps work is printed in its place.

Example: smp_view settle examples/held-kernel.json
";

const COMPARE: &str = "Shows the runs before and after the edits, and what each task gained \
    and lost

Usage: smp_view compare [OPTIONS] [FILE]

Arguments:
  [FILE]  The file of the document; standard input if it is - or left out

Options:
      --settle        Shows settled runs: what a target makes of the calls, ticks and interrupts
      --keep-work     Shows runs that keep work: a call comes when its task worked as long as before
      --ties <WHICH>  Which of several calls at one time is first: oldest, also if left out, or core
      --strict        Ends with status 1 where an edit or a step of the run is refused
  -h, --help          Print help

With --settle or --keep-work it also says which calls were not made.

Example: smp_view compare --settle examples/settled/shorter-timeout.json
";

const TIMELINE: &str = "Draws the runs before and after the edits, as an SVG picture

Usage: smp_view timeline [OPTIONS] [FILE]

Arguments:
  [FILE]  The file of the document; standard input if it is - or left out

Options:
      --settle        Shows settled runs: what a target makes of the calls, ticks and interrupts
      --keep-work     Shows runs that keep work: a call comes when its task worked as long as before
      --ties <WHICH>  Which of several calls at one time is first: oldest, also if left out, or core
      --axis <AXIS>   What a column is of: place, also if left out, tick or time
      --from <PLACE>  The first place that is shown, or 0 if left out
      --to <PLACE>    The last place that is shown, or the last of the run if left out
      --strict        Ends with status 1 where an edit or a step of the run is refused
  -h, --help          Print help

A picture shows at most 4000 places. With --axis tick each tick is ruled, and has as many \
    columns
as the run with more places in it needs, so that two runs stand tick by tick. With --axis time a
place is as wide as the time until the next one, and one column at least.

Example: smp_view timeline examples/questions/shared-mutex.json
";

const REPORT: &str = "Prints the numbers of the run, or of the runs before and after the edits

Usage: smp_view report [OPTIONS] [FILE]

Arguments:
  [FILE]  The file of the document; standard input if it is - or left out

Options:
      --settle        Shows settled runs: what a target makes of the calls, ticks and interrupts
      --keep-work     Shows runs that keep work: a call comes when its task worked as long as before
      --ties <WHICH>  Which of several calls at one time is first: oldest, also if left out, or core
      --json          Prints one JSON object
      --strict        Ends with status 1 where an edit or a step of the run is refused
  -h, --help          Print help

Time in each condition with the longest stretch of it, switches, refusals and the like, of
each task, core and mutex. The table leaves out what is 0; the JSON object has everything.

Example: smp_view report --settle examples/settled/shorter-timeout.json
";

const CHECK: &str = "Says whether numbers of the run after the edits keep limits

Usage: smp_view check [OPTIONS] [FILE]

Arguments:
  [FILE]  The file of the document; standard input if it is - or left out

Options:
      --settle             Shows settled runs: what a target makes of the calls, ticks and \
    interrupts
      --keep-work          Shows runs that keep work: a call comes when its task worked as long as \
    before
      --ties <WHICH>       Which of several calls at one time is first: oldest, also if left out, \
    or core
      --at-most <NAME=N>   The number of this name is to be N or less; may stand several times
      --at-least <NAME=N>  The number of this name is to be N or more; may stand several times
      --strict             Ends with status 1 where an edit or a step of the run is refused
  -h, --help               Print help

The names are those that `report` prints. Each limit that is not kept is printed, a line \
    each. The
exit status is 0 where all are kept, 1 where not, and 2 where a name is none.

Example: smp_view check --settle --at-most control.blocked.mutex=3 \
    examples/settled/shorter-timeout.json
";

const ADVISE: &str = "Tries changes of the tasks, and prints those that make a number lowest

Usage: smp_view advise [OPTIONS] --task <NAME> --less <NUMBER> [FILE]

Arguments:
  [FILE]  The file of the document; standard input if it is - or left out

Options:
      --settle          Shows settled runs: what a target makes of the calls, ticks and \
    interrupts
      --keep-work       Shows runs that keep work: a call comes when its task worked as long as \
    before
      --ties <WHICH>    Which of several calls at one time is first: oldest, also if left out, or \
    core
      --task <NAME>     The task that is to have less of a number
      --less <NUMBER>   The number of the task, as `report` names it: blocked.mutex, \
    ready.longest, ..
      --over <CHANGES>  Which changes are tried, with commas between them, or \
    priority,mask,order if left out
      --best <COUNT>    How many of the best are printed, or 10 if left out
      --strict          Ends with status 1 where an edit or a step of the run is refused
  -h, --help            Print help

It tries each change of one task's priority (priority) and mask (mask: of at most 4 cores all \
    masks, of
more each core alone and all cores; pin: each core alone), and of a session each exchange of two
neighbouring calls of different tasks (order), each alone, and prints the best: the least number
first, of equals the smaller change, with what it costs the other tasks. A workload is simulated
with each change.

Example: smp_view advise --settle --task control --less blocked.mutex --over priority \
    examples/settled/mutex-events.json
";

const PAGE: &str = "Writes one HTML file of the runs: picture, trace, comparison and report

Usage: smp_view page [OPTIONS] [FILE]

Arguments:
  [FILE]  The file of the document; standard input if it is - or left out

Options:
      --settle        Shows settled runs: what a target makes of the calls, ticks and interrupts
      --keep-work     Shows runs that keep work: a call comes when its task worked as long as before
      --ties <WHICH>  Which of several calls at one time is first: oldest, also if left out, or core
      --axis <AXIS>   What a column is of: place, also if left out, tick or time
      --from <PLACE>  The first place that is shown, or 0 if left out
      --to <PLACE>    The last place that is shown, or the last of the run if left out
      --strict        Ends with status 1 where an edit or a step of the run is refused
  -h, --help          Print help

The page has the picture and the trace of the run, with edits the comparison, and the report. It
needs nothing from elsewhere, and shows at most 4000 places. Its picture is that of `timeline`.

Example: smp_view page examples/questions/shared-mutex.json > page.html
";

const SIMULATE: &str = "Prints the run of a workload, as the document of a session

Usage: smp_view simulate [OPTIONS] [FILE]

Arguments:
  [FILE]  The file of the document; standard input if it is - or left out

Options:
      --ticks <TICKS>  How many ticks the workload goes on for, 0 to 1000000, or as it says if \
    left out
      --strict         Ends with status 1 where an edit or a step of the run is refused
  -h, --help           Print help

A workload says what each task does, which interrupts come, and for how many ticks. Its run is
settled. With edits it is the run after them. Every other command shows a workload by its run, too.

Example: smp_view simulate --ticks 100 examples/workloads/two-periods.json
";

/// Command lines, and the whole text of each.
const HELPS: [(&str, &str); 11] = [
    ("smp_view --help", HELP),
    ("smp_view trace --help", TRACE),
    ("smp_view session --help", SESSION),
    ("smp_view settle --help", SETTLE),
    ("smp_view compare --help", COMPARE),
    ("smp_view timeline --help", TIMELINE),
    ("smp_view report --help", REPORT),
    ("smp_view check --help", CHECK),
    ("smp_view advise --help", ADVISE),
    ("smp_view page --help", PAGE),
    ("smp_view simulate --help", SIMULATE),
];

#[test]
fn whole_helps(rt: HostRuntime) -> Result<(), Fail> {
    for (line, wanted) in &HELPS {
        check_help(&rt, rt.alloc(), line, wanted)?;
    }
    Ok(())
}

// The words of the line ask for this text.
fn check_help(rt: &impl Abort, alloc: Global, line: &str, wanted: &str) -> Result<(), AllocError> {
    let words = words_of(alloc, line)?;
    let request = request_of(alloc, Some(words.as_slice()))?;
    expect_same(rt, line, text_of(&request), wanted);
    Ok(())
}

fn words_of(alloc: Global, line: &str) -> Result<Vec<String>, AllocError> {
    let mut words = Vec::new(alloc);
    for word in line.split(' ') {
        words.push(String::from_str(alloc, word)?)?;
    }
    Ok(words)
}

fn text_of(request: &Request) -> &str {
    match request {
        Request::Help(text) => text.as_str(),
        _ => "",
    }
}
