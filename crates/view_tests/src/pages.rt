//! Pages, and the traces that stand in them place by place.

use crate::samples::{FIRST_RUN, NO_NINTH, SHARED_MUTEX, session_in};
use crate::workloads::EDITED;
use base64::engine::general_purpose::STANDARD;
use program_io::Counted;
use ranked_changes::Silent;
use run_pages::{Parts, page};
use run_pictures::{Axis, Extent};
use run_views::{Places, trace_by_places};
use sha2::{Digest, Sha256};
use shown_runs::Ask;
use smp_kernel::Meter;
use std::alloc::{AllocError, Global};
use std::process::Abort;
use std::test::Fail;
use std::thread::Threads;
use view_commands::{Command, Documents, Job, SessionRuns, run};

/// What the trace tells of place 2 of the first run, where place 3 is shown too.
const SECOND: &str = "place 2, tick 0; core 0 C; core 1 B
step 2: tick
  done: the step was made
  tick 0 to 1
";

const THIRD: &str = "place 3, tick 1; core 0 C; core 1 B\n";

/// Of the page of `SHARED_MUTEX`.
const SHARED: &str = "<title>Run of 5 steps: cores 2, tasks 2</title>
<a href='#comparison'>Comparison</a>
<text class='k' x='8' y='16'>before the edits</text>
<a href='#place-5'>5</a>
<li id='place-5'><pre>place 5, tick 1; core 0 control; core 1 logger, due by pend
blocked; control logger -&gt; true: the mutex was taken; control logger
<pre>    before      after     change number";

/// The comparison of the same page from place 2 to place 3: the other rows are `0 0`, `- 1` and
/// `4 4`.
const SHARED_AT: &str = "<pre>| 1 2 mutex_take core 0 by control mutex 0 ticks 5: \
    blocked; control logger -&gt; true: the mutex was taken; control logger
- 2 - switch core 0: done; IDLE0 logger
| 3 3 tick: done; IDLE0 logger -&gt; done; control logger
rows at other places, left out: 3
the runs differ first at - 1 and last at 4 4
";

/// Of the page of the settled run of `FIRST_RUN`, from place 2 on.
const SETTLED: &str = "<title>Settled run of 5 steps: cores 2, tasks 3</title>
<a href='#place-2'>2</a>
<li id='place-2'><pre>place 2, tick 0; core 0 C; core 1 B
<pre>     value number
<caption>load</caption>
<tr><td><meter max='1000' value='0'></meter> 0.0%</td>\
<td><meter max='1000' value='1000'></meter> 100.0%</td><td>100.0%</td><th scope='row'>B</th></tr>
<caption>A: response, jobs that ended: 1</caption>
<tr><th scope='row'>0 to 0</th><td><meter max='1' value='1'></meter> 1</td></tr>";

/// Of the page of a workload with an edit.
const SIMULATED: &str = "<title>Simulated run of 4 steps: cores 2, tasks 1</title>
<a href='#comparison'>Comparison</a>
<text class='k' x='8' y='16'>before the edits</text>
the runs differ first at 0 - and last at - 3
<li id='place-0'><pre>place 0, tick 0; core 0 A; core 1 IDLE0
         1          2         +1 A.run.longest";

/// Of its picture. Place 0 after the edit stands behind the first four steps before it.
const ASIDE: &str = "<text class='k' x='8' y='228'>after the edits</text>
<text class='s' x='312' y='258'>0</text>";

#[test]
fn a_trace_by_places(rt: HostRuntime) -> Result<(), Fail> {
    let alloc = rt.alloc();
    let session = session_in(alloc, FIRST_RUN)?;
    let mut meter = Meter::new(&rt);
    let places = Places { from: 2, to: 3 };
    let texts = trace_by_places(alloc, &mut meter, places, &session)?;
    assert_eq!(rt; texts.len(), 2);
    assert_eq!(rt; texts[0].as_str(), SECOND);
    assert_eq!(rt; texts[1].as_str(), THIRD);
    Ok(())
}

#[test]
fn a_page_of_parts(rt: HostRuntime) -> Result<(), Fail> {
    let page = sample(rt.alloc())?;
    for printed in [
        "<title>A &lt;run&gt;</title>",
        "<div id='sheet'>\n<svg></svg>\n</div>",
        "<a href='#place-7'>7</a>",
        "<li id='place-7'><pre>place 7 &amp; &#39;more&#39;\n</pre></li>",
        "<h2>Report</h2>\n<p>a report</p>\n</section>",
    ] {
        expect_part(&rt, page.as_slice(), printed);
    }
    Ok(())
}

// A browser runs the script of a page only where its first lines have the hash of the script.
#[test]
fn the_hash_of_the_script(rt: HostRuntime) -> Result<(), Fail> {
    let alloc = rt.alloc();
    let page = sample(alloc)?;
    let text = std::str::from_utf8(page.as_slice()).unwrap_or("");
    let script = between(text, "<script>", "</script>");
    let hash = STANDARD.encode(alloc, &Sha256::digest(script.as_bytes()))?;
    assert!(rt; script.contains("addEventListener('keydown'"));
    assert_eq!(rt; between(text, "script-src 'sha256-", "'"), hash.as_str());
    Ok(())
}

/// The steps of sessions as they stand.
const PLAIN: SessionRuns = SessionRuns::AsWritten;

#[test]
fn pages_of_documents(rt: HostRuntime) -> Result<(), Fail> {
    let all = from_on(0);
    expect(&rt, &rt, PLAIN, all, SHARED_MUTEX, SHARED, NO_NINTH);
    let settled = SessionRuns::Settled;
    expect(&rt, &rt, settled, from_on(2), FIRST_RUN, SETTLED, "");
    expect(&rt, &rt, PLAIN, all, EDITED, SIMULATED, "");
    Ok(())
}

#[test]
fn a_picture_of_a_workload(rt: HostRuntime) -> Result<(), Fail> {
    let picture = told_of(&rt, &rt, PLAIN, Ask::Timeline(from_on(0)), EDITED, "");
    for printed in ASIDE.lines() {
        expect_part(&rt, picture.as_slice(), printed);
    }
    Ok(())
}

// The comparison has the rows at the places of the page.
#[test]
fn a_page_compares_its_places(rt: HostRuntime) -> Result<(), Fail> {
    let extent = Extent {
        places: Places { from: 2, to: 3 },
        axis: Axis::Places,
    };
    let page = told_of(&rt, &rt, PLAIN, Ask::Page(extent), SHARED_MUTEX, NO_NINTH);
    expect_part(&rt, page.as_slice(), SHARED_AT);
    Ok(())
}

// A page of one place, with words that have marks of HTML.
fn sample(alloc: Global) -> Result<Vec<u8>, AllocError> {
    let mut places = Vec::new(alloc);
    places.push(String::from_str(alloc, "place 7 & 'more'\n")?)?;
    let parts = Parts {
        title: String::from_str(alloc, "A <run>")?,
        picture: String::from_str(alloc, "<svg></svg>\n")?.into_bytes(),
        first: 7,
        places,
        comparison: None,
        report: String::from_str(alloc, "<p>a report</p>\n")?.into_bytes(),
    };
    page(alloc, &parts)
}

// What stands in the text behind the one and before the next of the other.
fn between<'a>(text: &'a str, one: &str, other: &str) -> &'a str {
    let (_, behind) = text.split_once(one).unwrap_or(("", ""));
    let (within, _) = behind.split_once(other).unwrap_or(("", ""));
    within
}

// The places from this one on, by their numbers.
fn from_on(from: u32) -> Extent {
    let to = u32::MAX;
    Extent {
        places: Places { from, to },
        axis: Axis::Places,
    }
}

fn expect<R: Threads + Abort + Sync>(
    rt: &R,
    host: &HostRuntime,
    sessions: SessionRuns,
    extent: Extent,
    document: &str,
    wanted: &str,
    note: &str,
) {
    let page = told_of(rt, host, sessions, Ask::Page(extent), document, note);
    for printed in wanted.lines() {
        expect_part(rt, page.as_slice(), printed);
    }
    expect_here(rt, page.as_slice());
}

// What is asked of the document.
fn told_of<R: Threads + Abort + Sync>(
    rt: &R,
    host: &HostRuntime,
    sessions: SessionRuns,
    asked: Ask,
    document: &str,
    note: &str,
) -> Vec<u8> {
    let job = Job {
        command: Command::Show(asked),
        sessions,
        documents: Documents::All,
        strict: false,
    };
    let mut shown = Vec::new(host.alloc());
    let mut reader = Counted::new(document.as_bytes());
    let mut writer = Counted::new(&mut shown);
    let progress = &mut Silent;
    let alloc = host.alloc();
    let ending = run(rt, host, progress, alloc, &mut reader, &mut writer, &job);
    assert_eq!(rt; ending.code(), 0);
    assert!(rt; ending.message() == note.as_bytes());
    shown
}

// Nothing is loaded from elsewhere, and links lead to what is in the page.
fn expect_here(rt: &impl Abort, page: &[u8]) {
    let text = std::str::from_utf8(page).unwrap_or("");
    expect_each(rt, text, "href=", "'#");
    expect_each(rt, text, "url(", "#");
    for loading in ["src=", "@import"] {
        assert!(rt; !text.contains(loading), "{loading}");
    }
}

// Behind each of these words the other one follows.
fn expect_each(rt: &impl Abort, text: &str, word: &str, wanted: &str) {
    let (_, behind) = text.split_once(word).unwrap_or(("", wanted));
    for part in behind.split(word) {
        assert!(rt; part.starts_with(wanted), "{part}");
    }
}

fn expect_part(rt: &impl Abort, page: &[u8], printed: &str) {
    let text = std::str::from_utf8(page).unwrap_or("");
    assert!(rt; text.contains(printed), "{printed}");
}
