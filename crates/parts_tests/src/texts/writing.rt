//! Sessions that are written, and read back.
ghost use Rattle.bench_types.specs.Session.{IsSession};

use crate::texts::sessions::{session_of, with_steps};
use crate::texts::values::check_steps;
use bench_types::{Header, Step};
use session_write::write_session;
use std::alloc::{AllocError, Global};
use std::process::Abort;
use std::test::Fail;

/// Texts of sessions, and what is written for them: worked out by hand from the format's
/// description.
const WRITTEN: &[(&str, &str)] = &[
    (
        "{\"cores\":2,\"format\":1,\"mutexes\":0,\"priorities\":5,\"slicing\":false,\"steps\":[{\"do\":\"tick\"},{\"core\":1,\"do\":\"switch\"}],\"tasks\":[{\"mask\":3,\"name\":\"A\",\"priority\":2},{\"mask\":3,\"name\":\"B\",\"priority\":1},{\"mask\":3,\"name\":\"C\",\"priority\":1}],\"tick\":0}",
        "{\"cores\":2,\"format\":1,\"mutexes\":0,\"priorities\":5,\"slicing\":false,\"steps\":[{\"do\":\"tick\"},{\"core\":1,\"do\":\"switch\"}],\"tasks\":[{\"mask\":3,\"name\":\"A\",\"priority\":2},{\"mask\":3,\"name\":\"B\",\"priority\":1},{\"mask\":3,\"name\":\"C\",\"priority\":1}],\"tick\":0}",
    ),
    (
        "{\"cores\":2,\"format\":1,\"mutexes\":0,\"priorities\":5,\"slicing\":true,\"steps\":[{\"do\":\"tick\"},{\"core\":1,\"do\":\"switch\"}],\"tasks\":[{\"mask\":3,\"name\":\"A\",\"priority\":2},{\"mask\":3,\"name\":\"B\",\"priority\":1},{\"mask\":3,\"name\":\"C\",\"priority\":1}],\"tick\":0}",
        "{\"cores\":2,\"format\":1,\"mutexes\":0,\"priorities\":5,\"slicing\":true,\"steps\":[{\"do\":\"tick\"},{\"core\":1,\"do\":\"switch\"}],\"tasks\":[{\"mask\":3,\"name\":\"A\",\"priority\":2},{\"mask\":3,\"name\":\"B\",\"priority\":1},{\"mask\":3,\"name\":\"C\",\"priority\":1}],\"tick\":0}",
    ),
    (
        "{\"format\":1,\"cores\":2,\"priorities\":5,\"slicing\":false,\"tick\":0,\"mutexes\":0,\"tasks\":[{\"name\":\"A\",\"priority\":2,\"mask\":3},{\"name\":\"B\",\"priority\":1,\"mask\":3}],\"steps\":[{\"do\":\"tick\"},{\"do\":\"switch\",\"core\":1},{\"do\":\"yield\",\"core\":0,\"by\":\"A\"},{\"do\":\"delay\",\"core\":0,\"by\":\"A\",\"ticks\":7},{\"do\":\"finish\",\"core\":1,\"by\":\"B\"}]}",
        "{\"cores\":2,\"format\":1,\"mutexes\":0,\"priorities\":5,\"slicing\":false,\"steps\":[{\"do\":\"tick\"},{\"core\":1,\"do\":\"switch\"},{\"by\":\"A\",\"core\":0,\"do\":\"yield\"},{\"by\":\"A\",\"core\":0,\"do\":\"delay\",\"ticks\":7},{\"by\":\"B\",\"core\":1,\"do\":\"finish\"}],\"tasks\":[{\"mask\":3,\"name\":\"A\",\"priority\":2},{\"mask\":3,\"name\":\"B\",\"priority\":1}],\"tick\":0}",
    ),
    (
        " { \"format\": 1, \"cores\": 8, \"priorities\": 32, \"slicing\": false, \"tick\": 4294967295, \"mutexes\": 32,\n \"tasks\": [ { \"name\": \"a\\u0022\\/\", \"priority\": 31, \"mask\": 4294967295 } ],\r\n\t\"steps\": [ ] } ",
        "{\"cores\":8,\"format\":1,\"mutexes\":32,\"priorities\":32,\"slicing\":false,\"steps\":[],\"tasks\":[{\"mask\":4294967295,\"name\":\"a\\\"/\",\"priority\":31}],\"tick\":4294967295}",
    ),
    (
        "{\"format\":1,\"cores\":2,\"priorities\":1,\"slicing\":false,\"tick\":10,\"mutexes\":0,\"tasks\":[{\"name\":\"\\\\\",\"priority\":0,\"mask\":1},{\"name\":\"\\\"\",\"priority\":0,\"mask\":2}],\"steps\":[{\"do\":\"delay\",\"core\":1,\"by\":\"\\\"\",\"ticks\":4294967295},{\"do\":\"finish\",\"core\":0,\"by\":\"\\u005c\"}]}",
        "{\"cores\":2,\"format\":1,\"mutexes\":0,\"priorities\":1,\"slicing\":false,\"steps\":[{\"by\":\"\\\"\",\"core\":1,\"do\":\"delay\",\"ticks\":4294967295},{\"by\":\"\\\\\",\"core\":0,\"do\":\"finish\"}],\"tasks\":[{\"mask\":1,\"name\":\"\\\\\",\"priority\":0},{\"mask\":2,\"name\":\"\\\"\",\"priority\":0}],\"tick\":10}",
    ),
    (
        "{\"format\":3,\"cores\":2,\"priorities\":5,\"slicing\":false,\"tick\":0,\"mutexes\":0,\"notes\":1,\"queues\":[{\"messages\":0,\"length\":1},{\"length\":4294967295,\"messages\":7}],\"tasks\":[{\"name\":\"A\",\"priority\":2,\"mask\":3}],\"steps\":[{\"do\":\"isr_notify\",\"core\":1,\"to\":\"A\",\"action\":\"none\"}]}",
        "{\"cores\":2,\"format\":3,\"mutexes\":0,\"notes\":1,\"priorities\":5,\"queues\":[{\"length\":1,\"messages\":0},{\"length\":4294967295,\"messages\":7}],\"slicing\":false,\"steps\":[{\"action\":\"none\",\"core\":1,\"do\":\"isr_notify\",\"index\":0,\"to\":\"A\"}],\"tasks\":[{\"mask\":3,\"name\":\"A\",\"priority\":2}],\"tick\":0}",
    ),
    (
        "{\"format\":3,\"cores\":2,\"priorities\":5,\"slicing\":true,\"tick\":3,\"mutexes\":1,\"notes\":8,\"queues\":[],\"tasks\":[{\"name\":\"A\",\"priority\":2,\"mask\":3}],\"steps\":[]}",
        "{\"cores\":2,\"format\":3,\"mutexes\":1,\"notes\":8,\"priorities\":5,\"queues\":[],\"slicing\":true,\"steps\":[],\"tasks\":[{\"mask\":3,\"name\":\"A\",\"priority\":2}],\"tick\":3}",
    ),
];

// Steps, each as it may stand in a text and as it is written.
const STEPS: &str = r#"
{"do":"tick"} | {"do":"tick"}
{"do":"switch","core":1} | {"core":1,"do":"switch"}
{"do":"yield","core":0,"by":"A"} | {"by":"A","core":0,"do":"yield"}
{"ticks":4294967295,"by":"B","do":"delay","core":1} | {"by":"B","core":1,"do":"delay","ticks":4294967295}
{"do":"finish","core":1,"by":"B"} | {"by":"B","core":1,"do":"finish"}
{"do":"priority_set","core":0,"by":"A","to":"B","priority":4294967295} | {"by":"A","core":0,"do":"priority_set","priority":4294967295,"to":"B"}
{"do":"affinity_set","core":1,"by":"B","to":"A","mask":6} | {"by":"B","core":1,"do":"affinity_set","mask":6,"to":"A"}
{"do":"preempt_off","core":0,"by":"A","to":"A"} | {"by":"A","core":0,"do":"preempt_off","to":"A"}
{"do":"preempt_on","core":1,"by":"A","to":"B"} | {"by":"A","core":1,"do":"preempt_on","to":"B"}
{"action":"set_new","value":0,"do":"isr_notify","core":1,"to":"B"} | {"action":"set_new","core":1,"do":"isr_notify","to":"B","value":0}
{"do":"isr_notify","core":1,"to":"A","action":"set","value":4294967295} | {"action":"set","core":1,"do":"isr_notify","to":"A","value":4294967295}
{"do":"isr_notify","core":1,"to":"A","action":"increment"} | {"action":"increment","core":1,"do":"isr_notify","to":"A"}
{"value":6,"do":"isr_notify","to":"A","action":"set_bits","core":0} | {"action":"set_bits","core":0,"do":"isr_notify","to":"A","value":6}
{"to":"B","do":"isr_notify","core":0,"action":"none"} | {"action":"none","core":0,"do":"isr_notify","to":"B"}
{"do":"notify","core":1,"by":"A","to":"A","action":"set_new","value":8} | {"action":"set_new","by":"A","core":1,"do":"notify","to":"A","value":8}
{"by":"B","value":0,"do":"notify","core":0,"to":"A","action":"set"} | {"action":"set","by":"B","core":0,"do":"notify","to":"A","value":0}
{"action":"increment","do":"notify","core":0,"by":"A","to":"B"} | {"action":"increment","by":"A","core":0,"do":"notify","to":"B"}
{"do":"notify","core":1,"by":"B","to":"A","action":"set_bits","value":4294967295} | {"action":"set_bits","by":"B","core":1,"do":"notify","to":"A","value":4294967295}
{"do":"notify","core":1,"by":"B","to":"A","action":"none"} | {"action":"none","by":"B","core":1,"do":"notify","to":"A"}
{"bits":4294967295,"to":"A","by":"B","core":1,"do":"value_clear"} | {"bits":4294967295,"by":"B","core":1,"do":"value_clear","to":"A"}
{"to":"A","do":"state_clear","core":1,"by":"B"} | {"by":"B","core":1,"do":"state_clear","to":"A"}
{"do":"notify_take","core":1,"by":"B","clear":false,"ticks":4294967295} | {"by":"B","clear":false,"core":1,"do":"notify_take","ticks":4294967295}
{"ticks":0,"clear":true,"do":"notify_take","core":1,"by":"B"} | {"by":"B","clear":true,"core":1,"do":"notify_take","ticks":0}
{"do":"notify_wait","ticks":0,"exit":4294967295,"entry":9,"core":0,"by":"A"} | {"by":"A","core":0,"do":"notify_wait","entry":9,"exit":4294967295,"ticks":0}
{"do":"mutex_take","core":0,"by":"A","mutex":1,"ticks":5} | {"by":"A","core":0,"do":"mutex_take","mutex":1,"ticks":5}
{"ticks":4294967295,"mutex":0,"by":"B","core":1,"do":"mutex_take"} | {"by":"B","core":1,"do":"mutex_take","mutex":0,"ticks":4294967295}
{"do":"mutex_give","core":0,"by":"A","mutex":1} | {"by":"A","core":0,"do":"mutex_give","mutex":1}
{"mutex":0,"by":"B","core":1,"do":"mutex_give"} | {"by":"B","core":1,"do":"mutex_give","mutex":0}
{"do":"delay_until","core":0,"by":"B","prev":7,"inc":9} | {"by":"B","core":0,"do":"delay_until","inc":9,"prev":7}
{"prev":0,"inc":4294967295,"by":"A","core":1,"do":"delay_until"} | {"by":"A","core":1,"do":"delay_until","inc":4294967295,"prev":0}
{"inc":1,"do":"delay_until","by":"A","prev":4294967295,"core":0} | {"by":"A","core":0,"do":"delay_until","inc":1,"prev":4294967295}
{"do":"hold_open","core":1,"by":"A"} | {"by":"A","core":1,"do":"hold_open"}
{"core":0,"by":"B","do":"hold_open"} | {"by":"B","core":0,"do":"hold_open"}
{"do":"hold_close","core":0,"by":"A"} | {"by":"A","core":0,"do":"hold_close"}
{"by":"B","core":1,"do":"hold_close"} | {"by":"B","core":1,"do":"hold_close"}
"#;

// A session whose tasks' names have, one after another, every byte that a name may have, spelled by
// escapes; each task makes a call. And what is written for it.
const ALL_BYTES: (&str, &str) = (
    "{\"format\":1,\"cores\":2,\"priorities\":5,\"slicing\":false,\"tick\":0,\"mutexes\":0,\"tasks\":[{\"name\":\"\\u0021\\u0022\\u0023\\u0024\\u0025\\u0026\\u0027\\u0028\\u0029\\u002a\\u002b\\u002c\\u002d\\u002e\\u002f\",\"priority\":1,\"mask\":3},{\"name\":\"\\u0030\\u0031\\u0032\\u0033\\u0034\\u0035\\u0036\\u0037\\u0038\\u0039\\u003a\\u003b\\u003c\\u003d\\u003e\",\"priority\":1,\"mask\":3},{\"name\":\"\\u003f\\u0040\\u0041\\u0042\\u0043\\u0044\\u0045\\u0046\\u0047\\u0048\\u0049\\u004a\\u004b\\u004c\\u004d\",\"priority\":1,\"mask\":3},{\"name\":\"\\u004e\\u004f\\u0050\\u0051\\u0052\\u0053\\u0054\\u0055\\u0056\\u0057\\u0058\\u0059\\u005a\\u005b\\u005c\",\"priority\":1,\"mask\":3},{\"name\":\"\\u005d\\u005e\\u005f\\u0060\\u0061\\u0062\\u0063\\u0064\\u0065\\u0066\\u0067\\u0068\\u0069\\u006a\\u006b\",\"priority\":1,\"mask\":3},{\"name\":\"\\u006c\\u006d\\u006e\\u006f\\u0070\\u0071\\u0072\\u0073\\u0074\\u0075\\u0076\\u0077\\u0078\\u0079\\u007a\",\"priority\":1,\"mask\":3},{\"name\":\"\\u007b\\u007c\\u007d\\u007e\",\"priority\":1,\"mask\":3}],\"steps\":[{\"do\":\"yield\",\"core\":1,\"by\":\"\\u0021\\u0022\\u0023\\u0024\\u0025\\u0026\\u0027\\u0028\\u0029\\u002a\\u002b\\u002c\\u002d\\u002e\\u002f\"},{\"do\":\"yield\",\"core\":1,\"by\":\"\\u0030\\u0031\\u0032\\u0033\\u0034\\u0035\\u0036\\u0037\\u0038\\u0039\\u003a\\u003b\\u003c\\u003d\\u003e\"},{\"do\":\"yield\",\"core\":1,\"by\":\"\\u003f\\u0040\\u0041\\u0042\\u0043\\u0044\\u0045\\u0046\\u0047\\u0048\\u0049\\u004a\\u004b\\u004c\\u004d\"},{\"do\":\"yield\",\"core\":1,\"by\":\"\\u004e\\u004f\\u0050\\u0051\\u0052\\u0053\\u0054\\u0055\\u0056\\u0057\\u0058\\u0059\\u005a\\u005b\\u005c\"},{\"do\":\"yield\",\"core\":1,\"by\":\"\\u005d\\u005e\\u005f\\u0060\\u0061\\u0062\\u0063\\u0064\\u0065\\u0066\\u0067\\u0068\\u0069\\u006a\\u006b\"},{\"do\":\"yield\",\"core\":1,\"by\":\"\\u006c\\u006d\\u006e\\u006f\\u0070\\u0071\\u0072\\u0073\\u0074\\u0075\\u0076\\u0077\\u0078\\u0079\\u007a\"},{\"do\":\"yield\",\"core\":1,\"by\":\"\\u007b\\u007c\\u007d\\u007e\"}]}",
    "{\"cores\":2,\"format\":1,\"mutexes\":0,\"priorities\":5,\"slicing\":false,\"steps\":[{\"by\":\"!\\\"#$%&'()*+,-./\",\"core\":1,\"do\":\"yield\"},{\"by\":\"0123456789:;<=>\",\"core\":1,\"do\":\"yield\"},{\"by\":\"?@ABCDEFGHIJKLM\",\"core\":1,\"do\":\"yield\"},{\"by\":\"NOPQRSTUVWXYZ[\\\\\",\"core\":1,\"do\":\"yield\"},{\"by\":\"]^_`abcdefghijk\",\"core\":1,\"do\":\"yield\"},{\"by\":\"lmnopqrstuvwxyz\",\"core\":1,\"do\":\"yield\"},{\"by\":\"{|}~\",\"core\":1,\"do\":\"yield\"}],\"tasks\":[{\"mask\":3,\"name\":\"!\\\"#$%&'()*+,-./\",\"priority\":1},{\"mask\":3,\"name\":\"0123456789:;<=>\",\"priority\":1},{\"mask\":3,\"name\":\"?@ABCDEFGHIJKLM\",\"priority\":1},{\"mask\":3,\"name\":\"NOPQRSTUVWXYZ[\\\\\",\"priority\":1},{\"mask\":3,\"name\":\"]^_`abcdefghijk\",\"priority\":1},{\"mask\":3,\"name\":\"lmnopqrstuvwxyz\",\"priority\":1},{\"mask\":3,\"name\":\"{|}~\",\"priority\":1}],\"tick\":0}",
);

/// What is written for a session with two mutexes, where this is written for its steps.
fn written_of(alloc: Global, steps: &str) -> Result<String, AllocError> {
    format!(in alloc;
        "{{\"cores\":2,\"format\":1,\"mutexes\":2,\"priorities\":5,\"slicing\":false,\"steps\":[{steps}],\"tasks\":[{{\"mask\":3,\"name\":\"A\",\"priority\":2}},{{\"mask\":3,\"name\":\"B\",\"priority\":1}}],\"tick\":0}}"
    )
}

/// The session is written in this way, and what is written has the same steps.
fn check_session(
    rt: &impl Abort,
    alloc: Global,
    header: &Header,
    steps: &[Step],
    want: &str,
) -> Result<(), Fail>
    requires { IsSession (record { header = header.now; steps = steps.now }) }
{
    let written = write_session(alloc, header, steps)?;
    assert_eq!(rt; written.as_slice(), want.as_bytes(), "{want}");
    check_steps(rt, alloc, want, steps)
}

/// The session that the text is, is written in this way.
fn check_written(rt: &impl Abort, alloc: Global, text: &str, want: &str) -> Result<(), Fail> {
    let (header, steps) = session_of(alloc, text)?;
    check_session(rt, alloc, &header, &steps, want)
}

#[test]
fn known_texts(rt: HostRuntime) -> Result<(), Fail> {
    for (text, want) in WRITTEN {
        check_written(&rt, rt.alloc(), text, want)?;
    }
    Ok(())
}

fn check_step(rt: &impl Abort, alloc: Global, step: &str, want: &str) -> Result<(), Fail> {
    let text = with_steps(alloc, 2, step)?;
    check_written(rt, alloc, text.as_str(), want)
}

/// As it may stand in a text, and as it is written, the step is written in this way.
fn check_kind(rt: &impl Abort, alloc: Global, step: &str, written: &str) -> Result<(), Fail> {
    let want = written_of(alloc, written)?;
    check_step(rt, alloc, step, want.as_str())?;
    check_step(rt, alloc, written, want.as_str())
}

fn check_line(rt: &impl Abort, alloc: Global, line: &str) -> Result<(), Fail> {
    let (step, written) = line.split_once(" | ").ok_or("a row has two parts")?;
    check_kind(rt, alloc, step, written)
}

#[test]
fn steps_of_every_kind(rt: HostRuntime) -> Result<(), Fail> {
    for line in STEPS.trim().lines() {
        check_line(&rt, rt.alloc(), line)?;
    }
    Ok(())
}

fn push_item(list: &mut String, item: &str) -> Result<(), AllocError> {
    let comma = if list.is_empty() { "" } else { "," };
    write!(list, "{comma}{item}")
}

/// All the steps, as they may stand in a text or as they are written.
fn all_steps(alloc: Global, are_written: bool) -> Result<String, Fail> {
    let mut steps = String::new(alloc);
    for line in STEPS.trim().lines() {
        let (step, written) = line.split_once(" | ").ok_or("a row has two parts")?;
        push_item(&mut steps, if are_written { written } else { step })?;
    }
    Ok(steps)
}

fn check_all(rt: &impl Abort, alloc: Global, want: &str) -> Result<(), Fail> {
    let steps = all_steps(alloc, false)?;
    check_step(rt, alloc, steps.as_str(), want)
}

#[test]
fn steps_in_their_order(rt: HostRuntime) -> Result<(), Fail> {
    let written = all_steps(rt.alloc(), true)?;
    let want = written_of(rt.alloc(), written.as_str())?;
    check_all(&rt, rt.alloc(), want.as_str())
}

/// So many ticks are a text of more than a million bytes.
pub(crate) const MANY: u32 = 100_000;

/// The texts of that many ticks.
pub(crate) fn many_ticks(alloc: Global) -> Result<String, AllocError> {
    let mut steps = "{\"do\":\"tick\"},".repeat(alloc, MANY as usize - 1)?;
    steps.push_str("{\"do\":\"tick\"}")?;
    Ok(steps)
}

/// A text of more than a million bytes.
#[test]
fn many_steps(rt: HostRuntime) -> Result<(), Fail> {
    let steps = many_ticks(rt.alloc())?;
    assert!(&rt; steps.len() > 1_000_000);
    let want = written_of(rt.alloc(), steps.as_str())?;
    check_step(&rt, rt.alloc(), steps.as_str(), want.as_str())
}

/// The names of the tasks, one after another.
fn names(alloc: Global, header: &Header) -> Result<String, AllocError> {
    let mut names = String::new(alloc);
    for task in header.tasks.as_slice() {
        names.push_str(task.name.as_str())?;
    }
    Ok(names)
}

/// The seven tasks' names have every byte that a name may have.
fn check_names(rt: &impl Abort, alloc: Global, header: &Header) -> Result<(), Fail> {
    assert_eq!(rt; header.tasks.as_slice().len(), 7);
    let names = names(alloc, header)?;
    assert!(rt; names.bytes().eq(b'!'..=b'~'), "{names}");
    Ok(())
}

#[test]
fn names_of_every_byte(rt: HostRuntime) -> Result<(), Fail> {
    let (text, want) = ALL_BYTES;
    check_written(&rt, rt.alloc(), text, want)?;
    let (header, _) = session_of(rt.alloc(), want)?;
    check_names(&rt, rt.alloc(), &header)
}
