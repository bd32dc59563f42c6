//! The calls that read and write texts.
ghost use Rattle.std.specs.Prelude.{◌≡◌, IfSome};
ghost use Rattle.bench_types.specs.Session.{IsSession};

use crate::call_result::CallResult;
use crate::worked::header;
use bench_types::{Call, Edit, Header, Step};
use session_text::{TextFault, Why, read_bench, read_edit, read_rig, read_session};
use session_write::write_session;
use std::alloc::{AllocError, Global};

/// A session as it is written.
const SESSION: &str =
    r#"{"cores":2,"format":1,"mutexes":0,"priorities":5,"slicing":true,"steps":[{"do":"tick"},{"core":1,"do":"switch"}],"tasks":[{"mask":3,"name":"A","priority":2},{"mask":3,"name":"B","priority":1},{"mask":3,"name":"C","priority":1}],"tick":0}"#;

const STEPS: [Step; 2] = [Step::Tick, Step::Switch { core: 1 }];

/// The same with an edit.
const BENCH: &str =
    r#"{"session":{"cores":2,"format":1,"mutexes":0,"priorities":5,"slicing":true,"steps":[{"do":"tick"}],"tasks":[{"mask":3,"name":"A","priority":2}],"tick":0},"edits":[{"edit":"remove","at":0}]}"#;

const EDIT: &str = r#"{"edit":"insert","at":1,"step":{"do":"delay","core":0,"by":"A","ticks":2}}"#;

/// A rig of which core 0 makes a tick.
const RIG: &str =
    r#"{"session":{"cores":2,"format":1,"mutexes":0,"priorities":5,"slicing":true,"steps":[],"tasks":[{"mask":3,"name":"A","priority":2}],"tick":0},"limit":10,"scripts":[[{"do":"tick"}],[]]}"#;

/// Whether memory ran out, at no place of the text.
fn is_want(fault: &TextFault) -> bool {
    fault.why == Why::NoMemory && fault.path.as_str().is_empty()
}

/// The session, where the text is read.
fn sessions(alloc: Global) -> Option<(Header, Vec<Step>)>
    ensures { IfSome result
        (λ read. IsSession (record { header = read.0; steps = read.1.items })) }
{
    read_session(alloc, SESSION.as_bytes()).ok()
}

fn is_session(read: &(Header, Vec<Step>)) -> bool {
    read.0.tasks.as_slice().len() == 3 && read.1.as_slice() == STEPS.as_slice()
}

pub(crate) fn session(alloc: Global) -> CallResult {
    match read_session(alloc, SESSION.as_bytes()) {
        Ok(read) => CallResult::answered(is_session(&read)),
        Err(fault) => {
            let retried = sessions(alloc).is_some_and(|read| is_session(&read));
            CallResult::refused(is_want(&fault) && retried)
        }
    }
}

/// Whether the text is read as a bench document of a step and an edit, or why not.
fn reads_bench(alloc: Global) -> Result<bool, TextFault> {
    let bench = read_bench(alloc, BENCH.as_bytes())?;
    let is_step = bench.steps.as_slice() == [Step::Tick].as_slice();
    Ok(is_step && bench.edits.as_slice() == [Edit::Remove { at: 0 }].as_slice())
}

pub(crate) fn bench(alloc: Global) -> CallResult {
    match reads_bench(alloc) {
        Ok(is_right) => CallResult::answered(is_right),
        Err(fault) => {
            let retried = reads_bench(alloc).unwrap_or(false);
            CallResult::refused(is_want(&fault) && retried)
        }
    }
}

/// A's delay on core 0 is put in at 1.
const A_DELAYS: Edit = Edit::Insert {
    at: 1,
    step: Step::Call {
        core: 0,
        task: 2,
        call: Call::Delay(2),
    },
};

pub(crate) fn edit(alloc: Global) -> Option<CallResult> {
    let header = header(alloc)?;
    Some(match read_edit(alloc, EDIT.as_bytes(), &header) {
        Ok(edit) => CallResult::answered(edit == A_DELAYS),
        Err(fault) => {
            let retried = read_edit(alloc, EDIT.as_bytes(), &header).ok();
            CallResult::refused(is_want(&fault) && retried == Some(A_DELAYS))
        }
    })
}

/// Whether the text is read as a rig document, or why not.
fn reads_rig(alloc: Global) -> Result<bool, TextFault> {
    let rig = read_rig(alloc, RIG.as_bytes())?;
    Ok(rig.limit == 10 && rig.scripts.as_slice().len() == 2)
}

pub(crate) fn rig(alloc: Global) -> CallResult {
    match reads_rig(alloc) {
        Ok(is_right) => CallResult::answered(is_right),
        Err(fault) => {
            let retried = reads_rig(alloc).unwrap_or(false);
            CallResult::refused(is_want(&fault) && retried)
        }
    }
}

/// A text that breaks off.
const NO_JSON: &str = r#"{"format":1,"tasks":[{"name":"A"#;

/// Whether the text is no JSON, at no place of it.
fn is_no_json(fault: &TextFault) -> bool {
    fault.why == Why::NotJson && fault.path.as_str().is_empty()
}

pub(crate) fn no_json(alloc: Global) -> CallResult {
    match read_session(alloc, NO_JSON.as_bytes()) {
        Ok(_) => CallResult::answered(false),
        Err(fault) => refusal_of(alloc, &fault),
    }
}

/// What came of the reading that was refused with this fault.
fn refusal_of(alloc: Global, fault: &TextFault) -> CallResult {
    if !is_want(fault) {
        return CallResult::answered(is_no_json(fault));
    }
    match read_session(alloc, NO_JSON.as_bytes()) {
        Ok(_) => CallResult::refused(false),
        Err(fault) => CallResult::refused(is_no_json(&fault)),
    }
}

pub(crate) fn written(alloc: Global) -> Option<CallResult> {
    let (header, steps) = sessions(alloc)?;
    Some(match writes(alloc, &header, &steps) {
        Ok(is_right) => CallResult::answered(is_right),
        Err(AllocError) => CallResult::refused(writes(alloc, &header, &steps) == Ok(true)),
    })
}

/// Whether the session is written as the text that it was read from.
fn writes(alloc: Global, header: &Header, steps: &[Step]) -> Result<bool, AllocError>
    requires { IsSession (record { header = header.now; steps = steps.now }) }
{
    let bytes = write_session(alloc, header, steps)?;
    Ok(bytes.as_slice() == SESSION.as_bytes())
}
