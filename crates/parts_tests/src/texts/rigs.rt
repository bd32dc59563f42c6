//! Rig documents as texts, and what reading them gives: worked out by hand from the format's
//! description.

use crate::expected::expect_same;
use bench_types::{Call, CoreAction, Note, NotifyAction};
use session_text::{RigScript, read_rig};
use std::alloc::Global;
use std::process::Abort;
use std::test::Fail;

/// A rig of two cores, of the second with no tick.
const RIG: &str =
    "{\"session\":{\"format\":1,\"cores\":2,\"priorities\":5,\"slicing\":false,\"tick\":0,\"mutexes\":1,\"tasks\":[{\"name\":\"A\",\"priority\":2,\"mask\":3},{\"name\":\"B\",\"priority\":1,\"mask\":3}],\"steps\":[]},\"limit\":10,\"scripts\":[[{\"do\":\"tick\"},{\"do\":\"yield\"},{\"do\":\"isr_notify\",\"to\":\"A\",\"action\":\"increment\"}],[{\"do\":\"switch\"},{\"do\":\"delay\",\"ticks\":7}]]}";

fn is_rig(alloc: Global, text: &[u8]) -> bool {
    read_rig(alloc, text).is_ok()
}

#[test]
fn prefixes_of_a_rig_are_no_json(rt: HostRuntime) -> Result<(), Fail> {
    let bytes = RIG.as_bytes();
    for end in 0..bytes.len() {
        assert!(&rt; !is_rig(rt.alloc(), &bytes[..end]), "{end}");
    }
    Ok(())
}

// Each core's actions in the document.
const FIRST: &[CoreAction] = &[
    CoreAction::Tick,
    CoreAction::Call(Call::Yield),
    CoreAction::Interrupt(Note {
        task: 2,
        action: NotifyAction::Increment,
        index: 0,
    }),
];

const SECOND: &[CoreAction] = &[CoreAction::Switch, CoreAction::Call(Call::Delay(7))];

fn check_rig(rt: &impl Abort, rig: &RigScript) {
    expect_same(rt, &rig.header.config.cores, &2);
    expect_same(rt, &rig.header.tasks.as_slice().len(), &2);
    expect_same(rt, &rig.limit, &10);
    let scripts = rig.scripts.as_slice();
    assert_eq!(rt; scripts.len(), 2);
    expect_same(rt, &scripts[0].as_slice(), &FIRST);
    expect_same(rt, &scripts[1].as_slice(), &SECOND);
}

#[test]
fn what_a_rig_has(rt: HostRuntime) -> Result<(), Fail> {
    match read_rig(rt.alloc(), RIG.as_bytes()) {
        Ok(rig) => check_rig(&rt, &rig),
        Err(_) => return Err(Fail::from("the text is a rig")),
    }
    Ok(())
}
