//! Members that stand twice in an object: which is the first, and at which token. Worked out by
//! hand.

use crate::expected::{expect_is, expect_same};
use crate::texts::sessions::SESSION;
use json_data::{Document, Doubled, Scratch};
use session_text::{DoubledMember, read_bench_noted, read_rig_noted};
use std::alloc::{AllocError, Global};
use std::process::Abort;
use std::test::Fail;

// Texts, and of each the first member that stands twice, with the index of its token.
const TEXTS: &[(&str, Option<(&str, usize)>)] = &[
    ("{}", None),
    ("7", None),
    ("[[],{}]", None),
    ("{\"a\":1,\"b\":2}", None),
    ("{\"a\":1,\"a\":2}", Some(("a", 3))),
    ("{\"a\":1,\"a\":2,\"a\":3}", Some(("a", 3))),
    ("{\"a\":1,\"b\":2,\"b\":3,\"a\":4}", Some(("b", 5))),
    ("{\"\":1,\"\":2}", Some(("", 3))),
    // The same name in other letters, and another that looks like it.
    ("{\"a\":1,\"\\u0061\":2}", Some(("a", 3))),
    ("{\"a\":1,\"A\":2,\"a \":3}", None),
    // The names of other objects.
    (
        "{\"a\":{\"a\":[{\"a\":1},{\"a\":2}]},\"b\":{\"b\":3}}",
        None,
    ),
    ("[{\"a\":1},{\"a\":2}]", None),
    // In an object within, before the outer one's and after it.
    ("{\"a\":{\"b\":1,\"b\":2},\"a\":3}", Some(("b", 5))),
    ("{\"a\":[{\"b\":[1]}],\"a\":3}", Some(("a", 10))),
    ("{\"a\":1,\"a\":{\"b\":2,\"b\":3}}", Some(("a", 3))),
    (
        "[null,[true,{\"c\":\"\",\"d\":{},\"c\":[]}]]",
        Some(("c", 10)),
    ),
];

fn printed_of<'a>(doubled: Option<Doubled<'a>>) -> Option<(&'a str, usize)> {
    match doubled {
        Some(doubled) => Some((doubled.name, doubled.token)),
        None => None,
    }
}

fn check_doubled(
    rt: &impl Abort,
    alloc: Global,
    text: &str,
    wanted: Option<(&str, usize)>,
) -> Result<(), Fail> {
    let mut scratch = Scratch::new(alloc);
    match Document::parse(alloc, text.as_bytes(), &mut scratch) {
        Ok(document) => {
            let doubled = document.doubled(alloc)?;
            expect_is(rt, printed_of(doubled) == wanted);
        }
        Err(_) => return Err(Fail::from("the text is JSON")),
    }
    Ok(())
}

#[test]
fn first_members_that_stand_twice(rt: HostRuntime) -> Result<(), Fail> {
    for (text, wanted) in TEXTS {
        check_doubled(&rt, rt.alloc(), text, *wanted)?;
    }
    Ok(())
}

/// An object of so many members of names of their own, and one more of this name.
fn large(alloc: Global, count: u32, name: &str) -> Result<String, AllocError> {
    let mut text = String::from_str(alloc, "{")?;
    for index in 0..count {
        write!(text, "\"m{index}\":0,")?;
    }
    write!(text, "\"{name}\":1}}")?;
    Ok(text)
}

/// More members than are compared one after another.
#[test]
fn objects_of_many_members(rt: HostRuntime) -> Result<(), Fail> {
    for (count, name, twice) in [
        (15, "m0", true),
        (16, "m15", true),
        (17, "m16", true),
        (17, "m17", false),
        (400, "m3", true),
        (400, "m300", true),
        (400, "m399", true),
        (400, "m400", false),
    ] {
        let text = large(rt.alloc(), count, name)?;
        let token = 2 * count as usize + 1;
        let wanted = twice.then_some((name, token));
        check_doubled(&rt, rt.alloc(), text.as_str(), wanted)?;
    }
    Ok(())
}

fn check_member(rt: &impl Abort, member: &Option<DoubledMember>, name: &str, token: usize) {
    match member {
        Some(member) => {
            expect_is(rt, member.name.as_str() == name);
            expect_same(rt, member.token, token);
        }
        None => expect_is(rt, false),
    }
}

/// A bench that is a session in which a task has its priority twice.
#[test]
fn benches(rt: HostRuntime) -> Result<(), Fail> {
    let alloc = rt.alloc();
    let Ok(plain) = read_bench_noted(alloc, SESSION.as_bytes()) else {
        return Err(Fail::from("the text is a session"));
    };
    expect_is(&rt, plain.doubled.is_none());
    expect_same(&rt, plain.document.steps.as_slice().len(), 5);
    let text =
        "{\"format\":1,\"cores\":2,\"priorities\":5,\"slicing\":false,\"tick\":0,\"mutexes\":0,\"tasks\":[{\"name\":\"A\",\"priority\":9,\"mask\":3,\"priority\":2}],\"steps\":[]}";
    match read_bench_noted(alloc, text.as_bytes()) {
        Ok(noted) => {
            match noted.document.header.tasks.as_slice().get(0) {
                Some(task) => expect_same(&rt, task.priority, 2),
                None => expect_is(&rt, false),
            }
            check_member(&rt, &noted.doubled, "priority", 22);
        }
        Err(_) => return Err(Fail::from("the text is a session")),
    }
    Ok(())
}

/// A rig that has its limit twice.
#[test]
fn rigs(rt: HostRuntime) -> Result<(), Fail> {
    let text =
        "{\"limit\":3,\"session\":{\"format\":1,\"cores\":2,\"priorities\":5,\"slicing\":false,\"tick\":0,\"mutexes\":0,\"tasks\":[{\"name\":\"A\",\"priority\":2,\"mask\":3}],\"steps\":[]},\"limit\":10,\"scripts\":[[],[]]}";
    match read_rig_noted(rt.alloc(), text.as_bytes()) {
        Ok(noted) => {
            expect_same(&rt, noted.document.limit, 10);
            check_member(&rt, &noted.doubled, "limit", 32);
        }
        Err(_) => return Err(Fail::from("the text is a rig")),
    }
    Ok(())
}
