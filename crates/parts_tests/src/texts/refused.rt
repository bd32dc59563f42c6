//! Texts that can't stand in a file of worked runs, since they are no text at all, and those that
//! are read as an edit or a session by itself, which the bench doesn't do: what reading them gives
//! was worked out by hand from the format's description.
ghost use Rattle.std.specs.Prelude.{◌≡◌, Ok};
ghost use Rattle.bench_types.specs.Header.{header_check};

use crate::texts::sessions::header_with;
use bench_types::{Fault, Header};
use session_text::{TextFault, Why, read_edit, read_session};
use std::alloc::Global;
use std::process::Abort;
use std::test::Fail;

/// Bytes that are no text at all, or no JSON.
const NO_JSON: &[&[u8]] = &[
    b"\xff",
    b"{\"a\":\"\xc3\"}",
    b"{\"a\":\"\xed\xa0\x80\"}",
    b"\xfe\xff{}",
    b"{}\x00",
    b"\xc0\x80",
    b"\xef\xbb\xbf{}",
    b"{\"a\":\"\t\"}",
];

/// Texts of edits, and why and where each is refused.
const EDITS: &[(&str, Why, &str)] = &[
    ("", Why::NotJson, ""),
    ("{\"edit\":\"remove\",\"at\":7", Why::NotJson, ""),
    ("[]", Why::BadShape, "top"),
    ("{\"edit\":\"undo\"}", Why::BadShape, "edit"),
    (
        "{\"edit\":\"insert\",\"at\":0,\"step\":{\"do\":\"delay\",\"core\":0,\"by\":\"A\"}}",
        Why::BadShape,
        "step.ticks",
    ),
    (
        "{\"edit\":\"insert\",\"at\":0,\"step\":{\"do\":\"switch\",\"core\":2}}",
        Why::Bench(Fault::BadCore),
        "top",
    ),
    (
        "{\"edit\":\"change\",\"task\":\"A\",\"priority\":5,\"mask\":1}",
        Why::Bench(Fault::BadHeader),
        "top",
    ),
];

/// The text was refused for this, at this path.
pub fn check_fault(rt: &impl Abort, fault: Option<&TextFault>, why: Why, path: &str) {
    let printed = fault.map(|fault| (fault.why, fault.path.as_str()));
    assert_eq!(rt; printed, Some((why, path)));
}

/// The text is refused as a session for this, at this path.
pub fn check_session(rt: &impl Abort, alloc: Global, text: &[u8], why: Why, path: &str) {
    let fault = read_session(alloc, text).err();
    check_fault(rt, fault.as_ref(), why, path);
}

/// The text is refused as an edit for this, at this path.
pub fn check_edit(rt: &impl Abort, alloc: Global, text: &str, header: &Header, why: Why, path: &str)
    requires { header_check header.now ≡ Ok tt }
{
    let fault = read_edit(alloc, text.as_bytes(), header).err();
    check_fault(rt, fault.as_ref(), why, path);
}

#[test]
fn bytes_that_are_no_json(rt: HostRuntime) -> Result<(), Fail> {
    for bytes in NO_JSON {
        check_session(&rt, rt.alloc(), bytes, Why::NotJson, "");
    }
    Ok(())
}

#[test]
fn a_bench_is_no_session(rt: HostRuntime) -> Result<(), Fail> {
    let text = b"{\"session\":{},\"edits\":[]}";
    check_session(&rt, rt.alloc(), text, Why::BadShape, "format");
    Ok(())
}

#[test]
fn edits_that_are_refused(rt: HostRuntime) -> Result<(), Fail> {
    let header = header_with(rt.alloc(), 0)?;
    for (text, why, path) in EDITS {
        check_edit(&rt, rt.alloc(), text, &header, *why, path);
    }
    Ok(())
}
