//! Names of tasks, and lists.

use crate::expected::expect_text;
use bench_types::{Fault, Items, Name};
use std::process::Abort;
use std::test::Fail;

// Texts, and whether each is a name.
const TEXTS: &[(&str, bool)] = &[
    ("A", true),
    ("ABCDEFGHIJKLMNO", true),
    ("!", true),
    ("~", true),
    ("!A~", true),
    ("idle", true),
    ("AIDLE", true),
    ("IDL", true),
    ("", false),
    ("ABCDEFGHIJKLMNOP", false),
    ("A B", false),
    (" ", false),
    ("A\x7F", false),
    ("\u{E9}", false),
    ("IDLE", false),
    ("IDLE0", false),
];

// Two names, and whether they are the same.
const PAIRS: &[(&str, &str, bool)] = &[
    ("A", "A", true),
    ("A", "a", false),
    ("A", "AB", false),
    ("ABC", "ABD", false),
];

// The name spells the text, and so does its copy.
fn check_spelling(rt: &impl Abort, name: &Name, text: &str) {
    expect_text(rt, name.as_str(), text);
    let copy = name.copy();
    expect_text(rt, copy.as_str(), text);
}

// The text is a name, or it is none.
fn check_name(rt: &impl Abort, text: &str, is_name: bool) {
    match Name::new(text) {
        Ok(name) => {
            assert!(rt; is_name, "at {text:?}");
            check_spelling(rt, &name, text);
        }
        Err(fault) => {
            assert!(rt; !is_name, "at {text:?}");
            assert_eq!(rt; fault, Fault::BadHeader);
        }
    }
}

#[test]
fn names(rt: HostRuntime) {
    for (text, is_name) in TEXTS {
        check_name(&rt, text, *is_name);
    }
}

fn check_pair(rt: &impl Abort, left: &str, right: &str, is_same: bool) -> Result<(), Fail> {
    let left = Name::new(left)?;
    let right = Name::new(right)?;
    assert_eq!(rt; left == right, is_same);
    Ok(())
}

#[test]
fn same_names(rt: HostRuntime) -> Result<(), Fail> {
    for (left, right, is_same) in PAIRS {
        check_pair(&rt, left, right, *is_same)?;
    }
    Ok(())
}

fn check_items(rt: &impl Abort, items: &[u32]) {
    assert_eq!(rt; items, [1, 2, 3].as_slice());
}

#[test]
fn lists_keep_their_items(rt: HostRuntime) -> Result<(), Fail> {
    let items = Items::new(vec![in rt.alloc(); 1u32, 2, 3]?);
    check_items(&rt, items.as_slice());
    check_items(&rt, items.into_vec().as_slice());
    Ok(())
}
