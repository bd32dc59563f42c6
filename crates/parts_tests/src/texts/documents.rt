//! Documents: which texts are some, and what is found in them.
use crate::expected::{expect_is, expect_same};
use json_data::{Document, Gathered, Item, Items, Object, Refused, Scratch};
use std::alloc::{AllocError, Global};
use std::process::Abort;
use std::test::Fail;

// Texts, and whether serde_json reads them.
const TEXTS: &[(&str, bool)] = &[
    ("{}", true),
    (" [1, -2.5e3, true, null, \"\\u00e9\"]\n", true),
    ("{\"a\":1,\"a\":2}", true),
    ("1e308", true),
    ("-1e308", true),
    ("18446744073709551616", true),
    ("", false),
    ("{} {}", false),
    ("[1,]", false),
    ("1e400", false),
    ("[{\"a\":-1e400}]", false),
    ("\"\\ud800\"", false),
    ("01", false),
];

// Numbers, and the whole ones of 64 bits among them.
const NUMBERS: &[(&str, Option<u64>)] = &[
    ("0", Some(0)),
    ("7", Some(7)),
    ("18446744073709551615", Some(u64::MAX)),
    ("18446744073709551616", None),
    ("-0", None),
    ("-7", None),
    ("7.0", None),
    ("7e0", None),
    ("\"7\"", None),
];

fn refusal(alloc: Global, text: &[u8]) -> Option<Refused> {
    let mut scratch = Scratch::new(alloc);
    Document::parse(alloc, text, &mut scratch).err()
}

/// So many arrays, each in the one before.
fn nested(alloc: Global, depth: usize) -> Result<Vec<u8>, AllocError> {
    let mut text = Vec::new(alloc);
    text.resize(depth, b'[')?;
    text.resize(depth.saturating_mul(2), b']')?;
    Ok(text)
}

fn check_read(rt: &impl Abort, alloc: Global, text: &[u8], reads: bool) {
    let refused = (!reads).then_some(Refused::NotJson);
    assert_eq!(rt; refusal(alloc, text), refused, "{text:?}");
}

#[test]
fn reads_what_serde_json_reads(rt: HostRuntime) -> Result<(), Fail> {
    for (text, reads) in TEXTS {
        check_read(&rt, rt.alloc(), text.as_bytes(), *reads);
    }
    check_read(&rt, rt.alloc(), b"\"\xff\"".as_slice(), false);
    Ok(())
}

fn check_depth(rt: &impl Abort, alloc: Global, depth: usize, reads: bool) -> Result<(), Fail> {
    let text = nested(alloc, depth)?;
    check_read(rt, alloc, text.as_slice(), reads);
    Ok(())
}

#[test]
fn nests_to_127(rt: HostRuntime) -> Result<(), Fail> {
    for (depth, reads) in &[(127, true), (128, false), (129, false)] {
        check_depth(&rt, rt.alloc(), *depth, *reads)?;
    }
    Ok(())
}

fn check_number(
    rt: &impl Abort,
    alloc: Global,
    text: &str,
    number: Option<u64>,
) -> Result<(), Fail> {
    let mut scratch = Scratch::new(alloc);
    let document = Document::parse(alloc, text.as_bytes(), &mut scratch)?;
    assert_eq!(rt; document.root().as_u64(), number, "{text}");
    Ok(())
}

#[test]
fn whole_numbers(rt: HostRuntime) -> Result<(), Fail> {
    for (text, number) in NUMBERS {
        check_number(&rt, rt.alloc(), text, *number)?;
    }
    Ok(())
}

fn number_at(item: &Item<'_, '_>, name: &str) -> Option<u64> {
    item.get(name)?.as_u64()
}

const MEMBERS: &str = "{\"b\":1,\"a\":{},\"\\u0062\":2,\"c\":\"x\",\"d\":false}";

#[test]
fn finds_members(rt: HostRuntime) -> Result<(), Fail> {
    let mut scratch = Scratch::new(rt.alloc());
    let document = Document::parse(rt.alloc(), MEMBERS.as_bytes(), &mut scratch)?;
    let root = document.root();
    check_members(&rt, &root);
    check_values(&rt, &root);
    check_names(&rt, root.as_object());
    Ok(())
}

fn held_number(gathered: &Gathered<'_, '_>, name: &str) -> Option<u64> {
    gathered.get(name)?.item().as_u64()
}

fn check_held(rt: &impl Abort, gathered: &Gathered<'_, '_>) {
    expect_same(rt, &held_number(gathered, "b"), &Some(2));
    expect_same(rt, &held_number(gathered, "a"), &None);
    expect_is(rt, gathered.get("e").is_none());
}

#[test]
fn holds_members(rt: HostRuntime) -> Result<(), Fail> {
    let mut scratch = Scratch::new(rt.alloc());
    let document = Document::parse(rt.alloc(), MEMBERS.as_bytes(), &mut scratch)?;
    let gathered = Gathered::of(document.root());
    check_held(&rt, &gathered);
    check_members(&rt, gathered.item());
    check_names(&rt, gathered.as_object());
    Ok(())
}

// More members than are held.
const MANY: &str = "{\"a\":1,\"b\":1,\"c\":3,\"d\":4,\"e\":5,\"f\":6,\"g\":7,\"h\":8,\"b\":2}";

#[test]
fn walks_many_members(rt: HostRuntime) -> Result<(), Fail> {
    let mut scratch = Scratch::new(rt.alloc());
    let document = Document::parse(rt.alloc(), MANY.as_bytes(), &mut scratch)?;
    let gathered = Gathered::of(document.root());
    expect_same(&rt, &held_number(&gathered, "b"), &Some(2));
    expect_same(&rt, &held_number(&gathered, "h"), &Some(8));
    expect_same(&rt, &held_number(&gathered, "i"), &None);
    Ok(())
}

fn check_members(rt: &impl Abort, root: &Item<'_, '_>) {
    expect_same(rt, &number_at(root, "b"), &Some(2));
    expect_same(rt, &number_at(root, "a"), &None);
    expect_is(rt, root.get("e").is_none());
}

fn check_string(rt: &impl Abort, item: &Item<'_, '_>) {
    expect_same(rt, &item.as_str(), &Some("x"));
    expect_same(rt, &item.as_bool(), &None);
    expect_is(rt, item.as_array().is_none());
}

fn check_bool(rt: &impl Abort, item: &Item<'_, '_>) {
    expect_same(rt, &item.as_bool(), &Some(false));
    expect_same(rt, &item.as_str(), &None);
    expect_is(rt, item.as_object().is_none());
}

fn check_values(rt: &impl Abort, root: &Item<'_, '_>) {
    if let Some(item) = root.get("c") {
        check_string(rt, &item);
    }
    if let Some(item) = root.get("d") {
        check_bool(rt, &item);
    }
}

fn check_names(rt: &impl Abort, members: Option<Object<'_, '_, '_>>) {
    match members {
        Some(members) => {
            expect_is(rt, members.has_only(&["a", "b", "c", "d"]));
            expect_is(rt, members.has_only(&["e", "d", "c", "b", "a"]));
            expect_is(rt, !members.has_only(&["a", "b", "d"]));
            check_unknown(rt, &members);
        }
        None => expect_is(rt, false),
    }
}

fn check_unknown(rt: &impl Abort, members: &Object<'_, '_, '_>) {
    expect_same(rt, &members.least_unknown(&["a", "b", "c", "d"]), &None);
    expect_same(rt, &members.least_unknown(&["b"]), &Some("a"));
    expect_same(rt, &members.least_unknown(&["a", "b", "d"]), &Some("c"));
    expect_same(rt, &members.least_unknown(&["a", "c"]), &Some("b"));
}

fn is_null(alloc: Global, text: &str) -> Result<bool, Fail> {
    let mut scratch = Scratch::new(alloc);
    let document = Document::parse(alloc, text.as_bytes(), &mut scratch)?;
    Ok(document.root().is_null())
}

#[test]
fn tells_null(rt: HostRuntime) -> Result<(), Fail> {
    expect_is(&rt, is_null(rt.alloc(), "null")?);
    expect_is(&rt, !is_null(rt.alloc(), "false")?);
    expect_is(&rt, !is_null(rt.alloc(), "[null]")?);
    Ok(())
}

fn next_number(items: &mut Items<'_, '_>) -> Option<Option<u64>> {
    match items.next() {
        Some(item) => Some(item.as_u64()),
        None => None,
    }
}

fn check_array(rt: &impl Abort, items: &mut Items<'_, '_>) {
    expect_same(rt, &next_number(items), &Some(Some(3)));
    expect_same(rt, &next_number(items), &Some(None));
    expect_same(rt, &next_number(items), &Some(Some(6)));
    expect_same(rt, &next_number(items), &None);
}

#[test]
fn walks_items(rt: HostRuntime) -> Result<(), Fail> {
    let text = b"[3,[4,5],6]";
    let mut scratch = Scratch::new(rt.alloc());
    let document = Document::parse(rt.alloc(), text.as_slice(), &mut scratch)?;
    match document.root().as_array() {
        Some(mut items) => check_array(&rt, &mut items),
        None => expect_is(&rt, false),
    }
    Ok(())
}
