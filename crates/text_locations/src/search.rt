//! Where in a text a path leads, and where a token stands. The text is read once, token by token.
ghost use Rattle.std.specs.Prelude.{◌≡◌, ◌+◌, ◌<◌, ◌≤◌, ◌^◌, length, option_map, IfOk, IsErr, OnOk};
ghost use Rattle.json.specs.Json.{array, items, members, object, value};
ghost use Rattle.text_locations.specs.Leads.{led_in, location_of, token_location, wanted_at};
ghost use Rattle.text_locations.specs.Parts.{target_of};
ghost use Rattle.text_locations.specs.Path.{parts, parts_of};
ghost use Rattle.text_locations.specs.Walk.{Passes};

use crate::location::{TextLocation, location_at};
use crate::path::{Target, is_named};
use crate::starts::token_start;
use json::{Invalid, MAX_DEPTH, Reader, Scratch, Token};
use std::alloc::{AllocError, Global};

/// Where in a JSON text the value begins that the path names: `steps[3].core`, or `top` for the
/// whole. Of a member that is missing it is the object that lacks it, and of one that stands twice
/// the last. `None` where the text is no JSON or the path leads nowhere.
pub fn location_of_path(
    alloc: Global,
    text: &str,
    path: &str,
) -> Result<Option<TextLocation>, AllocError>
    ensures { IfOk result (λ found. found ≡ location_of text.now path.now) }
{
    let mut scratch = Scratch::new(alloc);
    let mut reader = Reader::new(text, &mut scratch)?;
    match index_in_whole(&mut reader, path_from_top(path)) {
        Some(index) => Ok(location_of_token(text.as_bytes(), index)),
        None => Ok(None),
    }
}

/// Where in a JSON text the token begins that has that index: each bracket, key, string, number and
/// word is a token. `None` where the text has fewer.
pub fn location_of_token(text: &[u8], index: usize) -> Option<TextLocation>
    ensures { result ≡ token_location text.now index }
{
    match token_start(text, index) {
        Some(offset) => Some(location_at(text, offset)),
        None => None,
    }
}

fn path_from_top(path: &str) -> &[u8]
    ensures { parts result.now ≡ parts_of path.now }
{
    if path == "top" { b"" } else { path.as_bytes() }
}

// The index of the token to which the path leads, where the reader's tokens are one value.
fn index_in_whole(reader: &mut Reader<'_>, path: &[u8]) -> Option<usize>
    requires { length reader.old ≤ 2 ^ 63 }
    ensures { result ≡ led_in reader.old (parts path.now) }
{
    match passed_value(reader, Some(path), 0, MAX_DEPTH) {
        Ok(passed) => match reader.next() {
            None => passed.found,
            Some(_) => None,
        },
        Err(_) => None,
    }
}

/// What was passed: the index of the token that comes next, and of the one to which the path leads.
#[derive(Clone, Copy)]
struct Passed {
    next: usize,
    found: Option<usize>,
}

// Passes the value that comes next, at the token of that index.
#[cycle(passed)]
fn passed_value(
    reader: &mut Reader<'_>,
    path: Option<&[u8]>,
    at: usize,
    depth: usize,
) -> Result<Passed, Invalid>
    requires { at + length reader.old ≤ 2 ^ 63 }
    ensures ok { IfOk result
        (Passes (value depth reader.old) at (length reader.old) reader.new
        (wanted_at (option_map (λ path. parts path.now) path.entry) at)) }
    ensures invalid { IsErr result → value depth reader.old ≡ None }
    ensures shorter { OnOk result (length reader.new < length reader.old) }
{
    let target = Target::of_path(path);
    let token = reader.next().ok_or(Invalid)?;
    match token {
        Token::String(_) | Token::Number(_) | Token::Bool(_) | Token::Null => Ok(Passed {
            next: at + 1,
            found: target.itself(at),
        }),
        Token::EndObject | Token::EndArray | Token::Key(_) | Token::Bad => Err(Invalid),
        Token::BeginArray => {
            if depth == 0 {
                return Err(Invalid);
            }
            passed_items(reader, target, at, depth - 1)
        }
        Token::BeginObject => {
            if depth == 0 {
                return Err(Invalid);
            }
            passed_members(reader, target, at, depth - 1)
        }
    }
}

// The same of the items of an array that begins at that token, up to its closing bracket.
#[cycle(passed)]
fn passed_items(
    reader: &mut Reader<'_>,
    target: Target<'_>,
    at: usize,
    depth: usize,
) -> Result<Passed, Invalid>
    requires { at + 1 + length reader.old ≤ 2 ^ 63 }
    ensures ok { IfOk result
        (Passes (items (value depth) (length reader.old) reader.old) (at + 1) (length reader.old)
        reader.new (λ all. wanted_at (target_of target.entry) at (array all))) }
    ensures invalid { IsErr result → items (value depth) (length reader.old) reader.old ≡ None }
    ensures shorter { OnOk result (length reader.new < length reader.old) }
{
    let path = target.rest();
    let mut before = target.index();
    let mut next = at + 1;
    let mut found = target.itself(at);
    while !reader.take_end_array() {
        match before {
            Some(0) => {
                let item = passed_value(reader, Some(path), next, depth)?;
                next = item.next;
                found = item.found;
                before = None;
            }
            Some(count) => {
                let item = passed_value(reader, None, next, depth)?;
                next = item.next;
                before = Some(count - 1);
            }
            None => {
                let item = passed_value(reader, None, next, depth)?;
                next = item.next;
            }
        }
    }
    Ok(Passed {
        next: next + 1,
        found,
    })
}

// The same of the members of an object, up to its closing brace.
#[cycle(passed)]
fn passed_members(
    reader: &mut Reader<'_>,
    target: Target<'_>,
    at: usize,
    depth: usize,
) -> Result<Passed, Invalid>
    requires { at + 1 + length reader.old ≤ 2 ^ 63 }
    ensures ok { IfOk result
        (Passes (members (value depth) (length reader.old) reader.old) (at + 1)
        (length reader.old) reader.new
        (λ all. wanted_at (target_of target.entry) at (object all))) }
    ensures invalid { IsErr result → members (value depth) (length reader.old) reader.old ≡ None }
    ensures shorter { OnOk result (length reader.new < length reader.old) }
{
    let path = target.rest();
    let name = target.name();
    let mut next = at + 1;
    let mut found = target.itself_or_lacking(at);
    while let Some(key) = reader.next_key()? {
        if is_named(name, key) {
            let member = passed_value(reader, Some(path), next + 1, depth)?;
            next = member.next;
            found = member.found;
        } else {
            let member = passed_value(reader, None, next + 1, depth)?;
            next = member.next;
        }
    }
    Ok(Passed {
        next: next + 1,
        found,
    })
}
