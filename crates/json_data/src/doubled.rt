//! Members that stand twice in an object. The tape is passed once, node by node.
ghost use Rattle.std.specs.Prelude.{◌≡◌, ◌+◌, ◌++◌, ◌≤◌, ◌<◌, ◌^◌, List, [], drop, map, length, true, IfOk};
ghost use Rattle.json.specs.Json as json;
ghost use Rattle.json.specs.Json.{Json};
ghost use Rattle.json.specs.Tape.{node_token};
ghost use Rattle.json.specs.Token.{Token};
ghost use Rattle.json.specs.Tree.{items_tokens, json_tokens, members_tokens};
ghost use Rattle.json_data.specs.Doubled.{doubled_in, doubled_in_items, doubled_in_members};
ghost use Rattle.json_data.specs.Passing.{Passes, GoesOn};

use crate::seen::SeenNames;
use json::Node;
use std::alloc::{AllocError, Global};

/// A member whose name an earlier member of its object has too.
#[derive(Clone, Copy, Debug, PartialEq, Eq)]
pub struct Doubled<'a> {
    pub name: &'a str,
    /// The index of the token of its name, among the tokens of the text: each bracket, key, string,
    /// number and word is one.
    pub token: usize,
}

/// What was found where a value was passed.
#[derive(Clone, Copy)]
pub(crate) enum Passed<'a> {
    /// The first member in it that stands twice.
    Twice(Doubled<'a>),
    /// None; the node of this index follows.
    Next(usize),
}

/// Whether the node of that index is a value that holds no others.
#[inline(always)]
fn is_leaf(nodes: &[Node<'_>], at: usize) -> bool
    ensures within { result ≡ true → at < length nodes.now }
    ensures passed { result ≡ true → (whole : Json) (rest : List Token)
        → drop at (map node_token nodes.now) ≡ json_tokens whole ++ rest
        → (doubled_in at whole ≡ []) × (length (json_tokens whole) ≡ 1) }
{
    if at >= nodes.len() {
        return false;
    }
    match nodes[at] {
        Node::Object(_) | Node::Array(_) => false,
        _ => true,
    }
}

// Passes the value that begins at the node of that index.
#[cycle(passing)]
#[inline(always)]
pub(crate) fn passed_value<'a>(
    alloc: Global,
    nodes: &[Node<'a>],
    at: usize,
) -> Result<Passed<'a>, AllocError>
    requires { at ≤ length nodes.now }
    ensures passed { (whole : Json) (rest : List Token)
        → drop at (map node_token nodes.now) ≡ json_tokens whole ++ rest
        → IfOk result (Passes (doubled_in at whole) (at + length (json_tokens whole))) }
    ensures within { IfOk result (GoesOn at (length nodes.now)) }
    ensures further { at < length nodes.now → IfOk result (GoesOn (at + 1) (length nodes.now)) }
{
    if at >= nodes.len() {
        return Ok(Passed::Next(at));
    }
    match nodes[at] {
        Node::Object(_) => passed_members(alloc, nodes, at + 1),
        Node::Array(_) => passed_items(alloc, nodes, at + 1),
        _ => Ok(Passed::Next(at + 1)),
    }
}

// Passes the items from that index on, and the bracket that closes their array.
#[cycle(passing)]
#[inline(never)]
fn passed_items<'a>(alloc: Global, nodes: &[Node<'a>], at: usize) -> Result<Passed<'a>, AllocError>
    requires { at ≤ length nodes.now }
    ensures passed { (all : json.Items) (rest : List Token)
        → drop at (map node_token nodes.now) ≡ items_tokens all ++ rest
        → IfOk result (Passes (doubled_in_items at all) (at + length (items_tokens all))) }
    ensures within { IfOk result (GoesOn at (length nodes.now)) }
{
    let mut next = at;
    while next < nodes.len() {
        if let Node::EndArray = nodes[next] {
            return Ok(Passed::Next(next + 1));
        }
        let item = passed_value(alloc, nodes, next)?;
        match item {
            Passed::Twice(doubled) => return Ok(Passed::Twice(doubled)),
            Passed::Next(after) => next = after,
        }
    }
    Ok(Passed::Next(next))
}

// Passes the members from that index on, and the brace that closes their object.
#[cycle(passing)]
#[inline(never)]
fn passed_members<'a>(
    alloc: Global,
    nodes: &[Node<'a>],
    at: usize,
) -> Result<Passed<'a>, AllocError>
    requires { at ≤ length nodes.now }
    ensures passed { (all : json.Members) (rest : List Token)
        → drop at (map node_token nodes.now) ≡ members_tokens all ++ rest
        → IfOk result (Passes (doubled_in_members at [] all) (at + length (members_tokens all))) }
    ensures within { IfOk result (GoesOn at (length nodes.now)) }
{
    let mut names = SeenNames::none(alloc);
    let mut next = at;
    while next < nodes.len() {
        let Node::Key(name) = nodes[next] else {
            return Ok(Passed::Next(next + 1));
        };
        if names.add(name)? {
            return Ok(Passed::Twice(Doubled { name, token: next }));
        }
        if is_leaf(nodes, next + 1) {
            next += 2;
            continue;
        }
        let member = passed_value(alloc, nodes, next + 1)?;
        match member {
            Passed::Twice(within) => return Ok(Passed::Twice(within)),
            Passed::Next(after) => next = after,
        }
    }
    Ok(Passed::Next(next))
}
