//! The items of a program, and the instructions that they are.
ghost use Rattle.std.specs.Prelude.{◌≡◌, ◌<◌, ◌^◌, length, IfOk};
ghost use Rattle.json_data.specs.View.{items_view};
ghost use Rattle.session_text.specs.Node.{data_of, location_of};
ghost use Rattle.session_text.specs.Path.{path_of};
ghost use Rattle.session_text.specs.ReadingRules.{Gives, StopsAt};
ghost use Rattle.workload_text.specs.Items.{branch_at, call_at, call_item, call_with_both, call_with_then, each_from, flat, further, headed_at, item_at, items_at, led_out, loop_at, loop_item, nested_fault, none_inside, plain_call, works_item};

use crate::head::{Head, head_at, only_of};
use bench_types::{Fault, Items};
use json_data::Gathered;
use session_text::{BrokenRule, Detail, Expected, Location, Names, Node, ReadFault, Why};
use std::alloc::{AllocError, Global};
use task_programs::{Instruction, MAX_NESTING, ProgramCall};

/// So many instructions on. An accepted program ends long before the greatest index.
fn further(index: u32, count: usize) -> u32
    ensures { result ≡ further index count }
{
    match u32::try_from(count) {
        Ok(count) => index.saturating_add(count),
        Err(_) => u32::MAX,
    }
}

fn works_item(alloc: Global, start: u32, works: &[u32]) -> Result<Vec<Instruction>, AllocError>
    ensures { IfOk result (λ made. made.items ≡ works_item start works.now) }
{
    let end = further(start, works.len());
    let mut instructions = Vec::with_capacity(alloc, works.len())?;
    for units in works {
        instructions.push(Instruction::Work { units: *units, end })?;
    }
    Ok(instructions)
}

fn call_with_then(
    alloc: Global,
    call: ProgramCall,
    start: u32,
    then: &[Instruction],
) -> Result<Vec<Instruction>, AllocError>
    requires { length then.now < 2 ^ 63 }
    ensures { IfOk result (λ made. made.items ≡ call_with_then call start then.now) }
{
    let end = further(start, then.len() + 2);
    let otherwise = end;
    let mut instructions = vec![in alloc;
        Instruction::Call {
            call,
            otherwise,
            end
        },
    ]?;
    instructions.extend_from_slice(then)?;
    instructions.push(Instruction::Join { end })?;
    Ok(instructions)
}

#[tactic(auto, using(std::proofs::Common::append_assoc))]
fn call_with_both(
    alloc: Global,
    call: ProgramCall,
    start: u32,
    then: &[Instruction],
    other: &[Instruction],
) -> Result<Vec<Instruction>, AllocError>
    requires then { length then.now < 2 ^ 63 }
    requires other { length other.now < 2 ^ 63 }
    ensures { IfOk result (λ made. made.items ≡ call_with_both call start then.now other.now) }
{
    let otherwise = further(start, then.len() + 2);
    let end = further(otherwise, other.len() + 1);
    let mut instructions = vec![in alloc;
        Instruction::Call {
            call,
            otherwise,
            end
        },
    ]?;
    instructions.extend_from_slice(then)?;
    instructions.push(Instruction::Join { end })?;
    instructions.extend_from_slice(other)?;
    instructions.push(Instruction::Join { end })?;
    Ok(instructions)
}

fn plain_call(alloc: Global, call: ProgramCall, start: u32) -> Result<Vec<Instruction>, AllocError>
    ensures { IfOk result (λ made. made.items ≡ plain_call call start) }
{
    let end = further(start, 1);
    let otherwise = end;
    Ok(vec![in alloc;
        Instruction::Call {
            call,
            otherwise,
            end
        },
    ]?)
}

fn call_item(
    alloc: Global,
    call: ProgramCall,
    start: u32,
    then: &[Instruction],
    other: &[Instruction],
) -> Result<Vec<Instruction>, AllocError>
    requires then { length then.now < 2 ^ 63 }
    requires other { length other.now < 2 ^ 63 }
    ensures { IfOk result (λ made. made.items ≡ call_item call start then.now other.now) }
{
    if !other.is_empty() {
        call_with_both(alloc, call, start, then, other)
    } else if !then.is_empty() {
        call_with_then(alloc, call, start, then)
    } else {
        plain_call(alloc, call, start)
    }
}

/// A `break` that leads nowhere yet leads to the end of its loop.
fn led_out(end: u32, instruction: Instruction) -> Instruction
    ensures { result ≡ led_out end instruction }
{
    match instruction {
        Instruction::Break { end: to } => Instruction::Break {
            end: if to == 0 { end } else { to },
        },
        other => other,
    }
}

fn loop_item(
    alloc: Global,
    rounds: Option<u32>,
    start: u32,
    body: &[Instruction],
) -> Result<Vec<Instruction>, AllocError>
    requires { length body.now < 2 ^ 63 }
    ensures { IfOk result (λ made. made.items ≡ loop_item rounds start body.now) }
{
    let end = further(start, body.len() + 2);
    let mut instructions = vec![in alloc; Instruction::Enter { rounds, end }]?;
    for instruction in body {
        instructions.push(led_out(end, *instruction))?;
    }
    instructions.push(Instruction::Again {
        body: further(start, 1),
    })?;
    Ok(instructions)
}

fn flat(alloc: Global, items: &[Items<Instruction>]) -> Result<Vec<Instruction>, AllocError>
    ensures { IfOk result (λ made. made.items ≡ flat items.now) }
{
    let mut instructions = Vec::new(alloc);
    for item in items {
        instructions.extend_from_slice(item.as_slice())?;
    }
    Ok(instructions)
}

/// F5 at the item in which the items stand.
fn nested_fault(outer: &Node<'_, '_, '_>) -> ReadFault
    ensures { StopsAt (nested_fault (location_of outer.now)) result }
{
    let why = Why::Bench(Fault::BadArgument);
    let rule = BrokenRule::Nesting(MAX_NESTING);
    ReadFault::at(outer.alloc, outer.location, why, Detail::Rule(rule))
}

/// Reads the items of programs, under the names of the tasks.
#[derive(Clone, Copy)]
pub(crate) struct ItemReader<'n, 'a> {
    pub(crate) alloc: Global,
    pub(crate) names: &'n Names<'a>,
}

#[cycle(items)]
#[tactic(auto, unfolding(crate::specs::Items::item_at))]
fn item_at(
    reader: &ItemReader<'_, '_>,
    room: u32,
    node: &Node<'_, '_, '_>,
    start: u32,
) -> Result<Items<Instruction>, ReadFault>
    ensures { Gives (λ made. made) result
        (item_at (items_at room reader.now.names.now) reader.now.names.now (location_of node.now)
        start (data_of node.now)) }
{
    let head = head_at(reader.names, node)?;
    let instructions = headed_at(reader, room, &head, node, start)?;
    only_of(&head, node)?;
    Ok(Items::new(instructions))
}

#[cycle(items)]
pub(crate) fn headed_at(
    reader: &ItemReader<'_, '_>,
    room: u32,
    head: &Head,
    node: &Node<'_, '_, '_>,
    start: u32,
) -> Result<Vec<Instruction>, ReadFault>
    ensures { Gives (λ made. made.items) result
        (headed_at (items_at room reader.now.names.now) head.now (location_of node.now) start
        (data_of node.now)) }
{
    match head {
        Head::Break => Ok(vec![in reader.alloc; Instruction::Break { end: 0 }]?),
        Head::Works(works) => Ok(works_item(reader.alloc, start, works.as_slice())?),
        Head::Call(call) => call_at(reader, room, *call, node, start),
        Head::Repeat(rounds) => loop_at(reader, room, Some(*rounds), "of", node, start),
        Head::Forever => loop_at(reader, room, None, "forever", node, start),
    }
}

#[cycle(items)]
#[tactic(auto, unfolding(crate::specs::Items::call_at))]
fn call_at(
    reader: &ItemReader<'_, '_>,
    room: u32,
    call: ProgramCall,
    node: &Node<'_, '_, '_>,
    start: u32,
) -> Result<Vec<Instruction>, ReadFault>
    ensures { Gives (λ made. made.items) result
        (call_at (items_at room reader.now.names.now) call (location_of node.now) start
        (data_of node.now)) }
{
    let then = branch_at(reader, room, "then", node, further(start, 1))?;
    let behind = further(start, then.len() + 2);
    let other = branch_at(reader, room, "else", node, behind)?;
    Ok(call_item(reader.alloc, call, start, then.as_slice(), other.as_slice())?)
}

#[cycle(items)]
#[tactic(auto, unfolding(crate::specs::Items::loop_at))]
fn loop_at(
    reader: &ItemReader<'_, '_>,
    room: u32,
    rounds: Option<u32>,
    name: &str,
    node: &Node<'_, '_, '_>,
    start: u32,
) -> Result<Vec<Instruction>, ReadFault>
    ensures { Gives (λ made. made.items) result
        (loop_at (items_at room reader.now.names.now) rounds name.now (location_of node.now) start
        (data_of node.now)) }
{
    let mut items = node.array(name)?;
    let location = Location::Member(node.location, name);
    let body = items_at(reader, room, node, &location, further(start, 1), &mut items)?;
    Ok(loop_item(reader.alloc, rounds, start, body.as_slice())?)
}

/// The items of the member, which may be left out.
#[cycle(items)]
pub(crate) fn branch_at(
    reader: &ItemReader<'_, '_>,
    room: u32,
    name: &str,
    node: &Node<'_, '_, '_>,
    start: u32,
) -> Result<Vec<Instruction>, ReadFault>
    ensures { Gives (λ made. made.items) result
        (branch_at (items_at room reader.now.names.now) (location_of node.now) name.now start
        (data_of node.now)) }
{
    match node.value.item().get(name) {
        None => Ok(Vec::new(reader.alloc)),
        Some(value) => {
            let mut items = node.typed(name, Expected::Array, &value, value.as_array())?;
            let location = Location::Member(node.location, name);
            items_at(reader, room, node, &location, start, &mut items)
        }
    }
}

fn none_inside(
    outer: &Node<'_, '_, '_>,
    items: &mut json_data::Items<'_, '_>,
) -> Result<Vec<Instruction>, ReadFault>
    ensures { Gives (λ made. made.items) result
        (none_inside (location_of outer.now) (items_view items.old)) }
{
    match items.next() {
        None => Ok(Vec::new(outer.alloc)),
        Some(_) => Err(nested_fault(outer)),
    }
}

#[cycle(items)]
#[tactic(auto, unfolding(crate::specs::Items::items_at))]
fn items_at(
    reader: &ItemReader<'_, '_>,
    room: u32,
    outer: &Node<'_, '_, '_>,
    location: &Location<'_>,
    start: u32,
    items: &mut json_data::Items<'_, '_>,
) -> Result<Vec<Instruction>, ReadFault>
    ensures { Gives (λ made. made.items) result
        (items_at room reader.now.names.now (location_of outer.now) (path_of location.now) start
        (items_view items.old)) }
{
    if room == 0 {
        return none_inside(outer, items);
    }
    let all = each_from(reader, room - 1, location, start, items)?;
    Ok(flat(reader.alloc, all.as_slice())?)
}

#[cycle(items)]
fn each_from(
    reader: &ItemReader<'_, '_>,
    room: u32,
    location: &Location<'_>,
    start: u32,
    items: &mut json_data::Items<'_, '_>,
) -> Result<Vec<Items<Instruction>>, ReadFault>
    ensures { Gives (λ all. all.items) result
        (each_from (item_at (items_at room reader.now.names.now) reader.now.names.now)
        (path_of location.now) 0 start (items_view items.old)) }
{
    let alloc = reader.alloc;
    let mut all = Vec::new(alloc);
    let mut next = start;
    while let Some(value) = items.next() {
        let location = &Location::Item(&*location, all.len());
        let value = &Gathered::of(value);
        let node = Node {
            alloc,
            location,
            value,
        };
        let item = item_at(reader, room, &node, next)?;
        next = further(next, item.as_slice().len());
        all.push(item)?;
    }
    Ok(all)
}
