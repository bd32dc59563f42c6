//! For what programs are not accepted.
ghost use Rattle.std.specs.Prelude.{◌≡◌, ◌<◌, ◌-◌, ◌^◌, All, IfNone, drop, length, slice_get, option_map};
ghost use Rattle.std.specs.List.{list_any};
ghost use Rattle.bench_types.specs.Step.{settings_of};
ghost use Rattle.task_programs.specs.Programs.{before, begins_body, body_flaw, ends_at, flaw_where, instruction_flaw, is_body_of, is_branch_to, is_endless, is_for_ever, is_item, is_placed, is_work_of, item_count, item_end, leads_out, loop_flaw, nesting_flaw, own_flaw, place_flaw, program_call_flaw, program_flaw, reach_flaw, rounds_flaw, stops, AreRoundsOfWord, IsInstructionOfWords, IsProgramCallOfWords};

use crate::around::{Around, Block};
use crate::{Instruction, InstructionFlaw, ProgramCall};
use bench_types::{Call, Header, StepFlaw};

impl Instruction {
    /// Whether an item of the document begins here, or one of its works.
    pub fn is_item(self) -> bool
        ensures { result ≡ is_item self }
    {
        match self {
            Instruction::Work { .. }
            | Instruction::Call { .. }
            | Instruction::Enter { .. }
            | Instruction::Break { .. } => true,
            Instruction::Join { .. } | Instruction::Again { .. } => false,
        }
    }

    /// The index behind the item that begins here, at the index. A [`Instruction::Join`] and an
    /// [`Instruction::Again`] begin none, and end by themselves.
    pub fn item_end(self, index: usize) -> usize
        requires { index < 2 ^ 64 - 1 }
        ensures { result ≡ item_end index self }
    {
        match self {
            Instruction::Work { end, .. }
            | Instruction::Call { end, .. }
            | Instruction::Enter { end, .. } => end as usize,
            Instruction::Join { .. } | Instruction::Again { .. } | Instruction::Break { .. } => {
                index + 1
            }
        }
    }

    fn leads_out(self, end: usize) -> bool
        ensures { result ≡ leads_out end self }
    {
        match self {
            Instruction::Break { end: to } => to as usize == end,
            _ => false,
        }
    }
}

/// How many items the program has.
pub(crate) fn item_count(program: &[Instruction]) -> usize
    ensures { result ≡ item_count program.now }
{
    program
        .iter()
        .filter(|instruction| instruction.is_item())
        .count()
}

fn at(program: &[Instruction], index: usize) -> Option<Instruction>
    ensures { result ≡ slice_get program.now index }
{
    program.get(index).copied()
}

fn before(program: &[Instruction], index: usize) -> Option<Instruction>
    ensures { result ≡ before program.now index }
{
    if index == 0 {
        None
    } else {
        at(program, index - 1)
    }
}

// The works of one item stand one behind another.
fn is_work_of(end: u32, next: Option<Instruction>) -> bool
    ensures { result ≡ is_work_of end next }
{
    match next {
        Some(Instruction::Work { end: other, .. }) => other == end,
        _ => false,
    }
}

fn is_branch_to(index: usize, end: usize, block: Option<Block>) -> bool
    ensures { result ≡ is_branch_to index end block }
{
    match block {
        Some(Block::Branch { until, end: last }) => until == index && last == end,
        _ => false,
    }
}

fn is_body_of(body: usize, end: usize, block: Option<Block>) -> bool
    ensures { result ≡ is_body_of body end block }
{
    match block {
        Some(
            Block::Body {
                body: first,
                end: last,
            },
        ) => first == body && last == end,
        _ => false,
    }
}

fn ends_at(end: usize, block: Option<Block>) -> bool
    ensures { result ≡ ends_at end block }
{
    match block {
        Some(Block::Body { end: last, .. }) => last == end,
        _ => false,
    }
}

// Whether the instruction leads where the item says that it belongs to.
fn is_placed(
    program: &[Instruction],
    around: &Around,
    index: usize,
    instruction: Instruction,
) -> bool
    requires { index < length program.now }
    ensures { result ≡ is_placed program.now around.now index instruction }
{
    match instruction {
        Instruction::Work { end, .. } => {
            end as usize == index + 1 || is_work_of(end, at(program, index + 1))
        }
        Instruction::Call { otherwise, end, .. } => {
            index < otherwise as usize && otherwise <= end
        }
        Instruction::Join { end } => {
            index < end as usize && is_branch_to(index + 1, end as usize, around.innermost())
        }
        Instruction::Enter { end, .. } => index < end as usize,
        Instruction::Again { body } => is_body_of(body as usize, index + 1, around.innermost()),
        Instruction::Break { end } => {
            index < end as usize && ends_at(end as usize, around.innermost_loop())
        }
    }
}

fn is_for_ever(instruction: Option<Instruction>) -> bool
    ensures { result ≡ is_for_ever instruction }
{
    match instruction {
        Some(Instruction::Enter { rounds: None, .. }) => true,
        _ => false,
    }
}

fn any_leads_out(instructions: &[Instruction], end: usize) -> bool
    ensures { result ≡ list_any (leads_out end) instructions.now }
{
    instructions
        .iter()
        .any(|instruction| instruction.leads_out(end))
}

// Whether a `break` from there on leads to the end.
#[tactic(auto, using(std::proofs::lemmas::List::drop_all))]
fn has_break(program: &[Instruction], body: usize, end: usize) -> bool
    ensures { result ≡ list_any (leads_out end) (drop body program.now) }
{
    if body < program.len() {
        let (_before, rest) = program.split_at(body);
        any_leads_out(rest, end)
    } else {
        false
    }
}

fn is_endless(program: &[Instruction], body: usize, end: usize) -> bool
    ensures { result ≡ is_endless program.now body end }
{
    is_for_ever(before(program, body)) && !has_break(program, body, end)
}

// Whether no walk goes on behind the instruction before the index.
fn stops(program: &[Instruction], index: usize, instruction: Option<Instruction>) -> bool
    ensures { result ≡ stops program.now index instruction }
{
    match instruction {
        Some(Instruction::Break { .. }) => true,
        Some(Instruction::Again { body }) => is_endless(program, body as usize, index),
        _ => false,
    }
}

fn flaw_where(holds: bool, flaw: InstructionFlaw) -> Option<InstructionFlaw>
    ensures { result ≡ flaw_where holds flaw }
{
    if holds { Some(flaw) } else { None }
}

fn flaw_of_step(flaw: Option<StepFlaw>) -> Option<InstructionFlaw>
    ensures { result ≡ option_map InstructionFlaw.Step flaw }
{
    match flaw {
        Some(flaw) => Some(InstructionFlaw::Step(flaw)),
        None => None,
    }
}

fn call_flaw(call: ProgramCall, header: &Header) -> Option<InstructionFlaw>
    ensures value { result ≡ program_call_flaw (settings_of header.now) call }
    ensures words { IsProgramCallOfWords call }
{
    match call {
        ProgramCall::Made(Call::Finish) => Some(InstructionFlaw::Finish),
        ProgramCall::Made(call) => flaw_of_step(call.flaw(header)),
        ProgramCall::DelayUntilNext { inc } => {
            flaw_of_step(Call::DelayUntil { prev: 0, inc }.flaw(header))
        }
    }
}

// No more may stand around what is in an item.
fn nesting_flaw(around: &Around) -> Option<InstructionFlaw>
    ensures { result ≡ nesting_flaw around.now }
{
    flaw_where(around.is_full(), InstructionFlaw::Nesting)
}

fn rounds_flaw(rounds: Option<u32>) -> Option<InstructionFlaw>
    ensures value { result ≡ rounds_flaw rounds }
    ensures word { AreRoundsOfWord rounds }
{
    match rounds {
        Some(rounds) => flaw_where(rounds == 0, InstructionFlaw::NoRounds),
        None => None,
    }
}

fn begins_body(instruction: Option<Instruction>) -> bool
    ensures { result ≡ begins_body instruction }
{
    match instruction {
        Some(Instruction::Work { .. } | Instruction::Call { .. } | Instruction::Enter { .. }) => {
            true
        }
        _ => false,
    }
}

fn body_flaw(program: &[Instruction], body: usize) -> Option<InstructionFlaw>
    ensures { result ≡ body_flaw program.now body }
{
    flaw_where(!begins_body(at(program, body)), InstructionFlaw::NoBody)
}

fn loop_flaw(around: &Around) -> Option<InstructionFlaw>
    ensures { result ≡ loop_flaw around.now }
{
    flaw_where(around.innermost_loop().is_none(), InstructionFlaw::NoLoop)
}

// The flaw of what the instruction says.
fn own_flaw(
    header: &Header,
    program: &[Instruction],
    around: &Around,
    index: usize,
    instruction: Instruction,
) -> Option<InstructionFlaw>
    requires { index < length program.now }
    ensures value { result
        ≡ own_flaw (settings_of header.now) program.now around.now index instruction }
    ensures words { IsInstructionOfWords instruction }
{
    match instruction {
        Instruction::Work { units, .. } => flaw_where(units == 0, InstructionFlaw::NoWork),
        Instruction::Call { call, end, .. } => {
            let nesting = if end as usize == index + 1 {
                None
            } else {
                nesting_flaw(around)
            };
            call_flaw(call, header).or(nesting)
        }
        Instruction::Enter { rounds, .. } => nesting_flaw(around)
            .or(rounds_flaw(rounds))
            .or(body_flaw(program, index + 1)),
        Instruction::Break { .. } => loop_flaw(around),
        Instruction::Join { .. } | Instruction::Again { .. } => None,
    }
}

fn reach_flaw(
    program: &[Instruction],
    index: usize,
    instruction: Instruction,
) -> Option<InstructionFlaw>
    ensures { result ≡ reach_flaw program.now index instruction }
{
    let is_cut = instruction.is_item() && stops(program, index, before(program, index));
    flaw_where(is_cut, InstructionFlaw::Unreached)
}

fn place_flaw(
    program: &[Instruction],
    around: &Around,
    index: usize,
    instruction: Instruction,
) -> Option<InstructionFlaw>
    requires { index < length program.now }
    ensures { result ≡ place_flaw program.now around.now index instruction }
{
    let is_placed = is_placed(program, around, index, instruction);
    flaw_where(!is_placed, InstructionFlaw::Misplaced)
}

#[tactic(auto, unfolding(crate::specs::Programs::instruction_flaw))]
fn instruction_flaw(
    header: &Header,
    program: &[Instruction],
    around: &Around,
    index: usize,
    instruction: Instruction,
) -> Option<InstructionFlaw>
    requires { index < length program.now }
    ensures value { result
        ≡ instruction_flaw (settings_of header.now) program.now around.now index instruction }
    ensures words { IsInstructionOfWords instruction }
{
    reach_flaw(program, index, instruction)
        .or(own_flaw(header, program, around, index, instruction))
        .or(place_flaw(program, around, index, instruction))
}

/// The first flaw of the program of a task of the header, with the index of its instruction.
#[tactic(auto, unfolding(crate::specs::Programs::program_flaw))]
pub(crate) fn program_flaw(
    header: &Header,
    program: &[Instruction],
) -> Option<(usize, InstructionFlaw)>
    ensures value { result ≡ program_flaw (settings_of header.now) program.now }
    ensures words { IfNone result (All IsInstructionOfWords program.now) }
{
    let mut around = Around::nothing();
    for (index, instruction) in program.iter().enumerate() {
        match instruction_flaw(header, program, &around, index, *instruction) {
            Some(flaw) => return Some((index, flaw)),
            None => around.pass(index, *instruction),
        }
    }
    if around.is_nothing() {
        None
    } else {
        Some((program.len(), InstructionFlaw::Misplaced))
    }
}
