//! Where an instruction of a program stands in its document.
ghost use Rattle.std.specs.Prelude.{◌≡◌, length, map, option_map, slice_get};
ghost use Rattle.session_text.specs.Path.{item_path, member_path, path_of, path_text};
ghost use Rattle.session_text.specs.ReadingRules.{StopsAt};
ghost use Rattle.session_text.specs.declared.fault.Why.TheVariants.{Bench};
ghost use Rattle.task_programs.specs.Flaw.{instruction_fault};
ghost use Rattle.workload_text.specs.Places.{end_at, item_with, loop_word, part_of, place_in};
ghost use Rattle.workload_text.specs.Workloads.{instruction_detail};

use session_text::{BrokenRule, Detail, Location, ReadFault, Why};
use std::alloc::Global;
use task_programs::{Instruction, InstructionFlaw, MAX_NESTING};

/// The index behind the item that begins at the index, which may be past the last instruction.
fn end_at(program: &[Instruction], index: usize) -> usize
    ensures { result ≡ end_at program.now index }
{
    match program.get(index) {
        Some(instruction) => instruction.item_end(index),
        None => index,
    }
}

/// Of a list of items, the place and the first instruction of the one with the instruction in it.
fn item_with(program: &[Instruction], index: usize, start: usize) -> (usize, usize)
    ensures { result ≡ item_with program.now index (length program.now) 0 start }
{
    let mut first = start;
    for place in 0..program.len() {
        let end = end_at(program, first);
        if index < end {
            return (place, first);
        }
        first = end;
    }
    (program.len(), first)
}

fn loop_word(rounds: Option<u32>) -> &'static str
    ensures { result.now ≡ loop_word rounds }
{
    match rounds {
        None => "forever",
        Some(_) => "of",
    }
}

/// The list of items in the item that begins there, as its member and its first instruction.
fn part_of(program: &[Instruction], index: usize, start: usize) -> Option<(&'static str, usize)>
    ensures { option_map (λ part. (part.0.now, part.1)) result
        ≡ part_of index start (slice_get program.now start) }
{
    match program.get(start) {
        Some(Instruction::Call { otherwise, .. }) => {
            if index < *otherwise as usize {
                Some(("then", start + 1))
            } else {
                Some(("else", *otherwise as usize))
            }
        }
        Some(Instruction::Enter { rounds, .. }) => Some((loop_word(*rounds), start + 1)),
        _ => None,
    }
}

// What is known of the flaw. No program that was read is misplaced.
fn instruction_detail(flaw: InstructionFlaw) -> Detail
    ensures { result ≡ instruction_detail flaw }
{
    match flaw {
        InstructionFlaw::Unreached => Detail::Rule(BrokenRule::Unreached),
        InstructionFlaw::NoWork => Detail::Rule(BrokenRule::NoWork),
        InstructionFlaw::Step(flaw) => Detail::Step(flaw),
        InstructionFlaw::Finish => Detail::Rule(BrokenRule::Finish),
        InstructionFlaw::NoRounds => Detail::Rule(BrokenRule::NoRounds),
        InstructionFlaw::NoBody => Detail::Rule(BrokenRule::NoBody),
        InstructionFlaw::NoLoop => Detail::Rule(BrokenRule::NoLoop),
        InstructionFlaw::Nesting => Detail::Rule(BrokenRule::Nesting(MAX_NESTING)),
        InstructionFlaw::Misplaced => Detail::None,
    }
}

/// An instruction that has a flaw.
#[derive(Clone, Copy)]
pub(crate) struct Flawed<'a> {
    pub(crate) program: &'a [Instruction],
    pub(crate) index: usize,
    pub(crate) flaw: InstructionFlaw,
}

impl Flawed<'_> {
    /// The fault at the location.
    fn fault_at(&self, alloc: Global, location: &Location<'_>) -> ReadFault
        ensures { StopsAt
            (record {
              why = Bench (instruction_fault self.now.flaw);
              path = path_text (path_of location.now);
              detail = instruction_detail self.now.flaw;
            }) result }
    {
        let why = Why::Bench(self.flaw.fault());
        ReadFault::at(alloc, location, why, instruction_detail(self.flaw))
    }

    /// The fault at the item of the list at the location.
    fn fault_at_item(&self, alloc: Global, location: &Location<'_>, place: usize) -> ReadFault
        ensures { StopsAt
            (record {
              why = Bench (instruction_fault self.now.flaw);
              path = path_text (item_path (path_of location.now) place);
              detail = instruction_detail self.now.flaw;
            }) result }
    {
        self.fault_at(alloc, &Location::Item(location, place))
    }

    /// The fault at the item with the instruction in it, of the list at the location whose first
    /// instruction is given. At most so many lists stand in one another.
    #[cycle(fault_in)]
    #[tactic(auto, unfolding(crate::specs::Places::place_in))]
    pub(crate) fn fault_in(
        &self,
        alloc: Global,
        room: u32,
        location: &Location<'_>,
        start: usize,
    ) -> ReadFault
        ensures { StopsAt
            (record {
              why = Bench (instruction_fault self.now.flaw);
              path = path_text
                  (place_in self.now.program.now self.now.index room (path_of location.now)
                  start);
              detail = instruction_detail self.now.flaw;
            }) result }
    {
        if room == 0 {
            return self.fault_at(alloc, location);
        }
        let (place, first) = item_with(self.program, self.index, start);
        if first == self.index {
            return self.fault_at_item(alloc, location, place);
        }
        match part_of(self.program, self.index, first) {
            None => self.fault_at_item(alloc, location, place),
            Some((name, next)) => {
                self.fault_in_item(alloc, room - 1, location, place, name, next)
            }
        }
    }

    /// The same of the list that is the member of the item there.
    #[cycle(fault_in)]
    fn fault_in_item(
        &self,
        alloc: Global,
        room: u32,
        location: &Location<'_>,
        place: usize,
        name: &str,
        start: usize,
    ) -> ReadFault
        ensures { StopsAt
            (record {
              why = Bench (instruction_fault self.now.flaw);
              path = path_text
                  (place_in self.now.program.now self.now.index room
                  (member_path (item_path (path_of location.now) place) name.now) start);
              detail = instruction_detail self.now.flaw;
            }) result }
    {
        self.fault_in_member(alloc, room, &Location::Item(&*location, place), name, start)
    }

    /// The same of the list that is the member.
    #[cycle(fault_in)]
    pub(crate) fn fault_in_member(
        &self,
        alloc: Global,
        room: u32,
        location: &Location<'_>,
        name: &str,
        start: usize,
    ) -> ReadFault
        ensures { StopsAt
            (record {
              why = Bench (instruction_fault self.now.flaw);
              path = path_text
                  (place_in self.now.program.now self.now.index room
                  (member_path (path_of location.now) name.now) start);
              detail = instruction_detail self.now.flaw;
            }) result }
    {
        self.fault_in(alloc, room, &Location::Member(&*location, &*name), start)
    }
}
