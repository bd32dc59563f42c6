//! Where the walk of a program has come.
ghost use Rattle.std.specs.Prelude.{◌≡◌, ◌∷◌, ◌+◌, ◌<◌, ℕ, Option, None, OnOk, Ok, Some, [], drop, false, length, true};
ghost use Rattle.task_programs.specs.Walks.{next_round, next_walk};
ghost use Rattle.workload_runs.specs.Courses.{come, first_walk};

use std::alloc::{AllocError, Global};
use std::marker::Model;
use task_programs::Instruction;

/// Where the walk of a program has come.
#[derive(Debug, Drop)]
pub(crate) struct Position {
    /// The index of the next instruction.
    pub(crate) index: usize,
    // The rounds of each loop around it, with the one that goes on; none where they are for ever.
    // The innermost last.
    rounds: Vec<Option<u32>>,
}

impl Model for Position {
    ghost use Rattle.std.specs.Prelude.{reverse};
    ghost use Rattle.task_programs.specs.Walks.{Walk};

    ghost Value = { Walk };

    // The innermost first.
    ghost view = { λ it. record { index = it.index; rounds = reverse it.rounds.items } };
}

impl Position {
    /// Before the first instruction.
    pub(crate) fn start(alloc: Global) -> Self
        ensures { result ≡ first_walk }
    {
        Position {
            index: 0,
            rounds: Vec::new(alloc),
        }
    }

    // A loop begins.
    fn enter(&mut self, rounds: Option<u32>) -> Result<(), AllocError>
        ensures index { self.new.index ≡ self.old.index }
        ensures rounds { OnOk result (self.new.rounds ≡ rounds ∷ self.old.rounds) }
    {
        self.rounds.push(rounds)?;
        Ok(())
    }

    // The innermost loop ends.
    fn leave(&mut self) -> Option<Option<u32>>
        ensures index { self.new.index ≡ self.old.index }
        ensures rounds { self.new.rounds ≡ drop 1 self.old.rounds }
        ensures none { result ≡ None → self.old.rounds ≡ [] }
        ensures some { (rounds : Option ℕ) → result ≡ Some rounds
            → self.old.rounds ≡ rounds ∷ self.new.rounds }
    {
        self.rounds.pop()
    }

    // A round ends: the next one begins where one is left.
    fn again(&mut self, body: usize, end: usize) -> Result<(), AllocError>
        ensures { OnOk result (self.new ≡ next_round body end self.old.rounds) }
    {
        match self.leave() {
            Some(None) => {
                self.enter(None)?;
                self.index = body;
            }
            Some(Some(rounds)) if rounds > 1 => {
                self.enter(Some(rounds - 1))?;
                self.index = body;
            }
            _ => self.index = end,
        }
        Ok(())
    }

    // Goes on by one instruction, unless it is a work or a call. Whether it did.
    fn go(&mut self, program: &[Instruction]) -> Result<bool, AllocError>
        ensures went { result ≡ Ok true → next_walk program.now self.old ≡ Some self.new }
        ensures stayed { result ≡ Ok false → next_walk program.now self.old ≡ None }
        ensures kept { result ≡ Ok false → self.new ≡ self.old }
    {
        let Some(instruction) = program.get(self.index) else {
            return Ok(false);
        };
        match *instruction {
            Instruction::Work { .. } | Instruction::Call { .. } => return Ok(false),
            Instruction::Join { end } => self.index = end as usize,
            Instruction::Enter { rounds, .. } => {
                self.enter(rounds)?;
                self.index += 1;
            }
            Instruction::Again { body } => self.again(body as usize, self.index + 1)?,
            Instruction::Break { end } => {
                self.leave();
                self.index = end as usize;
            }
        }
        Ok(true)
    }

    /// Goes on to the next work or call, or behind the last instruction.
    pub(crate) fn come(&mut self, program: &[Instruction]) -> Result<(), AllocError>
        ensures { OnOk result (self.new ≡ come program.now self.old) }
    {
        let mut left = 2 * program.len();
        while left > 0 {
            if !self.go(program)? {
                return Ok(());
            }
            left -= 1;
        }
        Ok(())
    }
}
