//! What stands around an instruction.
ghost use Rattle.std.specs.Prelude.{◌≡◌, ◌<◌, ◌-◌, ◌^◌, ◌==◌, ◌∷◌, [], length, drop, find, nat_le, true, OnSome};
ghost use Rattle.task_programs.specs.Programs.{around_next, innermost, is_body, next_branch, opens};
ghost use Rattle.task_programs.specs.Limits.{max_nesting};

use crate::{Instruction, MAX_NESTING};
use arrayvec::ArrayVec;
use std::marker::Model;

/// A branch or a body that has begun and not ended. Indices count instructions.
#[derive(Clone, Copy)]
pub(crate) enum Block {
    /// A branch of a call, whose `Join` stands right before `until` and leads to `end`.
    Branch { until: usize, end: usize },
    /// The body of a loop, which begins at `body`; its `Again` stands right before `end`.
    Body { body: usize, end: usize },
}

impl Block {
    fn is_body(self) -> bool
        ensures { result ≡ is_body self }
    {
        match self {
            Block::Branch { .. } => false,
            Block::Body { .. } => true,
        }
    }
}

// What an unused room holds.
impl Default for Block {
    fn default() -> Self {
        Block::Body { body: 0, end: 0 }
    }
}

/// The branches and bodies around an instruction.
#[derive(Drop)]
pub(crate) struct Around {
    // The innermost last.
    blocks: ArrayVec<Block, MAX_NESTING>,
}

impl Model for Around {
    ghost use Rattle.std.specs.Prelude.{List, reverse};
    ghost use Rattle.task_programs.specs.declared.around.Block.{Block};

    ghost Value = { List Block };

    // The innermost first.
    ghost view = { λ around. reverse around.blocks.items };
}

impl Around {
    pub(crate) fn nothing() -> Self
        ensures { result ≡ [] }
    {
        Around {
            blocks: ArrayVec::new(),
        }
    }

    pub(crate) fn is_nothing(&self) -> bool
        ensures { result ≡ (length self.now == 0) }
    {
        self.blocks.is_empty()
    }

    /// Whether no more may stand around an instruction.
    pub(crate) fn is_full(&self) -> bool
        ensures { result ≡ nat_le max_nesting (length self.now) }
    {
        self.blocks.is_full()
    }

    pub(crate) fn innermost(&self) -> Option<Block>
        ensures { result ≡ innermost self.now }
    {
        self.blocks.as_slice().last().copied()
    }

    /// The body of the innermost loop.
    pub(crate) fn innermost_loop(&self) -> Option<Block>
        ensures { result ≡ find is_body self.now }
    {
        let blocks = self.blocks.as_slice();
        let mut left = blocks.len();
        while left > 0 {
            left -= 1;
            if blocks[left].is_body() {
                return Some(blocks[left]);
            }
        }
        None
    }

    fn begin(&mut self, block: Block)
        requires { length self.old < max_nesting }
        ensures { self.new ≡ block ∷ self.old }
    {
        self.blocks.push(block);
    }

    // The innermost one ends.
    fn end(&mut self) -> Option<Block>
        ensures block { result ≡ innermost self.old }
        ensures rest { self.new ≡ drop 1 self.old }
        ensures room { OnSome result (length self.new < max_nesting) }
    {
        // Its length is read, so it is known to be within the limit.
        let _length = self.blocks.len();
        self.blocks.pop()
    }

    // `else` begins where `then` ends, if there is one.
    fn join(&mut self)
        ensures { self.new ≡ next_branch (innermost self.old) (drop 1 self.old) }
    {
        match self.end() {
            Some(Block::Branch { until, end }) if until != end => {
                self.begin(Block::Branch { until: end, end });
            }
            _ => {}
        }
    }

    /// Goes on behind the instruction at the index.
    pub(crate) fn pass(&mut self, index: usize, instruction: Instruction)
        requires small { index < 2 ^ 64 - 1 }
        requires room { opens index instruction ≡ true → length self.old < max_nesting }
        ensures { self.new ≡ around_next index instruction self.old }
    {
        match instruction {
            Instruction::Work { .. } | Instruction::Break { .. } => {}
            Instruction::Call { otherwise, end, .. } => {
                if end as usize != index + 1 {
                    self.begin(Block::Branch {
                        until: otherwise as usize,
                        end: end as usize,
                    });
                }
            }
            Instruction::Join { .. } => self.join(),
            Instruction::Enter { end, .. } => self.begin(Block::Body {
                body: index + 1,
                end: end as usize,
            }),
            Instruction::Again { .. } => {
                self.end();
            }
        }
    }
}
