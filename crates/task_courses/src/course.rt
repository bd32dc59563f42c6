//! How far a task has come in its program.
ghost use Rattle.std.specs.Prelude.{◌≡◌, ◌+◌, ◌-◌, ◌<◌, ◌^◌, IfOk, OnOk, length, slice_get, slice_index_or};
ghost use Rattle.bench_model.specs.Until.{next_wake};
ghost use Rattle.workload_runs.specs.Ends.{is_at_end};
ghost use Rattle.workload_runs.specs.Courses.{answered, behind_work, call_made, first_course, gone_on, index_behind, is_affirmative, is_blocked, next_call, next_turn, returned, turn_at, units_next, units_of, wake_after, work_done, worked};

use crate::position::Position;
use bench_types::{Call, Reply};
use std::alloc::{AllocError, Global};
use std::marker::Model;
use task_programs::{Instruction, ProgramCall};

/// How far a task has come in its program.
#[derive(Debug, Drop)]
pub struct Course {
    position: Position,
    // The units that are left of the work; 0 where there is none.
    left: u32,
    // Of the works of one item, by the index of the first of them, which comes next.
    turns: Vec<usize>,
    // The tick count of the wake of the last `delay_until`.
    wake: u32,
    // The call was made, and its answer is still to come.
    awaits: bool,
}

impl Model for Course {
    ghost use Rattle.std.specs.Prelude.{reverse};
    ghost use Rattle.workload_runs.specs.Courses.{Course as Value_of};

    ghost Value = { Value_of };

    ghost view = { λ it. record {
      walk = it.position;
      left = it.left;
      turns = it.turns.items;
      wake = it.wake;
      awaits = it.awaits;
    } };
}

impl Course {
    /// Before the first instruction of the program, where the kernel starts at the tick count.
    #[tactic(auto, unfolding(workload_runs::specs::Courses::first_course))]
    pub fn start(alloc: Global, tick: u32, program: &[Instruction]) -> Result<Self, AllocError>
        ensures { IfOk result (λ course. course ≡ first_course tick program.now) }
    {
        let mut course = Course {
            position: Position::start(alloc),
            left: 0,
            turns: vec![in alloc; 0; program.len()]?,
            wake: tick,
            awaits: false,
        };
        course.go_on(program)?;
        Ok(course)
    }

    // The walk goes on from where it is.
    #[tactic(auto, unfolding(workload_runs::specs::Courses::gone_on))]
    fn go_on(&mut self, program: &[Instruction]) -> Result<(), AllocError>
        ensures { OnOk result (self.new ≡ gone_on program.now self.old.walk self.old) }
    {
        self.position.come(program)?;
        self.left = units_next(program, &self.turns, self.position.index);
        Ok(())
    }

    // The work is done.
    #[tactic(auto, unfolding(workload_runs::specs::Courses::work_done, workload_runs::specs::Courses::gone_on))]
    fn end_work(&mut self, program: &[Instruction]) -> Result<(), AllocError>
        ensures { OnOk result (self.new ≡ work_done program.now self.old) }
    {
        let index = self.position.index;
        let end = behind_work(program, index);
        if let Some(turn) = self.turns.get_mut(index) {
            *turn = next_turn(end.saturating_sub(index), *turn);
        }
        self.position.index = end;
        self.go_on(program)
    }

    /// The task works for so many units, where it has work to do.
    #[tactic(auto, unfolding(workload_runs::specs::Courses::worked))]
    pub fn work(&mut self, program: &[Instruction], units: u32) -> Result<(), AllocError>
        ensures { OnOk result (self.new ≡ worked program.now units self.old) }
    {
        if self.left == 0 {
            return Ok(());
        }
        if units < self.left {
            self.left -= units;
            return Ok(());
        }
        self.end_work(program)
    }

    /// The units that are left of the work that the task does; 0 where it does none.
    pub fn left(&self) -> u32
        ensures { result ≡ self.now.left }
    {
        self.left
    }

    /// Whether the task is at the end of its program: behind the last instruction.
    pub fn is_at_end(&self, program: &[Instruction]) -> bool
        ensures { result ≡ is_at_end program.now self.now }
    {
        program.len() <= self.position.index
    }

    /// The call that the task makes next; none where it has work to do before.
    #[tactic(auto, unfolding(workload_runs::specs::Courses::next_call))]
    pub fn next_call(&self, program: &[Instruction], task: u32) -> Option<Call>
        ensures { result ≡ next_call program.now task self.now }
    {
        if self.left != 0 {
            return None;
        }
        match program.get(self.position.index) {
            None => Some(Call::Suspend(task)),
            Some(Instruction::Call { call, .. }) => Some(call_made(self.wake, *call)),
            Some(_) => None,
        }
    }

    // The call that was made has its answer.
    #[tactic(auto, unfolding(workload_runs::specs::Courses::returned, workload_runs::specs::Courses::gone_on))]
    fn return_with(&mut self, program: &[Instruction], reply: Reply) -> Result<(), AllocError>
        ensures { OnOk result (self.new ≡ returned program.now reply self.old) }
    {
        let index = self.position.index;
        self.position.index = index_behind(program, is_affirmative(reply), index);
        self.awaits = false;
        self.go_on(program)
    }

    /// A call of the task, or its `finish`, was answered.
    #[tactic(auto, unfolding(workload_runs::specs::Courses::answered))]
    pub fn answer(
        &mut self,
        program: &[Instruction],
        call: Call,
        reply: Reply,
    ) -> Result<(), AllocError>
        ensures { OnOk result (self.new ≡ answered program.now call reply self.old) }
    {
        self.wake = wake_after(call, reply, self.wake);
        if reply == Reply::Blocked {
            self.awaits = true;
            return Ok(());
        }
        if call == Call::Finish && !self.awaits {
            return Ok(());
        }
        self.return_with(program, reply)
    }
}

// The units of the work at the index; 0 of any other instruction, and of none.
fn units_at(program: &[Instruction], index: usize) -> u32
    ensures { result ≡ units_of (slice_get program.now index) }
{
    match program.get(index) {
        Some(Instruction::Work { units, .. }) => *units,
        _ => 0,
    }
}

// The units of the work whose turn it is, of the item that begins at the index.
fn units_next(program: &[Instruction], turns: &[usize], index: usize) -> u32
    ensures { result ≡ units_next program.now turns.now index }
{
    let turn = turns.get(index).copied().unwrap_or(0);
    match index.checked_add(turn) {
        Some(at) => units_at(program, at),
        None => 0,
    }
}

// The index behind the item of the work at the index; 0 where there is none.
fn behind_work(program: &[Instruction], index: usize) -> usize
    ensures { result ≡ behind_work (slice_get program.now index) }
{
    match program.get(index) {
        Some(Instruction::Work { end, .. }) => *end as usize,
        _ => 0,
    }
}

// After the last of so many works comes the first one again.
fn next_turn(works: usize, turn: usize) -> usize
    ensures { result ≡ next_turn works turn }
{
    if turn < works.saturating_sub(1) {
        turn + 1
    } else {
        0
    }
}

// The call as a session has it.
fn call_made(wake: u32, call: ProgramCall) -> Call
    ensures { result ≡ call_made wake call }
{
    match call {
        ProgramCall::Made(call) => call,
        ProgramCall::DelayUntilNext { inc } => Call::DelayUntil { prev: wake, inc },
    }
}

// Whether the answer takes the walk to `then`.
fn is_affirmative(reply: Reply) -> bool
    ensures { result ≡ is_affirmative reply }
{
    match reply {
        Reply::Done | Reply::Blocked => true,
        Reply::Flag(flag) => flag,
        Reply::Value(value) => value != 0,
        Reply::Waited { ok, .. } => ok,
        Reply::Until { delayed, .. } => delayed,
        Reply::Isr { pass, .. } => pass,
        Reply::Refused(_) => false,
    }
}

// Where the walk goes on behind the call at the index.
fn index_behind(program: &[Instruction], affirmative: bool, index: usize) -> usize
    ensures { result ≡ index_behind affirmative index (slice_get program.now index) }
{
    match program.get(index) {
        Some(Instruction::Call { otherwise, .. }) => {
            if affirmative {
                index + 1
            } else {
                *otherwise as usize
            }
        }
        _ => index,
    }
}

// The wake of the last `delay_until`; one that is refused has none.
fn wake_after(call: Call, reply: Reply, last: u32) -> u32
    ensures { result ≡ wake_after call reply last }
{
    match (call, reply) {
        (Call::DelayUntil { .. }, Reply::Refused(_)) => last,
        (Call::DelayUntil { prev, inc }, _) => prev.wrapping_add(inc),
        _ => last,
    }
}
