//! How long tasks still wait for mutexes.
ghost use Rattle.std.specs.Prelude.{◌≡◌, ◌↔◌, ◌<◌, ◌≤◌, ◌+◌, Bool, length, map, replicate, None, slice_index_or, slice_set, IsTrue, IfOk};
ghost use Rattle.std.specs.Option.{ForSome};
ghost use Rattle.smp_kernel.specs.Deadlines.{one_less, left_after, lefts, AreNear, AreNone};

use std::alloc::{AllocError, Global};
use std::marker::Model;

/// Per task the ticks left to the end of its unfinished wait for a mutex; none where it has no such
/// wait, or one without end.
///
/// Each tick is counted once and no deadline is touched by it.
#[derive(Debug, Drop)]
pub struct Deadlines {
    /// The ticks that have passed since the count began.
    passed: u64,
    /// Whether a task may have a deadline. Where none may, a copy leaves the ends out.
    some: bool,
    /// Per task what that count is at its deadline.
    ends: Vec<Option<u64>>,
}

impl Model for Deadlines {
    ghost use Rattle.std.specs.Prelude.{◌≤◌, ℕ, List, Option};
    ghost use Rattle.smp_kernel.specs.Deadlines.{AreNear, AreNone, lefts};

    ghost Value = { List (Option ℕ) };

    ghost view = { λ deadlines. lefts deadlines.passed deadlines.ends.items };

    ghost invariant = { λ deadlines. (deadlines.passed ≤ 18446744069414584320)
        × AreNear deadlines.passed deadlines.ends.items
        × AreNone deadlines.some deadlines.ends.items };
}

/// The count begins anew once it is this, so that every deadline fits.
const MOST_PASSED: u64 = u64::MAX - 0xFFFF_FFFF;

impl Deadlines {
    /// No task has a deadline.
    pub fn new(alloc: Global, tasks: u32) -> Result<Self, AllocError>
        ensures { IfOk result (λ deadlines. deadlines ≡ replicate tasks None) }
    {
        Ok(Deadlines {
            passed: 0,
            some: false,
            ends: vec![in alloc; None; tasks as usize]?,
        })
    }

    /// A second value, equal to this one.
    pub fn copy(&self, alloc: Global) -> Result<Self, AllocError>
        ensures { IfOk result (λ copy. copy ≡ self.now) }
    {
        Ok(Deadlines {
            passed: self.passed,
            some: self.some,
            ends: Vec::from_slice(alloc, &self.ends)?,
        })
    }

    /// These become equal to the others, which are of as many tasks. No memory is taken.
    pub fn copy_from(&mut self, other: &Self)
        requires { length self.old ≡ length other.now }
        ensures { self.new ≡ other.now }
    {
        self.passed = other.passed;
        if self.some || other.some {
            self.some = other.some;
            self.ends.copy_from_slice(&other.ends);
        }
    }

    /// Whether the deadlines of all tasks are equal.
    pub fn same(&self, other: &Self) -> bool
        ensures { IsTrue result ↔ (self.now ≡ other.now) }
    {
        are_same(self.passed, &self.ends, other.passed, &other.ends)
    }

    /// The ticks that are left to the task's deadline, 0 where it is reached.
    pub fn left(&self, task: u32) -> Option<u32>
        requires { task < length self.now }
        ensures { result ≡ slice_index_or self.now task None }
    {
        match self.ends[task as usize] {
            Some(end) => Some(end.saturating_sub(self.passed) as u32),
            None => None,
        }
    }

    /// The task's deadline is so many ticks ahead, or there is none.
    pub fn set(&mut self, task: u32, left: Option<u32>)
        requires { task < length self.old }
        ensures { self.new ≡ slice_set self.old task left }
    {
        self.some |= left.is_some();
        self.ends[task as usize] = end_after(left, self.passed);
    }

    /// One tick passes. A deadline that is reached stays so.
    pub fn age(&mut self)
        ensures { self.new ≡ map one_less self.old }
    {
        self.passed = next_count(self.passed, self.ends.as_mut_slice());
    }
}

// The deadline to which so much is left.
fn end_after(left: Option<u32>, passed: u64) -> Option<u64>
    requires { passed ≤ 18446744069414584320 }
    ensures left { left_after passed result ≡ left }
    ensures near { ForSome result (λ end. end ≤ passed + 4294967295) }
{
    match left {
        Some(left) => Some(passed + u64::from(left)),
        None => None,
    }
}

// The count after one tick more, which begins anew where it is as far as it may be.
fn next_count(passed: u64, ends: &mut [Option<u64>]) -> u64
    requires near { AreNear passed ends.old }
    ensures lefts { lefts result ends.new ≡ map one_less (lefts passed ends.old) }
    ensures near { AreNear result ends.new }
    ensures none { (some : Bool) → AreNone some ends.old → AreNone some ends.new }
    ensures most { result ≤ 18446744069414584320 }
{
    if passed < MOST_PASSED {
        return passed + 1;
    }
    count_anew(ends, passed);
    1
}

// What is left to each deadline, which is what the count is then when it begins anew.
fn count_anew(ends: &mut [Option<u64>], passed: u64)
    ensures { ends.new ≡ lefts passed ends.old }
{
    for end in ends {
        *end = left_after(*end, passed);
    }
}

fn left_after(end: Option<u64>, passed: u64) -> Option<u64>
    ensures { result ≡ left_after passed end }
{
    end.map(|end| end.saturating_sub(passed))
}

fn are_same(passed: u64, ends: &[Option<u64>], other_passed: u64, others: &[Option<u64>]) -> bool
    ensures { IsTrue result ↔ (lefts passed ends.now ≡ lefts other_passed others.now) }
{
    if ends.len() != others.len() {
        return false;
    }
    for task in 0..ends.len() {
        if left_after(ends[task], passed) != left_after(others[task], other_passed) {
            return false;
        }
    }
    true
}
