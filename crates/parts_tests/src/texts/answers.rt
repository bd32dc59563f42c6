//! What is told of types, compared with what it should be.

use crate::expected::{expect_same, expect_text};
use bench_types::{Fault, TaskArgs};
use std::fmt::Debug;
use std::process::Abort;

/// What a check answers.
pub type Answer = Result<(), Fault>;

/// The check of this answers as it should.
pub fn check_answer(rt: &impl Abort, of: &impl Debug, got: Answer, want: Answer) {
    assert_eq!(rt; got, want, "at {of:?}");
}

/// The task has this name, priority and mask.
pub fn check_task(rt: &impl Abort, task: &TaskArgs, name: &str, priority: u32, mask: u32) {
    expect_text(rt, task.name.as_str(), name);
    expect_same(rt, &(task.priority, task.mask), &(priority, mask));
}
