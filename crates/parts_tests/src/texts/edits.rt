//! Edits: which fault each has under a header.

use crate::expected::expect_same;
use crate::texts::answers::{Answer, check_answer};
use Fault::{BadCore, BadHeader, BadTask};
use bench_samples::{PLAIN, crowd};
use bench_types::{Call, Config, Edit, Fault, Header, MAX_STEPS, Step, StepFlaw};
use std::alloc::Global;
use std::process::Abort;
use std::test::Fail;

const LAST: u32 = 4_294_967_295;

/// The core and the caller of a call that an edit puts in or in place of another, and the answer.
type StepRow = (u32, u32, Answer);

const STEPS: &[StepRow] = &[
    (0, 2, Ok(())),
    (1, 4, Ok(())),
    (0, 5, Err(BadTask)),
    (2, 5, Err(BadCore)),
];

/// The numbers of cores and tasks, the changed task, its priority and mask, and the answer.
type ChangeRow = (u32, usize, u32, u32, u32, Answer);

const CHANGES: &[ChangeRow] = &[
    (2, 3, 1, 1, 3, Err(BadTask)),
    (2, 3, 2, 4, 3, Ok(())),
    (2, 3, 4, 0, 3, Ok(())),
    (2, 3, 5, 1, 3, Err(BadTask)),
    (2, 3, 5, 5, 0, Err(BadTask)),
    (2, 3, 2, 5, 3, Err(BadHeader)),
    (2, 3, 2, 1, 0, Err(BadHeader)),
    (2, 3, 2, 1, 1, Ok(())),
    (2, 3, 2, 1, 2, Ok(())),
    (2, 3, 2, 1, 4, Err(BadHeader)),
    (2, 3, 2, 1, 0xFFFF_FFFC, Err(BadHeader)),
    (2, 3, 2, 1, 0xFFFF_FFFE, Ok(())),
    // A core fewer than a mask has bits, as many, and headers past their limits.
    (31, 1, 31, 1, 0x8000_0000, Err(BadHeader)),
    (32, 1, 32, 1, 0x8000_0000, Ok(())),
    (40, 1, 40, 1, 0x8000_0000, Ok(())),
    (40, 1, 40, 1, 0, Err(BadHeader)),
];

fn check_edit(rt: &impl Abort, header: &Header, edit: Edit, want: Answer) {
    check_answer(rt, &edit, edit.check(header), want);
}

fn check_step(rt: &impl Abort, header: &Header, row: &StepRow) {
    let (core, task, want) = *row;
    let call = Call::Yield;
    let step = Step::Call { core, task, call };
    check_edit(rt, header, Edit::Insert { at: 7, step }, want);
    check_edit(rt, header, Edit::Replace { at: 7, step }, want);
}

#[test]
fn steps_of_edits(rt: HostRuntime) -> Result<(), Fail> {
    let header = crowd(rt.alloc(), PLAIN, 3)?;
    for row in STEPS {
        check_step(&rt, &header, row);
    }
    Ok(())
}

fn check_place(rt: &impl Abort, header: &Header, at: u32) {
    let step = Step::Tick;
    check_edit(rt, header, Edit::Insert { at, step }, Ok(()));
    check_edit(rt, header, Edit::Remove { at }, Ok(()));
    check_edit(rt, header, Edit::Replace { at, step }, Ok(()));
}

#[test]
fn places_of_edits(rt: HostRuntime) -> Result<(), Fail> {
    let header = crowd(rt.alloc(), PLAIN, 1)?;
    check_place(&rt, &header, 0);
    check_place(&rt, &header, MAX_STEPS);
    check_place(&rt, &header, LAST);
    Ok(())
}

fn check_change(rt: &impl Abort, alloc: Global, row: &ChangeRow) -> Result<(), Fail> {
    let (cores, tasks, task, priority, mask, want) = *row;
    let edit = Edit::ChangeTask {
        task,
        priority,
        mask,
    };
    let header = crowd(alloc, Config { cores, ..PLAIN }, tasks)?;
    check_edit(rt, &header, edit, want);
    Ok(())
}

#[test]
fn changes_of_tasks(rt: HostRuntime) -> Result<(), Fail> {
    for row in CHANGES {
        check_change(&rt, rt.alloc(), row)?;
    }
    Ok(())
}

/// The task, the priority and the mask of a change under plain settings, and its first flaw.
type FlawRow = (u32, u32, u32, Option<StepFlaw>);

const FLAWS: &[FlawRow] = &[
    (2, 4, 3, None),
    (1, 5, 4, Some(StepFlaw::Task(1))),
    (
        2,
        7,
        4,
        Some(StepFlaw::NewPriority {
            priority: 7,
            priorities: 5,
        }),
    ),
    (2, 4, 4, Some(StepFlaw::NewMask { mask: 4, cores: 2 })),
];

fn check_flaw(rt: &impl Abort, header: &Header, row: &FlawRow) {
    let (task, priority, mask, want) = *row;
    let edit = Edit::ChangeTask {
        task,
        priority,
        mask,
    };
    expect_same(rt, &edit.flaw(header), &want);
}

#[test]
fn flaws_of_changes(rt: HostRuntime) -> Result<(), Fail> {
    let header = crowd(rt.alloc(), PLAIN, 3)?;
    for row in FLAWS {
        check_flaw(&rt, &header, row);
    }
    Ok(())
}
