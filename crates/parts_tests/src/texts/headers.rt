//! Headers: their limits, their copies and the names of their tasks.

use crate::expected::{expect_same, expect_text};
use crate::texts::answers::{Answer, check_answer, check_task};
use bench_samples::{PLAIN, crowd, header_of};
use bench_types::{Config, Fault, Header, HeaderFlaw};
use std::alloc::Global;
use std::process::Abort;
use std::test::Fail;

/// What the check answers for a header, and for what is none.
fn answer(is_header: bool) -> Answer {
    if is_header {
        Ok(())
    } else {
        Err(Fault::BadHeader)
    }
}

/// Each task's name, priority and mask.
type Tasks = &'static [(&'static str, u32, u32)];

const ONE: Tasks = &[("A", 0, 3)];

const LAST: u32 = 4_294_967_295;

/// The numbers of cores, priorities and mutexes, slicing, the start tick, the tasks, and whether
/// that is a header.
type HeaderRow = (u32, u32, u32, bool, u32, Tasks, bool);

const HEADERS: &[HeaderRow] = &[
    (1, 5, 2, false, 0, ONE, false),
    (2, 5, 2, false, 0, ONE, true),
    (32, 5, 2, false, 0, ONE, true),
    (33, 5, 2, false, 0, ONE, false),
    (2, 0, 2, false, 0, ONE, false),
    (2, 1, 2, false, 0, ONE, true),
    (2, 32, 2, false, 0, ONE, true),
    (2, 33, 2, false, 0, ONE, false),
    (2, 5, 0, false, 0, ONE, true),
    (2, 5, 32, false, 0, ONE, true),
    (2, 5, 33, false, 0, ONE, false),
    (2, 5, 2, false, LAST, ONE, true),
    (2, 5, 2, true, 0, ONE, true),
    (2, 5, 2, true, LAST, ONE, true),
    // The second task's priority and mask.
    (2, 5, 2, false, 0, &[("A", 0, 3), ("B", 4, 3)], true),
    (2, 5, 2, false, 0, &[("A", 0, 3), ("B", 5, 3)], false),
    (2, 5, 2, false, 0, &[("A", 0, 3), ("B", 1, 0)], false),
    (2, 5, 2, false, 0, &[("A", 0, 3), ("B", 1, 1)], true),
    (2, 5, 2, false, 0, &[("A", 0, 3), ("B", 1, 2)], true),
    (2, 5, 2, false, 0, &[("A", 0, 3), ("B", 1, 4)], false),
    (
        2,
        5,
        2,
        false,
        0,
        &[("A", 0, 3), ("B", 1, 0xFFFF_FFFC)],
        false,
    ),
    (
        2,
        5,
        2,
        false,
        0,
        &[("A", 0, 3), ("B", 1, 0xFFFF_FFFE)],
        true,
    ),
    // The last of 32 cores, which is none of 31.
    (32, 5, 2, false, 0, &[("A", 0, 0x8000_0000)], true),
    (31, 5, 2, false, 0, &[("A", 0, 0x8000_0000)], false),
    // A name twice.
    (
        2,
        5,
        2,
        false,
        0,
        &[("A", 1, 3), ("B", 1, 3), ("C", 1, 3), ("a", 1, 3)],
        true,
    ),
    (
        2,
        5,
        2,
        false,
        0,
        &[("A", 1, 3), ("A", 1, 3), ("B", 1, 3), ("C", 1, 3)],
        false,
    ),
    (
        2,
        5,
        2,
        false,
        0,
        &[("A", 1, 3), ("B", 1, 3), ("C", 1, 3), ("C", 1, 3)],
        false,
    ),
    (
        2,
        5,
        2,
        false,
        0,
        &[("A", 1, 3), ("B", 1, 3), ("C", 1, 3), ("A", 1, 3)],
        false,
    ),
    (2, 5, 2, false, 0, &[], false),
];

fn check_header(rt: &impl Abort, alloc: Global, row: &HeaderRow) -> Result<(), Fail> {
    let (cores, priorities, mutexes, slicing, tick, tasks, fits) = *row;
    let config = Config {
        cores,
        priorities,
        slicing,
        tick,
        mutexes,
        notes: 1,
        units: 1,
    };
    let header = header_of(alloc, config, tasks)?;
    check_answer(rt, &header, header.check(), answer(fits));
    Ok(())
}

/// The tasks of a header with plain settings, and its first flaw.
type FlawRow = (Tasks, Option<HeaderFlaw>);

const FLAWS: &[FlawRow] = &[
    (ONE, None),
    (&[], Some(HeaderFlaw::TaskCount(0))),
    // Priorities are judged before masks, and masks before names, whichever task they are of.
    (
        &[("A", 0, 4), ("A", 5, 3), ("B", 6, 3)],
        Some(HeaderFlaw::Priority {
            task: 1,
            priorities: 5,
        }),
    ),
    (
        &[("A", 0, 3), ("A", 0, 4)],
        Some(HeaderFlaw::Mask { task: 1, cores: 2 }),
    ),
    // The first task of those that share a name.
    (
        &[("A", 0, 3), ("B", 0, 3), ("C", 0, 3), ("B", 0, 3)],
        Some(HeaderFlaw::SharedName(1)),
    ),
];

fn check_flaw(rt: &impl Abort, alloc: Global, row: &FlawRow) -> Result<(), Fail> {
    let (tasks, want) = *row;
    let header = header_of(alloc, PLAIN, tasks)?;
    expect_same(rt, &header.flaw(), &want);
    Ok(())
}

#[test]
fn flaws(rt: HostRuntime) -> Result<(), Fail> {
    for row in FLAWS {
        check_flaw(&rt, rt.alloc(), row)?;
    }
    Ok(())
}

// How many notifications a task has, and whether it may have so many.
const NOTES: &[(u32, bool)] = &[
    (0, false),
    (1, true),
    (2, true),
    (8, true),
    (9, false),
    (LAST, false),
];

fn check_notes(rt: &impl Abort, alloc: Global, notes: u32, fits: bool) -> Result<(), Fail> {
    let header = header_of(alloc, Config { notes, ..PLAIN }, ONE)?;
    check_answer(rt, &notes, header.check(), answer(fits));
    Ok(())
}

#[test]
fn numbers_of_notifications(rt: HostRuntime) -> Result<(), Fail> {
    for (notes, fits) in NOTES {
        check_notes(&rt, rt.alloc(), *notes, *fits)?;
    }
    Ok(())
}

#[test]
fn headers(rt: HostRuntime) -> Result<(), Fail> {
    for row in HEADERS {
        check_header(&rt, rt.alloc(), row)?;
    }
    Ok(())
}

fn check_number(rt: &impl Abort, alloc: Global, tasks: usize, fits: bool) -> Result<(), Fail> {
    let header = crowd(alloc, PLAIN, tasks)?;
    check_answer(rt, &tasks, header.check(), answer(fits));
    Ok(())
}

// Numbers of tasks, and whether a header may have so many.
const NUMBERS: &[(usize, bool)] = &[(0, false), (1, true), (512, true), (513, false)];

#[test]
fn numbers_of_tasks(rt: HostRuntime) -> Result<(), Fail> {
    for (tasks, fits) in NUMBERS {
        check_number(&rt, rt.alloc(), *tasks, *fits)?;
    }
    Ok(())
}

/// So is the task's name told, after an equals sign.
type NameRow = (u32, &'static str);

const NAMES: &[NameRow] = &[(0, "=IDLE0"), (1, "=IDLE1"), (2, "=A"), (3, "=B"), (4, "=")];

fn check_name(rt: &impl Abort, alloc: Global, header: &Header, row: &NameRow) -> Result<(), Fail> {
    let (task, want) = *row;
    let mut text = String::from_str(alloc, "=")?;
    header.push_name(&mut text, task)?;
    expect_text(rt, text.as_str(), want);
    Ok(())
}

#[test]
fn names_of_tasks(rt: HostRuntime) -> Result<(), Fail> {
    let header = header_of(rt.alloc(), PLAIN, &[("A", 0, 3), ("B", 4, 3)])?;
    for row in NAMES {
        check_name(&rt, rt.alloc(), &header, row)?;
    }
    Ok(())
}

// The copy has the numbers and the two tasks of the header.
fn check_copy(rt: &impl Abort, copy: &Header, header: &Header) {
    assert_eq!(rt; copy.config, header.config);
    assert_eq!(rt; copy.tasks.as_slice().len(), 2);
    for (left, right) in copy.tasks.as_slice().iter().zip(header.tasks.as_slice()) {
        check_task(rt, left, right.name.as_str(), right.priority, right.mask);
    }
}

#[test]
fn copies(rt: HostRuntime) -> Result<(), Fail> {
    let header = header_of(rt.alloc(), PLAIN, &[("A", 0, 3), ("B", 4, 0xFFFF_FFFE)])?;
    let copy = header.copy(rt.alloc())?;
    check_copy(&rt, &copy, &header);
    Ok(())
}
