//! Programs of tasks as texts, and the instructions that they are: worked out by hand from the
//! format's description.

use crate::texts::workload;
use bench_types::{Call, Note, NotifyAction, Step};
use std::alloc::Global;
use std::process::Abort;
use std::test::Fail;
use task_programs::{CheckedWorkload, Instruction, Interrupt, ProgramCall};
use workload_text::read_workload;

/// A loop for ever: a wake, works, and a mutex that may be had.
const LOOP: &str =
    "{\"forever\":[{\"do\":\"delay_until\",\"inc\":10},{\"work\":[1800,2100]},{\"do\":\"mutex_take\",\"mutex\":0,\"ticks\":5,\"then\":[{\"work\":300},{\"do\":\"mutex_give\",\"mutex\":0}],\"else\":[]}]}";

const LOOP_INSTRUCTIONS: &[Instruction] = &[
    Instruction::Enter {
        rounds: None,
        end: 9,
    },
    Instruction::Call {
        call: ProgramCall::DelayUntilNext { inc: 10 },
        otherwise: 2,
        end: 2,
    },
    Instruction::Work {
        units: 1800,
        end: 4,
    },
    Instruction::Work {
        units: 2100,
        end: 4,
    },
    Instruction::Call {
        call: ProgramCall::Made(Call::MutexTake { mutex: 0, ticks: 5 }),
        otherwise: 8,
        end: 8,
    },
    Instruction::Work { units: 300, end: 6 },
    Instruction::Call {
        call: ProgramCall::Made(Call::MutexGive(0)),
        otherwise: 7,
        end: 7,
    },
    Instruction::Join { end: 8 },
    Instruction::Again { body: 1 },
];

/// A loop that a branch leaves, and a work behind it.
const BRANCHES: &str =
    "{\"repeat\":2,\"of\":[{\"do\":\"delay_until\",\"prev\":3,\"inc\":1,\"then\":[\"break\"],\"else\":[{\"work\":1}]}]},{\"work\":[7]}";

const BRANCHES_INSTRUCTIONS: &[Instruction] = &[
    Instruction::Enter {
        rounds: Some(2),
        end: 7,
    },
    Instruction::Call {
        call: ProgramCall::Made(Call::DelayUntil { prev: 3, inc: 1 }),
        otherwise: 4,
        end: 6,
    },
    Instruction::Break { end: 7 },
    Instruction::Join { end: 6 },
    Instruction::Work { units: 1, end: 5 },
    Instruction::Join { end: 6 },
    Instruction::Again { body: 1 },
    Instruction::Work { units: 7, end: 8 },
];

/// `else` alone, and a loop for ever that is left.
const OTHERWISE: &str =
    "{\"forever\":[{\"do\":\"queue_receive\",\"queue\":0,\"ticks\":9,\"else\":[\"break\"]}]},{\"do\":\"suspend\",\"to\":\"idler\"}";

const OTHERWISE_INSTRUCTIONS: &[Instruction] = &[
    Instruction::Enter {
        rounds: None,
        end: 6,
    },
    Instruction::Call {
        call: ProgramCall::Made(Call::QueueReceive { queue: 0, ticks: 9 }),
        otherwise: 3,
        end: 5,
    },
    Instruction::Join { end: 5 },
    Instruction::Break { end: 6 },
    Instruction::Join { end: 5 },
    Instruction::Again { body: 1 },
    Instruction::Call {
        call: ProgramCall::Made(Call::Suspend(3)),
        otherwise: 7,
        end: 7,
    },
];

/// An interrupt that comes again and one that does not.
const INTERRUPTS: &str =
    "{\"at\":5200,\"every\":20000,\"do\":\"isr_notify\",\"core\":0,\"to\":\"control\",\"action\":\"increment\",\"index\":1},{\"at\":18446744073709551615,\"do\":\"isr_resume\",\"core\":1,\"to\":\"idler\"}";

const READ_INTERRUPTS: &[Interrupt] = &[
    Interrupt {
        at: 5200,
        every: Some(20_000),
        what: Step::Interrupt {
            core: 0,
            note: Note {
                task: 2,
                action: NotifyAction::Increment,
                index: 1,
            },
        },
    },
    Interrupt {
        at: u64::MAX,
        every: None,
        what: Step::ResumeInterrupt { core: 1, task: 3 },
    },
];

fn read(alloc: Global, items: &str, interrupts: &str) -> Option<CheckedWorkload> {
    let text = workload(alloc, items, interrupts, "200").ok()?;
    read_workload(alloc, text.as_bytes()).ok()
}

/// The first program is these instructions.
fn check_program(rt: &impl Abort, alloc: Global, items: &str, instructions: &[Instruction]) {
    let read = read(alloc, items, "");
    let program = read
        .as_ref()
        .and_then(|workload| workload.programs().first())
        .map(|program| program.as_slice());
    assert_eq!(rt; program, Some(instructions));
}

#[test]
fn items_are_instructions(rt: HostRuntime) -> Result<(), Fail> {
    check_program(&rt, rt.alloc(), LOOP, LOOP_INSTRUCTIONS);
    check_program(&rt, rt.alloc(), BRANCHES, BRANCHES_INSTRUCTIONS);
    check_program(&rt, rt.alloc(), OTHERWISE, OTHERWISE_INSTRUCTIONS);
    check_program(&rt, rt.alloc(), "", &[]);
    Ok(())
}

fn check_workload(rt: &impl Abort, workload: &CheckedWorkload) {
    assert_eq!(rt; workload.header().tasks.as_slice().len(), 2);
    assert_eq!(rt; workload.programs().len(), 2);
    assert_eq!(rt; workload.interrupts(), READ_INTERRUPTS);
    assert_eq!(rt; workload.ticks(), 200);
}

#[test]
fn what_a_workload_has(rt: HostRuntime) -> Result<(), Fail> {
    match read(rt.alloc(), LOOP, INTERRUPTS) {
        Some(read) => {
            check_workload(&rt, &read);
            let copy = read.copy(rt.alloc())?;
            check_workload(&rt, &copy);
            assert!(&rt; copy.into_workload().flaw().is_none());
        }
        None => return Err(Fail::from("the text is a workload")),
    }
    Ok(())
}
