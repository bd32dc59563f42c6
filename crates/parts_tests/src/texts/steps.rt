//! Steps and calls: which fault each has under a header.

use crate::texts::answers::{Answer, check_answer};
use Fault::{BadArgument, BadCore, BadMutex, BadTask};
use bench_samples::{PLAIN, crowd};
use bench_types::{Call, Config, Fault, Header, Note, NotifyAction, Step};
use std::alloc::Global;
use std::process::Abort;
use std::test::Fail;

const LAST: u32 = 4_294_967_295;

/// The number of tasks that the header has, the core, the caller, its call, and the answer for
/// that step.
type CallRow = (usize, u32, u32, Call, Answer);

// The cores and the callers of calls, then their arguments.
const CALLS: &[CallRow] = &[
    (3, 0, 2, Call::Yield, Ok(())),
    (3, 1, 2, Call::Yield, Ok(())),
    (3, 2, 2, Call::Yield, Err(BadCore)),
    (3, 0, 0, Call::Finish, Err(BadTask)),
    (3, 0, 1, Call::Finish, Err(BadTask)),
    (3, 0, 2, Call::Finish, Ok(())),
    (3, 0, 4, Call::Finish, Ok(())),
    (3, 0, 5, Call::Finish, Err(BadTask)),
    (3, 2, 5, Call::Finish, Err(BadCore)),
    (1, 0, 2, Call::Yield, Ok(())),
    (1, 0, 2, Call::Delay(0), Ok(())),
    (1, 0, 2, Call::Delay(LAST), Ok(())),
    (
        1,
        0,
        2,
        Call::NotifyWait {
            entry: LAST,
            exit: 0,
            ticks: LAST,
            index: 0,
        },
        Ok(()),
    ),
    (
        1,
        0,
        2,
        Call::NotifyTake {
            clear: true,
            ticks: 0,
            index: 0,
        },
        Ok(()),
    ),
    (1, 0, 2, Call::Finish, Ok(())),
    (1, 0, 2, Call::HoldOpen, Ok(())),
    (1, 0, 2, Call::HoldClose, Ok(())),
    (
        3,
        0,
        2,
        Call::PrioritySet {
            task: 1,
            priority: 99,
        },
        Err(BadTask),
    ),
    (
        3,
        0,
        2,
        Call::AffinitySet { task: 1, mask: 3 },
        Err(BadTask),
    ),
    (3, 0, 2, Call::PreemptOff(1), Err(BadTask)),
    (3, 0, 2, Call::PreemptOn(1), Err(BadTask)),
    (
        3,
        0,
        2,
        Call::Notify(Note {
            task: 1,
            action: NotifyAction::Set(LAST),
            index: 0,
        }),
        Err(BadTask),
    ),
    (
        3,
        0,
        2,
        Call::StateClear { task: 1, index: 0 },
        Err(BadTask),
    ),
    (
        3,
        0,
        2,
        Call::ValueClear {
            task: 1,
            bits: 0,
            index: 0,
        },
        Err(BadTask),
    ),
    (
        3,
        0,
        2,
        Call::PrioritySet {
            task: 2,
            priority: 99,
        },
        Ok(()),
    ),
    (3, 0, 2, Call::AffinitySet { task: 2, mask: 3 }, Ok(())),
    (3, 0, 2, Call::PreemptOff(2), Ok(())),
    (3, 0, 2, Call::PreemptOn(2), Ok(())),
    (
        3,
        0,
        2,
        Call::Notify(Note {
            task: 2,
            action: NotifyAction::Set(LAST),
            index: 0,
        }),
        Ok(()),
    ),
    (3, 0, 2, Call::StateClear { task: 2, index: 0 }, Ok(())),
    (
        3,
        0,
        2,
        Call::ValueClear {
            task: 2,
            bits: 0,
            index: 0,
        },
        Ok(()),
    ),
    (
        3,
        0,
        2,
        Call::PrioritySet {
            task: 4,
            priority: 99,
        },
        Ok(()),
    ),
    (3, 0, 2, Call::AffinitySet { task: 4, mask: 3 }, Ok(())),
    (3, 0, 2, Call::PreemptOff(4), Ok(())),
    (3, 0, 2, Call::PreemptOn(4), Ok(())),
    (
        3,
        0,
        2,
        Call::Notify(Note {
            task: 4,
            action: NotifyAction::Set(LAST),
            index: 0,
        }),
        Ok(()),
    ),
    (3, 0, 2, Call::StateClear { task: 4, index: 0 }, Ok(())),
    (
        3,
        0,
        2,
        Call::ValueClear {
            task: 4,
            bits: 0,
            index: 0,
        },
        Ok(()),
    ),
    (
        3,
        0,
        2,
        Call::PrioritySet {
            task: 5,
            priority: 99,
        },
        Err(BadTask),
    ),
    (
        3,
        0,
        2,
        Call::AffinitySet { task: 5, mask: 3 },
        Err(BadTask),
    ),
    (3, 0, 2, Call::PreemptOff(5), Err(BadTask)),
    (3, 0, 2, Call::PreemptOn(5), Err(BadTask)),
    (
        3,
        0,
        2,
        Call::Notify(Note {
            task: 5,
            action: NotifyAction::Set(LAST),
            index: 0,
        }),
        Err(BadTask),
    ),
    (
        3,
        0,
        2,
        Call::StateClear { task: 5, index: 0 },
        Err(BadTask),
    ),
    (
        3,
        0,
        2,
        Call::ValueClear {
            task: 5,
            bits: 0,
            index: 0,
        },
        Err(BadTask),
    ),
    (
        1,
        0,
        2,
        Call::DelayUntil { prev: 0, inc: 0 },
        Err(BadArgument),
    ),
    (
        1,
        0,
        2,
        Call::DelayUntil { prev: 7, inc: 0 },
        Err(BadArgument),
    ),
    (1, 0, 2, Call::DelayUntil { prev: 0, inc: 1 }, Ok(())),
    (
        1,
        0,
        2,
        Call::DelayUntil {
            prev: LAST,
            inc: LAST,
        },
        Ok(()),
    ),
    (3, 0, 2, Call::MutexTake { mutex: 0, ticks: 0 }, Ok(())),
    (3, 0, 2, Call::MutexGive(0), Ok(())),
    (3, 0, 2, Call::MutexTake { mutex: 1, ticks: 0 }, Ok(())),
    (3, 0, 2, Call::MutexGive(1), Ok(())),
    (
        3,
        0,
        2,
        Call::MutexTake { mutex: 2, ticks: 0 },
        Err(BadMutex),
    ),
    (3, 0, 2, Call::MutexGive(2), Err(BadMutex)),
    (
        3,
        0,
        2,
        Call::MutexTake {
            mutex: LAST,
            ticks: 0,
        },
        Err(BadMutex),
    ),
    (3, 0, 2, Call::MutexGive(LAST), Err(BadMutex)),
    (
        3,
        0,
        2,
        Call::AffinitySet { task: 2, mask: 0 },
        Err(BadArgument),
    ),
    (3, 0, 2, Call::AffinitySet { task: 2, mask: 1 }, Ok(())),
    (3, 0, 2, Call::AffinitySet { task: 2, mask: 2 }, Ok(())),
    (
        3,
        0,
        2,
        Call::AffinitySet { task: 2, mask: 4 },
        Err(BadArgument),
    ),
    (3, 0, 2, Call::AffinitySet { task: 2, mask: 6 }, Ok(())),
    (
        3,
        0,
        2,
        Call::AffinitySet { task: 5, mask: 4 },
        Err(BadTask),
    ),
];

// Steps by no task, under a header of three.
const STEPS: &[(Step, Answer)] = &[
    (Step::Tick, Ok(())),
    (Step::Switch { core: 0 }, Ok(())),
    (Step::Switch { core: 1 }, Ok(())),
    (Step::Switch { core: 2 }, Err(BadCore)),
    (
        Step::Interrupt {
            core: 0,
            note: Note {
                task: 1,
                action: NotifyAction::Set(LAST),
                index: 0,
            },
        },
        Err(BadTask),
    ),
    (
        Step::Interrupt {
            core: 0,
            note: Note {
                task: 2,
                action: NotifyAction::Set(LAST),
                index: 0,
            },
        },
        Ok(()),
    ),
    (
        Step::Interrupt {
            core: 1,
            note: Note {
                task: 4,
                action: NotifyAction::Set(LAST),
                index: 0,
            },
        },
        Ok(()),
    ),
    (
        Step::Interrupt {
            core: 1,
            note: Note {
                task: 5,
                action: NotifyAction::Set(LAST),
                index: 0,
            },
        },
        Err(BadTask),
    ),
    (
        Step::Interrupt {
            core: 2,
            note: Note {
                task: 4,
                action: NotifyAction::Set(LAST),
                index: 0,
            },
        },
        Err(BadCore),
    ),
    (
        Step::Interrupt {
            core: 2,
            note: Note {
                task: 5,
                action: NotifyAction::Set(LAST),
                index: 0,
            },
        },
        Err(BadCore),
    ),
];

// Calls that are for a notification, of which each task has two.
const NOTED: &[(Call, Answer)] = &[
    (
        Call::Notify(Note {
            task: 2,
            action: NotifyAction::Increment,
            index: 1,
        }),
        Ok(()),
    ),
    (
        Call::Notify(Note {
            task: 2,
            action: NotifyAction::Increment,
            index: 2,
        }),
        Err(BadArgument),
    ),
    (
        Call::Notify(Note {
            task: 4,
            action: NotifyAction::Increment,
            index: LAST,
        }),
        Err(BadArgument),
    ),
    (
        Call::Notify(Note {
            task: 5,
            action: NotifyAction::Increment,
            index: 2,
        }),
        Err(BadTask),
    ),
    (Call::StateClear { task: 2, index: 1 }, Ok(())),
    (Call::StateClear { task: 2, index: 2 }, Err(BadArgument)),
    (
        Call::StateClear {
            task: 4,
            index: LAST,
        },
        Err(BadArgument),
    ),
    (Call::StateClear { task: 5, index: 2 }, Err(BadTask)),
    (
        Call::ValueClear {
            task: 2,
            bits: 0,
            index: 1,
        },
        Ok(()),
    ),
    (
        Call::ValueClear {
            task: 2,
            bits: 0,
            index: 2,
        },
        Err(BadArgument),
    ),
    (
        Call::ValueClear {
            task: 4,
            bits: 0,
            index: LAST,
        },
        Err(BadArgument),
    ),
    (
        Call::ValueClear {
            task: 5,
            bits: 0,
            index: 2,
        },
        Err(BadTask),
    ),
    (
        Call::NotifyWait {
            entry: LAST,
            exit: 0,
            ticks: LAST,
            index: 1,
        },
        Ok(()),
    ),
    (
        Call::NotifyWait {
            entry: LAST,
            exit: 0,
            ticks: LAST,
            index: 2,
        },
        Err(BadArgument),
    ),
    (
        Call::NotifyTake {
            clear: true,
            ticks: 0,
            index: 1,
        },
        Ok(()),
    ),
    (
        Call::NotifyTake {
            clear: true,
            ticks: 0,
            index: 2,
        },
        Err(BadArgument),
    ),
];

// Notifications by interrupts, under the same header.
const INTERRUPTS: &[(Note, Answer)] = &[
    (
        Note {
            task: 2,
            action: NotifyAction::Increment,
            index: 1,
        },
        Ok(()),
    ),
    (
        Note {
            task: 2,
            action: NotifyAction::Increment,
            index: 2,
        },
        Err(BadArgument),
    ),
    (
        Note {
            task: 5,
            action: NotifyAction::Increment,
            index: 2,
        },
        Err(BadTask),
    ),
];

const TWO_NOTES: Config = Config { notes: 2, ..PLAIN };

const TWO_MUTEXES: Config = Config {
    mutexes: 2,
    ..PLAIN
};

fn check_step(rt: &impl Abort, header: &Header, step: Step, want: Answer) {
    check_answer(rt, &step, step.check(header), want);
}

// The call by the first task on core 0 answers by itself as its step does.
fn check_call(rt: &impl Abort, alloc: Global, row: &CallRow) -> Result<(), Fail> {
    let (tasks, core, task, call, want) = *row;
    let header = crowd(alloc, TWO_MUTEXES, tasks)?;
    check_step(rt, &header, Step::Call { core, task, call }, want);
    if core == 0 && task == 2 {
        check_answer(rt, &call, call.check(&header), want);
    }
    Ok(())
}

#[test]
fn calls(rt: HostRuntime) -> Result<(), Fail> {
    for row in CALLS {
        check_call(&rt, rt.alloc(), row)?;
    }
    Ok(())
}

#[test]
fn steps_by_no_task(rt: HostRuntime) -> Result<(), Fail> {
    let header = crowd(rt.alloc(), PLAIN, 3)?;
    for (step, want) in STEPS {
        check_step(&rt, &header, *step, *want);
    }
    Ok(())
}

#[test]
fn calls_for_a_notification(rt: HostRuntime) -> Result<(), Fail> {
    let header = crowd(rt.alloc(), TWO_NOTES, 3)?;
    for (call, want) in NOTED {
        check_answer(&rt, call, call.check(&header), *want);
    }
    Ok(())
}

#[test]
fn interrupts_for_a_notification(rt: HostRuntime) -> Result<(), Fail> {
    let header = crowd(rt.alloc(), TWO_NOTES, 3)?;
    for (note, want) in INTERRUPTS {
        check_step(
            &rt,
            &header,
            Step::Interrupt {
                core: 1,
                note: *note,
            },
            *want,
        );
    }
    Ok(())
}
