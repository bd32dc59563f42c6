//! Gates of tests.
use core_scripts::Gate;
use std::sync::atomic::{AtomicBool, AtomicU32, Ordering};
use std::thread;

/// How many turns a thread waits for another at the most.
const TURNS: u32 = 1_000_000;

/// A gate that holds nobody up.
#[derive(Drop)]
pub struct Open;

impl Gate for Open {
    fn pass(&self, _core: u32, _done: u32) {}
}

/// A gate that keeps each thread before its first action until as many have come as there are.
#[derive(Drop)]
pub struct Together {
    threads: u32,
    come: AtomicU32,
    late: AtomicBool,
}

impl Together {
    pub fn of(threads: u32) -> Together {
        Together {
            threads,
            come: AtomicU32::new(0),
            late: AtomicBool::new(false),
        }
    }

    /// Whether a thread did not come within so many turns.
    pub fn is_late(&self) -> bool {
        self.late.load(Ordering::SeqCst)
    }

    fn have_all_come(&self) -> bool {
        for _ in 0..TURNS {
            if self.come.load(Ordering::SeqCst) == self.threads {
                return true;
            }
            thread::yield_now();
        }
        false
    }
}

impl Gate for Together {
    fn pass(&self, _core: u32, done: u32) {
        if done > 0 {
            return;
        }
        self.come.fetch_add(1, Ordering::SeqCst);
        if !self.have_all_come() {
            self.late.store(true, Ordering::SeqCst);
        }
    }
}

/// A gate of cores 0 and 1 that keeps what it is told, and holds both of them up: core 0 until core
/// 1 has come, and core 1 until core 0 has come to its third action.
#[derive(Drop)]
pub struct InTurn {
    zero: AtomicU32,
    one: AtomicU32,
    late: AtomicBool,
}

impl InTurn {
    pub fn new() -> InTurn {
        InTurn {
            zero: AtomicU32::new(0),
            one: AtomicU32::new(0),
            late: AtomicBool::new(false),
        }
    }

    /// What it was told of each core: 123 where none, one and two of its actions were done.
    pub fn heard(&self) -> (u32, u32) {
        let zero = self.zero.load(Ordering::SeqCst);
        (zero, self.one.load(Ordering::SeqCst))
    }

    /// Whether a core did not come within so many turns.
    pub fn is_late(&self) -> bool {
        self.late.load(Ordering::SeqCst)
    }

    fn may_pass(&self, core: u32) -> bool {
        let (zero, one) = self.heard();
        if core == 0 { one > 0 } else { zero > 99 }
    }

    fn may_pass_in_time(&self, core: u32) -> bool {
        for _ in 0..TURNS {
            if self.may_pass(core) {
                return true;
            }
            thread::yield_now();
        }
        false
    }
}

fn keep(heard: &AtomicU32, done: u32) {
    let before = heard.load(Ordering::SeqCst);
    let after = before.wrapping_mul(10).wrapping_add(done).wrapping_add(1);
    heard.store(after, Ordering::SeqCst);
}

impl Gate for InTurn {
    fn pass(&self, core: u32, done: u32) {
        match core {
            0 => keep(&self.zero, done),
            1 => keep(&self.one, done),
            _ => return,
        }
        if !self.may_pass_in_time(core) {
            self.late.store(true, Ordering::SeqCst);
        }
    }
}
