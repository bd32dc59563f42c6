//! Random sessions: 8 cores, 64 tasks, and steps that are chosen by what the kernel shows.
ghost use Rattle.std.specs.Prelude.{◌≡◌, ◌<◌, ◌^◌, IfOk};
ghost use Rattle.bench_types.specs.Step.{settings_of};

use bench_samples::numbered_header;
use bench_types::{
    Call, Config, Direction, Header, Items, Note, NotifyAction, QueueArgs, Reply, Row, Step,
};
use smp_kernel::{Kernel, Meter};
use std::alloc::{AllocError, Global};
use std::process::Abort;
use std::test::Fail;

/// A session of 8 cores that is made at random, and what a kernel made of it.
pub struct Played {
    pub header: Header,
    pub kernel: Kernel,
    pub meter: Meter,
    seed: u32,
    pub steps: Vec<Step>,
    /// Each step's reply, and the current tasks after it.
    pub outcomes: Vec<(Reply, Row)>,
    ghost fits: { kernel.settings ≡ settings_of header },
    ghost cores: { header.config.cores ≡ 8 },
    ghost mutexes: { header.config.mutexes ≡ 4 },
}

impl Drop for Played {
    fn drop(self) {
        let Played {
            header: _,
            kernel: _,
            meter: _,
            seed: _,
            steps: _,
            outcomes: _,
        } = self;
    }
}

/// What steps of a session do beside ticks, switches, yields and delays.
#[derive(Clone, Copy, PartialEq, Eq)]
pub enum Mix {
    Nothing,
    /// Some set something of a task.
    Sets,
    /// Some set something of a task, and some notify a task, wait for that, or clear it. Each task
    /// has so many notifications.
    Notes(u32),
    /// Some set something of a task, and some take or give one of four mutexes.
    Mutexes,
    /// Some set something of a task, and some delay until a tick count, or open or close a hold.
    Holds,
    /// Some set something of a task, and some send to one of four queues or receive from it.
    Queues,
    /// Some set something of a task, some suspend or resume a task, some send, receive, or take or
    /// give a mutex, and some let time go by.
    Suspensions,
}

impl Mix {
    // How many notifications each task has.
    fn notes(self) -> u32 {
        match self {
            Mix::Notes(notes) => notes,
            _ => 1,
        }
    }

    // How many units of time a tick has.
    fn units(self) -> u32 {
        match self {
            Mix::Suspensions => 1000,
            _ => 1,
        }
    }
}

/// A session of so many steps, of which most are not refused.
pub fn random_session(
    rt: &impl Abort,
    host: &HostRuntime,
    count: usize,
    mix: Mix,
) -> Result<Played, Fail> {
    let mut played = Played::new(host, mix)?;
    for _ in 0..count {
        let step = played.some_step(mix);
        played.make(rt, host.alloc(), step)?;
    }
    Ok(played)
}

impl Played {
    fn new(host: &HostRuntime, mix: Mix) -> Result<Self, Fail> {
        let header = large_header(host.alloc(), mix)?;
        let kernel = Kernel::start(host.alloc(), &header)?;
        Ok(Played {
            header,
            kernel,
            meter: Meter::new(host),
            seed: 1,
            steps: Vec::new(host.alloc()),
            outcomes: Vec::new(host.alloc()),
        })
    }

    fn some_step(&mut self, mix: Mix) -> Step {
        let kernel = &self.kernel;
        let step = some_step(kernel, number(&mut self.seed));
        if mix == Mix::Nothing {
            return step;
        }
        let step = with_set(kernel, step, number(&mut self.seed));
        match mix {
            Mix::Nothing | Mix::Sets => step,
            Mix::Notes(notes) => {
                let choice = number(&mut self.seed);
                with_note(step, choice, some_index(&mut self.seed, notes))
            }
            Mix::Mutexes => with_mutex(kernel, step, number(&mut self.seed)),
            Mix::Holds => with_hold(kernel, step, number(&mut self.seed)),
            Mix::Queues => with_queue(step, number(&mut self.seed)),
            Mix::Suspensions => with_suspension(kernel, step, number(&mut self.seed)),
        }
    }

    fn make(&mut self, rt: &impl Abort, alloc: Global, step: Step) -> Result<(), Fail> {
        assert_eq!(rt; step.check(&self.header), Ok(()));
        let reply = self.kernel.step(&mut self.meter, &step);
        self.steps.push(step)?;
        let row = running(alloc, &self.kernel)?;
        self.outcomes.push((reply, row))?;
        Ok(())
    }
}

// A header of 8 cores and 64 tasks with time slicing, and with the notifications and queues that
// the steps need, with the last 96 ticks before the tick count wraps.
fn large_header(alloc: Global, mix: Mix) -> Result<Header, Fail>
    ensures { IfOk result (λ header. (header.config.cores ≡ 8) × (header.config.mutexes ≡ 4)) }
{
    let config = Config {
        cores: 8,
        priorities: 5,
        slicing: true,
        tick: 4_294_967_200,
        mutexes: 4,
        notes: mix.notes(),
        units: mix.units(),
    };
    let mut tasks = [(0, 0); 64];
    for task in 0..64 {
        tasks[task as usize] = some_task(task);
    }
    let mut header = numbered_header(alloc, config, &tasks)?;
    header.queues = some_queues(alloc, mix)?;
    Ok(header)
}

// Four queues, of sessions whose steps send and receive.
fn some_queues(alloc: Global, mix: Mix) -> Result<Option<Items<QueueArgs>>, AllocError> {
    if mix != Mix::Queues && mix != Mix::Suspensions {
        return Ok(None);
    }
    let empty = QueueArgs {
        length: 1,
        messages: 0,
    };
    let full = QueueArgs {
        length: 2,
        messages: 2,
    };
    let queues = Vec::from_slice(alloc, &[empty, full, empty, full])?;
    Ok(Some(Items::new(queues)))
}

// Some priority and mask for each task.
fn some_task(task: u32) -> (u32, u32)
    requires { task < 64 }
{
    (task % 5, 1 << (task % 8) | task * 5 % 256)
}

/// A number of 16 bits, from a seed that moves on.
pub fn number(seed: &mut u32) -> u32
    ensures { result < 2 ^ 16 }
{
    *seed = seed.wrapping_mul(1_664_525).wrapping_add(1_013_904_223);
    *seed >> 16
}

// Some step, chosen by a number of 16 bits: mostly a switch of a core that is due, or a call of its
// current task.
fn some_step(kernel: &Kernel, choice: u32) -> Step
    requires cores { kernel.now.settings.cores ≡ 8 }
    requires choice { choice < 2 ^ 16 }
{
    let core = choice % 8;
    let chooser = choice / 128 % 8;
    let running = kernel.running(core);
    let task = if chooser == 7 || running < 8 {
        8 + choice % 64
    } else {
        running
    };
    let look = kernel.core_look(core);
    let call = match choice / 8 % 16 {
        0 => return Step::Tick,
        15 => return Step::Switch { core },
        _ if look.pend || look.asked => return Step::Switch { core },
        1..=2 => Call::Yield,
        3..=7 => Call::Delay(chooser),
        _ => Call::Finish,
    };
    Step::Call { core, task, call }
}

// The step, or where it is the return of a call that the core's task didn't make, a call in its
// place that sets something of some task, chosen by a number of 16 bits.
fn with_set(kernel: &Kernel, step: Step, choice: u32) -> Step
    requires cores { kernel.now.settings.cores ≡ 8 }
    requires choice { choice < 2 ^ 16 }
{
    let Step::Call {
        core,
        task: caller,
        call: Call::Finish,
    } = step
    else {
        return step;
    };
    if core >= 8 || kernel.look(kernel.running(core)).in_call {
        return step;
    }
    let task = 8 + choice / 4 % 64;
    let call = match choice % 4 {
        0 => Call::PrioritySet {
            task,
            priority: choice / 256 % 6,
        },
        1 => Call::AffinitySet {
            task,
            mask: choice / 256 | 1 << (choice / 1024 % 8) | 256,
        },
        2 => Call::PreemptOff(task),
        _ => Call::PreemptOn(task),
    };
    Step::Call {
        core,
        task: caller,
        call,
    }
}

// The step, or an interrupt in place of a yield and of some switches, and of most calls that set
// something a call that notifies a task, waits for that or clears it, chosen by a number of 16
// bits. Each is for the index.
fn with_note(step: Step, choice: u32, index: u32) -> Step
    requires { choice < 2 ^ 16 }
{
    match step {
        Step::Switch { core } if choice > 60_000 => interrupt(core, choice, index),
        Step::Call { core, call, .. } if is_yield(call) => interrupt(core, choice, index),
        _ => in_place_of(step, choice, some_note_call(choice, index)),
    }
}

// The step, or the call in place of a yield and of most calls that set something.
fn in_place_of(step: Step, choice: u32, call: Call) -> Step {
    match step {
        Step::Call {
            core,
            task,
            call: old,
        } if is_yield(old) || is_set(old) && choice % 16 < 13 => Step::Call { core, task, call },
        _ => step,
    }
}

fn is_yield(call: Call) -> bool {
    matches!(call, Call::Yield)
}

fn is_set(call: Call) -> bool {
    matches!(
        call,
        Call::PrioritySet { .. }
            | Call::AffinitySet { .. }
            | Call::PreemptOff(_)
            | Call::PreemptOn(_)
    )
}

// The step, or in place of a yield and of most calls that set something a call that takes a mutex
// or gives one, chosen by a number of 16 bits.
fn with_mutex(kernel: &Kernel, step: Step, choice: u32) -> Step
    requires mutexes { kernel.now.settings.mutexes ≡ 4 }
    requires choice { choice < 2 ^ 16 }
{
    match step {
        Step::Call { task, .. } => {
            in_place_of(step, choice, some_mutex_call(kernel, task, choice))
        }
        _ => step,
    }
}

// Takes are for 0 ticks, for some, or without end. A task that holds mutexes mostly gives the first
// of them.
fn some_mutex_call(kernel: &Kernel, task: u32, choice: u32) -> Call
    requires mutexes { kernel.now.settings.mutexes ≡ 4 }
    requires choice { choice < 2 ^ 16 }
{
    let mutex = choice / 16 % 4;
    let ticks = match choice / 8192 {
        0 => 4_294_967_295,
        ticks => ticks - 1,
    };
    let held = (0..4).find(|mutex| kernel.holder(*mutex) == Some(task));
    match choice / 64 % 8 {
        0 => Call::MutexGive(mutex),
        1..=4 => Call::MutexTake { mutex, ticks },
        _ => match held {
            Some(mutex) => Call::MutexGive(mutex),
            None => Call::MutexTake { mutex, ticks },
        },
    }
}

// The step, or in place of a yield and of most calls that set something a call that delays until a
// tick count or is for holds, chosen by a number of 16 bits. While a core holds the kernel, most
// steps are its own calls.
fn with_hold(kernel: &Kernel, step: Step, choice: u32) -> Step
    requires cores { kernel.now.settings.cores ≡ 8 }
    requires choice { choice < 2 ^ 16 }
{
    let call = some_hold_call(kernel, choice);
    match kernel.hold() {
        Some((core, _)) if core < 8 && choice % 16 < 12 => {
            let task = kernel.running(core);
            Step::Call { core, task, call }
        }
        _ => in_place_of(step, choice, call),
    }
}

// Wakes lie at most 14 ticks ahead of now, and some before it.
fn some_hold_call(kernel: &Kernel, choice: u32) -> Call
    requires { choice < 2 ^ 16 }
{
    let prev = kernel
        .tick()
        .wrapping_add(choice / 1024 % 8)
        .wrapping_sub(6);
    match choice / 16 % 8 {
        0..=1 => Call::HoldOpen,
        2..=4 => Call::HoldClose,
        _ => Call::DelayUntil {
            prev,
            inc: 1 + choice / 4096,
        },
    }
}

// The step, or an interrupt that sends or receives in place of a yield and of some switches, and a
// call that does in place of most calls that set something, chosen by a number of 16 bits.
fn with_queue(step: Step, choice: u32) -> Step
    requires { choice < 2 ^ 16 }
{
    match step {
        Step::Switch { core } if choice > 60_000 => queue_interrupt(core, choice),
        Step::Call { core, call, .. } if is_yield(call) => queue_interrupt(core, choice),
        _ => in_place_of(step, choice, some_queue_call(choice)),
    }
}

fn queue_interrupt(core: u32, choice: u32) -> Step {
    let direction = if choice / 64 % 2 == 0 {
        Direction::Send
    } else {
        Direction::Receive
    };
    Step::QueueInterrupt {
        core,
        queue: choice / 16 % 4,
        direction,
    }
}

// Waits are for 0 ticks, for some, or without end.
fn some_queue_call(choice: u32) -> Call
    requires { choice < 2 ^ 16 }
{
    let queue = choice / 16 % 4;
    let ticks = match choice / 8192 {
        0 => 4_294_967_295,
        ticks => ticks - 1,
    };
    if choice / 64 % 2 == 0 {
        Call::QueueSend { queue, ticks }
    } else {
        Call::QueueReceive { queue, ticks }
    }
}

// The step, or an interrupt that resumes a task or time that goes by in place of a yield and of
// some switches, and in place of most calls that set something a call that suspends or resumes a
// task, or one that may wait.
fn with_suspension(kernel: &Kernel, step: Step, choice: u32) -> Step
    requires mutexes { kernel.now.settings.mutexes ≡ 4 }
    requires choice { choice < 2 ^ 16 }
{
    match step {
        Step::Switch { core } if choice > 60_000 => resume_or_pass(kernel, core, choice),
        Step::Call { core, call, .. } if is_yield(call) => resume_or_pass(kernel, core, choice),
        Step::Call { task, .. } => {
            in_place_of(step, choice, some_suspension(kernel, task, choice))
        }
        _ => step,
    }
}

fn resume_or_pass(kernel: &Kernel, core: u32, choice: u32) -> Step
    requires { choice < 2 ^ 16 }
{
    if choice / 16 % 4 == 0 {
        return Step::Pass {
            units: 1 + choice / 64,
        };
    }
    Step::ResumeInterrupt {
        core,
        task: some_suspended(kernel, choice / 64 % 64),
    }
}

// A task suspends itself, or another one, or one that has an unfinished call.
fn some_suspension(kernel: &Kernel, task: u32, choice: u32) -> Call
    requires mutexes { kernel.now.settings.mutexes ≡ 4 }
    requires choice { choice < 2 ^ 16 }
{
    let user = choice / 16 % 64;
    match choice % 8 {
        0 => Call::Suspend(task),
        1 => Call::Suspend(8 + user),
        2 => Call::Suspend(some_in_call(kernel, user)),
        3 => Call::Resume(some_suspended(kernel, user)),
        4..=5 => some_mutex_call(kernel, task, choice),
        _ => some_queue_call(choice),
    }
}

// The first task with an unfinished call of those from a user task on; that task where there is
// none.
fn some_in_call(kernel: &Kernel, user: u32) -> u32
    requires { user < 64 }
{
    let from = 8 + user;
    (from..72)
        .find(|task| is_in_call(kernel, *task))
        .unwrap_or(from)
}

fn is_in_call(kernel: &Kernel, task: u32) -> bool {
    task < kernel.settings().tasks && kernel.look(task).in_call
}

// The first suspended task of those from a user task on; that task where there is none.
fn some_suspended(kernel: &Kernel, user: u32) -> u32
    requires { user < 64 }
{
    let from = 8 + user;
    (from..72)
        .find(|task| is_suspended(kernel, *task))
        .unwrap_or(from)
}

fn is_suspended(kernel: &Kernel, task: u32) -> bool {
    task < kernel.settings().tasks && kernel.suspended(task)
}

fn interrupt(core: u32, choice: u32, index: u32) -> Step
    requires { choice < 2 ^ 16 }
{
    let note = some_note(choice, index);
    Step::Interrupt { core, note }
}

// Some index below the number of notifications, chosen by a number of 16 bits where there are some.
fn some_index(seed: &mut u32, notes: u32) -> u32 {
    if notes > 1 { number(seed) % notes } else { 0 }
}

// A notification of some task. Some of the values wrap at the next increment.
fn some_note(choice: u32, index: u32) -> Note
    requires { choice < 2 ^ 16 }
{
    let number = choice / 1024 % 8;
    let action = match choice / 64 % 16 {
        0..=2 => NotifyAction::Nothing,
        3..=5 => NotifyAction::SetBits(number),
        6..=9 => NotifyAction::Increment,
        10 => NotifyAction::Set(4_294_967_295),
        11..=12 => NotifyAction::Set(number),
        _ => NotifyAction::SetNew(number),
    };
    Note {
        task: 8 + choice % 64,
        action,
        index,
    }
}

// Waits are for 0 ticks, for some, or without end.
fn some_note_call(choice: u32, index: u32) -> Call
    requires { choice < 2 ^ 16 }
{
    let task = 8 + choice / 16 % 64;
    let bits = choice / 1024 % 8;
    let ticks = match choice / 8192 {
        0 => 4_294_967_295,
        ticks => ticks - 1,
    };
    match choice % 16 {
        0..=2 => Call::Notify(some_note(choice / 16, index)),
        3..=5 => Call::NotifyWait {
            entry: bits,
            exit: 7 - bits,
            ticks,
            index,
        },
        6..=8 => Call::NotifyTake {
            clear: bits < 2,
            ticks,
            index,
        },
        9..=10 => Call::StateClear { task, index },
        _ => Call::ValueClear { task, bits, index },
    }
}

fn running(alloc: Global, kernel: &Kernel) -> Result<Row, AllocError>
    requires { kernel.now.settings.cores ≡ 8 }
{
    let mut tasks = [0; 8];
    for core in 0..8 {
        tasks[core as usize] = kernel.running(core);
    }
    Vec::from_slice(alloc, &tasks)
}
