//! Headers, steps, kernels and stores of tests.
ghost use Rattle.std.specs.Prelude.{◌≡◌};
ghost use Rattle.bench_types.specs.Step.{settings_of};

use bench_samples::{PLAIN, header_of};
use bench_types::{Call, Config, Edit, EditFault, Header, Reply, Step};
use session_store::{Outcome, Store, StoreFault};
use smp_kernel::{Kernel, Meter};
use std::alloc::{AllocError, Global};
use std::fmt::Debug;
use std::process::Abort;
use std::test::Fail;

/// A waits 2 ticks on core 0.
pub const A_DELAYS: Step = Step::Call {
    core: 0,
    task: 2,
    call: Call::Delay(2),
};

/// The switch of core 0.
pub const SWITCH_0: Step = Step::Switch { core: 0 };

/// The switch of core 1.
pub const SWITCH_1: Step = Step::Switch { core: 1 };

/// So many cores, and A (of priority 2), B and C (of priority 1), which may run on cores 0 and 1
/// and are numbered after the idle tasks.
pub fn three_tasks(alloc: Global, cores: u32, slicing: bool) -> Result<Header, Fail> {
    let config = Config {
        cores,
        slicing,
        ..PLAIN
    };
    Ok(header_of(alloc, config, &[("A", 2, 3), ("B", 1, 3), ("C", 1, 3)])?)
}

/// What was made is what was wanted. Tests call this, since each `assert_eq!` with a message is
/// dear to prove where it stands.
pub fn assert_same<T: PartialEq + Debug>(rt: &impl Abort, what: &str, made: &T, wanted: &T) {
    assert_eq!(rt; made, wanted, "{what}");
}

/// What was made is what was wanted, at the place or index.
pub fn assert_at<T: PartialEq + Debug>(rt: &impl Abort, what: &str, at: u32, made: &T, wanted: &T) {
    assert_eq!(rt; made, wanted, "{what} {at}");
}

/// What the edit led to is what was wanted.
pub fn assert_edit<T: PartialEq + Debug>(rt: &impl Abort, edit: Edit, made: &T, wanted: &T) {
    assert_eq!(rt; made, wanted, "{edit:?}");
}

/// It is so.
pub fn assert_is(rt: &impl Abort, what: &str, is_so: bool) {
    assert!(rt; is_so, "{what}");
}

/// The text is what was wanted.
pub fn assert_text(rt: &impl Abort, text: &str, wanted: &str) {
    assert_eq!(rt; text, wanted);
}

/// A kernel that was started from a header, with the meter of its steps.
pub struct Started {
    header: Header,
    pub kernel: Kernel,
    pub meter: Meter,
    ghost fits: { kernel.settings ≡ settings_of header },
}

impl Drop for Started {
    fn drop(self) {
        let Started {
            header: _,
            kernel: _,
            meter: _,
        } = self;
    }
}

impl Started {
    /// A kernel at the start of A, B and C on two cores, with time slices.
    pub fn new(rt: &HostRuntime) -> Result<Self, Fail> {
        Started::of(rt, three_tasks(rt.alloc(), 2, true)?)
    }

    /// A kernel at the start of the header.
    pub fn of(rt: &HostRuntime, header: Header) -> Result<Self, Fail> {
        let kernel = Kernel::start(rt.alloc(), &header)?;
        Ok(Started {
            header,
            kernel,
            meter: Meter::new(rt),
        })
    }

    /// Makes a step, which has to be one under the header.
    pub fn step(&mut self, rt: &impl Abort, step: &Step) -> Reply {
        assert_eq!(rt; step.check(&self.header), Ok(()));
        self.kernel.step(&mut self.meter, step)
    }
}

/// A store that was opened, with the meter of its steps.
pub struct Opened {
    pub store: Store,
    pub meter: Meter,
}

impl Drop for Opened {
    fn drop(self) {
        let Opened { store: _, meter: _ } = self;
    }
}

impl Opened {
    /// Of these steps of A, B and C on two cores.
    pub fn new(rt: &HostRuntime, slicing: bool, steps: &[Step]) -> Result<Self, Fail> {
        Opened::by_span(rt, slicing, steps, 64)
    }

    /// Of these steps of A, B and C on two cores, with a checkpoint every so many steps.
    pub fn by_span(
        rt: &HostRuntime,
        slicing: bool,
        steps: &[Step],
        span: u32,
    ) -> Result<Self, Fail> {
        Opened::with(rt, three_tasks(rt.alloc(), 2, slicing)?, steps, span)
    }

    /// Of these steps under the header, with a checkpoint every so many steps.
    pub fn with(rt: &HostRuntime, header: Header, steps: &[Step], span: u32) -> Result<Self, Fail> {
        let steps = Vec::from_slice(rt.alloc(), steps)?;
        Opened::of(rt, header, steps, span)
    }

    /// Of the session, with a checkpoint every so many steps.
    pub fn of(rt: &HostRuntime, header: Header, steps: Vec<Step>, span: u32) -> Result<Self, Fail> {
        let mut meter = Meter::new(rt);
        let store = Store::open(rt.alloc(), header, steps, span, &mut meter)?;
        Ok(Opened { store, meter })
    }
}

/// So many ticks.
pub fn ticks(alloc: Global, count: u32) -> Result<Vec<Step>, AllocError> {
    let mut steps = Vec::with_capacity(alloc, count as usize)?;
    for _step in 0..count {
        steps.push(Step::Tick)?;
    }
    Ok(steps)
}

/// What a replay between the two places led to.
pub fn between(from: u32, met: u32) -> Outcome {
    Outcome {
        from,
        met,
        replayed: met.saturating_sub(from),
    }
}

/// Makes the edit, whose replay is between the two places and is counted on the meter.
pub fn make_edit(rt: &impl Abort, alloc: Global, opened: &mut Opened, edit: &(Edit, u32, u32)) {
    let (edit, from, met) = *edit;
    let wanted = between(from, met);
    let count = opened
        .meter
        .count()
        .saturating_add(u64::from(wanted.replayed));
    let answer = opened.store.apply(alloc, edit, &mut opened.meter);
    assert_edit(rt, edit, &answer, &Ok(wanted));
    assert_edit(rt, edit, &opened.meter.count(), &count);
}

/// Makes the edits in their order.
pub fn make_edits(rt: &impl Abort, alloc: Global, opened: &mut Opened, edits: &[(Edit, u32, u32)]) {
    for edit in edits {
        make_edit(rt, alloc, opened, edit);
    }
}

/// The edit is refused for this, and no step is counted.
pub fn refuse_edit(
    rt: &impl Abort,
    alloc: Global,
    opened: &mut Opened,
    edit: Edit,
    why: EditFault,
) {
    let count = opened.meter.count();
    let answer = opened.store.apply(alloc, edit, &mut opened.meter);
    assert_edit(rt, edit, &answer, &Err(StoreFault::Edit(why)));
    assert_edit(rt, edit, &opened.meter.count(), &count);
}

/// The store has these replies and no more, and these tasks run at the last place.
pub fn assert_replay(rt: &impl Abort, store: &Store, replies: &[Reply], last: [u32; 2]) {
    assert_replies(rt, store, replies);
    assert_row(rt, store, store.len(), last);
}

/// The store has these replies and no more.
pub fn assert_replies(rt: &impl Abort, store: &Store, replies: &[Reply]) {
    assert_same(rt, "replies", &(store.len() as usize), &replies.len());
    for place in 0..=store.len() {
        let reply = replies.get(place as usize).copied();
        assert_at(rt, "reply", place, &store.reply(place), &reply);
    }
}

/// The store has these steps and no more.
pub fn assert_steps(rt: &impl Abort, store: &Store, steps: &[Step]) {
    assert_same(rt, "steps", &(store.len() as usize), &steps.len());
    for place in 0..=store.len() {
        let step = steps.get(place as usize).copied();
        assert_at(rt, "step", place, &store.step(place), &step);
    }
}

/// The tasks of both cores at the place.
pub fn assert_row(rt: &impl Abort, store: &Store, place: u32, tasks: [u32; 2]) {
    let shown = (store.running(place, 0), store.running(place, 1));
    let [first, second] = tasks;
    assert_at(rt, "tasks", place, &shown, &(Some(first), Some(second)));
}

/// The store's tallies, as text.
pub fn tallies_text(alloc: Global, store: &Store) -> Result<String, AllocError> {
    store.tallies(alloc)?.text(alloc, store.header())
}

/// The store's tallies have this text.
pub fn assert_tallies(
    rt: &impl Abort,
    alloc: Global,
    store: &Store,
    wanted: &str,
) -> Result<(), Fail> {
    assert_text(rt, &tallies_text(alloc, store)?, wanted);
    Ok(())
}

/// The tick count at the place, where there is one.
pub fn tick_at(alloc: Global, opened: &mut Opened, place: u32) -> Result<Option<u32>, Fail> {
    match opened.store.state(alloc, place, &mut opened.meter)? {
        Some(kernel) => Ok(Some(kernel.tick())),
        None => Ok(None),
    }
}
