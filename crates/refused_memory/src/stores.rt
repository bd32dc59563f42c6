//! Calls of a store.
use crate::call_result::CallResult;
use crate::worked::{STEPS, header, steps};
use bench_types::{Call, Edit, Header, Step};
use session_store::{
    NoResults, OpenFault, OpenRefusal, Outcome as Replayed, Results, Store, StoreFault,
};
use smp_kernel::Meter;
use std::alloc::{AllocError, Global};

/// How many steps lie between two checkpoints.
const SPAN: u32 = 2;

/// A's call that finds nothing to clear.
const A_CLEARS: Step = Step::Call {
    core: 0,
    task: 2,
    call: Call::StateClear { task: 2, index: 0 },
};

/// How each task fared in the session before its edits.
const TALLIES: &str = "\
task IDLE0 run 0 0 wait 4 inverted 0 in 0 displaced 0 timeouts 0 top 0
task IDLE1 run 0 0 wait 4 inverted 0 in 0 displaced 0 timeouts 0 top 0
task A run 4 0 wait 0 inverted 0 in 0 displaced 0 timeouts 0 top 2
task B run 0 4 wait 0 inverted 0 in 0 displaced 0 timeouts 0 top 1
task C run 0 0 wait 4 inverted 0 in 0 displaced 0 timeouts 0 top 1
";

/// The edits of the worked session, with what is replayed for each.
pub(crate) fn edits() -> [(Edit, Replayed); 4] {
    let (at, step) = (0, A_CLEARS);
    [
        (Edit::Replace { at, step }, replay(0, 2)),
        (tick_at(6), replay(4, 7)),
        (tick_at(7), replay(4, 8)),
        (tick_at(8), replay(6, 9)),
    ]
}

/// A tick is put in at the place.
fn tick_at(at: u32) -> Edit {
    Edit::Insert {
        at,
        step: Step::Tick,
    }
}

/// A replay between the two places.
fn replay(from: u32, met: u32) -> Replayed {
    Replayed {
        from,
        met,
        replayed: met.saturating_sub(from),
    }
}

/// A store of the worked session, with the meter of its steps.
#[derive(Drop)]
pub(crate) struct Opened {
    pub(crate) store: Store,
    pub(crate) meter: Meter,
}

fn open_worked(rt: &HostRuntime) -> Option<Opened> {
    let header = header(rt.alloc())?;
    let steps = steps(rt.alloc())?;
    let mut meter = Meter::new(rt);
    let store = Store::open(rt.alloc(), header, steps, SPAN, &mut meter).ok()?;
    Some(Opened { store, meter })
}

/// Two stores of the worked session.
pub(crate) struct Twins {
    pub(crate) one: Opened,
    pub(crate) two: Opened,
}

impl Drop for Twins {
    fn drop(self) {
        let Twins { one: _, two: _ } = self;
    }
}

pub(crate) fn open_twins(rt: &HostRuntime) -> Option<Twins> {
    let one = open_worked(rt)?;
    let two = open_worked(rt)?;
    Some(Twins { one, two })
}

pub(crate) fn open(rt: &HostRuntime) -> Option<CallResult> {
    let header = header(rt.alloc())?;
    Some(open_with(rt, header, steps(rt.alloc())?))
}

fn open_with(rt: &HostRuntime, header: Header, steps: Vec<Step>) -> CallResult {
    let mut meter = Meter::new(rt);
    match Store::<Results>::open(rt.alloc(), header, steps, SPAN, &mut meter) {
        Ok(store) => CallResult::answered(store.len() == 6 && meter.count() == 6),
        Err(fault) => {
            let is_right = meter.count() <= 6 && is_handed_back(&fault);
            CallResult::refused(is_right && opens(rt, fault))
        }
    }
}

/// Whether memory was refused, and the session is given back.
fn is_handed_back(fault: &OpenFault) -> bool {
    fault.why == OpenRefusal::NoMemory
        && fault.at.is_none()
        && fault.header.tasks.as_slice().len() == 3
        && fault.steps.as_slice() == STEPS.as_slice()
}

/// Whether what was given back is opened now.
fn opens(rt: &HostRuntime, fault: OpenFault) -> bool {
    let OpenFault { header, steps, .. } = fault;
    let mut meter = Meter::new(rt);
    match Store::<Results>::open(rt.alloc(), header, steps.into_vec(), SPAN, &mut meter) {
        Ok(store) => store.len() == 6 && meter.count() == 6,
        Err(_) => false,
    }
}

pub(crate) fn apply(rt: &HostRuntime) -> Option<CallResult> {
    let mut twins = open_twins(rt)?;
    apply_all(rt.alloc(), &mut twins.one, &mut twins.two)
}

/// The edits are made in their order, and each also in a second store, which shows what the first
/// one was before the next edit.
fn apply_all(alloc: Global, one: &mut Opened, twin: &mut Opened) -> Option<CallResult> {
    let mut call_result = CallResult::Answered;
    for edit in &edits() {
        call_result = call_result.then(applied(alloc, one, twin, edit).ok()?);
        twin.store.apply(alloc, edit.0, &mut twin.meter).ok()?;
    }
    Some(call_result)
}

fn applied(
    alloc: Global,
    one: &mut Opened,
    twin: &Opened,
    edit: &(Edit, Replayed),
) -> Result<CallResult, AllocError> {
    let (edit, wanted) = *edit;
    let most = one.meter.count().saturating_add(u64::from(wanted.replayed));
    let answer = one.store.apply(alloc, edit, &mut one.meter);
    if answer.is_ok() {
        let is_right = answer == Ok(wanted) && one.meter.count() == most;
        return Ok(CallResult::answered(is_right));
    }
    let is_right = answer == Err(StoreFault::NoMemory) && one.meter.count() <= most;
    let stays = is_same(alloc, &one.store, &twin.store)?;
    let retried = one.store.apply(alloc, edit, &mut one.meter);
    Ok(CallResult::refused(is_right && stays && retried == Ok(wanted)))
}

/// A store of the worked session that keeps nothing of its replay, with the meter of its steps.
#[derive(Drop)]
struct OpenStore {
    store: Store<NoResults>,
    meter: Meter,
}

fn begin_worked(rt: &HostRuntime) -> Option<OpenStore> {
    let header = header(rt.alloc())?;
    let steps = steps(rt.alloc())?;
    let mut meter = Meter::new(rt);
    let store = Store::<NoResults>::open(rt.alloc(), header, steps, SPAN, &mut meter).ok()?;
    Some(OpenStore { store, meter })
}

/// Where memory is refused the store is gone, so another one is opened.
pub(crate) fn with_results(rt: &HostRuntime) -> Option<CallResult> {
    let OpenStore { store, mut meter } = begin_worked(rt)?;
    Some(match store.with_results(rt.alloc(), &mut meter) {
        Ok(store) => CallResult::answered(is_whole(&store) && meter.count() == 12),
        Err(AllocError) => CallResult::refused(meter.count() <= 12 && has_results(rt)),
    })
}

/// Whether another one is traced now.
fn has_results(rt: &HostRuntime) -> bool {
    let Some(OpenStore { store, mut meter }) = begin_worked(rt) else {
        return false;
    };
    match store.with_results(rt.alloc(), &mut meter) {
        Ok(store) => is_whole(&store),
        Err(AllocError) => false,
    }
}

/// Whether it has each reply and row, and no more.
fn is_whole(store: &Store) -> bool {
    store.len() == 6 && store.reply(5).is_some() && store.running(6, 0).is_some()
}

/// Whether both show the same steps, replies, running tasks, checkpoints and tallies.
pub(crate) fn is_same(alloc: Global, one: &Store, two: &Store) -> Result<bool, AllocError> {
    let places = 0..=one.len();
    let same = one.len() == two.len() && places.into_iter().all(|i| is_same_at(one, two, i));
    Ok(same && is_tallied_alike(alloc, one, two)?)
}

fn is_same_at(one: &Store, two: &Store, i: u32) -> bool {
    one.step(i) == two.step(i)
        && one.reply(i) == two.reply(i)
        && one.checkpoint(i) == two.checkpoint(i)
        && one.running(i, 0) == two.running(i, 0)
        && one.running(i, 1) == two.running(i, 1)
}

fn is_tallied_alike(alloc: Global, one: &Store, two: &Store) -> Result<bool, AllocError> {
    let first = tallied(alloc, one)?;
    let second = tallied(alloc, two)?;
    Ok(first == second)
}

fn tallied(alloc: Global, store: &Store) -> Result<String, AllocError> {
    store.tallies(alloc)?.text(alloc, store.header())
}

pub(crate) fn state(rt: &HostRuntime) -> Option<CallResult> {
    let mut opened = open_worked(rt)?;
    Some(match tick_at_5(rt.alloc(), &mut opened) {
        Ok(tick) => CallResult::answered(tick == Some(3) && opened.meter.count() == 7),
        Err(AllocError) => {
            let is_right = opened.meter.count() <= 7;
            let retried = tick_at_5(rt.alloc(), &mut opened);
            CallResult::refused(is_right && retried == Ok(Some(3)))
        }
    })
}

/// The tick count of the state at place 5, one step after a checkpoint.
fn tick_at_5(alloc: Global, opened: &mut Opened) -> Result<Option<u32>, AllocError> {
    let kernel = opened.store.state(alloc, 5, &mut opened.meter)?;
    Ok(kernel.map(|kernel| kernel.tick()))
}

pub(crate) fn row(rt: &HostRuntime) -> Option<CallResult> {
    let opened = open_worked(rt)?;
    Some(match is_row_of_5(rt.alloc(), &opened.store) {
        Ok(is_right) => CallResult::answered(is_right),
        Err(AllocError) => {
            let retried = is_row_of_5(rt.alloc(), &opened.store);
            CallResult::refused(retried == Ok(true))
        }
    })
}

/// Whether the row of place 5 has the tasks that run on its two cores.
fn is_row_of_5(alloc: Global, store: &Store) -> Result<bool, AllocError> {
    let row = store.row(alloc, 5)?;
    let tasks = (store.running(5, 0), store.running(5, 1));
    Ok(match row {
        Some(row) => row.len() == 2 && tasks == (Some(row[0]), Some(row[1])),
        None => false,
    })
}

pub(crate) fn tallies(rt: &HostRuntime) -> Option<CallResult> {
    let opened = open_worked(rt)?;
    Some(match tallied(rt.alloc(), &opened.store) {
        Ok(text) => CallResult::answered(text.as_str() == TALLIES),
        Err(AllocError) => CallResult::refused(is_tallied(rt.alloc(), &opened.store)),
    })
}

fn is_tallied(alloc: Global, store: &Store) -> bool {
    match tallied(alloc, store) {
        Ok(text) => text.as_str() == TALLIES,
        Err(AllocError) => false,
    }
}
