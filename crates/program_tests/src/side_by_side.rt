//! Trials of edits of worked sessions. A program that was written apart from this one computed the
//! numbers, over a flat table.
ghost use Rattle.session_store.specs.Sums.{AreSumsOf};

use bench_samples::three_tasks;
use bench_types::{Call, Edit, EditFault, Fault, Header, Step};
use session_store::{Outcome, Store, StoreFault, Sums};
use smp_kernel::Meter;
use std::alloc::{AllocError, Global};
use std::process::Abort;
use std::test::Fail;
use std::thread::Threads;
use tallies::Tallies;
use what_if::try_all;

const TICK: Step = Step::Tick;

const SWITCH_0: Step = Step::Switch { core: 0 };

const SWITCH_1: Step = Step::Switch { core: 1 };

/// A waits two ticks on core 0.
const A_DELAYS: Step = Step::Call {
    core: 0,
    task: 2,
    call: Call::Delay(2),
};

/// A yields on core 0.
const A_YIELDS: Step = Step::Call {
    core: 0,
    task: 2,
    call: Call::Yield,
};

/// A leaves its core for two ticks, and comes back.
const AWAY: [Step; 8] = [
    A_DELAYS, SWITCH_0, TICK, SWITCH_0, SWITCH_1, TICK, SWITCH_0, SWITCH_1,
];

/// What the trial of an edit gives.
type Trial = Result<(Outcome, Tallies), StoreFault>;

/// The outcome of a trial, or why it was refused.
type Answer = Result<Outcome, StoreFault>;

/// A store of the steps of A, B and C, with time slices, and a checkpoint every so many steps.
fn opened(rt: &HostRuntime, steps: &[Step], span: u32) -> Result<Store, Fail> {
    opened_under(rt, three_tasks(rt.alloc(), true)?, steps, span)
}

fn opened_under(
    rt: &HostRuntime,
    header: Header,
    steps: &[Step],
    span: u32,
) -> Result<Store, Fail> {
    let steps = Vec::from_slice(rt.alloc(), steps)?;
    opened_of(rt, header, steps, span)
}

fn opened_of(rt: &HostRuntime, header: Header, steps: Vec<Step>, span: u32) -> Result<Store, Fail> {
    Ok(Store::open(rt.alloc(), header, steps, span, &mut Meter::new(rt))?)
}

fn answer_of(trial: &Trial) -> Answer {
    match trial {
        Ok((outcome, _)) => Ok(*outcome),
        Err(why) => Err(*why),
    }
}

fn between(from: u32, met: u32) -> Answer {
    Ok(Outcome {
        from,
        met,
        replayed: met.saturating_sub(from),
    })
}

fn refused(why: EditFault) -> Answer {
    Err(StoreFault::Edit(why))
}

/// The trial of the edit at this index is answered so. An `assert_eq!` is dear to prove where it
/// stands, and a call of this is not.
fn assert_answer(rt: &impl Abort, at: usize, trial: &Trial, wanted: Answer) {
    assert_eq!(rt; answer_of(trial), wanted, "at {at}");
}

fn assert_count(rt: &impl Abort, trials: &[Trial], wanted: usize) {
    assert_eq!(rt; trials.len(), wanted);
}

/// The trials are answered so, in this order, and there are no more.
fn assert_answers(rt: &impl Abort, trials: &[Trial], wanted: &[Answer]) {
    assert_count(rt, trials, wanted.len());
    for ((at, trial), wanted) in trials.iter().enumerate().zip(wanted) {
        assert_answer(rt, at, trial, *wanted);
    }
}

/// The edits of the session in which A is away are answered so, with a checkpoint every 64 steps.
fn check_away<R: Threads + Abort + Sync>(
    rt: &R,
    host: &HostRuntime,
    edits: &[Edit],
    wanted: &[Answer],
) -> Result<(), Fail> {
    check_answers(rt, host, &opened(host, &AWAY, 64)?, edits, wanted)
}

fn check_answers<R: Threads + Abort + Sync>(
    rt: &R,
    host: &HostRuntime,
    store: &Store,
    edits: &[Edit],
    wanted: &[Answer],
) -> Result<(), Fail> {
    assert_answers(rt, &try_all(rt, host, host.alloc(), store, edits)?, wanted);
    Ok(())
}

/// The lines of the tasks after the first edit.
const YIELDED: &str = "\
task IDLE0 run 0 0 wait 2 inverted 0 in 0 displaced 0 timeouts 0 top 0
task IDLE1 run 0 0 wait 2 inverted 0 in 0 displaced 0 timeouts 0 top 0
task A run 2 0 wait 0 inverted 0 in 0 displaced 0 timeouts 0 top 2
task B run 0 1 wait 1 inverted 0 in 1 displaced 0 timeouts 0 top 1
task C run 0 1 wait 1 inverted 0 in 1 displaced 0 timeouts 0 top 1
";

fn assert_text(rt: &impl Abort, text: &str, wanted: &str) {
    assert_eq!(rt; text, wanted);
}

/// The first trial leads to these lines.
fn check_lines(
    rt: &impl Abort,
    host: &HostRuntime,
    store: &Store,
    trials: &[Trial],
) -> Result<(), AllocError> {
    let Some(Ok((_, tallies))) = trials.first() else {
        panic!(rt; "no first trial");
    };
    assert_text(rt, &lines_of(host, store, tallies)?, YIELDED);
    Ok(())
}

fn lines_of(host: &HostRuntime, store: &Store, tallies: &Tallies) -> Result<String, AllocError> {
    tallies.text(host.alloc(), store.header())
}

/// The session still has its 8 steps, and A and C run at its end.
fn assert_away(rt: &impl Abort, store: &Store) {
    assert_eq!(rt; store.len(), 8);
    assert_eq!(rt;
        (store.running(8, 0), store.running(8, 1)),
        (Some(2), Some(4))
    );
}

/// A yields in place of its delay, and a tick is put where there is no place. Neither is kept.
#[test]
fn each_edit_is_tried_alone(rt: HostRuntime) -> Result<(), Fail> {
    check_alone(&rt, &rt, &opened(&rt, &AWAY, 64)?)
}

fn check_alone<R: Threads + Abort + Sync>(
    rt: &R,
    host: &HostRuntime,
    store: &Store,
) -> Result<(), Fail> {
    let edits = [
        Edit::Replace {
            at: 0,
            step: A_YIELDS,
        },
        Edit::Insert { at: 9, step: TICK },
    ];
    let trials = try_all(rt, host, host.alloc(), store, &edits)?;
    check_alone_trials(rt, host, store, &trials)?;
    Ok(())
}

fn check_alone_trials(
    rt: &impl Abort,
    host: &HostRuntime,
    store: &Store,
    trials: &[Trial],
) -> Result<(), AllocError> {
    assert_answers(rt, trials, &[between(0, 8), refused(EditFault::NoPlace)]);
    assert_away(rt, store);
    check_lines(rt, host, store, trials)
}

#[test]
fn no_edits_are_tried(rt: HostRuntime) -> Result<(), Fail> {
    check_away(&rt, &rt, &[], &[])
}

/// An edit that is to be taken away again, one at a place that only an edit before it would make,
/// and one of a core that is not there.
#[test]
fn no_edit_builds_upon_another(rt: HostRuntime) -> Result<(), Fail> {
    let no_core = Step::Switch { core: 2 };
    let edits = [
        Edit::Insert { at: 8, step: TICK },
        Edit::Remove { at: 8 },
        Edit::Insert { at: 9, step: TICK },
        Edit::Insert {
            at: 0,
            step: no_core,
        },
        Edit::Remove { at: 7 },
    ];
    let fault = EditFault::Bench(Fault::BadCore);
    let wanted = [
        between(0, 9),
        refused(EditFault::NoPlace),
        refused(EditFault::NoPlace),
        refused(fault),
        between(0, 7),
    ];
    check_away(&rt, &rt, &edits, &wanted)
}

/// A tick after each place of a session of 200 ticks, with a checkpoint every 4 steps: more edits
/// than there are threads. Each outcome stands at the index of its edit. What follows its segment
/// is the same but for the tick count, so no more is replayed.
#[test]
fn many_edits_in_their_order(rt: HostRuntime) -> Result<(), Fail> {
    check_many(&rt, &rt, &opened(&rt, &[TICK; 200], 4)?)
}

fn check_many<R: Threads + Abort + Sync>(
    rt: &R,
    host: &HostRuntime,
    store: &Store,
) -> Result<(), Fail> {
    check_each(rt, host, store, &one_tick_more(host.alloc())?)
}

/// A tick at each of the places up to 200.
fn one_tick_more(alloc: Global) -> Result<Vec<Edit>, AllocError> {
    let mut edits = Vec::new(alloc);
    for at in 0..=200 {
        edits.push(Edit::Insert { at, step: TICK })?;
    }
    Ok(edits)
}

fn check_each<R: Threads + Abort + Sync>(
    rt: &R,
    host: &HostRuntime,
    store: &Store,
    edits: &[Edit],
) -> Result<(), Fail> {
    assert_each(rt, &try_all(rt, host, host.alloc(), store, edits)?);
    Ok(())
}

fn assert_each(rt: &impl Abort, trials: &[Trial]) {
    assert_eq!(rt; trials.len(), 201);
    for (at, trial) in trials.iter().enumerate() {
        // The last segment begins at 196, and an edit after the last step stands in it.
        let from = (at as u32 / 4 * 4).min(196);
        assert_answer(rt, at, trial, between(from, from + 5));
    }
}

/// Trials with sums of a session of 200 ticks in 50 segments, which is more than three times as
/// many as lie between two sums: each tells what a trial without them tells. With a tick more the
/// session never goes on as it did; with a tick in place of one it does from the next checkpoint.
#[test]
fn sums_change_no_trial(rt: HostRuntime) -> Result<(), Fail> {
    check_sums(&rt, &rt, &opened(&rt, &[TICK; 200], 4)?)
}

fn check_sums(rt: &impl Abort, host: &HostRuntime, store: &Store) -> Result<(), Fail> {
    check_places(rt, host, store, &store.sums(host.alloc())?)
}

fn check_places(rt: &impl Abort, host: &HostRuntime, store: &Store, sums: &Sums) -> Result<(), Fail>
    requires { AreSumsOf store.now sums.now }
{
    for at in [0, 63, 64, 68, 123, 129, 199] {
        check_printed(rt, host, store, sums, Edit::Insert { at, step: TICK })?;
        check_printed(rt, host, store, sums, Edit::Replace { at, step: TICK })?;
    }
    Ok(())
}

/// A trial of the edit tells the same with the sums and without.
fn check_printed(
    rt: &impl Abort,
    host: &HostRuntime,
    store: &Store,
    sums: &Sums,
    edit: Edit,
) -> Result<(), Fail>
    requires { AreSumsOf store.now sums.now }
{
    let printed = printed(host, store, edit)?;
    assert_printed(rt, edit, &printed_with(host, store, sums, edit)?, &printed);
    Ok(())
}

/// What a trial tells: its outcome, and the lines of the tasks.
type Printed = (Outcome, String);

fn printed(host: &HostRuntime, store: &Store, edit: Edit) -> Result<Printed, Fail> {
    printed_by(
        host,
        store,
        store.trial(host.alloc(), edit, &mut Meter::new(host))?,
    )
}

fn printed_with(host: &HostRuntime, store: &Store, sums: &Sums, edit: Edit) -> Result<Printed, Fail>
    requires { AreSumsOf store.now sums.now }
{
    printed_by(
        host,
        store,
        store.trial_with(host.alloc(), Some(sums), edit, &mut Meter::new(host))?,
    )
}

fn printed_by(
    host: &HostRuntime,
    store: &Store,
    trial: (Outcome, Tallies),
) -> Result<Printed, Fail> {
    let (outcome, tallies) = trial;
    Ok((outcome, lines_of(host, store, &tallies)?))
}

fn assert_printed(rt: &impl Abort, edit: Edit, given: &Printed, wanted: &Printed) {
    assert_eq!(rt; given, wanted, "{edit:?}");
}

/// Ends as one of these; which of them, `rt try --test --fail-alloc N` decides.
#[test]
fn memory_that_is_refused(rt: HostRuntime) -> Result<(), Fail> {
    check_refused_memory(&rt, &rt, &opened(&rt, &AWAY, 2)?);
    Ok(())
}

fn check_refused_memory<R: Threads + Abort + Sync>(rt: &R, host: &HostRuntime, store: &Store) {
    let edits = [
        Edit::Remove { at: 3 },
        Edit::Remove { at: 8 },
        Edit::ChangeTask {
            task: 3,
            priority: 1,
            mask: 3,
        },
    ];
    if let Ok(trials) = try_all(rt, host, host.alloc(), store, &edits) {
        assert_refusals(rt, &trials);
    }
    assert_eq!(rt; store.len(), 8);
}

fn assert_refusals(rt: &impl Abort, trials: &[Trial]) {
    let wanted = [between(2, 5), refused(EditFault::NoPlace), between(0, 0)];
    assert_count(rt, trials, 3);
    for (trial, wanted) in trials.iter().zip(wanted.iter()) {
        let answer = answer_of(trial);
        assert!(rt; answer == *wanted || answer == Err(StoreFault::NoMemory));
    }
}
