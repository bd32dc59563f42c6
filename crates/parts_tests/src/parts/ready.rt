//! Cores and ready lists.
ghost use Rattle.std.specs.Prelude.{◌≡◌};

use crate::expected::{expect_is, expect_same};
use crate::parts::started::{need_core, need_priority, need_task, select, started};
use Move::{
    Ask, AskItsCore, Base, HasMask, InUse, IsUnready, List, Looks, MakeReady, Mask, Preempt,
    Priorities, Select, Unready, YieldFor,
};
use ready_core::Cores;
use std::alloc::Global;
use std::process::Abort;
use std::test::Fail;

/// A core's task, and whether it asked itself or was asked.
type Look = (u32, bool, bool);

/// What is done to cores, or looked for. Unless it names another, the acting core is 0.
#[derive(Clone, Copy)]
enum Move {
    Unready(u32),
    IsUnready(u32),
    MakeReady(u32),
    InUse(u32, u32),
    Base(u32, u32),
    Mask(u32, u32),
    Preempt(u32, bool),
    /// A core asks another.
    Ask(u32, u32),
    /// A core asks that of a task.
    AskItsCore(u32, u32),
    /// Core 1 seeks the task one of these cores.
    YieldFor(u32, u32),
    Select(u32),
    /// Cores 0 and 1 look so.
    Looks(Look, Look),
    /// The ready list of the priority has these tasks.
    List(u32, &'static [u32]),
    HasMask(u32, u32),
    /// The task has this base priority and this one in use.
    Priorities(u32, u32, u32),
}

fn unready(rt: &impl Abort, cores: &mut Cores, task: u32) {
    need_task(rt, cores, task);
    cores.unready(task);
}

fn expect_unready(rt: &impl Abort, cores: &Cores, task: u32) {
    need_task(rt, cores, task);
    assert!(rt; !cores.ready(task));
}

fn make_ready(rt: &impl Abort, cores: &mut Cores, task: u32) {
    need_task(rt, cores, task);
    cores.make_ready(0, task);
}

fn set_in_use(rt: &impl Abort, cores: &mut Cores, task: u32, priority: u32) {
    need_task(rt, cores, task);
    need_priority(rt, cores, priority);
    cores.set_in_use(task, priority);
}

fn set_base(rt: &impl Abort, cores: &mut Cores, task: u32, priority: u32) {
    need_task(rt, cores, task);
    need_priority(rt, cores, priority);
    cores.set_base(task, priority);
}

fn set_mask(rt: &impl Abort, cores: &mut Cores, task: u32, mask: u32) {
    need_task(rt, cores, task);
    cores.set_mask(task, mask);
}

fn set_preempt(rt: &impl Abort, cores: &mut Cores, task: u32, on: bool) {
    need_task(rt, cores, task);
    cores.set_preempt(task, on);
}

fn ask(rt: &impl Abort, cores: &mut Cores, acting: u32, core: u32) {
    need_core(rt, cores, core);
    cores.ask(acting, core);
}

fn ask_its_core(rt: &impl Abort, cores: &mut Cores, acting: u32, task: u32) {
    need_task(rt, cores, task);
    cores.ask_its_core(acting, task);
}

fn yield_for(rt: &impl Abort, cores: &mut Cores, task: u32, among: u32) {
    need_task(rt, cores, task);
    assert!(rt; cores.ready(task));
    cores.yield_for(1, task, among);
}

fn look(rt: &impl Abort, cores: &Cores, core: u32) -> Look {
    need_core(rt, cores, core);
    let look = cores.flags(core);
    (cores.running(core), look.pend, look.asked)
}

fn expect(rt: &impl Abort, cores: &Cores, one: Look, other: Look) {
    expect_same(rt, look(rt, cores, 0), one);
    expect_same(rt, look(rt, cores, 1), other);
}

fn expect_list(rt: &impl Abort, cores: &Cores, priority: u32, tasks: &[u32]) {
    need_priority(rt, cores, priority);
    let lists = cores.lists();
    expect_same(rt, lists.len(priority) as usize, tasks.len());
    let mut next = lists.first(priority);
    for task in tasks {
        expect_same(rt, next, Some(*task));
        need_task(rt, cores, *task);
        next = lists.next(*task);
    }
}

/// The same, by the walk along the ready list.
fn expect_walk(rt: &impl Abort, cores: &Cores, priority: u32, tasks: &[u32]) {
    need_priority(rt, cores, priority);
    let mut next = cores.first_ready(priority);
    for task in tasks {
        expect_same(rt, next, Some(*task));
        need_task(rt, cores, *task);
        assert!(rt; cores.ready(*task));
        next = cores.next_ready(*task);
    }
    expect_same(rt, next, None);
}

pub(crate) fn expect_mask(rt: &impl Abort, cores: &Cores, task: u32, mask: u32) {
    need_task(rt, cores, task);
    expect_same(rt, cores.mask(task), mask);
}

pub(crate) fn expect_priorities(rt: &impl Abort, cores: &Cores, task: u32, base: u32, in_use: u32) {
    need_task(rt, cores, task);
    expect_same(rt, (cores.base(task), cores.in_use(task)), (base, in_use));
}

fn make(rt: &impl Abort, cores: &mut Cores, made: Move) {
    match made {
        Unready(task) => unready(rt, cores, task),
        IsUnready(task) => expect_unready(rt, cores, task),
        MakeReady(task) => make_ready(rt, cores, task),
        InUse(task, priority) => set_in_use(rt, cores, task, priority),
        Base(task, priority) => set_base(rt, cores, task, priority),
        Mask(task, mask) => set_mask(rt, cores, task, mask),
        Preempt(task, on) => set_preempt(rt, cores, task, on),
        Ask(acting, core) => ask(rt, cores, acting, core),
        AskItsCore(acting, task) => ask_its_core(rt, cores, acting, task),
        YieldFor(task, among) => yield_for(rt, cores, task, among),
        Select(core) => select(rt, cores, core),
        Looks(one, other) => expect(rt, cores, one, other),
        List(priority, tasks) => expect_list(rt, cores, priority, tasks),
        HasMask(task, mask) => expect_mask(rt, cores, task, mask),
        Priorities(task, base, in_use) => expect_priorities(rt, cores, task, base, in_use),
    }
}

fn play(rt: &impl Abort, cores: &mut Cores, moves: &[Move]) {
    for made in moves {
        make(rt, cores, *made);
    }
}

/// Plays the moves from the start of a session with these priorities and masks.
fn play_from(
    rt: &impl Abort,
    alloc: Global,
    args: &[(u32, u32)],
    moves: &[Move],
) -> Result<(), Fail> {
    let mut cores = started(rt, alloc, false, args)?;
    play(rt, &mut cores, moves);
    Ok(())
}

fn check_sizes(rt: &impl Abort, cores: &Cores) {
    expect_same(rt, (cores.has_core(1), cores.has_core(2)), (true, false));
    expect_same(
        rt,
        (cores.has_priority(4), cores.has_priority(5)),
        (true, false),
    );
    expect_same(rt, (cores.has_task(4), cores.has_task(5)), (true, false));
}

// What is told of a task that is ready, and may be preempted.
fn check_task(rt: &impl Abort, cores: &Cores, task: u32) {
    need_task(rt, cores, task);
    expect_is(rt, cores.preempt(task));
    expect_is(rt, cores.ready(task));
}

// The task of the first number runs on core 0, and stands above the others, of which the last
// runs nowhere.
fn check_order(rt: &impl Abort, cores: &Cores, first: u32, second: u32, third: u32) {
    need_task(rt, cores, first);
    need_task(rt, cores, second);
    need_task(rt, cores, third);
    expect_is(
        rt,
        cores.stands_below(second, first) && !cores.stands_below(second, third),
    );
    expect_same(rt, cores.its_core(first), Some(0));
    expect_same(rt, cores.its_core(third), None);
}

fn check_cores_of_task(rt: &impl Abort, cores: &Cores) {
    need_core(rt, cores, 1);
    need_task(rt, cores, 4);
    expect_same(
        rt,
        (cores.is_allowed(1, 4), cores.is_allowed(0, 4)),
        (true, false),
    );
    expect_same(
        rt,
        (cores.is_in_mask(4, 1), cores.is_in_mask(4, 0)),
        (true, false),
    );
}

fn check_start(rt: &impl Abort, cores: &Cores) {
    expect(rt, cores, (2, false, false), (3, false, false));
    check_sizes(rt, cores);
    expect_priorities(rt, cores, 4, 1, 1);
    expect_mask(rt, cores, 4, 2);
    check_task(rt, cores, 4);
    check_order(rt, cores, 2, 3, 4);
    check_cores_of_task(rt, cores);
}

#[test]
fn start(rt: HostRuntime) -> Result<(), Fail> {
    let cores = started(&rt, rt.alloc(), false, &[(2, 3), (1, 3), (1, 0xFFFF_FFFE)])?;
    check_start(&rt, &cores);
    Ok(())
}

fn check_current(rt: &impl Abort, cores: &Cores) {
    assert!(rt; cores.has_task(4) && !cores.has_task(5));
    expect_is(
        rt,
        cores.is_current(2) && cores.is_current(3) && !cores.is_current(4),
    );
    expect_same(rt, (cores.is_current(0), cores.ready(3)), (false, false));
}

#[test]
fn current_tasks(rt: HostRuntime) -> Result<(), Fail> {
    let mut cores = started(&rt, rt.alloc(), false, &[(2, 3), (1, 3), (1, 3)])?;
    unready(&rt, &mut cores, 3);
    check_current(&rt, &cores);
    Ok(())
}

#[test]
fn woken_task_is_sought_a_core(rt: HostRuntime) -> Result<(), Fail> {
    let mut cores = started(&rt, rt.alloc(), false, &[(2, 3), (1, 3), (1, 3)])?;
    play(
        &rt,
        &mut cores,
        &[
            Unready(2),
            IsUnready(2),
            Select(0),
            Looks((4, false, false), (3, false, false)),
        ],
    );
    let mut other = cores.copy(rt.alloc())?;
    // Of two cores of one priority that of the greater number is asked.
    play(
        &rt,
        &mut cores,
        &[MakeReady(2), Looks((4, false, false), (3, false, true))],
    );
    // The task there is not to be preempted.
    play(
        &rt,
        &mut other,
        &[
            Preempt(3, false),
            MakeReady(2),
            Looks((4, true, false), (3, false, false)),
        ],
    );
    Ok(())
}

#[test]
fn idle_is_below_priority_0(rt: HostRuntime) -> Result<(), Fail> {
    play_from(
        &rt,
        rt.alloc(),
        &[(0, 3), (1, 3)],
        &[
            Unready(3),
            Select(0),
            Looks((0, false, false), (2, false, false)),
            MakeReady(3),
            Looks((0, true, false), (2, false, false)),
        ],
    )
}

#[test]
fn yields_for_a_task_among_cores(rt: HostRuntime) -> Result<(), Fail> {
    play_from(
        &rt,
        rt.alloc(),
        &[(1, 3), (1, 3), (1, 3)],
        &[
            InUse(4, 3),
            YieldFor(4, 0),
            Looks((2, false, false), (3, false, false)),
            YieldFor(4, 1),
            Looks((2, false, true), (3, false, false)),
        ],
    )
}

#[test]
fn displaced_task_finds_another_core(rt: HostRuntime) -> Result<(), Fail> {
    play_from(
        &rt,
        rt.alloc(),
        &[(3, 1), (2, 1), (1, 3)],
        &[
            Unready(2),
            Select(0),
            Mask(3, 0xFFFF_FFFF),
            HasMask(3, 3),
            MakeReady(2),
            Looks((3, true, false), (4, false, false)),
            Select(0),
            Looks((2, false, false), (4, false, true)),
            Select(1),
            Looks((2, false, false), (3, false, false)),
        ],
    )
}

#[test]
fn asked_cores_are_due(rt: HostRuntime) -> Result<(), Fail> {
    play_from(
        &rt,
        rt.alloc(),
        &[(1, 3), (1, 3), (1, 3)],
        &[
            Ask(1, 0),
            Ask(1, 1),
            Looks((2, false, true), (3, true, false)),
            Select(1),
            Looks((2, false, true), (4, false, false)),
        ],
    )
}

#[test]
fn priority_in_use(rt: HostRuntime) -> Result<(), Fail> {
    play_from(
        &rt,
        rt.alloc(),
        &[(1, 3), (1, 3), (1, 3), (1, 3)],
        &[
            // The priority that it has: the task goes to the end of its list.
            InUse(4, 1),
            Select(0),
            Looks((5, false, false), (3, false, false)),
            Base(4, 3),
            InUse(4, 3),
            Priorities(4, 3, 3),
            Select(0),
            Looks((4, false, false), (3, false, false)),
        ],
    )
}

#[test]
fn core_of_a_running_task_is_asked(rt: HostRuntime) -> Result<(), Fail> {
    play_from(
        &rt,
        rt.alloc(),
        &[(2, 3), (1, 3), (1, 3)],
        &[
            // It runs on none.
            AskItsCore(0, 4),
            Looks((2, false, false), (3, false, false)),
            AskItsCore(0, 3),
            Looks((2, false, false), (3, false, true)),
            // A core that another asked is asked no more.
            AskItsCore(1, 3),
            Looks((2, false, false), (3, false, true)),
            AskItsCore(0, 2),
            Looks((2, true, false), (3, false, true)),
        ],
    )
}

// One time slice ends.
fn check_slice(rt: &impl Abort, alloc: Global, slicing: bool) -> Result<(), Fail> {
    let mut cores = started(rt, alloc, slicing, &[(2, 3), (1, 3), (1, 3)])?;
    cores.slice();
    expect(rt, &cores, (2, false, false), (3, false, slicing));
    Ok(())
}

#[test]
fn time_slices(rt: HostRuntime) -> Result<(), Fail> {
    for slicing in [false, true] {
        check_slice(&rt, rt.alloc(), slicing)?;
    }
    Ok(())
}

#[test]
fn same_lists_in_another_turn(rt: HostRuntime) -> Result<(), Fail> {
    let mut one = started(&rt, rt.alloc(), false, &[(2, 3), (1, 3), (1, 3)])?;
    let mut other = one.copy(rt.alloc())?;
    check_turns(&rt, &mut one, &mut other);
    Ok(())
}

#[test]
fn cores_become_others(rt: HostRuntime) -> Result<(), Fail> {
    let one = started(&rt, rt.alloc(), false, &[(2, 3), (1, 3), (1, 3)])?;
    let mut other = one.copy(rt.alloc())?;
    check_copied(&rt, &one, &mut other);
    Ok(())
}

fn check_copied(rt: &impl Abort, one: &Cores, other: &mut Cores)
    requires { other.old ≡ one.now }
{
    need_task(rt, other, 4);
    other.set_preempt(4, false);
    expect_is(rt, !one.same(other));
    other.copy_from(one);
    expect_is(rt, one.same(other));
}

fn check_turns(rt: &impl Abort, one: &mut Cores, other: &mut Cores) {
    expect_is(rt, one.same(other));
    play(rt, one, &[InUse(3, 1)]);
    expect_is(rt, !one.same(other));
    play(rt, one, &[InUse(2, 2)]);
    play(rt, other, &[InUse(2, 2), InUse(3, 1)]);
    expect_is(rt, one.same(other));
    play(rt, one, &[Preempt(4, false)]);
    expect_is(rt, !one.same(other));
}

#[test]
fn each_priority_has_its_list(rt: HostRuntime) -> Result<(), Fail> {
    play_from(
        &rt,
        rt.alloc(),
        &[(2, 3), (1, 3), (1, 3)],
        &[
            List(0, &[0, 1]),
            List(1, &[3, 4]),
            List(2, &[2]),
            Select(1),
            List(1, &[4, 3]),
            InUse(4, 2),
            Unready(3),
            List(1, &[]),
            List(2, &[2, 4]),
        ],
    )
}

fn check_walks(rt: &impl Abort, cores: &Cores) {
    expect_walk(rt, cores, 0, &[0, 1]);
    expect_walk(rt, cores, 1, &[4]);
    expect_walk(rt, cores, 2, &[2]);
    let waiting = [true, true, false, false, true];
    expect_is(rt, *cores.wants_core() == *waiting.as_slice());
}

#[test]
fn ready_tasks_one_after_another(rt: HostRuntime) -> Result<(), Fail> {
    let mut cores = started(&rt, rt.alloc(), false, &[(2, 3), (1, 3), (1, 3)])?;
    unready(&rt, &mut cores, 3);
    check_walks(&rt, &cores);
    Ok(())
}
