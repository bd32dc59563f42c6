//! Mutexes, and the priorities that their holders inherit; and event lists.
//!
//! There are two mutexes, with event lists 0 and 1. Event lists 2 and 3 are those of a queue.
ghost use Rattle.std.specs.Prelude.{◌≡◌, ◌<◌, length, IsTrue};

use crate::expected::{expect_is, expect_same};
use crate::parts::started::{need_priority, need_task, started};
use index_lists::Lists;
use mutex_inherit::Mutexes;
use ready_core::Cores;
use std::alloc::Global;
use std::process::Abort;
use std::test::Fail;

fn has_tasks(cores: &Cores, tasks: u32) -> bool
    ensures { IsTrue result → length cores.now.control.tasks ≡ tasks }
{
    tasks > 0 && (cores.has_task(tasks - 1) && !cores.has_task(tasks))
}

fn has_five_priorities(cores: &Cores) -> bool
    ensures { IsTrue result → cores.now.priorities ≡ 5 }
{
    cores.has_priority(4) && !cores.has_priority(5)
}

// The task waits for the mutex, which another holds. Returns the mark.
fn wait(
    rt: &impl Abort,
    cores: &mut Cores,
    mutexes: &mut Mutexes,
    tasks: u32,
    task: u32,
    mutex: u32,
) -> bool
    requires tasks { mutexes.old.tasks ≡ tasks }
    requires priorities { mutexes.old.priorities ≡ 5 }
    requires mutexes { length mutexes.old.holders ≡ 2 }
    ensures tasks { mutexes.new.tasks ≡ tasks }
    ensures priorities { mutexes.new.priorities ≡ 5 }
    ensures mutexes { length mutexes.new.holders ≡ 2 }
    ensures lists { mutexes.new.lists ≡ mutexes.old.lists }
    ensures values { length mutexes.new.values ≡ length mutexes.old.values }
{
    assert!(rt; has_tasks(cores, tasks));
    assert!(rt; has_five_priorities(cores));
    assert!(rt; task < tasks && mutex < 2);
    let is_held = mutexes.holder(mutex).is_some();
    assert!(rt; is_held);
    let is_free = mutexes.waits_in(task).is_none();
    assert!(rt; is_free);
    mutexes.wait_on(cores, 0, task, mutex)
}

// The task gives the mutex on core 1. Returns the first task that waits for it.
fn give(
    rt: &impl Abort,
    cores: &mut Cores,
    mutexes: &mut Mutexes,
    task: u32,
    mutex: u32,
) -> Option<u32>
    requires tasks { mutexes.old.tasks ≡ 4 }
    requires priorities { mutexes.old.priorities ≡ 5 }
    requires mutexes { length mutexes.old.holders ≡ 2 }
    ensures { mutexes.new.tasks ≡ 4 }
{
    assert!(rt; has_tasks(cores, 4));
    assert!(rt; has_five_priorities(cores));
    assert!(rt; task < 4 && mutex < 2);
    let is_holder = mutexes.holder(mutex) == Some(task);
    assert!(rt; is_holder);
    mutexes.give(cores, 1, task, mutex)
}

// The wait of the task for the mutex has ended in vain, and no other task waits.
fn time_out(rt: &impl Abort, cores: &mut Cores, mutexes: &mut Mutexes, task: u32, mutex: u32)
    requires tasks { mutexes.old.tasks ≡ 4 }
    requires priorities { mutexes.old.priorities ≡ 5 }
    requires mutexes { length mutexes.old.holders ≡ 2 }
{
    assert!(rt; has_tasks(cores, 4));
    assert!(rt; has_five_priorities(cores));
    assert!(rt; task < 4 && mutex < 2);
    let is_held = mutexes.holder(mutex).is_some();
    assert!(rt; is_held);
    mutexes.after_timeout(cores, 0, task, mutex);
}

fn in_use(rt: &impl Abort, cores: &Cores, task: u32) -> u32 {
    need_task(rt, cores, task);
    cores.in_use(task)
}

// Task 2 takes mutex 0, for which task 3 then waits.
fn check_wait(rt: &impl Abort, cores: &mut Cores, mutexes: &mut Mutexes)
    requires tasks { mutexes.old.tasks ≡ 4 }
    requires priorities { mutexes.old.priorities ≡ 5 }
    requires mutexes { length mutexes.old.holders ≡ 2 }
    ensures tasks { mutexes.new.tasks ≡ 4 }
    ensures priorities { mutexes.new.priorities ≡ 5 }
    ensures mutexes { length mutexes.new.holders ≡ 2 }
    ensures lists { mutexes.new.lists ≡ mutexes.old.lists }
    ensures values { length mutexes.new.values ≡ length mutexes.old.values }
{
    expect_same(rt, mutexes.holder(0), None);
    expect_is(rt, mutexes.try_take(2, 0));
    expect_same(rt, mutexes.held(2), 1);
    expect_is(rt, wait(rt, cores, mutexes, 4, 3, 0));
    expect_same(rt, in_use(rt, cores, 2), 3);
}

// Task 2 gives it, and task 3 waits no longer.
fn check_give(rt: &impl Abort, cores: &mut Cores, mutexes: &mut Mutexes, copy: &Mutexes)
    requires tasks { mutexes.old.tasks ≡ 4 }
    requires priorities { mutexes.old.priorities ≡ 5 }
    requires mutexes { length mutexes.old.holders ≡ 2 }
{
    expect_is(rt, copy.same(mutexes));
    expect_same(rt, give(rt, cores, mutexes, 2, 0), Some(3));
    expect_same(rt, in_use(rt, cores, 2), 1);
    expect_is(rt, !copy.same(mutexes));
    assert_eq!(rt; mutexes.waits_in(3), Some(0));

    mutexes.leave(3);
    expect_same(rt, mutexes.waits_in(3), None);
}

fn check_holder(
    rt: &impl Abort,
    alloc: Global,
    cores: &mut Cores,
    mutexes: &mut Mutexes,
) -> Result<(), Fail>
    requires tasks { mutexes.old.tasks ≡ 4 }
    requires priorities { mutexes.old.priorities ≡ 5 }
    requires mutexes { length mutexes.old.holders ≡ 2 }
    requires lists { mutexes.old.lists ≡ 4 }
    requires values { length mutexes.old.values ≡ 0 }
{
    check_wait(rt, cores, mutexes);
    check_copied(rt, alloc, mutexes)?;
    let copy = mutexes.copy(alloc)?;
    check_give(rt, cores, mutexes, &copy);
    Ok(())
}

fn check_copied(rt: &impl Abort, alloc: Global, mutexes: &Mutexes) -> Result<(), Fail>
    requires tasks { mutexes.now.tasks ≡ 4 }
    requires mutexes { length mutexes.now.holders ≡ 2 }
    requires lists { mutexes.now.lists ≡ 4 }
    requires values { length mutexes.now.values ≡ 0 }
{
    let mut others = Mutexes::new(alloc, 4, 5, 2, 4, Vec::new(alloc))?;
    expect_is(rt, !others.same(mutexes));
    others.copy_from(mutexes);
    expect_is(rt, others.same(mutexes));
    Ok(())
}

#[test]
fn holder_inherits(rt: HostRuntime) -> Result<(), Fail> {
    let mut cores = started(&rt, rt.alloc(), false, &[(1, 3), (3, 3)])?;
    let mut mutexes = Mutexes::new(rt.alloc(), 4, 5, 2, 4, Vec::new(rt.alloc()))?;
    check_holder(&rt, rt.alloc(), &mut cores, &mut mutexes)
}

fn set_in_use(rt: &impl Abort, cores: &mut Cores, task: u32, priority: u32) {
    need_task(rt, cores, task);
    need_priority(rt, cores, priority);
    cores.set_in_use(task, priority);
}

// Task 2 holds mutex 0 and has inherited priority 3.
fn check_timeout(rt: &impl Abort, cores: &mut Cores, mutexes: &mut Mutexes)
    requires tasks { mutexes.old.tasks ≡ 4 }
    requires priorities { mutexes.old.priorities ≡ 5 }
    requires mutexes { length mutexes.old.holders ≡ 2 }
{
    expect_is(rt, mutexes.try_take(2, 0));
    expect_same(rt, mutexes.holder(0), Some(2));
    set_in_use(rt, cores, 2, 3);
    time_out(rt, cores, mutexes, 3, 0);
    expect_same(rt, in_use(rt, cores, 2), 1);
}

#[test]
fn holder_is_lowered(rt: HostRuntime) -> Result<(), Fail> {
    let mut cores = started(&rt, rt.alloc(), false, &[(1, 3), (3, 3)])?;
    let mut mutexes = Mutexes::new(rt.alloc(), 4, 5, 2, 4, Vec::new(rt.alloc()))?;
    check_timeout(&rt, &mut cores, &mut mutexes);
    Ok(())
}

// Tasks 3, 2 and 4 wait for mutex 1, in this order, each with its priority in use.
fn queue(rt: &impl Abort, cores: &mut Cores, mutexes: &mut Mutexes)
    requires tasks { mutexes.old.tasks ≡ 5 }
    requires priorities { mutexes.old.priorities ≡ 5 }
    requires mutexes { length mutexes.old.holders ≡ 2 }
    ensures tasks { mutexes.new.tasks ≡ 5 }
    ensures lists { mutexes.new.lists ≡ mutexes.old.lists }
{
    wait(rt, cores, mutexes, 5, 3, 1);
    wait(rt, cores, mutexes, 5, 2, 1);
    wait(rt, cores, mutexes, 5, 4, 1);
}

fn next(lists: &Lists, task: u32) -> Option<u32>
    requires { task < lists.now.items }
{
    lists.next(task)
}

// The waiters of mutex 1 stand by their priorities, and then in the order in which they came.
fn check_queue(rt: &impl Abort, mutexes: &Mutexes)
    requires tasks { mutexes.now.tasks ≡ 5 }
    requires lists { mutexes.now.lists ≡ 4 }
{
    let lists = mutexes.lists();
    expect_same(rt, lists.len(0), 0);
    expect_same(rt, lists.len(1), 3);
    expect_same(rt, lists.first(1), Some(4));
    expect_same(rt, next(lists, 4), Some(3));
    expect_same(rt, next(lists, 3), Some(2));
    expect_same(rt, next(lists, 2), None);
}

#[test]
fn equal_waiters_stand_in_turn(rt: HostRuntime) -> Result<(), Fail> {
    let mut cores = started(&rt, rt.alloc(), false, &[(1, 3), (1, 3), (3, 3)])?;
    let mut mutexes = Mutexes::new(rt.alloc(), 5, 5, 2, 4, Vec::new(rt.alloc()))?;
    expect_is(&rt, mutexes.try_take(0, 1));
    queue(&rt, &mut cores, &mut mutexes);
    check_queue(&rt, &mutexes);
    Ok(())
}

// Tasks 3 and 2 wait for mutex 1 with list values 3 and 2, in this order, which stays as task 3
// gets list value 0. Task 4 waits with list value 1, and so in front of both.
fn queue_by_values(rt: &impl Abort, cores: &mut Cores, mutexes: &mut Mutexes)
    requires tasks { mutexes.old.tasks ≡ 5 }
    requires priorities { mutexes.old.priorities ≡ 5 }
    requires mutexes { length mutexes.old.holders ≡ 2 }
    ensures tasks { mutexes.new.tasks ≡ 5 }
    ensures lists { mutexes.new.lists ≡ mutexes.old.lists }
{
    wait(rt, cores, mutexes, 5, 3, 1);
    wait(rt, cores, mutexes, 5, 2, 1);
    expect_same(rt, mutexes.list_value(3), Some(3));
    mutexes.set_list_value(3, 0);
    expect_same(rt, mutexes.list_value(3), Some(0));
    wait(rt, cores, mutexes, 5, 4, 1);
}

#[test]
fn revalued_waiter_stays_in_its_place(rt: HostRuntime) -> Result<(), Fail> {
    let mut cores = started(&rt, rt.alloc(), false, &[(1, 3), (1, 3), (3, 3)])?;
    let values = vec![in rt.alloc(); 0, 0, 2, 3, 1]?;
    let mut mutexes = Mutexes::new(rt.alloc(), 5, 5, 2, 4, values)?;
    expect_is(&rt, mutexes.try_take(0, 1));
    queue_by_values(&rt, &mut cores, &mut mutexes);
    check_queue(&rt, &mutexes);
    Ok(())
}

// The task begins to wait in the event list, with this priority in use.
fn wait_in(rt: &impl Abort, mutexes: &mut Mutexes, task: u32, list: u32, in_use: u32)
    requires tasks { mutexes.old.tasks ≡ 5 }
    requires priorities { mutexes.old.priorities ≡ 5 }
    requires lists { mutexes.old.lists ≡ 4 }
    ensures tasks { mutexes.new.tasks ≡ 5 }
    ensures priorities { mutexes.new.priorities ≡ 5 }
    ensures lists { mutexes.new.lists ≡ 4 }
{
    assert!(rt; task < 5 && list < 4 && in_use < 5);
    let is_free = mutexes.waits_in(task).is_none();
    assert!(rt; is_free);
    mutexes.wait_in(task, list, in_use);
    expect_same(rt, mutexes.waits_in(task), Some(list));
}

// Tasks 2, 3 and 4 wait to send to the queue, in this order, and task 0 waits to receive from it.
fn queue_in_lists(rt: &impl Abort, mutexes: &mut Mutexes)
    requires tasks { mutexes.old.tasks ≡ 5 }
    requires priorities { mutexes.old.priorities ≡ 5 }
    requires lists { mutexes.old.lists ≡ 4 }
    ensures tasks { mutexes.new.tasks ≡ 5 }
    ensures lists { mutexes.new.lists ≡ 4 }
{
    wait_in(rt, mutexes, 2, 2, 1);
    wait_in(rt, mutexes, 3, 2, 3);
    wait_in(rt, mutexes, 4, 2, 1);
    wait_in(rt, mutexes, 0, 3, 4);
}

// They stand by the priorities, and then in the order in which they came.
fn check_lists(rt: &impl Abort, mutexes: &Mutexes)
    requires tasks { mutexes.now.tasks ≡ 5 }
    requires lists { mutexes.now.lists ≡ 4 }
{
    expect_same(rt, mutexes.first_task(0), None);
    expect_same(rt, mutexes.first_task(2), Some(3));
    expect_same(rt, mutexes.first_task(3), Some(0));
    let lists = mutexes.lists();
    expect_same(rt, lists.len(2), 3);
    expect_same(rt, next(lists, 3), Some(2));
    expect_same(rt, next(lists, 2), Some(4));
    expect_same(rt, next(lists, 4), None);
}

#[test]
fn tasks_wait_at_a_queue(rt: HostRuntime) -> Result<(), Fail> {
    let mut mutexes = Mutexes::new(rt.alloc(), 5, 5, 2, 4, Vec::new(rt.alloc()))?;
    let copy = mutexes.copy(rt.alloc())?;
    queue_in_lists(&rt, &mut mutexes);
    check_lists(&rt, &mutexes);
    expect_is(&rt, !copy.same(&mutexes));
    Ok(())
}

// They stand by their list values, whatever their priorities in use.
#[test]
fn tasks_wait_at_a_queue_by_list_values(rt: HostRuntime) -> Result<(), Fail> {
    let values = vec![in rt.alloc(); 4, 0, 2, 3, 2]?;
    let mut mutexes = Mutexes::new(rt.alloc(), 5, 5, 2, 4, values)?;
    wait_in(&rt, &mut mutexes, 2, 2, 4);
    wait_in(&rt, &mut mutexes, 3, 2, 0);
    wait_in(&rt, &mut mutexes, 4, 2, 4);
    wait_in(&rt, &mut mutexes, 0, 3, 0);
    check_lists(&rt, &mutexes);
    Ok(())
}
