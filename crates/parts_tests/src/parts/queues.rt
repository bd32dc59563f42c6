//! The messages of queues.
ghost use Rattle.std.specs.Prelude.{◌≡◌, ◌<◌, length, IfOk};

use crate::expected::{expect_is, expect_same};
use bench_samples::{PLAIN, numbered_header};
use bench_types::{Direction, Header, Items, MAX_MESSAGES, QueueArgs};
use queue_core::Queues;
use std::alloc::Global;
use std::process::Abort;
use std::test::Fail;

// The two queues at the start of a session, each with its length and its messages.
fn two_queues(alloc: Global, one: (u32, u32), two: (u32, u32)) -> Result<Queues, Fail>
    ensures { IfOk result (λ queues. length queues ≡ 2) }
{
    let Header { config, tasks, .. } = numbered_header(alloc, PLAIN, &[(0, 3)])?;
    let one = QueueArgs {
        length: one.0,
        messages: one.1,
    };
    let two = QueueArgs {
        length: two.0,
        messages: two.1,
    };
    let header = Header {
        config,
        queues: Some(Items::new(vec![in alloc; one, two]?)),
        tasks,
    };
    Ok(Queues::new(alloc, &header)?)
}

fn pass(rt: &impl Abort, queues: &mut Queues, direction: Direction, queue: u32)
    requires { queue < length queues.old }
    ensures { length queues.new ≡ length queues.old }
{
    let can = queues.can_pass(direction, queue);
    assert!(rt; can);
    queues.pass(direction, queue);
}

// The queue has this length and so many messages.
fn expect_queue(rt: &impl Abort, queues: &Queues, queue: u32, wanted: (u32, u32))
    requires { queue < length queues.now }
{
    let look = queues.look(queue);
    expect_same(rt, (look.length, look.messages), wanted);
}

// Queue 0 is filled by two messages, and queue 1 gives the only one that it has.
fn check_messages(rt: &impl Abort, queues: &mut Queues)
    requires { length queues.old ≡ 2 }
    ensures { length queues.new ≡ 2 }
{
    expect_is(rt, !queues.can_pass(Direction::Receive, 0));
    pass(rt, queues, Direction::Send, 0);
    pass(rt, queues, Direction::Send, 0);
    expect_is(rt, !queues.can_pass(Direction::Send, 0));
    pass(rt, queues, Direction::Receive, 1);
    expect_queue(rt, queues, 0, (2, 2));
    expect_queue(rt, queues, 1, (1, 0));
}

fn check_copy(rt: &impl Abort, queues: &Queues, copy: &mut Queues)
    requires { length copy.old ≡ length queues.now }
{
    expect_is(rt, !copy.same(queues) && !queues.same(copy));
    copy.copy_from(queues);
    expect_is(rt, copy.same(queues));
}

#[test]
fn messages_pass(rt: HostRuntime) -> Result<(), Fail> {
    let mut queues = two_queues(rt.alloc(), (2, 0), (1, 1))?;
    let mut copy = queues.copy(rt.alloc())?;
    expect_is(&rt, copy.same(&queues));
    check_messages(&rt, &mut queues);
    check_copy(&rt, &queues, &mut copy);
    Ok(())
}

// Queue 1 gets the last message that it has room for.
fn fill(rt: &impl Abort, queues: &mut Queues)
    requires { length queues.old ≡ 2 }
{
    pass(rt, queues, Direction::Send, 1);
    expect_is(rt, !queues.can_pass(Direction::Send, 1));
    expect_queue(rt, queues, 1, (MAX_MESSAGES, MAX_MESSAGES));
    expect_queue(rt, queues, 0, (1, 0));
}

#[test]
fn most_messages(rt: HostRuntime) -> Result<(), Fail> {
    let mut queues = two_queues(rt.alloc(), (1, 0), (MAX_MESSAGES, MAX_MESSAGES - 1))?;
    fill(&rt, &mut queues);
    Ok(())
}

#[test]
fn old_sessions_have_no_queues(rt: HostRuntime) -> Result<(), Fail> {
    let alloc = rt.alloc();
    let header = numbered_header(alloc, PLAIN, &[(0, 3)])?;
    let queues = Queues::new(alloc, &header)?;
    let header = Header {
        config: header.config,
        queues: Some(Items::new(Vec::new(alloc))),
        tasks: header.tasks,
    };
    expect_is(&rt, queues.same(&Queues::new(alloc, &header)?));
    Ok(())
}
