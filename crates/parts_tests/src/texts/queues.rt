//! Queues of headers: their limits, how many there are, and their copies.

use crate::expected::expect_same;
use bench_samples::{PLAIN, header_of};
use bench_types::{Header, HeaderFlaw, Items, QueueArgs, copy_queues};
use std::alloc::{AllocError, Global};
use std::process::Abort;
use std::test::Fail;

const LAST: u32 = 4_294_967_295;

/// Queues that may stand in a header.
const GOOD: &[QueueArgs] = &[
    QueueArgs {
        length: 1,
        messages: 0,
    },
    QueueArgs {
        length: 1,
        messages: 1,
    },
    QueueArgs {
        length: LAST,
        messages: LAST,
    },
];

/// A queue of no length.
const EMPTY: QueueArgs = QueueArgs {
    length: 0,
    messages: 0,
};

/// A queue with one message more than its length.
const OVERFULL: QueueArgs = QueueArgs {
    length: 2,
    messages: 3,
};

/// The queues of a header, and its first flaw.
const FLAWS: &[(&[QueueArgs], Option<HeaderFlaw>)] = &[
    (&[], None),
    (GOOD, None),
    (&[EMPTY], Some(HeaderFlaw::QueueLength(0))),
    (&[OVERFULL], Some(HeaderFlaw::QueueMessages(0))),
    // Lengths are judged before messages, whichever queue they are of.
    (&[OVERFULL, EMPTY], Some(HeaderFlaw::QueueLength(1))),
];

/// A header of one task with these queues.
fn with_queues(alloc: Global, queues: &[QueueArgs]) -> Result<Header, Fail> {
    let Header { config, tasks, .. } = header_of(alloc, PLAIN, &[("A", 0, 3)])?;
    Ok(Header {
        config,
        queues: Some(Items::new(Vec::from_slice(alloc, queues)?)),
        tasks,
    })
}

fn check_flaw(
    rt: &impl Abort,
    alloc: Global,
    queues: &[QueueArgs],
    want: Option<HeaderFlaw>,
) -> Result<(), Fail> {
    let header = with_queues(alloc, queues)?;
    expect_same(rt, &header.flaw(), &want);
    Ok(())
}

#[test]
fn flaws_of_queues(rt: HostRuntime) -> Result<(), Fail> {
    for (queues, want) in FLAWS {
        check_flaw(&rt, rt.alloc(), queues, *want)?;
    }
    Ok(())
}

fn alike(alloc: Global, count: usize) -> Result<Vec<QueueArgs>, AllocError> {
    vec![in alloc; GOOD[0]; count]
}

#[test]
fn numbers_of_queues(rt: HostRuntime) -> Result<(), Fail> {
    let many = alike(rt.alloc(), 32)?;
    check_flaw(&rt, rt.alloc(), many.as_slice(), None)?;
    let more = alike(rt.alloc(), 33)?;
    check_flaw(
        &rt,
        rt.alloc(),
        more.as_slice(),
        Some(HeaderFlaw::Queues(33)),
    )
}

fn check_count(rt: &impl Abort, header: &Header, want: Option<u32>) -> Result<(), Fail> {
    header.check()?;
    expect_same(rt, &header.queue_count(), &want);
    Ok(())
}

#[test]
fn queues_are_counted(rt: HostRuntime) -> Result<(), Fail> {
    let alloc = rt.alloc();
    check_count(&rt, &header_of(alloc, PLAIN, &[("A", 0, 3)])?, None)?;
    check_count(&rt, &with_queues(alloc, &[])?, Some(0))?;
    check_count(&rt, &with_queues(alloc, GOOD)?, Some(3))
}

fn items_of(queues: &Option<Items<QueueArgs>>) -> &[QueueArgs] {
    match queues {
        Some(queues) => queues.as_slice(),
        None => &[],
    }
}

#[test]
fn queues_are_copied(rt: HostRuntime) -> Result<(), Fail> {
    let header = with_queues(rt.alloc(), GOOD)?;
    let copy = copy_queues(rt.alloc(), &header.queues)?;
    assert!(rt; items_of(&copy) == GOOD);
    let header = header.copy(rt.alloc())?;
    assert!(rt; items_of(&header.queues) == GOOD);
    Ok(())
}
