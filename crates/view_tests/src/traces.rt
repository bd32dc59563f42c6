//! The text of a trace.

use crate::samples::{FIRST_RUN, ONE_QUEUE, SUSPENDED, TWO_NOTES, session_in};
use bench_types::Items;
use run_views::{Interest, Places, trace};
use smp_kernel::Meter;
use std::process::Abort;
use std::test::Fail;

pub(crate) const WHOLE: &str = "place 0, tick 0; core 0 A; core 1 B
step 0: delay core 0 by A ticks 2
  blocked: the call was made, and its task waits
  core 0 pend set
  A blocked until tick 2
  A call begun
place 1, tick 0; core 0 A, due by pend; core 1 B
step 1: switch core 0
  done: the step was made
  core 0 current A to C
  core 0 pend cleared
place 2, tick 0; core 0 C; core 1 B
step 2: tick
  done: the step was made
  tick 0 to 1
place 3, tick 1; core 0 C; core 1 B
step 3: yield core 0 by C
  done: the step was made
  core 0 pend set
place 4, tick 1; core 0 C, due by pend; core 1 B
step 4: switch core 0
  done: the step was made
  core 0 pend cleared
place 5, tick 1; core 0 C; core 1 B
";

const INDEXED: &str = "place 0, tick 0; core 0 A; core 1 B
step 0: notify_wait core 0 by A entry 0 exit 0 ticks 10 index 1
  blocked: the call was made, and its task waits
  core 0 pend set
  A blocked until tick 10
  A call begun
  A notification none to waiting index 1
place 1, tick 0; core 0 A, due by pend; core 1 B
step 1: isr_notify core 1 to A action increment index 0
  isr true false: the notification passed
  A notification value 0 to 1 index 0
  A notification none to received index 0
place 2, tick 0; core 0 A, due by pend; core 1 B
step 2: isr_notify core 1 to A action set value 9 index 1
  isr true false: the notification passed
  A woken
  A notification value 0 to 9 index 1
  A notification waiting to received index 1
place 3, tick 0; core 0 A, due by pend; core 1 B
step 3: switch core 0
  done: the step was made
  core 0 pend cleared
place 4, tick 0; core 0 A; core 1 B
step 4: finish core 0 by A
  waited true 9: a notification had come
  A call ended
  A notification received to none index 1
place 5, tick 0; core 0 A; core 1 B
";

const QUEUED: &str = "place 0, tick 0; core 0 A; core 1 B
step 0: queue_receive core 0 by A queue 0 ticks 5
  blocked: the call was made, and its task waits
  core 0 pend set
  A blocked until tick 5
  A call begun
place 1, tick 0; core 0 A, due by pend; core 1 B
step 1: switch core 0
  done: the step was made
  core 0 current A to C
  core 0 pend cleared
place 2, tick 0; core 0 C; core 1 B
step 2: isr_send core 1 queue 0
  isr true true: the message was sent, and the core has to switch
  core 1 pend set
  A woken
  queue 0 messages 0 to 1
place 3, tick 0; core 0 C; core 1 B, due by pend
step 3: isr_send core 1 queue 0
  isr false true: the queue is full, and the core has to switch
place 4, tick 0; core 0 C; core 1 B, due by pend
step 4: switch core 1
  done: the step was made
  core 1 current B to A
  core 1 pend cleared
place 5, tick 0; core 0 C; core 1 A
step 5: finish core 1 by A
  true: the call succeeded
  A call ended
  queue 0 messages 1 to 0
place 6, tick 0; core 0 C; core 1 A
";

const SUSPENSIONS: &str = "place 0, tick 0; core 0 A; core 1 B
step 0: suspend core 0 by A to B
  done: the step was made
  core 1 asked set
  B suspended
place 1, tick 0; core 0 A; core 1 B, due by asked
step 1: switch core 1
  done: the step was made
  core 1 current B to C
  core 1 asked cleared
place 2, tick 0; core 0 A; core 1 C
step 2: pass units 250
  done: the step was made
place 3, tick 0; core 0 A; core 1 C
step 3: isr_resume core 1 to B
  isr true false: the task was suspended
  B resumed
place 4, tick 0; core 0 A; core 1 C
step 4: isr_resume core 1 to B
  isr false false: the task was not suspended
place 5, tick 0; core 0 A; core 1 C
step 5: suspend core 0 by A to A
  done: the step was made
  core 0 pend set
  A suspended
place 6, tick 0; core 0 A, due by pend; core 1 C
step 6: switch core 0
  done: the step was made
  core 0 current A to B
  core 0 pend cleared
place 7, tick 0; core 0 B; core 1 C
step 7: resume core 1 by C to A
  done: the step was made
  core 1 pend set
  A resumed
place 8, tick 0; core 0 B; core 1 C, due by pend
step 8: switch core 1
  done: the step was made
  core 1 current C to A
  core 1 pend cleared
place 9, tick 0; core 0 B; core 1 A
";

#[test]
fn a_whole_run(rt: HostRuntime) -> Result<(), Fail> {
    let text = trace_of(&rt, FIRST_RUN, 0, u32::MAX)?;
    expect_text(&rt, text.as_str(), WHOLE);
    Ok(())
}

#[test]
fn a_run_with_two_notifications(rt: HostRuntime) -> Result<(), Fail> {
    let text = trace_of(&rt, TWO_NOTES, 0, u32::MAX)?;
    expect_text(&rt, text.as_str(), INDEXED);
    Ok(())
}

#[test]
fn a_run_with_a_queue(rt: HostRuntime) -> Result<(), Fail> {
    let text = trace_of(&rt, ONE_QUEUE, 0, u32::MAX)?;
    expect_text(&rt, text.as_str(), QUEUED);
    Ok(())
}

#[test]
fn a_run_with_suspended_tasks(rt: HostRuntime) -> Result<(), Fail> {
    let text = trace_of(&rt, SUSPENDED, 0, u32::MAX)?;
    expect_text(&rt, text.as_str(), SUSPENSIONS);
    Ok(())
}

fn expect_text(rt: &impl Abort, text: &str, expected: &str) {
    assert_eq!(rt; text, expected);
}

fn trace_of(host: &HostRuntime, document: &str, from: u32, to: u32) -> Result<String, Fail> {
    let alloc = host.alloc();
    let session = session_in(alloc, document)?;
    let mut meter = Meter::new(host);
    let places = Places { from, to };
    let interest = Interest {
        tasks: Items::new(Vec::new(alloc)),
        cores: Items::new(Vec::new(alloc)),
    };
    Ok(trace(alloc, &mut meter, places, &interest, &session)?)
}
