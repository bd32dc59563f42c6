//! Recordings of rig documents over devices in memory.
use crate::devices::{Sink, Source, expect, expect_at, expect_same};
use bench_commands::{Gate, Status, carry_out, record};
use program_io::{Counted, Ending, OutputStatus, RunFault};
use std::io::{ErrorKind, Read, Write};
use std::sync::Wait;
use std::sync::atomic::{AtomicU32, Ordering};
use std::thread::Threads;

/// Only core 0 has a script: A is delayed, and what an idle task would call is passed over.
const RIG: &str =
    r#"{"session":{"format":1,"cores":2,"priorities":5,"slicing":false,"tick":0,"mutexes":0,"tasks":[{"name":"A","priority":2,"mask":1},{"name":"B","priority":1,"mask":2}],"steps":[]},"limit":9,"scripts":[[{"do":"hold_open"},{"do":"hold_close"},{"do":"delay","ticks":2},{"do":"switch"},{"do":"yield"},{"do":"tick"}],[]]}"#;

/// What is recorded of it.
const SESSION: &str = "\
{\"cores\":2,\"format\":1,\"mutexes\":0,\"priorities\":5,\"slicing\":false,\"steps\":[\
{\"by\":\"A\",\"core\":0,\"do\":\"hold_open\"},{\"by\":\"A\",\"core\":0,\"do\":\"hold_close\"},\
{\"by\":\"A\",\"core\":0,\"do\":\"delay\",\"ticks\":2},{\"core\":0,\"do\":\"switch\"},{\"do\":\"tick\"}],\
\"tasks\":[{\"mask\":1,\"name\":\"A\",\"priority\":2},{\"mask\":2,\"name\":\"B\",\"priority\":1}],\"tick\":0}\n";

/// Both cores have scripts, whose actions can be told apart.
const BOTH: &str =
    r#"{"session":{"format":1,"cores":2,"priorities":5,"slicing":false,"tick":0,"mutexes":0,"tasks":[{"name":"A","priority":2,"mask":1},{"name":"B","priority":1,"mask":2}],"steps":[]},"limit":9,"scripts":[[{"do":"value_clear","to":"A","bits":10},{"do":"value_clear","to":"A","bits":11},{"do":"value_clear","to":"A","bits":12}],[{"do":"value_clear","to":"B","bits":20},{"do":"value_clear","to":"B","bits":21},{"do":"value_clear","to":"B","bits":22}]]}"#;

/// A gate that counts who passes.
#[derive(Drop)]
struct Counting {
    passed: AtomicU32,
}

impl Counting {
    fn new() -> Counting {
        Counting {
            passed: AtomicU32::new(0),
        }
    }
}

impl Gate for Counting {
    fn pass(&self, _core: u32, _done: u32) {
        self.passed.fetch_add(1, Ordering::SeqCst);
    }
}

/// How a recording ends, how many reads and writes failed, and how often the gate was passed.
fn recorded<R: Threads + Wait + Sync, I: Read, O: Write>(
    rt: &R,
    host: &HostRuntime,
    reader: &mut I,
    writer: &mut O,
) -> (Status, u64, u64, u32) {
    let mut reader = Counted::new(reader);
    let mut writer = Counted::new(writer);
    let gate = Counting::new();
    let status = record(rt, host, host.alloc(), &mut reader, &mut writer, &gate);
    let passed = gate.passed.load(Ordering::SeqCst);
    (status, reader.count(), writer.count(), passed)
}

fn source_of(piece: usize, reads: usize) -> Source {
    Source {
        text: RIG.as_bytes(),
        piece,
        reads,
    }
}

/// The sink takes one byte at a time, and has just the room for them.
#[test]
fn a_rig_is_recorded(rt: HostRuntime) {
    let mut sink = Sink::new(1, SESSION.len(), None);
    let mut source = source_of(1, 1000);
    let ended = recorded(&rt, &rt, &mut source, &mut sink);
    expect_same(&rt, "ended", ended, (Status::Fine, 0, 0, 6));
    sink.expect(&rt, SESSION);
}

/// The word alone does it, with a gate that holds nobody up.
#[test]
fn the_command_records(rt: HostRuntime) {
    let mut sink = Sink::wide();
    let mut reader = Counted::new(RIG.as_bytes());
    let mut writer = Counted::new(&mut sink);
    let words: Option<&[&str]> = Some(&["smp_bench", "record"]);
    let ending = carry_out(&rt, &rt, rt.alloc(), words, &mut reader, &mut writer);
    expect(
        &rt,
        "ended",
        matches!(ending, Ending::Written(OutputStatus::Fine, _)),
    );
    sink.expect(&rt, SESSION);
}

#[test]
fn reads_that_fail(rt: HostRuntime) {
    for reads in 0..4 {
        let mut sink = Sink::wide();
        let mut source = source_of(100, reads);
        let ended = recorded(&rt, &rt, &mut source, &mut sink);
        let fault = (Status::Fault(RunFault::Read), 1, 0, 0);
        expect_at(&rt, "reads", reads, ended, fault);
        sink.expect(&rt, "");
    }
}

#[test]
fn writes_that_fail(rt: HostRuntime) {
    for room in [0, 1, SESSION.len() - 1] {
        for (failure, status) in [
            (None, Status::Fault(RunFault::Write)),
            (Some(ErrorKind::BrokenPipe), Status::Gone),
            (Some(ErrorKind::Other), Status::Fault(RunFault::Write)),
        ] {
            let mut sink = Sink::new(7, room, failure);
            let mut source = source_of(1000, 1000);
            let ended = recorded(&rt, &rt, &mut source, &mut sink);
            expect_at(&rt, "room for", room, ended, (status, 0, 1, 6));
            expect_same(&rt, "written", sink.taken(), &SESSION.as_bytes()[..room]);
        }
    }
}

/// Whether the words stand in the text, each after the one before it.
fn stand_in_order(text: &str, words: &[&str]) -> bool {
    let mut rest = text;
    for word in words {
        match rest.split_once(*word) {
            Some((_, after)) => rest = after,
            None => return false,
        }
    }
    true
}

/// The actions of each core are recorded in the order of its script, whatever the other does
/// meanwhile.
#[test]
fn scripts_in_their_order(rt: HostRuntime) {
    let mut sink = Sink::wide();
    let ended = recorded(&rt, &rt, &mut BOTH.as_bytes(), &mut sink);
    expect_same(&rt, "ended", ended, (Status::Fine, 0, 0, 6));
    let text = std::str::from_utf8(sink.taken()).unwrap_or("");
    let first = ["\"bits\":10,", "\"bits\":11,", "\"bits\":12,"];
    let second = ["\"bits\":20,", "\"bits\":21,", "\"bits\":22,"];
    expect(&rt, text, stand_in_order(text, &first));
    expect(&rt, text, stand_in_order(text, &second));
}

/// Ends as one of two; which of them, `rt try --test --fail-alloc N` decides.
#[test]
fn memory_that_is_refused(rt: HostRuntime) {
    let mut sink = Sink::wide();
    let mut source = source_of(1000, 1000);
    let (status, failed_reads, failed_writes, _) = recorded(&rt, &rt, &mut source, &mut sink);
    expect_same(&rt, "faults", (failed_reads, failed_writes), (0, 0));
    let written = match status {
        Status::Fault(RunFault::Memory) => "",
        _ => SESSION,
    };
    sink.expect(&rt, written);
}
