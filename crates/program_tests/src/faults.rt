//! Runs over devices that give or take little, fail, or find no memory.
use crate::devices::{Sink, Source, expect, expect_at, expect_same, ran};
use bench_commands::Status;
use program_io::{Counted, RunFault};
use std::io::{ErrorKind, Read, Write};
use std::test::Fail;

const SESSION: &str =
    r#"{"format":1,"cores":2,"priorities":5,"slicing":false,"tick":0,"mutexes":0,"tasks":[{"name":"A","priority":2,"mask":3},{"name":"B","priority":1,"mask":3},{"name":"C","priority":1,"mask":3}],"steps":[{"do":"delay","core":0,"by":"A","ticks":2},{"do":"switch","core":0},{"do":"tick"},{"do":"yield","core":0,"by":"C"},{"do":"switch","core":0}]}"#;

const LINES: &str = "start A B\n0 blocked A B\n1 done C B\n2 done C B\n3 done C B\n4 done C B\n";

fn source_of(piece: usize, reads: usize) -> Source {
    Source {
        text: SESSION.as_bytes(),
        piece,
        reads,
    }
}

/// The sink has room for the output, and takes a byte of it at a time.
#[test]
fn little_reads_and_failed_ones(rt: HostRuntime) -> Result<(), Fail> {
    let failed = (Status::Fault(RunFault::Read), 1, 0);
    let table = [
        (1, 1000, (Status::Fine, 0, 0), LINES),
        (100, 0, failed, ""),
        (100, 1, failed, ""),
        (100, 2, failed, ""),
        (100, 3, failed, ""),
        (100, 4, failed, ""),
    ];
    for (piece, reads, ended, output) in table {
        let mut sink = Sink::new(1, LINES.len(), None);
        let mut source = source_of(piece, reads);
        let made = ran(&rt, &rt, &mut source, &mut sink);
        expect_at(&rt, "reads", reads, made, ended);
        sink.expect(&rt, output);
    }
    Ok(())
}

/// The reader has gone where the pipe is broken, and else the device fails.
#[test]
fn a_write_that_fails(rt: HostRuntime) -> Result<(), Fail> {
    let failed = Status::Fault(RunFault::Write);
    for room in 0..LINES.len() {
        for (failure, status) in [
            (None, failed),
            (Some(ErrorKind::BrokenPipe), Status::Gone),
            (Some(ErrorKind::Interrupted), failed),
            (Some(ErrorKind::Other), failed),
        ] {
            let mut sink = Sink::new(7, room, failure);
            let mut source = source_of(1000, 1000);
            let made = ran(&rt, &rt, &mut source, &mut sink);
            expect_at(&rt, "room for", room, made, (status, 0, 1));
            expect_same(&rt, "written", sink.taken(), &LINES.as_bytes()[..room]);
        }
    }
    let mut sink = Sink::new(7, LINES.len(), Some(ErrorKind::BrokenPipe));
    let mut source = source_of(1000, 1000);
    let made = ran(&rt, &rt, &mut source, &mut sink);
    expect_same(&rt, "room for all", made, (Status::Fine, 0, 0));
    sink.expect(&rt, LINES);
    Ok(())
}

/// Ends as one of two; which of them, `rt try --test --fail-alloc N` decides.
#[test]
fn memory_that_is_refused(rt: HostRuntime) -> Result<(), Fail> {
    let mut sink = Sink::wide();
    let mut source = source_of(1000, 1000);
    let (status, failed_reads, failed_writes) = ran(&rt, &rt, &mut source, &mut sink);
    expect_same(&rt, "faults", (failed_reads, failed_writes), (0, 0));
    let written = match status {
        Status::Fault(RunFault::Memory) => "",
        _ => LINES,
    };
    sink.expect(&rt, written);
    Ok(())
}

#[test]
fn counted_devices_pass_on(rt: HostRuntime) -> Result<(), Fail> {
    let mut reader = Counted::new(Source {
        text: b"ab",
        piece: 9,
        reads: 1,
    });
    let mut buf = [0; 3];
    let is_read = matches!(reader.read(&mut buf), Ok(2));
    expect(&rt, "a read", is_read);
    expect_same(&rt, "read", (buf, reader.count()), (*b"ab\0", 0));
    let is_refused = reader.read(&mut buf).is_err();
    expect(&rt, "a failed read", is_refused);
    expect_same(&rt, "failed reads", reader.count(), 1);

    let mut sink = Sink::new(2, 2, None);
    let mut writer = Counted::new(&mut sink);
    let is_written = matches!(writer.write(b"abc"), Ok(2));
    expect(&rt, "a write", is_written);
    let is_flushed = writer.flush().is_ok();
    expect(&rt, "a flush", is_flushed);
    expect_same(&rt, "no failed write", writer.count(), 0);
    let is_refused = matches!(writer.write(b"c"), Ok(0));
    expect(&rt, "a failed write", is_refused);
    expect_same(&rt, "failed writes", writer.count(), 1);
    let is_flushed = writer.flush().is_ok();
    expect(&rt, "a flush after it", is_flushed);
    expect_same(&rt, "failed writes", writer.count(), 1);
    sink.expect(&rt, "ab");
    expect_same(&rt, "flushes", sink.flushes, 2);
    Ok(())
}
