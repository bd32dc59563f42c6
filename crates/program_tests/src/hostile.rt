//! Texts that are cut off or nested deep, and devices that are interrupted.
use crate::devices::{Sink, expect_at, expect_same, ran};
use bench_commands::Status;
use program_io::RunFault;
use std::alloc::AllocError;
use std::io::{self, ErrorKind, Read, Write};
use std::process::Abort;
use std::test::Fail;
use std::thread::Threads;

/// A session as it is written.
const WRITTEN: &str =
    r#"{"cores":2,"format":1,"mutexes":0,"priorities":5,"slicing":true,"steps":[{"do":"tick"},{"core":1,"do":"switch"}],"tasks":[{"mask":3,"name":"A","priority":2},{"mask":3,"name":"B","priority":1},{"mask":3,"name":"C","priority":1}],"tick":0}"#;

const LINES: &str = "start A B\n0 done A B\n1 done A C\n";

/// How many bytes a read gives and a write takes.
const PIECE: usize = 8;

/// How many reads the session takes, with the one that finds its end, and how many writes its
/// lines.
const READS: u32 = 31;

const WRITES: u32 = 4;

/// A device one of whose calls is interrupted, or all from that one on.
#[derive(Drop)]
struct Interrupted<D> {
    device: D,
    /// How many calls go well first.
    before: u32,
    is_for_ever: bool,
}

impl<D> Interrupted<D> {
    fn new(device: D, before: u32, is_for_ever: bool) -> Interrupted<D> {
        Interrupted {
            device,
            before,
            is_for_ever,
        }
    }

    /// Whether this call goes well.
    fn goes_well(&mut self) -> bool {
        let is_well = self.before > 0;
        if is_well {
            self.before -= 1;
        } else if !self.is_for_ever {
            self.before = u32::MAX;
        }
        is_well
    }
}

impl<D: Read> Read for Interrupted<D> {
    fn read(&mut self, buf: &mut [u8]) -> io::Result<usize> {
        if !self.goes_well() {
            return Err(io::Error::from(ErrorKind::Interrupted));
        }
        let piece = buf.len().min(PIECE);
        self.device.read(&mut buf[..piece])
    }
}

impl<D: Write> Write for Interrupted<D> {
    fn write(&mut self, buf: &[u8]) -> io::Result<usize> {
        if !self.goes_well() {
            return Err(io::Error::from(ErrorKind::Interrupted));
        }
        self.device.write(&buf[..buf.len().min(PIECE)])
    }

    fn flush(&mut self) -> io::Result<()> {
        self.device.flush()
    }
}

/// Whether the text is refused as one that is no JSON.
fn check_no_json<T: Threads + Abort + Sync>(rt: &T, host: &HostRuntime, text: &[u8]) {
    let mut sink = Sink::wide();
    let mut reader = text;
    let length = text.len();
    let ended = ran(rt, host, &mut reader, &mut sink);
    expect_at(rt, "bytes", length, ended, (Status::Refused, 0, 0));
    sink.expect(rt, "refused H1\n");
}

#[test]
fn a_text_that_is_cut_off(rt: HostRuntime) {
    let bytes = WRITTEN.as_bytes();
    for end in 0..bytes.len() {
        check_no_json(&rt, &rt, &bytes[..end]);
    }
}

#[test]
fn brackets_in_brackets(rt: HostRuntime) -> Result<(), Fail> {
    check_brackets(&rt, &rt)?;
    Ok(())
}

fn check_brackets<T: Threads + Abort + Sync>(rt: &T, host: &HostRuntime) -> Result<(), AllocError> {
    let mut text = "[".repeat(host.alloc(), 200)?;
    check_no_json(rt, host, text.as_bytes());
    text.push_str("]".repeat(host.alloc(), 200)?.as_str())?;
    check_no_json(rt, host, text.as_bytes());
    Ok(())
}

/// The read that finds the end is the last that is reached.
#[test]
fn each_read_is_interrupted(rt: HostRuntime) {
    for before in 0..=READS {
        check_read(&rt, &rt, before, false);
        check_read(&rt, &rt, before, true);
    }
}

fn check_read<T: Threads + Abort + Sync>(
    rt: &T,
    host: &HostRuntime,
    before: u32,
    is_for_ever: bool,
) {
    let mut sink = Sink::wide();
    let mut reader = Interrupted::new(WRITTEN.as_bytes(), before, is_for_ever);
    let (ended, lines) = if before < READS {
        ((Status::Fault(RunFault::Read), 1, 0), "")
    } else {
        ((Status::Fine, 0, 0), LINES)
    };
    let made = ran(rt, host, &mut reader, &mut sink);
    expect_at(rt, "read", before as usize, made, ended);
    sink.expect(rt, lines);
}

#[test]
fn each_write_is_interrupted(rt: HostRuntime) {
    for before in 0..=WRITES {
        check_write(&rt, &rt, before, false);
        check_write(&rt, &rt, before, true);
    }
}

fn check_write<T: Threads + Abort + Sync>(
    rt: &T,
    host: &HostRuntime,
    before: u32,
    is_for_ever: bool,
) {
    let mut sink = Sink::wide();
    let mut writer = Interrupted::new(&mut sink, before, is_for_ever);
    let ended = if before < WRITES {
        (Status::Fault(RunFault::Write), 0, 1)
    } else {
        (Status::Fine, 0, 0)
    };
    let made = ran(rt, host, &mut WRITTEN.as_bytes(), &mut writer);
    expect_at(rt, "write", before as usize, made, ended);
    let count = LINES.len().min(before as usize * PIECE);
    expect_same(rt, "written", sink.taken(), &LINES.as_bytes()[..count]);
}
