//! The commands, over devices in memory that take none.
ghost use Rattle.std.specs.Prelude.{◌≡◌, true};
ghost use Rattle.bench_commands.specs.Run.{has_span};

use crate::call_result::CallResult;
use bench_commands::{Gate, Mode, Status, record, run};
use program_io::{Counted, RunFault};
use std::io::{self, Write};
use std::sync::Wait;
use std::thread::Threads;

/// The session of the examples in which A is delayed.
const SESSION: &str =
    r#"{"format":1,"cores":2,"priorities":5,"slicing":false,"tick":0,"mutexes":0,"tasks":[{"name":"A","priority":2,"mask":3},{"name":"B","priority":1,"mask":3},{"name":"C","priority":1,"mask":3}],"steps":[{"do":"delay","core":0,"by":"A","ticks":2},{"do":"switch","core":0},{"do":"tick"},{"do":"yield","core":0,"by":"C"},{"do":"switch","core":0}]}"#;

const LINES: &str = "start A B\n0 blocked A B\n1 done C B\n2 done C B\n3 done C B\n4 done C B\n";

/// A bench document: A's yield is put in, and then an edit has no place.
const BENCH: &str =
    r#"{"session":{"format":1,"cores":2,"priorities":5,"slicing":false,"tick":0,"mutexes":0,"tasks":[{"name":"A","priority":2,"mask":3}],"steps":[{"do":"tick"}]},"edits":[{"edit":"insert","at":0,"step":{"do":"yield","core":0,"by":"A"}},{"edit":"remove","at":2}]}"#;

const EDITED_LINES: &str = "\
edit 0 from 0 met 2 replayed 2
edit 1 refused J1
start A IDLE0
0 done A IDLE0
1 done A IDLE0
task IDLE0 run 0 1 wait 0 inverted 0 in 0 displaced 0 timeouts 0 top 0
task IDLE1 run 0 0 wait 1 inverted 0 in 0 displaced 0 timeouts 0 top 0
task A run 1 0 wait 0 inverted 0 in 0 displaced 0 timeouts 0 top 2
";

/// Core 0 makes a tick, and core 1 nothing.
const RIG: &str =
    r#"{"session":{"format":1,"cores":2,"priorities":5,"slicing":false,"tick":0,"mutexes":0,"tasks":[{"name":"A","priority":2,"mask":3}],"steps":[]},"limit":9,"scripts":[[{"do":"tick"}],[]]}"#;

const RECORDED: &str =
    "{\"cores\":2,\"format\":1,\"mutexes\":0,\"priorities\":5,\"slicing\":false,\"steps\":[{\"do\":\"tick\"}],\"tasks\":[{\"mask\":3,\"name\":\"A\",\"priority\":2}],\"tick\":0}\n";

const MAX_OUTPUT: usize = 512;

/// Takes so many bytes, and asks for no memory.
#[derive(Drop)]
struct Sink {
    bytes: [u8; MAX_OUTPUT],
    count: usize,
}

impl Sink {
    fn new() -> Sink {
        Sink {
            bytes: [0; MAX_OUTPUT],
            count: 0,
        }
    }

    fn taken(&self) -> &[u8] {
        &self.bytes[..self.count.min(MAX_OUTPUT)]
    }
}

impl Write for Sink {
    fn write(&mut self, buf: &[u8]) -> io::Result<usize> {
        let start = self.count.min(MAX_OUTPUT);
        let count = buf.len().min(MAX_OUTPUT - start);
        self.bytes[start..start + count].copy_from_slice(&buf[..count]);
        self.count = start + count;
        Ok(count)
    }

    fn flush(&mut self) -> io::Result<()> {
        Ok(())
    }
}

/// A gate that holds nobody up.
#[derive(Drop)]
struct Open;

impl Gate for Open {
    fn pass(&self, _core: u32, _done: u32) {}
}

/// What came of a command that is to write the lines, where it ended so and the sink took that.
fn outcome_of(status: Status, sink: &Sink, lines: &str) -> CallResult {
    match status {
        Status::Fault(RunFault::Memory) => CallResult::refused(sink.taken().is_empty()),
        _ => CallResult::answered(status == Status::Fine && sink.taken() == lines.as_bytes()),
    }
}

/// The second outcome, too, where the first was that memory was refused.
fn with_second(first: CallResult, second: CallResult) -> CallResult {
    match first {
        CallResult::Refused => CallResult::refused(second == CallResult::Answered),
        _ => first,
    }
}

fn replayed<R: Threads + Sync>(
    rt: &R,
    host: &HostRuntime,
    text: &str,
    mode: &Mode,
    lines: &str,
) -> CallResult
    requires { has_span mode.now ≡ true }
{
    let mut sink = Sink::new();
    let mut bytes = text.as_bytes();
    let mut reader = Counted::new(&mut bytes);
    let mut writer = Counted::new(&mut sink);
    let status = run(rt, host, host.alloc(), &mut reader, &mut writer, mode);
    outcome_of(status, &sink, lines)
}

/// The replay of a session.
pub(crate) fn plain<R: Threads + Sync>(rt: &R, host: &HostRuntime) -> CallResult {
    let mode = Mode::Replay {
        span: 64,
        tally: false,
    };
    let first = replayed(rt, host, SESSION, &mode, LINES);
    match first {
        CallResult::Refused => with_second(first, replayed(rt, host, SESSION, &mode, LINES)),
        _ => first,
    }
}

/// The replay of a bench document, with tallies.
pub(crate) fn edited<R: Threads + Sync>(rt: &R, host: &HostRuntime) -> CallResult {
    let mode = Mode::Replay {
        span: 1,
        tally: true,
    };
    let first = replayed(rt, host, BENCH, &mode, EDITED_LINES);
    match first {
        CallResult::Refused => with_second(first, replayed(rt, host, BENCH, &mode, EDITED_LINES)),
        _ => first,
    }
}

fn recording<R: Threads + Wait + Sync>(rt: &R, host: &HostRuntime) -> CallResult {
    let mut sink = Sink::new();
    let mut bytes = RIG.as_bytes();
    let mut reader = Counted::new(&mut bytes);
    let mut writer = Counted::new(&mut sink);
    let status = record(rt, host, host.alloc(), &mut reader, &mut writer, &Open);
    outcome_of(status, &sink, RECORDED)
}

/// The recording of a rig.
pub(crate) fn recorded<R: Threads + Wait + Sync>(rt: &R, host: &HostRuntime) -> CallResult {
    let first = recording(rt, host);
    match first {
        CallResult::Refused => with_second(first, recording(rt, host)),
        _ => first,
    }
}
