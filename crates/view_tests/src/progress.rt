//! How far advice is, as a screen is told of it, and a file not. Each of so many tasks has four
//! other priorities.
use crate::devices::{Sink, expect_same};
use crate::words::args_of;
use program_io::Counted;
use shown_runs::PartProgress;
use std::alloc::{AllocError, Global};
use std::io::{self, IsTerminal, Write};
use std::process::{Abort, ExitCode};
use std::test::Fail;
use std::thread::Threads;
use view_commands::{DocumentSource, Telling, run_program};

const LINE: &str = "smp_view advise --task T0 --less run --over priority --best 0";

/// How many tasks there are, what is printed, and what a screen is told.
const ADVICE: [(usize, &str, &str); 4] = [
    (1, "T0.run is 1; 4 changes tried\n", "\r4 of 4 tried\n"),
    (16, "T0.run is 1; 64 changes tried\n", "\r64 of 64 tried\n"),
    (
        20,
        "T0.run is 1; 80 changes tried\n",
        "\r64 of 80 tried\r80 of 80 tried\n",
    ),
    (
        126,
        "T0.run is 1; 504 changes tried\n",
        "\r64 of 504 tried\r128 of 504 tried\r192 of 504 tried\r256 of 504 tried\
        \r320 of 504 tried\r384 of 504 tried\r448 of 504 tried\r504 of 504 tried\n",
    ),
];

#[test]
fn each_part_is_told_on_a_screen(rt: HostRuntime) -> Result<(), Fail> {
    for (tasks, output, told) in &ADVICE {
        check(&rt, &rt, *tasks, true, output, told)?;
    }
    Ok(())
}

#[test]
fn a_file_is_told_nothing(rt: HostRuntime) -> Result<(), Fail> {
    check(&rt, &rt, 20, false, "T0.run is 1; 80 changes tried\n", "")?;
    Ok(())
}

/// A device that is a screen, or a file.
#[derive(Drop)]
pub(crate) struct Device<'a> {
    pub(crate) sink: &'a mut Sink,
    pub(crate) is_screen: bool,
}

impl Write for Device<'_> {
    fn write(&mut self, buf: &[u8]) -> io::Result<usize> {
        self.sink.write(buf)
    }

    fn flush(&mut self) -> io::Result<()> {
        self.sink.flush()
    }
}

impl IsTerminal for Device<'_> {
    fn is_terminal(&self) -> bool {
        self.is_screen
    }
}

// What is printed of a session of so many tasks, and what a device is told meanwhile.
fn check<R: Threads + Abort + Sync>(
    rt: &R,
    host: &HostRuntime,
    tasks: usize,
    is_screen: bool,
    output: &str,
    told: &str,
) -> Result<(), AllocError> {
    let document = crowd_document(host.alloc(), tasks)?;
    let mut sink = Sink::wide();
    let device = Device {
        sink: &mut sink,
        is_screen,
    };
    let mut progress = Telling::of(device);
    check_advice(rt, host, &mut progress, document.as_bytes(), output)?;
    drop(progress);
    sink.expect(rt, told);
    Ok(())
}

fn check_advice<R: Threads + Abort + Sync, P: PartProgress>(
    rt: &R,
    host: &HostRuntime,
    progress: &mut P,
    document: &[u8],
    wanted: &str,
) -> Result<(), AllocError> {
    let words = Ok(args_of(host.alloc(), LINE)?);
    let mut output = Sink::wide();
    let mut errors = Sink::wide();
    let status = run_program(
        rt,
        host,
        progress,
        words,
        &mut DocumentSource::new(document, host),
        &mut Counted::new(&mut output),
        &mut Counted::new(&mut errors),
    );
    expect_same(rt, "status", status, ExitCode::from(0));
    output.expect(rt, wanted);
    errors.expect(rt, "");
    Ok(())
}

/// A tick of so many tasks of one priority, of which T0 and T1 run.
fn crowd_document(alloc: Global, tasks: usize) -> Result<String, AllocError> {
    let mut text = String::from_str(
        alloc,
        r#"{"format":1,"cores":2,"priorities":5,"slicing":false,"tick":0,"mutexes":0,"tasks":["#,
    )?;
    for task in 0..tasks {
        let before = if task == 0 { "" } else { "," };
        write!(
            text,
            r#"{before}{{"name":"T{task}","priority":1,"mask":3}}"#
        )?;
    }
    text.push_str(r#"],"steps":[{"do":"tick"}]}"#)?;
    Ok(text)
}
