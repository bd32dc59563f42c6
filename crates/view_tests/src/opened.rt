//! Files of the system: each is opened by its own name.
use crate::devices::{Sink, expect_same};
use crate::processes::Wanted;
use crate::samples::{FIRST_RUN, NO_NINTH, SHARED_MUTEX};
use crate::traces::WHOLE;
use crate::views::KEPT;
use program_io::Counted;
use ranked_changes::Silent;
use std::fs;
use std::process::{Abort, ExitCode};
use std::test::Fail;
use std::thread::Threads;
use view_commands::{DocumentSource, run_program};

/// The longest name that the system gives a file, in letters.
const MAX_NAME: usize = 255;

#[test]
fn files_by_their_names(rt: HostRuntime) -> Result<(), Fail> {
    let longest = "x".repeat(rt.alloc(), MAX_NAME)?;
    for (name, text) in [
        ("first.json", FIRST_RUN),
        ("shared mutex", SHARED_MUTEX),
        (longest.as_str(), FIRST_RUN),
    ] {
        fs::write(&rt, name, text)?;
    }
    check(&rt, &rt, "trace", "first.json", 0, WHOLE, "")?;
    check(&rt, &rt, "session", "shared mutex", 0, KEPT, NO_NINTH)?;
    check(&rt, &rt, "trace", longest.as_str(), 0, WHOLE, "")?;
    for name in ["first.json", "shared mutex", longest.as_str()] {
        fs::remove_file(&rt, name)?;
    }
    Ok(())
}

#[test]
fn files_that_are_not_there(rt: HostRuntime) -> Result<(), Fail> {
    let too_long = "x".repeat(rt.alloc(), MAX_NAME + 1)?;
    for name in ["none.json", "none/run.json", too_long.as_str()] {
        let errors = format!(in rt.alloc(); "fault open {name}\n")?;
        check(&rt, &rt, "trace", name, 3, "", errors.as_str())?;
    }
    Ok(())
}

// What the program makes of the file of this name.
fn check<R: Threads + Abort + Sync>(
    rt: &R,
    host: &HostRuntime,
    command: &str,
    name: &str,
    code: u8,
    output: &str,
    errors: &str,
) -> Result<(), Fail> {
    let mut words = Vec::new(host.alloc());
    for word in ["smp_view", command, name] {
        words.push(String::from_str(host.alloc(), word)?)?;
    }
    let wanted = Wanted {
        code,
        output,
        errors,
    };
    check_words(rt, host, words, wanted);
    Ok(())
}

fn check_words<R: Threads + Abort + Sync>(
    rt: &R,
    host: &HostRuntime,
    words: Vec<String>,
    wanted: Wanted<'_>,
) {
    let mut output = Sink::wide();
    let mut errors = Sink::wide();
    let status = run_program(
        rt,
        host,
        &mut Silent,
        Ok(words.into_iter()),
        &mut DocumentSource::new("".as_bytes(), host),
        &mut Counted::new(&mut output),
        &mut Counted::new(&mut errors),
    );
    expect_same(rt, "status", status, ExitCode::from(wanted.code));
    output.expect(rt, wanted.output);
    errors.expect(rt, wanted.errors);
}
