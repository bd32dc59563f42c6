//! Runs of the bench over texts.
use bench_commands::carry_out;
use program_io::{Counted, Ending};
use std::alloc::AllocError;
use std::sync::Wait;
use std::thread::Threads;

/// What the bench writes with these words over this input. Where its exit status is not 0, a line
/// with the status and what people are told stand below.
pub(crate) fn printed_of_run<R: Threads + Wait + Sync>(
    rt: &R,
    host: &HostRuntime,
    words: &str,
    input: &str,
) -> Result<String, AllocError> {
    let mut bytes = Vec::new(host.alloc());
    let ending = ended(rt, host, words, input, &mut bytes)?;
    let mut text = String::from_str(host.alloc(), text_of(bytes.as_slice()))?;
    push_status(&mut text, &ending)?;
    Ok(text)
}

fn ended<R: Threads + Wait + Sync>(
    rt: &R,
    host: &HostRuntime,
    words: &str,
    input: &str,
    output: &mut Vec<u8>,
) -> Result<Ending, AllocError> {
    let words: Vec<&str> = words.split(' ').collect(host.alloc())?;
    Ok(ended_with(rt, host, words.as_slice(), input, output))
}

fn ended_with<R: Threads + Wait + Sync>(
    rt: &R,
    host: &HostRuntime,
    words: &[&str],
    input: &str,
    output: &mut Vec<u8>,
) -> Ending {
    let mut reader = Counted::new(input.as_bytes());
    let mut writer = Counted::new(output);
    carry_out(
        rt,
        host,
        host.alloc(),
        Some(words),
        &mut reader,
        &mut writer,
    )
}

fn text_of(bytes: &[u8]) -> &str {
    std::str::from_utf8(bytes).unwrap_or("no text\n")
}

fn push_status(text: &mut String, ending: &Ending) -> Result<(), AllocError> {
    if ending.code() == 0 {
        return Ok(());
    }
    let message = text_of(ending.message());
    write!(text, "status {}\n{message}", ending.code())
}
