//! Whether sessions and runs go as expected.
use crate::block::{Block, Shown};
use crate::replay::Played;
use crate::rows::outcome_of_row;
use crate::run::printed_of_run;
use std::alloc::AllocError;
use std::io::{self, ErrorKind};
use std::sync::Wait;
use std::thread::Threads;

const NO_SESSION: &str = "no session";

/// Checks each block of a file's text, and says how many there are.
pub(crate) fn check_text<R: Threads + Wait + Sync>(
    rt: &R,
    host: &HostRuntime,
    name: &str,
    text: &str,
) -> io::Result<()> {
    print!(host; "{name}: ")?;
    check_parts(rt, host, text)?;
    let count = text.split("\n\n").count();
    println!(host; "{count} blocks as expected")
}

fn check_parts<R: Threads + Wait + Sync>(rt: &R, host: &HostRuntime, text: &str) -> io::Result<()> {
    for part in text.split("\n\n") {
        check_part(rt, host, part)?;
    }
    Ok(())
}

fn check_part<R: Threads + Wait + Sync>(rt: &R, host: &HostRuntime, part: &str) -> io::Result<()> {
    match Block::read(part) {
        Some(block) => check_block(rt, host, &block),
        None => compare(host, part, "a block", "none"),
    }
}

fn check_block<R: Threads + Wait + Sync>(
    rt: &R,
    host: &HostRuntime,
    block: &Block<'_>,
) -> io::Result<()> {
    match block.shown {
        Shown::Replies => check_lines(host, block, false),
        Shown::States => check_lines(host, block, true),
        Shown::Pair => check_pair(host, block),
        Shown::Run => check_run(rt, host, block),
        Shown::Rows => check_rows(rt, host, block),
    }
}

fn check_run<R: Threads + Wait + Sync>(
    rt: &R,
    host: &HostRuntime,
    block: &Block<'_>,
) -> io::Result<()> {
    let (input, expected) = first_line(block.rest);
    let found = printed_of_run(rt, host, block.given, input)?;
    compare(host, block.title, expected, found.as_str())
}

fn check_rows<R: Threads + Wait + Sync>(
    rt: &R,
    host: &HostRuntime,
    block: &Block<'_>,
) -> io::Result<()> {
    let (base, rows) = first_line(block.rest);
    for row in rows.lines() {
        check_row(rt, host, block.given, base, row)?;
    }
    Ok(())
}

fn check_row<R: Threads + Wait + Sync>(
    rt: &R,
    host: &HostRuntime,
    words: &str,
    base: &str,
    row: &str,
) -> io::Result<()> {
    let (given, expected) = row.split_once(" | ").unwrap_or((row, ""));
    let found = outcome_of_row(rt, host, words, base, given)?;
    compare(host, row, expected, found.as_str())
}

fn first_line(text: &str) -> (&str, &str) {
    text.split_once("\n").unwrap_or((text, ""))
}

fn check_lines(rt: &HostRuntime, block: &Block<'_>, with_state: bool) -> io::Result<()> {
    let found = Played::of(rt, block.given, with_state)?;
    compare(rt, block.title, block.rest, lines_of(&found))
}

fn lines_of(played: &Option<Played>) -> &str {
    match played {
        Some(played) => played.lines.as_str(),
        None => NO_SESSION,
    }
}

fn check_pair(rt: &HostRuntime, block: &Block<'_>) -> io::Result<()> {
    let (session, expected) = first_line(block.rest);
    let found = printed_of(rt, block.given, session)?;
    compare(rt, block.title, expected, found)
}

/// Whether two sessions end alike.
fn printed_of(rt: &HostRuntime, one: &str, two: &str) -> Result<&'static str, AllocError> {
    match Played::of(rt, one, false)? {
        Some(played) => printed_beside(rt, &played, two),
        None => Ok(NO_SESSION),
    }
}

fn printed_beside(
    rt: &HostRuntime,
    played: &Played,
    session: &str,
) -> Result<&'static str, AllocError> {
    match Played::of(rt, session, false)? {
        Some(other) => played.beside(rt.alloc(), &other),
        None => Ok(NO_SESSION),
    }
}

/// Where the text is not the expected one, writes the title and both.
fn compare(rt: &impl Print, title: &str, expected: &str, found: &str) -> io::Result<()> {
    if is_same(expected, found) {
        return Ok(());
    }
    show(rt, title, expected, found)?;
    Err(io::Error::from(ErrorKind::InvalidData))
}

fn is_same(expected: &str, found: &str) -> bool {
    expected.trim_end() == found.trim_end()
}

fn show(rt: &impl Print, title: &str, expected: &str, found: &str) -> io::Result<()> {
    println!(rt; "\n{title}")?;
    println!(rt; "expected:\n{expected}")?;
    println!(rt; "found:\n{found}")
}
