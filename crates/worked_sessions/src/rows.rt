//! Rows, each with a text or the changes of one, and what reading that gives.
use crate::run::printed_of_run;
use std::alloc::{AllocError, Global};
use std::sync::Wait;
use std::thread::Threads;

/// What comes of a run over the text that a row gives: `read`, or what stands in the refusal line
/// after its first word.
pub(crate) fn outcome_of_row<R: Threads + Wait + Sync>(
    rt: &R,
    host: &HostRuntime,
    words: &str,
    base: &str,
    given: &str,
) -> Result<String, AllocError> {
    let Some(text) = text_of(host.alloc(), base, given)? else {
        return String::from_str(host.alloc(), "no such place");
    };
    let printed = printed_of_run(rt, host, words, text.as_str())?;
    String::from_str(host.alloc(), outcome_of(printed.as_str()))
}

fn outcome_of(printed: &str) -> &str {
    let line = printed.split_once("\n").map_or(printed, |(line, _)| line);
    line.strip_prefix("refused ").unwrap_or("read")
}

/// The text with what is given in the place of its `@`, or after the given changes, `old => new`
/// with ` & ` between each two; `None` where it has no such place.
fn text_of(alloc: Global, base: &str, given: &str) -> Result<Option<String>, AllocError> {
    if !given.contains(" => ") {
        return replaced(alloc, base, "@", given);
    }
    let mut text = Some(String::from_str(alloc, base)?);
    for change in given.split(" & ") {
        text = changed(alloc, &text, change)?;
    }
    Ok(text)
}

fn changed(
    alloc: Global,
    text: &Option<String>,
    change: &str,
) -> Result<Option<String>, AllocError> {
    match (text, change.split_once(" => ")) {
        (Some(text), Some((old, new))) => replaced(alloc, text.as_str(), old, new),
        _ => Ok(None),
    }
}

/// The text with the new part in the place of the old one, where that stands first.
fn replaced(alloc: Global, text: &str, old: &str, new: &str) -> Result<Option<String>, AllocError> {
    match text.split_once(old) {
        Some((front, back)) => Ok(Some(format!(in alloc; "{front}{new}{back}")?)),
        None => Ok(None),
    }
}
