//! What is told of a refused shape: the text that stands where a word has to, the word nearest to
//! it, and what a value is in place of a number. The nearest words were counted by hand.

use crate::expected::expect_same;
use crate::texts::sessions::{with_steps, with_two_queues};
use session_text::{Detail, Expected, Found, Shown, Stray, Words, read_session};
use std::alloc::Global;
use std::process::Abort;
use std::test::Fail;

/// What the text of a session is refused for.
fn detail_in(alloc: Global, text: &str) -> Result<Detail, Fail> {
    match read_session(alloc, text.as_bytes()) {
        Ok(_) => Err(Fail::from("the text is a session")),
        Err(fault) => Ok(fault.detail),
    }
}

/// What a step of a session with the tasks A and B is refused for.
fn detail_of(alloc: Global, step: &str) -> Result<Detail, Fail> {
    let text = with_steps(alloc, 0, step)?;
    detail_in(alloc, text.as_str())
}

/// The text that is told, the nearest word, and all words.
pub type Printed = (Option<&'static str>, Option<&'static str>, &'static str);

pub fn text_of(shown: &Shown) -> Option<&str> {
    match shown {
        Shown::Long => None,
        Shown::Text(text) => Some(text.as_str()),
    }
}

pub fn word_of(nearest: &Option<Words>) -> Option<&str> {
    match nearest {
        Some(word) => Some(word.as_str()),
        None => None,
    }
}

pub fn check_stray(rt: &impl Abort, stray: &Stray, printed: &Printed) {
    let (text, nearest, words) = *printed;
    expect_same(rt, &text_of(&stray.text), &text);
    expect_same(rt, &word_of(&stray.nearest), &nearest);
    expect_same(rt, &stray.words.as_str(), &words);
}

/// Steps with unknown members, of which the least is told.
const UNKNOWN: &[(&str, Printed)] = &[
    (
        "{\"do\":\"tick\",\"cord\":1}",
        (Some("cord"), Some("do"), "do"),
    ),
    (
        "{\"do\":\"switch\",\"core\":0,\"zebra\":1,\"b\":2}",
        (Some("b"), Some("do"), "core, do"),
    ),
    (
        "{\"do\":\"yield\",\"core\":0,\"by\":\"A\",\"b\\u0001\\u00e9\\\"\":0}",
        (Some("b???\""), Some("by"), "core, by, do"),
    ),
    // A name of 64 bytes, and one of 65.
    (
        "{\"do\":\"tick\",\"aaaaaaaaaaaaaaaaaaaaaaaaaaaaaaaaaaaaaaaaaaaaaaaaaaaaaaaaaaaaaaaa\":0}",
        (
            Some("aaaaaaaaaaaaaaaaaaaaaaaaaaaaaaaaaaaaaaaaaaaaaaaaaaaaaaaaaaaaaaaa"),
            Some("do"),
            "do",
        ),
    ),
    (
        "{\"do\":\"tick\",\"aaaaaaaaaaaaaaaaaaaaaaaaaaaaaaaaaaaaaaaaaaaaaaaaaaaaaaaaaaaaaaaaa\":0}",
        (None, None, "do"),
    ),
];

#[test]
fn unknown_members(rt: HostRuntime) -> Result<(), Fail> {
    for (step, printed) in UNKNOWN {
        match detail_of(rt.alloc(), step)? {
            Detail::Unknown(stray) => check_stray(&rt, &stray, printed),
            _ => return Err(Fail::from("a member is unknown")),
        }
    }
    Ok(())
}

const ACTIONS: &str = "none, set_bits, increment, set, set_new";

/// Actions that are none.
const NO_WORDS: &[(&str, Printed)] = &[
    ("inc", (Some("inc"), Some("none"), ACTIONS)),
    ("setbits", (Some("setbits"), Some("set_bits"), ACTIONS)),
    ("", (Some(""), Some("set"), ACTIONS)),
    ("SET", (Some("SET"), Some("set"), ACTIONS)),
    (
        "aaaaaaaaaaaaaaaaaaaaaaaaaaaaaaaaaaaaaaaaaaaaaaaaaaaaaaaaaaaaaaaaa",
        (None, None, ACTIONS),
    ),
];

#[test]
fn texts_that_are_no_words(rt: HostRuntime) -> Result<(), Fail> {
    for (word, printed) in NO_WORDS {
        let step = format!(in rt.alloc();
            "{{\"do\":\"isr_notify\",\"core\":0,\"to\":\"A\",\"action\":\"{word}\"}}"
        )?;
        match detail_of(rt.alloc(), step.as_str())? {
            Detail::NoWord(stray) => check_stray(&rt, &stray, printed),
            _ => return Err(Fail::from("the text is no word")),
        }
    }
    Ok(())
}

/// The words of `do` in format 3.
const KINDS: &str = "tick, switch, isr_notify, yield, delay, delay_until, priority_set, \
    affinity_set, preempt_off, preempt_on, notify, notify_wait, notify_take, state_clear, \
    value_clear, mutex_take, mutex_give, finish, hold_open, hold_close, queue_send, queue_receive, \
    isr_send, isr_receive, suspend, resume, isr_resume, pass";

/// Words of `do` that are none, each nearest to one that format 3 alone has.
const NO_KINDS: &[(&str, Printed)] = &[
    ("isr_sent", (Some("isr_sent"), Some("isr_send"), KINDS)),
    (
        "queue_recieve",
        (Some("queue_recieve"), Some("queue_receive"), KINDS),
    ),
];

#[test]
fn words_of_queues_that_are_none(rt: HostRuntime) -> Result<(), Fail> {
    for (word, printed) in NO_KINDS {
        let step = format!(in rt.alloc(); "{{\"do\":\"{word}\",\"core\":0,\"queue\":0}}")?;
        let text = with_two_queues(rt.alloc(), step.as_str())?;
        match detail_in(rt.alloc(), text.as_str())? {
            Detail::NoWord(stray) => check_stray(&rt, &stray, printed),
            _ => return Err(Fail::from("the text is no word")),
        }
    }
    Ok(())
}

/// Values in place of a number.
const FOUND: [(&str, Found); 11] = [
    ("null", Found::Null),
    ("-1", Found::Other),
    ("-0", Found::Other),
    ("1.0", Found::Other),
    ("1e0", Found::Other),
    ("18446744073709551616", Found::Other),
    ("4294967296", Found::Whole),
    ("\"0\"", Found::Text),
    ("true", Found::Flag),
    ("[0]", Found::Array),
    ("{}", Found::Object),
];

#[test]
fn values_that_are_no_numbers(rt: HostRuntime) -> Result<(), Fail> {
    for (value, what) in &FOUND {
        let step = format!(in rt.alloc(); "{{\"do\":\"switch\",\"core\":{value}}}")?;
        match detail_of(rt.alloc(), step.as_str())? {
            Detail::Wrong { expected, found } => {
                expect_same(&rt, &expected, &Expected::Number);
                expect_same(&rt, &found, what);
            }
            _ => return Err(Fail::from("a number is expected")),
        }
    }
    Ok(())
}
