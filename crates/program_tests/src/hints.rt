//! Inputs that are no documents: what people are told of each, beside its refusal line.
use crate::devices::{Sink, expect, expect_same};
use bench_commands::carry_out;
use program_io::{Counted, Ending, Prompting};
use std::alloc::AllocError;
use std::cell::Cell;
use std::io::{self, Read, Write};
use std::process::Abort;
use std::sync::Wait;
use std::test::Fail;
use std::thread::Threads;

/// How the program ends with the word and this input.
fn ended<R: Threads + Wait + Sync>(
    rt: &R,
    host: &HostRuntime,
    word: &str,
    input: &[u8],
    sink: &mut Sink,
) -> Ending {
    let mut reader = Counted::new(input);
    let mut writer = Counted::new(sink);
    let words: Option<&[&str]> = Some(&["smp_bench", word]);
    carry_out(rt, host, host.alloc(), words, &mut reader, &mut writer)
}

/// Asks that the input is refused, and that the line begins so.
fn check_printed<R: Threads + Wait + Abort + Sync>(
    rt: &R,
    host: &HostRuntime,
    word: &str,
    input: &[u8],
    line: &str,
) {
    let mut sink = Sink::wide();
    let ending = ended(rt, host, word, input, &mut sink);
    expect_same(rt, line, ending.code(), 1);
    expect(rt, line, ending.message().starts_with(line.as_bytes()));
    expect(rt, line, sink.taken().starts_with(b"refused "));
}

#[test]
fn inputs_that_are_no_documents(rt: HostRuntime) {
    for word in ["replay", "whatif", "record"] {
        check_printed(&rt, &rt, word, b"", "not JSON: line 1, column 0\n");
        check_printed(&rt, &rt, word, b"\"\xff\"", "not JSON: not UTF-8\n");
        check_printed(
            &rt,
            &rt,
            word,
            b"[]",
            "top: expected an object, found an array (line 1, column 1)\n",
        );
    }
}

/// Documents that name a task which is none, by the word that reads them, and what is told.
const NO_TASK: &[(&str, &str, &str)] = &[
    (
        "replay",
        "{\"format\":1,\"cores\":2,\"priorities\":5,\"slicing\":false,\"tick\":0,\"mutexes\":0,\"tasks\":[{\"name\":\"logger\",\"priority\":2,\"mask\":3},{\"name\":\"control\",\"priority\":2,\"mask\":3}],\"steps\":[{\"do\":\"yield\",\"core\":0,\"by\":\"contrl\"}]}",
        "steps[0]: no user task is named \"contrl\"; the nearest name is \"control\"",
    ),
    (
        "whatif",
        "{\"session\":{\"format\":1,\"cores\":2,\"priorities\":5,\"slicing\":false,\"tick\":0,\"mutexes\":0,\"tasks\":[{\"name\":\"A\",\"priority\":2,\"mask\":3}],\"steps\":[]},\"edits\":[{\"edit\":\"change\",\"task\":\"aaaaaaaaaaaaaaaaaaaaaaaaaaaaaaaaaaaaaaaaaaaaaaaaaaaaaaaaaaaaaaaaa\",\"priority\":1,\"mask\":1}]}",
        "edits[0]: no user task has that long name",
    ),
    (
        "record",
        "{\"session\":{\"format\":1,\"cores\":2,\"priorities\":5,\"slicing\":false,\"tick\":0,\"mutexes\":0,\"tasks\":[{\"name\":\"A\",\"priority\":2,\"mask\":3}],\"steps\":[]},\"limit\":1,\"scripts\":[[],[{\"do\":\"preempt_on\",\"to\":\"C\"}]]}",
        "scripts[1][0]: no user task is named \"C\"; the nearest name is \"A\"",
    ),
];

#[test]
fn names_of_no_task(rt: HostRuntime) {
    for (word, input, line) in NO_TASK {
        check_printed(&rt, &rt, word, input.as_bytes(), line);
    }
}

/// Texts of many lines, and the lines and columns from which on they are no JSON, as serde_json
/// counts: the line feeds before the byte that is none, of which a return is no part, and the bytes
/// after the last of them.
const MANY_LINES: &[(&str, &str)] = &[
    ("{\n\"format\": 1,\nx}", "not JSON: line 3, column 1\n"),
    (
        "{\r\n\"format\": 1,\r\n\r\n  x}\r\n",
        "not JSON: line 4, column 3\n",
    ),
    (
        "[\n\n\n\n\n\n\n\n\n\n1\n 2]",
        "not JSON: line 12, column 2\n",
    ),
    ("{\r\n\r\n", "not JSON: line 3, column 0\n"),
    ("[\r\r\r x]", "not JSON: line 1, column 6\n"),
    ("{}\n{}", "not JSON: line 2, column 1\n"),
];

/// Asks that people are told this message of the input, and no more.
fn check_message<R: Threads + Wait + Abort + Sync>(
    rt: &R,
    host: &HostRuntime,
    word: &str,
    input: &str,
    message: &str,
) {
    let mut sink = Sink::wide();
    let ending = ended(rt, host, word, input.as_bytes(), &mut sink);
    expect_same(rt, input, ending.message(), message.as_bytes());
}

#[test]
fn faults_of_many_lines(rt: HostRuntime) {
    for (input, message) in MANY_LINES {
        for word in ["replay", "whatif", "record"] {
            check_message(&rt, &rt, word, input, message);
        }
    }
}

/// Texts of many lines that are JSON, and the places of their faults, by hand: the line feeds
/// before the value that the path names, or before the object that lacks it, and the bytes after
/// the last of them.
const MANY_LINES_OF_JSON: &[(&str, &str, &str)] = &[
    (
        "replay",
        "\r\n \t[\"\\\"\"]\n",
        "top: expected an object, found an array (line 2, column 3)\n",
    ),
    (
        "replay",
        "{\"edits\": [{\"}\": \"{\"}], \"session\":\n[],\n\"session\": {\"format\"\n:  4}}",
        "the member \"session\" stands twice, and the last one counts: line 3, column 1\n\
        session.format: expected 1, 2 or 3 (line 4, column 4)\n",
    ),
    (
        "record",
        "{\"limit\": 1,\n\"session\": {\n\"cores\": 2}}",
        "session.format: this member is missing (line 2, column 12)\n",
    ),
    (
        "replay",
        "{\"format\":1,\"cores\":2,\"priorities\":2,\"slicing\":true,\"tick\":0,\"mutexes\":0,\n\
        \"tasks\":[{\"name\":\"\u{e9}\",\"priority\":true}]}",
        "tasks[0].priority: expected a whole number from 0 to 4294967295, found true or false \
        (line 2, column 34)\n",
    ),
];

#[test]
fn faults_of_many_lines_of_json(rt: HostRuntime) {
    for (word, input, message) in MANY_LINES_OF_JSON {
        check_message(&rt, &rt, word, input, message);
    }
}

/// A bench document whose header has these lines, and one task.
fn bench_with(rt: &HostRuntime, lines: &str, task: &str) -> Result<String, AllocError> {
    format!(in rt.alloc();
        "{{\"edits\":[],\"session\":{{\"format\":2,\"slicing\":true,\"tick\":0,\"steps\":[],\n\
        {lines},\n\"tasks\":[{{\"name\":\"A\",\"priority\":1,\"mask\":2}}{task}]}}}}"
    )
}

const GOOD: &str = "\"cores\":2,\"priorities\":2,\n\"mutexes\":0,\"notes\":1";

/// Headers in bench documents, and the places of the members for which they are not accepted.
const HEADERS: &[(&str, &str, &str)] = &[
    (
        "\"cores\":2,\"priorities\":0,\n\"mutexes\":0,\"notes\":1",
        "",
        "header: priorities is 0, and may be 1 to 32 (line 2, column 24)\n",
    ),
    (
        "\"cores\":2,\"priorities\":2,\n\"mutexes\":40,\"notes\":1",
        "",
        "header: mutexes is 40, and may be 0 to 32 (line 3, column 11)\n",
    ),
    (
        "\"cores\":2,\"priorities\":2,\n\"mutexes\":0,\"notes\":9",
        "",
        "header: notes is 9, and may be 1 to 8 (line 3, column 21)\n",
    ),
    (
        GOOD,
        ",{\"priority\":1,\"mask\":2,\n\"name\":\"\"}",
        "header: tasks[1].name has to be 1 to 15 characters from ! to ~, and not begin with IDLE \
        (line 5, column 8)\n",
    ),
    (
        GOOD,
        ",\n{\"name\":\"B\",\"priority\":2,\"mask\":2}",
        "header: tasks[1].priority has to be below 2 (line 5, column 24)\n",
    ),
    (
        GOOD,
        ",\n{\"name\":\"B\",\"priority\":1,\"mask\":4}",
        "header: tasks[1].mask has to have a bit below bit 2 (line 5, column 33)\n",
    ),
    (
        GOOD,
        ",\n{\"name\":\"A\",\"priority\":1,\"mask\":2}",
        "header: tasks[0].name is that of another task too (line 4, column 18)\n",
    ),
];

#[test]
fn headers_of_many_lines(rt: HostRuntime) -> Result<(), Fail> {
    for (lines, task, message) in HEADERS {
        let input = bench_with(&rt, lines, task)?;
        check_message(&rt, &rt, "replay", input.as_str(), message);
    }
    Ok(())
}

/// Runs the program with the word and an empty input, which may be a terminal.
fn prompted<R: Threads + Wait + Sync>(
    rt: &R,
    host: &HostRuntime,
    word: &str,
    is_terminal: bool,
    errors: &mut Sink,
) {
    let mut sink = Sink::wide();
    let mut reader = Counted::new(Prompting::new("".as_bytes(), errors, is_terminal));
    let mut writer = Counted::new(&mut sink);
    let words: Option<&[&str]> = Some(&["smp_bench", word]);
    let _ending = carry_out(rt, host, host.alloc(), words, &mut reader, &mut writer);
}

const PROMPT: &str = "Reading a JSON document from the terminal, to the end of input (Ctrl-D)\n";

/// A terminal is told of the first read of it, and only of that.
#[test]
fn terminals(rt: HostRuntime) {
    for (word, is_terminal, printed) in [
        ("replay", true, PROMPT),
        ("replay", false, ""),
        ("record", true, PROMPT),
        ("--help", true, ""),
        ("again", true, ""),
    ] {
        let mut errors = Sink::wide();
        prompted(&rt, &rt, word, is_terminal, &mut errors);
        errors.expect(&rt, printed);
    }
}

/// What a terminal shows, by how many bytes were written there.
#[derive(Drop)]
struct Screen<'a> {
    written: &'a Cell<usize>,
}

impl Write for Screen<'_> {
    fn write(&mut self, buf: &[u8]) -> io::Result<usize> {
        self.written
            .set(self.written.get().saturating_add(buf.len()));
        Ok(buf.len())
    }

    fn flush(&mut self) -> io::Result<()> {
        Ok(())
    }
}

/// Gives a byte at a read, and looks at each of the first three reads how much the screen shows.
#[derive(Drop)]
struct Keyboard<'a> {
    text: &'static [u8],
    screen: &'a Cell<usize>,
    reads: usize,
    seen: [usize; 3],
}

impl Read for Keyboard<'_> {
    fn read(&mut self, buf: &mut [u8]) -> io::Result<usize> {
        if let Some(seen) = self.seen.get_mut(self.reads) {
            *seen = self.screen.get();
        }
        self.reads = self.reads.saturating_add(1);
        let count = self.text.len().min(buf.len()).min(1);
        buf[..count].copy_from_slice(&self.text[..count]);
        self.text = &self.text[count..];
        Ok(count)
    }
}

/// The prompt stands there before the first read, and nothing is written between that and the last.
#[test]
fn a_terminal_is_printed_before_it_is_read(rt: HostRuntime) {
    for (is_terminal, shown) in [(true, PROMPT.len()), (false, 0)] {
        check_order(&rt, &rt, is_terminal, shown);
    }
}

fn check_order<R: Threads + Wait + Abort + Sync>(
    rt: &R,
    host: &HostRuntime,
    is_terminal: bool,
    shown: usize,
) {
    let screen = Cell::new(0);
    let mut keyboard = Keyboard {
        text: b"[]",
        screen: &screen,
        reads: 0,
        seen: [0; 3],
    };
    type_document(
        rt,
        host,
        &mut keyboard,
        Screen { written: &screen },
        is_terminal,
    );
    expect_same(rt, "reads", keyboard.reads, 3);
    expect_same(rt, "bytes on the screen", keyboard.seen, [shown; 3]);
}

/// Replays what is typed, which may be at a terminal.
fn type_document<R: Threads + Wait + Sync>(
    rt: &R,
    host: &HostRuntime,
    keyboard: &mut Keyboard<'_>,
    screen: Screen<'_>,
    is_terminal: bool,
) {
    let mut sink = Sink::wide();
    let mut reader = Counted::new(Prompting::new(keyboard, screen, is_terminal));
    let mut writer = Counted::new(&mut sink);
    let words: Option<&[&str]> = Some(&["smp_bench", "replay"]);
    let _ending = carry_out(rt, host, host.alloc(), words, &mut reader, &mut writer);
}
