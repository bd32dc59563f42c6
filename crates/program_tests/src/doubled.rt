//! Documents in which a member stands twice: what people are told of each, and that the rest is as
//! the last one says.
use crate::devices::{Sink, expect_same};
use bench_commands::carry_out;
use program_io::Counted;
use std::process::Abort;
use std::sync::Wait;
use std::thread::Threads;

/// Runs the program with the word over the input, and asks how it ends.
fn check_ended<R: Threads + Wait + Abort + Sync>(
    rt: &R,
    host: &HostRuntime,
    word: &str,
    input: &str,
    code: u8,
    output: &str,
    message: &str,
) {
    let mut sink = Sink::wide();
    let mut reader = Counted::new(input.as_bytes());
    let mut writer = Counted::new(&mut sink);
    let words: Option<&[&str]> = Some(&["smp_bench", word]);
    let ending = carry_out(rt, host, host.alloc(), words, &mut reader, &mut writer);
    expect_same(rt, word, ending.code(), code);
    expect_same(rt, word, ending.message(), message.as_bytes());
    sink.expect(rt, output);
}

/// A step has its core twice, in the third line.
const SESSION: &str =
    "{\"format\": 1, \"cores\": 2, \"priorities\": 5, \"slicing\": false, \"tick\": 0, \"mutexes\": 0,
\"tasks\": [{\"name\": \"A\", \"priority\": 2, \"mask\": 3}, {\"name\": \"B\", \"priority\": 1, \"mask\": 3}],
\"steps\": [{\"do\": \"yield\", \"core\": 0, \"by\": \"B\", \"core\": 1}]}";

const CORE_TWICE: &str =
    "the member \"core\" stands twice, and the last one counts: line 3, column 49\n";

const REPLAYED: &str = "start A B\n0 done A B\n";

/// Its edit has its place twice, and there is none there.
const BENCH: &str = "{\"session\": {\"format\": 1, \"cores\": 2, \"priorities\": 5, \
    \"slicing\": false, \"tick\": 0, \"mutexes\": 0, \"tasks\": [\
    {\"name\": \"A\", \"priority\": 2, \"mask\": 3}], \"steps\": [{\"do\": \"tick\"}, {\"do\": \"tick\"}]},
\"edits\": [{\"edit\": \"remove\", \"at\": 1, \"at\": 7}]}";

const AT_TWICE: &str = "the member \"at\" stands twice, and the last one counts: line 2, column 39
edit 0 refused J1: the session has 2 steps
";

/// A member stands twice, and one is missing.
const REFUSED: &str = "{\"format\": 1, \"format\": 1}";

const REFUSED_TOLD: &str =
    "the member \"format\" stands twice, and the last one counts: line 1, column 15
cores: this member is missing (line 1, column 1)
";

/// The same, but it is no JSON.
const NO_JSON: &str = "{\"format\": 1, \"format\": 1";

#[test]
fn sessions(rt: HostRuntime) {
    for (word, input, code, output, message) in [
        ("replay", SESSION, 0, REPLAYED, CORE_TWICE),
        ("whatif", BENCH, 0, "edit 0 refused J1\n", AT_TWICE),
        (
            "replay",
            BENCH,
            0,
            "edit 0 refused J1\nstart A IDLE0\n0 done A IDLE0\n1 done A IDLE0\n",
            AT_TWICE,
        ),
        ("replay", REFUSED, 1, "refused H2 cores\n", REFUSED_TOLD),
        ("whatif", REFUSED, 1, "refused H2 cores\n", REFUSED_TOLD),
        (
            "replay",
            NO_JSON,
            1,
            "refused H1\n",
            "not JSON: line 1, column 25\n",
        ),
    ] {
        check_ended(&rt, &rt, word, input, code, output, message);
    }
}

/// A rig that has its limit twice.
const RIG: &str = "{\"limit\": 0, \"limit\": 9, \"session\": {\"format\": 1, \"cores\": 2, \
    \"priorities\": 5, \"slicing\": false, \"tick\": 0, \"mutexes\": 0, \"tasks\": [\
    {\"name\": \"A\", \"priority\": 2, \"mask\": 1}], \"steps\": []}, \
    \"scripts\": [[{\"do\": \"yield\"}], []]}";

const RECORDED: &str = "{\"cores\":2,\"format\":1,\"mutexes\":0,\"priorities\":5,\
    \"slicing\":false,\"steps\":[{\"by\":\"A\",\"core\":0,\"do\":\"yield\"}],\"tasks\":[\
    {\"mask\":1,\"name\":\"A\",\"priority\":2}],\"tick\":0}\n";

#[test]
fn rigs(rt: HostRuntime) {
    let twice = "the member \"limit\" stands twice, and the last one counts: line 1, column 14\n";
    check_ended(&rt, &rt, "record", RIG, 0, RECORDED, twice);
    check_ended(
        &rt,
        &rt,
        "record",
        "{\"limit\": 1, \"limit\": 2}",
        1,
        "refused H2 session\n",
        "the member \"limit\" stands twice, and the last one counts: line 1, column 14\n\
        session: this member is missing (line 1, column 1)\n",
    );
}
