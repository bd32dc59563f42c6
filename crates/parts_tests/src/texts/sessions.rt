//! Sessions as texts.
ghost use Rattle.std.specs.Prelude.{◌≡◌, IfOk, Ok};
ghost use Rattle.bench_types.specs.Header.{header_check};
ghost use Rattle.bench_types.specs.Session.{IsSession};

use bench_types::{Header, Step};
use session_text::read_session;
use std::alloc::{AllocError, Global};
use std::test::Fail;

/// A session of two tasks and five steps.
pub const SESSION: &str =
    "{\"format\":1,\"cores\":2,\"priorities\":5,\"slicing\":false,\"tick\":0,\"mutexes\":0,\"tasks\":[{\"name\":\"A\",\"priority\":2,\"mask\":3},{\"name\":\"B\",\"priority\":1,\"mask\":3}],\"steps\":[{\"do\":\"tick\"},{\"do\":\"switch\",\"core\":1},{\"do\":\"yield\",\"core\":0,\"by\":\"A\"},{\"do\":\"delay\",\"core\":0,\"by\":\"A\",\"ticks\":7},{\"do\":\"finish\",\"core\":1,\"by\":\"B\"}]}";

/// A session with so many mutexes and these steps.
pub fn with_steps(alloc: Global, mutexes: u32, steps: &str) -> Result<String, AllocError> {
    format!(in alloc;
        "{{\"format\":1,\"cores\":2,\"priorities\":5,\"slicing\":false,\"tick\":0,\"mutexes\":{mutexes},\"tasks\":[{{\"name\":\"A\",\"priority\":2,\"mask\":3}},{{\"name\":\"B\",\"priority\":1,\"mask\":3}}],\"steps\":[{steps}]}}"
    )
}

/// A session of format 2 of so many notifications a task and these steps.
pub fn with_notes(alloc: Global, notes: u32, steps: &str) -> Result<String, AllocError> {
    format!(in alloc;
        "{{\"format\":2,\"cores\":2,\"priorities\":5,\"slicing\":false,\"tick\":0,\"mutexes\":0,\"notes\":{notes},\"tasks\":[{{\"name\":\"A\",\"priority\":2,\"mask\":3}},{{\"name\":\"B\",\"priority\":1,\"mask\":3}}],\"steps\":[{steps}]}}"
    )
}

/// A session of format 3 of two queues and these steps.
pub fn with_two_queues(alloc: Global, steps: &str) -> Result<String, AllocError> {
    format!(in alloc;
        "{{\"format\":3,\"cores\":2,\"priorities\":5,\"slicing\":false,\"tick\":0,\"mutexes\":0,\"notes\":1,\"queues\":[{{\"length\":2,\"messages\":1}},{{\"length\":1,\"messages\":0}}],\"tasks\":[{{\"name\":\"A\",\"priority\":2,\"mask\":3}},{{\"name\":\"B\",\"priority\":1,\"mask\":3}}],\"steps\":[{steps}]}}"
    )
}

/// A session of this format, with these members beside those of format 1 and `notes`, and of these
/// steps.
pub fn with_further(
    alloc: Global,
    format: u32,
    further: &str,
    steps: &str,
) -> Result<String, AllocError> {
    format!(in alloc;
        "{{\"format\":{format},\"cores\":2,\"priorities\":5,\"slicing\":false,\"tick\":0,\"mutexes\":0,\"notes\":1,{further},\"tasks\":[{{\"name\":\"A\",\"priority\":2,\"mask\":3}},{{\"name\":\"B\",\"priority\":1,\"mask\":3}}],\"steps\":[{steps}]}}"
    )
}

/// The session that the text is.
pub fn session_of(alloc: Global, text: &str) -> Result<(Header, Vec<Step>), Fail>
    ensures { IfOk result
        (λ session. IsSession (record { header = session.0; steps = session.1.items })) }
{
    match read_session(alloc, text.as_bytes()) {
        Ok(session) => Ok(session),
        Err(_) => Err(Fail::from("the text is a session")),
    }
}

/// The header of a session with so many mutexes.
pub fn header_with(alloc: Global, mutexes: u32) -> Result<Header, Fail>
    ensures { IfOk result (λ header. header_check header ≡ Ok tt) }
{
    let session = with_steps(alloc, mutexes, "")?;
    let (header, _) = session_of(alloc, session.as_str())?;
    Ok(header)
}
