//! A session is read from a text, and written as one.
ghost use Rattle.std.specs.Prelude.{◌≡◌, IfOk, Ok};
ghost use Rattle.bench_types.specs.Session.{IsSession};
ghost use Rattle.session_text.specs.Session.{session};

use bench_types::{Header, Step};
use session_text::{TextFault, read_session};
use session_write::write_session;
use std::alloc::{AllocError, Global};
use std::test::Fail;

/// A waits for one tick, and its core switches away from it and back.
pub(crate) const SESSION: &str = r#"{"format":1,"cores":2,"priorities":3,"slicing":false,"tick":0,
"mutexes":0,
"tasks":[{"name":"A","priority":2,"mask":3},{"name":"B","priority":1,"mask":3}],
"steps":[{"do":"delay","core":0,"by":"A","ticks":1},{"do":"switch","core":0},
{"do":"tick"},{"do":"switch","core":0}]}"#;

/// Reads a session: its header and its steps, or the first fault with its path.
pub(crate) fn session_of(alloc: Global, text: &str) -> Result<(Header, Vec<Step>), TextFault>
    ensures { IfOk result (λ read. IsSession (record { header = read.0; steps = read.1.items })) }
{
    read_session(alloc, text.as_bytes())
}

/// Writes a session as the one text that is its own.
fn text_of(alloc: Global, header: &Header, steps: &[Step]) -> Result<Vec<u8>, AllocError>
    requires { IsSession (record { header = header.now; steps = steps.now }) }
    ensures { IfOk result (λ text. session text.items ≡ Ok (header.now, steps.now)) }
{
    write_session(alloc, header, steps)
}

#[test]
fn a_text_is_read_and_written(rt: HostRuntime) -> Result<(), Fail> {
    let (header, steps) = session_of(rt.alloc(), SESSION)?;
    let text = text_of(rt.alloc(), &header, steps.as_slice())?;
    let begin = b"{\"cores\":2,\"format\":1,\"mutexes\":0,\"priorities\":3,";
    assert!(rt; text.as_slice().starts_with(begin.as_slice()));
    Ok(())
}
