//! What people are told of a document in which an object has a member twice.
ghost use Rattle.std.specs.Prelude.{◌≡◌, IfOk, string_bytes};
ghost use Rattle.json.specs.Lex.{tokens};
ghost use Rattle.json_data.specs.Doubled.{doubled_in_text};
ghost use Rattle.json_data.specs.View.{tokens_view};
ghost use Rattle.session_text.specs.Noted.{doubled_view};
ghost use Rattle.program_io.specs.Twice.{key_line, twice_note, twice_note_of_refused, warned};

use crate::output::Output;
use json_data::{Document, Refused, Scratch};
use session_text::DoubledMember;
use std::alloc::{AllocError, Global};
use text_locations::{doubled_line, location_of_token};

// The line of the member of this name, whose key is at this token.
fn key_line(alloc: Global, document: &[u8], name: &str, token: usize) -> Result<String, AllocError>
    ensures { IfOk result (λ line. string_bytes line
        ≡ key_line document.now (record { token = token; name = name.now })) }
{
    doubled_line(alloc, name, location_of_token(document, token))
}

/// The line that a member of the document stands twice, or nothing where none does. It is given the
/// document's first one.
#[tactic(auto, unfolding(crate::specs::Twice::twice_note))]
pub fn twice_note(
    alloc: Global,
    document: &[u8],
    doubled: Option<DoubledMember>,
) -> Result<String, AllocError>
    requires { doubled_view doubled ≡ doubled_in_text document.now }
    ensures { IfOk result (λ note. string_bytes note ≡ twice_note document.now) }
{
    match doubled {
        Some(member) => key_line(alloc, document, member.name.as_str(), member.token),
        None => Ok(String::new(alloc)),
    }
}

// The same of a text that was read as JSON.
#[tactic(auto, unfolding(crate::specs::Twice::twice_note))]
fn twice_note_of_json(
    alloc: Global,
    text: &[u8],
    document: &Document<'_>,
) -> Result<String, AllocError>
    requires { tokens_view document.now ≡ tokens text.now }
    ensures { IfOk result (λ note. string_bytes note ≡ twice_note text.now) }
{
    match document.doubled(alloc)? {
        Some(member) => key_line(alloc, text, member.name, member.token),
        None => Ok(String::new(alloc)),
    }
}

/// The same of a text that is refused. It is read once more, so a text that is not refused takes
/// nothing for it.
pub fn twice_note_of_refused(alloc: Global, text: &[u8]) -> Result<String, AllocError>
    ensures { IfOk result (λ note. string_bytes note ≡ twice_note_of_refused text.now) }
{
    let mut scratch = Scratch::new(alloc);
    match Document::parse(alloc, text, &mut scratch) {
        Ok(document) => twice_note_of_json(alloc, text, &document),
        Err(Refused::NotJson) => Ok(String::new(alloc)),
        Err(Refused::NoMemory) => Err(AllocError),
    }
}

/// The same is told, and these lines before its note.
pub fn warned(printed: Output, lines: String) -> Result<Output, AllocError>
    ensures { IfOk result (λ output. output ≡ warned (string_bytes lines) printed) }
{
    let Output { status, text, note } = printed;
    let mut lines = lines.into_bytes();
    lines.extend_from_slice(note.as_slice())?;
    Ok(Output {
        status,
        text,
        note: lines,
    })
}
