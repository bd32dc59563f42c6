//! A JSON text as serde_json reads it.
ghost use Rattle.std.specs.Prelude.{◌≡◌, ◌≢◌, true, false, is_some, option_map, Some, None, Err, IfOk};
ghost use Rattle.std.specs.Str.{IsUtf8};
ghost use Rattle.json.specs.Lex.{tokens};
ghost use Rattle.serde_json.specs.Read.{max_depth, read};
ghost use Rattle.json_data.specs.Doubled.{first_doubled, key_of};
ghost use Rattle.json_data.specs.Reading.{are_in_range, data_at};
ghost use Rattle.json_data.specs.Refusal.{refusal_of, IsTape, MayLackMemory};
ghost use Rattle.json_data.specs.declared.document.Refused.TheVariants.{NoMemory, NotJson};

use crate::doubled::{Doubled, Passed, passed_value};
use crate::item::Item;
use crate::range::are_in_range;
use json::{Error, Scratch, Tape};
use std::alloc::{AllocError, Global};
use thiserror::Error as ErrorText;

/// Why there is no document of a text.
#[derive(Clone, Copy, Debug, PartialEq, Eq, Hash, ErrorText)]
pub enum Refused {
    /// The bytes are no UTF-8, or serde_json reads no value from them.
    #[error("no JSON")]
    NotJson,
    /// Memory was refused; so is a text of 4 GiB or more.
    #[error("out of memory")]
    NoMemory,
}

impl From<Error> for Refused {
    ghost from_gives = { λ error refused. refused ≡ refusal_of error };

    fn from(error: Error) -> Refused {
        match error {
            Error::Invalid => Refused::NotJson,
            _ => Refused::NoMemory,
        }
    }
}

/// A text that serde_json reads. Clauses see what it reads.
#[derive(Drop)]
pub struct Document<'a> {
    tape: Tape<'a>,
    ghost valid: { is_some (data_at tape) ≡ true },
}

impl<'a> Document<'a> {
    ghost use Rattle.json_data.specs.View.{document_view, tokens_view, view};

    /// Reads a text. The scratch is for its strings; one can serve many texts, one after another.
    pub fn parse(
        alloc: Global,
        bytes: &'a [u8],
        scratch: &'a mut Scratch,
    ) -> Result<Document<'a>, Refused>
        ensures ok { IfOk result
            (λ document. IsUtf8 bytes.now × (read bytes.now ≡ Some (document_view document))) }
        ensures tokens { IfOk result (λ document. tokens_view document ≡ tokens bytes.now) }
        ensures refused { result ≡ Err NotJson → IsUtf8 bytes.now → read bytes.now ≡ None }
        ensures memory { result ≡ Err NoMemory
            → IsUtf8 bytes.now × MayLackMemory scratch.old bytes.now }
    {
        match simdutf8::compat::from_utf8(bytes) {
            Ok(text) => Document::of_text(alloc, text, scratch),
            Err(_) => Err(Refused::NotJson),
        }
    }

    fn of_text(
        alloc: Global,
        text: &'a str,
        scratch: &'a mut Scratch,
    ) -> Result<Document<'a>, Refused>
        ensures ok { IfOk result (λ document. read text.now ≡ Some (document_view document)) }
        ensures tokens { IfOk result (λ document. tokens_view document ≡ tokens text.now) }
        ensures refused { result ≡ Err NotJson → read text.now ≡ None }
        ensures memory { result ≡ Err NoMemory → MayLackMemory scratch.old text.now }
    {
        let tape = Tape::parse(text, scratch, Vec::new(alloc))?;
        Document::of_tape(tape)
    }

    /// The document of a text's tape. It takes no memory.
    fn of_tape(tape: Tape<'a>) -> Result<Document<'a>, Refused>
        requires { IsTape tape }
        ensures ok { IfOk result
            (λ document. (tokens_view document ≡ tape.entry)
            × (are_in_range max_depth tape.entry ≡ true)) }
        ensures refused { result ≡ Err NotJson → are_in_range max_depth tape.entry ≡ false }
        ensures no_memory { result ≢ Err NoMemory }
    {
        if are_in_range(tape.nodes()) {
            Ok(Document { tape })
        } else {
            Err(Refused::NotJson)
        }
    }

    /// The whole value.
    pub fn root(&self) -> Item<'_, 'a>
        ensures { view result ≡ document_view self.now }
    {
        Item::new(self.tape.root())
    }

    /// The first member, in the order of the text, whose name an earlier member of its object has
    /// too. It passes each token once.
    pub fn doubled(&self, alloc: Global) -> Result<Option<Doubled<'a>>, AllocError>
        ensures { IfOk result
            (λ found. option_map key_of found ≡ first_doubled (tokens_view self.now)) }
    {
        let whole = passed_value(alloc, self.tape.nodes(), 0)?;
        match whole {
            Passed::Twice(doubled) => Ok(Some(doubled)),
            Passed::Next(_) => Ok(None),
        }
    }
}
