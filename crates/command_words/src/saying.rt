//! What clap says in place of a command.
ghost use Rattle.std.specs.Prelude.{◌≡◌, IfOk, IfSome, IsErr, string_bytes};
ghost use Rattle.clap.specs.Words.{kind_of};
ghost use Rattle.clap.specs.declared.error.kind.ErrorKind.TheVariants.{OutOfMemory};
ghost use Rattle.command_words.specs.Asking.{class_of, mistakes};
ghost use Rattle.command_words.specs.Said.{IsMistake, SaysMistake, SaysText, class_in, mistake_text};

use clap::error::ErrorKind;
use clap::{Command, Error};
use std::alloc::{AllocError, Global};
use std::fmt::Display;

/// What a text says first that tells what is wrong with the words.
const MARK: &str = "error: ";

/// What clap says in place of a command. The texts are its own.
#[derive(Debug, Drop)]
pub enum Saying {
    /// This help, which is asked for.
    Help(String),
    /// The version is asked for.
    Version,
    /// What is wrong with the words. It begins with `error: `.
    Mistake(String),
}

// The text of an error, which begins with the mark: as it is where it has that, and else after it.
fn mistake_text<E: Display>(alloc: Global, error: &E) -> Result<String, AllocError>
    ensures text { IfOk result
        (λ text. IfSome (E.output error.now) (λ told. string_bytes text ≡ mistake_text told)) }
    ensures mark { IfOk result (λ text. IsMistake (string_bytes text)) }
{
    let text = error.to_string(alloc)?;
    let is_marked = text.as_bytes().starts_with(MARK.as_bytes());
    if is_marked {
        return Ok(text);
    }
    let mut marked = String::from_str(alloc, MARK)?;
    marked.push_str(text.as_str())?;
    Ok(marked)
}

// What an error of this kind says, whatever its text is. Want of memory says nothing.
fn said_of_kind<E: Display>(alloc: Global, kind: ErrorKind, error: &E) -> Result<Saying, AllocError>
    ensures class { IfOk result (λ said. class_in said ≡ class_of kind) }
    ensures text { IfOk result (SaysText (E.output error.now)) }
    ensures mark { IfOk result SaysMistake }
    ensures memory { kind ≡ OutOfMemory → IsErr result }
{
    match kind {
        ErrorKind::OutOfMemory => Err(AllocError),
        ErrorKind::DisplayHelp => Ok(Saying::Help(error.to_string(alloc)?)),
        ErrorKind::DisplayVersion => Ok(Saying::Version),
        _ => Ok(Saying::Mistake(mistake_text(alloc, error)?)),
    }
}

// What clap says by its error. Want of memory is none.
pub(crate) fn said_by(alloc: Global, error: &Error) -> Result<Saying, AllocError>
    ensures class { IfOk result (λ said. class_in said ≡ class_of (kind_of error.now)) }
    ensures mark { IfOk result SaysMistake }
    ensures memory { kind_of error.now ≡ OutOfMemory → IsErr result }
{
    said_of_kind(alloc, error.kind(), error)
}

// The refusal of words that are no text, which clap is never given.
pub(crate) fn not_text(alloc: Global, command: &mut Command<'_>) -> Result<Saying, AllocError>
    ensures class { IfOk result (λ said. class_in said ≡ mistakes) }
    ensures mark { IfOk result SaysMistake }
{
    let error = command.error(
        ErrorKind::InvalidValue,
        "invalid UTF-8 was detected in one or more arguments",
    )?;
    said_by(alloc, &error)
}
