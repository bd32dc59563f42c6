//! What clap answers to the words of a command line.
ghost use Rattle.std.specs.Prelude.{◌≡◌, IfOk, map, option_map};
ghost use Rattle.clap.specs.Words.{app_of};
ghost use Rattle.command_words.specs.Answered.{ParsesMistake, answered, answered_in, answered_in_words};
ghost use Rattle.command_words.specs.Taken.{HasTaken, IsProgram};

use crate::saying::{Saying, not_text, said_by};
use clap::{ArgMatches, Command};
use std::alloc::{AllocError, Global};
use std::convert::AsStr;

/// What clap answers.
#[derive(Drop)]
pub enum Parsed<'a> {
    /// It says this in place of a command.
    Said(Saying),
    /// It met a command.
    Met(ArgMatches<'a>),
}

fn answer_to<'a, S: AsStr>(
    alloc: Global,
    program: Command<'a>,
    words: &'a [S],
) -> Result<Parsed<'a>, AllocError>
    requires { IsProgram (app_of program) }
    ensures parsed { IfOk result
        (λ parsed. answered_in parsed
        ≡ answered_in_words (app_of program.entry) (map S.text words.entry.now)) }
    ensures taken { IfOk result (HasTaken (app_of program.entry)) }
    ensures mark { IfOk result ParsesMistake }
{
    match program.try_get_matches_from(words) {
        Ok(matches) => Ok(Parsed::Met(matches)),
        Err(error) => Ok(Parsed::Said(said_by(alloc, &error)?)),
    }
}

/// What clap answers to the words of a command line of the program, its name first, or to `None`
/// where one of them is no text.
pub fn parse_line<'a, S: AsStr>(
    alloc: Global,
    mut program: Command<'a>,
    words: Option<&'a [S]>,
) -> Result<Parsed<'a>, AllocError>
    requires { IsProgram (app_of program) }
    ensures parsed { IfOk result
        (λ parsed. answered_in parsed
        ≡ answered (app_of program.entry) (option_map (λ all. map S.text all.now) words.entry)) }
    ensures taken { IfOk result (HasTaken (app_of program.entry)) }
    ensures mark { IfOk result ParsesMistake }
{
    match words {
        Some(words) => answer_to(alloc, program, words),
        None => Ok(Parsed::Said(not_text(alloc, &mut program)?)),
    }
}
