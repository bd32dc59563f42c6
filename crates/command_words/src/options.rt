//! What clap is told of options and of a program.
ghost use Rattle.std.specs.Prelude.{◌≡◌};
ghost use Rattle.clap.specs.Words.{app_of, rule_of};
ghost use Rattle.command_words.specs.Printed.{flag_rule, option_rule, program_app};

use clap::{Arg, ArgAction, Command};
use std::alloc::Global;

/// The flag of this name.
pub fn flag<'a>(alloc: Global, name: &'a str) -> Arg<'a>
    ensures { rule_of result ≡ flag_rule name.entry.now }
{
    Arg::new(alloc, name).long(name).action(ArgAction::SetTrue)
}

/// The option of this name, whose value help calls so.
pub fn option<'a>(alloc: Global, name: &'a str, value: &'a str) -> Arg<'a>
    ensures { rule_of result ≡ option_rule name.entry.now }
{
    Arg::new(alloc, name).long(name).value_name(value)
}

/// The program of this name, which wants a command. Help for one of them is asked for by its
/// `--help`, so `help` is no command.
pub fn program<'a>(alloc: Global, name: &'a str) -> Command<'a>
    ensures { app_of result ≡ program_app name.entry.now }
{
    Command::new(alloc, name)
        .disable_help_subcommand(true)
        .subcommand_required(true)
}
