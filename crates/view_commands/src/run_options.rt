//! How the options of a command say that runs are made.
ghost use Rattle.std.specs.Prelude.{◌≡◌, is_some};
ghost use Rattle.clap.specs.Words.{found_of, rows_of};
ghost use Rattle.view_commands.specs.CommandLine.{fault_text};
ghost use Rattle.view_commands.specs.Options.{AreTaken};
ghost use Rattle.view_commands.specs.RunOptions.{keep_work_in, kept_in, order_in, order_of, plain_in, runs_in, settle_in, ties_in};

use crate::request::SessionRuns;
use clap::ArgMatches;
use kept_runs::CallOrder;

// What is told where a command line has both ways to make other runs than those that are written.
const TWO_WAYS: &str = "error: --settle and --keep-work are two ways to make runs: take one

For more information, try '--help'.
";

// What is told where ties are named, and no run keeps work.
const LONE_TIES: &str = "error: --ties is for --keep-work

For more information, try '--help'.
";

// What is told where a word names no order of calls.
const NO_ORDER: &str = "error: --ties takes oldest or core

For more information, try '--help'.
";

/// Why options don't say how runs are made.
#[derive(Clone, Copy, Debug, PartialEq, Eq)]
pub(crate) enum RunsFault {
    /// They name two ways.
    TwoWays,
    /// They say which calls come first, and not that runs keep work.
    LoneTies,
    /// A word names no order of calls.
    NoOrder,
}

impl RunsFault {
    /// What is told of it.
    pub(crate) fn text(self) -> &'static str
        ensures { result.now ≡ fault_text self }
    {
        match self {
            RunsFault::TwoWays => TWO_WAYS,
            RunsFault::LoneTies => LONE_TIES,
            RunsFault::NoOrder => NO_ORDER,
        }
    }
}

fn settle_in(options: &ArgMatches) -> bool
    requires { AreTaken (rows_of (found_of options.now)) }
    ensures { result ≡ settle_in (rows_of (found_of options.now)) }
{
    options.get_flag("settle")
}

fn keep_work_in(options: &ArgMatches) -> bool
    requires { AreTaken (rows_of (found_of options.now)) }
    ensures { result ≡ keep_work_in (rows_of (found_of options.now)) }
{
    options.get_flag("keep-work")
}

fn has_ties(options: &ArgMatches) -> bool
    ensures { result ≡ is_some (ties_in (rows_of (found_of options.now))) }
{
    options.get_str("ties").is_some()
}

fn order_of(word: &str) -> Option<CallOrder>
    ensures { result ≡ order_of word.now }
{
    if word == "oldest" {
        return Some(CallOrder::Oldest);
    }
    if word == "core" {
        return Some(CallOrder::LeastCore);
    }
    None
}

fn order_in(options: &ArgMatches) -> Option<CallOrder>
    ensures { result ≡ order_in (rows_of (found_of options.now)) }
{
    match options.get_str("ties") {
        Some(word) => order_of(word),
        None => Some(CallOrder::Oldest),
    }
}

// The runs that are shown where none keeps work.
fn plain_in(name: &str, options: &ArgMatches) -> SessionRuns
    requires { AreTaken (rows_of (found_of options.now)) }
    ensures { result ≡ plain_in name.now (rows_of (found_of options.now)) }
{
    if name == "settle" || settle_in(options) {
        return SessionRuns::Settled;
    }
    SessionRuns::AsWritten
}

// The runs that keep work.
fn kept_in(options: &ArgMatches) -> Result<SessionRuns, RunsFault>
    requires { AreTaken (rows_of (found_of options.now)) }
    ensures { result ≡ kept_in (rows_of (found_of options.now)) }
{
    if settle_in(options) {
        return Err(RunsFault::TwoWays);
    }
    match order_in(options) {
        Some(order) => Ok(SessionRuns::Kept(order)),
        None => Err(RunsFault::NoOrder),
    }
}

/// How the command of this name with these options makes the runs of sessions.
pub(crate) fn runs_in(name: &str, options: &ArgMatches) -> Result<SessionRuns, RunsFault>
    requires { AreTaken (rows_of (found_of options.now)) }
    ensures { result ≡ runs_in name.now (rows_of (found_of options.now)) }
{
    if keep_work_in(options) {
        return kept_in(options);
    }
    if has_ties(options) {
        return Err(RunsFault::LoneTies);
    }
    Ok(plain_in(name, options))
}
