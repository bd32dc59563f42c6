//! Changes and numbers in words.
ghost use Rattle.std.specs.Prelude.{◌≡◌, ◌++◌, OnOk, string_bytes};
ghost use Rattle.ranked_changes.specs.Changed.{IsHeaderChange};
ghost use Rattle.session_advice.specs.Words.{change_words, number_words, task_words, verdict_words};

use bench_types::{Header, MAX_STEPS};
use ranked_changes::{Change, Verdict, args_of};
use report_figures::change_of;
use std::alloc::{AllocError, Global};

/// Writes after the text what the change is, and what the task had before it.
#[tactic(auto, unfolding(crate::specs::Words::change_words))]
pub(crate) fn push_change(
    text: &mut String,
    header: &Header,
    change: Change,
) -> Result<(), AllocError>
    requires { IsHeaderChange header.now change }
    ensures { OnOk result
        (string_bytes text.new ≡ string_bytes text.old ++ change_words header.now change) }
{
    match change {
        Change::Priority { task, priority } => {
            let own = args_of(header, task).priority;
            push_numbers(text, header, "priority of ", task, priority, own)
        }
        Change::Mask { task, mask } => {
            let own = args_of(header, task).mask;
            push_numbers(text, header, "mask of ", task, mask, own)
        }
        Change::Order { first, second } => {
            write!(text, "calls at places {first} and {second} exchanged")
        }
    }
}

// What of a task is another number than its own.
fn push_numbers(
    text: &mut String,
    header: &Header,
    what: &str,
    task: u32,
    number: u32,
    own: u32,
) -> Result<(), AllocError>
    ensures { OnOk result
        (string_bytes text.new
        ≡ string_bytes text.old ++ task_words header.now what.now task number own) }
{
    text.push_str(what)?;
    header.push_name(text, task)?;
    write!(text, " {number}, was {own}")
}

/// Writes a number after the text, and how it differs from the one before.
#[tactic(auto, unfolding(crate::specs::Words::number_words))]
pub(crate) fn push_number(
    alloc: Global,
    text: &mut String,
    before: u64,
    after: u64,
) -> Result<(), AllocError>
    ensures { OnOk result
        (string_bytes text.new ≡ string_bytes text.old ++ number_words before after) }
{
    let change = change_of(alloc, before, after)?;
    write!(text, "{after} ({change})")
}

/// Writes after the text what was said of a session, where the number was this one before.
pub(crate) fn push_verdict(
    alloc: Global,
    text: &mut String,
    before: u64,
    verdict: Verdict,
) -> Result<(), AllocError>
    ensures { OnOk result
        (string_bytes text.new ≡ string_bytes text.old ++ verdict_words before verdict) }
{
    match verdict {
        Verdict::Number(after) => push_number(alloc, text, before, after),
        Verdict::TooLong => write!(text, "more than {MAX_STEPS} steps"),
    }
}
