//! What a run tells of one step.
ghost use Rattle.std.specs.Prelude.{◌≡◌, ◌++◌, IfOk, OnOk, string_bytes};
ghost use Rattle.run_views.specs.StepWords.{step_text};
ghost use Rattle.run_comparisons.specs.Printed.{no_step, outcome_text, printed_of, printed_reply, task_part, tasks_part};

use bench_types::{Header, Reply, Step};
use run_views::{push_reply, push_step};
use std::alloc::{AllocError, Global};
use std::marker::Model;

/// A step in words, and what it led to.
#[derive(Drop)]
pub(crate) struct Printed {
    pub(crate) words: String,
    pub(crate) outcome: String,
}

impl Model for Printed {
    ghost use Rattle.std.specs.Prelude.{string_bytes};
    ghost use Rattle.run_comparisons.specs.Printed.{Words};

    ghost Value = { Words };

    ghost view = { λ printed.
        record { words = string_bytes printed.words; outcome = string_bytes printed.outcome } };
}

// The reply, in short where a code says all.
fn push_printed_reply(
    text: &mut String,
    header: &Header,
    step: Step,
    reply: Reply,
) -> Result<(), AllocError>
    ensures { OnOk result
        (string_bytes text.new ≡ string_bytes text.old ++ printed_reply header.now step reply) }
{
    match reply {
        Reply::Done => text.push_str("done"),
        Reply::Blocked => text.push_str("blocked"),
        _ => push_reply(text, header, step, reply),
    }
}

fn push_task(text: &mut String, header: &Header, task: u32) -> Result<(), AllocError>
    ensures { OnOk result
        (string_bytes text.new ≡ string_bytes text.old ++ task_part header.now task) }
{
    text.push_str(" ")?;
    header.push_name(text, task)
}

fn push_tasks(text: &mut String, header: &Header, tasks: &[u32]) -> Result<(), AllocError>
    ensures { OnOk result
        (string_bytes text.new ≡ string_bytes text.old ++ tasks_part header.now tasks.now) }
{
    for task in tasks {
        push_task(text, header, *task)?;
    }
    Ok(())
}

fn outcome_of(
    alloc: Global,
    header: &Header,
    step: Step,
    reply: Reply,
    tasks: &[u32],
) -> Result<String, AllocError>
    ensures { IfOk result
        (λ text. string_bytes text ≡ outcome_text header.now step reply tasks.now) }
{
    let mut text = String::new(alloc);
    push_printed_reply(&mut text, header, step, reply)?;
    text.push_str(";")?;
    push_tasks(&mut text, header, tasks)?;
    Ok(text)
}

fn words_of(alloc: Global, header: &Header, step: Step) -> Result<String, AllocError>
    ensures { IfOk result (λ text. string_bytes text ≡ step_text header.now step) }
{
    let mut text = String::new(alloc);
    push_step(&mut text, header, step)?;
    Ok(text)
}

/// What is told of a step, its reply and the tasks that run after it, core 0 first.
pub(crate) fn printed_of(
    alloc: Global,
    header: &Header,
    step: Step,
    reply: Reply,
    tasks: &[u32],
) -> Result<Printed, AllocError>
    ensures { IfOk result (λ printed. printed ≡ printed_of header.now step reply tasks.now) }
{
    let words = words_of(alloc, header, step)?;
    let outcome = outcome_of(alloc, header, step, reply, tasks)?;
    Ok(Printed { words, outcome })
}

/// What is told where there is no step.
pub(crate) fn no_step(alloc: Global) -> Printed
    ensures { result ≡ no_step }
{
    Printed {
        words: String::new(alloc),
        outcome: String::new(alloc),
    }
}
