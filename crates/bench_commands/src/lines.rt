//! The lines of a start, a step and an edit.
ghost use Rattle.std.specs.Prelude.{◌≡◌, ◌++◌, OnOk, codes, decimal, string_bytes};
ghost use Rattle.bench_types.specs.Header.{name_of};
ghost use Rattle.bench_commands.specs.Lines.{reply_text, row_text, answer_text, edit_line, AreLabels};
ghost use Rattle.program_io.specs.Refusal.{spaced};

use crate::labels::Labels;
use bench_types::{EditFault, Header, Reply};
use program_io::push_spaced;
use session_store::Outcome;
use std::alloc::AllocError;

fn push_reply(text: &mut String, reply: Reply) -> Result<(), AllocError>
    ensures { OnOk result (string_bytes text.new ≡ string_bytes text.old ++ reply_text reply) }
{
    match reply {
        Reply::Done => text.push_str("done"),
        Reply::Blocked => text.push_str("blocked"),
        Reply::Flag(flag) => write!(text, "{flag}"),
        Reply::Value(value) => write!(text, "value {value}"),
        Reply::Waited { ok, value } => write!(text, "waited {ok} {value}"),
        Reply::Until { delayed, wake } => write!(text, "until {delayed} {wake}"),
        Reply::Isr { pass, pend } => write!(text, "isr {pass} {pend}"),
        Reply::Refused(why) => {
            text.push_str("refused")?;
            push_spaced(text, why.code())
        }
    }
}

pub(crate) fn push_task(text: &mut String, header: &Header, task: u32) -> Result<(), AllocError>
    ensures { OnOk result
        (string_bytes text.new ≡ string_bytes text.old ++ spaced (name_of header.now task)) }
{
    text.push_str(" ")?;
    header.push_name(text, task)
}

/// What lines say of the row: the name of each task after a space.
pub(crate) fn push_row(
    text: &mut String,
    header: &Header,
    labels: &Labels,
    row: &[u32],
) -> Result<(), AllocError>
    requires { AreLabels header.now labels.now }
    ensures { OnOk result
        (string_bytes text.new ≡ string_bytes text.old ++ row_text header.now row.now) }
{
    for task in row {
        labels.push(text, header, *task)?;
    }
    Ok(())
}

/// The line of the start, with what lines say of its row.
pub(crate) fn push_start_line(text: &mut String, row: &str) -> Result<(), AllocError>
    ensures { OnOk result
        (string_bytes text.new
        ≡ string_bytes text.old ++ (codes "start" ++ row.now ++ codes "\n")) }
{
    text.push_str("start")?;
    text.push_str(row)?;
    text.push_str("\n")
}

/// The line of a step, with what lines say of the row after it.
pub(crate) fn push_step_line(
    text: &mut String,
    index: u32,
    reply: Reply,
    row: &str,
) -> Result<(), AllocError>
    ensures { OnOk result
        (string_bytes text.new
        ≡ string_bytes text.old
        ++ (decimal index ++ spaced (reply_text reply) ++ row.now ++ codes "\n")) }
{
    write!(text, "{index} ")?;
    push_reply(text, reply)?;
    text.push_str(row)?;
    text.push_str("\n")
}

fn push_answer(text: &mut String, answer: &Result<Outcome, EditFault>) -> Result<(), AllocError>
    ensures { OnOk result
        (string_bytes text.new ≡ string_bytes text.old ++ answer_text answer.now) }
{
    match answer {
        Ok(
            Outcome {
                from,
                met,
                replayed,
            },
        ) => write!(text, "from {from} met {met} replayed {replayed}"),
        Err(why) => {
            text.push_str("refused")?;
            push_spaced(text, why.code())
        }
    }
}

/// The line of an edit, by what it led to.
pub(crate) fn push_edit_line(
    text: &mut String,
    index: usize,
    answer: &Result<Outcome, EditFault>,
) -> Result<(), AllocError>
    ensures { OnOk result
        (string_bytes text.new ≡ string_bytes text.old ++ edit_line index answer.now) }
{
    write!(text, "edit {index} ")?;
    push_answer(text, answer)?;
    text.push_str("\n")
}
