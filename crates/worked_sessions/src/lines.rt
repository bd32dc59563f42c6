//! The lines of replies and tasks.
use bench_types::{Header, Reply};
use std::alloc::AllocError;

pub(crate) fn push_reply(text: &mut String, reply: Reply) -> Result<(), AllocError> {
    match reply {
        Reply::Done => text.push_str("done"),
        Reply::Blocked => text.push_str("blocked"),
        Reply::Flag(flag) => write!(text, "{flag}"),
        Reply::Value(value) => write!(text, "value {value}"),
        Reply::Waited { ok, value } => write!(text, "waited {ok} {value}"),
        Reply::Until { delayed, wake } => write!(text, "until {delayed} {wake}"),
        Reply::Isr { pass, pend } => write!(text, "isr {pass} {pend}"),
        Reply::Refused(why) => write!(text, "refused {}", why.code()),
    }
}

/// The name of the task after a blank.
pub(crate) fn push_task(text: &mut String, header: &Header, task: u32) -> Result<(), AllocError> {
    text.push_str(" ")?;
    header.push_name(text, task)
}
