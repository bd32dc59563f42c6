//! A reply in words: as the output of a replay writes it, and what it means.
ghost use Rattle.std.specs.Prelude.{◌≡◌, ◌++◌, OnOk, string_bytes, true, false};
ghost use Rattle.run_views.specs.ReplyWords.{caller_of, finish_meaning, flag_meaning, pass_meaning, pend_meaning, predicate, refusal_meaning, reply_words, step_flag_meaning, subject_of, subject_text, until_meaning, waited_meaning};

use bench_types::{Call, Direction, Header, Refusal, Reply, Step};
use std::alloc::AllocError;

fn caller_of(step: Step) -> u32
    ensures { result ≡ caller_of step }
{
    match step {
        Step::Call { task, .. } => task,
        Step::Tick
        | Step::Switch { .. }
        | Step::Interrupt { .. }
        | Step::QueueInterrupt { .. }
        | Step::ResumeInterrupt { .. }
        | Step::Pass { .. } => 0,
    }
}

// Of whom a refusal speaks.
#[derive(Clone, Copy)]
enum Subject {
    TheKernel,
    TheCore,
    TheCaller,
    AnotherTask,
}

fn subject_of(why: Refusal) -> Subject
    ensures { result ≡ subject_of why }
{
    match why {
        Refusal::Held => Subject::TheKernel,
        Refusal::SwitchDue | Refusal::NoHold | Refusal::HoldDeep | Refusal::NotDue => {
            Subject::TheCore
        }
        Refusal::Displaced | Refusal::InCall | Refusal::NotInCall | Refusal::HoldBlock => {
            Subject::TheCaller
        }
        Refusal::NotHolder => Subject::AnotherTask,
    }
}

fn push_subject(
    text: &mut String,
    header: &Header,
    core: u32,
    caller: u32,
    subject: Subject,
) -> Result<(), AllocError>
    ensures { OnOk result
        (string_bytes text.new
        ≡ string_bytes text.old ++ subject_text header.now core caller subject) }
{
    match subject {
        Subject::TheKernel => text.push_str("the kernel"),
        Subject::TheCore => write!(text, "core {core}"),
        Subject::TheCaller => header.push_name(text, caller),
        Subject::AnotherTask => text.push_str("another task"),
    }
}

fn predicate(why: Refusal) -> &'static str
    ensures { result.now ≡ predicate why }
{
    match why {
        Refusal::Held => " is held",
        Refusal::Displaced => " is not the current task of the core",
        Refusal::SwitchDue => " has to switch first",
        Refusal::InCall => " has an unfinished call to finish first",
        Refusal::NotInCall => " has no unfinished call",
        Refusal::HoldBlock => " would wait while it holds the kernel",
        Refusal::NoHold => " does not hold the kernel",
        Refusal::HoldDeep => " holds the kernel too many times over",
        Refusal::NotHolder => " holds the mutex",
        Refusal::NotDue => " is not due to switch",
    }
}

#[tactic(auto, unfolding(crate::specs::ReplyWords::refusal_meaning))]
fn push_refusal(
    text: &mut String,
    header: &Header,
    core: u32,
    caller: u32,
    why: Refusal,
) -> Result<(), AllocError>
    ensures { OnOk result
        (string_bytes text.new
        ≡ string_bytes text.old ++ refusal_meaning header.now core caller why) }
{
    push_subject(text, header, core, caller, subject_of(why))?;
    text.push_str(predicate(why))
}

fn either(flag: bool, yes: &'static str, no: &'static str) -> &'static str
    ensures yes { flag ≡ true → result.now ≡ yes.now }
    ensures no { flag ≡ false → result.now ≡ no.now }
{
    if flag { yes } else { no }
}

// What a yes or no of a call that was finished means: of a mutex, where there is nothing else to
// wait for.
fn finish_meaning(header: &Header, flag: bool) -> &'static str
    ensures { result.now ≡ finish_meaning header.now flag }
{
    if header.queues.is_some() {
        either(flag, "the call succeeded", "the call timed out")
    } else {
        either(
            flag,
            "the mutex was taken",
            "the mutex was not taken in time",
        )
    }
}

fn flag_meaning(header: &Header, call: Call, flag: bool) -> &'static str
    ensures { result.now ≡ flag_meaning header.now call flag }
{
    match call {
        Call::Notify(_) => either(
            flag,
            "the notification passed",
            "the notification did not pass",
        ),
        Call::StateClear { .. } => either(
            flag,
            "a notification had come",
            "no notification had come",
        ),
        Call::MutexTake { .. } => either(flag, "the mutex was taken", "the mutex was not taken"),
        Call::MutexGive(_) => either(flag, "the mutex was given", "nobody held the mutex"),
        Call::QueueSend { .. } => either(flag, "the message was sent", "the queue is full"),
        Call::QueueReceive { .. } => {
            either(flag, "a message was received", "the queue is empty")
        }
        Call::Finish => finish_meaning(header, flag),
        _ => either(flag, "yes", "no"),
    }
}

fn step_flag_meaning(header: &Header, step: Step, flag: bool) -> &'static str
    ensures { result.now ≡ step_flag_meaning header.now step flag }
{
    match step {
        Step::Call { call, .. } => flag_meaning(header, call, flag),
        Step::Tick
        | Step::Switch { .. }
        | Step::Interrupt { .. }
        | Step::QueueInterrupt { .. }
        | Step::ResumeInterrupt { .. }
        | Step::Pass { .. } => either(flag, "yes", "no"),
    }
}

fn waited_meaning(ok: bool) -> &'static str
    ensures { result.now ≡ waited_meaning ok }
{
    either(
        ok,
        ": a notification had come",
        ": no notification came in time",
    )
}

fn until_meaning(delayed: bool) -> &'static str
    ensures { result.now ≡ until_meaning delayed }
{
    either(
        delayed,
        ": the task waits until that tick count",
        ": that tick count is not ahead",
    )
}

fn pass_meaning(step: Step, pass: bool) -> &'static str
    ensures { result.now ≡ pass_meaning step pass }
{
    match step {
        Step::QueueInterrupt {
            direction: Direction::Send,
            ..
        } => either(pass, ": the message was sent", ": the queue is full"),
        Step::QueueInterrupt {
            direction: Direction::Receive,
            ..
        } => either(pass, ": a message was received", ": the queue is empty"),
        Step::ResumeInterrupt { .. } => either(
            pass,
            ": the task was suspended",
            ": the task was not suspended",
        ),
        _ => either(
            pass,
            ": the notification passed",
            ": the notification did not pass",
        ),
    }
}

fn pend_meaning(pend: bool) -> &'static str
    ensures { result.now ≡ pend_meaning pend }
{
    either(pend, ", and the core has to switch", "")
}

/// Writes the reply to the step, and what it means.
#[tactic(auto, unfolding(crate::specs::ReplyWords::reply_words))]
pub fn push_reply(
    text: &mut String,
    header: &Header,
    step: Step,
    reply: Reply,
) -> Result<(), AllocError>
    ensures { OnOk result
        (string_bytes text.new ≡ string_bytes text.old ++ reply_words header.now step reply) }
{
    match reply {
        Reply::Done => text.push_str("done: the step was made"),
        Reply::Blocked => text.push_str("blocked: the call was made, and its task waits"),
        Reply::Flag(flag) => {
            write!(text, "{flag}: ")?;
            text.push_str(step_flag_meaning(header, step, flag))
        }
        Reply::Value(value) => {
            write!(
                text,
                "value {value}: the notification value before the call"
            )
        }
        Reply::Waited { ok, value } => {
            write!(text, "waited {ok} {value}")?;
            text.push_str(waited_meaning(ok))
        }
        Reply::Until { delayed, wake } => {
            write!(text, "until {delayed} {wake}")?;
            text.push_str(until_meaning(delayed))
        }
        Reply::Isr { pass, pend } => {
            write!(text, "isr {pass} {pend}")?;
            text.push_str(pass_meaning(step, pass))?;
            text.push_str(pend_meaning(pend))
        }
        Reply::Refused(why) => {
            text.push_str("refused ")?;
            text.push_str(why.code())?;
            text.push_str(": ")?;
            push_refusal(text, header, step.core(), caller_of(step), why)
        }
    }
}
