//! A step in the words of a document.
ghost use Rattle.std.specs.Prelude.{◌≡◌, ◌++◌, OnOk, codes, string_bytes};
ghost use Rattle.run_views.specs.StepWords.{action_text, call_members, call_word, clear_text, core_text, index_text, interrupt_word, note_text, number_text, step_text, task_text, to_text};

use bench_types::{Call, Direction, Header, Note, NotifyAction, Step};
use std::alloc::AllocError;

fn push_number(text: &mut String, member: &str, n: u32) -> Result<(), AllocError>
    ensures { OnOk result
        (string_bytes text.new ≡ string_bytes text.old ++ number_text member.now n) }
{
    write!(text, " {member} {n}")
}

fn push_task(text: &mut String, header: &Header, member: &str, task: u32) -> Result<(), AllocError>
    ensures { OnOk result
        (string_bytes text.new ≡ string_bytes text.old ++ task_text header.now member.now task) }
{
    write!(text, " {member} ")?;
    header.push_name(text, task)
}

fn push_to(text: &mut String, header: &Header, task: u32) -> Result<(), AllocError>
    ensures { OnOk result
        (string_bytes text.new ≡ string_bytes text.old ++ to_text header.now task) }
{
    push_task(text, header, "to", task)
}

/// Writes the index of a notification, where each task has more than one.
pub(crate) fn push_index(text: &mut String, header: &Header, index: u32) -> Result<(), AllocError>
    ensures { OnOk result
        (string_bytes text.new ≡ string_bytes text.old ++ index_text header.now index) }
{
    if header.config.notes == 1 {
        Ok(())
    } else {
        push_number(text, "index", index)
    }
}

fn push_clear(text: &mut String, clear: bool) -> Result<(), AllocError>
    ensures { OnOk result (string_bytes text.new ≡ string_bytes text.old ++ clear_text clear) }
{
    write!(text, " clear {clear}")
}

fn push_action(text: &mut String, action: NotifyAction) -> Result<(), AllocError>
    ensures { OnOk result (string_bytes text.new ≡ string_bytes text.old ++ action_text action) }
{
    match action {
        NotifyAction::Nothing => text.push_str(" action none"),
        NotifyAction::SetBits(bits) => write!(text, " action set_bits value {bits}"),
        NotifyAction::Increment => text.push_str(" action increment"),
        NotifyAction::Set(value) => write!(text, " action set value {value}"),
        NotifyAction::SetNew(value) => write!(text, " action set_new value {value}"),
    }
}

fn push_note(text: &mut String, header: &Header, note: Note) -> Result<(), AllocError>
    ensures { OnOk result
        (string_bytes text.new ≡ string_bytes text.old ++ note_text header.now note) }
{
    push_to(text, header, note.task)?;
    push_action(text, note.action)?;
    push_index(text, header, note.index)
}

fn call_word(call: Call) -> &'static str
    ensures { result.now ≡ call_word call }
{
    match call {
        Call::Yield => "yield",
        Call::Delay(_) => "delay",
        Call::DelayUntil { .. } => "delay_until",
        Call::PrioritySet { .. } => "priority_set",
        Call::AffinitySet { .. } => "affinity_set",
        Call::PreemptOff(_) => "preempt_off",
        Call::PreemptOn(_) => "preempt_on",
        Call::Notify(_) => "notify",
        Call::NotifyWait { .. } => "notify_wait",
        Call::NotifyTake { .. } => "notify_take",
        Call::StateClear { .. } => "state_clear",
        Call::ValueClear { .. } => "value_clear",
        Call::MutexTake { .. } => "mutex_take",
        Call::MutexGive(_) => "mutex_give",
        Call::QueueSend { .. } => "queue_send",
        Call::QueueReceive { .. } => "queue_receive",
        Call::Suspend(_) => "suspend",
        Call::Resume(_) => "resume",
        Call::Finish => "finish",
        Call::HoldOpen => "hold_open",
        Call::HoldClose => "hold_close",
    }
}

fn push_members(text: &mut String, header: &Header, call: Call) -> Result<(), AllocError>
    ensures { OnOk result
        (string_bytes text.new ≡ string_bytes text.old ++ call_members header.now call) }
{
    match call {
        Call::Yield | Call::Finish | Call::HoldOpen | Call::HoldClose => Ok(()),
        Call::Delay(ticks) => push_number(text, "ticks", ticks),
        Call::DelayUntil { prev, inc } => write!(text, " prev {prev} inc {inc}"),
        Call::PrioritySet { task, priority } => {
            push_to(text, header, task)?;
            push_number(text, "priority", priority)
        }
        Call::AffinitySet { task, mask } => {
            push_to(text, header, task)?;
            push_number(text, "mask", mask)
        }
        Call::PreemptOff(task) | Call::PreemptOn(task) | Call::Suspend(task) | Call::Resume(task) =>
            push_to(text, header, task),
        Call::StateClear { task, index } => {
            push_to(text, header, task)?;
            push_index(text, header, index)
        }
        Call::Notify(note) => push_note(text, header, note),
        Call::NotifyWait {
            entry,
            exit,
            ticks,
            index,
        } => {
            write!(text, " entry {entry} exit {exit} ticks {ticks}")?;
            push_index(text, header, index)
        }
        Call::NotifyTake {
            clear,
            ticks,
            index,
        } => {
            push_clear(text, clear)?;
            push_number(text, "ticks", ticks)?;
            push_index(text, header, index)
        }
        Call::ValueClear { task, bits, index } => {
            push_to(text, header, task)?;
            push_number(text, "bits", bits)?;
            push_index(text, header, index)
        }
        Call::MutexTake { mutex, ticks } => write!(text, " mutex {mutex} ticks {ticks}"),
        Call::MutexGive(mutex) => push_number(text, "mutex", mutex),
        Call::QueueSend { queue, ticks } | Call::QueueReceive { queue, ticks } => {
            write!(text, " queue {queue} ticks {ticks}")
        }
    }
}

fn interrupt_word(direction: Direction) -> &'static str
    ensures { result.now ≡ interrupt_word direction }
{
    match direction {
        Direction::Send => "isr_send",
        Direction::Receive => "isr_receive",
    }
}

/// Writes the step: what it does, and its members in their order, each with its name.
#[tactic(auto, unfolding(crate::specs::StepWords::step_text))]
pub fn push_step(text: &mut String, header: &Header, step: Step) -> Result<(), AllocError>
    ensures { OnOk result
        (string_bytes text.new ≡ string_bytes text.old ++ step_text header.now step) }
{
    match step {
        Step::Tick => text.push_str("tick"),
        Step::Switch { core } => write!(text, "switch core {core}"),
        Step::Call { core, task, call } => {
            text.push_str(call_word(call))?;
            push_number(text, "core", core)?;
            push_task(text, header, "by", task)?;
            push_members(text, header, call)
        }
        Step::Interrupt { core, note } => {
            write!(text, "isr_notify core {core}")?;
            push_note(text, header, note)
        }
        Step::QueueInterrupt {
            core,
            queue,
            direction,
        } => {
            text.push_str(interrupt_word(direction))?;
            push_number(text, "core", core)?;
            push_number(text, "queue", queue)
        }
        Step::ResumeInterrupt { core, task } => {
            write!(text, "isr_resume core {core}")?;
            push_to(text, header, task)
        }
        Step::Pass { units } => write!(text, "pass units {units}"),
    }
}
