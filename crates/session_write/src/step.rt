//! The objects of steps.
ghost use Rattle.std.specs.Prelude.{◌≡◌, ◌+◌, ◌<◌, ◌≤◌, [], ◌∷◌, All, Ok, OnOk, codes, length};
ghost use Rattle.serde_json.specs.Data.{string};
ghost use Rattle.bench_types.specs.Step.{IsCheckedStep, call_check, settings_of, step_check};
ghost use Rattle.session_write.specs.Tokens.{with_value};
ghost use Rattle.session_write.specs.Written.{call_data, object_with, pass_data, queue_interrupt_data, queue_interrupt_word, resume_interrupt_data, step_data, steps_data, task_name, whole};

use crate::caller::Caller;
use crate::notes::write_interrupt;
use crate::scribe::Scribe;
use bench_types::{Call, Direction, Header, Step};
use session_text::Format;
use std::alloc::AllocError;

pub(crate) fn write_steps(
    scribe: &mut Scribe,
    format: Format,
    header: &Header,
    steps: &[Step],
) -> Result<(), AllocError>
    requires { All (IsCheckedStep (settings_of header.now)) steps.now }
    ensures { OnOk result
        (scribe.new ≡ with_value (steps_data format header.now steps.now) scribe.old) }
{
    scribe.begin_array()?;
    for step in steps {
        write_step(scribe, format, header, step)?;
    }
    scribe.end_array()
}

fn write_step(
    scribe: &mut Scribe,
    format: Format,
    header: &Header,
    step: &Step,
) -> Result<(), AllocError>
    requires { step_check (settings_of header.now) step.now ≡ Ok tt }
    ensures { OnOk result
        (scribe.new ≡ with_value (step_data format header.now step.now) scribe.old) }
{
    match step {
        Step::Tick => write_tick(scribe),
        Step::Switch { core } => write_switch(scribe, *core),
        Step::Call { core, task, call } => {
            let caller = Caller {
                format,
                by: task_name(header, *task),
                core: *core,
            };
            write_call(scribe, header, &caller, *call)
        }
        Step::Interrupt { core, note } => {
            write_interrupt(scribe, format, *core, task_name(header, note.task), *note)
        }
        Step::QueueInterrupt {
            core,
            queue,
            direction,
        } => write_queue_interrupt(scribe, *core, *queue, *direction),
        Step::ResumeInterrupt { core, task } => {
            write_resume_interrupt(scribe, *core, task_name(header, *task))
        }
        Step::Pass { units } => write_pass(scribe, *units),
    }
}

fn write_tick(scribe: &mut Scribe) -> Result<(), AllocError>
    ensures { OnOk result
        (scribe.new
        ≡ with_value (object_with ((codes "do", string (codes "tick")) ∷ [])) scribe.old) }
{
    scribe.begin_object()?;
    scribe.text("do", "tick")?;
    scribe.end_object()
}

fn write_switch(scribe: &mut Scribe, core: u32) -> Result<(), AllocError>
    ensures { OnOk result
        (scribe.new
        ≡ with_value (object_with ((codes "core", whole core)
        ∷ (codes "do", string (codes "switch")) ∷ [])) scribe.old) }
{
    scribe.begin_object()?;
    scribe.whole("core", core)?;
    scribe.text("do", "switch")?;
    scribe.end_object()
}

fn queue_interrupt_word(direction: Direction) -> &'static str
    ensures { result.now ≡ queue_interrupt_word direction }
{
    match direction {
        Direction::Send => "isr_send",
        Direction::Receive => "isr_receive",
    }
}

fn write_queue_interrupt(
    scribe: &mut Scribe,
    core: u32,
    queue: u32,
    direction: Direction,
) -> Result<(), AllocError>
    ensures { OnOk result
        (scribe.new ≡ with_value (queue_interrupt_data core queue direction) scribe.old) }
{
    scribe.begin_object()?;
    scribe.whole("core", core)?;
    scribe.text("do", queue_interrupt_word(direction))?;
    scribe.whole("queue", queue)?;
    scribe.end_object()
}

fn write_resume_interrupt(scribe: &mut Scribe, core: u32, to: &str) -> Result<(), AllocError>
    ensures { OnOk result
        (scribe.new ≡ with_value (resume_interrupt_data core to.now) scribe.old) }
{
    scribe.begin_object()?;
    scribe.whole("core", core)?;
    scribe.text("do", "isr_resume")?;
    scribe.text("to", to)?;
    scribe.end_object()
}

fn write_pass(scribe: &mut Scribe, units: u32) -> Result<(), AllocError>
    ensures { OnOk result (scribe.new ≡ with_value (pass_data units) scribe.old) }
{
    scribe.begin_object()?;
    scribe.text("do", "pass")?;
    scribe.whole("units", units)?;
    scribe.end_object()
}

fn write_call(
    scribe: &mut Scribe,
    header: &Header,
    caller: &Caller<'_>,
    call: Call,
) -> Result<(), AllocError>
    requires { call_check (settings_of header.now) call ≡ Ok tt }
    ensures { OnOk result
        (scribe.new
        ≡ with_value (call_data caller.now.format header.now caller.now.by.now caller.now.core
        call) scribe.old) }
{
    match call {
        Call::Yield => caller.bare(scribe, "yield"),
        Call::Delay(ticks) => caller.delay(scribe, ticks),
        Call::DelayUntil { prev, inc } => caller.delay_until(scribe, prev, inc),
        Call::PrioritySet { task, priority } => {
            caller.priority_set(scribe, task_name(header, task), priority)
        }
        Call::AffinitySet { task, mask } => {
            caller.affinity_set(scribe, task_name(header, task), mask)
        }
        Call::PreemptOff(task) => caller.call_for(scribe, "preempt_off", task_name(header, task)),
        Call::PreemptOn(task) => caller.call_for(scribe, "preempt_on", task_name(header, task)),
        Call::Notify(note) => caller.notify(scribe, task_name(header, note.task), note),
        Call::NotifyWait {
            entry,
            exit,
            ticks,
            index,
        } => caller.wait(scribe, entry, exit, ticks, index),
        Call::NotifyTake {
            clear,
            ticks,
            index,
        } => caller.take(scribe, clear, ticks, index),
        Call::StateClear { task, index } => {
            caller.state_clear(scribe, task_name(header, task), index)
        }
        Call::ValueClear { task, bits, index } => {
            caller.value_clear(scribe, task_name(header, task), bits, index)
        }
        Call::MutexTake { mutex, ticks } => caller.mutex_take(scribe, mutex, ticks),
        Call::MutexGive(mutex) => caller.mutex_give(scribe, mutex),
        Call::QueueSend { queue, ticks } => caller.transfer(scribe, "queue_send", queue, ticks),
        Call::QueueReceive { queue, ticks } => {
            caller.transfer(scribe, "queue_receive", queue, ticks)
        }
        Call::Suspend(task) => caller.call_for(scribe, "suspend", task_name(header, task)),
        Call::Resume(task) => caller.call_for(scribe, "resume", task_name(header, task)),
        Call::Finish => caller.bare(scribe, "finish"),
        Call::HoldOpen => caller.bare(scribe, "hold_open"),
        Call::HoldClose => caller.bare(scribe, "hold_close"),
    }
}

fn task_name(header: &Header, task: u32) -> &str
    requires user { header.now.config.cores ≤ task }
    requires here { task < header.now.config.cores + length header.now.tasks }
    ensures { result.now ≡ task_name header.now task }
{
    let place = (task - header.config.cores) as usize;
    header.tasks.as_slice()[place].name.as_str()
}
