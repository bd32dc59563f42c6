//! The objects of notifications.
#![tactic(auto, using(crate::proofs::Tokens::members_joined))]

ghost use Rattle.std.specs.Prelude.{◌≡◌, OnOk};
ghost use Rattle.session_write.specs.Tokens.{with_value};
ghost use Rattle.session_write.specs.Written.{action_word, interrupt_data, notify_data, state_clear_data, take_data, value_clear_data, wait_data};

use crate::caller::Caller;
use crate::scribe::Scribe;
use bench_types::{Note, NotifyAction};
use session_text::Format;
use std::alloc::AllocError;

fn action_word(action: NotifyAction) -> &'static str
    ensures { result.now ≡ action_word action }
{
    match action {
        NotifyAction::Nothing => "none",
        NotifyAction::SetBits(_) => "set_bits",
        NotifyAction::Increment => "increment",
        NotifyAction::Set(_) => "set",
        NotifyAction::SetNew(_) => "set_new",
    }
}

pub(crate) fn write_interrupt(
    scribe: &mut Scribe,
    format: Format,
    core: u32,
    to: &str,
    note: Note,
) -> Result<(), AllocError>
    ensures { OnOk result
        (scribe.new
        ≡ with_value (interrupt_data format core to.now note.action note.index) scribe.old) }
{
    scribe.begin_object()?;
    scribe.text("action", action_word(note.action))?;
    scribe.whole("core", core)?;
    scribe.text("do", "isr_notify")?;
    scribe.index(format, note.index)?;
    scribe.text("to", to)?;
    scribe.value(note.action)?;
    scribe.end_object()
}

impl Caller<'_> {
    pub(crate) fn notify(&self, scribe: &mut Scribe, to: &str, note: Note) -> Result<(), AllocError>
        ensures { OnOk result
            (scribe.new
            ≡ with_value (notify_data self.now.format self.now.by.now self.now.core to.now
            note.action note.index) scribe.old) }
    {
        scribe.begin_object()?;
        scribe.text("action", action_word(note.action))?;
        self.members(scribe, "notify")?;
        scribe.index(self.format, note.index)?;
        scribe.text("to", to)?;
        scribe.value(note.action)?;
        scribe.end_object()
    }

    pub(crate) fn wait(
        &self,
        scribe: &mut Scribe,
        entry: u32,
        exit: u32,
        ticks: u32,
        index: u32,
    ) -> Result<(), AllocError>
        ensures { OnOk result
            (scribe.new
            ≡ with_value (wait_data self.now.format self.now.by.now self.now.core entry exit ticks
            index) scribe.old) }
    {
        scribe.begin_object()?;
        self.members(scribe, "notify_wait")?;
        scribe.whole("entry", entry)?;
        scribe.whole("exit", exit)?;
        scribe.index(self.format, index)?;
        scribe.whole("ticks", ticks)?;
        scribe.end_object()
    }

    pub(crate) fn take(
        &self,
        scribe: &mut Scribe,
        clear: bool,
        ticks: u32,
        index: u32,
    ) -> Result<(), AllocError>
        ensures { OnOk result
            (scribe.new
            ≡ with_value (take_data self.now.format self.now.by.now self.now.core clear ticks
            index) scribe.old) }
    {
        scribe.begin_object()?;
        scribe.text("by", self.by)?;
        scribe.flag("clear", clear)?;
        scribe.whole("core", self.core)?;
        scribe.text("do", "notify_take")?;
        scribe.index(self.format, index)?;
        scribe.whole("ticks", ticks)?;
        scribe.end_object()
    }

    pub(crate) fn state_clear(
        &self,
        scribe: &mut Scribe,
        to: &str,
        index: u32,
    ) -> Result<(), AllocError>
        ensures { OnOk result
            (scribe.new
            ≡ with_value (state_clear_data self.now.format self.now.by.now self.now.core to.now
            index) scribe.old) }
    {
        scribe.begin_object()?;
        self.members(scribe, "state_clear")?;
        scribe.index(self.format, index)?;
        scribe.text("to", to)?;
        scribe.end_object()
    }

    pub(crate) fn value_clear(
        &self,
        scribe: &mut Scribe,
        to: &str,
        bits: u32,
        index: u32,
    ) -> Result<(), AllocError>
        ensures { OnOk result
            (scribe.new
            ≡ with_value (value_clear_data self.now.format self.now.by.now self.now.core to.now
            bits index) scribe.old) }
    {
        scribe.begin_object()?;
        scribe.whole("bits", bits)?;
        self.members(scribe, "value_clear")?;
        scribe.index(self.format, index)?;
        scribe.text("to", to)?;
        scribe.end_object()
    }
}
