//! The objects of calls.
ghost use Rattle.std.specs.Prelude.{◌≡◌, [], ◌∷◌, codes, OnOk};
ghost use Rattle.serde_json.specs.Data.{string};
ghost use Rattle.session_write.specs.Tokens.{with_members, with_value};
ghost use Rattle.session_write.specs.Written.{affinity_data, bare_call, call_for, delay_data, delay_until_data, members, mutex_give_data, mutex_take_data, priority_data, transfer_data, whole};

use crate::scribe::Scribe;
use session_text::Format;
use std::alloc::AllocError;

/// A task that makes a call on a core, with the format for what is written of it.
#[derive(Clone, Copy)]
pub(crate) struct Caller<'a> {
    pub(crate) format: Format,
    pub(crate) by: &'a str,
    pub(crate) core: u32,
}

impl Caller<'_> {
    /// The members that most calls have.
    pub(crate) fn members(&self, scribe: &mut Scribe, word: &str) -> Result<(), AllocError>
        ensures { OnOk result
            (scribe.new
            ≡ with_members (members ((codes "by", string self.now.by.now)
            ∷ (codes "core", whole self.now.core)
            ∷ (codes "do", string word.now) ∷ [])) scribe.old) }
    {
        scribe.text("by", self.by)?;
        scribe.whole("core", self.core)?;
        scribe.text("do", word)
    }

    /// A call of which its word is all that is said.
    pub(crate) fn bare(&self, scribe: &mut Scribe, word: &str) -> Result<(), AllocError>
        ensures { OnOk result
            (scribe.new
            ≡ with_value (bare_call self.now.by.now self.now.core word.now) scribe.old) }
    {
        scribe.begin_object()?;
        self.members(scribe, word)?;
        scribe.end_object()
    }

    /// The same, for the task of the other name.
    pub(crate) fn call_for(
        &self,
        scribe: &mut Scribe,
        word: &str,
        to: &str,
    ) -> Result<(), AllocError>
        ensures { OnOk result
            (scribe.new
            ≡ with_value (call_for self.now.by.now self.now.core word.now to.now) scribe.old) }
    {
        scribe.begin_object()?;
        self.members(scribe, word)?;
        scribe.text("to", to)?;
        scribe.end_object()
    }

    pub(crate) fn delay(&self, scribe: &mut Scribe, ticks: u32) -> Result<(), AllocError>
        ensures { OnOk result
            (scribe.new ≡ with_value (delay_data self.now.by.now self.now.core ticks) scribe.old) }
    {
        scribe.begin_object()?;
        self.members(scribe, "delay")?;
        scribe.whole("ticks", ticks)?;
        scribe.end_object()
    }

    pub(crate) fn delay_until(
        &self,
        scribe: &mut Scribe,
        prev: u32,
        inc: u32,
    ) -> Result<(), AllocError>
        ensures { OnOk result
            (scribe.new
            ≡ with_value (delay_until_data self.now.by.now self.now.core prev inc) scribe.old) }
    {
        scribe.begin_object()?;
        self.members(scribe, "delay_until")?;
        scribe.whole("inc", inc)?;
        scribe.whole("prev", prev)?;
        scribe.end_object()
    }

    pub(crate) fn priority_set(
        &self,
        scribe: &mut Scribe,
        to: &str,
        priority: u32,
    ) -> Result<(), AllocError>
        ensures { OnOk result
            (scribe.new
            ≡ with_value (priority_data self.now.by.now self.now.core to.now priority)
            scribe.old) }
    {
        scribe.begin_object()?;
        self.members(scribe, "priority_set")?;
        scribe.whole("priority", priority)?;
        scribe.text("to", to)?;
        scribe.end_object()
    }

    pub(crate) fn affinity_set(
        &self,
        scribe: &mut Scribe,
        to: &str,
        mask: u32,
    ) -> Result<(), AllocError>
        ensures { OnOk result
            (scribe.new
            ≡ with_value (affinity_data self.now.by.now self.now.core to.now mask) scribe.old) }
    {
        scribe.begin_object()?;
        self.members(scribe, "affinity_set")?;
        scribe.whole("mask", mask)?;
        scribe.text("to", to)?;
        scribe.end_object()
    }

    pub(crate) fn mutex_take(
        &self,
        scribe: &mut Scribe,
        mutex: u32,
        ticks: u32,
    ) -> Result<(), AllocError>
        ensures { OnOk result
            (scribe.new
            ≡ with_value (mutex_take_data self.now.by.now self.now.core mutex ticks) scribe.old) }
    {
        scribe.begin_object()?;
        self.members(scribe, "mutex_take")?;
        scribe.whole("mutex", mutex)?;
        scribe.whole("ticks", ticks)?;
        scribe.end_object()
    }

    pub(crate) fn mutex_give(&self, scribe: &mut Scribe, mutex: u32) -> Result<(), AllocError>
        ensures { OnOk result
            (scribe.new
            ≡ with_value (mutex_give_data self.now.by.now self.now.core mutex) scribe.old) }
    {
        scribe.begin_object()?;
        self.members(scribe, "mutex_give")?;
        scribe.whole("mutex", mutex)?;
        scribe.end_object()
    }

    /// A call by which a message goes into a queue or out of it.
    pub(crate) fn transfer(
        &self,
        scribe: &mut Scribe,
        word: &str,
        queue: u32,
        ticks: u32,
    ) -> Result<(), AllocError>
        ensures { OnOk result
            (scribe.new
            ≡ with_value (transfer_data self.now.by.now self.now.core word.now queue ticks)
            scribe.old) }
    {
        scribe.begin_object()?;
        self.members(scribe, word)?;
        scribe.whole("queue", queue)?;
        scribe.whole("ticks", ticks)?;
        scribe.end_object()
    }
}
