//! A session's text, written token by token.
ghost use Rattle.std.specs.Prelude.{◌≡◌, [], ◌∷◌, OnOk, reverse};
ghost use Rattle.json.specs.Print.{print};
ghost use Rattle.json.specs.Token.{begin_array, begin_object, end_array, end_object, key};
ghost use Rattle.serde_json.specs.Data.{boolean, string};
ghost use Rattle.session_text.specs.NotifyAction.{action_number};
ghost use Rattle.session_write.specs.Tokens.{with_members, with_value};
ghost use Rattle.session_write.specs.Written.{index_member, members, units_member, value_member, whole};

use bench_types::NotifyAction;
use json::Writer;
use session_text::Format;
use std::alloc::{AllocError, Global};
use std::marker::Model;

/// Writes a JSON text. A clause sees its tokens, the last one first.
#[derive(Drop)]
pub(crate) struct Scribe {
    writer: Writer,
}

impl Model for Scribe {
    ghost use Rattle.std.specs.Prelude.{◌≡◌, List, [], reverse};
    ghost use Rattle.json.specs.Token.{Token, tokens_code};

    ghost Value = { List Token };

    ghost coded = { tokens_code };

    ghost view = { λ scribe. reverse scribe.writer.tokens };

    ghost invariant = { λ scribe. scribe.writer.before ≡ [] };
}

impl Scribe {
    pub(crate) fn new(alloc: Global) -> Scribe
        ensures { result ≡ [] }
    {
        Scribe {
            writer: Writer::new(Vec::new(alloc)),
        }
    }

    pub(crate) fn into_text(self) -> Vec<u8>
        ensures { result.items ≡ print (reverse self) }
    {
        let Scribe { writer } = self;
        writer.into_inner()
    }

    pub(crate) fn begin_object(&mut self) -> Result<(), AllocError>
        ensures { OnOk result (self.new ≡ begin_object ∷ self.old) }
    {
        self.writer.begin_object()
    }

    pub(crate) fn end_object(&mut self) -> Result<(), AllocError>
        ensures { OnOk result (self.new ≡ end_object ∷ self.old) }
    {
        self.writer.end_object()
    }

    pub(crate) fn begin_array(&mut self) -> Result<(), AllocError>
        ensures { OnOk result (self.new ≡ begin_array ∷ self.old) }
    {
        self.writer.begin_array()
    }

    pub(crate) fn end_array(&mut self) -> Result<(), AllocError>
        ensures { OnOk result (self.new ≡ end_array ∷ self.old) }
    {
        self.writer.end_array()
    }

    /// The name of the member whose value comes next.
    pub(crate) fn name(&mut self, name: &str) -> Result<(), AllocError>
        ensures { OnOk result (self.new ≡ key name.now ∷ self.old) }
    {
        self.writer.key(name)
    }

    pub(crate) fn text(&mut self, name: &str, text: &str) -> Result<(), AllocError>
        ensures { OnOk result
            (self.new ≡ with_value (string text.now) (key name.now ∷ self.old)) }
    {
        self.writer.key(name)?;
        self.writer.string(text)
    }

    pub(crate) fn whole(&mut self, name: &str, number: u32) -> Result<(), AllocError>
        ensures { OnOk result (self.new ≡ with_value (whole number) (key name.now ∷ self.old)) }
    {
        self.writer.key(name)?;
        self.writer.u64(u64::from(number))
    }

    pub(crate) fn flag(&mut self, name: &str, flag: bool) -> Result<(), AllocError>
        ensures { OnOk result (self.new ≡ with_value (boolean flag) (key name.now ∷ self.old)) }
    {
        self.writer.key(name)?;
        self.writer.boolean(flag)
    }

    /// How many units of time a tick has, where it has more than one.
    pub(crate) fn units(&mut self, units: u32) -> Result<(), AllocError>
        ensures { OnOk result (self.new ≡ with_members (members (units_member units)) self.old) }
    {
        if units == 1 {
            Ok(())
        } else {
            self.whole("units", units)
        }
    }

    /// The index of a notification, where the format has it.
    pub(crate) fn index(&mut self, format: Format, index: u32) -> Result<(), AllocError>
        ensures { OnOk result
            (self.new ≡ with_members (members (index_member format index)) self.old) }
    {
        match format {
            Format::One => Ok(()),
            Format::Two | Format::Three => self.whole("index", index),
        }
    }

    /// The number of the action, where it has one.
    pub(crate) fn value(&mut self, action: NotifyAction) -> Result<(), AllocError>
        ensures { OnOk result
            (self.new ≡ with_members (members (value_member (action_number action))) self.old) }
    {
        match action {
            NotifyAction::Nothing | NotifyAction::Increment => Ok(()),
            NotifyAction::SetBits(value) | NotifyAction::Set(value) | NotifyAction::SetNew(value) =>
                self.whole("value", value),
        }
    }
}
