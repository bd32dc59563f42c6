//! What is known of a fault beside its code and its place.
ghost use Rattle.std.specs.Prelude.{◌≡◌, ◌++◌, codes, flat_map, map, string_bytes, IfOk, OnOk};
ghost use Rattle.json_data.specs.View.{view};
ghost use Rattle.session_text.specs.Detail.{found_of, listed};

use crate::nearest::{Shown, Stray};
use crate::path::Path;
use bench_types::{HeaderFlaw, StepFlaw};
use json_data::Item;
use std::alloc::{AllocError, Global};
use std::marker::Model;

/// Words or names, one after another, as a text.
#[derive(Debug, Drop)]
pub struct Words {
    text: String,
}

impl Model for Words {
    ghost use Rattle.std.specs.Prelude.{List, ℕ, string_bytes};

    ghost Value = { List ℕ };

    ghost view = { λ words. string_bytes words.text };
}

impl Words {
    /// The words with a comma and a space between them.
    pub(crate) fn listed(alloc: Global, words: &[&str]) -> Result<Words, AllocError>
        ensures { IfOk result
            (λ text. text ≡ listed (map (λ word. word.now) words.now)) }
    {
        let mut text = String::new(alloc);
        match words {
            [] => Ok(Words { text }),
            [first, others @ ..] => {
                text.push_str(first)?;
                push_others(&mut text, others)?;
                Ok(Words { text })
            }
        }
    }

    /// Words that are one text already.
    pub(crate) fn of(text: String) -> Words
        ensures { result ≡ string_bytes text }
    {
        Words { text }
    }

    pub fn as_str(&self) -> &str
        ensures { result.now ≡ self.now }
    {
        self.text.as_str()
    }
}

fn push_others(text: &mut String, words: &[&str]) -> Result<(), AllocError>
    ensures { OnOk result
        (string_bytes text.new
        ≡ string_bytes text.old ++ flat_map (λ word. codes ", " ++ word.now) words.now) }
{
    for word in words {
        text.push_str(", ")?;
        text.push_str(word)?;
    }
    Ok(())
}

/// What a value has to be.
#[derive(Clone, Copy, Debug, PartialEq, Eq)]
pub enum Expected {
    /// A whole number from 0 to 4294967295, written without point and exponent.
    Number,
    Text,
    /// `true` or `false`.
    Flag,
    Array,
    Object,
}

/// What a value is.
#[derive(Clone, Copy, Debug, PartialEq, Eq)]
pub enum Found {
    /// A whole number of 64 bits from 0 on, written without point and exponent.
    Whole,
    /// Another number.
    Other,
    Null,
    Text,
    /// `true` or `false`.
    Flag,
    Array,
    Object,
}

/// A rule of workloads and of their edits that is broken.
#[derive(Clone, Copy, Debug, PartialEq, Eq)]
pub enum BrokenRule {
    /// No run comes to the item.
    Unreached,
    /// A work has 0 units.
    NoWork,
    /// A list of works is empty.
    NoWorks,
    /// A program finishes a call.
    Finish,
    /// A loop has 0 rounds.
    NoRounds,
    /// A loop has no items, or begins with `break`.
    NoBody,
    /// A `break` stands in no loop.
    NoLoop,
    /// More than so many loops and calls with branches stand around an item.
    Nesting(usize),
    /// An interrupt comes again after 0 units.
    NoPeriod,
    /// All programs together have more than so many items.
    Items(usize),
    /// A workload goes on for more than so many ticks.
    Ticks(u32),
    /// There are more than so many edits.
    Edits(usize),
    /// No item stands at the path of an edit.
    NoItem,
}

/// What is known of a fault beside its code and its place.
#[derive(Debug, Drop)]
pub enum Detail {
    /// Nothing more is known.
    None,
    /// The member at the location is missing.
    Missing,
    /// The object has a member whose name is none of those that may stand there.
    Unknown(Stray),
    /// The value is of another type.
    Wrong { expected: Expected, found: Found },
    /// The text is none of the words that may stand there.
    NoWord(Stray),
    /// There is no such format.
    NoFormat,
    /// The session of a rig has steps.
    HasSteps,
    /// The scripts are not so many arrays, one a core.
    OnePerCore(u32),
    /// The header of the session at the path is not accepted for this.
    Header { flaw: HeaderFlaw, session: Path },
    /// The step, action or edit is not accepted for this.
    Step(StepFlaw),
    /// The step, action or edit gives this name, which no user task has; beside it the name of a
    /// user task that is nearest to it.
    NoTask { name: Shown, nearest: Option<Words> },
    /// A recording may not have so many entries.
    Limit(u32),
    /// The workload, or an edit of it, breaks this rule.
    Rule(BrokenRule),
}

/// What the value is.
#[tactic(auto, using(crate::proofs::Details::found_by_tests))]
pub(crate) fn found_of(value: &Item<'_, '_>) -> Found
    ensures { result ≡ found_of (view value.now) }
{
    if value.as_str().is_some() {
        Found::Text
    } else if value.as_bool().is_some() {
        Found::Flag
    } else if value.as_array().is_some() {
        Found::Array
    } else if value.as_object().is_some() {
        Found::Object
    } else if value.is_null() {
        Found::Null
    } else if value.as_u64().is_some() {
        Found::Whole
    } else {
        Found::Other
    }
}
