//! What is asked of advice, and what it tells.
use ranked_changes::Family;
use std::marker::Model;

/// What is asked of advice.
#[derive(Drop)]
pub struct Question {
    /// The name of the number that is to be lower.
    pub name: String,
    /// The changes that are tried.
    pub family: Family,
    /// How many of the best are told.
    pub best: u32,
}

impl Model for Question {
    ghost use Rattle.std.specs.Prelude.{string_bytes};
    ghost use Rattle.session_advice.specs.Questions.{Asked};

    ghost Value = { Asked };

    ghost view = { λ it. record {
      name = string_bytes it.name;
      family = it.family;
      best = it.best;
    } };
}

/// How advice ends.
#[derive(Clone, Copy, Debug, PartialEq, Eq)]
pub enum AdviceStatus {
    /// The changes were tried, and the best are told.
    Given,
    /// No number has the name.
    Unknown,
}

/// How advice ends, and what is told: the best of the changes, or the names that numbers have.
#[derive(Drop)]
pub struct Advised {
    pub status: AdviceStatus,
    pub text: String,
}

impl Model for Advised {
    ghost use Rattle.std.specs.Prelude.{string_bytes};
    ghost use Rattle.session_advice.specs.Questions.{Printed};

    ghost Value = { Printed };

    ghost view = { λ it. record { status = it.status; text = string_bytes it.text } };
}
