//! What bands show beside numbers and stances.
ghost use Rattle.std.specs.Prelude.{◌≡◌};
ghost use Rattle.bench_model.specs.SameTest.{are_same_bools, are_same_holds, are_same_options};
ghost use Rattle.run_views.specs.Changes.{are_same_numbers};
ghost use Rattle.run_pictures.specs.Same.{are_same_dues, are_same_priorities};

use crate::stretch::StretchValue;
use bench_types::Hold;

/// By whom a core was asked to switch.
#[derive(Clone, Copy, Debug, PartialEq, Eq)]
pub(crate) struct Due {
    pub(crate) pend: bool,
    pub(crate) asked: bool,
}

impl StretchValue for Due {
    ghost use Rattle.run_pictures.specs.StretchValues.{dues_decided};

    ghost same = { are_same_dues };

    ghost tells = { dues_decided };

    fn is_same(&self, other: &Self) -> bool {
        is_same_flag(self.pend, other.pend) && is_same_flag(self.asked, other.asked)
    }
}

impl StretchValue for Option<Hold> {
    ghost use Rattle.run_pictures.specs.StretchValues.{holds_decided};

    ghost same = { are_same_options are_same_holds };

    ghost tells = { holds_decided };

    fn is_same(&self, other: &Self) -> bool {
        match (*self, *other) {
            (None, None) => true,
            (Some(hold), Some(other)) => hold.core == other.core && hold.depth == other.depth,
            _ => false,
        }
    }
}

/// The priorities of a task.
#[derive(Clone, Copy, Debug, PartialEq, Eq)]
pub(crate) struct Priorities {
    pub(crate) in_use: u32,
    pub(crate) base: u32,
}

impl StretchValue for Priorities {
    ghost use Rattle.run_pictures.specs.StretchValues.{priorities_decided};

    ghost same = { are_same_priorities };

    ghost tells = { priorities_decided };

    fn is_same(&self, other: &Self) -> bool {
        self.in_use == other.in_use && self.base == other.base
    }
}

impl StretchValue for Option<u32> {
    ghost use Rattle.run_pictures.specs.StretchValues.{holders_decided};

    ghost same = { are_same_numbers };

    ghost tells = { holders_decided };

    fn is_same(&self, other: &Self) -> bool {
        is_same_number(*self, *other)
    }
}

impl StretchValue for bool {
    ghost use Rattle.run_pictures.specs.StretchValues.{flags_decided};

    ghost same = { are_same_bools };

    ghost tells = { flags_decided };

    fn is_same(&self, other: &Self) -> bool {
        is_same_flag(*self, *other)
    }
}

pub(crate) fn is_same_number(number: Option<u32>, other: Option<u32>) -> bool
    ensures { result ≡ are_same_numbers number other }
{
    match (number, other) {
        (None, None) => true,
        (Some(number), Some(other)) => number == other,
        _ => false,
    }
}

fn is_same_flag(flag: bool, other: bool) -> bool
    ensures { result ≡ are_same_bools flag other }
{
    if flag { other } else { !other }
}
