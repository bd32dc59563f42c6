//! Stretches of places at which a value stays the same.
ghost use Rattle.std.specs.Prelude.{◌≡◌, ◌+◌, ◌≤◌, ◌^◌, Bool, Decides, IfOk, OnOk, length, nat_eq};
ghost use Rattle.run_pictures.specs.StretchesOf.{extended, stretches_of, Tiles};
ghost use Rattle.run_pictures.specs.StretchValues.{numbers_decided};

use std::alloc::{AllocError, Global};
use std::collections::VecDeque;

/// A value that a band shows at each place.
pub trait StretchValue: Drop {
    ghost same: { Self → Self → Bool };

    /// Whether the two are the same.
    fn is_same(&self, other: &Self) -> bool
        ensures { result ≡ same self.now other.now };

    // Then they are one value.
    ghost tells: { (a b : Self) → Decides (same a b) (a ≡ b) };
}

impl StretchValue for u32 {
    ghost same = { nat_eq };

    ghost tells = { numbers_decided };

    fn is_same(&self, other: &Self) -> bool {
        *self == *other
    }
}

/// Places one after another at which a value stays the same.
#[derive(Clone, Copy, Debug, Drop, PartialEq, Eq)]
pub struct Stretch<T> {
    /// The first place.
    pub first: u32,
    /// The last place.
    pub last: u32,
    pub value: T,
}

/// The stretches of values that stay the same, of which the first stands at the place: they follow
/// one another, each value stands in one of them, and neighbours differ.
pub fn stretches_of<T: StretchValue>(
    alloc: Global,
    first: u32,
    values: Vec<T>,
) -> Result<Vec<Stretch<T>>, AllocError>
    requires { first + length values.items ≤ 2 ^ 32 }
    ensures stretches { IfOk result
        (λ stretches. stretches.items ≡ stretches_of T.same first values.items) }
    ensures tiles { IfOk result (λ stretches. Tiles first values.items stretches.items) }
{
    let mut stretches = VecDeque::new(alloc);
    let mut left = values;
    while let Some(value) = left.pop() {
        extend(&mut stretches, first + left.len() as u32, value)?;
    }
    Ok(Vec::from(stretches))
}

/// One place more in front of the stretches.
pub(crate) fn extend<T: StretchValue>(
    stretches: &mut VecDeque<Stretch<T>>,
    place: u32,
    value: T,
) -> Result<(), AllocError>
    ensures { OnOk result (stretches.new.items ≡ extended T.same place value stretches.old.items) }
{
    if !stretches.is_empty() && stretches[0].value.is_same(&value) {
        stretches[0].first = place;
        return Ok(());
    }
    let stretch = Stretch {
        first: place,
        last: place,
        value,
    };
    match stretches.push_front(stretch) {
        Ok(()) => Ok(()),
        Err(_) => Err(AllocError),
    }
}

/// The stretches, the first one first.
pub(crate) fn to_vec<T: Copy>(
    alloc: Global,
    stretches: &VecDeque<Stretch<T>>,
) -> Result<Vec<Stretch<T>>, AllocError>
    ensures { IfOk result (λ all. all.items ≡ stretches.now.items) }
{
    stretches.iter().copied().collect(alloc)
}
