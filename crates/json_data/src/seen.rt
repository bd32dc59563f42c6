//! The names that an object has had.
ghost use Rattle.std.specs.Prelude.{◌≡◌, ◌||◌, ℕ, List, bytes_eq, IfOk, false};
ghost use Rattle.json_data.specs.Seen.{has_seen};

use arrayvec::ArrayVec;
use std::alloc::{AllocError, Global};
use std::collections::BTreeSet;

/// So many names are compared one after another; no object of an accepted document has more.
const MAX_FEW: usize = 9;

/// The names that an object has had so far. Those past the first are found in a tree, so that no
/// object takes quadratic time.
#[derive(Drop)]
pub(crate) struct SeenNames<'a> {
    few: ArrayVec<&'a str, MAX_FEW>,
    more: BTreeSet<&'a str>,
}

impl<'a> SeenNames<'a> {
    pub(crate) fn none(alloc: Global) -> SeenNames<'a>
        ensures { (name : List ℕ) → has_seen result name ≡ false }
    {
        SeenNames {
            few: ArrayVec::new(),
            more: BTreeSet::new(alloc),
        }
    }

    fn has(&self, name: &'a str) -> bool
        ensures { result ≡ has_seen self.now name.now }
    {
        for few in self.few.as_slice() {
            if name == *few {
                return true;
            }
        }
        self.more.contains(name)
    }

    /// Whether the name was there before. It is there from now on.
    pub(crate) fn add(&mut self, name: &'a str) -> Result<bool, AllocError>
        ensures was_there { IfOk result (λ was. was ≡ has_seen self.old name.now) }
        ensures there { IfOk result (λ was. (other : List ℕ)
            → has_seen self.new other ≡ (bytes_eq other name.now || has_seen self.old other)) }
    {
        if self.has(name) {
            return Ok(true);
        }
        match self.few.try_push(name) {
            Ok(()) => Ok(false),
            Err(_) => {
                self.more.insert(name)?;
                Ok(false)
            }
        }
    }
}
