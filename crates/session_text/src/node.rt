//! A value of a document with its path.
ghost use Rattle.std.specs.Prelude.{map};
ghost use Rattle.json_data.specs.View.{view};
ghost use Rattle.session_text.specs.declared.detail.Detail.TheVariants.{NoWord};
ghost use Rattle.session_text.specs.Detail.{found_of};
ghost use Rattle.session_text.specs.Member.{typed};
ghost use Rattle.session_text.specs.Nearest.{stray};
ghost use Rattle.session_text.specs.Node.{location_of};
ghost use Rattle.session_text.specs.ReadingRules.{bad_shape, found, Gives, StopsAt};
ghost use Rattle.session_text.specs.Path.{member_path};

use crate::detail::{Detail, Expected, found_of};
use crate::fault::{ReadFault, Why};
use crate::nearest::Stray;
use crate::path::Location;
use json_data::{Gathered, Item};
use std::alloc::Global;

/// A value of a document, its members gone through once, with its place, and the allocator for what
/// is read of it.
#[derive(Clone, Copy)]
pub struct Node<'p, 't, 'v> {
    pub alloc: Global,
    pub location: &'p Location<'p>,
    pub value: &'p Gathered<'t, 'v>,
}

impl<'v> Node<'_, '_, 'v> {
    /// H2 here.
    pub fn bad_shape(&self, detail: Detail) -> ReadFault
        ensures { StopsAt (bad_shape (location_of self.now) detail) result }
    {
        ReadFault::at(self.alloc, self.location, Why::BadShape, detail)
    }

    /// H2 at the member.
    pub fn bad_member(&self, name: &str, detail: Detail) -> ReadFault
        ensures { StopsAt (bad_shape (member_path (location_of self.now) name.now) detail) result }
    {
        let location = Location::Member(self.location, name);
        ReadFault::at(self.alloc, &location, Why::BadShape, detail)
    }

    /// What was looked for in the value, which is the member, or H2 there.
    pub fn typed<T: Drop>(
        &self,
        name: &str,
        expected: Expected,
        value: &Item<'_, '_>,
        sought: Option<T>,
    ) -> Result<T, ReadFault>
        ensures { Gives (λ it. it) result
            (typed expected (view value.now) sought (member_path (location_of self.now) name.now)) }
    {
        match sought {
            Some(it) => Ok(it),
            None => {
                let found = found_of(value);
                Err(self.bad_member(name, Detail::Wrong { expected, found }))
            }
        }
    }

    /// H2 at the member, which has to be one of the words.
    fn no_word(&self, name: &str, text: &str, words: &[&str]) -> ReadFault
        ensures { StopsAt
            (bad_shape (member_path (location_of self.now) name.now)
            (NoWord (stray text.now (map (λ word. word.now) words.now)))) result }
    {
        match Stray::of(self.alloc, text, words) {
            Ok(stray) => self.bad_member(name, Detail::NoWord(stray)),
            Err(_) => ReadFault::Memory,
        }
    }

    /// What the text that is the member means, or H2 there: it has to be one of the words.
    pub fn meant<T: Drop>(
        &self,
        name: &str,
        text: &str,
        words: &[&str],
        meaning: Option<T>,
    ) -> Result<T, ReadFault>
        ensures { Gives (λ it. it) result
            (found meaning (member_path (location_of self.now) name.now)
            (NoWord (stray text.now (map (λ word. word.now) words.now)))) }
    {
        match meaning {
            Some(it) => Ok(it),
            None => Err(self.no_word(name, text, words)),
        }
    }
}
