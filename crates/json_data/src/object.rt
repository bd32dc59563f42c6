//! The members of an object.
ghost use Rattle.std.specs.Prelude.{◌≡◌, true, is_some, map, option_map, None, Some};
ghost use Rattle.std.specs.Option.{ForSome};
ghost use Rattle.serde_json.specs.Find.{as_object};
ghost use Rattle.json_data.specs.Reading.{are_known, least_unknown};
ghost use Rattle.json_data.specs.View.{view};

use crate::gathered::Gathered;
use crate::item::Item;

/// The members of an object. Clauses see what serde_json reads there.
#[derive(Clone, Copy)]
pub struct Object<'s, 't, 'a> {
    pub(crate) item: &'s Item<'t, 'a>,
    /// The same with its members, where they were gone through.
    pub(crate) gathered: Option<&'s Gathered<'t, 'a>>,
    ghost valid: { is_some (as_object (view item.now)) ≡ true },
    ghost same: { ForSome gathered (λ same. same.now ≡ item.now) },
}

impl<'s, 't, 'a> Object<'s, 't, 'a> {
    ghost use Rattle.json_data.specs.ObjectView.{members_view};

    pub(crate) fn new(item: &'s Item<'t, 'a>) -> Object<'s, 't, 'a>
        requires { is_some (as_object (view item.now)) ≡ true }
        ensures { Some (members_view result) ≡ as_object (view item.now) }
    {
        Object {
            item,
            gathered: None,
        }
    }

    /// Whether each member has one of the names.
    #[inline(always)]
    pub fn has_only(&self, names: &[&str]) -> bool
        ensures { result ≡ are_known (map (λ name. name.now) names.now) (members_view self.now) }
    {
        self.holds_only(names) || self.least_unknown(names).is_none()
    }

    /// Whether the members were gone through, and each has one of the names.
    #[inline(always)]
    fn holds_only(&self, names: &[&str]) -> bool
        ensures { result ≡ true
            → least_unknown (map (λ name. name.now) names.now) (members_view self.now) ≡ None }
    {
        match self.gathered {
            Some(gathered) => gathered.holds_only(names),
            None => false,
        }
    }

    /// The least name of a member that is none of the names, by their bytes.
    pub fn least_unknown(&self, names: &[&str]) -> Option<&'a str>
        ensures { option_map (λ name. name.now) result
            ≡ least_unknown (map (λ name. name.now) names.now) (members_view self.now) }
    {
        match self.gathered {
            Some(gathered) => gathered.least_unknown(names),
            None => self.item.least_unknown(names),
        }
    }
}
