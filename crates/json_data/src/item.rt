//! A value in a document.
ghost use Rattle.std.specs.Prelude.{◌≡◌, true, bytes_eq, is_some, map, option_map, option_and_then, Some};
ghost use Rattle.std.specs.List.{list_any};
ghost use Rattle.json.specs.Json as json;
ghost use Rattle.json.specs.Find.{InMembers};
ghost use Rattle.serde_json.specs.Data.{Members};
ghost use Rattle.serde_json.specs.Find.{as_array, as_bool, as_null, as_number, as_object, as_str, as_u64, get};
ghost use Rattle.json_data.specs.Opening.{Opens};
ghost use Rattle.json_data.specs.Reading.{data_at, data_of, least_unknown, least_unknown_key, lesser_unknown};

use crate::items::Items;
use crate::object::Object;
use crate::range::whole_number;
use json::Element;

/// A value in a document. Clauses see what serde_json reads there.
#[derive(Drop)]
pub struct Item<'t, 'a> {
    pub(crate) element: Element<'t, 'a>,
    ghost valid: { is_some (data_at element) ≡ true },
}

impl<'t, 'a> Item<'t, 'a> {
    ghost use Rattle.json_data.specs.ObjectView.{members_view};
    ghost use Rattle.json_data.specs.View.{items_view, view};

    pub(crate) fn new(element: Element<'t, 'a>) -> Item<'t, 'a>
        requires { is_some (data_at element) ≡ true }
        ensures { view result ≡ data_of element.entry }
    {
        Item { element }
    }

    /// The member of that name, the last one of a name that comes twice; `None` where there is
    /// none, and where this is no object. All members are walked.
    pub fn get(&self, name: &str) -> Option<Item<'t, 'a>>
        ensures { option_map view result ≡ get name.now (view self.now) }
    {
        match self.element.get(name) {
            Some(element) => Some(Item { element }),
            None => None,
        }
    }

    /// The text, where this is one.
    pub fn as_str(&self) -> Option<&'a str>
        ensures { option_map (λ text. text.now) result ≡ as_str (view self.now) }
    {
        self.element.as_str()
    }

    /// The number, where this is a whole one from 0 on, written without point and exponent, that
    /// has 64 bits.
    pub fn as_u64(&self) -> Option<u64>
        ensures { result ≡ option_and_then as_u64 (as_number (view self.now)) }
    {
        match self.element.as_number() {
            Some(text) => whole_number(text),
            None => None,
        }
    }

    /// Whether this is `null`.
    pub fn is_null(&self) -> bool
        ensures { result ≡ is_some (as_null (view self.now)) }
    {
        self.element.is_null()
    }

    /// The truth value, where this is one.
    pub fn as_bool(&self) -> Option<bool>
        ensures { result ≡ as_bool (view self.now) }
    {
        self.element.as_bool()
    }

    /// The items, where this is an array.
    pub fn as_array(&self) -> Option<Items<'t, 'a>>
        ensures { option_map items_view result ≡ as_array (view self.now) }
    {
        match self.element.items() {
            Some(items) => Some(Items::new(items)),
            None => None,
        }
    }

    /// The members, where this is an object.
    pub fn as_object(&self) -> Option<Object<'_, 't, 'a>>
        ensures { option_map members_view result ≡ as_object (view self.now) }
    {
        match self.element.members() {
            Some(_) => Some(Object::new(self)),
            None => None,
        }
    }

    /// The members in the order of the text, where this is an object.
    pub(crate) fn members(&self) -> Option<json::Members<'t, 'a>>
        ensures { Opens self.now.element result }
    {
        self.element.members()
    }

    /// The least name of a member that is none of the names, where this is an object. Names go by
    /// their bytes.
    pub(crate) fn least_unknown(&self, names: &[&str]) -> Option<&'a str>
        ensures { (all : Members) → as_object (view self.now) ≡ Some all
            → option_map (λ name. name.now) result
            ≡ least_unknown (map (λ name. name.now) names.now) all }
    {
        match self.element.members() {
            Some(mut members) => least_unknown_key(&mut members, names),
            None => None,
        }
    }
}

fn least_unknown_key<'a>(members: &mut json::Members<'_, 'a>, names: &[&str]) -> Option<&'a str>
    ensures { (all : json.Members) → InMembers members.old all
        → option_map (λ name. name.now) result
        ≡ least_unknown_key (map (λ name. name.now) names.now) all }
{
    let mut least = None;
    while let Some((key, _member)) = members.next() {
        least = lesser_unknown(names, key, least);
    }
    least
}

/// The lesser of the key and the least so far; a key that is one of the names counts for nothing.
pub(crate) fn lesser_unknown<'a>(
    names: &[&str],
    key: &'a str,
    least: Option<&'a str>,
) -> Option<&'a str>
    ensures { option_map (λ name. name.now) result
        ≡ lesser_unknown (map (λ name. name.now) names.now) key.now
        (option_map (λ name. name.now) least.entry) }
{
    if is_one_of(key, names) {
        return least;
    }
    match least {
        Some(other) if other < key => least,
        _ => Some(key),
    }
}

#[inline(always)]
pub(crate) fn is_one_of(key: &str, names: &[&str]) -> bool
    ensures { result ≡ list_any (bytes_eq key.now) (map (λ name. name.now) names.now) }
{
    for name in names {
        if key == *name {
            return true;
        }
    }
    false
}
