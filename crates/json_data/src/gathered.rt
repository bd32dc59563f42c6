//! A value whose members were gone through once.
ghost use Rattle.std.specs.Prelude.{◌≡◌, [], true, map, option_map, None, Some};
ghost use Rattle.json.specs.Json as json;
ghost use Rattle.json.specs.Find.{InMembers};
ghost use Rattle.serde_json.specs.Data.{Members};
ghost use Rattle.serde_json.specs.Find.{as_object, get};
ghost use Rattle.json_data.specs.Held.{last_named, least_held, IsGathered, Passed};
ghost use Rattle.json_data.specs.Opening.{AreReadable};
ghost use Rattle.json_data.specs.Reading.{least_unknown};
ghost use Rattle.json_data.specs.View.{view};

use crate::item::{Item, is_one_of, lesser_unknown};
use crate::object::Object;
use arrayvec::ArrayVec;
use std::marker::Model;

/// So many members are held; no step of an accepted session has more. Those of an object with more
/// are walked anew for each name.
const MAX_HELD: usize = 7;

/// A member that is held.
#[derive(Drop)]
struct Named<'t, 'a> {
    name: &'a str,
    value: Item<'t, 'a>,
}

/// A value with its members, if it is an object: they are gone through once, for many names.
/// Clauses see the value.
#[derive(Drop)]
pub struct Gathered<'t, 'a> {
    item: Item<'t, 'a>,
    held: ArrayVec<Option<Named<'t, 'a>>, MAX_HELD>,
    /// Whether the value is an object, and all of its members are held.
    is_whole: bool,
}

impl<'t, 'a> Model for Gathered<'t, 'a> {
    ghost use Rattle.std.specs.Prelude.{◌≡◌, true};
    ghost use Rattle.json_data.specs.declared.item.Item.{Item as SpecItem};
    ghost use Rattle.json_data.specs.Held.{IsGathered};

    ghost Value = { SpecItem };

    ghost view = { λ it. it.item };

    ghost invariant = { λ it. it.is_whole ≡ true → IsGathered it.held.items it.item };
}

/// A member that was found.
#[derive(Drop)]
pub enum Member<'h, 't, 'a> {
    Held(&'h Item<'t, 'a>),
    Walked(Item<'t, 'a>),
}

impl<'t, 'a> Member<'_, 't, 'a> {
    ghost use Rattle.json_data.specs.Gathered.{member_view};

    /// Its value.
    #[inline(always)]
    pub fn item(&self) -> &Item<'t, 'a>
        ensures { view result.now ≡ member_view self.now }
    {
        match self {
            Member::Held(item) => item,
            Member::Walked(item) => item,
        }
    }
}

impl<'t, 'a> Gathered<'t, 'a> {
    ghost use Rattle.json_data.specs.Gathered.{member_view};
    ghost use Rattle.json_data.specs.ObjectView.{members_view};

    /// Goes through the members of the value.
    #[inline(always)]
    pub fn of(item: Item<'t, 'a>) -> Gathered<'t, 'a>
        ensures { result ≡ item.entry }
    {
        let mut held = ArrayVec::new();
        let is_whole = hold_all(&item, &mut held);
        Gathered {
            item,
            held,
            is_whole,
        }
    }

    /// The value itself.
    pub fn item(&self) -> &Item<'t, 'a>
        ensures { result.now ≡ self.now }
    {
        &self.item
    }

    /// The member of that name, the last one of a name that comes twice; `None` where there is
    /// none, and where this is no object.
    #[inline(always)]
    pub fn get(&self, name: &str) -> Option<Member<'_, 't, 'a>>
        ensures { option_map member_view result ≡ get name.now (view self.now) }
    {
        if self.is_whole {
            Some(Member::Held(last_named(self.held.as_slice(), name)?))
        } else {
            Some(Member::Walked(self.item.get(name)?))
        }
    }

    /// The members, where this is an object.
    pub fn as_object(&self) -> Option<Object<'_, 't, 'a>>
        ensures { option_map members_view result ≡ as_object (view self.now) }
    {
        if self.is_whole {
            Some(Object {
                item: &self.item,
                gathered: Some(self),
            })
        } else {
            self.item.as_object()
        }
    }

    /// Whether all members are held, and each has one of the names. Where the names are literals,
    /// it comes down to comparisons with them.
    #[inline(always)]
    pub(crate) fn holds_only(&self, names: &[&str]) -> bool
        ensures { result ≡ true → (all : Members) → as_object (view self.now) ≡ Some all
            → least_unknown (map (λ name. name.now) names.now) all ≡ None }
    {
        self.is_whole && are_known(self.held.as_slice(), names)
    }

    /// The least name of a member that is none of the names, where this is an object. Names go by
    /// their bytes.
    pub(crate) fn least_unknown(&self, names: &[&str]) -> Option<&'a str>
        ensures { (all : Members) → as_object (view self.now) ≡ Some all
            → option_map (λ name. name.now) result
            ≡ least_unknown (map (λ name. name.now) names.now) all }
    {
        if self.is_whole {
            least_held(self.held.as_slice(), names)
        } else {
            self.item.least_unknown(names)
        }
    }
}

/// Holds the members of the value. Whether it is an object, and all of them are held.
#[inline(always)]
fn hold_all<'t, 'a>(
    item: &Item<'t, 'a>,
    held: &mut ArrayVec<Option<Named<'t, 'a>>, MAX_HELD>,
) -> bool
    requires { held.old.items ≡ [] }
    ensures { result ≡ true → IsGathered held.new.items item.now }
{
    match item.members() {
        Some(mut members) => hold(&mut members, held),
        None => false,
    }
}

/// Holds the members, while there is room for them. Whether all are held.
fn hold<'t, 'a>(
    members: &mut json::Members<'t, 'a>,
    held: &mut ArrayVec<Option<Named<'t, 'a>>, MAX_HELD>,
) -> bool
    requires empty { held.old.items ≡ [] }
    requires readable { AreReadable members.old }
    ensures { result ≡ true → (all : json.Members) → InMembers members.old all
        → Passed held.new.items all json.no_members }
{
    while let Some((name, element)) = members.next() {
        if held.is_full() {
            return false;
        }
        let value = Item { element };
        held.push(Some(Named { name, value }));
    }
    true
}

/// The value of the last member of that name.
#[inline(always)]
fn last_named<'h, 't, 'a>(held: &'h [Option<Named<'t, 'a>>], name: &str) -> Option<&'h Item<'t, 'a>>
    ensures { option_map (λ item. view item.now) result ≡ last_named name.now held.now }
{
    let mut at = held.len();
    while at > 0 {
        at -= 1;
        if let Some(named) = &held[at] {
            if named.name == name {
                return Some(&named.value);
            }
        }
    }
    None
}

/// Whether each name of a member is one of the names.
#[inline(always)]
fn are_known(held: &[Option<Named<'_, '_>>], names: &[&str]) -> bool
    ensures { result ≡ true → least_held (map (λ name. name.now) names.now) held.now None ≡ None }
{
    for member in held {
        if let Some(named) = member {
            if !is_one_of(named.name, names) {
                return false;
            }
        }
    }
    true
}

/// The least name of a member that is none of the names.
fn least_held<'a>(held: &[Option<Named<'_, 'a>>], names: &[&str]) -> Option<&'a str>
    ensures { option_map (λ name. name.now) result
        ≡ least_held (map (λ name. name.now) names.now) held.now None }
{
    let mut least = None;
    for member in held {
        if let Some(named) = member {
            least = lesser_unknown(names, named.name, least);
        }
    }
    least
}
