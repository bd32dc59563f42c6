//! The members of objects, each of its kind.
ghost use Rattle.std.specs.Prelude.{◌≡◌, map};
ghost use Rattle.json_data.specs.Gathered.{member_view};
ghost use Rattle.json_data.specs.ObjectView.{members_view};
ghost use Rattle.json_data.specs.View.{items_view, view};
ghost use Rattle.session_text.specs.declared.detail.Detail.TheVariants.{Missing, Unknown, Wrong};
ghost use Rattle.session_text.specs.Detail.{found_of};
ghost use Rattle.session_text.specs.Member.{array_at, as_u32, flag_at, items_at, member_at, number_at, number_or_at, object_at, only_at, text_at};
ghost use Rattle.session_text.specs.Nearest.{stray};
ghost use Rattle.session_text.specs.Node.{data_of, location_of};
ghost use Rattle.session_text.specs.ReadingRules.{bad_shape, Gives, StopsAt};
ghost use Rattle.session_text.specs.Path.{member_path};

use crate::detail::{Detail, Expected, found_of};
use crate::fault::ReadFault;
use crate::nearest::Stray;
use crate::node::Node;
use json_data::{Item, Items, Member, Object};

impl<'p, 't, 'v> Node<'p, 't, 'v> {
    /// H2 here, where another value is expected.
    pub fn bad_value(&self, expected: Expected) -> ReadFault
        ensures { StopsAt
            (bad_shape (location_of self.now) (Wrong expected (found_of (data_of self.now))))
            result }
    {
        let found = found_of(self.value.item());
        self.bad_shape(Detail::Wrong { expected, found })
    }

    /// H2 here, where the object has a member whose name is none of the names.
    fn unknown(&self, member: &str, names: &[&str]) -> ReadFault
        ensures { StopsAt
            (bad_shape (location_of self.now)
            (Unknown (stray member.now (map (λ name. name.now) names.now)))) result }
    {
        match Stray::of(self.alloc, member, names) {
            Ok(stray) => self.bad_shape(Detail::Unknown(stray)),
            Err(_) => ReadFault::Memory,
        }
    }

    pub fn object(&self) -> Result<Object<'p, 't, 'v>, ReadFault>
        ensures { Gives members_view result
            (object_at (location_of self.now) (data_of self.now)) }
    {
        match self.value.as_object() {
            Some(members) => Ok(members),
            None => Err(self.bad_value(Expected::Object)),
        }
    }

    pub fn items(&self) -> Result<Items<'t, 'v>, ReadFault>
        ensures { Gives items_view result
            (items_at (location_of self.now) (data_of self.now)) }
    {
        match self.value.item().as_array() {
            Some(items) => Ok(items),
            None => Err(self.bad_value(Expected::Array)),
        }
    }

    /// H2 at the member, which is missing.
    fn missing(&self, name: &str) -> ReadFault
        ensures { StopsAt
            (bad_shape (member_path (location_of self.now) name.now) Missing) result }
    {
        self.bad_member(name, Detail::Missing)
    }

    /// The member, of which members of its own may be asked.
    pub fn member(&self, name: &str) -> Result<Item<'t, 'v>, ReadFault>
        ensures { Gives view result
            (member_at (location_of self.now) name.now (data_of self.now)) }
    {
        match self.value.item().get(name) {
            Some(value) => Ok(value),
            None => Err(self.missing(name)),
        }
    }

    /// The member as it is held.
    #[inline(always)]
    fn held(&self, name: &str) -> Result<Member<'p, 't, 'v>, ReadFault>
        ensures { Gives member_view result
            (member_at (location_of self.now) name.now (data_of self.now)) }
    {
        match self.value.get(name) {
            Some(value) => Ok(value),
            None => Err(self.missing(name)),
        }
    }

    #[inline(always)]
    #[tactic(auto, unfolding(crate::specs::Member::number_at))]
    pub fn number(&self, name: &str) -> Result<u32, ReadFault>
        ensures { Gives (λ number. number) result
            (number_at (location_of self.now) name.now (data_of self.now)) }
    {
        let value = self.held(name)?;
        self.typed(name, Expected::Number, value.item(), as_u32(value.item()))
    }

    /// The number, or the other one where the member is left out.
    #[tactic(auto, unfolding(crate::specs::Member::number_or_at))]
    pub fn number_or(&self, name: &str, other: u32) -> Result<u32, ReadFault>
        ensures { Gives (λ number. number) result
            (number_or_at other (location_of self.now) name.now (data_of self.now)) }
    {
        match self.value.get(name) {
            Some(value) => self.typed(name, Expected::Number, value.item(), as_u32(value.item())),
            None => Ok(other),
        }
    }

    #[inline(always)]
    #[tactic(auto, unfolding(crate::specs::Member::text_at))]
    pub fn text(&self, name: &str) -> Result<&'v str, ReadFault>
        ensures { Gives (λ text. text.now) result
            (text_at (location_of self.now) name.now (data_of self.now)) }
    {
        let value = self.held(name)?;
        self.typed(name, Expected::Text, value.item(), value.item().as_str())
    }

    #[inline(always)]
    #[tactic(auto, unfolding(crate::specs::Member::flag_at))]
    pub fn flag(&self, name: &str) -> Result<bool, ReadFault>
        ensures { Gives (λ flag. flag) result
            (flag_at (location_of self.now) name.now (data_of self.now)) }
    {
        let value = self.held(name)?;
        self.typed(name, Expected::Flag, value.item(), value.item().as_bool())
    }

    #[tactic(auto, unfolding(crate::specs::Member::array_at))]
    pub fn array(&self, name: &str) -> Result<Items<'t, 'v>, ReadFault>
        ensures { Gives items_view result
            (array_at (location_of self.now) name.now (data_of self.now)) }
    {
        let value = self.member(name)?;
        self.typed(name, Expected::Array, &value, value.as_array())
    }

    /// H2 here, where the object has a member that is none of the names.
    pub fn only(&self, names: &[&str], members: &Object<'_, '_, '_>) -> Result<(), ReadFault>
        ensures { Gives (λ done. done) result
            (only_at (location_of self.now) (map (λ name. name.now) names.now)
            (members_view members.now)) }
    {
        match members.least_unknown(names) {
            None => Ok(()),
            Some(member) => Err(self.unknown(member, names)),
        }
    }
}

fn as_u32(value: &Item<'_, '_>) -> Option<u32>
    ensures { result ≡ as_u32 (view value.now) }
{
    u32::try_from(value.as_u64()?).ok()
}
