//! How deep values nest.
ghost use Rattle.std.specs.Prelude.{◌≡◌, nat_le};
ghost use Rattle.serde_json.specs.Data.{depth, items_depth, members_depth};
ghost use Rattle.serde_json.specs.View.{items_view, members_view, view};

use serde_json::{Map, Value};

#[cycle(nests)]
fn items_nest(items: &[Value], most: u32) -> bool
    ensures { result ≡ nat_le (items_depth (items_view items.now)) most }
{
    for item in items {
        if !nests_within(item, most) {
            return false;
        }
    }
    true
}

#[cycle(nests)]
fn members_nest(members: &Map<String, Value>, most: u32) -> bool
    ensures { result ≡ nat_le (members_depth (members_view members.now.entries)) most }
{
    for (_, member) in members.iter() {
        if !nests_within(member, most) {
            return false;
        }
    }
    true
}

/// Whether arrays and objects nest at most so deep in the value.
#[cycle(nests)]
pub fn nests_within(value: &Value, most: u32) -> bool
    ensures { result ≡ nat_le (depth (view value.now)) most }
{
    match value {
        Value::Null | Value::Bool(_) | Value::Number(_) | Value::String(_) => true,
        Value::Array(items) => most > 0 && items_nest(items.as_slice(), most - 1),
        Value::Object(members) => most > 0 && members_nest(members, most - 1),
    }
}
