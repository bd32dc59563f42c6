//! Values with other values in them.
ghost use Rattle.std.specs.Prelude.{◌≡◌, ◌<◌, IfOk, option_map};
ghost use Rattle.serde_json.specs.View.{items_view, view};
ghost use Rattle.workload_edits.specs.Edits.{new_item, whole, with_item, with_item_at, with_member};

use serde_json::{Value, put};
use std::alloc::{AllocError, Global};
use std::mem;

/// The value with another one at the member.
pub(crate) fn with_member(
    alloc: Global,
    value: Value,
    name: &str,
    new: Value,
) -> Result<Value, AllocError>
    ensures { IfOk result
        (λ made. view made ≡ with_member name.now (view new) (view value)) }
{
    match value {
        Value::Object(mut members) => {
            put(&mut members, alloc, name, new)?;
            Ok(Value::Object(members))
        }
        other => Ok(other),
    }
}

#[tactic(auto, using(crate::proofs::Values::items_view_set, crate::proofs::Values::with_item_past))]
fn with_item_at(items: Vec<Value>, index: usize, new: Value) -> Vec<Value>
    ensures { items_view result.items ≡ with_item_at index (view new) (items_view items.items) }
{
    let mut items = items;
    if index < items.len() {
        drop(mem::replace(&mut items[index], new));
    }
    items
}

/// The value with another one at the index.
pub(crate) fn with_item(value: Value, index: usize, new: Value) -> Value
    ensures { view result ≡ with_item index (view new) (view value) }
{
    match value {
        Value::Array(items) => Value::Array(with_item_at(items, index, new)),
        other => other,
    }
}

/// The new item that the edit says beside its kind, its task and its path.
pub(crate) fn new_item(edit: &Value) -> Result<Value, AllocError>
    ensures { IfOk result (λ item. view item ≡ new_item (view edit.now)) }
{
    match edit.clone()? {
        Value::Object(mut members) => {
            drop(members.remove("edit"));
            drop(members.remove("task"));
            drop(members.remove("item"));
            Ok(Value::Object(members))
        }
        other => Ok(other),
    }
}

/// The value with the number at the member.
pub(crate) fn with_number(
    alloc: Global,
    value: Value,
    name: &str,
    number: u32,
) -> Result<Value, AllocError>
    ensures { IfOk result
        (λ made. view made ≡ with_member name.now (whole number) (view value)) }
{
    with_member(alloc, value, name, Value::from(number))
}
