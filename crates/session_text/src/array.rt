//! Arrays of texts, item by item.
ghost use Rattle.std.specs.Prelude.{◌≡◌};
ghost use Rattle.json_data.specs.View.{items_view};
ghost use Rattle.session_text.specs.Array.{each_at, list_at};
ghost use Rattle.session_text.specs.Node.{data_of, location_of};
ghost use Rattle.session_text.specs.ReadingRules.{Gives};
ghost use Rattle.session_text.specs.Path.{path_of};

use crate::fault::ReadFault;
use crate::node::Node;
use crate::path::Location;
use json_data::{Gathered, Items};
use std::alloc::Global;

/// What reads one item of an array.
pub trait ReadItem<'v> {
    ghost use Rattle.std.specs.Prelude.{ℕ, List, Result};
    ghost use Rattle.serde_json.specs.Data.{Data};
    ghost use Rattle.session_text.specs.declared.fault.TextFault.{TextFault};
    ghost use Rattle.session_text.specs.Node.{data_of, location_of};
    ghost use Rattle.session_text.specs.ReadingRules.{Gives};

    type Item: Drop;

    ghost reading: { Self → List ℕ → Data → Result Self.Item TextFault };

    fn read(&self, node: &Node<'_, '_, 'v>) -> Result<Self::Item, ReadFault>
        ensures { Gives (λ item. item) result
            (reading self.now (location_of node.now) (data_of node.now)) };
}

/// Reads the items of the array at the location, one after another.
pub fn each<'v, R: ReadItem<'v>>(
    alloc: Global,
    reader: &R,
    location: &Location<'_>,
    items: &mut Items<'_, 'v>,
) -> Result<Vec<R::Item>, ReadFault>
    ensures { Gives (λ read. read.items) result
        (each_at (R.reading reader.now) (path_of location.now) 0 (items_view items.old)) }
{
    let mut read = Vec::new(alloc);
    while let Some(value) = items.next() {
        let location = &Location::Item(location, read.len());
        let value = &Gathered::of(value);
        read.push(reader.read(&Node {
            alloc,
            location,
            value,
        })?)?;
    }
    Ok(read)
}

/// Reads the items of the array that is this member of the object.
#[tactic(auto, unfolding(crate::specs::Array::list_at))]
pub fn list_at<'v, R: ReadItem<'v>>(
    reader: &R,
    node: &Node<'_, '_, 'v>,
    name: &str,
) -> Result<Vec<R::Item>, ReadFault>
    ensures { Gives (λ items. items.items) result
        (list_at (R.reading reader.now) (location_of node.now) name.now (data_of node.now)) }
{
    let mut items = node.array(name)?;
    each(
        node.alloc,
        reader,
        &Location::Member(node.location, name),
        &mut items,
    )
}
