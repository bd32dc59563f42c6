//! The items of an array.
ghost use Rattle.std.specs.Prelude.{◌≡◌, ◌∷◌, true, is_some, MatchOption};
ghost use Rattle.json.specs.Token.{begin_array};
ghost use Rattle.serde_json.specs.Data.{no_items, item};
ghost use Rattle.json_data.specs.Reading.{data_at, rest_of};

use crate::item::Item;

/// The items of an array from one on. Clauses see what serde_json reads there.
#[derive(Drop)]
pub struct Items<'t, 'a> {
    items: json::Items<'t, 'a>,
    ghost valid: { is_some (data_at (begin_array ∷ items)) ≡ true },
}

impl<'t, 'a> Items<'t, 'a> {
    ghost use Rattle.json_data.specs.View.{items_view, view};

    pub(crate) fn new(items: json::Items<'t, 'a>) -> Items<'t, 'a>
        requires { is_some (data_at (begin_array ∷ items)) ≡ true }
        ensures { items_view result ≡ rest_of items.entry }
    {
        Items { items }
    }

    /// The next item, `None` past the last.
    pub fn next(&mut self) -> Option<Item<'t, 'a>>
        ensures { MatchOption result (items_view self.old ≡ no_items)
            (λ first. items_view self.old ≡ item (view first) (items_view self.new)) }
    {
        match self.items.next() {
            Some(element) => Some(Item::new(element)),
            None => None,
        }
    }
}
