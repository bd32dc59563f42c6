//! Lists of numbered items, each item in one list at most.
ghost use Rattle.std.specs.Prelude.{◌≡◌, ◌↔◌, ℕ, ◌+◌, ◌<◌, ◌≤◌, ◌^◌, ◌∷◌, ◌++◌, [], Some, None, is_some, true, nat_lt, if◌then◌else◌, length, map, drop, option_map, slice_index, IsTrue, IfOk, IfSome, nat_le};
ghost use Rattle.std.specs.List.{prefix_len, insert};
ghost use Rattle.list_orders.specs.Search.{inserted, placed, ranked};
ghost use Rattle.index_lists.specs.Listed.{empty_lists, list_at, with_list, has_item, list_of, key_of, without_item, items_of, first_of, first_entry, last_entry, next_of, lowest_first, keyed, raised, EachInOneList};
ghost use Rattle.index_lists.specs.Rings.{first_or};

use crate::links::{
    Home, Link, link_before, lone_nodes, move_before, no_homes, no_lens, raise_homes, unlink,
};
use std::alloc::{AllocError, Global};
use std::marker::Model;

/// Items in lists. Items and lists are numbers from 0 on.
#[derive(Debug)]
pub struct Lists {
    items: u32,
    /// The items, and after them the ends of the lists (`xListEnd`): each end closes the ring of
    /// its list's items. The link of an item that is in no list is an old one.
    links: Vec<Link>,
    /// Per item.
    homes: Vec<Option<Home>>,
    /// Per list.
    lens: Vec<u32>,
}

// Written out, so that whoever drops one has one call to prove, and not one for each list in it.
impl Drop for Lists {
    fn drop(self) {
        let Lists {
            items: _,
            links: _,
            homes: _,
            lens: _,
        } = self;
    }
}

impl Model for Lists {
    ghost use Rattle.index_lists.specs.Listed.{ListsView};
    ghost use Rattle.index_lists.specs.Shape.{seen_lists, IsShape};

    ghost Value = { ListsView };

    ghost view = { λ of. seen_lists of.items of.links.items of.homes.items of.lens.items };

    ghost invariant = { λ of. IsShape of.items of.links.items of.homes.items of.lens.items };
}

impl Lists {
    /// So many items, none of them in a list, and so many lists.
    pub fn new(alloc: Global, items: u32, lists: u32) -> Result<Self, AllocError>
        requires { items + lists < 2 ^ 32 }
        ensures { IfOk result (λ new. new ≡ empty_lists items lists) }
    {
        Ok(Lists {
            items,
            links: lone_nodes(alloc, items + lists)?,
            homes: no_homes(alloc, items)?,
            lens: no_lens(alloc, lists)?,
        })
    }

    /// A second value, equal to this one.
    pub fn copy(&self, alloc: Global) -> Result<Self, AllocError>
        ensures { IfOk result (λ copy. copy ≡ self.now) }
    {
        Ok(Lists {
            items: self.items,
            links: Vec::from_slice(alloc, &self.links)?,
            homes: Vec::from_slice(alloc, &self.homes)?,
            lens: Vec::from_slice(alloc, &self.lens)?,
        })
    }

    /// This becomes equal to the other, which has as many items and lists. No memory is taken.
    pub fn copy_from(&mut self, other: &Self)
        requires items { self.old.items ≡ other.now.items }
        requires lists { length self.old.lists ≡ length other.now.lists }
        ensures { self.new ≡ other.now }
    {
        // Where there is no list, no item has a neighbour or a home.
        if self.lens.is_empty() {
            return;
        }
        self.links.copy_from_slice(&other.links);
        self.homes.copy_from_slice(&other.homes);
        self.lens.copy_from_slice(&other.lens);
    }

    /// The item goes to the end of the list, with key 0.
    pub fn push_last(&mut self, list: u32, item: u32)
        requires list { list < length self.old.lists }
        requires item { item < self.old.items }
        requires free { list_of item self.old ≡ None }
        ensures { self.new
            ≡ with_list list (list_at self.old list ++ record { item = item; key = 0 } ∷ [])
            self.old }
    {
        self.push_keyed(list, item, 0);
    }

    /// The item goes to the end of the list, with the key.
    pub fn push_keyed(&mut self, list: u32, item: u32, key: u32)
        requires list { list < length self.old.lists }
        requires item { item < self.old.items }
        requires free { list_of item self.old ≡ None }
        ensures { self.new
            ≡ with_list list (list_at self.old list ++ record { item = item; key = key } ∷ [])
            self.old }
    {
        self.insert(Home { list, key }, item, self.end_of(list));
    }

    /// The item, which is in the list, goes to the end of it, with key 0.
    pub fn move_last(&mut self, list: u32, item: u32)
        requires list { list < length self.old.lists }
        requires item { item < self.old.items }
        requires listed { list_of item self.old ≡ Some list }
        ensures { self.new
            ≡ with_list list
            (without_item item (list_at self.old list) ++ record { item = item; key = 0 } ∷ [])
            (record self.old { lists = map (without_item item) self.old.lists }) }
    {
        let end = self.end_of(list);
        move_before(&mut self.links, item, end);
        self.homes[item as usize] = Some(Home { list, key: 0 });
    }

    /// The item goes before the first of a greater key, or to the end where there is none. A list
    /// in the order of its keys, the lowest first, stays so, and the item then stands after all of
    /// its own key.
    pub fn insert_sorted(&mut self, list: u32, item: u32, key: u32)
        requires list { list < length self.old.lists }
        requires item { item < self.old.items }
        requires free { list_of item self.old ≡ None }
        ensures inserted { self.new
            ≡ with_list list
            (inserted lowest_first (record { item = item; key = key }) (list_at self.old list))
            self.old }
        ensures in_order { ranked lowest_first (list_at self.old list) ≡ list_at self.old list
            → self.new
            ≡ with_list list
            (placed lowest_first (record { item = item; key = key }) (list_at self.old list))
            self.old }
    {
        let next = self.place_of(list, key);
        self.insert(Home { list, key }, item, next);
    }

    /// The item, where it is in a list, has this key from now on. No item moves.
    pub fn set_key(&mut self, item: u32, key: u32)
        requires { item < self.old.items }
        ensures { self.new
            ≡ record self.old { lists = map (map (keyed item key)) self.old.lists } }
    {
        if let Some(home) = self.homes[item as usize] {
            self.homes[item as usize] = Some(Home {
                list: home.list,
                key,
            });
        }
    }

    /// The item leaves its list; where it is in none, nothing changes.
    pub fn remove(&mut self, item: u32)
        requires { item < self.old.items }
        ensures { self.new
            ≡ record self.old { lists = map (without_item item) self.old.lists } }
    {
        if let Some(home) = self.homes[item as usize] {
            unlink(&mut self.links, item);
            self.homes[item as usize] = None;
            self.lens[home.list as usize] -= 1;
        }
    }

    /// The first item of the list leaves it, and is given with the key that it had; none where the
    /// list is empty.
    pub fn pop_first(&mut self, list: u32) -> Option<(u32, u32)>
        requires { list < length self.old.lists }
        ensures first { result ≡ first_entry (list_at self.old list) }
        ensures rest { self.new ≡ with_list list (drop 1 (list_at self.old list)) self.old }
        ensures free { IfSome result (λ entry. list_of entry.0 self.new ≡ None) }
        ensures item { IfSome result (λ entry. entry.0 < self.old.items) }
    {
        let item = self.first(list)?;
        let home = self.homes[item as usize]?;
        self.remove(item);
        Some((item, home.key))
    }

    /// The key of each item in a list becomes so many higher, modulo 2^32. No item moves.
    pub fn raise_keys(&mut self, by: u32)
        ensures { self.new
            ≡ record self.old { lists = map (map (raised by)) self.old.lists } }
    {
        raise_homes(self.homes.as_mut_slice(), by);
    }

    /// The first item of the list; none where it is empty.
    pub fn first(&self, list: u32) -> Option<u32>
        requires { list < length self.now.lists }
        ensures first { result ≡ first_of (list_at self.now list) }
        ensures item { IfSome result (λ item. item < self.now.items) }
    {
        self.item_at(self.links[self.end_of(list) as usize].next)
    }

    /// The first item of the list and its key; none where it is empty.
    pub fn first_entry(&self, list: u32) -> Option<(u32, u32)>
        requires { list < length self.now.lists }
        ensures { result ≡ first_entry (list_at self.now list) }
    {
        self.entry_at(self.links[self.end_of(list) as usize].next)
    }

    /// The last item of the list and its key; none where it is empty.
    pub fn last_entry(&self, list: u32) -> Option<(u32, u32)>
        requires { list < length self.now.lists }
        ensures { result ≡ last_entry (list_at self.now list) }
    {
        self.entry_at(self.links[self.end_of(list) as usize].prev)
    }

    /// The item that stands right after this one; none where this one is the last of its list, or
    /// in no list.
    pub fn next(&self, item: u32) -> Option<u32>
        requires { item < self.now.items }
        ensures next { result ≡ next_of item self.now }
        ensures place { (list k : ℕ) → list < length self.now.lists
            → k < length (list_at self.now list)
            → slice_index (items_of (list_at self.now list)) k ≡ item
            → result ≡ first_of (drop (k + 1) (list_at self.now list)) }
        ensures item { IfSome result (λ item. item < self.now.items) }
    {
        match self.homes[item as usize] {
            Some(_) => self.item_at(self.links[item as usize].next),
            None => None,
        }
    }

    /// The item that stands right after this one, which is in a list; none where it is the last of
    /// it.
    pub fn next_listed(&self, item: u32) -> Option<u32>
        requires item { item < self.now.items }
        requires listed { is_some (list_of item self.now) ≡ true }
        ensures next { result ≡ next_of item self.now }
        ensures place { (list k : ℕ) → list < length self.now.lists
            → k < length (list_at self.now list)
            → slice_index (items_of (list_at self.now list)) k ≡ item
            → result ≡ first_of (drop (k + 1) (list_at self.now list)) }
        ensures item { IfSome result (λ item. item < self.now.items) }
    {
        self.item_at(self.links[item as usize].next)
    }

    /// How many items the list has.
    pub fn len(&self, list: u32) -> u32
        requires { list < length self.now.lists }
        ensures { result ≡ length (list_at self.now list) }
    {
        self.lens[list as usize]
    }

    /// The list that the item is in, which is one at most; none where it is in none.
    pub fn list_of(&self, item: u32) -> Option<u32>
        requires { item < self.now.items }
        ensures list { result ≡ list_of item self.now }
        ensures only { (list : ℕ)
            → IsTrue (has_item item (list_at self.now list)) ↔ (result ≡ Some list) }
        ensures each { EachInOneList self.now }
    {
        match self.homes[item as usize] {
            Some(home) => Some(home.list),
            None => None,
        }
    }

    /// The key of the item in its list; none where it is in none.
    pub fn key_of(&self, item: u32) -> Option<u32>
        requires { item < self.now.items }
        ensures key { result ≡ key_of item self.now }
        ensures each { EachInOneList self.now }
    {
        match self.homes[item as usize] {
            Some(home) => Some(home.key),
            None => None,
        }
    }

    /// Whether the list has the same items with the same keys, in the same order, as a list of the
    /// other.
    pub fn has_same_entries(&self, list: u32, other: &Self, other_list: u32) -> bool
        requires one { list < length self.now.lists }
        requires other { other_list < length other.now.lists }
        ensures { IsTrue result ↔ (list_at self.now list ≡ list_at other.now other_list) }
    {
        if self.len(list) != other.len(other_list) {
            return false;
        }
        let mut mine = self.links[self.end_of(list) as usize].next;
        let mut theirs = other.links[other.end_of(other_list) as usize].next;
        for _step in 0..self.len(list) {
            if theirs != mine {
                return false;
            }
            if self.key_of(mine) != other.key_of(theirs) {
                return false;
            }
            mine = self.links[mine as usize].next;
            theirs = other.links[theirs as usize].next;
        }
        true
    }

    /// Whether the list has the same items in both, in the same order.
    pub fn has_same_list(&self, other: &Self, list: u32) -> bool
        requires one { list < length self.now.lists }
        requires other { list < length other.now.lists }
        ensures { IsTrue result ↔
            (items_of (list_at self.now list) ≡ items_of (list_at other.now list)) }
    {
        if self.len(list) != other.len(list) {
            return false;
        }
        let mut mine = self.links[self.end_of(list) as usize].next;
        let mut theirs = other.links[other.end_of(list) as usize].next;
        for _step in 0..self.len(list) {
            if mine != theirs {
                return false;
            }
            mine = self.links[mine as usize].next;
            theirs = other.links[theirs as usize].next;
        }
        true
    }

    // The node that closes the ring of the list.
    fn end_of(&self, list: u32) -> u32
        requires { list < length self.now.lists }
        ensures { result ≡ self.now.items + list }
    {
        self.items + list
    }

    // The item that the node is; none where it is the end of a list.
    fn item_at(&self, node: u32) -> Option<u32>
        ensures { result ≡ (if nat_lt node self.now.items then Some node else None) }
    {
        (node < self.items).then_some(node)
    }

    // The item that the node is, and its key; none where it is the end of a list.
    fn entry_at(&self, node: u32) -> Option<(u32, u32)>
        ensures { result
            ≡ (if nat_lt node self.now.items
            then option_map (λ key. (node, key)) (key_of node self.now) else None) }
    {
        if node < self.items {
            self.key_of(node).map(|key| (node, key))
        } else {
            None
        }
    }

    // The node before which an item with the key goes.
    fn place_of(&self, list: u32, key: u32) -> u32
        requires { list < length self.now.lists }
        ensures { result
            ≡ first_or (self.now.items + list)
            (items_of
            (drop (prefix_len (λ entry. nat_le entry.key key) (list_at self.now list))
            (list_at self.now list))) }
    {
        let mut at = self.links[self.end_of(list) as usize].next;
        for _step in 0..self.lens[list as usize] {
            match self.homes[at as usize] {
                Some(home) if home.key <= key => at = self.links[at as usize].next,
                _ => return at,
            }
        }
        at
    }

    // The item goes before the node, which is one of the list or its end.
    fn insert(&mut self, home: Home, item: u32, next: u32)
        requires list { home.list < length self.old.lists }
        requires item { item < self.old.items }
        requires free { list_of item self.old ≡ None }
        requires place { (k : ℕ) × (k ≤ length (list_at self.old home.list))
            × (next ≡ first_or (self.old.items + home.list)
            (items_of (drop k (list_at self.old home.list)))) }
        ensures { (k : ℕ) → k ≤ length (list_at self.old home.list)
            → next ≡ first_or (self.old.items + home.list)
            (items_of (drop k (list_at self.old home.list)))
            → self.new
            ≡ with_list home.list
            (insert (list_at self.old home.list) k (record { item = item; key = home.key }))
            self.old }
    {
        link_before(&mut self.links, item, next);
        self.homes[item as usize] = Some(home);
        self.lens[home.list as usize] += 1;
    }
}
