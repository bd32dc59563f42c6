//! The nodes of rings: who stands before and after whom.
ghost use Rattle.std.specs.Prelude.{◌≡◌, ◌<◌, length, map, option_map, replicate, None, slice_set, slice_index, IfOk};
ghost use Rattle.list_orders.specs.Search.{numbers};
ghost use Rattle.index_lists.specs.Rings.{nexts, prevs, nexts_without, prevs_without};
ghost use Rattle.index_lists.specs.Shape.{raised_home};

use std::alloc::{AllocError, Global};

/// The neighbours of a node in its ring.
#[derive(Clone, Copy, Debug)]
pub(crate) struct Link {
    pub prev: u32,
    pub next: u32,
}

/// The list that an item stands in, and its key there (V11 list.h, `xItemValue`).
#[derive(Clone, Copy, Debug)]
pub(crate) struct Home {
    pub list: u32,
    pub key: u32,
}

/// So many nodes, each alone in its ring.
pub(crate) fn lone_nodes(alloc: Global, nodes: u32) -> Result<Vec<Link>, AllocError>
    ensures nexts { IfOk result (λ links. nexts links.items ≡ numbers nodes) }
    ensures prevs { IfOk result (λ links. prevs links.items ≡ numbers nodes) }
{
    let mut links = Vec::with_capacity(alloc, nodes as usize)?;
    for node in 0..nodes {
        links.push(Link {
            prev: node,
            next: node,
        })?;
    }
    Ok(links)
}

/// So many items that are in no list.
pub(crate) fn no_homes(alloc: Global, items: u32) -> Result<Vec<Option<Home>>, AllocError>
    ensures { IfOk result (λ homes. homes.items ≡ replicate items None) }
{
    vec![in alloc; None; items as usize]
}

/// So many lists without items.
pub(crate) fn no_lens(alloc: Global, lists: u32) -> Result<Vec<u32>, AllocError>
    ensures { IfOk result (λ lens. lens.items ≡ replicate lists 0) }
{
    vec![in alloc; 0; lists as usize]
}

/// The first node comes to stand right before the second, in that one's ring.
pub(crate) fn link_before(links: &mut [Link], node: u32, next: u32)
    requires node { node < length links.old }
    requires next { next < length links.old }
    requires prev { slice_index (prevs links.old) next < length links.old }
    ensures nexts { nexts links.new
        ≡ slice_set (slice_set (nexts links.old) (slice_index (prevs links.old) next) node) node
        next }
    ensures prevs { prevs links.new
        ≡ slice_set (slice_set (prevs links.old) node (slice_index (prevs links.old) next)) next
        node }
    ensures nodes { length links.new ≡ length links.old }
{
    let prev = links[next as usize].prev;
    join(links, prev, node);
    join(links, node, next);
}

/// The node's neighbours come to stand beside each other.
pub(crate) fn unlink(links: &mut [Link], node: u32)
    requires node { node < length links.old }
    requires next { slice_index (nexts links.old) node < length links.old }
    requires prev { slice_index (prevs links.old) node < length links.old }
    ensures nexts { nexts links.new ≡ nexts_without node links.old }
    ensures prevs { prevs links.new ≡ prevs_without node links.old }
    ensures nodes { length links.new ≡ length links.old }
{
    let Link { prev, next } = links[node as usize];
    join(links, prev, next);
}

/// The first node leaves its neighbours, and comes to stand right before the second.
pub(crate) fn move_before(links: &mut [Link], node: u32, next: u32)
    requires node { node < length links.old }
    requires next { next < length links.old }
    requires after { slice_index (nexts links.old) node < length links.old }
    requires before { slice_index (prevs links.old) node < length links.old }
    requires prev { slice_index (prevs_without node links.old) next < length links.old }
    ensures nexts { nexts links.new
        ≡ slice_set
        (slice_set (nexts_without node links.old) (slice_index (prevs_without node links.old) next)
        node) node next }
    ensures prevs { prevs links.new
        ≡ slice_set
        (slice_set (prevs_without node links.old) node
        (slice_index (prevs_without node links.old) next)) next node }
    ensures nodes { length links.new ≡ length links.old }
{
    unlink(links, node);
    link_before(links, node, next);
}

// The second node stands right after the first.
fn join(links: &mut [Link], prev: u32, next: u32)
    requires prev { prev < length links.old }
    requires next { next < length links.old }
    ensures nexts { nexts links.new ≡ slice_set (nexts links.old) prev next }
    ensures prevs { prevs links.new ≡ slice_set (prevs links.old) next prev }
    ensures nodes { length links.new ≡ length links.old }
{
    links[prev as usize].next = next;
    links[next as usize].prev = prev;
}

/// The key of each home becomes so many higher, modulo 2^32.
pub(crate) fn raise_homes(homes: &mut [Option<Home>], by: u32)
    ensures { homes.new ≡ map (option_map (raised_home by)) homes.old }
{
    for home in homes {
        *home = raised_home(*home, by);
    }
}

fn raised_home(home: Option<Home>, by: u32) -> Option<Home>
    ensures { result ≡ option_map (raised_home by) home }
{
    home.map(|home| Home {
        list: home.list,
        key: home.key.wrapping_add(by),
    })
}
