//! Items that come to lists and leave them.
ghost use Rattle.std.specs.Prelude.{◌≡◌, ◌<◌, All, length};

use crate::expected::expect_same;
use index_lists::Lists;
use std::process::Abort;
use std::test::Fail;

/// The list has these items and no more, in this order.
fn check_list(rt: &impl Abort, lists: &Lists, list: u32, items: &[u32])
    requires list { list < length lists.now.lists }
    requires items { All (λ item. item < lists.now.items) items.now }
{
    expect_same(rt, lists.len(list) as usize, items.len());
    let mut next = lists.first(list);
    for item in items {
        expect_same(rt, next, Some(*item));
        next = lists.next(*item);
    }
    expect_same(rt, next, None);
}

fn check_home(rt: &impl Abort, lists: &Lists, item: u32, list: Option<u32>)
    requires { item < lists.now.items }
{
    expect_same(rt, lists.list_of(item), list);
}

/// The item is in no list, so none comes after it.
fn check_gone(rt: &impl Abort, lists: &Lists, item: u32)
    requires { item < lists.now.items }
{
    check_home(rt, lists, item, None);
    expect_same(rt, lists.next(item), None);
}

fn check_next(rt: &impl Abort, lists: &Lists, item: u32, next: Option<u32>)
    requires { item < lists.now.items }
{
    assert!(rt; lists.list_of(item).is_some());
    expect_same(rt, lists.next_listed(item), next);
}

/// The two lists, one of each, have the same items and keys, or not.
fn check_same(rt: &impl Abort, lists: &Lists, list: u32, others: &Lists, other: u32, is_same: bool)
    requires one { list < length lists.now.lists }
    requires other { other < length others.now.lists }
{
    expect_same(rt, lists.has_same_entries(list, others, other), is_same);
}

#[test]
fn copies_keep_what_leaves(rt: HostRuntime) -> Result<(), Fail> {
    let mut lists = Lists::new(rt.alloc(), 4, 2)?;
    lists.push_last(0, 3);
    lists.push_last(0, 1);
    let copy = lists.copy(rt.alloc())?;
    lists.remove(3);
    check_list(&rt, &lists, 0, &[1]);
    check_gone(&rt, &lists, 3);
    check_list(&rt, &copy, 0, &[3, 1]);
    check_home(&rt, &copy, 3, Some(0));
    Ok(())
}

#[test]
fn item_goes_to_the_end(rt: HostRuntime) -> Result<(), Fail> {
    let mut lists = Lists::new(rt.alloc(), 4, 2)?;
    lists.push_last(0, 3);
    lists.push_last(0, 1);
    lists.move_last(0, 3);
    check_list(&rt, &lists, 0, &[1, 3]);
    Ok(())
}

#[test]
fn keys_rise_and_wrap(rt: HostRuntime) -> Result<(), Fail> {
    let mut lists = Lists::new(rt.alloc(), 4, 2)?;
    lists.push_keyed(0, 3, 4_294_967_290);
    lists.push_keyed(0, 1, 7);
    lists.raise_keys(10);
    expect_same(&rt, lists.first_entry(0), Some((3, 4)));
    expect_same(&rt, lists.last_entry(0), Some((1, 17)));
    expect_same(&rt, lists.first_entry(1), None);
    expect_same(&rt, lists.last_entry(1), None);
    Ok(())
}

#[test]
fn lists_become_others(rt: HostRuntime) -> Result<(), Fail> {
    let mut lists = Lists::new(rt.alloc(), 4, 2)?;
    let mut others = Lists::new(rt.alloc(), 4, 2)?;
    lists.push_last(0, 3);
    others.copy_from(&lists);
    check_list(&rt, &others, 0, &[3]);
    check_same(&rt, &others, 0, &lists, 0, true);
    Ok(())
}

#[test]
#[tactic(auto, unfolding(list_orders::specs::Search::placed, list_orders::specs::Search::ranked))]
fn equal_keys_stand_in_their_order(rt: HostRuntime) -> Result<(), Fail> {
    let mut lists = Lists::new(rt.alloc(), 4, 2)?;
    lists.insert_sorted(1, 0, 5);
    lists.insert_sorted(1, 2, 5);
    check_list(&rt, &lists, 1, &[0, 2]);
    check_list(&rt, &lists, 0, &[]);
    check_next(&rt, &lists, 0, Some(2));
    check_next(&rt, &lists, 2, None);
    Ok(())
}

#[test]
#[tactic(auto, unfolding(list_orders::specs::Search::placed, list_orders::specs::Search::ranked))]
fn the_lowest_key_is_first(rt: HostRuntime) -> Result<(), Fail> {
    let mut lists = Lists::new(rt.alloc(), 3, 1)?;
    lists.insert_sorted(0, 0, 4_294_967_295);
    lists.insert_sorted(0, 1, 0);
    lists.insert_sorted(0, 2, 7);
    check_list(&rt, &lists, 0, &[1, 2, 0]);
    lists.remove(0);
    lists.remove(0);
    lists.remove(1);
    check_list(&rt, &lists, 0, &[2]);
    Ok(())
}

fn check_keys(rt: &impl Abort, lists: &Lists)
    requires { lists.now.items ≡ 2 }
{
    expect_same(rt, (lists.key_of(1), lists.key_of(0)), (Some(7), None));
}

#[test]
#[tactic(auto, unfolding(list_orders::specs::Search::placed, list_orders::specs::Search::ranked))]
fn lists_of_other_keys_differ(rt: HostRuntime) -> Result<(), Fail> {
    let mut lists = Lists::new(rt.alloc(), 2, 2)?;
    lists.insert_sorted(0, 1, 7);
    let copy = lists.copy(rt.alloc())?;
    check_keys(&rt, &lists);
    check_same(&rt, &lists, 0, &copy, 0, true);
    check_same(&rt, &lists, 0, &copy, 1, false);
    lists.remove(1);
    lists.insert_sorted(1, 1, 7);
    check_same(&rt, &lists, 1, &copy, 0, true);
    lists.remove(1);
    lists.insert_sorted(1, 1, 8);
    check_same(&rt, &lists, 1, &copy, 0, false);
    Ok(())
}

#[test]
fn item_with_another_key_stays_in_its_place(rt: HostRuntime) -> Result<(), Fail> {
    let mut lists = Lists::new(rt.alloc(), 4, 2)?;
    lists.push_keyed(0, 3, 5);
    lists.push_keyed(0, 1, 7);
    lists.set_key(3, 8);
    lists.set_key(2, 9);
    expect_same(&rt, lists.first_entry(0), Some((3, 8)));
    expect_same(&rt, lists.last_entry(0), Some((1, 7)));
    check_home(&rt, &lists, 2, None);
    lists.insert_sorted(0, 2, 7);
    check_list(&rt, &lists, 0, &[2, 3, 1]);
    Ok(())
}

#[test]
fn items_leave_at_the_front_and_come_at_the_end(rt: HostRuntime) -> Result<(), Fail> {
    let mut lists = Lists::new(rt.alloc(), 3, 2)?;
    lists.push_keyed(0, 2, 4_294_967_295);
    lists.push_keyed(0, 1, 7);
    let first = lists.pop_first(0);
    expect_same(&rt, first, Some((2, 4_294_967_295)));
    check_list(&rt, &lists, 0, &[1]);
    check_gone(&rt, &lists, 2);
    expect_same(&rt, lists.pop_first(1), None);
    Ok(())
}
