//! Worked lists at both stores, and both stores under the same operations.
//!
//! A run of the tests may refuse one growth of memory, whichever. So a call that was refused one is
//! made once more.

ghost use Rattle.std.specs.Prelude.{◌≡◌, ◌<◌};

use crate::assertions::assert_same;
use board_text::Memory;
use fakes::Draws;
use index_lists::{LinkLists, ListStore, PlainLists};
use std::alloc::Global;
use std::process::Abort;

/// The number of nodes of the stores for which operations are drawn.
const NODES: u32 = 24;

/// The number of their lists.
const LISTS: u32 = 5;

/// The number of operations that are drawn.
const OPERATIONS: u32 = 10_000;

/// The store of `new`, which is asked once more if it was refused memory.
fn make<S: ListStore>(rt: &impl Abort, alloc: Global, nodes: u32, lists: u32) -> S
    ensures nodes { (S.state result).nodes ≡ nodes }
    ensures lists { (S.state result).lists ≡ lists }
{
    let made: Result<S, Memory> = match S::new(alloc, nodes, lists) {
        Err(Memory) => S::new(alloc, nodes, lists),
        made => made,
    };
    made.expect(rt, "a store")
}

/// Appends a node, if it is in no list, and tells whether it was in none.
fn push<S: ListStore>(store: &mut S, to: u32, node: u32) -> bool
    requires to_in { to < (S.state store.old).lists }
    requires node_in { node < (S.state store.old).nodes }
    ensures nodes_same { (S.state store.new).nodes ≡ (S.state store.old).nodes }
    ensures lists_same { (S.state store.new).lists ≡ (S.state store.old).lists }
{
    match store.home(node) {
        Some(_) => false,
        None => {
            store.push_back(to, node);
            true
        }
    }
}

/// Takes a node out of its list, if it is in one, and tells whether it was in one.
fn unlink<S: ListStore>(store: &mut S, node: u32) -> bool
    requires node_in { node < (S.state store.old).nodes }
    ensures nodes_same { (S.state store.new).nodes ≡ (S.state store.old).nodes }
    ensures lists_same { (S.state store.new).lists ≡ (S.state store.old).lists }
{
    match store.home(node) {
        Some(_) => {
            store.unlink(node);
            true
        }
        None => false,
    }
}

/// Asserts that a list is read as these nodes, from its first node on and from its last node on.
fn assert_list<S: ListStore>(rt: &impl Abort, place: &str, store: &S, of: u32, nodes: &[u32])
    requires { of < (S.state store.now).lists }
{
    let mut at = store.first(of);
    for wanted in nodes {
        assert_same(rt, (place, "forwards"), at, Some(*wanted));
        let node = at.expect(rt, place);
        assert_same(rt, (place, "home of", node), store.home(node), Some(of));
        at = store.next(node);
    }
    assert_same(rt, (place, "after the last"), at, None);
    assert_same(rt, (place, "length"), store.len(of) as usize, nodes.len());
    at = store.last(of);
    for wanted in nodes.iter().rev() {
        assert_same(rt, (place, "backwards"), at, Some(*wanted));
        at = store.prev(at.expect(rt, place));
    }
    assert_same(rt, (place, "before the first"), at, None);
}

/// The list of a node, and the nodes after and before it there.
fn around<S: ListStore>(store: &S, node: u32) -> [Option<u32>; 3]
    requires { node < (S.state store.now).nodes }
{
    [store.home(node), store.next(node), store.prev(node)]
}

/// Asserts that the two lists of a store are read as these nodes.
fn assert_both<S: ListStore>(rt: &impl Abort, place: &str, store: &S, first: &[u32], second: &[u32])
    requires { (S.state store.now).lists ≡ 2 }
{
    assert_list(rt, place, store, 0, first);
    assert_list(rt, place, store, 1, second);
}

/// Pushes of three nodes out of four, of which one is unlinked.
fn push_and_unlink<S: ListStore>(rt: &impl Abort, store: &mut S)
    requires nodes { (S.state store.old).nodes ≡ 4 }
    requires lists { (S.state store.old).lists ≡ 2 }
    ensures nodes { (S.state store.new).nodes ≡ 4 }
    ensures lists { (S.state store.new).lists ≡ 2 }
{
    assert_both(rt, "empty", store, &[], &[]);
    assert!(rt; push(store, 0, 3) & push(store, 0, 1) & push(store, 0, 2));
    assert_list(rt, "three nodes", store, 0, &[3, 1, 2]);
    assert!(rt; unlink(store, 1));
    assert_list(rt, "without 1", store, 0, &[3, 2]);
    assert_same(rt, "1", around(store, 1), [None; 3]);
    let beside = [store.next(3), store.prev(2), store.home(1)];
    assert_same(
        rt,
        "after 3, before 2, home of 1",
        beside,
        [Some(2), Some(3), None],
    );
}

/// Moves of nodes from a list with 3 and 2 to another.
fn move_between<S: ListStore>(rt: &impl Abort, store: &mut S)
    requires nodes { (S.state store.old).nodes ≡ 4 }
    requires lists { (S.state store.old).lists ≡ 2 }
{
    store.move_to(3, 1);
    assert_both(rt, "3 is moved", store, &[2], &[3]);
    store.move_to(2, 0);
    assert_both(rt, "2 stays", store, &[2], &[3]);
    store.move_to(1, 1);
    store.move_to(3, 1);
    assert_both(rt, "1 before 3", store, &[2], &[1, 3]);
    assert_same(rt, "0", around(store, 0), [None; 3]);
}

/// Pushes, unlinks and moves of four nodes in two lists.
fn four_nodes<S: ListStore>(rt: &impl Abort, store: &mut S)
    requires nodes { (S.state store.old).nodes ≡ 4 }
    requires lists { (S.state store.old).lists ≡ 2 }
{
    push_and_unlink(rt, store);
    move_between(rt, store);
}

/// Both ends of a list of three nodes are unlinked, and one comes back.
fn three_nodes<S: ListStore>(rt: &impl Abort, store: &mut S)
    requires nodes { (S.state store.old).nodes ≡ 3 }
    requires lists { (S.state store.old).lists ≡ 1 }
{
    assert!(rt; push(store, 0, 0) & push(store, 0, 1) & push(store, 0, 2));
    assert!(rt; unlink(store, 0) & unlink(store, 2));
    let ends = [store.first(0), store.last(0), store.next(1), store.prev(1)];
    assert_same(rt, "ends", ends, [Some(1), Some(1), None, None]);
    assert_same(rt, "length", store.len(0), 1);
    assert!(rt; push(store, 0, 0));
    assert_list(rt, "0 is back", store, 0, &[1, 0]);
    assert_same(rt, "before 0", store.prev(0), Some(1));
}

/// Stores of no node or no list.
fn empty_stores<S: ListStore + Drop>(rt: &impl Abort, alloc: Global) {
    let _nothing: S = make(rt, alloc, 0, 0);
    let no_node: S = make(rt, alloc, 0, 1);
    assert_list(rt, "no node", &no_node, 0, &[]);
    let no_list: S = make(rt, alloc, 1, 0);
    assert_same(rt, "no list", around(&no_list, 0), [None; 3]);
}

/// A store of one node and one list.
fn one_node<S: ListStore + Drop>(rt: &impl Abort, alloc: Global) {
    let mut one: S = make(rt, alloc, 1, 1);
    assert!(rt; push(&mut one, 0, 0));
    assert_list(rt, "one node", &one, 0, &[0]);
    one.move_to(0, 0);
    assert_list(rt, "moved to its list", &one, 0, &[0]);
    assert!(rt; unlink(&mut one, 0));
    assert_list(rt, "no node any more", &one, 0, &[]);
    assert_same(rt, "the node", around(&one, 0), [None; 3]);
}

/// Asserts the numbers of a vector of the number 7 when a list is appended to it.
fn assert_appended<S: ListStore>(rt: &impl Abort, alloc: Global, store: &S, of: u32, wanted: &[u32])
    requires { of < (S.state store.now).lists }
{
    let room = store.len(of) as usize + 1;
    let made = match Vec::with_capacity(alloc, room) {
        Err(_) => Vec::with_capacity(alloc, room),
        made => made,
    };
    let mut list = made.expect(rt, "room");
    list.push_reserved(7);
    store.append_list(of, &mut list);
    assert_same(rt, ("list", of), list.as_slice(), wanted);
}

/// Lists that were filled in turns, appended to a vector.
fn appended_lists<S: ListStore + Drop>(rt: &impl Abort, alloc: Global) {
    let mut store: S = make(rt, alloc, 4, 3);
    assert!(rt; push(&mut store, 1, 2) & push(&mut store, 0, 3) & push(&mut store, 1, 0));
    assert_appended(rt, alloc, &store, 1, &[7, 2, 0]);
    assert_appended(rt, alloc, &store, 0, &[7, 3]);
    assert_appended(rt, alloc, &store, 2, &[7]);
}

/// Makes one of the three operations, if it may be made.
fn operate<S: ListStore>(store: &mut S, operation: u32, node: u32, list: u32)
    requires node_in { node < (S.state store.old).nodes }
    requires list_in { list < (S.state store.old).lists }
    ensures nodes_same { (S.state store.new).nodes ≡ (S.state store.old).nodes }
    ensures lists_same { (S.state store.new).lists ≡ (S.state store.old).lists }
{
    match operation {
        0 => {
            push(store, list, node);
        }
        1 => {
            unlink(store, node);
        }
        _ => store.move_to(node, list),
    }
}

/// The ends of a list and its length.
fn ends_of<S: ListStore>(store: &S, of: u32) -> (Option<u32>, Option<u32>, u32)
    requires { of < (S.state store.now).lists }
{
    (store.first(of), store.last(of), store.len(of))
}

/// Asserts that all nodes and lists are read alike from both stores after an operation.
fn assert_alike<S: ListStore, T: ListStore>(rt: &impl Abort, operation: u32, store: &S, other: &T)
    requires store_nodes { (S.state store.now).nodes ≡ NODES }
    requires store_lists { (S.state store.now).lists ≡ LISTS }
    requires other_nodes { (T.state other.now).nodes ≡ NODES }
    requires other_lists { (T.state other.now).lists ≡ LISTS }
{
    for of in 0..LISTS {
        let place = ("after operation", operation, "list", of);
        assert_same(rt, place, ends_of(store, of), ends_of(other, of));
    }
    for node in 0..NODES {
        let place = ("after operation", operation, "node", node);
        assert_same(rt, place, around(store, node), around(other, node));
    }
}

#[test]
fn worked_lists(rt: HostRuntime) {
    let mut plain: PlainLists = make(&rt, rt.alloc(), 4, 2);
    four_nodes(&rt, &mut plain);
    let mut linked: LinkLists = make(&rt, rt.alloc(), 4, 2);
    four_nodes(&rt, &mut linked);
}

#[test]
fn ends_of_a_list(rt: HostRuntime) {
    let mut plain: PlainLists = make(&rt, rt.alloc(), 3, 1);
    three_nodes(&rt, &mut plain);
    let mut linked: LinkLists = make(&rt, rt.alloc(), 3, 1);
    three_nodes(&rt, &mut linked);
}

#[test]
fn smallest_sizes(rt: HostRuntime) {
    empty_stores::<PlainLists>(&rt, rt.alloc());
    empty_stores::<LinkLists>(&rt, rt.alloc());
    one_node::<PlainLists>(&rt, rt.alloc());
    one_node::<LinkLists>(&rt, rt.alloc());
}

#[test]
fn lists_are_appended(rt: HostRuntime) {
    appended_lists::<PlainLists>(&rt, rt.alloc());
    appended_lists::<LinkLists>(&rt, rt.alloc());
}

#[test]
fn stores_agree(rt: HostRuntime) {
    let mut plain: PlainLists = make(&rt, rt.alloc(), NODES, LISTS);
    let mut linked: LinkLists = make(&rt, rt.alloc(), NODES, LISTS);
    let mut draws = Draws::after(1);
    for turn in 0..OPERATIONS {
        let operation = draws.below(3);
        let node = draws.below(NODES);
        let list = draws.below(LISTS);
        operate(&mut plain, operation, node, list);
        operate(&mut linked, operation, node, list);
        assert_alike(&rt, turn, &plain, &linked);
    }
}
