//! The calls of classes, by classes that are written out on paper.
//!
//! A run of the tests may refuse one growth of memory, whichever. So a call that was refused one is
//! made once more.

ghost use Rattle.std.specs.Prelude.{ℕ, ◌-◌, ◌<◌, ◌≤◌, IfSome, length};
ghost use Rattle.board_text.specs.PlainBoard.{places};
ghost use Rattle.classes.specs.Classes.{Falls};
ghost use Rattle.classes.specs.Lists.{AreClassLists};

use crate::assertions::{assert_same, board_of};
use crate::classes_of_boards::classes_of;
use board_text::{Board, MAX_PEBBLES};
use classes::{ClassNumbers, Places};
use fakes::boards::THREE_PEBBLES;
use std::alloc::Global;
use std::process::Abort;

/// The classes of three pebbles on three labels.
const CLASSES: [[u16; 3]; 10] = [
    [0, 0, 0],
    [1, 0, 0],
    [1, 1, 0],
    [1, 1, 1],
    [2, 0, 0],
    [2, 1, 0],
    [2, 1, 1],
    [2, 2, 0],
    [2, 2, 1],
    [2, 2, 2],
];

/// The gaps, those of two pebbles.
const GAPS: [[u16; 2]; 6] = [[0, 0], [1, 0], [1, 1], [2, 0], [2, 1], [2, 2]];

/// The members of each gap with the places 0, 1 and 2.
const MEMBERS: [[u64; 3]; 6] = [
    [0, 1, 4],
    [1, 2, 5],
    [2, 3, 6],
    [4, 5, 7],
    [5, 6, 8],
    [7, 8, 9],
];

/// The gaps at the places of each class.
const GAPS_OF_CLASSES: [[u64; 3]; 10] = [
    [0, 0, 0],
    [0, 1, 1],
    [1, 1, 2],
    [2, 2, 2],
    [0, 3, 3],
    [1, 3, 4],
    [2, 4, 4],
    [3, 3, 5],
    [4, 4, 5],
    [5, 5, 5],
];

/// How many classes end in each gap's places and a least one.
const FAMILIES: [u16; 6] = [1, 1, 2, 1, 2, 3];

/// The classes of some pebbles, if the board has as many.
fn lists_of(alloc: Global, classes: &ClassNumbers, pebbles: u8) -> Option<Vec<Places>>
    ensures lists { IfSome result
        (λ lists. AreClassLists (places classes.now) pebbles lists.items) }
    ensures few { IfSome result (λ _. pebbles ≤ classes.now.pebbles) }
{
    if pebbles > classes.pebbles() {
        return None;
    }
    match classes.lists(alloc, pebbles) {
        Ok(lists) => Some(lists),
        Err(_) => classes.lists(alloc, pebbles).ok(),
    }
}

/// The number of a listed class, and the gaps at its first three places.
fn numbers_of(classes: &ClassNumbers, lists: &[Places], class: usize) -> (u64, [u64; 3])
    requires lists { AreClassLists (places classes.now) classes.now.pebbles lists.now }
    requires class { class < length lists.now }
{
    let places = lists[class].as_slice();
    let number = classes.number(places);
    let gaps = classes.gaps_of(places, number);
    (number, [gaps[0], gaps[1], gaps[2]])
}

/// The members of a listed gap with the places 0, 1 and 2, by a walk.
fn walked(classes: &ClassNumbers, lists: &[Places], gap: usize) -> [Option<u64>; 3]
    requires lists { AreClassLists (places classes.now) (classes.now.pebbles - 1) lists.now }
    requires gap { gap < length lists.now }
    requires some { 0 < classes.now.pebbles }
{
    let mut walk = classes.members(lists[gap].as_slice());
    [walk.take_next(), walk.take_next(), walk.take_next()]
}

/// The member of a listed gap with a place.
fn member_of(classes: &ClassNumbers, lists: &[Places], gap: usize, place: u16) -> u64
    requires lists { AreClassLists (places classes.now) (classes.now.pebbles - 1) lists.now }
    requires gap { gap < length lists.now }
    requires place { place < places classes.now }
    requires some { 0 < classes.now.pebbles }
{
    classes.member(lists[gap].as_slice(), place)
}

/// The number of places in the family of a listed gap.
fn least_places(classes: &ClassNumbers, lists: &[Places], gap: usize) -> u16
    requires lists { AreClassLists (places classes.now) (classes.now.pebbles - 1) lists.now }
    requires gap { gap < length lists.now }
{
    classes.least_places(lists[gap].as_slice())
}

/// Asserts the number of each class, and its gaps.
fn assert_classes(rt: &impl Abort, classes: &ClassNumbers, lists: &[Places])
    requires { AreClassLists (places classes.now) classes.now.pebbles lists.now }
{
    assert_same(rt, "classes", lists.len(), CLASSES.len());
    for class in 0..lists.len() {
        let (number, gaps) = numbers_of(classes, lists, class);
        assert_same(rt, ("class", class), number as usize, class);
        assert_same(
            rt,
            ("gaps of", class),
            Some(&gaps),
            GAPS_OF_CLASSES.get(class),
        );
        let places = CLASSES.get(class).map(|places| &places[..]);
        assert_same(
            rt,
            ("places of", class),
            Some(lists[class].as_slice()),
            places,
        );
    }
}

/// Asserts the places of each gap, and its members.
fn assert_gaps(rt: &impl Abort, classes: &ClassNumbers, lists: &[Places])
    requires lists { AreClassLists (places classes.now) (classes.now.pebbles - 1) lists.now }
    requires some { 0 < classes.now.pebbles }
{
    assert_same(rt, "gaps", lists.len(), GAPS.len());
    for gap in 0..lists.len() {
        let held = GAPS.get(gap).map(|places| &places[..]);
        assert_same(rt, ("places of", gap), Some(lists[gap].as_slice()), held);
        let wanted = MEMBERS.get(gap).copied().unwrap_or_default();
        let found = walked(classes, lists, gap);
        assert_same(
            rt,
            ("members of", gap),
            found,
            [Some(wanted[0]), Some(wanted[1]), Some(wanted[2])],
        );
        for place in 0..classes.places() {
            let member = member_of(classes, lists, gap, place);
            assert_same(rt, (gap, place), Some(&member), wanted.get(place as usize));
        }
    }
}

/// The numbers of classes of fewer pebbles on fewer places, if there are as many.
fn ways_of(classes: &ClassNumbers, pebbles: u8, bound: u16) -> Option<u64> {
    if pebbles <= classes.pebbles() && bound <= classes.places() {
        Some(classes.ways(pebbles, bound))
    } else {
        None
    }
}

#[test]
fn counts_of_classes(rt: HostRuntime) {
    let board = board_of(&rt, rt.alloc(), THREE_PEBBLES);
    let classes = classes_of(rt.alloc(), &board).expect(&rt, "classes");
    assert_same(&rt, "pebbles", classes.pebbles(), 3);
    assert_same(&rt, "places", classes.places(), 3);
    assert_same(&rt, "classes", classes.count(), 10);
    assert_same(&rt, "gaps", classes.gaps(), 6);
    assert_same(&rt, "on two places", ways_of(&classes, 3, 2), Some(4));
}

#[test]
fn numbers_of_classes(rt: HostRuntime) {
    let board = board_of(&rt, rt.alloc(), THREE_PEBBLES);
    let classes = classes_of(rt.alloc(), &board).expect(&rt, "classes");
    let pebbles = classes.pebbles();
    let lists = lists_of(rt.alloc(), &classes, pebbles).expect(&rt, "classes");
    assert_classes(&rt, &classes, &lists);
}

#[test]
fn members_of_gaps(rt: HostRuntime) {
    let board = board_of(&rt, rt.alloc(), THREE_PEBBLES);
    let classes = classes_of(rt.alloc(), &board).expect(&rt, "classes");
    let others = classes.pebbles() - 1;
    let lists = lists_of(rt.alloc(), &classes, others).expect(&rt, "gaps");
    assert_gaps(&rt, &classes, &lists);
}

/// Asserts how many places the family of each gap has.
fn assert_families(rt: &impl Abort, classes: &ClassNumbers, lists: &[Places])
    requires { AreClassLists (places classes.now) (classes.now.pebbles - 1) lists.now }
{
    assert_same(rt, "gaps", lists.len(), FAMILIES.len());
    for gap in 0..lists.len() {
        let many = least_places(classes, lists, gap);
        assert_same(rt, ("places of", gap), Some(&many), FAMILIES.get(gap));
    }
}

#[test]
fn families_of_gaps(rt: HostRuntime) {
    let board = board_of(&rt, rt.alloc(), THREE_PEBBLES);
    let classes = classes_of(rt.alloc(), &board).expect(&rt, "classes");
    let others = classes.pebbles() - 1;
    let lists = lists_of(rt.alloc(), &classes, others).expect(&rt, "gaps");
    assert_families(&rt, &classes, &lists);
}

/// Puts a place among the others, if there is room.
fn arrange(class: &mut Places, place: u16)
    requires { (bound : ℕ) × Falls bound class.old }
{
    if class.as_slice().len() < MAX_PEBBLES {
        class.arrange(place);
    }
}

/// The places with one before them and one after them, if there is room.
fn with_ends(held: &Places, first: u16, last: u16) -> Option<(Places, Places)> {
    if held.as_slice().len() < MAX_PEBBLES {
        Some((held.with_first(first), held.with_last(last)))
    } else {
        None
    }
}

/// The places with the first pebble on a place in two ways, and those of the others after 0, if
/// there is a pebble.
fn with_moved(held: &mut Places, place: u16) -> Option<(Places, Places)> {
    if held.count() == 0 {
        return None;
    }
    let moved = held.with(0, place);
    held.set(0, place);
    Some((moved, held.others_after_zero(0)))
}

#[test]
fn places_of_classes(rt: HostRuntime) {
    let mut class = Places::arranged(&[0, 2, 1]);
    assert_same(&rt, "class", class.as_slice(), &[2, 1, 0][..]);
    arrange(&mut class, 1);
    assert_same(&rt, "with 1", class.as_slice(), &[2, 1, 1, 0][..]);
    let (most, least) = with_ends(&class, 2, 0).expect(&rt, "room");
    assert_same(&rt, "2 before", most.as_slice(), &[2, 2, 1, 1, 0][..]);
    assert_same(&rt, "0 after", least.as_slice(), &[2, 1, 1, 0, 0][..]);
    assert_same(&rt, "none", Places::none().as_slice(), &[][..]);
}

#[test]
fn places_of_pebbles(rt: HostRuntime) {
    let mut held = Places::of(&[0, 2, 1]);
    assert_same(&rt, "places", held.as_slice(), &[0, 2, 1][..]);
    let (moved, others) = with_moved(&mut held, 3).expect(&rt, "a pebble");
    assert_same(&rt, "moved", moved.as_slice(), &[3, 2, 1][..]);
    assert_same(&rt, "set", held.as_slice(), &[3, 2, 1][..]);
    assert_same(&rt, "others", others.as_slice(), &[0, 2, 1][..]);
    let first = Places::first_of(&[5, 4, 3, 2, 1, 0], 2);
    assert_same(&rt, "first", first.as_slice(), &[5, 4][..]);
}
