//! Assertions of tests. An assertion that is a call is proved once, and not in each test.
//!
//! No library may have a function that ends the process. So this file stands in each crate of tests
//! that asserts, and is the same in all.

use board_text::Board;
use fakes::{TextDifference, read_board};
use std::alloc::Global;
use std::fmt::Debug;
use std::process::Abort;

/// Asserts that the value found at a place is the one that is wanted there.
pub fn assert_same<T: PartialEq + Debug + Copy, P: Debug + Copy>(
    rt: &impl Abort,
    place: P,
    found: T,
    wanted: T,
) {
    assert_eq!(rt; found, wanted, "at {place:?}");
}

/// Asserts that the text found at a place is the one that is wanted there.
pub fn assert_text<P: Debug + Copy>(rt: &impl Abort, place: P, found: &[u8], wanted: &[u8]) {
    if let Some(difference) = TextDifference::of(found, wanted) {
        panic!(rt; "at {place:?}: {difference}");
    }
}

/// The board that has this text.
pub fn board_of(rt: &impl Abort, alloc: Global, text: &str) -> Board {
    read_board(alloc, text.as_bytes()).expect(rt, "a board's text")
}
