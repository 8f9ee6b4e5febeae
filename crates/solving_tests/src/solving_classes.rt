//! Solving by classes: a worked board round by round.
//!
//! A run of the tests may refuse one growth of memory, whichever. So a call that was refused one is
//! made once more.

use crate::assertions::{assert_same, board_of};
use crate::solving::{assert_known, open_classes};
use crate::solving_calls::assert_filed;
use fakes::boards::CHAIN_OF_THREE;
use index_lists::{LinkLists, ListStore, PlainLists};
use solver::Progress;
use std::alloc::Global;
use std::process::Abort;

/// The classes of the chain of three labels with a request that has no answer: those with a pebble
/// on label 2. The classes are 00, 10, 11, 20, 21 and 22, in this order.
const STUCK: [Option<u32>; 6] = [Some(3), Some(4), Some(5), None, None, None];

/// A chain of three labels, round by round.
fn chain<S: ListStore + Drop>(rt: &impl Abort, alloc: Global) {
    let board = board_of(rt, alloc, CHAIN_OF_THREE);
    let mut solver = open_classes::<S>(rt, alloc, &board);
    assert_same(rt, "classes", solver.graph().configurations(), 6);
    assert_filed(rt, &solver, &[(0, STUCK), (1, [None; 6])]);
    assert_same(rt, "value 1", solver.round(), Progress::Filed(2));
    assert_same(rt, "value 2", solver.round(), Progress::Filed(1));
    assert_same(rt, "value 3", solver.round(), Progress::Done);
    assert_known(rt, &solver, &[2, 1, 1, 0, 0, 0]);
}

#[test]
fn classes_of_a_chain(rt: HostRuntime) {
    chain::<PlainLists>(&rt, rt.alloc());
    chain::<LinkLists>(&rt, rt.alloc());
}
