//! Best answers, best requests and documents of solved boards.
//!
//! A run of the tests may refuse one growth of memory, whichever. So a call that was refused one is
//! made once more.

ghost use Rattle.std.specs.Prelude.{◌≡◌, IfOk};
ghost use Rattle.strategies.specs.Document.{IsMadeDocument};

use crate::assertions::{assert_same, assert_text, board_of};
use crate::documents::{check_document, print_document};
use board_text::{Board, Memory};
use fakes::boards::{
    CHAIN_OF_THREE, CYCLE_WITH_A_WAY_IN, CYCLE_WITHOUT_LABELS, LONE_LABEL, LONE_WITHOUT_LABEL,
    ONE_PAIR, PAIR_WITHOUT_LABELS, SHARED_LABEL, THREE_CYCLE, THREE_PEBBLES,
};
use fakes::documents::{
    CHAIN_VALUE_TWO, CYCLE_FOREVER, CYCLE_WITHOUT_LABELS_FOREVER, LONE_LABEL_FOREVER,
    LONE_WITHOUT_LABEL_FOREVER, PAIR_VALUE_ONE, PAIR_WITHOUT_LABELS_VALUE_TWO,
    SHARED_LABEL_VALUE_ZERO, THREE_PEBBLES_VALUE_ONE, WAY_IN_VALUE_ONE,
};
use fakes::{Shape, make_nested, shaped};
use index_lists::{LinkLists, ListStore, PlainLists};
use proof_check::{CheckFault, Shown};
use proof_text::{Claim, Proof};
use solved_boards::{values_of, values_over};
use solver::Values;
use std::alloc::Global;
use std::process::Abort;
use std::thread::Threads;
use strategies::{best_answer, best_request, document};

/// The answer of `document`, which is asked once more if it was refused memory.
pub(crate) fn document_of(alloc: Global, board: &Board, values: &Values) -> Result<Proof, Memory>
    requires { values.now ≡ board.now }
    ensures { IfOk result (IsMadeDocument board.now) }
{
    match document(alloc, board, values) {
        Err(Memory) => document(alloc, board, values),
        answer => answer,
    }
}

/// Asserts that the document of a board with these values has this text.
fn assert_written(rt: &impl Abort, alloc: Global, board: &Board, values: &Values, text: &str)
    requires { values.now ≡ board.now }
{
    let proof = document_of(alloc, board, values).expect(rt, "a document");
    let written = print_document(alloc, values.space(), &proof).expect(rt, "its text");
    assert_text(rt, text, written.as_bytes(), text.as_bytes());
}

/// Asserts that the document of the board with the first text has the second.
fn assert_document<S: ListStore + Drop>(rt: &impl Abort, alloc: Global, board: &str, text: &str) {
    let board = board_of(rt, alloc, board);
    let values = values_over::<S>(alloc, &board).expect(rt, "values");
    assert_written(rt, alloc, &board, &values, text);
}

#[test]
fn documents_of_worked_boards(rt: HostRuntime) {
    for (board, text) in [
        (THREE_CYCLE, CYCLE_FOREVER),
        (ONE_PAIR, PAIR_VALUE_ONE),
        (CHAIN_OF_THREE, CHAIN_VALUE_TWO),
        (LONE_LABEL, LONE_LABEL_FOREVER),
        (SHARED_LABEL, SHARED_LABEL_VALUE_ZERO),
        (CYCLE_WITH_A_WAY_IN, WAY_IN_VALUE_ONE),
        (THREE_PEBBLES, THREE_PEBBLES_VALUE_ONE),
        (PAIR_WITHOUT_LABELS, PAIR_WITHOUT_LABELS_VALUE_TWO),
        (CYCLE_WITHOUT_LABELS, CYCLE_WITHOUT_LABELS_FOREVER),
        (LONE_WITHOUT_LABEL, LONE_WITHOUT_LABEL_FOREVER),
    ] {
        assert_document::<PlainLists>(&rt, rt.alloc(), board, text);
        assert_document::<LinkLists>(&rt, rt.alloc(), board, text);
    }
}

/// The best answer to a request of a pebble at a configuration, if they are ones.
fn answer(board: &Board, values: &Values, rank: u32, pebble: u8) -> Option<Option<u16>>
    requires { values.now ≡ board.now }
{
    if rank < values.space().configurations() && pebble < board.pebbles() {
        Some(best_answer(board, values, rank, pebble))
    } else {
        None
    }
}

/// The best request at a configuration, if it is one.
fn request(board: &Board, values: &Values, rank: u32) -> Option<Option<u8>>
    requires { values.now ≡ board.now }
{
    if rank < values.space().configurations() {
        Some(best_request(board, values, rank))
    } else {
        None
    }
}

/// A configuration of two pebbles, the best answer to each request, and the best request.
#[derive(Clone, Copy)]
struct Best {
    labels: [u16; 2],
    answers: [Option<u16>; 2],
    request: Option<u8>,
}

/// The best moves at a configuration.
fn at(labels: [u16; 2], answers: [Option<u16>; 2], request: Option<u8>) -> Best {
    Best {
        labels,
        answers,
        request,
    }
}

/// Asserts the best moves at a rank.
fn assert_best_at(rt: &impl Abort, board: &Board, values: &Values, rank: u32, wanted: Best)
    requires { values.now ≡ board.now }
{
    let [of_first, of_second] = wanted.answers;
    assert_same(
        rt,
        ("pebble 0", rank),
        answer(board, values, rank, 0),
        Some(of_first),
    );
    assert_same(
        rt,
        ("pebble 1", rank),
        answer(board, values, rank, 1),
        Some(of_second),
    );
    assert_same(
        rt,
        ("request", rank),
        request(board, values, rank),
        Some(wanted.request),
    );
}

/// Asserts the best moves at configurations of a board with this number of labels.
fn assert_best(rt: &impl Abort, alloc: Global, text: &str, labels: u16, wanted: &[Best]) {
    let board = board_of(rt, alloc, text);
    let values = values_of(alloc, &board).expect(rt, "values");
    for best in wanted {
        let [first, second] = best.labels;
        let rank = u32::from(first) * u32::from(labels) + u32::from(second);
        assert_best_at(rt, &board, &values, rank, *best);
    }
}

#[test]
fn best_in_the_chain_of_three(rt: HostRuntime) {
    // An answer is greater than the other pebble's label. A smaller one lasts longer.
    let wanted = [
        at([0, 0], [Some(1), Some(1)], Some(0)),
        at([0, 1], [Some(2), Some(1)], Some(0)),
        at([0, 2], [None, Some(1)], Some(0)),
        at([1, 0], [Some(1), Some(2)], Some(1)),
        at([1, 1], [Some(2), Some(2)], Some(0)),
        at([1, 2], [None, Some(2)], Some(0)),
        at([2, 0], [Some(1), None], Some(1)),
        at([2, 1], [Some(2), None], Some(1)),
        at([2, 2], [None, None], Some(0)),
    ];
    assert_best(&rt, rt.alloc(), CHAIN_OF_THREE, 3, &wanted);
}

#[test]
fn best_on_a_way_into_the_cycle(rt: HostRuntime) {
    // At most one label dominates the other pebble's, and none dominates 4.
    let wanted = [
        at([0, 1], [Some(2), Some(1)], None),
        at([1, 1], [Some(2), Some(2)], None),
        at([0, 3], [Some(4), Some(1)], Some(0)),
        at([3, 0], [Some(1), Some(4)], Some(1)),
        at([3, 3], [Some(4), Some(4)], Some(0)),
        at([2, 4], [None, Some(0)], Some(0)),
        at([3, 4], [None, Some(4)], Some(0)),
        at([4, 0], [Some(1), None], Some(1)),
        at([4, 3], [Some(4), None], Some(1)),
        at([4, 4], [None, None], Some(0)),
    ];
    assert_best(&rt, rt.alloc(), CYCLE_WITH_A_WAY_IN, 5, &wanted);
}

/// The answer of the checker to a board's document, if the board isn't too large.
fn checked(
    rt: &(impl Threads + Sync),
    alloc: Global,
    board: &Board,
) -> Option<Result<Shown, CheckFault>> {
    let values = values_of(alloc, board)?;
    let Ok(proof) = document_of(alloc, board, &values) else {
        return None;
    };
    Some(check_document(rt, alloc, board, &proof))
}

/// Asserts that the checker accepts a board's document with the claim.
fn assert_accepted(rt: &(impl Abort + Threads + Sync), alloc: Global, board: &Board, claim: Claim) {
    assert_same(
        rt,
        claim,
        checked(rt, alloc, board),
        Some(Ok(Shown { claim })),
    );
}

#[test]
fn the_document_of_the_chain_of_all_labels(rt: HostRuntime) {
    let board = shaped(rt.alloc(), Shape::Order, 256, 2).expect(&rt, "a board");
    assert_accepted(&rt, rt.alloc(), &board, Claim::Exactly(255));
}

#[test]
fn the_document_of_the_nested_board_of_level_four(rt: HostRuntime) {
    let board = make_nested(rt.alloc(), 4, 4).expect(&rt, "a nested board");
    assert_accepted(&rt, rt.alloc(), &board, Claim::Forever);
}

/// Makes a board's document three times. At most one growth of memory is refused: that call says
/// so, and the others give the document.
fn make_in_turn(rt: &impl Abort, alloc: Global, board: &Board, text: &str) {
    let values = values_of(alloc, board).expect(rt, "values");
    let mut was_refused = false;
    for _ in 0..3 {
        match document(alloc, board, &values) {
            Ok(proof) => {
                let written = print_document(alloc, values.space(), &proof).expect(rt, "a text");
                assert_text(rt, "the text", written.as_bytes(), text.as_bytes());
            }
            Err(Memory) => {
                assert_same(rt, "refused before", was_refused, false);
                was_refused = true;
            }
        }
    }
}

#[test]
fn a_growth_is_refused(rt: HostRuntime) {
    let chain = board_of(&rt, rt.alloc(), CHAIN_OF_THREE);
    make_in_turn(&rt, rt.alloc(), &chain, CHAIN_VALUE_TWO);
    let cycle = board_of(&rt, rt.alloc(), THREE_CYCLE);
    make_in_turn(&rt, rt.alloc(), &cycle, CYCLE_FOREVER);
}
