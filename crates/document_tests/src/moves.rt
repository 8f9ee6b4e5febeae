//! Best moves at configurations given by their places, by values of gaps, also on a board that has
//! no ranks, and by ranks.

use crate::assertions::{assert_same, board_of};
use fakes::boards::CYCLE_WITHOUT_LABELS;
use fakes::{Shape, is_configuration, shaped};
use gap_values::{GapValues, ValueTable};
use positions::Value;
use solved_boards::{gap_values_of, values_of};
use std::process::Abort;
use strategies::GapMoves;

/// The value of a configuration of three pebbles, the best answer to each request, and the best
/// request.
#[derive(Clone, Copy, Debug, PartialEq, Eq)]
struct Best {
    value: Value,
    answers: [Option<u16>; 3],
    request: Option<u8>,
}

/// The best moves at a configuration, if it is one and has three pebbles.
fn best_at(moves: &GapMoves<'_, GapValues>, held: [u16; 3]) -> Option<Best> {
    let board = moves.board();
    if board.pebbles() != 3 || !is_configuration(board, &held) {
        return None;
    }
    let (value, request) = moves.request(&held);
    Some(Best {
        value,
        answers: [
            moves.answer(&held, 0),
            moves.answer(&held, 1),
            moves.answer(&held, 2),
        ],
        request,
    })
}

/// Asserts the best moves at a configuration of three pebbles.
fn assert_best(
    rt: &impl Abort,
    moves: &GapMoves<'_, GapValues>,
    held: [u16; 3],
    value: u32,
    answers: [Option<u16>; 3],
    request: u8,
) {
    let wanted = Best {
        value: Value::Finite(value),
        answers,
        request: Some(request),
    };
    assert_same(rt, held, best_at(moves, held), Some(wanted));
}

#[test]
fn best_in_an_order_without_ranks(rt: HostRuntime) {
    // 1,092,727 configurations, and 187,460 classes. An answer is greater than the labels of both
    // other pebbles, and the adversary asks one that doesn't hold the greatest label.
    let board = shaped(rt.alloc(), Shape::Order, 103, 3).expect(&rt, "a board");
    let values = gap_values_of(rt.alloc(), &board).expect(&rt, "values");
    assert_moves_in_an_order(&rt, &GapMoves::new(&board, &values));
}

/// Asserts the best moves in the order of 103 labels, with three pebbles.
fn assert_moves_in_an_order(rt: &impl Abort, moves: &GapMoves<'_, GapValues>) {
    assert_best(rt, moves, [0, 0, 0], 102, [Some(1), Some(1), Some(1)], 0);
    assert_best(rt, moves, [1, 0, 0], 101, [Some(1), Some(2), Some(2)], 1);
    assert_best(rt, moves, [1, 2, 0], 100, [Some(3), Some(2), Some(3)], 0);
    assert_best(rt, moves, [5, 5, 5], 97, [Some(6), Some(6), Some(6)], 0);
    assert_best(rt, moves, [102, 0, 7], 0, [Some(8), None, None], 1);
}

/// The best answer to a request of pebble 0 or 1 at a configuration of two, if it is one, and its
/// value.
fn answer_at<V: ValueTable>(
    moves: &GapMoves<'_, V>,
    held: [u16; 2],
    pebble: bool,
) -> Option<(Value, Option<u16>)> {
    let board = moves.board();
    if board.pebbles() == 2 && is_configuration(board, &held) {
        Some((moves.value(&held), moves.answer(&held, u8::from(pebble))))
    } else {
        None
    }
}

#[test]
fn best_at_places_without_a_label(rt: HostRuntime) {
    let board = board_of(&rt, rt.alloc(), CYCLE_WITHOUT_LABELS);
    let values = values_of(rt.alloc(), &board).expect(&rt, "values");
    assert_moves_without_labels(&rt, &GapMoves::new(&board, &values));
    let values = gap_values_of(rt.alloc(), &board).expect(&rt, "values");
    assert_moves_without_labels(&rt, &GapMoves::new(&board, &values));
}

/// Asserts the best moves in the three-cycle on which places hold no label.
fn assert_moves_without_labels<V: ValueTable>(rt: &impl Abort, moves: &GapMoves<'_, V>) {
    for (held, answers) in [([3, 3], [0, 0]), ([3, 0], [1, 0]), ([2, 3], [0, 0])] {
        let [first, second] = answers;
        let found = answer_at(moves, held, false);
        assert_same(rt, held, found, Some((Value::Forever, Some(first))));
        let found = answer_at(moves, held, true);
        assert_same(rt, held, found, Some((Value::Forever, Some(second))));
    }
}
