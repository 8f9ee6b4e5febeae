//! Solving boards of many shapes against the slow program, and the largest boards.

use crate::assertions::{assert_same, board_of};
use crate::solving::{assert_solved, solve};
use board_text::Board;
use fakes::boards::{CHAIN_OF_THREE, CYCLE_WITH_A_WAY_IN, NO_PAIRS};
use fakes::{Shape, make_nested, shaped};
use index_lists::{LinkLists, ListStore, PlainLists};
use positions::{Space, Value};
use solved_boards::value;
use solver::Values;
use std::alloc::Global;
use std::process::Abort;

/// The board of a shape, with all pebbles on label 0.
fn board(rt: &impl Abort, alloc: Global, shape: Shape, labels: u16, pebbles: u8) -> Board {
    shaped(alloc, shape, labels, pebbles).expect(rt, "a board")
}

/// The value of the start.
fn start_value(rt: &impl Abort, alloc: Global, board: &Board) -> Option<Value> {
    let values = solve::<LinkLists>(rt, alloc, board);
    let space = Space::of(board).ok()?;
    value(&values, space.rank(board.start()))
}

#[test]
fn small_boards_of_every_shape(rt: HostRuntime) {
    for (shape, labels, pebbles) in [
        (Shape::Empty, 1, 1),
        (Shape::Empty, 3, 1),
        (Shape::Empty, 2, 2),
        (Shape::Empty, 1, 6),
        (Shape::Order, 3, 2),
        (Shape::Order, 4, 2),
        (Shape::Order, 2, 3),
        (Shape::Order, 2, 5),
        (Shape::Star, 3, 2),
        (Shape::Star, 4, 2),
        (Shape::Star, 3, 3),
    ] {
        let board = board(&rt, rt.alloc(), shape, labels, pebbles);
        assert_solved(&rt, rt.alloc(), &board);
    }
}

/// The number of configurations that have the value.
fn count(values: &Values, wanted: Value) -> usize {
    (0..values.space().configurations())
        .filter(|rank| value(values, *rank) == Some(wanted))
        .count()
}

/// The numbers of configurations that have the values 0, 1 and Forever.
fn counts<S: ListStore + Drop>(rt: &impl Abort, alloc: Global, board: &Board) -> [usize; 3] {
    let values = solve::<S>(rt, alloc, board);
    [
        count(&values, Value::Finite(0)),
        count(&values, Value::Finite(1)),
        count(&values, Value::Forever),
    ]
}

#[test]
fn boards_with_a_cycle(rt: HostRuntime) {
    let board = board_of(&rt, rt.alloc(), CYCLE_WITH_A_WAY_IN);
    assert_eq!(&rt; counts::<LinkLists>(&rt, rt.alloc(), &board), [9, 7, 9]);
    let cycles = make_nested(rt.alloc(), 3, 3).expect(&rt, "a nested board");
    assert_eq!(&rt; counts::<PlainLists>(&rt, rt.alloc(), &cycles), [0, 0, 729]);
}

#[test]
fn the_chain_of_all_labels(rt: HostRuntime) {
    let board = board(&rt, rt.alloc(), Shape::Order, 256, 2);
    assert_eq!(&rt;
        start_value(&rt, rt.alloc(), &board),
        Some(Value::Finite(255))
    );
}

/// Asserts the values of ranks of a board.
fn assert_values(
    rt: &impl Abort,
    alloc: Global,
    board: &Board,
    configurations: u32,
    wanted: &[(u32, Value)],
) {
    let values = solve::<LinkLists>(rt, alloc, board);
    assert_same(
        rt,
        "configurations",
        values.space().configurations(),
        configurations,
    );
    for (rank, expected) in wanted {
        assert_same(rt, *rank, value(&values, *rank), Some(*expected));
    }
}

#[test]
fn the_nested_board_of_level_four(rt: HostRuntime) {
    let board = make_nested(rt.alloc(), 4, 4).expect(&rt, "a nested board");
    // Pebbles 1, 2 and 3 are on 0, 9 and 18, the three copies of level 3.
    let values = [(0, Value::Forever), (9 * 27 + 18, Value::Finite(0))];
    assert_values(&rt, rt.alloc(), &board, 531_441, &values);
}

#[test]
fn as_many_configurations_as_there_may_be(rt: HostRuntime) {
    let board = board_of(&rt, rt.alloc(), NO_PAIRS);
    let values = [0, 1, 524_288, 1_048_575].map(|rank| (rank, Value::Finite(0)));
    assert_values(&rt, rt.alloc(), &board, 1_048_576, &values);
}

#[test]
fn the_chain_of_three_has_no_safe_answer(rt: HostRuntime) {
    let board = board_of(&rt, rt.alloc(), CHAIN_OF_THREE);
    let values = solve::<LinkLists>(&rt, rt.alloc(), &board);
    for gap in 0..values.space().gaps() {
        assert_same(&rt, gap, values.safe_answer(gap), None);
    }
}
