//! The answers of boards that are read from their texts.

use crate::assertions::{assert_same, board_of};
use board_text::Board;
use fakes::boards::{LONE_LABEL, THREE_CYCLE};
use fakes::{build_board, largest_text};
use std::alloc::AllocError;
use std::process::Abort;

const ALL: u64 = u64::MAX;

/// Three copies of the three-cycle in a cycle: a label's copy is its number divided by three.
const CYCLE_OF_CYCLES: &[(u16, u16)] = &[
    (0, 2),
    (0, 6),
    (0, 7),
    (0, 8),
    (1, 0),
    (1, 6),
    (1, 7),
    (1, 8),
    (2, 1),
    (2, 6),
    (2, 7),
    (2, 8),
    (3, 0),
    (3, 1),
    (3, 2),
    (3, 5),
    (4, 0),
    (4, 1),
    (4, 2),
    (4, 3),
    (5, 0),
    (5, 1),
    (5, 2),
    (5, 4),
    (6, 3),
    (6, 4),
    (6, 5),
    (6, 8),
    (7, 3),
    (7, 4),
    (7, 5),
    (7, 6),
    (8, 3),
    (8, 4),
    (8, 5),
    (8, 7),
];

/// Asserts that these are the pairs of which the first label dominates the second.
fn assert_pairs(rt: &impl Abort, board: &Board, pairs: &[(u16, u16)]) {
    for x in 0..board.labels() {
        for y in 0..board.labels() {
            assert_same(rt, (x, y), board.beats(x, y), pairs.contains(&(x, y)));
        }
    }
}

/// The words of the labels that dominate this one, if it is a label.
fn dominators_of(board: &Board, label: u16) -> Option<&[u64]> {
    if label < board.labels() {
        Some(board.dominators(label))
    } else {
        None
    }
}

/// Asserts the words of the labels that dominate each of these.
fn assert_dominators(rt: &impl Abort, board: &Board, wanted: &[(u16, [u64; 4])]) {
    for (label, words) in wanted {
        assert_same(
            rt,
            *label,
            dominators_of(board, *label),
            Some(words.as_slice()),
        );
    }
}

/// Whether the first dominates the second, the second the first, and the first itself, if they are
/// labels.
fn ways_of(board: &Board, x: u16, y: u16) -> Option<[bool; 3]> {
    if x < board.labels() && y < board.labels() {
        Some([board.beats(x, y), board.beats(y, x), board.beats(x, x)])
    } else {
        None
    }
}

/// Asserts the numbers of labels and pebbles of a board, and its start.
fn assert_sizes(rt: &impl Abort, board: &Board, labels: u16, pebbles: u8, start: &[u16]) {
    assert_same(rt, "labels", board.labels(), labels);
    assert_same(rt, "pebbles", board.pebbles(), pebbles);
    assert_eq!(rt; board.start(), start);
}

#[test]
fn small_boards(rt: HostRuntime) {
    let board = board_of(&rt, rt.alloc(), THREE_CYCLE);
    assert_sizes(&rt, &board, 3, 2, &[0, 0]);
    assert_pairs(&rt, &board, &[(0, 2), (1, 0), (2, 1)]);
    let dominators = [
        (0, [0b010, 0, 0, 0]),
        (1, [0b100, 0, 0, 0]),
        (2, [0b001, 0, 0, 0]),
    ];
    assert_dominators(&rt, &board, &dominators);
    let board = board_of(&rt, rt.alloc(), LONE_LABEL);
    assert_sizes(&rt, &board, 1, 1, &[0]);
    assert_pairs(&rt, &board, &[]);
}

#[test]
fn the_largest_board(rt: HostRuntime) -> Result<(), AllocError> {
    let text = largest_text(rt.alloc())?;
    let board = board_of(&rt, rt.alloc(), text.as_str());
    assert_sizes(&rt, &board, 256, 6, &[255, 128, 100, 64, 9, 0]);
    for (x, y) in [(255, 0), (255, 254), (1, 0), (128, 127), (64, 63)] {
        assert_same(
            &rt,
            (x, y),
            ways_of(&board, x, y),
            Some([true, false, false]),
        );
    }
    let dominators = [
        (0, [ALL - 1, ALL, ALL, ALL]),
        (100, [0, ALL << 37, ALL, ALL]),
        (127, [0, 0, ALL, ALL]),
        (254, [0, 0, 0, 1 << 63]),
        (255, [0, 0, 0, 0]),
    ];
    assert_dominators(&rt, &board, &dominators);
    Ok(())
}

#[test]
fn a_cycle_of_cycles(rt: HostRuntime) {
    let board = build_board(rt.alloc(), 9, 2, &[0, 0], CYCLE_OF_CYCLES).expect(
        &rt,
        "parts of a board",
    );
    assert_eq!(rt; board.labels(), 9);
    for label in 0..9 {
        let dominated = [2, 6, 7, 8].contains(&label);
        assert_same(&rt, label, board.beats(0, label), dominated);
    }
}
