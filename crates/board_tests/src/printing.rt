//! Boards that are read, printed and read again.

use crate::assertions::{assert_same, assert_text, board_of};
use fakes::boards::{
    CHAIN_OF_THREE, CYCLE_WITH_A_WAY_IN, CYCLE_WITHOUT_LABELS, LONE_LABEL, LONE_WITHOUT_LABEL,
    NO_PAIRS, ONE_PAIR, PAIR_WITHOUT_LABELS, SHARED_LABEL, THREE_CYCLE, THREE_PEBBLES,
};
use fakes::{largest_text, print_board};
use std::alloc::{AllocError, Global};
use std::process::Abort;

/// Asserts that the board of a text is printed as that text.
fn assert_printed(rt: &impl Abort, alloc: Global, text: &str) {
    let board = board_of(rt, alloc, text);
    let again = print_board(alloc, &board).expect(rt, "the text of a board");
    assert_text(rt, ("bytes", text.len()), again.as_bytes(), text.as_bytes());
}

#[test]
fn small_boards(rt: HostRuntime) {
    for text in [
        THREE_CYCLE,
        ONE_PAIR,
        CHAIN_OF_THREE,
        LONE_LABEL,
        SHARED_LABEL,
        CYCLE_WITH_A_WAY_IN,
        THREE_PEBBLES,
        NO_PAIRS,
        PAIR_WITHOUT_LABELS,
        CYCLE_WITHOUT_LABELS,
        LONE_WITHOUT_LABEL,
    ] {
        assert_printed(&rt, rt.alloc(), text);
    }
}

/// Starts of boards with three labels, in which pebbles hold none, and the place of each pebble.
const STARTS: &[(&str, &[u16])] = &[
    ("board 2\nlabels 3\npebbles 1\nstart -\nend\n", &[3]),
    (
        "board 2\nlabels 3\npebbles 3\nstart - 0 2\nend\n",
        &[3, 0, 2],
    ),
    (
        "board 2\nlabels 3\npebbles 3\nstart 1 2 -\nend\n",
        &[1, 2, 3],
    ),
    (
        "board 2\nlabels 3\npebbles 3\nstart 1 - 0\nend\n",
        &[1, 3, 0],
    ),
    ("board 2\nlabels 3\npebbles 2\nstart - -\nend\n", &[3, 3]),
    (
        "board 2\nlabels 3\npebbles 6\nstart - 0 - 1 - 2\nend\n",
        &[3, 0, 3, 1, 3, 2],
    ),
    (
        "board 2\nlabels 3\npebbles 6\nstart - - - - - -\nend\n",
        &[3, 3, 3, 3, 3, 3],
    ),
];

#[test]
fn starts_without_labels(rt: HostRuntime) {
    for (text, start) in STARTS {
        let board = board_of(&rt, rt.alloc(), text);
        assert_eq!(rt; board.start(), *start);
        assert_same(&rt, *text, (board.version(), board.places()), (2, 4));
        assert_printed(&rt, rt.alloc(), text);
    }
    let board = board_of(&rt, rt.alloc(), THREE_CYCLE);
    assert_same(&rt, THREE_CYCLE, (board.version(), board.places()), (1, 3));
}

#[test]
fn the_largest_board(rt: HostRuntime) -> Result<(), AllocError> {
    let text = largest_text(rt.alloc())?;
    assert_printed(&rt, rt.alloc(), text.as_str());
    Ok(())
}
