//! The faults of board texts.

use crate::assertions::assert_same;
use board_text::{BoardFault, BoardKind};
use fakes::boards::ONE_PAIR;
use fakes::read_board;
use std::alloc::Global;
use std::process::Abort;

/// A text with these lines after the first four, of a board with two labels.
macro_rules! after_head {
    ($lines:literal) => {
        concat!("board 1\nlabels 2\npebbles 2\nstart 0 0\n", $lines)
    };
}

/// The fault of a text, if it has one.
fn fault_of(alloc: Global, text: &[u8]) -> Option<(u32, BoardKind)> {
    match read_board(alloc, text) {
        Ok(_) => None,
        Err(fault) => Some((fault.line, fault.kind)),
    }
}

/// Asserts that each of the texts has this fault.
fn assert_faults(rt: &impl Abort, alloc: Global, line: u32, kind: BoardKind, texts: &[&str]) {
    for text in texts {
        let fault = fault_of(alloc, text.as_bytes());
        assert_same(rt, *text, fault, Some((line, kind)));
    }
}

/// Asserts that each text has its fault.
fn assert_each(rt: &impl Abort, alloc: Global, texts: &[(&str, u32, BoardKind)]) {
    for (text, line, kind) in texts {
        let fault = fault_of(alloc, text.as_bytes());
        assert_same(rt, *text, fault, Some((*line, *kind)));
    }
}

#[test]
fn versions(rt: HostRuntime) {
    let texts = [
        "\n",
        "board 3\nlabels 1\npebbles 1\nstart -\nend\n",
        "board 1\r\nlabels 1\npebbles 1\nstart 0\nend\n",
        "board 01\n",
        "board  1\n",
        " board 1\n",
        "board 1 \n",
        "board 1\0\n",
        "Board 1\n",
        " board 1\nlabels 0\n",
    ];
    assert_faults(&rt, rt.alloc(), 1, BoardKind::Version, &texts);
}

#[test]
fn numbers_of_labels(rt: HostRuntime) {
    let texts = [
        "board 1\n\nlabels 2\n",
        "board 1\nlabels\n",
        "board 1\nlabels \n",
        "board 1\nlabels 0\n",
        "board 1\nlabels 02\n",
        "board 1\nlabels +2\n",
        "board 1\nlabels -2\n",
        "board 1\nlabels 2\0\n",
        "board 1\nlabels 2 \n",
        "board 1\n labels 2\n",
        "board 1\nlabels\t2\n",
        "board 1\nlabels 257\n",
        "board 1\nlabels 4294967298\n",
        "board 1\nlabels 18446744073709551618\n",
        "board 1\nlabels 02\npebbles 7\n",
    ];
    assert_faults(&rt, rt.alloc(), 2, BoardKind::Labels, &texts);
}

#[test]
fn numbers_of_pebbles(rt: HostRuntime) {
    let texts = [
        "board 1\nlabels 2\npebbles 0\n",
        "board 1\nlabels 2\npebbles 7\n",
        "board 1\nlabels 2\npebbles 01\n",
        "board 1\nlabels 2\npebbles 1 \n",
        "board 1\nlabels 2\npebbles 18446744073709551617\n",
        "board 1\nlabels 2\npebbles 7\nstart 2\n",
    ];
    assert_faults(&rt, rt.alloc(), 3, BoardKind::Pebbles, &texts);
}

#[test]
fn starts(rt: HostRuntime) {
    let texts = [
        "board 1\nlabels 2\npebbles 2\nstart\n",
        "board 1\nlabels 2\npebbles 2\nstart 0\n",
        "board 1\nlabels 2\npebbles 2\nstart 0 0 0\n",
        "board 1\nlabels 2\npebbles 2\nstart 0 2\n",
        "board 1\nlabels 2\npebbles 2\nstart 2 0\n",
        "board 1\nlabels 2\npebbles 2\nstart 0 -1\n",
        "board 1\nlabels 2\npebbles 2\nstart - 0\n",
        "board 2\nlabels 2\npebbles 2\nstart 0 0\n",
        "board 2\nlabels 2\npebbles 2\nstart - 2\n",
        "board 2\nlabels 2\npebbles 2\nstart --\n",
        "board 2\nlabels 2\npebbles 2\nstart -0 0\n",
        "board 2\nlabels 2\npebbles 2\nstart -\n",
        "board 1\nlabels 2\npebbles 2\nstart 00 0\n",
        "board 1\nlabels 2\npebbles 2\nstart 0  0\n",
        "board 1\nlabels 2\npebbles 2\nstart 0 0 \n",
        "board 1\nlabels 2\npebbles 2\nstart 0 65536\n",
        "board 1\nlabels 2\npebbles 2\nstart 0 2\nbeats 1 1\n",
    ];
    assert_faults(&rt, rt.alloc(), 4, BoardKind::Start, &texts);
}

#[test]
fn lines_that_are_no_pair(rt: HostRuntime) {
    let texts = [
        after_head!(" end\n"),
        after_head!("\n"),
        after_head!("\0end\n"),
        after_head!("END\n"),
        after_head!("beats 0 1"),
        after_head!("beats 1\n"),
        after_head!("beats 0 1 0\n"),
        after_head!("beats 0 2\n"),
        after_head!("beats 2 0\n"),
        after_head!("beats 2 2\n"),
        after_head!("beats 01 0\n"),
        after_head!("beats +1 0\n"),
        after_head!("beats  1 0\n"),
        after_head!(" beats 1 0\n"),
        after_head!("beats 1 0 \n"),
        after_head!("beats 18446744073709551617 0\n"),
    ];
    assert_faults(&rt, rt.alloc(), 5, BoardKind::Beats, &texts);
}

#[test]
fn pairs_of_two_labels(rt: HostRuntime) {
    let texts = [
        (after_head!("beats 1 1\n"), 5, BoardKind::SelfBeat),
        (
            after_head!("beats 1 0\nbeats 0 0\n"),
            6,
            BoardKind::SelfBeat,
        ),
        (
            after_head!("beats 0 1\nbeats 1 0\nend\n"),
            6,
            BoardKind::TwoWay,
        ),
        (
            after_head!("beats 1 0\nbeats 0 1\nend\n"),
            6,
            BoardKind::TwoWay,
        ),
        (
            after_head!("beats 1 0\nbeats 1 0\nend\n"),
            6,
            BoardKind::Order,
        ),
    ];
    assert_each(&rt, rt.alloc(), &texts);
}

#[test]
fn ends_and_what_follows(rt: HostRuntime) {
    let texts = [
        (after_head!("e"), 5, BoardKind::End),
        (after_head!("end"), 5, BoardKind::End),
        (after_head!("end \n"), 5, BoardKind::End),
        (after_head!("end\r\n"), 5, BoardKind::End),
        (after_head!("else\n"), 5, BoardKind::End),
        (after_head!("beats 1 0\nend\n\0"), 7, BoardKind::Trailing),
        (after_head!("beats 1 0\nend\n\n"), 7, BoardKind::Trailing),
        (after_head!("end\nend\n"), 6, BoardKind::Trailing),
    ];
    assert_each(&rt, rt.alloc(), &texts);
}

#[test]
fn earlier_pairs(rt: HostRuntime) {
    let texts = [
        "board 1\nlabels 3\npebbles 1\nstart 0\nbeats 2 1\nbeats 1 0\nend\n",
        "board 1\nlabels 3\npebbles 1\nstart 0\nbeats 0 2\nbeats 0 1\nend\n",
    ];
    assert_faults(&rt, rt.alloc(), 6, BoardKind::Order, &texts);
    let texts = ["board 1\nlabels 3\npebbles 1\nstart 0\nbeats 0 1\nbeats 1 2\nbeats 2 1\nend\n"];
    assert_faults(&rt, rt.alloc(), 7, BoardKind::TwoWay, &texts);
}

/// The fault of the board of one pair, cut to this length of its 51 bytes.
fn cut_fault(length: usize) -> (u32, BoardKind) {
    match length {
        0..=7 => (1, BoardKind::Version),
        8..=16 => (2, BoardKind::Labels),
        17..=26 => (3, BoardKind::Pebbles),
        27..=36 => (4, BoardKind::Start),
        37 => (5, BoardKind::End),
        38..=46 => (5, BoardKind::Beats),
        _ => (6, BoardKind::End),
    }
}

#[test]
fn cut_at_each_length(rt: HostRuntime) {
    let text = ONE_PAIR.as_bytes();
    assert_eq!(rt; text.len(), 51);
    for length in 0..text.len() {
        let fault = fault_of(rt.alloc(), &text[..length]);
        assert_same(&rt, length, fault, Some(cut_fault(length)));
    }
    assert_same(&rt, "the whole", fault_of(rt.alloc(), text), None);
}
