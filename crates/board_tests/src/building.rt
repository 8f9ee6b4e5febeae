//! Boards that are built of their parts, and the faults of such parts.

use crate::assertions::{assert_same, assert_text};
use board_text::BoardKind;
use fakes::boards::{PAIR_WITHOUT_LABELS, THREE_CYCLE};
use fakes::{build_board, print_board};
use std::alloc::Global;
use std::process::Abort;

/// The fault of parts with two labels, two pebbles and these pairs, if they have one.
fn fault_of_pairs(alloc: Global, pairs: &[(u16, u16)]) -> Option<(u32, BoardKind)> {
    fault_of_parts(alloc, 2, 2, &[0, 0], pairs)
}

/// The fault of such parts, if they have one.
fn fault_of_parts(
    alloc: Global,
    labels: u16,
    pebbles: u8,
    start: &[u16],
    pairs: &[(u16, u16)],
) -> Option<(u32, BoardKind)> {
    match build_board(alloc, labels, pebbles, start, pairs) {
        Ok(_) => None,
        Err(fault) => Some((fault.line, fault.kind)),
    }
}

#[test]
fn built_and_printed(rt: HostRuntime) {
    let board = build_board(rt.alloc(), 3, 2, &[0, 0], &[(0, 2), (1, 0), (2, 1)]).expect(
        &rt,
        "parts of a board",
    );
    let text = print_board(rt.alloc(), &board).expect(&rt, "the text of a board");
    assert_text(&rt, "three labels", text.as_bytes(), THREE_CYCLE.as_bytes());
    let board = build_board(rt.alloc(), 2, 2, &[2, 2], &[(1, 0)]).expect(&rt, "parts of a board");
    let text = print_board(rt.alloc(), &board).expect(&rt, "the text of a board");
    assert_text(
        &rt,
        "no held label",
        text.as_bytes(),
        PAIR_WITHOUT_LABELS.as_bytes(),
    );
}

/// Asserts the fault of parts of which the only pair is faulty, too.
fn assert_fault(
    rt: &impl Abort,
    alloc: Global,
    labels: u16,
    pebbles: u8,
    start: &[u16],
    fault: (u32, BoardKind),
) {
    let found = fault_of_parts(alloc, labels, pebbles, start, &[(0, 0)]);
    assert_same(rt, (labels, pebbles, start), found, Some(fault));
}

#[test]
fn faults_of_labels_pebbles_and_starts(rt: HostRuntime) {
    let alloc = rt.alloc();
    for labels in [0, 257, 65_535] {
        assert_fault(&rt, alloc, labels, 7, &[0], (2, BoardKind::Labels));
    }
    for pebbles in [0, 7, 255] {
        assert_fault(&rt, alloc, 2, pebbles, &[2], (3, BoardKind::Pebbles));
    }
    for start in [
        [].as_slice(),
        &[0],
        &[0, 3],
        &[3, 0],
        &[0, 0, 0],
        &[0, 65_535],
    ] {
        assert_fault(&rt, alloc, 2, 2, start, (4, BoardKind::Start));
    }
}

/// Pairs of two labels, and their fault, if they have one.
const FAULTS_OF_PAIRS: &[(&[(u16, u16)], Option<(u32, BoardKind)>)] = &[
    (&[], None),
    (&[(1, 0)], None),
    (&[(0, 2)], Some((5, BoardKind::Beats))),
    (&[(2, 2)], Some((5, BoardKind::Beats))),
    (&[(65_535, 0)], Some((5, BoardKind::Beats))),
    (&[(1, 1)], Some((5, BoardKind::SelfBeat))),
    (&[(0, 1), (1, 0)], Some((6, BoardKind::TwoWay))),
    (&[(1, 0), (0, 1)], Some((6, BoardKind::TwoWay))),
    (&[(1, 0), (1, 0)], Some((6, BoardKind::Order))),
];

#[test]
fn faults_of_pairs(rt: HostRuntime) {
    for (pairs, fault) in FAULTS_OF_PAIRS {
        assert_same(&rt, *pairs, fault_of_pairs(rt.alloc(), pairs), *fault);
    }
    let found = fault_of_parts(rt.alloc(), 3, 1, &[0], &[(0, 1), (1, 2), (0, 2)]);
    assert_same(&rt, "three labels", found, Some((7, BoardKind::Order)));
}
