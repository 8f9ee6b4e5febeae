//! Documents up to symmetries that are read and printed, symmetries by themselves that are read,
//! and the faults of texts that are neither.

use crate::assertions::{assert_same, assert_text, board_of};
use crate::documents::{print_symmetric_document, read_symmetric_document, read_symmetries};
use board_text::Board;
use fakes::boards::{CYCLE_WITHOUT_LABELS, LONE_WITHOUT_LABEL, ONE_PAIR, THREE_CYCLE};
use positions::{Claim, Turns};
use proof_text::{AdversaryClassRow, Images, LabellerClassRow, ProofKind};
use std::alloc::Global;
use std::process::Abort;

/// The turn of the cycle, and the turn back.
const CYCLE_FOREVER: &str = "proof 3\nforever\nsymmetries 2\nmap 1 2 0\nmap 2 0 1\nlabeller 2\n\
    at 0 0 for * take 1 1\nat 0 1 for * take 2 1\nend\n";

/// The same maps by themselves.
const CYCLE_TURNS: &str = "symmetries 2\nmap 1 2 0\nmap 2 0 1\nend\n";

/// The same map twice, which is no symmetry.
const PAIR_VALUE_ONE: &str = "proof 3\nvalue 1\nsymmetries 2\nmap 0 0\nmap 0 0\nlabeller 1\n\
    at 0 0 for 1 take 1 1\nadversary 2\nat 0 0 for 1 ask 0\nat 0 1 for 0 ask 1\nend\n";

/// A document for two labels with this text after its claim.
macro_rules! pair {
    ($rest:literal) => {
        concat!("proof 3\nvalue 1\n", $rest)
    };
}

/// The line `map` 64 times, between the texts `before` and `after`.
macro_rules! sixty_four {
    ($before:literal, $map:literal, $after:literal) => {
        concat!(
            $before,
            $map, $map, $map, $map, $map, $map, $map, $map,
            $map, $map, $map, $map, $map, $map, $map, $map,
            $map, $map, $map, $map, $map, $map, $map, $map,
            $map, $map, $map, $map, $map, $map, $map, $map,
            $map, $map, $map, $map, $map, $map, $map, $map,
            $map, $map, $map, $map, $map, $map, $map, $map,
            $map, $map, $map, $map, $map, $map, $map, $map,
            $map, $map, $map, $map, $map, $map, $map, $map,
            $after
        )
    };
}

/// The fault of a text, if it has one.
fn fault_of(alloc: Global, board: &Board, text: &[u8]) -> Option<(u32, ProofKind)> {
    match read_symmetric_document(alloc, board, text) {
        Ok(_) => None,
        Err(fault) => Some((fault.line, fault.kind)),
    }
}

/// Asserts that each text has its fault on the board.
fn assert_faults(rt: &impl Abort, alloc: Global, board: &str, texts: &[(&str, u32, ProofKind)]) {
    let board = board_of(rt, alloc, board);
    for (text, line, kind) in texts {
        let fault = fault_of(alloc, &board, text.as_bytes());
        assert_same(rt, *text, fault, Some((*line, *kind)));
    }
}

/// Asserts that a document for the board is printed as it was read.
fn assert_printed(rt: &impl Abort, alloc: Global, board: &str, text: &str) {
    let board = board_of(rt, alloc, board);
    let proof = read_symmetric_document(alloc, &board, text.as_bytes());
    let proof = proof.expect(rt, "a document");
    let printed = print_symmetric_document(alloc, &board, &proof).expect(rt, "its text");
    assert_text(rt, text, printed.as_bytes(), text.as_bytes());
}

#[test]
fn documents_are_printed_as_they_were_read(rt: HostRuntime) {
    let texts = [
        (THREE_CYCLE, CYCLE_FOREVER),
        (ONE_PAIR, PAIR_VALUE_ONE),
        (
            ONE_PAIR,
            "proof 3\nmost 1\nsymmetries 0\nadversary 0\nend\n",
        ),
        (
            CYCLE_WITHOUT_LABELS,
            "proof 3\nleast 1\nsymmetries 1\nmap 1 2 0\nlabeller 1\nat - 0 for 1 take 1 1\nend\n",
        ),
        (
            LONE_WITHOUT_LABEL,
            "proof 3\nleast 0\nsymmetries 1\nmap 0\nlabeller 0\nend\n",
        ),
    ];
    for (board, text) in texts {
        assert_printed(&rt, rt.alloc(), board, text);
    }
}

/// The first four images of the map of this number, counted from 0, and the last; none if there is
/// no such map.
fn images(maps: &[Images], number: usize) -> Option<[u8; 5]> {
    match maps.get(number) {
        Some(map) => Some([map.of[0], map.of[1], map.of[2], map.of[3], map.of[255]]),
        None => None,
    }
}

#[test]
fn maps_and_rows(rt: HostRuntime) {
    let board = board_of(&rt, rt.alloc(), THREE_CYCLE);
    let proof = read_symmetric_document(rt.alloc(), &board, CYCLE_FOREVER.as_bytes());
    let proof = proof.expect(&rt, "a document");
    assert_same(&rt, "maps", proof.maps.len(), 2);
    assert_same(
        &rt,
        "the turn",
        images(&proof.maps, 0),
        Some([1, 2, 0, 0, 0]),
    );
    assert_same(
        &rt,
        "the turn back",
        images(&proof.maps, 1),
        Some([2, 0, 1, 0, 0]),
    );
    assert_same(&rt, "claim", proof.rows.claim, Claim::Forever);
    let row = LabellerClassRow {
        at: [0, 1, 0, 0, 0, 0],
        turns: Turns::Always,
        take: [2, 1, 0, 0, 0, 0],
    };
    assert_same(&rt, "rows", proof.rows.labeller.len(), 2);
    assert_same(&rt, "row", proof.rows.labeller.get(1), Some(&row));
    let board = board_of(&rt, rt.alloc(), ONE_PAIR);
    let proof = read_symmetric_document(rt.alloc(), &board, PAIR_VALUE_ONE.as_bytes());
    let proof = proof.expect(&rt, "a document");
    let row = AdversaryClassRow {
        at: [0, 1, 0, 0, 0, 0],
        left: 0,
        ask: 1,
    };
    assert_same(&rt, "requests", proof.rows.adversary.len(), 2);
    assert_same(&rt, "request", proof.rows.adversary.get(1), Some(&row));
}

#[test]
fn as_many_maps_as_there_may_be(rt: HostRuntime) {
    assert_printed(
        &rt,
        rt.alloc(),
        THREE_CYCLE,
        sixty_four!(
            "proof 3\nforever\nsymmetries 64\n",
            "map 1 2 0\n",
            "labeller 0\nend\n"
        ),
    );
}

#[test]
fn heads(rt: HostRuntime) {
    let faults = [
        ("proof 2\nforever\n", 1, ProofKind::Version),
        ("proof 3\r\n", 1, ProofKind::Version),
        ("proof 3\nfor ever\n", 2, ProofKind::Claim),
        ("proof 3\nvalue 1000000001\n", 2, ProofKind::Claim),
        ("proof 3\nforever\n", 3, ProofKind::Section),
        (pair!("labeller 0\n"), 3, ProofKind::Section),
        (pair!("symmetries\n"), 3, ProofKind::Section),
        (pair!("symmetries 65\n"), 3, ProofKind::Section),
        (pair!("symmetries 00\n"), 3, ProofKind::Section),
        (pair!("symmetries 1 \n"), 3, ProofKind::Section),
        (pair!("symmetry 1\n"), 3, ProofKind::Section),
        (pair!("symmetries 0"), 3, ProofKind::Section),
    ];
    assert_faults(&rt, rt.alloc(), ONE_PAIR, &faults);
}

#[test]
fn maps(rt: HostRuntime) {
    let faults = [
        (pair!("symmetries 1\n"), 4, ProofKind::Row),
        (pair!("symmetries 1\nlabeller 0\n"), 4, ProofKind::Row),
        (pair!("symmetries 64\nmap 0 1\n"), 5, ProofKind::Row),
        (pair!("symmetries 1\nmap 0\n"), 4, ProofKind::Row),
        (pair!("symmetries 1\nmap 0 1 0\n"), 4, ProofKind::Row),
        (pair!("symmetries 1\nmap 0 1 \n"), 4, ProofKind::Row),
        (pair!("symmetries 1\nmap  0 1\n"), 4, ProofKind::Row),
        (pair!("symmetries 1\nmap 0 1"), 4, ProofKind::Row),
        (pair!("symmetries 1\nmap 0 -\n"), 4, ProofKind::Row),
        (pair!("symmetries 1\nmap 0 +1\n"), 4, ProofKind::Row),
        (pair!("symmetries 1\nmap0 1\n"), 4, ProofKind::Row),
        (pair!("symmetries 1\nMap 0 1\n"), 4, ProofKind::Row),
        (pair!("symmetries 1\nmap 0 1\r\n"), 4, ProofKind::Row),
        (pair!("symmetries 1\nmap 0 2\n"), 4, ProofKind::Label),
        (pair!("symmetries 1\nmap 00 1\n"), 4, ProofKind::Label),
        (
            pair!("symmetries 1\nmap 0 4294967296\n"),
            4,
            ProofKind::Label,
        ),
        (
            pair!("symmetries 2\nmap 0 1\nmap 256 0\n"),
            5,
            ProofKind::Label,
        ),
        (
            pair!("symmetries 2\nmap 2 1\nmap 1 -\n"),
            4,
            ProofKind::Label,
        ),
    ];
    assert_faults(&rt, rt.alloc(), ONE_PAIR, &faults);
    let hyphen = [(
        "proof 3\nforever\nsymmetries 1\nmap 1 2 -\n",
        4,
        ProofKind::Row,
    )];
    assert_faults(&rt, rt.alloc(), CYCLE_WITHOUT_LABELS, &hyphen);
}

#[test]
fn lines_after_the_maps(rt: HostRuntime) {
    let faults = [
        (pair!("symmetries 0\nmap 0 1\n"), 4, ProofKind::Section),
        (
            pair!("symmetries 1\nmap 0 1\nmap 0 1\n"),
            5,
            ProofKind::Section,
        ),
        (
            pair!("symmetries 1\nmap 0 1\nlabeller 16777217\n"),
            5,
            ProofKind::Section,
        ),
        (
            pair!("symmetries 1\nmap 0 1\nlabeller 1\nat 0 0 for 1 take 1\n"),
            6,
            ProofKind::Row,
        ),
        (
            pair!("symmetries 1\nmap 0 1\nlabeller 1\nat 0 0 for 1 take 1 2\n"),
            6,
            ProofKind::Label,
        ),
        (
            pair!("symmetries 1\nmap 0 1\nlabeller 1\nat 0 0 for * take 1 1\n"),
            6,
            ProofKind::Number,
        ),
        (
            pair!("symmetries 1\nmap 0 1\nlabeller 1\nat 1 0 for 1 take 1 1\n"),
            6,
            ProofKind::Order,
        ),
        (
            pair!("symmetries 2\nmap 0 1\nmap 1 0\nlabeller 0\nadversary 1\nat 0 0 for 1 ask 1\n"),
            8,
            ProofKind::Pebble,
        ),
        (
            pair!(
                "symmetries 1\nmap 0 1\nlabeller 0\nadversary 2\nat 0 1 for 1 ask 0\n\
                at 0 1 for 1 ask 0\n"
            ),
            8,
            ProofKind::Order,
        ),
        (
            pair!("symmetries 1\nmap 0 1\nlabeller 0\nadversary 0\n"),
            7,
            ProofKind::End,
        ),
        (
            pair!("symmetries 1\nmap 0 1\nlabeller 0\nadversary 0\nend\n\n"),
            8,
            ProofKind::Trailing,
        ),
    ];
    assert_faults(&rt, rt.alloc(), ONE_PAIR, &faults);
}

/// The fault of a text of symmetries by themselves, if it has one.
fn symmetries_fault(alloc: Global, board: &Board, text: &[u8]) -> Option<(u32, ProofKind)> {
    match read_symmetries(alloc, board, text) {
        Ok(_) => None,
        Err(fault) => Some((fault.line, fault.kind)),
    }
}

/// Asserts that each text of symmetries by themselves has its fault on the board.
fn assert_symmetries_faults(
    rt: &impl Abort,
    alloc: Global,
    board: &str,
    texts: &[(&str, u32, ProofKind)],
) {
    let board = board_of(rt, alloc, board);
    for (text, line, kind) in texts {
        let fault = symmetries_fault(alloc, &board, text.as_bytes());
        assert_same(rt, *text, fault, Some((*line, *kind)));
    }
}

/// Asserts that a text of symmetries by themselves is read, and has `count` maps.
fn assert_symmetries(rt: &impl Abort, alloc: Global, board: &str, text: &str, count: usize) {
    let board = board_of(rt, alloc, board);
    let maps = read_symmetries(alloc, &board, text.as_bytes()).expect(rt, "maps");
    assert_same(rt, text, maps.len(), count);
}

#[test]
fn symmetries_by_themselves(rt: HostRuntime) {
    let board = board_of(&rt, rt.alloc(), THREE_CYCLE);
    let maps = read_symmetries(rt.alloc(), &board, CYCLE_TURNS.as_bytes()).expect(&rt, "maps");
    assert_same(&rt, "maps", maps.len(), 2);
    assert_same(&rt, "the turn", images(&maps, 0), Some([1, 2, 0, 0, 0]));
    assert_same(
        &rt,
        "the turn back",
        images(&maps, 1),
        Some([2, 0, 1, 0, 0]),
    );
    assert_symmetries(&rt, rt.alloc(), ONE_PAIR, "symmetries 0\nend\n", 0);
    assert_symmetries(
        &rt,
        rt.alloc(),
        LONE_WITHOUT_LABEL,
        "symmetries 1\nmap 0\nend\n",
        1,
    );
    let most = sixty_four!("symmetries 64\n", "map 1 2 0\n", "end\n");
    assert_symmetries(&rt, rt.alloc(), THREE_CYCLE, most, 64);
}

#[test]
fn each_prefix_of_symmetries_by_themselves(rt: HostRuntime) {
    let board = board_of(&rt, rt.alloc(), THREE_CYCLE);
    let text = CYCLE_TURNS.as_bytes();
    assert_eq!(&rt; text.len(), 37);
    for length in 0..text.len() {
        let wanted = match length {
            0..=12 => (1, ProofKind::Section),
            13..=22 => (2, ProofKind::Row),
            23..=32 => (3, ProofKind::Row),
            _ => (4, ProofKind::End),
        };
        let fault = symmetries_fault(rt.alloc(), &board, &text[..length]);
        assert_same(&rt, length, fault, Some(wanted));
    }
}

#[test]
fn faults_of_symmetries_by_themselves(rt: HostRuntime) {
    let faults = [
        (pair!("symmetries 0\nend\n"), 1, ProofKind::Section),
        ("symmetries 65\nmap 0 1\n", 1, ProofKind::Section),
        ("symmetries 2\nmap 0 1\nend\n", 3, ProofKind::Row),
        ("symmetries 1\nmap 0\nend\n", 2, ProofKind::Row),
        ("symmetries 1\nmap 0 2\nend\n", 2, ProofKind::Label),
        ("symmetries 2\nmap 1 0\nmap 2 0\nend\n", 3, ProofKind::Label),
        ("symmetries 0\nmap 0 1\nend\n", 2, ProofKind::End),
        ("symmetries 1\nmap 0 1\nmap 1 0\nend\n", 3, ProofKind::End),
        ("symmetries 1\nmap 0 1\nend\r\n", 3, ProofKind::End),
        (
            "symmetries 1\nmap 0 1\nlabeller 0\nend\n",
            3,
            ProofKind::End,
        ),
        ("symmetries 0\nend\nend\n", 3, ProofKind::Trailing),
        ("symmetries 1\nmap 0 1\nend\n\n", 4, ProofKind::Trailing),
    ];
    assert_symmetries_faults(&rt, rt.alloc(), ONE_PAIR, &faults);
    let more = [
        (
            sixty_four!("symmetries 65\n", "map 1 2 0\n", "map 1 2 0\nend\n"),
            1,
            ProofKind::Section,
        ),
        (
            sixty_four!("symmetries 64\n", "map 1 2 0\n", "map 1 2 0\nend\n"),
            66,
            ProofKind::End,
        ),
        ("symmetries 1\nmap 1 2 -\nend\n", 2, ProofKind::Row),
    ];
    assert_symmetries_faults(&rt, rt.alloc(), CYCLE_WITHOUT_LABELS, &more);
}
