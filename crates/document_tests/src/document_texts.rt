//! Documents that are read and printed, and the faults of those that are none.

use crate::assertions::{assert_same, assert_text, board_of};
use crate::documents::{print_document, read_document};
use fakes::boards::{
    CHAIN_OF_THREE, CYCLE_WITH_A_WAY_IN, CYCLE_WITHOUT_LABELS, LONE_WITHOUT_LABEL, ONE_PAIR,
    PAIR_WITHOUT_LABELS, THREE_CYCLE, THREE_PEBBLES,
};
use fakes::documents::{
    CHAIN_LEAST_TWO, CHAIN_MOST_TWO, CHAIN_VALUE_TWO, CYCLE_FOREVER, CYCLE_WITHOUT_LABELS_FOREVER,
    LONE_WITHOUT_LABEL_FOREVER, PAIR_VALUE_ONE, PAIR_WITHOUT_LABELS_VALUE_TWO,
    THREE_PEBBLES_VALUE_ONE, WAY_IN_VALUE_ONE,
};
use positions::{Claim, Space, Turns};
use proof_text::{AdversaryRow, LabellerRow, ProofKind};
use std::alloc::Global;
use std::process::Abort;

/// The first row of a labeller's section with these words, in a document for two labels.
macro_rules! answers {
    ($row:literal) => {
        concat!(
            "proof 1\nvalue 1\nlabeller 1\n",
            $row,
            "\nadversary 2\nat 0 0 for 1 ask 0\nat 1 0 for 0 ask 1\nend\n"
        )
    };
}

/// The first row of an adversary's section with these words, in a document for two labels.
macro_rules! request {
    ($row:literal) => {
        concat!(
            "proof 1\nvalue 1\nlabeller 1\nat 0 0 for 1 take 1 1\nadversary 2\n",
            $row,
            "\nat 1 0 for 0 ask 1\nend\n"
        )
    };
}

/// The space of the board that has this text.
fn space_of(rt: &impl Abort, alloc: Global, board: &str) -> Space {
    Space::of(&board_of(rt, alloc, board)).expect(rt, "a small board")
}

/// The fault of a text, if it has one.
fn fault_of(alloc: Global, space: &Space, text: &[u8]) -> Option<(u32, ProofKind)> {
    match read_document(alloc, space, text) {
        Ok(_) => None,
        Err(fault) => Some((fault.line, fault.kind)),
    }
}

/// Asserts that each text has its fault.
fn assert_faults(rt: &impl Abort, alloc: Global, space: &Space, texts: &[(&str, u32, ProofKind)]) {
    for (text, line, kind) in texts {
        let fault = fault_of(alloc, space, text.as_bytes());
        assert_same(rt, *text, fault, Some((*line, *kind)));
    }
}

/// Asserts that each prefix of a text has the fault of the last entry that begins with no more
/// bytes.
fn assert_prefixes(
    rt: &impl Abort,
    alloc: Global,
    space: &Space,
    text: &[u8],
    faults: &[(usize, u32, ProofKind)],
) {
    for length in 0..text.len() {
        let wanted = faults.iter().rev().find(|fault| fault.0 <= length);
        let wanted = wanted.map(|fault| (fault.1, fault.2));
        assert_same(rt, length, fault_of(alloc, space, &text[..length]), wanted);
    }
}

/// Asserts that a document for the board is printed as it was read.
fn assert_printed(rt: &impl Abort, alloc: Global, board: &str, text: &str) {
    let space = space_of(rt, alloc, board);
    let proof = read_document(alloc, &space, text.as_bytes()).expect(rt, "a document");
    let again = print_document(alloc, &space, &proof).expect(rt, "the text of a document");
    assert_text(rt, text, again.as_bytes(), text.as_bytes());
}

#[test]
fn documents_are_printed_as_they_were_read(rt: HostRuntime) {
    for (board, text) in [
        (THREE_CYCLE, CYCLE_FOREVER),
        (ONE_PAIR, PAIR_VALUE_ONE),
        (CHAIN_OF_THREE, CHAIN_VALUE_TWO),
        (CYCLE_WITH_A_WAY_IN, WAY_IN_VALUE_ONE),
        (THREE_PEBBLES, THREE_PEBBLES_VALUE_ONE),
        (CHAIN_OF_THREE, CHAIN_LEAST_TWO),
        (CHAIN_OF_THREE, CHAIN_MOST_TWO),
        (PAIR_WITHOUT_LABELS, PAIR_WITHOUT_LABELS_VALUE_TWO),
        (CYCLE_WITHOUT_LABELS, CYCLE_WITHOUT_LABELS_FOREVER),
        (LONE_WITHOUT_LABEL, LONE_WITHOUT_LABEL_FOREVER),
    ] {
        assert_printed(&rt, rt.alloc(), board, text);
    }
}

#[test]
fn rows_by_rank(rt: HostRuntime) {
    let space = space_of(&rt, rt.alloc(), CHAIN_OF_THREE);
    let proof = read_document(rt.alloc(), &space, CHAIN_VALUE_TWO.as_bytes()).expect(
        &rt,
        "a document",
    );
    assert_same(&rt, "claim", proof.claim, Claim::Exactly(2));
    assert_same(&rt, "answers", proof.labeller.len(), 3);
    assert_same(&rt, "requests", proof.adversary.len(), 4);
    let answer = LabellerRow {
        at: 1,
        turns: Turns::Count(1),
        take: [2, 1, 0, 0, 0, 0],
    };
    assert_same(&rt, "answer", proof.labeller.get(1), Some(&answer));
    let request = AdversaryRow {
        at: 5,
        left: 0,
        ask: 0,
    };
    assert_same(&rt, "request", proof.adversary.get(2), Some(&request));
}

#[test]
fn each_prefix_of_a_value_document(rt: HostRuntime) {
    let space = space_of(&rt, rt.alloc(), ONE_PAIR);
    let text = PAIR_VALUE_ONE.as_bytes();
    assert_eq!(&rt; text.len(), 103);
    let faults = [
        (0, 1, ProofKind::Version),
        (8, 2, ProofKind::Claim),
        (16, 3, ProofKind::Section),
        (27, 4, ProofKind::Row),
        (49, 5, ProofKind::Section),
        (61, 6, ProofKind::Row),
        (80, 7, ProofKind::Row),
        (99, 8, ProofKind::End),
    ];
    assert_prefixes(&rt, rt.alloc(), &space, text, &faults);
}

#[test]
fn each_prefix_of_a_least_document(rt: HostRuntime) {
    let space = space_of(&rt, rt.alloc(), CHAIN_OF_THREE);
    let text = CHAIN_LEAST_TWO.as_bytes();
    assert_eq!(&rt; text.len(), 97);
    let faults = [
        (0, 1, ProofKind::Version),
        (8, 2, ProofKind::Claim),
        (16, 3, ProofKind::Section),
        (27, 4, ProofKind::Row),
        (49, 5, ProofKind::Row),
        (71, 6, ProofKind::Row),
        (93, 7, ProofKind::End),
    ];
    assert_prefixes(&rt, rt.alloc(), &space, text, &faults);
}

#[test]
fn versions_and_claims(rt: HostRuntime) {
    let space = space_of(&rt, rt.alloc(), ONE_PAIR);
    let faults = [
        ("proof 2\n", 1, ProofKind::Version),
        ("proof 1\r\n", 1, ProofKind::Version),
        ("board 1\n", 1, ProofKind::Version),
        ("proof 1\nvalue 1000000001\n", 2, ProofKind::Claim),
        ("proof 1\nvalue 4294967297\n", 2, ProofKind::Claim),
        ("proof 1\nvalue 01\n", 2, ProofKind::Claim),
        ("proof 1\nvalue\n", 2, ProofKind::Claim),
        ("proof 1\nleast -1\n", 2, ProofKind::Claim),
        ("proof 1\nmost +1\n", 2, ProofKind::Claim),
        ("proof 1\nforever \n", 2, ProofKind::Claim),
        ("proof 1\nforever 1\n", 2, ProofKind::Claim),
        ("proof 1\nValue 1\n", 2, ProofKind::Claim),
    ];
    assert_faults(&rt, rt.alloc(), &space, &faults);
}

#[test]
fn sections_and_ends(rt: HostRuntime) {
    let space = space_of(&rt, rt.alloc(), ONE_PAIR);
    let faults = [
        (
            "proof 1\nvalue 1\nlabeller 1048577\n",
            3,
            ProofKind::Section,
        ),
        ("proof 1\nvalue 1\nlabeller 00\n", 3, ProofKind::Section),
        ("proof 1\nvalue 1\nlabeller *\n", 3, ProofKind::Section),
        ("proof 1\nvalue 1\nadversary 0\n", 3, ProofKind::Section),
        ("proof 1\nmost 1\nlabeller 0\n", 3, ProofKind::Section),
        (
            "proof 1\nmost 1\nadversary 1048577\n",
            3,
            ProofKind::Section,
        ),
        ("proof 1\nleast 1\nlabeller 1048576\n", 4, ProofKind::Row),
        ("proof 1\nvalue 1\nlabeller 0\nend\n", 4, ProofKind::Section),
        (
            "proof 1\nleast 1\nlabeller 0\nadversary 0\nend\n",
            4,
            ProofKind::End,
        ),
        ("proof 1\nforever\nlabeller 0\nend", 4, ProofKind::End),
        (
            "proof 1\nforever\nlabeller 0\nend\n\n",
            5,
            ProofKind::Trailing,
        ),
        (
            "proof 1\nmost 1\nadversary 0\nend\nx",
            5,
            ProofKind::Trailing,
        ),
    ];
    assert_faults(&rt, rt.alloc(), &space, &faults);
}

#[test]
fn labellers_rows(rt: HostRuntime) {
    let space = space_of(&rt, rt.alloc(), ONE_PAIR);
    let faults = [
        (answers!("at 0 0 for 01 take 1 1"), 4, ProofKind::Number),
        (answers!("at 0 0 for 0 take 1 1"), 4, ProofKind::Number),
        (
            answers!("at 0 0 for 4294967297 take 1 1"),
            4,
            ProofKind::Number,
        ),
        (
            answers!("at 0 0 for 1000000001 take 1 1"),
            4,
            ProofKind::Number,
        ),
        (answers!("at 0 0 for * take 1 1"), 4, ProofKind::Number),
        (answers!("at 0 00 for 1 take 1 1"), 4, ProofKind::Label),
        (answers!("at 2 0 for 1 take 1 1"), 4, ProofKind::Label),
        (answers!("at 0 0 for 1 take 1 2"), 4, ProofKind::Label),
        (answers!("at 0 0 for 1 take 01 1"), 4, ProofKind::Label),
        (answers!("at 0 0 for 0 take 1 2"), 4, ProofKind::Label),
        (answers!("at 0 0 for * take 2 1"), 4, ProofKind::Label),
        (answers!("at 0 65536 for 1 take 1 1"), 4, ProofKind::Label),
        (answers!("at 0 0  for 1 take 1 1"), 4, ProofKind::Row),
        (answers!("at 0 0 for 1 take 1"), 4, ProofKind::Row),
        (answers!("at 0 0 for 1 take 1 1 1"), 4, ProofKind::Row),
        (answers!("at 0 0 for 1 take 1 1 "), 4, ProofKind::Row),
        (answers!("at 0 0 for 1 take 1 -"), 4, ProofKind::Row),
        (answers!("at 0 for 1 take 1 1"), 4, ProofKind::Row),
        (answers!("at 2 2 for - take 1 1"), 4, ProofKind::Row),
        (answers!("at 0 0 for 1* take 1 1"), 4, ProofKind::Row),
        (answers!("at 0 0 for ** take 1 1"), 4, ProofKind::Row),
        (answers!("at 0 0 for 1 ask 1"), 4, ProofKind::Row),
        (answers!("at 0 0 for 1 take 1 1\r"), 4, ProofKind::Row),
    ];
    assert_faults(&rt, rt.alloc(), &space, &faults);
}

#[test]
fn adversarys_rows(rt: HostRuntime) {
    let space = space_of(&rt, rt.alloc(), ONE_PAIR);
    let faults = [
        (request!("at 0 0 for 1 ask 2"), 6, ProofKind::Pebble),
        (request!("at 0 0 for 1 ask 00"), 6, ProofKind::Pebble),
        (
            request!("at 0 0 for 1000000001 ask 2"),
            6,
            ProofKind::Pebble,
        ),
        (request!("at 0 2 for 1000000001 ask 2"), 6, ProofKind::Label),
        (
            request!("at 0 0 for 1000000001 ask 0"),
            6,
            ProofKind::Number,
        ),
        (request!("at 0 0 for 00 ask 0"), 6, ProofKind::Number),
        (request!("at 0 0 for * ask 0"), 6, ProofKind::Row),
        (request!("at 0 0 for 1 ask -"), 6, ProofKind::Row),
        (request!("at 0 0 for 1 ask"), 6, ProofKind::Row),
        (request!("at 0 0 for 1 take 1 1"), 6, ProofKind::Row),
        (request!("at 1 0 for 1 ask 0"), 7, ProofKind::Order),
        (request!("at 1 1 for 0 ask 0"), 7, ProofKind::Order),
    ];
    assert_faults(&rt, rt.alloc(), &space, &faults);
    let none = request!("at 0 0 for 0 ask 0");
    assert_eq!(&rt; fault_of(rt.alloc(), &space, none.as_bytes()), None);
}

/// Rows in which a hyphen stands in a place that may have none, or the number of labels in place
/// of a hyphen.
const HYPHENS: &[(&str, u32, ProofKind)] = &[
    (answers!("at - - for 1 take 1 -"), 4, ProofKind::Row),
    (answers!("at - - for 1 take - -"), 4, ProofKind::Row),
    (answers!("at - - for - take 1 1"), 4, ProofKind::Row),
    (answers!("at - -- for 1 take 1 1"), 4, ProofKind::Row),
    (answers!("at -0 - for 1 take 1 1"), 4, ProofKind::Row),
    (answers!("at 0- - for 1 take 1 1"), 4, ProofKind::Row),
    (answers!("at - for 1 take 1 1"), 4, ProofKind::Row),
    (answers!("at - 2 for 1 take 1 1"), 4, ProofKind::Label),
    (answers!("at 2 - for 1 take 1 1"), 4, ProofKind::Label),
    (answers!("at - 3 for 1 take 1 1"), 4, ProofKind::Label),
    (answers!("at - - for 1 take 2 1"), 4, ProofKind::Label),
    (request!("at - - for 1 ask -"), 6, ProofKind::Row),
    (request!("at - 0 for 1 ask 0"), 7, ProofKind::Order),
    (request!("at - - for 1 ask 0"), 7, ProofKind::Order),
];

#[test]
fn rows_with_hyphens(rt: HostRuntime) {
    let space = space_of(&rt, rt.alloc(), PAIR_WITHOUT_LABELS);
    assert_faults(&rt, rt.alloc(), &space, HYPHENS);
    let space = space_of(&rt, rt.alloc(), ONE_PAIR);
    let faults = [
        (answers!("at - 0 for 1 take 1 1"), 4, ProofKind::Row),
        (answers!("at - - for 1 take 1 1"), 4, ProofKind::Row),
        (request!("at 0 - for 1 ask 0"), 6, ProofKind::Row),
        (PAIR_WITHOUT_LABELS_VALUE_TWO, 4, ProofKind::Row),
    ];
    assert_faults(&rt, rt.alloc(), &space, &faults);
}

#[test]
fn orders_and_numbers_of_rows(rt: HostRuntime) {
    let space = space_of(&rt, rt.alloc(), CHAIN_OF_THREE);
    let faults = [
        (
            "proof 1\nleast 1\nlabeller 2\nat 0 1 for 1 take 2 1\nat 0 1 for 2 take 2 2\nend\n",
            5,
            ProofKind::Order,
        ),
        (
            "proof 1\nleast 1\nlabeller 2\nat 1 0 for 1 take 1 2\nat 0 1 for 1 take 2 1\nend\n",
            5,
            ProofKind::Order,
        ),
        (
            "proof 1\nleast 1\nlabeller 2\nat 1 0 for 1 take 1 2\nat 0 1 for 0 take 2 1\nend\n",
            5,
            ProofKind::Number,
        ),
        (
            "proof 1\nforever\nlabeller 1\nat 0 0 for 1 take 1 1\nend\n",
            4,
            ProofKind::Number,
        ),
    ];
    assert_faults(&rt, rt.alloc(), &space, &faults);
}

#[test]
fn counts_of_rows(rt: HostRuntime) {
    let space = space_of(&rt, rt.alloc(), CHAIN_OF_THREE);
    let faults = [
        (
            "proof 1\nleast 1\nlabeller 2\nat 0 1 for 1 take 2 1\nend\n",
            5,
            ProofKind::Row,
        ),
        (
            "proof 1\nleast 1\nlabeller 1\nat 0 1 for 1 take 2 1\nat 1 0 for 1 take 1 2\nend\n",
            5,
            ProofKind::End,
        ),
        (
            "proof 1\nvalue 1\nlabeller 1\nat 0 1 for 1 take 2 1\nadversary 1\nend\n",
            6,
            ProofKind::Row,
        ),
        (
            "proof 1\nvalue 1\nlabeller 0\nadversary 0\nat 0 0 for 0 ask 0\nend\n",
            5,
            ProofKind::End,
        ),
    ];
    assert_faults(&rt, rt.alloc(), &space, &faults);
}
