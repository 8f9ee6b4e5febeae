//! Documents of a thousand rows in each section, with a fault in one of them.

use crate::assertions::assert_same;
use crate::documents::check_text;
use board_text::Board;
use fakes::build_board;
use proof_check::{CheckFault, Shown, Side};
use proof_text::Claim;
use std::alloc::{AllocError, Global};
use std::fmt::Write;
use std::process::Abort;
use std::thread::Threads;

/// The number of labels of the board. All but two are low ones.
const LABELS: u16 = 78;

/// The label that dominates each low label.
const MIDDLE: u16 = 38;

/// The label that dominates all others.
const TOP: u16 = 39;

/// The first of the low labels after the others.
const HIGH: u16 = 72;

/// The words of a row that take the place of the right ones.
#[derive(Clone, Copy)]
struct Change {
    at: (u16, u16),
    words: &'static str,
}

/// No row has this position.
const NO_CHANGE: Change = Change {
    at: (LABELS, LABELS),
    words: "",
};

fn is_low(label: u16) -> bool {
    label != MIDDLE && label != TOP
}

/// Whether both sections have rows for pebble 0 on this label and pebble 1 on a low one.
fn is_listed(label: u16) -> bool {
    label < 6 || label >= HIGH
}

/// The board: its value is 2, and both pebbles start on label 0.
fn board(alloc: Global) -> Result<Option<Board>, AllocError> {
    let mut pairs = Vec::new(alloc);
    for above in [MIDDLE, TOP] {
        for below in 0..LABELS {
            if is_low(below) || above == TOP && below == MIDDLE {
                pairs.push((above, below))?;
            }
        }
    }
    Ok(build_board(alloc, LABELS, 2, &[0, 0], &pairs).ok())
}

/// Writes a row's position, and after it these words or those of the change.
fn write_row(
    text: &mut String,
    at: (u16, u16),
    words: &str,
    change: Change,
) -> Result<(), AllocError> {
    let words = if at == change.at { change.words } else { words };
    writeln!(text, "at {} {} {words}", at.0, at.1)
}

/// Writes a labeller's section of a thousand rows.
fn write_labeller(text: &mut String, change: Change) -> Result<(), AllocError> {
    text.push_str("labeller 1000\n")?;
    for first in 0..LABELS {
        for second in 0..LABELS {
            if is_listed(first) && is_low(second) {
                write_row(text, (first, second), "for 2 take 38 38", change)?;
            }
            if is_listed(first) && second == MIDDLE {
                write_row(text, (first, second), "for 1 take 39 38", change)?;
            }
            if first == MIDDLE && is_low(second) {
                write_row(text, (first, second), "for 1 take 38 39", change)?;
            }
        }
    }
    Ok(())
}

/// Writes an adversary's section of 1,065 rows.
fn write_adversary(text: &mut String, change: Change) -> Result<(), AllocError> {
    text.push_str("adversary 1065\n")?;
    for first in 0..LABELS {
        for second in 0..LABELS {
            if is_listed(first) && is_low(second) {
                write_row(text, (first, second), "for 2 ask 0", change)?;
            }
            if first == MIDDLE && is_low(second) {
                write_row(text, (first, second), "for 1 ask 1", change)?;
            }
            if first == MIDDLE && second == TOP {
                write_row(text, (first, second), "for 0 ask 0", change)?;
            }
            if first == TOP && is_low(second) {
                write_row(text, (first, second), "for 0 ask 1", change)?;
            }
        }
    }
    Ok(())
}

fn document(alloc: Global, labeller: Change, adversary: Change) -> Result<String, AllocError> {
    let mut text = String::from_str(alloc, "proof 1\nvalue 2\n")?;
    write_labeller(&mut text, labeller)?;
    write_adversary(&mut text, adversary)?;
    text.push_str("end\n")?;
    Ok(text)
}

/// Asserts the answer of the checker to the document with the changed rows.
fn assert_checked(
    rt: &(impl Abort + Threads + Sync),
    alloc: Global,
    labeller: Change,
    adversary: Change,
    wanted: Result<Shown, CheckFault>,
) -> Result<(), AllocError> {
    let board = board(alloc)
        .or_else(|_| board(alloc))?
        .expect(rt, "a board");
    let text = document(alloc, labeller, adversary).or_else(|_| document(
        alloc, labeller, adversary,
    ))?;
    let answer = check_text(rt, alloc, &board, text.as_bytes()).expect(rt, "a document");
    assert_same(rt, (labeller.at, adversary.at), answer, wanted);
    Ok(())
}

/// The first row, one in the middle and the last.
const PLACES: [(u16, u16); 3] = [(0, 0), (HIGH, 40), (77, 77)];

fn rank(at: (u16, u16)) -> u32 {
    at.0 as u32 * LABELS as u32 + at.1 as u32
}

/// The faulty words of a labeller's row, with the fault.
fn labellers_faults(at: u32) -> [(&'static str, CheckFault); 4] {
    [
        (
            "for 2 take 0 38",
            CheckFault::IllegalAnswer { at, pebble: 0 },
        ),
        (
            "for 2 take 38 0",
            CheckFault::IllegalAnswer { at, pebble: 1 },
        ),
        (
            "for 2 take 39 0",
            CheckFault::Unlisted {
                side: Side::Labeller,
                at,
                turn: 0,
            },
        ),
        ("for 3 take 38 0", CheckFault::TooSmall { at, pebble: 0 }),
    ]
}

/// The faulty words of an adversary's row, with the fault.
fn adversarys_faults(at: u32) -> [(&'static str, CheckFault); 3] {
    [
        ("for 0 ask 0", CheckFault::NotStuck { at, label: 38 }),
        (
            "for 2 ask 1",
            CheckFault::Unlisted {
                side: Side::Adversary,
                at,
                turn: 38,
            },
        ),
        ("for 1 ask 0", CheckFault::TooLarge { at, label: 38 }),
    ]
}

#[test]
fn without_a_fault(rt: HostRuntime) -> Result<(), AllocError> {
    let shown = Ok(Shown {
        claim: Claim::Exactly(2),
    });
    assert_checked(&rt, rt.alloc(), NO_CHANGE, NO_CHANGE, shown)
}

#[test]
fn a_faulty_labellers_row(rt: HostRuntime) -> Result<(), AllocError> {
    for at in PLACES {
        for (words, fault) in labellers_faults(rank(at)) {
            let change = Change { at, words };
            assert_checked(&rt, rt.alloc(), change, NO_CHANGE, Err(fault))?;
        }
    }
    Ok(())
}

#[test]
fn a_faulty_adversarys_row(rt: HostRuntime) -> Result<(), AllocError> {
    for at in PLACES {
        for (words, fault) in adversarys_faults(rank(at)) {
            let change = Change { at, words };
            assert_checked(&rt, rt.alloc(), NO_CHANGE, change, Err(fault))?;
        }
    }
    Ok(())
}

#[test]
fn a_faulty_row_in_each_section(rt: HostRuntime) -> Result<(), AllocError> {
    let first = Change {
        at: (0, 0),
        words: "for 0 ask 0",
    };
    for at in PLACES {
        for (words, fault) in labellers_faults(rank(at)) {
            let change = Change { at, words };
            assert_checked(&rt, rt.alloc(), change, first, Err(fault))?;
        }
    }
    Ok(())
}
