//! Documents that the checker accepts or refuses, beside those that runs of the program check.

use crate::assertions::{assert_same, board_of};
use crate::documents::check_text;
use fakes::boards::{CHAIN_OF_THREE, CYCLE_WITH_A_WAY_IN, ONE_PAIR, THREE_CYCLE};
use fakes::documents::CHAIN_MOST_TWO;
use proof_check::{CheckFault, Shown, Side};
use proof_text::Claim;
use std::alloc::Global;
use std::process::Abort;
use std::thread::Threads;

/// Asserts the answer of the checker to a document for the board.
fn assert_checked(
    rt: &(impl Abort + Threads + Sync),
    alloc: Global,
    board: &str,
    text: &str,
    wanted: Result<Claim, CheckFault>,
) {
    let board = board_of(rt, alloc, board);
    let answer = check_text(rt, alloc, &board, text.as_bytes()).expect(rt, "a document");
    assert_same(rt, text, answer, wanted.map(|claim| Shown { claim }));
}

/// Asserts that the checker refuses each document with its fault.
fn assert_refused(
    rt: &(impl Abort + Threads + Sync),
    alloc: Global,
    documents: &[(&str, &str, CheckFault)],
) {
    for (board, text, fault) in documents {
        assert_checked(rt, alloc, board, text, Err(*fault));
    }
}

#[test]
fn documents_that_show_their_claim(rt: HostRuntime) {
    let claim = Claim::AtMost(2);
    assert_checked(&rt, rt.alloc(), CHAIN_OF_THREE, CHAIN_MOST_TWO, Ok(claim));
}

#[test]
fn starts_that_are_missing(rt: HostRuntime) {
    let documents = [
        (
            CYCLE_WITH_A_WAY_IN,
            "proof 1\nforever\nlabeller 6\nat 0 1 for * take 2 1\nat 0 2 for * take 0 1\n\
                at 1 0 for * take 1 2\nat 1 2 for * take 0 2\nat 2 0 for * take 1 0\n\
                at 2 1 for * take 2 0\nend\n",
            CheckFault::StartMissing {
                side: Side::Labeller,
            },
        ),
        (
            ONE_PAIR,
            "proof 1\nvalue 1\nlabeller 0\nadversary 2\nat 0 0 for 1 ask 0\nat 1 0 for 0 ask 1\nend\n",
            CheckFault::StartMissing {
                side: Side::Labeller,
            },
        ),
        (
            CHAIN_OF_THREE,
            "proof 1\nvalue 0\nlabeller 0\nadversary 0\nend\n",
            CheckFault::StartMissing {
                side: Side::Adversary,
            },
        ),
    ];
    assert_refused(&rt, rt.alloc(), &documents);
}

#[test]
fn faulty_labellers(rt: HostRuntime) {
    let documents = [
        (
            CHAIN_OF_THREE,
            "proof 1\nleast 2\nlabeller 2\nat 0 0 for 2 take 1 1\nat 1 0 for 1 take 1 2\nend\n",
            CheckFault::Unlisted {
                side: Side::Labeller,
                at: 0,
                turn: 1,
            },
        ),
        (
            CHAIN_OF_THREE,
            "proof 1\nleast 2\nlabeller 1\nat 0 0 for 2 take 1 0\nend\n",
            CheckFault::Unlisted {
                side: Side::Labeller,
                at: 0,
                turn: 0,
            },
        ),
        (
            ONE_PAIR,
            "proof 1\nvalue 1\nlabeller 1\nat 0 0 for 1 take 0 1\nadversary 2\n\
                at 0 0 for 1 ask 0\nat 1 0 for 0 ask 1\nend\n",
            CheckFault::IllegalAnswer { at: 0, pebble: 0 },
        ),
        (
            ONE_PAIR,
            "proof 1\nleast 0\nlabeller 1\nat 1 1 for 1 take 0 0\nend\n",
            CheckFault::IllegalAnswer { at: 3, pebble: 0 },
        ),
    ];
    assert_refused(&rt, rt.alloc(), &documents);
}

#[test]
fn faulty_adversaries(rt: HostRuntime) {
    let documents = [
        (
            CHAIN_OF_THREE,
            "proof 1\nmost 2\nadversary 4\nat 0 0 for 2 ask 0\nat 1 0 for 1 ask 1\n\
                at 1 2 for 0 ask 0\nat 2 0 for 0 ask 0\nend\n",
            CheckFault::NotStuck { at: 6, label: 1 },
        ),
        (
            CHAIN_OF_THREE,
            "proof 1\nmost 2\nadversary 4\nat 0 0 for 2 ask 0\nat 1 0 for 1 ask 1\n\
                at 1 2 for 1 ask 0\nat 2 0 for 0 ask 1\nend\n",
            CheckFault::TooLarge { at: 3, label: 2 },
        ),
        (
            THREE_CYCLE,
            "proof 1\nmost 1\nadversary 3\nat 0 0 for 1 ask 0\nat 1 0 for 0 ask 0\n\
                at 2 0 for 0 ask 1\nend\n",
            CheckFault::NotStuck { at: 3, label: 1 },
        ),
        (
            THREE_CYCLE,
            "proof 1\nmost 1\nadversary 2\nat 0 0 for 1 ask 0\nat 1 0 for 1 ask 0\nend\n",
            CheckFault::TooLarge { at: 0, label: 1 },
        ),
    ];
    assert_refused(&rt, rt.alloc(), &documents);
}
