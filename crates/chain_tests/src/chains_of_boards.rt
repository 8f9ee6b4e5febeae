//! The chains of small boards, counted on paper.
//!
//! A run of the tests may refuse one growth of memory, whichever. So a call that was refused one is
//! made once more.

ghost use Rattle.std.specs.Prelude.{◌≤◌};
ghost use Rattle.board_text.specs.Ranges.{InRange};
ghost use Rattle.chains.specs.declared.counting.TheConstants.{MAX_LENGTH};

use crate::assertions::{assert_same, board_of};
use board_text::Board;
use chains::{ChainCounts, ChainFault, count_chains};
use fakes::boards::{CHAIN_OF_THREE, LONE_LABEL, LONE_WITHOUT_LABEL, ONE_PAIR, THREE_CYCLE};
use fakes::{build_board, make_nested, once_more};
use std::alloc::{AllocError, Global};
use std::process::Abort;
use std::thread::Threads;

/// The numbers of workers that count.
const WORKERS: [u8; 5] = [1, 2, 3, 4, 16];

/// The chains that are wanted of a board.
#[derive(Clone, Copy)]
struct Wanted {
    counts: &'static [u64],
    undominated: Option<&'static [u16]>,
}

/// One label: nothing dominates it.
const OF_LONE_LABEL: Wanted = Wanted {
    counts: &[1],
    undominated: Some(&[0]),
};

/// Label 1 dominates label 0, and nothing dominates label 1.
const OF_ONE_PAIR: Wanted = Wanted {
    counts: &[2],
    undominated: Some(&[1]),
};

/// Label 2 dominates the other two, and nothing dominates it.
const OF_CHAIN: Wanted = Wanted {
    counts: &[3],
    undominated: Some(&[2]),
};

/// Each label is dominated by one other, and no label dominates both of two.
const OF_CYCLE: Wanted = Wanted {
    counts: &[3, 3],
    undominated: Some(&[0, 1]),
};

/// The same of chains of at most one label.
const OF_CYCLE_TO_ONE: Wanted = Wanted {
    counts: &[3],
    undominated: None,
};

/// Nine labels, of which each two are a chain, and each three but 3 cycles within a copy and 27 of
/// one label of each copy. Of those with 0 and 1 the third is of the next copy, where a label
/// dominates it; 0, 3 and 4 would need one of the third copy, and 0 dominates that.
const OF_CYCLE_OF_CYCLES: Wanted = Wanted {
    counts: &[9, 36, 54],
    undominated: Some(&[0, 3, 4]),
};

/// Each two of seven labels are dominated by one, and 14 of the 35 threes are cycles.
const OF_RESIDUES: Wanted = Wanted {
    counts: &[7, 21, 21],
    undominated: Some(&[0, 1, 2]),
};

/// The chains of up to this many labels, by these workers.
pub(crate) fn chains_by(
    rt: &(impl Abort + Threads + Sync),
    alloc: Global,
    board: &Board,
    most: u8,
    workers: u8,
) -> ChainCounts
    requires most { InRange 1 MAX_LENGTH most }
    requires workers { 1 ≤ workers }
{
    match count_chains(rt, alloc, board, most, workers) {
        Ok(found) => found,
        Err(_) => count_chains(rt, alloc, board, most, workers).expect(rt, "chains"),
    }
}

/// Asserts that the chains found are those that are wanted.
fn assert_found(rt: &impl Abort, workers: u8, found: &ChainCounts, wanted: &Wanted) {
    assert_same(
        rt,
        ("lengths", workers),
        found.counts.len(),
        wanted.counts.len(),
    );
    for (index, count) in found.counts.iter().enumerate() {
        assert_same(
            rt,
            ("chains", workers, index),
            Some(count),
            wanted.counts.get(index),
        );
    }
    match (&found.undominated, wanted.undominated) {
        (Some(found), Some(wanted)) => assert_chain(rt, workers, found, wanted),
        (found, wanted) => assert_same(
            rt,
            ("has a chain that isn't dominated", workers),
            found.is_some(),
            wanted.is_some(),
        ),
    }
}

/// Asserts that the first chain that no label dominates is the one that is wanted.
fn assert_chain(rt: &impl Abort, workers: u8, found: &[u16], wanted: &[u16]) {
    assert_same(
        rt,
        ("labels of the chain", workers),
        found.len(),
        wanted.len(),
    );
    for (index, label) in found.iter().enumerate() {
        assert_same(
            rt,
            ("chain", workers, index),
            Some(label),
            wanted.get(index),
        );
    }
}

/// Asserts that each number of workers finds these chains of the board.
fn assert_chains(
    rt: &(impl Abort + Threads + Sync),
    alloc: Global,
    board: &Board,
    most: u8,
    wanted: &Wanted,
)
    requires most { InRange 1 MAX_LENGTH most }
{
    for workers in WORKERS {
        let found = chains_by(rt, alloc, board, most, workers);
        assert_found(rt, workers, &found, wanted);
    }
}

/// The pairs of the residues modulo seven: a label dominates another if their difference is a
/// square.
fn pairs_of_residues(alloc: Global) -> Result<Vec<(u16, u16)>, AllocError> {
    let mut pairs = Vec::new(alloc);
    for above in 0..7 {
        for below in 0..7 {
            if matches!((above + 7 - below) % 7, 1 | 2 | 4) {
                pairs.push((above, below))?;
            }
        }
    }
    Ok(pairs)
}

#[test]
fn chains_of_few_labels(rt: HostRuntime) {
    for (text, wanted) in [
        (LONE_LABEL, OF_LONE_LABEL),
        (LONE_WITHOUT_LABEL, OF_LONE_LABEL),
        (ONE_PAIR, OF_ONE_PAIR),
        (CHAIN_OF_THREE, OF_CHAIN),
        (THREE_CYCLE, OF_CYCLE),
    ] {
        let board = board_of(&rt, rt.alloc(), text);
        assert_chains(&rt, rt.alloc(), &board, 8, &wanted);
    }
}

#[test]
fn chains_of_one_label_at_most(rt: HostRuntime) {
    let board = board_of(&rt, rt.alloc(), THREE_CYCLE);
    assert_chains(&rt, rt.alloc(), &board, 1, &OF_CYCLE_TO_ONE);
}

#[test]
fn chains_of_a_cycle_of_cycles(rt: HostRuntime) {
    let board = once_more(board_text::Memory, || make_nested(rt.alloc(), 3, 2)).expect(
        &rt,
        "a nested board",
    );
    assert_chains(&rt, rt.alloc(), &board, 8, &OF_CYCLE_OF_CYCLES);
}

#[test]
fn chains_of_residues(rt: HostRuntime) {
    let pairs = pairs_of_residues(rt.alloc())
        .or_else(|_| pairs_of_residues(rt.alloc()))
        .expect(&rt, "pairs");
    let board = build_board(rt.alloc(), 7, 2, &[0, 0], &pairs).expect(&rt, "parts of a board");
    assert_chains(&rt, rt.alloc(), &board, 8, &OF_RESIDUES);
}
