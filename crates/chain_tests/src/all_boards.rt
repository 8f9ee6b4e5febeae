//! The chains of all boards of few labels, beside those that are counted by the definition.

ghost use Rattle.std.specs.Prelude.{◌≤◌};

use crate::assertions::assert_same;
use crate::chains_of_boards::chains_by;
use crate::slow_chains::{MOST, SlowChains, chains_of_length};
use board_text::Board;
use chains::ChainCounts;
use fakes::build_board;
use std::alloc::{AllocError, Global};
use std::process::Abort;
use std::thread::Threads;

/// The pairs of a board of this number among all with as many labels: its digits in base three say
/// of each two labels whether neither, the greater or the smaller one dominates.
fn pairs_of(alloc: Global, labels: u16, number: u32) -> Result<Vec<(u16, u16)>, AllocError> {
    let mut rest = number;
    let mut pairs = Vec::new(alloc);
    for greater in 0..labels {
        for smaller in 0..greater {
            match rest % 3 {
                0 => {}
                1 => pairs.push((greater, smaller))?,
                _ => pairs.push((smaller, greater))?,
            }
            rest /= 3;
        }
    }
    pairs.sort_unstable();
    Ok(pairs)
}

/// The board of this number among all with as many labels.
fn board_of_number(rt: &impl Abort, alloc: Global, labels: u16, number: u32) -> Board {
    let pairs = pairs_of(alloc, labels, number)
        .or_else(|_| pairs_of(alloc, labels, number))
        .expect(rt, "pairs");
    build_board(alloc, labels, 1, &[0], &pairs).expect(rt, "parts of a board")
}

/// The chain found, as the slow function has it.
fn chain_of(found: &ChainCounts) -> Option<[u16; MOST]> {
    let chain = found.undominated.as_ref()?;
    let mut labels = [0; MOST];
    for (place, label) in labels.iter_mut().zip(chain.iter()) {
        *place = *label;
    }
    Some(labels)
}

/// Asserts that the chains found are those by the definition, of each length up to the last.
fn assert_by_definition(rt: &impl Abort, place: (u16, u32), board: &Board, found: &ChainCounts) {
    for (index, &count) in found.counts.iter().enumerate() {
        let is_last = index == found.counts.len() - 1;
        let wanted = SlowChains {
            count,
            undominated: if is_last { chain_of(found) } else { None },
        };
        assert_same(
            rt,
            (place, index),
            chains_of_length(board, index + 1),
            wanted,
        );
    }
    assert_same(
        rt,
        (place, "has a last chain"),
        found.undominated.is_some(),
        true,
    );
}

/// Asserts the chains of the boards of some labels with these numbers, by so many workers.
fn assert_boards(
    rt: &(impl Abort + Threads + Sync),
    alloc: Global,
    labels: u16,
    boards: u32,
    workers: u8,
)
    requires workers { 1 ≤ workers }
{
    for number in 0..boards {
        let board = board_of_number(rt, alloc, labels, number);
        let found = chains_by(rt, alloc, &board, MOST as u8, workers);
        assert_by_definition(rt, (labels, number), &board, &found);
    }
}

#[test]
fn all_boards_of_up_to_three_labels(rt: HostRuntime) {
    for workers in [1, 3] {
        assert_boards(&rt, rt.alloc(), 1, 1, workers);
        assert_boards(&rt, rt.alloc(), 2, 3, workers);
        assert_boards(&rt, rt.alloc(), 3, 27, workers);
    }
}

#[test]
fn all_boards_of_four_labels(rt: HostRuntime) {
    assert_boards(&rt, rt.alloc(), 4, 729, 1);
}
