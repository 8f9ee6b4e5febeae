//! Graphs of small boards, by either numbering, beside what the definitions give on paper.
//!
//! A run of the tests may refuse one growth of memory, whichever. So a call that was refused one is
//! made once more.

ghost use Rattle.std.specs.Prelude.{◌≡◌, IfSome};
ghost use Rattle.graphs.specs.Numbered.{numbered};

use crate::assertions::{assert_same, board_of};
use board_text::Board;
use fakes::boards::{CYCLE_WITHOUT_LABELS, THREE_CYCLE};
use graphs::{ByClasses, ByRanks, Graph, MAX_PLACES, Numbering};
use positions::is_small;
use std::alloc::Global;
use std::process::Abort;

/// A board of two pebbles with its graph, by ranks or by classes.
struct Worked {
    text: &'static str,
    /// The members of each gap, by place.
    members: &'static [&'static [u32]],
    /// The gap in which each configuration is an answer.
    struck: &'static [Option<u32>],
}

/// The three-cycle, in which 1 dominates 0, 2 dominates 1, and 0 dominates 2.
const CYCLE_BY_RANKS: Worked = Worked {
    text: THREE_CYCLE,
    // pebble 0 beside 0, 1, 2, then pebble 1
    members: &[
        &[0, 3, 6],
        &[1, 4, 7],
        &[2, 5, 8],
        &[0, 1, 2],
        &[3, 4, 5],
        &[6, 7, 8],
    ],
    // 00, 01, 02, 10, 11, 12, 20, 21, 22
    struck: &[
        None,
        Some(3),
        Some(2),
        Some(0),
        None,
        Some(4),
        Some(5),
        Some(1),
        None,
    ],
};

/// The same, of which 0 0, 1 0, 1 1, 2 0, 2 1, 2 2 are the classes.
const CYCLE_BY_CLASSES: Worked = Worked {
    text: THREE_CYCLE,
    members: &[&[0, 1, 3], &[1, 2, 4], &[3, 4, 5]],
    struck: &[None, Some(0), None, Some(2), Some(1), None],
};

/// The three-cycle with pebbles that may hold no label, the place 3, which any label dominates.
/// The classes are 0 0, 1 0, 1 1, 2 0, 2 1, 2 2, 3 0, 3 1, 3 2, 3 3.
const BLANKS_BY_CLASSES: Worked = Worked {
    text: CYCLE_WITHOUT_LABELS,
    members: &[&[0, 1, 3, 6], &[1, 2, 4, 7], &[3, 4, 5, 8], &[6, 7, 8, 9]],
    struck: &[
        None,
        Some(0),
        None,
        Some(2),
        Some(1),
        None,
        Some(3),
        Some(3),
        Some(3),
        None,
    ],
};

/// The same by ranks. Beside a pebble without a label each label of the other is an answer.
const BLANKS_BY_RANKS: Worked = Worked {
    text: CYCLE_WITHOUT_LABELS,
    members: &[
        &[0, 4, 8, 12],
        &[1, 5, 9, 13],
        &[2, 6, 10, 14],
        &[3, 7, 11, 15],
        &[0, 1, 2, 3],
        &[4, 5, 6, 7],
        &[8, 9, 10, 11],
        &[12, 13, 14, 15],
    ],
    struck: &[
        None,
        Some(4),
        Some(2),
        Some(3),
        Some(0),
        None,
        Some(5),
        Some(3),
        Some(6),
        Some(1),
        None,
        Some(3),
        Some(7),
        Some(7),
        Some(7),
        None,
    ],
};

/// The graph of a board that isn't too large.
fn graph_of<N: Numbering>(alloc: Global, board: &Board) -> Option<Graph<N>>
    ensures { IfSome result (λ graph. graph ≡ numbered board.now N.numbering) }
{
    if !is_small(board) {
        return None;
    }
    match Graph::of(alloc, board) {
        Ok(graph) => Some(graph),
        Err(_) => Graph::of(alloc, board).ok(),
    }
}

/// The member that is wanted of a gap with a place, and whether it is an answer.
fn wanted_member(worked: &Worked, gap: u32, place: u32) -> Option<(u32, bool)> {
    let row = worked.members.get(gap as usize)?;
    let member = *row.get(place as usize)?;
    let struck = worked.struck.get(member as usize)?;
    Some((member, *struck == Some(gap)))
}

/// Asserts the members of a graph's gaps, and which are answers.
fn assert_members<N: Numbering>(rt: &impl Abort, graph: &Graph<N>, worked: &Worked) {
    assert_same(rt, "gaps", graph.gaps() as usize, worked.members.len());
    for gap in 0..graph.gaps() {
        for place in 0..graph.places() {
            let member = graph.member(gap, place);
            let found = (member, graph.answered_gap(member) == Some(gap));
            assert_same(
                rt,
                (gap, place),
                Some(found),
                wanted_member(worked, gap, place),
            );
        }
    }
}

/// Asserts the members of each gap as one row, and its answers as a set, among three labels.
fn assert_rows<N: Numbering>(rt: &impl Abort, graph: &Graph<N>, worked: &Worked) {
    let mut members = [0; MAX_PLACES];
    for gap in 0..graph.gaps() {
        graph.write_members(gap, &mut members);
        let row = &members[..graph.places() as usize];
        assert_same(
            rt,
            gap,
            Some(row),
            worked.members.get(gap as usize).copied(),
        );
        let answers = graph.answers(gap);
        for label in 0..3 {
            let wanted = wanted_member(worked, gap, u32::from(label));
            let is_wanted = wanted.map(|(_, is_answer)| is_answer);
            assert_same(
                rt,
                (gap, u32::from(label)),
                Some(answers.contains(label)),
                is_wanted,
            );
        }
    }
}

/// Asserts the gap in which each configuration is an answer.
fn assert_struck<N: Numbering>(rt: &impl Abort, graph: &Graph<N>, worked: &Worked) {
    assert_same(
        rt,
        "configurations",
        graph.configurations() as usize,
        worked.struck.len(),
    );
    for configuration in 0..graph.configurations() {
        let wanted = worked.struck.get(configuration as usize).copied();
        assert_same(
            rt,
            configuration,
            Some(graph.answered_gap(configuration)),
            wanted,
        );
    }
}

/// Asserts that a board has the graph that was worked out.
fn assert_graph<N: Numbering>(rt: &impl Abort, alloc: Global, worked: &Worked) {
    let board = board_of(rt, alloc, worked.text);
    let graph = graph_of::<N>(alloc, &board).expect(rt, "a graph");
    assert_members(rt, &graph, worked);
    assert_rows(rt, &graph, worked);
    assert_struck(rt, &graph, worked);
}

#[test]
fn a_cycle_by_ranks(rt: HostRuntime) {
    assert_graph::<ByRanks>(&rt, rt.alloc(), &CYCLE_BY_RANKS);
}

#[test]
fn a_cycle_by_classes(rt: HostRuntime) {
    assert_graph::<ByClasses>(&rt, rt.alloc(), &CYCLE_BY_CLASSES);
}

#[test]
fn pebbles_without_labels_by_ranks(rt: HostRuntime) {
    assert_graph::<ByRanks>(&rt, rt.alloc(), &BLANKS_BY_RANKS);
}

#[test]
fn pebbles_without_labels_by_classes(rt: HostRuntime) {
    assert_graph::<ByClasses>(&rt, rt.alloc(), &BLANKS_BY_CLASSES);
}
