//! The calls of a solver and of its values on worked boards.
//!
//! A run of the tests may refuse one growth of memory, whichever.

use crate::assertions::{assert_same, board_of};
use crate::solving::{open, solve};
use board_text::Board;
use fakes::boards::{CHAIN_OF_THREE, CYCLE_WITH_A_WAY_IN, NO_PAIRS, THREE_PEBBLES};
use fakes::make_nested;
use graphs::{ByClasses, Numbering};
use index_lists::{LinkLists, ListStore, PlainLists};
use positions::{Value, is_small};
use solver::{Progress, SolveFault, Solver, Values};
use std::alloc::Global;
use std::process::Abort;

/// The first configurations that are filed at a value.
fn filed<S: ListStore, N: Numbering>(solver: &Solver<S, N>, value: u32) -> [Option<u32>; 6] {
    let mut found = [None; 6];
    let mut at = solver.first_filed(value);
    for place in 0..6 {
        found[place] = at;
        at = match at {
            Some(rank) if rank < solver.graph().configurations() => solver.next_filed(rank),
            _ => None,
        };
    }
    found
}

/// The first member of a gap without a value, if it is a gap.
fn first_source<S: ListStore>(solver: &Solver<S>, gap: u32) -> Option<u32> {
    if gap < solver.graph().gaps() {
        solver.first_source(gap)
    } else {
        None
    }
}

/// The members of a gap without a value, if it is a gap, as far as there is room.
fn sources<S: ListStore>(solver: &Solver<S>, gap: u32) -> [Option<u32>; 3] {
    let mut found = [None; 3];
    if gap < solver.graph().gaps() {
        let mut walk = solver.sources(gap);
        found = [walk.take_next(), walk.take_next(), walk.take_next()];
    }
    found
}

/// The next member of a gap without a value after this one, if they are a gap and a rank.
fn next_source<S: ListStore>(solver: &Solver<S>, gap: u32, rank: u32) -> Option<u32> {
    if gap < solver.graph().gaps() && rank < solver.graph().configurations() {
        solver.next_source(gap, rank)
    } else {
        None
    }
}

/// The count of a gap, if it is one.
fn count_of<S: ListStore>(solver: &Solver<S>, gap: u32) -> Option<u32> {
    if gap < solver.graph().gaps() {
        Some(solver.count_of(gap))
    } else {
        None
    }
}

/// The dominator of a configuration, if it is one and has one.
fn dominator<S: ListStore>(solver: &Solver<S>, rank: u32) -> Option<u8> {
    if rank < solver.graph().configurations() {
        solver.dominator(rank)
    } else {
        None
    }
}

/// Asserts the first configurations that are filed at values.
pub(crate) fn assert_filed<S: ListStore, N: Numbering>(
    rt: &impl Abort,
    solver: &Solver<S, N>,
    wanted: &[(u32, [Option<u32>; 6])],
) {
    for (value, ranks) in wanted {
        assert_same(rt, ("filed at", *value), filed(solver, *value), *ranks);
    }
}

/// Asserts the first members of gaps without a value.
fn assert_first_sources<S: ListStore>(
    rt: &impl Abort,
    solver: &Solver<S>,
    wanted: &[(u32, Option<u32>)],
) {
    for (gap, rank) in wanted {
        assert_same(rt, ("first of", *gap), first_source(solver, *gap), *rank);
    }
}

/// Asserts the members of gaps without a value.
fn assert_sources<S: ListStore>(
    rt: &impl Abort,
    solver: &Solver<S>,
    wanted: &[(u32, [Option<u32>; 3])],
) {
    for (gap, ranks) in wanted {
        assert_same(rt, ("members of", *gap), sources(solver, *gap), *ranks);
    }
}

/// Asserts the next members of gaps without a value.
fn assert_next_sources<S: ListStore>(
    rt: &impl Abort,
    solver: &Solver<S>,
    wanted: &[(u32, u32, Option<u32>)],
) {
    for (gap, rank, next) in wanted {
        let found = next_source(solver, *gap, *rank);
        assert_same(rt, (*gap, *rank), found, *next);
    }
}

/// Asserts the counts of gaps.
fn assert_counts_of_gaps<S: ListStore>(rt: &impl Abort, solver: &Solver<S>, wanted: &[(u32, u32)]) {
    for (gap, count) in wanted {
        assert_same(rt, ("count of", *gap), count_of(solver, *gap), Some(*count));
    }
}

/// The configurations of the chain of three labels with a request that has no answer.
const STUCK: [Option<u32>; 6] = [Some(2), Some(5), Some(6), Some(7), Some(8), None];

/// Asserts the lists of a chain of three labels before its first round.
fn assert_lists_before<S: ListStore>(rt: &impl Abort, solver: &Solver<S>) {
    assert_same(rt, ("dominator of", 5), dominator(solver, 5), Some(1));
    assert_same(rt, ("dominator of", 8), dominator(solver, 8), None);
    assert_filed(rt, solver, &[(0, STUCK), (1, [None; 6])]);
    // Gap 4 is pebble 1, with pebble 0 on label 1. Its member with label 2 is stuck.
    assert_first_sources(rt, solver, &[(4, Some(3))]);
    assert_sources(rt, solver, &[(4, [Some(3), Some(4), None])]);
    assert_next_sources(rt, solver, &[(4, 3, Some(4)), (4, 4, None), (4, 5, None)]);
    // Rank 0 waits in the gap before, and rank 1 after it.
    assert_next_sources(rt, solver, &[(3, 0, Some(1)), (4, 0, None)]);
    assert_counts_of_gaps(rt, solver, &[(4, 1), (3, 2)]);
}

/// Asserts the lists of a chain of three labels after its first round.
fn assert_lists_after<S: ListStore>(rt: &impl Abort, solver: &Solver<S>) {
    assert_filed(rt, solver, &[(0, STUCK)]);
    assert_same(
        rt,
        "filed at 1",
        filed(solver, 1).iter().flatten().count(),
        3,
    );
    assert_first_sources(rt, solver, &[(4, None), (3, Some(0))]);
    assert_sources(rt, solver, &[(4, [None; 3]), (3, [Some(0), None, None])]);
    assert_next_sources(rt, solver, &[(3, 0, None)]);
    // One answer leads to a value of at least 1: label 1, which leads to rank 1.
    assert_counts_of_gaps(rt, solver, &[(4, 0), (3, 1)]);
}

/// The lists of a chain of three labels, before and after its first round.
fn lists_of_a_chain<S: ListStore + Drop>(rt: &impl Abort, alloc: Global) {
    let board = board_of(rt, alloc, CHAIN_OF_THREE);
    let mut solver: Solver<S> = open(rt, alloc, &board);
    assert_lists_before(rt, &solver);
    assert_same(rt, "the first round", solver.round(), Progress::Filed(3));
    assert_lists_after(rt, &solver);
}

#[test]
fn lists(rt: HostRuntime) {
    lists_of_a_chain::<PlainLists>(&rt, rt.alloc());
    lists_of_a_chain::<LinkLists>(&rt, rt.alloc());
}

/// The answers of the first rounds of a solver.
fn first_rounds<S: ListStore + Drop>(
    alloc: Global,
    board: &Board,
) -> Result<[Progress; 3], SolveFault> {
    let mut solver: Solver<S> = Solver::open(alloc, board)?;
    Ok([solver.round(), solver.round(), solver.round()])
}

/// The answers of the first rounds of a solver by classes.
fn first_rounds_of_classes<S: ListStore + Drop>(
    alloc: Global,
    board: &Board,
) -> Result<[Progress; 3], SolveFault> {
    if !is_small(board) {
        return Err(SolveFault::TooLarge);
    }
    let mut solver = Solver::<S, ByClasses>::of(alloc, board)?;
    Ok([solver.round(), solver.round(), solver.round()])
}

/// Opens a solver three times, by ranks or by classes. At most one growth of memory is refused:
/// that call says so, and the others give a solver.
fn open_in_turn<S: ListStore + Drop>(
    rt: &impl Abort,
    alloc: Global,
    board: &Board,
    by_classes: bool,
) {
    let first = if by_classes { 2 } else { 3 };
    let wanted = [Progress::Filed(first), Progress::Filed(1), Progress::Done];
    let mut was_refused = false;
    for _ in 0..3 {
        let found = if by_classes {
            first_rounds_of_classes::<S>(alloc, board)
        } else {
            first_rounds::<S>(alloc, board)
        };
        match found {
            Ok(rounds) => assert_same(rt, "rounds", rounds, wanted),
            Err(fault) => {
                assert_same(
                    rt,
                    "a refused call",
                    (fault, was_refused),
                    (SolveFault::Memory, false),
                );
                was_refused = true;
            }
        }
    }
}

#[test]
fn a_growth_is_refused(rt: HostRuntime) {
    let board = board_of(&rt, rt.alloc(), CHAIN_OF_THREE);
    for by_classes in [false, true] {
        open_in_turn::<PlainLists>(&rt, rt.alloc(), &board, by_classes);
        open_in_turn::<LinkLists>(&rt, rt.alloc(), &board, by_classes);
    }
}

/// Asserts the number of configurations of each of the finite values and of the value Forever, and
/// that no configuration has a greater one.
fn assert_counts(rt: &impl Abort, values: &Values, finite: &[(u32, u32)], forever: u32) {
    let mut greatest = None;
    for (number, count) in finite {
        assert_same(rt, *number, values.count(Value::Finite(*number)), *count);
        greatest = Some(*number);
    }
    let next = greatest.map_or(0, |number: u32| number.saturating_add(1));
    assert_same(rt, next, values.count(Value::Finite(next)), 0);
    assert_same(rt, u32::MAX, values.count(Value::Finite(u32::MAX)), 0);
    assert_same(rt, "forever", values.count(Value::Forever), forever);
    assert_same(rt, "the greatest", values.greatest_finite(), greatest);
}

#[test]
fn counts(rt: HostRuntime) {
    for (text, finite, forever) in [
        (CHAIN_OF_THREE, [(0, 5), (1, 3), (2, 1)].as_slice(), 0),
        (CYCLE_WITH_A_WAY_IN, [(0, 9), (1, 7)].as_slice(), 9),
        (THREE_PEBBLES, [(0, 24), (1, 3)].as_slice(), 0),
        (NO_PAIRS, [(0, 1_048_576)].as_slice(), 0),
    ] {
        let board = board_of(&rt, rt.alloc(), text);
        let values = solve::<LinkLists>(&rt, rt.alloc(), &board);
        assert_counts(&rt, &values, finite, forever);
    }
}

#[test]
fn counts_of_a_nested_board(rt: HostRuntime) {
    let board = make_nested(rt.alloc(), 3, 3).expect(&rt, "a nested board");
    let values = solve::<LinkLists>(&rt, rt.alloc(), &board);
    assert_counts(&rt, &values, &[], 729);
}
