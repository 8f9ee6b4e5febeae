//! Solving worked boards, and small boards against the slow program, with both stores of lists.
//!
//! A run of the tests may refuse one growth of memory, whichever. So a call that was refused one is
//! made once more.

use crate::assertions::{assert_same, board_of};
use board_text::Board;
use fakes::boards::{
    CHAIN_OF_THREE, CYCLE_WITHOUT_LABELS, LONE_LABEL, LONE_WITHOUT_LABEL, ONE_PAIR,
    PAIR_WITHOUT_LABELS, SHARED_LABEL, THREE_CYCLE, THREE_PEBBLES,
};
use fakes::value_at;
use graphs::{ByClasses, Numbering};
use index_lists::{LinkLists, ListStore, PlainLists};
use positions::{Space, Value};
use solved_boards::{class_solver_of, solver_of, value};
use solver::{Progress, Solver, Values};
use std::alloc::Global;
use std::process::Abort;

/// The solver of a board.
pub(crate) fn open<S: ListStore + Drop>(
    rt: &impl Abort,
    alloc: Global,
    board: &Board,
) -> Solver<S> {
    solver_of(alloc, board).expect(rt, "a solver")
}

/// The solver of a board by classes.
pub(crate) fn open_classes<S: ListStore + Drop>(
    rt: &impl Abort,
    alloc: Global,
    board: &Board,
) -> Solver<S, ByClasses> {
    class_solver_of(alloc, board).expect(rt, "a solver by classes")
}

/// The values of a board, found by ranks.
pub(crate) fn solve<S: ListStore + Drop>(rt: &impl Abort, alloc: Global, board: &Board) -> Values {
    open::<S>(rt, alloc, board).solve()
}

/// The value that a solver has for a number, if it is that of a configuration.
fn known<S: ListStore, N: Numbering>(solver: &Solver<S, N>, rank: u32) -> Option<u32> {
    if rank < solver.graph().configurations() {
        solver.value_at(rank)
    } else {
        None
    }
}

/// The safe answer of a gap, if it is one.
pub(crate) fn safe(values: &Values, gap: u32) -> Option<u16> {
    if gap < values.space().gaps() {
        values.safe_answer(gap)
    } else {
        None
    }
}

/// The value of a rank by the slow program, if it is one.
pub(crate) fn slow_value(board: &Board, space: &Space, rank: u32) -> Option<Value> {
    let mut labels = [0; 6];
    let pebbles = space.pebbles();
    if rank >= space.configurations() {
        return None;
    }
    for pebble in 0..pebbles {
        *labels.get_mut(pebble as usize)? = space.label_at(rank, pebble);
    }
    value_at(board, labels.get_mut(..pebbles as usize)?)
}

/// Asserts the values that a solver has for the numbers from 0 on.
pub(crate) fn assert_known<S: ListStore, N: Numbering>(
    rt: &impl Abort,
    solver: &Solver<S, N>,
    wanted: &[u32],
) {
    let mut number: u32 = 0;
    for value in wanted {
        assert_same(rt, number, known(solver, number), Some(*value));
        number = number.saturating_add(1);
    }
}

/// Asserts the answers of two rounds, and whether the solver is done then.
fn assert_two_rounds<S: ListStore>(
    rt: &impl Abort,
    solver: &mut Solver<S>,
    wanted: [Progress; 2],
    done: bool,
) {
    let rounds = [solver.round(), solver.round()];
    assert_same(rt, "rounds", (rounds, solver.done()), (wanted, done));
}

/// A chain of three labels, round by round.
fn chain<S: ListStore + Drop>(rt: &impl Abort, alloc: Global) {
    let board = board_of(rt, alloc, CHAIN_OF_THREE);
    let mut solver: Solver<S> = open(rt, alloc, &board);
    assert_same(rt, "rank 5 at first", known(&solver, 5), Some(0));
    assert_same(rt, "rank 0 at first", known(&solver, 0), None);
    let filed = [Progress::Filed(3), Progress::Filed(1)];
    assert_two_rounds(rt, &mut solver, filed, false);
    assert_two_rounds(rt, &mut solver, [Progress::Done, Progress::Done], true);
    assert_same(rt, "the last round", solver.round_number(), 2);
    assert_known(rt, &solver, &[2, 1, 0, 1, 1, 0, 0, 0, 0]);
}

#[test]
fn chain_of_three(rt: HostRuntime) {
    chain::<PlainLists>(&rt, rt.alloc());
    chain::<LinkLists>(&rt, rt.alloc());
}

/// The solver that `finish` gives back if the rounds aren't done.
fn given_back<S: ListStore + Drop>(solver: Solver<S>) -> Option<Solver<S>> {
    match solver.finish() {
        Ok(_) => None,
        Err(unfinished) => Some(unfinished.solver),
    }
}

#[test]
fn unfinished(rt: HostRuntime) {
    let board = board_of(&rt, rt.alloc(), ONE_PAIR);
    let solver: Solver<LinkLists> = open(&rt, rt.alloc(), &board);
    let again = given_back(solver).expect(&rt, "a solver");
    assert_same(&rt, "rounds", again.round_number(), 0);
}

/// Three pebbles on the cycle, round by round, with a solver that is to finish too early twice.
fn three_pebbles<S: ListStore + Drop>(rt: &impl Abort, alloc: Global) {
    let board = board_of(rt, alloc, THREE_PEBBLES);
    let solver: Solver<S> = open(rt, alloc, &board);
    let mut solver = given_back(solver).expect(rt, "a solver without a round");
    assert_same(rt, "the first round", solver.round(), Progress::Filed(3));
    let mut solver = given_back(solver).expect(rt, "a solver with a round");
    let last = (solver.round(), solver.done(), solver.round_number());
    assert_same(rt, "the last round", last, (Progress::Done, true, 1));
    assert_same(rt, "values", given_back(solver).is_none(), true);
}

#[test]
fn three_pebbles_on_the_cycle(rt: HostRuntime) {
    three_pebbles::<PlainLists>(&rt, rt.alloc());
    three_pebbles::<LinkLists>(&rt, rt.alloc());
}

/// The value of the first configuration of the board with this text, and the safe answer of the
/// first gap.
fn first_value(rt: &impl Abort, alloc: Global, text: &str) -> (Option<Value>, Option<u16>) {
    let board = board_of(rt, alloc, text);
    let values = solve::<LinkLists>(rt, alloc, &board);
    (value(&values, 0), safe(&values, 0))
}

/// The value that a solver has for the first configuration of a board before its first round, and
/// the answer of that round.
fn first_round<S: ListStore + Drop>(
    rt: &impl Abort,
    alloc: Global,
    text: &str,
) -> (Option<u32>, Progress) {
    let board = board_of(rt, alloc, text);
    let mut solver: Solver<S> = open(rt, alloc, &board);
    (known(&solver, 0), solver.round())
}

/// Asserts that a board of one label has nothing to file, and whether its one configuration has the
/// value 0 before.
fn assert_first_round<S: ListStore + Drop>(
    rt: &impl Abort,
    alloc: Global,
    text: &str,
    known: Option<u32>,
) {
    let found = first_round::<S>(rt, alloc, text);
    assert_same(rt, text, found, (known, Progress::Done));
}

#[test]
fn rounds_of_one_label(rt: HostRuntime) {
    for (text, known) in [(LONE_LABEL, None), (SHARED_LABEL, Some(0))] {
        assert_first_round::<PlainLists>(&rt, rt.alloc(), text, known);
        assert_first_round::<LinkLists>(&rt, rt.alloc(), text, known);
    }
}

#[test]
fn one_label(rt: HostRuntime) {
    let lone = first_value(&rt, rt.alloc(), LONE_LABEL);
    assert_same(&rt, LONE_LABEL, lone, (Some(Value::Forever), Some(0)));
    let shared = first_value(&rt, rt.alloc(), SHARED_LABEL);
    assert_same(&rt, SHARED_LABEL, shared, (Some(Value::Finite(0)), None));
}

/// Asserts that each configuration has the value of the slow program, with both stores.
pub(crate) fn assert_solved(rt: &impl Abort, alloc: Global, board: &Board) {
    let linked = solve::<LinkLists>(rt, alloc, board);
    let plain = solve::<PlainLists>(rt, alloc, board);
    for rank in 0..linked.space().configurations() {
        let expected = slow_value(board, linked.space(), rank);
        assert_same(rt, ("linked", rank), value(&linked, rank), expected);
        assert_same(rt, ("plain", rank), value(&plain, rank), expected);
    }
}

#[test]
fn small_boards(rt: HostRuntime) {
    for text in [
        THREE_CYCLE,
        ONE_PAIR,
        CHAIN_OF_THREE,
        LONE_LABEL,
        SHARED_LABEL,
        THREE_PEBBLES,
        PAIR_WITHOUT_LABELS,
        CYCLE_WITHOUT_LABELS,
        LONE_WITHOUT_LABEL,
    ] {
        let board = board_of(&rt, rt.alloc(), text);
        assert_solved(&rt, rt.alloc(), &board);
    }
}
