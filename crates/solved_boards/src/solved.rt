//! Solvers of boards and their values.

ghost use Rattle.std.specs.Prelude.{◌≡◌, ◌≤◌, IfOk, IfSome, MatchOption};
ghost use Rattle.positions.specs.Ranks.{configurations, configuration_at};
ghost use Rattle.positions.specs.Value.{HasValue};
ghost use Rattle.graphs.specs.Numbered.{numbered, Ordered, Classes};
ghost use Rattle.solver.specs.Solving.{IsFresh};

use board_text::{Board, Memory};
use console::NoWatch;
use gap_values::{GapValues, OnThisThread, has_few_gaps};
use graphs::ByClasses;
use index_lists::{ListStore, PlainLists};
use positions::{MAX_CONFIGURATIONS, Value, is_small};
use solver::{SolveFault, Solver, Values};
use std::alloc::Global;

/// The answer of `Solver::open`, which is asked once more if it was refused memory.
pub fn solver_of<S: ListStore + Drop>(alloc: Global, board: &Board) -> Result<Solver<S>, SolveFault>
    ensures { IfOk result (λ solver. IsFresh (numbered board.now Ordered) solver) }
{
    match Solver::open(alloc, board) {
        Err(SolveFault::Memory) => Solver::open(alloc, board),
        opened => opened,
    }
}

/// The solver of a board that isn't too large, by classes. `Solver::of` is asked once more if it
/// was refused memory.
pub fn class_solver_of<S: ListStore + Drop>(
    alloc: Global,
    board: &Board,
) -> Option<Solver<S, ByClasses>>
    ensures { IfSome result (λ solver. IsFresh (numbered board.now Classes) solver) }
{
    if !is_small(board) {
        return None;
    }
    match Solver::of(alloc, board) {
        Err(Memory) => Solver::of(alloc, board).ok(),
        Ok(solver) => Some(solver),
    }
}

/// The values of a board that isn't too large, found over the store that runs use.
pub fn values_of(alloc: Global, board: &Board) -> Option<Values>
    ensures values { IfSome result (λ values. values ≡ board.now) }
    ensures few { IfSome result (λ _. configurations board.now ≤ MAX_CONFIGURATIONS) }
{
    values_over::<PlainLists>(alloc, board)
}

/// The values of a board that isn't too large, found over a store of lists.
pub fn values_over<S: ListStore + Drop>(alloc: Global, board: &Board) -> Option<Values>
    ensures values { IfSome result (λ values. values ≡ board.now) }
    ensures few { IfSome result (λ _. configurations board.now ≤ MAX_CONFIGURATIONS) }
{
    let solver = solver_of::<S>(alloc, board).ok()?;
    Some(solver.solve())
}

/// The values of a board that hasn't too many gaps, which may be one without ranks, by its gaps.
pub fn gap_values_of(alloc: Global, board: &Board) -> Option<GapValues>
    ensures { IfSome result (λ values. values ≡ board.now) }
{
    if !has_few_gaps(board) {
        return None;
    }
    match GapValues::of(alloc, board, &OnThisThread, &NoWatch, &mut ()) {
        Err(Memory) => GapValues::of(alloc, board, &OnThisThread, &NoWatch, &mut ()).ok(),
        Ok(values) => Some(values),
    }
}

/// The value of the configuration of `rank`, if the board has one of this rank.
pub fn value(values: &Values, rank: u32) -> Option<Value>
    ensures { MatchOption result (configurations values.now ≤ rank)
        (HasValue values.now (configuration_at values.now rank)) }
{
    if rank < values.space().configurations() {
        Some(values.of(rank))
    } else {
        None
    }
}
