//! Solving a board round by round, each round shared by all workers or made by their caller alone.

ghost use Rattle.std.specs.Prelude.{◌≡◌, ℕ, ◌<◌, ◌≤◌, ◌↔◌, ◌≢◌, true, false, length, Err, IfOk};
ghost use Rattle.std.specs.Prelude.{IfErr};
ghost use Rattle.positions.specs.Ranks.{configurations};
ghost use Rattle.classes.specs.Numbers.{class_count};
ghost use Rattle.graphs.specs.Numbered.{graph_of};
ghost use Rattle.solver.specs.Ending.{IsRoundEnd};
ghost use Rattle.solver.specs.Solving.{IsSolving, HasFiled, HasFoundNone, bucket};

use crate::gate::Gate;
use crate::tree::share;
use board_text::Board;
use claim_round::{Closed, SharedRound};
use gap_values::GapValues;
use graphs::{ByClasses, Numbering};
use index_lists::{ListStore, PlainLists};
use positions::MAX_CONFIGURATIONS;
use solver::{Progress, SolveFault, Solver, Values};
use std::alloc::Global;
use std::sync::Wait;
use std::thread::Threads;

/// The largest number of workers that may share a round.
pub const MAX_WORKERS: u32 = 16;

/// The least number of classes filed last for which `solve_classes` shares a round, if they are a
/// tenth of all too. bench/performance.md has what sharing costs.
pub const SHARED_FROM: u32 = 2_000;

/// The least number of classes filed last for which `solve_classes` answers that a shared round was
/// refused a thread or memory. A smaller one is then made alone.
pub const MIN_SHARED: u32 = 131_072;

/// Which rounds are shared, by how many configurations were filed last.
#[derive(Clone, Copy, Drop)]
struct Sharing {
    /// The least number for which a round is shared.
    least: u32,
    /// The least number for which a shared round that is refused a thread or memory isn't made
    /// alone.
    needed: u32,
}

/// Works a round of `solver` to its end by `workers` workers,
/// each in a thread of its own. Worker 0 is this thread.
fn work_round<S: ListStore + Sync, N: Numbering + Sync, G: Gate, R: Threads + Wait + Sync>(
    rt: &R,
    alloc: Global,
    solver: &Solver<S, N>,
    workers: u32,
    gate: &G,
) -> Result<Closed, SolveFault>
    requires going { solver.now.is_done ≡ false }
    requires workers { (1 ≤ workers) × (workers ≤ MAX_WORKERS) }
    ensures end { IfOk result (λ c. IsRoundEnd solver.now c.won c.counts) }
    ensures fault { IfErr result (λ f. f ≢ SolveFault.TooLarge) }
    ensures worker { result ≡ Err SolveFault.Worker → 1 < workers }
{
    let Ok((round, seat)) = SharedRound::open(alloc, solver, workers) else {
        return Err(SolveFault::Memory);
    };
    let seat = share(rt, &round, gate, 0, solver.round_number(), seat)?;
    let Ok(closed) = round.close(seat) else {
        // The seat has the whole width again, and no work left.
        unreachable!();
    };
    Ok(closed)
}

/// The values of `board`, found in rounds that `workers` workers share, 1 to `MAX_WORKERS`.
///
/// Each round is shared by all workers: a seat of its own for each, the first on this thread, the
/// others each on a thread that is started for the round and joined before it ends. One worker
/// starts no thread. It may wait for its workers. The values are those of the board, whatever the
/// number of workers, the gate and the schedule are. `Worker` is never answered with one worker.
pub fn solve_values<G: Gate, R: Threads + Wait + Sync>(
    rt: &R,
    alloc: Global,
    board: &Board,
    workers: u32,
    gate: &G,
) -> Result<Values, SolveFault>
    requires workers { (1 ≤ workers) × (workers ≤ MAX_WORKERS) }
    ensures values { IfOk result (λ values. values ≡ board.now) }
    ensures too_large { (result ≡ Err SolveFault.TooLarge)
        ↔ (MAX_CONFIGURATIONS < configurations board.now) }
    ensures worker { result ≡ Err SolveFault.Worker → 1 < workers }
{
    let solver = Solver::<PlainLists>::open(alloc, board)?;
    let all = Sharing {
        least: 0,
        needed: 0,
    };
    match run_rounds(rt, alloc, solver, workers, gate, all)?.finish() {
        Ok(values) => Ok(values),
        // The solver is done after all rounds.
        Err(_) => unreachable!(),
    }
}

/// The values of `board`, which has few classes, found in rounds over classes of configurations:
/// all that exchanged pebbles give are one.
///
/// A round that strikes those of at least `SHARED_FROM` classes, and of a tenth of all, is shared by
/// all workers, as each round of `solve_values` is, and a smaller one by none. If a shared round of
/// fewer than `MIN_SHARED` is refused a thread or memory, this thread makes it alone, so that
/// `Worker` is answered of no board of fewer classes. The values are those of the board, whatever
/// the number of workers, the gate and the schedule are.
pub fn solve_classes<G: Gate, R: Threads + Wait + Sync>(
    rt: &R,
    alloc: Global,
    board: &Board,
    workers: u32,
    gate: &G,
) -> Result<GapValues, SolveFault>
    requires few { configurations board.now ≤ MAX_CONFIGURATIONS }
    requires workers { (1 ≤ workers) × (workers ≤ MAX_WORKERS) }
    ensures values { IfOk result (λ values. values ≡ board.now) }
    ensures fault { IfErr result (λ f. f ≢ SolveFault.TooLarge) }
    ensures worker { result ≡ Err SolveFault.Worker → 1 < workers }
    ensures enough { result ≡ Err SolveFault.Worker → MIN_SHARED ≤ class_count board.now }
{
    let solver = Solver::<PlainLists, ByClasses>::of(alloc, board)?;
    let many = Sharing {
        least: least_shared(workers, solver.graph().configurations()),
        needed: MIN_SHARED,
    };
    match run_rounds(rt, alloc, solver, workers, gate, many)?.finish_words() {
        Ok(words) => Ok(GapValues::of_classes(alloc, board, words.as_slice())?),
        // The solver is done after all rounds.
        Err(_) => unreachable!(),
    }
}

/// The least number of classes filed last for which a round is shared by this number of `workers`,
/// if there are as many `classes`. One worker shares none.
fn least_shared(workers: u32, classes: u32) -> u32
    ensures { SHARED_FROM ≤ result }
{
    if workers == 1 {
        return u32::MAX;
    }
    // A shared round opens a table of all classes and gaps, which costs more than to strike few.
    (classes / 10).max(SHARED_FROM)
}

/// The solver after all rounds that its board takes, of which `workers` workers share some.
fn run_rounds<N: Numbering + Sync, G: Gate, R: Threads + Wait + Sync>(
    rt: &R,
    alloc: Global,
    solver: Solver<PlainLists, N>,
    workers: u32,
    gate: &G,
    sharing: Sharing,
) -> Result<Solver<PlainLists, N>, SolveFault>
    requires kept { IsSolving solver }
    requires workers { (1 ≤ workers) × (workers ≤ MAX_WORKERS) }
    ensures game { IfOk result (λ ended. ended.game ≡ solver.game) }
    ensures done { IfOk result (λ ended. ended.is_done ≡ true) }
    ensures fault { IfErr result (λ f. f ≢ SolveFault.TooLarge) }
    ensures worker { result ≡ Err SolveFault.Worker → 1 < workers }
    ensures shared { IfErr result (λ _.
        sharing.needed ≤ (graph_of solver.game).configurations) }
{
    let mut solver = solver;
    while !solver.done() {
        file_next(rt, alloc, &mut solver, workers, gate, sharing)?;
    }
    Ok(solver)
}

/// Files all configurations of the next value, or finds that none has it: by `workers` workers if
/// so many were filed last that the round is shared, and else alone, which needs no memory.
fn file_next<S: ListStore + Sync, N: Numbering + Sync, G: Gate, R: Threads + Wait + Sync>(
    rt: &R,
    alloc: Global,
    solver: &mut Solver<S, N>,
    workers: u32,
    gate: &G,
    sharing: Sharing,
) -> Result<Progress, SolveFault>
    requires going { solver.old.is_done ≡ false }
    requires workers { (1 ≤ workers) × (workers ≤ MAX_WORKERS) }
    ensures game { solver.new.game ≡ solver.old.game }
    ensures kept { IfOk result (λ _. IsSolving solver.new) }
    ensures filed { IfOk result
        (λ progress. (n : ℕ) → progress ≡ Progress.Filed n → HasFiled solver.old solver.new n) }
    ensures none { IfOk result
        (λ progress. progress ≡ Progress.Done → HasFoundNone solver.old solver.new) }
    ensures shared { IfErr result (λ _.
        sharing.needed ≤ length (bucket solver.old solver.old.rounds)) }
    ensures fault { IfErr result (λ f. f ≢ SolveFault.TooLarge) }
    ensures worker { result ≡ Err SolveFault.Worker → 1 < workers }
{
    let filed = solver.last_filed();
    if filed < sharing.least {
        return Ok(solver.round());
    }
    match work_round(rt, alloc, solver, workers, gate) {
        Ok(closed) => Ok(solver.file_round(&closed)),
        // A refused round has changed nothing.
        Err(fault) if filed >= sharing.needed => Err(fault),
        Err(_) => Ok(solver.round()),
    }
}
