//! Values by workers that share a round over classes only if enough of them were filed last.
//!
//! A run of the tests may refuse one growth of memory, whichever. So a call that was refused one is
//! made once more.

ghost use Rattle.std.specs.Prelude.{◌≡◌, ◌≤◌, IfOk};

use crate::assertions::assert_same;
use board_text::{Board, MAX_PEBBLES};
use claim_round::RoundSeat;
use fakes::{build_board, is_configuration};
use gap_values::{GapValues, ValueTable};
use index_lists::PlainLists;
use positions::is_small;
use round_workers::{Gate, SHARED_FROM, solve_classes};
use solved_boards::{class_solver_of, values_of};
use solver::{Progress, SolveFault, Values};
use std::alloc::{AllocError, Global};
use std::process::Abort;
use std::sync::Wait;
use std::sync::atomic::AtomicU64;
use std::sync::atomic::Ordering::SeqCst;
use std::thread::Threads;

/// The labels of the chain.
const LABELS: u16 = 24;

/// How many rounds of the chain strike enough classes to be shared. A class whose greatest label is
/// m lasts 23 - m requests, so that 2600, 2300, 2024 and then 1771 of all 17,550 are filed.
const SHARED: u32 = 3;

/// A gate that counts how often workers pass in the first three rounds, and in all later ones.
#[derive(Drop)]
struct Passes {
    first: AtomicU64,
    later: AtomicU64,
}

impl Passes {
    fn none() -> Passes {
        Passes {
            first: AtomicU64::new(0),
            later: AtomicU64::new(0),
        }
    }
}

impl Gate for Passes {
    fn pass(&self, _worker: u32, round: u32, _seat: &RoundSeat) {
        let passes = if round < SHARED {
            &self.first
        } else {
            &self.later
        };
        passes.fetch_add(1, SeqCst);
    }

    fn leave(&self, _worker: u32, _round: u32, _seat: &RoundSeat) {}
}

/// The pairs of the chain: each label dominates each smaller one.
fn chain_pairs(alloc: Global) -> Result<Vec<(u16, u16)>, AllocError> {
    let mut pairs = Vec::new(alloc);
    for upper in 0..LABELS {
        for lower in 0..upper {
            pairs.push((upper, lower))?;
        }
    }
    Ok(pairs)
}

/// The chain with four pebbles.
fn chain(alloc: Global) -> Option<Board> {
    let pairs = chain_pairs(alloc).or_else(|_| chain_pairs(alloc)).ok()?;
    build_board(alloc, LABELS, 4, &[0, 0, 0, 0], &pairs).ok()
}

/// The values that this number of workers find by classes, and the gate that counted them.
fn counted(
    rt: &(impl Threads + Wait + Sync),
    alloc: Global,
    board: &Board,
    workers: u32,
) -> Result<(GapValues, Passes), SolveFault>
    requires workers { (1 ≤ workers) × (workers ≤ 16) }
    ensures { IfOk result (λ found. found.0 ≡ board.now) }
{
    if !is_small(board) {
        return Err(SolveFault::TooLarge);
    }
    let passes = Passes::none();
    let values = solve_classes(rt, alloc, board, workers, &passes)?;
    Ok((values, passes))
}

/// Asserts that each configuration of `board` has its value.
fn assert_values(rt: &impl Abort, board: &Board, found: &GapValues, wanted: &Values)
    requires { found.now ≡ board.now }
{
    let space = wanted.space();
    let pebbles = space.pebbles() as usize;
    for rank in 0..space.configurations() {
        let places = space.places_at(rank);
        let held = &places[..pebbles];
        assert!(rt; is_configuration(board, held));
        assert_same(rt, rank, found.value(held), wanted.of(rank));
    }
}

/// Asserts that the first rounds strike enough classes to be shared, and the next one too few.
fn assert_on_both_sides(rt: &impl Abort, alloc: Global, board: &Board) {
    let mut solver = class_solver_of::<PlainLists>(alloc, board).expect(rt, "a solver");
    for round in 0..SHARED {
        assert_same(rt, round, solver.last_filed() >= SHARED_FROM, true);
        let filed = matches!(solver.round(), Progress::Filed(_));
        assert_same(rt, round, filed, true);
    }
    assert_same(rt, SHARED, solver.last_filed() < SHARED_FROM, true);
}

/// What `counted` finds, asked for once more if memory was refused.
fn counted_at_last(
    rt: &(impl Abort + Threads + Wait + Sync),
    alloc: Global,
    board: &Board,
    workers: u32,
) -> (GapValues, Passes)
    requires { (1 ≤ workers) × (workers ≤ 16) }
    ensures { result.0 ≡ board.now }
{
    let answer = match counted(rt, alloc, board, workers) {
        Err(_) => counted(rt, alloc, board, workers),
        answer => answer,
    };
    answer.expect(rt, "values")
}

#[test]
fn rounds_of_many_classes_are_shared(rt: HostRuntime) {
    let board = chain(rt.alloc()).expect(&rt, "a board");
    assert_on_both_sides(&rt, rt.alloc(), &board);
    let wanted = values_of(rt.alloc(), &board).expect(&rt, "values");
    for workers in 1..5 {
        let (found, passes) = counted_at_last(&rt, rt.alloc(), &board, workers);
        let times = if workers == 1 {
            0
        } else {
            u64::from(SHARED * workers)
        };
        assert_same(&rt, workers, passes.first.load(SeqCst), times);
        assert_same(&rt, workers, passes.later.load(SeqCst), 0);
        assert_values(&rt, &board, &found, &wanted);
    }
}

/// Asserts that all configurations of a board with these pairs have the values that are found by
/// ranks.
fn assert_as_by_ranks(
    rt: &(impl Abort + Threads + Wait + Sync),
    alloc: Global,
    pebbles: u8,
    pairs: &[(u16, u16)],
) {
    let start = [0; MAX_PEBBLES];
    if pebbles as usize <= MAX_PEBBLES {
        let board = build_board(alloc, 3, pebbles, &start[..pebbles as usize], pairs);
        let board = board.ok().expect(rt, "a board");
        let wanted = values_of(alloc, &board).expect(rt, "values");
        let (found, _) = counted_at_last(rt, alloc, &board, 2);
        assert_values(rt, &board, &found, &wanted);
    }
}

#[test]
fn each_number_of_pebbles(rt: HostRuntime) {
    for pebbles in 1..7 {
        assert_as_by_ranks(&rt, rt.alloc(), pebbles, &[]);
        assert_as_by_ranks(&rt, rt.alloc(), pebbles, &[(1, 0), (2, 0), (2, 1)]);
        assert_as_by_ranks(&rt, rt.alloc(), pebbles, &[(0, 2), (1, 0), (2, 1)]);
    }
}
