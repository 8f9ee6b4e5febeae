//! Values by workers that share each round, and the notes of a gate on each worker.
//!
//! A worker that waits at the gate takes at most `TURNS` turns and then goes on, so that every test
//! ends.
//! A run of the tests may refuse one growth of memory, whichever. So a call that was refused one is
//! made once more.

ghost use Rattle.std.specs.Prelude.{◌≡◌, ◌≤◌, IfSome};

use crate::assertions::{assert_same, board_of};
use crate::rounds::SHARED;
use crate::shared_rounds::SIXTEEN;
use board_text::Board;
use claim_round::RoundSeat;
use fakes::boards::{CHAIN_OF_THREE, THREE_CYCLE, THREE_PEBBLES};
use fakes::{Shape, shaped};
use index_lists::LinkLists;
use positions::Value;
use round_workers::{Gate, NoGate, solve_values};
use solved_boards::{value, values_over};
use solver::{SolveFault, Values};
use std::alloc::{AllocError, Global};
use std::process::Abort;
use std::sync::Wait;
use std::sync::atomic::AtomicU64;
use std::sync::atomic::Ordering::SeqCst;
use std::thread;
use std::thread::Threads;

/// The most workers that share a round.
const WORKERS: u32 = 16;

/// The rounds in which a gate watches its workers.
const ROUNDS: u32 = 65;

/// The most turns that a worker waits at the gate.
const TURNS: u32 = 10_000_000;

/// The notes of a gate on one worker in one round.
#[derive(Clone, Copy, Debug, PartialEq)]
struct Seen {
    /// How often it came.
    passed: u64,
    /// The number of ranks that it had to strike when it came.
    todo: u64,
    /// How often it left with nothing to strike and nothing owed.
    left: u64,
    /// The number of ranks that it had won when it left.
    won: u64,
}

/// The words in which a gate keeps its notes on one worker in one round.
#[derive(Drop)]
struct Visit {
    passed: AtomicU64,
    todo: AtomicU64,
    left: AtomicU64,
    won: AtomicU64,
}

impl Visit {
    fn none() -> Visit {
        Visit {
            passed: AtomicU64::new(0),
            todo: AtomicU64::new(0),
            left: AtomicU64::new(0),
            won: AtomicU64::new(0),
        }
    }

    fn seen(&self) -> Seen {
        Seen {
            passed: self.passed.load(SeqCst),
            todo: self.todo.load(SeqCst),
            left: self.left.load(SeqCst),
            won: self.won.load(SeqCst),
        }
    }
}

/// Whom a worker waits for before it passes.
#[derive(Clone, Copy, PartialEq)]
enum Waits {
    /// For nobody.
    Never,
    /// Each worker waits until all have come.
    ForAllToCome,
    /// This worker waits until all others have come.
    ForOthersToCome(u32),
    /// This worker waits until all others have left.
    ForOthersToLeave(u32),
}

/// A gate that keeps notes on its workers, and lets them wait for each other.
#[derive(Drop)]
struct Watch {
    visits: Vec<Visit>,
    waits: Waits,
    workers: u32,
    /// How often the wait of a worker was met.
    met: AtomicU64,
}

impl Watch {
    fn open(alloc: Global, workers: u32, waits: Waits) -> Result<Watch, AllocError> {
        let mut visits = Vec::new(alloc);
        for _ in 0..WORKERS * ROUNDS {
            visits.push(Visit::none())?;
        }
        Ok(Watch {
            visits,
            waits,
            workers,
            met: AtomicU64::new(0),
        })
    }

    /// The words for a worker in a round, if the gate watches it.
    fn visit(&self, worker: u32, round: u32) -> Option<&Visit> {
        if worker >= WORKERS || round >= ROUNDS {
            return None;
        }
        self.visits.get((round * WORKERS + worker) as usize)
    }

    /// The notes on a worker in a round, if the gate watches it.
    fn seen(&self, worker: u32, round: u32) -> Option<Seen> {
        Some(self.visit(worker, round)?.seen())
    }

    /// Whether all workers apart from this one have come, or left, in a round.
    fn have_all(&self, round: u32, apart_from: Option<u32>, left: bool) -> bool {
        (0..self.workers).all(|worker| {
            Some(worker) == apart_from
                || self.seen(worker, round).is_some_and(|seen| {
                    if left { seen.left > 0 } else { seen.passed > 0 }
                })
        })
    }

    /// Whether all workers for whom this one waits have come, or left, in the round.
    fn may_pass(&self, worker: u32, round: u32) -> bool {
        match self.waits {
            Waits::ForAllToCome => self.have_all(round, None, false),
            Waits::ForOthersToCome(held) if held == worker => {
                self.have_all(round, Some(worker), false)
            }
            Waits::ForOthersToLeave(held) if held == worker => {
                self.have_all(round, Some(worker), true)
            }
            _ => true,
        }
    }
}

impl Gate for Watch {
    fn pass(&self, worker: u32, round: u32, seat: &RoundSeat) {
        if let Some(visit) = self.visit(worker, round) {
            visit.todo.store(u64::from(seat.todo()), SeqCst);
            visit.passed.fetch_add(1, SeqCst);
        }
        for _ in 0..TURNS {
            if self.may_pass(worker, round) {
                self.met.fetch_add(1, SeqCst);
                return;
            }
            thread::yield_now();
        }
    }

    fn leave(&self, worker: u32, round: u32, seat: &RoundSeat) {
        if let Some(visit) = self.visit(worker, round) {
            visit.won.store(seat.won().len() as u64, SeqCst);
            if seat.todo() == 0 && seat.owed() == 0 {
                visit.left.fetch_add(1, SeqCst);
            }
        }
    }
}

/// The values that this number of workers find, and the gate that watched them, unless memory or a
/// thread was refused.
fn try_watched(
    rt: &(impl Threads + Wait + Sync),
    alloc: Global,
    board: &Board,
    workers: u32,
    waits: Waits,
) -> Option<(Values, Watch)>
    requires { (1 ≤ workers) × (workers ≤ 16) }
    ensures { IfSome result (λ found. found.0 ≡ board.now) }
{
    let watch = Watch::open(alloc, workers, waits).ok()?;
    let values = solve_values(rt, alloc, board, workers, &watch).ok()?;
    Some((values, watch))
}

/// The same values and gate, which are tried for once more after a refusal.
fn watched_values(
    rt: &(impl Abort + Threads + Wait + Sync),
    alloc: Global,
    board: &Board,
    workers: u32,
    waits: Waits,
) -> (Values, Watch)
    requires { (1 ≤ workers) × (workers ≤ 16) }
    ensures { result.0 ≡ board.now }
{
    match try_watched(rt, alloc, board, workers, waits) {
        Some(found) => found,
        None => try_watched(rt, alloc, board, workers, waits).expect(rt, "values"),
    }
}

/// The gate that watched this number of workers, after the assertion that they find the values
/// that one thread finds by itself.
fn watched(
    rt: &(impl Abort + Threads + Wait + Sync),
    alloc: Global,
    board: &Board,
    workers: u32,
    waits: Waits,
) -> Watch
    requires { (1 ≤ workers) × (workers ≤ 16) }
{
    let (values, watch) = watched_values(rt, alloc, board, workers, waits);
    assert_values(rt, alloc, board, &values);
    watch
}

/// Asserts that the values are those that one thread finds by itself.
fn assert_values(rt: &impl Abort, alloc: Global, board: &Board, found: &Values) {
    let wanted = values_over::<LinkLists>(alloc, board).expect(rt, "values");
    for rank in 0..wanted.space().configurations() {
        assert_same(rt, rank, value(found, rank), value(&wanted, rank));
    }
}

/// Asserts the values of three pebbles on the cycle: 1 if all pebbles share a label, and else 0.
fn assert_three_pebbles(rt: &impl Abort, values: &Values) {
    assert_same(rt, "configurations", values.space().configurations(), 27);
    for rank in 0..27 {
        let wanted = Value::Finite(u32::from(SHARED.contains(&rank)));
        assert_same(rt, rank, value(values, rank), Some(wanted));
    }
}

/// The values that this number of workers find if no gate watches them.
fn values_by(
    rt: &(impl Abort + Threads + Wait + Sync),
    alloc: Global,
    board: &Board,
    workers: u32,
) -> Values
    requires { (1 ≤ workers) × (workers ≤ 16) }
{
    match solve_values(rt, alloc, board, workers, &NoGate) {
        Ok(values) => values,
        Err(_) => solve_values(rt, alloc, board, workers, &NoGate).expect(rt, "values"),
    }
}

#[test]
fn any_number_of_workers(rt: HostRuntime) {
    for text in [THREE_CYCLE, CHAIN_OF_THREE, THREE_PEBBLES] {
        let board = board_of(&rt, rt.alloc(), text);
        for workers in [1, 2, 3, 16] {
            let values = values_by(&rt, rt.alloc(), &board, workers);
            assert_values(&rt, rt.alloc(), &board, &values);
        }
    }
}

/// Asserts that each worker came once and left once in each of this number of rounds, and that
/// nobody else came.
fn assert_each_once(rt: &impl Abort, watch: &Watch, rounds: u32) {
    for round in 0..4 {
        for worker in 0..WORKERS {
            let times = u64::from(worker < watch.workers && round < rounds);
            let seen = watch
                .seen(worker, round)
                .map(|seen| (seen.passed, seen.left));
            assert_same(rt, (worker, round), seen, Some((times, times)));
        }
    }
}

#[test]
fn each_worker_passes_once_a_round(rt: HostRuntime) {
    for (text, workers, rounds) in [(CHAIN_OF_THREE, 3, 3), (THREE_CYCLE, 2, 1)] {
        let board = board_of(&rt, rt.alloc(), text);
        let watch = watched(&rt, rt.alloc(), &board, workers, Waits::Never);
        assert_each_once(&rt, &watch, rounds);
    }
}

#[test]
fn two_workers_on_three_pebbles(rt: HostRuntime) {
    let board = board_of(&rt, rt.alloc(), THREE_PEBBLES);
    let watch = watched(&rt, rt.alloc(), &board, 2, Waits::Never);
    let first = watch.seen(0, 0).expect(&rt, "worker 0");
    let second = watch.seen(1, 0).expect(&rt, "worker 1");
    assert_same(&rt, "shares", (first.todo, second.todo), (5, 4));
    assert_same(&rt, "left", (first.left, second.left), (1, 1));
    assert_same(&rt, "won", first.won.checked_add(second.won), Some(3));
}

#[test]
fn sixteen_workers_on_three_pebbles(rt: HostRuntime) {
    let board = board_of(&rt, rt.alloc(), THREE_PEBBLES);
    let watch = watched(&rt, rt.alloc(), &board, 16, Waits::Never);
    for worker in 0..WORKERS {
        let found = watch.seen(worker, 0).map(|seen| seen.todo);
        let wanted = SIXTEEN.get(worker as usize).copied().map(u64::from);
        assert_same(&rt, worker, found, wanted);
    }
}

// `tests/refused/run` asks that no start of a thread is there to be refused.
#[test]
fn one_worker_by_itself(rt: HostRuntime) {
    let board = board_of(&rt, rt.alloc(), THREE_PEBBLES);
    let values = values_by(&rt, rt.alloc(), &board, 1);
    assert_values(&rt, rt.alloc(), &board, &values);
}

/// The number of ranks that all workers had to strike in a round, and the least and the greatest
/// number of one worker.
fn shares(watch: &Watch, round: u32) -> Option<(u64, u64, u64)> {
    let mut all = 0u64;
    let (mut least, mut most) = (u64::MAX, 0);
    for worker in 0..watch.workers {
        let share = watch.seen(worker, round)?.todo;
        all = all.checked_add(share)?;
        least = share.min(least);
        most = share.max(most);
    }
    Some((all, least, most))
}

#[test]
fn sixteen_workers_on_the_chain(rt: HostRuntime) {
    let board = shaped(rt.alloc(), Shape::Order, 64, 2).expect(&rt, "a board");
    let watch = watched(&rt, rt.alloc(), &board, 16, Waits::Never);
    for round in 0..64 {
        let (all, least, most) = shares(&watch, round).expect(&rt, "shares");
        assert_same(&rt, round, all, u64::from(126 - 2 * round));
        assert!(&rt;
            most <= least.saturating_add(1),
            "round {round}: {least} to {most}"
        );
    }
    assert_same(
        &rt,
        "no more rounds",
        watch.seen(0, 64).map(|seen| seen.passed),
        Some(0),
    );
}

/// Asserts that in this number of rounds the wait of each worker was met each time that it came.
fn assert_met(rt: &impl Abort, watch: &Watch, rounds: u32) {
    let times = u64::from(rounds).saturating_mul(u64::from(watch.workers));
    assert_same(rt, "workers side by side", watch.met.load(SeqCst), times);
}

// Workers that run one after the other don't meet: the first waits for all its turns, and the test
// fails.
#[test]
fn two_workers_meet(rt: HostRuntime) {
    let board = board_of(&rt, rt.alloc(), THREE_PEBBLES);
    let watch = watched(&rt, rt.alloc(), &board, 2, Waits::ForAllToCome);
    assert_met(&rt, &watch, 2);
}

#[test]
fn one_worker_waits_for_the_others_to_come(rt: HostRuntime) {
    let board = board_of(&rt, rt.alloc(), THREE_PEBBLES);
    for held in 0..4 {
        let waits = Waits::ForOthersToCome(held);
        let (values, watch) = watched_values(&rt, rt.alloc(), &board, 4, waits);
        assert_met(&rt, &watch, 2);
        assert_three_pebbles(&rt, &values);
    }
}

/// Asserts the values of the chain of 64 labels by 16 workers, of which in each round one waits
/// until all others have left: in turn each of the four workers from `first` on.
fn assert_waits_for_the_others_to_leave(
    rt: &(impl Abort + Threads + Wait + Sync),
    alloc: Global,
    first: u32,
)
    requires { first ≤ 12 }
{
    let board = shaped(alloc, Shape::Order, 64, 2).expect(rt, "a board");
    for held in first..first + 4 {
        let waits = Waits::ForOthersToLeave(held);
        let watch = watched(rt, alloc, &board, 16, waits);
        assert_met(rt, &watch, 64);
    }
}

// Each worker waits in a run of its own. A run starts 960 threads one after the other, which take
// long if the processors are not free: so these are four tests.
#[test]
fn workers_0_to_3_wait_for_the_others_to_leave(rt: HostRuntime) {
    assert_waits_for_the_others_to_leave(&rt, rt.alloc(), 0);
}

#[test]
fn workers_4_to_7_wait_for_the_others_to_leave(rt: HostRuntime) {
    assert_waits_for_the_others_to_leave(&rt, rt.alloc(), 4);
}

#[test]
fn workers_8_to_11_wait_for_the_others_to_leave(rt: HostRuntime) {
    assert_waits_for_the_others_to_leave(&rt, rt.alloc(), 8);
}

#[test]
fn workers_12_to_15_wait_for_the_others_to_leave(rt: HostRuntime) {
    assert_waits_for_the_others_to_leave(&rt, rt.alloc(), 12);
}

// A run refuses at most one growth or start, whichever. That call says so, and the others give the
// values. `tests/refused/run` refuses each in turn: the toolchain's own runs refuse growths, but no
// start. `tests/cli/run` sets limits from outside.
#[test]
fn four_workers_in_turn(rt: HostRuntime) {
    let board = board_of(&rt, rt.alloc(), THREE_PEBBLES);
    let mut was_refused = false;
    for _ in 0..3 {
        match solve_values(&rt, rt.alloc(), &board, 4, &NoGate) {
            Ok(values) => assert_three_pebbles(&rt, &values),
            Err(fault) => {
                let refused = matches!(fault, SolveFault::Memory | SolveFault::Worker);
                assert_same(&rt, fault, (refused, was_refused), (true, false));
                was_refused = true;
            }
        }
    }
}
