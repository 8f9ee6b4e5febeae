//! Rounds as machines: worked steps, the counts of whole rounds, and steps in drawn orders.
//!
//! A run of the tests may refuse one growth of memory, whichever. So a call that was refused one is
//! made once more.

ghost use Rattle.std.specs.Prelude.{◌≡◌, ◌<◌, ◌^◌, false};
ghost use Rattle.graphs.specs.Numbered.{graph_of};
ghost use Rattle.retro_core.specs.Round.{round_graph};

use crate::assertions::{assert_same, board_of};
use board_text::Board;
use fakes::boards::{CHAIN_OF_THREE, THREE_PEBBLES};
use fakes::build_board;
use index_lists::PlainLists;
use retro_core::{RoundState, Seen, Step, StepFault};
use solved_boards::solver_of;
use solver::Solver;
use std::alloc::Global;
use std::process::Abort;

/// A solver of a board that has filed value 0.
pub(crate) fn opened(rt: &impl Abort, alloc: Global, board: &Board) -> Solver<PlainLists>
    ensures { result.is_done ≡ false }
{
    let solver = solver_of::<PlainLists>(alloc, board).expect(rt, "a solver");
    assert!(rt; !solver.done());
    solver
}

/// The opening of a round of a solver.
fn round_of<'a>(
    rt: &impl Abort,
    alloc: Global,
    solver: &'a Solver<PlainLists>,
    width: u32,
) -> RoundState<'a, PlainLists>
    requires going { solver.now.is_done ≡ false }
    requires width { 0 < width }
    ensures { round_graph result ≡ graph_of solver.now.game }
{
    match RoundState::open(alloc, solver, width) {
        Ok(round) => round,
        Err(_) => RoundState::open(alloc, solver, width)
            .ok()
            .expect(rt, "a round"),
    }
}

/// The answer to a step, which is made once more if it was refused memory.
fn apply(round: &mut RoundState<'_, PlainLists>, step: Step) -> Result<Seen, StepFault> {
    match round.apply(step) {
        Err(StepFault::Memory) => round.apply(step),
        answer => answer,
    }
}

/// The share of a seat: its width, and the ranks that it has to strike, owes and has won.
#[derive(Clone, Copy, Debug, PartialEq)]
struct Share<'a> {
    width: u32,
    todo: &'a [u32],
    owed: &'a [u32],
    won: &'a [u32],
}

/// A share of no width with nothing.
const SPENT: Share<'static> = Share {
    width: 0,
    todo: &[],
    owed: &[],
    won: &[],
};

/// The share of a seat, if it was ever made.
fn share_of<'a>(round: &'a RoundState<'_, PlainLists>, seat: usize) -> Option<Share<'a>> {
    if seat >= round.seats() {
        return None;
    }
    Some(Share {
        width: round.width(seat),
        todo: round.todo(seat),
        owed: round.owed(seat),
        won: round.won(seat),
    })
}

/// Asserts the share of a seat.
fn assert_share(
    rt: &impl Abort,
    round: &RoundState<'_, PlainLists>,
    seat: usize,
    wanted: Share<'_>,
) {
    assert_same(rt, ("seat", seat), share_of(round, seat), Some(wanted));
}

/// Asserts the answers to steps, one after the other.
fn assert_steps(
    rt: &impl Abort,
    round: &mut RoundState<'_, PlainLists>,
    wanted: &[(Step, Result<Seen, StepFault>)],
) {
    for (step, answer) in wanted {
        assert_same(rt, *step, apply(round, *step), *answer);
    }
}

/// The answer to a strike, which may have closed a gap.
macro_rules! struck {
    ($config:literal) => {
        Ok(Seen::Struck {
            config: $config,
            closed: None,
        })
    };
    ($config:literal closes $gap:literal) => {
        Ok(Seen::Struck {
            config: $config,
            closed: Some($gap),
        })
    };
}

/// The answer to a claim.
macro_rules! tried {
    ($config:literal, $won:literal) => {
        Ok(Seen::Tried {
            config: $config,
            won: $won,
        })
    };
}

/// Strikes of two seats on the chain, in which each closes a gap.
const STRIKES: [(Step, Result<Seen, StepFault>); 6] = [
    (Step::Split(0), Err(StepFault::TooNarrow)),
    (Step::Strike(1), struck!(6)),
    (Step::Strike(1), struck!(7 closes 1)),
    (Step::Try(0), Err(StepFault::NothingOwed)),
    (Step::Strike(0), struck!(2)),
    (Step::Strike(0), struck!(5 closes 4)),
];

/// The claims after these strikes, and a join.
const TRIES: [(Step, Result<Seen, StepFault>); 7] = [
    (Step::Try(1), tried!(1, true)),
    (Step::Try(0), tried!(3, true)),
    (Step::Try(0), tried!(4, true)),
    (Step::Try(1), tried!(4, false)),
    (Step::Join { into: 0, from: 1 }, Ok(Seen::Joined)),
    (Step::Strike(0), Err(StepFault::NothingToStrike)),
    (Step::Strike(1), Err(StepFault::NoSuchSeat)),
];

#[test]
fn two_seats_on_the_chain(rt: HostRuntime) {
    let board = board_of(&rt, rt.alloc(), CHAIN_OF_THREE);
    let solver = opened(&rt, rt.alloc(), &board);
    let mut round = round_of(&rt, rt.alloc(), &solver, 2);
    let all = Share {
        width: 2,
        todo: &[2, 5, 6, 7],
        ..SPENT
    };
    assert_share(&rt, &round, 0, all);
    assert_steps(
        &rt,
        &mut round,
        &[(Step::Split(0), Ok(Seen::Parted { seat: 1 }))],
    );
    let second = Share {
        width: 1,
        todo: &[6, 7],
        ..SPENT
    };
    assert_share(&rt, &round, 1, second);
    assert_steps(&rt, &mut round, &STRIKES);
    let struck_out = Share {
        width: 1,
        owed: &[1, 4],
        ..SPENT
    };
    assert_share(&rt, &round, 1, struck_out);
    assert_steps(&rt, &mut round, &TRIES);
    let joined = Share {
        width: 2,
        won: &[3, 4, 1],
        ..SPENT
    };
    assert_share(&rt, &round, 0, joined);
    assert_share(&rt, &round, 1, SPENT);
}

/// The values that a round at value 0 of the chain of three labels begins with, by rank: a request
/// has no answer if the other pebble is on label 2.
const ZEROS: [Option<u32>; 9] = [
    None,
    None,
    Some(0),
    None,
    None,
    Some(0),
    Some(0),
    Some(0),
    Some(0),
];

#[test]
fn values_of_an_opened_round(rt: HostRuntime) {
    let board = board_of(&rt, rt.alloc(), CHAIN_OF_THREE);
    let solver = opened(&rt, rt.alloc(), &board);
    let round = round_of(&rt, rt.alloc(), &solver, 1);
    assert_same(&rt, "configurations", solver.graph().configurations(), 9);
    for rank in 0..solver.graph().configurations() {
        let wanted = ZEROS.get(rank as usize).copied();
        assert_same(&rt, rank, Some(round.value_at(rank)), wanted);
    }
}

/// How often seats struck, closed a gap, claimed and won.
#[derive(Clone, Copy, Debug, PartialEq)]
pub(crate) struct Tally {
    strikes: u32,
    closed: u32,
    tries: u32,
    won: u32,
}

/// The tally of the rounds of three pebbles on the cycle at value 0.
pub(crate) const NINE: Tally = Tally {
    strikes: 9,
    closed: 9,
    tries: 9,
    won: 3,
};

impl Tally {
    /// The tally of no step.
    pub(crate) const fn none() -> Tally {
        Tally {
            strikes: 0,
            closed: 0,
            tries: 0,
            won: 0,
        }
    }

    /// The sum of two tallies.
    pub(crate) fn and(self, other: Tally) -> Tally {
        Tally {
            strikes: self.strikes.saturating_add(other.strikes),
            closed: self.closed.saturating_add(other.closed),
            tries: self.tries.saturating_add(other.tries),
            won: self.won.saturating_add(other.won),
        }
    }

    /// Counts the step with this answer.
    pub(crate) fn note(&mut self, seen: Seen) {
        match seen {
            Seen::Struck { closed, .. } => {
                self.strikes = self.strikes.saturating_add(1);
                if closed.is_some() {
                    self.closed = self.closed.saturating_add(1);
                }
            }
            Seen::Tried { won, .. } => {
                self.tries = self.tries.saturating_add(1);
                if won {
                    self.won = self.won.saturating_add(1);
                }
            }
            Seen::Parted { .. } | Seen::Joined => {}
        }
    }
}

/// Makes a step again and again while it can be made, at most a thousand times: no round of these
/// tests needs more.
fn repeat(round: &mut RoundState<'_, PlainLists>, step: Step, tally: &mut Tally) {
    for _ in 0..1000 {
        match apply(round, step) {
            Ok(seen) => tally.note(seen),
            Err(_) => return,
        }
    }
}

/// Splits the first seat of a round `splits` times, lets each seat strike all its ranks and then
/// claim all that it owes, and joins the seats again.
fn work(round: &mut RoundState<'_, PlainLists>, splits: usize) -> Tally {
    let mut tally = Tally::none();
    for _ in 0..splits {
        let _ = apply(round, Step::Split(0));
    }
    for seat in 0..=splits {
        repeat(round, Step::Strike(seat), &mut tally);
        repeat(round, Step::Try(seat), &mut tally);
    }
    for from in 1..=splits {
        let _ = apply(round, Step::Join { into: 0, from });
    }
    tally
}

/// Asserts the tally of a round at value 0 of three pebbles on the cycle, with this number of
/// seats.
fn assert_nine(rt: &impl Abort, solver: &Solver<PlainLists>, alloc: Global, seats: usize)
    requires going { solver.now.is_done ≡ false }
    requires seats { (0 < seats) × (seats < 2 ^ 31) }
{
    let mut round = round_of(rt, alloc, solver, seats as u32);
    assert_same(rt, seats, work(&mut round, seats - 1), NINE);
}

#[test]
fn rounds_of_three_pebbles(rt: HostRuntime) {
    let board = board_of(&rt, rt.alloc(), THREE_PEBBLES);
    let solver = opened(&rt, rt.alloc(), &board);
    for seats in 1..4 {
        assert_nine(&rt, &solver, rt.alloc(), seats);
    }
}

/// Splits and joins of a round of width 3.
const SEATS: [(Step, Result<Seen, StepFault>); 6] = [
    (Step::Split(1), Err(StepFault::TooNarrow)),
    (Step::Split(0), Ok(Seen::Parted { seat: 2 })),
    (Step::Join { into: 0, from: 0 }, Err(StepFault::NoSuchSeat)),
    (Step::Join { into: 0, from: 2 }, Ok(Seen::Joined)),
    (Step::Split(2), Err(StepFault::NoSuchSeat)),
    (Step::Split(0), Ok(Seen::Parted { seat: 3 })),
];

/// The width of a seat and the number of configurations that it has to strike.
fn sizes_of(round: &RoundState<'_, PlainLists>, seat: usize) -> Option<(u32, usize)> {
    let share = share_of(round, seat)?;
    Some((share.width, share.todo.len()))
}

/// The first five ranks that a seat has to strike.
fn five_of(round: &RoundState<'_, PlainLists>, seat: usize) -> Option<[u32; 5]> {
    match share_of(round, seat)?.todo {
        [first, second, third, fourth, fifth] => {
            Some([*first, *second, *third, *fourth, *fifth])
        }
        _ => None,
    }
}

#[test]
fn seats_of_three_pebbles(rt: HostRuntime) {
    let board = board_of(&rt, rt.alloc(), THREE_PEBBLES);
    let solver = opened(&rt, rt.alloc(), &board);
    let mut round = round_of(&rt, rt.alloc(), &solver, 3);
    assert_same(&rt, "all", sizes_of(&round, 0), Some((3, 9)));
    assert_steps(
        &rt,
        &mut round,
        &[(Step::Split(0), Ok(Seen::Parted { seat: 1 }))],
    );
    assert_same(&rt, "first", sizes_of(&round, 0), Some((2, 5)));
    let five = five_of(&round, 0);
    assert!(&rt; five.is_some());
    assert_same(&rt, "second", sizes_of(&round, 1), Some((1, 4)));
    assert_steps(&rt, &mut round, &SEATS[..2]);
    assert_same(&rt, "first again", sizes_of(&round, 0), Some((1, 3)));
    assert_same(&rt, "third", sizes_of(&round, 2), Some((1, 2)));
    assert_steps(&rt, &mut round, &SEATS[2..4]);
    assert_same(&rt, "joined", sizes_of(&round, 0), Some((2, 5)));
    assert_same(&rt, "the same five", five_of(&round, 0), five);
    assert_steps(&rt, &mut round, &SEATS[4..]);
}

/// The ranks of the three configurations in which all pebbles share a label: those of value 1 on
/// the cycle with three pebbles.
pub(crate) const SHARED: [u32; 3] = [0, 13, 26];

/// The next number of a plain generator, and a bit of it.
fn draw(state: &mut u64) -> bool {
    *state = state
        .wrapping_mul(6_364_136_223_846_793_005)
        .wrapping_add(1_442_695_040_888_963_407);
    *state >> 63 == 1
}

/// A step of one of two seats, drawn from strikes and claims.
fn draw_step(state: &mut u64) -> Step {
    let seat = usize::from(draw(state));
    if draw(state) {
        Step::Strike(seat)
    } else {
        Step::Try(seat)
    }
}

/// Whether a seat has something to strike or owes something.
fn has_work(round: &RoundState<'_, PlainLists>, seat: usize) -> bool {
    share_of(round, seat).is_some_and(|share| !share.todo.is_empty() || !share.owed.is_empty())
}

/// Lets two seats make drawn steps until neither has work left.
fn work_in_drawn_order(round: &mut RoundState<'_, PlainLists>, state: &mut u64) {
    for _ in 0..10_000 {
        if !has_work(round, 0) && !has_work(round, 1) {
            return;
        }
        let _ = apply(round, draw_step(state));
    }
}

/// Whether the list has each rank of the other, and is as long.
pub(crate) fn has_each(won: &[u32], wanted: &[u32]) -> bool {
    won.len() == wanted.len() && wanted.iter().all(|rank| won.contains(rank))
}

/// Asserts that two seats win the same configurations in a drawn order of their steps.
fn assert_drawn_order(rt: &impl Abort, alloc: Global, solver: &Solver<PlainLists>, state: &mut u64)
    requires { solver.now.is_done ≡ false }
{
    let mut round = round_of(rt, alloc, solver, 2);
    let _ = apply(&mut round, Step::Split(0));
    work_in_drawn_order(&mut round, state);
    assert_same(
        rt,
        *state,
        apply(&mut round, Step::Join { into: 0, from: 1 }),
        Ok(Seen::Joined),
    );
    let share = share_of(&round, 0);
    let is_won = share.is_some_and(|share| has_each(share.won, &SHARED));
    assert!(rt; is_won && !has_work(&round, 0), "at {state}: {share:?}");
}

#[test]
fn any_order_wins_the_same(rt: HostRuntime) {
    let board = board_of(&rt, rt.alloc(), THREE_PEBBLES);
    let solver = opened(&rt, rt.alloc(), &board);
    let mut state = 1;
    for _ in 0..200 {
        assert_drawn_order(&rt, rt.alloc(), &solver, &mut state);
    }
}

/// The tally of a round at value 0 of as many configurations as the solver takes, if no label
/// dominates another and no pebble holds one at the start: each label answers each pebble that is
/// asked alone.
const LONE_ANSWERS: Tally = Tally {
    strikes: 124,
    closed: 4,
    tries: 4,
    won: 1,
};

#[test]
fn a_round_of_pebbles_without_labels(rt: HostRuntime) {
    let board = build_board(rt.alloc(), 31, 4, &[31, 31, 31, 31], &[]).expect(&rt, "a board");
    let solver = opened(&rt, rt.alloc(), &board);
    let mut round = round_of(&rt, rt.alloc(), &solver, 1);
    assert_same(&rt, "tally", work(&mut round, 0), LONE_ANSWERS);
}
