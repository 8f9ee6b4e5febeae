//! Rounds that threads share, driven by one thread: worked rounds, a seat that is dropped, and a
//! round closed too early.
//!
//! A run of the tests may refuse one growth of memory, whichever. So a call that was refused one is
//! made once more.

ghost use Rattle.std.specs.Prelude.{◌≡◌, ◌<◌, ◌≤◌, false};
ghost use Rattle.claim_round.specs.Shared.{Finishes, IsOf};
ghost use Rattle.solver.specs.Ending.{IsRoundEnd};

use crate::assertions::{assert_same, board_of};
use crate::rounds::{NINE, Tally, has_each, opened};
use board_text::Memory;
use claim_round::{Closed, NotClosed, RoundSeat, SharedRound, Why};
use fakes::boards::{CHAIN_OF_THREE, THREE_PEBBLES};
use index_lists::{ListStore, PlainLists};
use retro_core::Seen;
use solver::{Progress, Solver};
use std::alloc::Global;
use std::process::Abort;

/// The opening of a shared round.
pub(crate) fn open_round<'a>(
    rt: &impl Abort,
    alloc: Global,
    solver: &'a Solver<PlainLists>,
    width: u32,
) -> (SharedRound<'a, PlainLists>, RoundSeat)
    requires going { solver.now.is_done ≡ false }
    requires width { 0 < width }
    ensures mine { IsOf result.0 result.1 }
    ensures solver { result.0.key.solving ≡ solver.now }
    ensures width { result.1.view.has.width ≡ width }
{
    match SharedRound::open(alloc, solver, width) {
        Ok(opened) => opened,
        Err(_) => SharedRound::open(alloc, solver, width)
            .ok()
            .expect(rt, "a shared round"),
    }
}

/// The width of a seat, and the numbers of ranks that it has to strike, owes and has won.
fn share(seat: &RoundSeat) -> (u32, u32, u32, usize) {
    (seat.width(), seat.todo(), seat.owed(), seat.won().len())
}

/// The two seats of a split.
pub(crate) fn split(
    rt: &impl Abort,
    round: &SharedRound<'_, PlainLists>,
    seat: RoundSeat,
) -> (RoundSeat, RoundSeat)
    requires mine { IsOf round.now seat }
    requires width { 2 ≤ seat.view.has.width }
    ensures first { IsOf round.now result.0 }
    ensures second { IsOf round.now result.1 }
{
    let whole = share(&seat);
    match round.split(seat) {
        Ok(both) => both,
        Err((seat, Memory)) => {
            assert_same(rt, "a seat handed back", share(&seat), whole);
            round.split(seat).ok().expect(rt, "two seats")
        }
    }
}

/// The seat of a join.
pub(crate) fn join(
    rt: &impl Abort,
    round: &SharedRound<'_, PlainLists>,
    into: RoundSeat,
    from: RoundSeat,
) -> RoundSeat
    requires into { IsOf round.now into }
    requires from { IsOf round.now from }
    ensures { IsOf round.now result }
{
    let both = (share(&into), share(&from));
    match round.join(into, from) {
        Ok(seat) => seat,
        Err((into, from, Memory)) => {
            assert_same(rt, "seats handed back", (share(&into), share(&from)), both);
            round.join(into, from).ok().expect(rt, "one seat")
        }
    }
}

/// Asserts the answer to a strike.
fn assert_strike(
    rt: &impl Abort,
    round: &SharedRound<'_, PlainLists>,
    seat: &mut RoundSeat,
    config: u32,
    closed: Option<u32>,
)
    requires { IsOf round.now seat.old }
    ensures { IsOf round.now seat.new }
{
    assert!(rt; seat.todo() > 0);
    assert!(rt; seat.owed() == 0);
    let struck = round.strike(seat);
    assert_same(rt, config, struck.config, config);
    assert_same(rt, Some(config), struck.closed, closed);
}

/// Asserts the answer to a claim.
fn assert_claim(
    rt: &impl Abort,
    round: &SharedRound<'_, PlainLists>,
    seat: &mut RoundSeat,
    config: u32,
    won: bool,
)
    requires { IsOf round.now seat.old }
    ensures { IsOf round.now seat.new }
{
    assert!(rt; seat.owed() > 0);
    let claim = round.claim(seat);
    assert_same(rt, config, claim.config, config);
    assert_same(rt, config, claim.won, won);
}

/// Asserts that a round can't be closed with a seat, and why. Both come back.
fn assert_open<'a>(
    rt: &impl Abort,
    round: SharedRound<'a, PlainLists>,
    seat: RoundSeat,
    wanted: Why,
) -> (SharedRound<'a, PlainLists>, RoundSeat)
    requires { IsOf round seat }
    ensures round { result.0 ≡ round.entry }
    ensures seat { result.1 ≡ seat }
{
    match round.close(seat) {
        Ok(_) => panic!(rt; "a round that isn't done was closed"),
        Err(NotClosed { round, seat, why }) => {
            assert_same(rt, "why", why, wanted);
            (round, seat)
        }
    }
}

/// Asserts that a round is closed with a seat, and the ranks that were won.
pub(crate) fn assert_won(
    rt: &impl Abort,
    round: SharedRound<'_, PlainLists>,
    seat: RoundSeat,
    wanted: &[u32],
)
    requires { IsOf round seat }
{
    match round.close(seat) {
        Ok(closed) => {
            let won = closed.won();
            assert!(rt; has_each(won, wanted), "won {won:?}, and not {wanted:?}");
        }
        Err(_) => panic!(rt; "a round that is done was not closed"),
    }
}

/// Strikes and claims until the seat has nothing left to do, and notes it.
pub(crate) fn work<S: ListStore>(
    round: &SharedRound<'_, S>,
    seat: &mut RoundSeat,
    tally: &mut Tally,
)
    requires { IsOf round.now seat.old }
    ensures { IsOf round.now seat.new }
{
    for _ in 0..1000 {
        if seat.owed() > 0 {
            let claim = round.claim(seat);
            tally.note(Seen::Tried {
                config: claim.config,
                won: claim.won,
            });
        } else if seat.todo() > 0 {
            let struck = round.strike(seat);
            tally.note(Seen::Struck {
                config: struck.config,
                closed: struck.closed,
            });
        } else {
            return;
        }
    }
}

#[test]
fn two_seats_on_the_chain(rt: HostRuntime) {
    let board = board_of(&rt, rt.alloc(), CHAIN_OF_THREE);
    let solver = opened(&rt, rt.alloc(), &board);
    let (round, seat) = open_round(&rt, rt.alloc(), &solver, 2);
    let (mut first, mut second) = split(&rt, &round, seat);
    assert_strike(&rt, &round, &mut second, 6, None);
    assert_strike(&rt, &round, &mut second, 7, Some(1));
    assert_strike(&rt, &round, &mut first, 2, None);
    assert_strike(&rt, &round, &mut first, 5, Some(4));
    assert_claim(&rt, &round, &mut second, 1, true);
    assert_claim(&rt, &round, &mut first, 3, true);
    assert_claim(&rt, &round, &mut first, 4, true);
    assert_claim(&rt, &round, &mut second, 4, false);
    let (round, first) = assert_open(&rt, round, first, Why::SeatsOut);
    let seat = join(&rt, &round, first, second);
    assert_won(&rt, round, seat, &[1, 3, 4]);
}

#[test]
fn a_round_closed_too_early(rt: HostRuntime) {
    let board = board_of(&rt, rt.alloc(), CHAIN_OF_THREE);
    let solver = opened(&rt, rt.alloc(), &board);
    let (round, seat) = open_round(&rt, rt.alloc(), &solver, 2);
    let (first, second) = split(&rt, &round, seat);
    let seat = join(&rt, &round, first, second);
    let (round, mut seat) = assert_open(&rt, round, seat, Why::WorkLeft);
    work(&round, &mut seat, &mut Tally::none());
    assert_won(&rt, round, seat, &[1, 3, 4]);
}

#[test]
fn a_seat_that_is_dropped(rt: HostRuntime) {
    let board = board_of(&rt, rt.alloc(), CHAIN_OF_THREE);
    let solver = opened(&rt, rt.alloc(), &board);
    let (round, seat) = open_round(&rt, rt.alloc(), &solver, 2);
    let (first, _) = split(&rt, &round, seat);
    let (round, mut first) = assert_open(&rt, round, first, Why::SeatsOut);
    work(&round, &mut first, &mut Tally::none());
    let _ = assert_open(&rt, round, first, Why::SeatsOut);
}

#[test]
fn one_seat_of_three_pebbles(rt: HostRuntime) {
    let board = board_of(&rt, rt.alloc(), THREE_PEBBLES);
    let solver = opened(&rt, rt.alloc(), &board);
    let (round, mut seat) = open_round(&rt, rt.alloc(), &solver, 1);
    let mut tally = Tally::none();
    work(&round, &mut seat, &mut tally);
    assert_same(&rt, "one seat", tally, NINE);
    assert_won(&rt, round, seat, &[0, 13, 26]);
}

#[test]
fn two_seats_of_three_pebbles(rt: HostRuntime) {
    let board = board_of(&rt, rt.alloc(), THREE_PEBBLES);
    let solver = opened(&rt, rt.alloc(), &board);
    let (round, seat) = open_round(&rt, rt.alloc(), &solver, 2);
    let (mut first, mut second) = split(&rt, &round, seat);
    assert_same(&rt, "shares", (first.todo(), second.todo()), (5, 4));
    let mut tally = Tally::none();
    work(&round, &mut second, &mut tally);
    work(&round, &mut first, &mut tally);
    assert_same(&rt, "two seats", tally, NINE);
    let seat = join(&rt, &round, first, second);
    assert_won(&rt, round, seat, &[0, 13, 26]);
}

/// The end of a round of a solver, which two seats worked off.
fn closed_round(rt: &impl Abort, alloc: Global, solver: &Solver<PlainLists>) -> Closed
    requires { solver.now.is_done ≡ false }
    ensures end { IsRoundEnd solver.now result.won result.counts }
    ensures finished { Finishes solver.now result }
{
    let (round, seat) = open_round(rt, alloc, solver, 2);
    let (mut first, mut second) = split(rt, &round, seat);
    let mut tally = Tally::none();
    work(&round, &mut second, &mut tally);
    work(&round, &mut first, &mut tally);
    let seat = join(rt, &round, first, second);
    match round.close(seat) {
        Ok(closed) => closed,
        Err(_) => panic!(rt; "a round that is done was not closed"),
    }
}

#[test]
fn a_closed_round_is_filed(rt: HostRuntime) {
    let board = board_of(&rt, rt.alloc(), CHAIN_OF_THREE);
    let mut solver = opened(&rt, rt.alloc(), &board);
    let closed = closed_round(&rt, rt.alloc(), &solver);
    let filed = solver.file_round(&closed);
    assert_same(&rt, "value 1", filed, Progress::Filed(3));
}

/// The values after the round at value 0 of the chain of three labels, by rank: 0 if a pebble is on
/// label 2, and 1 if both are below it and not both on label 0.
const ZEROS_AND_ONES: [Option<u32>; 9] = [
    None,
    Some(1),
    Some(0),
    Some(1),
    Some(1),
    Some(0),
    Some(0),
    Some(0),
    Some(0),
];

#[test]
fn values_of_a_closed_round(rt: HostRuntime) {
    let board = board_of(&rt, rt.alloc(), CHAIN_OF_THREE);
    let solver = opened(&rt, rt.alloc(), &board);
    let closed = closed_round(&rt, rt.alloc(), &solver);
    assert_same(&rt, "configurations", solver.graph().configurations(), 9);
    for rank in 0..solver.graph().configurations() {
        let wanted = ZEROS_AND_ONES.get(rank as usize).copied();
        assert_same(&rt, rank, Some(closed.value_at(rank)), wanted);
    }
}

/// The number of ranks that each of sixteen seats has to strike, of three pebbles on the cycle at
/// value 0.
pub(crate) const SIXTEEN: [u32; 16] = [1, 1, 1, 0, 1, 0, 1, 0, 1, 0, 1, 0, 1, 0, 1, 0];

/// Works a seat by this number of seats of width 1, of which the first has the number `first`:
/// split left to right, worked, and joined again.
fn work_apart(
    rt: &impl Abort,
    round: &SharedRound<'_, PlainLists>,
    mut seat: RoundSeat,
    first: usize,
    seats: usize,
    tally: &mut Tally,
) -> RoundSeat
    requires { IsOf round.now seat }
    ensures { IsOf round.now result }
{
    let half = seats / 2;
    if half == 0 || seat.width() < 2 {
        let wanted = SIXTEEN.get(first).copied();
        assert_same(rt, first, (seat.width(), Some(seat.todo())), (1, wanted));
        work(round, &mut seat, tally);
        return seat;
    }
    let (left, right) = split(rt, round, seat);
    let left = work_apart(rt, round, left, first, half, tally);
    let right = work_apart(rt, round, right, first.saturating_add(half), half, tally);
    join(rt, round, left, right)
}

#[test]
fn sixteen_seats_of_three_pebbles(rt: HostRuntime) {
    let board = board_of(&rt, rt.alloc(), THREE_PEBBLES);
    let solver = opened(&rt, rt.alloc(), &board);
    let (round, seat) = open_round(&rt, rt.alloc(), &solver, 16);
    let mut tally = Tally::none();
    let seat = work_apart(&rt, &round, seat, 0, 16, &mut tally);
    assert_same(&rt, "sixteen seats", tally, NINE);
    assert_won(&rt, round, seat, &[0, 13, 26]);
}

// The seat that a split makes has less room, and grows when it takes over the other's lists.
#[test]
fn the_new_seat_takes_over_the_first(rt: HostRuntime) {
    let board = board_of(&rt, rt.alloc(), THREE_PEBBLES);
    let solver = opened(&rt, rt.alloc(), &board);
    let (round, seat) = open_round(&rt, rt.alloc(), &solver, 2);
    let (first, second) = split(&rt, &round, seat);
    let mut seat = join(&rt, &round, second, first);
    assert_same(&rt, "one seat", share(&seat), (2, 9, 0, 0));
    work(&round, &mut seat, &mut Tally::none());
    assert_won(&rt, round, seat, &[0, 13, 26]);
}

// A run refuses at most one growth, whichever. That call says so, and the others open a round.
#[test]
fn a_round_is_opened_in_turn(rt: HostRuntime) {
    let board = board_of(&rt, rt.alloc(), THREE_PEBBLES);
    let solver = opened(&rt, rt.alloc(), &board);
    let mut was_refused = false;
    for _ in 0..3 {
        match SharedRound::open(rt.alloc(), &solver, 4) {
            Ok((round, mut seat)) => {
                assert_same(&rt, "the first seat", share(&seat), (4, 9, 0, 0));
                work(&round, &mut seat, &mut Tally::none());
                assert_won(&rt, round, seat, &[0, 13, 26]);
            }
            Err(Memory) => {
                assert_same(&rt, "refused before", was_refused, false);
                was_refused = true;
            }
        }
    }
}
