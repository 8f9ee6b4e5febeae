//! A shared round that a caller drives from two threads of its own, with one seat each, a thousand
//! times.

ghost use Rattle.claim_round.specs.Shared.{IsOf, RoundId};

use crate::assertions::{assert_same, board_of};
use crate::rounds::{NINE, Tally, opened};
use crate::shared_rounds::{assert_won, join, open_round, split, work};
use claim_round::{RoundSeat, SharedRound};
use fakes::boards::THREE_PEBBLES;
use index_lists::ListStore;
use std::thread;
use std::thread::Threads;

/// A round that seats can be worked in, from any thread.
trait Driven {
    ghost id: { Self → RoundId };

    /// The seat with nothing left to do, and the tally of its steps.
    fn drive(&self, seat: RoundSeat) -> (RoundSeat, Tally)
        requires { IsOf (id self.now) seat }
        ensures { IsOf (id self.now) result.0 };
}

impl<'a, S: ListStore> Driven for SharedRound<'a, S> {
    ghost id = { λ round. round };

    fn drive(&self, mut seat: RoundSeat) -> (RoundSeat, Tally) {
        let mut tally = Tally::none();
        work(self, &mut seat, &mut tally);
        (seat, tally)
    }
}

/// Works two seats, each on a thread of its own, and counts the steps of both.
fn drive_both<D: Driven + Sync>(
    rt: &impl Threads,
    round: &D,
    first: RoundSeat,
    second: RoundSeat,
) -> (RoundSeat, RoundSeat, Tally)
    requires first { IsOf (D.id round.now) first }
    requires second { IsOf (D.id round.now) second }
    ensures first { IsOf (D.id round.now) result.0 }
    ensures second { IsOf (D.id round.now) result.1 }
{
    let ((first, firsts), (second, seconds)) = thread::join(
        rt,
        move || -> (RoundSeat, Tally)
            requires { IsOf (D.id round.now) first }
            ensures { IsOf (D.id round.entry.now) result.0 }
        { round.drive(first) },
        move || -> (RoundSeat, Tally)
            requires { IsOf (D.id round.now) second }
            ensures { IsOf (D.id round.entry.now) result.0 }
        { round.drive(second) },
    );
    (first, second, firsts.and(seconds))
}

/// Works two seats of a shared round, each on a thread of its own, and counts the steps of both.
fn drive_round<S: ListStore + Sync>(
    rt: &impl Threads,
    round: &SharedRound<'_, S>,
    first: RoundSeat,
    second: RoundSeat,
) -> (RoundSeat, RoundSeat, Tally)
    requires first { IsOf round.now first }
    requires second { IsOf round.now second }
    ensures first { IsOf round.now result.0 }
    ensures second { IsOf round.now result.1 }
{
    drive_both(rt, round, first, second)
}

#[test]
fn three_pebbles_a_thousand_times(rt: HostRuntime) {
    let board = board_of(&rt, rt.alloc(), THREE_PEBBLES);
    let solver = opened(&rt, rt.alloc(), &board);
    for time in 0..1000 {
        let (round, seat) = open_round(&rt, rt.alloc(), &solver, 2);
        let (first, second) = split(&rt, &round, seat);
        let (first, second, tally) = drive_round(&rt, &round, first, second);
        assert_same(&rt, time, tally, NINE);
        let seat = join(&rt, &round, first, second);
        assert_won(&rt, round, seat, &[0, 13, 26]);
    }
}
