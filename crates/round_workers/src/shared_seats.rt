//! A round whose seats can be split, worked and joined, without the lifetime that the type of a
//! shared round names: a closure that captures it by a bound keeps its clauses.

ghost use Rattle.std.specs.Prelude.{◌≢◌, ◌≤◌, IfOk, IfErr};
ghost use Rattle.claim_round.specs.Shared.{IsOf, RoundId, IsSplit, IsJoined};
ghost use Rattle.round_workers.specs.Work.{IsWorked};

use crate::worker::work;
use claim_round::{RoundSeat, SharedRound};
use graphs::Numbering;
use index_lists::ListStore;
use solver::SolveFault;

/// A round that workers share.
pub trait Sharing {
    ghost id: { Self → RoundId };

    /// Strikes and claims until `seat` has nothing left to strike and owes nothing.
    fn work(&self, seat: &mut RoundSeat)
        requires { IsOf (id self.now) seat.old }
        ensures { IsWorked seat.old seat.new };

    fn split(&self, seat: RoundSeat) -> Result<(RoundSeat, RoundSeat), SolveFault>
        requires mine { IsOf (id self.now) seat }
        requires width { 2 ≤ seat.view.has.width }
        ensures split { IfOk result (λ r. IsSplit seat r.0 r.1) }
        ensures fault { IfErr result (λ f. f ≢ SolveFault.TooLarge) };

    fn join(&self, into: RoundSeat, from: RoundSeat) -> Result<RoundSeat, SolveFault>
        requires into { IsOf (id self.now) into }
        requires from { IsOf (id self.now) from }
        ensures joined { IfOk result (λ r. IsJoined into from r) }
        ensures fault { IfErr result (λ f. f ≢ SolveFault.TooLarge) };
}

impl<'a, S: ListStore, N: Numbering> Sharing for SharedRound<'a, S, N> {
    ghost id = { λ r. r };

    fn work(&self, seat: &mut RoundSeat) {
        work(self, seat)
    }

    fn split(&self, seat: RoundSeat) -> Result<(RoundSeat, RoundSeat), SolveFault> {
        self.split(seat).map_err(|_| SolveFault::Memory)
    }

    fn join(&self, into: RoundSeat, from: RoundSeat) -> Result<RoundSeat, SolveFault> {
        self.join(into, from).map_err(|_| SolveFault::Memory)
    }
}
