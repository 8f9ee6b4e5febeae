//! A hook at the start and at the end of each worker's part of a round.

ghost use Rattle.std.specs.Prelude.{◌≡◌, []};

use claim_round::RoundSeat;

/// A gate that each worker passes in each round before its first strike, and leaves when it has
/// nothing left to do.
///
/// Between the two a worker waits for no other one. A gate may make a worker wait in either call.
pub trait Gate: Sync {
    /// Called once by each worker in each round, before its first strike.
    fn pass(&self, worker: u32, round: u32, seat: &RoundSeat)
        requires { seat.now.view.has.width ≡ 1 };

    /// Called once by each worker in each round, when its share is done.
    fn leave(&self, worker: u32, round: u32, seat: &RoundSeat)
        requires width { seat.now.view.has.width ≡ 1 }
        requires done { (seat.now.view.has.todo ≡ []) × (seat.now.view.has.owed ≡ []) };
}

/// A gate that is always open.
pub struct NoGate;

impl Gate for NoGate {
    fn pass(&self, _worker: u32, _round: u32, _seat: &RoundSeat) {}

    fn leave(&self, _worker: u32, _round: u32, _seat: &RoundSeat) {}
}
