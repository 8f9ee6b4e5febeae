//! The loop of one worker over its seat.

ghost use Rattle.claim_round.specs.Shared.{IsOf};
ghost use Rattle.round_workers.specs.Work.{IsWorked};

use claim_round::{RoundSeat, SharedRound};
use graphs::Numbering;
use index_lists::ListStore;

/// Strikes and claims until `seat` has nothing left to strike and owes nothing.
pub fn work<S: ListStore, N: Numbering>(round: &SharedRound<'_, S, N>, seat: &mut RoundSeat)
    requires { IsOf round.now seat.old }
    ensures { IsWorked seat.old seat.new }
{
    while seat.owed() > 0 {
        round.claim(seat);
    }
    while seat.todo() > 0 {
        round.strike(seat);
        while seat.owed() > 0 {
            round.claim(seat);
        }
    }
}
