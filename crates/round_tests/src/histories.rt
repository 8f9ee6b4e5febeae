//! What a caller learns of a shared round from its history: the order of the answers of a seat, and
//! the values that the steps leave. Each clause needs a fact that no proof of a crate below takes.

ghost use Rattle.std.specs.Prelude.{◌≡◌, ◌<◌, ◌++◌, ◌∷◌, [], ℕ, List, true, length, IfOk};
ghost use Rattle.claim_round.specs.Shared.{IsOf};
ghost use Rattle.retro_core.specs.Round.{Round};
ghost use Rattle.retro_core.specs.Stepping.{LeadTo};
ghost use Rattle.retro_core.specs.declared.step.Step.{Step as StepData};
ghost use Rattle.retro_core.specs.declared.step.Seen.{Seen as SeenData};

use crate::assertions::board_of;
use crate::rounds::opened;
use crate::shared_rounds::open_round;
use claim_round::{Closed, NotClosed, RoundSeat, SharedRound};
use fakes::boards::CHAIN_OF_THREE;
use index_lists::ListStore;

/// Strikes twice, and says so; or once, if `seat` then owes configurations or has none to strike.
/// The second answer has a later index than the first.
fn strike_twice<S: ListStore>(round: &SharedRound<'_, S>, seat: &mut RoundSeat) -> bool
    requires mine { IsOf round.now seat.old }
    requires todo { 0 < length seat.old.view.has.todo }
    requires owed { seat.old.view.has.owed ≡ [] }
    ensures mine { IsOf round.now seat.new }
    ensures order { result ≡ true → (first second : ℕ) × (one two : SeenData) × (first < second)
        × (seat.new.view.made ≡ (seat.old.view.made ++ (first, one) ∷ []) ++ (second, two) ∷ []) }
{
    let _ = round.strike(seat);
    if seat.owed() > 0 || seat.todo() == 0 {
        return false;
    }
    let _ = round.strike(seat);
    true
}

/// Works until the seat has nothing left to do, with strikes in pairs as far as it can; says
/// whether there was a pair.
fn work_in_pairs<S: ListStore>(round: &SharedRound<'_, S>, seat: &mut RoundSeat) -> bool
    requires { IsOf round.now seat.old }
    ensures { IsOf round.now seat.new }
{
    let mut has_pair = false;
    for _ in 0..1000 {
        if seat.owed() > 0 {
            let _ = round.claim(seat);
        } else if seat.todo() > 0 {
            has_pair = strike_twice(round, seat) || has_pair;
        }
    }
    has_pair
}

/// Closes the round, if `seat` has all of it and nothing left to do. Its values are those that the
/// steps of its history leave.
fn close_by_steps<'a, S: ListStore>(
    round: SharedRound<'a, S>,
    seat: RoundSeat,
) -> Result<Closed, NotClosed<'a, S>>
    requires mine { IsOf round seat }
    ensures { IfOk result (λ closed. (first last : Round) × (steps : List (StepData × SeenData))
        × LeadTo first steps last × (last.values ≡ closed.values)) }
{
    round.close(seat)
}

#[test]
fn answers_in_their_order(rt: HostRuntime) {
    let alloc = rt.alloc();
    let board = board_of(&rt, alloc, CHAIN_OF_THREE);
    let solver = opened(&rt, alloc, &board);
    let (round, mut seat) = open_round(&rt, alloc, &solver, 1);
    assert!(rt; work_in_pairs(&round, &mut seat));
    assert!(rt; close_by_steps(round, seat).is_ok());
}
