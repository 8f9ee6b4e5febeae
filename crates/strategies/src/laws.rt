//! Laws of best answers and best requests, each the contract of a function without a body.

ghost use Rattle.std.specs.Prelude.{◌≡◌, ℕ, suc, ◌<◌, ◌↔◌, List};
ghost use Rattle.board_text.specs.PlainBoard.{PlainBoard, IsConfiguration};
ghost use Rattle.positions.specs.declared.value.Value.TheVariants.{Finite};
ghost use Rattle.positions.specs.Game.{Legal, LabellerTree, moved};
ghost use Rattle.positions.specs.Value.{HasValue};
ghost use Rattle.strategies.specs.Best.{HasSmallerValue, HasNoGreaterValue, IsBestAnswer};
ghost use Rattle.strategies.specs.Best.{IsBestRequest};

/// A request has a best answer exactly if it has a legal one, and then it has one best answer.
/// Each smaller legal label has a result of a smaller value.
pub fn one_best_answer()
    ensures exists { (board : PlainBoard) → (configuration : List ℕ) → (pebble : ℕ)
        → IsConfiguration board configuration
        → ((label : ℕ) × Legal board configuration pebble label)
        ↔ ((label : ℕ) × IsBestAnswer board configuration pebble label) }
    ensures one { (board : PlainBoard) → (configuration : List ℕ) → (pebble : ℕ) → (first : ℕ)
        → (second : ℕ)
        → IsBestAnswer board configuration pebble first
        → IsBestAnswer board configuration pebble second → first ≡ second }
    ensures before { (board : PlainBoard) → (configuration : List ℕ) → (pebble : ℕ) → (label : ℕ)
        → (other : ℕ)
        → IsBestAnswer board configuration pebble label → other < label
        → Legal board configuration pebble other
        → HasSmallerValue board (moved configuration pebble other)
        (moved configuration pebble label) }
{}

/// A best request exists exactly if the value is finite, and then there is one.
/// Each smaller pebble has a legal answer after which the value is not smaller.
pub fn one_best_request()
    ensures exists { (board : PlainBoard) → (configuration : List ℕ)
        → IsConfiguration board configuration
        → ((number : ℕ) × HasValue board configuration (Finite number))
        ↔ ((pebble : ℕ) × IsBestRequest board configuration pebble) }
    ensures one { (board : PlainBoard) → (configuration : List ℕ) → (first : ℕ) → (second : ℕ)
        → IsBestRequest board configuration first → IsBestRequest board configuration second
        → first ≡ second }
    ensures before { (board : PlainBoard) → (configuration : List ℕ) → (pebble : ℕ) → (other : ℕ)
        → IsConfiguration board configuration
        → IsBestRequest board configuration pebble → other < pebble
        → (label : ℕ) × Legal board configuration other label
        × HasNoGreaterValue board configuration (moved configuration other label) }
{}

/// A labeller who can answer one more than a number of requests
/// can answer that number after a best answer.
#[tactic(auto, using(crate::proofs::BestAnswers::lasts_after))]
pub fn best_answers_last()
    ensures { (board : PlainBoard) → (number : ℕ) → (configuration : List ℕ) → (pebble : ℕ)
        → (label : ℕ) → pebble < board.pebbles
        → IsBestAnswer board configuration pebble label
        → LabellerTree board (suc number) configuration
        → LabellerTree board number (moved configuration pebble label) }
{}

/// After each legal answer to a best request the value is smaller.
pub fn best_requests_end()
    ensures { (board : PlainBoard) → (number : ℕ) → (configuration : List ℕ) → (pebble : ℕ)
        → (label : ℕ)
        → HasValue board configuration (Finite number) → IsBestRequest board configuration pebble
        → Legal board configuration pebble label
        → (depth : ℕ) × (depth < number)
        × HasValue board (moved configuration pebble label) (Finite depth) }
{}
