//! Laws of answers and of places without a label, each the contract of a function without a body.

ghost use Rattle.std.specs.Prelude.{◌≡◌, ◌↔◌, ◌<◌, ◌≤◌, ℕ, List, length, All};
ghost use Rattle.board_text.specs.PlainBoard.{PlainBoard};
ghost use Rattle.positions.specs.Game.{LabellerTree, Legal, moved};
ghost use Rattle.positions.specs.Gaps.{IsDominator};
ghost use Rattle.strategies.specs.Best.{IsBestAnswer, IsBestRequest};
ghost use Rattle.domains.specs.Agreement.{AgreeBut};
ghost use Rattle.domains.specs.Lowest.{HasLowest};
ghost use Rattle.domains.specs.ValueOrder.{AreWorthTheSame};

/// The legal answers to a request, their results and its best answer depend on the other pebbles
/// alone: a table of the others' labels is enough to answer it.
pub fn answers_depend_on_others()
    ensures legal { (board : PlainBoard) → (first : List ℕ) → (second : List ℕ) → (pebble : ℕ)
        → (label : ℕ) → AgreeBut pebble first second → Legal board first pebble label
        → Legal board second pebble label }
    ensures results { (pebble : ℕ) → (label : ℕ) → (first : List ℕ) → (second : List ℕ)
        → AgreeBut pebble first second → moved first pebble label ≡ moved second pebble label }
    ensures best { (board : PlainBoard) → (first : List ℕ) → (second : List ℕ) → (pebble : ℕ)
        → (label : ℕ) → AgreeBut pebble first second → IsBestAnswer board first pebble label
        → IsBestAnswer board second pebble label }
{}

/// A pebble that dominates all others is never the best request, since it may stay on its label.
pub fn dominators_are_not_asked()
    ensures { (board : PlainBoard) → (configuration : List ℕ) → (pebble : ℕ)
        → IsDominator board configuration pebble → IsBestRequest board configuration pebble → ⊥ }
{}

/// A place that holds no label is a lowest label: with two pebbles or more, a configuration has the
/// same value on a domain as on the board with one more label, which all others beat, in its stead.
#[tactic(auto, using(crate::proofs::LemmasOfLaws::no_label_is_a_lowest_label_lemmas))]
pub fn no_label_is_a_lowest_label()
    ensures trees { (domain : PlainBoard) → (board : PlainBoard) → (depth : ℕ)
        → (configuration : List ℕ) → HasLowest domain board → 2 ≤ domain.pebbles
        → length configuration ≡ domain.pebbles
        → All (λ place. place < board.labels) configuration
        → LabellerTree domain depth configuration ↔ LabellerTree board depth configuration }
    ensures values { (domain : PlainBoard) → (board : PlainBoard)
        → (configuration : List ℕ) → HasLowest domain board → 2 ≤ domain.pebbles
        → length configuration ≡ domain.pebbles
        → All (λ place. place < board.labels) configuration
        → AreWorthTheSame domain configuration board configuration }
{}
