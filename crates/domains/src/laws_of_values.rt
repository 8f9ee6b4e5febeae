//! Laws of values, each the contract of a function without a body.

ghost use Rattle.std.specs.Prelude.{◌≡◌, ◌↔◌, ◌<◌, List, ℕ, length};
ghost use Rattle.board_text.specs.PlainBoard.{PlainBoard, IsConfiguration};
ghost use Rattle.positions.specs.Game.{LabellerTree};
ghost use Rattle.positions.specs.Laws.{HasOneValue};
ghost use Rattle.positions.specs.Ranks.{configurations};
ghost use Rattle.positions.specs.Table.{AnswerRow, IsClosed, IsListed};
ghost use Rattle.positions.specs.Value.{HasValue, HasValueAtMost};
ghost use Rattle.positions.specs.declared.value.Value.{Value as ValueData};
ghost use Rattle.positions.specs.declared.value.Value.TheVariants.{Finite, Forever};
ghost use Rattle.domains.specs.Kept.{IsKept, IsLowered};
ghost use Rattle.domains.specs.Minimax.{IsMinimax};
ghost use Rattle.domains.specs.ValueOrder.{IsWorthAtMost};

/// A function gives each configuration of a board its value exactly if it solves the minimax
/// equation: each value is the least over the pebbles of the greatest over the legal labels of one
/// more than the value after the move.
pub fn values_solve_one_equation()
    ensures { (board : PlainBoard) → (value : List ℕ → ValueData)
        → ((configuration : List ℕ) → IsConfiguration board configuration
        → HasValue board configuration (value configuration)) ↔ IsMinimax board value }
{}

/// A value is at most another one exactly if a labeller who answers any number of requests from
/// the first configuration answers as many from the second. Each list with a place for each pebble
/// has one value, also with places that hold no label on a board whose start has none of these.
#[tactic(auto, using(crate::proofs::LemmasOfLaws::values_compare_as_trees_lemmas))]
pub fn values_compare_as_trees()
    ensures order { (first : PlainBoard) → (second : PlainBoard)
        → (configuration : List ℕ) → (other : List ℕ) → length configuration ≡ first.pebbles
        → length other ≡ second.pebbles → IsWorthAtMost first configuration second other
        ↔ ((depth : ℕ) → LabellerTree first depth configuration → LabellerTree second depth other) }
    ensures one { (board : PlainBoard) → (configuration : List ℕ)
        → length configuration ≡ board.pebbles → HasOneValue board configuration }
{}

/// A configuration has the value forever exactly if some closed table lists it: one strategy for
/// any number of requests. A finite value is below the number of configurations.
#[tactic(auto, using(crate::proofs::LemmasOfLaws::for_ever_is_a_closed_table_lemmas))]
pub fn for_ever_is_a_closed_table()
    ensures table { (board : PlainBoard) → (configuration : List ℕ)
        → IsConfiguration board configuration → HasValue board configuration Forever
        ↔ ((table : List AnswerRow) × IsClosed board table × IsListed table configuration) }
    ensures finite { (board : PlainBoard) → (configuration : List ℕ)
        → IsConfiguration board configuration → (number : ℕ)
        → HasValue board configuration (Finite number) → number < configurations board }
{}

/// A property of the configurations of each board, named by a type that needs no value.
pub trait Property {
    /// The configuration of the board has the property.
    ghost holds: { PlainBoard → List ℕ → Type 0 };
}

/// A property of configurations lasts for ever if, at each configuration that has it, each request
/// has a legal answer that keeps it. A rank bounds the values of the configurations that have it
/// if, at each of them, some request has only legal answers that keep it and lower the rank.
pub fn kept_properties_last<Good: Property>()
    ensures for_ever { (board : PlainBoard) → IsKept (Good.holds board) board
        → (configuration : List ℕ) → Good.holds board configuration
        → HasValue board configuration Forever }
    ensures at_most { (board : PlainBoard) → (rank : List ℕ → ℕ)
        → IsLowered (Good.holds board) rank board
        → (configuration : List ℕ) → Good.holds board configuration
        → HasValueAtMost board configuration (rank configuration) }
{}

/// The rule of kept properties misses nothing. To last for ever is itself a property that answers
/// keep; and on the configurations that have finite values some rank that is the value is lowered.
pub fn lasting_is_kept()
    ensures for_ever { (board : PlainBoard) → IsKept (λ configuration.
        (length configuration ≡ board.pebbles) × HasValue board configuration Forever) board }
    ensures finite { (board : PlainBoard) → (rank : List ℕ → ℕ)
        × ((configuration : List ℕ) → length configuration ≡ board.pebbles → (number : ℕ)
        → HasValue board configuration (Finite number) → rank configuration ≡ number)
        × IsLowered (λ configuration. (length configuration ≡ board.pebbles)
        × (number : ℕ) × HasValue board configuration (Finite number)) rank board }
{}
