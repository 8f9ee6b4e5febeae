//! Laws of ranks, each the contract of a function without a body.

ghost use Rattle.std.specs.Prelude.{◌≡◌, ℕ, ◌<◌, ◌↔◌, List};
ghost use Rattle.board_text.specs.PlainBoard.{PlainBoard, IsConfiguration};
ghost use Rattle.positions.specs.Ranks.{configurations, rank_of, configuration_at, ComesBefore};

/// Ranks and configurations belong to each other, one to one.
pub fn ranks_and_configurations()
    ensures rank { (board : PlainBoard) → (rank : ℕ) → rank < configurations board
        → rank_of board (configuration_at board rank) ≡ rank }
    ensures configuration { (board : PlainBoard) → (configuration : List ℕ)
        → IsConfiguration board configuration
        → configuration_at board (rank_of board configuration) ≡ configuration }
    ensures is_rank { (board : PlainBoard) → (configuration : List ℕ)
        → IsConfiguration board configuration
        → rank_of board configuration < configurations board }
    ensures is_configuration { (board : PlainBoard) → (rank : ℕ) → rank < configurations board
        → IsConfiguration board (configuration_at board rank) }
{}

/// Ranks are in the order of the lists of labels, first label first.
#[tactic(auto, using(crate::proofs::Ranks::in_order))]
pub fn ranks_are_in_order()
    ensures { (board : PlainBoard) → (first : List ℕ) → (second : List ℕ)
        → IsConfiguration board first → IsConfiguration board second
        → (rank_of board first < rank_of board second) ↔ ComesBefore first second }
{}
