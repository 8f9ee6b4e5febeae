//! Laws over the definitions, each the contract of a function without a body.

ghost use Rattle.std.specs.Prelude.{◌≡◌, ℕ, suc, ◌<◌, ◌≤◌, ◌↔◌, List, slice_index};
ghost use Rattle.board_text.specs.PlainBoard.{PlainBoard, IsAntisymmetric, IsConfiguration};
ghost use Rattle.positions.specs.declared.value.Value.{Value as ValueData};
ghost use Rattle.positions.specs.Game.{LabellerTree, AdversaryTree};
ghost use Rattle.positions.specs.Gaps.{IsDominator};
ghost use Rattle.positions.specs.Value.{HasValue, HasValueAtMost};
ghost use Rattle.positions.specs.Table.{AnswerRow, RequestRow, Answers, IsClosed, IsListed};
ghost use Rattle.positions.specs.Table.{StopsAfter};
ghost use Rattle.positions.specs.declared.claim.Claim.{Claim as ClaimData};
ghost use Rattle.positions.specs.Claim.{Shows, Holds};
ghost use Rattle.positions.specs.Laws.{HasOneTree, HasOneValue, HasRequestTo, Occurs};

use crate::space::MAX_CONFIGURATIONS;

/// At each depth either the labeller or the adversary has a tree, and not both.
pub fn one_has_a_tree()
    ensures { (board : PlainBoard) → (depth : ℕ) → (configuration : List ℕ)
        → HasOneTree board depth configuration }
{}

/// A labeller who can answer `depth + 1` requests can answer `depth`.
#[tactic(auto, using(crate::proofs::Trees::lasts_less))]
pub fn lasts_less()
    ensures { (board : PlainBoard) → (depth : ℕ) → (configuration : List ℕ)
        → LabellerTree board (suc depth) configuration → LabellerTree board depth configuration }
{}

/// A value is at most `most + 1` exactly if, for some pebble,
/// all legal results have a value of at most `most`.
pub fn values_by_requests()
    ensures { (board : PlainBoard) → (most : ℕ) → (configuration : List ℕ)
        → HasValueAtMost board configuration (suc most) ↔ HasRequestTo board configuration most }
{}

/// No configuration has two values.
#[tactic(auto, using(crate::proofs::Values::same_value))]
pub fn one_value_at_most()
    ensures { (board : PlainBoard) → (configuration : List ℕ) → (first : ValueData)
        → (second : ValueData)
        → HasValue board configuration first → HasValue board configuration second
        → first ≡ second }
{}

/// A table that answers `most` requests gives a labeller's tree of that depth, a closed one trees
/// of every depth, and one that stops after `most` answers an adversary's tree of depth `most + 1`.
pub fn tables_give_trees()
    ensures answers { (board : PlainBoard) → (table : List AnswerRow) → (most : ℕ)
        → (configuration : List ℕ)
        → Answers board table most configuration → LabellerTree board most configuration }
    ensures closed { (board : PlainBoard) → (table : List AnswerRow) → (depth : ℕ)
        → (configuration : List ℕ)
        → IsClosed board table → IsListed table configuration
        → LabellerTree board depth configuration }
    ensures stops { (board : PlainBoard) → (table : List RequestRow) → (most : ℕ)
        → (configuration : List ℕ)
        → StopsAfter board table most configuration → AdversaryTree board (suc most) configuration }
{}

/// Each configuration has exactly one value, and no value that
/// is smaller than one that occurs is left out.
pub fn values_occur()
    ensures one { (board : PlainBoard) → (configuration : List ℕ)
        → IsConfiguration board configuration → HasOneValue board configuration }
    ensures smaller { (board : PlainBoard) → (less : ℕ) → (more : ℕ) → less ≤ more
        → Occurs board more → Occurs board less }
{}

/// At most one pebble dominates all others, and a lone one does exactly if it holds a label.
pub fn one_dominator()
    ensures several { (board : PlainBoard) → (configuration : List ℕ) → (first : ℕ) → (second : ℕ)
        → IsAntisymmetric board
        → IsDominator board configuration first → IsDominator board configuration second
        → first ≡ second }
    ensures lone { (board : PlainBoard) → (configuration : List ℕ) → board.pebbles ≡ 1
        → IsDominator board configuration 0 ↔ (slice_index configuration 0 < board.labels) }
{}

/// A claim that tables show holds.
#[tactic(auto, using(crate::proofs::Claims::claim_holds))]
pub fn shown_claims_hold()
    ensures { (board : PlainBoard) → (labeller : List AnswerRow) → (adversary : List RequestRow)
        → (claim : ClaimData)
        → IsConfiguration board board.start → Shows board labeller adversary claim
        → Holds board claim }
{}

/// The most configurations of a small board. CONTRIBUTING.md lists what else says this number.
pub fn limits()
    ensures { MAX_CONFIGURATIONS ≡ 1048576 }
{}
